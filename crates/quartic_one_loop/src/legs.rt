//! The self-energies of the legs.
ghost use Rattle.std.specs.Prelude.{◌≡◌, ◌<◌, ◌++◌, ◌∷◌, [], length, IfOk, OnOk, IfErr};
ghost use Rattle.std.specs.List.{All};
ghost use Rattle.beta_poly.specs.Exponents.{AllWithin};
ghost use Rattle.sparse_tensor.specs.Refusals.{IsTensorRefusal};
ghost use Rattle.su_reps.specs.Operators.{fraction};
ghost use Rattle.model_core.specs.Scalar.{scalar_coordinates};
ghost use Rattle.model_core.specs.Valid.{IsValid};
ghost use Rattle.yukawa_one_loop.specs.Parts.{IsLines};
ghost use Rattle.quartic_one_loop.specs.FourLegs.{AddsFour, AreWithin, IsQuartic, IsYukawa};
ghost use Rattle.quartic_one_loop.specs.LegParts.{AreEnergies, energy_at, energy_row};
ghost use Rattle.quartic_one_loop.specs.OrderShares.{leg_share};

use crate::pushes::push_scaled;
use beta_poly::Poly;
use frac128::{Frac, NumberList};
use model_core::{Model, partner};
use sparse_tensor::{Sparse, TensorFault, Value, ValueList};
use std::alloc::{AllocError, Global};
use yukawa_one_loop::{Lines, identity_links, lines_of, scalar_square};

/// One sixth.
fn sixth() -> Frac
    ensures { result ≡ fraction 1 6 }
{
    Frac::new(1, 6).unwrap()
}

/// A key of two places.
fn pair_key(alloc: Global, first: u32, second: u32) -> Result<NumberList, AllocError>
    ensures { IfOk result (λ key. key ≡ first ∷ second ∷ []) }
{
    let places = Vec::from_slice(alloc, &[first, second])?;
    Ok(NumberList::from_vec(places))
}

/// S2 at a scalar coordinate and the partner of another.
fn self_energy(alloc: Global, lines: &Lines, a: u32, e: u32) -> Result<Poly, TensorFault>
    requires lines { IsLines lines.now }
    requires a { a < length (scalar_coordinates lines.now.model.now) }
    requires e { e < length (scalar_coordinates lines.now.model.now) }
    ensures value { IfOk result (λ found. found ≡ energy_at lines.now.model.now a e) }
    ensures within { IfOk result (AllWithin 2) }
    ensures refused { IfErr result IsTensorRefusal }
{
    let other = partner(lines.model, e);
    scalar_square(alloc, lines, a, other)
}

/// Adds the self-energies of a scalar coordinate with each component.
fn push_row(alloc: Global, lines: &Lines, values: &mut ValueList, a: u32) -> Result<(), TensorFault>
    requires lines { IsLines lines.now }
    requires a { a < length (scalar_coordinates lines.now.model.now) }
    ensures value { OnOk result (values.new ≡ values.old ++ energy_row lines.now.model.now lines.now.dummy a) }
    ensures within { All (λ v. AllWithin 2 v.value) values.old → OnOk result (All (λ v. AllWithin 2 v.value) values.new) }
    ensures refused { IfErr result IsTensorRefusal }
{
    for e in 0..lines.dummy {
        values.push(Value {
            key: pair_key(alloc, a, e)?,
            value: self_energy(alloc, lines, a, e)?,
        })?;
    }
    Ok(())
}

/// The self-energies of all scalar components.
fn self_energies(alloc: Global, lines: &Lines) -> Result<Sparse, TensorFault>
    requires lines { IsLines lines.now }
    ensures value { IfOk result (AreEnergies lines.now.model.now) }
    ensures within { IfOk result (AreWithin 2) }
    ensures refused { IfErr result IsTensorRefusal }
{
    let mut values = ValueList::new(alloc);
    for a in 0..lines.dummy {
        push_row(alloc, lines, &mut values, a)?;
    }
    Sparse::gather(alloc, 2, values)
}

/// Adds 1/6 of the sum over e of S2(a,e*) L(e,b,c,d), at each (a, b, c, d) where a isn't the dummy.
pub fn push_legs(
    alloc: Global,
    model: &Model,
    yukawa: &Sparse,
    quartic: &Sparse,
    values: &mut ValueList,
) -> Result<(), TensorFault>
    requires valid { IsValid model.now }
    requires yukawa { IsYukawa model.now yukawa.now }
    requires quartic { IsQuartic model.now quartic.now }
    ensures value { OnOk result (AddsFour model.now (leg_share model.now) values.old values.new) }
    ensures refused { IfErr result IsTensorRefusal }
{
    let lines = lines_of(alloc, model, yukawa)?;
    let energies = self_energies(alloc, &lines)?;
    let links = identity_links(alloc, lines.dummy)?;
    let tensor = energies.contract(alloc, 1, quartic, 0, &links)?;
    push_scaled(alloc, values, sixth(), &tensor)
}
