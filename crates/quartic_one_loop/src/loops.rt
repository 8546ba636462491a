//! The loop of two quartic couplings.
ghost use Rattle.std.specs.Prelude.{◌≡◌, ◌<◌, length, IfOk, OnOk, IfErr};
ghost use Rattle.beta_poly.specs.Polynomial.{scale_poly};
ghost use Rattle.sparse_tensor.specs.Refusals.{IsTensorRefusal};
ghost use Rattle.sparse_tensor.specs.Tensor.{HasValues};
ghost use Rattle.su_reps.specs.Operators.{fraction};
ghost use Rattle.model_core.specs.Scalar.{scalar_components, scalar_coordinates};
ghost use Rattle.model_core.specs.Valid.{IsValid};
ghost use Rattle.yukawa_one_loop.specs.Parts.{coordinate_at};
ghost use Rattle.quartic_one_loop.specs.FourLegs.{AddsFour, IsQuartic, four_at};
ghost use Rattle.quartic_one_loop.specs.LoopSums.{ArePartnerLinks, loop_over};
ghost use Rattle.quartic_one_loop.specs.OrderShares.{loop_share};

use crate::pushes::push_scaled;
use crate::slices::slice_of;
use frac128::Frac;
use model_core::{Model, partner, scalar_count};
use sparse_tensor::{Link, LinkList, Sparse, TensorFault, ValueList};
use std::alloc::{AllocError, Global};

/// The links from each scalar component to its partner.
fn partner_links(alloc: Global, model: &Model) -> Result<LinkList, AllocError>
    requires { IsValid model.now }
    ensures { IfOk result (ArePartnerLinks model.now (length (scalar_components model.now))) }
{
    let mut links = LinkList::new(alloc);
    for place in 0..scalar_count(model) - 1 {
        links.push(Link {
            from: place,
            to: partner(model, place),
            value: Frac::one(),
        })?;
    }
    Ok(links)
}

/// The sum over f of L(a,b,e,f) L(e*,f*,c,d) for the scalar coordinate e at a place, along the links between partners.
fn loop_over(
    alloc: Global,
    model: &Model,
    quartic: &Sparse,
    links: &LinkList,
    place: u32,
) -> Result<Sparse, TensorFault>
    requires valid { IsValid model.now }
    requires quartic { IsQuartic model.now quartic.now }
    requires links { ArePartnerLinks model.now (length (scalar_components model.now)) links.now }
    requires place { place < length (scalar_coordinates model.now) }
    ensures value { IfOk result (HasValues 4 (four_at model.now (loop_over model.now (coordinate_at model.now place)))) }
    ensures refused { IfErr result IsTensorRefusal }
{
    let other = partner(model, place);
    let left = slice_of(alloc, quartic, 2, place)?;
    let right = slice_of(alloc, quartic, 0, other)?;
    left.contract(alloc, 2, &right, 0, links)
}

/// One eighth.
fn one_eighth() -> Frac
    ensures { result ≡ fraction 1 8 }
{
    Frac::new(1, 8).unwrap()
}

/// Adds 1/8 of what the scalar coordinate e at a place gives to the loop.
fn push_loop(
    alloc: Global,
    model: &Model,
    quartic: &Sparse,
    links: &LinkList,
    values: &mut ValueList,
    place: u32,
) -> Result<(), TensorFault>
    requires valid { IsValid model.now }
    requires quartic { IsQuartic model.now quartic.now }
    requires links { ArePartnerLinks model.now (length (scalar_components model.now)) links.now }
    requires place { place < length (scalar_coordinates model.now) }
    ensures value { OnOk result (AddsFour model.now (λ a b c d. scale_poly (fraction 1 8) (loop_over model.now (coordinate_at model.now place) a b c d)) values.old values.new) }
    ensures refused { IfErr result IsTensorRefusal }
{
    let product = loop_over(alloc, model, quartic, links, place)?;
    push_scaled(alloc, values, one_eighth(), &product)
}

/// Adds 1/8 of the sum over e and f of L(a,b,e,f) L(e*,f*,c,d), at each (a, b, c, d).
pub fn push_loops(
    alloc: Global,
    model: &Model,
    quartic: &Sparse,
    values: &mut ValueList,
) -> Result<(), TensorFault>
    requires valid { IsValid model.now }
    requires quartic { IsQuartic model.now quartic.now }
    ensures value { OnOk result (AddsFour model.now (loop_share model.now) values.old values.new) }
    ensures refused { IfErr result IsTensorRefusal }
{
    let links = partner_links(alloc, model)?;
    for place in 0..scalar_count(model) - 1 {
        push_loop(alloc, model, quartic, &links, values, place)?;
    }
    Ok(())
}
