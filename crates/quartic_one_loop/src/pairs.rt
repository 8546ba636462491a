//! Pairs of generators on the scalar coordinates.
ghost use Rattle.std.specs.Prelude.{◌≡◌, ◌<◌, ◌+◌, ◌==◌, false, length, IfOk, OnOk, IfErr};
ghost use Rattle.frac128.specs.Rational.{one_ℚ};
ghost use Rattle.beta_poly.specs.Polynomial.{constant};
ghost use Rattle.sparse_tensor.specs.Refusals.{IsTensorRefusal};
ghost use Rattle.sparse_tensor.specs.Tensor.{rank_of};
ghost use Rattle.model_core.specs.declared.generator.Generator.{Generator};
ghost use Rattle.model_core.specs.declared.model.Model.{Model};
ghost use Rattle.model_core.specs.Scalar.{scalar_coordinates};
ghost use Rattle.model_core.specs.Valid.{IsValid};
ghost use Rattle.term_expand.specs.Projectors.{AreProjectors};
ghost use Rattle.gauge_check.specs.Actions.{AreLegs, IsGenerator};
ghost use Rattle.beta_formulas.specs.ScalarBeta.{pair_entry};
ghost use Rattle.quartic_one_loop.specs.GaugePairs.{ArePartnerValues, HasNumbers, IsGeneratorMatrix, IsPartners, NumberMatrix, product_at, sum_at};

use beta_poly::Poly;
use frac128::Frac;
use gauge_check::{Legs, generator_links, push_entries};
use model_core::{Generator, Model, partner, scalar_count};
use sparse_tensor::{LinkList, Sparse, TensorFault, Value, ValueList};
use std::alloc::{AllocError, Global};
use term_expand::{copied, no_symbols};

/// A generator X on the scalar coordinates.
#[derive(Drop)]
pub struct GeneratorMatrix {
    /// X as links.
    pub links: LinkList,
    /// X(a*, b) at (a, b, 0).
    pub at_partners: Sparse,
}

/// The polynomial 1.
#[tactic(auto, using(term_expand::proofs::Constants::constant_term))]
fn unit(alloc: Global) -> Result<Poly, AllocError>
    ensures { IfOk result (λ p. p ≡ constant one_ℚ) }
{
    Poly::term(alloc, &no_symbols(alloc)?, Frac::one())
}

/// Adds 1 at a place, its partner's place, and 0.
fn push_partner(
    alloc: Global,
    values: &mut ValueList,
    model: &Model,
    place: u32,
) -> Result<(), AllocError>
    requires valid { IsValid model.now }
    requires place { place < length (scalar_coordinates model.now) }
    requires before { ArePartnerValues model.now place values.old }
    ensures { OnOk result (ArePartnerValues model.now (place + 1) values.new) }
{
    let other = partner(model, place);
    values.push(Value {
        key: copied(alloc, &[place, other, 0])?,
        value: unit(alloc)?,
    })?;
    Ok(())
}

/// The tensor with 1 at (a, a*, 0) for each scalar coordinate a.
pub fn partners_of(alloc: Global, model: &Model) -> Result<Sparse, TensorFault>
    requires valid { IsValid model.now }
    ensures value { IfOk result (IsPartners model.now) }
    ensures refused { IfErr result IsTensorRefusal }
{
    let mut values = ValueList::new(alloc);
    for place in 0..scalar_count(model) {
        push_partner(alloc, &mut values, model, place)?;
    }
    Sparse::gather(alloc, 3, values)
}

/// A generator on the scalar coordinates of a model.
pub fn matrix_of(
    alloc: Global,
    model: &Model,
    legs: &Legs,
    partners: &Sparse,
    generator: Generator,
) -> Result<GeneratorMatrix, TensorFault>
    requires valid { IsValid model.now }
    requires legs { AreLegs model.now legs.now }
    requires partners { IsPartners model.now partners.now }
    requires special { (generator.i == 0) ≡ false → IsGenerator model.now.groups generator.place generator.i generator.j }
    ensures value { IfOk result (IsGeneratorMatrix model.now generator) }
    ensures refused { IfErr result IsTensorRefusal }
{
    let groups = model.groups.as_slice();
    let scalars = model.scalars.as_slice();
    let links = generator_links(alloc, groups, scalars, legs.scalars.as_slice(), generator)?;
    let at_partners = partners.project(alloc, 1, &links)?;
    Ok(GeneratorMatrix { links, at_partners })
}

/// The entries of the product of two generators, projected, with the first leg's partner.
fn product(
    alloc: Global,
    projectors: &LinkList,
    left: &GeneratorMatrix,
    right: &GeneratorMatrix,
) -> Result<Sparse, TensorFault>
    requires rank { rank_of left.now.at_partners ≡ 3 }
    ensures rank { IfOk result (λ t. rank_of t ≡ 3) }
    ensures value { (model : Model) (x z : Generator) → AreProjectors model.groups (scalar_coordinates model) projectors.now → IsGeneratorMatrix model x left.now → IsGeneratorMatrix model z right.now → IfOk result (HasNumbers model (product_at model x z)) }
    ensures refused { IfErr result IsTensorRefusal }
{
    let both = left.at_partners.project(alloc, 1, &right.links)?;
    both.project(alloc, 1, projectors)
}

/// The sum of two matrices of numbers.
fn sum_of(alloc: Global, left: &Sparse, right: &Sparse) -> Result<Sparse, TensorFault>
    requires left { rank_of left.now ≡ 3 }
    requires right { rank_of right.now ≡ 3 }
    ensures rank { IfOk result (λ t. rank_of t ≡ 3) }
    ensures value { (model : Model) (f g : NumberMatrix) → HasNumbers model f left.now → HasNumbers model g right.now → IfOk result (HasNumbers model (sum_at f g)) }
    ensures refused { IfErr result IsTensorRefusal }
{
    let mut values = ValueList::new(alloc);
    push_entries(alloc, &mut values, left)?;
    push_entries(alloc, &mut values, right)?;
    Sparse::gather(alloc, 3, values)
}

/// The matrix of a pair of generators X and Z: the entry of X Z + Z X at (a*, b), at (a, b, 0).
pub fn pair_matrix(
    alloc: Global,
    projectors: &LinkList,
    left: &GeneratorMatrix,
    right: &GeneratorMatrix,
) -> Result<Sparse, TensorFault>
    requires left { rank_of left.now.at_partners ≡ 3 }
    requires right { rank_of right.now.at_partners ≡ 3 }
    ensures rank { IfOk result (λ t. rank_of t ≡ 3) }
    ensures value { (model : Model) (x z : Generator) → AreProjectors model.groups (scalar_coordinates model) projectors.now → IsGeneratorMatrix model x left.now → IsGeneratorMatrix model z right.now → IfOk result (HasNumbers model (pair_entry model x z)) }
    ensures refused { IfErr result IsTensorRefusal }
{
    let one = product(alloc, projectors, left, right)?;
    let other = product(alloc, projectors, right, left)?;
    sum_of(alloc, &one, &other)
}
