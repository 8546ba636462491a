//! The loop of gauge couplings.
ghost use Rattle.std.specs.Prelude.{◌≡◌, ◌<◌, ◌^◌, IfOk, OnOk, IfErr};
ghost use Rattle.beta_poly.specs.Exponents.{AllWithin};
ghost use Rattle.sparse_tensor.specs.Refusals.{IsTensorRefusal};
ghost use Rattle.su_reps.specs.Operators.{fraction};
ghost use Rattle.model_core.specs.GaugeTwoLoop.{gauge_power};
ghost use Rattle.model_core.specs.Generators.{generators};
ghost use Rattle.model_core.specs.Scalar.{scalar_coordinates};
ghost use Rattle.model_core.specs.Valid.{IsValid};
ghost use Rattle.term_expand.specs.Projectors.{AreProjectors};
ghost use Rattle.gauge_check.specs.Actions.{AreActions, AreLegs};
ghost use Rattle.beta_formulas.specs.ScalarBeta.{generator_weight};
ghost use Rattle.quartic_one_loop.specs.FourLegs.{AddsFour};
ghost use Rattle.quartic_one_loop.specs.GaugePairs.{AreGaugeFactors, IsGaugeFactor, IsOfGroup, IsPartners, factor_share, group_coupling, share_factor, shares_of};
ghost use Rattle.quartic_one_loop.specs.OrderShares.{gauge_share};

use crate::pairs::{GeneratorMatrix, matrix_of, pair_matrix, partners_of};
use crate::pushes::push_multiple;
use beta_poly::{Mono, Poly};
use frac128::{Frac, ItemList};
use gauge_check::{ActionList, Legs, actions_of, legs_of};
use gauge_two_loop::gauge_symbol;
use model_core::{Generator, Group, Model};
use sparse_tensor::{LinkList, Sparse, TensorFault, ValueList};
use std::alloc::{AllocError, Global};
use term_expand::basis_of;
use yukawa_one_loop::identity_links;

/// A generator X as a factor of the sum over pairs.
#[derive(Drop)]
pub struct GaugeFactor {
    pub generator: Generator,
    /// The square of its group's coupling, with the weight of the group's generators.
    pub coupling: Poly,
    /// X.
    pub matrix: GeneratorMatrix,
    /// X', which has i and j swapped; the charge is its own.
    pub opposite: GeneratorMatrix,
}

/// One for each generator of a model.
pub type GaugeFactorList = ItemList<GaugeFactor>;

/// The weight of a group's generators: 1 for the U(1), and 1/2 for an SU(n).
fn weight_of(group: &Group) -> Frac
    ensures { result ≡ generator_weight group.now }
{
    if group.is_abelian() {
        return Frac::one();
    }
    Frac::new(1, 2).unwrap()
}

/// The square of the coupling of the group at a place.
fn squared_coupling(alloc: Global, place: u32) -> Result<Poly, AllocError>
    requires { place < 2 ^ 16 }
    ensures { IfOk result (λ square. square ≡ gauge_power place 2) }
{
    let square = Mono::power(alloc, gauge_symbol(place as usize), 2)?;
    Poly::term(alloc, &square, Frac::one())
}

/// The square of a group's coupling, with the weight of its generators.
fn group_coupling(alloc: Global, place: u32, group: &Group) -> Result<Poly, TensorFault>
    requires { place < 2 ^ 16 }
    ensures value { IfOk result (λ found. found ≡ group_coupling place group.now) }
    ensures refused { IfErr result IsTensorRefusal }
{
    let square = squared_coupling(alloc, place)?;
    Ok(square.scale(alloc, weight_of(group))?)
}

/// A generator of a model as a factor.
fn factor_of(
    alloc: Global,
    model: &Model,
    legs: &Legs,
    partners: &Sparse,
    generator: Generator,
) -> Result<GaugeFactor, TensorFault>
    requires valid { IsValid model.now }
    requires legs { AreLegs model.now legs.now }
    requires partners { IsPartners model.now partners.now }
    requires generator { IsOfGroup model.now generator }
    ensures value { IfOk result (IsGaugeFactor model.now) }
    ensures generator { IfOk result (λ factor. factor.generator ≡ generator) }
    ensures refused { IfErr result IsTensorRefusal }
{
    let group = model.groups.item(generator.place as usize);
    let coupling = group_coupling(alloc, generator.place, group)?;
    let other = Generator {
        place: generator.place,
        i: generator.j,
        j: generator.i,
    };
    let matrix = matrix_of(alloc, model, legs, partners, generator)?;
    let opposite = matrix_of(alloc, model, legs, partners, other)?;
    Ok(GaugeFactor {
        generator,
        coupling,
        matrix,
        opposite,
    })
}

/// The generators of a model as factors.
fn factors_of(
    alloc: Global,
    model: &Model,
    legs: &Legs,
    partners: &Sparse,
    actions: &ActionList,
) -> Result<GaugeFactorList, TensorFault>
    requires valid { IsValid model.now }
    requires legs { AreLegs model.now legs.now }
    requires partners { IsPartners model.now partners.now }
    requires actions { AreActions model.now (generators model.now) actions.now }
    ensures value { IfOk result (AreGaugeFactors model.now (generators model.now)) }
    ensures refused { IfErr result IsTensorRefusal }
{
    let mut factors = GaugeFactorList::new(alloc);
    for place in 0..actions.len() {
        let generator = actions.item(place).generator;
        factors.push(factor_of(alloc, model, legs, partners, generator)?)?;
    }
    Ok(factors)
}

/// Three eighths.
fn three_eighths() -> Frac
    ensures { result ≡ fraction 3 8 }
{
    Frac::new(3, 8).unwrap()
}

/// 3/8 of the product of two couplings.
fn share_factor(alloc: Global, left: &Poly, right: &Poly) -> Result<Poly, TensorFault>
    requires left { AllWithin 2 left.now }
    requires right { AllWithin 2 right.now }
    ensures value { IfOk result (λ found. found ≡ share_factor left.now right.now) }
    ensures refused { IfErr result IsTensorRefusal }
{
    let both = left.mul(alloc, right)?;
    Ok(both.scale(alloc, three_eighths())?)
}

/// Adds what a pair of generators gives.
fn push_pair(
    alloc: Global,
    values: &mut ValueList,
    model: &Model,
    projectors: &LinkList,
    left: &GaugeFactor,
    right: &GaugeFactor,
) -> Result<(), TensorFault>
    requires projectors { AreProjectors model.now.groups (scalar_coordinates model.now) projectors.now }
    requires left { IsGaugeFactor model.now left.now }
    requires right { IsGaugeFactor model.now right.now }
    ensures value { OnOk result (AddsFour model.now (factor_share model.now left.now right.now) values.old values.new) }
    ensures refused { IfErr result IsTensorRefusal }
{
    let first = pair_matrix(alloc, projectors, &left.matrix, &right.matrix)?;
    let second = pair_matrix(alloc, projectors, &left.opposite, &right.opposite)?;
    let links = identity_links(alloc, 1)?;
    let both = first.contract(alloc, 2, &second, 2, &links)?;
    let factor = share_factor(alloc, &left.coupling, &right.coupling)?;
    push_multiple(alloc, values, &factor, &both)
}

/// Adds what a generator gives with all others.
fn push_pairs(
    alloc: Global,
    values: &mut ValueList,
    model: &Model,
    projectors: &LinkList,
    factors: &GaugeFactorList,
    left: &GaugeFactor,
) -> Result<(), TensorFault>
    requires projectors { AreProjectors model.now.groups (scalar_coordinates model.now) projectors.now }
    requires factors { AreGaugeFactors model.now (generators model.now) factors.now }
    requires left { IsGaugeFactor model.now left.now }
    ensures value { OnOk result (AddsFour model.now (shares_of model.now factors.now left.now) values.old values.new) }
    ensures refused { IfErr result IsTensorRefusal }
{
    for place in 0..factors.len() {
        push_pair(alloc, values, model, projectors, left, factors.item(place))?;
    }
    Ok(())
}

/// Adds what all pairs of generators give.
fn push_all(
    alloc: Global,
    values: &mut ValueList,
    model: &Model,
    projectors: &LinkList,
    factors: &GaugeFactorList,
) -> Result<(), TensorFault>
    requires valid { IsValid model.now }
    requires projectors { AreProjectors model.now.groups (scalar_coordinates model.now) projectors.now }
    requires factors { AreGaugeFactors model.now (generators model.now) factors.now }
    ensures value { OnOk result (AddsFour model.now (gauge_share model.now) values.old values.new) }
    ensures refused { IfErr result IsTensorRefusal }
{
    for place in 0..factors.len() {
        let left = factors.item(place);
        push_pairs(alloc, values, model, projectors, factors, left)?;
    }
    Ok(())
}

/// Adds 3/8 of the sum over groups k and l of g_k^2 g_l^2 A_kl(a,b,c,d), at each (a, b, c, d).
pub fn push_gauges(alloc: Global, model: &Model, values: &mut ValueList) -> Result<(), TensorFault>
    requires valid { IsValid model.now }
    ensures value { OnOk result (AddsFour model.now (gauge_share model.now) values.old values.new) }
    ensures refused { IfErr result IsTensorRefusal }
{
    let basis = basis_of(alloc, model)?;
    let legs = legs_of(alloc, model)?;
    let actions = actions_of(alloc, model, &legs)?;
    let partners = partners_of(alloc, model)?;
    let factors = factors_of(alloc, model, &legs, &partners, &actions)?;
    push_all(alloc, values, model, &basis.scalar_links, &factors)
}
