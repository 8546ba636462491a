//! What the parts of the beta functions are made of.
ghost use Rattle.std.specs.Prelude.{◌≡◌, ◌<◌, pos, length, IfOk, IfErr};
ghost use Rattle.frac128.specs.Rational.{whole};
ghost use Rattle.beta_poly.specs.Exponents.{AllWithin};
ghost use Rattle.sparse_tensor.specs.Refusals.{IsTensorRefusal};
ghost use Rattle.sparse_tensor.specs.Tensor.{HasValues};
ghost use Rattle.su_reps.specs.Operators.{fraction};
ghost use Rattle.model_core.specs.Directions.{yukawa_at};
ghost use Rattle.model_core.specs.Scalar.{scalar_coordinates};
ghost use Rattle.model_core.specs.Valid.{IsValid};
ghost use Rattle.beta_formulas.specs.YukawaBeta.{conjugate, scalar_square, times, trace, yukawa};
ghost use Rattle.yukawa_one_loop.specs.Matrices.{IsMatrix};
ghost use Rattle.yukawa_one_loop.specs.Parts.{IsLines, chain, coordinate_at};

use crate::gauges::{GaugeList, gauge_lines};
use crate::matrices::{YukawaMatrices, yukawa_matrices};
use crate::products::{identity_links, times, trace};
use beta_poly::Poly;
use frac128::Frac;
use model_core::{Model, fermion_count, scalar_count};
use sparse_tensor::{LinkList, Sparse, TensorFault};
use std::alloc::Global;

/// What all parts of the beta functions of a model are made of.
#[derive(Drop)]
pub struct Lines<'a> {
    /// The model.
    pub model: &'a Model,
    /// The links from each fermion component to itself.
    pub links: LinkList,
    /// The Yukawa matrices.
    pub matrices: YukawaMatrices,
    /// What the groups give to the gauge part.
    pub gauges: GaugeList,
    /// The number of fermion components.
    pub fermions: u32,
    /// The place of the dummy, behind all other scalar coordinates.
    pub dummy: u32,
}

/// What the parts are made of, from a valid model and its Yukawa tensor.
pub fn lines_of<'a>(
    alloc: Global,
    model: &'a Model,
    yukawa: &Sparse,
) -> Result<Lines<'a>, TensorFault>
    requires valid { IsValid model.now }
    requires yukawa { HasValues 3 (yukawa_at model.now) yukawa.now }
    ensures value { IfOk result IsLines }
    ensures model { IfOk result (λ lines. lines.model.now ≡ model.now) }
    ensures refused { IfErr result IsTensorRefusal }
{
    let fermions = fermion_count(model);
    let links = identity_links(alloc, fermions)?;
    let matrices = yukawa_matrices(alloc, model, yukawa)?;
    let gauges = gauge_lines(alloc, model)?;
    Ok(Lines {
        model,
        links,
        matrices,
        gauges,
        fermions,
        dummy: scalar_count(model) - 1,
    })
}

/// The product of the Yukawa matrix at a coordinate, the conjugate one at another, and the Yukawa matrix at a third.
pub fn chain(
    alloc: Global,
    lines: &Lines,
    first: u32,
    middle: u32,
    last: u32,
) -> Result<Sparse, TensorFault>
    requires lines { IsLines lines.now }
    requires first { first < length (scalar_coordinates lines.now.model.now) }
    requires middle { middle < length (scalar_coordinates lines.now.model.now) }
    requires last { last < length (scalar_coordinates lines.now.model.now) }
    ensures value { IfOk result (IsMatrix lines.now.model.now (chain lines.now.model.now (coordinate_at lines.now.model.now first) (coordinate_at lines.now.model.now middle) (coordinate_at lines.now.model.now last))) }
    ensures refused { IfErr result IsTensorRefusal }
{
    let left = lines.matrices.plain.item(first as usize);
    let inner = lines.matrices.conjugate.item(middle as usize);
    let right = lines.matrices.plain.item(last as usize);
    let both = times(alloc, &lines.links, left, inner)?;
    times(alloc, &lines.links, &both, right)
}

/// The trace of the conjugate matrix at a coordinate times the Yukawa matrix at another.
fn pair_trace(alloc: Global, lines: &Lines, first: u32, second: u32) -> Result<Poly, TensorFault>
    requires lines { IsLines lines.now }
    requires first { first < length (scalar_coordinates lines.now.model.now) }
    requires second { second < length (scalar_coordinates lines.now.model.now) }
    ensures value { IfOk result (λ found. found ≡ trace lines.now.model.now (times lines.now.model.now (conjugate lines.now.model.now (coordinate_at lines.now.model.now first)) (yukawa lines.now.model.now (coordinate_at lines.now.model.now second)))) }
    ensures within { IfOk result (AllWithin 2) }
    ensures refused { IfErr result IsTensorRefusal }
{
    let left = lines.matrices.conjugate.item(first as usize);
    let right = lines.matrices.plain.item(second as usize);
    let both = times(alloc, &lines.links, left, right)?;
    trace(alloc, lines.fermions, &both)
}

/// One half.
pub fn half() -> Frac
    ensures { result ≡ fraction 1 2 }
{
    Frac::new(1, 2).unwrap()
}

/// Two.
pub fn two() -> Frac
    ensures { result ≡ whole (pos 2) }
{
    Frac::whole(2)
}

/// S2 at two scalar coordinates: half the trace of the products of their matrices in both orders.
pub fn scalar_square(
    alloc: Global,
    lines: &Lines,
    first: u32,
    second: u32,
) -> Result<Poly, TensorFault>
    requires lines { IsLines lines.now }
    requires first { first < length (scalar_coordinates lines.now.model.now) }
    requires second { second < length (scalar_coordinates lines.now.model.now) }
    ensures value { IfOk result (λ found. found ≡ scalar_square lines.now.model.now (coordinate_at lines.now.model.now first) (coordinate_at lines.now.model.now second)) }
    ensures within { IfOk result (AllWithin 2) }
    ensures refused { IfErr result IsTensorRefusal }
{
    let one = pair_trace(alloc, lines, first, second)?;
    let other = pair_trace(alloc, lines, second, first)?;
    let sum = one.add(alloc, &other)?;
    Ok(sum.scale(alloc, half())?)
}
