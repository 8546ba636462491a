//! The parts of a beta function at a scalar coordinate, as values with their keys, and the matrix that they make.
ghost use Rattle.std.specs.Prelude.{◌<◌, pos, length, IfOk, OnOk, IfErr};
ghost use Rattle.frac128.specs.Rational.{whole};
ghost use Rattle.beta_poly.specs.Polynomial.{scale_poly, mul_poly};
ghost use Rattle.sparse_tensor.specs.Refusals.{IsTensorRefusal};
ghost use Rattle.su_reps.specs.Operators.{fraction};
ghost use Rattle.model_core.specs.GaugeTwoLoop.{negative};
ghost use Rattle.model_core.specs.Scalar.{partner, scalar_coordinates};
ghost use Rattle.beta_formulas.specs.YukawaBeta.{beta_matrix, gauge_part, leg_line, leg_part, scalar_part, scalar_square, vertex_line, vertex_part, yukawa};
ghost use Rattle.yukawa_one_loop.specs.Matrices.{AddsMatrix, IsMatrix};
ghost use Rattle.yukawa_one_loop.specs.Parts.{IsLines, coordinate_at};

use crate::gauges::push_group;
use crate::lines::{Lines, chain, half, scalar_square, two};
use crate::products::{push_multiple, push_scaled};
use model_core::partner;
use sparse_tensor::{Sparse, TensorFault, ValueList};
use std::alloc::Global;

/// Adds what a scalar coordinate b gives to the legs of Y[a]: half of Y[b] Yd[b*] Y[a] and of Y[a] Yd[b*] Y[b].
fn push_leg(
    alloc: Global,
    lines: &Lines,
    values: &mut ValueList,
    a: u32,
    b: u32,
) -> Result<(), TensorFault>
    requires lines { IsLines lines.now }
    requires a { a < length (scalar_coordinates lines.now.model.now) }
    requires b { b < length (scalar_coordinates lines.now.model.now) }
    ensures value { OnOk result (AddsMatrix lines.now.model.now (λ j k. scale_poly (fraction 1 2) (leg_line lines.now.model.now (coordinate_at lines.now.model.now a) (coordinate_at lines.now.model.now b) j k)) values.old values.new) }
    ensures refused { IfErr result IsTensorRefusal }
{
    let other = partner(lines.model, b);
    let first = chain(alloc, lines, b, other, a)?;
    let second = chain(alloc, lines, a, other, b)?;
    push_scaled(alloc, values, half(), &first)?;
    push_scaled(alloc, values, half(), &second)
}

/// Adds the part of the legs at a scalar coordinate a.
fn push_legs(
    alloc: Global,
    lines: &Lines,
    values: &mut ValueList,
    a: u32,
) -> Result<(), TensorFault>
    requires lines { IsLines lines.now }
    requires a { a < length (scalar_coordinates lines.now.model.now) }
    ensures value { OnOk result (AddsMatrix lines.now.model.now (leg_part lines.now.model.now (coordinate_at lines.now.model.now a)) values.old values.new) }
    ensures refused { IfErr result IsTensorRefusal }
{
    for b in 0..lines.dummy {
        push_leg(alloc, lines, values, a, b)?;
    }
    Ok(())
}

/// Adds what a scalar coordinate b gives to the vertex of Y[a]: 2 Y[b] Yd[a] Y[b*].
fn push_vertex(
    alloc: Global,
    lines: &Lines,
    values: &mut ValueList,
    a: u32,
    b: u32,
) -> Result<(), TensorFault>
    requires lines { IsLines lines.now }
    requires a { a < length (scalar_coordinates lines.now.model.now) }
    requires b { b < length (scalar_coordinates lines.now.model.now) }
    ensures value { OnOk result (AddsMatrix lines.now.model.now (λ j k. scale_poly (whole (pos 2)) (vertex_line lines.now.model.now (coordinate_at lines.now.model.now a) (coordinate_at lines.now.model.now b) j k)) values.old values.new) }
    ensures refused { IfErr result IsTensorRefusal }
{
    let other = partner(lines.model, b);
    let product = chain(alloc, lines, b, a, other)?;
    push_scaled(alloc, values, two(), &product)
}

/// Adds the part of the vertex at a scalar coordinate a.
fn push_vertices(
    alloc: Global,
    lines: &Lines,
    values: &mut ValueList,
    a: u32,
) -> Result<(), TensorFault>
    requires lines { IsLines lines.now }
    requires a { a < length (scalar_coordinates lines.now.model.now) }
    ensures value { OnOk result (AddsMatrix lines.now.model.now (vertex_part lines.now.model.now (coordinate_at lines.now.model.now a)) values.old values.new) }
    ensures refused { IfErr result IsTensorRefusal }
{
    for b in 0..lines.dummy {
        push_vertex(alloc, lines, values, a, b)?;
    }
    Ok(())
}

/// Adds what a scalar coordinate b gives to the scalar leg of Y[a]: S2(a, b*) Y[b].
fn push_scalar(
    alloc: Global,
    lines: &Lines,
    values: &mut ValueList,
    a: u32,
    b: u32,
) -> Result<(), TensorFault>
    requires lines { IsLines lines.now }
    requires a { a < length (scalar_coordinates lines.now.model.now) }
    requires b { b < length (scalar_coordinates lines.now.model.now) }
    ensures value { OnOk result (AddsMatrix lines.now.model.now (λ j k. mul_poly (scalar_square lines.now.model.now (coordinate_at lines.now.model.now a) (partner (coordinate_at lines.now.model.now b))) (yukawa lines.now.model.now (coordinate_at lines.now.model.now b) j k)) values.old values.new) }
    ensures refused { IfErr result IsTensorRefusal }
{
    let other = partner(lines.model, b);
    let square = scalar_square(alloc, lines, a, other)?;
    let matrix = lines.matrices.plain.item(b as usize);
    push_multiple(alloc, values, &square, matrix)
}

/// Adds the part of the scalar leg at a scalar coordinate a: none at the dummy.
fn push_scalars(
    alloc: Global,
    lines: &Lines,
    values: &mut ValueList,
    a: u32,
) -> Result<(), TensorFault>
    requires lines { IsLines lines.now }
    requires a { a < length (scalar_coordinates lines.now.model.now) }
    ensures value { OnOk result (AddsMatrix lines.now.model.now (scalar_part lines.now.model.now (coordinate_at lines.now.model.now a)) values.old values.new) }
    ensures refused { IfErr result IsTensorRefusal }
{
    if a == lines.dummy {
        return Ok(());
    }
    for b in 0..lines.dummy {
        push_scalar(alloc, lines, values, a, b)?;
    }
    Ok(())
}

/// Adds the gauge part at a scalar coordinate a.
fn push_gauge(
    alloc: Global,
    lines: &Lines,
    values: &mut ValueList,
    a: u32,
) -> Result<(), TensorFault>
    requires lines { IsLines lines.now }
    requires a { a < length (scalar_coordinates lines.now.model.now) }
    ensures value { OnOk result (AddsMatrix lines.now.model.now (λ j k. negative (gauge_part lines.now.model.now (coordinate_at lines.now.model.now a) j k)) values.old values.new) }
    ensures refused { IfErr result IsTensorRefusal }
{
    let matrix = lines.matrices.plain.item(a as usize);
    for place in 0..lines.gauges.len() {
        push_group(alloc, values, lines.gauges.item(place), matrix)?;
    }
    Ok(())
}

/// The beta function at a scalar coordinate a, as a matrix over the fermion components.
pub fn beta_matrix(alloc: Global, lines: &Lines, a: u32) -> Result<Sparse, TensorFault>
    requires lines { IsLines lines.now }
    requires a { a < length (scalar_coordinates lines.now.model.now) }
    ensures value { IfOk result (IsMatrix lines.now.model.now (beta_matrix lines.now.model.now (coordinate_at lines.now.model.now a))) }
    ensures refused { IfErr result IsTensorRefusal }
{
    let mut values = ValueList::new(alloc);
    push_legs(alloc, lines, &mut values, a)?;
    push_vertices(alloc, lines, &mut values, a)?;
    push_scalars(alloc, lines, &mut values, a)?;
    push_gauge(alloc, lines, &mut values, a)?;
    Sparse::gather(alloc, 2, values)
}
