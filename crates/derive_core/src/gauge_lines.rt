//! The lines of gauge couplings.
ghost use Rattle.std.specs.Prelude.{◌≡◌, ◌≤◌, ◌++◌, length, map, slice_get, Some, OnOk};
ghost use Rattle.std.specs.List.{enumerate_from};
ghost use Rattle.model_core.specs.GaugeBeta.{gauge_one_loop};
ghost use Rattle.model_core.specs.GaugeTwoLoop.{gauge_two_loop};
ghost use Rattle.model_core.specs.Valid.{IsValid};
ghost use Rattle.term_expand.specs.Expansion.{IsExpansion};
ghost use Rattle.derive_core.specs.Derivation.{Finds};
ghost use Rattle.derive_core.specs.Lines.{gauge_line, second_of, gauge_lines};

use crate::accept::Accepted;
use crate::betas::{Line, LineList};
use crate::fault::DeriveFault;
use beta_poly::{Mono, Poly, Symbol};
use contraction_workers::Gate;
use frac128::Frac;
use gauge_two_loop::{PolyList, gauge_one, gauge_two};
use model_core::{Group, Model};
use sparse_tensor::TensorFault;
use std::alloc::{AllocError, Global};
use std::thread::Threads;

/// The one-loop coefficient of the cube of the gauge coupling of the group at a place.
fn coefficient_of(model: &Model, place: u32, group: &Group) -> Result<Frac, DeriveFault>
    requires valid { IsValid model.now }
    requires group { slice_get model.now.groups place ≡ Some group.now }
    ensures { Finds (λ value m. value ≡ gauge_one_loop m place group.now) model.now result }
{
    match gauge_one(model, place) {
        Ok(value) => Ok(value),
        Err(pair) => Err(DeriveFault::Overflow(pair)),
    }
}

/// The one-loop beta function of the gauge coupling of the group at a place.
fn gauge_line(alloc: Global, model: &Model, place: u32, group: &Group) -> Result<Line, DeriveFault>
    requires valid { IsValid model.now }
    requires group { slice_get model.now.groups place ≡ Some group.now }
    ensures { Finds (λ line m. line ≡ gauge_line m (place, group.now)) model.now result }
{
    let symbol = Symbol {
        id: place as u16,
        real: true,
        conj: false,
    };
    let cube = Mono::power(alloc, symbol, 3)?;
    let value = coefficient_of(model, place, group)?;
    Ok(Line::Beta {
        symbol: symbol.id,
        loops: 1,
        value: Poly::term(alloc, &cube, value)?,
    })
}

/// The one-loop lines of a model.
fn first_lines(alloc: Global, model: &Model) -> Result<LineList, DeriveFault>
    requires { IsValid model.now }
    ensures { Finds (λ lines m. lines ≡ map (gauge_line m) (enumerate_from 0 m.groups)) model.now result }
{
    let mut lines = LineList::new(alloc);
    for place in 0..model.groups.len() {
        let line = gauge_line(alloc, model, place as u32, model.groups.item(place))?;
        lines.push(line)?;
    }
    Ok(lines)
}

/// The two-loop beta functions of a model's gauge couplings.
fn second_values<R: Threads + Sync, G: Gate>(
    rt: &R,
    alloc: Global,
    accepted: &Accepted,
    workers: u32,
    gate: &G,
) -> Result<PolyList, DeriveFault>
    requires valid { IsValid accepted.now.model }
    requires tensors { IsExpansion accepted.now.model accepted.now.tensors }
    requires low { 1 ≤ workers }
    requires high { workers ≤ 64 }
    ensures { Finds (λ values m. values ≡ map (gauge_two_loop m) (enumerate_from 0 m.groups)) accepted.now.model result }
{
    match gauge_two(rt, alloc, &accepted.model, &accepted.tensors, workers, gate) {
        Ok(values) => Ok(values),
        Err(TensorFault::Overflow(pair)) => Err(DeriveFault::Overflow(pair)),
        Err(TensorFault::NoMemory) => Err(DeriveFault::NoMemory),
    }
}

/// Adds a two-loop line for each beta function.
fn push_second_lines(
    alloc: Global,
    lines: &mut LineList,
    values: &PolyList,
) -> Result<(), AllocError>
    requires { length values.now ≤ 4 }
    ensures { OnOk result (lines.new ≡ lines.old ++ map second_of (enumerate_from 0 values.now)) }
{
    for place in 0..values.len() {
        lines.push(Line::Beta {
            symbol: place as u16,
            loops: 2,
            value: values.item(place).copy(alloc)?,
        })?;
    }
    Ok(())
}

/// The lines of the gauge couplings, to one loop or two.
pub fn gauge_lines_of<R: Threads + Sync, G: Gate>(
    rt: &R,
    alloc: Global,
    accepted: &Accepted,
    loops: u32,
    workers: u32,
    gate: &G,
) -> Result<LineList, DeriveFault>
    requires valid { IsValid accepted.now.model }
    requires tensors { IsExpansion accepted.now.model accepted.now.tensors }
    requires low { 1 ≤ workers }
    requires high { workers ≤ 64 }
    ensures { Finds (λ lines m. lines ≡ gauge_lines loops m) accepted.now.model result }
{
    let mut lines = first_lines(alloc, &accepted.model)?;
    if loops != 2 {
        return Ok(lines);
    }
    let values = second_values(rt, alloc, accepted, workers, gate)?;
    push_second_lines(alloc, &mut lines, &values)?;
    Ok(lines)
}
