//! All lines of a derivation.
ghost use Rattle.std.specs.Prelude.{◌≡◌, ◌≤◌, ◌++◌, OnOk};
ghost use Rattle.std.specs.List.{All};
ghost use Rattle.model_core.specs.Directions.{directions as directions_in};
ghost use Rattle.model_core.specs.Valid.{IsValid};
ghost use Rattle.term_expand.specs.Expansion.{AreDirections, IsExpansion};
ghost use Rattle.derive_core.specs.Acceptance.{HaveSolvers};
ghost use Rattle.derive_core.specs.Derivation.{Finds};
ghost use Rattle.derive_core.specs.Lines.{block_lines};
ghost use Rattle.derive_core.specs.Works.{AreLines, HasLegs};

use crate::accept::Accepted;
use crate::betas::LineList;
use crate::block_lines::{push_generated_blocks, push_open_blocks};
use crate::coupling_lines::push_couplings;
use crate::fault::DeriveFault;
use crate::gauge_lines::gauge_lines_of;
use crate::outcomes::{Told, told_of};
use contraction_workers::Gate;
use model_core::Model;
use std::alloc::{AllocError, Global};
use std::thread::Threads;
use term_expand::Direction;

/// Adds the lines of Yukawa and scalar couplings, and of their blocks.
fn push_told(
    alloc: Global,
    lines: &mut LineList,
    model: &Model,
    directions: &[Direction],
    told: &[Told],
) -> Result<(), AllocError>
    requires valid { IsValid model.now }
    requires directions { AreDirections (directions_in model.now) directions.now }
    requires legs { All HasLegs told.now }
    ensures { OnOk result (lines.new ≡ lines.old ++ block_lines model.now told.now) }
{
    push_couplings(alloc, lines, told, directions)?;
    push_open_blocks(lines, model, directions, told)?;
    push_generated_blocks(alloc, lines, model, directions, told)
}

/// The lines of a model to one loop or two.
pub fn lines_of<R: Threads + Sync, G: Gate>(
    rt: &R,
    alloc: Global,
    accepted: &Accepted,
    loops: u32,
    workers: u32,
    gate: &G,
) -> Result<LineList, DeriveFault>
    requires valid { IsValid accepted.now.model }
    requires tensors { IsExpansion accepted.now.model accepted.now.tensors }
    requires solvers { HaveSolvers accepted.now.model accepted.now.solvers }
    requires low { 1 ≤ workers }
    requires high { workers ≤ 64 }
    ensures { Finds (AreLines loops) accepted.now.model result }
{
    let mut lines = gauge_lines_of(rt, alloc, accepted, loops, workers, gate)?;
    let told = told_of(rt, alloc, accepted, workers, gate)?;
    let directions = accepted.tensors.directions.as_slice();
    let blocks = told.as_slice();
    push_told(alloc, &mut lines, &accepted.model, directions, blocks)?;
    Ok(lines)
}
