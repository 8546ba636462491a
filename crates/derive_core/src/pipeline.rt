//! The derivation of beta functions, and the check of a file.
ghost use Rattle.std.specs.Prelude.{◌≤◌};
ghost use Rattle.model_core.specs.Valid.{IsValid};
ghost use Rattle.term_expand.specs.Expansion.{IsExpansion};
ghost use Rattle.derive_core.specs.Acceptance.{HaveSolvers};
ghost use Rattle.derive_core.specs.Derivation.{AreBetas, AreDerived, IsChecked, Finds, Derives};

use crate::accept::{Accepted, accept};
use crate::betas::{Betas, Checked};
use crate::fault::DeriveFault;
use crate::lines::lines_of;
use crate::targets::targets_of;
use contraction_workers::Gate;
use std::alloc::Global;
use std::thread::Threads;

/// What is derived from an accepted model to one loop or two.
fn betas_of<R: Threads + Sync, G: Gate>(
    rt: &R,
    alloc: Global,
    accepted: &Accepted,
    loops: u32,
    workers: u32,
    gate: &G,
) -> Result<Betas, DeriveFault>
    requires valid { IsValid accepted.now.model }
    requires tensors { IsExpansion accepted.now.model accepted.now.tensors }
    requires solvers { HaveSolvers accepted.now.model accepted.now.solvers }
    requires low { 1 ≤ workers }
    requires high { workers ≤ 64 }
    ensures { Finds (AreBetas loops) accepted.now.model result }
{
    let model = &accepted.model;
    Ok(Betas {
        model: model.name.copy(),
        loops,
        targets: targets_of(alloc, model)?,
        lines: lines_of(rt, alloc, accepted, loops, workers, gate)?,
    })
}

/// Derives the beta functions of the model file that the bytes are: those of the gauge couplings, to one loop or two,
/// and those of the Yukawa and scalar couplings to one loop, with the open and the generated blocks. It refuses, in this
/// order, the file's first bad place, the first fault of a term, and the first anomaly.
///
/// `loops` is 1 or 2; `workers` is 1 to 64, and no result depends on it. `Overflow` comes only for a model that has a
/// term, a scalar field, or a charge that isn't a multiple of 1/6 or is above 10 in size.
pub fn derive<R: Threads + Sync, G: Gate>(
    rt: &R,
    alloc: Global,
    bytes: &[u8],
    loops: u32,
    workers: u32,
    gate: &G,
) -> Result<Betas, DeriveFault>
    requires least_loops { 1 ≤ loops }
    requires most_loops { loops ≤ 2 }
    requires low { 1 ≤ workers }
    requires high { workers ≤ 64 }
    ensures { Derives (AreDerived loops) bytes.now result }
{
    let accepted = accept(alloc, bytes)?;
    betas_of(rt, alloc, &accepted, loops, workers, gate)
}

/// Checks the model file that the bytes are, with the refusals of `derive`, and answers its name. `workers` is 1 to 64, and
/// no result depends on it.
pub fn check<R: Threads + Sync, G: Gate>(
    _rt: &R,
    alloc: Global,
    bytes: &[u8],
    _workers: u32,
    _gate: &G,
) -> Result<Checked, DeriveFault>
    requires low { 1 ≤ _workers }
    requires high { _workers ≤ 64 }
    ensures { Derives IsChecked bytes.now result }
{
    let accepted = accept(alloc, bytes)?;
    Ok(Checked {
        name: accepted.model.name.copy(),
        weight: 0,
    })
}
