//! What is told of the blocks: coordinates, or the first component up to which there are none.
ghost use Rattle.std.specs.Prelude.{◌≡◌, ◌≤◌, ◌<◌, ◌+◌, ◌∷◌, [], true, false, List, length, IfOk, IfErr, MatchOption};
ghost use Rattle.std.specs.List.{prefix_len};
ghost use Rattle.sparse_tensor.specs.Refusals.{IsTensorRefusal};
ghost use Rattle.sparse_tensor.specs.Tensor.{rank_of, entries_of, value};
ghost use Rattle.model_core.specs.Content.{is_before};
ghost use Rattle.model_core.specs.Directions.{directions};
ghost use Rattle.model_core.specs.Valid.{IsValid};
ghost use Rattle.span_solver.specs.Block.{IsBlock, IsOfRank};
ghost use Rattle.span_solver.specs.Dependence.{Numbers};
ghost use Rattle.term_expand.specs.Expansion.{AreDirections, IsExpansion};
ghost use Rattle.derive_core.specs.Acceptance.{HaveSolvers};
ghost use Rattle.derive_core.specs.BlockBetas.{IsLegCount, name_cmp, name_at};
ghost use Rattle.derive_core.specs.Components.{IsComponents};
ghost use Rattle.derive_core.specs.Derivation.{MayBeLarge, Finds};
ghost use Rattle.derive_core.specs.Outcomes.{IsOutcome};
ghost use Rattle.derive_core.specs.Surveys.{HasSolver};
ghost use Rattle.derive_core.specs.Works.{is_at, IsSolverAmong, IsEntryKey, IsWork, IsYukawaBeta, IsScalarBeta, AreSides, IsOutcomeOf, IsWholeTold, AreSome, TellsOf, MayBeTold, AreDirectionsTold, AreSideValues, AreEntriesTold, AreSidesTold};

use crate::accept::Accepted;
use crate::block_betas::{SideBetas, block_beta, side_betas};
use crate::block_names::{Components, components_of, copied_name, name_at, name_cmp};
use crate::fault::DeriveFault;
use crate::survey::Solver;
use beta_poly::Poly;
use contraction_workers::Gate;
use frac128::{ItemList, NumberList};
use model_core::Model;
use quartic_one_loop::quartic_betas;
use span_solver::{Block, PolyList, Solved, same_name};
use sparse_tensor::{Sparse, TensorFault};
use std::alloc::{AllocError, Global};
use std::thread::Threads;
use term_expand::{BlockName, Token};
use yukawa_one_loop::yukawa_betas;

/// What a block has.
#[derive(Drop)]
pub enum Outcome {
    /// The coordinates of its beta tensor, one for each of its directions.
    Spanned(PolyList),
    /// The first component up to which there are no coordinates, and the beta tensor there.
    Unspanned { key: NumberList, value: Poly },
}

/// A block and what it has.
#[derive(Drop)]
pub struct Told {
    pub block: BlockName,
    pub outcome: Outcome,
}

/// Blocks in the order of their names.
pub type ToldList = ItemList<Told>;

/// The components of a model, and its beta tensors on both sides of blocks.
#[derive(Drop)]
pub struct Work {
    pub components: Components,
    pub sides: SideBetas,
}

/// The value of a tensor at a key.
fn value_at(alloc: Global, tensor: &Sparse, key: &[u32]) -> Result<Poly, AllocError>
    ensures { IfOk result (λ found. found ≡ value tensor.now key.now) }
{
    if key.len() != tensor.rank() as usize {
        return Ok(Poly::zero(alloc));
    }
    match tensor.at(key) {
        Some(found) => found.copy(alloc),
        None => Ok(Poly::zero(alloc)),
    }
}

/// What the directions of a block have of a tensor.
fn outcome_of<R: Threads + Sync, G: Gate>(
    rt: &R,
    alloc: Global,
    block: &Block,
    tensor: &Sparse,
    workers: u32,
    gate: &G,
) -> Result<Outcome, TensorFault>
    requires block { IsOfRank (rank_of tensor.now) block.now }
    requires low { 1 ≤ workers }
    requires high { workers ≤ 64 }
    ensures value { (directions : List Numbers) → IsBlock directions block.now → IfOk result (IsOutcomeOf directions tensor.now) }
    ensures refused { IfErr result IsTensorRefusal }
{
    match block.solve(rt, alloc, tensor, workers, gate)? {
        Solved::Coordinates(coordinates) => Ok(Outcome::Spanned(coordinates)),
        Solved::NotSpanned { key } => {
            let value = value_at(alloc, tensor, key.as_slice())?;
            Ok(Outcome::Unspanned { key, value })
        }
    }
}

/// What no directions have of a tensor.
fn bare_outcome<R: Threads + Sync, G: Gate>(
    rt: &R,
    alloc: Global,
    tensor: &Sparse,
    workers: u32,
    gate: &G,
) -> Result<Outcome, TensorFault>
    requires low { 1 ≤ workers }
    requires high { workers ≤ 64 }
    ensures value { IfOk result (IsOutcomeOf [] tensor.now) }
    ensures refused { IfErr result IsTensorRefusal }
{
    let block = Block::bare(alloc);
    outcome_of(rt, alloc, &block, tensor, workers, gate)
}

/// The block of a name.
fn solver_of<'a>(solvers: &'a [Solver], name: &[Token]) -> Option<&'a Solver>
    ensures { MatchOption result (¬ HasSolver name.now solvers.now) (λ found. IsSolverAmong solvers.now name.now found.now) }
{
    for solver in solvers {
        if same_name(solver.name.as_slice(), name) {
            return Some(solver);
        }
    }
    None
}

/// What the block of a name has.
fn outcome_for<R: Threads + Sync, G: Gate>(
    rt: &R,
    alloc: Global,
    accepted: &Accepted,
    work: &Work,
    name: &[Token],
    workers: u32,
    gate: &G,
) -> Result<Outcome, TensorFault>
    requires solvers { HaveSolvers accepted.now.model accepted.now.solvers }
    requires work { IsWork accepted.now.model work.now }
    requires legs { IsLegCount (length name.now) }
    requires low { 1 ≤ workers }
    requires high { workers ≤ 64 }
    ensures value { IfOk result (IsOutcome accepted.now.model name.now) }
    ensures refused { IfErr result IsTensorRefusal }
{
    let tensor = block_beta(alloc, &accepted.model, &work.components, &work.sides, name)?;
    match solver_of(accepted.solvers.as_slice(), name) {
        Some(solver) => outcome_of(rt, alloc, &solver.block, &tensor, workers, gate),
        None => bare_outcome(rt, alloc, &tensor, workers, gate),
    }
}

/// How many of the blocks come before a name.
fn place_among(name: &[Token], told: &[Told]) -> usize
    ensures { result ≡ prefix_len (λ first. is_before (name_cmp first.block name.now)) told.now }
{
    told.iter()
        .take_while(|first| name_cmp(first.block.as_slice(), name).is_lt())
        .count()
}

/// Whether the block at a place has a name.
fn is_at(told: &[Told], place: usize, name: &[Token]) -> bool
    ensures { result ≡ is_at told.now place name.now }
{
    match told.get(place) {
        Some(found) => same_name(found.block.as_slice(), name),
        None => false,
    }
}

/// The blocks with what one more has, unless it is among them.
fn with_block<R: Threads + Sync, G: Gate>(
    rt: &R,
    alloc: Global,
    accepted: &Accepted,
    work: &Work,
    told: ToldList,
    name: BlockName,
    workers: u32,
    gate: &G,
) -> Result<ToldList, TensorFault>
    requires solvers { HaveSolvers accepted.now.model accepted.now.solvers }
    requires work { IsWork accepted.now.model work.now }
    requires told { AreSome accepted.now.model told }
    requires name { MayBeTold accepted.now.model name }
    requires low { 1 ≤ workers }
    requires high { workers ≤ 64 }
    ensures value { IfOk result (TellsOf accepted.now.model name told) }
    ensures refused { IfErr result IsTensorRefusal }
{
    let place = place_among(name.as_slice(), told.as_slice());
    if is_at(told.as_slice(), place, name.as_slice()) {
        return Ok(told);
    }
    let outcome = outcome_for(rt, alloc, accepted, work, name.as_slice(), workers, gate)?;
    let mut all = told.into_vec();
    all.insert(
        place,
        Told {
            block: name,
            outcome,
        },
    )?;
    Ok(ToldList::from_vec(all))
}

/// The blocks with that of the direction at a place.
fn with_direction<R: Threads + Sync, G: Gate>(
    rt: &R,
    alloc: Global,
    accepted: &Accepted,
    work: &Work,
    told: ToldList,
    place: usize,
    workers: u32,
    gate: &G,
) -> Result<ToldList, TensorFault>
    requires valid { IsValid accepted.now.model }
    requires directions { AreDirections (directions accepted.now.model) accepted.now.tensors.directions }
    requires solvers { HaveSolvers accepted.now.model accepted.now.solvers }
    requires work { IsWork accepted.now.model work.now }
    requires told { AreDirectionsTold accepted.now.model place told }
    requires place { place < length accepted.now.tensors.directions }
    requires low { 1 ≤ workers }
    requires high { workers ≤ 64 }
    ensures value { IfOk result (AreDirectionsTold accepted.now.model (place + 1)) }
    ensures refused { IfErr result IsTensorRefusal }
{
    let direction = accepted.tensors.directions.item(place);
    let name = copied_name(alloc, direction.block.as_slice())?;
    with_block(rt, alloc, accepted, work, told, name, workers, gate)
}

/// The blocks of the directions.
fn of_directions<R: Threads + Sync, G: Gate>(
    rt: &R,
    alloc: Global,
    accepted: &Accepted,
    work: &Work,
    workers: u32,
    gate: &G,
) -> Result<ToldList, TensorFault>
    requires valid { IsValid accepted.now.model }
    requires directions { AreDirections (directions accepted.now.model) accepted.now.tensors.directions }
    requires solvers { HaveSolvers accepted.now.model accepted.now.solvers }
    requires work { IsWork accepted.now.model work.now }
    requires low { 1 ≤ workers }
    requires high { workers ≤ 64 }
    ensures value { IfOk result (AreDirectionsTold accepted.now.model (length accepted.now.tensors.directions)) }
    ensures refused { IfErr result IsTensorRefusal }
{
    let mut told = ToldList::new(alloc);
    for place in 0..accepted.tensors.directions.len() {
        told = with_direction(rt, alloc, accepted, work, told, place, workers, gate)?;
    }
    Ok(told)
}

/// The blocks with that of an entry of a beta tensor on a side.
fn with_entry<R: Threads + Sync, G: Gate>(
    rt: &R,
    alloc: Global,
    accepted: &Accepted,
    work: &Work,
    side: u32,
    key: &[u32],
    told: ToldList,
    workers: u32,
    gate: &G,
) -> Result<ToldList, TensorFault>
    requires solvers { HaveSolvers accepted.now.model accepted.now.solvers }
    requires work { IsWork accepted.now.model work.now }
    requires key { IsEntryKey accepted.now.model side key.now }
    requires told { AreSome accepted.now.model told }
    requires low { 1 ≤ workers }
    requires high { workers ≤ 64 }
    ensures value { IfOk result (TellsOf accepted.now.model (name_at accepted.now.model (side ∷ key.now)) told) }
    ensures refused { IfErr result IsTensorRefusal }
{
    let name = name_at(alloc, &accepted.model, &work.components, side, key)?;
    with_block(rt, alloc, accepted, work, told, name, workers, gate)
}

/// The blocks with those of the entries of a beta tensor on a side.
fn with_entries<R: Threads + Sync, G: Gate>(
    rt: &R,
    alloc: Global,
    accepted: &Accepted,
    work: &Work,
    side: u32,
    entries: &Sparse,
    before: ToldList,
    workers: u32,
    gate: &G,
) -> Result<ToldList, TensorFault>
    requires solvers { HaveSolvers accepted.now.model accepted.now.solvers }
    requires work { IsWork accepted.now.model work.now }
    requires side { AreSideValues accepted.now.model side entries.now }
    requires told { AreSome accepted.now.model before }
    requires low { 1 ≤ workers }
    requires high { workers ≤ 64 }
    ensures value { IfOk result (AreEntriesTold accepted.now.model side entries.now (length (entries_of entries.now)) before) }
    ensures refused { IfErr result IsTensorRefusal }
{
    let mut told = before;
    for place in 0..entries.len() {
        let (key, _) = entries.item(place);
        told = with_entry(rt, alloc, accepted, work, side, key, told, workers, gate)?;
    }
    Ok(told)
}

/// The blocks with those of the entries of two beta tensors, the first on side 0 and the second on side 1.
fn with_sides<R: Threads + Sync, G: Gate>(
    rt: &R,
    alloc: Global,
    accepted: &Accepted,
    work: &Work,
    plain: &Sparse,
    conjugate: &Sparse,
    before: ToldList,
    workers: u32,
    gate: &G,
) -> Result<ToldList, TensorFault>
    requires solvers { HaveSolvers accepted.now.model accepted.now.solvers }
    requires work { IsWork accepted.now.model work.now }
    requires plain { AreSideValues accepted.now.model 0 plain.now }
    requires conjugate { AreSideValues accepted.now.model 1 conjugate.now }
    requires told { AreSome accepted.now.model before }
    requires low { 1 ≤ workers }
    requires high { workers ≤ 64 }
    ensures value { IfOk result (AreSidesTold accepted.now.model plain.now conjugate.now before) }
    ensures refused { IfErr result IsTensorRefusal }
{
    let first = with_entries(rt, alloc, accepted, work, 0, plain, before, workers, gate)?;
    with_entries(
        rt, alloc, accepted, work, 1, conjugate, first, workers, gate,
    )
}

/// All blocks with a coupling or a beta tensor other than 0.
fn told_with<R: Threads + Sync, G: Gate>(
    rt: &R,
    alloc: Global,
    accepted: &Accepted,
    work: &Work,
    workers: u32,
    gate: &G,
) -> Result<ToldList, TensorFault>
    requires valid { IsValid accepted.now.model }
    requires directions { AreDirections (directions accepted.now.model) accepted.now.tensors.directions }
    requires solvers { HaveSolvers accepted.now.model accepted.now.solvers }
    requires work { IsWork accepted.now.model work.now }
    requires low { 1 ≤ workers }
    requires high { workers ≤ 64 }
    ensures value { IfOk result (IsWholeTold accepted.now.model) }
    ensures refused { IfErr result IsTensorRefusal }
{
    let first = of_directions(rt, alloc, accepted, work, workers, gate)?;
    let plain = &work.sides.yukawa;
    let conjugate = &work.sides.conjugate_yukawa;
    let second = with_sides(
        rt, alloc, accepted, work, plain, conjugate, first, workers, gate,
    )?;
    let plain = &work.sides.scalar;
    let conjugate = &work.sides.conjugate_scalar;
    with_sides(
        rt, alloc, accepted, work, plain, conjugate, second, workers, gate,
    )
}

/// The beta tensor of Yukawa couplings.
fn yukawa_beta_tensor<R: Threads + Sync, G: Gate>(
    rt: &R,
    alloc: Global,
    accepted: &Accepted,
    workers: u32,
    gate: &G,
) -> Result<Sparse, DeriveFault>
    requires valid { IsValid accepted.now.model }
    requires tensors { IsExpansion accepted.now.model accepted.now.tensors }
    requires low { 1 ≤ workers }
    requires high { workers ≤ 64 }
    ensures { Finds IsYukawaBeta accepted.now.model result }
{
    match yukawa_betas(rt, alloc, &accepted.model, &accepted.tensors, workers, gate) {
        Ok(found) => Ok(found),
        Err(TensorFault::Overflow(pair)) => Err(DeriveFault::Overflow(pair)),
        Err(TensorFault::NoMemory) => Err(DeriveFault::NoMemory),
    }
}

/// The beta tensor of scalar couplings.
fn scalar_beta_tensor<R: Threads + Sync, G: Gate>(
    rt: &R,
    alloc: Global,
    accepted: &Accepted,
    workers: u32,
    gate: &G,
) -> Result<Sparse, DeriveFault>
    requires valid { IsValid accepted.now.model }
    requires tensors { IsExpansion accepted.now.model accepted.now.tensors }
    requires low { 1 ≤ workers }
    requires high { workers ≤ 64 }
    ensures { Finds IsScalarBeta accepted.now.model result }
{
    match quartic_betas(rt, alloc, &accepted.model, &accepted.tensors, workers, gate) {
        Ok(found) => Ok(found),
        Err(TensorFault::Overflow(pair)) => Err(DeriveFault::Overflow(pair)),
        Err(TensorFault::NoMemory) => Err(DeriveFault::NoMemory),
    }
}

/// Beta tensors on both sides of blocks.
fn on_sides(
    alloc: Global,
    model: &Model,
    components: &Components,
    yukawa: Sparse,
    scalar: &Sparse,
) -> Result<SideBetas, DeriveFault>
    requires valid { IsValid model.now }
    requires components { IsComponents model.now components.now }
    requires yukawa { IsYukawaBeta yukawa model.now }
    requires scalar { IsScalarBeta scalar.now model.now }
    ensures { Finds AreSides model.now result }
{
    match side_betas(alloc, model, components, yukawa, scalar) {
        Ok(sides) => Ok(sides),
        Err(TensorFault::Overflow(pair)) => Err(DeriveFault::Overflow(pair)),
        Err(TensorFault::NoMemory) => Err(DeriveFault::NoMemory),
    }
}

/// The beta tensors of an accepted model on both sides of blocks.
fn sides_of<R: Threads + Sync, G: Gate>(
    rt: &R,
    alloc: Global,
    accepted: &Accepted,
    components: &Components,
    workers: u32,
    gate: &G,
) -> Result<SideBetas, DeriveFault>
    requires valid { IsValid accepted.now.model }
    requires tensors { IsExpansion accepted.now.model accepted.now.tensors }
    requires components { IsComponents accepted.now.model components.now }
    requires low { 1 ≤ workers }
    requires high { workers ≤ 64 }
    ensures { Finds AreSides accepted.now.model result }
{
    let yukawa = yukawa_beta_tensor(rt, alloc, accepted, workers, gate)?;
    let scalar = scalar_beta_tensor(rt, alloc, accepted, workers, gate)?;
    on_sides(alloc, &accepted.model, components, yukawa, &scalar)
}

/// Whether a model may have a block: it has a term or a scalar field.
fn may_have_blocks(model: &Model) -> bool
    ensures large { result ≡ true → MayBeLarge model.now }
    ensures no_terms { result ≡ false → model.now.terms ≡ [] }
    ensures no_scalars { result ≡ false → model.now.scalars ≡ [] }
{
    if !model.terms.is_empty() {
        return true;
    }
    !model.scalars.is_empty()
}

/// What is told of the blocks of an accepted model, in the order of their names.
pub fn told_of<R: Threads + Sync, G: Gate>(
    rt: &R,
    alloc: Global,
    accepted: &Accepted,
    workers: u32,
    gate: &G,
) -> Result<ToldList, DeriveFault>
    requires valid { IsValid accepted.now.model }
    requires tensors { IsExpansion accepted.now.model accepted.now.tensors }
    requires solvers { HaveSolvers accepted.now.model accepted.now.solvers }
    requires low { 1 ≤ workers }
    requires high { workers ≤ 64 }
    ensures { Finds (λ told m. IsWholeTold m told) accepted.now.model result }
{
    let components = components_of(alloc, &accepted.model)?;
    let sides = sides_of(rt, alloc, accepted, &components, workers, gate)?;
    if !may_have_blocks(&accepted.model) {
        return Ok(ToldList::new(alloc));
    }
    let work = Work { components, sides };
    match told_with(rt, alloc, accepted, &work, workers, gate) {
        Ok(told) => Ok(told),
        Err(TensorFault::Overflow(pair)) => Err(DeriveFault::Overflow(pair)),
        Err(TensorFault::NoMemory) => Err(DeriveFault::NoMemory),
    }
}
