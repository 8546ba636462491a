//! Blocks: independent directions, their numbers at each key, and the rows that tell them apart.
ghost use Rattle.std.specs.Prelude.{◌≡◌, ◌≢◌, ◌≤◌, ◌<◌, ◌^◌, ℕ, List, [], length, IfOk, IfErr, Some};
ghost use Rattle.std.specs.List.{All};
ghost use Rattle.sparse_tensor.specs.Tensor.{rank_of, entries_of};
ghost use Rattle.sparse_tensor.specs.Refusals.{IsRefusalOf};
ghost use Rattle.span_solver.specs.Block.{IsBlock, IsOfRank, IsSolved, Ascend, block_rows};
ghost use Rattle.span_solver.specs.BlockDirections.{HasForm, HaveForm, IsSpanFault, block_directions, block_numbers};
ghost use Rattle.span_solver.specs.Dependence.{Numbers, AreIndependent};
ghost use Rattle.span_solver.specs.Elimination.{HaveLength};

use crate::directions::{all_keys, rows_at};
use crate::fault::SpanFault;
use crate::names::{chosen, place_of};
use crate::pivots::pivots;
use crate::prefixes::first_dependent;
use crate::rows::Entries;
use crate::solve::{nothings, solved};
use crate::solved::Solved;
use contraction_workers::Gate;
use frac128::NumberList;
use sparse_tensor::{Sparse, TensorFault};
use std::alloc::Global;
use std::marker::Model;
use std::thread::Threads;
use term_expand::{BlockName, Direction, DirectionList, no_symbols};

/// Independent directions: their numbers at each key at which one of them isn't 0, in the order of the keys.
#[derive(Drop)]
pub struct Block {
    count: usize,
    keys: Vec<NumberList>,
    rows: Vec<Entries>,
    gaps: Vec<usize>,
}

impl Model for Block {
    ghost use Rattle.std.specs.Prelude.{◌≡◌, length, Some};
    ghost use Rattle.span_solver.specs.Block.{BlockRows, Ascend, block_rows};
    ghost use Rattle.span_solver.specs.Elimination.{HaveLength, pivots};

    ghost Value = { BlockRows };

    ghost view = { λ b. block_rows b.count b.keys.items b.rows.items };

    ghost invariant = { λ b. (length b.keys.items ≡ length b.rows.items) × HaveLength b.count b.rows.items × (pivots b.count b.rows.items ≡ Some b.gaps.items) × Ascend b.keys.items };
}

/// The block of rows, if none of its directions is a combination of earlier ones.
fn of_rows(
    alloc: Global,
    directions: &[Direction],
    name: &BlockName,
    count: usize,
    keys: Vec<NumberList>,
    rows: Vec<Entries>,
) -> Result<Block, SpanFault>
    requires few { length directions.now < 2 ^ 32 }
    requires some { block_directions directions.now name.now ≢ [] }
    requires is { IsBlock (block_numbers directions.now name.now) (block_rows count keys.items rows.items) }
    ensures is { IfOk result (λ b. b ≡ block_rows count keys.items rows.items) }
    ensures independent { IfOk result (λ _. AreIndependent (block_numbers directions.now name.now)) }
    ensures fault { IfErr result (IsSpanFault directions.now name.now) }
{
    if let Some(number) = first_dependent(alloc, rows.as_slice(), count)? {
        let place = place_of(directions, name.as_slice(), number);
        return Err(SpanFault::Dependent { place });
    }
    let gaps = pivots(alloc, rows.as_slice(), count)?.unwrap();
    Ok(Block {
        count,
        keys,
        rows,
        gaps,
    })
}

impl Block {
    /// The block without directions. It takes no memory.
    pub fn bare(alloc: Global) -> Block
        ensures is { IsBlock [] result }
        ensures rank { (rank : ℕ) → IsOfRank rank result }
    {
        Block {
            count: 0,
            keys: Vec::new(alloc),
            rows: Vec::new(alloc),
            gaps: Vec::new(alloc),
        }
    }

    /// The block of the directions with a name.
    ///
    /// `Dependent` names the first direction that is a combination, with fractions, of earlier ones of the block.
    /// `Overflow` carries two fractions whose sum or product is refused, and comes only where the block has a direction.
    pub fn new(
        alloc: Global,
        directions: &DirectionList,
        name: &BlockName,
    ) -> Result<Block, SpanFault>
        requires few { length directions.now < 2 ^ 32 }
        requires four { length (block_directions directions.now name.now) ≤ 4 }
        requires form { HaveForm directions.now name.now }
        ensures is { IfOk result (IsBlock (block_numbers directions.now name.now)) }
        ensures independent { IfOk result (λ _. AreIndependent (block_numbers directions.now name.now)) }
        ensures rank { (rank : ℕ) → All (HasForm rank) (block_directions directions.now name.now) → IfOk result (IsOfRank rank) }
        ensures fault { IfErr result (IsSpanFault directions.now name.now) }
    {
        let found = chosen(alloc, directions, name)?;
        if found.len() == 0 {
            return Ok(Block::bare(alloc));
        }
        let keys = all_keys(alloc, found.as_slice())?;
        let one = no_symbols(alloc)?;
        let rows = rows_at(alloc, found.as_slice(), &one, keys.as_slice())?;
        let block = of_rows(alloc, directions.as_slice(), name, found.len(), keys, rows)?;
        Ok(block)
    }

    /// The coordinates of a tensor along the block's directions, or the first key up to which there are none.
    ///
    /// The condition is that the tensor has the rank of the directions. `Overflow` carries two fractions whose sum or
    /// product is refused, and comes only where the tensor has an entry. One thread does the work yet: no result depends
    /// on `workers`, and the gate is not told.
    pub fn solve<R: Threads + Sync, G: Gate>(
        &self,
        _rt: &R,
        alloc: Global,
        value: &Sparse,
        _workers: u32,
        _gate: &G,
    ) -> Result<Solved, TensorFault>
        requires rank { IsOfRank (rank_of value.now) self.now }
        requires low { 1 ≤ _workers }
        requires high { _workers ≤ 64 }
        ensures answer { (directions : List Numbers) → IsBlock directions self.now → IfOk result (IsSolved directions value.now) }
        ensures refused { IfErr result (IsRefusalOf (entries_of value.now)) }
    {
        if value.len() == 0 {
            return Ok(Solved::Coordinates(nothings(alloc, self.count)?));
        }
        let answer = solved(
            alloc,
            self.count,
            self.keys.as_slice(),
            self.rows.as_slice(),
            self.gaps.as_slice(),
            value,
        )?;
        Ok(answer)
    }
}
