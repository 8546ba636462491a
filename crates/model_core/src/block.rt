//! The blocks in which the symbols of a term's coupling stand, and how many directions these have.
ghost use Rattle.std.specs.Prelude.{◌≡◌, ◌≤◌, ◌-◌, ◌++◌, suc, true, length, IfOk, sum_by};
ghost use Rattle.std.specs.List.{filter, list_all};
ghost use Rattle.model_core.specs.Content.{block_at, first_column, rows_of, symbols_at, symbol_count, is_mirrored, row_is_mirrored, has_mirrored_blocks, directions_of, symbol_block, row_blocks, term_blocks, directions_in, has_small_directions, block_directions, is_few, have_few_directions, first_uses};
ghost use Rattle.model_core.specs.TermRules.{has_small_sizes};
ghost use Rattle.model_core.specs.TermWalk.{is_overfull, first_after, first_block};

use crate::content::{
    Content, FieldToken, FieldUse, SymbolBlock, SymbolBlockList, block_of, content_at,
    first_of_two, first_uses, same_block,
};
use crate::flavour::is_symmetric;
use crate::model::Model;
use crate::term::Term;
use std::alloc::{AllocError, Global};

/// The first column at which a row has a symbol: that of the row itself where the coupling is symmetric.
pub fn first_column(term: &Term, row: u32) -> u32
    requires { 1 ≤ row }
    ensures value { result ≡ first_column term.now row }
    ensures positive { 1 ≤ result }
{
    if is_symmetric(term.shape) {
        return row;
    }
    1
}

/// How many symbols a row has.
fn symbols_at(term: &Term, row: u32) -> u32
    requires { 1 ≤ row }
    ensures value { result ≡ symbols_at term.now row }
    ensures count { result ≡ suc term.now.columns - first_column term.now row }
    ensures bound { result ≤ term.now.columns }
{
    term.columns.saturating_sub(first_column(term, row) - 1)
}

/// How many symbols a term's coupling has.
pub fn symbol_count(term: &Term) -> u32
    requires rows { term.now.rows ≤ 6 }
    requires columns { term.now.columns ≤ 6 }
    ensures value { result ≡ symbol_count term.now }
    ensures bound { result ≤ 36 }
{
    let mut count = 0;
    for place in 0..term.rows {
        count += symbols_at(term, place + 1);
    }
    count
}

/// How many symbols the couplings of some terms have.
pub fn symbols_of(terms: &[Term]) -> u32
    requires few { length terms.now ≤ 64 }
    requires small { list_all has_small_sizes terms.now ≡ true }
    ensures { result ≡ sum_by symbol_count terms.now }
{
    let mut count = 0;
    for term in terms {
        count += symbol_count(term);
    }
    count
}

/// The block of a coupling's entry at a row and a column.
fn block_at(
    alloc: Global,
    model: &Model,
    used: &[FieldUse],
    row: u32,
    column: u32,
) -> Result<Content, AllocError>
    ensures { IfOk result (λ found. found ≡ block_at model.now used.now row column) }
{
    let content = content_at(alloc, used, row, column)?;
    block_of(alloc, model, content)
}

/// Whether the entries [row,column] and [column,row] stand in the same block.
fn is_mirrored(
    alloc: Global,
    model: &Model,
    used: &[FieldUse],
    row: u32,
    column: u32,
) -> Result<bool, AllocError>
    ensures { IfOk result (λ found. found ≡ is_mirrored model.now used.now row column) }
{
    let block = block_at(alloc, model, used, row, column)?;
    let other = block_at(alloc, model, used, column, row)?;
    Ok(same_block(block.as_slice(), other.as_slice()))
}

/// Whether each symbol of a row stands in the block of its mirror image.
fn row_is_mirrored(
    alloc: Global,
    model: &Model,
    used: &[FieldUse],
    term: &Term,
    row: u32,
) -> Result<bool, AllocError>
    requires { 1 ≤ row }
    ensures { IfOk result (λ found. found ≡ row_is_mirrored model.now used.now term.now row) }
{
    let first = first_column(term, row);
    for place in 0..symbols_at(term, row) {
        if !is_mirrored(alloc, model, used, row, first + place)? {
            return Ok(false);
        }
    }
    Ok(true)
}

/// Whether each symbol stands in the block of its mirror image.
fn rows_are_mirrored(
    alloc: Global,
    model: &Model,
    used: &[FieldUse],
    term: &Term,
) -> Result<bool, AllocError>
    ensures { IfOk result (λ found. found ≡ list_all (row_is_mirrored model.now used.now term.now) (rows_of term.now)) }
{
    for place in 0..term.rows {
        if !row_is_mirrored(alloc, model, used, term, place + 1)? {
            return Ok(false);
        }
    }
    Ok(true)
}

/// Whether each entry [i,j] of a symmetric coupling stands in the block of the entry [j,i]. Only want of memory is an
/// error.
pub fn has_mirrored_blocks(alloc: Global, model: &Model, term: &Term) -> Result<bool, AllocError>
    ensures { IfOk result (λ found. found ≡ has_mirrored_blocks model.now term.now) }
{
    if !is_symmetric(term.shape) {
        return Ok(true);
    }
    let used = first_uses(alloc, term.monomials.as_slice())?;
    rows_are_mirrored(alloc, model, used.as_slice(), term)
}

/// How many directions each symbol of a term gives its block: one where the coupling is real, and two where it is
/// complex.
fn directions_of(term: &Term) -> u32
    ensures { result ≡ directions_of term.now }
{
    if term.real {
        return 1;
    }
    2
}

/// The block of the symbol at a row and a column.
fn symbol_block(
    alloc: Global,
    model: &Model,
    used: &[FieldUse],
    term: &Term,
    row: u32,
    column: u32,
) -> Result<SymbolBlock, AllocError>
    requires { used.now ≡ first_uses term.now.monomials }
    ensures { IfOk result (λ found. found ≡ symbol_block model.now term.now row column) }
{
    Ok(SymbolBlock {
        block: block_at(alloc, model, used, row, column)?,
        directions: directions_of(term),
    })
}

/// Adds the blocks of a row's symbols.
fn push_row(
    alloc: Global,
    blocks: &mut SymbolBlockList,
    model: &Model,
    used: &[FieldUse],
    term: &Term,
    row: u32,
) -> Result<(), AllocError>
    requires uses { used.now ≡ first_uses term.now.monomials }
    requires row { 1 ≤ row }
    ensures { IfOk result (λ _. blocks.new ≡ blocks.old ++ row_blocks model.now term.now row) }
{
    let first = first_column(term, row);
    for place in 0..symbols_at(term, row) {
        blocks.push(symbol_block(alloc, model, used, term, row, first + place)?)?;
    }
    Ok(())
}

/// The blocks of a term's symbols, row by row. Only want of memory is an error.
pub fn term_blocks(alloc: Global, model: &Model, term: &Term) -> Result<SymbolBlockList, AllocError>
    ensures value { IfOk result (λ blocks. blocks ≡ term_blocks model.now term.now) }
    ensures small { IfOk result (λ blocks. list_all has_small_directions blocks ≡ true) }
    ensures few { term.now.rows ≤ 6 → term.now.columns ≤ 6 → IfOk result (λ blocks. length blocks ≤ 36) }
{
    let used = first_uses(alloc, term.monomials.as_slice())?;
    let mut blocks = SymbolBlockList::new(alloc);
    for place in 0..term.rows {
        push_row(alloc, &mut blocks, model, used.as_slice(), term, place + 1)?;
    }
    Ok(blocks)
}

/// How many directions a symbol gives a block: none where it stands in another one.
fn directions_in(block: &[FieldToken], other: &SymbolBlock) -> u32
    ensures { result ≡ directions_in block.now other.now }
{
    if same_block(block, other.block.as_slice()) {
        return other.directions;
    }
    0
}

/// How many directions a block has.
pub fn block_directions(blocks: &[SymbolBlock], block: &[FieldToken]) -> u32
    requires few { length blocks.now ≤ 100000 }
    requires small { list_all has_small_directions blocks.now ≡ true }
    ensures { result ≡ block_directions blocks.now block.now }
{
    let mut count = 0;
    for other in blocks {
        count += directions_in(block, other);
    }
    count
}

/// Whether the block of a symbol has at most 4 directions.
fn is_few(blocks: &[SymbolBlock], block: &SymbolBlock) -> bool
    requires few { length blocks.now ≤ 100000 }
    requires small { list_all has_small_directions blocks.now ≡ true }
    ensures { result ≡ is_few blocks.now block.now }
{
    block_directions(blocks, block.block.as_slice()) <= 4
}

/// Whether each block has at most 4 directions.
pub fn have_few_directions(blocks: &[SymbolBlock]) -> bool
    requires few { length blocks.now ≤ 100000 }
    requires small { list_all has_small_directions blocks.now ≡ true }
    ensures { result ≡ have_few_directions blocks.now }
{
    blocks.iter().all(|block| is_few(blocks, block))
}

/// The first block, in the order of blocks, of those that have more than 4 directions, or of this one.
fn first_overfull_after<'a>(
    all: &[SymbolBlock],
    first: &'a [FieldToken],
    blocks: &'a [SymbolBlock],
) -> &'a [FieldToken]
    requires few { length all.now ≤ 100000 }
    requires small { list_all has_small_directions all.now ≡ true }
    ensures { result.now ≡ first_after first.now (filter (is_overfull all.now) blocks.now) }
{
    let mut first = first;
    for block in blocks {
        if !is_few(all, block) {
            first = first_of_two(first, block.block.as_slice());
        }
    }
    first
}

/// The first, in the order of blocks, of some blocks that have more than 4 directions among all. Only want of memory is
/// an error.
pub fn first_overfull(
    alloc: Global,
    all: &[SymbolBlock],
    blocks: &[SymbolBlock],
) -> Result<Option<Content>, AllocError>
    requires few { length all.now ≤ 100000 }
    requires small { list_all has_small_directions all.now ≡ true }
    ensures { IfOk result (λ found. found ≡ first_block (filter (is_overfull all.now) blocks.now)) }
{
    match blocks {
        [] => Ok(None),
        [block, blocks @ ..] => {
            if is_few(all, block) {
                return first_overfull(alloc, all, blocks);
            }
            let first = first_overfull_after(all, block.block.as_slice(), blocks);
            Ok(Some(Content::from_vec(first.to_vec(alloc)?)))
        }
    }
}
