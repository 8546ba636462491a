//! Names of blocks, and the directions that have one.
ghost use Rattle.std.specs.Prelude.{◌≡◌, ◌<◌, ◌^◌, length, map, IfOk};
ghost use Rattle.span_solver.specs.BlockDirections.{same_bool, same_token, same_name, block_directions};
ghost use Rattle.span_solver.specs.ChosenDirections.{IsNamedPlace};

use std::alloc::{AllocError, Global};
use term_expand::{BlockName, Direction, DirectionList, Token};

/// Whether two marks are the same.
fn same_bool(a: bool, b: bool) -> bool
    ensures { result ≡ same_bool a b }
{
    match (a, b) {
        (true, true) => true,
        (true, false) => false,
        (false, true) => false,
        (false, false) => true,
    }
}

/// Whether two tokens are the same.
fn same_token(a: &Token, b: &Token) -> bool
    ensures { result ≡ same_token a.now b.now }
{
    same_bool(a.fermion, b.fermion)
        && (a.field == b.field
            && (same_bool(a.conj, b.conj)
                && (a.generation == b.generation && same_bool(a.dummy, b.dummy))))
}

/// Whether two names are the same.
pub fn same_name(a: &[Token], b: &[Token]) -> bool
    ensures { result ≡ same_name a.now b.now }
{
    match a {
        [] => match b {
            [] => true,
            [_, ..] => false,
        },
        [first, rest @ ..] => match b {
            [] => false,
            [other, others @ ..] => same_token(first, other) && same_name(rest, others),
        },
    }
}

/// The directions of a block, in the order of the list.
pub(crate) fn chosen<'a>(
    alloc: Global,
    directions: &'a DirectionList,
    name: &BlockName,
) -> Result<Vec<&'a Direction>, AllocError>
    ensures { IfOk result (λ v. map (λ d. d.now) v.items ≡ block_directions directions.now name.now) }
{
    let mut found = Vec::new(alloc);
    for direction in directions.as_slice() {
        if same_name(direction.block.as_slice(), name.as_slice()) {
            found.push(direction)?;
        }
    }
    Ok(found)
}

/// The place in the list of the block's direction with this number, counted from 0.
pub(crate) fn place_of(directions: &[Direction], name: &[Token], number: usize) -> u32
    requires few { length directions.now < 2 ^ 32 }
    requires within { number < length (block_directions directions.now name.now) }
    ensures { IsNamedPlace directions.now name.now number result }
{
    let mut seen: usize = 0;
    let mut place: u32 = 0;
    for direction in directions {
        if same_name(direction.block.as_slice(), name) {
            if seen == number {
                return place;
            }
            seen += 1;
        }
        place += 1;
    }
    place
}
