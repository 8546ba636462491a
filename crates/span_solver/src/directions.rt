//! The keys of directions, and their numbers at these.
ghost use Rattle.std.specs.Prelude.{◌≡◌, [], length, map, IfOk};
ghost use Rattle.beta_poly.specs.Monomial.{one_monomial};
ghost use Rattle.sparse_tensor.specs.Tensor.{rank_of};
ghost use Rattle.span_solver.specs.BlockDirections.{numbers_of};
ghost use Rattle.span_solver.specs.ChosenDirections.{gathered_keys};
ghost use Rattle.span_solver.specs.Combine.{Each};

use crate::keys::{keys_in, merged};
use crate::rows::Entries;
use beta_poly::Mono;
use frac128::{Frac, NumberList};
use std::alloc::{AllocError, Global};
use term_expand::Direction;

/// The number of a direction at a key.
fn number_at(direction: &Direction, one: &Mono, key: &[u32]) -> Frac
    requires rank { rank_of direction.now.tensor ≡ length key.now }
    requires one { one.now ≡ one_monomial }
    ensures { result ≡ numbers_of direction.now key.now }
{
    match direction.tensor.at(key) {
        Some(there) => there.coefficient(one),
        None => Frac::zero(),
    }
}

/// The numbers of directions at a key.
fn row_at(
    alloc: Global,
    directions: &[&Direction],
    one: &Mono,
    key: &[u32],
) -> Result<Entries, AllocError>
    requires rank { Each (λ d. rank_of d.tensor ≡ length key.now) (map (λ d. d.now) directions.now) }
    requires one { one.now ≡ one_monomial }
    ensures { IfOk result (λ e. e ≡ map (λ d. numbers_of d key.now) (map (λ d. d.now) directions.now)) }
{
    let mut row = Entries::new(alloc);
    for direction in directions {
        row.push(number_at(direction, one, key))?;
    }
    Ok(row)
}

/// The numbers of directions at keys.
pub(crate) fn rows_at(
    alloc: Global,
    directions: &[&Direction],
    one: &Mono,
    keys: &[NumberList],
) -> Result<Vec<Entries>, AllocError>
    requires rank { Each (λ key. Each (λ d. rank_of d.tensor ≡ length key) (map (λ d. d.now) directions.now)) keys.now }
    requires one { one.now ≡ one_monomial }
    ensures { IfOk result (λ v. v.items ≡ map (λ key. map (λ d. numbers_of d key) (map (λ d. d.now) directions.now)) keys.now) }
{
    let mut rows = Vec::new(alloc);
    for key in keys {
        let row = row_at(alloc, directions, one, key.as_slice())?;
        rows.push(row)?;
    }
    Ok(rows)
}

/// The keys of directions, in their order and each once.
pub(crate) fn all_keys(
    alloc: Global,
    directions: &[&Direction],
) -> Result<Vec<NumberList>, AllocError>
    ensures { IfOk result (λ v. v.items ≡ gathered_keys [] (map (λ d. d.now) directions.now)) }
{
    let mut keys = Vec::new(alloc);
    for direction in directions {
        let own = keys_in(alloc, &direction.tensor)?;
        keys = merged(alloc, keys.as_slice(), own.as_slice())?;
    }
    Ok(keys)
}
