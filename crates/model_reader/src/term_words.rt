//! The words of a term's text and what they name: marks where none may stand, and too many monomials and tensors.
ghost use Rattle.std.specs.Prelude.{◌≡◌, ◌≤◌, IfOk, true, length, take, option_map};
ghost use Rattle.std.specs.List.{flat_map, count_by};
ghost use Rattle.model_core.specs.TermText.{bytes_at};
ghost use Rattle.model_core.specs.TermMeaning.{referent_at};
ghost use Rattle.model_core.specs.TermWalk.{names_tensor, bad_at, bracket_offset, mark_places, marks_places, tensor_count_places, count_places};
ghost use Rattle.model_core.specs.Valid.{has_valid_parts};
ghost use Rattle.model_reader.specs.Walked.{Passes};

use crate::error::{ReadError, refused};
use model_core::{
    Bracket, FaultPlace, Model, ReadKind, Referent, Span, WrittenFactor, WrittenMonomial,
    referent_of,
};

/// The most monomials of a sum.
const MOST_MONOMIALS: usize = 16;

/// The most `eps` and tables of a monomial.
const MOST_TENSORS: usize = 4;

/// So many bytes from the front: all where there are fewer.
#[tactic(auto, using(std::proofs::lemmas::List::take_all))]
fn front(text: &[u8], count: usize) -> &[u8]
    ensures { result.now ≡ take count text.now }
{
    match text.get(..count) {
        Some(bytes) => bytes,
        None => text,
    }
}

/// The bytes of a span of a text: those that the text has.
#[tactic(auto, using(std::proofs::lemmas::List::drop_all))]
pub fn bytes_at(text: &[u8], span: Span) -> &[u8]
    ensures { result.now ≡ bytes_at text.now span }
{
    match text.get(span.start..) {
        Some(rest) => front(rest, span.end.saturating_sub(span.start)),
        None => &[],
    }
}

/// What a factor's word names.
pub fn referent_at(model: &Model, text: &[u8], factor: &WrittenFactor) -> Option<Referent>
    requires { has_valid_parts model.now ≡ true }
    ensures { result ≡ referent_at model.now text.now factor.now }
{
    referent_of(model, bytes_at(text, factor.word))
}

/// Whether a factor's word is `eps` or names a table.
fn names_tensor(model: &Model, text: &[u8], factor: &WrittenFactor) -> bool
    requires { has_valid_parts model.now ≡ true }
    ensures { result ≡ names_tensor model.now text.now factor.now }
{
    match referent_at(model, text, factor) {
        Some(Referent::Eps) => true,
        Some(Referent::Table(_)) => true,
        _ => false,
    }
}

/// Asks that there is no `~`.
fn no_tilde(place: FaultPlace, tilde: Option<usize>) -> Result<(), ReadError>
    ensures { Passes (bad_at place tilde) result }
{
    match tilde {
        Some(at) => refused(place.offset(at), ReadKind::BadTermText),
        None => Ok(()),
    }
}

/// Asks that there is no bracket.
fn no_bracket(place: FaultPlace, bracket: Option<Bracket>) -> Result<(), ReadError>
    ensures { Passes (bad_at place (option_map bracket_offset bracket)) result }
{
    match bracket {
        Some(bracket) => refused(place.offset(bracket.at), ReadKind::BadTermText),
        None => Ok(()),
    }
}

/// Asks that no `~` and no bracket follows `eps` or the name of a table.
#[tactic(auto, using(crate::proofs::Firsts::first_before))]
fn factor_marks(
    model: &Model,
    place: FaultPlace,
    text: &[u8],
    factor: &WrittenFactor,
) -> Result<(), ReadError>
    requires { has_valid_parts model.now ≡ true }
    ensures { Passes (mark_places model.now text.now place factor.now) result }
{
    if !names_tensor(model, text, factor) {
        return Ok(());
    }
    no_tilde(place, factor.tilde)?;
    no_bracket(place, factor.bracket)
}

/// Asks the same of each factor of a monomial.
#[tactic(auto, using(crate::proofs::Firsts::first_before))]
fn monomial_marks(
    model: &Model,
    place: FaultPlace,
    text: &[u8],
    factors: &[WrittenFactor],
) -> Result<(), ReadError>
    requires { has_valid_parts model.now ≡ true }
    ensures { Passes (flat_map (mark_places model.now text.now place) factors.now) result }
{
    for factor in factors {
        factor_marks(model, place, text, factor)?;
    }
    Ok(())
}

/// Asks that no `~` and no bracket follows `eps` or the name of a table. `BadTermText` comes at the first that does.
#[tactic(auto, using(crate::proofs::Firsts::first_before), unfolding(model_core::specs::TermWalk::marks_places))]
pub fn checked_marks(
    model: &Model,
    place: FaultPlace,
    text: &[u8],
    sum: &[WrittenMonomial],
) -> Result<(), ReadError>
    requires { has_valid_parts model.now ≡ true }
    ensures { Passes (marks_places model.now text.now place sum.now) result }
{
    for monomial in sum {
        monomial_marks(model, place, text, monomial.factors.as_slice())?;
    }
    Ok(())
}

/// How many factors are `eps` or tables.
fn tensor_count(model: &Model, text: &[u8], factors: &[WrittenFactor]) -> usize
    requires { has_valid_parts model.now ≡ true }
    ensures { result ≡ count_by (names_tensor model.now text.now) factors.now }
{
    let mut count = 0;
    for factor in factors {
        if names_tensor(model, text, factor) {
            count += 1;
        }
    }
    count
}

/// Asks for at most four `eps` and tables in each monomial.
#[tactic(auto, using(crate::proofs::Firsts::first_before))]
fn checked_tensors(
    model: &Model,
    place: FaultPlace,
    text: &[u8],
    sum: &[WrittenMonomial],
) -> Result<(), ReadError>
    requires { has_valid_parts model.now ≡ true }
    ensures { Passes (flat_map (tensor_count_places model.now text.now place) sum.now) result }
{
    for monomial in sum {
        let count = tensor_count(model, text, monomial.factors.as_slice());
        if count > MOST_TENSORS {
            return Err(ReadError::Fault(place.over(count)));
        }
    }
    Ok(())
}

/// Asks for at most 16 monomials, with at most four `eps` and tables each. `OverLimit` comes with the first count that
/// is greater.
#[tactic(auto, using(crate::proofs::Firsts::first_before), unfolding(model_core::specs::TermWalk::count_places))]
pub fn checked_counts(
    model: &Model,
    place: FaultPlace,
    text: &[u8],
    sum: &[WrittenMonomial],
) -> Result<(), ReadError>
    requires { has_valid_parts model.now ≡ true }
    ensures walked { Passes (count_places model.now text.now place sum.now) result }
    ensures few { IfOk result (λ _. length sum.now ≤ 16) }
{
    if sum.len() > MOST_MONOMIALS {
        return Err(ReadError::Fault(place.over(sum.len())));
    }
    checked_tensors(model, place, text, sum)
}
