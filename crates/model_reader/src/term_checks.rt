//! Checks on the sum that the text of a term is, and on the term that it gives.
ghost use Rattle.std.specs.Prelude.{◌≡◌, ◌+◌, ◌≤◌, ◌&&◌, ◌++◌, IfOk, [], length, drop, true};
ghost use Rattle.std.specs.List.{filter, list_all};
ghost use Rattle.model_core.specs.Valid.{has_valid_parts};
ghost use Rattle.model_core.specs.Fault.{key_place};
ghost use Rattle.model_core.specs.Content.{is_fermionic, has_small_directions};
ghost use Rattle.model_core.specs.TermWalk.{label_places, labels_places, eps_places, all_eps_places, join_places, joins_places, fits_shape, flavour_places, first_offset, content_places, monomial_wise, contents_places, coupling_places, is_overfull, first_block, overfull_places, block_places};
ghost use Rattle.model_reader.specs.Tables.{texts};
ghost use Rattle.model_reader.specs.Parsing.{has_labels_within};
ghost use Rattle.model_reader.specs.TermSteps.{are_small};
ghost use Rattle.model_reader.specs.Walked.{Passes};

use crate::error::{ReadError, refused};
use crate::term_labels::labels_of_monomial;
use model_core::{
    Factor, FaultPlace, FieldUse, Group, LabelledSlot, Model, Monomial, ReadKind, Shape, Span,
    SymbolBlock, SymbolBlockList, Term, TermKind, WrittenFactor, WrittenMonomial, block_directions,
    eps_fits, first_overfull, first_uses, has_content, has_mirrored_blocks, have_sizes,
    joins_one_group, joins_two, labelled_slots, monomials_have_flavour,
};
use std::alloc::{AllocError, Global};

// ---- labels and `eps`

/// Asks that a label joins two slots, of which a field has one, and that these are of one group.
fn checked_label(
    place: FaultPlace,
    factors: &[Factor],
    slots: &[LabelledSlot],
    number: u32,
) -> Result<(), ReadError>
    ensures { Passes (label_places factors.now slots.now place number) result }
{
    if !joins_two(factors, number) {
        return refused(place, ReadKind::LabelCount);
    }
    if !joins_one_group(slots, number) {
        return refused(place, ReadKind::WrongSlots);
    }
    Ok(())
}

/// Asks this of each label, at its first place; `number` is that of the first of them.
#[tactic(auto, using(crate::proofs::Firsts::first_before))]
fn checked_labels(
    place: FaultPlace,
    factors: &[Factor],
    slots: &[LabelledSlot],
    number: u32,
    labels: &[Span],
) -> Result<(), ReadError>
    requires { number + length labels.now ≤ 4096 }
    ensures { Passes (labels_places factors.now slots.now place number labels.now) result }
{
    match labels {
        [] => Ok(()),
        [label, labels @ ..] => {
            checked_label(place.offset(label.start), factors, slots, number)?;
            checked_labels(place, factors, slots, number + 1, labels)
        }
    }
}

/// Asks of each `eps` that its labels are of one group SU(n) with n equal to their number.
#[tactic(auto, using(crate::proofs::Firsts::first_before))]
fn checked_all_eps(
    place: FaultPlace,
    groups: &[Group],
    slots: &[LabelledSlot],
    written: &[WrittenFactor],
    factors: &[Factor],
) -> Result<(), ReadError>
    ensures { Passes (all_eps_places groups.now slots.now place written.now factors.now) result }
{
    match written {
        [] => Ok(()),
        [first, written @ ..] => match factors {
            [] => Ok(()),
            [factor, factors @ ..] => {
                checked_eps(place, groups, slots, first, factor)?;
                checked_all_eps(place, groups, slots, written, factors)
            }
        },
    }
}

/// Asks the same of one factor.
fn checked_eps(
    place: FaultPlace,
    groups: &[Group],
    slots: &[LabelledSlot],
    written: &WrittenFactor,
    factor: &Factor,
) -> Result<(), ReadError>
    ensures { Passes (eps_places groups.now slots.now place written.now factor.now) result }
{
    if !eps_fits(groups, slots, factor) {
        return refused(place.offset(written.word.start), ReadKind::WrongSlots);
    }
    Ok(())
}

/// Asks that the labels of a monomial join its factors.
#[tactic(auto, using(crate::proofs::Firsts::first_before, crate::proofs::TermLaws::labels_few), unfolding(model_core::specs::TermWalk::join_places))]
fn checked_join(
    alloc: Global,
    model: &Model,
    place: FaultPlace,
    text: &[u8],
    written: &WrittenMonomial,
    monomial: &Monomial,
) -> Result<(), ReadError>
    requires valid { has_valid_parts model.now ≡ true }
    requires few { has_labels_within 4096 written.now ≡ true }
    ensures { Passes (join_places model.now text.now place written.now monomial.now) result }
{
    let factors = monomial.factors.as_slice();
    let slots = labelled_slots(alloc, model, factors)?;
    let labels = labels_of_monomial(alloc, text, written)?;
    checked_labels(place, factors, slots.as_slice(), 0, labels.as_slice())?;
    checked_all_eps(
        place,
        model.groups.as_slice(),
        slots.as_slice(),
        written.factors.as_slice(),
        factors,
    )
}

/// Asks that the labels of each monomial join its factors: each label two slots of one group, of which a field has one
/// (`LabelCount` or `WrongSlots` at its first place), and then those of each `eps` one of each of its slots, of one group
/// SU(n) with n equal to their number (`WrongSlots` at its word).
#[tactic(auto, using(crate::proofs::Firsts::first_before), unfolding(model_core::specs::TermWalk::joins_places))]
pub fn checked_joins(
    alloc: Global,
    model: &Model,
    place: FaultPlace,
    text: &[u8],
    sum: &[WrittenMonomial],
    monomials: &[Monomial],
) -> Result<(), ReadError>
    requires valid { has_valid_parts model.now ≡ true }
    requires few { list_all (has_labels_within 4096) sum.now ≡ true }
    ensures walked { Passes (joins_places model.now text.now place sum.now monomials.now) result }
{
    match sum {
        [] => Ok(()),
        [written, sum @ ..] => match monomials {
            [] => Ok(()),
            [monomial, monomials @ ..] => {
                checked_join(alloc, model, place, text, written, monomial)?;
                checked_joins(alloc, model, place, text, sum, monomials)
            }
        },
    }
}

// ---- flavour

/// Whether a shape has these flavour labels: one symbol none, and else two that differ.
fn fits_shape(shape: Shape, flavour: &[&[u8]]) -> bool
    ensures { result ≡ fits_shape shape (texts flavour.now) }
{
    match shape {
        Shape::One => flavour.is_empty(),
        _ => match flavour {
            [row, column] => *row != *column,
            _ => false,
        },
    }
}

/// Asks at the key `flavour` that the flavour labels fit the shape and stand in each monomial as it says (`LabelCount`),
/// with the same sizes in all of them (`WrongSlots`).
#[tactic(auto, using(crate::proofs::Firsts::first_before), unfolding(model_core::specs::TermWalk::flavour_places))]
pub fn checked_flavour(
    alloc: Global,
    model: &Model,
    flavour: &[&[u8]],
    place: FaultPlace,
    term: &Term,
) -> Result<(), ReadError>
    ensures walked { Passes (flavour_places model.now (texts flavour.now) place term.now) result }
{
    if !fits_shape(term.shape, flavour) {
        return refused(place.key(5), ReadKind::LabelCount);
    }
    if !monomials_have_flavour(alloc, term.shape, term.monomials.as_slice())? {
        return refused(place.key(5), ReadKind::LabelCount);
    }
    if !have_sizes(alloc, model, term)? {
        return refused(place.key(5), ReadKind::WrongSlots);
    }
    Ok(())
}

// ---- contents

/// The offset of the first factor's word, 0 where there is none.
fn first_offset(factors: &[WrittenFactor]) -> usize
    ensures { result ≡ first_offset factors.now }
{
    match factors {
        [] => 0,
        [factor, ..] => factor.word.start,
    }
}

/// Asks that a monomial has fields that a term of this kind may have, and those of the first one.
fn checked_content(
    alloc: Global,
    kind: TermKind,
    first: &[FieldUse],
    place: FaultPlace,
    written: &WrittenMonomial,
    monomial: &Monomial,
) -> Result<(), ReadError>
    ensures walked { Passes (content_places kind first.now place written.now monomial.now) result }
{
    if !has_content(alloc, kind, first, monomial)? {
        let place = place.offset(first_offset(written.factors.as_slice()));
        return refused(place, ReadKind::WrongContent);
    }
    Ok(())
}

/// Asks this of each monomial.
#[tactic(auto, using(crate::proofs::Firsts::first_before))]
fn checked_each_content(
    alloc: Global,
    kind: TermKind,
    first: &[FieldUse],
    place: FaultPlace,
    sum: &[WrittenMonomial],
    monomials: &[Monomial],
) -> Result<(), ReadError>
    ensures walked { Passes (monomial_wise (content_places kind first.now place) sum.now monomials.now) result }
{
    match sum {
        [] => Ok(()),
        [written, sum @ ..] => match monomials {
            [] => Ok(()),
            [monomial, monomials @ ..] => {
                checked_content(alloc, kind, first, place, written, monomial)?;
                checked_each_content(alloc, kind, first, place, sum, monomials)
            }
        },
    }
}

/// Asks that each monomial has fields that a term of its kind may have, and those of the first one (`WrongContent` at its
/// first factor).
#[tactic(auto, unfolding(model_core::specs::TermWalk::contents_places))]
pub fn checked_contents(
    alloc: Global,
    place: FaultPlace,
    sum: &[WrittenMonomial],
    term: &Term,
) -> Result<(), ReadError>
    ensures walked { Passes (contents_places place sum.now term.now) result }
{
    let monomials = term.monomials.as_slice();
    let first = first_uses(alloc, monomials)?;
    checked_each_content(alloc, term.kind, first.as_slice(), place, sum, monomials)
}

// ---- the coupling

/// Whether the term couples fermions.
fn is_fermionic(kind: TermKind) -> bool
    ensures { result ≡ is_fermionic kind }
{
    matches!(kind, TermKind::Fermion)
}

/// Asks that the fields of a term allow its `hc`, its `value` and its `shape` (`WrongContent` at these keys).
#[tactic(auto, using(crate::proofs::Firsts::first_before), unfolding(model_core::specs::TermWalk::coupling_places))]
pub fn checked_coupling(
    alloc: Global,
    model: &Model,
    place: FaultPlace,
    term: &Term,
) -> Result<(), ReadError>
    ensures walked { Passes (coupling_places model.now place term.now) result }
{
    let is_fermionic = is_fermionic(term.kind);
    if term.hc && is_fermionic {
        return refused(place.key(6), ReadKind::WrongContent);
    }
    if !is_fermionic && !(term.real || term.hc) {
        return refused(place.key(3), ReadKind::WrongContent);
    }
    if !has_mirrored_blocks(alloc, model, term)? {
        return refused(place.key(4), ReadKind::WrongContent);
    }
    Ok(())
}

// ---- directions

/// Adds blocks to those of earlier terms.
fn push_blocks(blocks: &mut SymbolBlockList, more: SymbolBlockList) -> Result<(), AllocError>
    ensures { IfOk result (λ _. blocks.new ≡ blocks.old ++ more) }
{
    for block in more.into_vec() {
        blocks.push(block)?;
    }
    Ok(())
}

/// Asks at the term itself that none of its blocks, which stand from `start` on, has more than 4 directions (`OverLimit`).
#[tactic(auto, using(crate::proofs::Firsts::first_before), unfolding(model_core::specs::TermWalk::block_places))]
fn checked_directions(
    alloc: Global,
    place: FaultPlace,
    blocks: &[SymbolBlock],
    start: usize,
) -> Result<(), ReadError>
    requires start { start ≤ length blocks.now }
    requires few { length blocks.now ≤ 2304 }
    requires small { list_all has_small_directions blocks.now ≡ true }
    ensures walked { Passes (overfull_places blocks.now (key_place place 0) (first_block (filter (is_overfull blocks.now) (drop start blocks.now)))) result }
{
    let (_, own) = blocks.split_at(start);
    match first_overfull(alloc, blocks, own)? {
        None => Ok(()),
        Some(block) => {
            let count = block_directions(blocks, block.as_slice());
            Err(ReadError::Fault(place.key(0).over(count as usize)))
        }
    }
}

/// Asks at the term itself that none of its blocks has more than 4 directions after those of earlier terms (`OverLimit`), and
/// adds its blocks to these.
#[tactic(auto, using(crate::proofs::Firsts::first_before, crate::proofs::TermLaws::own_blocks, crate::proofs::Directions::gives_pushed, crate::proofs::Directions::small_pushed), unfolding(model_core::specs::TermWalk::block_places))]
pub fn checked_blocks(
    alloc: Global,
    place: FaultPlace,
    blocks: &mut SymbolBlockList,
    own: SymbolBlockList,
) -> Result<(), ReadError>
    requires few { length blocks.old + length own ≤ 2304 }
    requires small { are_small blocks.old ≡ true }
    requires own { list_all has_small_directions own ≡ true }
    ensures walked { Passes (block_places blocks.old place own) result }
    ensures added { IfOk result (λ _. blocks.new ≡ blocks.old ++ own) }
    ensures small { IfOk result (λ _. are_small blocks.new ≡ true) }
{
    let start = blocks.len();
    push_blocks(blocks, own)?;
    checked_directions(alloc, place, blocks.as_slice(), start)?;
    Ok(())
}
