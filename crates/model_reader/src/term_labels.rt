//! The labels of a monomial, numbered by their first places.
ghost use Rattle.std.specs.Prelude.{◌≡◌, ◌≤◌, [], IfOk, IfSome, OnOk, ◌<◌, length, map, position};
ghost use Rattle.std.specs.List.{list_any, flat_map};
ghost use Rattle.model_core.specs.TermMeaning.{same_text, first_labels, labels_in, written_labels, labels_of_monomial, label_number};

use crate::term_words::bytes_at;
use frac128::NumberList;
use model_core::{Span, SpanList, WrittenFactor, WrittenMonomial};
use std::alloc::{AllocError, Global};

/// Whether two spans have the same bytes.
fn has_same_text(text: &[u8], a: Span, b: Span) -> bool
    ensures { result ≡ same_text text.now a b }
{
    bytes_at(text, a) == bytes_at(text, b)
}

/// The place of a label among labels, by its text.
fn place_of(text: &[u8], labels: &[Span], label: Span) -> Option<usize>
    ensures value { result ≡ position (same_text text.now label) labels.now }
    ensures within { IfSome result (λ place. place < length labels.now) }
{
    labels
        .iter()
        .position(|other| has_same_text(text, label, *other))
}

/// Whether a label is among labels, by its text.
fn is_among(text: &[u8], labels: &[Span], label: Span) -> bool
    ensures { result ≡ list_any (same_text text.now label) labels.now }
{
    labels
        .iter()
        .any(|other| has_same_text(text, label, *other))
}

/// Adds those labels whose text isn't there yet.
fn add_labels(text: &[u8], first: &mut SpanList, labels: &[Span]) -> Result<(), AllocError>
    ensures { OnOk result (first.new ≡ first_labels text.now first.old labels.now) }
{
    for label in labels {
        if !is_among(text, first.as_slice(), *label) {
            first.push(*label)?;
        }
    }
    Ok(())
}

/// The labels of factors, each where its text stands first.
#[tactic(auto, using(crate::proofs::LabelLaws::first_labels_append))]
fn first_labels(
    alloc: Global,
    text: &[u8],
    factors: &[WrittenFactor],
) -> Result<SpanList, AllocError>
    ensures { IfOk result (λ labels. labels ≡ first_labels text.now [] (flat_map labels_in factors.now)) }
{
    let mut labels = SpanList::new(alloc);
    for factor in factors {
        add_labels(text, &mut labels, factor.labels.as_slice())?;
    }
    Ok(labels)
}

/// The labels of a monomial, each where its text stands first. `AllocError` comes where memory runs out.
#[tactic(auto, using(crate::proofs::LabelLaws::few_labels), unfolding(model_core::specs::TermMeaning::labels_of_monomial))]
pub fn labels_of_monomial(
    alloc: Global,
    text: &[u8],
    monomial: &WrittenMonomial,
) -> Result<SpanList, AllocError>
    ensures labels { IfOk result (λ labels. labels ≡ labels_of_monomial text.now monomial.now) }
    ensures few { IfOk result (λ labels. length labels ≤ length (written_labels monomial.now)) }
{
    first_labels(alloc, text, monomial.factors.as_slice())
}

/// The number of a label: its place among the labels of its monomial, counted from 0.
fn label_number(text: &[u8], labels: &[Span], label: Span) -> u32
    requires { length labels.now ≤ 4096 }
    ensures { result ≡ label_number text.now labels.now label }
{
    match place_of(text, labels, label) {
        Some(place) => place as u32,
        None => 0,
    }
}

/// The numbers of labels, where their monomial has these labels. `AllocError` comes where memory runs out.
pub fn label_numbers(
    alloc: Global,
    text: &[u8],
    labels: &[Span],
    written: &[Span],
) -> Result<NumberList, AllocError>
    requires { length labels.now ≤ 4096 }
    ensures { IfOk result (λ numbers. numbers ≡ map (label_number text.now labels.now) written.now) }
{
    let mut numbers = NumberList::new(alloc);
    for label in written {
        numbers.push(label_number(text, labels, *label))?;
    }
    Ok(numbers)
}
