//! The factors and the monomials of a term's text.
ghost use Rattle.std.specs.Prelude.{◌≡◌, ◌≤◌, true, length, map, Some};
ghost use Rattle.std.specs.List.{list_all, flat_map};
ghost use Rattle.model_core.specs.TermMeaning.{generation_in, written_labels, factor_of, monomial_of};
ghost use Rattle.model_core.specs.TermWalk.{referent_places, factor_places, monomial_places, monomials_places};
ghost use Rattle.model_core.specs.Valid.{has_valid_parts};
ghost use Rattle.model_reader.specs.Parsing.{has_labels_within};
ghost use Rattle.model_reader.specs.Tables.{texts};
ghost use Rattle.model_reader.specs.Walked.{Walked};

use crate::error::{ReadError, refused};
use crate::term_generations::{generation_in, has_flavour_label};
use crate::term_labels::{label_numbers, labels_of_monomial};
use crate::term_literals::size_of;
use crate::term_referents::{factor_named, fits_slots, has_conjugate, referent_size};
use crate::term_words::referent_at;
use model_core::{
    Factor, FactorList, FaultPlace, Generation, Model, Monomial, MonomialList, ReadKind, Referent,
    Span, WrittenFactor, WrittenMonomial,
};
use std::alloc::Global;

/// The generation of a factor that names something and fits it.
#[tactic(auto, using(crate::proofs::Firsts::first_before))]
fn fitting_generation(
    model: &Model,
    flavour: &[&[u8]],
    place: FaultPlace,
    text: &[u8],
    factor: &WrittenFactor,
    named: Referent,
) -> Result<Generation, ReadError>
    requires { has_valid_parts model.now ≡ true }
    ensures { Walked (λ g. g) (referent_places model.now (texts flavour.now) text.now place factor.now (Some named)) (generation_in (texts flavour.now) text.now factor.now.bracket) result }
{
    if factor.tilde.is_some() && !has_conjugate(model, named) {
        return refused(place, ReadKind::WrongContent);
    }
    let generation = generation_in(
        place,
        referent_size(model, named),
        flavour,
        text,
        factor.bracket,
    )?;
    if !fits_slots(model, named, factor.labels.len()) {
        return refused(place, ReadKind::WrongSlots);
    }
    if !has_flavour_label(flavour, text, factor.bracket) {
        return refused(place, ReadKind::LabelCount);
    }
    Ok(generation)
}

/// The factor that a written one is, where its monomial has these labels.
#[tactic(auto, using(crate::proofs::Firsts::first_before), unfolding(model_core::specs::TermWalk::factor_places))]
fn factor_of(
    alloc: Global,
    model: &Model,
    flavour: &[&[u8]],
    place: FaultPlace,
    text: &[u8],
    labels: &[Span],
    factor: &WrittenFactor,
) -> Result<Factor, ReadError>
    requires valid { has_valid_parts model.now ≡ true }
    requires few { length labels.now ≤ 4096 }
    ensures { Walked (λ factor. factor) (factor_places model.now (texts flavour.now) text.now place factor.now) (factor_of model.now (texts flavour.now) text.now labels.now factor.now) result }
{
    let place = place.offset(factor.word.start);
    let Some(named) = referent_at(model, text, factor) else {
        return refused(place, ReadKind::UnknownField);
    };
    let generation = fitting_generation(model, flavour, place, text, factor, named)?;
    let numbers = label_numbers(alloc, text, labels, factor.labels.as_slice())?;
    Ok(factor_named(named, factor.tilde.is_some(), generation, numbers))
}

/// The factors that written ones are.
#[tactic(auto, using(crate::proofs::Firsts::first_before))]
fn factors_of(
    alloc: Global,
    model: &Model,
    flavour: &[&[u8]],
    place: FaultPlace,
    text: &[u8],
    labels: &[Span],
    written: &[WrittenFactor],
) -> Result<FactorList, ReadError>
    requires valid { has_valid_parts model.now ≡ true }
    requires few { length labels.now ≤ 4096 }
    ensures { Walked (λ factors. factors) (flat_map (factor_places model.now (texts flavour.now) text.now place) written.now)
        (map (factor_of model.now (texts flavour.now) text.now labels.now) written.now) result }
{
    let mut factors = FactorList::new(alloc);
    for factor in written {
        let factor = factor_of(alloc, model, flavour, place, text, labels, factor)?;
        factors.push(factor)?;
    }
    Ok(factors)
}

/// The monomial that a written one is.
#[tactic(auto, using(crate::proofs::Firsts::first_before), unfolding(model_core::specs::TermWalk::monomial_places, model_core::specs::TermMeaning::monomial_of))]
fn monomial_of(
    alloc: Global,
    model: &Model,
    flavour: &[&[u8]],
    place: FaultPlace,
    text: &[u8],
    written: &WrittenMonomial,
) -> Result<Monomial, ReadError>
    requires valid { has_valid_parts model.now ≡ true }
    requires few { length (written_labels written.now) ≤ 4096 }
    ensures { Walked (λ m. m) (monomial_places model.now (texts flavour.now) text.now place written.now) (monomial_of model.now (texts flavour.now) text.now written.now) result }
{
    let size = size_of(place, text, written.literal)?;
    let labels = labels_of_monomial(alloc, text, written)?;
    let factors = factors_of(
        alloc,
        model,
        flavour,
        place,
        text,
        labels.as_slice(),
        written.factors.as_slice(),
    )?;
    let coefficient = if written.negative {
        size.negated()
    } else {
        size
    };
    Ok(Monomial {
        coefficient,
        factors,
    })
}

/// The monomials that a sum is, where its marks and its counts are checked.
///
/// The first of these comes in the order of monomials, of each first its literal: `BadNumber` at a literal's numerator
/// that is greater than 10^9, or whose denominator isn't from 1 to 10^6; and at a factor's word `UnknownField` where it
/// names nothing, `WrongContent` where a fermion or a real scalar has a `~`, `WrongSlots` where there is no bracket and
/// more than one generation, or a number in it that is none of them, or another number of labels than of slots, and
/// `LabelCount` where a word in a bracket is no flavour label.
#[tactic(auto, using(crate::proofs::Firsts::first_before), unfolding(model_core::specs::TermWalk::monomials_places))]
pub fn monomials_of(
    alloc: Global,
    model: &Model,
    flavour: &[&[u8]],
    place: FaultPlace,
    text: &[u8],
    sum: &[WrittenMonomial],
) -> Result<MonomialList, ReadError>
    requires valid { has_valid_parts model.now ≡ true }
    requires few { list_all (has_labels_within 4096) sum.now ≡ true }
    ensures { Walked (λ m. m) (monomials_places model.now (texts flavour.now) text.now place sum.now) (map (monomial_of model.now (texts flavour.now) text.now) sum.now) result }
{
    let mut monomials = MonomialList::new(alloc);
    for written in sum {
        let monomial = monomial_of(alloc, model, flavour, place, text, written)?;
        monomials.push(monomial)?;
    }
    Ok(monomials)
}
