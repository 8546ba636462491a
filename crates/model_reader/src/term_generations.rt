//! The generations of the factors of a term's text.
ghost use Rattle.std.specs.Prelude.{◌≡◌, not};
ghost use Rattle.std.specs.List.{list_any};
ghost use Rattle.std.specs.Str.{bytes_eq};
ghost use Rattle.model_core.specs.Fault.{bad_where};
ghost use Rattle.model_core.specs.TermMeaning.{generation_in, generation_of_index, flavour_generation};
ghost use Rattle.model_core.specs.TermWalk.{fits_index, fits_generations, has_flavour_label};
ghost use Rattle.model_reader.specs.Tables.{texts};
ghost use Rattle.model_reader.specs.Walked.{Walked};

use crate::error::{ReadError, refused};
use crate::literal::number_in;
use crate::term_words::bytes_at;
use model_core::{Bracket, FaultPlace, Generation, Index, ReadKind};

/// Whether a word is one of the flavour labels.
fn is_among(word: &[u8], flavour: &[&[u8]]) -> bool
    ensures { result ≡ list_any (bytes_eq word.now) (texts flavour.now) }
{
    for label in flavour {
        if word == *label {
            return true;
        }
    }
    false
}

/// Whether what a bracket has in it is a flavour label or a number.
pub fn has_flavour_label(flavour: &[&[u8]], text: &[u8], bracket: Option<Bracket>) -> bool
    ensures { result ≡ has_flavour_label (texts flavour.now) text.now bracket }
{
    let Some(bracket) = bracket else {
        return true;
    };
    match bracket.index {
        Index::Word(word) => is_among(bytes_at(text, word), flavour),
        Index::Digits(_) => true,
    }
}

/// The generation that a flavour label stands for: the row where it is the first, and else the column.
#[tactic(auto, using(crate::proofs::FlavourLaws::first_is_row, crate::proofs::FlavourLaws::other_is_column))]
fn flavour_generation(flavour: &[&[u8]], word: &[u8]) -> Generation
    ensures { result ≡ flavour_generation (texts flavour.now) word.now }
{
    match flavour {
        [first, ..] => {
            if word == *first {
                return Generation::Row;
            }
            Generation::Column
        }
        [] => Generation::Column,
    }
}

/// The generation of a bracket, in a field with so many.
#[tactic(auto, using(crate::proofs::Literals::value_of_number))]
fn generation_of_index(
    place: FaultPlace,
    size: u32,
    flavour: &[&[u8]],
    text: &[u8],
    index: Index,
) -> Result<Generation, ReadError>
    ensures { Walked (λ g. g) (bad_where (not (fits_index text.now size index)) place ReadKind.WrongSlots) (generation_of_index (texts flavour.now) text.now index) result }
{
    match index {
        Index::Word(word) => Ok(flavour_generation(flavour, bytes_at(text, word))),
        Index::Digits(digits) => match number_in(1, size, bytes_at(text, digits)) {
            Some(number) => Ok(Generation::Fixed(number)),
            None => refused(place, ReadKind::WrongSlots),
        },
    }
}

/// The generation of a factor, whose field has so many: the first one where no bracket stands.
pub fn generation_in(
    place: FaultPlace,
    size: u32,
    flavour: &[&[u8]],
    text: &[u8],
    bracket: Option<Bracket>,
) -> Result<Generation, ReadError>
    ensures { Walked (λ g. g) (bad_where (not (fits_generations text.now size bracket)) place ReadKind.WrongSlots) (generation_in (texts flavour.now) text.now bracket) result }
{
    if let Some(bracket) = bracket {
        return generation_of_index(place, size, flavour, text, bracket.index);
    }
    if size > 1 {
        return refused(place, ReadKind::WrongSlots);
    }
    Ok(Generation::Fixed(1))
}
