//! The sum that a term's text is, or where it is bad.
ghost use Rattle.std.specs.Prelude.{◌≡◌, true, IfOk};
ghost use Rattle.std.specs.List.{list_all};
ghost use Rattle.model_core.specs.TermGrammar.{sum_in};
ghost use Rattle.model_core.specs.TermWalk.{grammar_places};
ghost use Rattle.model_reader.specs.Parsing.{has_labels_within};
ghost use Rattle.model_reader.specs.Walked.{Walked};

use crate::error::{ReadError, refused};
use crate::term_text::{ParsedSum, parse_sum};
use model_core::{FaultPlace, ReadKind, Sum};
use std::alloc::Global;

/// The longest text of a term, in bytes.
const LONGEST_TEXT: usize = 4096;

/// The sum that a term's text is, of at most 4,096 bytes.
#[tactic(auto, using(crate::proofs::Firsts::first_before), unfolding(model_core::specs::TermWalk::grammar_places))]
pub fn term_sum(alloc: Global, place: FaultPlace, text: &[u8]) -> Result<Sum, ReadError>
    ensures walked { Walked (λ sum. sum) (grammar_places place text.now) (sum_in text.now) result }
    ensures few { IfOk result (λ sum. list_all (has_labels_within 4096) sum ≡ true) }
{
    if text.len() > LONGEST_TEXT {
        return Err(ReadError::Fault(place.over(text.len())));
    }
    match parse_sum(alloc, text)? {
        ParsedSum::Sum(sum) => Ok(sum),
        ParsedSum::Bad(offset) => refused(place.offset(offset), ReadKind::BadTermText),
    }
}
