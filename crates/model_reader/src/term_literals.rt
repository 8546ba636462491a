//! The literals of a term's text.
ghost use Rattle.std.specs.Prelude.{◌≡◌};
ghost use Rattle.model_core.specs.TermMeaning.{literal_fraction, size_of};
ghost use Rattle.model_core.specs.TermWalk.{literal_places};
ghost use Rattle.model_reader.specs.Walked.{Walked};

use crate::error::{ReadError, refused};
use crate::literal::{quotient_of, whole_of};
use crate::term_words::bytes_at;
use frac128::Frac;
use model_core::{FaultPlace, ReadKind, WrittenLiteral};

/// The fraction that a literal is.
#[tactic(auto, unfolding(model_core::specs::TermMeaning::literal_fraction))]
fn literal_fraction(text: &[u8], literal: &WrittenLiteral) -> Option<Frac>
    ensures { result ≡ literal_fraction text.now literal.now }
{
    let above = bytes_at(text, literal.numerator);
    match literal.denominator {
        Some(below) => quotient_of(above, bytes_at(text, below)),
        None => whole_of(above),
    }
}

/// The size of a coefficient: 1 where none is written.
pub fn size_of(
    place: FaultPlace,
    text: &[u8],
    literal: Option<WrittenLiteral>,
) -> Result<Frac, ReadError>
    ensures { Walked (λ x. x) (literal_places text.now place literal) (size_of text.now literal) result }
{
    let Some(literal) = literal else {
        return Ok(Frac::one());
    };
    match literal_fraction(text, &literal) {
        Some(fraction) => Ok(fraction),
        None => refused(place.offset(literal.numerator.start), ReadKind::BadNumber),
    }
}
