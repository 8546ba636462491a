//! The law of the grammar of terms.
ghost use Rattle.std.specs.Prelude.{◌≡◌, ℕ, List, Some, None};
ghost use Rattle.model_core.specs.declared.sum.WrittenMonomial.{WrittenMonomial};
ghost use Rattle.model_core.specs.TermText.{IsSum, IsFirstBad};
ghost use Rattle.model_core.specs.TermGrammar.{bad_offset, sum_in};

/// The grammar of a term's text. A text is one sum at most. Where `bad_offset` has an offset, no sum's text is the text,
/// and the offset is that of the first byte that none can have there; else the text is the sum `sum_in`.
pub fn the_grammar_of_terms()
    ensures one { (text : List ℕ) (first second : List WrittenMonomial) → IsSum text first → IsSum text second → first ≡ second }
    ensures bad { (text : List ℕ) (offset : ℕ) → bad_offset text ≡ Some offset → IsFirstBad text offset }
    ensures sum { (text : List ℕ) → bad_offset text ≡ None → IsSum text (sum_in text) }
{}
