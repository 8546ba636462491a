//! The sum that a term's text is.
ghost use Rattle.std.specs.Prelude.{◌≡◌, ◌∷◌, [], length, Err, MatchOption, true, false, IfOk, nat_lt};
ghost use Rattle.std.specs.List.{flat_map};
ghost use Rattle.model_core.specs.declared.sum.Token.TheVariants.{Word, Digits, Tilde, Open, Mark};
ghost use Rattle.model_core.specs.TermText.{denominator_tokens, literal_tokens, tilde_tokens, index_token, bracket_tokens, listed_labels, label_tokens, factor_tokens, monomial_tokens, first_sign, sign, spelling, is_whole, has_factors};
ghost use Rattle.model_reader.specs.declared.term_text.Stop.TheVariants.{Left, NoMemory};
ghost use Rattle.model_core.specs.TermGrammar.{Start, AfterSign, AfterNumerator, AfterLiteral, AfterWord, AfterTilde, AfterOpen, AfterIndex, AfterBracket, AfterLeft, AfterLabel, AfterLabels, AfterFactor, AfterFactors, AfterMonomials};
ghost use Rattle.model_reader.specs.Parsing.{begins_mark, begins_word, begins_digits, begins_open, begins_sign, Reads, Parsed, IsRead, ParsedAs, HasFewLabels};

use crate::term_tokens::{start_after, tokens_of};
use model_core::{
    Bracket, Index, Span, SpanList, Sum, Token, WrittenFactor, WrittenFactorList, WrittenLiteral,
    WrittenMonomial,
};
use std::alloc::{AllocError, Global};

/// What a text is: a sum, or none, with the offset of its first byte that no sum's text can have there, or of its
/// end where it ends too early.
#[derive(Drop)]
pub enum ParsedSum {
    Sum(Sum),
    Bad(usize),
}

/// Why no sum is read.
#[derive(Clone, Copy, Debug)]
pub enum Stop {
    /// No sum goes on with the first of the tokens that are left, which are so many.
    Left(usize),
    /// Memory ran out.
    NoMemory,
}

impl From<AllocError> for Stop {
    ghost from_gives = { λ _ e. e ≡ NoMemory };

    fn from(_: AllocError) -> Stop {
        Stop::NoMemory
    }
}

/// A part of a sum and the tokens after it.
type Read<'a, T> = Result<(T, &'a [Token]), Stop>;

/// The refusal of the first of these tokens, or of the end.
fn stuck<T>(tokens: &[Token]) -> Result<T, Stop>
    ensures { result ≡ Err (Left (length tokens.now)) }
{
    Err(Stop::Left(tokens.len()))
}

/// The tokens after a mark that comes first.
fn after(tokens: &[Token], wanted: u8) -> Option<&[Token]>
    ensures { MatchOption result (begins_mark wanted tokens.now ≡ false) (λ rest. tokens.now ≡ Mark wanted ∷ rest.now) }
{
    match tokens {
        [Token::Mark(mark), rest @ ..] => {
            if *mark != wanted {
                return None;
            }
            Some(rest)
        }
        _ => None,
    }
}

/// A word that comes first, and the tokens after it.
fn first_word(tokens: &[Token]) -> Option<(Span, &[Token])>
    ensures { MatchOption result (begins_word tokens.now ≡ false) (λ x. tokens.now ≡ Word x.0 ∷ x.1.now) }
{
    match tokens {
        [Token::Word(word), rest @ ..] => Some((*word, rest)),
        _ => None,
    }
}

/// Digits that come first, and the tokens after them.
fn first_digits(tokens: &[Token]) -> Option<(Span, &[Token])>
    ensures { MatchOption result (begins_digits tokens.now ≡ false) (λ x. tokens.now ≡ Digits x.0 ∷ x.1.now) }
{
    match tokens {
        [Token::Digits(digits), rest @ ..] => Some((*digits, rest)),
        _ => None,
    }
}

/// The word that has to come first.
fn word(tokens: &[Token]) -> Read<Span>
    ensures { Parsed AfterLeft AfterLabel (λ word. Word word ∷ []) tokens.now result }
{
    match first_word(tokens) {
        Some(read) => Ok(read),
        None => stuck(tokens),
    }
}

/// A denominator after a numerator, or none.
fn denominator(tokens: &[Token]) -> Read<Option<Span>>
    ensures { Parsed AfterNumerator AfterLiteral denominator_tokens tokens.now result }
{
    let Some(rest) = after(tokens, b'/') else {
        return Ok((None, tokens));
    };
    match first_digits(rest) {
        Some((digits, rest)) => Ok((Some(digits), rest)),
        None => stuck(rest),
    }
}

/// A monomial's literal, or none.
fn literal(tokens: &[Token]) -> Read<Option<WrittenLiteral>>
    ensures { Parsed AfterSign AfterLiteral literal_tokens tokens.now result }
{
    let Some((numerator, rest)) = first_digits(tokens) else {
        return Ok((None, tokens));
    };
    let (denominator, rest) = denominator(rest)?;
    let literal = WrittenLiteral {
        numerator,
        denominator,
    };
    Ok((Some(literal), rest))
}

/// The `~` after a word, or none.
fn tilde(tokens: &[Token]) -> (Option<usize>, &[Token])
    ensures { Reads AfterWord AfterTilde tokens.now (tilde_tokens result.0) result.1.now }
{
    match tokens {
        [Token::Tilde(at), rest @ ..] => (Some(*at), rest),
        _ => (None, tokens),
    }
}

/// The word or digits in a bracket.
fn index(tokens: &[Token]) -> Read<Index>
    ensures { Parsed AfterOpen AfterIndex (λ index. index_token index ∷ []) tokens.now result }
{
    match tokens {
        [Token::Word(word), rest @ ..] => Ok((Index::Word(*word), rest)),
        [Token::Digits(digits), rest @ ..] => Ok((Index::Digits(*digits), rest)),
        _ => stuck(tokens),
    }
}

/// The offset of the `[` that comes first, and the tokens after it.
fn first_open(tokens: &[Token]) -> Option<(usize, &[Token])>
    ensures { MatchOption result (begins_open tokens.now ≡ false) (λ x. tokens.now ≡ Open x.0 ∷ x.1.now) }
{
    match tokens {
        [Token::Open(at), rest @ ..] => Some((*at, rest)),
        _ => None,
    }
}

/// A factor's bracket, or none.
fn bracket(tokens: &[Token]) -> Read<Option<Bracket>>
    ensures { Parsed AfterTilde AfterBracket bracket_tokens tokens.now result }
{
    let Some((at, rest)) = first_open(tokens) else {
        return Ok((None, tokens));
    };
    let (index, rest) = index(rest)?;
    match after(rest, b']') {
        Some(rest) => Ok((Some(Bracket { at, index }), rest)),
        None => stuck(rest),
    }
}

/// Labels with commas between them, after `(`, without the `)`.
fn listed_labels(alloc: Global, tokens: &[Token]) -> Read<SpanList>
    ensures parsed { Parsed AfterLeft AfterLabels listed_labels tokens.now result }
    ensures some { IfOk result (λ x. nat_lt 0 (length x.0) ≡ true) }
{
    let mut labels = SpanList::new(alloc);
    let (first, mut left) = word(tokens)?;
    labels.push(first)?;
    while let Some(rest) = after(left, b',') {
        let (label, rest) = word(rest)?;
        labels.push(label)?;
        left = rest;
    }
    Ok((labels, left))
}

/// A factor's labels: none where there are no parentheses.
fn labels(alloc: Global, tokens: &[Token]) -> Read<SpanList>
    ensures { Parsed AfterBracket AfterFactor label_tokens tokens.now result }
{
    let Some(rest) = after(tokens, b'(') else {
        return Ok((SpanList::new(alloc), tokens));
    };
    let (labels, rest) = listed_labels(alloc, rest)?;
    match after(rest, b')') {
        Some(rest) => Ok((labels, rest)),
        None => stuck(rest),
    }
}

/// A factor.
fn factor(alloc: Global, tokens: &[Token]) -> Read<WrittenFactor>
    ensures { Parsed AfterLiteral AfterFactor factor_tokens tokens.now result }
{
    let Some((word, rest)) = first_word(tokens) else {
        return stuck(tokens);
    };
    let (tilde, rest) = tilde(rest);
    let (bracket, rest) = bracket(rest)?;
    let (labels, rest) = labels(alloc, rest)?;
    let factor = WrittenFactor {
        word,
        tilde,
        bracket,
        labels,
    };
    Ok((factor, rest))
}

/// The factors of a monomial, at least one.
fn factors(alloc: Global, tokens: &[Token]) -> Read<WrittenFactorList>
    ensures parsed { Parsed AfterLiteral AfterFactors (flat_map factor_tokens) tokens.now result }
    ensures some { IfOk result (λ x. nat_lt 0 (length x.0) ≡ true) }
{
    let mut factors = WrittenFactorList::new(alloc);
    let (first, mut left) = factor(alloc, tokens)?;
    factors.push(first)?;
    while first_word(left).is_some() {
        let (next, rest) = factor(alloc, left)?;
        factors.push(next)?;
        left = rest;
    }
    Ok((factors, left))
}

/// A monomial after its sign.
fn monomial(alloc: Global, negative: bool, tokens: &[Token]) -> Read<WrittenMonomial>
    ensures parsed { Parsed AfterSign AfterFactors monomial_tokens tokens.now result }
    ensures negative { IfOk result (λ x. x.0.negative ≡ negative) }
    ensures some { IfOk result (λ x. has_factors x.0 ≡ true) }
{
    let (literal, rest) = literal(tokens)?;
    let (factors, rest) = factors(alloc, rest)?;
    let monomial = WrittenMonomial {
        negative,
        literal,
        factors,
    };
    Ok((monomial, rest))
}

/// Whether the first monomial has the sign `-`, and the tokens after that.
fn first_sign(tokens: &[Token]) -> (bool, &[Token])
    ensures { Reads Start AfterSign tokens.now (first_sign result.0) result.1.now }
{
    match after(tokens, b'-') {
        Some(rest) => (true, rest),
        None => (false, tokens),
    }
}

/// Whether the sign that comes first is `-`, and the tokens after it.
fn sign(tokens: &[Token]) -> Option<(bool, &[Token])>
    ensures { MatchOption result (begins_sign tokens.now ≡ false) (λ x. tokens.now ≡ sign x.0 ∷ x.1.now) }
{
    if let Some(rest) = after(tokens, b'-') {
        return Some((true, rest));
    }
    match after(tokens, b'+') {
        Some(rest) => Some((false, rest)),
        None => None,
    }
}

/// Monomials at the front, and the tokens after them.
fn monomials(alloc: Global, tokens: &[Token]) -> Read<Sum>
    ensures parsed { Parsed Start AfterMonomials spelling tokens.now result }
    ensures whole { IfOk result (λ x. is_whole x.0 ≡ true) }
{
    let mut sum = Sum::new(alloc);
    let (negative, rest) = first_sign(tokens);
    let (first, mut left) = monomial(alloc, negative, rest)?;
    sum.push(first)?;
    while let Some((negative, rest)) = sign(left) {
        let (next, rest) = monomial(alloc, negative, rest)?;
        sum.push(next)?;
        left = rest;
    }
    Ok((sum, left))
}

/// The sum that all of these tokens are.
fn sum_of(alloc: Global, tokens: &[Token]) -> Result<Sum, Stop>
    ensures { IsRead tokens.now result }
{
    let (sum, rest) = monomials(alloc, tokens)?;
    match rest {
        [] => Ok(sum),
        [_, ..] => stuck(rest),
    }
}

/// The sum that a text is, or where it stops to be one.
pub fn parse_sum(alloc: Global, text: &[u8]) -> Result<ParsedSum, AllocError>
    ensures parsed { IfOk result (λ parsed. ParsedAs text.now parsed) }
    ensures few { IfOk result (λ parsed. HasFewLabels text.now parsed) }
{
    let tokens = tokens_of(alloc, text)?;
    match sum_of(alloc, tokens.as_slice()) {
        Ok(sum) => Ok(ParsedSum::Sum(sum)),
        Err(Stop::Left(left)) => Ok(ParsedSum::Bad(start_after(text, tokens.len() - left))),
        Err(Stop::NoMemory) => Err(AllocError),
    }
}
