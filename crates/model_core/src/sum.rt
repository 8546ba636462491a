//! The text of a term: its tokens, and the sum that they spell.
use frac128::ItemList;

/// Where a word or digits stand in a text: the offset of the first byte, and that of the byte after the last.
#[derive(Clone, Copy, Debug)]
pub struct Span {
    pub start: usize,
    pub end: usize,
}

/// Words or digits in order.
pub type SpanList = ItemList<Span>;

/// A token of a text.
#[derive(Clone, Copy, Debug)]
pub enum Token {
    /// An ASCII letter, then letters, digits or `_`.
    Word(Span),
    /// Decimal digits.
    Digits(Span),
    /// `~`, with its offset.
    Tilde(usize),
    /// `[`, with its offset.
    Open(usize),
    /// Any other byte but a space.
    Mark(u8),
}

/// Tokens in order.
pub type TokenList = ItemList<Token>;

/// A coefficient as it is written: digits, and maybe `/` and digits.
#[derive(Clone, Copy, Debug)]
pub struct WrittenLiteral {
    pub numerator: Span,
    pub denominator: Option<Span>,
}

/// What a bracket has in it.
#[derive(Clone, Copy, Debug)]
pub enum Index {
    Word(Span),
    Digits(Span),
}

/// A bracket with the offset of its `[`.
#[derive(Clone, Copy, Debug)]
pub struct Bracket {
    pub at: usize,
    pub index: Index,
}

/// A factor as it is written.
#[derive(Drop)]
pub struct WrittenFactor {
    pub word: Span,
    /// The offset of the `~` after the word.
    pub tilde: Option<usize>,
    pub bracket: Option<Bracket>,
    /// The words in parentheses: none where there are no parentheses.
    pub labels: SpanList,
}

/// Factors in order.
pub type WrittenFactorList = ItemList<WrittenFactor>;

/// A monomial as it is written.
#[derive(Drop)]
pub struct WrittenMonomial {
    /// Whether its sign is `-`. A sum's first monomial is written without a `+`.
    pub negative: bool,
    pub literal: Option<WrittenLiteral>,
    pub factors: WrittenFactorList,
}

/// The monomials of a sum in order.
pub type Sum = ItemList<WrittenMonomial>;
