//! Names and the texts that stand for them in LaTeX.
ghost use Rattle.std.specs.Prelude.{◌≡◌, ℕ, ◌≤◌, true, false, List, length, MatchResult};
ghost use Rattle.std.specs.List.{list_all};
ghost use Rattle.model_core.specs.Name.{is_name, is_word, is_reserved, is_word_byte, is_latex, is_latex_byte};

use crate::inline::InlineBytes;
use frac128::ItemList;
use std::marker::Model;

/// The longest name, in bytes.
const LONGEST: usize = 24;

/// The longest text in LaTeX, in bytes.
const LONGEST_LATEX: usize = 40;

/// A name: an ASCII letter, then letters, digits or `_`, at most 24 bytes, and neither `eps` nor `conj`.
#[derive(Drop)]
pub struct Name {
    text: InlineBytes<24>,
}

impl Model for Name {
    ghost Value = { List ℕ };

    ghost view = { λ s. s.text };
}

/// Names in order.
pub type NameList = ItemList<Name>;

/// The text is no name, or can't stand for one in LaTeX.
#[derive(Clone, Copy, Debug, PartialEq, Eq)]
pub struct BadName;

/// Whether the text is a name.
fn is_name(text: &[u8]) -> bool
    ensures { result ≡ is_name text.now }
{
    if !is_word(text) {
        return false;
    }
    if text.len() > LONGEST {
        return false;
    }
    !is_reserved(text)
}

/// Whether the text is a letter and then letters, digits or `_`.
fn is_word(text: &[u8]) -> bool
    ensures { result ≡ is_word text.now }
{
    match text {
        [] => false,
        [first, rest @ ..] => {
            if !first.is_ascii_alphabetic() {
                return false;
            }
            are_word_bytes(rest)
        }
    }
}

/// Whether each byte may stand in a name after its first.
fn are_word_bytes(text: &[u8]) -> bool
    ensures { result ≡ list_all is_word_byte text.now }
{
    text.iter().all(|b| is_word_byte(*b))
}

/// Whether the text is `eps` or `conj`, which no name is.
fn is_reserved(text: &[u8]) -> bool
    ensures { result ≡ is_reserved text.now }
{
    if text == b"eps".as_slice() {
        return true;
    }
    text == b"conj".as_slice()
}

/// Whether the byte may stand in a name after its first.
pub fn is_word_byte(byte: u8) -> bool
    ensures { result ≡ is_word_byte byte }
{
    byte.is_ascii_alphanumeric() || byte == b'_'
}

impl Name {
    /// The name with this text. `BadName` comes exactly where the text is no name. It takes no memory.
    pub fn new(text: &[u8]) -> Result<Name, BadName>
        ensures { MatchResult result (λ name. (name ≡ text.now) × (is_name text.now ≡ true)) (λ _. is_name text.now ≡ false) }
    {
        if !is_name(text) {
            return Err(BadName);
        }
        let mut kept = InlineBytes::new();
        kept.extend(text);
        Ok(Name { text: kept })
    }

    /// The same name.
    pub fn copy(&self) -> Name
        ensures { result ≡ self.now }
    {
        Name {
            text: self.text.copy(),
        }
    }

    /// The text, at most 24 bytes.
    pub fn as_bytes(&self) -> &[u8]
        ensures value { result.now ≡ self.now }
        ensures short { length self.now ≤ 24 }
    {
        self.text.as_slice()
    }

    /// The name as its own text in LaTeX, which stands where a file gives no other.
    pub fn to_latex(&self) -> Latex
        ensures { result ≡ self.now }
    {
        let mut text = InlineBytes::new();
        text.extend(self.as_bytes());
        Latex { text }
    }
}

/// A text in LaTeX: 1 to 40 bytes, each an ASCII character that is printed, or a space.
#[derive(Drop)]
pub struct Latex {
    text: InlineBytes<40>,
}

impl Model for Latex {
    ghost Value = { List ℕ };

    ghost view = { λ s. s.text };
}

/// Whether the text can stand for a name in LaTeX.
fn is_latex(text: &[u8]) -> bool
    ensures { result ≡ is_latex text.now }
{
    if text.is_empty() {
        return false;
    }
    if text.len() > LONGEST_LATEX {
        return false;
    }
    are_latex_bytes(text)
}

/// Whether each byte may stand in a text in LaTeX.
fn are_latex_bytes(text: &[u8]) -> bool
    ensures { result ≡ list_all is_latex_byte text.now }
{
    text.iter().all(|b| is_latex_byte(*b))
}

/// Whether the byte is an ASCII character that is printed, or a space.
fn is_latex_byte(byte: u8) -> bool
    ensures { result ≡ is_latex_byte byte }
{
    (b' '..=b'~').contains(&byte)
}

impl Latex {
    /// The text in LaTeX with these bytes. `BadName` comes exactly where they are none. It takes no memory.
    pub fn new(text: &[u8]) -> Result<Latex, BadName>
        ensures { MatchResult result (λ latex. (latex ≡ text.now) × (is_latex text.now ≡ true)) (λ _. is_latex text.now ≡ false) }
    {
        if !is_latex(text) {
            return Err(BadName);
        }
        let mut kept = InlineBytes::new();
        kept.extend(text);
        Ok(Latex { text: kept })
    }

    /// The same text.
    pub fn copy(&self) -> Latex
        ensures { result ≡ self.now }
    {
        Latex {
            text: self.text.copy(),
        }
    }

    /// The text.
    pub fn as_bytes(&self) -> &[u8]
        ensures value { result.now ≡ self.now }
        ensures short { length self.now ≤ 40 }
    {
        self.text.as_slice()
    }
}
