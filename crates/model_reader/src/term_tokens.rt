//! The tokens of a term's text.
ghost use Rattle.std.specs.Prelude.{◌≡◌, ◌+◌, ◌<◌, ◌^◌, ◌++◌, None, Some, IfOk, OnOk};
ghost use Rattle.model_core.specs.TermText.{goes_on, lengthened, token_at, begun, opened, listed, ended, tokens};
ghost use Rattle.model_core.specs.TermGrammar.{begins, start_after};

use model_core::{Span, Token, TokenList, is_word_byte};
use std::alloc::{AllocError, Global};

/// Whether the byte goes on the token before it.
fn goes_on(before: Option<Token>, byte: u8) -> bool
    ensures { result ≡ goes_on before byte }
{
    match before {
        Some(Token::Word(_)) => is_word_byte(byte),
        Some(Token::Digits(_)) => byte.is_ascii_digit(),
        _ => false,
    }
}

/// The token with the byte at an offset as its last one.
fn lengthened(at: usize, token: Token) -> Token
    requires { at + 1 < 2 ^ 64 }
    ensures { result ≡ lengthened at token }
{
    let end = at + 1;
    match token {
        Token::Word(Span { start, .. }) => Token::Word(Span { start, end }),
        Token::Digits(Span { start, .. }) => Token::Digits(Span { start, end }),
        Token::Tilde(_) | Token::Open(_) | Token::Mark(_) => token,
    }
}

/// The token that begins with a byte at an offset.
fn token_at(at: usize, byte: u8) -> Token
    requires { at + 1 < 2 ^ 64 }
    ensures { result ≡ token_at at byte }
{
    let span = Span {
        start: at,
        end: at + 1,
    };
    if byte.is_ascii_alphabetic() {
        return Token::Word(span);
    }
    if byte.is_ascii_digit() {
        return Token::Digits(span);
    }
    match byte {
        b'~' => Token::Tilde(at),
        b'[' => Token::Open(at),
        mark => Token::Mark(mark),
    }
}

/// The token that begins with a byte at an offset: none begins with a space.
fn begun(at: usize, byte: u8) -> Option<Token>
    requires { at + 1 < 2 ^ 64 }
    ensures { result ≡ begun at byte }
{
    if byte == b' ' {
        return None;
    }
    Some(token_at(at, byte))
}

/// The token that a byte at an offset stands in, after the token before it.
fn opened(before: Option<Token>, at: usize, byte: u8) -> Option<Token>
    requires { at + 1 < 2 ^ 64 }
    ensures { result ≡ opened before at byte }
{
    if !goes_on(before, byte) {
        return begun(at, byte);
    }
    before.map(|token| lengthened(at, token))
}

/// Puts a token at the end, where there is one.
fn push_some(tokens: &mut TokenList, token: Option<Token>) -> Result<(), AllocError>
    ensures { OnOk result (tokens.new ≡ tokens.old ++ listed token) }
{
    match token {
        Some(token) => tokens.push(token),
        None => Ok(()),
    }
}

/// Puts the token before a byte at the end, where the byte ends it.
fn push_ended(tokens: &mut TokenList, before: Option<Token>, byte: u8) -> Result<(), AllocError>
    ensures { OnOk result (tokens.new ≡ tokens.old ++ ended before byte) }
{
    if goes_on(before, byte) {
        return Ok(());
    }
    push_some(tokens, before)
}

/// The tokens of a text.
pub fn tokens_of(alloc: Global, text: &[u8]) -> Result<TokenList, AllocError>
    ensures { IfOk result (λ found. found ≡ tokens text.now) }
{
    let mut tokens = TokenList::new(alloc);
    let mut before = None;
    for (at, byte) in text.iter().enumerate() {
        push_ended(&mut tokens, before, *byte)?;
        before = opened(before, at, *byte);
    }
    push_some(&mut tokens, before)?;
    Ok(tokens)
}

/// Whether a token begins with the byte, after the token before it.
fn begins(before: Option<Token>, byte: u8) -> bool
    ensures { result ≡ begins before byte }
{
    if goes_on(before, byte) {
        return false;
    }
    byte != b' '
}

/// The offset of the token that comes after so many, or the text's length.
pub fn start_after(text: &[u8], count: usize) -> usize
    ensures { result ≡ start_after count None 0 text.now }
{
    let mut left = count;
    let mut before = None;
    for (at, byte) in text.iter().enumerate() {
        if begins(before, *byte) {
            if left == 0 {
                return at;
            }
            left -= 1;
        }
        before = opened(before, at, *byte);
    }
    text.len()
}
