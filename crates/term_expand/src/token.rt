//! The names of blocks.
ghost use Rattle.std.specs.Prelude.{◌≡◌, ◌++◌, replicate, IfOk, OnOk};
ghost use Rattle.term_expand.specs.Tokens.{token_of, dummy_token, block_name};

use frac128::ItemList;
use model_core::{FieldToken, TermKind};
use std::alloc::{AllocError, Global};

/// What stands on a leg of a content: a field or its conjugate in one generation, or the dummy.
#[derive(Clone, Copy, Debug, PartialEq, Eq)]
pub struct Token {
    /// Whether it is a fermion.
    pub fermion: bool,
    /// The place of the field among the model's fermions or scalars, and 0 for the dummy.
    pub field: u32,
    pub conj: bool,
    /// Counted from 1, and 0 for the dummy.
    pub generation: u32,
    pub dummy: bool,
}

/// The tokens of a block's content in order, the dummies last: three of a fermion block and four of a scalar block.
pub type BlockName = ItemList<Token>;

/// The token of a field.
fn token_of(token: &FieldToken) -> Token
    ensures { result ≡ token_of token.now }
{
    Token {
        fermion: token.kind == TermKind::Fermion,
        field: token.field,
        conj: token.conj,
        generation: token.generation,
        dummy: false,
    }
}

/// The token of the dummy.
fn dummy_token() -> Token
    ensures { result ≡ dummy_token }
{
    Token {
        fermion: false,
        field: 0,
        conj: false,
        generation: 0,
        dummy: true,
    }
}

/// Adds so many dummies.
fn push_dummies(name: &mut BlockName, count: usize) -> Result<(), AllocError>
    ensures { OnOk result (name.new ≡ name.old ++ replicate count dummy_token) }
{
    for _i in 0..count {
        name.push(dummy_token())?;
    }
    Ok(())
}

/// The tokens of a content, filled with dummies up to so many legs.
pub fn block_name(
    alloc: Global,
    content: &[FieldToken],
    legs: usize,
) -> Result<BlockName, AllocError>
    ensures { IfOk result (λ found. found ≡ block_name content.now legs) }
{
    let mut name = BlockName::new(alloc);
    for token in content {
        name.push(token_of(token))?;
    }
    push_dummies(&mut name, legs.saturating_sub(content.len()))?;
    Ok(name)
}
