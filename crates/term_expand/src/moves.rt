//! The texts of a symbol, each on the side of its own content.
ghost use Rattle.std.specs.Prelude.{◌≡◌, true, IfOk, IfErr};
ghost use Rattle.sparse_tensor.specs.Refusals.{IsTensorRefusal};
ghost use Rattle.model_core.specs.Directions.{text_cells, cell_content};
ghost use Rattle.model_core.specs.TermRules.{is_term};
ghost use Rattle.model_core.specs.TermTensor.{has_two_texts};
ghost use Rattle.model_core.specs.Valid.{IsValid};
ghost use Rattle.term_expand.specs.Moves.{AreTexts, IsMoves, IsText};
ghost use Rattle.term_expand.specs.Projectors.{IsBasis};

use crate::basis::Basis;
use crate::multiples::conjugate;
use crate::texts::text_tensor;
use frac128::ItemList;
use model_core::{
    Content, FieldToken, Model, Shape, Term, block_of, conjugate_content, content_at, first_uses,
    side_of,
};
use sparse_tensor::{Sparse, TensorFault};
use std::alloc::{AllocError, Global};

/// A text of a symbol: its tensor and the conjugate one, and the sides of the symbol's block on which these stand.
#[derive(Drop)]
pub struct Text {
    pub plain_side: u32,
    pub plain: Sparse,
    pub conjugate_side: u32,
    pub conjugate: Sparse,
}

/// Texts in the order of their cells.
pub type TextList = ItemList<Text>;

/// A symbol's texts, and the block in which they stand.
#[derive(Drop)]
pub struct Moves {
    pub block: Content,
    pub texts: TextList,
}

/// Whether a symbol has the texts at [i,j] and at [j,i].
fn has_two_texts(term: &Term, row: u32, column: u32) -> bool
    ensures { result ≡ has_two_texts term.now row column }
{
    term.shape == Shape::Symmetric && row != column
}

/// The content of a term's text at a row and a column.
fn cell_content(alloc: Global, term: &Term, row: u32, column: u32) -> Result<Content, AllocError>
    ensures { IfOk result (λ content. content ≡ cell_content term.now (row, column)) }
{
    let uses = first_uses(alloc, term.monomials.as_slice())?;
    content_at(alloc, uses.as_slice(), row, column)
}

/// The text of a term at a row and a column, on the sides of a block.
fn text_at(
    alloc: Global,
    model: &Model,
    basis: &Basis,
    term: &Term,
    block: &[FieldToken],
    row: u32,
    column: u32,
) -> Result<Text, TensorFault>
    requires valid { IsValid model.now }
    requires basis { IsBasis model.now basis.now }
    requires term { is_term model.now term.now ≡ true }
    ensures value { IfOk result (IsText model.now term.now block.now (row, column)) }
    ensures refused { IfErr result IsTensorRefusal }
{
    let content = cell_content(alloc, term, row, column)?;
    let other = conjugate_content(alloc, model, content.as_slice())?;
    let plain_side = side_of(block, content.as_slice());
    let conjugate_side = side_of(block, other.as_slice());
    let plain = text_tensor(alloc, model, basis, term, row, column)?;
    let conjugate = conjugate(alloc, model, term.kind, &plain)?;
    Ok(Text {
        plain_side,
        plain,
        conjugate_side,
        conjugate,
    })
}

/// The texts of the symbol at a row and a column.
fn texts_of(
    alloc: Global,
    model: &Model,
    basis: &Basis,
    term: &Term,
    block: &[FieldToken],
    row: u32,
    column: u32,
) -> Result<TextList, TensorFault>
    requires valid { IsValid model.now }
    requires basis { IsBasis model.now basis.now }
    requires term { is_term model.now term.now ≡ true }
    ensures value { IfOk result (AreTexts model.now term.now block.now (text_cells term.now row column)) }
    ensures refused { IfErr result IsTensorRefusal }
{
    let mut texts = TextList::new(alloc);
    let first = text_at(alloc, model, basis, term, block, row, column)?;
    texts.push(first)?;
    if has_two_texts(term, row, column) {
        let second = text_at(alloc, model, basis, term, block, column, row)?;
        texts.push(second)?;
    }
    Ok(texts)
}

/// The moves of the symbol at a row and a column.
pub fn moves_of(
    alloc: Global,
    model: &Model,
    basis: &Basis,
    term: &Term,
    row: u32,
    column: u32,
) -> Result<Moves, TensorFault>
    requires valid { IsValid model.now }
    requires basis { IsBasis model.now basis.now }
    requires term { is_term model.now term.now ≡ true }
    ensures value { IfOk result (IsMoves model.now term.now row column) }
    ensures refused { IfErr result IsTensorRefusal }
{
    let content = cell_content(alloc, term, row, column)?;
    let block = block_of(alloc, model, content)?;
    let texts = texts_of(alloc, model, basis, term, block.as_slice(), row, column)?;
    Ok(Moves { block, texts })
}
