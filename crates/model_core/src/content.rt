//! The fields of a monomial, and contents: the fields of a coupling's entry.
ghost use Rattle.std.specs.Prelude.{◌≡◌, ◌==◌, ◌&&◌, IfOk};
ghost use Rattle.std.specs.Ordering.{};
ghost use Rattle.std.specs.List.{list_all, count_by, prefix_len};
ghost use Rattle.model_core.specs.Groups.{is_between};
ghost use Rattle.model_core.specs.Factors.{field_use, uses};
ghost use Rattle.model_core.specs.Content.{is_fermionic, is_fermion, kind_of, may_couple, same_kind, same_generation, same_use, equally_often, same_uses, first_uses, has_content, kind_cmp, token_cmp, is_before, inserted, generation_at, token_at, content_at, is_self_conjugate, conjugate_token, conjugate_content, content_cmp, first_of_two, block_of, same_block};
ghost use Rattle.model_core.specs.BlockSide.{side_of};

use crate::model::Model;
use crate::term::{Factor, Generation, Monomial, TermKind};
use frac128::ItemList;
use std::alloc::{AllocError, Global};
use std::cmp::Ordering;

/// A field as a monomial has it, without its labels.
#[derive(Clone, Copy, Debug, PartialEq, Eq)]
pub struct FieldUse {
    pub kind: TermKind,
    /// The place among the model's fermions or scalars.
    pub field: u32,
    /// Whether it is the conjugate of a scalar.
    pub conj: bool,
    pub generation: Generation,
}

/// The fields of a monomial in order.
pub type FieldUseList = ItemList<FieldUse>;

/// A field, or its conjugate, in one generation. Fermions come before scalars; then the place of the field decides,
/// then a field comes before its conjugate, and then the generation decides.
#[derive(Clone, Copy, Debug, PartialEq, Eq, PartialOrd, Ord)]
pub struct FieldToken {
    pub kind: TermKind,
    /// The place among the model's fermions or scalars.
    pub field: u32,
    pub conj: bool,
    /// Counted from 1.
    pub generation: u32,
}

/// A content: the tokens of a coupling's entry in order. A block is named by the first of its content and of the
/// conjugate one.
pub type Content = ItemList<FieldToken>;

/// The block of a symbol, with the number of directions that the symbol gives it: one where the coupling is real, and
/// two where it is complex.
#[derive(Drop)]
pub struct SymbolBlock {
    pub block: Content,
    pub directions: u32,
}

/// Blocks of symbols in the order of these.
pub type SymbolBlockList = ItemList<SymbolBlock>;

/// A slot of a field or of a table in a monomial: its label, and the place of its group.
#[derive(Clone, Copy, Debug, PartialEq, Eq)]
pub struct LabelledSlot {
    pub label: u32,
    pub group: u32,
}

/// Slots in order.
pub type LabelledSlotList = ItemList<LabelledSlot>;

/// A slot of a field in a monomial with the value that a component given to the field has there: the slot's label, and
/// the value, counted from 1.
#[derive(Clone, Copy, Debug, PartialEq, Eq)]
pub struct LabelValue {
    pub label: u32,
    pub value: u8,
}

/// Such slots in the order of the fields.
pub type LabelValueList = ItemList<LabelValue>;

/// The field that a factor has.
fn field_use(factor: &Factor) -> Option<FieldUse>
    ensures { result ≡ field_use factor.now }
{
    match factor {
        Factor::Fermion {
            field,
            generation,
            ..
        } => Some(FieldUse {
            kind: TermKind::Fermion,
            field: *field,
            conj: false,
            generation: *generation,
        }),
        Factor::Scalar {
            field,
            conj,
            generation,
            ..
        } => Some(FieldUse {
            kind: TermKind::Scalar,
            field: *field,
            conj: *conj,
            generation: *generation,
        }),
        Factor::Eps { .. } | Factor::Table { .. } => None,
    }
}

/// The fields of a monomial.
pub fn uses(alloc: Global, factors: &[Factor]) -> Result<FieldUseList, AllocError>
    ensures { IfOk result (λ found. found ≡ uses factors.now) }
{
    let mut found = FieldUseList::new(alloc);
    for factor in factors {
        if let Some(used) = field_use(factor) {
            found.push(used)?;
        }
    }
    Ok(found)
}

/// Whether a kind is that of fermions.
fn is_fermionic(kind: TermKind) -> bool
    ensures { result ≡ is_fermionic kind }
{
    matches!(kind, TermKind::Fermion)
}

/// How many fields are fermions.
fn fermion_uses(used: &[FieldUse]) -> usize
    ensures { result ≡ count_by is_fermion used.now }
{
    used.iter().filter(|used| is_fermionic(used.kind)).count()
}

/// The kind of a term with these fields: that of fermions where one is a fermion.
pub fn kind_of(used: &[FieldUse]) -> TermKind
    ensures { result ≡ kind_of used.now }
{
    if fermion_uses(used) > 0 {
        return TermKind::Fermion;
    }
    TermKind::Scalar
}

/// Whether a term of this kind may have these fields: two fermions with one scalar or none, or two to four scalars.
fn may_couple(kind: TermKind, used: &[FieldUse]) -> bool
    ensures { result ≡ may_couple kind used.now }
{
    match kind {
        TermKind::Fermion => fermion_uses(used) == 2 && used.len() <= 3,
        TermKind::Scalar => fermion_uses(used) == 0 && is_two_to_four(used.len()),
    }
}

/// Whether a number is from 2 to 4.
fn is_two_to_four(number: usize) -> bool
    ensures { result ≡ is_between 2 4 number }
{
    2 <= number && number <= 4
}

/// Whether two kinds are the same.
fn same_kind(a: TermKind, b: TermKind) -> bool
    ensures { result ≡ same_kind a b }
{
    is_fermionic(a) == is_fermionic(b)
}

/// Whether two generations are the same.
fn same_generation(a: Generation, b: Generation) -> bool
    ensures { result ≡ same_generation a b }
{
    match (a, b) {
        (Generation::Fixed(a), Generation::Fixed(b)) => a == b,
        (Generation::Row, Generation::Row) | (Generation::Column, Generation::Column) => true,
        _ => false,
    }
}

/// Whether two fields of monomials are the same, conjugate or not, in the same generation.
fn same_use(a: &FieldUse, b: &FieldUse) -> bool
    ensures { result ≡ same_use a.now b.now }
{
    if !same_kind(a.kind, b.kind) {
        return false;
    }
    if a.field != b.field {
        return false;
    }
    if a.conj != b.conj {
        return false;
    }
    same_generation(a.generation, b.generation)
}

/// How often a field stands among some.
fn count_of(used: &FieldUse, all: &[FieldUse]) -> usize
    ensures { result ≡ count_by (same_use used.now) all.now }
{
    all.iter().filter(|other| same_use(used, other)).count()
}

/// Whether each field of the first list stands equally often in both lists.
fn are_equally_often(first: &[FieldUse], second: &[FieldUse]) -> bool
    ensures { result ≡ list_all (equally_often first.now second.now) first.now }
{
    first
        .iter()
        .all(|used| count_of(used, first) == count_of(used, second))
}

/// Whether two lists have the same fields, in any order.
fn same_uses(first: &[FieldUse], second: &[FieldUse]) -> bool
    ensures { result ≡ same_uses first.now second.now }
{
    if first.len() != second.len() {
        return false;
    }
    are_equally_often(first, second)
}

/// The fields of the first monomial: none where there is no monomial.
pub fn first_uses(alloc: Global, monomials: &[Monomial]) -> Result<FieldUseList, AllocError>
    ensures { IfOk result (λ found. found ≡ first_uses monomials.now) }
{
    match monomials {
        [] => Ok(FieldUseList::new(alloc)),
        [monomial, ..] => uses(alloc, monomial.factors.as_slice()),
    }
}

/// Whether a monomial has fields that a term of this kind may have, and those of the first one. Only want of memory is
/// an error.
pub fn has_content(
    alloc: Global,
    kind: TermKind,
    first: &[FieldUse],
    monomial: &Monomial,
) -> Result<bool, AllocError>
    ensures { IfOk result (λ found. found ≡ has_content kind first.now monomial.now) }
{
    let used = uses(alloc, monomial.factors.as_slice())?;
    if !may_couple(kind, used.as_slice()) {
        return Ok(false);
    }
    Ok(same_uses(first, used.as_slice()))
}

/// The order of kinds: fermions first.
fn kind_cmp(a: TermKind, b: TermKind) -> Ordering
    ensures { result ≡ kind_cmp a b }
{
    match (a, b) {
        (TermKind::Fermion, TermKind::Scalar) => Ordering::Less,
        (TermKind::Scalar, TermKind::Fermion) => Ordering::Greater,
        _ => Ordering::Equal,
    }
}

/// The order of tokens: fermions first, then by field, then a field before its conjugate, then by generation.
fn token_cmp(a: &FieldToken, b: &FieldToken) -> Ordering
    ensures { result ≡ token_cmp a.now b.now }
{
    let by_kind = kind_cmp(a.kind, b.kind);
    let by_field = a.field.cmp(&b.field);
    let by_side = a.conj.cmp(&b.conj);
    let by_generation = a.generation.cmp(&b.generation);
    by_kind.then(by_field.then(by_side.then(by_generation)))
}

/// Whether an order says that the first comes before the second.
fn is_before(order: Ordering) -> bool
    ensures { result ≡ is_before order }
{
    matches!(order, Ordering::Less)
}

/// How many tokens at the front come before this one.
fn place_among(token: &FieldToken, tokens: &[FieldToken]) -> usize
    ensures { result ≡ prefix_len (λ first. is_before (token_cmp first token.now)) tokens.now }
{
    tokens
        .iter()
        .take_while(|first| is_before(token_cmp(first, token)))
        .count()
}

/// Puts a token in its place.
fn inserted(token: FieldToken, content: Content) -> Result<Content, AllocError>
    ensures { IfOk result (λ found. found ≡ inserted token content) }
{
    let mut tokens = content.into_vec();
    let place = place_among(&token, tokens.as_slice());
    tokens.insert(place, token)?;
    Ok(Content::from_vec(tokens))
}

/// A generation at a row and a column.
pub fn generation_at(row: u32, column: u32, generation: Generation) -> u32
    ensures { result ≡ generation_at row column generation }
{
    match generation {
        Generation::Fixed(generation) => generation,
        Generation::Row => row,
        Generation::Column => column,
    }
}

/// The token of a field at a row and a column.
fn token_at(row: u32, column: u32, used: &FieldUse) -> FieldToken
    ensures { result ≡ token_at row column used.now }
{
    FieldToken {
        kind: used.kind,
        field: used.field,
        conj: used.conj,
        generation: generation_at(row, column, used.generation),
    }
}

/// The content of a coupling's entry at a row and a column.
pub fn content_at(
    alloc: Global,
    used: &[FieldUse],
    row: u32,
    column: u32,
) -> Result<Content, AllocError>
    ensures { IfOk result (λ found. found ≡ content_at used.now row column) }
{
    match used {
        [] => Ok(Content::new(alloc)),
        [used, others @ ..] => {
            let content = content_at(alloc, others, row, column)?;
            inserted(token_at(row, column, used), content)
        }
    }
}

/// Whether a token is of a real scalar, which is its own conjugate.
fn is_self_conjugate(model: &Model, token: &FieldToken) -> bool
    ensures { result ≡ is_self_conjugate model.now token.now }
{
    if is_fermionic(token.kind) {
        return false;
    }
    match model.scalars.as_slice().get(token.field as usize) {
        Some(field) => field.real,
        None => false,
    }
}

/// The conjugate of a token.
fn conjugate_token(model: &Model, token: &FieldToken) -> FieldToken
    ensures { result ≡ conjugate_token model.now token.now }
{
    if is_self_conjugate(model, token) {
        return *token;
    }
    FieldToken {
        kind: token.kind,
        field: token.field,
        conj: !token.conj,
        generation: token.generation,
    }
}

/// The content of the conjugate.
pub fn conjugate_content(
    alloc: Global,
    model: &Model,
    content: &[FieldToken],
) -> Result<Content, AllocError>
    ensures { IfOk result (λ found. found ≡ conjugate_content model.now content.now) }
{
    match content {
        [] => Ok(Content::new(alloc)),
        [token, others @ ..] => {
            let conjugate = conjugate_content(alloc, model, others)?;
            inserted(conjugate_token(model, token), conjugate)
        }
    }
}

/// The order of contents: that of words, by their tokens.
fn content_cmp(a: &[FieldToken], b: &[FieldToken]) -> Ordering
    ensures { result ≡ content_cmp a.now b.now }
{
    match a {
        [] => match b {
            [] => Ordering::Equal,
            [_, ..] => Ordering::Less,
        },
        [first, a @ ..] => match b {
            [] => Ordering::Greater,
            [second, b @ ..] => token_cmp(first, second).then(content_cmp(a, b)),
        },
    }
}

/// Whether two blocks are the same.
pub fn same_block(a: &[FieldToken], b: &[FieldToken]) -> bool
    ensures { result ≡ same_block a.now b.now }
{
    content_cmp(a, b).is_eq()
}

/// The side of a block that a content is: 0 for the block's own, and 1 for the conjugate one.
pub fn side_of(block: &[FieldToken], content: &[FieldToken]) -> u32
    ensures { result ≡ side_of block.now content.now }
{
    if same_block(content, block) {
        return 0;
    }
    1
}

/// The first of two contents.
pub(crate) fn first_of_two<'a>(a: &'a [FieldToken], b: &'a [FieldToken]) -> &'a [FieldToken]
    ensures { result.now ≡ first_of_two a.now b.now }
{
    if is_before(content_cmp(b, a)) {
        return b;
    }
    a
}

/// The name of a content's block: the first of the content and of its conjugate.
pub fn block_of(alloc: Global, model: &Model, content: Content) -> Result<Content, AllocError>
    ensures { IfOk result (λ found. found ≡ block_of model.now content) }
{
    let conjugate = conjugate_content(alloc, model, content.as_slice())?;
    if is_before(content_cmp(conjugate.as_slice(), content.as_slice())) {
        return Ok(conjugate);
    }
    Ok(content)
}
