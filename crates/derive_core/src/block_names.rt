//! The names of blocks, and the block to which a component belongs.
ghost use Rattle.std.specs.Prelude.{◌≡◌, ◌∷◌, IfOk};
ghost use Rattle.model_core.specs.Valid.{IsValid};
ghost use Rattle.term_expand.specs.Texts.{leg_count};
ghost use Rattle.derive_core.specs.BlockBetas.{order_of_token, name_cmp, name_of_kind, scalar_side, name_at};
ghost use Rattle.derive_core.specs.Components.{IsComponents};

use crate::component_blocks::{component_block, component_side};
use model_core::{FieldComponentList, Model, TermKind, fermion_list, scalar_list};
use std::alloc::{AllocError, Global};
use std::cmp::Ordering;
use term_expand::{BlockName, Token, block_name};

/// The components of a model.
#[derive(Drop)]
pub struct Components {
    pub fermions: FieldComponentList,
    /// The scalar coordinates without the dummy.
    pub scalars: FieldComponentList,
}

/// The components of a model.
pub fn components_of(alloc: Global, model: &Model) -> Result<Components, AllocError>
    requires { IsValid model.now }
    ensures { IfOk result (IsComponents model.now) }
{
    Ok(Components {
        fermions: fermion_list(alloc, model)?,
        scalars: scalar_list(alloc, model)?,
    })
}

/// The order of tokens: fermions before scalars, and the dummy last; then by field, then a field before its conjugate, then
/// by generation.
fn token_cmp(a: &Token, b: &Token) -> Ordering
    ensures { result ≡ order_of_token a.now b.now }
{
    let by_dummy = a.dummy.cmp(&b.dummy);
    let by_kind = b.fermion.cmp(&a.fermion);
    let by_field = a.field.cmp(&b.field);
    let by_side = a.conj.cmp(&b.conj);
    let by_generation = a.generation.cmp(&b.generation);
    by_dummy.then(by_kind.then(by_field.then(by_side.then(by_generation))))
}

/// The order of names: that of words, by their tokens.
pub fn name_cmp(a: &[Token], b: &[Token]) -> Ordering
    ensures { result ≡ name_cmp a.now b.now }
{
    match a {
        [] => match b {
            [] => Ordering::Equal,
            [_, ..] => Ordering::Less,
        },
        [first, a @ ..] => match b {
            [] => Ordering::Greater,
            [second, b @ ..] => token_cmp(first, second).then(name_cmp(a, b)),
        },
    }
}

/// The same name.
pub fn copied_name(alloc: Global, name: &[Token]) -> Result<BlockName, AllocError>
    ensures { IfOk result (λ copy. copy ≡ name.now) }
{
    let mut copy = BlockName::new(alloc);
    for token in name {
        copy.push(*token)?;
    }
    Ok(copy)
}

/// How many legs a component of a kind of terms has.
fn legs_of(kind: TermKind) -> usize
    ensures { result ≡ leg_count kind }
{
    match kind {
        TermKind::Fermion => 3,
        TermKind::Scalar => 4,
    }
}

/// The side of four scalars: 0 where their own content is that of the block, and 1 where the conjugate one is.
pub fn scalar_side(
    alloc: Global,
    model: &Model,
    components: &Components,
    places: &[u32],
) -> Result<u32, AllocError>
    requires components { IsComponents model.now components.now }
    ensures { IfOk result (λ side. side ≡ scalar_side model.now places.now) }
{
    component_side(alloc, model, components, TermKind::Scalar, 0, places)
}

/// The name of the block to which a component belongs, as one of a kind of terms.
fn name_of_kind(
    alloc: Global,
    model: &Model,
    components: &Components,
    kind: TermKind,
    side: u32,
    places: &[u32],
) -> Result<BlockName, AllocError>
    requires components { IsComponents model.now components.now }
    ensures { IfOk result (λ found. found ≡ name_of_kind model.now kind (side ∷ places.now)) }
{
    let block = component_block(alloc, model, components, kind, side, places)?;
    block_name(alloc, block.as_slice(), legs_of(kind))
}

/// The name of the block to which a component belongs: its places are those of two fermions and a scalar, or of four scalars.
pub fn name_at(
    alloc: Global,
    model: &Model,
    components: &Components,
    side: u32,
    places: &[u32],
) -> Result<BlockName, AllocError>
    requires components { IsComponents model.now components.now }
    ensures name { IfOk result (λ found. found ≡ name_at model.now (side ∷ places.now)) }
{
    if places.len() == 3 {
        return name_of_kind(alloc, model, components, TermKind::Fermion, side, places);
    }
    if places.len() == 4 {
        return name_of_kind(alloc, model, components, TermKind::Scalar, side, places);
    }
    Ok(BlockName::new(alloc))
}
