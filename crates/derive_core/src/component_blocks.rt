//! The content of a component, its block, and the side of the block on which it stands.
ghost use Rattle.std.specs.Prelude.{◌≡◌, ◌∷◌, ◌++◌, Some, map, slice_get, IfOk, OnOk};
ghost use Rattle.model_core.specs.BlockSide.{token_of, tokens_at, scalar_tokens, fermion_tokens, component_content, component_block, component_side};
ghost use Rattle.model_core.specs.Content.{token_at, sorted, is_self_conjugate, conjugate_token};
ghost use Rattle.derive_core.specs.Components.{IsComponents};

use crate::block_names::Components;
use model_core::{
    Content, FieldComponent, FieldToken, FieldUse, FieldUseList, Generation, Model, TermKind,
    block_of, content_at, side_of,
};
use std::alloc::{AllocError, Global};

/// Adds the token of a component.
fn push_component(
    tokens: &mut Content,
    kind: TermKind,
    component: &FieldComponent,
) -> Result<(), AllocError>
    ensures { OnOk result (tokens.new ≡ tokens.old ++ token_of kind (Some component.now)) }
{
    tokens.push(FieldToken {
        kind,
        field: component.field,
        conj: component.conj,
        generation: component.generation,
    })?;
    Ok(())
}

/// Adds the token of what stands at a place, and nothing where nothing does.
fn push_token(
    tokens: &mut Content,
    kind: TermKind,
    components: &[FieldComponent],
    place: u32,
) -> Result<(), AllocError>
    ensures { OnOk result (tokens.new ≡ tokens.old ++ token_of kind (slice_get components.now place)) }
{
    match components.get(place as usize) {
        Some(component) => push_component(tokens, kind, component),
        None => Ok(()),
    }
}

/// Adds the tokens of what stands at places.
fn push_tokens(
    tokens: &mut Content,
    kind: TermKind,
    components: &[FieldComponent],
    places: &[u32],
) -> Result<(), AllocError>
    ensures { OnOk result (tokens.new ≡ tokens.old ++ tokens_at kind components.now places.now) }
{
    for place in places {
        push_token(tokens, kind, components, *place)?;
    }
    Ok(())
}

/// Whether a token is of a real scalar, which is its own conjugate.
fn is_self_conjugate(model: &Model, token: &FieldToken) -> bool
    ensures { result ≡ is_self_conjugate model.now token.now }
{
    if token.kind == TermKind::Fermion {
        return false;
    }
    match model.scalars.as_slice().get(token.field as usize) {
        Some(field) => field.real,
        None => false,
    }
}

/// The conjugate of a token.
fn conjugate_token(model: &Model, token: &FieldToken) -> FieldToken
    ensures { result ≡ conjugate_token model.now token.now }
{
    if is_self_conjugate(model, token) {
        return *token;
    }
    FieldToken {
        kind: token.kind,
        field: token.field,
        conj: !token.conj,
        generation: token.generation,
    }
}

/// The conjugates of tokens.
fn conjugates(alloc: Global, model: &Model, tokens: &[FieldToken]) -> Result<Content, AllocError>
    ensures { IfOk result (λ found. found ≡ map (conjugate_token model.now) tokens.now) }
{
    let mut found = Content::new(alloc);
    for token in tokens {
        found.push(conjugate_token(model, token))?;
    }
    Ok(found)
}

/// The field of a token, in the one generation of the token.
fn use_of(token: &FieldToken) -> FieldUse
    ensures { token_at 1 1 result ≡ token.now }
{
    FieldUse {
        kind: token.kind,
        field: token.field,
        conj: token.conj,
        generation: Generation::Fixed(token.generation),
    }
}

/// Tokens in their order, which is that of a content.
fn sorted(alloc: Global, tokens: &[FieldToken]) -> Result<Content, AllocError>
    ensures { IfOk result (λ found. found ≡ sorted tokens.now) }
{
    let mut used = FieldUseList::new(alloc);
    for token in tokens {
        used.push(use_of(token))?;
    }
    content_at(alloc, used.as_slice(), 1, 1)
}

/// The tokens of fermions: on side 1 those of their conjugates.
fn fermion_tokens(
    alloc: Global,
    model: &Model,
    components: &Components,
    side: u32,
    places: &[u32],
) -> Result<Content, AllocError>
    requires components { IsComponents model.now components.now }
    ensures { IfOk result (λ found. found ≡ fermion_tokens model.now side places.now) }
{
    let mut tokens = Content::new(alloc);
    let fermions = components.fermions.as_slice();
    push_tokens(&mut tokens, TermKind::Fermion, fermions, places)?;
    if side == 0 {
        return Ok(tokens);
    }
    conjugates(alloc, model, tokens.as_slice())
}

/// The content of two fermions and of scalars.
fn fermion_content(
    alloc: Global,
    model: &Model,
    components: &Components,
    side: u32,
    pair: &[u32],
    places: &[u32],
) -> Result<Content, AllocError>
    requires components { IsComponents model.now components.now }
    ensures { IfOk result (λ found. found ≡ sorted (fermion_tokens model.now side pair.now ++ scalar_tokens model.now places.now)) }
{
    let mut tokens = fermion_tokens(alloc, model, components, side, pair)?;
    let scalars = components.scalars.as_slice();
    push_tokens(&mut tokens, TermKind::Scalar, scalars, places)?;
    sorted(alloc, tokens.as_slice())
}

/// The content of scalars.
fn scalar_content(
    alloc: Global,
    model: &Model,
    components: &Components,
    places: &[u32],
) -> Result<Content, AllocError>
    requires components { IsComponents model.now components.now }
    ensures { IfOk result (λ found. found ≡ sorted (scalar_tokens model.now places.now)) }
{
    let mut tokens = Content::new(alloc);
    let scalars = components.scalars.as_slice();
    push_tokens(&mut tokens, TermKind::Scalar, scalars, places)?;
    sorted(alloc, tokens.as_slice())
}

/// The content of a component at the places of two fermions and a scalar, or of four scalars.
fn component_content(
    alloc: Global,
    model: &Model,
    components: &Components,
    kind: TermKind,
    side: u32,
    places: &[u32],
) -> Result<Content, AllocError>
    requires components { IsComponents model.now components.now }
    ensures { IfOk result (λ found. found ≡ component_content model.now kind (side ∷ places.now)) }
{
    match kind {
        TermKind::Scalar => scalar_content(alloc, model, components, places),
        TermKind::Fermion => match places {
            [] => Ok(Content::new(alloc)),
            [_] => Ok(Content::new(alloc)),
            [first, second, others @ ..] => {
                let pair = [*first, *second];
                fermion_content(alloc, model, components, side, &pair, others)
            }
        },
    }
}

/// The block of a component.
pub fn component_block(
    alloc: Global,
    model: &Model,
    components: &Components,
    kind: TermKind,
    side: u32,
    places: &[u32],
) -> Result<Content, AllocError>
    requires components { IsComponents model.now components.now }
    ensures { IfOk result (λ found. found ≡ component_block model.now kind (side ∷ places.now)) }
{
    let content = component_content(alloc, model, components, kind, side, places)?;
    block_of(alloc, model, content)
}

/// The side of its block on which a component stands.
pub fn component_side(
    alloc: Global,
    model: &Model,
    components: &Components,
    kind: TermKind,
    side: u32,
    places: &[u32],
) -> Result<u32, AllocError>
    requires components { IsComponents model.now components.now }
    ensures { IfOk result (λ found. found ≡ component_side model.now kind (side ∷ places.now)) }
{
    let content = component_content(alloc, model, components, kind, side, places)?;
    let block = component_block(alloc, model, components, kind, side, places)?;
    Ok(side_of(block.as_slice(), content.as_slice()))
}
