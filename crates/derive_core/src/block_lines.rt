//! The lines of blocks without coordinates.
ghost use Rattle.std.specs.Prelude.{◌≡◌, ◌≤◌, ◌++◌, ◌∷◌, [], length, slice_get, Some, OnOk};
ghost use Rattle.std.specs.List.{All, flat_map, list_any};
ghost use Rattle.model_core.specs.declared.leg.Leg.TheVariants.{Fermion as FermionLeg, Scalar as ScalarLeg};
ghost use Rattle.model_core.specs.declared.term.TermKind.TheVariants.{Fermion, Scalar};
ghost use Rattle.model_core.specs.Directions.{directions as directions_in};
ghost use Rattle.model_core.specs.Invariance.{component_legs};
ghost use Rattle.model_core.specs.Leg.{printed_generation};
ghost use Rattle.model_core.specs.Valid.{IsValid};
ghost use Rattle.span_solver.specs.BlockDirections.{is_named};
ghost use Rattle.term_expand.specs.Expansion.{AreDirections};
ghost use Rattle.derive_core.specs.LineSteps.{open_of, generated_of};
ghost use Rattle.derive_core.specs.Lines.{named_leg, token_leg, block_legs, key_legs, open_line, generated_line};
ghost use Rattle.derive_core.specs.Works.{are_places, are_scalar_places, HasLegs};

use crate::betas::{Line, LineList, TokenNames};
use crate::outcomes::{Outcome, Told};
use gauge_check::{Component, component_at};
use model_core::{Field, Leg, Model, Slots, TermKind, fermion_count, scalar_count};
use span_solver::same_name;
use std::alloc::{AllocError, Global};
use term_expand::{Direction, Token};

/// The generation of a token as it is printed.
fn generation_of(field: &Field, token: &Token) -> u32
    ensures { result ≡ printed_generation field.now token.now.generation }
{
    if field.generations == 1 {
        return 0;
    }
    token.generation
}

/// The leg of a fermion's token.
fn fermion_leg(field: &Field, token: &Token) -> Leg
    ensures { result ≡ named_leg FermionLeg token.now (Some field.now) }
{
    Leg::Fermion {
        name: field.name.copy(),
        conj: token.conj,
        generation: generation_of(field, token),
        slots: Slots::new(),
    }
}

/// The leg of a scalar's token.
fn scalar_leg(field: &Field, token: &Token) -> Leg
    ensures { result ≡ named_leg ScalarLeg token.now (Some field.now) }
{
    Leg::Scalar {
        name: field.name.copy(),
        conj: token.conj,
        generation: generation_of(field, token),
        slots: Slots::new(),
    }
}

/// The leg of a fermion's token, that of the dummy where no field stands at its place.
fn fermion_token_leg(model: &Model, token: &Token) -> Leg
    ensures { result ≡ named_leg FermionLeg token.now (slice_get model.now.fermions token.now.field) }
{
    match model.fermions.as_slice().get(token.field as usize) {
        Some(field) => fermion_leg(field, token),
        None => Leg::Dummy,
    }
}

/// The leg of a scalar's token, that of the dummy where no field stands at its place.
fn scalar_token_leg(model: &Model, token: &Token) -> Leg
    ensures { result ≡ named_leg ScalarLeg token.now (slice_get model.now.scalars token.now.field) }
{
    match model.scalars.as_slice().get(token.field as usize) {
        Some(field) => scalar_leg(field, token),
        None => Leg::Dummy,
    }
}

/// A token as a leg without slot values.
fn token_leg(model: &Model, token: &Token) -> Leg
    ensures { result ≡ token_leg model.now token.now }
{
    if token.dummy {
        return Leg::Dummy;
    }
    if token.fermion {
        return fermion_token_leg(model, token);
    }
    scalar_token_leg(model, token)
}

/// The tokens of a block as legs.
fn block_legs(model: &Model, name: &[Token]) -> TokenNames
    requires { length name.now ≤ 4 }
    ensures { result ≡ block_legs model.now name.now }
{
    let mut legs = Component::new();
    for token in name {
        legs.push(token_leg(model, token));
    }
    legs
}

/// Whether some direction is in a block.
fn has_block(directions: &[Direction], name: &[Token]) -> bool
    ensures { result ≡ list_any (is_named name.now) directions.now }
{
    directions
        .iter()
        .any(|direction| same_name(direction.block.as_slice(), name))
}

/// Whether the legs of Yukawa couplings have these places.
fn are_places(model: &Model, j: u32, k: u32, a: u32) -> bool
    requires { IsValid model.now }
    ensures { result ≡ are_places model.now j k a }
{
    let fermions = fermion_count(model);
    j < fermions && k < fermions && a < scalar_count(model)
}

/// Whether the legs of scalar couplings have these places.
fn are_scalar_places(model: &Model, a: u32, b: u32, c: u32, d: u32) -> bool
    requires { IsValid model.now }
    ensures { result ≡ are_scalar_places model.now a b c d }
{
    let scalars = scalar_count(model);
    a < scalars && b < scalars && c < scalars && d < scalars
}

/// The component of a Yukawa coupling at a side and places; none where no leg has one of these.
fn fermion_component(model: &Model, side: u32, j: u32, k: u32, a: u32) -> Component
    requires { IsValid model.now }
    ensures { result ≡ component_legs model.now Fermion (side ∷ j ∷ k ∷ a ∷ []) }
{
    if are_places(model, j, k, a) {
        return component_at(model, TermKind::Fermion, side, &[j, k, a]);
    }
    Component::new()
}

/// The component of a scalar coupling at a side and places; none where no leg has one of these.
fn scalar_component(model: &Model, side: u32, a: u32, b: u32, c: u32, d: u32) -> Component
    requires { IsValid model.now }
    ensures { result ≡ component_legs model.now Scalar (side ∷ a ∷ b ∷ c ∷ d ∷ []) }
{
    if are_scalar_places(model, a, b, c, d) {
        return component_at(model, TermKind::Scalar, side, &[a, b, c, d]);
    }
    Component::new()
}

/// The component at a key, which has the side first; none where the key has a place that no leg has.
fn component_of(model: &Model, key: &[u32]) -> Component
    requires { IsValid model.now }
    ensures { result ≡ key_legs model.now key.now }
{
    match key {
        [side, j, k, a] => fermion_component(model, *side, *j, *k, *a),
        [side, a, b, c, d] => scalar_component(model, *side, *a, *b, *c, *d),
        _ => Component::new(),
    }
}

/// Adds the line of an open block, where it has no coordinates.
fn push_unspanned(lines: &mut LineList, model: &Model, told: &Told) -> Result<(), AllocError>
    requires valid { IsValid model.now }
    requires legs { HasLegs told.now }
    ensures { OnOk result (lines.new ≡ lines.old ++ open_of model.now told.now.block told.now.outcome) }
{
    match &told.outcome {
        Outcome::Unspanned { key, .. } => lines.push(Line::NotSpanned {
            block: block_legs(model, told.block.as_slice()),
            component: component_of(model, key.as_slice()),
        }),
        Outcome::Spanned(_) => Ok(()),
    }
}

/// Adds the line of an open block.
fn push_open(
    lines: &mut LineList,
    model: &Model,
    directions: &[Direction],
    told: &Told,
) -> Result<(), AllocError>
    requires valid { IsValid model.now }
    requires directions { AreDirections (directions_in model.now) directions.now }
    requires legs { HasLegs told.now }
    ensures { OnOk result (lines.new ≡ lines.old ++ open_line model.now told.now) }
{
    if has_block(directions, told.block.as_slice()) {
        return push_unspanned(lines, model, told);
    }
    Ok(())
}

/// Adds the line of a generated block, where it has no coordinates.
fn push_value(
    alloc: Global,
    lines: &mut LineList,
    model: &Model,
    told: &Told,
) -> Result<(), AllocError>
    requires valid { IsValid model.now }
    requires legs { HasLegs told.now }
    ensures { OnOk result (lines.new ≡ lines.old ++ generated_of model.now told.now.block told.now.outcome) }
{
    match &told.outcome {
        Outcome::Unspanned { key, value } => lines.push(Line::Generated {
            block: block_legs(model, told.block.as_slice()),
            component: component_of(model, key.as_slice()),
            value: value.copy(alloc)?,
        }),
        Outcome::Spanned(_) => Ok(()),
    }
}

/// Adds the line of a generated block.
fn push_generated(
    alloc: Global,
    lines: &mut LineList,
    model: &Model,
    directions: &[Direction],
    told: &Told,
) -> Result<(), AllocError>
    requires valid { IsValid model.now }
    requires directions { AreDirections (directions_in model.now) directions.now }
    requires legs { HasLegs told.now }
    ensures { OnOk result (lines.new ≡ lines.old ++ generated_line model.now told.now) }
{
    if has_block(directions, told.block.as_slice()) {
        return Ok(());
    }
    push_value(alloc, lines, model, told)
}

/// Adds the lines of all open blocks.
pub fn push_open_blocks(
    lines: &mut LineList,
    model: &Model,
    directions: &[Direction],
    told: &[Told],
) -> Result<(), AllocError>
    requires valid { IsValid model.now }
    requires directions { AreDirections (directions_in model.now) directions.now }
    requires legs { All HasLegs told.now }
    ensures { OnOk result (lines.new ≡ lines.old ++ flat_map (open_line model.now) told.now) }
{
    for block in told {
        push_open(lines, model, directions, block)?;
    }
    Ok(())
}

/// Adds the lines of all generated blocks.
pub fn push_generated_blocks(
    alloc: Global,
    lines: &mut LineList,
    model: &Model,
    directions: &[Direction],
    told: &[Told],
) -> Result<(), AllocError>
    requires valid { IsValid model.now }
    requires directions { AreDirections (directions_in model.now) directions.now }
    requires legs { All HasLegs told.now }
    ensures { OnOk result (lines.new ≡ lines.old ++ flat_map (generated_line model.now) told.now) }
{
    for block in told {
        push_generated(alloc, lines, model, directions, block)?;
    }
    Ok(())
}
