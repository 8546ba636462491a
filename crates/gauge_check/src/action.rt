//! The components of a model, and the generators on them.
ghost use Rattle.std.specs.Prelude.{◌≡◌, ◌≤◌, ◌==◌, ◌∷◌, [], false, map, slice_get, Some, IfOk, OnOk};
ghost use Rattle.model_core.specs.Generators.{generators, generators_of, special_generators};
ghost use Rattle.model_core.specs.Valid.{IsValid};
ghost use Rattle.gauge_check.specs.Actions.{AreLegs, IsAction, AreActions, IsGenerator, conjugate_of, Extends, special_row};

use crate::links::generator_links;
use frac128::ItemList;
use model_core::{
    FieldComponent, FieldComponentList, Generator, Group, Model, fermion_list, scalar_list,
};
use sparse_tensor::LinkList;
use std::alloc::{AllocError, Global};

/// The components of a model in the order of their places: its fermions, their conjugates, and its scalars without the
/// dummy.
#[derive(Drop)]
pub struct Legs {
    pub fermions: FieldComponentList,
    pub conjugates: FieldComponentList,
    pub scalars: FieldComponentList,
}

/// A generator on each kind of leg, as links between places. The dummy has none.
#[derive(Drop)]
pub struct Action {
    pub generator: Generator,
    pub fermions: LinkList,
    pub conjugates: LinkList,
    pub scalars: LinkList,
}

/// Generators in the order of groups, then i, then j.
pub type ActionList = ItemList<Action>;

/// The same components of the conjugate fields.
fn conjugates_of(
    alloc: Global,
    components: &[FieldComponent],
) -> Result<FieldComponentList, AllocError>
    ensures { IfOk result (λ found. found ≡ map conjugate_of components.now) }
{
    let mut found = FieldComponentList::new(alloc);
    for component in components {
        found.push(FieldComponent {
            field: component.field,
            conj: !component.conj,
            generation: component.generation,
            slots: component.slots.copy(),
        })?;
    }
    Ok(found)
}

/// The components of a valid model.
pub fn legs_of(alloc: Global, model: &Model) -> Result<Legs, AllocError>
    requires { IsValid model.now }
    ensures { IfOk result (AreLegs model.now) }
{
    let fermions = fermion_list(alloc, model)?;
    let conjugates = conjugates_of(alloc, fermions.as_slice())?;
    let scalars = scalar_list(alloc, model)?;
    Ok(Legs {
        fermions,
        conjugates,
        scalars,
    })
}

/// A generator on the components of a model.
fn action_of(
    alloc: Global,
    model: &Model,
    legs: &Legs,
    generator: Generator,
) -> Result<Action, AllocError>
    requires valid { IsValid model.now }
    requires legs { AreLegs model.now legs.now }
    requires special { (generator.i == 0) ≡ false → IsGenerator model.now.groups generator.place generator.i generator.j }
    ensures { IfOk result (IsAction model.now generator) }
{
    let groups = model.groups.as_slice();
    let fermions = model.fermions.as_slice();
    let scalars = model.scalars.as_slice();
    let fermion_links = generator_links(
        alloc,
        groups,
        fermions,
        legs.fermions.as_slice(),
        generator,
    )?;
    let conjugate_links = generator_links(
        alloc,
        groups,
        fermions,
        legs.conjugates.as_slice(),
        generator,
    )?;
    let scalar_links = generator_links(alloc, groups, scalars, legs.scalars.as_slice(), generator)?;
    Ok(Action {
        generator,
        fermions: fermion_links,
        conjugates: conjugate_links,
        scalars: scalar_links,
    })
}

/// Adds a generator on the components of a model.
fn push_action(
    alloc: Global,
    actions: &mut ActionList,
    model: &Model,
    legs: &Legs,
    generator: Generator,
) -> Result<(), AllocError>
    requires valid { IsValid model.now }
    requires legs { AreLegs model.now legs.now }
    requires special { (generator.i == 0) ≡ false → IsGenerator model.now.groups generator.place generator.i generator.j }
    ensures { OnOk result (Extends model.now (generator ∷ []) actions.old actions.new) }
{
    let action = action_of(alloc, model, legs, generator)?;
    actions.push(action)?;
    Ok(())
}

/// Adds the X_ij with this i of the SU(n) at a place.
fn push_row(
    alloc: Global,
    actions: &mut ActionList,
    model: &Model,
    legs: &Legs,
    place: u32,
    group: &Group,
    i: u8,
) -> Result<(), AllocError>
    requires valid { IsValid model.now }
    requires legs { AreLegs model.now legs.now }
    requires group { slice_get model.now.groups place ≡ Some group.now }
    requires special { 2 ≤ group.now.n }
    requires low { 1 ≤ i }
    requires high { i ≤ group.now.n }
    ensures { OnOk result (Extends model.now (special_row place i group.now.n) actions.old actions.new) }
{
    for j in 0..group.n {
        let generator = Generator {
            place,
            i,
            j: j as u8 + 1,
        };
        push_action(alloc, actions, model, legs, generator)?;
    }
    Ok(())
}

/// Adds the X_ij of the SU(n) at a place.
fn push_special(
    alloc: Global,
    actions: &mut ActionList,
    model: &Model,
    legs: &Legs,
    place: u32,
    group: &Group,
) -> Result<(), AllocError>
    requires valid { IsValid model.now }
    requires legs { AreLegs model.now legs.now }
    requires group { slice_get model.now.groups place ≡ Some group.now }
    requires special { 2 ≤ group.now.n }
    ensures { OnOk result (Extends model.now (special_generators place group.now.n) actions.old actions.new) }
{
    for i in 0..group.n {
        push_row(alloc, actions, model, legs, place, group, i as u8 + 1)?;
    }
    Ok(())
}

/// Adds the generators of the group at a place.
fn push_generators(
    alloc: Global,
    actions: &mut ActionList,
    model: &Model,
    legs: &Legs,
    place: u32,
    group: &Group,
) -> Result<(), AllocError>
    requires valid { IsValid model.now }
    requires legs { AreLegs model.now legs.now }
    requires group { slice_get model.now.groups place ≡ Some group.now }
    ensures { OnOk result (Extends model.now (generators_of (place, group.now)) actions.old actions.new) }
{
    if group.is_abelian() {
        let charge = Generator { place, i: 0, j: 0 };
        return push_action(alloc, actions, model, legs, charge);
    }
    push_special(alloc, actions, model, legs, place, group)
}

/// The generators of all groups of a valid model.
pub fn actions_of(alloc: Global, model: &Model, legs: &Legs) -> Result<ActionList, AllocError>
    requires valid { IsValid model.now }
    requires legs { AreLegs model.now legs.now }
    ensures { IfOk result (AreActions model.now (generators model.now)) }
{
    let mut actions = ActionList::new(alloc);
    for place in 0..model.groups.len() {
        let group = model.groups.item(place);
        push_generators(alloc, &mut actions, model, legs, place as u32, group)?;
    }
    Ok(actions)
}
