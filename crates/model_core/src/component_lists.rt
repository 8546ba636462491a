//! The components of a model as lists, for work that runs over all of them.
ghost use Rattle.std.specs.Prelude.{◌≡◌, ◌≤◌, ◌++◌, true, map, length, IfOk, OnOk};
ghost use Rattle.std.specs.List.{list_all};
ghost use Rattle.model_core.specs.Component.{copies_of};
ghost use Rattle.model_core.specs.ComponentLists.{placed, fermion_list, scalar_list};
ghost use Rattle.model_core.specs.Valid.{is_group, IsValid};

use crate::component::{Position, field_count, position_of};
use crate::field::Field;
use crate::group::Group;
use crate::leg::Slots;
use crate::model::Model;
use frac128::ItemList;
use std::alloc::{AllocError, Global};

/// A component of a field or of its conjugate, with the place of the field among the model's fermions or scalars.
#[derive(Drop)]
pub struct FieldComponent {
    pub field: u32,
    pub conj: bool,
    /// Counted from 1.
    pub generation: u32,
    pub slots: Slots,
}

/// Components in order: the one at place p of a leg stands at place p.
pub type FieldComponentList = ItemList<FieldComponent>;

/// Adds the components of a field, or of its conjugate.
fn push_copies(
    components: &mut FieldComponentList,
    groups: &[Group],
    field: &Field,
    place: u32,
    conj: bool,
) -> Result<(), AllocError>
    requires small { list_all is_group groups.now ≡ true }
    requires few { length groups.now ≤ 4 }
    requires generations { field.now.generations ≤ 6 }
    ensures { OnOk result (components.new ≡ components.old ++ map (placed place) (copies_of conj groups.now field.now)) }
{
    for rest in 0..field_count(groups, field) {
        let Position { generation, slots } = position_of(groups, field, rest);
        components.push(FieldComponent {
            field: place,
            conj,
            generation,
            slots,
        })?;
    }
    Ok(())
}

/// The fermion components of a valid model in their order.
pub fn fermion_list(alloc: Global, model: &Model) -> Result<FieldComponentList, AllocError>
    requires { IsValid model.now }
    ensures { IfOk result (λ found. found ≡ fermion_list model.now) }
{
    let mut components = FieldComponentList::new(alloc);
    let groups = model.groups.as_slice();
    let fermions = model.fermions.as_slice();
    for place in 0..fermions.len() {
        push_copies(
            &mut components,
            groups,
            &fermions[place],
            place as u32,
            false,
        )?;
    }
    Ok(components)
}

/// The scalar coordinates of a valid model in their order, without the dummy.
pub fn scalar_list(alloc: Global, model: &Model) -> Result<FieldComponentList, AllocError>
    requires { IsValid model.now }
    ensures { IfOk result (λ found. found ≡ scalar_list model.now) }
{
    let mut components = FieldComponentList::new(alloc);
    let groups = model.groups.as_slice();
    let scalars = model.scalars.as_slice();
    for place in 0..scalars.len() {
        push_copies(
            &mut components,
            groups,
            &scalars[place],
            place as u32,
            false,
        )?;
        if !scalars[place].real {
            push_copies(&mut components, groups, &scalars[place], place as u32, true)?;
        }
    }
    Ok(components)
}
