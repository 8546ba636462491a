//! The components of a model, and the projectors on them as links.
ghost use Rattle.std.specs.Prelude.{IfOk, IfErr};
ghost use Rattle.model_core.specs.Valid.{IsValid};
ghost use Rattle.sparse_tensor.specs.Refusals.{IsTensorRefusal};
ghost use Rattle.term_expand.specs.Projectors.{IsBasis};

use crate::links::{links_between, with_dummy};
use model_core::{FieldComponentList, Model, fermion_list, scalar_list};
use sparse_tensor::{LinkList, TensorFault};
use std::alloc::Global;

/// The components of a model's fields in the order of their places, and the projectors on a leg: links between places.
#[derive(Drop)]
pub struct Basis {
    pub fermions: FieldComponentList,
    /// The dummy stands after these.
    pub scalars: FieldComponentList,
    pub fermion_links: LinkList,
    /// With one from the dummy to itself.
    pub scalar_links: LinkList,
}

/// The components of a valid model.
#[tactic(auto, using(crate::proofs::PlacedComponents::fermions_are_placed, crate::proofs::PlacedComponents::scalars_are_placed, crate::proofs::BasisLaws::links_inside))]
pub fn basis_of(alloc: Global, model: &Model) -> Result<Basis, TensorFault>
    requires { IsValid model.now }
    ensures value { IfOk result (λ found. IsBasis model.now found) }
    ensures refused { IfErr result IsTensorRefusal }
{
    let groups = model.groups.as_slice();
    let fermions = fermion_list(alloc, model)?;
    let scalars = scalar_list(alloc, model)?;
    let fermion_links = links_between(
        alloc,
        groups,
        model.fermions.as_slice(),
        fermions.as_slice(),
    )?;
    let others = links_between(alloc, groups, model.scalars.as_slice(), scalars.as_slice())?;
    let scalar_links = with_dummy(others, scalars.len())?;
    Ok(Basis {
        fermions,
        scalars,
        fermion_links,
        scalar_links,
    })
}
