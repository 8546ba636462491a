//! The projectors on components as links between places.
ghost use Rattle.std.specs.Prelude.{◌≡◌, ◌<◌, ◌≤◌, ◌^◌, ◌++◌, ◌∷◌, [], suc, true, length, IfOk, OnOk, IfErr};
ghost use Rattle.std.specs.List.{All, list_all};
ghost use Rattle.std.specs.Str.{bytes_eq};
ghost use Rattle.frac128.specs.Rational.{◌*ℚ◌};
ghost use Rattle.sparse_tensor.specs.Operations.{IsAfter};
ghost use Rattle.beta_poly.specs.Refusals.{IsRefusedPair};
ghost use Rattle.su_reps.specs.Tuples.{IsTuple, projector};
ghost use Rattle.sparse_tensor.specs.Laws.{IsBetween};
ghost use Rattle.sparse_tensor.specs.Refusals.{IsTensorRefusal};
ghost use Rattle.model_core.specs.Component.{are_copies, projector_over, projector_at};
ghost use Rattle.model_core.specs.Valid.{is_group, is_rep, are_reps};
ghost use Rattle.term_expand.specs.LinkSteps.{in_field, component_in, projector_between, place_projectors, AreTuples, IsPlaced, AreNamed, ArePlaced, kept_link, all_links, dummy_link};

use frac128::{Frac, Overflow};
use model_core::{Field, FieldComponent, Group};
use sparse_tensor::{Link, LinkList, TensorFault};
use std::alloc::{AllocError, Global};
use su_reps::{Rep, projector, slots};

/// The projector on a representation of a group: 1 where the group is the U(1).
#[tactic(auto, using(crate::proofs::ProjectorSteps::abelian_projector, crate::proofs::ProjectorSteps::special_low, crate::proofs::ProjectorSteps::group_high))]
fn group_projector(group: &Group, rep: Rep, p: &[u8], q: &[u8]) -> Frac
    requires group { is_group group.now ≡ true }
    requires rep { is_rep group.now rep ≡ true }
    requires first { IsTuple rep group.now.n p.now }
    requires second { IsTuple rep group.now.n q.now }
    ensures { result ≡ projector rep group.now.n p.now q.now }
{
    if group.n == 1 {
        return Frac::one();
    }
    projector(rep, group.n, p, q)
}

/// The product of two projectors.
fn product(first: Frac, second: Frac) -> Result<Frac, Overflow>
    ensures value { IfOk result (λ value. value ≡ first *ℚ second) }
    ensures refused { IfErr result (λ pair. IsRefusedPair pair.a pair.b) }
{
    first.mul(&second)
}

/// The product over the groups of the projectors on each representation's slots.
fn projector_over(groups: &[Group], reps: &[Rep], p: &[u8], q: &[u8]) -> Result<Frac, Overflow>
    requires groups { list_all is_group groups.now ≡ true }
    requires reps { are_reps groups.now reps.now ≡ true }
    requires first { AreTuples groups.now reps.now p.now }
    requires second { AreTuples groups.now reps.now q.now }
    ensures value { IfOk result (λ value. value ≡ projector_over groups.now reps.now p.now q.now) }
    ensures refused { IfErr result (λ pair. IsRefusedPair pair.a pair.b) }
{
    match groups {
        [] => Ok(Frac::one()),
        [group, groups @ ..] => match reps {
            [] => Ok(Frac::one()),
            [rep, reps @ ..] => {
                let count = slots(*rep) as usize;
                let (p_first, p_rest) = p.split_at(count);
                let (q_first, q_rest) = q.split_at(count);
                let first = group_projector(group, *rep, p_first, q_first);
                let others = projector_over(groups, reps, p_rest, q_rest)?;
                product(first, others)
            }
        },
    }
}

/// Whether two components are of one field, on one side, and of one generation.
fn are_copies(first: &Field, second: &Field, from: &FieldComponent, to: &FieldComponent) -> bool
    ensures { result ≡ are_copies (in_field from.now first.now) (in_field to.now second.now) }
{
    first.name.as_bytes() == second.name.as_bytes()
        && from.conj == to.conj
        && from.generation == to.generation
}

/// The projector at two components of fields.
fn projector_of(
    groups: &[Group],
    first: &Field,
    second: &Field,
    from: &FieldComponent,
    to: &FieldComponent,
) -> Result<Frac, Overflow>
    requires groups { list_all is_group groups.now ≡ true }
    requires reps { are_reps groups.now first.now.reps ≡ true }
    requires from { AreTuples groups.now first.now.reps from.now.slots }
    requires to { bytes_eq first.now.name second.now.name ≡ true → AreTuples groups.now first.now.reps to.now.slots }
    ensures value { IfOk result (λ value. value ≡ projector_at groups.now (in_field from.now first.now) (in_field to.now second.now)) }
    ensures refused { IfErr result (λ pair. IsRefusedPair pair.a pair.b) }
{
    if !are_copies(first, second, from, to) {
        return Ok(Frac::zero());
    }
    projector_over(
        groups,
        first.reps.as_slice(),
        from.slots.as_slice(),
        to.slots.as_slice(),
    )
}

/// The projector at two components.
fn projector_at(
    groups: &[Group],
    fields: &[Field],
    from: &FieldComponent,
    to: &FieldComponent,
) -> Result<Frac, Overflow>
    requires named { AreNamed groups.now fields.now }
    requires from { IsPlaced groups.now fields.now from.now }
    requires to { IsPlaced groups.now fields.now to.now }
    ensures value { IfOk result (λ value. value ≡ projector_between groups.now (component_in fields.now from.now) (component_in fields.now to.now)) }
    ensures refused { IfErr result (λ pair. IsRefusedPair pair.a pair.b) }
{
    let first = &fields[from.field as usize];
    let second = &fields[to.field as usize];
    projector_of(groups, first, second, from, to)
}

/// The projector at two places.
fn projector_at_places(
    groups: &[Group],
    fields: &[Field],
    components: &[FieldComponent],
    from: usize,
    to: usize,
) -> Result<Frac, Overflow>
    requires placed { ArePlaced groups.now fields.now components.now }
    requires from { from < length components.now }
    requires to { to < length components.now }
    ensures value { IfOk result (λ value. value ≡ place_projectors groups.now fields.now components.now from to) }
    ensures refused { IfErr result (λ pair. IsRefusedPair pair.a pair.b) }
{
    projector_at(groups, fields, &components[from], &components[to])
}

/// Adds a link, unless its value is 0.
pub fn push_link(
    links: &mut LinkList,
    from: usize,
    to: usize,
    value: Frac,
) -> Result<(), AllocError>
    requires from { from < 2 ^ 32 }
    requires to { to < 2 ^ 32 }
    requires after { IsAfter links.old (record { from = from; to = to; value = value }) }
    ensures { OnOk result (links.new ≡ links.old ++ kept_link from to value) }
{
    if value.is_zero() {
        return Ok(());
    }
    links.push(Link {
        from: from as u32,
        to: to as u32,
        value,
    })
}

/// Adds the links from a component.
fn push_links_from(
    links: &mut LinkList,
    groups: &[Group],
    fields: &[Field],
    components: &[FieldComponent],
    from: usize,
) -> Result<(), TensorFault>
    requires placed { ArePlaced groups.now fields.now components.now }
    requires from { from < length components.now }
    requires before { links.old ≡ all_links (place_projectors groups.now fields.now components.now) (length components.now) from }
    ensures value { OnOk result (links.new ≡ all_links (place_projectors groups.now fields.now components.now) (length components.now) (suc from)) }
    ensures refused { IfErr result IsTensorRefusal }
{
    for to in 0..components.len() {
        let value = projector_at_places(groups, fields, components, from, to)?;
        push_link(links, from, to, value)?;
    }
    Ok(())
}

/// The projector on components as links.
pub fn links_between(
    alloc: Global,
    groups: &[Group],
    fields: &[Field],
    components: &[FieldComponent],
) -> Result<LinkList, TensorFault>
    requires { ArePlaced groups.now fields.now components.now }
    ensures value { IfOk result (λ links. links ≡ all_links (place_projectors groups.now fields.now components.now) (length components.now) (length components.now)) }
    ensures refused { IfErr result IsTensorRefusal }
{
    let mut links = LinkList::new(alloc);
    for from in 0..components.len() {
        push_links_from(&mut links, groups, fields, components, from)?;
    }
    Ok(links)
}

/// Links with one more, from the dummy behind the components to itself.
#[tactic(auto, using(crate::proofs::AllLinks::dummy_after))]
pub fn with_dummy(links: LinkList, place: usize) -> Result<LinkList, TensorFault>
    requires between { All (IsBetween place place) links }
    requires few { place ≤ 512 }
    ensures value { IfOk result (λ all. all ≡ links ++ dummy_link place ∷ []) }
    ensures refused { IfErr result IsTensorRefusal }
{
    let mut all = links;
    all.push(Link {
        from: place as u32,
        to: place as u32,
        value: Frac::one(),
    })?;
    Ok(all)
}
