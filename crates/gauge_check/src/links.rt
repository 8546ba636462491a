//! Generators on components as links between places.
ghost use Rattle.std.specs.Prelude.{◌≡◌, ◌==◌, ◌<◌, suc, false, length, IfOk, OnOk};
ghost use Rattle.term_expand.specs.LinkSteps.{ArePlaced, all_links};
ghost use Rattle.gauge_check.specs.Actions.{place_generator, IsGenerator};

use crate::generators::generator_at_places;
use model_core::{Field, FieldComponent, Generator, Group};
use sparse_tensor::LinkList;
use std::alloc::{AllocError, Global};
use term_expand::push_link;

/// Adds the links from a component.
fn push_links_from(
    links: &mut LinkList,
    groups: &[Group],
    fields: &[Field],
    components: &[FieldComponent],
    generator: Generator,
    from: usize,
) -> Result<(), AllocError>
    requires placed { ArePlaced groups.now fields.now components.now }
    requires special { (generator.i == 0) ≡ false → IsGenerator groups.now generator.place generator.i generator.j }
    requires from { from < length components.now }
    requires before { links.old ≡ all_links (place_generator groups.now fields.now components.now generator) (length components.now) from }
    ensures { OnOk result (links.new ≡ all_links (place_generator groups.now fields.now components.now generator) (length components.now) (suc from)) }
{
    for to in 0..components.len() {
        let entry = generator_at_places(groups, fields, components, generator, from, to);
        push_link(links, from, to, entry)?;
    }
    Ok(())
}

/// A generator on components as links.
pub fn generator_links(
    alloc: Global,
    groups: &[Group],
    fields: &[Field],
    components: &[FieldComponent],
    generator: Generator,
) -> Result<LinkList, AllocError>
    requires placed { ArePlaced groups.now fields.now components.now }
    requires special { (generator.i == 0) ≡ false → IsGenerator groups.now generator.place generator.i generator.j }
    ensures { IfOk result (λ links. links ≡ all_links (place_generator groups.now fields.now components.now generator) (length components.now) (length components.now)) }
{
    let mut links = LinkList::new(alloc);
    for from in 0..components.len() {
        push_links_from(&mut links, groups, fields, components, generator, from)?;
    }
    Ok(links)
}
