//! Entries of two tensors joined along links.
ghost use Rattle.std.specs.Prelude.{◌≡◌, ◌==◌, ◌<◌, ◌++◌, ◌∷◌, [], length, map, get_or, IfOk, IfErr, OnOk, IsPermutation};
ghost use Rattle.std.specs.List.{All, filter};
ghost use Rattle.std.specs.List.Sorted.{IsNonDecreasingBy};
ghost use Rattle.sparse_tensor.specs.Collected.{CanMeet, met, met_along, all_met};
ghost use Rattle.sparse_tensor.specs.Refusals.{IsTensorRefusal, IsRefusalOf};

use crate::entries::Entry;
use crate::fault::TensorFault;
use crate::links::{Link, LinkList};
use crate::polynomials::{product, scaled};
use std::alloc::{AllocError, Global};

/// The legs at which two tensors are joined.
#[derive(Clone, Copy, Debug)]
pub(crate) struct Legs {
    /// A leg of the first.
    pub(crate) first: u32,

    /// A leg of the second.
    pub(crate) second: u32,
}

/// References to entries, in the order of the entries.
fn references<'a>(alloc: Global, entries: &'a [Entry]) -> Result<Vec<&'a Entry>, AllocError>
    ensures { IfOk result (λ v. map (λ e. e.now) v.items ≡ entries.now) }
{
    let mut out = Vec::new(alloc);
    for entry in entries {
        out.push(entry)?;
    }
    Ok(out)
}

/// References to entries, in the order of the entries' places at a leg.
pub(crate) fn ordered_by_leg<'a>(
    alloc: Global,
    entries: &'a [Entry],
    leg: u32,
) -> Result<Vec<&'a Entry>, AllocError>
    ensures permutation { IfOk result (λ v. IsPermutation entries.now (map (λ e. e.now) v.items)) }
    ensures sorted { IfOk result (λ v. IsNonDecreasingBy (λ e. get_or e.now.0 leg 0) v.items) }
{
    let mut order = references(alloc, entries)?;
    order.sort_by_key(|entry| entry.0.at(leg))?;
    Ok(order)
}

/// The entries with a place at a leg, found by halving.
fn with_place<'a, 'b>(order: &'b [&'a Entry], leg: u32, place: u32) -> &'b [&'a Entry]
    requires { IsNonDecreasingBy (λ e. get_or e.now.0 leg 0) order.now }
    ensures { result.now ≡ filter (λ e. get_or e.now.0 leg 0 == place) order.now }
{
    let start = order.partition_point(|entry| entry.0.at(leg) < place);
    let end = order.partition_point(|entry| entry.0.at(leg) <= place);
    &order[start..end]
}

/// Puts two entries, joined by a link, at the end.
fn push_met(
    alloc: Global,
    out: &mut Vec<Entry>,
    legs: Legs,
    a: &Entry,
    link: &Link,
    b: &Entry,
) -> Result<(), TensorFault>
    requires leg { legs.first < length a.now.0 }
    requires other { CanMeet legs.second a.now b.now }
    ensures value { OnOk result (out.new.items ≡ out.old.items ++ met legs.first legs.second a.now link.now b.now ∷ []) }
    ensures refused { IfErr result IsTensorRefusal }
{
    let product = product(alloc, &a.1, &b.1)?;
    let value = scaled(alloc, link.value, product)?;
    let key = a.0.joined(alloc, legs.first, &b.0, legs.second)?;
    out.push((key, value))?;
    Ok(())
}

/// Puts an entry, joined by a link to each entry of a run, at the end.
fn push_run(
    alloc: Global,
    out: &mut Vec<Entry>,
    legs: Legs,
    a: &Entry,
    link: &Link,
    run: &[&Entry],
) -> Result<(), TensorFault>
    requires leg { legs.first < length a.now.0 }
    requires others { All (λ b. CanMeet legs.second a.now b.now) run.now }
    ensures value { OnOk result (out.new.items ≡ out.old.items ++ map (λ b. met legs.first legs.second a.now link.now b.now) run.now) }
    ensures refused { IfErr result (IsRefusalOf run.now) }
{
    for b in run {
        push_met(alloc, out, legs, a, link, b)?;
    }
    Ok(())
}

/// Puts an entry, joined along links to entries in the order of their places at the second leg, at the end.
fn push_links(
    alloc: Global,
    out: &mut Vec<Entry>,
    legs: Legs,
    a: &Entry,
    links: &[Link],
    order: &[&Entry],
) -> Result<(), TensorFault>
    requires leg { legs.first < length a.now.0 }
    requires others { All (λ b. CanMeet legs.second a.now b.now) order.now }
    requires sorted { IsNonDecreasingBy (λ b. get_or b.now.0 legs.second 0) order.now }
    ensures value { OnOk result (out.new.items ≡ out.old.items ++ met_along legs.first legs.second links.now (map (λ b. b.now) order.now) a.now) }
    ensures refused { IfErr result (IsRefusalOf order.now) }
{
    for link in links {
        let run = with_place(order, legs.second, link.to);
        push_run(alloc, out, legs, a, link, run)?;
    }
    Ok(())
}

/// Each entry of the first tensor, joined along the links from its place to entries of the second, which
/// are in the order of their places at the second leg.
pub(crate) fn joined(
    alloc: Global,
    entries: &[Entry],
    legs: Legs,
    links: &LinkList,
    order: &[&Entry],
) -> Result<Vec<Entry>, TensorFault>
    requires can_meet { All (λ a. (legs.first < length a.0) × All (λ b. CanMeet legs.second a b.now) order.now) entries.now }
    requires sorted { IsNonDecreasingBy (λ b. get_or b.now.0 legs.second 0) order.now }
    ensures value { IfOk result (λ v. v.items ≡ all_met legs.first legs.second links.now (map (λ b. b.now) order.now) entries.now) }
    ensures refused { IfErr result (IsRefusalOf entries.now) }
    ensures refused_by_other { IfErr result (IsRefusalOf order.now) }
{
    let mut out = Vec::new(alloc);
    for a in entries {
        let run = links.from(a.0.at(legs.first));
        push_links(alloc, &mut out, legs, a, run, order)?;
    }
    Ok(out)
}
