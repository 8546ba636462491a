//! Entries with the places at legs in all orders.
ghost use Rattle.std.specs.Prelude.{◌≡◌, ◌<◌, ◌++◌, [], length, map, IfOk, OnOk, IsPermutation};
ghost use Rattle.std.specs.List.{All, flat_map};
ghost use Rattle.exact_algebra.specs.Orders.{inserts, orders};
ghost use Rattle.sparse_tensor.specs.Operations.{places_at, put_back};
ghost use Rattle.sparse_tensor.specs.Collected.{IsFolded, AreFolded, exchanged, all_exchanged};

use crate::entries::Entry;
use crate::key::Key;
use std::alloc::{AllocError, Global};

/// Puts a list of legs at the end once for each place that one more leg can have in it.
fn push_inserts(alloc: Global, out: &mut Vec<Key>, leg: u32, order: &Key) -> Result<(), AllocError>
    ensures { OnOk result (out.new.items ≡ out.old.items ++ inserts leg order.now) }
{
    let mut place: usize = 0;
    while place <= order.len() {
        let longer = order.inserted(alloc, place, leg)?;
        out.push(longer)?;
        place += 1;
    }
    Ok(())
}

/// The lists of legs with one more leg at each place.
fn all_inserts(alloc: Global, leg: u32, others: &[Key]) -> Result<Vec<Key>, AllocError>
    ensures { IfOk result (λ v. v.items ≡ flat_map (inserts leg) others.now) }
{
    let mut out = Vec::new(alloc);
    for order in others {
        push_inserts(alloc, &mut out, leg, order)?;
    }
    Ok(out)
}

/// All orders of legs.
pub(crate) fn orders_of(alloc: Global, legs: &[u32]) -> Result<Vec<Key>, AllocError>
    ensures { IfOk result (λ v. v.items ≡ orders legs.now) }
{
    let mut all = Vec::new(alloc);
    all.push(Key::from_slice(alloc, &[])?)?;
    let mut i = legs.len();
    while i > 0 {
        i -= 1;
        all = all_inserts(alloc, legs[i], all.as_slice())?;
    }
    Ok(all)
}

/// The key that has at each leg the place that the key has at the leg in its place in an order.
fn exchanged_key(alloc: Global, key: &Key, legs: &[u32], order: &[u32]) -> Result<Key, AllocError>
    requires inside { All (λ leg. leg < length key.now) legs.now }
    requires order { length order.now ≡ length legs.now }
    ensures { IfOk result (λ k. k ≡ put_back key.now legs.now (places_at order.now key.now)) }
{
    let mut moved = key.copy(alloc)?;
    let mut i: usize = 0;
    while i < legs.len() {
        moved.put(legs[i], key.at(order[i]));
        i += 1;
    }
    Ok(moved)
}

/// Puts an entry at the end with the places at legs in each order.
fn push_exchanged(
    alloc: Global,
    out: &mut Vec<Entry>,
    entry: &Entry,
    legs: &[u32],
    all: &[Key],
) -> Result<(), AllocError>
    requires inside { All (λ leg. leg < length entry.now.0) legs.now }
    requires orders { All (λ order. length order ≡ length legs.now) all.now }
    ensures { OnOk result (out.new.items ≡ out.old.items ++ map (exchanged legs.now entry.now) all.now) }
{
    for order in all {
        let key = exchanged_key(alloc, &entry.0, legs, order.as_slice())?;
        let value = entry.1.copy(alloc)?;
        out.push((key, value))?;
    }
    Ok(())
}

/// Each entry with the places at legs in each order.
pub(crate) fn exchanged_entries(
    alloc: Global,
    entries: &[Entry],
    legs: &[u32],
    all: &[Key],
) -> Result<Vec<Entry>, AllocError>
    requires inside { All (λ e. All (λ leg. leg < length e.0) legs.now) entries.now }
    requires orders { All (λ order. length order ≡ length legs.now) all.now }
    ensures { IfOk result (λ v. v.items ≡ all_exchanged legs.now all.now entries.now) }
{
    let mut out = Vec::new(alloc);
    for entry in entries {
        push_exchanged(alloc, &mut out, entry, legs, all)?;
    }
    Ok(out)
}

/// The legs in the order of the places that a key has at them.
fn legs_by_place(alloc: Global, key: &Key, legs: &[u32]) -> Result<Vec<u32>, AllocError>
    ensures { IfOk result (λ v. IsPermutation legs.now v.items) }
{
    let mut order = Vec::from_slice(alloc, legs)?;
    order.sort_by_key(|leg| key.at(*leg))?;
    Ok(order)
}

/// An entry with its places at legs in ascending order.
fn folded(alloc: Global, entry: &Entry, legs: &[u32]) -> Result<Entry, AllocError>
    requires { All (λ leg. leg < length entry.now.0) legs.now }
    ensures { IfOk result (λ e. IsFolded legs.now entry.now e) }
{
    let order = legs_by_place(alloc, &entry.0, legs)?;
    let key = exchanged_key(alloc, &entry.0, legs, order.as_slice())?;
    let value = entry.1.copy(alloc)?;
    Ok((key, value))
}

/// Each entry with its places at legs in ascending order.
pub(crate) fn folded_entries(
    alloc: Global,
    entries: &[Entry],
    legs: &[u32],
) -> Result<Vec<Entry>, AllocError>
    requires { All (λ e. All (λ leg. leg < length e.0) legs.now) entries.now }
    ensures { IfOk result (λ v. AreFolded legs.now entries.now v.items) }
{
    let mut out = Vec::new(alloc);
    for entry in entries {
        out.push(folded(alloc, entry, legs)?)?;
    }
    Ok(out)
}
