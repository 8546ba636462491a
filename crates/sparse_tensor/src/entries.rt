//! Lists of entries: put into the order of their keys, gathered, and looked up.
ghost use Rattle.std.specs.Prelude.{◌≡◌, ◌≢◌, ℕ, List, ◌++◌, map, IfOk, IfErr, OnOk, IsPermutation, MatchOption};
ghost use Rattle.std.specs.List.Sorted.{IsSortedByKey};
ghost use Rattle.exact_algebra.specs.TensorContraction.{places_cmp};
ghost use Rattle.beta_poly.specs.Polynomial.{zero_poly};
ghost use Rattle.sparse_tensor.specs.Tensor.{HasRank, IsMap, kept, value_in};
ghost use Rattle.sparse_tensor.specs.Operations.{entry, gathered_at};
ghost use Rattle.sparse_tensor.specs.Collected.{run_value};
ghost use Rattle.sparse_tensor.specs.Refusals.{IsRefusedSum, IsSumRefusalOf};

use crate::fault::TensorFault;
use crate::key::Key;
use crate::polynomials::{is_zero, total};
use crate::values::Value;
use beta_poly::Poly;
use std::alloc::{AllocError, Global};
use std::cmp::Ordering;

/// An entry of a tensor: a key and its value.
pub(crate) type Entry = (Key, Poly);

/// The entries of values.
pub(crate) fn entries_of(alloc: Global, values: Vec<Value>) -> Result<Vec<Entry>, AllocError>
    ensures { IfOk result (λ v. v.items ≡ map entry values.items) }
{
    let mut out = Vec::new(alloc);
    let mut rest = values.into_iter();
    while let Some(value) = rest.next() {
        let key = Key::from_slice(alloc, value.key.as_slice())?;
        out.push((key, value.value))?;
    }
    Ok(out)
}

/// Puts entries into the order of their keys.
fn sort_entries(entries: &mut Vec<Entry>) -> Result<(), AllocError>
    ensures permutation { IsPermutation entries.old.items entries.new.items }
    ensures sorted { OnOk result (IsSortedByKey (λ e. e.0) places_cmp entries.new.items) }
{
    entries.sort_by(|a, b| a.0.cmp(&b.0))?;
    Ok(())
}

/// Puts an entry at the end, or nothing where its value is 0.
fn push_kept(out: &mut Vec<Entry>, key: Key, value: Poly) -> Result<(), AllocError>
    ensures { OnOk result (out.new.items ≡ out.old.items ++ kept key value) }
{
    if is_zero(&value) {
        return Ok(());
    }
    out.push((key, value))?;
    Ok(())
}

/// The sum of a value and of more values.
fn total_of(alloc: Global, first: Poly, more: Vec<Poly>) -> Result<Poly, TensorFault>
    ensures value { IfOk result (λ p. p ≡ run_value first more.items) }
    ensures refused { IfErr result IsRefusedSum }
{
    if more.is_empty() {
        return Ok(first);
    }
    let mut all = Vec::new(alloc);
    all.push(first)?;
    let mut rest = more;
    all.append(&mut rest)?;
    total(alloc, all)
}

/// The entries of the map that entries in the order of their keys stand for: neighbours with one key are
/// added at once, and what cancels is dropped.
fn gather_sorted(alloc: Global, entries: Vec<Entry>) -> Result<Vec<Entry>, TensorFault>
    requires { IsSortedByKey (λ e. e.0) places_cmp entries.items }
    ensures value { IfOk result (λ v. (key : List ℕ) → value_in v.items key ≡ gathered_at entries.items key) }
    ensures is_map { IfOk result (λ v. IsMap v.items) }
    ensures keys { IfOk result (λ v. (rank : ℕ) → HasRank rank entries.items → HasRank rank v.items) }
    ensures refused { IfErr result (IsSumRefusalOf entries.items) }
{
    let mut out = Vec::new(alloc);
    let mut rest = entries.into_iter();
    let Some(start) = rest.next() else {
        return Ok(out);
    };
    let (mut key, mut first) = start;
    let mut more = Vec::new(alloc);
    while let Some(next) = rest.next() {
        let (next_key, next_value) = next;
        match key.cmp(&next_key) {
            Ordering::Equal => more.push(next_value)?,
            _ => {
                let value = total_of(alloc, first, more)?;
                push_kept(&mut out, key, value)?;
                key = next_key;
                first = next_value;
                more = Vec::new(alloc);
            }
        }
    }
    let value = total_of(alloc, first, more)?;
    push_kept(&mut out, key, value)?;
    Ok(out)
}

/// The entries of the map that entries in any order and with repeats stand for.
pub(crate) fn gather_entries(alloc: Global, entries: Vec<Entry>) -> Result<Vec<Entry>, TensorFault>
    ensures value { IfOk result (λ v. (key : List ℕ) → value_in v.items key ≡ gathered_at entries.items key) }
    ensures is_map { IfOk result (λ v. IsMap v.items) }
    ensures keys { IfOk result (λ v. (rank : ℕ) → HasRank rank entries.items → HasRank rank v.items) }
    ensures refused { IfErr result (IsSumRefusalOf entries.items) }
{
    let mut sorted = entries;
    sort_entries(&mut sorted)?;
    let gathered = gather_sorted(alloc, sorted)?;
    Ok(gathered)
}

/// The entry of a key, found by halving.
pub(crate) fn find<'a>(entries: &'a [Entry], key: &[u32]) -> Option<&'a Poly>
    requires { IsMap entries.now }
    ensures { MatchOption result (value_in entries.now key.now ≡ zero_poly) (λ p. (p.now ≡ value_in entries.now key.now) × (p.now ≢ zero_poly)) }
{
    match entries.binary_search_by(|entry| entry.0.cmp_places(key)) {
        Ok(place) => Some(&entries[place].1),
        Err(_) => None,
    }
}
