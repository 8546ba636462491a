//! Lists of keys: those of a tensor, two lists as one, and whether a key stands in a list.
ghost use Rattle.std.specs.Prelude.{◌≡◌, ◌↔◌, ◌∷◌, ◌++◌, [], IsTrue, IfOk, OnOk, map};
ghost use Rattle.exact_algebra.specs.TensorContraction.{places_cmp};
ghost use Rattle.sparse_tensor.specs.Tensor.{entries_of};
ghost use Rattle.span_solver.specs.Block.{IsIn, Ascend};
ghost use Rattle.span_solver.specs.MergedKeys.{merge_keys};

use frac128::NumberList;
use sparse_tensor::Sparse;
use std::alloc::{AllocError, Global};
use std::cmp::Ordering;

/// The order of keys: the first place at which they differ decides.
pub(crate) fn compare(a: &[u32], b: &[u32]) -> Ordering
    ensures { result ≡ places_cmp a.now b.now }
{
    a.cmp(b)
}

/// An equal key.
pub(crate) fn copy_of(alloc: Global, key: &[u32]) -> Result<NumberList, AllocError>
    ensures { IfOk result (λ k. k ≡ key.now) }
{
    let places = Vec::from_slice(alloc, key)?;
    Ok(NumberList::from_vec(places))
}

/// Puts a copy of a key at the end.
fn push_key(alloc: Global, out: &mut Vec<NumberList>, key: &[u32]) -> Result<(), AllocError>
    ensures { OnOk result (out.new.items ≡ out.old.items ++ key.now ∷ []) }
{
    let copy = copy_of(alloc, key)?;
    out.push(copy)?;
    Ok(())
}

/// Puts copies of keys at the end.
fn push_keys(
    alloc: Global,
    out: &mut Vec<NumberList>,
    keys: &[NumberList],
) -> Result<(), AllocError>
    ensures { OnOk result (out.new.items ≡ out.old.items ++ keys.now) }
{
    for key in keys {
        push_key(alloc, out, key.as_slice())?;
    }
    Ok(())
}

/// The keys of a tensor's entries, in their order.
pub(crate) fn keys_in(alloc: Global, tensor: &Sparse) -> Result<Vec<NumberList>, AllocError>
    ensures { IfOk result (λ v. v.items ≡ map (λ e. e.0) (entries_of tensor.now)) }
{
    let mut out = Vec::new(alloc);
    for place in 0..tensor.len() {
        let (key, _) = tensor.item(place);
        push_key(alloc, &mut out, key)?;
    }
    Ok(out)
}

/// Two ascending lists of keys as one, by one walk along both.
pub(crate) fn merged(
    alloc: Global,
    a: &[NumberList],
    b: &[NumberList],
) -> Result<Vec<NumberList>, AllocError>
    ensures { IfOk result (λ v. v.items ≡ merge_keys a.now b.now) }
{
    let mut out = Vec::new(alloc);
    let mut i: usize = 0;
    let mut j: usize = 0;
    while i < a.len() && j < b.len() {
        let first = &a[i];
        let second = &b[j];
        match compare(first.as_slice(), second.as_slice()) {
            Ordering::Less => {
                push_key(alloc, &mut out, first.as_slice())?;
                i += 1;
            }
            Ordering::Greater => {
                push_key(alloc, &mut out, second.as_slice())?;
                j += 1;
            }
            Ordering::Equal => {
                push_key(alloc, &mut out, first.as_slice())?;
                i += 1;
                j += 1;
            }
        }
    }
    push_keys(alloc, &mut out, &a[i..])?;
    push_keys(alloc, &mut out, &b[j..])?;
    Ok(out)
}

/// Whether a key stands in an ascending list, found by halving.
pub(crate) fn has_key(keys: &[NumberList], key: &[u32]) -> bool
    requires { Ascend keys.now }
    ensures { IsTrue result ↔ IsIn key.now keys.now }
{
    match keys.binary_search_by(|other| compare(other.as_slice(), key)) {
        Ok(_) => true,
        Err(_) => false,
    }
}
