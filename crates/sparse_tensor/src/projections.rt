//! Entries moved along links.
ghost use Rattle.std.specs.Prelude.{◌≡◌, ◌<◌, ◌++◌, ◌∷◌, [], length, map, IfOk, IfErr, OnOk};
ghost use Rattle.std.specs.List.{All};
ghost use Rattle.sparse_tensor.specs.Collected.{moved, all_moved};
ghost use Rattle.sparse_tensor.specs.Refusals.{IsTensorRefusal, IsRefusalOf};

use crate::entries::Entry;
use crate::fault::TensorFault;
use crate::links::{Link, LinkList};
use crate::polynomials::multiple;
use std::alloc::Global;

/// Puts an entry at the end, moved along a link.
fn push_moved(
    alloc: Global,
    out: &mut Vec<Entry>,
    entry: &Entry,
    leg: u32,
    link: &Link,
) -> Result<(), TensorFault>
    requires { leg < length entry.now.0 }
    ensures value { OnOk result (out.new.items ≡ out.old.items ++ moved leg entry.now link.now ∷ []) }
    ensures refused { IfErr result IsTensorRefusal }
{
    let value = multiple(alloc, link.value, &entry.1)?;
    let key = entry.0.with(alloc, leg, link.to)?;
    out.push((key, value))?;
    Ok(())
}

/// Puts an entry at the end, moved along each link.
fn push_all_moved(
    alloc: Global,
    out: &mut Vec<Entry>,
    entry: &Entry,
    leg: u32,
    links: &[Link],
) -> Result<(), TensorFault>
    requires { leg < length entry.now.0 }
    ensures value { OnOk result (out.new.items ≡ out.old.items ++ map (moved leg entry.now) links.now) }
    ensures refused { IfErr result IsTensorRefusal }
{
    for link in links {
        push_moved(alloc, out, entry, leg, link)?;
    }
    Ok(())
}

/// Each entry, moved along each link from its place at a leg.
pub(crate) fn moved_entries(
    alloc: Global,
    entries: &[Entry],
    leg: u32,
    links: &LinkList,
) -> Result<Vec<Entry>, TensorFault>
    requires { All (λ e. leg < length e.0) entries.now }
    ensures value { IfOk result (λ v. v.items ≡ all_moved leg links.now entries.now) }
    ensures refused { IfErr result (IsRefusalOf entries.now) }
{
    let mut out = Vec::new(alloc);
    for entry in entries {
        let run = links.from(entry.0.at(leg));
        push_all_moved(alloc, &mut out, entry, leg, run)?;
    }
    Ok(out)
}
