//! Tables: tensors of fractions.
ghost use Rattle.std.specs.Prelude.{◌≡◌, map};
ghost use Rattle.std.specs.List.{list_any};
ghost use Rattle.std.specs.Str.{bytes_eq};
ghost use Rattle.model_core.specs.Valid.{entry_at};

use crate::name::Name;
use frac128::{Frac, ItemList, NumberList};

/// An entry of a table: its place, and the fraction that stands there.
#[derive(Drop)]
pub struct Entry {
    /// A value for each slot, from 1 to the n of the slot's group.
    pub at: NumberList,
    pub value: Frac,
}

/// Entries in file order.
pub type EntryList = ItemList<Entry>;

/// A table: a tensor of fractions with slots of groups SU(n). An entry that isn't written is 0.
#[derive(Drop)]
pub struct Table {
    pub name: Name,
    /// The group of each slot, by its place in the model, counted from 0.
    pub slots: NumberList,
    pub entries: EntryList,
}

/// Tables in file order.
pub type TableList = ItemList<Table>;

/// Whether one of the entries stands at these values.
fn is_any_at(entries: &[Entry], at: &[u32]) -> bool
    ensures { result ≡ list_any (λ entry. bytes_eq at.now (entry_at entry)) entries.now }
{
    entries.iter().any(|entry| at == entry.at.as_slice())
}

/// Whether one of the entries stands at these values.
#[tactic(auto, using(crate::proofs::ListLaws::list_any_map))]
pub fn has_entry_at(entries: &[Entry], at: &[u32]) -> bool
    ensures { result ≡ list_any (bytes_eq at.now) (map entry_at entries.now) }
{
    is_any_at(entries, at)
}
