//! The keys of a table.
ghost use Rattle.std.specs.Prelude.{◌≡◌, Some, option_map};
ghost use Rattle.std.specs.List.{list_any};
ghost use Rattle.std.specs.Str.{bytes_eq};
ghost use Rattle.toml.specs.Data.{get_member};
ghost use Rattle.toml.specs.View.{view, table_view};
ghost use Rattle.model_core.specs.Walk.{keys_are_among, unknown_places, missing_place};
ghost use Rattle.model_reader.specs.Tables.{texts};
ghost use Rattle.model_reader.specs.Walked.{Walked, Passes};

use crate::error::{ReadError, refused};
use model_core::{FaultPlace, ReadKind};
use toml::{Table, Value};

/// Whether the key is one of these words.
pub fn is_among(key: &str, words: &[&str]) -> bool
    ensures { result ≡ list_any (bytes_eq key.now) (texts words.now) }
{
    for word in words {
        if key == *word {
            return true;
        }
    }
    false
}

/// Whether each key of the table is one of these words.
pub fn keys_are_among(table: &Table, words: &[&str]) -> bool
    ensures { result ≡ keys_are_among (texts words.now) (table_view table.now) }
{
    for (key, _) in table {
        if !is_among(key.as_str(), words) {
            return false;
        }
    }
    true
}

/// Asks that each key of the table is one of these words.
pub fn only_keys(place: FaultPlace, table: &Table, words: &[&str]) -> Result<(), ReadError>
    ensures { Passes (unknown_places (texts words.now) place (table_view table.now)) result }
{
    if !keys_are_among(table, words) {
        return refused(place, ReadKind::UnknownKey);
    }
    Ok(())
}

/// The value at a key.
pub fn value_at<'a>(table: &'a Table, key: &str) -> Option<&'a Value>
    ensures { option_map (λ v. view v.now) result ≡ get_member key.now (table_view table.now) }
{
    table.get(key)
}

/// The value at a key that has to be there.
pub fn required<'a>(place: FaultPlace, table: &'a Table, key: &str) -> Result<&'a Value, ReadError>
    ensures { Walked (λ v. Some (view v.now)) (missing_place place (get_member key.now (table_view table.now))) (get_member key.now (table_view table.now)) result }
{
    match value_at(table, key) {
        Some(value) => Ok(value),
        None => refused(place, ReadKind::MissingKey),
    }
}

/// The value at a key that is known by its bytes, found by a look at each key: for small tables.
pub fn value_at_bytes<'a>(table: &'a Table, key: &[u8]) -> Option<&'a Value>
    ensures { option_map (λ v. view v.now) result ≡ get_member key.now (table_view table.now) }
{
    for (found, value) in table {
        if key == found.as_bytes() {
            return Some(value);
        }
    }
    None
}
