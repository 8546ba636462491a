//! What stands for parameters, and what rows stand for.
ghost use Rattle.std.specs.Prelude.{◌≡◌, ◌+◌, pos, Some};
ghost use Rattle.sqlite_value.specs.declared.value.Value.TheVariants.{Int};
ghost use Rattle.sqlite_value.specs.Value.{owned};
ghost use Rattle.sqlite_value.specs.Order.{column};
ghost use Rattle.sqlite.specs.Values.{bound};
ghost use Rattle.register_sqlite.specs.Refusals.{Reads};
ghost use Rattle.register_sqlite.specs.Rows.{format_word, name_values, version_values, model_values, key_values, run_values, name_of, blob_of, is_number, names_in, count_in, bytes_in};

use crate::refusal::Refusal;
use frac128::ByteList;
use model_core::{Format, Name, NameList};
use register_core::{MOST_VERSIONS, RunKey};
use sqlite::Row;
use sqlite::types::ValueRef;
use std::alloc::Global;

/// The word of a format.
fn format_word(format: Format) -> &'static [u8]
    ensures { result.now ≡ format_word format }
{
    match format {
        Format::Text => b"text".as_slice(),
        Format::Latex => b"latex".as_slice(),
        Format::Csv => b"csv".as_slice(),
    }
}

/// A whole number.
fn number_value(number: u32) -> ValueRef<'static>
    ensures { owned result ≡ Int (pos number) }
{
    ValueRef::Int(i64::from(number))
}

/// The parameters that say a name.
pub(crate) fn name_values<'a>(name: &'a Name) -> [ValueRef<'a>; 1]
    ensures { bound result ≡ name_values name.now }
{
    [ValueRef::Text(name.as_bytes())]
}

/// The parameters that say a version.
pub(crate) fn version_values<'a>(name: &'a Name, version: u32) -> [ValueRef<'a>; 2]
    ensures { bound result ≡ version_values name.now version }
{
    [ValueRef::Text(name.as_bytes()), number_value(version)]
}

/// The parameters that say a version and its bytes.
pub(crate) fn model_values<'a>(name: &'a Name, version: u32, bytes: &'a [u8]) -> [ValueRef<'a>; 3]
    ensures { bound result ≡ model_values name.now version bytes.now }
{
    [
        ValueRef::Text(name.as_bytes()),
        number_value(version),
        ValueRef::Blob(bytes),
    ]
}

/// The parameters that say the key of a run.
pub(crate) fn key_values<'a>(key: &'a RunKey) -> [ValueRef<'a>; 4]
    ensures { bound result ≡ key_values key.now }
{
    [
        ValueRef::Text(key.name.as_bytes()),
        number_value(key.version),
        number_value(key.loops),
        ValueRef::Text(format_word(key.format)),
    ]
}

/// The parameters that say a run and its bytes.
pub(crate) fn run_values<'a>(key: &'a RunKey, bytes: &'a [u8]) -> [ValueRef<'a>; 5]
    ensures { bound result ≡ run_values key.now bytes.now }
{
    [
        ValueRef::Text(key.name.as_bytes()),
        number_value(key.version),
        number_value(key.loops),
        ValueRef::Text(format_word(key.format)),
        ValueRef::Blob(bytes),
    ]
}

/// The name that a row of one column stands for.
fn name_of(row: &Row) -> Option<Name>
    ensures { result ≡ name_of (column row.now 0) }
{
    let Ok(ValueRef::Text(text)) = row.get_ref(0) else {
        return None;
    };
    Name::new(text).ok()
}

/// The names that rows of one column stand for.
pub(crate) fn names_in(alloc: Global, rows: &[Row]) -> Result<NameList, Refusal>
    ensures { Reads (names_in rows.now) result }
{
    let mut names = NameList::new(alloc);
    for row in rows {
        let Some(name) = name_of(row) else {
            return Err(Refusal::Failed);
        };
        names.push(name)?;
    }
    Ok(names)
}

/// Whether a row of one column is this whole number.
fn is_number(row: &Row, number: u32) -> bool
    ensures { result ≡ is_number number (column row.now 0) }
{
    let Ok(ValueRef::Int(value)) = row.get_ref(0) else {
        return false;
    };
    value == i64::from(number)
}

/// The number of versions that rows of one column stand for. They have to be the whole numbers from 1
/// on, at most `MOST_VERSIONS`.
pub(crate) fn count_in(rows: &[Row]) -> Result<u32, Refusal>
    ensures { Reads (count_in rows.now) result }
{
    if rows.len() > MOST_VERSIONS as usize {
        return Err(Refusal::Failed);
    }
    let mut count = 0;
    for row in rows {
        count += 1;
        if !is_number(row, count) {
            return Err(Refusal::Failed);
        }
    }
    Ok(count)
}

/// The bytes that a row of one column stands for.
fn bytes_of(alloc: Global, row: &Row) -> Result<ByteList, Refusal>
    ensures { Reads (blob_of (column row.now 0)) result }
{
    let Ok(ValueRef::Blob(blob)) = row.get_ref(0) else {
        return Err(Refusal::Failed);
    };
    let mut bytes = ByteList::new(alloc);
    bytes.extend(blob)?;
    Ok(bytes)
}

/// The bytes of the first row, where there is one.
pub(crate) fn bytes_in(alloc: Global, rows: &[Row]) -> Result<Option<ByteList>, Refusal>
    ensures { Reads (bytes_in rows.now) result }
{
    match rows {
        [] => Ok(None),
        [row, ..] => Ok(Some(bytes_of(alloc, row)?)),
    }
}
