//! The statements over a connection that has no transaction open, and leaves none open.
ghost use Rattle.std.specs.Prelude.{◌≡◌, ◌≤◌, false, IfOk};
ghost use Rattle.register_core.specs.Register.{most_versions};

use crate::refusal::Refusal;
use crate::rows::{
    bytes_in, count_in, key_values, model_values, name_values, names_in, run_values, version_values,
};
use crate::statements::{
    ADD_MODEL, KEEP_RUN, KEPT_RUN, LOOPS, MAKE_MODEL, MAKE_RUN, MODEL, NAMES, VERSIONS,
};
use frac128::ByteList;
use model_core::{Name, NameList};
use register_core::{MOST_VERSIONS, RunKey};
use sqlite::types::ValueRef;
use sqlite::{Alter, Connection, Error, Row, Transaction};
use std::alloc::Global;

/// The rows that a query shows.
fn ask<D: Alter>(
    connection: &mut Connection<D>,
    query: &str,
    values: &[ValueRef<'_>],
) -> Result<Vec<Row>, Error>
    requires idle { connection.old.in_transaction ≡ false }
    ensures idle { connection.new.in_transaction ≡ false }
{
    connection.query_all(query, values)
}

/// Makes the tables that aren't there.
pub(crate) fn make_tables<D: Alter>(connection: &mut Connection<D>) -> Result<(), Refusal>
    requires idle { connection.old.in_transaction ≡ false }
    ensures idle { connection.new.in_transaction ≡ false }
{
    let mut change = connection.transaction();
    change.execute(MAKE_MODEL, &[])?;
    change.execute(MAKE_RUN, &[])?;
    change.commit()?;
    Ok(())
}

/// The names that have a version, in byte order.
pub(crate) fn names<D: Alter>(
    connection: &mut Connection<D>,
    alloc: Global,
) -> Result<NameList, Refusal>
    requires idle { connection.old.in_transaction ≡ false }
    ensures idle { connection.new.in_transaction ≡ false }
{
    let rows = ask(connection, NAMES, &[])?;
    names_in(alloc, rows.as_slice())
}

/// The number of versions that a name has.
pub(crate) fn versions<D: Alter>(
    connection: &mut Connection<D>,
    name: &Name,
) -> Result<u32, Refusal>
    requires idle { connection.old.in_transaction ≡ false }
    ensures idle { connection.new.in_transaction ≡ false }
{
    let rows = ask(connection, VERSIONS, &name_values(name))?;
    count_in(rows.as_slice())
}

/// The bytes of a version, where it is there.
pub(crate) fn model<D: Alter>(
    connection: &mut Connection<D>,
    alloc: Global,
    name: &Name,
    version: u32,
) -> Result<Option<ByteList>, Refusal>
    requires idle { connection.old.in_transaction ≡ false }
    ensures idle { connection.new.in_transaction ≡ false }
{
    let rows = ask(connection, MODEL, &version_values(name, version))?;
    bytes_in(alloc, rows.as_slice())
}

/// The number of the version that a name has room for. No output may be there for it.
fn next_version<D: Alter>(change: &mut Transaction<'_, D>, name: &Name) -> Result<u32, Refusal>
    ensures same_reference { change.new.conn.ghost_name ≡ change.old.conn.ghost_name }
    ensures number { IfOk result (λ number. (1 ≤ number) × (number ≤ most_versions)) }
{
    let rows = change.query_all(VERSIONS, &name_values(name))?;
    let count = count_in(rows.as_slice())?;
    if count == MOST_VERSIONS {
        return Err(Refusal::Failed);
    }
    let runs = change.query_all(LOOPS, &version_values(name, count + 1))?;
    if !runs.is_empty() {
        return Err(Refusal::Failed);
    }
    Ok(count + 1)
}

/// Adds a version to a name.
pub(crate) fn add_model<D: Alter>(
    connection: &mut Connection<D>,
    name: &Name,
    bytes: &[u8],
) -> Result<(), Refusal>
    requires idle { connection.old.in_transaction ≡ false }
    ensures idle { connection.new.in_transaction ≡ false }
{
    let mut change = connection.transaction();
    let version = next_version(&mut change, name)?;
    change.execute(ADD_MODEL, &model_values(name, version, bytes))?;
    change.commit()?;
    Ok(())
}

/// The output that is kept under a key, where there is one.
pub(crate) fn kept_run<D: Alter>(
    connection: &mut Connection<D>,
    alloc: Global,
    key: &RunKey,
) -> Result<Option<ByteList>, Refusal>
    requires idle { connection.old.in_transaction ≡ false }
    ensures idle { connection.new.in_transaction ≡ false }
{
    let rows = ask(connection, KEPT_RUN, &key_values(key))?;
    bytes_in(alloc, rows.as_slice())
}

/// Keeps an output, where its key has none.
pub(crate) fn keep_run<D: Alter>(
    connection: &mut Connection<D>,
    key: &RunKey,
    bytes: &[u8],
) -> Result<(), Refusal>
    requires idle { connection.old.in_transaction ≡ false }
    ensures idle { connection.new.in_transaction ≡ false }
{
    let mut change = connection.transaction();
    change.execute(KEEP_RUN, &run_values(key, bytes))?;
    change.commit()?;
    Ok(())
}
