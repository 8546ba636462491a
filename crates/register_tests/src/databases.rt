//! Worked examples over databases in memory.
ghost use Rattle.register_core.specs.Register.{HasLoops};

use frac128::ByteList;
use model_core::{Format, Name};
use register_core::{KeepFault, Keeper, RunKey};
use register_sqlite::SqliteKeeper;
use sqlite::{Connection, MemStore};
use std::alloc::Global;
use std::process::Abort;
use std::test::Fail;

/// A connection to a database in memory.
type Memory = Connection<MemStore>;

/// The name with this text.
fn name_of<R: Abort>(rt: &R, text: &[u8]) -> Name {
    Name::new(text).ok().expect(rt, "a name")
}

/// The key of a run, of one loop or two.
fn key_of<R: Abort>(rt: &R, text: &[u8], version: u32, loops: u32, format: Format) -> RunKey
    ensures { HasLoops result }
{
    assert!(rt; loops == 1 || loops == 2);
    RunKey {
        name: name_of(rt, text),
        version,
        loops,
        format,
    }
}

/// The keeper over a connection.
fn keeper_over<R: Abort>(rt: &R, connection: Memory) -> SqliteKeeper<MemStore> {
    SqliteKeeper::new(connection).ok().expect(rt, "a keeper")
}

/// A connection to a database where these statements ran after the tables were made.
fn prepared<R: Abort>(rt: &R, alloc: Global, sql: &str) -> Result<Memory, Fail> {
    let mut connection = keeper_over(rt, Connection::open_in_memory(alloc)?).into_connection();
    connection.execute_batch(sql)?;
    Ok(connection)
}

/// The bytes that were found, or `none`.
fn found(answer: &Option<ByteList>) -> &[u8] {
    match answer {
        Some(bytes) => bytes.as_slice(),
        None => b"none".as_slice(),
    }
}

/// Each row of both tables as a text.
const ROWS: &str =
    "SELECT name || ' ' || version || ' ' || hex(bytes) FROM model UNION ALL SELECT name || ' ' || version || ' ' || loops || ' ' || format || ' ' || hex(bytes) FROM run";

/// The rows of both tables, each with a comma behind it.
fn rows_in(alloc: Global, connection: &mut Memory) -> Result<String, Fail> {
    let mut text = String::new(alloc);
    for row in connection.query_all(ROWS, &[])?.as_slice() {
        let line: String = row.get(0)?;
        text.push_str(line.as_str())?;
        text.push_str(",")?;
    }
    Ok(text)
}

/// Looks whether these are the rows of both tables.
fn check_rows<R: Abort>(
    rt: &R,
    alloc: Global,
    connection: &mut Memory,
    rows: &str,
) -> Result<(), Fail> {
    let text = rows_in(alloc, connection)?;
    assert_eq!(rt; text.as_str(), rows);
    Ok(())
}

/// Makes the call that a word names, for the name `ym`, and answers its fault.
fn fault_of_call<R: Abort>(
    rt: &R,
    alloc: Global,
    keeper: &mut SqliteKeeper<MemStore>,
    call: &str,
) -> Option<KeepFault> {
    let name = name_of(rt, b"ym");
    let key = key_of(rt, b"ym", 1, 1, Format::Text);
    match call {
        "names" => keeper.names(alloc).err(),
        "versions" => keeper.versions(alloc, &name).err(),
        "model" => keeper.model(alloc, &name, 1).err(),
        "add_model" => keeper.add_model(alloc, &name, b"new").err(),
        "kept_run" => keeper.kept_run(alloc, &key).err(),
        _ => keeper.keep_run(alloc, &key, b"new").err(),
    }
}

/// Makes a call, which has to fail, be counted and leave the rows.
fn check_failed<R: Abort>(
    rt: &R,
    alloc: Global,
    call: &str,
    rows: &str,
    connection: Memory,
) -> Result<(), Fail> {
    let mut keeper = keeper_over(rt, connection);
    let fault = fault_of_call(rt, alloc, &mut keeper, call);
    assert_eq!(rt; fault, Some(KeepFault::Failed));
    assert_eq!(rt; keeper.faults(), 1);
    check_rows(rt, alloc, &mut keeper.into_connection(), rows)
}

#[test]
fn a_fresh_database_is_empty(rt: HostRuntime) -> Result<(), Fail> {
    let alloc = rt.alloc();
    let mut keeper = keeper_over(&rt, Connection::open_in_memory(alloc)?);
    let name = name_of(&rt, b"ym");
    assert_eq!(rt; keeper.names(alloc)?.len(), 0);
    assert_eq!(rt; keeper.versions(alloc, &name)?, 0);
    assert_eq!(rt; found(&keeper.model(alloc, &name, 1)?), b"none".as_slice());
    let key = key_of(&rt, b"ym", 1, 1, Format::Text);
    assert_eq!(rt; found(&keeper.kept_run(alloc, &key)?), b"none".as_slice());
    assert_eq!(rt; keeper.faults(), 0);
    check_rows(&rt, alloc, &mut keeper.into_connection(), "")
}

/// Adds five versions of four names.
fn fill<R: Abort>(rt: &R, alloc: Global, keeper: &mut SqliteKeeper<MemStore>) -> Result<(), Fail> {
    let rows: [(&[u8], &[u8]); 5] = [
        (b"ym", b"one"),
        (b"ym", b"two"),
        (b"a_", b""),
        (b"Zz", b"one"),
        (b"a1", b"\x00'"),
    ];
    for (text, bytes) in rows {
        keeper.add_model(alloc, &name_of(rt, text), bytes)?;
    }
    Ok(())
}

#[test]
fn versions_are_kept(rt: HostRuntime) -> Result<(), Fail> {
    let alloc = rt.alloc();
    let mut keeper = keeper_over(&rt, Connection::open_in_memory(alloc)?);
    fill(&rt, alloc, &mut keeper)?;
    let counts: [(&[u8], u32); 4] = [(b"Zz", 1), (b"a1", 1), (b"a_", 1), (b"ym", 2)];
    let names = keeper.names(alloc)?;
    assert_eq!(rt; names.len(), 4);
    for (name, (text, count)) in names.as_slice().iter().zip(counts) {
        assert_eq!(rt; name.as_bytes(), text);
        assert_eq!(rt; keeper.versions(alloc, name)?, count);
    }
    let shown: [(&[u8], u32, &[u8]); 6] = [
        (b"ym", 1, b"one"),
        (b"ym", 2, b"two"),
        (b"ym", 0, b"none"),
        (b"ym", u32::MAX, b"none"),
        (b"a1", 1, b"\x00'"),
        (b"qed", 1, b"none"),
    ];
    for (text, version, bytes) in shown {
        let answer = keeper.model(alloc, &name_of(&rt, text), version)?;
        assert_eq!(rt; found(&answer), bytes);
    }
    assert_eq!(rt; keeper.faults(), 0);
    let mut connection = keeper.into_connection();
    check_rows(
        &rt,
        alloc,
        &mut connection,
        "ym 1 6F6E65,ym 2 74776F,a_ 1 ,Zz 1 6F6E65,a1 1 0027,",
    )
}

#[test]
fn runs_are_kept_by_their_keys(rt: HostRuntime) -> Result<(), Fail> {
    let alloc = rt.alloc();
    let mut keeper = keeper_over(&rt, Connection::open_in_memory(alloc)?);
    fill(&rt, alloc, &mut keeper)?;
    let kept: [(u32, u32, Format, &[u8]); 4] = [
        (1, 2, Format::Latex, b"first"),
        (1, 2, Format::Latex, b"again"),
        (1, 1, Format::Csv, b""),
        (2, 2, Format::Text, b"text"),
    ];
    for (version, loops, format, bytes) in kept {
        keeper.keep_run(alloc, &key_of(&rt, b"ym", version, loops, format), bytes)?;
    }
    let shown: [(&[u8], u32, u32, Format, &[u8]); 5] = [
        (b"ym", 1, 2, Format::Latex, b"first"),
        (b"ym", 1, 1, Format::Csv, b""),
        (b"ym", 1, 1, Format::Latex, b"none"),
        (b"ym", 1, 2, Format::Text, b"none"),
        (b"a1", 1, 2, Format::Latex, b"none"),
    ];
    for (text, version, loops, format, bytes) in shown {
        let answer = keeper.kept_run(alloc, &key_of(&rt, text, version, loops, format))?;
        assert_eq!(rt; found(&answer), bytes);
    }
    let orphan = keeper.keep_run(alloc, &key_of(&rt, b"ym", 3, 1, Format::Text), b"new");
    assert_eq!(rt; orphan.err(), Some(KeepFault::Failed));
    assert_eq!(rt; keeper.faults(), 1);
    let rows =
        "ym 1 6F6E65,ym 2 74776F,a_ 1 ,Zz 1 6F6E65,a1 1 0027,ym 1 2 latex 6669727374,ym 1 1 csv ,ym 2 2 text 74657874,";
    let mut connection = keeper.into_connection();
    check_rows(&rt, alloc, &mut connection, rows)?;
    check_rows(
        &rt,
        alloc,
        &mut keeper_over(&rt, connection).into_connection(),
        rows,
    )
}

/// Tables of the two names that take rows of any form.
const LOOSE: &str =
    "DROP TABLE run; DROP TABLE model; CREATE TABLE model (name, version, bytes); CREATE TABLE run (name, version, loops, format, bytes);";

/// Runs statements in the tables as they are made, and then makes a call, which has to fail.
fn check_strict<R: Abort>(
    rt: &R,
    alloc: Global,
    sql: &str,
    call: &str,
    rows: &str,
) -> Result<(), Fail> {
    check_failed(rt, alloc, call, rows, prepared(rt, alloc, sql)?)
}

/// Runs statements in tables that take any row, and then makes a call, which has to fail.
fn check_loose<R: Abort>(
    rt: &R,
    alloc: Global,
    sql: &str,
    call: &str,
    rows: &str,
) -> Result<(), Fail> {
    let mut connection = prepared(rt, alloc, LOOSE)?;
    connection.execute_batch(sql)?;
    check_failed(rt, alloc, call, rows, connection)
}

/// Statements for the tables as they are made, a call that fails then, and the rows that are left.
const WRONG_ROWS: [(&str, &str, &str); 8] = [
    (
        "INSERT INTO model VALUES ('y-m', 1, x'00')",
        "names",
        "y-m 1 00,",
    ),
    ("INSERT INTO model VALUES ('', 1, x'00')", "names", " 1 00,"),
    (
        "INSERT INTO model VALUES ('eps', 1, x'00')",
        "names",
        "eps 1 00,",
    ),
    (
        "INSERT INTO model VALUES ('ym', 1, x'00'), ('ym', 3, x'01')",
        "versions",
        "ym 1 00,ym 3 01,",
    ),
    (
        "INSERT INTO model VALUES ('ym', 1, x'00'), ('ym', 3, x'01')",
        "add_model",
        "ym 1 00,ym 3 01,",
    ),
    (
        "INSERT INTO model VALUES ('ym', 2, x'00')",
        "versions",
        "ym 2 00,",
    ),
    (
        "INSERT INTO model VALUES ('ym', 0, x'00')",
        "versions",
        "ym 0 00,",
    ),
    (
        "INSERT INTO model VALUES ('ym', -1, x'00')",
        "add_model",
        "ym -1 00,",
    ),
];

/// The same for tables that take any row.
const WRONG_TYPES: [(&str, &str, &str); 8] = [
    ("INSERT INTO model VALUES (1, 1, x'00')", "names", "1 1 00,"),
    (
        "INSERT INTO model VALUES (x'796D', 1, x'00')",
        "names",
        "ym 1 00,",
    ),
    (
        "INSERT INTO model VALUES ('ym', 1, 'AB')",
        "model",
        "ym 1 4142,",
    ),
    (
        "INSERT INTO model VALUES ('ym', 1.0, x'00')",
        "versions",
        "ym 1.0 00,",
    ),
    (
        "INSERT INTO model VALUES ('ym', 1, x'00'), ('ym', 1, x'00')",
        "versions",
        "ym 1 00,ym 1 00,",
    ),
    (
        "INSERT INTO run VALUES ('ym', 1, 1, 'text', 'AB')",
        "kept_run",
        "ym 1 1 text 4142,",
    ),
    (
        "INSERT INTO run VALUES ('ym', 1, 1, 'text', x'00')",
        "add_model",
        "ym 1 1 text 00,",
    ),
    (
        "INSERT INTO run VALUES ('ym', 1, 'many', '', '')",
        "add_model",
        "ym 1 many  ,",
    ),
];

#[test]
fn rows_of_a_wrong_form_are_faults(rt: HostRuntime) -> Result<(), Fail> {
    let alloc = rt.alloc();
    for (sql, call, rows) in WRONG_ROWS {
        check_strict(&rt, alloc, sql, call, rows)?;
    }
    for (sql, call, rows) in WRONG_TYPES {
        check_loose(&rt, alloc, sql, call, rows)?;
    }
    Ok(())
}

/// A name with 10,000 versions, beside a table of digits.
const FULL: &str =
    "CREATE TABLE digit (n INTEGER) STRICT; INSERT INTO digit VALUES (0), (1), (2), (3), (4), (5), (6), (7), (8), (9); INSERT INTO model SELECT 'ym', 1 + a.n + 10 * b.n + 100 * c.n + 1000 * d.n, x'' FROM digit a, digit b, digit c, digit d";

#[test]
fn a_full_name_takes_no_version(rt: HostRuntime) -> Result<(), Fail> {
    let alloc = rt.alloc();
    let mut keeper = keeper_over(&rt, prepared(&rt, alloc, FULL)?);
    let name = name_of(&rt, b"ym");
    assert_eq!(rt; keeper.versions(alloc, &name)?, 10_000);
    assert_eq!(rt;
        fault_of_call(&rt, alloc, &mut keeper, "add_model"),
        Some(KeepFault::Failed)
    );
    assert_eq!(rt; keeper.faults(), 1);
    assert_eq!(rt; keeper.versions(alloc, &name)?, 10_000);
    let mut connection = keeper.into_connection();
    connection.execute_batch("INSERT INTO model VALUES ('ym', 10001, x'')")?;
    let mut keeper = keeper_over(&rt, connection);
    assert_eq!(rt;
        fault_of_call(&rt, alloc, &mut keeper, "versions"),
        Some(KeepFault::Failed)
    );
    assert_eq!(rt; keeper.faults(), 1);
    Ok(())
}

#[test]
fn tables_are_made_once(rt: HostRuntime) -> Result<(), Fail> {
    let alloc = rt.alloc();
    let mut connection = Connection::open_in_memory(alloc)?;
    connection.execute_batch("CREATE TABLE other (a); INSERT INTO other VALUES (7)")?;
    let mut keeper = keeper_over(&rt, connection);
    keeper.add_model(alloc, &name_of(&rt, b"ym"), b"one")?;
    let connection = keeper.into_connection();
    let mut keeper = keeper_over(&rt, connection);
    keeper.add_model(alloc, &name_of(&rt, b"ym"), b"two")?;
    let mut connection = keeper_over(&rt, keeper.into_connection()).into_connection();
    check_rows(&rt, alloc, &mut connection, "ym 1 6F6E65,ym 2 74776F,")?;
    let other: i64 = connection.query_row("SELECT a FROM other", &[])?.get(0)?;
    assert_eq!(rt; other, 7);
    Ok(())
}

/// The connection that a keeper's making handed back, with a fault of the keeper.
fn refused<R: Abort>(rt: &R, connection: Memory) -> Memory {
    let Err((fault, connection)) = SqliteKeeper::new(connection) else {
        panic!(rt; "a keeper was made");
    };
    assert_eq!(rt; fault, KeepFault::Failed);
    connection
}

#[test]
fn an_open_transaction_is_refused(rt: HostRuntime) -> Result<(), Fail> {
    let alloc = rt.alloc();
    let mut connection = Connection::open_in_memory(alloc)?;
    connection.execute("BEGIN", &[])?;
    let mut connection = refused(&rt, connection);
    assert!(rt; !connection.is_autocommit());
    connection.execute("ROLLBACK", &[])?;
    check_rows(
        &rt,
        alloc,
        &mut keeper_over(&rt, connection).into_connection(),
        "",
    )
}

#[test]
fn an_index_in_the_way_is_refused(rt: HostRuntime) -> Result<(), Fail> {
    let alloc = rt.alloc();
    let mut connection = Connection::open_in_memory(alloc)?;
    connection.execute_batch("CREATE TABLE other (a); CREATE INDEX run ON other (a)")?;
    let mut connection = refused(&rt, connection);
    assert!(rt; connection.is_autocommit());
    assert!(rt;
        connection
            .query_row("SELECT count(*) FROM model", &[])
            .is_err()
    );
    connection.execute("DROP INDEX run", &[])?;
    check_rows(
        &rt,
        alloc,
        &mut keeper_over(&rt, connection).into_connection(),
        "",
    )
}

#[test]
fn a_view_stands_for_a_table(rt: HostRuntime) -> Result<(), Fail> {
    let alloc = rt.alloc();
    let mut connection = Connection::open_in_memory(alloc)?;
    connection.execute_batch(
        "CREATE VIEW model AS SELECT 'ym' AS name, 1 AS version, x'00' AS bytes",
    )?;
    let mut keeper = keeper_over(&rt, connection);
    let name = name_of(&rt, b"ym");
    assert_eq!(rt; keeper.versions(alloc, &name)?, 1);
    assert_eq!(rt; found(&keeper.model(alloc, &name, 1)?), b"\0".as_slice());
    assert_eq!(rt;
        fault_of_call(&rt, alloc, &mut keeper, "add_model"),
        Some(KeepFault::Failed)
    );
    assert_eq!(rt;
        fault_of_call(&rt, alloc, &mut keeper, "keep_run"),
        Some(KeepFault::Failed)
    );
    assert_eq!(rt; keeper.faults(), 2);
    check_rows(&rt, alloc, &mut keeper.into_connection(), "ym 1 00,")
}
