//! Faults of sources, sinks and keepers, and the adapters: what no file and no word can show.
use crate::run::run;
use crate::sinks::{MemorySink, SureSink};
use crate::sources::{MemorySource, SureSource};
use crate::status::Status;
use crate::stream::{Sink, Source, write_all};
use crate::streams::{Reading, Writing};
use contraction_workers::NoGate;
use frac128::{ByteList, FailList};
use register_core::{BrokenKeeper, Keeper, MemoryKeeper};
use std::alloc::{AllocError, Global};
use std::process::Abort;
use std::rc::RcStr;
use std::thread::Threads;

/// Pure SU(3).
const FILE: &[u8] = b"profile = 1\nname = \"ym\"\ngroup = [{name=\"SU3\", n=3, coupling=\"g\"}]\n";

/// Its one-loop beta function.
const TEXT: &[u8] = b"model ym\nloops 1\nbeta1 g = -11*g^3\n";

/// The list of these bytes.
fn list_of(alloc: Global, bytes: &[u8]) -> Result<ByteList, AllocError> {
    let mut list = ByteList::new(alloc);
    list.extend(bytes)?;
    Ok(list)
}

/// The list of this one call.
fn only_call(alloc: Global, number: u64) -> Result<FailList, AllocError> {
    let mut fails = FailList::new(alloc);
    fails.push(number)?;
    Ok(fails)
}

/// Runs the words over a source, a sink and a keeper, and gives the exit code and the sink of the
/// status line.
fn run_with<R: Threads + Sync, S: Source, O: Sink, K: Keeper>(
    rt: &R,
    alloc: Global,
    texts: &[&str],
    source: &mut S,
    out: &mut O,
    keeper: &mut K,
) -> Result<(u8, SureSink), AllocError> {
    let mut words = Vec::new(alloc);
    for text in texts {
        words.push(RcStr::from_str(alloc, text)?)?;
    }
    let status = run(rt, alloc, words.as_slice(), source, out, keeper, &NoGate);
    let mut line = SureSink::new(alloc, 256)?;
    let _ = status.write_line(&mut line);
    Ok((status.code(), line))
}

#[test]
fn failed_reads_and_writes_are_noticed(rt: HostRuntime) -> Result<(), AllocError> {
    let alloc = rt.alloc();
    // The number of the read that fails, the sink's room, the number of the write that fails.
    let rows: [(u64, u32, u64, u8, &[u8], &[u8]); 5] = [
        (1, 256, 9, 3, b"", b"read fault\n"),
        (2, 256, 9, 3, b"", b"read fault\n"),
        (9, 10, 9, 12, b"model ym\nl", b"write fault\n"),
        (9, 256, 1, 12, b"", b"write fault\n"),
        (9, 256, 9, 0, TEXT, b""),
    ];
    for (read, room, write, code, text, line) in rows {
        let mut source = MemorySource::new(list_of(alloc, FILE)?, only_call(alloc, read)?);
        let mut out = MemorySink::new(alloc, room, only_call(alloc, write)?)?;
        let words = ["derive", "1", "text", "1"];
        let mut keeper = BrokenKeeper::new();
        let (got, told) = run_with(&rt, alloc, &words, &mut source, &mut out, &mut keeper)?;
        assert_eq!(rt; got, code);
        assert_eq!(rt; out.bytes(), text);
        assert_eq!(rt; told.bytes().unwrap_or(b"lost"), line);
    }
    Ok(())
}

/// Runs one command over a keeper, and checks how it ends and what it writes.
fn check<R: Threads + Sync + Abort, K: Keeper>(
    rt: &R,
    alloc: Global,
    keeper: &mut K,
    words: &[&str],
    code: u8,
    text: &[u8],
) -> Result<(), AllocError> {
    let mut source = SureSource::new(list_of(alloc, FILE)?);
    let mut out = SureSink::new(alloc, 256)?;
    let (got, _) = run_with(rt, alloc, words, &mut source, &mut out, keeper)?;
    assert_eq!(rt; got, code);
    assert_eq!(rt; out.bytes().unwrap_or(b"lost"), text);
    Ok(())
}

// Storing asks twice for a new name, and a run three times before it keeps its output.
#[test]
fn failed_calls_leave_the_register(rt: HostRuntime) -> Result<(), AllocError> {
    let alloc = rt.alloc();
    let store: &[&str] = &["store", "ym"];
    let run: &[&str] = &["run", "ym", "1", "1", "text", "1"];
    let list: &[&str] = &["list"];
    for call in 1..3 {
        let mut keeper = MemoryKeeper::new(alloc, only_call(alloc, call)?);
        check(&rt, alloc, &mut keeper, store, 11, b"")?;
        check(&rt, alloc, &mut keeper, list, 0, b"")?;
        check(&rt, alloc, &mut keeper, store, 0, b"ym 1\n")?;
    }
    for call in 3..7 {
        let mut keeper = MemoryKeeper::new(alloc, only_call(alloc, call)?);
        check(&rt, alloc, &mut keeper, store, 0, b"ym 1\n")?;
        check(&rt, alloc, &mut keeper, run, 11, b"")?;
        check(&rt, alloc, &mut keeper, run, 0, TEXT)?;
    }
    Ok(())
}

#[test]
fn adapters_pass_bytes_on(rt: HostRuntime) -> Result<(), AllocError> {
    let mut buf = [0u8; 8];
    let mut reading = Reading::new(b"abc".as_slice());
    assert_eq!(rt; reading.read(&mut buf), Ok(3));
    assert_eq!(rt; &buf[..3], b"abc".as_slice());
    assert_eq!(rt; reading.read(&mut buf), Ok(0));
    let mut full = Writing::new(buf.as_mut_slice());
    assert_eq!(rt;
        write_all(&mut full, b"twelve bytes"),
        Err(crate::stream::Failed)
    );
    assert_eq!(rt; full.faults(), 1);
    assert_eq!(rt;
        Status::Usage.write_line(&mut Writing::new(rt.stderr())),
        Ok(())
    );
    assert_eq!(rt; write_all(&mut Writing::new(rt.stdout()), b"out\n"), Ok(()));
    Ok(())
}
