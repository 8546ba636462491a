//! Beta functions of a gauge model file, from the command line.
#![tactic(auto)]

ghost use Rattle.std.specs.Prelude.{◌≡◌, ◌⊎◌, map, string_bytes, IfOk, IfErr};
ghost use Rattle.std.specs.Vec.Iter.{into_iter_items};
ghost use Rattle.rate_tool.specs.Words.{texts};

mod fault_lines;
mod laws;
mod lines;
mod reading;
mod reply;
mod room;
mod run;
mod sinks;
mod sources;
mod status;
mod stream;
mod streams;
#[cfg(test)]
mod tests;
mod words;

use contraction_workers::NoGate;
use register_core::{BrokenKeeper, Keeper};
use register_sqlite::SqliteKeeper;
use run::run;
use sqlite::{Alter, Connection};
use status::Status;
use std::alloc::{AllocError, Global};
use std::env::{self, Args};
use std::io;
use std::process::ExitCode;
use std::rc::RcStr;
use std::thread::Threads;
use streams::{Reading, Writing};

/// The path that stands for a register in memory.
const IN_MEMORY: &str = "-";

/// A command line behind the program's name.
#[derive(Drop)]
struct CommandLine {
    /// The path of the register's file.
    path: RcStr,
    /// The command.
    words: Vec<RcStr>,
}

/// The words that are left of a command line.
fn kept_words(alloc: Global, left: Args<Global>) -> Result<Vec<RcStr>, AllocError>
    ensures { IfOk result (λ words. texts words.items ≡ map string_bytes (into_iter_items left)) }
{
    let mut words = Vec::new(alloc);
    for word in left {
        words.push(RcStr::from_string(word)?)?;
    }
    Ok(words)
}

/// The command line. `Usage` comes where there is no path, and where a word is no text.
fn command_line(rt: &HostRuntime) -> Result<CommandLine, Status>
    ensures { IfErr result (λ status. (status ≡ Status.Usage) ⊎ (status ≡ Status.NoMemory)) }
{
    let mut all = match env::args(rt) {
        Ok(all) => all,
        Err(error) if error.kind() == io::ErrorKind::OutOfMemory => return Err(Status::NoMemory),
        Err(_) => return Err(Status::Usage),
    };
    let _name = all.next();
    let Some(path) = all.next() else {
        return Err(Status::Usage);
    };
    let Ok(path) = RcStr::from_string(path) else {
        return Err(Status::NoMemory);
    };
    match kept_words(rt.alloc(), all) {
        Ok(words) => Ok(CommandLine { path, words }),
        Err(AllocError) => Err(Status::NoMemory),
    }
}

/// Runs the words over standard input, standard output and a keeper.
fn run_over<R: Threads + Sync, K: Keeper>(
    rt: &HostRuntime,
    threads: &R,
    words: &[RcStr],
    keeper: &mut K,
) -> Status {
    run(
        threads,
        rt.alloc(),
        words,
        &mut Reading::new(rt.stdin()),
        &mut Writing::new(rt.stdout()),
        keeper,
        &NoGate,
    )
}

/// Runs the words beside a keeper that fails at each call.
fn run_without<R: Threads + Sync>(rt: &HostRuntime, threads: &R, words: &[RcStr]) -> Status {
    run_over(rt, threads, words, &mut BrokenKeeper::new())
}

/// Runs the words over the register in a database, and hands the connection back.
fn run_on<R: Threads + Sync, D: Alter + Drop>(
    rt: &HostRuntime,
    threads: &R,
    words: &[RcStr],
    connection: Connection<D>,
) -> (Status, Connection<D>) {
    match SqliteKeeper::new(connection) {
        Ok(mut keeper) => {
            let status = run_over(rt, threads, words, &mut keeper);
            (status, keeper.into_connection())
        }
        Err((_, connection)) => (run_without(rt, threads, words), connection),
    }
}

/// Runs the words over an empty register in memory.
fn run_in_memory<R: Threads + Sync>(rt: &HostRuntime, threads: &R, words: &[RcStr]) -> Status {
    match Connection::open_in_memory(rt.alloc()) {
        Ok(connection) => run_on(rt, threads, words, connection).0,
        Err(AllocError) => run_without(rt, threads, words),
    }
}

/// Runs the words over the register in a file, which is made where there is none. What was kept is
/// in the file or in its log before the call returns.
fn run_on_file<R: Threads + Sync>(
    rt: &HostRuntime,
    threads: &R,
    path: &str,
    words: &[RcStr],
) -> Status {
    match Connection::open(rt, path) {
        Ok(connection) => {
            let (status, connection) = run_on(rt, threads, words, connection);
            let _ = connection.close();
            status
        }
        Err(_) => run_without(rt, threads, words),
    }
}

/// Runs a command line.
fn run_line<R: Threads + Sync>(rt: &HostRuntime, threads: &R, line: &CommandLine) -> Status {
    if line.path.as_str() == IN_MEMORY {
        run_in_memory(rt, threads, line.words.as_slice())
    } else {
        run_on_file(rt, threads, line.path.as_str(), line.words.as_slice())
    }
}

fn main(rt: HostRuntime) -> ExitCode {
    let status = match command_line(&rt) {
        Ok(line) => run_line(&rt, &rt, &line),
        Err(status) => status,
    };
    let _ = status.write_line(&mut Writing::new(rt.stderr()));
    ExitCode::from(status.code())
}
