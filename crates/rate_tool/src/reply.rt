//! What a command replies before anything is written.
ghost use Rattle.std.specs.Prelude.{◌≡◌, ◌≤◌, false, OnErr, IsSome};
ghost use Rattle.demo_models.specs.Demo.{demo_text};
ghost use Rattle.register_core.specs.Causes.{Stays};
ghost use Rattle.register_core.specs.Register.{version_of};
ghost use Rattle.rate_tool.specs.Reply.{IsPrinting, IsAcceptance, IsSummary, most_asked};
ghost use Rattle.rate_tool.specs.Stream.{GaveFew};
ghost use Rattle.rate_tool.specs.Steps.{AnswerEnds, FreshEnds, KeeperEnds, MadeEnds, ReplyEnds, SourceEnds, bytes_of, written};
ghost use Rattle.rate_tool.specs.Words.{HasNumbers, asks_keeper, reads_source};

use crate::lines::{print_accepted, print_counts, print_summary, stored_line};
use crate::reading::read_all;
use crate::status::Status;
use crate::stream::Source;
use crate::words::Command;
use contraction_workers::Gate;
use demo_models::demo;
use derive_core::{DeriveFault, check, derive};
use frac128::ByteList;
use model_core::{Format, Name};
use model_reader::read_model;
use print_beta::{LineText, print};
use register_core::{Keeper, RunKey, RunState, keep_run, list, run_kept, show, store};
use std::alloc::Global;
use std::thread::Threads;

/// How many workers the command `demo` has.
const DEMO_WORKERS: u32 = 4;

/// What a command writes.
#[derive(Drop)]
pub enum Reply {
    /// A line, which takes no memory.
    Line(LineText),
    /// A text.
    Text(ByteList),
}

impl Reply {
    /// The bytes.
    pub fn as_slice(&self) -> &[u8]
        ensures { result.now ≡ bytes_of self.now }
    {
        match self {
            Reply::Line(line) => line.as_slice(),
            Reply::Text(text) => text.as_slice(),
        }
    }
}

/// The printed beta functions of a file, to so many loops.
fn derived_text<R: Threads + Sync, G: Gate>(
    rt: &R,
    alloc: Global,
    loops: u32,
    format: Format,
    workers: u32,
    file: &[u8],
    gate: &G,
) -> Result<ByteList, DeriveFault>
    requires one_loop { 1 ≤ loops }
    requires loops { loops ≤ 2 }
    requires one_worker { 1 ≤ workers }
    requires workers { workers ≤ 64 }
    ensures { AnswerEnds (IsPrinting loops format) file.now result }
{
    let betas = derive(rt, alloc, file, loops, workers, gate)?;
    let text = print(alloc, &betas, format)?;
    Ok(text)
}

/// What is written of a file that is accepted.
fn checked_text<R: Threads + Sync, G: Gate>(
    rt: &R,
    alloc: Global,
    file: &[u8],
    gate: &G,
) -> Result<ByteList, DeriveFault>
    ensures { AnswerEnds IsAcceptance file.now result }
{
    let found = check(rt, alloc, file, 1, gate)?;
    let text = print_accepted(alloc, &found)?;
    Ok(text)
}

/// What is told of the beta functions of a file that was made of a seed.
fn summary_text<R: Threads + Sync, G: Gate>(
    rt: &R,
    alloc: Global,
    seed: u64,
    file: &[u8],
    gate: &G,
) -> Result<ByteList, DeriveFault>
    ensures { AnswerEnds (IsSummary seed) file.now result }
{
    let betas = derive(rt, alloc, file, 2, DEMO_WORKERS, gate)?;
    let text = print_summary(alloc, seed, &betas)?;
    Ok(text)
}

/// Reads the source's file and derives its beta functions.
fn derive_reply<R: Threads + Sync, S: Source, G: Gate>(
    rt: &R,
    alloc: Global,
    loops: u32,
    format: Format,
    workers: u32,
    source: &mut S,
    gate: &G,
) -> Result<ByteList, Status>
    requires one_loop { 1 ≤ loops }
    requires loops { loops ≤ 2 }
    requires one_worker { 1 ≤ workers }
    requires workers { workers ≤ 64 }
    ensures ended { SourceEnds (IsPrinting loops format) (S.left source.old) (S.left source.new) (S.faults source.old) (S.faults source.new) result }
    ensures few { GaveFew most_asked (S.left source.old) (S.left source.new) }
{
    let file = read_all(alloc, source)?;
    let text = derived_text(rt, alloc, loops, format, workers, file.as_slice(), gate)?;
    Ok(text)
}

/// Reads the source's file and checks it.
fn check_reply<R: Threads + Sync, S: Source, G: Gate>(
    rt: &R,
    alloc: Global,
    source: &mut S,
    gate: &G,
) -> Result<ByteList, Status>
    ensures ended { SourceEnds IsAcceptance (S.left source.old) (S.left source.new) (S.faults source.old) (S.faults source.new) result }
    ensures few { GaveFew most_asked (S.left source.old) (S.left source.new) }
{
    let file = read_all(alloc, source)?;
    let text = checked_text(rt, alloc, file.as_slice(), gate)?;
    Ok(text)
}

/// Makes the file of a seed and tells how much there is of its beta functions.
fn demo_reply<R: Threads + Sync, G: Gate>(
    rt: &R,
    alloc: Global,
    seed: u64,
    gate: &G,
) -> Result<ByteList, Status>
    ensures { MadeEnds (IsSummary seed) (demo_text seed) result }
{
    let file = demo(alloc, seed)?;
    let text = summary_text(rt, alloc, seed, file.as_slice(), gate)?;
    Ok(text)
}

/// Reads the source's file and stores it under a name, where it stands for a model.
fn store_reply<S: Source, K: Keeper>(
    alloc: Global,
    name: &Name,
    source: &mut S,
    keeper: &mut K,
) -> Result<LineText, Status>
    ensures ended { ReplyEnds (K.is_told keeper.new) (Command.Store name.now) (record {
      left = S.left source.old;
      left' = S.left source.new;
      register = K.tables keeper.old;
      register' = K.tables keeper.new;
    }) (record {
      reads = S.faults source.old;
      reads' = S.faults source.new;
      keeps = K.faults keeper.old;
      keeps' = K.faults keeper.new;
    }) result }
    ensures told { K.is_told keeper.new → K.is_told keeper.old }
    ensures same { OnErr result (Stays K.is_told K.tables keeper.old keeper.new) }
    ensures few { GaveFew most_asked (S.left source.old) (S.left source.new) }
{
    let file = read_all(alloc, source)?;
    read_model(alloc, file.as_slice())?;
    let version = store(alloc, keeper, name, file.as_slice())?;
    Ok(stored_line(name, version))
}

/// The bytes of a version.
fn show_reply<K: Keeper>(
    alloc: Global,
    name: &Name,
    version: u32,
    keeper: &mut K,
) -> Result<ByteList, Status>
    ensures ended { KeeperEnds (K.is_told keeper.new) (Command.Show name.now version) (K.tables keeper.old) (K.tables keeper.new) (K.faults keeper.old) (K.faults keeper.new) result }
    ensures told { K.is_told keeper.new → K.is_told keeper.old }
    ensures same { OnErr result (Stays K.is_told K.tables keeper.old keeper.new) }
{
    let bytes = show(alloc, keeper, name, version)?;
    Ok(bytes)
}

/// Each name with its number of versions.
fn list_reply<K: Keeper>(alloc: Global, keeper: &mut K) -> Result<ByteList, Status>
    ensures ended { KeeperEnds (K.is_told keeper.new) Command.Listing (K.tables keeper.old) (K.tables keeper.new) (K.faults keeper.old) (K.faults keeper.new) result }
    ensures told { K.is_told keeper.new → K.is_told keeper.old }
    ensures same { OnErr result (Stays K.is_told K.tables keeper.old keeper.new) }
{
    let counts = list(alloc, keeper)?;
    let text = print_counts(alloc, &counts)?;
    Ok(text)
}

/// Derives a version's bytes, and keeps the output.
fn fresh_output<R: Threads + Sync, K: Keeper, G: Gate>(
    rt: &R,
    alloc: Global,
    key: &RunKey,
    workers: u32,
    file: &[u8],
    keeper: &mut K,
    gate: &G,
) -> Result<ByteList, Status>
    requires numbers { HasNumbers (Command.Run key.now workers) }
    requires version { K.is_told keeper.old → IsSome (version_of (K.tables keeper.old) key.now.name key.now.version) }
    ensures ended { FreshEnds (K.is_told keeper.new) key.now file.now (K.tables keeper.old) (K.tables keeper.new) (K.faults keeper.old) (K.faults keeper.new) result }
    ensures told { K.is_told keeper.new → K.is_told keeper.old }
    ensures same { OnErr result (Stays K.is_told K.tables keeper.old keeper.new) }
{
    let text = derived_text(rt, alloc, key.loops, key.format, workers, file, gate)?;
    keep_run(alloc, keeper, key, text.as_slice())?;
    Ok(text)
}

/// The output that is kept under a key, or else that of the version's bytes, which is kept then.
fn run_reply<R: Threads + Sync, K: Keeper, G: Gate>(
    rt: &R,
    alloc: Global,
    key: &RunKey,
    workers: u32,
    keeper: &mut K,
    gate: &G,
) -> Result<ByteList, Status>
    requires { HasNumbers (Command.Run key.now workers) }
    ensures ended { KeeperEnds (K.is_told keeper.new) (Command.Run key.now workers) (K.tables keeper.old) (K.tables keeper.new) (K.faults keeper.old) (K.faults keeper.new) result }
    ensures told { K.is_told keeper.new → K.is_told keeper.old }
    ensures same { OnErr result (Stays K.is_told K.tables keeper.old keeper.new) }
{
    match run_kept(alloc, keeper, key)? {
        RunState::Kept(output) => Ok(output),
        RunState::Fresh(file) => {
            fresh_output(rt, alloc, key, workers, file.as_slice(), keeper, gate)
        }
    }
}

/// A text as a reply.
fn text_of(found: Result<ByteList, Status>) -> Result<Reply, Status>
    ensures { written result ≡ found }
{
    Ok(Reply::Text(found?))
}

/// A line as a reply.
fn line_of(found: Result<LineText, Status>) -> Result<Reply, Status>
    ensures { written result ≡ found }
{
    Ok(Reply::Line(found?))
}

/// What a command replies, before anything is written.
pub fn reply_to<R: Threads + Sync, S: Source, K: Keeper, G: Gate>(
    rt: &R,
    alloc: Global,
    command: &Command,
    source: &mut S,
    keeper: &mut K,
    gate: &G,
) -> Result<Reply, Status>
    requires { HasNumbers command.now }
    ensures ended { ReplyEnds (K.is_told keeper.new) command.now (record {
      left = S.left source.old;
      left' = S.left source.new;
      register = K.tables keeper.old;
      register' = K.tables keeper.new;
    }) (record {
      reads = S.faults source.old;
      reads' = S.faults source.new;
      keeps = K.faults keeper.old;
      keeps' = K.faults keeper.new;
    }) (written result) }
    ensures told { K.is_told keeper.new → K.is_told keeper.old }
    ensures same { OnErr result (Stays K.is_told K.tables keeper.old keeper.new) }
    ensures few { GaveFew most_asked (S.left source.old) (S.left source.new) }
    ensures unread { reads_source command.now ≡ false → source.new ≡ source.old }
    ensures unasked { asks_keeper command.now ≡ false → keeper.new ≡ keeper.old }
{
    match command {
        Command::Derive {
            loops,
            format,
            workers,
        } => text_of(derive_reply(rt, alloc, *loops, *format, *workers, source, gate)),
        Command::Check => text_of(check_reply(rt, alloc, source, gate)),
        Command::Store { name } => line_of(store_reply(alloc, name, source, keeper)),
        Command::Show { name, version } => text_of(show_reply(alloc, name, *version, keeper)),
        Command::Listing => text_of(list_reply(alloc, keeper)),
        Command::Run { key, workers } => text_of(run_reply(rt, alloc, key, *workers, keeper, gate)),
        Command::Demo { seed } => text_of(demo_reply(rt, alloc, *seed, gate)),
    }
}
