//! The top call.
ghost use Rattle.std.specs.Prelude.{◌≡◌, false};
ghost use Rattle.register_core.specs.Causes.{Stays};
ghost use Rattle.rate_tool.specs.Words.{texts, HasNumbers, asks_keeper, reads_source};
ghost use Rattle.rate_tool.specs.Run.{AreNoticed, IsSilent, RunEnds, ask_keeper, read_source};
ghost use Rattle.rate_tool.specs.Reply.{most_asked};
ghost use Rattle.rate_tool.specs.Steps.{CommandEnds};
ghost use Rattle.rate_tool.specs.Stream.{GaveFew};

use crate::reply::reply_to;
use crate::status::Status;
use crate::stream::{Sink, Source, write_all};
use crate::words::{Command, command_of};
use contraction_workers::Gate;
use register_core::Keeper;
use std::alloc::Global;
use std::rc::RcStr;
use std::thread::Threads;

/// Runs a command: finds its reply, and writes it.
fn answer<R: Threads + Sync, S: Source, O: Sink, K: Keeper, G: Gate>(
    rt: &R,
    alloc: Global,
    command: &Command,
    source: &mut S,
    out: &mut O,
    keeper: &mut K,
    gate: &G,
) -> Status
    requires { HasNumbers command.now }
    ensures ended { CommandEnds (K.is_told keeper.new) command.now (record {
      left = S.left source.old;
      left' = S.left source.new;
      register = K.tables keeper.old;
      register' = K.tables keeper.new;
    }) (record {
      reads = S.faults source.old;
      reads' = S.faults source.new;
      keeps = K.faults keeper.old;
      keeps' = K.faults keeper.new;
    }) (record {
      taken = O.taken out.old;
      taken' = O.taken out.new;
      writes = O.faults out.old;
      writes' = O.faults out.new;
    }) result }
    ensures told { K.is_told keeper.new → K.is_told keeper.old }
    ensures same { IsSilent result → Stays K.is_told K.tables keeper.old keeper.new }
    ensures silent { IsSilent result → out.new ≡ out.old }
    ensures few { GaveFew most_asked (S.left source.old) (S.left source.new) }
    ensures unread { reads_source command.now ≡ false → source.new ≡ source.old }
    ensures unasked { asks_keeper command.now ≡ false → keeper.new ≡ keeper.old }
{
    let reply = match reply_to(rt, alloc, command, source, keeper, gate) {
        Ok(reply) => reply,
        Err(refusal) => return refusal,
    };
    match write_all(out, reply.as_slice()) {
        Ok(()) => Status::Done,
        Err(_) => Status::WriteFault,
    }
}

/// Does all that the program does: runs the command that the words are, over a source, a sink and a
/// keeper.
///
/// Content is said of a source that tells the bytes it has left, where the command reads it, of a
/// keeper that tells its tables, where the command asks it, and of a sink that tells the bytes it
/// has taken. Want of memory may be answered at any step before the first byte is written.
pub fn run<R: Threads + Sync, S: Source, O: Sink, K: Keeper, G: Gate>(
    rt: &R,
    alloc: Global,
    words: &[RcStr],
    source: &mut S,
    out: &mut O,
    keeper: &mut K,
    gate: &G,
) -> Status
    // The status is the one that is due or a fault, each status has its cause, and after every status but `Done` and
    // `WriteFault` the sink is untouched and the register is as before.
    ensures ends { RunEnds (K.is_told keeper.new) (out.new ≡ out.old) (Stays K.is_told K.tables keeper.old keeper.new) (texts words.now) (record {
      left = S.left source.old;
      left' = S.left source.new;
      register = K.tables keeper.old;
      register' = K.tables keeper.new;
    }) (record {
      reads = S.faults source.old;
      reads' = S.faults source.new;
      keeps = K.faults keeper.old;
      keeps' = K.faults keeper.new;
    }) (record {
      taken = O.taken out.old;
      taken' = O.taken out.new;
      writes = O.faults out.old;
      writes' = O.faults out.new;
    }) result }

    // No failed call is passed over.
    ensures noticed { AreNoticed (record {
      reads = S.faults source.old;
      reads' = S.faults source.new;
      keeps = K.faults keeper.old;
      keeps' = K.faults keeper.new;
    }) (record {
      taken = O.taken out.old;
      taken' = O.taken out.new;
      writes = O.faults out.old;
      writes' = O.faults out.new;
    }) result }

    // A source is asked for at most 1,048,577 bytes.
    ensures few { GaveFew most_asked (S.left source.old) (S.left source.new) }

    // A keeper that tells its tables told them before. What the words don't ask for is untouched.
    ensures told { K.is_told keeper.new → K.is_told keeper.old }
    ensures unread { read_source (texts words.now) ≡ false → source.new ≡ source.old }
    ensures unasked { ask_keeper (texts words.now) ≡ false → keeper.new ≡ keeper.old }
{
    match command_of(words) {
        Some(command) => answer(rt, alloc, &command, source, out, keeper, gate),
        None => Status::Usage,
    }
}
