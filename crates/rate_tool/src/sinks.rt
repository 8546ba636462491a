//! Sinks in memory. They take their room when they are made, and no write takes memory.
ghost use Rattle.std.specs.Prelude.{◌≡◌, ◌||◌, ◌-◌, ◌<◌, ◌≤◌, nat_le, min, [], length, take, Some, IfOk, is_err, MatchResult, option_map};
ghost use Rattle.rate_tool.specs.Memory.{is_listed, fitting};
ghost use Rattle.rate_tool.specs.Stream.{HasCause, Took, one_more, count_after};

use crate::room::Room;
use crate::stream::{Failed, Sink};
use frac128::FailList;
use std::alloc::{AllocError, Global};
use std::marker::Model;

/// A sink in memory that never fails and takes every piece whole. It tells its bytes as long as
/// they fit in its room, and nothing from then on.
#[derive(Drop)]
pub struct SureSink {
    room: Room,
    lost: bool,
}

impl Model for SureSink {
    ghost use Rattle.std.specs.Prelude.{Some, None, if◌then◌else◌};
    ghost use Rattle.rate_tool.specs.Memory.{SureOutput};

    ghost Value = { SureOutput };

    ghost view = { λ s. record { room = s.room.size; taken = if s.lost then None else Some s.room.bytes } };
}

impl SureSink {
    /// A sink with room for this many bytes, which has taken none.
    pub fn new(alloc: Global, room: u32) -> Result<SureSink, AllocError>
        ensures { IfOk result (λ sink. sink ≡ record { room = room; taken = Some [] }) }
    {
        Ok(SureSink {
            room: Room::new(alloc, room)?,
            lost: false,
        })
    }

    /// The bytes that it has taken, where it tells them.
    pub fn bytes(&self) -> Option<&[u8]>
        ensures { option_map (λ bytes. bytes.now) result ≡ self.now.taken }
    {
        if self.lost {
            return None;
        }
        Some(self.room.as_slice())
    }
}

impl Sink for SureSink {
    ghost taken = { λ s. s.taken };

    ghost faults = { λ _. 0 };

    fn faults(&self) -> u64 {
        0
    }

    fn write(&mut self, piece: &[u8]) -> Result<usize, Failed>
        requires { 0 < length piece.now }
        ensures whole { result ≡ Ok (length piece.now) }
        ensures told { self.new.taken ≡ fitting self.old.room self.old.taken piece.now }
        ensures same { self.new.room ≡ self.old.room }
    {
        if piece.len() > self.room.free() {
            self.lost = true;
            return Ok(piece.len());
        }
        self.room.put(piece);
        Ok(piece.len())
    }
}

/// A sink in memory that fails on the calls whose numbers stand in its list, and where its room is
/// full. It takes the part of a piece that fits. Calls of `write` are numbered from 1, and the
/// number stays at 2^64 - 1.
#[derive(Drop)]
pub struct MemorySink {
    room: Room,
    fails: FailList,
    calls: u64,
    faults: u64,
}

impl Model for MemorySink {
    ghost use Rattle.rate_tool.specs.Memory.{MemoryOutput};

    ghost Value = { MemoryOutput };

    ghost view = { λ s. record { room = s.room.size; taken = s.room.bytes; fails = s.fails; calls = s.calls; faults = s.faults } };
}

impl MemorySink {
    /// A sink with room for this many bytes, which has taken none and fails on these calls.
    pub fn new(alloc: Global, room: u32, fails: FailList) -> Result<MemorySink, AllocError>
        ensures { IfOk result (λ sink. sink ≡ record { room = room; taken = []; fails = fails; calls = 0; faults = 0 }) }
    {
        Ok(MemorySink {
            room: Room::new(alloc, room)?,
            fails,
            calls: 0,
            faults: 0,
        })
    }

    /// The bytes that it has taken.
    pub fn bytes(&self) -> &[u8]
        ensures { result.now ≡ self.now.taken }
    {
        self.room.as_slice()
    }
}

impl Sink for MemorySink {
    ghost use Rattle.std.specs.Prelude.{Some};

    ghost taken = { λ s. Some s.taken };

    ghost faults = { λ s. s.faults };

    fn faults(&self) -> u64 {
        self.faults
    }

    fn write(&mut self, piece: &[u8]) -> Result<usize, Failed>
        requires { 0 < length piece.now }
        ensures bound { IfOk result (λ n. (0 < n) × (n ≤ length piece.now)) }
        ensures bytes { MatchResult result
            (λ n. Took (Some self.old.taken) (Some self.new.taken) (take n piece.now))
            (λ _. Took (Some self.old.taken) (Some self.new.taken) []) }
        ensures cause { HasCause self.old.faults self.new.faults result }

        // It fails exactly on the calls whose numbers stand in its list and where its room is full.
        ensures failed { is_err result ≡ (is_listed self.old.fails (one_more self.old.calls) || nat_le self.old.room (length self.old.taken)) }
        ensures part { IfOk result (λ n. n ≡ min (length piece.now) (self.old.room - length self.old.taken)) }
        ensures counted { (self.new.calls ≡ one_more self.old.calls) × (self.new.faults ≡ count_after self.old.faults result) }
        ensures same { (self.new.fails ≡ self.old.fails) × (self.new.room ≡ self.old.room) }
    {
        self.calls = self.calls.saturating_add(1);
        if self.fails.contains(self.calls) || self.room.free() == 0 {
            self.faults = self.faults.saturating_add(1);
            return Err(Failed);
        }
        let count = piece.len().min(self.room.free());
        self.room.put(&piece[..count]);
        Ok(count)
    }
}
