//! Sources in memory.
ghost use Rattle.std.specs.Prelude.{◌≡◌, ◌<◌, [], length, take, Some, is_err, MatchResult};
ghost use Rattle.std.specs.Io.{ReadsAtMost};
ghost use Rattle.rate_tool.specs.Memory.{is_listed};
ghost use Rattle.rate_tool.specs.Stream.{HasCause, Gave, IsEmptied, one_more, count_after};

use crate::stream::{Failed, Source};
use frac128::{ByteList, FailList};
use std::marker::Model;

/// A source in memory that never fails. Contracts see it as the bytes that are left.
#[derive(Drop)]
pub struct SureSource {
    bytes: ByteList,
    at: usize,
}

impl Model for SureSource {
    ghost use Rattle.std.specs.Prelude.{◌≤◌, ℕ, List, length, drop};

    ghost Value = { List ℕ };

    ghost view = { λ s. drop s.at s.bytes };

    ghost invariant = { λ s. s.at ≤ length s.bytes };
}

impl SureSource {
    /// A source that has these bytes. It takes no memory.
    pub fn new(bytes: ByteList) -> SureSource
        ensures { result ≡ bytes }
    {
        SureSource { bytes, at: 0 }
    }
}

impl Source for SureSource {
    ghost use Rattle.std.specs.Prelude.{Some};

    ghost left = { λ s. Some s };

    ghost faults = { λ _. 0 };

    fn faults(&self) -> u64 {
        0
    }

    fn read(&mut self, buf: &mut [u8]) -> Result<usize, Failed> {
        let (_, rest) = self.bytes.as_slice().split_at(self.at);
        let count = rest.len().min(buf.len());
        buf[..count].copy_from_slice(&rest[..count]);
        self.at += count;
        Ok(count)
    }
}

/// A source in memory that fails on the calls whose numbers stand in its list. Calls of `read` are
/// numbered from 1, and the number stays at 2^64 - 1.
#[derive(Drop)]
pub struct MemorySource {
    inner: SureSource,
    fails: FailList,
    calls: u64,
    faults: u64,
}

impl Model for MemorySource {
    ghost use Rattle.rate_tool.specs.Memory.{MemoryInput};

    ghost Value = { MemoryInput };

    ghost view = { λ s. record { left = s.inner; fails = s.fails; calls = s.calls; faults = s.faults } };
}

impl MemorySource {
    /// A source that has these bytes and fails on these calls. It takes no memory.
    pub fn new(bytes: ByteList, fails: FailList) -> MemorySource
        ensures { result ≡ record { left = bytes; fails = fails; calls = 0; faults = 0 } }
    {
        MemorySource {
            inner: SureSource::new(bytes),
            fails,
            calls: 0,
            faults: 0,
        }
    }
}

impl Source for MemorySource {
    ghost use Rattle.std.specs.Prelude.{Some};

    ghost left = { λ s. Some s.left };

    ghost faults = { λ s. s.faults };

    fn faults(&self) -> u64 {
        self.faults
    }

    fn read(&mut self, buf: &mut [u8]) -> Result<usize, Failed>
        requires { 0 < length buf.old }
        ensures bound { ReadsAtMost result buf.new }
        ensures bytes { MatchResult result
            (λ n. Gave (Some self.old.left) (Some self.new.left) (take n buf.new) × (n ≡ 0 → IsEmptied (Some self.new.left)))
            (λ _. Gave (Some self.old.left) (Some self.new.left) []) }
        ensures cause { HasCause self.old.faults self.new.faults result }

        // It fails exactly on the calls whose numbers stand in its list.
        ensures failed { is_err result ≡ is_listed self.old.fails (one_more self.old.calls) }
        ensures counted { (self.new.calls ≡ one_more self.old.calls) × (self.new.faults ≡ count_after self.old.faults result) }
        ensures same_list { self.new.fails ≡ self.old.fails }
    {
        self.calls = self.calls.saturating_add(1);
        if self.fails.contains(self.calls) {
            self.faults = self.faults.saturating_add(1);
            return Err(Failed);
        }
        self.inner.read(buf)
    }
}
