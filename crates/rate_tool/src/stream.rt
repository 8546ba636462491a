//! Where a file's bytes come from and where an answer's bytes go.
ghost use Rattle.std.specs.Prelude.{◌≡◌, ◌<◌, ◌≤◌, ℕ, List, [], length, take, Option, MatchResult, IfOk};
ghost use Rattle.std.specs.Io.{ReadsAtMost};
ghost use Rattle.rate_tool.specs.Stream.{HasCause, Gave, IsEmptied, Took, Writes};

/// A read or a write failed.
#[derive(Clone, Copy, Debug, PartialEq, Eq)]
pub struct Failed;

/// Something that bytes are read from.
pub trait Source {
    /// The bytes that are left, where it tells them.
    ghost left: { Self → Option (List ℕ) };

    /// The number of failed reads.
    ghost faults: { Self → ℕ };

    /// The number of failed reads. At 2^64 - 1 it stays.
    fn faults(&self) -> u64
        ensures { result ≡ faults self.now };

    /// Reads the next bytes into the front of the buffer and answers how many there are: 0 only at
    /// the end. `Failed` takes nothing, and comes only where the count of faults rose.
    fn read(&mut self, buf: &mut [u8]) -> Result<usize, Failed>
        requires { 0 < length buf.old }
        ensures bound { ReadsAtMost result buf.new }
        ensures bytes { MatchResult result
            (λ n. Gave (left self.old) (left self.new) (take n buf.new) × (n ≡ 0 → IsEmptied (left self.new)))
            (λ _. Gave (left self.old) (left self.new) []) }
        ensures cause { HasCause (faults self.old) (faults self.new) result };
}

/// Something that bytes are written to.
pub trait Sink {
    /// The bytes that it has taken, where it tells them.
    ghost taken: { Self → Option (List ℕ) };

    /// The number of failed writes.
    ghost faults: { Self → ℕ };

    /// The number of failed writes. At 2^64 - 1 it stays.
    fn faults(&self) -> u64
        ensures { result ≡ faults self.now };

    /// Takes at least one byte from the front of the piece and answers how many. `Failed` takes
    /// nothing, and comes only where the count of faults rose.
    fn write(&mut self, piece: &[u8]) -> Result<usize, Failed>
        requires { 0 < length piece.now }
        ensures bound { IfOk result (λ n. (0 < n) × (n ≤ length piece.now)) }
        ensures bytes { MatchResult result
            (λ n. Took (taken self.old) (taken self.new) (take n piece.now))
            (λ _. Took (taken self.old) (taken self.new) []) }
        ensures cause { HasCause (faults self.old) (faults self.new) result };
}

/// Writes all the bytes. After `Failed` a front of them was written, and the count of faults rose.
pub fn write_all<O: Sink>(out: &mut O, bytes: &[u8]) -> Result<(), Failed>
    ensures { Writes (O.taken out.old) (O.taken out.new) (O.faults out.old) (O.faults out.new) bytes.now result }
{
    let mut at = 0;
    while at < bytes.len() {
        at += out.write(&bytes[at..])?;
    }
    Ok(())
}
