//! Short byte strings in place, which take no memory.
ghost use Rattle.std.specs.Prelude.{◌≡◌, ◌+◌, ◌≤◌, ℕ, List, [], ◌++◌, length, take};

use std::marker::Model;

/// At most `N` bytes in a fixed array, which contracts see as a list.
#[derive(Drop)]
pub struct InlineBytes<const N: usize> {
    bytes: [u8; N],
    len: usize,
}

impl<const N: usize> Model for InlineBytes<N> {
    ghost Value = { List ℕ };

    ghost view = { λ s. take s.len s.bytes };

    ghost invariant = { λ s. s.len ≤ N };
}

impl<const N: usize> InlineBytes<N> {
    /// No bytes.
    pub fn new() -> Self
        ensures { result ≡ [] }
    {
        InlineBytes {
            bytes: [0; N],
            len: 0,
        }
    }

    /// Puts bytes at the end.
    pub fn extend(&mut self, more: &[u8])
        requires { length self.old + length more.now ≤ N }
        ensures { self.new ≡ self.old ++ more.now }
    {
        let start = self.len;
        let end = start + more.len();
        let all = &mut self.bytes[..];
        all[start..end].copy_from_slice(more);
        self.len = end;
    }

    /// The bytes.
    pub fn as_slice(&self) -> &[u8]
        ensures value { result.now ≡ self.now }
        ensures short { length self.now ≤ N }
    {
        &self.bytes[..self.len]
    }

    /// The same bytes.
    pub fn copy(&self) -> Self
        ensures { result ≡ self.now }
    {
        InlineBytes {
            bytes: self.bytes,
            len: self.len,
        }
    }
}
