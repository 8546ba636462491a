//! A room for bytes, whose memory is taken once.
ghost use Rattle.std.specs.Prelude.{◌≡◌, ◌+◌, ◌-◌, ◌≤◌, [], ◌++◌, length, IfOk};

use std::alloc::{AllocError, Global};
use std::marker::Model;

/// Bytes in a room of a fixed size.
#[derive(Drop)]
pub(crate) struct Room {
    bytes: Vec<u8>,
    len: usize,
}

impl Model for Room {
    ghost use Rattle.std.specs.Prelude.{◌≤◌, take, vec_len};
    ghost use Rattle.rate_tool.specs.Memory.{Filled};

    ghost Value = { Filled };

    ghost view = { λ r. record { size = vec_len r.bytes; bytes = take r.len r.bytes.items } };

    ghost invariant = { λ r. r.len ≤ vec_len r.bytes };
}

impl Room {
    /// A room of this many bytes, with none in it.
    pub(crate) fn new(alloc: Global, size: u32) -> Result<Room, AllocError>
        ensures { IfOk result (λ room. room ≡ record { size = size; bytes = [] }) }
    {
        Ok(Room {
            bytes: vec![in alloc; 0u8; size as usize]?,
            len: 0,
        })
    }

    /// How many more bytes fit.
    pub(crate) fn free(&self) -> usize
        ensures { result ≡ self.now.size - length self.now.bytes }
    {
        self.bytes.len() - self.len
    }

    /// Puts a piece behind the bytes.
    pub(crate) fn put(&mut self, piece: &[u8])
        requires { length piece.now ≤ self.old.size - length self.old.bytes }
        ensures { self.new ≡ record { size = self.old.size; bytes = self.old.bytes ++ piece.now } }
    {
        let end = self.len + piece.len();
        self.bytes[self.len..end].copy_from_slice(piece);
        self.len = end;
    }

    /// The bytes.
    pub(crate) fn as_slice(&self) -> &[u8]
        ensures { result.now ≡ self.now.bytes }
    {
        &self.bytes[..self.len]
    }
}
