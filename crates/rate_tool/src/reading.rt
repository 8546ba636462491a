//! Reading a source whole.
ghost use Rattle.std.specs.Prelude.{◌<◌, length};
ghost use Rattle.rate_tool.specs.Reply.{most_asked};
ghost use Rattle.rate_tool.specs.Steps.{PieceEnds, ReadEnds};
ghost use Rattle.rate_tool.specs.Stream.{GaveFew};

use crate::status::Status;
use crate::stream::Source;
use std::alloc::Global;

/// The most bytes that a file may have.
const LIMIT: usize = 1_048_576;

/// The most bytes that one read asks for.
const PIECE: usize = 4096;

/// Why reading stopped before the end.
#[derive(Clone, Copy, Debug)]
pub enum Stop {
    NoMemory,
    ReadFault,
    TooLong,
}

/// Reads one piece and puts it behind the bytes.
fn read_piece<S: Source>(
    source: &mut S,
    piece: &mut [u8],
    bytes: &mut Vec<u8>,
) -> Result<usize, Stop>
    requires { 0 < length piece.old }
    ensures ended { PieceEnds (S.left source.old) (S.left source.new) bytes.old.items bytes.new.items (length piece.old)
        (S.faults source.old) (S.faults source.new) result }
    ensures few { GaveFew (length piece.old) (S.left source.old) (S.left source.new) }
{
    match source.read(piece) {
        Ok(count) => {
            if bytes.extend_from_slice(&piece[..count]).is_err() {
                return Err(Stop::NoMemory);
            }
            Ok(count)
        }
        Err(_) => Err(Stop::ReadFault),
    }
}

/// Reads all the bytes, or one more than a file may have.
pub fn read_all<S: Source>(alloc: Global, source: &mut S) -> Result<Vec<u8>, Stop>
    ensures ended { ReadEnds (S.left source.old) (S.left source.new) (S.faults source.old) (S.faults source.new) result }
    ensures few { GaveFew most_asked (S.left source.old) (S.left source.new) }
{
    let mut bytes = Vec::new(alloc);
    let mut buf = [0u8; PIECE];
    while bytes.len() <= LIMIT {
        let room = (LIMIT + 1 - bytes.len()).min(PIECE);
        match read_piece(source, &mut buf[..room], &mut bytes) {
            Ok(0) => return Ok(bytes),
            Ok(_) => {}
            Err(stop) => return Err(stop),
        }
    }
    Err(Stop::TooLong)
}

impl From<Stop> for Status {
    ghost use Rattle.std.specs.Prelude.{◌≡◌};
    ghost use Rattle.rate_tool.specs.Steps.{stopped};

    ghost from_gives = { λ stop status. status ≡ stopped stop };

    fn from(stop: Stop) -> Status {
        match stop {
            Stop::NoMemory => Status::NoMemory,
            Stop::ReadFault => Status::ReadFault,
            Stop::TooLong => Status::TooLong,
        }
    }
}
