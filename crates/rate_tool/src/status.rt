//! How a run ended.
ghost use Rattle.std.specs.Prelude.{◌≡◌};
ghost use Rattle.rate_tool.specs.Stream.{Writes};
ghost use Rattle.rate_tool.specs.StatusLine.{code_of, status_text};

use crate::fault_lines::{anomaly_line, fault_line, overflow_line, term_line};
use crate::stream::{Failed, Sink, write_all};
use anomaly_check::Anomaly;
use derive_core::DeriveFault;
use frac128::Overflow;
use gauge_check::TermFault;
use model_core::ReadFault;
use model_reader::ReadError;
use print_beta::{LineText, short_line};
use register_core::RegisterFault;
use std::alloc::AllocError;

/// How a run ended.
#[derive(Drop)]
pub enum Status {
    /// The answer was written whole, and the input was read to its end.
    Done,
    /// Memory ran out.
    NoMemory,
    /// The words are no command.
    Usage,
    /// A read failed.
    ReadFault,
    /// The source has more bytes than a file may have.
    TooLong,
    /// The file's first bad place.
    Malformed(ReadFault),
    /// The first failure of a term.
    BadTerm(TermFault),
    /// The first anomaly.
    Anomalous(Anomaly),
    /// The sum or the product of two fractions is refused, because its numbers are too large.
    Overflow(Overflow),
    /// The register has no such name or version.
    NoSuch,
    /// The name has as many versions as it may have, and the bytes are new.
    Full,
    /// A call of the keeper failed.
    KeeperFault,
    /// A write failed.
    WriteFault,
}

impl Status {
    /// The exit code: 0 to 12 in this order.
    pub fn code(&self) -> u8
        ensures { result ≡ code_of self.now }
    {
        match self {
            Status::Done => 0,
            Status::NoMemory => 1,
            Status::Usage => 2,
            Status::ReadFault => 3,
            Status::TooLong => 4,
            Status::Malformed(_) => 5,
            Status::BadTerm(_) => 6,
            Status::Anomalous(_) => 7,
            Status::Overflow(_) => 8,
            Status::NoSuch => 9,
            Status::Full => 10,
            Status::KeeperFault => 11,
            Status::WriteFault => 12,
        }
    }

    /// Writes the line of the status, nothing for `Done`. `Failed` comes only where the sink's count
    /// of faults rose, and then a front of the line was written. It takes no memory.
    pub fn write_line<O: Sink>(&self, out: &mut O) -> Result<(), Failed>
        ensures { Writes (O.taken out.old) (O.taken out.new) (O.faults out.old) (O.faults out.new) (status_text self.now) result }
    {
        let line = line_of(self);
        write_all(out, line.as_slice())
    }
}

/// The line of a status.
fn line_of(status: &Status) -> LineText
    ensures { result ≡ status_text status.now }
{
    match status {
        Status::Done => LineText::new(),
        Status::NoMemory => short_line(b"no memory\n"),
        Status::Usage => short_line(b"usage\n"),
        Status::ReadFault => short_line(b"read fault\n"),
        Status::TooLong => short_line(b"too long\n"),
        Status::Malformed(fault) => fault_line(fault),
        Status::BadTerm(fault) => term_line(fault),
        Status::Anomalous(anomaly) => anomaly_line(anomaly),
        Status::Overflow(pair) => overflow_line(pair),
        Status::NoSuch => short_line(b"no such\n"),
        Status::Full => short_line(b"full\n"),
        Status::KeeperFault => short_line(b"keeper fault\n"),
        Status::WriteFault => short_line(b"write fault\n"),
    }
}

impl From<AllocError> for Status {
    ghost use Rattle.std.specs.Prelude.{◌≡◌};
    ghost use Rattle.rate_tool.specs.declared.status.Status.{Status};

    ghost from_gives = { λ _ status. status ≡ Status.NoMemory };

    fn from(_error: AllocError) -> Status {
        Status::NoMemory
    }
}

impl From<ReadError> for Status {
    ghost use Rattle.std.specs.Prelude.{◌≡◌};
    ghost use Rattle.rate_tool.specs.Reply.{unreadable};

    ghost from_gives = { λ error status. status ≡ unreadable error };

    fn from(error: ReadError) -> Status {
        match error {
            ReadError::Fault(bad) => Status::Malformed(bad),
            ReadError::NoMemory => Status::NoMemory,
        }
    }
}

impl From<DeriveFault> for Status {
    ghost use Rattle.std.specs.Prelude.{◌≡◌};
    ghost use Rattle.rate_tool.specs.Reply.{refusal_of};

    ghost from_gives = { λ fault status. status ≡ refusal_of fault };

    fn from(fault: DeriveFault) -> Status {
        match fault {
            DeriveFault::Read(bad) => Status::Malformed(bad),
            DeriveFault::Term(bad) => Status::BadTerm(bad),
            DeriveFault::Anomalous(bad) => Status::Anomalous(bad),
            DeriveFault::Overflow(pair) => Status::Overflow(pair),
            DeriveFault::NoMemory => Status::NoMemory,
        }
    }
}

impl From<RegisterFault> for Status {
    ghost use Rattle.std.specs.Prelude.{◌≡◌};
    ghost use Rattle.rate_tool.specs.Reply.{denial_of};

    ghost from_gives = { λ fault status. status ≡ denial_of fault };

    fn from(fault: RegisterFault) -> Status {
        match fault {
            RegisterFault::NoSuchName => Status::NoSuch,
            RegisterFault::NoSuchVersion { .. } => Status::NoSuch,
            RegisterFault::Full { .. } => Status::Full,
            RegisterFault::Keeper => Status::KeeperFault,
            RegisterFault::NoMemory => Status::NoMemory,
        }
    }
}
