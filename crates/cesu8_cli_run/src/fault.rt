//! Why a run fails.

ghost use Rattle.std.specs.Prelude.{◌≡◌};
ghost use Rattle.cesu8_cli_run.specs.declared.fault.RunFault.TheVariants.{Memory};
ghost use Rattle.cesu8_cli_run.specs.Faults.{line_of, status_of, run_fault_of, write_fault_of, read_fault_of};

use java_text::{ReadFault, WriteFault};
use simd_cesu8::{DecodeFault, DecodingError};
use std::alloc::AllocError;

/// Why a run writes no output, or only a part of it.
#[derive(Debug, Drop)]
pub enum RunFault {
    /// The arguments are not a command and a flavor. Nothing was read.
    Usage,
    /// The input of a command that takes UTF-8 is not UTF-8.
    NotUtf8,
    /// The input, or the Java string in it, decodes to no text.
    Invalid(DecodingError),
    /// The input ends before the Java string does.
    Truncated,
    /// The text's MUTF-8 has this many bytes, more than a Java string can have.
    TooLong(usize),
    /// Bytes follow the Java string.
    Trailing,
    /// Memory could not be allocated.
    Memory,
    /// A read, a write or a flush failed, or a write accepted no byte. The program also reports
    /// arguments that it cannot get as this error.
    Io,
}

impl From<AllocError> for RunFault {
    ghost from_gives = { λ _ fault. fault ≡ Memory };

    fn from(_: AllocError) -> RunFault {
        RunFault::Memory
    }
}

impl From<DecodeFault> for RunFault {
    ghost from_gives = { λ fault outcome. outcome ≡ run_fault_of fault };

    fn from(fault: DecodeFault) -> RunFault {
        match fault {
            DecodeFault::Invalid(error) => RunFault::Invalid(error),
            DecodeFault::Memory(_) => RunFault::Memory,
        }
    }
}

impl From<WriteFault> for RunFault {
    ghost from_gives = { λ fault outcome. outcome ≡ write_fault_of fault };

    fn from(fault: WriteFault) -> RunFault {
        match fault {
            WriteFault::TooLong(len) => RunFault::TooLong(len),
            WriteFault::Memory => RunFault::Memory,
        }
    }
}

impl From<ReadFault> for RunFault {
    ghost from_gives = { λ fault outcome. outcome ≡ read_fault_of fault };

    fn from(fault: ReadFault) -> RunFault {
        match fault {
            ReadFault::Truncated => RunFault::Truncated,
            ReadFault::Invalid(error) => RunFault::Invalid(error),
            ReadFault::Memory => RunFault::Memory,
        }
    }
}

/// Returns the line for standard error, without the line end.
pub fn fault_line(fault: &RunFault) -> &'static str
    ensures { result.now ≡ line_of fault.now }
{
    match fault {
        RunFault::Usage => "usage: cesu8_cli COMMAND FLAVOR",
        RunFault::Invalid(_) => "cesu8: invalid input",
        RunFault::NotUtf8 => "cesu8: input is not UTF-8",
        RunFault::Truncated => "cesu8: input is truncated",
        RunFault::TooLong(_) => "cesu8: text is too long",
        RunFault::Trailing => "cesu8: bytes after the string",
        RunFault::Memory => "cesu8: out of memory",
        RunFault::Io => "cesu8: input or output failed",
    }
}

/// Returns the exit status.
pub fn fault_status(fault: &RunFault) -> u8
    ensures { result ≡ status_of fault.now }
{
    match fault {
        RunFault::Invalid(_)
        | RunFault::NotUtf8
        | RunFault::Truncated
        | RunFault::TooLong(_)
        | RunFault::Trailing => 1,
        RunFault::Usage => 2,
        RunFault::Memory => 3,
        RunFault::Io => 4,
    }
}
