//! The errors of this crate's calls.

ghost use Rattle.std.specs.Prelude.{◌≡◌, Some};
ghost use Rattle.java_text.specs.Fault.{write_message_of, read_message_of, write_slice_message_of, read_slice_message_of, read_fault_of, read_slice_fault_of};
ghost use Rattle.java_text.specs.declared.fault.WriteFault.TheVariants as writing;
ghost use Rattle.java_text.specs.declared.fault.ReadFault.TheVariants as reading;

use simd_cesu8::{DecodeFault, DecodeSliceFault, DecodingError};
use std::alloc::{AllocError, AllocFailed};
use std::error::Error;
use std::fmt;
use std::fmt::{Display, Formatter};

/// Why `write_utf` writes nothing.
///
/// It displays as `text is too long` or `out of memory`, whatever width is given.
#[derive(Debug, Drop)]
pub enum WriteFault {
    /// The text's MUTF-8 has this many bytes, and a count of two bytes is at most 65,535.
    TooLong(usize),
    /// Memory could not be allocated.
    Memory,
}

impl From<AllocError> for WriteFault {
    ghost from_gives = { λ _ fault. fault ≡ writing.Memory };

    fn from(_: AllocError) -> WriteFault {
        WriteFault::Memory
    }
}

/// Lets a function that returns a `WriteFault` use `push(byte)?`. The value that was not pushed is
/// dropped.
impl<T: Drop> From<AllocFailed<T>> for WriteFault {
    ghost from_gives = { λ _ fault. fault ≡ writing.Memory };

    fn from(_: AllocFailed<T>) -> WriteFault {
        WriteFault::Memory
    }
}

impl Display for WriteFault {
    ghost output = { λ fault. Some (write_message_of fault) };

    ghost styled_output = { λ fault _. Some (write_message_of fault) };

    fn fmt<W: fmt::Write>(&self, f: &mut Formatter<W>) -> fmt::Result {
        match self {
            WriteFault::TooLong(_) => f.write_str("text is too long"),
            WriteFault::Memory => f.write_str("out of memory"),
        }
    }
}

impl Error for WriteFault {}

/// Why a call that reads returns no text.
///
/// It displays as `input is truncated`, `invalid input` or `out of memory`, whatever width is
/// given.
#[derive(Debug, Drop)]
pub enum ReadFault {
    /// There are fewer than two bytes, or fewer bytes after them than they count.
    Truncated,
    /// The counted bytes decode to no text.
    Invalid(DecodingError),
    /// Memory could not be allocated.
    Memory,
}

impl From<AllocError> for ReadFault {
    ghost from_gives = { λ _ fault. fault ≡ reading.Memory };

    fn from(_: AllocError) -> ReadFault {
        ReadFault::Memory
    }
}

/// Lets a function that returns a `ReadFault` use `push(byte)?`. The value that was not pushed is
/// dropped.
impl<T: Drop> From<AllocFailed<T>> for ReadFault {
    ghost from_gives = { λ _ fault. fault ≡ reading.Memory };

    fn from(_: AllocFailed<T>) -> ReadFault {
        ReadFault::Memory
    }
}

impl From<DecodeFault> for ReadFault {
    ghost from_gives = { λ fault told. told ≡ read_fault_of fault };

    fn from(fault: DecodeFault) -> ReadFault {
        match fault {
            DecodeFault::Invalid(error) => ReadFault::Invalid(error),
            DecodeFault::Memory(_) => ReadFault::Memory,
        }
    }
}

impl Display for ReadFault {
    ghost output = { λ fault. Some (read_message_of fault) };

    ghost styled_output = { λ fault _. Some (read_message_of fault) };

    fn fmt<W: fmt::Write>(&self, f: &mut Formatter<W>) -> fmt::Result {
        match self {
            ReadFault::Truncated => f.write_str("input is truncated"),
            ReadFault::Invalid(_) => f.write_str("invalid input"),
            ReadFault::Memory => f.write_str("out of memory"),
        }
    }
}

impl Error for ReadFault {}

/// Why `write_utf_to_slice` writes nothing.
///
/// It displays as `text is too long` or `buffer too short`, whatever width is given.
#[derive(Clone, Copy, Debug, PartialEq, Eq)]
pub enum WriteSliceFault {
    /// The text's MUTF-8 has this many bytes, and a count of two bytes is at most 65,535.
    TooLong(usize),
    /// The buffer is shorter than the form, which has this many bytes.
    TooShort(usize),
}

impl Display for WriteSliceFault {
    ghost output = { λ fault. Some (write_slice_message_of fault) };

    ghost styled_output = { λ fault _. Some (write_slice_message_of fault) };

    fn fmt<W: fmt::Write>(&self, f: &mut Formatter<W>) -> fmt::Result {
        match self {
            WriteSliceFault::TooLong(_) => f.write_str("text is too long"),
            WriteSliceFault::TooShort(_) => f.write_str("buffer too short"),
        }
    }
}

impl Error for WriteSliceFault {}

/// Why a call that reads writes no text to the caller's buffer.
///
/// It displays as `input is truncated`, `invalid input` or `buffer too short`, whatever width is
/// given.
#[derive(Clone, Copy, Debug, PartialEq, Eq)]
pub enum ReadSliceFault {
    /// There are fewer than two bytes, or fewer after them than they count.
    Truncated,
    /// The counted bytes decode to no text.
    Invalid(DecodingError),
    /// The buffer is shorter than the text, whose UTF-8 has this many bytes.
    TooShort(usize),
}

impl From<DecodeSliceFault> for ReadSliceFault {
    ghost from_gives = { λ fault told. told ≡ read_slice_fault_of fault };

    fn from(fault: DecodeSliceFault) -> ReadSliceFault {
        match fault {
            DecodeSliceFault::Invalid(error) => ReadSliceFault::Invalid(error),
            DecodeSliceFault::TooShort(short) => ReadSliceFault::TooShort(short.needed()),
        }
    }
}

impl Display for ReadSliceFault {
    ghost output = { λ fault. Some (read_slice_message_of fault) };

    ghost styled_output = { λ fault _. Some (read_slice_message_of fault) };

    fn fmt<W: fmt::Write>(&self, f: &mut Formatter<W>) -> fmt::Result {
        match self {
            ReadSliceFault::Truncated => f.write_str("input is truncated"),
            ReadSliceFault::Invalid(_) => f.write_str("invalid input"),
            ReadSliceFault::TooShort(_) => f.write_str("buffer too short"),
        }
    }
}

impl Error for ReadSliceFault {}
