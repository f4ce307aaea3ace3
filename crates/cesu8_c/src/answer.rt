//! What the exports return: a status, and the length of the result, a decision or a reading. The
//! numbers of the statuses and the fields of the structs must be those of `include/cesu8.h`.

ghost use Rattle.std.specs.Prelude.{◌≡◌, false};
ghost use Rattle.cesu8_c.specs.Answers.{answer_of, answer_for_bytes, answer_for_text, answer_for_lossy_text};

use simd_cesu8::{DecodeSliceFault, LossySliceFault, TooShort};

/// The call succeeded.
pub const OK: u32 = 0;
/// The input must be UTF-8, and is not.
pub const NOT_UTF8: u32 = 1;
/// The input is not the encoding of any text.
pub const INVALID: u32 = 2;
/// The input ends before the two bytes of the count, or before the bytes that they count.
pub const TRUNCATED: u32 = 3;
/// The result has more bytes than a Java string or a `usize` can count.
pub const TOO_LONG: u32 = 4;
/// The result is longer than the buffer.
pub const TOO_SMALL: u32 = 5;
/// The piece ends within a character.
pub const INCOMPLETE: u32 = 6;
/// The next character does not fit in the rest of the buffer.
pub const FULL: u32 = 7;

/// The result of a call that writes bytes, or returns a length.
#[repr(C)]
#[derive(Drop)]
pub struct Answer {
    /// One of this module's statuses.
    pub status: u32,
    /// With `OK` the result's length, with `TOO_SMALL` the needed length, otherwise 0. It counts
    /// bytes; for `cesu8_utf16_len` it counts UTF-16 code units.
    pub length: usize,
}

impl Answer {
    /// Returns `OK` and this length.
    pub(crate) fn of_length(length: usize) -> Answer
        ensures status { result.status ≡ OK }
        ensures length { result.length ≡ length }
    {
        Answer { status: OK, length }
    }

    /// Returns `TOO_SMALL`, for a result of this length.
    pub(crate) fn too_small(length: usize) -> Answer
        ensures status { result.status ≡ TOO_SMALL }
        ensures length { result.length ≡ length }
    {
        Answer {
            status: TOO_SMALL,
            length,
        }
    }

    /// Returns the status of a call without a result.
    pub(crate) fn without(status: u32) -> Answer
        ensures status { result.status ≡ status }
        ensures length { result.length ≡ 0 }
    {
        Answer { status, length: 0 }
    }

    /// Converts the result of a call that encodes.
    pub(crate) fn of_bytes(outcome: Result<usize, TooShort>) -> Answer
        ensures { result ≡ answer_for_bytes outcome }
    {
        match outcome {
            Ok(length) => Answer::of_length(length),
            Err(fault) => Answer::too_small(fault.needed()),
        }
    }

    /// Converts the result of a call that decodes.
    pub(crate) fn of_text(outcome: Result<usize, DecodeSliceFault>) -> Answer
        ensures { result ≡ answer_for_text outcome }
    {
        match outcome {
            Ok(length) => Answer::of_length(length),
            Err(DecodeSliceFault::Invalid(_)) => Answer::without(INVALID),
            Err(DecodeSliceFault::TooShort(fault)) => Answer::too_small(fault.needed()),
        }
    }

    /// Converts the result of a call that decodes bytes that may be damaged.
    pub(crate) fn of_lossy_text(outcome: Result<usize, LossySliceFault>) -> Answer
        ensures { result ≡ answer_for_lossy_text outcome }
    {
        match outcome {
            Ok(length) => Answer::of_length(length),
            Err(LossySliceFault::TooLong) => Answer::without(TOO_LONG),
            Err(LossySliceFault::TooShort(fault)) => Answer::too_small(fault.needed()),
        }
    }
}

/// The result of `cesu8_needs_encoded`.
#[repr(C)]
#[derive(Drop)]
pub struct Decision {
    /// `OK` or `NOT_UTF8`.
    pub status: u32,
    /// Whether the encoding differs from the UTF-8; false with `NOT_UTF8`.
    pub is_needed: bool,
}

impl Decision {
    /// Returns `OK` and the decision.
    pub(crate) fn of(is_needed: bool) -> Decision
        ensures status { result.status ≡ OK }
        ensures decided { result.is_needed ≡ is_needed }
    {
        Decision {
            status: OK,
            is_needed,
        }
    }

    /// Returns `NOT_UTF8`, without a decision.
    pub(crate) fn without() -> Decision
        ensures status { result.status ≡ NOT_UTF8 }
        ensures undecided { result.is_needed ≡ false }
    {
        Decision {
            status: NOT_UTF8,
            is_needed: false,
        }
    }
}

/// The result of a call that reads a length-prefixed string.
#[repr(C)]
#[derive(Drop)]
pub struct Reading {
    /// One of this module's statuses.
    pub status: u32,
    /// With `OK` the result's length in bytes, with `TOO_SMALL` the needed length, otherwise 0.
    pub length: usize,
    /// How many bytes of the input the string takes; 0 with `TRUNCATED`.
    pub taken: usize,
}

impl Reading {
    /// Adds to a result how many bytes of the input the string takes.
    pub(crate) fn of(answer: Answer, taken: usize) -> Reading
        ensures answer { answer_of result ≡ answer }
        ensures taken { result.taken ≡ taken }
    {
        Reading {
            status: answer.status,
            length: answer.length,
            taken,
        }
    }
}
