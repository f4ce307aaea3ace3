//! Converts the library's results to what an export returns, and copies them to the caller's
//! buffer.

use simd_cesu8::{CowBytes, CowText, DecodeFault, DecodeSliceFault, LossySliceFault, TooShort};
use std::alloc::AllocError;

/// The result of a call, as bench/measured.h declares it for C (`measured_outcome`). If there is no
/// result although the input is valid, an allocation failed, the buffer is too short, or the length
/// of a lossy reading does not fit `usize`. A call on many texts has other reasons, which
/// `outcome_of_sum` lists.
#[repr(C)]
#[derive(Drop)]
pub struct Outcome {
    /// The length of the result in bytes, or 0 if there is none.
    pub length: usize,
    /// Whether there is a result.
    pub has_answer: bool,
    /// Whether the result borrows from the input; false if there is none.
    pub is_borrowed: bool,
    /// Whether the call rejected the input as invalid.
    pub is_invalid: bool,
}

/// Returns the outcome of a call that returns a length.
pub fn outcome_of_length(length: usize) -> Outcome {
    Outcome {
        length,
        has_answer: true,
        is_borrowed: false,
        is_invalid: false,
    }
}

/// Returns the outcome of an encoder.
pub fn outcome_of_bytes(answer: Result<CowBytes<'_>, AllocError>, buf: &mut [u8]) -> Outcome {
    match answer {
        Ok(answer) => outcome_of_copied(answer.as_bytes(), answer.is_borrowed(), buf),
        Err(_) => without_result(false),
    }
}

/// Returns the outcome of a decoder.
pub fn outcome_of_text(answer: Result<CowText<'_>, DecodeFault>, buf: &mut [u8]) -> Outcome {
    match answer {
        Ok(answer) => outcome_of_copied(answer.as_str().as_bytes(), answer.is_borrowed(), buf),
        Err(DecodeFault::Invalid(_)) => without_result(true),
        Err(DecodeFault::Memory(_)) => without_result(false),
    }
}

/// Returns the outcome of a lossy decoder.
pub fn outcome_of_lossy_text(answer: Result<CowText<'_>, AllocError>, buf: &mut [u8]) -> Outcome {
    outcome_of_text(answer.map_err(DecodeFault::Memory), buf)
}

/// Returns the outcome of a decoder that writes to the buffer.
pub fn outcome_of_written_text(answer: Result<usize, DecodeSliceFault>) -> Outcome {
    match answer {
        Ok(length) => outcome_of_length(length),
        Err(DecodeSliceFault::Invalid(_)) => without_result(true),
        Err(DecodeSliceFault::TooShort(_)) => without_result(false),
    }
}

/// Returns the outcome of a lossy decoder that writes to the buffer.
pub fn outcome_of_written_lossy_text(answer: Result<usize, LossySliceFault>) -> Outcome {
    match answer {
        Ok(length) => outcome_of_length(length),
        Err(_) => without_result(false),
    }
}

/// Returns the outcome of an encoder that writes to the buffer.
pub fn outcome_of_written_bytes(answer: Result<usize, TooShort>) -> Outcome {
    match answer {
        Ok(length) => outcome_of_length(length),
        Err(_) => without_result(false),
    }
}

/// Copies a result to the start of the buffer if it fits, and returns the outcome. A result that
/// does not fit counts too: the timings pass an empty buffer, so that nothing is copied.
fn outcome_of_copied(answer: &[u8], is_borrowed: bool, buf: &mut [u8]) -> Outcome {
    if answer.len() <= buf.len() {
        buf[..answer.len()].copy_from_slice(answer);
    }
    Outcome {
        length: answer.len(),
        has_answer: true,
        is_borrowed,
        is_invalid: false,
    }
}

/// Returns the outcome of a call without a result.
pub fn without_result(is_invalid: bool) -> Outcome {
    Outcome {
        length: 0,
        has_answer: false,
        is_borrowed: false,
        is_invalid,
    }
}
