//! The exports for MUTF-8. Each calls the function of `simd_cesu8::mutf8` that it names, and
//! returns an `Outcome` for C. Those that write nothing take a buffer too, so that C can call them
//! all by one type. The argument of `without_result` says whether the input is invalid.

use crate::each::outcome_of_sum;
use crate::outcome::{
    Outcome, outcome_of_bytes, outcome_of_length, outcome_of_lossy_text, outcome_of_text,
    outcome_of_written_bytes, outcome_of_written_lossy_text, outcome_of_written_text,
    without_result,
};
use simd_cesu8::implementation::text_of;
use simd_cesu8::mutf8;
use std::alloc::Global;

/// Calls `mutf8::encode`.
#[unsafe(no_mangle)]
pub extern "C" fn measured_mutf8_encode(alloc: Global, text: &[u8], buf: &mut [u8]) -> Outcome {
    match text_of(text) {
        Some(text) => outcome_of_bytes(mutf8::encode(alloc, text), buf),
        None => without_result(true),
    }
}

/// Calls `mutf8::decode`.
#[unsafe(no_mangle)]
pub extern "C" fn measured_mutf8_decode(alloc: Global, bytes: &[u8], buf: &mut [u8]) -> Outcome {
    outcome_of_text(mutf8::decode(alloc, bytes), buf)
}

/// Calls `mutf8::decode_strict`.
#[unsafe(no_mangle)]
pub extern "C" fn measured_mutf8_decode_strict(
    alloc: Global,
    bytes: &[u8],
    buf: &mut [u8],
) -> Outcome {
    outcome_of_text(mutf8::decode_strict(alloc, bytes), buf)
}

/// Calls `mutf8::encoded_len`. It writes nothing.
#[unsafe(no_mangle)]
pub extern "C" fn measured_mutf8_encoded_len(text: &[u8], buf: &mut [u8]) -> Outcome {
    let _ = buf;
    match text_of(text) {
        Some(text) => outcome_of_length(mutf8::encoded_len(text)),
        None => without_result(true),
    }
}

/// Calls `mutf8::lossy_len`. It writes nothing.
#[unsafe(no_mangle)]
pub extern "C" fn measured_mutf8_lossy_len(bytes: &[u8], buf: &mut [u8]) -> Outcome {
    let _ = buf;
    match mutf8::lossy_len(bytes) {
        Some(length) => outcome_of_length(length),
        None => without_result(false),
    }
}

/// Calls `mutf8::valid_up_to`. It writes nothing.
#[unsafe(no_mangle)]
pub extern "C" fn measured_mutf8_valid_up_to(bytes: &[u8], buf: &mut [u8]) -> Outcome {
    let _ = buf;
    outcome_of_length(mutf8::valid_up_to(bytes))
}

/// Calls `mutf8::decode_lossy_strict`.
#[unsafe(no_mangle)]
pub extern "C" fn measured_mutf8_decode_lossy_strict(
    alloc: Global,
    bytes: &[u8],
    buf: &mut [u8],
) -> Outcome {
    outcome_of_lossy_text(mutf8::decode_lossy_strict(alloc, bytes), buf)
}

/// Calls `mutf8::decode_lossy`.
#[unsafe(no_mangle)]
pub extern "C" fn measured_mutf8_decode_lossy(
    alloc: Global,
    bytes: &[u8],
    buf: &mut [u8],
) -> Outcome {
    outcome_of_lossy_text(mutf8::decode_lossy(alloc, bytes), buf)
}

/// Calls `mutf8::encode` on each text.
#[unsafe(no_mangle)]
pub extern "C" fn measured_mutf8_encode_each(
    alloc: Global,
    texts: &[u8],
    length: usize,
    times: usize,
) -> Outcome {
    outcome_of_sum(texts, length, times, |text| {
        Some(mutf8::encode(alloc, text).ok()?.as_bytes().len())
    })
}

/// Calls `mutf8::encoded_len` on each text.
#[unsafe(no_mangle)]
pub extern "C" fn measured_mutf8_encoded_len_each(
    texts: &[u8],
    length: usize,
    times: usize,
) -> Outcome {
    outcome_of_sum(texts, length, times, |text| Some(mutf8::encoded_len(text)))
}

/// Calls `mutf8::decode_to_slice`.
#[unsafe(no_mangle)]
pub extern "C" fn measured_mutf8_decode_to_slice(bytes: &[u8], buf: &mut [u8]) -> Outcome {
    outcome_of_written_text(mutf8::decode_to_slice(bytes, buf))
}

/// Calls `mutf8::decode_strict_to_slice`.
#[unsafe(no_mangle)]
pub extern "C" fn measured_mutf8_decode_strict_to_slice(bytes: &[u8], buf: &mut [u8]) -> Outcome {
    outcome_of_written_text(mutf8::decode_strict_to_slice(bytes, buf))
}

/// Calls `mutf8::decode_lossy_to_slice`.
#[unsafe(no_mangle)]
pub extern "C" fn measured_mutf8_decode_lossy_to_slice(bytes: &[u8], buf: &mut [u8]) -> Outcome {
    outcome_of_written_lossy_text(mutf8::decode_lossy_to_slice(bytes, buf))
}

/// Calls `mutf8::decode_lossy_strict_to_slice`.
#[unsafe(no_mangle)]
pub extern "C" fn measured_mutf8_decode_lossy_strict_to_slice(
    bytes: &[u8],
    buf: &mut [u8],
) -> Outcome {
    outcome_of_written_lossy_text(mutf8::decode_lossy_strict_to_slice(bytes, buf))
}

/// Calls `mutf8::encode_to_slice`.
#[unsafe(no_mangle)]
pub extern "C" fn measured_mutf8_encode_to_slice(text: &[u8], buf: &mut [u8]) -> Outcome {
    match text_of(text) {
        Some(text) => outcome_of_written_bytes(mutf8::encode_to_slice(text, buf)),
        None => without_result(true),
    }
}
