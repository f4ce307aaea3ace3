//! The calls of `simd_cesu8` as `bench` measures them, over byte slices.
//!
//! `bench/driver.rs` and `tests/costs.c` call the exports. They pass each slice as a pointer and a
//! length, as `bench/measured.h` declares it. An export calls the library, and copies the result to
//! the start of `buf` if it fits. So with an empty `buf` it costs as much as the library's call,
//! and returns the length of the result. The calls whose names end in `to_slice` write to `buf`
//! directly. Calls that take a text first test the input for UTF-8, and this test is measured too.
//! The calls whose names end in `each` take texts of `length` bytes, one after another, and add up
//! the lengths for all of them, `times` times. They test all texts at once, so there the cost of
//! the test is small.
//!
//! The exports have no contracts: they are only proved to be safe and to return. The driver of
//! `bench` compares their results with a plain codec before it measures.
#![tactic(auto)]

mod each;
pub mod mutf8;
mod outcome;

use crate::each::outcome_of_sum;
pub use crate::outcome::Outcome;
use crate::outcome::{
    outcome_of_bytes, outcome_of_length, outcome_of_lossy_text, outcome_of_text,
    outcome_of_written_bytes, outcome_of_written_lossy_text, outcome_of_written_text,
    without_result,
};
use simd_cesu8::implementation::{active, text_of};
use std::alloc::Global;

/// Calls `simd_cesu8::encode`.
#[unsafe(no_mangle)]
pub extern "C" fn measured_encode(alloc: Global, text: &[u8], buf: &mut [u8]) -> Outcome {
    match text_of(text) {
        Some(text) => outcome_of_bytes(simd_cesu8::encode(alloc, text), buf),
        None => without_result(true),
    }
}

/// Calls `simd_cesu8::decode`.
#[unsafe(no_mangle)]
pub extern "C" fn measured_decode(alloc: Global, bytes: &[u8], buf: &mut [u8]) -> Outcome {
    outcome_of_text(simd_cesu8::decode(alloc, bytes), buf)
}

/// Calls `simd_cesu8::decode_strict`.
#[unsafe(no_mangle)]
pub extern "C" fn measured_decode_strict(alloc: Global, bytes: &[u8], buf: &mut [u8]) -> Outcome {
    outcome_of_text(simd_cesu8::decode_strict(alloc, bytes), buf)
}

/// Calls `simd_cesu8::encoded_len`. It writes nothing.
#[unsafe(no_mangle)]
pub extern "C" fn measured_encoded_len(text: &[u8], buf: &mut [u8]) -> Outcome {
    let _ = buf;
    match text_of(text) {
        Some(text) => outcome_of_length(simd_cesu8::encoded_len(text)),
        None => without_result(true),
    }
}

/// Calls `simd_cesu8::lossy_len`. It writes nothing.
#[unsafe(no_mangle)]
pub extern "C" fn measured_lossy_len(bytes: &[u8], buf: &mut [u8]) -> Outcome {
    let _ = buf;
    match simd_cesu8::lossy_len(bytes) {
        Some(length) => outcome_of_length(length),
        None => without_result(false),
    }
}

/// Calls `simd_cesu8::valid_up_to`. It writes nothing.
#[unsafe(no_mangle)]
pub extern "C" fn measured_valid_up_to(bytes: &[u8], buf: &mut [u8]) -> Outcome {
    let _ = buf;
    outcome_of_length(simd_cesu8::valid_up_to(bytes))
}

/// Calls `simd_cesu8::decode_lossy_strict`.
#[unsafe(no_mangle)]
pub extern "C" fn measured_decode_lossy_strict(
    alloc: Global,
    bytes: &[u8],
    buf: &mut [u8],
) -> Outcome {
    outcome_of_lossy_text(simd_cesu8::decode_lossy_strict(alloc, bytes), buf)
}

/// Calls `simd_cesu8::decode_lossy`.
#[unsafe(no_mangle)]
pub extern "C" fn measured_decode_lossy(alloc: Global, bytes: &[u8], buf: &mut [u8]) -> Outcome {
    outcome_of_lossy_text(simd_cesu8::decode_lossy(alloc, bytes), buf)
}

/// Calls `simd_cesu8::encode` on each text.
#[unsafe(no_mangle)]
pub extern "C" fn measured_encode_each(
    alloc: Global,
    texts: &[u8],
    length: usize,
    times: usize,
) -> Outcome {
    outcome_of_sum(texts, length, times, |text| {
        Some(simd_cesu8::encode(alloc, text).ok()?.as_bytes().len())
    })
}

/// Calls `simd_cesu8::encoded_len` on each text.
#[unsafe(no_mangle)]
pub extern "C" fn measured_encoded_len_each(texts: &[u8], length: usize, times: usize) -> Outcome {
    outcome_of_sum(
        texts,
        length,
        times,
        |text| Some(simd_cesu8::encoded_len(text)),
    )
}

/// Calls `active::contains_utf8_4_byte_char_header`. The outcome's length is 1 for yes and 0 for
/// no.
#[unsafe(no_mangle)]
pub extern "C" fn measured_contains_utf8_4_byte_char_header(
    bytes: &[u8],
    buf: &mut [u8],
) -> Outcome {
    let _ = buf;
    outcome_of_length(usize::from(active::contains_utf8_4_byte_char_header(bytes)))
}

/// Calls `active::contains_null_or_utf8_4_byte_char_header`. The outcome's length is 1 for yes and
/// 0 for no.
#[unsafe(no_mangle)]
pub extern "C" fn measured_contains_null_or_utf8_4_byte_char_header(
    bytes: &[u8],
    buf: &mut [u8],
) -> Outcome {
    let _ = buf;
    outcome_of_length(usize::from(active::contains_null_or_utf8_4_byte_char_header(bytes)))
}

/// Calls `simd_cesu8::decode_to_slice`.
#[unsafe(no_mangle)]
pub extern "C" fn measured_decode_to_slice(bytes: &[u8], buf: &mut [u8]) -> Outcome {
    outcome_of_written_text(simd_cesu8::decode_to_slice(bytes, buf))
}

/// Calls `simd_cesu8::decode_strict_to_slice`.
#[unsafe(no_mangle)]
pub extern "C" fn measured_decode_strict_to_slice(bytes: &[u8], buf: &mut [u8]) -> Outcome {
    outcome_of_written_text(simd_cesu8::decode_strict_to_slice(bytes, buf))
}

/// Calls `simd_cesu8::decode_lossy_to_slice`.
#[unsafe(no_mangle)]
pub extern "C" fn measured_decode_lossy_to_slice(bytes: &[u8], buf: &mut [u8]) -> Outcome {
    outcome_of_written_lossy_text(simd_cesu8::decode_lossy_to_slice(bytes, buf))
}

/// Calls `simd_cesu8::decode_lossy_strict_to_slice`.
#[unsafe(no_mangle)]
pub extern "C" fn measured_decode_lossy_strict_to_slice(bytes: &[u8], buf: &mut [u8]) -> Outcome {
    outcome_of_written_lossy_text(simd_cesu8::decode_lossy_strict_to_slice(bytes, buf))
}

/// Calls `simd_cesu8::encode_to_slice`.
#[unsafe(no_mangle)]
pub extern "C" fn measured_encode_to_slice(text: &[u8], buf: &mut [u8]) -> Outcome {
    match text_of(text) {
        Some(text) => outcome_of_written_bytes(simd_cesu8::encode_to_slice(text, buf)),
        None => without_result(true),
    }
}
