//! How the errors display.

use crate::asserts::{assert_of, is_text};
use simd_cesu8::{DecodeFault, DecodingError, encode_to_slice};
use std::alloc::{AllocError, Global};
use std::error::Error;
use std::process::Abort;
use test_cases::flavors::{Flavor, decode};

/// Whether an error displays as these words, with and without a width.
fn shows<E: Error>(alloc: Global, error: &E, words: &str) -> bool {
    is_text(format!(in alloc; "{error}"), words) && is_text(format!(in alloc; "{error:>20}"), words)
}

/// Whether an error's debug text is its name, with and without a width.
fn shows_name(alloc: Global, error: DecodingError) -> bool {
    is_text(format!(in alloc; "{error:?}"), "DecodingError")
        && is_text(format!(in alloc; "{error:20?}"), "DecodingError")
}

/// Asserts how the error of invalid input is shown.
fn assert_invalid(rt: &impl Abort, alloc: Global, error: DecodingError) {
    let fault = DecodeFault::Invalid(error);
    assert_of(rt, shows(alloc, &error, "invalid input"), &error);
    assert_of(rt, shows(alloc, &fault, "invalid input"), &fault);
    assert_of(rt, shows_name(alloc, error), &error);
}

#[test]
fn errors_are_shown(rt: HostRuntime) {
    match decode(rt.alloc(), Flavor::Cesu8, b"\xFF") {
        Err(DecodeFault::Invalid(error)) => assert_invalid(&rt, rt.alloc(), error),
        _ => assert_of(&rt, false, &"FF, which is not an error"),
    }
    let fault = DecodeFault::Memory(AllocError);
    assert_of(&rt, shows(rt.alloc(), &fault, "out of memory"), &fault);
    match encode_to_slice("\u{10400}", &mut []) {
        Err(fault) => assert_of(&rt, shows(rt.alloc(), &fault, "buffer too short"), &fault),
        Ok(_) => assert_of(&rt, false, &"an empty buffer, which is not an error"),
    }
}
