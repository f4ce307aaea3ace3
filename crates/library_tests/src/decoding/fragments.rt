//! Fragments of characters in random order, compared with the plain decoder. The random numbers are
//! the same in each run.

use crate::asserts::assert_readings;
use crate::decoding::rows::ROWS;
use std::alloc::{AllocError, Global};
use std::process::Abort;
use test_cases::fills::FILLS;

/// The number that a xorshift generator returns after this one.
fn after(number: u64) -> u64 {
    let number = number ^ (number << 13);
    let number = number ^ (number >> 7);
    number ^ (number << 17)
}

/// The bytes of the row with this number, if `ROWS` is repeated.
fn row_at(place: usize) -> &'static [u8] {
    ROWS[place % ROWS.len()].0
}

/// A random sequence of `pieces` pieces: about one in `one_of` is a row of `ROWS`, and the others
/// are characters.
fn sequence(alloc: Global, seed: u64, pieces: u64, one_of: u64) -> Result<Vec<u8>, AllocError> {
    let mut bytes = Vec::new(alloc);
    // The sequence starts from an odd number: after 0, `after` would return only 0.
    let mut number = after(after(seed.wrapping_mul(0x9E37_79B9_7F4A_7C15) | 1));
    for _piece in 0..pieces {
        number = after(number);
        let drawn = (number >> 32) as usize;
        if number.checked_rem(one_of).unwrap_or(0) == 0 {
            bytes.extend_from_slice(row_at(drawn))?;
        } else {
            bytes.extend_from_slice(FILLS[drawn % FILLS.len()])?;
        }
    }
    Ok(bytes)
}

/// Asserts what is decoded of 400 sequences of 0 to 240 pieces.
fn assert_sequences(rt: &impl Abort, alloc: Global, one_of: u64) {
    for seed in 0..400u64 {
        let bytes = sequence(alloc, seed, seed % 25 * (seed % 11), one_of);
        assert_readings(rt, alloc, &bytes.expect(rt, "a sequence"));
    }
}

/// Sequences of rows alone, and of characters with some rows among them.
#[test]
fn reads_fragments(rt: HostRuntime) {
    assert_sequences(&rt, rt.alloc(), 1);
    assert_sequences(&rt, rt.alloc(), 3);
    assert_sequences(&rt, rt.alloc(), 50);
    assert_sequences(&rt, rt.alloc(), 400);
}
