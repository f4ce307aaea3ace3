//! Tests that `any_by_widths` calls its fallback if and only if a single byte is left after the
//! vectors of 64, 32, 16, 8, 4 and 2 bytes.

use cesu8_bytes::lanes::class::{Either, FourByteLead, Null};
use cesu8_bytes::lanes::widths::any_by_widths;

/// The fallback of both searches, which always returns true.
fn found_in_rest(_rest: &[u8]) -> bool {
    true
}

/// Lengths, and whether one byte is left over.
static CASES: [(usize, bool); 6] = [
    (0, false),
    (1, true),
    (2, false),
    (3, true),
    (126, false),
    (127, true),
];

/// Whether each of two searches calls the fallback for so many bytes. No byte is in a class, so a
/// search returns true only if it calls the fallback.
fn asks(len: usize) -> (bool, bool) {
    let bytes = [0x61; 127];
    let bytes = bytes.get(..len).unwrap_or(&[]);
    let found = any_by_widths::<FourByteLead, _>(bytes, found_in_rest);
    let null_found = any_by_widths::<Either<Null, FourByteLead>, _>(bytes, found_in_rest);
    (found, null_found)
}

/// The fallback is called if one byte is left over, and only then.
#[test]
fn asks_the_fallback_of_a_last_byte(rt: HostRuntime) {
    for (len, answer) in &CASES {
        assert!(rt; asks(*len) == (*answer, *answer), "{len} bytes");
    }
}
