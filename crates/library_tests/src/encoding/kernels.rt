//! Tests of the kernels: for which bytes each returns true.

use crate::asserts::assert_of;
use simd_cesu8::implementation::{active, fallback, simd, word};
use std::ops::Range;
use std::process::Abort;

/// Whether a module's two kernels return these values: whether some byte is F0 to F7, and whether
/// some byte is 00 or F0 to F7.
macro_rules! is_right {
    ($module:ident, $bytes:ident, $four:ident, $null_four:ident) => {
        $module::contains_utf8_4_byte_char_header($bytes) == $four
            && $module::contains_null_or_utf8_4_byte_char_header($bytes) == $null_four
    };
}

/// The first module whose kernels do not return these values for the bytes.
fn first_wrong(bytes: &[u8], four: bool, null_four: bool) -> Option<&'static str> {
    if !(is_right!(fallback, bytes, four, null_four)) {
        Some("fallback")
    } else if !(is_right!(word, bytes, four, null_four)) {
        Some("word")
    } else if !(is_right!(simd, bytes, four, null_four)) {
        Some("simd")
    } else if !(is_right!(active, bytes, four, null_four)) {
        Some("active")
    } else {
        None
    }
}

/// Asserts that each module's kernels return these values for the bytes.
fn assert_right(rt: &impl Abort, bytes: &[u8], four: bool, null_four: bool) {
    let wrong = first_wrong(bytes, four, null_four);
    assert_of(rt, wrong.is_none(), &(wrong, bytes));
}

/// Bytes at the borders of the classes, with two facts: whether each is F0 to F7, and whether it is
/// 00 or F0 to F7.
static BYTES: [(u8, bool, bool); 14] = [
    (0x00, false, true),
    (0x01, false, false),
    (0x08, false, false),
    (0x61, false, false),
    (0x7F, false, false),
    (0x80, false, false),
    (0x81, false, false),
    (0xEF, false, false),
    (0xF0, true, true),
    (0xF4, true, true),
    (0xF5, true, true),
    (0xF7, true, true),
    (0xF8, false, false),
    (0xFF, false, false),
];

/// Input for which a kernel is wrong if its test of a word is inexact, or if it skips a word.
#[test]
fn finds_bytes_in_short_lists(rt: HostRuntime) {
    assert_right(&rt, b"", false, false);
    assert_right(&rt, &[0x81; 8], false, false);
    assert_right(&rt, &[0x08; 8], false, false);
    assert_right(&rt, b"\x00\x01\x01\x01\x01\x01\x01\x01", false, true);
    assert_right(&rt, b"\x01\x01\x01\x01\x01\x01\x01\x00", false, true);
    assert_right(&rt, &[0x01; 8], false, false);
    assert_right(&rt, b"aaaaaaaa\xF0", true, true);
}

/// Asserts that one byte F7 is found at this offset in input of this length.
fn assert_found_at(rt: &impl Abort, len: usize, place: usize) {
    let mut bytes = [0x61; 128];
    if let Some(byte) = bytes.get_mut(place) {
        *byte = 0xF7;
    }
    assert_right(rt, bytes.get(..len).unwrap_or(&[]), true, true);
}

/// One byte F7 near the borders of the vectors.
#[test]
fn finds_a_byte_in_a_long_list(rt: HostRuntime) {
    assert_right(&rt, &[0x61; 127], false, false);
    assert_found_at(&rt, 128, 127);
    for place in [0, 63, 64, 95, 96, 111, 112, 119, 120, 123, 124, 125, 126] {
        assert_found_at(&rt, 127, place);
    }
}

/// The first length, offset and byte for which a kernel is wrong. Input of each length is filled
/// with a byte that neither kernel searches for, and each byte of the table is put at each offset.
fn first_wrong_place(fill: u8, lengths: Range<usize>) -> Option<(usize, usize, u8)> {
    let mut bytes = [fill; 200];
    for len in lengths {
        let list = bytes.get_mut(..len)?;
        for place in 0..len {
            for (byte, four, null_four) in &BYTES {
                *list.get_mut(place)? = *byte;
                if first_wrong(list, *four, *null_four).is_some() {
                    return Some((len, place, *byte));
                }
            }
            *list.get_mut(place)? = fill;
        }
    }
    None
}

/// Asserts that no kernel is wrong in input of these lengths that is filled with a byte. The work
/// for a length grows with its square. So the tests below divide the lengths unevenly, and take
/// about equally long.
fn assert_found(rt: &impl Abort, fill: u8, lengths: Range<usize>) {
    let wrong = first_wrong_place(fill, lengths);
    assert_of(rt, wrong.is_none(), &wrong);
}

#[test]
fn finds_a_byte_among_01_up_to_117(rt: HostRuntime) {
    assert_found(&rt, 0x01, 1..118);
}

#[test]
fn finds_a_byte_among_01_up_to_147(rt: HostRuntime) {
    assert_found(&rt, 0x01, 118..148);
}

#[test]
fn finds_a_byte_among_01_up_to_169(rt: HostRuntime) {
    assert_found(&rt, 0x01, 148..170);
}

#[test]
fn finds_a_byte_among_01_up_to_186(rt: HostRuntime) {
    assert_found(&rt, 0x01, 170..187);
}

#[test]
fn finds_a_byte_among_01_up_to_200(rt: HostRuntime) {
    assert_found(&rt, 0x01, 187..201);
}

#[test]
fn finds_a_byte_among_61_up_to_117(rt: HostRuntime) {
    assert_found(&rt, 0x61, 1..118);
}

#[test]
fn finds_a_byte_among_61_up_to_147(rt: HostRuntime) {
    assert_found(&rt, 0x61, 118..148);
}

#[test]
fn finds_a_byte_among_61_up_to_169(rt: HostRuntime) {
    assert_found(&rt, 0x61, 148..170);
}

#[test]
fn finds_a_byte_among_61_up_to_186(rt: HostRuntime) {
    assert_found(&rt, 0x61, 170..187);
}

#[test]
fn finds_a_byte_among_61_up_to_200(rt: HostRuntime) {
    assert_found(&rt, 0x61, 187..201);
}

#[test]
fn finds_a_byte_among_81_up_to_117(rt: HostRuntime) {
    assert_found(&rt, 0x81, 1..118);
}

#[test]
fn finds_a_byte_among_81_up_to_147(rt: HostRuntime) {
    assert_found(&rt, 0x81, 118..148);
}

#[test]
fn finds_a_byte_among_81_up_to_169(rt: HostRuntime) {
    assert_found(&rt, 0x81, 148..170);
}

#[test]
fn finds_a_byte_among_81_up_to_186(rt: HostRuntime) {
    assert_found(&rt, 0x81, 170..187);
}

#[test]
fn finds_a_byte_among_81_up_to_200(rt: HostRuntime) {
    assert_found(&rt, 0x81, 187..201);
}

#[test]
fn finds_a_byte_among_ff_up_to_117(rt: HostRuntime) {
    assert_found(&rt, 0xFF, 1..118);
}

#[test]
fn finds_a_byte_among_ff_up_to_147(rt: HostRuntime) {
    assert_found(&rt, 0xFF, 118..148);
}

#[test]
fn finds_a_byte_among_ff_up_to_169(rt: HostRuntime) {
    assert_found(&rt, 0xFF, 148..170);
}

#[test]
fn finds_a_byte_among_ff_up_to_186(rt: HostRuntime) {
    assert_found(&rt, 0xFF, 170..187);
}

#[test]
fn finds_a_byte_among_ff_up_to_200(rt: HostRuntime) {
    assert_found(&rt, 0xFF, 187..201);
}

/// Asserts what the kernels return for one repeated byte, for each length but 0.
fn assert_filled(rt: &impl Abort, fill: u8, four: bool, null_four: bool) {
    let bytes = [fill; 200];
    for len in 1..201 {
        assert_right(rt, &bytes[..len], four, null_four);
    }
}

/// One repeated byte, which a kernel searches for or not, of each length.
#[test]
fn finds_a_byte_that_fills_a_list(rt: HostRuntime) {
    assert_right(&rt, &[], false, false);
    assert_filled(&rt, 0x01, false, false);
    assert_filled(&rt, 0x61, false, false);
    assert_filled(&rt, 0x81, false, false);
    assert_filled(&rt, 0xFF, false, false);
    assert_filled(&rt, 0x00, false, true);
    assert_filled(&rt, 0xF4, true, true);
}
