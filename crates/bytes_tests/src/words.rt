//! Tests which words `test_word_any` tests, and which bytes `zero_marks` marks. Their contracts say
//! only whether some byte is found.

use cesu8_bytes::words::{contains_four, test_word_any, zero_marks};
use std::cell::Cell;

const ONES: u64 = 0x0101_0101_0101_0101;

/// Each byte is its own index.
static BYTES: [u8; 25] = [
    0, 1, 2, 3, 4, 5, 6, 7, 8, 9, 10, 11, 12, 13, 14, 15, 16, 17, 18, 19, 20, 21, 22, 23, 24,
];

/// The number of bytes, the number of words that are tested, and these words, each as its
/// difference from the word at index 0. The rest is zeros.
static CASES: [(usize, usize, [u64; 4]); 7] = [
    (7, 0, [0, 0, 0, 0]),
    (8, 2, [0, 0, 0, 0]),
    (9, 2, [0, ONES, 0, 0]),
    (16, 2, [0, 8 * ONES, 0, 0]),
    (17, 3, [0, 8 * ONES, 9 * ONES, 0]),
    (24, 3, [0, 8 * ONES, 16 * ONES, 0]),
    (25, 4, [0, 8 * ONES, 16 * ONES, 17 * ONES]),
];

/// Notes a word that is tested, as its difference from the word at index 0.
fn note(tested: &Cell<usize>, seen: &Cell<[u64; 4]>, word: u64) {
    let mut words = seen.get();
    if let Some(slot) = words.get_mut(tested.get()) {
        *slot = word.wrapping_sub(0x0706_0504_0302_0100);
    }
    seen.set(words);
    tested.set(tested.get().wrapping_add(1));
}

/// Whether a search finds something in so many bytes, the number of words that it tests, and these
/// words, as `note` notes them. Its fallback always returns true.
fn search(len: usize) -> (bool, usize, [u64; 4]) {
    let tested = Cell::new(0usize);
    let seen = Cell::new([0u64; 4]);
    let found = test_word_any(
        BYTES.get(..len).unwrap_or(&[]),
        |_: &[u8]| true,
        |word| {
            note(&tested, &seen, word);
            contains_four(word)
        },
    );
    (found, tested.get(), seen.get())
}

/// The words are the first eight bytes, each following eight, and the last eight. Fewer than
/// eight bytes go to the fallback.
#[test]
fn tests_each_word(rt: HostRuntime) {
    for (len, count, words) in &CASES {
        let is_right = search(*len) == (*count == 0, *count, *words);
        assert!(rt; is_right, "{len} bytes");
    }
}

/// Whether these eight bytes have these marks.
fn has_marks(bytes: [u8; 8], marks: u64) -> bool {
    zero_marks(u64::from_le_bytes(bytes)) == marks
}

/// The subtraction at a byte 00 borrows, and the borrow passes through bytes 01, which are then
/// marked too. A byte 81 is not marked, because its high bit was set before.
#[test]
fn marks_bytes_above_a_zero(rt: HostRuntime) {
    assert!(rt; has_marks([0, 1, 1, 1, 1, 1, 1, 1], 0x8080_8080_8080_8080));
    assert!(rt; has_marks([0x81; 8], 0));
}
