//! All 65,536 inputs of two bytes, compared with the plain decoder.
//!
//! The numbers below follow from the byte patterns. In CESU-8, 128 * 128 inputs are two characters
//! of ASCII, and 30 * 64 are a character of two bytes: together 18,304. Of the others,
//! 2 * 128 * 128 have one byte of ASCII and one ill-formed byte, and the rest have two ill-formed
//! bytes. In MUTF-8, 00 is ill-formed and C0 80 is a character. A lenient call also accepts input
//! that is UTF-8, in which 00 is a character.

use crate::asserts::{assert_of, assert_same};
use std::alloc::Global;
use std::process::Abort;
use test_cases::comparisons::expect_outcome;
use test_cases::decoders::{Decoder, Outcome};
use test_cases::flavors::{Flavor, lossy_len};
use test_cases::plain::read;

/// The numbers of inputs that are decoded, of those that are borrowed, and of U+FFFD that are
/// written.
type Counts = (u32, u32, usize);

/// The counts with one more outcome, for input with this many ill-formed bytes.
fn add((read_inputs, borrowed, marks): Counts, outcome: Outcome<'_>, damaged: usize) -> Counts {
    match outcome {
        Outcome::Borrowed(_) => (read_inputs.wrapping_add(1), borrowed.wrapping_add(1), marks),
        Outcome::Owned(_) => (
            read_inputs.wrapping_add(1),
            borrowed,
            marks.wrapping_add(damaged),
        ),
        Outcome::Invalid | Outcome::Memory => (read_inputs, borrowed, marks),
    }
}

/// Asserts the outcome of one call for each input, and the counts of all outcomes.
fn assert_counts(rt: &impl Abort, alloc: Global, decoder: Decoder, flavor: Flavor, due: Counts) {
    let mut counts = (0, 0, 0);
    for number in 0..0x10000u32 {
        let [_, _, first, second] = number.to_be_bytes();
        let bytes = [first, second];
        let reading = read(alloc, flavor, &bytes).expect(rt, "a reading");
        let outcome = reading.expected(decoder, &bytes);
        let compared = expect_outcome(alloc, decoder, flavor, &bytes, outcome);
        assert_same(rt, compared, &bytes);
        counts = add(counts, outcome, reading.damaged);
    }
    assert_of(rt, counts == due, &(decoder, flavor, counts));
}

/// Asserts the outcome of one call for each input, and its counts in CESU-8 and in MUTF-8.
fn assert_both(rt: &impl Abort, alloc: Global, decoder: Decoder, [cesu8, mutf8]: [Counts; 2]) {
    assert_counts(rt, alloc, decoder, Flavor::Cesu8, cesu8);
    assert_counts(rt, alloc, decoder, Flavor::Mutf8, mutf8);
}

#[test]
fn reads_pairs_strictly(rt: HostRuntime) {
    let due = [(18_304, 18_304, 0), (18_050, 18_049, 0)];
    assert_both(&rt, rt.alloc(), Decoder::Strict, due);
}

#[test]
fn reads_pairs_leniently(rt: HostRuntime) {
    let due = [(18_304, 18_304, 0), (18_305, 18_304, 0)];
    assert_both(&rt, rt.alloc(), Decoder::Lenient, due);
}

#[test]
fn reads_pairs_lossily_and_strictly(rt: HostRuntime) {
    let due = [(65_536, 18_304, 61_696), (65_536, 18_049, 62_206)];
    assert_both(&rt, rt.alloc(), Decoder::LossyStrict, due);
}

#[test]
fn reads_pairs_lossily(rt: HostRuntime) {
    let due = [(65_536, 18_304, 61_696), (65_536, 18_304, 61_950)];
    assert_both(&rt, rt.alloc(), Decoder::LossyLenient, due);
}

/// Asserts `lossy_len` of each input, and the number of inputs with each length, from 0 to 6.
fn assert_lengths(rt: &impl Abort, alloc: Global, flavor: Flavor, due: [u32; 7]) {
    let mut counts = [0u32; 7];
    for number in 0..0x10000u32 {
        let [_, _, first, second] = number.to_be_bytes();
        let bytes = [first, second];
        let len = read(alloc, flavor, &bytes)
            .expect(rt, "a reading")
            .text
            .len();
        let measured = lossy_len(flavor, &bytes);
        assert_of(rt, measured == Some(len), &(flavor, measured, bytes));
        if let Some(count) = counts.get_mut(len) {
            *count = count.wrapping_add(1);
        }
    }
    assert_of(rt, counts == due, &(flavor, counts));
}

#[test]
fn measures_pairs(rt: HostRuntime) {
    let counts = [0, 0, 18_304, 0, 32_768, 0, 14_464];
    assert_lengths(&rt, rt.alloc(), Flavor::Cesu8, counts);
    let counts = [0, 1, 18_049, 0, 32_766, 0, 14_720];
    assert_lengths(&rt, rt.alloc(), Flavor::Mutf8, counts);
}
