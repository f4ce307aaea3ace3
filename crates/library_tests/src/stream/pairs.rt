//! Tests `decode_strict` and `encode` of `cesu8_stream` on two characters: on every beginning of
//! their bytes, and with a buffer of every size up to more than is needed.

use crate::asserts::assert_of;
use crate::stream::calls::{CALLS, CHARACTERS, Call, joined};
use cesu8_stream::{Progress, State};
use std::alloc::Global;
use std::process::Abort;

/// Two characters as a call reads them (`input`) and writes them (`output`), and how many bytes the
/// first one has in the input (`read`) and in the output (`written`).
#[derive(Drop)]
struct Pair {
    input: Vec<u8>,
    output: Vec<u8>,
    read: usize,
    written: usize,
}

/// Makes the pair of two characters, each of which is given in CESU-8, in MUTF-8 and in UTF-8.
fn pair_of(
    rt: &impl Abort,
    alloc: Global,
    call: Call,
    first: &[&[u8]; 3],
    second: &[&[u8]; 3],
) -> Pair {
    Pair {
        input: joined(rt, alloc, call.input(first), call.input(second)),
        output: joined(rt, alloc, call.output(first), call.output(second)),
        read: call.input(first).len(),
        written: call.output(first).len(),
    }
}

/// Whether a call that gets only the bytes before `cut` reads the whole characters among them, and
/// nothing else.
fn is_cut(call: Call, pair: &Pair, cut: usize) -> bool {
    let bytes = pair.input.as_slice();
    let (read, written) = if cut < pair.read {
        (0, 0)
    } else if cut < bytes.len() {
        (pair.read, pair.written)
    } else {
        (bytes.len(), pair.output.len())
    };
    let state = if read == cut {
        State::InputEmpty
    } else {
        State::Incomplete
    };
    let piece = bytes.get(..cut).unwrap_or(&[]);
    let expected = Progress {
        read,
        written,
        state,
    };
    call.run(piece, &mut [0xEE; 12]) == expected
}

/// Tests each cut of two characters: the call must read the whole characters before the cut.
fn assert_cuts(rt: &impl Abort, call: Call, pair: &Pair) {
    for cut in 0..pair.input.len().saturating_add(1) {
        let is_right = is_cut(call, pair, cut);
        assert_of(rt, is_right, &(cut, pair.input.as_slice()));
    }
}

/// What a call must return if its buffer has this size: it writes the whole characters that fit.
fn fitted(pair: &Pair, size: usize) -> Progress {
    let (read, written, state) = if size < pair.written {
        (0, 0, State::OutputFull)
    } else if size < pair.output.len() {
        (pair.read, pair.written, State::OutputFull)
    } else {
        (pair.input.len(), pair.output.len(), State::InputEmpty)
    };
    Progress {
        read,
        written,
        state,
    }
}

/// Whether a call writes the whole characters of two that fit in a buffer of this size, and leaves
/// the rest of the buffer unchanged.
fn is_fitted(call: Call, pair: &Pair, size: usize) -> bool {
    let mut buf = [0xEE; 24];
    let Some(part) = buf.get_mut(..size) else {
        return false;
    };
    let expected = fitted(pair, size);
    let text = pair.output.as_slice();
    call.run(&pair.input, part) == expected
        && buf.get(..expected.written) == text.get(..expected.written)
        && buf.get(expected.written..) == [0xEE; 24].get(expected.written..)
}

/// Tests two characters with a buffer of each size.
fn assert_sizes(rt: &impl Abort, call: Call, pair: &Pair) {
    for size in 0..21 {
        let fits = is_fitted(call, pair, size);
        assert_of(rt, fits, &(size, pair.input.as_slice()));
    }
}

/// Tests a character followed by each of `CHARACTERS`.
fn assert_before_each(rt: &impl Abort, alloc: Global, call: Call, first: &[&[u8]; 3]) {
    for second in &CHARACTERS {
        let pair = pair_of(rt, alloc, call, first, second);
        assert_cuts(rt, call, &pair);
        assert_sizes(rt, call, &pair);
    }
}

#[test]
fn reads_and_writes_whole_characters(rt: HostRuntime) {
    for call in CALLS {
        for first in &CHARACTERS {
            assert_before_each(&rt, rt.alloc(), call, first);
        }
    }
}
