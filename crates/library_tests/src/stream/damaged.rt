//! Damaged bytes, which the lossy calls read in two pieces, or through a small buffer.

use crate::asserts::assert_of;
use crate::stream::lossy::{decode_lossy, is_read};
use cesu8_stream::State;
use std::process::Abort;

/// Bytes, most of them damaged, and their lossy reading in UTF-8, which both encodings give.
pub const DAMAGED: [(&[u8], &str); 8] = [
    (b"a\xFFb", "a\u{FFFD}b"),
    (b"\xE2\x82A", "\u{FFFD}\u{FFFD}A"),
    (b"\xED\xA0\xBD\xED\xB2\x96", "\u{1F496}"),
    (b"\xED\xA0\xBD", "\u{FFFD}\u{FFFD}\u{FFFD}"),
    (
        b"\xED\xA0\xBD\xED\xB2",
        "\u{FFFD}\u{FFFD}\u{FFFD}\u{FFFD}\u{FFFD}",
    ),
    (
        b"\xED\xA0\x80\xED\xA0\x80\xED\xB0\x80",
        "\u{FFFD}\u{FFFD}\u{FFFD}\u{10000}",
    ),
    (b"\xF0\x9F\x92\x96", "\u{FFFD}\u{FFFD}\u{FFFD}\u{FFFD}"),
    (b"x\xC3", "x\u{FFFD}"),
];

/// Reads damaged bytes in two pieces, and returns whether the second call has the right state and
/// both together write the text. It writes after what the first call has written.
fn is_read_in_two(is_mutf8: bool, bytes: &[u8], cut: usize, text: &str) -> bool {
    let mut buf = [0xEE; 64];
    let piece = bytes.get(..cut).unwrap_or(&[]);
    let first = decode_lossy(is_mutf8, piece, false, &mut buf);
    let (Some(rest), Some(room)) = (bytes.get(first.read..), buf.get_mut(first.written..)) else {
        return false;
    };
    let second = decode_lossy(is_mutf8, rest, true, room);
    let written = first.written.saturating_add(second.written);
    first.state != State::Malformed
        && first.state != State::OutputFull
        && second.state == State::InputEmpty
        && buf.get(..written) == Some(text.as_bytes())
}

/// Tests each cut of damaged bytes: two calls together must write their lossy reading.
fn assert_in_two(rt: &impl Abort, is_mutf8: bool, bytes: &[u8], text: &str) {
    for cut in 0..bytes.len().saturating_add(1) {
        let is_read = is_read_in_two(is_mutf8, bytes, cut, text);
        assert_of(rt, is_read, &(is_mutf8, cut, bytes));
    }
}

#[test]
fn reads_damage_in_two_pieces(rt: HostRuntime) {
    for (bytes, text) in &DAMAGED {
        assert_in_two(&rt, false, bytes, text);
        assert_in_two(&rt, true, bytes, text);
    }
}

/// Tests damaged bytes with buffers of 4 to 8 bytes. With four or more, each call reads at least
/// one of the at most nine bytes, so 16 calls are enough.
fn assert_through(rt: &impl Abort, is_mutf8: bool, bytes: &[u8], text: &str) {
    for size in 4..9 {
        let mut buf = [0; 8];
        let is_right = match buf.get_mut(..size) {
            Some(room) => is_read((is_mutf8, 16), bytes, text.as_bytes(), room),
            None => false,
        };
        assert_of(rt, is_right, &(is_mutf8, size, bytes));
    }
}

#[test]
fn reads_damage_through_a_small_buffer(rt: HostRuntime) {
    for (bytes, text) in &DAMAGED {
        assert_through(&rt, false, bytes, text);
        assert_through(&rt, true, bytes, text);
    }
}
