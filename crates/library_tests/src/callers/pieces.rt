//! `append_piece`, with pieces as reads of a file or a socket return them.

use crate::asserts::assert_of;
use cesu8_stream::State;
use std::alloc::Global;
use uses::append_piece;

/// Whether the call reads the first piece without an error, and leaves bytes exactly when it
/// reports that they are a part of a character.
fn begins(bytes: &mut Vec<u8>, text: &mut Vec<u8>) -> bool {
    match append_piece(bytes, text) {
        Ok(State::InputEmpty) => bytes.is_empty(),
        Ok(State::Incomplete) => !bytes.is_empty(),
        _ => false,
    }
}

/// Whether all bytes are read, and the whole text is this.
fn ends(bytes: &mut Vec<u8>, text: &mut Vec<u8>, want: &str) -> bool {
    append_piece(bytes, text) == Ok(State::InputEmpty)
        && bytes.is_empty()
        && text.as_slice() == want.as_bytes()
}

/// Whether CESU-8 that comes in two pieces, cut at an offset, is read as this text.
fn is_read_in_two(alloc: Global, input: &[u8], place: usize, want: &str) -> bool {
    let (first, second) = input.split_at(place.min(input.len()));
    let mut text = Vec::new(alloc);
    let Ok(mut bytes) = Vec::from_slice(alloc, first) else {
        return false;
    };
    begins(&mut bytes, &mut text)
        && bytes.extend_from_slice(second).is_ok()
        && ends(&mut bytes, &mut text, want)
}

/// A character of each width, cut at each place.
#[test]
fn reads_pieces(rt: HostRuntime) {
    let bytes = b"a\xC2\x80\xE2\x82\xAC\xED\xA0\xBD\xED\xB2\x96";
    for place in 0..12usize {
        let is_read = is_read_in_two(rt.alloc(), bytes, place, "a\u{80}\u{20AC}\u{1F496}");
        assert_of(&rt, is_read, &place);
    }
}

/// Whether the call stops at damage, and leaves it and the bytes after it.
fn stops(bytes: &mut Vec<u8>, text: &mut Vec<u8>, rest: &[u8]) -> bool {
    append_piece(bytes, text) == Ok(State::Malformed)
        && text.as_slice() == b"id=".as_slice()
        && bytes.as_slice() == rest
}

/// Whether damage is left, and also a byte that is appended to it.
fn keeps_damage(alloc: Global) -> bool {
    let mut text = Vec::new(alloc);
    let Ok(mut bytes) = Vec::from_slice(alloc, b"id=\xFF") else {
        return false;
    };
    stops(&mut bytes, &mut text, b"\xFF")
        && bytes.push(b'1').is_ok()
        && stops(&mut bytes, &mut text, b"\xFF1")
}

#[test]
fn keeps_damaged_pieces(rt: HostRuntime) {
    assert!(rt; keeps_damage(rt.alloc()));
}
