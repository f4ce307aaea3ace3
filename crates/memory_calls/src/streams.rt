//! The calls that convert a piece to the caller's buffer, and allocate nothing.

use crate::prints::print_outcome;
use cesu8_stream::{Progress, State, mutf8};
use std::io;
use test_cases::flavors::Flavor;

/// More than any call here writes: U+FFFD for each of 65,536 bytes.
const ROOM: usize = 200_000;

/// Makes the call of a name, with the bytes as the only piece, and prints why it stopped and what
/// it wrote. Returns `None` for any other name.
pub fn make(rt: &HostRuntime, name: &str, flavor: Flavor, bytes: &[u8]) -> Option<io::Result<()>> {
    // Zeroing the buffer takes long, so a call with another name returns first.
    if !name.starts_with("stream_") {
        return None;
    }
    let mut room = [0; ROOM];
    let progress = convert(name, flavor, bytes, &mut room)?;
    let written = &room[..progress.written.min(ROOM)];
    Some(print_outcome(rt, reason(progress.state), written))
}

/// Makes the call of a name.
fn convert(name: &str, flavor: Flavor, bytes: &[u8], buf: &mut [u8]) -> Option<Progress> {
    match (name, flavor) {
        ("stream_decode_strict", Flavor::Cesu8) => Some(cesu8_stream::decode_strict(bytes, buf)),
        ("stream_decode_strict", Flavor::Mutf8) => Some(mutf8::decode_strict(bytes, buf)),
        ("stream_decode_lossy_strict", Flavor::Cesu8) => {
            Some(cesu8_stream::decode_lossy_strict(bytes, true, buf))
        }
        ("stream_decode_lossy_strict", Flavor::Mutf8) => {
            Some(mutf8::decode_lossy_strict(bytes, true, buf))
        }
        ("stream_encode", Flavor::Cesu8) => Some(cesu8_stream::encode(bytes, buf)),
        ("stream_encode", Flavor::Mutf8) => Some(mutf8::encode(bytes, buf)),
        _ => None,
    }
}

/// Returns the word for why a call stopped.
fn reason(state: State) -> &'static str {
    match state {
        State::InputEmpty => "all",
        State::Incomplete => "incomplete",
        State::OutputFull => "full",
        State::Malformed => "malformed",
    }
}
