//! Decodes bytes that may be damaged. First `lossy_windows` decodes what it can in few calls. Then
//! a loop converts what is well-formed, writes U+FFFD for the byte at which that stops, and goes on
//! after it. That is the lossy reading, since it replaces each byte that is in no encoded
//! character, and only these.

ghost use Rattle.std.specs.Prelude.{◌≡◌, ◌<◌, ◌≤◌, ◌∷◌, true, false, length, drop};
ghost use Rattle.cesu8_stream.specs.Lossy.{DecodesPiece, is_damage};

use crate::decoding::Decoding;
use crate::engine::convert_rest;
use crate::lossy_windows::decode_windows;
use crate::progress::{Progress, State};

/// U+FFFD in UTF-8.
const REPLACEMENT: [u8; 3] = [0xEF, 0xBF, 0xBD];

/// Decodes as much of the input as fits in the buffer, with U+FFFD for each byte in no character.
pub fn decode_lossy<C: Decoding>(bytes: &[u8], is_last: bool, buf: &mut [u8]) -> Progress
    ensures { DecodesPiece C.from C.reading is_last bytes.now result buf.old buf.new }
{
    C::laws();
    C::lossy_laws();
    let first = decode_windows::<C>(bytes, buf);
    let mut read = first.read;
    let mut written = first.written;
    loop {
        let found = convert_rest::<C>(&bytes[read..], &mut buf[written..]);
        read += found.read;
        written += found.written;
        if !is_damage(found.state, is_last) {
            return Progress {
                read,
                written,
                state: found.state,
            };
        }
        if !put_replacement(&mut buf[written..]) {
            return Progress {
                read,
                written,
                state: State::OutputFull,
            };
        }
        read += 1;
        written += REPLACEMENT.len();
    }
}

/// Returns whether the byte at which strict decoding stopped is replaced.
fn is_damage(state: State, is_last: bool) -> bool
    ensures { result ≡ is_damage state is_last }
{
    match state {
        State::InputEmpty | State::OutputFull => false,
        State::Incomplete => is_last,
        State::Malformed => true,
    }
}

/// Writes U+FFFD, if it fits, and returns whether it does.
fn put_replacement(buf: &mut [u8]) -> bool
    ensures fits { result ≡ true → 3 ≤ length buf.old }
    ensures written { result ≡ true
        → buf.new ≡ 0xEF ∷ 0xBF ∷ 0xBD ∷ drop 3 buf.old }
    ensures full { result ≡ false → length buf.old < 3 }
    ensures unchanged { result ≡ false → buf.new ≡ buf.old }
{
    if buf.len() < REPLACEMENT.len() {
        return false;
    }
    buf[..REPLACEMENT.len()].copy_from_slice(&REPLACEMENT);
    true
}
