//! Decodes what may be damaged in few calls. `simd_cesu8` reads a window as a whole, damage too, if
//! no character crosses its end. When little input or buffer is left, `lossy` decodes the rest.

ghost use Rattle.std.specs.Prelude.{◌≤◌, false, length};
ghost use Rattle.cesu8_stream.specs.Lossy.{ReadsOn};

use crate::cut::is_cut;
use crate::decoding::Decoding;
use crate::engine::{Moved, convert_window};
use crate::window::whole_characters;

/// A window that would be shorter is left to `lossy`, which then takes no longer.
const SHORTEST: usize = 64;

/// The most bytes of output for a byte of input: U+FFFD in place of a damaged one.
const WIDEST: usize = 3;

/// Decodes the input, but for a short rest, as far as it fits in the buffer.
pub fn decode_windows<C: Decoding>(bytes: &[u8], buf: &mut [u8]) -> Moved
    ensures reads { ReadsOn C.reading false bytes.now result.read result.written buf.old buf.new }
    ensures within { result.read ≤ length bytes.now }
{
    C::laws();
    C::lossy_laws();
    let first = convert_window::<C>(bytes, buf);
    let rest = decode_rest_by_windows::<C>(&bytes[first.read..], &mut buf[first.written..]);
    Moved {
        read: first.read + rest.read,
        written: first.written + rest.written,
    }
}

/// Decodes one window after another, until the input or the buffer is short.
fn decode_rest_by_windows<C: Decoding>(bytes: &[u8], buf: &mut [u8]) -> Moved
    ensures reads { ReadsOn C.reading false bytes.now result.read result.written buf.old buf.new }
    ensures within { result.read ≤ length bytes.now }
{
    let mut read = 0;
    let mut written = 0;
    loop {
        let moved = decode_window::<C>(&bytes[read..], &mut buf[written..]);
        read += moved.read;
        written += moved.written;
        if moved.read == 0 {
            return Moved { read, written };
        }
    }
}

/// Decodes as many bytes as surely fit, but for those at the end that may be a part of a character.
/// It leaves at least five bytes, since `is_cut` also tests the five bytes after `end`. It reads
/// nothing if fewer than `SHORTEST` bytes surely fit, or if a character crosses `end`.
fn decode_window<C: Decoding>(bytes: &[u8], buf: &mut [u8]) -> Moved
    ensures reads { ReadsOn C.reading false bytes.now result.read result.written buf.old buf.new }
    ensures within { result.read ≤ length bytes.now }
{
    C::lossy_laws();
    let most = bytes.len().min(buf.len() / WIDEST);
    if most >= SHORTEST {
        let end = whole_characters(&bytes[..most - 5]);
        if is_cut::<C>(bytes, end) {
            if let Some(written) = C::write_lossy(&bytes[..end], buf) {
                return Moved { read: end, written };
            }
        }
    }
    Moved {
        read: 0,
        written: 0,
    }
}
