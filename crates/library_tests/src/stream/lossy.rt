//! The lossy decoders, with the encoding as an argument.

use cesu8_stream::{Progress, State, mutf8};

/// Calls the lossy decoder of an encoding.
pub fn decode_lossy(is_mutf8: bool, bytes: &[u8], is_last: bool, buf: &mut [u8]) -> Progress {
    if is_mutf8 {
        mutf8::decode_lossy_strict(bytes, is_last, buf)
    } else {
        cesu8_stream::decode_lossy_strict(bytes, is_last, buf)
    }
}

/// Whether this many calls of a lossy decoder with this buffer, one after another, read all bytes
/// and write this text. Each call has to read something, or to report that all input is read.
pub fn is_read((is_mutf8, calls): (bool, u8), bytes: &[u8], text: &[u8], buf: &mut [u8]) -> bool {
    let (mut rest, mut due) = (bytes, text);
    for _ in 0..calls {
        let progress = decode_lossy(is_mutf8, rest, true, buf);
        if progress.read == 0 && progress.state != State::InputEmpty {
            return false;
        }
        let Some(written) = buf.get(..progress.written) else {
            return false;
        };
        match (rest.get(progress.read..), due.strip_prefix(written)) {
            (Some(after), Some(left)) => (rest, due) = (after, left),
            _ => return false,
        }
    }
    rest.is_empty() && due.is_empty()
}
