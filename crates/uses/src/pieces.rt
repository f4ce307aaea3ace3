//! CESU-8 that comes in pieces, as reads of a file or a socket return them.

ghost use Rattle.std.specs.Prelude.{◌≡◌, OnOk, OnErr, IfOk};
ghost use Rattle.uses.specs.Pieces.{Moves, Says};

use cesu8_stream::State;
use simd_cesu8::laws;
use std::alloc::AllocError;

/// Decodes the whole characters at the start of the bytes, and moves their text to the end of
/// `text`, in UTF-8. The rest of `bytes` is empty or a part of a character, or begins with damage,
/// as the state says: the caller appends the next piece to it, or stops.
///
/// It allocates only to make `text` longer. If that fails, both are unchanged.
///
/// ```rust
/// use cesu8_stream::State;
///
/// let mut text = Vec::new(alloc);
/// let mut bytes = Vec::from_slice(alloc, b"a\xED\xA0\xBD\xED")?;
/// assert_eq!(rt; uses::append_piece(&mut bytes, &mut text)?, State::Incomplete);
/// assert_eq!(rt; text.as_slice(), b"a".as_slice());
/// bytes.extend_from_slice(b"\xB2\x96b")?;
/// assert_eq!(rt; uses::append_piece(&mut bytes, &mut text)?, State::InputEmpty);
/// assert_eq!(rt; text.as_slice(), "a\u{1F496}b".as_bytes());
/// ```
pub fn append_piece(bytes: &mut Vec<u8>, text: &mut Vec<u8>) -> Result<State, AllocError>
    // No byte is lost, and none is read twice.
    ensures moves { OnOk result (Moves bytes.old.items bytes.new.items
        text.old.items text.new.items) }
    ensures state { IfOk result (λ state. Says state bytes.new.items) }
    ensures err_text { OnErr result (text.new.items ≡ text.old.items) }
    ensures err_bytes { OnErr result (bytes.new.items ≡ bytes.old.items) }
{
    // Laws do nothing at run time: the proof uses their contracts.
    laws::bounds();
    laws::concat();
    let start = text.len();
    // The text of an encoding is at most as long as the encoding, so all of it fits.
    text.resize(start + bytes.len(), 0)?;
    let progress = cesu8_stream::decode_strict(bytes, &mut text[start..]);
    text.truncate(start + progress.written);
    let rest = bytes.len() - progress.read;
    bytes.copy_within(progress.read.., 0);
    bytes.truncate(rest);
    Ok(progress.state)
}
