//! Many texts in one buffer.

ghost use Rattle.std.specs.Prelude.{◌≡◌, ◌<◌, ◌≤◌, ◌+◌, ◌++◌, length, IsOk, OnOk, OnErr, IfSome, IfNone, vec_len, vec_capacity};
ghost use Rattle.simd_cesu8.specs.Encoding.{Cesu8, encoding};
ghost use Rattle.uses.specs.Texts.{joined};

use simd_cesu8::laws;
use std::alloc::AllocError;

/// Appends the CESU-8 of each text to the buffer: of all of them, or of none.
///
/// If the capacity is too small, it allocates once, exactly what they need. It returns `AllocError`
/// if that fails, or if the length does not fit `usize`. The buffer is then unchanged.
///
/// ```rust
/// let mut buf = Vec::new(alloc);
/// uses::append_all(&["a", "\u{1F496}"], &mut buf)?;
/// assert_eq!(rt; buf.as_slice(), b"a\xED\xA0\xBD\xED\xB2\x96".as_slice());
/// ```
pub fn append_all(texts: &[&str], buf: &mut Vec<u8>) -> Result<(), AllocError>
    ensures ok { OnOk result
        (buf.new.items ≡ buf.old.items ++ encoding Cesu8 (joined texts.now)) }
    ensures err { OnErr result (buf.new.items ≡ buf.old.items) }
    ensures err_capacity { OnErr result (vec_capacity buf.new ≡ vec_capacity buf.old) }
    ensures room { vec_len buf.old + length (encoding Cesu8 (joined texts.now))
        ≤ vec_capacity buf.old → IsOk result }
{
    // A law does nothing at run time: the proof uses its contract.
    laws::concat();
    let room = encoded_len(texts).ok_or(AllocError)?;
    buf.reserve_exact(room)?;
    for text in texts {
        // The capacity is enough for all of them, so this can't fail.
        simd_cesu8::encode_into(text, buf).unwrap();
    }
    Ok(())
}

/// Returns the length of the CESU-8 of all texts, in bytes, if it fits `usize`.
fn encoded_len(texts: &[&str]) -> Option<usize>
    ensures some { IfSome result (λ len. len ≡ length (encoding Cesu8 (joined texts.now))) }
    ensures none { IfNone result (usize.MAX < length (encoding Cesu8 (joined texts.now))) }
{
    laws::concat();
    let mut total: usize = 0;
    for text in texts {
        total = total.checked_add(simd_cesu8::encoded_len(text))?;
    }
    Some(total)
}
