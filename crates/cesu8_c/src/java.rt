//! The calls for length-prefixed Java strings. C passes each slice as a pointer and a length, and
//! `lib.rt` says what every call returns.

ghost use Rattle.std.specs.Prelude.{◌≡◌, ◌≤◌, length, take, IfSome, IfNone};
ghost use Rattle.java_text.specs.Form.{count_in, counted, IsTruncated};
ghost use Rattle.cesu8_c.specs.Answers.{WritesForm, ReadsForm, ReadsFormLossily};

use crate::answer::{Answer, NOT_UTF8, Reading, TOO_LONG, TRUNCATED};
use java_text::{WriteSliceFault, write_utf_to_slice};
use simd_cesu8::implementation::{decode_mutf8_front_to_slice, text_of};
use simd_cesu8::mutf8;

/// Writes UTF-8 as `java_text::write_utf_to_slice` does (Java's `DataOutput.writeUTF`): the length
/// of its MUTF-8 in two bytes, the high byte first, and then the MUTF-8. `TOO_LONG` means that the
/// MUTF-8 has more than 65,535 bytes, and `NOT_UTF8` that the input is not UTF-8.
#[unsafe(no_mangle)]
pub extern "C" fn cesu8_java_write(text: &[u8], buf: &mut [u8]) -> Answer
    ensures { WritesForm text.now result buf.old buf.new }
{
    let Some(text) = text_of(text) else {
        return Answer::without(NOT_UTF8);
    };
    match write_utf_to_slice(text, buf) {
        Ok(length) => Answer::of_length(length),
        Err(WriteSliceFault::TooLong(_)) => Answer::without(TOO_LONG),
        Err(WriteSliceFault::TooShort(needed)) => Answer::too_small(needed),
    }
}

/// Reads the string that begins the bytes, strictly, as `java_text::read_utf_to_slice` does (Java's
/// `DataInput.readUTF`): the count in the first two bytes, and as many bytes of MUTF-8. `taken` is
/// how many bytes of the input the string takes, with every status but `TRUNCATED`.
#[unsafe(no_mangle)]
pub extern "C" fn cesu8_java_read(bytes: &[u8], buf: &mut [u8]) -> Reading
    ensures { ReadsForm bytes.now result buf.old buf.new }
{
    // A law does nothing at run time, but the proof uses its contract. This law says that bytes
    // begin with a Java string exactly if they are its count, its MUTF-8 and the rest.
    java_text::laws::parts();
    match split_count(bytes) {
        Some((after, count)) => {
            // Usually other strings follow, so a short one is decoded with a vector that includes
            // bytes after it: then the time depends less on its length.
            let answer = Answer::of_text(decode_mutf8_front_to_slice(after, count, buf));
            Reading::of(answer, 2 + count)
        }
        None => Reading::of(Answer::without(TRUNCATED), 0),
    }
}

/// Reads the string that begins the bytes, which may be damaged, as
/// `java_text::read_utf_lossy_to_slice` does. It writes each encoded character of MUTF-8 in the
/// counted bytes, and U+FFFD for each byte that is not part of one. `taken` is as in
/// `cesu8_java_read`.
#[unsafe(no_mangle)]
pub extern "C" fn cesu8_java_read_lossy(bytes: &[u8], buf: &mut [u8]) -> Reading
    ensures { ReadsFormLossily bytes.now result buf.old buf.new }
{
    match split_count(bytes) {
        Some((after, count)) => {
            let outcome = mutf8::decode_lossy_strict_to_slice(&after[..count], buf);
            Reading::of(Answer::of_lossy_text(outcome), 2 + count)
        }
        None => Reading::of(Answer::without(TRUNCATED), 0),
    }
}

/// Splits the input after the count: returns the bytes after the first two, and the count of the
/// string's bytes. Returns `None` if there are fewer than two bytes, or fewer after them than they
/// count.
fn split_count(bytes: &[u8]) -> Option<(&[u8], usize)>
    ensures counted { IfSome result (λ front. take front.1 front.0.now ≡ counted bytes.now) }
    ensures count { IfSome result (λ front. front.1 ≡ count_in bytes.now) }
    ensures within { IfSome result (λ front. front.1 ≤ length front.0.now) }
    ensures most { count_in bytes.now ≤ 65535 }
    ensures whole { IfSome result (λ _. ¬ (IsTruncated bytes.now)) }
    ensures none { IfNone result (IsTruncated bytes.now) }
{
    let [high, low, after @ ..] = bytes else {
        return None;
    };
    let count = usize::from(u16::from_be_bytes([*high, *low]));
    if count > after.len() {
        return None;
    }
    Some((after, count))
}
