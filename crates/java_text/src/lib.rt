//! Java strings after their length, as `DataOutput.writeUTF` writes them and `DataInput.readUTF`
//! reads them. Here this is called the form of a text. It begins with the count in two bytes, the
//! high byte first: the length in bytes of the text's Modified UTF-8 (MUTF-8). This MUTF-8 follows.
//!
//! The count says where a form ends, so forms can follow one another. [`read_utf`] returns the text
//! and the input after the form, where the next one begins. Text with more than 65,535 bytes of
//! MUTF-8 has no form.
//!
//! | you have | you want | call |
//! |---|---|---|
//! | text | its form, appended to your `Vec` | [`write_utf`] |
//! | bytes that begin with a form | its text and the bytes after it, or an error | [`read_utf`] |
//! | the same, perhaps damaged | text, unless bytes are missing | [`read_utf_lossy`] |
//!
//! Three calls write the form or the text to your buffer, without an allocator:
//! [`write_utf_to_slice`], [`read_utf_to_slice`] and [`read_utf_lossy_to_slice`].
//!
//! ```rust
//! let mut buf = Vec::new(alloc);
//! java_text::write_utf("a\0", &mut buf)?;
//! java_text::write_utf("\u{1F496}", &mut buf)?;
//! assert_eq!(rt; buf.as_slice(), b"\0\x03a\xC0\x80\0\x06\xED\xA0\xBD\xED\xB2\x96".as_slice());
//!
//! let (first, rest) = java_text::read_utf(alloc, buf.as_slice())?;
//! let (second, rest) = java_text::read_utf(alloc, rest)?;
//! assert_eq!(rt; (first.as_str(), second.as_str()), ("a\0", "\u{1F496}"));
//! assert!(rt; rest.is_empty());
//! ```
//!
//! [`mutf8::valid_up_to`] finds the first damage in the MUTF-8 of a form, which is after the two
//! bytes of the count:
//!
//! ```rust
//! let damaged = b"\0\x04a\xC0\x80\0".as_slice();
//! assert!(rt; java_text::read_utf(alloc, damaged).is_err());
//! assert_eq!(rt; simd_cesu8::mutf8::valid_up_to(&damaged[2..]), 3);
//! ```
#![tactic(auto)]

ghost use Rattle.std.specs.Prelude.{◌≡◌, ℕ, List, ◌↔◌, ◌<◌, ◌≤◌, ◌+◌, ◌++◌, Err, length, IfOk, IfErr, OnOk, OnErr, IsOk, IsOkUnless, vec_len, vec_capacity};
ghost use Rattle.std.specs.Str.{chars};
ghost use Rattle.simd_cesu8.specs.Encoding.{Mutf8};
ghost use Rattle.simd_cesu8.specs.Class.{IsUnchangedUtf8};
ghost use Rattle.simd_cesu8.specs.Reading.{IsStrictReading, HasNoStrictReading, reading, lossy_length};
ghost use Rattle.simd_cesu8.specs.Slices.{WritesReading};
ghost use Rattle.simd_cesu8.specs.Cow.{BorrowsTextWhere, BuildsTextOfCapacity};
ghost use Rattle.java_text.specs.Form.{mutf8_len, HasForm, java_form, BeginsWithForm, BeginsOnlyWithForm, NoFormBegins, count_in, counted, rest_in, IsTruncated};
ghost use Rattle.java_text.specs.Read.{IfRead, text_of};
ghost use Rattle.java_text.specs.Fault.{OnInvalid, OnRefused};
ghost use Rattle.java_text.specs.Slices.{WritesForm, WritesCounted};

mod fault;
pub mod laws;

pub use crate::fault::{ReadFault, ReadSliceFault, WriteFault, WriteSliceFault};
use simd_cesu8::implementation::decode_mutf8_front_to_slice;
use simd_cesu8::{CowText, DecodeSliceFault, LossySliceFault, mutf8};
use std::alloc::Global;

/// Appends the form of a string (Java's `DataOutput.writeUTF`) to the buffer.
///
/// It returns `TooLong`, with the length in bytes, exactly when the string's MUTF-8 has more than
/// 65,535 bytes. It tests this first, before it allocates. If the capacity is too small, it
/// allocates once, before it writes, and returns `Memory` if that fails. The buffer then grows by a
/// factor, as with `Vec::push`, so appending many short strings allocates rarely. After an error
/// the buffer is unchanged.
///
/// ```rust
/// let mut buf = Vec::new(alloc);
/// java_text::write_utf("a\0", &mut buf)?;
/// assert_eq!(rt; buf.as_slice(), b"\0\x03a\xC0\x80".as_slice());
/// ```
#[tactic(auto, unfolding(crate::specs::Form::java_form))]
pub fn write_utf(text: &str, buf: &mut Vec<u8>) -> Result<(), WriteFault>
    ensures ok { OnOk result (buf.new.items ≡ buf.old.items ++ java_form (chars text.now)) }
    ensures too_long { ¬ (HasForm (chars text.now))
        → result ≡ Err (WriteFault.TooLong (mutf8_len (chars text.now))) }
    ensures fits { HasForm (chars text.now) → IsOkUnless result WriteFault.Memory }
    ensures err { OnErr result (buf.new.items ≡ buf.old.items) }
    ensures err_capacity { OnErr result (vec_capacity buf.new ≡ vec_capacity buf.old) }

    // With enough capacity the call allocates nothing, and succeeds if the string has a form.
    ensures room { HasForm (chars text.now)
        → vec_len buf.old + length (java_form (chars text.now)) ≤ vec_capacity buf.old
        → IsOk result }
    ensures stays { HasForm (chars text.now)
        → vec_len buf.old + length (java_form (chars text.now)) ≤ vec_capacity buf.old
        → vec_capacity buf.new ≡ vec_capacity buf.old }
    ensures grows { vec_capacity buf.old ≤ vec_capacity buf.new }
{
    let counted = mutf8::counted(text);
    let length = counted.encoded_len();
    let Ok(count) = u16::try_from(length) else {
        return Err(WriteFault::TooLong(length));
    };
    if buf.capacity() - buf.len() < 2 + length {
        buf.reserve(2 + length)?;
    }
    let [high, low] = count.to_be_bytes();
    buf.push_reserved(high);
    buf.push_reserved(low);
    // The buffer has capacity for these bytes, so this can't fail.
    counted.encode_into(buf).unwrap();
    Ok(())
}

/// Reads the form at the start of the bytes (Java's `DataInput.readUTF`) strictly. It returns the
/// form's text, and the bytes after the form, which are always a part of the input.
///
/// It returns `Truncated` exactly when there are fewer than two bytes, or fewer bytes after them
/// than they count. It tests this first, before it allocates. Then it decodes the counted bytes as
/// [`mutf8::decode_strict`] does. It returns `Invalid` if they are the encoding of no text; Java's
/// own reader accepts some of these.
///
/// The text borrows the counted bytes if they are its UTF-8, and then nothing is allocated.
/// Otherwise the call allocates as many bytes as are counted, once, and returns `Memory` if that
/// fails.
///
/// ```rust
/// let (text, rest) = java_text::read_utf(alloc, b"\0\x01AB")?;
/// assert!(rt; text.is_borrowed());
/// assert_eq!(rt; text.as_str(), "A");
/// assert_eq!(rt; rest, b"B".as_slice());
/// assert!(rt; java_text::read_utf(alloc, b"\0\x02A").is_err());
/// ```
#[inline]
pub fn read_utf(alloc: Global, bytes: &[u8]) -> Result<(CowText<'_>, &[u8]), ReadFault>
    ensures text { IfRead result (BeginsWithForm bytes.now) }
    ensures only { IfRead result (BeginsOnlyWithForm bytes.now) }
    ensures truncated { result ≡ Err ReadFault.Truncated ↔ IsTruncated bytes.now }
    ensures invalid { OnInvalid result (HasNoStrictReading Mutf8 (counted bytes.now)) }
    ensures refused { OnRefused result (NoFormBegins bytes.now) }

    // The counted bytes alone decide whether the text borrows.
    ensures borrowed { BorrowsTextWhere (text_of result) (λ utf8. utf8 ≡ counted bytes.now) }
    ensures borrowed_where { BorrowsTextWhere (text_of result)
        (λ _. IsUnchangedUtf8 Mutf8 (counted bytes.now)) }
    ensures succeeds { ¬ (IsTruncated bytes.now) → IsUnchangedUtf8 Mutf8 (counted bytes.now)
        → IsOk result }
    ensures capacity { BuildsTextOfCapacity (text_of result) (count_in bytes.now) }
{
    let (counted, rest) = split_counted(bytes)?;
    // Usually other forms follow, so a short string is decoded with a vector that includes bytes
    // after it.
    let text = mutf8::decode_strict_front(alloc, &bytes[2..], counted.len())?;
    Ok((text, rest))
}

/// Reads the count at the start of the bytes (Java's `DataInput.readUTF`), and as many bytes of
/// MUTF-8, which may be damaged. It returns each encoded character in them, U+FFFD for each byte
/// that is not part of one, and the bytes after the counted ones.
///
/// It returns `Truncated` as [`read_utf`] does, since no text can replace missing bytes. It never
/// returns `Invalid`. The text borrows as [`mutf8::decode_lossy_strict`] does, and then nothing is
/// allocated. Otherwise the call allocates exactly the text's length in bytes, once, and returns
/// `Memory` if that fails.
///
/// ```rust
/// let (text, rest) = java_text::read_utf_lossy(alloc, b"\0\x02\xC2AB")?;
/// assert_eq!(rt; text.as_str(), "\u{FFFD}A");
/// assert_eq!(rt; rest, b"B".as_slice());
/// ```
pub fn read_utf_lossy(alloc: Global, bytes: &[u8]) -> Result<(CowText<'_>, &[u8]), ReadFault>
    ensures reading { IfRead result (λ text _. text ≡ reading Mutf8 (counted bytes.now)) }
    ensures rest { IfRead result (λ _ rest. rest ≡ rest_in bytes.now) }
    ensures truncated { result ≡ Err ReadFault.Truncated ↔ IsTruncated bytes.now }
    ensures whole { ¬ (IsTruncated bytes.now) → IsOkUnless result ReadFault.Memory }

    // The counted bytes alone decide whether the text borrows.
    ensures borrowed { BorrowsTextWhere (text_of result) (λ utf8. utf8 ≡ counted bytes.now) }
    ensures borrowed_where { BorrowsTextWhere (text_of result)
        (λ _. IsUnchangedUtf8 Mutf8 (counted bytes.now)) }
    ensures succeeds { ¬ (IsTruncated bytes.now) → IsUnchangedUtf8 Mutf8 (counted bytes.now)
        → IsOk result }
    ensures capacity { BuildsTextOfCapacity (text_of result)
        (lossy_length Mutf8 (counted bytes.now)) }
{
    let (counted, rest) = split_counted(bytes)?;
    Ok((mutf8::decode_lossy_strict(alloc, counted)?, rest))
}

/// The largest number that two bytes can hold.
const MOST_COUNTED: usize = 65_535;

/// Writes the form of a string (Java's `DataOutput.writeUTF`) to the caller's buffer.
///
/// It returns the number of bytes that it wrote to the start of the buffer, and leaves the rest
/// unchanged. It returns `TooLong`, with the length in bytes, exactly when the string's MUTF-8 has
/// more than 65,535 bytes. It returns `TooShort`, with the length of the form in bytes, exactly
/// when there is a form and it is longer than the buffer. After an error the whole buffer is
/// unchanged. The call allocates nothing.
///
/// ```rust
/// let mut buf = [0xEE; 6];
/// assert_eq!(rt; java_text::write_utf_to_slice("a\0", &mut buf)?, 5);
/// assert_eq!(rt; buf.as_slice(), b"\0\x03a\xC0\x80\xEE".as_slice());
/// ```
pub fn write_utf_to_slice(text: &str, buf: &mut [u8]) -> Result<usize, WriteSliceFault>
    ensures { WritesForm (chars text.now) result buf.old buf.new }
{
    if buf.len() < 2 {
        return Err(misfit(mutf8::encoded_len(text)));
    }
    // Longer MUTF-8 has no form, so it must not be written even if the buffer has capacity for it.
    let end = buf.len().min(2 + MOST_COUNTED);
    match mutf8::encode_to_slice(text, &mut buf[2..end]) {
        Ok(length) => {
            buf[..2].copy_from_slice(&(length as u16).to_be_bytes());
            Ok(2 + length)
        }
        Err(fault) => Err(misfit(fault.needed())),
    }
}

/// Returns why a form is not written, for a string whose MUTF-8 has `length` bytes.
fn misfit(length: usize) -> WriteSliceFault
    ensures too_long { MOST_COUNTED < length → result ≡ WriteSliceFault.TooLong length }
    ensures too_short { length ≤ MOST_COUNTED → result ≡ WriteSliceFault.TooShort (2 + length) }
{
    if length > MOST_COUNTED {
        return WriteSliceFault::TooLong(length);
    }
    WriteSliceFault::TooShort(2 + length)
}

/// Reads the form at the start of the bytes (Java's `DataInput.readUTF`) strictly, and writes the
/// UTF-8 of its text to the caller's buffer.
///
/// It returns the number of bytes that it wrote to the start of the buffer, and the bytes after the
/// form. It leaves the rest of the buffer unchanged. It returns `Truncated` as [`read_utf`] does.
/// Otherwise it returns `Invalid` exactly when the counted bytes are the encoding of no text. It
/// returns `TooShort`, with the needed length in bytes, if the text is longer than the buffer.
/// After an error the whole buffer is unchanged. The call allocates nothing.
///
/// ```rust
/// let mut buf = [0xEE; 3];
/// let (len, rest) = java_text::read_utf_to_slice(b"\0\x02\xC0\x80B", &mut buf)?;
/// assert_eq!(rt; (len, rest), (1, b"B".as_slice()));
/// assert_eq!(rt; buf.as_slice(), b"\0\xEE\xEE".as_slice());
/// ```
pub fn read_utf_to_slice<'b>(
    bytes: &'b [u8],
    buf: &mut [u8],
) -> Result<(usize, &'b [u8]), ReadSliceFault>
    ensures { WritesCounted bytes.now (IsStrictReading Mutf8 (counted bytes.now))
        result buf.old buf.new }
{
    let Ok((counted, rest)) = split_counted(bytes) else {
        return Err(ReadSliceFault::Truncated);
    };
    Ok((decode_counted(bytes, counted, buf)?, rest))
}

/// Decodes the counted bytes strictly to the caller's buffer. Usually other forms follow, so a
/// short string is decoded with a vector that includes bytes after it.
#[inline(always)]
fn decode_counted(bytes: &[u8], part: &[u8], buf: &mut [u8]) -> Result<usize, DecodeSliceFault>
    requires counted { part.now ≡ counted bytes.now }
    requires whole { 2 ≤ length bytes.now }
    ensures { WritesReading (λ text. IsStrictReading Mutf8 part.now text) result buf.old buf.new }
{
    decode_mutf8_front_to_slice(&bytes[2..], part.len(), buf)
}

/// Reads the count at the start of the bytes (Java's `DataInput.readUTF`), and as many bytes of
/// MUTF-8, which may be damaged. It writes the UTF-8 of the text that [`read_utf_lossy`] returns to
/// the caller's buffer.
///
/// It returns the number of bytes that it wrote to the start of the buffer, and the bytes after the
/// counted ones. It leaves the rest of the buffer unchanged. It returns `Truncated` as [`read_utf`]
/// does, and `TooShort`, with the needed length in bytes, if the text is longer than the buffer. It
/// never returns `Invalid`. After an error the whole buffer is unchanged. The call allocates
/// nothing.
///
/// ```rust
/// let mut buf = [0xEE; 4];
/// let (len, rest) = java_text::read_utf_lossy_to_slice(b"\0\x01\xC2AB", &mut buf)?;
/// assert_eq!(rt; (len, rest), (3, b"AB".as_slice()));
/// assert_eq!(rt; buf.as_slice(), b"\xEF\xBF\xBD\xEE".as_slice());
/// ```
pub fn read_utf_lossy_to_slice<'b>(
    bytes: &'b [u8],
    buf: &mut [u8],
) -> Result<(usize, &'b [u8]), ReadSliceFault>
    ensures { WritesCounted bytes.now (λ text. text ≡ reading Mutf8 (counted bytes.now))
        result buf.old buf.new }
{
    // A law does nothing at run time: the proof uses its contract.
    simd_cesu8::laws::bounds();
    let Ok((counted, rest)) = split_counted(bytes) else {
        return Err(ReadSliceFault::Truncated);
    };
    match mutf8::decode_lossy_strict_to_slice(counted, buf) {
        Ok(len) => Ok((len, rest)),
        Err(LossySliceFault::TooShort(fault)) => Err(ReadSliceFault::TooShort(fault.needed())),
        // The text of at most 65,535 bytes has a length that fits `usize`.
        Err(LossySliceFault::TooLong) => unreachable!(),
    }
}

/// Splits the bytes after the count: returns as many as are counted, and those after them.
#[inline]
fn split_counted(bytes: &[u8]) -> Result<(&[u8], &[u8]), ReadFault>
    ensures counted { IfOk result (λ parts. parts.0.now ≡ counted bytes.now) }
    ensures rest { IfOk result (λ parts. parts.1.now ≡ rest_in bytes.now) }
    ensures whole { OnOk result (¬ (IsTruncated bytes.now)) }
    ensures form { IfOk result (λ parts. (text : List ℕ) → IsStrictReading Mutf8 parts.0.now text
        → BeginsWithForm bytes.now text parts.1.now) }
    ensures only { IfOk result (λ parts. (text : List ℕ) → IsStrictReading Mutf8 parts.0.now text
        → BeginsOnlyWithForm bytes.now text parts.1.now) }
    ensures truncated { IfErr result (λ fault. fault ≡ ReadFault.Truncated) }
    ensures short { OnErr result (IsTruncated bytes.now) }
{
    laws::one_form();
    let [high, low, after @ ..] = bytes else {
        return Err(ReadFault::Truncated);
    };
    let count = usize::from(u16::from_be_bytes([*high, *low]));
    after.split_at_checked(count).ok_or(ReadFault::Truncated)
}
