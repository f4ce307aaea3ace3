//! CESU-8 and Modified UTF-8 (MUTF-8).
//!
//! Both write each UTF-16 code unit of a string separately, as UTF-8 would write a number. So a
//! character with four bytes in UTF-8 becomes a surrogate pair of three bytes each. MUTF-8 writes
//! U+0000 as C0 80. CESU-8 is defined by Unicode Technical Report 26, MUTF-8 by Java's `DataInput`.
//!
//! A result borrows from the input exactly when its bytes are the input's bytes. Otherwise the call
//! allocates once, and returns `AllocError` or `DecodeFault::Memory` if that fails.
//!
//! | you have | you want | call |
//! |---|---|---|
//! | text | its encoding | [`encode`]; [`encode_into`] appends it to your `Vec` |
//! | text | its encoding in your buffer, without an allocator | [`encode_to_slice`] |
//! | text | whether its encoding differs from its UTF-8 | [`needs_encoded`] |
//! | text | the length of its encoding | [`encoded_len`] |
//! | text | its encoding after its length, counted once | [`counted`] |
//! | text | its number of UTF-16 code units | [`utf16_len`] |
//! | two strings | their order by UTF-16 code units | [`compare_as_utf16`] |
//! | bytes of the encoding | their text, or an error | [`decode_strict`] |
//! | bytes that begin with it, and its length | its text, or an error | [`decode_strict_front`] |
//! | bytes of the encoding | their text's length, or whether they are valid | [`decoded_len`] |
//! | bytes of the encoding, perhaps damaged | the offset of the first damage | [`valid_up_to`] |
//! | bytes of the encoding, perhaps damaged | text, in any case | [`decode_lossy_strict`] |
//! | bytes of the encoding, perhaps damaged | the length of that text | [`lossy_len`] |
//! | bytes that are UTF-8, or else the encoding | their text, or an error | [`decode`] |
//! | bytes that are UTF-8 or the encoding, perhaps damaged | text, in any case | [`decode_lossy`] |
//!
//! [`decode_strict_to_slice`], [`decode_lossy_strict_to_slice`], [`decode_to_slice`] and
//! [`decode_lossy_to_slice`] write the text's UTF-8 to your buffer, without an allocator.
//!
//! The root's calls are for CESU-8, and those of [`mutf8`] for MUTF-8. The UTF-16 code units are
//! the same for both, so only the root has [`utf16_len`] and [`compare_as_utf16`].
//!
//! Use a strict call if the bytes have to be the encoding: a lenient call also accepts UTF-8.
//!
//! ```rust
//! assert!(rt; simd_cesu8::encode(alloc, "caf\u{E9}")?.is_borrowed());
//!
//! let built = simd_cesu8::encode(alloc, "\u{1F496}")?;
//! assert_eq!(rt; built.as_bytes(), b"\xED\xA0\xBD\xED\xB2\x96".as_slice());
//! ```
#![tactic(auto)]

ghost use Rattle.std.specs.Prelude.{◌≡◌, ◌<◌, ◌≤◌, ◌+◌, ◌++◌, [], ◌∷◌, ℕ, ◌↔◌, length, take, drop, IsTrue, IsUtf8, OnOk, OnErr, IsOk, vec_len, vec_capacity, IfSome, IfNone};
ghost use Rattle.std.specs.Cmp.Lexicographic.{slice_cmp};
ghost use Rattle.std.specs.Ordering.{nat_cmp};
ghost use Rattle.std.specs.Str.{chars};
ghost use Rattle.simd_cesu8.specs.Utf16.{units};
ghost use Rattle.simd_cesu8.specs.Encoding.{Cesu8, encoding, NeedsEncoding};
ghost use Rattle.simd_cesu8.specs.Class.{IsUnchangedUtf8};
ghost use Rattle.simd_cesu8.specs.Reading.{NoneBegins, IsStrictReading, HasNoStrictReading, IsLenientReading, HasNoLenientReading, mark, reading, lossy_length, IsLenientLossyReading};
ghost use Rattle.simd_cesu8.specs.Fronts.{HasStrictReading};
ghost use Rattle.simd_cesu8.specs.Cow.{IfBytes, BorrowsBytesWhere, BuildsBytesOfCapacity, IfText, BorrowsTextWhere, BuildsTextOfCapacity, AnswersTextOfLength};
ghost use Rattle.simd_cesu8.specs.Counted.{counted_encoding};
ghost use Rattle.simd_cesu8.specs.Fault.{OnInvalid};
ghost use Rattle.simd_cesu8.specs.Slices.{ReadsAtLength, WritesAnswer, WritesReading, WritesLossyReading};

mod calls;
mod codec;
mod counted_text;
mod cow;
mod error;
mod front_to_slice;
pub mod implementation;
pub mod laws;
pub mod mutf8;

use crate::calls::{decode_as, decode_lossy_as};
use crate::codec::encoding::Flavor;
use crate::codec::{Cesu8Flavor, EncodingAlone, Lenient, encoded_len_by_need};
pub use crate::counted_text::CountedText;
pub use crate::cow::{CowBytes, CowText};
pub use crate::error::{DecodeFault, DecodeSliceFault, DecodingError, LossySliceFault, TooShort};
use std::alloc::{AllocError, Global};
use std::cmp::Ordering;

/// Returns whether the CESU-8 of a string differs from its UTF-8. It differs if some scalar value
/// is U+10000 or more. The call allocates nothing.
///
/// ```rust
/// assert!(rt; !simd_cesu8::needs_encoded("\u{20AC}"));
/// assert!(rt; simd_cesu8::needs_encoded("\u{10400}"));
/// ```
#[inline]
pub fn needs_encoded(value: &str) -> bool
    ensures { IsTrue result ↔ NeedsEncoding Cesu8 (chars value.now) }
{
    codec::needs_encoded::<Cesu8Flavor>(value)
}

/// Returns a string's byte length in CESU-8 (Unicode Technical Report 26). It allocates nothing.
///
/// ```rust
/// assert_eq!(rt; simd_cesu8::encoded_len("a\u{10FFFF}"), 7);
/// ```
pub fn encoded_len(value: &str) -> usize
    ensures { result ≡ length (encoding Cesu8 (chars value.now)) }
{
    codec::encoded_len::<Cesu8Flavor>(value)
}

/// Returns the string with the length of its CESU-8 (Unicode Technical Report 26), for formats that
/// write this length first. The length is computed only once. The call allocates nothing.
///
/// ```rust
/// assert_eq!(rt; simd_cesu8::counted("a\u{10FFFF}").encoded_len(), 7);
/// ```
pub fn counted(value: &str) -> CountedText<'_>
    ensures { counted_encoding result ≡ encoding Cesu8 (chars value.now) }
{
    let len = encoded_len_by_need::<Cesu8Flavor>(value);
    CountedText::new(Flavor::Cesu8, value, len)
}

/// Returns the number of UTF-16 code units of a string, which is its length in Java, JavaScript,
/// JNI, dex files and many editors. A surrogate pair counts as two. The call allocates nothing.
///
/// ```rust
/// assert_eq!(rt; simd_cesu8::utf16_len("a\u{10FFFF}"), 3);
/// ```
pub fn utf16_len(text: &str) -> usize
    ensures { result ≡ length (units (chars text.now)) }
{
    codec::utf16_len(text)
}

/// Compares two strings by their UTF-16 code units, as Java's `compareTo`, JavaScript and the
/// canonical JSON of RFC 8785 do. Their CESU-8 has the same order. The call allocates nothing.
///
/// ```rust
/// use std::cmp::Ordering;
///
/// // The surrogate pair D800 DC00 is below FFFF.
/// let ordering = simd_cesu8::compare_as_utf16("\u{10000}", "\u{FFFF}");
/// assert_eq!(rt; ordering, Ordering::Less);
/// ```
pub fn compare_as_utf16(text: &str, other: &str) -> Ordering
    ensures { result ≡ slice_cmp nat_cmp (units (chars text.now)) (units (chars other.now)) }
{
    codec::compare_as_utf16(text, other)
}

/// Encodes a string as CESU-8 (Unicode Technical Report 26).
///
/// It borrows the string's bytes if they are the encoding, and then allocates nothing. Otherwise it
/// allocates exactly the encoding's length in bytes, once, and returns `AllocError` if that fails.
///
/// ```rust
/// let borrowed = simd_cesu8::encode(alloc, "\u{205}")?;
/// assert_eq!(rt; borrowed.as_bytes(), b"\xC8\x85".as_slice());
///
/// let built = simd_cesu8::encode(alloc, "\u{10400}")?;
/// assert_eq!(rt; built.as_bytes(), b"\xED\xA0\x81\xED\xB0\x80".as_slice());
/// ```
#[inline]
pub fn encode(alloc: Global, value: &str) -> Result<CowBytes<'_>, AllocError>
    ensures encoding { IfBytes result (λ bytes. bytes ≡ encoding Cesu8 (chars value.now)) }
    ensures borrowed { BorrowsBytesWhere result (λ bytes. bytes ≡ value.now) }
    ensures succeeds { ¬ (NeedsEncoding Cesu8 (chars value.now)) → IsOk result }
    ensures capacity { BuildsBytesOfCapacity result (length (encoding Cesu8 (chars value.now))) }
{
    calls::encode::<Cesu8Flavor>(alloc, value)
}

/// Appends the CESU-8 (Unicode Technical Report 26) of a string to the buffer.
///
/// The call allocates only if the capacity is too small: once, before it writes. The buffer then
/// grows by a factor, as with `Vec::push`, so appending many short strings allocates rarely. The
/// call returns `AllocError` if the allocation fails, and leaves the buffer unchanged.
///
/// ```rust
/// let mut buf = simd_cesu8::encode(alloc, "id=")?.into_vec(alloc)?;
/// simd_cesu8::encode_into("\u{1F496}", &mut buf)?;
/// assert_eq!(rt; buf.as_slice(), b"id=\xED\xA0\xBD\xED\xB2\x96".as_slice());
/// ```
pub fn encode_into(value: &str, buf: &mut Vec<u8>) -> Result<(), AllocError>
    ensures ok { OnOk result (buf.new.items ≡ buf.old.items ++ encoding Cesu8 (chars value.now)) }
    ensures err { OnErr result (buf.new.items ≡ buf.old.items) }
    ensures err_capacity { OnErr result (vec_capacity buf.new ≡ vec_capacity buf.old) }
    ensures room { vec_len buf.old + length (encoding Cesu8 (chars value.now))
        ≤ vec_capacity buf.old → IsOk result }
    ensures stays { vec_len buf.old + length (encoding Cesu8 (chars value.now))
        ≤ vec_capacity buf.old → vec_capacity buf.new ≡ vec_capacity buf.old }
    ensures empty { value.now ≡ [] → IsOk result }
    ensures grows { vec_capacity buf.old ≤ vec_capacity buf.new }
{
    counted(value).encode_into(buf)
}

/// Decodes CESU-8 (Unicode Technical Report 26) strictly, to the text whose encoding the bytes are.
///
/// The result borrows the bytes if they are the text's UTF-8, and then nothing is allocated.
/// Otherwise the call allocates the input's length in bytes, once, and returns `Memory` if that
/// fails. It allocates before it decodes, so it may return `Memory` for input that is also invalid.
///
/// The call returns `Invalid` if no text has these bytes as its encoding: if they are damaged, or
/// contain an unpaired surrogate, an overlong form, or a UTF-8 form of four bytes. [`decode`] also
/// accepts UTF-8, and [`decode_lossy_strict`] accepts any bytes.
///
/// ```rust
/// let built = simd_cesu8::decode_strict(alloc, b"\xED\xA0\xBD\xED\xB2\x96")?;
/// assert_eq!(rt; built.as_str(), "\u{1F496}");
/// assert!(rt; simd_cesu8::decode_strict(alloc, "\u{1F496}".as_bytes()).is_err());
/// ```
#[inline]
pub fn decode_strict(alloc: Global, bytes: &[u8]) -> Result<CowText<'_>, DecodeFault>
    ensures text { IfText result (λ text. IsStrictReading Cesu8 bytes.now text) }
    ensures invalid { OnInvalid result (HasNoStrictReading Cesu8 bytes.now) }
    ensures borrowed { BorrowsTextWhere result (λ utf8. utf8 ≡ bytes.now) }
    ensures borrowed_where { BorrowsTextWhere result (λ _. IsUnchangedUtf8 Cesu8 bytes.now) }
    ensures succeeds { IsUnchangedUtf8 Cesu8 bytes.now → IsOk result }
    ensures capacity { BuildsTextOfCapacity result (length bytes.now) }
{
    decode_as::<Cesu8Flavor, EncodingAlone>(alloc, bytes)
}

/// Decodes a string in CESU-8 (Unicode Technical Report 26) at the start of the bytes strictly, as
/// [`decode_strict`] decodes the first `len` bytes, or all bytes if there are fewer. Use it for
/// strings that follow one another. It may read the bytes after the string, which never change the
/// result. So its time depends less on the length of short ASCII.
///
/// ```rust
/// let bytes = b"name\xED\xA0\xBD\xED\xB2\x96".as_slice();
/// let name = simd_cesu8::decode_strict_front(alloc, bytes, 4)?;
/// assert_eq!(rt; name.as_str(), "name");
/// ```
#[inline]
pub fn decode_strict_front(
    alloc: Global,
    bytes: &[u8],
    len: usize,
) -> Result<CowText<'_>, DecodeFault>
    ensures text { IfText result (λ text. IsStrictReading Cesu8 (take len bytes.now) text) }
    ensures invalid { OnInvalid result (HasNoStrictReading Cesu8 (take len bytes.now)) }
    ensures borrowed { BorrowsTextWhere result (λ utf8. utf8 ≡ take len bytes.now) }
    ensures borrowed_where { BorrowsTextWhere result
        (λ _. IsUnchangedUtf8 Cesu8 (take len bytes.now)) }
    ensures succeeds { IsUnchangedUtf8 Cesu8 (take len bytes.now) → IsOk result }
    ensures capacity { BuildsTextOfCapacity result (length (take len bytes.now)) }
{
    calls::decode_strict_front::<Cesu8Flavor>(alloc, bytes, len)
}

/// Decodes bytes that are UTF-8 as a whole, or else CESU-8 (Unicode Technical Report 26). It never
/// decodes one part of the input as UTF-8 and another as CESU-8.
///
/// The result borrows bytes that are UTF-8, and then nothing is allocated. Otherwise the call
/// allocates the input's length in bytes, once, and returns `Memory` if that fails. It allocates
/// before it decodes, so it may return `Memory` for input that is also invalid.
///
/// The call returns `Invalid` if the bytes are neither UTF-8 as a whole nor the encoding of a text.
/// [`decode_strict`] accepts only the encoding, and [`decode_lossy`] accepts any bytes.
///
/// ```rust
/// let borrowed = simd_cesu8::decode(alloc, "\u{1F496}".as_bytes())?;
/// assert!(rt; borrowed.is_borrowed());
///
/// let built = simd_cesu8::decode(alloc, b"\xED\xA0\xBD\xED\xB2\x96")?;
/// assert_eq!(rt; built.as_str(), "\u{1F496}");
/// ```
#[inline]
pub fn decode(alloc: Global, bytes: &[u8]) -> Result<CowText<'_>, DecodeFault>
    ensures text { IfText result (λ text. IsLenientReading Cesu8 bytes.now text) }
    ensures invalid { OnInvalid result (HasNoLenientReading Cesu8 bytes.now) }
    ensures borrowed { BorrowsTextWhere result (λ utf8. utf8 ≡ bytes.now) }
    ensures borrowed_where { BorrowsTextWhere result (λ _. IsUtf8 bytes.now) }
    ensures succeeds { IsUtf8 bytes.now → IsOk result }
    ensures capacity { BuildsTextOfCapacity result (length bytes.now) }
{
    decode_as::<Cesu8Flavor, Lenient>(alloc, bytes)
}

/// Decodes CESU-8 (Unicode Technical Report 26) that may be damaged. It returns each encoded
/// character, and U+FFFD for each byte that is not part of one.
///
/// The result borrows the bytes if they are the text's UTF-8, and then nothing is allocated.
/// Otherwise the call allocates exactly the text's length in bytes, [`lossy_len`], once. It returns
/// `AllocError` if that fails or if the length does not fit `usize`. [`decode_strict`] returns an
/// error for damaged bytes, and [`decode_lossy`] also accepts UTF-8.
///
/// ```rust
/// let text = simd_cesu8::decode_lossy_strict(alloc, b"\xE2\x82A")?;
/// assert_eq!(rt; text.as_str(), "\u{FFFD}\u{FFFD}A");
/// ```
#[inline]
pub fn decode_lossy_strict(alloc: Global, bytes: &[u8]) -> Result<CowText<'_>, AllocError>
    ensures reading { IfText result (λ text. text ≡ reading Cesu8 bytes.now) }
    ensures text_length { AnswersTextOfLength result (lossy_length Cesu8 bytes.now) }
    ensures borrowed { BorrowsTextWhere result (λ utf8. utf8 ≡ bytes.now) }
    ensures borrowed_where { BorrowsTextWhere result (λ _. IsUnchangedUtf8 Cesu8 bytes.now) }
    ensures succeeds { IsUnchangedUtf8 Cesu8 bytes.now → IsOk result }
    ensures capacity { BuildsTextOfCapacity result (lossy_length Cesu8 bytes.now) }
{
    decode_lossy_as::<Cesu8Flavor, EncodingAlone>(alloc, bytes)
}

/// Decodes bytes that are UTF-8 as a whole, or else CESU-8 (Unicode Technical Report 26) that may
/// be damaged. For the latter it returns each encoded character, and U+FFFD for each other byte.
///
/// The result borrows bytes that are UTF-8, and then nothing is allocated. Otherwise the call
/// allocates exactly the text's length in bytes, [`lossy_len`], once. It returns `AllocError` if
/// that fails or if the length does not fit `usize`. [`decode`] rejects damaged bytes, and
/// [`decode_lossy_strict`] does not accept UTF-8.
///
/// ```rust
/// let text = simd_cesu8::decode_lossy(alloc, b"\xF0\x9F\x92\x96\xFF")?;
/// assert_eq!(rt; text.as_str(), "\u{FFFD}\u{FFFD}\u{FFFD}\u{FFFD}\u{FFFD}");
/// ```
#[inline]
pub fn decode_lossy(alloc: Global, bytes: &[u8]) -> Result<CowText<'_>, AllocError>
    ensures reading { IfText result (λ text. IsLenientLossyReading Cesu8 bytes.now text) }
    ensures borrowed { BorrowsTextWhere result (λ utf8. utf8 ≡ bytes.now) }
    ensures borrowed_where { BorrowsTextWhere result (λ _. IsUtf8 bytes.now) }
    ensures succeeds { IsUtf8 bytes.now → IsOk result }
    ensures capacity { BuildsTextOfCapacity result (lossy_length Cesu8 bytes.now) }
{
    decode_lossy_as::<Cesu8Flavor, Lenient>(alloc, bytes)
}

/// Returns the length in bytes of the text that [`decode_strict`] returns for the same bytes, which
/// are CESU-8 (Unicode Technical Report 26). It returns `None` exactly when the bytes are the
/// encoding of no text, so it also tests whether they are valid. It allocates nothing.
/// [`lossy_len`] returns a length for damaged bytes too.
///
/// ```rust
/// assert_eq!(rt; simd_cesu8::decoded_len(b"a\xED\xA0\xBD\xED\xB2\x96"), Some(5));
/// assert_eq!(rt; simd_cesu8::decoded_len(b"a\xED\xA0\xBD"), None);
/// ```
pub fn decoded_len(bytes: &[u8]) -> Option<usize>
    ensures some { IfSome result (λ len.
        ReadsAtLength (IsStrictReading Cesu8 bytes.now) (λ text_len. len ≡ text_len)) }
    ensures none { IfNone result (HasNoStrictReading Cesu8 bytes.now) }
{
    codec::decoded_len::<Cesu8Flavor>(bytes)
}

/// Returns the length in bytes of the text that [`decode_lossy_strict`] returns for the same bytes,
/// which are CESU-8 (Unicode Technical Report 26) that may be damaged. Each byte that is not part
/// of an encoded character counts as the three bytes of U+FFFD. The call returns `None` if the
/// length does not fit `usize`. It allocates nothing.
///
/// [`decode_lossy`] borrows bytes that are UTF-8 as a whole, so their text is as long as the input.
///
/// ```rust
/// assert_eq!(rt; simd_cesu8::lossy_len(b"\xE2\x82A"), Some(7));
/// assert_eq!(rt; simd_cesu8::lossy_len(b"\xED\xA0\xBD\xED\xB2\x96"), Some(4));
/// ```
pub fn lossy_len(bytes: &[u8]) -> Option<usize>
    ensures some { IfSome result (λ len. len ≡ lossy_length Cesu8 bytes.now) }
    ensures none { IfNone result (usize.MAX < lossy_length Cesu8 bytes.now) }
{
    codec::lossy_len::<Cesu8Flavor>(bytes)
}

/// Returns the length in bytes of the longest valid prefix: the bytes up to there are whole encoded
/// characters of CESU-8 (Unicode Technical Report 26). This is the whole input if [`decode_strict`]
/// returns a text. Otherwise it is the offset of the first byte that [`decode_lossy_strict`]
/// replaces by U+FFFD. The call reads little beyond the prefix, and allocates nothing.
///
/// Any bytes after the prefix begin with damage, or with at most five bytes of a character whose
/// other bytes come with the next read.
///
/// ```rust
/// let bytes = b"id=\xED\xA0\xBD\xED\xB2\x96\xFF";
/// assert_eq!(rt; simd_cesu8::valid_up_to(bytes), 9);
/// assert_eq!(rt; simd_cesu8::valid_up_to(&bytes[..9]), 9);
/// assert_eq!(rt; simd_cesu8::valid_up_to(&bytes[..8]), 3);
/// ```
pub fn valid_up_to(bytes: &[u8]) -> usize
    ensures within { result ≤ length bytes.now }
    ensures valid { HasStrictReading Cesu8 (take result bytes.now) }

    // If bytes follow the prefix, no encoded character begins there, so U+FFFD replaces the first.
    ensures stops { result < length bytes.now → NoneBegins Cesu8 (drop result bytes.now) }
    ensures greatest { (n : ℕ) → result < n → n ≤ length bytes.now
        → HasNoStrictReading Cesu8 (take n bytes.now) }
    ensures replaced { result < length bytes.now → mark Cesu8 bytes.now result ≡ 0xFFFD ∷ [] }
{
    codec::valid_up_to::<Cesu8Flavor>(bytes)
}

/// Encodes a string as CESU-8 (Unicode Technical Report 26) to the caller's buffer.
///
/// It returns the number of bytes that it wrote to the start of the buffer, and leaves the rest
/// unchanged. If the buffer is too short, it returns [`TooShort`] with the needed length in bytes,
/// and writes nothing. So a call with an empty buffer returns the length. It allocates nothing.
///
/// ```rust
/// let mut buf = [0xEE; 8];
/// assert_eq!(rt; simd_cesu8::encode_to_slice("\u{10400}", &mut buf)?, 6);
/// assert_eq!(rt; buf.as_slice(), b"\xED\xA0\x81\xED\xB0\x80\xEE\xEE".as_slice());
/// ```
// Inlined, as all calls that write to a slice: a result returned in memory would be copied again.
#[inline(always)]
pub fn encode_to_slice(value: &str, buf: &mut [u8]) -> Result<usize, TooShort>
    ensures { WritesAnswer (encoding Cesu8 (chars value.now)) result buf.old buf.new }
{
    codec::encode_to_slice::<Cesu8Flavor>(value, buf)
}

/// Decodes CESU-8 (Unicode Technical Report 26) strictly, and writes the text's UTF-8 to the
/// caller's buffer. The call allocates nothing.
///
/// It returns the number of bytes that it wrote to the start of the buffer, and leaves the rest
/// unchanged. It returns `Invalid` exactly when the bytes are the encoding of no text. It returns
/// `TooShort`, with the needed length in bytes, exactly when the text is longer than the buffer.
/// After an error the whole buffer is unchanged. The text is never longer than its encoding.
///
/// ```rust
/// let mut buf = [0xEE; 6];
/// assert_eq!(rt; simd_cesu8::decode_strict_to_slice(b"\xED\xA0\xBD\xED\xB2\x96", &mut buf)?, 4);
/// assert_eq!(rt; buf.as_slice(), b"\xF0\x9F\x92\x96\xEE\xEE".as_slice());
/// ```
#[inline(always)]
pub fn decode_strict_to_slice(bytes: &[u8], buf: &mut [u8]) -> Result<usize, DecodeSliceFault>
    ensures { WritesReading (λ text. IsStrictReading Cesu8 bytes.now text) result buf.old buf.new }
{
    codec::decode_to_slice::<Cesu8Flavor, EncodingAlone>(bytes, buf)
}

/// Decodes bytes that are UTF-8 as a whole, or else CESU-8 (Unicode Technical Report 26), and
/// writes the text's UTF-8 to the caller's buffer. The call allocates nothing.
///
/// It returns the number of bytes that it wrote to the start of the buffer, and leaves the rest
/// unchanged. It returns `Invalid` exactly when the bytes are neither UTF-8 nor CESU-8. It returns
/// `TooShort`, with the needed length in bytes, exactly when the text is longer than the buffer.
/// After an error the whole buffer is unchanged. The text is never longer than the input.
///
/// ```rust
/// let mut buf = [0xEE; 6];
/// assert_eq!(rt; simd_cesu8::decode_to_slice(b"\xF0\x9F\x92\x96", &mut buf)?, 4);
/// assert_eq!(rt; buf.as_slice(), b"\xF0\x9F\x92\x96\xEE\xEE".as_slice());
/// ```
#[inline(always)]
pub fn decode_to_slice(bytes: &[u8], buf: &mut [u8]) -> Result<usize, DecodeSliceFault>
    ensures { WritesReading (λ text. IsLenientReading Cesu8 bytes.now text) result buf.old buf.new }
{
    codec::decode_to_slice::<Cesu8Flavor, Lenient>(bytes, buf)
}

/// Decodes CESU-8 (Unicode Technical Report 26) that may be damaged. It writes the UTF-8 of each
/// encoded character to the caller's buffer, and U+FFFD for each other byte. It allocates nothing.
///
/// It returns the number of bytes that it wrote to the start of the buffer, and leaves the rest
/// unchanged. It returns `TooShort`, with the needed length in bytes, exactly when the text is
/// longer than the buffer, but `TooLong` if that length, [`lossy_len`], does not fit `usize`. After
/// an error the whole buffer is unchanged. The text is at most three times as long as the input.
///
/// ```rust
/// let mut buf = [0xEE; 6];
/// assert_eq!(rt; simd_cesu8::decode_lossy_strict_to_slice(b"a\xFF", &mut buf)?, 4);
/// assert_eq!(rt; buf.as_slice(), b"a\xEF\xBF\xBD\xEE\xEE".as_slice());
/// ```
#[inline(always)]
pub fn decode_lossy_strict_to_slice(bytes: &[u8], buf: &mut [u8]) -> Result<usize, LossySliceFault>
    ensures { WritesLossyReading (λ text. text ≡ reading Cesu8 bytes.now)
        result buf.old buf.new }
{
    codec::decode_lossy_to_slice::<Cesu8Flavor, EncodingAlone>(bytes, buf)
}

/// Decodes bytes that are UTF-8 as a whole, or else CESU-8 (Unicode Technical Report 26) that may
/// be damaged, and writes the text's UTF-8 to the caller's buffer. For the latter it writes each
/// encoded character, and U+FFFD for each byte that is not part of one. The call allocates nothing.
///
/// It returns the number of bytes that it wrote to the start of the buffer, and leaves the rest
/// unchanged. It returns `TooShort`, with the needed length in bytes, exactly when the text is
/// longer than the buffer. It returns `TooLong` instead if that length does not fit `usize`, which
/// never happens for UTF-8. After an error the whole buffer is unchanged.
///
/// ```rust
/// let mut buf = [0xEE; 4];
/// assert_eq!(rt; simd_cesu8::decode_lossy_to_slice(b"\xF0\x9F\x92\x96", &mut buf)?, 4);
/// assert_eq!(rt; buf.as_slice(), b"\xF0\x9F\x92\x96".as_slice());
/// ```
#[inline(always)]
pub fn decode_lossy_to_slice(bytes: &[u8], buf: &mut [u8]) -> Result<usize, LossySliceFault>
    ensures { WritesLossyReading (λ text. IsLenientLossyReading Cesu8 bytes.now text)
        result buf.old buf.new }
{
    codec::decode_lossy_to_slice::<Cesu8Flavor, Lenient>(bytes, buf)
}
