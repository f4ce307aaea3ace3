//! Modified UTF-8 (MUTF-8), as Java's `DataInput` and `DataOutput` define it: CESU-8, but U+0000 is
//! C0 80. So no byte of an encoding is 00. Java writes a string's length in two bytes before it.
//! These are not part of the encoding here; the crate `java_text` reads and writes them.
//!
//! Each call does for MUTF-8 what the call of the same name in the crate root does for CESU-8. The
//! documentation there says what it returns, which errors, when it borrows and what it allocates.
//!
//! ```rust
//! let built = simd_cesu8::mutf8::encode(alloc, "a\0")?;
//! assert_eq!(rt; built.as_bytes(), b"a\xC0\x80".as_slice());
//! ```

ghost use Rattle.std.specs.Prelude.{◌≡◌, ◌<◌, ◌≤◌, ◌+◌, ◌++◌, [], ◌∷◌, ℕ, ◌↔◌, length, take, drop, IsTrue, IsUtf8, OnOk, OnErr, IsOk, vec_len, vec_capacity, IfSome, IfNone};
ghost use Rattle.std.specs.Str.{chars};
ghost use Rattle.simd_cesu8.specs.Encoding.{Mutf8, encoding, NeedsEncoding};
ghost use Rattle.simd_cesu8.specs.Class.{IsUnchangedUtf8};
ghost use Rattle.simd_cesu8.specs.Reading.{NoneBegins, IsStrictReading, HasNoStrictReading, IsLenientReading, HasNoLenientReading, mark, reading, lossy_length, IsLenientLossyReading};
ghost use Rattle.simd_cesu8.specs.Fronts.{HasStrictReading};
ghost use Rattle.simd_cesu8.specs.Cow.{IfBytes, BorrowsBytesWhere, BuildsBytesOfCapacity, IfText, BorrowsTextWhere, BuildsTextOfCapacity, AnswersTextOfLength};
ghost use Rattle.simd_cesu8.specs.Counted.{counted_encoding};
ghost use Rattle.simd_cesu8.specs.Fault.{OnInvalid};
ghost use Rattle.simd_cesu8.specs.Slices.{ReadsAtLength, WritesAnswer, WritesReading, WritesLossyReading};

use crate::calls::{decode_as, decode_lossy_as};
use crate::codec::encoding::Flavor;
use crate::codec::{EncodingAlone, Lenient, Mutf8Flavor, encoded_len_by_need};
use crate::counted_text::CountedText;
use crate::cow::{CowBytes, CowText};
use crate::error::{DecodeFault, DecodeSliceFault, LossySliceFault, TooShort};
use crate::{calls, codec};
use std::alloc::{AllocError, Global};

/// Like [`crate::needs_encoded`], for MUTF-8, which also differs if the string contains U+0000.
///
/// ```rust
/// assert!(rt; !simd_cesu8::mutf8::needs_encoded("\u{20AC}"));
/// assert!(rt; simd_cesu8::mutf8::needs_encoded("\0"));
/// ```
#[inline]
pub fn needs_encoded(value: &str) -> bool
    ensures { IsTrue result ↔ NeedsEncoding Mutf8 (chars value.now) }
{
    codec::needs_encoded::<Mutf8Flavor>(value)
}

/// Like [`crate::encoded_len`], for MUTF-8. It does not count the two bytes that Java writes first.
///
/// ```rust
/// assert_eq!(rt; simd_cesu8::mutf8::encoded_len("a\0"), 3);
/// ```
pub fn encoded_len(value: &str) -> usize
    ensures { result ≡ length (encoding Mutf8 (chars value.now)) }
{
    codec::encoded_len::<Mutf8Flavor>(value)
}

/// Like [`crate::counted`], for MUTF-8.
///
/// ```rust
/// assert_eq!(rt; simd_cesu8::mutf8::counted("a\0").encoded_len(), 3);
/// ```
pub fn counted(value: &str) -> CountedText<'_>
    ensures { counted_encoding result ≡ encoding Mutf8 (chars value.now) }
{
    let len = encoded_len_by_need::<Mutf8Flavor>(value);
    CountedText::new(Flavor::Mutf8, value, len)
}

/// Like [`crate::encode`], for MUTF-8.
///
/// ```rust
/// let borrowed = simd_cesu8::mutf8::encode(alloc, "\u{205}")?;
/// assert_eq!(rt; borrowed.as_bytes(), b"\xC8\x85".as_slice());
///
/// let built = simd_cesu8::mutf8::encode(alloc, "a\0")?;
/// assert_eq!(rt; built.as_bytes(), b"a\xC0\x80".as_slice());
/// ```
#[inline]
pub fn encode(alloc: Global, value: &str) -> Result<CowBytes<'_>, AllocError>
    ensures encoding { IfBytes result (λ bytes. bytes ≡ encoding Mutf8 (chars value.now)) }
    ensures borrowed { BorrowsBytesWhere result (λ bytes. bytes ≡ value.now) }
    ensures succeeds { ¬ (NeedsEncoding Mutf8 (chars value.now)) → IsOk result }
    ensures capacity { BuildsBytesOfCapacity result (length (encoding Mutf8 (chars value.now))) }
{
    calls::encode::<Mutf8Flavor>(alloc, value)
}

/// Like [`crate::encode_into`], for MUTF-8.
///
/// ```rust
/// let mut buf = simd_cesu8::mutf8::encode(alloc, "id=")?.into_vec(alloc)?;
/// simd_cesu8::mutf8::encode_into("a\0", &mut buf)?;
/// assert_eq!(rt; buf.as_slice(), b"id=a\xC0\x80".as_slice());
/// ```
pub fn encode_into(value: &str, buf: &mut Vec<u8>) -> Result<(), AllocError>
    ensures ok { OnOk result (buf.new.items ≡ buf.old.items ++ encoding Mutf8 (chars value.now)) }
    ensures err { OnErr result (buf.new.items ≡ buf.old.items) }
    ensures err_capacity { OnErr result (vec_capacity buf.new ≡ vec_capacity buf.old) }
    ensures room { vec_len buf.old + length (encoding Mutf8 (chars value.now))
        ≤ vec_capacity buf.old → IsOk result }
    ensures stays { vec_len buf.old + length (encoding Mutf8 (chars value.now))
        ≤ vec_capacity buf.old → vec_capacity buf.new ≡ vec_capacity buf.old }
    ensures empty { value.now ≡ [] → IsOk result }
    ensures grows { vec_capacity buf.old ≤ vec_capacity buf.new }
{
    counted(value).encode_into(buf)
}

/// Like [`crate::decode_strict`], for MUTF-8. A raw byte 00 is invalid too, and C0 80 is U+0000.
/// Java's own reader accepts some of the bytes that are invalid here.
///
/// ```rust
/// let built = simd_cesu8::mutf8::decode_strict(alloc, b"\xC0\x80")?;
/// assert_eq!(rt; built.as_str(), "\0");
/// assert!(rt; simd_cesu8::mutf8::decode_strict(alloc, b"\0").is_err());
/// ```
#[inline]
pub fn decode_strict(alloc: Global, bytes: &[u8]) -> Result<CowText<'_>, DecodeFault>
    ensures text { IfText result (λ text. IsStrictReading Mutf8 bytes.now text) }
    ensures invalid { OnInvalid result (HasNoStrictReading Mutf8 bytes.now) }
    ensures borrowed { BorrowsTextWhere result (λ utf8. utf8 ≡ bytes.now) }
    ensures borrowed_where { BorrowsTextWhere result (λ _. IsUnchangedUtf8 Mutf8 bytes.now) }
    ensures succeeds { IsUnchangedUtf8 Mutf8 bytes.now → IsOk result }
    ensures capacity { BuildsTextOfCapacity result (length bytes.now) }
{
    decode_as::<Mutf8Flavor, EncodingAlone>(alloc, bytes)
}

/// Like [`crate::decode_strict_front`], for MUTF-8.
///
/// ```rust
/// let bytes = b"name\xC0\x80".as_slice();
/// let name = simd_cesu8::mutf8::decode_strict_front(alloc, bytes, 4)?;
/// assert_eq!(rt; name.as_str(), "name");
/// ```
#[inline]
pub fn decode_strict_front(
    alloc: Global,
    bytes: &[u8],
    len: usize,
) -> Result<CowText<'_>, DecodeFault>
    ensures text { IfText result (λ text. IsStrictReading Mutf8 (take len bytes.now) text) }
    ensures invalid { OnInvalid result (HasNoStrictReading Mutf8 (take len bytes.now)) }
    ensures borrowed { BorrowsTextWhere result (λ utf8. utf8 ≡ take len bytes.now) }
    ensures borrowed_where { BorrowsTextWhere result
        (λ _. IsUnchangedUtf8 Mutf8 (take len bytes.now)) }
    ensures succeeds { IsUnchangedUtf8 Mutf8 (take len bytes.now) → IsOk result }
    ensures capacity { BuildsTextOfCapacity result (length (take len bytes.now)) }
{
    calls::decode_strict_front::<Mutf8Flavor>(alloc, bytes, len)
}

/// Like [`crate::decode`], for bytes that are UTF-8 as a whole, or else MUTF-8.
///
/// ```rust
/// let borrowed = simd_cesu8::mutf8::decode(alloc, b"a\0")?;
/// assert!(rt; borrowed.is_borrowed());
///
/// let built = simd_cesu8::mutf8::decode(alloc, b"a\xC0\x80")?;
/// assert_eq!(rt; built.as_str(), "a\0");
/// ```
#[inline]
pub fn decode(alloc: Global, bytes: &[u8]) -> Result<CowText<'_>, DecodeFault>
    ensures text { IfText result (λ text. IsLenientReading Mutf8 bytes.now text) }
    ensures invalid { OnInvalid result (HasNoLenientReading Mutf8 bytes.now) }
    ensures borrowed { BorrowsTextWhere result (λ utf8. utf8 ≡ bytes.now) }
    ensures borrowed_where { BorrowsTextWhere result (λ _. IsUtf8 bytes.now) }
    ensures succeeds { IsUtf8 bytes.now → IsOk result }
    ensures capacity { BuildsTextOfCapacity result (length bytes.now) }
{
    decode_as::<Mutf8Flavor, Lenient>(alloc, bytes)
}

/// Like [`crate::decode_lossy_strict`], for MUTF-8. It also replaces a raw byte 00 by U+FFFD.
///
/// ```rust
/// let text = simd_cesu8::mutf8::decode_lossy_strict(alloc, b"\xC0\xC0\x80")?;
/// assert_eq!(rt; text.as_str(), "\u{FFFD}\0");
/// ```
#[inline]
pub fn decode_lossy_strict(alloc: Global, bytes: &[u8]) -> Result<CowText<'_>, AllocError>
    ensures reading { IfText result (λ text. text ≡ reading Mutf8 bytes.now) }
    ensures text_length { AnswersTextOfLength result (lossy_length Mutf8 bytes.now) }
    ensures borrowed { BorrowsTextWhere result (λ utf8. utf8 ≡ bytes.now) }
    ensures borrowed_where { BorrowsTextWhere result (λ _. IsUnchangedUtf8 Mutf8 bytes.now) }
    ensures succeeds { IsUnchangedUtf8 Mutf8 bytes.now → IsOk result }
    ensures capacity { BuildsTextOfCapacity result (lossy_length Mutf8 bytes.now) }
{
    decode_lossy_as::<Mutf8Flavor, EncodingAlone>(alloc, bytes)
}

/// Like [`crate::decode_lossy`], for bytes that are UTF-8 as a whole, or else MUTF-8.
///
/// ```rust
/// let text = simd_cesu8::mutf8::decode_lossy(alloc, b"\0\xC0\x80")?;
/// assert_eq!(rt; text.as_str(), "\u{FFFD}\0");
/// ```
#[inline]
pub fn decode_lossy(alloc: Global, bytes: &[u8]) -> Result<CowText<'_>, AllocError>
    ensures reading { IfText result (λ text. IsLenientLossyReading Mutf8 bytes.now text) }
    ensures borrowed { BorrowsTextWhere result (λ utf8. utf8 ≡ bytes.now) }
    ensures borrowed_where { BorrowsTextWhere result (λ _. IsUtf8 bytes.now) }
    ensures succeeds { IsUtf8 bytes.now → IsOk result }
    ensures capacity { BuildsTextOfCapacity result (lossy_length Mutf8 bytes.now) }
{
    decode_lossy_as::<Mutf8Flavor, Lenient>(alloc, bytes)
}

/// Like [`crate::decoded_len`], for MUTF-8.
///
/// ```rust
/// assert_eq!(rt; simd_cesu8::mutf8::decoded_len(b"a\xC0\x80"), Some(2));
/// assert_eq!(rt; simd_cesu8::mutf8::decoded_len(b"a\0"), None);
/// ```
pub fn decoded_len(bytes: &[u8]) -> Option<usize>
    ensures some { IfSome result (λ len.
        ReadsAtLength (IsStrictReading Mutf8 bytes.now) (λ text_len. len ≡ text_len)) }
    ensures none { IfNone result (HasNoStrictReading Mutf8 bytes.now) }
{
    codec::decoded_len::<Mutf8Flavor>(bytes)
}

/// Like [`crate::lossy_len`], for MUTF-8.
///
/// ```rust
/// assert_eq!(rt; simd_cesu8::mutf8::lossy_len(b"\xC0\x80"), Some(1));
/// assert_eq!(rt; simd_cesu8::mutf8::lossy_len(b"\0"), Some(3));
/// ```
pub fn lossy_len(bytes: &[u8]) -> Option<usize>
    ensures some { IfSome result (λ len. len ≡ lossy_length Mutf8 bytes.now) }
    ensures none { IfNone result (usize.MAX < lossy_length Mutf8 bytes.now) }
{
    codec::lossy_len::<Mutf8Flavor>(bytes)
}

/// Like [`crate::valid_up_to`], for MUTF-8.
///
/// ```rust
/// assert_eq!(rt; simd_cesu8::mutf8::valid_up_to(b"id=\xC0\x80\0"), 5);
/// assert_eq!(rt; simd_cesu8::mutf8::valid_up_to(b"id=\xC0\x80"), 5);
/// assert_eq!(rt; simd_cesu8::mutf8::valid_up_to(b"id=\xC0"), 3);
/// ```
pub fn valid_up_to(bytes: &[u8]) -> usize
    ensures within { result ≤ length bytes.now }
    ensures valid { HasStrictReading Mutf8 (take result bytes.now) }
    ensures stops { result < length bytes.now → NoneBegins Mutf8 (drop result bytes.now) }
    ensures greatest { (n : ℕ) → result < n → n ≤ length bytes.now
        → HasNoStrictReading Mutf8 (take n bytes.now) }
    ensures replaced { result < length bytes.now → mark Mutf8 bytes.now result ≡ 0xFFFD ∷ [] }
{
    codec::valid_up_to::<Mutf8Flavor>(bytes)
}

/// Like [`crate::encode_to_slice`], for MUTF-8.
///
/// ```rust
/// let mut buf = [0xEE; 4];
/// assert_eq!(rt; simd_cesu8::mutf8::encode_to_slice("a\0", &mut buf)?, 3);
/// assert_eq!(rt; buf.as_slice(), b"a\xC0\x80\xEE".as_slice());
/// ```
// Inlined, as are the calls below. The crate root says why, at its call of the same name.
#[inline(always)]
pub fn encode_to_slice(value: &str, buf: &mut [u8]) -> Result<usize, TooShort>
    ensures { WritesAnswer (encoding Mutf8 (chars value.now)) result buf.old buf.new }
{
    codec::encode_to_slice::<Mutf8Flavor>(value, buf)
}

/// Like [`crate::decode_strict_to_slice`], for MUTF-8.
///
/// ```rust
/// let mut buf = [0xEE; 4];
/// assert_eq!(rt; simd_cesu8::mutf8::decode_strict_to_slice(b"a\xC0\x80", &mut buf)?, 2);
/// assert_eq!(rt; buf.as_slice(), b"a\0\xEE\xEE".as_slice());
/// ```
#[inline(always)]
pub fn decode_strict_to_slice(bytes: &[u8], buf: &mut [u8]) -> Result<usize, DecodeSliceFault>
    ensures { WritesReading (λ text. IsStrictReading Mutf8 bytes.now text) result buf.old buf.new }
{
    codec::decode_to_slice::<Mutf8Flavor, EncodingAlone>(bytes, buf)
}

/// Like [`crate::decode_to_slice`], for bytes that are UTF-8 as a whole, or else MUTF-8.
///
/// ```rust
/// let mut buf = [0xEE; 4];
/// assert_eq!(rt; simd_cesu8::mutf8::decode_to_slice(b"a\0", &mut buf)?, 2);
/// assert_eq!(rt; buf.as_slice(), b"a\0\xEE\xEE".as_slice());
/// ```
#[inline(always)]
pub fn decode_to_slice(bytes: &[u8], buf: &mut [u8]) -> Result<usize, DecodeSliceFault>
    ensures { WritesReading (λ text. IsLenientReading Mutf8 bytes.now text) result buf.old buf.new }
{
    codec::decode_to_slice::<Mutf8Flavor, Lenient>(bytes, buf)
}

/// Like [`crate::decode_lossy_strict_to_slice`], for MUTF-8. A raw byte 00 becomes U+FFFD too.
///
/// ```rust
/// let mut buf = [0xEE; 6];
/// assert_eq!(rt; simd_cesu8::mutf8::decode_lossy_strict_to_slice(b"\xC0\xC0\x80", &mut buf)?, 4);
/// assert_eq!(rt; buf.as_slice(), b"\xEF\xBF\xBD\0\xEE\xEE".as_slice());
/// ```
#[inline(always)]
pub fn decode_lossy_strict_to_slice(bytes: &[u8], buf: &mut [u8]) -> Result<usize, LossySliceFault>
    ensures { WritesLossyReading (λ text. text ≡ reading Mutf8 bytes.now)
        result buf.old buf.new }
{
    codec::decode_lossy_to_slice::<Mutf8Flavor, EncodingAlone>(bytes, buf)
}

/// Like [`crate::decode_lossy_to_slice`], for bytes that are UTF-8 as a whole, or else MUTF-8.
///
/// ```rust
/// let mut buf = [0xEE; 4];
/// assert_eq!(rt; simd_cesu8::mutf8::decode_lossy_to_slice(b"\0\xC0\x80", &mut buf)?, 4);
/// assert_eq!(rt; buf.as_slice(), b"\xEF\xBF\xBD\0".as_slice());
/// ```
#[inline(always)]
pub fn decode_lossy_to_slice(bytes: &[u8], buf: &mut [u8]) -> Result<usize, LossySliceFault>
    ensures { WritesLossyReading (λ text. IsLenientLossyReading Mutf8 bytes.now text)
        result buf.old buf.new }
{
    codec::decode_lossy_to_slice::<Mutf8Flavor, Lenient>(bytes, buf)
}
