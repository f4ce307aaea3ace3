//! Functions meant only for the other crates of this repository: the kernels, which test whether a
//! byte of a text needs conversion, and the two functions below. These names may change.

ghost use Rattle.std.specs.Prelude.{◌≡◌, IfSome, IfNone, IsUtf8, take};
ghost use Rattle.simd_cesu8.specs.Encoding.{Mutf8};
ghost use Rattle.simd_cesu8.specs.Reading.{IsStrictReading};
ghost use Rattle.simd_cesu8.specs.Slices.{WritesReading};

use crate::codec::{Cesu8Flavor, Mutf8Flavor, is_short_unchanged_ascii, is_utf8, known_text};
use crate::error::DecodeSliceFault;
use crate::front_to_slice;
pub use cesu8_bytes::implementation::{active, fallback, simd, word};

/// Returns the bytes as a string if they are UTF-8. It allocates nothing.
///
/// ```rust
/// use simd_cesu8::implementation;
///
/// assert_eq!(rt; implementation::text_of(b"caf\xC3\xA9"), Some("caf\u{E9}"));
/// assert_eq!(rt; implementation::text_of(b"caf\xE9"), None);
/// ```
#[inline(always)]
pub fn text_of(bytes: &[u8]) -> Option<&str>
    ensures some { IfSome result (λ text. text.now ≡ bytes.now) }
    ensures none { IfNone result (¬ (IsUtf8 bytes.now)) }
{
    // CESU-8 changes no ASCII.
    if is_short_unchanged_ascii::<Cesu8Flavor>(bytes) {
        return Some(known_text(bytes));
    }
    if is_utf8(bytes) {
        return Some(known_text(bytes));
    }
    None
}

/// Decodes a string in MUTF-8 (Java's `DataInput`, without its length) from the start of the bytes
/// to the caller's buffer, as `mutf8::decode_strict_to_slice` decodes the first `len` bytes, or all
/// bytes if there are fewer. It may load bytes after the string, which never change the result. So
/// short ASCII takes no branch on its length, except whether it is at most 64.
///
/// ```rust
/// use simd_cesu8::implementation::decode_mutf8_front_to_slice;
///
/// let mut buf = [0xEE; 4];
/// assert_eq!(rt; decode_mutf8_front_to_slice(b"a\xC0\x80b", 3, &mut buf)?, 2);
/// assert_eq!(rt; buf.as_slice(), b"a\0\xEE\xEE".as_slice());
/// ```
#[inline(always)]
pub fn decode_mutf8_front_to_slice(
    bytes: &[u8],
    len: usize,
    buf: &mut [u8],
) -> Result<usize, DecodeSliceFault>
    ensures { WritesReading (λ text. IsStrictReading Mutf8 (take len bytes.now) text)
        result buf.old buf.new }
{
    front_to_slice::decode_strict_front_to_slice::<Mutf8Flavor>(bytes, len, buf)
}
