//! A string with the length of its encoding, for formats that write the length first.

ghost use Rattle.std.specs.Prelude.{◌≡◌, ◌≤◌, ◌+◌, ◌++◌, [], length, OnOk, OnErr, IsOk, vec_len, vec_capacity};
ghost use Rattle.std.specs.Str.{chars};
ghost use Rattle.simd_cesu8.specs.Encoding.{encoding};
ghost use Rattle.simd_cesu8.specs.Codec.{flavor_of};

use crate::codec::encoding::Flavor;
use crate::codec::{Cesu8Flavor, Mutf8Flavor, encode_into};
use std::alloc::{AllocError, Global};

/// A string with the length of its encoding, which is computed only once:
/// [`encoded_len`](CountedText::encoded_len) returns it, and
/// [`encode_into`](CountedText::encode_into) uses it.
///
/// ```rust
/// let counted = simd_cesu8::mutf8::counted("a\0");
/// let mut buf = Vec::new(alloc);
/// buf.push(u8::try_from(counted.encoded_len())?)?;
/// counted.encode_into(&mut buf)?;
/// assert_eq!(rt; buf.as_slice(), b"\x03a\xC0\x80".as_slice());
/// ```
#[derive(Clone, Copy)]
pub struct CountedText<'a> {
    flavor: Flavor,
    text: &'a str,
    len: usize,
    ghost is_length: { len ≡ length (encoding (flavor_of flavor) (chars text.now)) },
}

impl<'a> CountedText<'a> {
    ghost use Rattle.simd_cesu8.specs.Counted.{counted_encoding};

    #[inline(always)]
    pub(crate) fn new(flavor: Flavor, text: &'a str, len: usize) -> CountedText<'a>
        requires { len ≡ length (encoding (flavor_of flavor) (chars text.now)) }
        ensures { counted_encoding result ≡ encoding (flavor_of flavor) (chars text.now) }
    {
        CountedText { flavor, text, len }
    }

    /// Returns the length of the encoding, in bytes.
    ///
    /// ```rust
    /// assert_eq!(rt; simd_cesu8::counted("a\u{10FFFF}").encoded_len(), 7);
    /// ```
    pub fn encoded_len(&self) -> usize
        ensures { result ≡ length (counted_encoding self.now) }
    {
        self.len
    }

    /// Appends the encoding, as the function `encode_into` does. If the capacity is too small, it
    /// allocates once, before it writes, or returns `AllocError` and leaves the buffer unchanged.
    ///
    /// ```rust
    /// let mut buf = Vec::new(alloc);
    /// simd_cesu8::counted("\u{1F496}").encode_into(&mut buf)?;
    /// assert_eq!(rt; buf.as_slice(), b"\xED\xA0\xBD\xED\xB2\x96".as_slice());
    /// ```
    pub fn encode_into(&self, buf: &mut Vec<u8>) -> Result<(), AllocError>
        ensures ok { OnOk result (buf.new.items ≡ buf.old.items ++ counted_encoding self.now) }
        ensures err { OnErr result (buf.new.items ≡ buf.old.items) }
        ensures err_capacity { OnErr result (vec_capacity buf.new ≡ vec_capacity buf.old) }
        ensures room { vec_len buf.old + length (counted_encoding self.now) ≤ vec_capacity buf.old
            → IsOk result }
        ensures stays { vec_len buf.old + length (counted_encoding self.now) ≤ vec_capacity buf.old
            → vec_capacity buf.new ≡ vec_capacity buf.old }
        ensures empty { counted_encoding self.now ≡ [] → IsOk result }
        ensures grows { vec_capacity buf.old ≤ vec_capacity buf.new }
    {
        match self.flavor {
            Flavor::Cesu8 => encode_into::<Cesu8Flavor>(self.text, self.len, buf),
            Flavor::Mutf8 => encode_into::<Mutf8Flavor>(self.text, self.len, buf),
        }
    }
}
