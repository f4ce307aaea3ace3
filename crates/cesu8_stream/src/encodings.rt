//! The two encodings, by the calls of `simd_cesu8`. All else in this crate is written and proved
//! once, for a type of the trait `Encoding`.

ghost use Rattle.std.specs.Prelude.{◌≡◌, ◌<◌, ◌≤◌, length, take, drop};
ghost use Rattle.std.specs.Str.{chars};
ghost use Rattle.simd_cesu8.specs.Encoding.{Flavor, Cesu8, Mutf8, encoding};
ghost use Rattle.simd_cesu8.specs.Reading.{IsStrictReading, NoneBegins, reading};
ghost use Rattle.simd_cesu8.specs.Fronts.{HasStrictReading};
ghost use Rattle.simd_cesu8.specs.Slices.{WritesAnswer, WritesReading, WritesLossyReading};

use simd_cesu8::{DecodeSliceFault, LossySliceFault, TooShort, mutf8};

/// An encoding. The contracts are those of `simd_cesu8`.
pub trait Encoding {
    ghost flavor: { Flavor };

    /// Returns how many bytes at the start are whole encoded characters.
    fn valid_up_to(bytes: &[u8]) -> usize
        ensures within { result ≤ length bytes.now }
        ensures valid { HasStrictReading flavor (take result bytes.now) }
        ensures stops { result < length bytes.now → NoneBegins flavor (drop result bytes.now) };

    /// Writes the UTF-8 of the strict reading to the buffer.
    fn decode(bytes: &[u8], buf: &mut [u8]) -> Result<usize, DecodeSliceFault>
        ensures { WritesReading (λ text. IsStrictReading flavor bytes.now text)
            result buf.old buf.new };

    /// Writes the UTF-8 of the lossy reading to the buffer.
    fn decode_lossy(bytes: &[u8], buf: &mut [u8]) -> Result<usize, LossySliceFault>
        ensures { WritesLossyReading (λ text. text ≡ reading flavor bytes.now)
            result buf.old buf.new };

    /// Writes the encoding of the text to the buffer.
    fn encode(text: &str, buf: &mut [u8]) -> Result<usize, TooShort>
        ensures { WritesAnswer (encoding flavor (chars text.now)) result buf.old buf.new };
}

/// CESU-8.
pub struct Cesu8Encoding;

impl Encoding for Cesu8Encoding {
    ghost flavor = { Cesu8 };

    #[inline(always)]
    fn valid_up_to(bytes: &[u8]) -> usize {
        simd_cesu8::valid_up_to(bytes)
    }

    #[inline(always)]
    fn decode(bytes: &[u8], buf: &mut [u8]) -> Result<usize, DecodeSliceFault> {
        simd_cesu8::decode_strict_to_slice(bytes, buf)
    }

    #[inline(always)]
    fn decode_lossy(bytes: &[u8], buf: &mut [u8]) -> Result<usize, LossySliceFault> {
        simd_cesu8::decode_lossy_strict_to_slice(bytes, buf)
    }

    #[inline(always)]
    fn encode(text: &str, buf: &mut [u8]) -> Result<usize, TooShort> {
        simd_cesu8::encode_to_slice(text, buf)
    }
}

/// MUTF-8.
pub struct Mutf8Encoding;

impl Encoding for Mutf8Encoding {
    ghost flavor = { Mutf8 };

    #[inline(always)]
    fn valid_up_to(bytes: &[u8]) -> usize {
        mutf8::valid_up_to(bytes)
    }

    #[inline(always)]
    fn decode(bytes: &[u8], buf: &mut [u8]) -> Result<usize, DecodeSliceFault> {
        mutf8::decode_strict_to_slice(bytes, buf)
    }

    #[inline(always)]
    fn decode_lossy(bytes: &[u8], buf: &mut [u8]) -> Result<usize, LossySliceFault> {
        mutf8::decode_lossy_strict_to_slice(bytes, buf)
    }

    #[inline(always)]
    fn encode(text: &str, buf: &mut [u8]) -> Result<usize, TooShort> {
        mutf8::encode_to_slice(text, buf)
    }
}
