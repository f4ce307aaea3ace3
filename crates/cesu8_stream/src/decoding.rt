//! What `lossy` and `lossy_windows` need of an encoding: its lossy reading, by one call of
//! `simd_cesu8`, and what the laws say of it.

ghost use Rattle.std.specs.Prelude.{◌≡◌, ℕ, List, ◌∷◌, ◌++◌, IfSome, None};
ghost use Rattle.simd_cesu8.specs.Text.{IsText, utf8};
ghost use Rattle.simd_cesu8.specs.Slices.{StandsAtFront};
ghost use Rattle.simd_cesu8.specs.Reading.{reading as reading_of};
ghost use Rattle.cesu8_stream.specs.Written.{BeginsNone, NoneCrosses};

use crate::conversion::{Conversion, FromEncoding};
use crate::encodings::Encoding;
use simd_cesu8::laws;

/// A conversion from an encoding to UTF-8.
pub trait Decoding: Conversion {
    /// The lossy reading of the encoding.
    ghost reading: { List ℕ → List ℕ };

    /// Writes the lossy reading of the bytes to the buffer, and returns its length. It returns
    /// `None` if the buffer is too short.
    fn write_lossy(bytes: &[u8], buf: &mut [u8]) -> Option<usize>
        ensures some { IfSome result (λ len.
            StandsAtFront (utf8 (reading bytes.now)) len buf.old buf.new) }
        ensures unchanged { result ≡ None → buf.new ≡ buf.old };

    /// What is known of the lossy reading.
    fn lossy_laws()
        ensures text { (text more : List ℕ) → IsText text
            → reading (Self.from text ++ more) ≡ text ++ reading more }
        ensures damage { (byte : ℕ) (more : List ℕ) → BeginsNone Self.from (byte ∷ more)
            → reading (byte ∷ more) ≡ 0xFFFD ∷ reading more }
        ensures parts { (first others : List ℕ) → NoneCrosses Self.from first others
            → reading (first ++ others) ≡ reading first ++ reading others }
        ensures is_text { (bytes : List ℕ) → IsText (reading bytes) }
        ensures to_utf8 { (text : List ℕ) → Self.to text ≡ utf8 text };
}

impl<E: Encoding> Decoding for FromEncoding<E> {
    ghost reading = { reading_of E.flavor };

    #[inline(always)]
    fn write_lossy(bytes: &[u8], buf: &mut [u8]) -> Option<usize> {
        E::decode_lossy(bytes, buf).ok()
    }

    fn lossy_laws() {
        // Laws do nothing at run time: the proof uses their contracts.
        laws::around();
        laws::split();
        laws::places();
        laws::lossy();
    }
}
