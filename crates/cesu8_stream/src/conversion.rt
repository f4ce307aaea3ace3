//! A conversion reads text in one form and writes it in another. This file has both directions:
//! from an encoding to UTF-8, and from UTF-8 to an encoding. `laws` states what the loops of
//! `engine` need to know about the two forms.

ghost use Rattle.std.specs.Prelude.{◌≡◌, ℕ, ◌+◌, ◌<◌, ◌≤◌, ◌⊎◌, List, [], ◌∷◌, ◌++◌, length, take, drop, IfSome, IfNone, None};
ghost use Rattle.simd_cesu8.specs.Text.{utf8};
ghost use Rattle.simd_cesu8.specs.Encoding.{encoding};
ghost use Rattle.simd_cesu8.specs.Slices.{StandsAtFront};
ghost use Rattle.cesu8_stream.specs.Written.{IsWritten, Begins, BeginsNone};
ghost use Rattle.cesu8_stream.specs.Completions.{pair_bytes, null_bytes, low_bytes, high_bytes, IsCompletedBy};

use crate::encodings::Encoding;
use crate::text::{utf8_text, utf8_valid_up_to};
use simd_cesu8::laws;
use std::marker::PhantomData;

/// The length of the longest encoded character: a surrogate pair.
pub const LONGEST: usize = 6;

/// A conversion from one way of writing text to another.
pub trait Conversion {
    /// How the input is written.
    ghost from: { List ℕ → List ℕ };

    /// How the output is written.
    ghost to: { List ℕ → List ℕ };

    /// The most bytes that a character has in the output.
    ghost widest: { ℕ };

    /// The bytes of the two characters that `completions` returns, each padded with zeros to six.
    ghost first_completion: { List ℕ };

    ghost second_completion: { List ℕ };

    /// Returns how many bytes of input have at most `len` bytes in the output. The clause does not
    /// say this: it is for speed alone, since `write` fails if the buffer is too short.
    fn surely_fit(len: usize) -> usize
        ensures { result ≤ len };

    /// Returns how many bytes at the start are whole characters, up to an offset at which none
    /// begins.
    fn valid_up_to(bytes: &[u8]) -> usize
        ensures within { result ≤ length bytes.now }
        ensures valid { (text : List ℕ) × IsWritten from (take result bytes.now) text }
        ensures stops { result < length bytes.now → BeginsNone from (drop result bytes.now) };

    /// Writes the text of the bytes to the buffer, and returns its length. It returns `None` if the
    /// bytes are no text or the buffer is too short.
    fn write(bytes: &[u8], buf: &mut [u8]) -> Option<usize>
        ensures some { IfSome result (λ len. (text : List ℕ)
            × IsWritten from bytes.now text × StandsAtFront (to text) len buf.old buf.new) }
        ensures none { IfNone result ((text : List ℕ) → IsWritten from bytes.now text
            → length buf.old < length (to text)) }
        ensures unchanged { result ≡ None → buf.new ≡ buf.old };

    /// Returns the bytes of two characters, padded with zeros. Each truncated character of the
    /// input becomes a whole one if the missing bytes are taken from one of these: which bytes may
    /// follow depends on the first two bytes alone.
    fn completions() -> ([u8; 6], [u8; 6])
        ensures first { result.0 ≡ first_completion }
        ensures second { result.1 ≡ second_completion };

    /// What is known of both ways of writing: each writes a text character by character. Bytes
    /// begin with at most one character of `from`, and the two completions suffice for each
    /// truncated one.
    fn laws()
        ensures append_from { (s t : List ℕ) → from (s ++ t) ≡ from s ++ from t }
        ensures append_to { (s t : List ℕ) → to (s ++ t) ≡ to s ++ to t }
        ensures from_empty { from [] ≡ [] }
        ensures to_empty { to [] ≡ [] }
        ensures at_least_one { (c : ℕ) → 0 < length (from (c ∷ [])) }
        ensures at_most_six { (c : ℕ) → length (from (c ∷ [])) ≤ 6 }
        ensures widest { (c : ℕ) → length (to (c ∷ [])) ≤ widest }
        ensures one_begins { (bytes : List ℕ) (c d : ℕ) → Begins from bytes c
            → Begins from bytes d → c ≡ d }
        ensures completed { (bytes more : List ℕ) (c : ℕ) → 0 < length bytes
            → BeginsNone from bytes → Begins from (bytes ++ more) c
            → IsCompletedBy from first_completion bytes
            ⊎ IsCompletedBy from second_completion bytes };
}

/// From an encoding to UTF-8.
pub struct FromEncoding<E>(PhantomData<E>);

impl<E: Encoding> Conversion for FromEncoding<E> {
    ghost from = { encoding E.flavor };

    ghost to = { utf8 };

    ghost widest = { 4 };

    ghost first_completion = { pair_bytes };

    ghost second_completion = { null_bytes };

    #[inline(always)]
    fn surely_fit(len: usize) -> usize {
        len
    }

    #[inline(always)]
    fn valid_up_to(bytes: &[u8]) -> usize {
        E::valid_up_to(bytes)
    }

    #[inline(always)]
    fn write(bytes: &[u8], buf: &mut [u8]) -> Option<usize> {
        E::decode(bytes, buf).ok()
    }

    /// U+10000, and U+0000 of MUTF-8. Only the byte C0, in MUTF-8, needs the second one.
    fn completions() -> ([u8; 6], [u8; 6]) {
        (
            [0xED, 0xA0, 0x80, 0xED, 0xB0, 0x80],
            [0xC0, 0x80, 0, 0, 0, 0],
        )
    }

    fn laws() {
        // Laws do nothing at run time: the proof uses their contracts.
        laws::concat();
        laws::no_overlap();
    }
}

/// From UTF-8 to an encoding.
pub struct ToEncoding<E>(PhantomData<E>);

impl<E: Encoding> Conversion for ToEncoding<E> {
    ghost from = { utf8 };

    ghost to = { encoding E.flavor };

    ghost widest = { 6 };

    ghost first_completion = { low_bytes };

    ghost second_completion = { high_bytes };

    // An encoding has at most twice the bytes of UTF-8.
    #[inline(always)]
    fn surely_fit(len: usize) -> usize {
        len / 2
    }

    #[inline(always)]
    fn valid_up_to(bytes: &[u8]) -> usize {
        utf8_valid_up_to(bytes)
    }

    #[inline(always)]
    fn write(bytes: &[u8], buf: &mut [u8]) -> Option<usize> {
        let text = utf8_text(bytes)?;
        match E::encode(text, buf) {
            Ok(len) => Some(len),
            Err(_) => None,
        }
    }

    /// U+100000, and U+20000. The second byte of U+100000 may follow every lead byte of UTF-8 but
    /// E0 and F0, and that of U+20000 may follow these two.
    fn completions() -> ([u8; 6], [u8; 6]) {
        (
            [0xF4, 0x80, 0x80, 0x80, 0, 0],
            [0xF0, 0xA0, 0x80, 0x80, 0, 0],
        )
    }

    fn laws() {
        laws::concat();
    }
}
