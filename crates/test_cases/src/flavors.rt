//! The calls that encode and decode, with the encoding as an argument.

use simd_cesu8::{
    CountedText, CowBytes, CowText, DecodeFault, DecodeSliceFault, LossySliceFault, TooShort, mutf8,
};
use std::alloc::{AllocError, Global};

/// One of the two encodings.
#[derive(Clone, Copy, PartialEq, Eq, Debug)]
pub enum Flavor {
    Cesu8,
    Mutf8,
}

/// Both encodings.
pub const FLAVORS: [Flavor; 2] = [Flavor::Cesu8, Flavor::Mutf8];

impl Flavor {
    /// Of two values, one for CESU-8 and one for MUTF-8, the one for this encoding.
    pub fn of<T: Copy>(self, both: [T; 2]) -> T {
        match self {
            Flavor::Cesu8 => both[0],
            Flavor::Mutf8 => both[1],
        }
    }
}

/// What a call that decodes returns.
pub type Decoded<'a> = Result<CowText<'a>, DecodeFault>;

/// What a call that replaces damage by U+FFFD returns.
pub type LossilyDecoded<'a> = Result<CowText<'a>, AllocError>;

/// Calls the function of this name for an encoding.
macro_rules! call {
    ($flavor:ident, $name:ident($($argument:expr),*)) => {
        match $flavor {
            Flavor::Cesu8 => simd_cesu8::$name($($argument),*),
            Flavor::Mutf8 => mutf8::$name($($argument),*),
        }
    };
}

/// Whether the encoding of a string differs from its UTF-8.
pub fn needs_encoded(flavor: Flavor, text: &str) -> bool {
    call!(flavor, needs_encoded(text))
}

/// Encodes a string.
pub fn encode(alloc: Global, flavor: Flavor, text: &str) -> Result<CowBytes<'_>, AllocError> {
    call!(flavor, encode(alloc, text))
}

/// Appends the encoding of a string to a buffer.
pub fn encode_into(flavor: Flavor, text: &str, buf: &mut Vec<u8>) -> Result<(), AllocError> {
    call!(flavor, encode_into(text, buf))
}

/// Encodes a string to the caller's buffer.
pub fn encode_to_slice(flavor: Flavor, text: &str, buf: &mut [u8]) -> Result<usize, TooShort> {
    call!(flavor, encode_to_slice(text, buf))
}

/// Computes the length of a string's encoding, for later calls.
pub fn counted(flavor: Flavor, text: &str) -> CountedText<'_> {
    call!(flavor, counted(text))
}

/// The length of a string's encoding.
pub fn encoded_len(flavor: Flavor, text: &str) -> usize {
    call!(flavor, encoded_len(text))
}

/// Decodes the encoding.
pub fn decode_strict(alloc: Global, flavor: Flavor, bytes: &[u8]) -> Decoded<'_> {
    call!(flavor, decode_strict(alloc, bytes))
}

/// Decodes the encoding in the first `len` bytes.
pub fn decode_strict_front(alloc: Global, flavor: Flavor, bytes: &[u8], len: usize) -> Decoded<'_> {
    call!(flavor, decode_strict_front(alloc, bytes, len))
}

/// Decodes UTF-8, or else the encoding.
pub fn decode(alloc: Global, flavor: Flavor, bytes: &[u8]) -> Decoded<'_> {
    call!(flavor, decode(alloc, bytes))
}

/// Decodes the encoding, and replaces damage by U+FFFD.
pub fn decode_lossy_strict(alloc: Global, flavor: Flavor, bytes: &[u8]) -> LossilyDecoded<'_> {
    call!(flavor, decode_lossy_strict(alloc, bytes))
}

/// Decodes UTF-8, or else the encoding, and replaces damage by U+FFFD.
pub fn decode_lossy(alloc: Global, flavor: Flavor, bytes: &[u8]) -> LossilyDecoded<'_> {
    call!(flavor, decode_lossy(alloc, bytes))
}

/// The length of the text that the strict call returns.
pub fn decoded_len(flavor: Flavor, bytes: &[u8]) -> Option<usize> {
    call!(flavor, decoded_len(bytes))
}

/// The length of the text that the lossy strict call returns.
pub fn lossy_len(flavor: Flavor, bytes: &[u8]) -> Option<usize> {
    call!(flavor, lossy_len(bytes))
}

/// The length of the longest valid prefix.
pub fn valid_up_to(flavor: Flavor, bytes: &[u8]) -> usize {
    call!(flavor, valid_up_to(bytes))
}

/// Decodes the encoding to the caller's buffer.
pub fn decode_strict_to_slice(
    flavor: Flavor,
    bytes: &[u8],
    buf: &mut [u8],
) -> Result<usize, DecodeSliceFault> {
    call!(flavor, decode_strict_to_slice(bytes, buf))
}

/// Decodes UTF-8, or else the encoding, to the caller's buffer.
pub fn decode_to_slice(
    flavor: Flavor,
    bytes: &[u8],
    buf: &mut [u8],
) -> Result<usize, DecodeSliceFault> {
    call!(flavor, decode_to_slice(bytes, buf))
}

/// Decodes the encoding to the caller's buffer, and replaces damage by U+FFFD.
pub fn decode_lossy_strict_to_slice(
    flavor: Flavor,
    bytes: &[u8],
    buf: &mut [u8],
) -> Result<usize, LossySliceFault> {
    call!(flavor, decode_lossy_strict_to_slice(bytes, buf))
}

/// Decodes UTF-8, or else the encoding, to the caller's buffer, and replaces damage by U+FFFD.
pub fn decode_lossy_to_slice(
    flavor: Flavor,
    bytes: &[u8],
    buf: &mut [u8],
) -> Result<usize, LossySliceFault> {
    call!(flavor, decode_lossy_to_slice(bytes, buf))
}
