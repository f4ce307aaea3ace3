//! The calls that decode all of their input, as values for loops over them, and their outcomes, as
//! values that can be compared.

use crate::flavors::{Decoded, Flavor, decode, decode_lossy, decode_lossy_strict, decode_strict};
use simd_cesu8::DecodeFault;
use std::alloc::Global;

/// A call that decodes all of its input.
#[derive(Clone, Copy, PartialEq, Eq, Debug)]
pub enum Decoder {
    Strict,
    Lenient,
    LossyStrict,
    LossyLenient,
}

/// Each of these calls.
pub const DECODERS: [Decoder; 4] = [
    Decoder::Strict,
    Decoder::Lenient,
    Decoder::LossyStrict,
    Decoder::LossyLenient,
];

impl Decoder {
    /// Whether the call also accepts UTF-8.
    pub fn is_lenient(self) -> bool {
        matches!(self, Decoder::Lenient | Decoder::LossyLenient)
    }

    /// Whether the call replaces damage by U+FFFD.
    pub fn is_lossy(self) -> bool {
        matches!(self, Decoder::LossyStrict | Decoder::LossyLenient)
    }

    /// The name of the call.
    pub fn name(self) -> &'static str {
        match self {
            Decoder::Strict => "decode_strict",
            Decoder::Lenient => "decode",
            Decoder::LossyStrict => "decode_lossy_strict",
            Decoder::LossyLenient => "decode_lossy",
        }
    }

    pub fn call(self, alloc: Global, flavor: Flavor, bytes: &[u8]) -> Decoded<'_> {
        match self {
            Decoder::Strict => decode_strict(alloc, flavor, bytes),
            Decoder::Lenient => decode(alloc, flavor, bytes),
            Decoder::LossyStrict => {
                decode_lossy_strict(alloc, flavor, bytes).map_err(DecodeFault::Memory)
            }
            Decoder::LossyLenient => {
                decode_lossy(alloc, flavor, bytes).map_err(DecodeFault::Memory)
            }
        }
    }
}

/// The outcome of a call that decodes.
#[derive(Clone, Copy, PartialEq, Eq, Debug)]
pub enum Outcome<'a> {
    Borrowed(&'a str),
    Owned(&'a str),
    Invalid,
    Memory,
}

/// The outcome of a call that returned this result.
pub fn outcome_of<'a>(returned: &'a Decoded<'_>) -> Outcome<'a> {
    match returned {
        Ok(text) if text.is_borrowed() => Outcome::Borrowed(text.as_str()),
        Ok(text) => Outcome::Owned(text.as_str()),
        Err(DecodeFault::Invalid(_)) => Outcome::Invalid,
        Err(DecodeFault::Memory(_)) => Outcome::Memory,
    }
}
