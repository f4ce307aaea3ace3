//! What a message says of damage: the bytes, why they are damage, and which command or encoding
//! they belong to.

use crate::conversion::{Conversion, FlavorWord};
use simdutf8::compat;

/// What a message says of the bytes at a damaged place.
#[derive(Clone, Copy)]
pub struct Reason {
    /// How many bytes the message shows.
    pub shown: usize,
    /// What is wrong with them.
    pub text: &'static str,
}

/// Why the bytes, of which there is at least one, are damage to a conversion. They are all those
/// from the damage on that were read. If they are only the beginning of a character that the
/// conversion reads, the input ends there: otherwise it would have read more before it stopped.
pub fn reason_of(conversion: Conversion, bytes: &[u8]) -> Reason {
    match conversion {
        Conversion::Encode(_) => utf8_reason(bytes),
        Conversion::Decode(flavor) | Conversion::Lossy(flavor) => decode_reason(flavor, bytes),
        Conversion::Mixed(flavor) | Conversion::MixedLossy(flavor) => mixed_reason(flavor, bytes),
    }
}

/// Why bytes are not UTF-8.
fn utf8_reason(bytes: &[u8]) -> Reason {
    if is_surrogate(bytes) {
        return Reason {
            shown: 3,
            text: "a surrogate, not UTF-8; is this CESU-8? Then use decode",
        };
    }
    if let [0xC0, 0x80, ..] = bytes {
        return Reason {
            shown: 2,
            text: "not UTF-8; it is U+0000 in MUTF-8: use decode mutf8",
        };
    }
    cut_or(begins_utf8(bytes), bytes, "not UTF-8")
}

/// Why bytes are not the encoding. If they are a character of UTF-8, this says so.
fn decode_reason(flavor: FlavorWord, bytes: &[u8]) -> Reason {
    if is_four(bytes) {
        return Reason {
            shown: 4,
            text: match flavor {
                FlavorWord::Cesu8 => "not CESU-8, but UTF-8: use mixed",
                FlavorWord::Mutf8 => "not MUTF-8, but UTF-8: use mixed",
            },
        };
    }
    if let (FlavorWord::Mutf8, Some(0)) = (flavor, bytes.first()) {
        return Reason {
            shown: 1,
            text: "not MUTF-8, which has C0 80 for U+0000: use mixed",
        };
    }
    encoding_reason(flavor, bytes, begins_encoded(flavor, bytes))
}

/// Why bytes are neither the encoding nor UTF-8.
fn mixed_reason(flavor: FlavorWord, bytes: &[u8]) -> Reason {
    let is_cut = begins_encoded(flavor, bytes) || begins_utf8(bytes);
    encoding_reason(flavor, bytes, is_cut)
}

/// Why bytes are not the encoding, if they are no character of UTF-8. `is_cut` says whether they are
/// only the beginning of a character.
fn encoding_reason(flavor: FlavorWord, bytes: &[u8], is_cut: bool) -> Reason {
    if let (FlavorWord::Cesu8, [0xC0, 0x80, ..]) = (flavor, bytes) {
        return Reason {
            shown: 2,
            text: "not CESU-8; it is U+0000 in MUTF-8: use mutf8",
        };
    }
    if is_surrogate(bytes) {
        return Reason {
            shown: 3,
            text: "an unpaired surrogate",
        };
    }
    cut_or(
        is_cut,
        bytes,
        match flavor {
            FlavorWord::Cesu8 => "not CESU-8",
            FlavorWord::Mutf8 => "not MUTF-8",
        },
    )
}

/// The reason for bytes that are only the beginning of a character, or this text for the first
/// byte.
fn cut_or(is_cut: bool, bytes: &[u8], text: &'static str) -> Reason {
    if is_cut {
        return Reason {
            shown: bytes.len(),
            text: "the input ends within a character",
        };
    }
    Reason { shown: 1, text }
}

/// Whether the bytes begin with a surrogate in three bytes.
fn is_surrogate(bytes: &[u8]) -> bool {
    match bytes {
        [0xED, 0xA0..=0xBF, 0x80..=0xBF, ..] => true,
        _ => false,
    }
}

/// Whether the bytes begin with a character of UTF-8 with four bytes.
fn is_four(bytes: &[u8]) -> bool {
    match bytes {
        [0xF0..=0xF4, _, _, _, ..] => compat::from_utf8(&bytes[..4]).is_ok(),
        _ => false,
    }
}

/// Whether the bytes are at most three, and only the beginning of a character of the encoding or of
/// the first half of a pair.
fn begins_encoded(flavor: FlavorWord, bytes: &[u8]) -> bool {
    match (flavor, bytes) {
        (_, [0xED, 0xA0..=0xAF]) | (FlavorWord::Mutf8, [0xC0]) => true,
        // In UTF-8 these bytes lead a character of four bytes, which the encodings do not have.
        (_, [0xF0..=0xFF, ..]) => false,
        _ => begins_utf8(bytes),
    }
}

/// Whether the bytes are at most three, and only the beginning of a character of UTF-8.
fn begins_utf8(bytes: &[u8]) -> bool {
    match bytes {
        [_, _, _, _, ..] => false,
        _ => match compat::from_utf8(bytes) {
            Ok(_) => false,
            Err(error) => error.valid_up_to() == 0 && error.error_len().is_none(),
        },
    }
}
