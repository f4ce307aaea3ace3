//! The library for C: the calls of `simd_cesu8`, `java_text` and `cesu8_stream` over byte slices.
//!
//! C passes each slice as a pointer and a length, as `include/cesu8.h` declares it. A call returns
//! a status and the length of its result, and writes the result to the start of the caller's
//! buffer. If the buffer is too short, it returns `TOO_SMALL` and the needed length. The `stream`
//! calls, for input that comes in pieces, write as much as fits, and return a status, how many
//! bytes they read and how many they wrote. No call allocates memory. The calls here are for
//! CESU-8, those of [`mutf8`] for MUTF-8, and those of [`java`] for length-prefixed Java strings.
//!
//! The numbers 4 and 6 in the contracts of the `stream` calls are the most bytes of a character in
//! the output: in UTF-8 and in the encoding.
#![tactic(auto)]

ghost use Rattle.std.specs.Prelude.{◌≡◌};
ghost use Rattle.simd_cesu8.specs.Text.{utf8};
ghost use Rattle.simd_cesu8.specs.Encoding.{Cesu8, encoding};
ghost use Rattle.simd_cesu8.specs.Reading.{IsStrictReading, IsLenientReading, reading, IsLenientLossyReading};
ghost use Rattle.cesu8_c.specs.Answers.{DecidesNeed, TellsEncodedLength, TellsUtf16Length, ComparesTexts, TellsDecodedLength, TellsLossyLength, TellsValidFront, Encodes, Decodes, DecodesLossily};
ghost use Rattle.cesu8_c.specs.Pieces.{ConvertsPiece, DecodesPiece};

mod answer;
mod comparison;
pub mod java;
pub mod mutf8;
mod progress;

pub use crate::answer::{Answer, Decision, Reading};
use crate::answer::{INVALID, NOT_UTF8, TOO_LONG};
pub use crate::comparison::Comparison;
pub use crate::progress::Progress;
use simd_cesu8::implementation::text_of;

/// Returns whether the CESU-8 of a text in UTF-8 differs from the UTF-8, as
/// `simd_cesu8::needs_encoded` does. `NOT_UTF8` means that the input is not UTF-8.
#[unsafe(no_mangle)]
pub extern "C" fn cesu8_needs_encoded(text: &[u8]) -> Decision
    ensures { DecidesNeed Cesu8 text.now result }
{
    match text_of(text) {
        Some(text) => Decision::of(simd_cesu8::needs_encoded(text)),
        None => Decision::without(),
    }
}

/// Returns the length in bytes of the CESU-8 of a text in UTF-8, as `simd_cesu8::encoded_len` does.
/// `NOT_UTF8` means that the input is not UTF-8.
#[unsafe(no_mangle)]
pub extern "C" fn cesu8_encoded_len(text: &[u8]) -> Answer
    ensures { TellsEncodedLength Cesu8 text.now result }
{
    match text_of(text) {
        Some(text) => Answer::of_length(simd_cesu8::encoded_len(text)),
        None => Answer::without(NOT_UTF8),
    }
}

/// Returns how many UTF-16 code units a text in UTF-8 has, as `simd_cesu8::utf16_len` does.
/// `NOT_UTF8` means that the input is not UTF-8.
#[unsafe(no_mangle)]
pub extern "C" fn cesu8_utf16_len(text: &[u8]) -> Answer
    ensures { TellsUtf16Length text.now result }
{
    match text_of(text) {
        Some(text) => Answer::of_length(simd_cesu8::utf16_len(text)),
        None => Answer::without(NOT_UTF8),
    }
}

/// Compares two texts in UTF-8 by their UTF-16 code units, as `simd_cesu8::compare_as_utf16` does.
/// `NOT_UTF8` means that one of them is not UTF-8.
#[unsafe(no_mangle)]
pub extern "C" fn cesu8_compare_as_utf16(text: &[u8], other: &[u8]) -> Comparison
    ensures { ComparesTexts text.now other.now result }
{
    let Some(text) = text_of(text) else {
        return Comparison::without();
    };
    match text_of(other) {
        Some(other) => Comparison::of(simd_cesu8::compare_as_utf16(text, other)),
        None => Comparison::without(),
    }
}

/// Encodes UTF-8 to CESU-8 (Unicode Technical Report 26), as `simd_cesu8::encode_to_slice` does.
/// `NOT_UTF8` means that the input is not UTF-8.
#[unsafe(no_mangle)]
pub extern "C" fn cesu8_encode(text: &[u8], buf: &mut [u8]) -> Answer
    ensures { Encodes Cesu8 text.now result buf.old buf.new }
{
    match text_of(text) {
        Some(text) => Answer::of_bytes(simd_cesu8::encode_to_slice(text, buf)),
        None => Answer::without(NOT_UTF8),
    }
}

/// Decodes CESU-8 to UTF-8, as `simd_cesu8::decode_strict_to_slice` does. `INVALID` means that the
/// input is not the encoding of any text.
#[unsafe(no_mangle)]
pub extern "C" fn cesu8_decode_strict(bytes: &[u8], buf: &mut [u8]) -> Answer
    ensures { Decodes (IsStrictReading Cesu8 bytes.now) result buf.old buf.new }
{
    Answer::of_text(simd_cesu8::decode_strict_to_slice(bytes, buf))
}

/// Decodes bytes that are UTF-8 as a whole, or else CESU-8, to UTF-8, as
/// `simd_cesu8::decode_to_slice` does. `INVALID` means that the input is neither.
#[unsafe(no_mangle)]
pub extern "C" fn cesu8_decode(bytes: &[u8], buf: &mut [u8]) -> Answer
    ensures { Decodes (IsLenientReading Cesu8 bytes.now) result buf.old buf.new }
{
    Answer::of_text(simd_cesu8::decode_to_slice(bytes, buf))
}

/// Decodes CESU-8 that may be damaged to UTF-8, as `simd_cesu8::decode_lossy_strict_to_slice` does:
/// each encoded character in the bytes, and U+FFFD for each byte that is not part of one.
/// `TOO_LONG` means that the length of the text does not fit `size_t`.
#[unsafe(no_mangle)]
pub extern "C" fn cesu8_decode_lossy_strict(bytes: &[u8], buf: &mut [u8]) -> Answer
    ensures { DecodesLossily (λ text. text ≡ reading Cesu8 bytes.now) result buf.old buf.new }
{
    Answer::of_lossy_text(simd_cesu8::decode_lossy_strict_to_slice(bytes, buf))
}

/// Decodes bytes that are UTF-8 as a whole, or else CESU-8 that may be damaged, to UTF-8, as
/// `simd_cesu8::decode_lossy_to_slice` does. `TOO_LONG` means that the length of the text does not
/// fit `size_t`.
#[unsafe(no_mangle)]
pub extern "C" fn cesu8_decode_lossy(bytes: &[u8], buf: &mut [u8]) -> Answer
    ensures { DecodesLossily (IsLenientLossyReading Cesu8 bytes.now) result buf.old buf.new }
{
    Answer::of_lossy_text(simd_cesu8::decode_lossy_to_slice(bytes, buf))
}

/// Returns the length in bytes of the text that `cesu8_decode_strict` writes, as
/// `simd_cesu8::decoded_len` does. `INVALID` means that the input is not the encoding of any text.
#[unsafe(no_mangle)]
pub extern "C" fn cesu8_decoded_len(bytes: &[u8]) -> Answer
    ensures { TellsDecodedLength Cesu8 bytes.now result }
{
    match simd_cesu8::decoded_len(bytes) {
        Some(length) => Answer::of_length(length),
        None => Answer::without(INVALID),
    }
}

/// Returns the length of the longest valid prefix, as `simd_cesu8::valid_up_to` does: how many
/// bytes at the start are whole encoded characters. The status is always `OK`.
#[unsafe(no_mangle)]
pub extern "C" fn cesu8_valid_up_to(bytes: &[u8]) -> Answer
    ensures { TellsValidFront Cesu8 bytes.now result }
{
    Answer::of_length(simd_cesu8::valid_up_to(bytes))
}

/// Returns the length in bytes of the text that `cesu8_decode_lossy_strict` writes, as
/// `simd_cesu8::lossy_len` does. `TOO_LONG` means that the length does not fit `size_t`.
#[unsafe(no_mangle)]
pub extern "C" fn cesu8_lossy_len(bytes: &[u8]) -> Answer
    ensures { TellsLossyLength Cesu8 bytes.now result }
{
    match simd_cesu8::lossy_len(bytes) {
        Some(length) => Answer::of_length(length),
        None => Answer::without(TOO_LONG),
    }
}

/// Decodes a piece of CESU-8 to UTF-8, as much as fits in the buffer, as
/// `cesu8_stream::decode_strict` does. `INVALID` means that no encoded character begins at offset
/// `read`, whatever bytes follow the piece.
#[unsafe(no_mangle)]
pub extern "C" fn cesu8_stream_decode_strict(bytes: &[u8], buf: &mut [u8]) -> Progress
    ensures { ConvertsPiece (encoding Cesu8) utf8 4 INVALID bytes.now result buf.old buf.new }
{
    Progress::of(cesu8_stream::decode_strict(bytes, buf), INVALID)
}

/// Decodes a piece of CESU-8 that may be damaged to UTF-8, as much as fits in the buffer, as
/// `cesu8_stream::decode_lossy_strict` does. `is_last` says that no more bytes follow; otherwise an
/// incomplete character at the end is left for the next piece.
#[unsafe(no_mangle)]
pub extern "C" fn cesu8_stream_decode_lossy_strict(
    bytes: &[u8],
    buf: &mut [u8],
    is_last: bool,
) -> Progress
    ensures { DecodesPiece (encoding Cesu8) (reading Cesu8) is_last bytes.now
        result buf.old buf.new }
{
    Progress::of(
        cesu8_stream::decode_lossy_strict(bytes, is_last, buf),
        INVALID,
    )
}

/// Encodes a piece of UTF-8 to CESU-8, as much as fits in the buffer, as `cesu8_stream::encode`
/// does. `NOT_UTF8` means that no character of UTF-8 begins at offset `read`, whatever bytes follow
/// the piece.
#[unsafe(no_mangle)]
pub extern "C" fn cesu8_stream_encode(text: &[u8], buf: &mut [u8]) -> Progress
    ensures { ConvertsPiece utf8 (encoding Cesu8) 6 NOT_UTF8 text.now result buf.old buf.new }
{
    Progress::of(cesu8_stream::encode(text, buf), NOT_UTF8)
}
