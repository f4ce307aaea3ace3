//! The calls for MUTF-8. C passes each slice as a pointer and a length, and `lib.rt` says what
//! every call returns, and what the numbers in the contracts of the `stream` calls are.

ghost use Rattle.std.specs.Prelude.{◌≡◌};
ghost use Rattle.simd_cesu8.specs.Text.{utf8};
ghost use Rattle.simd_cesu8.specs.Encoding.{Mutf8, encoding};
ghost use Rattle.simd_cesu8.specs.Reading.{IsStrictReading, IsLenientReading, reading, IsLenientLossyReading};
ghost use Rattle.cesu8_c.specs.Answers.{DecidesNeed, TellsEncodedLength, TellsDecodedLength, TellsLossyLength, TellsValidFront, Encodes, Decodes, DecodesLossily};
ghost use Rattle.cesu8_c.specs.Pieces.{ConvertsPiece, DecodesPiece};

use crate::answer::{Answer, Decision, INVALID, NOT_UTF8, TOO_LONG};
use crate::progress::Progress;
use cesu8_stream::mutf8 as stream;
use simd_cesu8::implementation::text_of;
use simd_cesu8::mutf8;

/// Returns whether the MUTF-8 of a text in UTF-8 differs from the UTF-8, as `mutf8::needs_encoded`
/// does. `NOT_UTF8` means that the input is not UTF-8.
#[unsafe(no_mangle)]
pub extern "C" fn cesu8_mutf8_needs_encoded(text: &[u8]) -> Decision
    ensures { DecidesNeed Mutf8 text.now result }
{
    match text_of(text) {
        Some(text) => Decision::of(mutf8::needs_encoded(text)),
        None => Decision::without(),
    }
}

/// Returns the length in bytes of the MUTF-8 of a text in UTF-8, as `mutf8::encoded_len` does.
/// `NOT_UTF8` means that the input is not UTF-8.
#[unsafe(no_mangle)]
pub extern "C" fn cesu8_mutf8_encoded_len(text: &[u8]) -> Answer
    ensures { TellsEncodedLength Mutf8 text.now result }
{
    match text_of(text) {
        Some(text) => Answer::of_length(mutf8::encoded_len(text)),
        None => Answer::without(NOT_UTF8),
    }
}

/// Encodes UTF-8 to MUTF-8 (Java's `DataOutput`, without the length prefix), as
/// `mutf8::encode_to_slice` does. `NOT_UTF8` means that the input is not UTF-8.
#[unsafe(no_mangle)]
pub extern "C" fn cesu8_mutf8_encode(text: &[u8], buf: &mut [u8]) -> Answer
    ensures { Encodes Mutf8 text.now result buf.old buf.new }
{
    match text_of(text) {
        Some(text) => Answer::of_bytes(mutf8::encode_to_slice(text, buf)),
        None => Answer::without(NOT_UTF8),
    }
}

/// Decodes MUTF-8 to UTF-8, as `mutf8::decode_strict_to_slice` does. `INVALID` means that the input
/// is not the encoding of any text.
#[unsafe(no_mangle)]
pub extern "C" fn cesu8_mutf8_decode_strict(bytes: &[u8], buf: &mut [u8]) -> Answer
    ensures { Decodes (IsStrictReading Mutf8 bytes.now) result buf.old buf.new }
{
    Answer::of_text(mutf8::decode_strict_to_slice(bytes, buf))
}

/// Decodes bytes that are UTF-8 as a whole, or else MUTF-8, to UTF-8, as `mutf8::decode_to_slice`
/// does. `INVALID` means that the input is neither.
#[unsafe(no_mangle)]
pub extern "C" fn cesu8_mutf8_decode(bytes: &[u8], buf: &mut [u8]) -> Answer
    ensures { Decodes (IsLenientReading Mutf8 bytes.now) result buf.old buf.new }
{
    Answer::of_text(mutf8::decode_to_slice(bytes, buf))
}

/// Decodes MUTF-8 that may be damaged to UTF-8, as `mutf8::decode_lossy_strict_to_slice` does: each
/// encoded character in the bytes, and U+FFFD for each byte that is not part of one. `TOO_LONG`
/// means that the length of the text does not fit `size_t`.
#[unsafe(no_mangle)]
pub extern "C" fn cesu8_mutf8_decode_lossy_strict(bytes: &[u8], buf: &mut [u8]) -> Answer
    ensures { DecodesLossily (λ text. text ≡ reading Mutf8 bytes.now) result buf.old buf.new }
{
    Answer::of_lossy_text(mutf8::decode_lossy_strict_to_slice(bytes, buf))
}

/// Decodes bytes that are UTF-8 as a whole, or else MUTF-8 that may be damaged, to UTF-8, as
/// `mutf8::decode_lossy_to_slice` does. `TOO_LONG` means that the length of the text does not fit
/// `size_t`.
#[unsafe(no_mangle)]
pub extern "C" fn cesu8_mutf8_decode_lossy(bytes: &[u8], buf: &mut [u8]) -> Answer
    ensures { DecodesLossily (IsLenientLossyReading Mutf8 bytes.now) result buf.old buf.new }
{
    Answer::of_lossy_text(mutf8::decode_lossy_to_slice(bytes, buf))
}

/// Returns the length in bytes of the text that `cesu8_mutf8_decode_strict` writes, as
/// `mutf8::decoded_len` does. `INVALID` means that the input is not the encoding of any text.
#[unsafe(no_mangle)]
pub extern "C" fn cesu8_mutf8_decoded_len(bytes: &[u8]) -> Answer
    ensures { TellsDecodedLength Mutf8 bytes.now result }
{
    match mutf8::decoded_len(bytes) {
        Some(length) => Answer::of_length(length),
        None => Answer::without(INVALID),
    }
}

/// Returns the length of the longest valid prefix, as `mutf8::valid_up_to` does: how many bytes at
/// the start are whole encoded characters. The status is always `OK`.
#[unsafe(no_mangle)]
pub extern "C" fn cesu8_mutf8_valid_up_to(bytes: &[u8]) -> Answer
    ensures { TellsValidFront Mutf8 bytes.now result }
{
    Answer::of_length(mutf8::valid_up_to(bytes))
}

/// Returns the length in bytes of the text that `cesu8_mutf8_decode_lossy_strict` writes, as
/// `mutf8::lossy_len` does. `TOO_LONG` means that the length does not fit `size_t`.
#[unsafe(no_mangle)]
pub extern "C" fn cesu8_mutf8_lossy_len(bytes: &[u8]) -> Answer
    ensures { TellsLossyLength Mutf8 bytes.now result }
{
    match mutf8::lossy_len(bytes) {
        Some(length) => Answer::of_length(length),
        None => Answer::without(TOO_LONG),
    }
}

/// Decodes a piece of MUTF-8 to UTF-8, as much as fits in the buffer, as
/// `cesu8_stream::mutf8::decode_strict` does. `INVALID` means that no encoded character begins at
/// offset `read`, whatever bytes follow the piece.
#[unsafe(no_mangle)]
pub extern "C" fn cesu8_mutf8_stream_decode_strict(bytes: &[u8], buf: &mut [u8]) -> Progress
    ensures { ConvertsPiece (encoding Mutf8) utf8 4 INVALID bytes.now result buf.old buf.new }
{
    Progress::of(stream::decode_strict(bytes, buf), INVALID)
}

/// Decodes a piece of MUTF-8 that may be damaged to UTF-8, as much as fits in the buffer, as
/// `cesu8_stream::mutf8::decode_lossy_strict` does. `is_last` says that no more bytes follow;
/// otherwise an incomplete character at the end is left for the next piece.
#[unsafe(no_mangle)]
pub extern "C" fn cesu8_mutf8_stream_decode_lossy_strict(
    bytes: &[u8],
    buf: &mut [u8],
    is_last: bool,
) -> Progress
    ensures { DecodesPiece (encoding Mutf8) (reading Mutf8) is_last bytes.now
        result buf.old buf.new }
{
    Progress::of(stream::decode_lossy_strict(bytes, is_last, buf), INVALID)
}

/// Encodes a piece of UTF-8 to MUTF-8, as much as fits in the buffer, as
/// `cesu8_stream::mutf8::encode` does. `NOT_UTF8` means that no character of UTF-8 begins at offset
/// `read`, whatever bytes follow the piece.
#[unsafe(no_mangle)]
pub extern "C" fn cesu8_mutf8_stream_encode(text: &[u8], buf: &mut [u8]) -> Progress
    ensures { ConvertsPiece utf8 (encoding Mutf8) 6 NOT_UTF8 text.now result buf.old buf.new }
{
    Progress::of(stream::encode(text, buf), NOT_UTF8)
}
