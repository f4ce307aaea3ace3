//! Round trips: the result is the input.

ghost use Rattle.std.specs.Prelude.{◌≡◌, IfOk, IsOkUnless};
ghost use Rattle.std.specs.Str.{chars};
ghost use Rattle.std.specs.String.{string_bytes};
ghost use Rattle.simd_cesu8.specs.Encoding.{Cesu8};
ghost use Rattle.simd_cesu8.specs.Fault.{OnInvalid};
ghost use Rattle.simd_cesu8.specs.Reading.{HasNoStrictReading};
ghost use Rattle.java_text.specs.Form.{HasForm};

use java_text::{ReadFault, WriteFault};
use simd_cesu8::{DecodeFault, laws};
use std::alloc::{AllocError, Global};

/// Encodes a text and decodes the result: returns the text.
///
/// ```rust
/// let back = uses::encode_and_decode(alloc, "a\u{1F496}")?;
/// assert_eq!(rt; back.as_str(), "a\u{1F496}");
/// ```
pub fn encode_and_decode(alloc: Global, text: &str) -> Result<String, AllocError>
    ensures { IfOk result (λ back. string_bytes back ≡ text.now) }
{
    // A law does nothing at run time: the proof uses its contract.
    laws::inverse();
    let encoded = simd_cesu8::encode(alloc, text)?;
    match simd_cesu8::decode_strict(alloc, encoded.as_bytes()) {
        Ok(decoded) => decoded.into_string(alloc),
        Err(DecodeFault::Memory(error)) => Err(error),
        // `decode_strict` accepts every encoding.
        Err(DecodeFault::Invalid(_)) => unreachable!(),
    }
}

/// Decodes bytes strictly and encodes the result: returns the bytes.
///
/// ```rust
/// let back = uses::decode_and_encode(alloc, b"a\xED\xA0\xBD\xED\xB2\x96")?;
/// assert_eq!(rt; back.as_slice(), b"a\xED\xA0\xBD\xED\xB2\x96".as_slice());
/// assert!(rt; uses::decode_and_encode(alloc, b"\xED\xA0\xBD").is_err());
/// ```
pub fn decode_and_encode(alloc: Global, bytes: &[u8]) -> Result<Vec<u8>, DecodeFault>
    ensures same { IfOk result (λ back. back.items ≡ bytes.now) }
    ensures invalid { OnInvalid result (HasNoStrictReading Cesu8 bytes.now) }
{
    let text = simd_cesu8::decode_strict(alloc, bytes)?;
    let encoded = simd_cesu8::encode(alloc, text.as_str()).map_err(DecodeFault::Memory)?;
    encoded.into_vec(alloc).map_err(DecodeFault::Memory)
}

/// Encodes a text and decodes the result lossily: returns the text.
///
/// ```rust
/// let back = uses::encode_and_read(alloc, "a\u{1F496}")?;
/// assert_eq!(rt; back.as_str(), "a\u{1F496}");
/// ```
pub fn encode_and_read(alloc: Global, text: &str) -> Result<String, AllocError>
    ensures { IfOk result (λ back. string_bytes back ≡ text.now) }
{
    laws::chars();
    laws::lossy();
    let encoded = simd_cesu8::encode(alloc, text)?;
    simd_cesu8::decode_lossy_strict(alloc, encoded.as_bytes())?.into_string(alloc)
}

/// Writes a text as a Java string with other bytes after it, and reads it: returns the text.
///
/// It returns `TooLong` only if the text has no form: if its MUTF-8 has more than 65,535 bytes.
///
/// ```rust
/// let back = uses::write_and_read(alloc, "a\0", b"\xFF")?;
/// assert_eq!(rt; back.as_str(), "a\0");
/// ```
pub fn write_and_read(alloc: Global, text: &str, rest: &[u8]) -> Result<String, WriteFault>
    ensures same { IfOk result (λ back. string_bytes back ≡ text.now) }
    ensures fits { HasForm (chars text.now) → IsOkUnless result WriteFault.Memory }
{
    laws::chars();
    let mut buf = Vec::new(alloc);
    java_text::write_utf(text, &mut buf)?;
    buf.extend_from_slice(rest)?;
    match java_text::read_utf(alloc, buf.as_slice()) {
        Ok((back, _)) => Ok(back.into_string(alloc)?),
        Err(ReadFault::Memory) => Err(WriteFault::Memory),
        // The bytes begin with a form.
        Err(ReadFault::Truncated | ReadFault::Invalid(_)) => unreachable!(),
    }
}
