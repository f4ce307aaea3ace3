//! Calls that predict the results of others. Each function that returns a `bool` compares two
//! calls, and is proved to return true. The contract of `append_and_encode` says that its two calls
//! agree.

ghost use Rattle.std.specs.Prelude.{◌≡◌, ◌++◌, IfOk, IsOk, IsTrue};
ghost use Rattle.std.specs.Str.{chars};
ghost use Rattle.simd_cesu8.specs.Encoding.{Cesu8, NeedsEncoding};

use simd_cesu8::{DecodeFault, laws};
use std::alloc::{AllocError, Global};

/// Returns whether `encode` borrows exactly when `needs_encoded` is false.
pub fn needs_or_borrows(alloc: Global, text: &str) -> Result<bool, AllocError>
    ensures { IfOk result (λ agree. IsTrue agree) }
{
    // Laws do nothing at run time: the proof uses their contracts.
    laws::chars();
    laws::needs();
    let is_borrowed = simd_cesu8::encode(alloc, text)?.is_borrowed();
    Ok(is_borrowed != simd_cesu8::needs_encoded(text))
}

/// Returns whether `encoded_len` is the length of the result of `encode`.
pub fn tells_encoded_length(alloc: Global, text: &str) -> Result<bool, AllocError>
    ensures { IfOk result (λ agree. IsTrue agree) }
{
    let length = simd_cesu8::encoded_len(text);
    Ok(simd_cesu8::encode(alloc, text)?.as_bytes().len() == length)
}

/// Returns whether `decoded_len` is the length of the result of `decode_strict`, and is `None` if
/// that is `Invalid`.
pub fn tells_decoded_length(alloc: Global, bytes: &[u8]) -> Result<bool, AllocError>
    ensures { IfOk result (λ agree. IsTrue agree) }
{
    laws::chars();
    laws::lossy();
    let length = match simd_cesu8::decode_strict(alloc, bytes) {
        Ok(decoded) => Some(decoded.as_str().len()),
        Err(DecodeFault::Invalid(_)) => None,
        Err(DecodeFault::Memory(error)) => return Err(error),
    };
    Ok(simd_cesu8::decoded_len(bytes) == length)
}

/// Returns whether `lossy_len` is the length of the result of `decode_lossy_strict`.
pub fn tells_lossy_length(alloc: Global, bytes: &[u8]) -> Result<bool, AllocError>
    ensures { IfOk result (λ agree. IsTrue agree) }
{
    let length = simd_cesu8::decode_lossy_strict(alloc, bytes)?
        .as_str()
        .len();
    Ok(simd_cesu8::lossy_len(bytes) == Some(length))
}

/// Returns whether `compare_as_utf16` compares two texts as their keys in CESU-8 do.
pub fn compares_as_keys(alloc: Global, text: &str, other: &str) -> Result<bool, AllocError>
    ensures { IfOk result (λ agree. IsTrue agree) }
{
    laws::chars();
    laws::key_order();
    let key = simd_cesu8::encode(alloc, text)?;
    let other_key = simd_cesu8::encode(alloc, other)?;
    let by_keys = key.as_bytes().cmp(other_key.as_bytes());
    Ok(simd_cesu8::compare_as_utf16(text, other) == by_keys)
}

/// Appends by `encode_into` the result of `encode`, and returns this result.
pub fn append_and_encode(
    alloc: Global,
    text: &str,
    buf: &mut Vec<u8>,
) -> Result<Vec<u8>, AllocError>
    ensures { IfOk result (λ encoded. buf.new.items ≡ buf.old.items ++ encoded.items) }
{
    simd_cesu8::encode_into(text, buf)?;
    simd_cesu8::encode(alloc, text)?.into_vec(alloc)
}

/// Returns whether `decode_strict` restores the text that was encoded. If the text needs no
/// encoding, both calls borrow, and allocate nothing.
pub fn decodes_to_same(alloc: Global, text: &str) -> Result<bool, AllocError>
    ensures same { IfOk result (λ agree. IsTrue agree) }
    ensures succeeds { ¬ (NeedsEncoding Cesu8 (chars text.now)) → IsOk result }
{
    laws::chars();
    laws::inverse();
    laws::unchanged();
    let encoded = simd_cesu8::encode(alloc, text)?;
    match simd_cesu8::decode_strict(alloc, encoded.as_bytes()) {
        Ok(decoded) => Ok(decoded.as_str() == text),
        Err(DecodeFault::Memory(error)) => Err(error),
        // `decode_strict` accepts every encoding.
        Err(DecodeFault::Invalid(_)) => unreachable!(),
    }
}
