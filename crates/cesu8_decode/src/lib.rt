//! The decoder: turns CESU-8 or MUTF-8 into UTF-8. It is internal: users call `simd_cesu8`.
//!
//! An encoded character has at most six bytes, and no two characters overlap. Whether one begins at
//! an offset depends on its own bytes alone. So the bytes near an offset decide what lossy decoding
//! makes of the byte there: it is copied, converted, dropped, or ill-formed and replaced by U+FFFD.
//! In strict decoding an ill-formed byte is an error.
//!
//! The modules. The last two begin the decoding, and call those before them:
//!
//! - `modes`: whether a call returns its input unchanged, which depends on its mode
//! - `lanes`: vector code for 32 or 64 bytes, with no branch on a single byte
//! - `prefix`: the length of the prefix of whole characters that are unchanged in UTF-8
//! - `valid`: the length of the prefix of whole encoded characters
//! - `utf8`: whether bytes are UTF-8, which lenient calls test once the unchanged prefix is found
//! - `lengths`: the length of the decoded text
//! - `strategy`: which strategy decodes input that needs conversion
//! - `needs_conversion`: whether bytes begin with a character that needs conversion
//! - `pass`: the decoding loop: one window for at most 64 bytes, successive windows for more
//! - `destinations`: decoding to a `String` and to a caller's slice
//! - `to_slice`: decoding to a caller's slice that copies unchanged input
//!
//! `error` has the errors, which `simd_cesu8` turns into its own.
#![tactic(auto)]

ghost use Rattle.std.specs.Prelude.{◌≡◌, ◌<◌, length, IfOk};
ghost use Rattle.std.specs.String.{string_bytes, string_capacity};
ghost use Rattle.std.specs.Str.{chars};
ghost use Rattle.cesu8_text.specs.Reading.{IsStrictReading, HasNoStrictReading, reading, lossy_length};
ghost use Rattle.cesu8_decode.specs.Prefixes.{IsProperPrefix};
ghost use Rattle.cesu8_decode.specs.Errors.{OnNoText};

mod destinations;
pub mod error;
mod lanes;
mod lengths;
pub mod modes;
mod needs_conversion;
mod pass;
pub mod prefix;
mod strategy;
pub mod to_slice;
mod utf8;
pub mod valid;

use crate::error::BuildError;
use crate::prefix::UnchangedPrefix;
use cesu8_bytes::flavor::Flavor;
use cesu8_bytes::strictness::NoText;
use cesu8_bytes::utf8::known_string;
use destinations::strings::{build_lossily, write_strictly};
pub use lengths::{decoded_len, lossy_len};
use std::alloc::{AllocError, Global};

/// Returns the strictly decoded text, or an error if a byte is ill-formed or the allocation fails.
/// `prefix` is the unchanged prefix, which is not all of the bytes. It is not inlined, so that a
/// call that borrows saves no register for it.
#[inline(never)]
pub fn decode_strict<F: Flavor>(
    alloc: Global,
    bytes: &[u8],
    prefix: UnchangedPrefix,
) -> Result<String, BuildError>
    requires { IsProperPrefix F.flavor bytes.now prefix }
    ensures text { IfOk result (λ text.
        IsStrictReading F.flavor bytes.now (chars (string_bytes text))) }
    ensures capacity { IfOk result (λ text. string_capacity text ≡ length bytes.now) }
    ensures invalid { OnNoText result (HasNoStrictReading F.flavor bytes.now) }
{
    let empty = Vec::with_capacity(alloc, bytes.len()).map_err(BuildError::Memory)?;
    match write_strictly::<F>(bytes, prefix, empty) {
        Ok(text) => Ok(known_string(text)),
        Err(NoText) => Err(BuildError::NoText),
    }
}

/// Returns the lossily decoded text. Allocates once, exactly its length; a length over `usize` is
/// reported as a failed allocation. Like `decode_strict`, it is not inlined.
#[inline(never)]
pub fn decode_lossy<F: Flavor>(
    alloc: Global,
    bytes: &[u8],
    prefix: UnchangedPrefix,
) -> Result<String, AllocError>
    requires { IsProperPrefix F.flavor bytes.now prefix }
    ensures text { IfOk result (λ text.
        chars (string_bytes text) ≡ reading F.flavor bytes.now) }
    ensures capacity { IfOk result (λ text.
        string_capacity text ≡ lossy_length F.flavor bytes.now) }
{
    let text = build_lossily::<F>(alloc, bytes, prefix)?;
    Ok(known_string(text))
}
