//! Fast paths: what a call checks before it converts anything.
//!
//! Most strings in class files, tag files and keys are short ASCII. So a public call first checks
//! whether anything has to be converted. The checks are inlined, but more than 256 bytes are
//! searched by a call. Beyond its limit, a check costs other input more than it saves ASCII.
//!
//! | limit (bytes) | check | used by |
//! |---|---|---|
//! | 256 | is all of it unchanged ASCII? | strict calls, `valid_up_to`, `text_of` |
//! | 1,024 | is all of it ASCII? | lenient calls |
//! | 64 | is a string inside a longer slice unchanged ASCII? | decoding of consecutive strings |
//! | none | does any byte change in the encoding? | encoding |
//!
//! "Unchanged" means that the byte is the same in UTF-8 and in the encoding: in CESU-8 all ASCII
//! is, in MUTF-8 all but 00.

ghost use Rattle.std.specs.Prelude.{◌↔◌, IsTrue, Any, take};
ghost use Rattle.std.specs.Str.{chars, IsAscii};
ghost use Rattle.cesu8_text.specs.Class.{IsChangedByte};
ghost use Rattle.cesu8_text.specs.Encoding.{NeedsEncoding};

use crate::flavor::Flavor;
use crate::lanes::class::{AtLeastF0, Either, FourByteLead, LANES, NonAscii, has};
use crate::lanes::runs::lanes_before;
use crate::lanes::search::{CHECKED_INLINE, any_in_bytes, any_in_bytes_or_call};
use crate::lanes::short::are_short;
use std::simd::prelude::*;

/// The longest input that a lenient call first checks for ASCII.
const TESTED_AT_ONCE: usize = 16 * LANES;

/// Returns whether there are at most 1,024 bytes, all of them ASCII.
#[inline(always)]
pub fn is_short_ascii(bytes: &[u8]) -> bool
    ensures { IsTrue result → IsAscii bytes.now }
{
    if bytes.len() > TESTED_AT_ONCE {
        return false;
    }
    // Most input that is not all ASCII has such a byte in the first 64.
    if !are_short(bytes) && has::<NonAscii, LANES>(u8x64::from_slice(bytes)) {
        return false;
    }
    !any_in_bytes_or_call::<NonAscii>(bytes)
}

/// Returns whether there are at most 256 bytes, all of them unchanged ASCII: in MUTF-8 not 00.
#[inline(always)]
pub fn is_short_unchanged_ascii<F: Flavor>(bytes: &[u8]) -> bool
    ensures ascii { IsTrue result → IsAscii bytes.now }
    ensures unchanged { IsTrue result → ¬ (Any (IsChangedByte F.flavor) bytes.now) }
{
    bytes.len() <= CHECKED_INLINE && !any_in_bytes_or_call::<Either<F::Null, NonAscii>>(bytes)
}

/// Returns true only if the first `len` bytes of at least 64 are unchanged ASCII, and `len` is at
/// most 64. A branch on `len`, which is random in consecutive strings, would be mispredicted.
#[inline(always)]
pub fn begins_with_unchanged_ascii<F: Flavor>(bytes: &[u8], len: usize) -> bool
    ensures ascii { IsTrue result → IsAscii (take len bytes.now) }
    ensures unchanged { IsTrue result → ¬ (Any (IsChangedByte F.flavor) (take len bytes.now)) }
{
    len <= LANES
        && bytes.len() >= LANES
        && lanes_before::<Either<F::Null, NonAscii>, LANES>(Simd::from_slice(bytes)) >= len
}

/// Returns whether the encoding changes a character of the string.
#[inline(always)]
pub fn needs_encoded<F: Flavor>(value: &str) -> bool
    ensures { IsTrue result ↔ NeedsEncoding F.flavor (chars value.now) }
{
    any_in_bytes_or_call::<Either<F::Null, FourByteLead>>(value.as_bytes())
}

/// Returns true if the encoding changes a character of the string. The contract allows it to return
/// true otherwise. Its caller, `encode_to_slice`, has at most 32 bytes, so no loop is inlined. A
/// string has no byte above F7 (hexadecimal), so one comparison finds a four-byte lead.
#[inline(always)]
pub fn may_need_encoding<F: Flavor>(value: &str) -> bool
    ensures { NeedsEncoding F.flavor (chars value.now) → IsTrue result }
{
    any_in_bytes::<Either<F::Null, AtLeastF0>>(value.as_bytes())
}
