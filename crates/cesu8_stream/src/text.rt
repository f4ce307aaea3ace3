//! Bytes of UTF-8 as text, by the tests of `simdutf8`. Those of `basic` only say whether the bytes
//! are UTF-8, and those of `compat` also how long their valid prefix is.

ghost use Rattle.std.specs.Prelude.{◌≡◌, ℕ, ◌<◌, ◌≤◌, List, length, take, drop, IfSome, IfNone, IsUtf8};
ghost use Rattle.simd_cesu8.specs.Text.{utf8};
ghost use Rattle.cesu8_stream.specs.Written.{IsWritten, BeginsNone};

use simdutf8::{basic, compat};

/// Returns the text of bytes that are UTF-8, and `None` for others.
#[inline(always)]
pub fn utf8_text(bytes: &[u8]) -> Option<&str>
    ensures some { IfSome result (λ text. (text.now ≡ bytes.now) × IsUtf8 bytes.now) }
    ensures none { IfNone result ((text : List ℕ) → ¬ (IsWritten utf8 bytes.now text)) }
{
    match basic::from_utf8(bytes) {
        Ok(text) => Some(text),
        Err(_) => None,
    }
}

/// Returns how many bytes at the start are whole characters of UTF-8.
pub fn utf8_valid_up_to(bytes: &[u8]) -> usize
    ensures within { result ≤ length bytes.now }
    ensures valid { (text : List ℕ) × IsWritten utf8 (take result bytes.now) text }
    ensures stops { result < length bytes.now → BeginsNone utf8 (drop result bytes.now) }
{
    match compat::from_utf8(bytes) {
        Ok(_) => bytes.len(),
        Err(error) => error.valid_up_to(),
    }
}
