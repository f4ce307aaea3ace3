//! The modes of decoding: `Lenient` returns input unchanged if it is UTF-8, and `EncodingAlone`
//! only if it is UTF-8 in which nothing needs conversion.
//!
//! A public call has the mode as a type, so that its fast path is compiled for that mode. Functions
//! called after it do not depend on the mode, or get it as a value, so that one serves both modes.

ghost use Rattle.std.specs.Prelude.{◌≡◌, ◌↔◌, ◌⊎◌, ◌≤◌, IfNone, IfSome, IsTrue, IsUtf8, length, take};
ghost use Rattle.cesu8_decode.specs.Modes.{Keeps};
ghost use Rattle.cesu8_decode.specs.Prefixes.{IsProperPrefix, IsPrefixUnlessKept, IsUnchangedPrefix};
ghost use Rattle.cesu8_decode.specs.declared.modes.Mode.{Mode as AnyMode};
ghost use Rattle.cesu8_decode.specs.declared.modes.Mode.TheVariants.{EncodingAlone as TheEncodingAlone, Lenient as AnyUtf8};

use crate::prefix::{UnchangedPrefix, unchanged_prefix_by_call};
use crate::utf8::is_utf8_by_parts;
use cesu8_bytes::fast_paths::{is_short_ascii, is_short_unchanged_ascii};
use cesu8_bytes::flavor::{Cesu8Flavor, Flavor};
use cesu8_bytes::lanes::short::are_short;

/// A mode, as a value.
#[derive(Clone, Copy)]
pub enum Mode {
    /// Input is UTF-8 as a whole, or else the encoding.
    Lenient,
    /// Input is the encoding. It is also UTF-8 if nothing in it needs conversion.
    EncodingAlone,
}

/// A mode, as a type: `EncodingAlone` for calls with `strict` in their names, else `Lenient`.
pub trait Accepts {
    ghost mode: { AnyMode };

    fn mode() -> Mode
        ensures { result ≡ mode };

    /// Fast path: whether the input is short ASCII (see `fast_paths`) that is returned unchanged.
    fn is_short_kept<F: Flavor>(bytes: &[u8]) -> bool
        ensures { IsTrue result → Keeps mode F.flavor bytes.now };
}

pub struct Lenient;

impl Accepts for Lenient {
    ghost mode = { AnyUtf8 };

    #[inline(always)]
    fn mode() -> Mode {
        Mode::Lenient
    }

    #[inline(always)]
    fn is_short_kept<F: Flavor>(bytes: &[u8]) -> bool {
        is_short_ascii(bytes)
    }
}

pub struct EncodingAlone;

impl Accepts for EncodingAlone {
    ghost mode = { TheEncodingAlone };

    #[inline(always)]
    fn mode() -> Mode {
        Mode::EncodingAlone
    }

    #[inline(always)]
    fn is_short_kept<F: Flavor>(bytes: &[u8]) -> bool {
        is_short_unchanged_ascii::<F>(bytes)
    }
}

/// Returns `None` if mode `A` returns the input unchanged, and otherwise its unchanged prefix.
#[inline(always)]
pub fn prefix_unless_kept<F: Flavor, A: Accepts>(bytes: &[u8]) -> Option<UnchangedPrefix>
    ensures kept { IfNone result (Keeps A.mode F.flavor bytes.now) }
    ensures other { IfSome result (λ _. ¬ (Keeps A.mode F.flavor bytes.now)) }
    ensures prefix { IfSome result (IsProperPrefix F.flavor bytes.now) }
{
    if A::is_short_kept::<F>(bytes) {
        return None;
    }
    let prefix = prefix_in_mode::<F>(bytes, unchanged_prefix_by_call::<F>(bytes), A::mode());
    if prefix.len == bytes.len() {
        return None;
    }
    Some(prefix)
}

/// Returns the whole input if the mode returns it unchanged, and otherwise its unchanged `prefix`.
#[inline(always)]
pub fn prefix_in_mode<F: Flavor>(
    bytes: &[u8],
    prefix: UnchangedPrefix,
    mode: Mode,
) -> UnchangedPrefix
    requires { IsUnchangedPrefix F.flavor bytes.now prefix }
    ensures { IsPrefixUnlessKept F.flavor (Keeps mode F.flavor bytes.now) bytes.now result }
{
    match mode {
        Mode::Lenient => lenient_prefix::<F>(bytes, prefix),
        Mode::EncodingAlone => prefix,
    }
}

/// Returns the whole input if it is UTF-8, and otherwise `prefix`, its unchanged prefix.
#[inline(always)]
fn lenient_prefix<F: Flavor>(bytes: &[u8], prefix: UnchangedPrefix) -> UnchangedPrefix
    requires { IsUnchangedPrefix F.flavor bytes.now prefix }
    ensures { IsPrefixUnlessKept F.flavor (IsUtf8 bytes.now) bytes.now result }
{
    // If the input is UTF-8, a character of four bytes or the byte 00 follows the unchanged prefix.
    if prefix.len == bytes.len() || !matches!(bytes[prefix.len], 0 | 0xF0..=0xF7) {
        return prefix;
    }
    all_if_utf8(bytes, prefix)
}

/// Like `lenient_prefix`. It is not inlined, so that unchanged input has few registers to save.
#[inline(never)]
fn all_if_utf8(bytes: &[u8], prefix: UnchangedPrefix) -> UnchangedPrefix
    requires { (prefix.len ≤ length bytes.now) × IsUtf8 (take prefix.len bytes.now) }
    ensures { ((result.len ≡ length bytes.now) × IsUtf8 bytes.now)
        ⊎ ((result ≡ prefix) × ¬ (IsUtf8 bytes.now)) }
{
    // At most 64 bytes are tested from the start: as fast, and no branch depends on the prefix.
    let start = if are_short(bytes) { 0 } else { prefix.len };
    if !is_utf8_by_parts(&bytes[start..]) {
        return prefix;
    }
    UnchangedPrefix {
        len: bytes.len(),
        changed: 0,
    }
}

/// Returns whether the bytes are UTF-8, by the test of lenient calls.
#[inline(always)]
pub fn is_utf8(bytes: &[u8]) -> bool
    ensures { IsTrue result ↔ IsUtf8 bytes.now }
{
    // In CESU-8 all ASCII is unchanged, so no byte 00 ends the prefix.
    let prefix = unchanged_prefix_by_call::<Cesu8Flavor>(bytes);
    lenient_prefix::<Cesu8Flavor>(bytes, prefix).len == bytes.len()
}
