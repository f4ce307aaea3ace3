//! Tests whether bytes begin with a character that needs conversion to UTF-8: a surrogate pair, or
//! C0 80 in MUTF-8. Strict decoding tests this after the unchanged prefix: the byte there is
//! ill-formed if no such character begins.

ghost use Rattle.std.specs.Prelude.{◌≡◌, ◌↔◌, ◌≤◌, ℕ, List, length, replicate, slice_index, IsTrue};
ghost use Rattle.cesu8_text.specs.Encoding.{Flavor as AnyFlavor};
ghost use Rattle.cesu8_decode.specs.DecodedOffsets.{BeginsChanged, IsPrefixOf};

use cesu8_bytes::flavor::Flavor;
use cesu8_bytes::lanes::short::copy_short;
use cesu8_bytes::pairs::{PAIR_READ, is_pair};

/// Returns whether a byte can be the first one of a character that needs conversion, in either
/// encoding. If another byte follows the unchanged prefix, `write_strictly` fails at once.
#[inline(always)]
pub fn may_lead_changed(byte: u8) -> bool
    ensures { (f : AnyFlavor) (bytes : List ℕ) → BeginsChanged f bytes
        → slice_index bytes 0 ≡ byte → IsTrue result }
{
    (byte == 0xED) | (byte == 0xC0)
}

#[inline(always)]
pub fn begins_changed<F: Flavor>(bytes: &[u8]) -> bool
    ensures { IsTrue result ↔ BeginsChanged F.flavor bytes.now }
{
    changes::<F>(first_eight(bytes, &mut [0; PAIR_READ]))
}

/// Like `begins_changed`, for at least eight bytes, so that no copy is needed.
#[inline(always)]
pub fn changes<F: Flavor>(bytes: &[u8]) -> bool
    requires { PAIR_READ ≤ length bytes.now }
    ensures { IsTrue result ↔ BeginsChanged F.flavor bytes.now }
{
    is_pair(bytes) || F::has_long_null() && bytes[0] == 0xC0 && bytes[1] == 0x80
}

/// Returns the first eight bytes, which `is_pair` loads as one word. If there are fewer, returns a
/// copy that is padded with zeros. `IsPrefixOf` and `BeginsChanged` count missing bytes as zeros
/// too, so the copy begins with a character that needs conversion exactly if the bytes do.
#[inline(always)]
pub fn first_eight<'a>(bytes: &'a [u8], padded: &'a mut [u8; PAIR_READ]) -> &'a [u8]
    requires { padded.old ≡ replicate PAIR_READ 0 }
    ensures prefix { IsPrefixOf bytes.now result.now }
    ensures long { PAIR_READ ≤ length result.now }
{
    if let Some(prefix) = bytes.get(..PAIR_READ) {
        return prefix;
    }
    copy_short(bytes, padded);
    padded
}
