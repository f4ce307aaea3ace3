//! The valid prefix: how many bytes from the start are whole encoded characters. In at most 64
//! bytes, one window, it ends at the first ill-formed byte. `prefix` finds it in longer input.

ghost use Rattle.std.specs.Prelude.{◌≡◌, IsTrue, false};
ghost use Rattle.cesu8_text.specs.Fronts.{IsValidUpTo};
ghost use Rattle.cesu8_text.specs.Reading.{IsStrictReading, HasNoStrictReading, reading};

use crate::lanes::character_set::Encoded;
use crate::lanes::windows::window_of_short;
use crate::prefix::longest_prefix;
use cesu8_bytes::fast_paths::is_short_unchanged_ascii;
use cesu8_bytes::flavor::Flavor;
use cesu8_bytes::lanes::short::are_short;

#[inline(always)]
pub fn valid_up_to<F: Flavor>(bytes: &[u8]) -> usize
    ensures { IsValidUpTo F.flavor bytes.now result }
{
    if is_short_unchanged_ascii::<F>(bytes) {
        return bytes.len();
    }
    valid_up_to_other::<F>(bytes)
}

/// Like `valid_up_to`, without its fast path. It is not inlined, so that `valid_up_to` stays small.
#[inline(never)]
pub fn valid_up_to_other<F: Flavor>(bytes: &[u8]) -> usize
    ensures { IsValidUpTo F.flavor bytes.now result }
{
    if are_short(bytes) {
        let window = window_of_short::<F>(bytes);
        return (window.ill_formed.trailing_zeros() as usize).min(bytes.len());
    }
    longest_prefix::<F, Encoded>(bytes)
}

/// Returns whether a byte is ill-formed. It stops soon after the first such byte. No caller has
/// short unchanged ASCII, so it does not test for that.
#[inline(always)]
pub fn is_ill_formed<F: Flavor>(bytes: &[u8]) -> bool
    ensures ill_formed { IsTrue result → HasNoStrictReading F.flavor bytes.now }
    ensures whole { result ≡ false → IsStrictReading F.flavor bytes.now
        (reading F.flavor bytes.now) }
{
    valid_up_to_other::<F>(bytes) < bytes.len()
}
