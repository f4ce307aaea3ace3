//! The number of bytes of a string's encoding, and of its UTF-16 code units, without encoding it.

ghost use Rattle.std.specs.Prelude.{◌≡◌, length};
ghost use Rattle.std.specs.Str.{chars};
ghost use Rattle.cesu8_text.specs.Encoding.{encoding};
ghost use Rattle.cesu8_text.specs.Utf16.{units};

use crate::fast_paths::needs_encoded;
use crate::flavor::Flavor;
use crate::lanes::class::OneUnit;
use crate::lanes::count::weight;

/// Returns the length of a string's encoding, in bytes. Each four-byte character becomes six bytes,
/// and in MUTF-8 each U+0000 becomes two.
#[inline(always)]
pub fn encoded_len<F: Flavor>(text: &str) -> usize
    ensures { result ≡ length (encoding F.flavor (chars text.now)) }
{
    text.len() + weight::<F::Null>(text.as_bytes())
}

/// Like `encoded_len`, but faster for an unchanged string: a search takes less time than a count.
#[inline(always)]
pub fn encoded_len_by_need<F: Flavor>(text: &str) -> usize
    ensures { result ≡ length (encoding F.flavor (chars text.now)) }
{
    if !needs_encoded::<F>(text) {
        return text.len();
    }
    encoded_len::<F>(text)
}

/// Returns the number of UTF-16 code units of a string: two for a four-byte character, else one.
#[inline(always)]
#[tactic(auto, using(cesu8_text::proofs::encoding::UnitCount::units_by_bytes))]
pub fn utf16_len(text: &str) -> usize
    ensures { result ≡ length (units (chars text.now)) }
{
    weight::<OneUnit>(text.as_bytes())
}
