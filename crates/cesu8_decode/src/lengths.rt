//! The length of the decoded text. U+FFFD has three bytes, so the lossily decoded text has three
//! bytes for each input byte, less what each encoded character saves. If no byte is ill-formed, the
//! strictly decoded text is the same text.

ghost use Rattle.std.specs.Prelude.{◌≡◌, ◌<◌, IfSome, IfNone};
ghost use Rattle.cesu8_text.specs.Reading.{IsStrictReading, HasNoStrictReading, lossy_length};
ghost use Rattle.cesu8_text.specs.Slices.{ReadsAtLength};

mod counts;

use crate::lanes::masks::STEP;
use crate::needs_conversion::begins_changed;
use crate::prefix::unchanged_prefix_by_call;
use crate::strategy::is_one_block;
use crate::valid::is_ill_formed;
use cesu8_bytes::flavor::Flavor;
use cesu8_bytes::lanes::class::LANES;
use counts::{saved_by_lanes, saved_in_block, saved_in_short};
use std::simd::prelude::*;

/// Returns the length of the strictly decoded text in bytes, or `None` if a byte is ill-formed. The
/// unchanged prefix is as long in UTF-8, so only the bytes after it are counted.
#[tactic(auto, using(crate::proofs::chunks::SliceReadings::strict_no_longer))]
pub fn decoded_len<F: Flavor>(bytes: &[u8]) -> Option<usize>
    ensures some { IfSome result (λ len.
        ReadsAtLength (IsStrictReading F.flavor bytes.now) (λ text_len. len ≡ text_len)) }
    ensures none { IfNone result (HasNoStrictReading F.flavor bytes.now) }
{
    let prefix = unchanged_prefix_by_call::<F>(bytes).len;
    let rest = &bytes[prefix..];
    if rest.is_empty() {
        return Some(prefix);
    }
    // After the unchanged prefix comes a character that needs conversion, or an ill-formed byte.
    if !begins_changed::<F>(rest) || is_ill_formed::<F>(rest) {
        return None;
    }
    let rest_len = lossy_len::<F>(rest)?;
    Some(prefix + rest_len)
}

/// Returns the length of the lossily decoded text in bytes, or `None` if it does not fit `usize`.
pub fn lossy_len<F: Flavor>(bytes: &[u8]) -> Option<usize>
    ensures some { IfSome result (λ len. len ≡ lossy_length F.flavor bytes.now) }
    ensures none { IfNone result (usize.MAX < lossy_length F.flavor bytes.now) }
{
    if is_one_block(bytes) {
        return Some(3 * bytes.len() - saved_in_block::<F>(bytes));
    }
    lossy_len_by_steps::<F>(bytes)
}

/// Like `lossy_len`, in steps of `STEP` bytes: a character that begins in the first `STEP` bytes of
/// a vector ends in it. It is not inlined, so that at most one block has few registers to save.
#[inline(never)]
fn lossy_len_by_steps<F: Flavor>(bytes: &[u8]) -> Option<usize>
    ensures some { IfSome result (λ len. len ≡ lossy_length F.flavor bytes.now) }
    ensures none { IfNone result (usize.MAX < lossy_length F.flavor bytes.now) }
{
    let mut len = 3 * bytes.len() as u128;
    let mut at = 0;
    while bytes.len() - at > LANES {
        len -= saved_by_lanes::<F, LANES>(u8x64::from_slice(&bytes[at..]), STEP) as u128;
        at += STEP;
    }
    len -= saved_in_short::<F>(&bytes[at..]) as u128;
    usize::try_from(len).ok()
}
