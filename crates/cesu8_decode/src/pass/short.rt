//! Decodes at most 64 bytes, as one window.
//!
//! If no byte is ill-formed, the test for the unchanged prefix has found the characters that need
//! conversion, and the window follows from them. Otherwise strict decoding returns an error, and
//! lossy decoding computes the window from the bytes.

ghost use Rattle.std.specs.Prelude.{◌≡◌, ℕ, ◌≤◌, length, slice_index, take};
ghost use Rattle.cesu8_bytes.specs.declared.strictness.Strictness.{Strictness as AnyStrictness};
ghost use Rattle.cesu8_bytes.specs.declared.strictness.Strictness.TheVariants.{Lossy};
ghost use Rattle.cesu8_decode.specs.Decoding.{WritesReading, WritesText, room_for_short};
ghost use Rattle.cesu8_decode.specs.Prefixes.{AreChanges, IsProperPrefix};
ghost use Rattle.cesu8_decode.specs.Masks.{IsWindow};

use super::window::WIDEST;
use crate::lanes::padded::load;
use crate::lanes::windows::{Window, window_of_short};
use crate::pass::events::{
    MANY_NULLS, STORED_AFTER, write_ill_formed_events, write_in_turn, write_well_formed_events,
};
use crate::prefix::UnchangedPrefix;
use crate::strategy::is_one_block;
use cesu8_bytes::BLOCK;
use cesu8_bytes::flavor::Flavor;
use cesu8_bytes::lanes::class::{Equal, LANES, bits};
use cesu8_bytes::strictness::{Reading, Strictness};
use std::simd::prelude::*;

// The lengths of buffers for the longest text, and for what is stored after it.
pub const SHORT_STRICT: usize = LANES + STORED_AFTER;

pub const SHORT_LOSSY: usize = WIDEST * LANES + STORED_AFTER;

/// The length of an array for 64 bytes, and for as many zeros after them that are loaded too.
const SOURCE: usize = LANES + LANES;

/// Writes the decoded text of at most 64 bytes and returns its length, or an error if decoding is
/// strict and a byte is ill-formed. The mask `changed` is 0 exactly if one is ill-formed: otherwise
/// a character that needs conversion ends the prefix, which is not all of the bytes.
#[inline(always)]
#[tactic(auto, using(crate::proofs::decoder::Passes::reads_text))]
pub fn write_short<F: Flavor, S: Reading>(
    bytes: &[u8],
    prefix: UnchangedPrefix,
    out: &mut [u8],
) -> Result<usize, S::Error>
    requires short { length bytes.now ≤ LANES }
    requires prefix { IsProperPrefix F.flavor bytes.now prefix }
    requires room { room_for_short S.which ≤ length out.old }
    ensures { WritesReading F.flavor S.which bytes.now result out.old out.new }
{
    if prefix.changed != 0 {
        let end = write_well_formed::<F>(bytes, prefix.changed, out);
        return S::unless_rejected(false, end);
    }
    match S::strictness() {
        Strictness::Strict => S::unless_rejected(true, 0),
        Strictness::Lossy => S::unless_rejected(false, write_lossily::<F>(bytes, out)),
    }
}

/// Writes the text of at most 64 bytes, none of which is ill-formed, and returns its length. It is
/// not inlined, since it has many callers.
#[inline(never)]
fn write_well_formed<F: Flavor>(bytes: &[u8], changed: u64, out: &mut [u8]) -> usize
    requires short { length bytes.now ≤ LANES }
    requires changed { AreChanges F.flavor bytes.now changed }
    requires room { SHORT_STRICT ≤ length out.old }
    ensures { (which : AnyStrictness)
        → WritesText F.flavor which bytes.now result out.old out.new }
{
    // Up to 32 bytes take half as many loads and stores. If there are many C0 80, vectors for 64
    // bytes are faster even so, since `write_well_formed_events` packs C0 80 by shuffles.
    if is_one_block(bytes) && !(F::has_long_null() && changed.count_ones() >= MANY_NULLS) {
        let mut source = [0; BLOCK + BLOCK];
        load(bytes, &mut source);
        let window = changed_window::<F, BLOCK>(&source, changed, bytes.len());
        return write_in_turn::<F, BLOCK>(&source, 0, window, out, 0);
    }
    let mut source = [0; SOURCE];
    load(bytes, &mut source);
    let window = changed_window::<F, LANES>(&source, changed, bytes.len());
    write_well_formed_events::<F>(&source, 0, window, out, 0)
}

/// Like `write_well_formed`, but decodes lossily. It is not inlined, since it has several callers.
#[inline(never)]
fn write_lossily<F: Flavor>(bytes: &[u8], out: &mut [u8]) -> usize
    requires short { length bytes.now ≤ LANES }
    requires room { SHORT_LOSSY ≤ length out.old }
    ensures { WritesText F.flavor Lossy bytes.now result out.old out.new }
{
    let mut source = [0; SOURCE];
    load(bytes, &mut source);
    let window = window_of_short::<F>(bytes);
    write_ill_formed_events::<F>(&source, 0, window, out, 0)
}

/// Returns the window of the first `len` bytes of the source, none of which is ill-formed, from the
/// mask of the characters that need conversion. In MUTF-8 those that begin with C0 are C0 80.
#[inline(always)]
fn changed_window<F: Flavor, const WIDTH: usize>(source: &[u8], changed: u64, len: usize) -> Window
    requires source { (WIDTH ≤ LANES) × (WIDTH ≤ length source.now) }
    requires len { len ≤ WIDTH }
    requires zeros { (i : ℕ) → len ≤ i → slice_index source.now i ≡ 0 }
    requires changed { AreChanges F.flavor (take len source.now) changed }
    ensures window { IsWindow F.flavor source.now 0 result }
    ensures whole { result.ill_formed ≡ 0 }
    ensures len { result.len ≡ len }
{
    let nulls = if F::has_long_null() {
        changed & bits::<Equal<0xC0>, WIDTH>(Simd::from_slice(source))
    } else {
        0
    };
    Window {
        ill_formed: 0,
        pairs: changed & !nulls,
        nulls,
        len,
    }
}
