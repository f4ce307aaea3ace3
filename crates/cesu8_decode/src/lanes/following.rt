//! Vector tests of which bytes can follow which in whole characters of a set.
//!
//! Two adjacent bytes have a class: the second is, for example, the third byte of a character or
//! the second byte of a low surrogate. The three bytes before them say which class is required. If
//! every byte has the required class, all bytes are in characters of the set, the last of which may
//! be cut off. A pair that no character of the set has is of a class that is never required.

ghost use Rattle.std.specs.Prelude.{◌≡◌, ℕ, List, ◌+◌, ◌*◌, ◌-◌, ◌<◌, ◌≤◌, ◌++◌, ◌==◌, ◌&&◌, IsTrue, false, length, map, drop, if◌then◌else◌, not};
ghost use Rattle.std.specs.List.{range_with_len};
ghost use Rattle.std.specs.Simd.Lanes.{zip2};
ghost use Rattle.cesu8_bytes.specs.Kernels.{mask};
ghost use Rattle.cesu8_decode.specs.Following.{CharacterSet as AnySet, has_changed, pair_class, required_class, follows_at, AllFollow, IsBlockAt};

use super::character_set::{Block, CharacterSet, DECIDING, OVERLONG_C0, SURROGATE, TWO_CONTS};
use super::tables::{FROM_28, FROM_29, FROM_30, FROM_31, HighestBit, look_up};
use cesu8_bytes::BLOCK;
use cesu8_bytes::flavor::{Flavor, nulls};
use cesu8_bytes::lanes::class::{Equal, NonAscii, bits, mask};
use cesu8_bytes::lanes::runs::lanes_before;
use std::simd::prelude::*;

/// Returns the block after `before`. The first block follows zeros: any ASCII would be correct, if
/// `after_fillers` of specs/Following used it too, but zeros take the fewest instructions.
#[inline(always)]
pub fn block_after(before: u8x32, bytes: u8x32) -> Block
    ensures { (set : AnySet) → IsBlockAt set (drop (BLOCK - DECIDING) (before ++ bytes)) 0 result }
{
    Block {
        bytes,
        one_before: before.shuffle::<32>(bytes, FROM_31),
        two_before: before.shuffle::<32>(bytes, FROM_30),
        three_before: before.shuffle::<32>(bytes, FROM_29),
        four_before: before.shuffle::<32>(bytes, FROM_28),
    }
}

/// Returns the offset of the first byte that cannot follow those before it, or 32 if there is none.
#[inline(always)]
pub fn following_len<F: Flavor, S: CharacterSet>(block: Block) -> usize
    ensures within { (window : List ℕ) (at : ℕ) → IsBlockAt S.set window at block → result ≤ BLOCK }
    ensures follow { (window : List ℕ) (at : ℕ) → IsBlockAt S.set window at block
        → AllFollow S.set F.flavor window at result }
    ensures stops { (window : List ℕ) (at : ℕ) → IsBlockAt S.set window at block → result < BLOCK
        → follows_at S.set F.flavor window (at + result) ≡ false }
{
    lanes_before::<HighestBit, BLOCK>(error_mask::<F, S>(block))
}

/// Returns whether each of the 64 bytes from an offset on can follow the bytes before it.
#[inline(always)]
pub fn two_follow<F: Flavor, S: CharacterSet>(bytes: &[u8], at: usize) -> bool
    requires { (DECIDING ≤ at) × (at + 2 * BLOCK ≤ length bytes.now) }
    ensures { IsTrue result → AllFollow S.set F.flavor bytes.now (at - DECIDING) (2 * BLOCK) }
{
    let first = u8x32::from_slice(&bytes[at..]);
    let second = u8x32::from_slice(&bytes[at + BLOCK..]);
    // The vectors of earlier bytes are loaded only if this test for unchanged ASCII fails.
    let above = (first | nulls::<F>(first)) | (second | nulls::<F>(second));
    let deciding = u8x4::from_slice(&bytes[at - DECIDING..]);
    if bits::<NonAscii, BLOCK>(above) == 0 && bits::<NonAscii, DECIDING>(deciding) == 0 {
        return true;
    }
    let first = S::block_at(first, bytes, at);
    let second = S::block_at(second, bytes, at + BLOCK);
    bits::<HighestBit, BLOCK>(error_mask::<F, S>(first) | error_mask::<F, S>(second)) == 0
}

/// Returns an error mask: FF for each byte of a block that cannot follow those before it, else 00.
#[inline(always)]
fn error_mask<F: Flavor, S: CharacterSet>(block: Block) -> u8x32
    ensures { (window : List ℕ) (at : ℕ) → IsBlockAt S.set window at block
        → result ≡ map (λ i. mask (not (follows_at S.set F.flavor window i)))
        (range_with_len at BLOCK) }
{
    let required = required_classes::<S>(block.four_before, block.three_before, block.two_before);
    pair_classes::<F, S>(block.one_before, block.bytes)
        .simd_eq(required)
        .select(u8x32::splat(0), u8x32::splat(0xFF))
}

#[inline(always)]
fn pair_classes<F: Flavor, S: CharacterSet>(first: u8x32, second: u8x32) -> u8x32
    ensures { result ≡ zip2 (pair_class S.set F.flavor) first second }
{
    let rule = S::rule();
    let four = u8x32::splat(4);
    let of_two = look_up(rule.by_high, first >> four)
        & look_up(rule.by_low, first)
        & look_up(rule.by_next, second >> four);
    if F::has_long_null() {
        return (of_two & kept_of_null::<S>(second)) | nulls::<F>(second);
    }
    of_two
}

/// Returns the class bits that are kept in MUTF-8, by the second byte. If the set has C0 80, a
/// second byte 80 clears `OVERLONG_C0`, which only a first byte C0 sets.
#[inline(always)]
fn kept_of_null<S: CharacterSet>(bytes: u8x32) -> u8x32
    ensures { result ≡ map (λ b. if has_changed S.set && b == 0x80 then 0xEF else 0xFF) bytes }
{
    if S::rule().has_changed {
        return bytes
            .simd_eq(u8x32::splat(0x80))
            .select(u8x32::splat(!OVERLONG_C0), u8x32::splat(0xFF));
    }
    u8x32::splat(0xFF)
}

/// Returns the class that each byte must have: `TWO_CONTS` for the third byte of a character,
/// `SURROGATE` for the second byte of a low surrogate, and otherwise 0.
#[inline(always)]
fn required_classes<S: CharacterSet>(
    four_before: u8x32,
    three_before: u8x32,
    two_before: u8x32,
) -> u8x32
    ensures { result ≡ zip2 (λ wants d. wants d)
        (zip2 (required_class S.set) four_before three_before) two_before }
{
    // The highest bit is left if the byte is E0 or more: it leads a character of three bytes.
    let third = two_before.saturating_sub(u8x32::splat(0xE0 - 0x80)) & u8x32::splat(TWO_CONTS);
    if !S::rule().has_changed {
        return third;
    }
    let is_high = mask::<Equal<0xED>>(four_before)
        & mask::<Equal<0xA0>>(three_before & u8x32::splat(0xF0));
    third | (is_high & u8x32::splat(SURROGATE))
}
