//! The two sets of characters that a prefix can consist of, as types: all encoded characters, and
//! those that are unchanged in UTF-8.
//!
//! Tables of error bits say which bytes can follow which. For them 00 is like other ASCII; in
//! MUTF-8 `pair_classes` in `following.rt` makes it an error. The method and most names of the bits
//! are those of Keiser and Lemire, "Validating UTF-8 in less than one instruction per byte".

ghost use Rattle.std.specs.Prelude.{◌≡◌, ◌+◌, ◌-◌, ◌≤◌, length, take, drop};
ghost use Rattle.cesu8_decode.specs.Following.{CharacterSet as AnySet, Encoded as AllEncoded, Unchanged as AllUnchanged, IsBlockAt, rule};

use cesu8_bytes::BLOCK;
use std::simd::prelude::*;

/// The rule of a set. The class of a pair of bytes is the bits that three table entries share: by
/// the upper half of the first byte, its lower half, and the upper half of the second.
#[derive(Clone, Copy)]
pub struct Rule {
    /// Whether the set has what needs conversion: surrogate pairs, and C0 80 in MUTF-8.
    pub has_changed: bool,
    pub by_high: [u8; 16],
    pub by_low: [u8; 16],
    pub by_next: [u8; 16],
}

// The bits of a class. `following` compares TWO_CONTS and SURROGATE with what the earlier bytes
// require. Every other bit is an error in the second byte.

/// A lead byte is not followed by a continuation byte.
const TOO_SHORT: u8 = 0x01;
/// ASCII is followed by a continuation byte.
const TOO_LONG: u8 = 0x02;
/// E0 is followed by 80 to 9F (hexadecimal).
const OVERLONG_3: u8 = 0x04;
/// C1 is followed by a continuation byte.
const OVERLONG_C1: u8 = 0x08;
/// C0 is followed by a continuation byte. `following` clears this bit for C0 80 if the set has it.
pub const OVERLONG_C0: u8 = 0x10;
/// ED is followed by the second byte of a low surrogate, or of any surrogate if the set has no
/// pairs. A set without pairs never requires this bit.
pub const SURROGATE: u8 = 0x20;
/// F0 or more is followed by any byte.
const TOO_LARGE: u8 = 0x40;
/// A continuation byte follows another one: it is the third byte of a character.
pub const TWO_CONTS: u8 = 0x80;

// Entries by the upper half of the first byte, C or E.
const C_HIGH: u8 = TOO_SHORT | OVERLONG_C0 | OVERLONG_C1;

const E_HIGH: u8 = TOO_SHORT | OVERLONG_3 | SURROGATE;

const BY_HIGH: [u8; 16] = [
    TOO_LONG, TOO_LONG, TOO_LONG, TOO_LONG, TOO_LONG, TOO_LONG, TOO_LONG, TOO_LONG, TWO_CONTS,
    TWO_CONTS, TWO_CONTS, TWO_CONTS, C_HIGH, TOO_SHORT, E_HIGH, TOO_LARGE,
];

// Entries by the lower half of the first byte, which decides nothing for the bits of ANY_LOW.
const ANY_LOW: u8 = TOO_SHORT | TOO_LONG | TOO_LARGE | TWO_CONTS;

const LOW_0: u8 = ANY_LOW | OVERLONG_C0 | OVERLONG_3;

const LOW_1: u8 = ANY_LOW | OVERLONG_C1;

const LOW_D: u8 = ANY_LOW | SURROGATE;

const BY_LOW: [u8; 16] = [
    LOW_0, LOW_1, ANY_LOW, ANY_LOW, ANY_LOW, ANY_LOW, ANY_LOW, ANY_LOW, ANY_LOW, ANY_LOW, ANY_LOW,
    ANY_LOW, ANY_LOW, LOW_D, ANY_LOW, ANY_LOW,
];

// Entries by the upper half of the second byte: continuation bytes from 80, A0 or B0 on, or others.
const OTHER: u8 = TOO_SHORT | TOO_LARGE;

const FROM_A0: u8 = TOO_LONG | OVERLONG_C0 | OVERLONG_C1 | TOO_LARGE | TWO_CONTS;

const FROM_80: u8 = FROM_A0 | OVERLONG_3;

const FROM_B0: u8 = FROM_A0 | SURROGATE;

/// Differs from `UNCHANGED` in `has_changed`, and in the entry for A0 to AF: ED and one of these
/// begin a high surrogate.
const ENCODED: Rule = Rule {
    has_changed: true,
    by_high: BY_HIGH,
    by_low: BY_LOW,
    by_next: [
        OTHER, OTHER, OTHER, OTHER, OTHER, OTHER, OTHER, OTHER, FROM_80, FROM_80, FROM_A0, FROM_B0,
        OTHER, OTHER, OTHER, OTHER,
    ],
};

const UNCHANGED: Rule = Rule {
    has_changed: false,
    by_high: BY_HIGH,
    by_low: BY_LOW,
    by_next: [
        OTHER, OTHER, OTHER, OTHER, OTHER, OTHER, OTHER, OTHER, FROM_80, FROM_80, FROM_B0, FROM_B0,
        OTHER, OTHER, OTHER, OTHER,
    ],
};

/// How many earlier bytes decide about a byte: the fifth of a surrogate pair depends on the first.
pub const DECIDING: usize = 4;

/// 32 bytes, and for each of them the bytes one to four places earlier. Only a set with surrogate
/// pairs uses the bytes three and four places earlier.
#[derive(Clone, Copy)]
pub struct Block {
    pub bytes: u8x32,
    pub one_before: u8x32,
    pub two_before: u8x32,
    pub three_before: u8x32,
    pub four_before: u8x32,
}

/// A set of characters, given by its rule.
pub trait CharacterSet {
    ghost set: { AnySet };

    fn rule() -> Rule
        ensures { result ≡ rule set };

    /// Returns the block at an offset, with only those earlier bytes that the rule needs.
    fn block_at(block: u8x32, bytes: &[u8], at: usize) -> Block
        requires at { (DECIDING ≤ at) × (at + BLOCK ≤ length bytes.now) }
        requires block { block ≡ take BLOCK (drop at bytes.now) }
        ensures { IsBlockAt set bytes.now (at - DECIDING) result };
}

pub struct Encoded;

impl CharacterSet for Encoded {
    ghost set = { AllEncoded };

    #[inline(always)]
    fn rule() -> Rule {
        ENCODED
    }

    #[inline(always)]
    fn block_at(block: u8x32, bytes: &[u8], at: usize) -> Block {
        Block {
            bytes: block,
            one_before: u8x32::from_slice(&bytes[at - 1..]),
            two_before: u8x32::from_slice(&bytes[at - 2..]),
            three_before: u8x32::from_slice(&bytes[at - 3..]),
            four_before: u8x32::from_slice(&bytes[at - DECIDING..]),
        }
    }
}

pub struct Unchanged;

impl CharacterSet for Unchanged {
    ghost set = { AllUnchanged };

    #[inline(always)]
    fn rule() -> Rule {
        UNCHANGED
    }

    #[inline(always)]
    fn block_at(block: u8x32, bytes: &[u8], at: usize) -> Block {
        Block {
            bytes: block,
            one_before: u8x32::from_slice(&bytes[at - 1..]),
            two_before: u8x32::from_slice(&bytes[at - 2..]),
            three_before: u8x32::splat(0),
            four_before: u8x32::splat(0),
        }
    }
}
