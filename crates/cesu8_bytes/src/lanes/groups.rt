//! Tests of four vectors at once, which cost less than a test of each.
//!
//! If the greatest byte of each lane is below F0 (hexadecimal), no byte of the four vectors leads
//! four bytes. If the least byte of each lane is above 00, none is null. The first test has false
//! positives: bytes F8 to FF, which are above F0 and lead nothing. UTF-8 has no such bytes.

ghost use Rattle.std.specs.Prelude.{[], ◌∷◌, IsTrue, Any};
ghost use Rattle.cesu8_bytes.specs.Kernels.{AnyIn};

use super::class::{
    AtLeast, AtLeastF0, Either, Equal, FourByteLead, InVectors, LANES, NoByte, has,
};
use std::simd::prelude::*;

/// A class for which four vectors can be tested at once. If the test returns true, `search` tests
/// each vector again, and `runs` ends its run. So a false positive costs only time.
pub trait InGroups: InVectors<LANES> {
    fn may_have(a: u8x64, b: u8x64, c: u8x64, d: u8x64) -> bool
        ensures { Any (AnyIn Self.class) (a ∷ b ∷ c ∷ d ∷ []) → IsTrue result };
}

impl InGroups for NoByte {
    #[inline(always)]
    fn may_have(a: u8x64, b: u8x64, c: u8x64, d: u8x64) -> bool {
        // Without this the parameters would be unused. It computes nothing that is needed.
        let _ = a | b | c | d;
        false
    }
}

impl<const BYTE: u8> InGroups for AtLeast<BYTE> {
    #[inline(always)]
    fn may_have(a: u8x64, b: u8x64, c: u8x64, d: u8x64) -> bool {
        has::<Self, LANES>(a.simd_max(b).simd_max(c.simd_max(d)))
    }
}

impl<const BYTE: u8> InGroups for Equal<BYTE> {
    /// The least of four bytes is 00 if one of them is. For another `BYTE` it decides nothing, so
    /// this returns true. Only `Null` is searched for in groups.
    #[inline(always)]
    fn may_have(a: u8x64, b: u8x64, c: u8x64, d: u8x64) -> bool {
        BYTE != 0 || has::<Self, LANES>(a.simd_min(b).simd_min(c.simd_min(d)))
    }
}

impl InGroups for FourByteLead {
    #[inline(always)]
    fn may_have(a: u8x64, b: u8x64, c: u8x64, d: u8x64) -> bool {
        AtLeastF0::may_have(a, b, c, d)
    }
}

impl<A: InGroups, B: InGroups> InGroups for Either<A, B> {
    #[inline(always)]
    fn may_have(a: u8x64, b: u8x64, c: u8x64, d: u8x64) -> bool {
        A::may_have(a, b, c, d) || B::may_have(a, b, c, d)
    }
}
