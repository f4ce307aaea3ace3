//! The length of the prefix without a byte of a class, by vectors.

ghost use Rattle.std.specs.Prelude.{◌≡◌, ◌==◌, if◌then◌else◌, ℕ, ◌*◌, ◌<◌, ◌≤◌, not, false, length, slice_index};
ghost use Rattle.std.specs.Int.Count.{count_trailing_zeros};
ghost use Rattle.std.specs.List.{prefix_len};

use super::class::{InVectors, LANES, bits, has};
use super::groups::InGroups;
use std::simd::prelude::*;

/// Returns how many lanes precede the first one in the class.
#[inline(always)]
pub fn lanes_before<C: InVectors<N>, const N: usize>(lanes: Simd<u8, N>) -> usize
    requires { N ≤ LANES }
    ensures { result ≡ prefix_len (λ b. not (C.class b)) lanes.entry }
{
    first_bit::<N>(bits::<C, N>(lanes))
}

/// Returns the index of the first bit that is set in a mask of `N` lanes, or `N` if none is.
#[inline(always)]
pub(crate) fn first_bit<const N: usize>(marks: u64) -> usize
    requires { N ≤ LANES }
    ensures { result ≡ if marks == 0 then N else count_trailing_zeros 64 marks }
{
    if marks == 0 {
        N
    } else {
        marks.trailing_zeros() as usize
    }
}

/// How many bytes are tested at once after the first 64 bytes have no byte of the class.
const GROUP: usize = 4 * LANES;

/// Returns the length of a prefix without a byte of the class, in whole groups of 256 bytes. It may
/// stop at a group that has none, since the test of a group can have false positives.
#[inline(always)]
pub fn run_of_groups<C: InGroups>(bytes: &[u8]) -> usize
    ensures within { (result ≤ length bytes.now) × (0 < result → GROUP ≤ result) }
    ensures run { (i : ℕ) → i < result → C.class (slice_index bytes.now i) ≡ false }
{
    if bytes.len() < GROUP || has::<C, LANES>(u8x64::from_slice(bytes)) {
        return 0;
    }
    let mut run = 0;
    while bytes.len() - run >= GROUP && !group_may_have::<C>(&bytes[run..]) {
        run += GROUP;
    }
    run
}

#[inline(always)]
fn group_may_have<C: InGroups>(bytes: &[u8]) -> bool
    requires { GROUP ≤ length bytes.now }
    ensures { result ≡ false → (i : ℕ) → i < GROUP → C.class (slice_index bytes.now i) ≡ false }
{
    C::may_have(
        u8x64::from_slice(bytes),
        u8x64::from_slice(&bytes[LANES..]),
        u8x64::from_slice(&bytes[2 * LANES..]),
        u8x64::from_slice(&bytes[3 * LANES..]),
    )
}
