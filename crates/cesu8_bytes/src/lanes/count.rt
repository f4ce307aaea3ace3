//! Sums the weights of bytes of UTF-8, 64 bytes at a time: one for a byte in a class, and two for
//! one that leads four bytes. The sum is the growth of an encoding (class `NoByte` or `Null`), or
//! the number of code units (`OneUnit`).
//!
//! A block has 1,024 bytes in this file, not 32 as elsewhere. In a block, each lane of a vector
//! counts its own bytes, at most 16, so none overflows. In the rest, the bits of two masks are
//! counted: of the class, and of four-byte leads. The last vector may overlap the one before it,
//! and bits counted already are shifted out.

ghost use Rattle.std.specs.Prelude.{◌≡◌, ℕ, ◌<◌, ◌≤◌, ◌+◌, ◌-◌, ◌*◌, length, drop, sum_by};
ghost use Rattle.std.specs.Simd.Lanes.{sum_l};
ghost use Rattle.std.proofs.Common.{arith};
ghost use Rattle.std.proofs.lemmas.Bool.Decides.{nat_tests};
ghost use Rattle.cesu8_text.specs.Class.{weight_of};

use super::class::{FourByteLead, InAllVectors, InVectors, LANES, NoByte, Null, OneUnit, bits};
use super::short::by_two_vectors;
use std::simd::prelude::*;

/// A class without a four-byte lead. A byte weighs at most two, and a slice has at most
/// `isize::MAX` bytes, so its sum fits `usize`.
pub trait CountsOne: InAllVectors {
    ghost at_most_two: { (b : ℕ) → weight_of Self.class b ≤ 2 };
}

impl CountsOne for NoByte {
    ghost at_most_two = { λ b. Prim.grind (arith, nat_tests) };
}

impl CountsOne for Null {
    ghost at_most_two = { λ b. Prim.grind (arith, nat_tests) };
}

impl CountsOne for OneUnit {
    ghost at_most_two = { λ b. Prim.grind (arith, nat_tests) };
}

/// The vectors in a block. More would save calls of `lane_sum`, but leave more bytes to masks.
const VECTORS_IN_LANES: usize = 16;
/// The bytes in a block.
const BYTES_IN_LANES: usize = VECTORS_IN_LANES * LANES;

/// Returns the sum of the bytes' weights. Up to 64 bytes are counted inline.
#[inline(always)]
pub fn weight<C: CountsOne>(value: &[u8]) -> usize
    ensures { result ≡ sum_by (weight_of C.class) value.now }
{
    match value.len() {
        0..=LANES => short_weight::<C>(value),
        _ => long_weight::<C>(value),
    }
}

/// Sums whole blocks first, and then the rest. It is not inlined, since it is long.
#[inline(never)]
fn long_weight<C: CountsOne>(value: &[u8]) -> usize
    ensures { result ≡ sum_by (weight_of C.class) value.now }
{
    let mut rest = value;
    let mut weight = 0;
    while let Some((block, after)) = rest.split_first_chunk::<BYTES_IN_LANES>() {
        weight += block_weight::<C>(block);
        rest = after;
    }
    weight + remainder_weight::<C>(rest)
}

#[inline(always)]
fn block_weight<C: CountsOne>(block: &[u8]) -> usize
    requires { length block.now ≡ BYTES_IN_LANES }
    ensures { result ≡ sum_by (weight_of C.class) block.now }
{
    let (none, one) = (u8x64::splat(0), u8x64::splat(1));
    let mut ones = none;
    let mut fours = none;
    for i in 0..VECTORS_IN_LANES {
        let lanes = u8x64::from_slice(&block[LANES * i..]);
        ones = ones.strict_add(C::marks(lanes).select(one, none));
        fours = fours.strict_add(FourByteLead::marks(lanes).select(one, none));
    }
    lane_sum(ones) + 2 * lane_sum(fours)
}

/// Sums the lanes, each four of them in a wider lane, since 64 times 16 overflows a byte.
#[inline(always)]
fn lane_sum(lanes: u8x64) -> usize
    ensures { result ≡ sum_l lanes }
{
    lanes.dot4(u8x64::splat(1)).strict_reduce_sum() as usize
}

/// Returns the sum of the weights of what is left after the blocks, vector by vector.
#[inline(always)]
fn remainder_weight<C: CountsOne>(value: &[u8]) -> usize
    ensures { result ≡ sum_by (weight_of C.class) value.now }
{
    let whole = value.len() / LANES;
    if whole == 0 {
        return short_weight::<C>(value);
    }
    let mut weight = 0;
    for i in 0..whole {
        weight += lanes_weight::<C, LANES>(u8x64::from_slice(&value[LANES * i..]), 0);
    }
    let left = value.len() - LANES * whole;
    if left == 0 {
        return weight;
    }
    weight + end_weight::<C, LANES>(value, left)
}

#[inline(always)]
fn short_weight<C: CountsOne>(value: &[u8]) -> usize
    requires { length value.now ≤ LANES }
    ensures { result ≡ sum_by (weight_of C.class) value.now }
{
    by_two_vectors!(value, pair_weight[C](value), 0)
}

/// Adds the weights of the first `N` bytes and those of the rest, which the last `N` bytes contain.
#[inline(always)]
fn pair_weight<C: CountsOne + InVectors<N>, const N: usize>(value: &[u8]) -> usize
    requires lanes { (0 < N) × (N ≤ 32) }
    requires long { (N ≤ length value.now) × (length value.now ≤ 2 * N) }
    ensures { result ≡ sum_by (weight_of C.class) value.now }
{
    let first = lanes_weight::<C, N>(Simd::from_slice(value), 0);
    first + end_weight::<C, N>(value, value.len() - N)
}

/// Sums the weights of the last `len` bytes by the last vector, shifting out fewer than 64 bits.
#[inline(always)]
fn end_weight<C: CountsOne + InVectors<N>, const N: usize>(value: &[u8], len: usize) -> usize
    requires lanes { N ≤ LANES }
    requires long { (len ≤ N) × (N ≤ length value.now) × (N < LANES + len) }
    ensures { result ≡ sum_by (weight_of C.class) (drop (length value.now - len) value.now) }
{
    let lanes = Simd::from_slice(&value[value.len() - N..]);
    lanes_weight::<C, N>(lanes, N - len)
}

/// Returns the sum of the weights of the lanes after the first `skipped`.
#[inline(always)]
fn lanes_weight<C: CountsOne + InVectors<N>, const N: usize>(
    lanes: Simd<u8, N>,
    skipped: usize,
) -> usize
    requires { (N ≤ LANES) × (skipped ≤ N) × (skipped < LANES) }
    ensures { result ≡ sum_by (weight_of C.class) (drop skipped lanes.entry) }
{
    let ones = bits::<C, N>(lanes) >> skipped;
    let fours = bits::<FourByteLead, N>(lanes) >> skipped;
    ones.count_ones() as usize + 2 * fours.count_ones() as usize
}
