//! Classes of bytes, and how a vector of each width tests for them.

ghost use Rattle.std.specs.Prelude.{◌≡◌, ◌==◌, ◌||◌, ◌≤◌, ◌↔◌, ℕ, Bool, false, nat_le, IsTrue, map};
ghost use Rattle.std.specs.Simd.Lanes.{mask_l};
ghost use Rattle.cesu8_text.specs.Class.{is_four, is_one_unit};
ghost use Rattle.cesu8_bytes.specs.Kernels.{AnyIn, lane, mask};

use std::marker::PhantomData;
use std::simd::Mask;
use std::simd::prelude::*;

/// The width of the widest vector, in bytes. A mask of at most 64 bits fits a `u64`.
pub const LANES: usize = 64;

/// A class of bytes, which contracts name as a predicate.
pub trait Class {
    ghost class: { ℕ → Bool };
}

/// A class that vectors of `N` bytes can test for.
pub trait InVectors<const N: usize>: Class {
    /// Returns a mask of the lanes in the class.
    fn marks(bytes: Simd<u8, N>) -> Mask<i8, N>
        ensures { result ≡ map (λ b. lane (Self.class b)) bytes.entry };
}

/// A class that vectors of all widths can test for. Short slices are tested by two of one width.
pub trait InAllVectors: InVectors<LANES>
    + InVectors<32>
    + InVectors<16>
    + InVectors<8>
    + InVectors<4>
    + InVectors<2>
    + InVectors<1> {}

impl<C> InAllVectors for C
where
    C: InVectors<LANES>
        + InVectors<32>
        + InVectors<16>
        + InVectors<8>
        + InVectors<4>
        + InVectors<2>
        + InVectors<1>,
{}

/// Returns whether some lane is in the class.
#[inline(always)]
pub fn has<C: InVectors<N>, const N: usize>(bytes: Simd<u8, N>) -> bool
    requires { N ≤ LANES }
    ensures { IsTrue result ↔ AnyIn C.class bytes.entry }
{
    C::marks(bytes).any()
}

/// Returns a bit for each lane, set if it is in the class. The lowest bit is the first lane.
#[inline(always)]
pub fn bits<C: InVectors<N>, const N: usize>(bytes: Simd<u8, N>) -> u64
    requires { N ≤ LANES }
    ensures { result ≡ mask_l (map C.class bytes.entry) }
{
    C::marks(bytes).to_bitmask()
}

/// Returns FF for each lane in the class, and 00 for the others.
#[inline(always)]
pub fn mask<C: InVectors<32>>(bytes: u8x32) -> u8x32
    ensures { result ≡ map (λ b. mask (C.class b)) bytes }
{
    C::marks(bytes).select(u8x32::splat(0xFF), u8x32::splat(0))
}

/// The empty class: CESU-8 encodes no byte as C0 80. MUTF-8 has `Null` in its place.
pub struct NoByte;
/// The one byte `BYTE`.
pub struct Equal<const BYTE: u8>;
/// The byte 00.
pub type Null = Equal<0>;
/// F0 to F7 (hexadecimal). The kernels, whose input may be any bytes, need exactly this class.
pub struct FourByteLead;
/// `BYTE` and all greater bytes.
pub struct AtLeast<const BYTE: u8>;
/// F0 (hexadecimal) or more: in UTF-8 the four-byte leads, found by one comparison.
pub type AtLeastF0 = AtLeast<0xF0>;
/// 80 (hexadecimal) or more: not ASCII.
pub type NonAscii = AtLeast<0x80>;
/// The bytes that are in `A` or in `B`.
pub struct Either<A, B>(PhantomData<(A, B)>);
/// In UTF-8, the lead bytes of one UTF-16 code unit: 00 to 7F, or C0 to EF (hexadecimal).
pub struct OneUnit;

impl Class for NoByte {
    ghost class = { λ _. false };
}

impl<const N: usize> InVectors<N> for NoByte {
    #[inline(always)]
    fn marks(bytes: Simd<u8, N>) -> Mask<i8, N>
        ensures { result ≡ map (λ b. lane false) bytes.entry }
    {
        let _ = bytes;
        Mask::splat(false)
    }
}

impl<const BYTE: u8> Class for Equal<BYTE> {
    ghost class = { λ b. b == BYTE };
}

impl<const BYTE: u8, const N: usize> InVectors<N> for Equal<BYTE> {
    #[inline(always)]
    fn marks(bytes: Simd<u8, N>) -> Mask<i8, N>
        ensures { result ≡ map (λ b. lane (b == BYTE)) bytes.entry }
    {
        bytes.simd_eq(Simd::splat(BYTE))
    }
}

impl Class for FourByteLead {
    ghost class = { is_four };
}

impl<const N: usize> InVectors<N> for FourByteLead {
    #[inline(always)]
    fn marks(bytes: Simd<u8, N>) -> Mask<i8, N>
        ensures { result ≡ map (λ b. lane (is_four b)) bytes.entry }
    {
        (bytes & Simd::splat(0xF8)).simd_eq(Simd::splat(0xF0))
    }
}

impl<const BYTE: u8> Class for AtLeast<BYTE> {
    ghost class = { λ b. nat_le BYTE b };
}

impl<const BYTE: u8, const N: usize> InVectors<N> for AtLeast<BYTE> {
    #[inline(always)]
    fn marks(bytes: Simd<u8, N>) -> Mask<i8, N>
        ensures { result ≡ map (λ b. lane (nat_le BYTE b)) bytes.entry }
    {
        bytes.simd_ge(Simd::splat(BYTE))
    }
}

impl<A: Class, B: Class> Class for Either<A, B> {
    ghost class = { λ b. A.class b || B.class b };
}

impl<A: InVectors<N>, B: InVectors<N>, const N: usize> InVectors<N> for Either<A, B> {
    #[inline(always)]
    fn marks(bytes: Simd<u8, N>) -> Mask<i8, N>
        ensures { result ≡ map (λ b. lane (A.class b || B.class b)) bytes.entry }
    {
        A::marks(bytes) | B::marks(bytes)
    }
}

impl Class for OneUnit {
    ghost class = { is_one_unit };
}

impl<const N: usize> InVectors<N> for OneUnit {
    #[inline(always)]
    fn marks(bytes: Simd<u8, N>) -> Mask<i8, N>
        ensures { result ≡ map (λ b. lane (is_one_unit b)) bytes.entry }
    {
        let leads = bytes.simd_ge(Simd::splat(0xC0)) & bytes.simd_lt(Simd::splat(0xF0));
        bytes.simd_lt(Simd::splat(0x80)) | leads
    }
}
