//! The two encodings as types. They differ only in how they encode U+0000.

ghost use Rattle.std.specs.Prelude.{◌≡◌, ◌↔◌, IsTrue, refl, map};
ghost use Rattle.cesu8_text.specs.Encoding.{Flavor as AnyFlavor, Cesu8, Mutf8};
ghost use Rattle.cesu8_text.specs.Class.{is_null};
ghost use Rattle.cesu8_bytes.specs.Kernels.{mask};

use crate::lanes::class::{NoByte, Null, mask};
use crate::lanes::count::CountsOne;
use crate::lanes::groups::InGroups;
use std::simd::prelude::*;

/// An encoding: CESU-8 or MUTF-8.
pub trait Flavor {
    /// The class of the bytes that become C0 80: 00 in MUTF-8, and no byte in CESU-8.
    type Null: CountsOne + InGroups;

    ghost flavor: { AnyFlavor };

    /// Returns whether U+0000 is encoded as two bytes, C0 80.
    fn has_long_null() -> bool
        ensures { IsTrue result ↔ flavor ≡ Mutf8 };

    ghost are_null: { Self.Null.class ≡ is_null flavor };
}

/// CESU-8, which encodes U+0000 as one byte, 00.
pub struct Cesu8Flavor;

impl Flavor for Cesu8Flavor {
    type Null = NoByte;

    ghost flavor = { Cesu8 };

    #[inline(always)]
    fn has_long_null() -> bool {
        false
    }

    ghost are_null = { refl };
}

/// MUTF-8, which encodes U+0000 as two bytes, C0 80.
pub struct Mutf8Flavor;

impl Flavor for Mutf8Flavor {
    type Null = Null;

    ghost flavor = { Mutf8 };

    #[inline(always)]
    fn has_long_null() -> bool {
        true
    }

    ghost are_null = { refl };
}

/// Returns FF in the lane of each byte that is encoded as C0 80, and 00 in the others.
#[inline(always)]
pub fn nulls<F: Flavor>(bytes: u8x32) -> u8x32
    ensures { result ≡ map (λ b. mask (is_null F.flavor b)) bytes }
{
    mask::<F::Null>(bytes)
}
