//! Strict and lossy decoding, as values and as types. Loops over blocks are compiled once for each
//! type, so that the strict loop has no code for replacing ill-formed bytes.

ghost use Rattle.std.specs.Prelude.{◌≡◌, OkIff, false};
ghost use Rattle.cesu8_bytes.specs.declared.strictness.Strictness.{Strictness};
ghost use Rattle.cesu8_bytes.specs.declared.strictness.Strictness.TheVariants.{Strict, Lossy};

use std::convert::Infallible;

/// Whether a byte that belongs to no encoded character is an error or is replaced by U+FFFD.
#[derive(Clone, Copy)]
pub enum Strictness {
    Strict,
    Lossy,
}

/// A type for strict or for lossy decoding.
pub trait Reading {
    /// Strict or lossy, as a value.
    ghost which: { Strictness };

    /// The error of strict decoding. In lossy decoding, which cannot fail, this type has no value.
    type Error: Drop;

    fn strictness() -> Strictness
        ensures { result ≡ which };

    /// Returns the decoded text, or an error if decoding is strict and rejected a byte.
    fn unless_rejected<T: Drop>(is_rejected: bool, read: T) -> Result<T, Self::Error>
        ensures { OkIff result (which ≡ Strict → is_rejected ≡ false) read };
}

pub struct StrictReading;

/// The error of strict decoding: the bytes are the encoding of no text.
#[derive(Clone, Copy)]
pub struct NoText;

impl Reading for StrictReading {
    ghost which = { Strict };

    type Error = NoText;

    #[inline(always)]
    fn strictness() -> Strictness {
        Strictness::Strict
    }

    #[inline(always)]
    fn unless_rejected<T: Drop>(is_rejected: bool, read: T) -> Result<T, NoText> {
        if is_rejected { Err(NoText) } else { Ok(read) }
    }
}

pub struct LossyReading;

impl Reading for LossyReading {
    ghost which = { Lossy };

    type Error = Infallible;

    #[inline(always)]
    fn strictness() -> Strictness {
        Strictness::Lossy
    }

    #[inline(always)]
    fn unless_rejected<T: Drop>(_is_rejected: bool, read: T) -> Result<T, Infallible> {
        Ok(read)
    }
}
