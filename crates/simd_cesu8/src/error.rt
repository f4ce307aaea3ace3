//! The errors of this crate's calls.

ghost use Rattle.std.specs.Prelude.{◌≡◌, Some, codes, true};
ghost use Rattle.std.proofs.Common.{rules};
ghost use Rattle.simd_cesu8.specs.Fault.{message_of, slice_message_of, lossy_message_of};

use std::alloc::AllocError;
use std::error::Error;
use std::fmt::{self, Debug, Display, Formatter};

/// The input decodes to no text. The error has neither a position nor a reason. It displays as
/// `invalid input`, and as `DecodingError` with `{:?}`, whatever width is given.
///
/// ```rust
/// use simd_cesu8::DecodeFault;
///
/// if let Err(DecodeFault::Invalid(error)) = simd_cesu8::decode(alloc, b"\xFF") {
///     let line = format!(in alloc; "{error}")?;
///     assert_eq!(rt; line.as_str(), "invalid input");
/// }
/// ```
#[derive(Clone, Copy, Eq)]
pub struct DecodingError(pub(crate) ());

/// It has no content, so any two are equal.
impl PartialEq for DecodingError {
    ghost eq = { λ _ _. true };

    ghost laws = { Prim.search rules };

    fn eq(&self, _other: &DecodingError) -> bool {
        true
    }
}

impl Debug for DecodingError {
    ghost debug_output = { λ _. Some (codes "DecodingError") };

    fn fmt<W: fmt::Write>(&self, f: &mut Formatter<W>) -> fmt::Result {
        f.write_str("DecodingError")
    }
}

impl Display for DecodingError {
    ghost output = { λ _. Some (codes "invalid input") };

    ghost styled_output = { λ _ _. Some (codes "invalid input") };

    fn fmt<W: fmt::Write>(&self, f: &mut Formatter<W>) -> fmt::Result {
        f.write_str("invalid input")
    }
}

impl Error for DecodingError {}

/// Why a call that decodes returns no text. It displays as `invalid input` or `out of memory`,
/// whatever width is given.
///
/// ```rust
/// use simd_cesu8::DecodeFault;
///
/// match simd_cesu8::decode_strict(alloc, bytes) {
///     Ok(text) => rt.println(text.as_str())?,
///     Err(DecodeFault::Invalid(_)) => rt.println("no CESU-8")?,
///     Err(DecodeFault::Memory(error)) => return Err(error.into()),
/// }
/// ```
#[derive(Debug, Drop)]
pub enum DecodeFault {
    /// The input decodes to no text.
    Invalid(DecodingError),
    /// Memory could not be allocated.
    Memory(AllocError),
}

impl Display for DecodeFault {
    ghost output = { λ fault. Some (message_of fault) };

    ghost styled_output = { λ fault _. Some (message_of fault) };

    fn fmt<W: fmt::Write>(&self, f: &mut Formatter<W>) -> fmt::Result {
        match self {
            DecodeFault::Invalid(_) => f.write_str("invalid input"),
            DecodeFault::Memory(_) => f.write_str("out of memory"),
        }
    }
}

impl Error for DecodeFault {}

/// The caller's buffer is shorter than the result. The error holds the result's length. It displays
/// as `buffer too short`, whatever width is given.
///
/// ```rust
/// let mut buf = [0; 5];
/// let fault = simd_cesu8::encode_to_slice("\u{10400}", &mut buf).unwrap_err();
/// assert_eq!(rt; fault.needed(), 6);
/// ```
#[derive(Clone, Copy, Debug, PartialEq, Eq)]
pub struct TooShort {
    needed: usize,
}

impl TooShort {
    #[inline(always)]
    pub(crate) fn new(needed: usize) -> TooShort
        ensures { result.needed ≡ needed }
    {
        TooShort { needed }
    }

    /// Returns the length of the result, in bytes.
    pub fn needed(&self) -> usize
        ensures { result ≡ self.now.needed }
    {
        self.needed
    }
}

impl Display for TooShort {
    ghost output = { λ _. Some (codes "buffer too short") };

    ghost styled_output = { λ _ _. Some (codes "buffer too short") };

    fn fmt<W: fmt::Write>(&self, f: &mut Formatter<W>) -> fmt::Result {
        f.write_str("buffer too short")
    }
}

impl Error for TooShort {}

/// Why a call that decodes writes no text to the caller's buffer. It displays as `invalid input` or
/// `buffer too short`, whatever width is given.
///
/// ```rust
/// use simd_cesu8::DecodeSliceFault;
///
/// let mut buf = [0; 3];
/// match simd_cesu8::decode_strict_to_slice(bytes, &mut buf) {
///     Ok(len) => assert!(rt; len <= 3),
///     Err(DecodeSliceFault::Invalid(_)) => rt.println("no CESU-8")?,
///     Err(DecodeSliceFault::TooShort(fault)) => assert_eq!(rt; fault.needed(), 4),
/// }
/// ```
#[derive(Clone, Copy, Debug, PartialEq, Eq)]
pub enum DecodeSliceFault {
    /// The input decodes to no text.
    Invalid(DecodingError),
    /// The buffer is shorter than the text.
    TooShort(TooShort),
}

impl Display for DecodeSliceFault {
    ghost output = { λ fault. Some (slice_message_of fault) };

    ghost styled_output = { λ fault _. Some (slice_message_of fault) };

    fn fmt<W: fmt::Write>(&self, f: &mut Formatter<W>) -> fmt::Result {
        match self {
            DecodeSliceFault::Invalid(_) => f.write_str("invalid input"),
            DecodeSliceFault::TooShort(_) => f.write_str("buffer too short"),
        }
    }
}

impl Error for DecodeSliceFault {}

/// Why a call that decodes bytes that may be damaged writes no text to the caller's buffer. It
/// displays as `text is too long` or `buffer too short`, whatever width is given.
///
/// ```rust
/// use simd_cesu8::LossySliceFault;
///
/// let mut buf = [0; 2];
/// match simd_cesu8::decode_lossy_to_slice(b"\xFF", &mut buf) {
///     Ok(len) => assert!(rt; len <= 2),
///     Err(LossySliceFault::TooShort(fault)) => assert_eq!(rt; fault.needed(), 3),
///     Err(LossySliceFault::TooLong) => rt.println("no buffer is long enough")?,
/// }
/// ```
#[derive(Clone, Copy, Debug, PartialEq, Eq)]
pub enum LossySliceFault {
    /// The length of the text in bytes does not fit `usize`.
    TooLong,
    /// The buffer is shorter than the text.
    TooShort(TooShort),
}

impl Display for LossySliceFault {
    ghost output = { λ fault. Some (lossy_message_of fault) };

    ghost styled_output = { λ fault _. Some (lossy_message_of fault) };

    fn fmt<W: fmt::Write>(&self, f: &mut Formatter<W>) -> fmt::Result {
        match self {
            LossySliceFault::TooLong => f.write_str("text is too long"),
            LossySliceFault::TooShort(_) => f.write_str("buffer too short"),
        }
    }
}

impl Error for LossySliceFault {}
