//! The errors of the decoder. `simd_cesu8` converts them to the public errors of its calls.

use cesu8_bytes::writing::copies::NoRoom;
use std::alloc::AllocError;

/// Why strict decoding to a `String` fails. Lossy decoding returns `AllocError` itself.
#[derive(Drop)]
pub enum BuildError {
    /// A byte is ill-formed.
    NoText,
    /// An allocation failed.
    Memory(AllocError),
}

/// Why decoding to a caller's slice fails. The slice is then unchanged.
#[derive(Clone, Copy)]
pub enum WriteError {
    /// In strict decoding, a byte is ill-formed.
    NoText,
    /// In lossy decoding, the length of the text does not fit `usize`.
    TooLong,
    /// The slice is shorter than the text, whose length `NoRoom` holds.
    NoRoom(NoRoom),
}
