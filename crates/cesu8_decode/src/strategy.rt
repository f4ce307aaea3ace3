//! The strategy for input that needs conversion, chosen by its length. In strict decoding of more
//! than 64 bytes to a slice, the length is that of the bytes after the unchanged prefix.
//!
//! | bytes | strategy | strict, to a slice | lossy |
//! |---|---|---|---|
//! | at most 64 (`LANES`) | `Short` | one window | one window |
//! | at most 256 (`SMALL_ARRAY`) | `SmallArray` | a small array | a small array |
//! | at most 1,024 (`LARGE_ARRAY`) | `LargeArray` | a large array | a large array |
//! | at most 4,096 (`LARGEST_ARRAY`) | `LargestArray` | chunks | the largest array |
//! | more | `Chunks` | chunks | chunks |
//!
//! - One window: unless a byte is ill-formed, the test for the unchanged prefix has computed it.
//! - The arrays: one pass over the bytes in windows of 64, written to an array on the stack from
//!   which the text is copied. The pass has few branches on the content of a window, since they
//!   would be mispredicted. The sizes are a matter of speed: a larger array takes longer to clear
//!   and more stack, three bytes for each input byte in lossy decoding.
//! - Chunks: the pass stops when its buffer is full, and continues with an empty one. A `String` is
//!   written in place, except for what the first 4,096 bytes become in lossy decoding, and for text
//!   that is stored when little capacity is left. The text for a slice is copied from a large array,
//!   after strict decoding has validated all bytes, and after a pass for the length if needed.
//!
//! Strict decoding to a `String` does not use this table for more than 64 bytes. It goes from one
//! converted character to the next as long as these are far apart (`destinations::strict_append`).
//! The rest is decoded by one window if it has at most 64 bytes, and otherwise by chunks.

ghost use Rattle.std.specs.Prelude.{◌≤◌, ◌↔◌, IsTrue, length};
ghost use Rattle.cesu8_decode.specs.Decoding.{Takes};

use cesu8_bytes::BLOCK;
use cesu8_bytes::lanes::class::LANES;

#[derive(Clone, Copy)]
pub enum Strategy {
    Short,
    SmallArray,
    LargeArray,
    LargestArray,
    Chunks,
}

/// The longest input of `SmallArray`. Chunks may also use an array of that size.
pub const SMALL_ARRAY: usize = 256;
/// The longest input of `LargeArray`. Chunks fill an array of that size repeatedly.
pub const LARGE_ARRAY: usize = 1024;
/// The most bytes that lossy decoding decodes to an array, without a pass for the length.
pub const LARGEST_ARRAY: usize = 4096;

#[inline(always)]
pub fn strategy_of(bytes: &[u8]) -> Strategy
    ensures { Takes result bytes.now }
{
    match bytes.len() {
        0..=LANES => Strategy::Short,
        0..=SMALL_ARRAY => Strategy::SmallArray,
        0..=LARGE_ARRAY => Strategy::LargeArray,
        0..=LARGEST_ARRAY => Strategy::LargestArray,
        _ => Strategy::Chunks,
    }
}

/// Returns whether the bytes fit in one block, 32 bytes, so that half a vector of 64 is enough.
#[inline(always)]
pub fn is_one_block(bytes: &[u8]) -> bool
    ensures { IsTrue result ↔ length bytes.now ≤ BLOCK }
{
    bytes.len() <= BLOCK
}
