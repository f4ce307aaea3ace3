//! Which strategy encodes a string. No other file of this crate decides that.
//!
//! A string of at most 32 bytes is encoded as one block, and a longer one as several. An encoding
//! is at most twice as long as the string. So `encode` writes that of a string of at most 128 bytes
//! to the stack before its length is known, and copies it: counting first takes longer. One block
//! goes to an array of 64 bytes, since a larger array takes longer to zero. Strings of more than
//! 128 bytes, and those whose encoding has a known length (`encode_into`), are encoded in place.
//!
//! To a caller's slice, a string of more than a block is counted, and encoded in place. One block
//! goes through the stack: it is stored as whole rows, and what follows it must not change.
//!
//! These strategies are tests, not an enum: computing its value cost `encode` 13 instructions.
//!
//! The blocks between the first and the last have bytes of the string on both sides. How these are
//! encoded depends on the growth: how many bytes longer than the string the encoding is. A null
//! grows by one byte, and a surrogate pair by two. The first row that applies decides:
//!
//! | growth, in bytes                              | `Middle`        | a block is         |
//! |-----------------------------------------------|-----------------|--------------------|
//! | at most one for four blocks, or unknown       | `CopyUnchanged` | copied, or encoded |
//! | more, and no byte is F0 or more (hexadecimal) | `NullChange`    | nulls are encoded  |
//! | fewer than three for four blocks              | `CopyUnchanged` | copied, or encoded |
//! | more                                          | `AnyChange`     | encoded            |
//!
//! The second row is for MUTF-8 only. Copying a block takes the least time, but which blocks change
//! is often mispredicted, and a misprediction costs as much as encoding a block. So no block is
//! copied if about a quarter of them change. With surrogate pairs it is three eighths, since such a
//! block takes longer to encode. The average over the string decides: if one part of it is dense
//! with pairs, blocks of other parts are encoded although they could be copied.
//!
//! | `Middle`        | is the fastest for                                                       |
//! |-----------------|--------------------------------------------------------------------------|
//! | `NullChange`    | a null in 2 to 50 bytes                                                  |
//! | `AnyChange`     | 512 bytes or more: a pair in 20 to 50 bytes, or characters of all widths |
//! | `CopyUnchanged` | a pair in 300 bytes or more                                              |
//!
//! Other thresholds are in `cesu8_bytes`: the widths of vectors, and those of `fast_paths`.

ghost use Rattle.std.specs.Prelude.{◌<◌, ◌≤◌, ◌↔◌, length, IsTrue};
ghost use Rattle.cesu8_encode.specs.Strategies.{FitsMiddle};

use cesu8_bytes::BLOCK;
use cesu8_bytes::flavor::Flavor;
use cesu8_bytes::lanes::class::{AtLeastF0, LANES};
use cesu8_bytes::lanes::search::any_in_long;

/// The longest string that is encoded to the stack before the length of its encoding is known.
pub const ON_STACK: usize = 128;

/// Returns whether a string is encoded as one block.
#[inline(always)]
pub fn is_block(text: &str) -> bool
    ensures { IsTrue result ↔ length text.now ≤ BLOCK }
{
    text.len() <= BLOCK
}

/// Returns whether a string is encoded to the stack before the length of its encoding is known.
#[inline(always)]
pub fn is_for_stack(text: &str) -> bool
    ensures { IsTrue result ↔ length text.now ≤ ON_STACK }
{
    text.len() <= ON_STACK
}

/// A strategy for the blocks between the first and the last.
#[derive(Clone, Copy)]
pub enum Middle {
    /// Copies a block if neither it nor the two bytes before it change. A character of four bytes
    /// that begins three bytes before the block changes none of the block's bytes.
    CopyUnchanged,
    /// Encodes null characters only: no other byte changes, since none is F0 or more.
    NullChange,
    /// Encodes each block, whatever changes in it.
    AnyChange,
}

/// Returns the strategy for the blocks between the first and the last of a string. `more` is the
/// growth, or 0 if that is not known. `blocks` is the number of blocks before the last.
#[inline(always)]
pub fn middle_of<F: Flavor>(text: &[u8], more: usize, blocks: usize) -> Middle
    requires { LANES < length text.now }
    ensures { FitsMiddle result text.now }
{
    // One more, because some of the bytes belong to the first and the last block.
    if more <= 1 + blocks / 4 {
        return Middle::CopyUnchanged;
    }
    if F::has_long_null() && !any_in_long::<AtLeastF0>(text) {
        return Middle::NullChange;
    }
    if more < blocks - blocks / 4 {
        return Middle::CopyUnchanged;
    }
    Middle::AnyChange
}
