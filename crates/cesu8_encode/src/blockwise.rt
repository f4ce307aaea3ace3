//! Encodes a string block by block, to a slice that is long enough.
//!
//! A block is read together with the bytes around it, since what is written for a byte depends on
//! its neighbors. At both ends of the string, an array of zeros supplies the missing neighbors.

ghost use Rattle.std.specs.Prelude.{◌+◌, ◌*◌, ◌<◌, ◌≤◌, length};
ghost use Rattle.std.specs.Str.{chars};
ghost use Rattle.cesu8_text.specs.Encoding.{encoding};
ghost use Rattle.cesu8_encode.specs.Encoded.{WritesEncoding};
ghost use Rattle.cesu8_encode.specs.EncodedOffsets.{recoded, IsWritten, Writes};
ghost use Rattle.cesu8_encode.specs.Strategies.{FitsMiddle};

use super::blocks::{BLOCK_READ, READ_AFTER, READ_BEFORE, ROW, write_block};
use super::middle_blocks::write_middle_block;
use super::strategy::{Middle, is_block, middle_of};
use cesu8_bytes::BLOCK;
use cesu8_bytes::flavor::Flavor;
use cesu8_bytes::lanes::short::copy_short;

/// Writes the encoding of a string, and returns its length. `more` is the number of bytes by which
/// the encoding is longer than the string, or 0 if that is not known. The function is inlined, so
/// that a caller that has tested the string's length does not test it again.
#[inline(always)]
pub fn write<F: Flavor>(text: &str, more: usize, out: &mut [u8]) -> usize
    requires { length (encoding F.flavor (chars text.now)) ≤ length out.old }
    ensures { WritesEncoding F.flavor text.now out.old out.new result }
{
    if !is_block(text) {
        return write_blocks::<F>(text, more, out);
    }
    let bytes = text.as_bytes();
    let mut window = [0; BLOCK_READ];
    copy_short(bytes, &mut window[READ_BEFORE..]);
    write_block::<F>(&window, bytes.len(), out, 0)
}

/// Like `write`, for more than a block. `more` only decides which strategy encodes the blocks.
#[inline(never)]
pub fn write_blocks<F: Flavor>(text: &str, more: usize, out: &mut [u8]) -> usize
    requires long { BLOCK < length text.now }
    requires room { length (encoding F.flavor (chars text.now)) ≤ length out.old }
    ensures { WritesEncoding F.flavor text.now out.old out.new result }
{
    let bytes = text.as_bytes();
    let blocks = (bytes.len() - 1) / BLOCK;
    let end = write_first_block::<F>(bytes, out);
    let end = write_middle::<F>(bytes, more, blocks, out, end);
    write_last_block::<F>(bytes, BLOCK * blocks, out, end)
}

/// Encodes the first block, and returns the end of what it wrote.
#[inline(always)]
fn write_first_block<F: Flavor>(text: &[u8], out: &mut [u8]) -> usize
    requires long { BLOCK < length text.now }
    requires room { length (recoded F.flavor text.now) ≤ length out.old }
    ensures { Writes F.flavor text.now BLOCK out.old out.new result }
{
    let mut window = [0; BLOCK_READ];
    window[READ_BEFORE..].copy_from_slice(&text[..BLOCK + READ_AFTER]);
    write_block::<F>(&window, BLOCK, out, 0)
}

/// Encodes the blocks between the first and the last, and returns the end of what it wrote.
/// `blocks` is the number of blocks before the last, including the first. `NullChange` requires
/// that no byte is F0 or more (hexadecimal), and `middle_of` chooses it only then.
#[inline(always)]
fn write_middle<F: Flavor>(
    text: &[u8],
    more: usize,
    blocks: usize,
    out: &mut [u8],
    start: usize,
) -> usize
    requires blocks { (0 < blocks) × (BLOCK * blocks < length text.now)
        × (length text.now ≤ BLOCK * blocks + BLOCK) }
    requires room { length (recoded F.flavor text.now) ≤ length out.old }
    requires first { IsWritten F.flavor text.now BLOCK out.old start }
    ensures { Writes F.flavor text.now (BLOCK * blocks) out.old out.new result }
{
    if blocks == 1 {
        // The last block follows the first one, so testing the string gains nothing.
        return start;
    }
    // At least `ROW` bytes follow these blocks, so that their rows fit.
    let followed = (text.len() - ROW) / BLOCK;
    let middle = middle_of::<F>(text, more, blocks);
    let end = write_middle_by::<F>(text, followed, middle, out, start);
    if followed == blocks {
        return end;
    }
    let at = BLOCK * followed - READ_BEFORE;
    write_block::<F>(&text[at..at + BLOCK_READ], BLOCK, out, end)
}

/// Like `write_middle`, by a given strategy, for blocks that at least `ROW` bytes follow.
#[inline(always)]
fn write_middle_by<F: Flavor>(
    text: &[u8],
    blocks: usize,
    middle: Middle,
    out: &mut [u8],
    start: usize,
) -> usize
    requires fits { FitsMiddle middle text.now }
    requires blocks { (0 < blocks) × (BLOCK * blocks + ROW ≤ length text.now) }
    requires room { length (recoded F.flavor text.now) ≤ length out.old }
    requires first { IsWritten F.flavor text.now BLOCK out.old start }
    ensures { Writes F.flavor text.now (BLOCK * blocks) out.old out.new result }
{
    match middle {
        Middle::CopyUnchanged => {
            write_each_block::<F>(text, blocks, Middle::CopyUnchanged, out, start)
        }
        Middle::NullChange => write_each_block::<F>(text, blocks, Middle::NullChange, out, start),
        Middle::AnyChange => write_each_block::<F>(text, blocks, Middle::AnyChange, out, start),
    }
}

/// Like `write_middle_by`. It is inlined for each strategy, so its loop need not test which it is.
#[inline(always)]
fn write_each_block<F: Flavor>(
    text: &[u8],
    blocks: usize,
    middle: Middle,
    out: &mut [u8],
    start: usize,
) -> usize
    requires fits { FitsMiddle middle text.now }
    requires blocks { (0 < blocks) × (BLOCK * blocks + ROW ≤ length text.now) }
    requires room { length (recoded F.flavor text.now) ≤ length out.old }
    requires first { IsWritten F.flavor text.now BLOCK out.old start }
    ensures { Writes F.flavor text.now (BLOCK * blocks) out.old out.new result }
{
    let mut end = start;
    for i in 1..blocks {
        end = write_middle_block::<F>(text, BLOCK * i - READ_BEFORE, middle, out, end);
    }
    end
}

/// Encodes the last block, and returns the end of what it wrote.
#[inline(always)]
fn write_last_block<F: Flavor>(text: &[u8], at: usize, out: &mut [u8], end: usize) -> usize
    requires offset { (BLOCK ≤ at) × (at < length text.now) × (length text.now ≤ at + BLOCK) }
    requires room { length (recoded F.flavor text.now) ≤ length out.old }
    requires before { IsWritten F.flavor text.now at out.old end }
    ensures { Writes F.flavor text.now (length text.now) out.old out.new result }
{
    let mut window = [0; BLOCK_READ];
    let near = &text[at - READ_BEFORE..];
    window[..near.len()].copy_from_slice(near);
    write_block::<F>(&window, text.len() - at, out, end)
}
