//! Encodes to a caller's buffer: copies the string if no byte changes, and encodes it otherwise.

ghost use Rattle.std.specs.Prelude.{◌<◌, ◌≤◌, length};
ghost use Rattle.std.specs.Str.{chars};
ghost use Rattle.cesu8_text.specs.Encoding.{encoding};
ghost use Rattle.cesu8_bytes.specs.Puts.{PutsAnswer};

use crate::blocks::BLOCK_ENCODED;
use crate::blockwise::{write, write_blocks};
use crate::strategy::is_block;
use cesu8_bytes::BLOCK;
use cesu8_bytes::fast_paths::{may_need_encoding, needs_encoded};
use cesu8_bytes::flavor::Flavor;
use cesu8_bytes::lengths::encoded_len;
use cesu8_bytes::writing::copies::{NoRoom, copy_to_slice};

/// Writes the encoding of a string to the start of a caller's buffer, if it fits, and returns its
/// length. Encoding is out of line, so that an unchanged string uses no stack and clears no array.
#[inline(always)]
pub fn encode_to_slice<F: Flavor>(text: &str, buf: &mut [u8]) -> Result<usize, NoRoom>
    ensures { PutsAnswer (encoding F.flavor (chars text.now)) result buf.old buf.new }
{
    if is_block(text) {
        // The compiler knows that test and copy get at most 32 bytes, and omits the code for more.
        if !may_need_encoding::<F>(text) {
            return copy_to_slice(text.as_bytes(), buf);
        }
        return encode_block_to_slice::<F>(text, buf);
    }
    if !needs_encoded::<F>(text) {
        return copy_to_slice(text.as_bytes(), buf);
    }
    encode_in_place::<F>(text, buf)
}

/// Encodes at most a block to the stack, and copies the result. It is not inlined, so that only a
/// call clears the array.
#[inline(never)]
#[tactic(auto, using(cesu8_text::proofs::encoding::Lengths::length_encoding_chars))]
fn encode_block_to_slice<F: Flavor>(text: &str, buf: &mut [u8]) -> Result<usize, NoRoom>
    requires { length text.now ≤ BLOCK }
    ensures { PutsAnswer (encoding F.flavor (chars text.now)) result buf.old buf.new }
{
    let mut written = [0; BLOCK_ENCODED];
    // With this bound, which always holds, the compiler omits code to copy more than 64 bytes.
    let len = write::<F>(text, 0, &mut written).min(BLOCK_ENCODED);
    copy_to_slice(&written[..len], buf)
}

/// Counts the length of the encoding, and encodes in place.
#[inline(never)]
#[tactic(auto, using(crate::proofs::encoder::EncodedLengths::no_shorter))]
fn encode_in_place<F: Flavor>(text: &str, buf: &mut [u8]) -> Result<usize, NoRoom>
    requires { BLOCK < length text.now }
    ensures { PutsAnswer (encoding F.flavor (chars text.now)) result buf.old buf.new }
{
    let len = encoded_len::<F>(text);
    if buf.len() < len {
        return Err(NoRoom { needed: len });
    }
    write_blocks::<F>(text, len - text.len(), &mut buf[..len]);
    Ok(len)
}
