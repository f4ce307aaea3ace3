//! Encodes a string's UTF-8 as CESU-8 or MUTF-8, 32 bytes at a time.
//!
//! What is written for a byte of UTF-8 depends only on the byte, the two before it and the one
//! after it. So vectors compute it for all bytes of a block at once, with no branch on what a byte
//! is. The four bytes `a b c d` of one character become a surrogate pair, ED and two bytes each:
//!
//! ```text
//! a ──► ED, three bits of a and two of b, less 1     c ──► ED, four bits of c
//! b ──► four bits of b and two of c                  d ──► d
//! ```
//!
//! In MUTF-8 the byte 00 becomes C0 80. Every other byte is unchanged. So eight bytes become a row
//! of sixteen lanes, and one shuffle packs those that are written.
//!
//! - `blocks`: encodes one block
//! - `rows`: the shuffles
//! - `blockwise`: the loop over the blocks of a string
//! - `middle_blocks`: what that loop does with a block inside the string
//! - `strategy`: which strategy is used for which string, and when unchanged blocks are copied
//!
//! This file builds or appends an encoding, and `to_slice` writes it to a caller's buffer. The
//! crate is internal and may change at any time. `simd_cesu8` has the public calls.
#![tactic(auto)]

ghost use Rattle.std.specs.Prelude.{◌≡◌, ◌+◌, ◌*◌, ◌<◌, ◌≤◌, length, OnOk, OnErr, vec_len, vec_capacity};
ghost use Rattle.std.specs.Str.{chars};
ghost use Rattle.cesu8_text.specs.Encoding.{encoding};
ghost use Rattle.cesu8_bytes.specs.Puts.{Appends};
ghost use Rattle.cesu8_encode.specs.Encoded.{BuildsEncoding, AppendsEncoding};

mod blocks;
mod blockwise;
mod middle_blocks;
mod rows;
mod strategy;
pub mod to_slice;

use self::blocks::BLOCK_ENCODED;
use self::blockwise::write;
use self::strategy::{ON_STACK, is_block, is_for_stack};
use cesu8_bytes::flavor::Flavor;
use cesu8_bytes::lengths::encoded_len;
use cesu8_bytes::writing::copies::{append, append_zeros, copy};
use std::alloc::{AllocError, Global};

/// The length of the longest encoding that is written to the stack.
const ON_STACK_ENCODED: usize = 2 * ON_STACK;

/// Returns the encoding of a string, with one allocation of exactly its length. `strategy` says why
/// there are three cases. This function is out of line, so that callers that borrow use no stack.
/// `encode_on_stack` is inlined, so that `write` does not test the length again.
#[inline(never)]
pub fn encode<F: Flavor>(alloc: Global, text: &str) -> Result<Vec<u8>, AllocError>
    ensures { BuildsEncoding F.flavor text.now result }
{
    if is_block(text) {
        return encode_on_stack::<F, BLOCK_ENCODED>(alloc, text);
    }
    if is_for_stack(text) {
        return encode_on_stack::<F, ON_STACK_ENCODED>(alloc, text);
    }
    let len = encoded_len::<F>(text);
    let mut encoded = Vec::with_capacity(alloc, len)?;
    append_changed::<F>(text, len, &mut encoded);
    Ok(encoded)
}

/// Encodes a string to an array of `N` bytes on the stack, and returns a copy.
#[inline(always)]
#[tactic(auto, using(cesu8_text::proofs::encoding::Lengths::length_encoding_chars))]
fn encode_on_stack<F: Flavor, const N: usize>(
    alloc: Global,
    text: &str,
) -> Result<Vec<u8>, AllocError>
    requires { (2 * length text.now ≤ N) × (N ≤ ON_STACK_ENCODED) }
    ensures { BuildsEncoding F.flavor text.now result }
{
    let mut written = [0; N];
    // The length of the encoding is not known.
    let len = write::<F>(text, 0, &mut written);
    copy(alloc, &written[..len])
}

/// Appends a string's encoding, of `len` bytes. If the capacity is too small, it allocates once.
#[tactic(auto, using(cesu8_text::proofs::encoding::NeedsEncoding::encoding_as_long))]
pub fn encode_into<F: Flavor>(text: &str, len: usize, out: &mut Vec<u8>) -> Result<(), AllocError>
    requires { len ≡ length (encoding F.flavor (chars text.now)) }
    ensures { AppendsEncoding F.flavor text.now result out.old out.new }
{
    make_room(len, out)?;
    if len == text.len() {
        // An encoding as long as the UTF-8 equals the UTF-8: any other one is longer.
        append(text.as_bytes(), out);
    } else {
        append_changed::<F>(text, len, out);
    }
    Ok(())
}

/// Reserves capacity for `len` more bytes. If the capacity is enough, nothing is allocated.
fn make_room(len: usize, out: &mut Vec<u8>) -> Result<(), AllocError>
    ensures items { out.new.items ≡ out.old.items }
    ensures ok { OnOk result (vec_len out.new + len ≤ vec_capacity out.new) }
    ensures err { OnErr result (vec_capacity out.new ≡ vec_capacity out.old) }
    ensures full { OnErr result (vec_capacity out.old < vec_len out.old + len) }
    ensures stays { vec_len out.old + len ≤ vec_capacity out.old
        → vec_capacity out.new ≡ vec_capacity out.old }
    ensures grows { vec_capacity out.old ≤ vec_capacity out.new }
{
    if len <= out.capacity() - out.len() {
        return Ok(());
    }
    out.reserve(len)
}

/// Appends the encoding of a string, which has the length `len`, to a buffer with enough capacity.
#[inline(always)]
#[tactic(auto, using(crate::proofs::encoder::EncodedLengths::no_shorter))]
fn append_changed<F: Flavor>(text: &str, len: usize, out: &mut Vec<u8>)
    requires len { len ≡ length (encoding F.flavor (chars text.now)) }
    requires room { vec_len out.old + len ≤ vec_capacity out.old }
    ensures { Appends (encoding F.flavor (chars text.now)) out.old out.new }
{
    let start = out.len();
    append_zeros(len, out);
    write::<F>(text, len - text.len(), &mut out[start..]);
}
