//! Strict decoding that appends to a vector: at most 64 bytes by one window, and more from one
//! character that needs conversion to the next.
//!
//! If such characters are far apart, the test for the unchanged prefix finds the run between two of
//! them, which is copied. If no whole such character follows a run, the input is ill-formed.

ghost use Rattle.std.specs.Prelude.{◌≡◌, ◌+◌, ◌<◌, ◌≤◌, length, vec_len, vec_capacity, OnErr, IfOk};
ghost use Rattle.cesu8_text.specs.Reading.{HasNoStrictReading};
ghost use Rattle.cesu8_bytes.specs.TextChunks.{IsReadSoFar};
ghost use Rattle.cesu8_bytes.specs.declared.strictness.Strictness.TheVariants.{Strict};
ghost use Rattle.cesu8_decode.specs.Decoding.{AppendsReading};
ghost use Rattle.cesu8_decode.specs.Following.{Unchanged as AllUnchanged};
ghost use Rattle.cesu8_decode.specs.Prefixes.{IsLongestPrefix, IsProperPrefix};

use super::chunks::append_chunks;
use crate::lanes::character_set::Unchanged;
use crate::needs_conversion::{changes, first_eight};
use crate::pass::short::{SHORT_STRICT, write_short};
use crate::prefix::{UnchangedPrefix, longest_prefix, may_be_crossed, unchanged_prefix_by_call};
use cesu8_bytes::flavor::Flavor;
use cesu8_bytes::lanes::class::LANES;
use cesu8_bytes::lanes::short::are_short;
use cesu8_bytes::pairs::{PAIR, PAIR_READ, utf8_of_pair};
use cesu8_bytes::strictness::{NoText, StrictReading};
use cesu8_bytes::writing::copies::{append, append_prefix, append_short};

/// If the first unchanged run is shorter than this, windows are faster, and decode the rest.
const FIRST_RUN: usize = 16;

/// Like `FIRST_RUN`, for each later unchanged run.
const NEXT_RUN: usize = 64;

/// Appends the strictly decoded text of more than 64 bytes, of which the first `len` are unchanged.
/// It is not inlined, so that at most 64 bytes have few registers to save.
#[inline(never)]
pub fn append_many<F: Flavor>(bytes: &[u8], len: usize, before: Vec<u8>) -> Result<Vec<u8>, NoText>
    requires many { LANES < length bytes.now }
    requires prefix { IsLongestPrefix AllUnchanged F.flavor bytes.now len }
    requires room { vec_len before + length bytes.now ≤ vec_capacity before }
    ensures { AppendsReading F.flavor Strict bytes.now before result }
{
    let mut text = before;
    let mut rest = bytes;
    let mut len = len;
    let mut least = FIRST_RUN;
    while len < rest.len() {
        let is_long = least <= len;
        rest = append_to_next::<F>(rest, len, &mut text)?;
        if are_short(rest) {
            return append_last::<F>(rest, text);
        }
        if !is_long {
            // Input that ends within a character, except after the first half of a surrogate pair,
            // is rejected before all of it is decoded.
            if may_be_crossed::<Unchanged>(rest, rest.len()) {
                return Err(NoText);
            }
            return append_chunks::<F, StrictReading>(rest, text);
        }
        len = longest_prefix::<F, Unchanged>(rest);
        least = NEXT_RUN;
    }
    append(rest, &mut text);
    Ok(text)
}

/// Appends the strictly decoded text of the last bytes, at most 64.
#[inline(always)]
fn append_last<F: Flavor>(bytes: &[u8], before: Vec<u8>) -> Result<Vec<u8>, NoText>
    requires short { length bytes.now ≤ LANES }
    requires room { vec_len before + length bytes.now ≤ vec_capacity before }
    ensures { AppendsReading F.flavor Strict bytes.now before result }
{
    let prefix = unchanged_prefix_by_call::<F>(bytes);
    if prefix.len < bytes.len() {
        return append_short_strictly::<F>(bytes, prefix, before);
    }
    let mut text = before;
    append_short(bytes, &mut text);
    Ok(text)
}

/// Appends the strictly decoded text of at most 64 bytes, which is written to an array first.
#[inline(always)]
pub fn append_short_strictly<F: Flavor>(
    bytes: &[u8],
    prefix: UnchangedPrefix,
    before: Vec<u8>,
) -> Result<Vec<u8>, NoText>
    requires short { length bytes.now ≤ LANES }
    requires prefix { IsProperPrefix F.flavor bytes.now prefix }
    requires room { vec_len before + length bytes.now ≤ vec_capacity before }
    ensures { AppendsReading F.flavor Strict bytes.now before result }
{
    let mut written = [0; SHORT_STRICT];
    let end = write_short::<F, StrictReading>(bytes, prefix, &mut written)?;
    let mut text = before;
    append_short(&written[..end], &mut text);
    Ok(text)
}

/// Appends the unchanged prefix and, in UTF-8, the character after it. Returns the bytes after that
/// character, or an error if the prefix is not followed by a character that needs conversion.
#[inline(always)]
fn append_to_next<'a, F: Flavor>(
    bytes: &'a [u8],
    len: usize,
    out: &mut Vec<u8>,
) -> Result<&'a [u8], NoText>
    requires many { LANES < length bytes.now }
    requires prefix { IsLongestPrefix AllUnchanged F.flavor bytes.now len × (len < length bytes.now) }
    requires room { vec_len out.old + length bytes.now ≤ vec_capacity out.old }
    ensures none { OnErr result (HasNoStrictReading F.flavor bytes.now) }
    ensures read { IfOk result (λ rest.
        IsReadSoFar F.flavor Strict bytes.now rest.now out.old.items out.new.items) }
    ensures room { IfOk result (λ rest. vec_len out.new + length rest.now ≤ vec_capacity out.new) }
    ensures within { IfOk result (λ rest. length rest.now < length bytes.now) }
    ensures capacity { vec_capacity out.new ≡ vec_capacity out.old }
{
    let after = &bytes[len..];
    let mut padded = [0; PAIR_READ];
    let first = first_eight(after, &mut padded);
    if !changes::<F>(first) {
        return Err(NoText);
    }
    append_prefix(bytes, len, out);
    if first[0] == 0xC0 {
        append(&[0], out);
        return Ok(&after[2..]);
    }
    append(&utf8_of_pair(first), out);
    Ok(&after[PAIR..])
}
