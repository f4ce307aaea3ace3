//! Decodes many bytes chunk by chunk: the pass fills a part of a `Vec`, or an array on the stack
//! that is then copied, until it has read all bytes.

ghost use Rattle.std.specs.Prelude.{◌≡◌, ℕ, List, ◌+◌, ◌<◌, ◌≤◌, false, length, vec_len, vec_capacity};
ghost use Rattle.cesu8_bytes.specs.Puts.{Appends};
ghost use Rattle.cesu8_decode.specs.declared.pass.windows.Pass.{Pass};
ghost use Rattle.cesu8_text.specs.Reading.{reading, lossy_length};
ghost use Rattle.cesu8_text.specs.Slices.{StandsAtFront};
ghost use Rattle.cesu8_text.specs.Text.{utf8};
ghost use Rattle.cesu8_decode.specs.Decoding.{AppendsReading, AppendsNext, GoesOn, IsPass, pass_from, most_of_text};

use crate::pass::windows::{LARGE_LOSSY, Pass, SMALL_STRICT, write_windows};
use cesu8_bytes::flavor::Flavor;
use cesu8_bytes::strictness::{Reading, Strictness};
use cesu8_bytes::writing::copies::{append, append_zeros};
use cesu8_bytes::writing::offsets::put;

/// How many bytes of a vector are cleared at once and then overwritten, at least `ROOM` (in
/// `pass::window`), which the pass requires. A smaller number would take more calls of the pass. A
/// larger one would be cleared in vain if strict decoding finds an ill-formed byte soon.
const CLEARED_AT_ONCE: usize = 4096;

/// Appends the decoded text to a vector. In strict decoding an ill-formed byte is an error.
#[inline(never)]
pub fn append_chunks<F: Flavor, S: Reading>(
    bytes: &[u8],
    before: Vec<u8>,
) -> Result<Vec<u8>, S::Error>
    requires { vec_len before + most_of_text F.flavor S.which bytes.now ≤ vec_capacity before }
    ensures { AppendsReading F.flavor S.which bytes.now before result }
{
    let mut text = before;
    let mut read = 0;
    while read < bytes.len() {
        let pass = append_next::<F>(bytes, read, S::strictness(), &mut text);
        S::unless_rejected(pass.is_rejected, ())?;
        read = pass.read;
    }
    Ok(text)
}

/// Appends the text of the next bytes. If the vector has little spare capacity, the text is written
/// to an array and copied, since the pass also stores bytes after the text. By `fits` the text fits
/// the capacity, however many bytes the pass reads.
#[inline(always)]
fn append_next<F: Flavor>(
    bytes: &[u8],
    read: usize,
    strictness: Strictness,
    out: &mut Vec<u8>,
) -> Pass
    requires pass { IsPass F.flavor bytes.now read × (read < length bytes.now) }
    requires fits { (after : Pass) (old : List ℕ) (new : List ℕ) → after.is_rejected ≡ false
        → GoesOn F.flavor strictness bytes.now (pass_from read) after old new
        → vec_len out.old + after.end ≤ vec_capacity out.old }
    ensures next { AppendsNext F.flavor strictness bytes.now read result out.old out.new }
    ensures some { read < result.read }
{
    let start = out.len();
    let spare = out.capacity() - start;
    // Any array of at least `ROOM` would do, in lossy decoding too: the pass stops when it is full.
    if spare < SMALL_STRICT {
        let mut written = [0; SMALL_STRICT];
        let pass = write_windows::<F>(bytes, read, strictness, &mut written);
        if !pass.is_rejected {
            append_by_call(&written[..pass.end], out);
        }
        return pass;
    }
    append_zeros(spare.min(CLEARED_AT_ONCE), out);
    let pass = write_windows::<F>(bytes, read, strictness, &mut out[start..]);
    out.truncate(start + pass.end);
    pass
}

/// Calls `append` out of line: its code, with a path for each range of lengths, is long.
#[inline(never)]
pub fn append_by_call(bytes: &[u8], out: &mut Vec<u8>)
    requires { vec_len out.old + length bytes.now ≤ vec_capacity out.old }
    ensures { Appends bytes.now out.old out.new }
{
    append(bytes, out);
}

/// Writes the lossily decoded text to a slice that is long enough, and returns its length. The text
/// is copied from an array, since the pass also stores bytes after it, where the slice must not
/// change. Strict decoding calls it too, for bytes that it has validated, whose two texts are the
/// same. It is not inlined, since it is called twice, and so that only a call clears the array.
#[inline(never)]
pub fn put_chunks<F: Flavor>(bytes: &[u8], out: &mut [u8]) -> usize
    requires { lossy_length F.flavor bytes.now ≤ length out.old }
    ensures { StandsAtFront (utf8 (reading F.flavor bytes.now)) result out.old out.new }
{
    let mut written = [0; LARGE_LOSSY];
    let (mut read, mut end) = (0, 0);
    while read < bytes.len() {
        let pass = write_windows::<F>(bytes, read, Strictness::Lossy, &mut written);
        end = put(&written[..pass.end], out, end);
        read = pass.read;
    }
    end
}
