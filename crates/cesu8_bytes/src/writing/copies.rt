//! Copies bytes to the end of a buffer with enough capacity, to a caller's buffer, which may be too
//! short, or to a new buffer, which takes one allocation.

ghost use Rattle.std.specs.Prelude.{◌≡◌, ℕ, List, ◌+◌, ◌*◌, ◌≤◌, ◌++◌, [], length, replicate, take, IfOk, IsOk, vec_len, vec_capacity};
ghost use Rattle.std.specs.String.{string_bytes, string_capacity};
ghost use Rattle.cesu8_bytes.specs.Puts.{Appends, PutsAnswer};

use crate::lanes::class::LANES;
use crate::lanes::short::{LONG, copy_short};
use crate::utf8::known_string;
use std::alloc::{AllocError, Global};
use std::mem;
use std::simd::prelude::*;

/// The width of the vectors that append 17 to 64 bytes: four of them cover `LANES`.
const WIDE: usize = 16;
/// The width of the vectors that append 4 to 16 bytes: four of them cover `WIDE`.
const NARROW: usize = 4;

/// Appends bytes. Short slices use only two widths of vectors, since a branch for each width would
/// mostly be mispredicted. From 1,024 bytes on, a copy of the slice as a whole is faster.
#[inline(always)]
pub fn append(bytes: &[u8], out: &mut Vec<u8>)
    requires { vec_len out.old + length bytes.now ≤ vec_capacity out.old }
    ensures { Appends bytes.now out.old out.new }
{
    // The length of a local `Vec` stays in a register. Through a reference, each byte that is
    // written would store it.
    let mut taken = mem::replace(out, Vec::new(*out.allocator()));
    match bytes.len() {
        0..=LANES => append_short(bytes, &mut taken),
        0..LONG => append_vectors(bytes, &mut taken),
        _ => append_each(bytes, &mut taken),
    }
    *out = taken;
}

/// Appends the first `len` bytes of at least 64. If `len` is at most 64, it copies 64 bytes and
/// truncates: a variable length would be mispredicted.
#[inline(always)]
pub fn append_prefix(bytes: &[u8], len: usize, out: &mut Vec<u8>)
    requires lanes { LANES ≤ length bytes.now }
    requires len { len ≤ length bytes.now }
    requires room { vec_len out.old + length bytes.now ≤ vec_capacity out.old }
    ensures { Appends (take len bytes.now) out.old out.new }
{
    if len > LANES {
        append(&bytes[..len], out);
        return;
    }
    // A local `Vec` keeps its length in a register (see `append`).
    let mut taken = mem::replace(out, Vec::new(*out.allocator()));
    let start = taken.len();
    append_at::<LANES>(bytes, 0, start, &mut taken);
    taken.truncate(start + len);
    *out = taken;
}

/// Appends at most 64 bytes, for `append` and for callers that know that there are no more.
#[inline(always)]
pub fn append_short(bytes: &[u8], out: &mut Vec<u8>)
    requires few { length bytes.now ≤ LANES }
    requires room { vec_len out.old + length bytes.now ≤ vec_capacity out.old }
    ensures { Appends bytes.now out.old out.new }
{
    match bytes.len() {
        0..NARROW => append_each(bytes, out),
        0..=WIDE => append_four::<NARROW>(bytes, out),
        _ => append_four::<WIDE>(bytes, out),
    }
}

/// Appends at least 64 bytes, vector by vector. The last vector may overlap the one before it.
#[inline(always)]
fn append_vectors(bytes: &[u8], out: &mut Vec<u8>)
    requires lanes { LANES ≤ length bytes.now }
    requires room { vec_len out.old + length bytes.now ≤ vec_capacity out.old }
    ensures { Appends bytes.now out.old out.new }
{
    let start = out.len();
    let last = bytes.len() - LANES;
    let mut at = 0;
    while at < last {
        append_at::<LANES>(bytes, at, start, out);
        at += LANES;
    }
    append_at::<LANES>(bytes, last, start, out);
}

/// Appends `N` to `4 * N` bytes by four vectors, which may overlap.
#[inline(always)]
fn append_four<const N: usize>(bytes: &[u8], out: &mut Vec<u8>)
    requires lanes { (N ≤ LANES) × (N ≤ length bytes.now) × (length bytes.now ≤ 4 * N) }
    requires room { vec_len out.old + length bytes.now ≤ vec_capacity out.old }
    ensures { Appends bytes.now out.old out.new }
{
    let start = out.len();
    let last = bytes.len() - N;
    let step = last.min(N);
    append_at::<N>(bytes, 0, start, out);
    append_at::<N>(bytes, step, start, out);
    append_at::<N>(bytes, last - step, start, out);
    append_at::<N>(bytes, last, start, out);
}

/// Appends the `N` bytes at offset `at`, in place of any that were appended from that offset on.
/// `start` is the length that the buffer had before any of the bytes was appended.
#[inline(always)]
fn append_at<const N: usize>(bytes: &[u8], at: usize, start: usize, out: &mut Vec<u8>)
    requires lanes { (N ≤ LANES) × (at + N ≤ length bytes.now) }
    requires before { start + at ≤ vec_len out.old }
    requires room { start + at + N ≤ vec_capacity out.old }
    ensures bytes { (before : List ℕ) (written : ℕ) → length before ≡ start → at ≤ written
        → out.old.items ≡ before ++ take written bytes.now
        → out.new.items ≡ before ++ take (at + N) bytes.now }
    ensures len { vec_len out.new ≡ start + at + N }
    ensures capacity { vec_capacity out.new ≡ vec_capacity out.old }
{
    let lanes: Simd<u8, N> = Simd::from_slice(&bytes[at..]);
    out.truncate(start + at);
    append_each(&lanes.to_array(), out);
}

/// Appends bytes one by one. The compiler turns this into a vector store for an array, and into a
/// `memcpy` if it knows that source and buffer do not alias, as for a new buffer. Otherwise it
/// copies in larger steps, and the last bytes one by one.
#[inline(always)]
fn append_each(bytes: &[u8], out: &mut Vec<u8>)
    requires { vec_len out.old + length bytes.now ≤ vec_capacity out.old }
    ensures { Appends bytes.now out.old out.new }
{
    for byte in bytes {
        out.push_reserved(*byte);
    }
}

/// Appends zeros to a buffer with enough capacity. The caller then overwrites them as a slice.
#[inline(always)]
pub fn append_zeros(count: usize, out: &mut Vec<u8>)
    requires { vec_len out.old + count ≤ vec_capacity out.old }
    ensures { Appends (replicate count 0) out.old out.new }
{
    // A local `Vec` keeps its length in a register (see `append`).
    let mut taken = mem::replace(out, Vec::new(*out.allocator()));
    for _ in 0..count {
        taken.push_reserved(0);
    }
    *out = taken;
}

/// Returns a copy of some bytes. It allocates exactly their length, once.
pub fn copy(alloc: Global, bytes: &[u8]) -> Result<Vec<u8>, AllocError>
    ensures bytes { IfOk result (λ copied. copied.items ≡ bytes.now) }
    ensures capacity { IfOk result (λ copied. vec_capacity copied ≡ length bytes.now) }
    ensures empty { bytes.now ≡ [] → IsOk result }
{
    let mut copied = Vec::with_capacity(alloc, bytes.len())?;
    append_each(bytes, &mut copied);
    Ok(copied)
}

/// Returns a copy of a string. It allocates exactly its length, once.
pub fn copy_text(alloc: Global, text: &str) -> Result<String, AllocError>
    ensures text { IfOk result (λ copied. string_bytes copied ≡ text.now) }
    ensures capacity { IfOk result (λ copied. string_capacity copied ≡ length text.now) }
    ensures empty { text.now ≡ [] → IsOk result }
{
    let copied = copy(alloc, text.as_bytes())?;
    Ok(known_string(copied))
}

/// The error of a write that does not fit: the buffer is shorter than the `needed` bytes.
#[derive(Clone, Copy)]
pub struct NoRoom {
    pub needed: usize,
}

/// Copies bytes to the start of a caller's buffer, if they fit, and returns their number.
#[inline(always)]
pub fn copy_to_slice(bytes: &[u8], buf: &mut [u8]) -> Result<usize, NoRoom>
    ensures { PutsAnswer bytes.now result buf.old buf.new }
{
    let len = bytes.len();
    if buf.len() < len {
        return Err(NoRoom { needed: len });
    }
    copy_short(bytes, buf);
    Ok(len)
}
