//! Long inputs: a few bytes that are repeated, and other bytes at one place among them.

use std::alloc::{AllocError, Global};
use std::ops::Range;

/// Characters of each width. C0 80 is valid in MUTF-8 only. The last fill mixes three widths, so
/// that blocks and windows end at different characters of it.
pub const FILLS: [&[u8]; 6] = [
    b"a",
    b"\xC3\xA9",
    b"\xE2\x82\xAC",
    b"\xED\xA0\xBD\xED\xB2\x96",
    b"\xC0\x80",
    b"\xED\x9F\xBFa\xED\xAF\xBF\xED\xBF\xBF",
];

/// UTF-8 that is valid in CESU-8 alone or in neither encoding, and damage.
pub const OTHER_FILLS: [&[u8]; 3] = [b"\0a", b"\xF0\x9F\x92\x96", b"\xFFa\x80"];

/// The concatenation of some bytes.
pub fn joined(alloc: Global, parts: &[&[u8]]) -> Result<Vec<u8>, AllocError> {
    let mut bytes = Vec::new(alloc);
    for part in parts {
        bytes.extend_from_slice(part)?;
    }
    Ok(bytes)
}

/// The bytes, repeated.
pub fn repeated(alloc: Global, bytes: &[u8], times: usize) -> Result<Vec<u8>, AllocError> {
    let mut all = Vec::new(alloc);
    for _ in 0..times {
        all.extend_from_slice(bytes)?;
    }
    Ok(all)
}

/// The first `len` bytes of a fill that is repeated.
pub fn filled(alloc: Global, fill: &[u8], len: usize) -> Result<Vec<u8>, AllocError> {
    let mut bytes = repeated(alloc, fill, len.div_ceil(fill.len().max(1)))?;
    bytes.truncate(len);
    Ok(bytes)
}

/// The first `len` bytes of a repeated fill, with `put` in place of the bytes at the offsets `over`,
/// which may be none.
pub fn spliced(
    alloc: Global,
    (fill, len): (&[u8], usize),
    put: &[u8],
    over: Range<usize>,
) -> Result<Vec<u8>, AllocError> {
    let filled = filled(alloc, fill, len)?;
    let (front, _) = filled.as_slice().split_at(over.start.min(filled.len()));
    let back = filled.get(over.end..).unwrap_or(&[]);
    joined(alloc, &[front, put, back])
}
