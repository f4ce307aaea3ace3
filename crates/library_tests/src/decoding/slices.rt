//! Decoding to buffers of about the needed length, compared with the plain decoder. Long input is a
//! fill, a few bytes that are repeated, and other bytes among it.

use crate::asserts::{assert_same, inserted};
use std::alloc::Global;
use std::ops::Range;
use std::process::Abort;
use test_cases::borders::BORDERS;
use test_cases::fills::{FILLS, OTHER_FILLS, spliced};
use test_cases::flavors::Flavor;
use test_cases::slices::expect_slices;

/// Asserts that each call that writes to a buffer agrees with the plain decoder for these bytes.
fn assert_read(rt: &impl Abort, alloc: Global, bytes: &[u8]) {
    assert_same(rt, expect_slices(alloc, bytes), bytes);
}

#[test]
fn decodes_the_borders(rt: HostRuntime) {
    for row in &BORDERS {
        assert_read(&rt, rt.alloc(), row.utf8);
        assert_read(&rt, rt.alloc(), row.encoded(Flavor::Cesu8));
        assert_read(&rt, rt.alloc(), row.encoded(Flavor::Mutf8));
    }
}

/// No byte, each byte, and each byte followed by one that begins a character or continues one.
#[test]
fn decodes_few_bytes(rt: HostRuntime) {
    assert_read(&rt, rt.alloc(), &[]);
    for first in 0..=u8::MAX {
        assert_read(&rt, rt.alloc(), &[first]);
        for second in [0, 0x41, 0x80, 0xBF, 0xC0, 0xED] {
            assert_read(&rt, rt.alloc(), &[first, second]);
        }
    }
}

/// Asserts that fills of these lengths are decoded correctly with another byte at each offset.
fn assert_each_place(
    rt: &impl Abort,
    alloc: Global,
    (fill, lengths): (&[u8], Range<usize>),
    byte: u8,
) {
    for len in lengths {
        for place in 0..len {
            let bytes = spliced(alloc, (fill, len), &[byte], place..place + 1);
            assert_read(rt, alloc, &bytes.expect(rt, "an input"));
        }
    }
}

/// Two bytes of ASCII, and bytes that are damage in UTF-8 and in both encodings if they stand
/// alone.
const BYTES: [u8; 8] = [0x00, 0x7F, 0x80, 0xBF, 0xC3, 0xF0, 0xF7, 0xFF];

/// The fast path for short ASCII must see the other byte at each offset.
#[test]
fn decodes_short_ascii(rt: HostRuntime) {
    for byte in BYTES {
        assert_each_place(&rt, rt.alloc(), (b"a", 1..20), byte);
    }
}

#[test]
fn decodes_ascii_of_32_bytes(rt: HostRuntime) {
    for byte in BYTES {
        assert_each_place(&rt, rt.alloc(), (b"a", 32..34), byte);
    }
}

#[test]
fn decodes_ascii_of_64_bytes(rt: HostRuntime) {
    for byte in BYTES {
        assert_each_place(&rt, rt.alloc(), (b"a", 64..66), byte);
    }
}

/// The length of the fewest whole fills that have at least `len` bytes.
fn whole(fill: &[u8], len: usize) -> usize {
    len.div_ceil(fill.len().max(1)).saturating_mul(fill.len())
}

/// Text of several blocks in which one byte is damaged.
#[test]
fn decodes_a_damaged_byte_at_each_place(rt: HostRuntime) {
    for fill in FILLS {
        let len = whole(fill, 160);
        assert_each_place(&rt, rt.alloc(), (fill, len..len.saturating_add(1)), 0xFF);
    }
}

/// Asserts that whole fills of about `len` bytes are decoded correctly with the bytes `put`
/// inserted before the fill at about this offset.
fn assert_put(
    rt: &impl Abort,
    alloc: Global,
    (fill, len): (&[u8], usize),
    (put, place): (&[u8], usize),
) {
    let fills = (fill, whole(fill, len));
    let bytes = inserted(rt, alloc, fills, put, whole(fill, place));
    assert_read(rt, alloc, &bytes);
}

/// The bytes that are inserted between fills.
const PUT: [&[u8]; 5] = [
    b"",
    b"\xED\xA0\xBD\xED\xB2\x96",
    b"\xC0\x80",
    b"\xF0\x9F\x92\x96",
    b"\xFF",
];

/// Asserts that fills of about `len` bytes are decoded correctly with bytes inserted before,
/// between and after them.
fn assert_among(rt: &impl Abort, alloc: Global, fills: &[&[u8]], len: usize) {
    for fill in fills {
        for put in PUT {
            assert_put(rt, alloc, (fill, len), (put, 0));
            assert_put(rt, alloc, (fill, len), (put, len / 2));
            assert_put(rt, alloc, (fill, len), (put, len));
        }
    }
}

/// Lengths of a few bytes, and lengths near the borders of blocks.
#[test]
fn decodes_blocks(rt: HostRuntime) {
    for len in [1, 4, 31, 33, 64, 97, 200] {
        assert_among(&rt, rt.alloc(), &FILLS, len);
        assert_among(&rt, rt.alloc(), &OTHER_FILLS, len);
    }
}

/// Lengths near 256 and 1,024 bytes, the most that are decoded to a small and to a large array.
#[test]
fn decodes_short_windows(rt: HostRuntime) {
    assert_among(&rt, rt.alloc(), &FILLS, 256);
    assert_among(&rt, rt.alloc(), &FILLS, 257);
    assert_among(&rt, rt.alloc(), &FILLS, 1024);
    assert_among(&rt, rt.alloc(), &OTHER_FILLS, 256);
    assert_among(&rt, rt.alloc(), &OTHER_FILLS, 257);
}

#[test]
fn decodes_a_window_and_a_byte(rt: HostRuntime) {
    assert_among(&rt, rt.alloc(), &FILLS, 1025);
}

#[test]
fn decodes_windows_of_text(rt: HostRuntime) {
    assert_among(&rt, rt.alloc(), &FILLS, 2050);
}

#[test]
fn decodes_windows_of_other_bytes(rt: HostRuntime) {
    assert_among(&rt, rt.alloc(), &OTHER_FILLS, 1024);
    assert_among(&rt, rt.alloc(), &OTHER_FILLS, 1025);
    assert_among(&rt, rt.alloc(), &OTHER_FILLS, 2050);
}

/// Each number of bytes after the last block. `FILLS[2..]` leaves out ASCII and U+00E9.
#[test]
fn decodes_text_of_each_length(rt: HostRuntime) {
    for fill in &FILLS[2..] {
        for len in 257..401 {
            assert_put(&rt, rt.alloc(), (fill, len), (b"", 0));
        }
    }
}

/// Text of many windows after 0 to 5 bytes of ASCII, so that windows end at each byte of a
/// surrogate pair.
#[test]
fn decodes_text_across_borders(rt: HostRuntime) {
    for fill in &FILLS[2..] {
        for len in 1700..1732usize {
            assert_put(&rt, rt.alloc(), (fill, len), (&b"aaaaaa"[..len % 6], 0));
        }
    }
}
