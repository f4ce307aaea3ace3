//! `read_utf8_constant`, on constants as the Java Virtual Machine Specification has them ("The
//! CONSTANT_Utf8_info Structure").

use crate::asserts::assert_of;
use java_text::ReadFault;
use std::alloc::Global;
use uses::{ConstantFault, read_utf8_constant};

/// The bytes of a constant pool from a text constant on, its text, and how many bytes follow it.
/// Tag 1 begins a text constant. Tag 7 begins a class constant, which has two more bytes.
type Constant = (&'static [u8], &'static str, usize);

static CONSTANTS: [Constant; 4] = [
    (b"\x01\x00\x04Code", "Code", 0),
    (b"\x01\x00\x00\x01\x00\x03()V", "", 6),
    (b"\x01\x00\x02\xC0\x80\x07\x00\x02", "\0", 3),
    (b"\x01\x00\x06\xED\xA0\xBD\xED\xB2\x96", "\u{1F496}", 0),
];

/// Whether the text constant is read.
fn is_read(alloc: Global, bytes: &[u8], want: &str, more: usize) -> bool {
    match read_utf8_constant(alloc, bytes) {
        Ok((text, rest)) => text.as_str() == want && rest.len() == more,
        Err(_) => false,
    }
}

#[test]
fn reads_the_text_constants_of_a_class_file(rt: HostRuntime) {
    for constant in &CONSTANTS {
        assert_of(
            &rt,
            is_read(rt.alloc(), constant.0, constant.1, constant.2),
            constant,
        );
    }
}

/// Bytes that begin with no text constant, and why they are rejected.
type Rejected = (&'static [u8], &'static str);

static REJECTED: [Rejected; 6] = [
    (b"\x07\x00\x02", "tag 7"),
    (b"", "truncated"),
    (b"\x01\x00", "truncated"),
    (b"\x01\x00\x02A", "truncated"),
    // The byte 0 by itself, and one half of a surrogate pair.
    (b"\x01\x00\x01\x00", "invalid"),
    (b"\x01\x00\x03\xED\xA0\xBD", "invalid"),
];

/// Why the bytes are rejected as a text constant.
fn rejection(alloc: Global, bytes: &[u8]) -> &'static str {
    match read_utf8_constant(alloc, bytes) {
        Err(ConstantFault::OtherTag(7)) => "tag 7",
        Err(ConstantFault::Text(ReadFault::Truncated)) => "truncated",
        Err(ConstantFault::Text(ReadFault::Invalid(_))) => "invalid",
        _ => "another result",
    }
}

#[test]
fn rejects_what_is_no_text_constant(rt: HostRuntime) {
    for row in &REJECTED {
        assert_of(&rt, rejection(rt.alloc(), row.0) == row.1, row);
    }
}
