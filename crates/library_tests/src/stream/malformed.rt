//! Malformed bytes, at which a strict call stops.

use crate::asserts::assert_of;
use crate::stream::calls::{Call, joined};
use cesu8_stream::{Progress, State};
use std::alloc::Global;
use std::process::Abort;

/// Bytes with which no character begins, whatever follows, and calls for which this holds. Both
/// calls that encode read UTF-8, so a row has at most one of them.
const MALFORMED: [(&[Call], &[u8]); 16] = [
    (&DECODE_AND_ENCODE, b"\x80"),
    (&DECODE_AND_ENCODE, b"\xBF\x80"),
    (&[Call::DecodeCesu8, Call::EncodeCesu8], b"\xC0"),
    (&[Call::DecodeMutf8], b"\xC0\x81"),
    (&[Call::DecodeMutf8], b"\0"),
    (&DECODE_AND_ENCODE, b"\xC1"),
    (&DECODE_AND_ENCODE, b"\xC3A"),
    (&DECODE_AND_ENCODE, b"\xE0\x80"),
    (&DECODE_AND_ENCODE, b"\xE2\x82A"),
    (&DECODE, b"\xED\xB0"),
    (&DECODE, b"\xED\xA0\x80A"),
    (&DECODE, b"\xED\xA0\x80\xED\xA0"),
    (&DECODE, b"\xF0"),
    (&[Call::EncodeMutf8], b"\xED\xA0"),
    (&[Call::EncodeMutf8], b"\xF0\x8F"),
    (&[Call::EncodeCesu8], b"\xF4\x90"),
];

const DECODE: [Call; 2] = [Call::DecodeCesu8, Call::DecodeMutf8];

const DECODE_AND_ENCODE: [Call; 3] = [Call::DecodeCesu8, Call::DecodeMutf8, Call::EncodeCesu8];

/// Asserts that each call stops at damage after a letter.
fn assert_stopped(rt: &impl Abort, alloc: Global, calls: &[Call], damage: &[u8]) {
    let bytes = joined(rt, alloc, b"a", damage);
    for call in calls {
        let progress = call.run(&bytes, &mut [0xEE; 12]);
        let expected = Progress {
            read: 1,
            written: 1,
            state: State::Malformed,
        };
        assert_of(rt, progress == expected, &damage);
    }
}

#[test]
fn stops_at_malformed_bytes(rt: HostRuntime) {
    for (calls, damage) in &MALFORMED {
        assert_stopped(&rt, rt.alloc(), calls, damage);
    }
}
