//! The calls that write to the caller's buffer, and comparisons of what they leave there.

use crate::comparisons::{Difference, expect};
use crate::decoders::{DECODERS, Decoder, Outcome};
use crate::flavors::{
    FLAVORS, Flavor, decode_lossy_strict_to_slice, decode_lossy_to_slice, decode_strict_to_slice,
    decode_to_slice, encode_to_slice,
};
use crate::plain::read;
use simd_cesu8::{DecodeSliceFault, LossySliceFault, TooShort};
use std::alloc::{AllocError, Global};
use std::ops::Range;

/// The byte that fills a buffer before a call.
const FILLER: u8 = 0xEE;

/// Returns a buffer of this length.
pub fn buffer(alloc: Global, len: usize) -> Result<Vec<u8>, AllocError> {
    let mut buf = Vec::with_capacity(alloc, len)?;
    buf.resize(len, FILLER)?;
    Ok(buf)
}

/// Whether a buffer that `buffer` made begins with these bytes, and its other bytes are unchanged.
pub fn holds(buf: &[u8], front: &[u8]) -> bool {
    match buf.split_at_checked(front.len()) {
        Some((written, rest)) => written == front && rest.iter().all(|byte| *byte == FILLER),
        None => false,
    }
}

/// Why a call writes nothing.
#[derive(Clone, Copy, PartialEq, Eq, Debug)]
pub enum SliceFault {
    TooShort(usize),
    Invalid,
    TooLong,
}

impl From<TooShort> for SliceFault {
    fn from(fault: TooShort) -> SliceFault {
        SliceFault::TooShort(fault.needed())
    }
}

impl From<DecodeSliceFault> for SliceFault {
    fn from(fault: DecodeSliceFault) -> SliceFault {
        match fault {
            DecodeSliceFault::TooShort(fault) => fault.into(),
            DecodeSliceFault::Invalid(_) => SliceFault::Invalid,
        }
    }
}

impl From<LossySliceFault> for SliceFault {
    fn from(fault: LossySliceFault) -> SliceFault {
        match fault {
            LossySliceFault::TooShort(fault) => fault.into(),
            LossySliceFault::TooLong => SliceFault::TooLong,
        }
    }
}

/// A call that writes to the caller's buffer.
#[derive(Clone, Copy, Debug)]
pub enum SliceCall<'a> {
    Encode(&'a str),
    Decode(Decoder, &'a [u8]),
}

impl SliceCall<'_> {
    /// The name of the call.
    fn name(self) -> &'static str {
        match self {
            SliceCall::Encode(_) => "encode_to_slice",
            SliceCall::Decode(Decoder::Strict, _) => "decode_strict_to_slice",
            SliceCall::Decode(Decoder::Lenient, _) => "decode_to_slice",
            SliceCall::Decode(Decoder::LossyStrict, _) => "decode_lossy_strict_to_slice",
            SliceCall::Decode(Decoder::LossyLenient, _) => "decode_lossy_to_slice",
        }
    }

    /// Makes the call with this buffer.
    pub fn write(self, flavor: Flavor, buf: &mut [u8]) -> Result<usize, SliceFault> {
        Ok(match self {
            SliceCall::Encode(text) => encode_to_slice(flavor, text, buf)?,
            SliceCall::Decode(decoder, bytes) => match decoder {
                Decoder::Strict => decode_strict_to_slice(flavor, bytes, buf)?,
                Decoder::Lenient => decode_to_slice(flavor, bytes, buf)?,
                Decoder::LossyStrict => decode_lossy_strict_to_slice(flavor, bytes, buf)?,
                Decoder::LossyLenient => decode_lossy_to_slice(flavor, bytes, buf)?,
            },
        })
    }
}

/// Makes a call with a buffer of each of these lengths. Compares what it returns and leaves in the
/// buffer with the bytes `due` that it has to write, or with `Invalid` if there are none.
pub fn expect_in_rooms(
    alloc: Global,
    flavor: Flavor,
    call: SliceCall<'_>,
    due: Option<&[u8]>,
    rooms: Range<usize>,
) -> Result<(), Difference> {
    for room in rooms {
        let mut buf = buffer(alloc, room)?;
        let returned = call.write(flavor, buf.as_mut_slice());
        let (expected, front): (_, &[u8]) = match due {
            Some(bytes) if bytes.len() <= room => (Ok(bytes.len()), bytes),
            Some(bytes) => (Err(SliceFault::TooShort(bytes.len())), b""),
            None => (Err(SliceFault::Invalid), b""),
        };
        let is_left = holds(buf.as_slice(), front);
        let (got, expected) = ((room, returned, is_left), (room, expected, true));
        expect(alloc, flavor, call.name(), got, expected)?;
    }
    Ok(())
}

/// The longest result for which a buffer of every shorter length is tried.
const SHORT: usize = 40;

/// The lengths of a buffer to try for a result of `needed` bytes.
fn rooms_about(needed: usize) -> Range<usize> {
    let first = if needed <= SHORT { 0 } else { needed - 1 };
    first..needed.saturating_add(2)
}

/// The bytes that a call with this outcome has to write, if there are any. The plain decoder never
/// returns `Memory`.
fn due_of(expected: Outcome<'_>) -> Option<&[u8]> {
    match expected {
        Outcome::Borrowed(text) | Outcome::Owned(text) => Some(text.as_bytes()),
        Outcome::Invalid | Outcome::Memory => None,
    }
}

/// Compares each call that decodes to a buffer, in both encodings, with the plain decoder. The
/// buffers are about as long as the result, and as long as the input.
pub fn expect_slices(alloc: Global, bytes: &[u8]) -> Result<(), Difference> {
    for flavor in FLAVORS {
        let reading = read(alloc, flavor, bytes)?;
        for decoder in DECODERS {
            let due = due_of(reading.expected(decoder, bytes));
            let call = SliceCall::Decode(decoder, bytes);
            let rooms = rooms_about(due.map_or(bytes.len(), |due| due.len()));
            if !rooms.contains(&bytes.len()) {
                let room = bytes.len()..bytes.len().saturating_add(1);
                expect_in_rooms(alloc, flavor, call, due, room)?;
            }
            expect_in_rooms(alloc, flavor, call, due, rooms)?;
        }
    }
    Ok(())
}
