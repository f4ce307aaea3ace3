//! The calls that write to the caller's buffer, and allocate nothing.

use crate::prints::{print_bytes, print_outcome};
use java_text::{
    ReadSliceFault, WriteSliceFault, read_utf_lossy_to_slice, read_utf_to_slice, write_utf_to_slice,
};
use std::{io, str};
use test_cases::decoders::Decoder;
use test_cases::flavors::Flavor;
use test_cases::slices::{SliceCall, SliceFault};

/// Longer than any result here: U+FFFD for each of 65,536 bytes.
const ROOM: usize = 200_000;

/// Why a call writes nothing: its buffer is shorter than this many bytes, or the outcome with this
/// name.
enum Fault {
    TooShort(usize),
    Other(&'static str),
}

impl From<SliceFault> for Fault {
    fn from(fault: SliceFault) -> Fault {
        match fault {
            SliceFault::TooShort(needed) => Fault::TooShort(needed),
            SliceFault::Invalid => Fault::Other("invalid"),
            SliceFault::TooLong => Fault::Other("too_long"),
        }
    }
}

impl From<WriteSliceFault> for Fault {
    fn from(fault: WriteSliceFault) -> Fault {
        match fault {
            WriteSliceFault::TooShort(needed) => Fault::TooShort(needed),
            WriteSliceFault::TooLong(_) => Fault::Other("too_long"),
        }
    }
}

impl From<ReadSliceFault> for Fault {
    fn from(fault: ReadSliceFault) -> Fault {
        match fault {
            ReadSliceFault::TooShort(needed) => Fault::TooShort(needed),
            ReadSliceFault::Invalid(_) => Fault::Other("invalid"),
            ReadSliceFault::Truncated => Fault::Other("truncated"),
        }
    }
}

/// One of the calls, with its input.
#[derive(Clone, Copy)]
pub enum Call<'a> {
    Codec(Flavor, SliceCall<'a>),
    Write(&'a str),
    Read(&'a [u8]),
    ReadLossy(&'a [u8]),
}

impl<'a> Call<'a> {
    /// The call with this name and this input. `None` if no call has the name, or if it takes a
    /// string and the input is not UTF-8.
    pub fn of(name: &str, flavor: Flavor, bytes: &'a [u8]) -> Option<Call<'a>> {
        let decoder = match name {
            "encode_to_slice" => {
                let text = str::from_utf8(bytes).ok()?;
                return Some(Call::Codec(flavor, SliceCall::Encode(text)));
            }
            "write_utf_to_slice" => return Some(Call::Write(str::from_utf8(bytes).ok()?)),
            "read_utf_to_slice" => return Some(Call::Read(bytes)),
            "read_utf_lossy_to_slice" => return Some(Call::ReadLossy(bytes)),
            "decode_strict_to_slice" => Decoder::Strict,
            "decode_to_slice" => Decoder::Lenient,
            "decode_lossy_strict_to_slice" => Decoder::LossyStrict,
            "decode_lossy_to_slice" => Decoder::LossyLenient,
            _ => return None,
        };
        Some(Call::Codec(flavor, SliceCall::Decode(decoder, bytes)))
    }

    /// Writes to a buffer, and returns the number of bytes written, and the bytes after a Java
    /// string.
    fn write(self, buf: &mut [u8]) -> Result<(usize, Option<&'a [u8]>), Fault> {
        let (len, rest) = match self {
            Call::Codec(flavor, call) => return Ok((call.write(flavor, buf)?, None)),
            Call::Write(text) => return Ok((write_utf_to_slice(text, buf)?, None)),
            Call::Read(bytes) => read_utf_to_slice(bytes, buf)?,
            Call::ReadLossy(bytes) => read_utf_lossy_to_slice(bytes, buf)?,
        };
        Ok((len, Some(rest)))
    }

    /// Makes the call with an empty buffer, so that it returns the needed length, and then with a
    /// buffer of this length. Prints what the buffer then holds, and the bytes after a Java string.
    pub fn make(self, rt: &HostRuntime) -> io::Result<()> {
        let mut room = [0; ROOM];
        let written = match self.write(&mut []) {
            Err(Fault::TooShort(needed)) => match room.get_mut(..needed) {
                Some(buf) => self.write(buf),
                None => Err(Fault::TooShort(needed)),
            },
            other => other,
        };
        match written {
            Ok((len, rest)) => {
                print_outcome(rt, "written", &room[..len.min(ROOM)])?;
                match rest {
                    Some(rest) => print_bytes(rt, rest),
                    None => Ok(()),
                }
            }
            Err(Fault::Other(outcome)) => print_outcome(rt, outcome, &[]),
            Err(Fault::TooShort(_)) => print_outcome(rt, "too_short", &[]),
        }
    }
}
