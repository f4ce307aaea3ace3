//! Makes calls of `simd_cesu8`, `java_text` and `cesu8_stream`, so that `tests/memory.sh` can make
//! each of their allocations fail in turn. It is a program of its own because only a whole
//! process's allocations can be made to fail.
//!
//! Standard input is a line, and then the input of the calls. The line has a number of allocations
//! to make first, and each call with its encoding. The program prints the result of each call, with
//! the bytes that it returned or left in a buffer. Then it makes up to three more allocations, and
//! prints how many succeed before one fails. It makes no others itself.
#![tactic(auto)]

mod calls;
mod faults;
mod prints;
mod slices;
mod streams;

use std::io;
use std::io::{ErrorKind, Read};

/// Longer than any input: 65,536 bytes, a surrogate pair and the line before them.
const ROOM: usize = 67_000;

fn main(rt: HostRuntime) -> io::Result<()> {
    let mut room = [0; ROOM];
    let mut stdin = rt.reader();
    // A file is read at once. Input that comes in pieces is an error, so that it is never cut off.
    let len = stdin.read(&mut room)?;
    let rest = stdin.read(&mut [0])?;
    let input = &room[..len];
    match input.iter().position(|byte| *byte == b'\n') {
        Some(end) if rest == 0 => calls::make_all(&rt, &input[..end], &input[end + 1..]),
        _ => Err(ErrorKind::InvalidInput.into()),
    }
}
