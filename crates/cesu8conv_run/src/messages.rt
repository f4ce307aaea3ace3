//! What the program prints about faults, and the status that it ends with.

use crate::conversion::Conversion;
use crate::fault::Fault;
use crate::hex::Hex;
use crate::inputs::{Inputs, line_ends};
use crate::options::Options;
use crate::reason::reason_of;
use crate::target::Target;
use std::io::{self, ErrorKind};

/// The statuses. 2 is that of a wrong command line, which `clap` gives.
pub const DONE: u8 = 0;

pub const DAMAGED: u8 = 1;

pub const MEMORY: u8 = 3;

pub const IO: u8 = 4;

/// Says why a conversion stopped, and returns the status.
///
/// At damage, `window` begins with the bytes from the damage on that were read. `lines` of the
/// inputs counts the line ends in them too.
pub fn explain(
    rt: &HostRuntime,
    conversion: Conversion,
    options: &Options<'_>,
    input: &Inputs<'_>,
    output: &Target<'_>,
    fault: &Fault,
    window: &[u8],
) -> u8 {
    match fault {
        Fault::Damage(offset, ahead) => {
            if !options.is_quiet {
                let ahead = &window[..(*ahead).min(window.len())];
                let _ = say_damage(rt, conversion, input, *offset, ahead);
                let right = output.written;
                // Instead of a regular file only a draft was written, and `give_up` prints that the
                // file is not written. For a device that `--output` names, nothing is printed.
                if options.output.is_none() {
                    let _ = eprintln!(rt; "cesu8conv: {right} bytes of output are right");
                }
            }
            DAMAGED
        }
        Fault::Read(error) => say(rt, input.name(), error),
        Fault::Write(error) => say(rt, output.name, error),
        Fault::Limit => {
            let _ = eprintln!(rt; "cesu8conv: the input is too long");
            IO
        }
    }
}

/// Prints the line for damage: file, line, offset, bytes and reason.
fn say_damage(
    rt: &HostRuntime,
    conversion: Conversion,
    input: &Inputs<'_>,
    offset: u64,
    ahead: &[u8],
) -> io::Result<()> {
    let (name, start) = input.file_at(offset);
    let before = input.lines().saturating_sub(line_ends(ahead) as u64);
    let line = before.saturating_sub(start.lines).saturating_add(1);
    let at = offset.saturating_sub(start.offset);
    let reason = reason_of(conversion, ahead);
    let bytes = Hex(&ahead[..reason.shown.min(ahead.len())]);
    let text = reason.text;
    eprintln!(rt; "cesu8conv: {name}:{line}: byte {at}: {bytes}: {text}")
}

/// Says what failed, with the system's message, and returns the status. It prints nothing for a
/// broken pipe: the program that reads the output has ended.
pub fn say(rt: &HostRuntime, name: &str, error: &io::Error) -> u8 {
    match error.kind() {
        ErrorKind::BrokenPipe => IO,
        ErrorKind::OutOfMemory => out_of_memory(rt),
        _ => {
            let _ = eprintln!(rt; "cesu8conv: {name}: {error}");
            IO
        }
    }
}

pub fn out_of_memory(rt: &HostRuntime) -> u8 {
    let _ = rt.eprintln("cesu8conv: out of memory");
    MEMORY
}
