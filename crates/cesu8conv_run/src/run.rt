//! One run of the program, with the files that its options name.

use crate::conversion::{Conversion, FlavorWord};
use crate::convert::convert;
use crate::fault::Fault;
use crate::inputs::Inputs;
use crate::listing::{Listing, Nowhere};
use crate::messages::{DAMAGED, DONE, IO, explain, out_of_memory, say};
use crate::options::{Options, Task};
use crate::progress::Progress;
use crate::target::Target;
use crate::watch::Tally;
use std::fs;
use std::io::IsTerminal;

/// The sizes of the two buffers: of what is read, and of what is written. The encoding of a full
/// window always fits: it is at most twice as long. `tests/cesu8conv.py` names the first too.
const WINDOW: usize = 65536;

const ROOM: usize = 131072;

/// If the files have more bytes than this, progress is shown at a terminal even without
/// `--progress`, unless `--quiet` is given.
const LARGE: u64 = 100_000_000;

/// Does a task on files, in two buffers, and returns the status.
pub fn run_task(rt: &HostRuntime, options: &Options<'_>, names: &[&str]) -> u8 {
    let (Ok(mut window), Ok(mut room)) = (
        vec![in rt.alloc(); 0u8; WINDOW],
        vec![in rt.alloc(); 0u8; ROOM],
    ) else {
        return out_of_memory(rt);
    };
    match options.task {
        Task::Convert(conversion) => {
            run_conversion(rt, conversion, options, names, &mut window, &mut room)
        }
        Task::Check(flavor) => check_all(rt, flavor, options, names, &mut window, &mut room),
    }
}

/// Converts the files, and says what was wrong.
fn run_conversion(
    rt: &HostRuntime,
    conversion: Conversion,
    options: &Options<'_>,
    names: &[&str],
    window: &mut [u8],
    room: &mut [u8],
) -> u8 {
    let mut output = match Target::open(rt, options.output) {
        Ok(output) => output,
        Err(error) => return say(rt, options.output.unwrap_or("standard output"), &error),
    };
    let mut input = Inputs::new(rt, names, progress(rt, options, names));
    convert_files(
        rt,
        conversion,
        options,
        &mut input,
        &mut output,
        window,
        room,
    )
}

/// Converts the input to the output, and says what was wrong.
fn convert_files(
    rt: &HostRuntime,
    conversion: Conversion,
    options: &Options<'_>,
    input: &mut Inputs<'_>,
    output: &mut Target<'_>,
    window: &mut [u8],
    room: &mut [u8],
) -> u8 {
    let mut tally = Tally::new();
    let result = convert(conversion, input, output, window, room, &mut tally);
    input.end_progress();
    match result {
        Ok(()) => finish(rt, options, input, output, tally),
        Err(fault) => {
            let status = explain(rt, conversion, options, input, output, &fault, window);
            give_up(rt, options, output, status);
            status
        }
    }
}

/// Leaves the old file in place of the output, and says so if damage is the reason.
fn give_up(rt: &HostRuntime, options: &Options<'_>, output: &Target<'_>, status: u8) {
    if output.give_up(rt) && status == DAMAGED && !options.is_quiet {
        let target = output.name;
        let _ = eprintln!(rt; "cesu8conv: {target}: not written");
    }
}

/// Ends a conversion that reached the end of its input.
fn finish(
    rt: &HostRuntime,
    options: &Options<'_>,
    input: &Inputs<'_>,
    output: &Target<'_>,
    tally: Tally,
) -> u8 {
    if let Err(error) = output.finish(rt) {
        return say(rt, output.name, &error);
    }
    if tally.replaced == 0 {
        return DONE;
    }
    if !options.is_quiet {
        let (name, start) = input.file_at(tally.first);
        let at = tally.first.saturating_sub(start.offset);
        let replaced = tally.replaced;
        let _ = eprintln!(rt;
            "cesu8conv: replaced {replaced} bytes by U+FFFD, the first at {name}: byte {at}"
        );
    }
    if options.fails_on_damage {
        DAMAGED
    } else {
        DONE
    }
}

/// Lists the damage of each file.
fn check_all(
    rt: &HostRuntime,
    flavor: FlavorWord,
    options: &Options<'_>,
    names: &[&str],
    window: &mut [u8],
    room: &mut [u8],
) -> u8 {
    let mut status = DONE;
    for name in names {
        let listed = if names.len() > 1 { Some(*name) } else { None };
        match check_one(rt, flavor, options, &[*name], listed, window, room) {
            DONE => {}
            DAMAGED => status = DAMAGED,
            failed => return failed,
        }
    }
    status
}

/// Lists the damage of one file, with its name if there are several.
fn check_one(
    rt: &HostRuntime,
    flavor: FlavorWord,
    options: &Options<'_>,
    names: &[&str],
    listed: Option<&str>,
    window: &mut [u8],
    room: &mut [u8],
) -> u8 {
    let Ok(mut listing) = Listing::new(rt, listed) else {
        return out_of_memory(rt);
    };
    let mut input = Inputs::new(rt, names, progress(rt, options, names));
    list_damage(rt, flavor, &mut input, &mut listing, window, room)
}

/// Lists the damage of the input.
fn list_damage(
    rt: &HostRuntime,
    flavor: FlavorWord,
    input: &mut Inputs<'_>,
    listing: &mut Listing<'_>,
    window: &mut [u8],
    room: &mut [u8],
) -> u8 {
    let conversion = Conversion::Lossy(flavor);
    let result = convert(conversion, input, &mut Nowhere, window, room, listing);
    input.end_progress();
    match result {
        Ok(()) => end_listing(rt, listing),
        Err(fault) => {
            let _ = listing.finish();
            match fault {
                Fault::Read(error) => say(rt, input.name(), &error),
                // No other fault occurs: `Nowhere` accepts all bytes, `Lossy` replaces damage, and
                // the buffers are long enough.
                _ => IO,
            }
        }
    }
}

/// Prints the rest of the list, and returns the status.
fn end_listing(rt: &HostRuntime, listing: &mut Listing<'_>) -> u8 {
    match listing.finish() {
        Ok(()) => if listing.is_damaged { DAMAGED } else { DONE },
        Err(error) => say(rt, "standard output", &error),
    }
}

/// What shows progress: if asked for, or by itself for large files at a terminal.
fn progress<'a>(
    rt: &'a HostRuntime,
    options: &Options<'_>,
    names: &[&str],
) -> Option<Progress<'a>> {
    let total = total_of(rt, names);
    let is_shown = options.shows_progress
        || (total > LARGE && !options.is_quiet && rt.stderr().is_terminal());
    if !is_shown {
        return None;
    }
    Progress::new(rt, total).ok()
}

/// How many bytes the files have, or 0 if one is no regular file.
fn total_of(rt: &HostRuntime, names: &[&str]) -> u64 {
    let mut total = 0u64;
    for name in names {
        match fs::metadata(rt, *name) {
            Ok(metadata) => {
                if !metadata.is_file() {
                    return 0;
                }
                total = total.saturating_add(metadata.len());
            }
            Err(_) => return 0,
        }
    }
    total
}
