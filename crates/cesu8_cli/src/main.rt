//! Converts between UTF-8, CESU-8 and Modified UTF-8, from standard input to standard output.
//! `cesu8_cli_run` has all but the arguments and the streams.
#![tactic(auto)]

use cesu8_cli_run::fault::{RunFault, fault_line, fault_status};
use cesu8_cli_run::run::run;
use std::process::ExitCode;
use std::{env, io};

fn main(rt: HostRuntime) -> ExitCode {
    match run_words(&rt) {
        Ok(()) => ExitCode::SUCCESS,
        Err(fault) => {
            // If the line can't be written, the exit status is the same.
            let _ = rt.eprintln(fault_line(&fault));
            ExitCode::from(fault_status(&fault))
        }
    }
}

/// Passes the arguments to `run`. If there is no memory for them, this counts as a failed read, as
/// docs/PROGRAM.md says of status 4: `Memory` is only for what `run` allocates.
fn run_words(rt: &HostRuntime) -> Result<(), RunFault> {
    let arguments = arguments(rt)?;
    let mut words = Vec::new(rt.alloc());
    for argument in &arguments {
        if words.push(argument.as_str()).is_err() {
            return Err(RunFault::Io);
        }
    }
    run(
        rt.alloc(),
        words.as_slice(),
        &mut rt.reader(),
        &mut io::writer(rt),
    )
}

/// Returns the arguments after the program's name. If one is not UTF-8, or there is no memory for
/// them, this counts as a failed read.
fn arguments(rt: &HostRuntime) -> Result<Vec<String>, RunFault> {
    let Ok(all) = env::args(rt) else {
        return Err(RunFault::Io);
    };
    let mut arguments = Vec::new(rt.alloc());
    for argument in all.skip(1) {
        if arguments.push(argument).is_err() {
            return Err(RunFault::Io);
        }
    }
    Ok(arguments)
}
