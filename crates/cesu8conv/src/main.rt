//! Converts files and streams of any size between UTF-8, CESU-8 and Modified UTF-8. `cesu8conv_run`
//! has all but the command line.
#![tactic(auto)]

mod command_line;

use crate::command_line::{command_line, commands, flavors, misplaced_lossy, options_of};
use cesu8conv_run::messages::{IO, out_of_memory, say};
use cesu8conv_run::run::run_task;
use clap::{ArgMatches, Command, Error};
use std::env;
use std::process::ExitCode;

fn main(rt: HostRuntime) -> ExitCode {
    ExitCode::from(run(&rt))
}

/// Runs the program, and returns its status.
fn run(rt: &HostRuntime) -> u8 {
    let words: Vec<String> = match env::args(rt) {
        Ok(args) => match args.collect(rt.alloc()) {
            Ok(words) => words,
            Err(_) => return out_of_memory(rt),
        },
        Err(error) => return say(rt, "arguments", &error),
    };
    let commands = commands();
    // `cesu-8` and `mutf-8` are accepted too.
    let flavors = flavors(&["cesu-8"], &["mutf-8"]);
    let Ok(mut line) = command_line(rt.alloc(), &commands, &flavors) else {
        return out_of_memory(rt);
    };
    match line.try_get_matches_from_mut(words.as_slice()) {
        Ok(matches) => run_matches(rt, &mut line, &matches),
        Err(error) => show(rt, &error),
    }
}

/// Prints help, the version, or what is wrong with the command line.
fn show(rt: &HostRuntime, error: &Error) -> u8 {
    if error.kind() == clap::error::ErrorKind::OutOfMemory {
        return out_of_memory(rt);
    }
    match error.print(rt) {
        Ok(()) => u8::try_from(error.exit_code()).unwrap_or(IO),
        Err(error) => say(rt, "standard output", &error),
    }
}

/// Does what the command line asks for.
fn run_matches(rt: &HostRuntime, line: &mut Command<'_>, matches: &ArgMatches<'_>) -> u8 {
    let Some(options) = options_of(matches) else {
        // Here only a `--lossy` that the command does not have can be wrong.
        return match misplaced_lossy(line) {
            Ok(error) => show(rt, &error),
            Err(_) => out_of_memory(rt),
        };
    };
    match matches.get_strs("FILE") {
        Some(names) => run_task(rt, &options, names),
        None => run_task(rt, &options, &["-"]),
    }
}
