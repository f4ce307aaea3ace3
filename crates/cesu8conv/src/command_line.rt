//! The definition of the command line, and the options that it has.

use cesu8conv_run::conversion::{Conversion, FlavorWord};
use cesu8conv_run::options::{Options, Task};
use clap::builder::{PossibleValue, ValueParser};
use clap::error::ErrorKind;
use clap::{Arg, ArgAction, ArgMatches, Command, Error};
use std::alloc::{AllocError, Global};

/// The version that `--version` prints: that of the file VERSION, as `tests/cesu8conv.sh` tests.
const VERSION: &str = "1.0.0";

/// The commands, with what help says of them.
pub fn commands<'a>() -> [PossibleValue<'a>; 5] {
    [
        PossibleValue::new("encode").help("UTF-8 to the encoding"),
        PossibleValue::new("decode").help("the encoding to UTF-8; stops at damage"),
        PossibleValue::new("lossy").help("the same, with U+FFFD for each damaged byte"),
        PossibleValue::new("mixed").help(
            "the encoding mixed with UTF-8, to UTF-8; stops at damage",
        ),
        PossibleValue::new("check").help("lists what is damaged in the encoding"),
    ]
}

/// The encodings, with what help says of them, and other words for each, which `main.rt` gives.
pub fn flavors<'a>(cesu8: &'a [&'a str], mutf8: &'a [&'a str]) -> [PossibleValue<'a>; 2] {
    [
        PossibleValue::new("cesu8").help("CESU-8").aliases(cesu8),
        PossibleValue::new("mutf8")
            .help("Modified UTF-8, as Java writes it")
            .aliases(mutf8),
    ]
}

/// The definition of the command line.
pub fn command_line<'a>(
    alloc: Global,
    commands: &'a [PossibleValue<'a>],
    flavors: &'a [PossibleValue<'a>],
) -> Result<Command<'a>, AllocError> {
    let line = Command::new(alloc, "cesu8conv")
        .version(VERSION)
        .about("Converts files and streams of any size between UTF-8, CESU-8 and Modified UTF-8.")
        .after_help(AFTER_HELP)
        .arg(one_of(alloc, "COMMAND", "What to do", commands))?
        .arg(one_of(alloc, "FLAVOR", "The encoding", flavors))?
        .arg(files(alloc))?
        .arg(output(alloc))?;
    line.arg(flag(
        alloc,
        "lossy",
        "With mixed: write U+FFFD for each damaged byte",
    ))?
    .arg(flag(
        alloc,
        "fail-on-damage",
        "End with status 1 if bytes were replaced",
    ))?
    .arg(flag(alloc, "quiet", "Print no messages about damage").short('q'))?
    .arg(flag(alloc, "progress", "Show progress on standard error"))
}

const AFTER_HELP: &str =
    "Without FILE, or if FILE is -, it reads standard input. Several files are read as one, one after the other.\n\nStatus: 0 done, 1 damage, 2 usage, 3 out of memory, 4 a read or a write failed";

fn one_of<'a>(
    alloc: Global,
    id: &'a str,
    help: &'a str,
    values: &'a [PossibleValue<'a>],
) -> Arg<'a> {
    Arg::new(alloc, id)
        .required(true)
        .ignore_case(true)
        .value_parser(ValueParser::Values(values))
        .help(help)
}

fn files<'a>(alloc: Global) -> Arg<'a> {
    Arg::new(alloc, "FILE")
        .action(ArgAction::Append)
        .num_args(0..)
        .help("The files to read")
}

fn output<'a>(alloc: Global) -> Arg<'a> {
    Arg::new(alloc, "output")
        .short('o')
        .long("output")
        .value_name("FILE")
        .help("Write to FILE. It is replaced at the end, if all went well")
}

fn flag<'a>(alloc: Global, name: &'a str, help: &'a str) -> Arg<'a> {
    Arg::new(alloc, name)
        .long(name)
        .action(ArgAction::SetTrue)
        .help(help)
}

/// Returns the options of the matches, or `None` if there is a `--lossy` that the command does not
/// have. The command line already requires COMMAND and FLAVOR. The caller reads FILE.
pub fn options_of<'a>(matches: &ArgMatches<'a>) -> Option<Options<'a>> {
    let flavor = flavor_of(matches.get_str("FLAVOR")?);
    Some(Options {
        task: task_of(
            matches.get_str("COMMAND")?,
            flavor,
            matches.get_flag("lossy"),
        )?,
        output: matches.get_str("output"),
        is_quiet: matches.get_flag("quiet"),
        fails_on_damage: matches.get_flag("fail-on-damage"),
        shows_progress: matches.get_flag("progress"),
    })
}

/// The encoding of a word that the command line accepts: only the words for CESU-8 begin with `c`,
/// and this is true of the words from `main.rt` too.
fn flavor_of(word: &str) -> FlavorWord {
    match word.as_bytes() {
        [b'c' | b'C', ..] => FlavorWord::Cesu8,
        _ => FlavorWord::Mutf8,
    }
}

/// The task of a command, or `None` if `--lossy` is given and the command does not have it. The
/// first letters of the commands differ. The command line accepts no other words, so a word that
/// begins with none of the four letters in the match is `check`.
fn task_of(word: &str, flavor: FlavorWord, is_lossy: bool) -> Option<Task> {
    let conversion = match (word.as_bytes(), is_lossy) {
        ([b'e' | b'E', ..], false) => Conversion::Encode(flavor),
        ([b'd' | b'D', ..], false) => Conversion::Decode(flavor),
        ([b'l' | b'L', ..], false) => Conversion::Lossy(flavor),
        ([b'm' | b'M', ..], false) => Conversion::Mixed(flavor),
        ([b'm' | b'M', ..], true) => Conversion::MixedLossy(flavor),
        (_, false) => return Some(Task::Check(flavor)),
        (_, true) => return None,
    };
    Some(Task::Convert(conversion))
}

/// The error for a `--lossy` that the command does not have.
pub fn misplaced_lossy(line: &mut Command<'_>) -> Result<Error, AllocError> {
    line.error(
        ErrorKind::ArgumentConflict,
        "--lossy goes with the command mixed; the command lossy needs none",
    )
}
