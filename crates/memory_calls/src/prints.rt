//! How the result of a call is printed: its outcome on a line, and its bytes on the next. The bytes
//! are printed as they are, since `tests/memory.sh` compares the output as a whole.

use std::io;
use std::io::Write;

/// Prints the outcome of a call, and its bytes on a line of their own.
pub fn print_outcome(rt: &HostRuntime, outcome: &str, bytes: &[u8]) -> io::Result<()> {
    println!(rt; "{outcome}")?;
    print_bytes(rt, bytes)
}

/// Prints bytes on a line of their own.
pub fn print_bytes(rt: &HostRuntime, bytes: &[u8]) -> io::Result<()> {
    let mut stdout = io::writer(rt);
    stdout.write_all(bytes)?;
    stdout.write_all(b"\n")
}

/// Prints a length as the outcome.
pub fn print_length(rt: &HostRuntime, len: Option<usize>) -> io::Result<()> {
    match len {
        Some(len) => {
            println!(rt; "{len}")?;
            print_bytes(rt, &[])
        }
        None => print_outcome(rt, "none", &[]),
    }
}

/// Returns the outcome of a call that answers a question.
pub fn yes_or_no(fact: bool) -> &'static str {
    if fact { "yes" } else { "no" }
}
