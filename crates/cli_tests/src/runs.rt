//! Runs of the program, each with what is expected of it.

use crate::devices::{Reader, Writer};
use crate::error_kinds::KINDS;
use crate::rows::*;
use cesu8_cli_run::fault::{RunFault, fault_line, fault_status};
use cesu8_cli_run::run::run;
use std::alloc::Global;
use std::io::ErrorKind;
use std::process::Abort;

/// No limit on the bytes of one call.
const WHOLE: usize = usize::MAX;

/// The exit status, the line on standard error, and the numbers of reads, writes and flushes.
type Seen = (Shown, [usize; 3]);

/// The arguments and the input of a row, the error and the number of bytes that its devices were
/// made with, and what was seen of the run.
type Difference = (Words, &'static [u8], Option<ErrorKind>, usize, Seen);

/// Runs the program, and returns what was seen if it, or what the writer holds, is not as expected.
fn difference(
    alloc: Global,
    words: &[&str],
    mut input: Reader<'_>,
    mut output: Writer,
    wanted: (Seen, &[u8]),
) -> Option<Seen> {
    let shown = shown(run(alloc, words, &mut input, &mut output));
    let seen = (shown, [input.reads, output.writes, output.flushes]);
    if (seen, output.kept()) == wanted {
        None
    } else {
        Some(seen)
    }
}

fn shown(ended: Result<(), RunFault>) -> Shown {
    match ended {
        Ok(()) => DONE,
        Err(fault) => (fault_status(&fault), fault_line(&fault)),
    }
}

/// What is expected if each call reads or writes at most `most` bytes, and no read or write fails.
/// After the output the flush ends the run.
fn wanted(bytes: &[u8], end: End, most: usize, flushed: Shown) -> (Seen, &'static [u8]) {
    let reads = calls_to_end(bytes.len(), most);
    match end {
        Ok(written) => ((flushed, [reads, calls(written.len(), most), 1]), written),
        Err(fault) if is_usage(end) => ((fault, [0, 0, 0]), b""),
        Err(fault) => ((fault, [reads, 0, 0]), b""),
    }
}

/// Whether the arguments are no command, so that nothing is read.
fn is_usage(end: End) -> bool {
    matches!(end, Err((2, _)))
}

/// The number of calls that `len` bytes take.
fn calls(len: usize, most: usize) -> usize {
    if most == 0 { 0 } else { len.div_ceil(most) }
}

/// The number of calls that `len` bytes take, and one more, which reports the end or fails.
fn calls_to_end(len: usize, most: usize) -> usize {
    calls(len, most).saturating_add(1)
}

/// The first `len` bytes.
fn front(bytes: &[u8], len: usize) -> &[u8] {
    bytes.get(..len).unwrap_or(&[])
}

/// The first row with another result, in calls of at most `most` bytes. If there is an error, the
/// flush fails with it.
fn difference_at_rows(alloc: Global, most: usize, error: Option<ErrorKind>) -> Option<Difference> {
    let flushed = if error.is_some() { FAILED } else { DONE };
    for (words, bytes, end) in &ROWS {
        let mut output = Writer::new(most);
        output.flush_error = error;
        let wanted = wanted(bytes, *end, most, flushed);
        if let Some(seen) = difference(alloc, words, Reader::new(bytes, most), output, wanted) {
            return Some((words, bytes, error, most, seen));
        }
    }
    None
}

/// Asserts that nothing differs.
fn assert_same(rt: &impl Abort, difference: Option<Difference>) {
    assert_eq!(rt; difference, None);
}

#[test]
fn ends_as_each_row_says(rt: HostRuntime) {
    for most in [1, 2, 3, WHOLE] {
        assert_same(&rt, difference_at_rows(rt.alloc(), most, None));
    }
}

#[test]
fn stops_at_a_failed_flush(rt: HostRuntime) {
    for kind in &KINDS {
        assert_same(&rt, difference_at_rows(rt.alloc(), WHOLE, Some(*kind)));
    }
}

/// Each byte of a part of a surrogate pair is replaced by U+FFFD, or the part is rejected.
fn difference_at_part(alloc: Global, part: &[u8]) -> Option<Seen> {
    let marks = front(MARKS, part.len().saturating_mul(3));
    for (words, is_lossy) in &STRICT {
        let wanted = if *is_lossy {
            ((DONE, [2, 1, 1]), marks)
        } else {
            wanted(part, INVALID, WHOLE, DONE)
        };
        let input = Reader::new(part, WHOLE);
        let difference = difference(alloc, words, input, Writer::new(WHOLE), wanted);
        if difference.is_some() {
            return difference;
        }
    }
    None
}

/// A surrogate pair is cut in two at each offset.
#[test]
fn decodes_no_part_of_a_pair(rt: HostRuntime) {
    for at in 1..PAIR.len() {
        let (front, back) = PAIR.split_at(at);
        let difference = difference_at_part(rt.alloc(), front);
        assert_eq!(rt; difference.or(difference_at_part(rt.alloc(), back)), None);
    }
}

/// The input is 32,768 nulls. They take two reads, since the program reads at most 16,384 bytes at
/// once, and a third read reports the end. Their MUTF-8 is one byte longer than a Java string can
/// be.
#[test]
fn says_how_long_a_text_is(rt: HostRuntime) {
    let nulls = [0; 32768];
    let mut input = Reader::new(&nulls, WHOLE);
    let mut output = Writer::new(WHOLE);
    let ended = run(
        rt.alloc(),
        &["java-write", "mutf8"],
        &mut input,
        &mut output,
    );
    let len = match ended {
        Err(RunFault::TooLong(len)) => len,
        _ => 0,
    };
    assert_eq!(rt; (len, input.reads, output.writes), (65536, 3, 0));
}

#[test]
fn shows_faults_of_no_row(rt: HostRuntime) {
    let shown = (
        shown(Err(RunFault::Memory)),
        shown(Err(RunFault::TooLong(65536))),
    );
    assert_eq!(rt; shown, (OUT_OF_MEMORY, TOO_LONG));
}

/// The read fails at the start, after each byte or at the end. It is then the last, and nothing is
/// written.
fn difference_at_reads(alloc: Global, error: Option<ErrorKind>) -> Option<Difference> {
    for (words, bytes, end) in &ROWS {
        if is_usage(*end) {
            continue;
        }
        for at in 0..=bytes.len() {
            for most in [1, WHOLE] {
                let mut input = Reader::new(front(bytes, at), most);
                input.error = error;
                let wanted = ((FAILED, [calls_to_end(at, most), 0, 0]), b"".as_slice());
                if let Some(seen) = difference(alloc, words, input, Writer::new(most), wanted) {
                    return Some((words, bytes, error, at, seen));
                }
            }
        }
    }
    None
}

#[test]
fn stops_at_a_failed_read(rt: HostRuntime) {
    for kind in &KINDS {
        assert_same(&rt, difference_at_reads(rt.alloc(), Some(*kind)));
    }
}

/// The write at each offset of the output fails or accepts nothing. It is then the last, and there
/// is no flush.
fn difference_at_writes(alloc: Global, error: Option<ErrorKind>) -> Option<Difference> {
    for (words, bytes, end) in &ROWS {
        let written = end.unwrap_or(&[]);
        for at in 0..written.len() {
            for most in [1, WHOLE] {
                let input = Reader::new(bytes, WHOLE);
                let mut output = Writer::new(most);
                output.room = at;
                output.error = error;
                let calls = [calls_to_end(bytes.len(), WHOLE), calls_to_end(at, most), 0];
                let wanted = ((FAILED, calls), front(written, at));
                if let Some(seen) = difference(alloc, words, input, output, wanted) {
                    return Some((words, bytes, error, at, seen));
                }
            }
        }
    }
    None
}

#[test]
fn stops_where_nothing_is_accepted(rt: HostRuntime) {
    assert_same(&rt, difference_at_writes(rt.alloc(), None));
}

#[test]
fn stops_at_a_failed_write(rt: HostRuntime) {
    for kind in &KINDS {
        assert_same(&rt, difference_at_writes(rt.alloc(), Some(*kind)));
    }
}
