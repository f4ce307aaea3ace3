//! The repair of damaged logs, and files of Java strings.

use crate::asserts::{assert_of, is_bytes};
use std::alloc::Global;
use uses::{copy_strings, repair_log, rewrite_log};

/// A log, its text, and whether it is damaged.
type Log = (&'static [u8], &'static str, bool);

static LOGS: [Log; 5] = [
    (b"", "", false),
    (b"one\ntwo\n", "one\ntwo\n", false),
    (b"\xED\xA0\xBD\xED\xB2\x96\n", "\u{1F496}\n", false),
    // U+FFFD in the input, from an earlier repair, is a character and no damage.
    (b"\xEF\xBF\xBD\n", "\u{FFFD}\n", false),
    (
        b"one\n\xED\xA0\xBDtwo\n",
        "one\n\u{FFFD}\u{FFFD}\u{FFFD}two\n",
        true,
    ),
];

/// Whether the log is repaired, and reported as damaged if it is.
fn is_repaired(alloc: Global, log: &[u8], want: &str, is_damaged: bool) -> bool {
    match repair_log(alloc, log) {
        Ok(repaired) => repaired.text.as_str() == want && repaired.is_damaged == is_damaged,
        Err(_) => false,
    }
}

#[test]
fn repairs_logs(rt: HostRuntime) {
    for log in &LOGS {
        assert_of(&rt, is_repaired(rt.alloc(), log.0, log.1, log.2), log);
    }
}

/// A log, and the rewritten log.
type Rewritten = (&'static [u8], &'static [u8]);

static REWRITTEN: [Rewritten; 4] = [
    (b"one\ntwo\n", b"one\ntwo\n"),
    (b"\xED\xA0\xBD\xED\xB2\x96", b"\xED\xA0\xBD\xED\xB2\x96"),
    (b"\xEF\xBF\xBD\n", b"\xEF\xBF\xBD\n"),
    (b"one\n\xE2\x82two", b"one\n\xEF\xBF\xBD\xEF\xBF\xBDtwo"),
];

/// Whether a log has no damage.
fn is_whole(alloc: Global, log: &[u8]) -> bool {
    match repair_log(alloc, log) {
        Ok(repaired) => !repaired.is_damaged,
        Err(_) => false,
    }
}

#[test]
fn rewrites_logs(rt: HostRuntime) {
    for row in &REWRITTEN {
        let is_rewritten = is_bytes(rewrite_log(rt.alloc(), row.0), row.1);
        assert_of(&rt, is_rewritten && is_whole(rt.alloc(), row.1), row);
    }
}

/// A source, and how many strings it has, if it is not damaged.
type Source = (&'static [u8], Option<usize>);

static SOURCES: [Source; 6] = [
    (b"", Some(0)),
    (b"\x00\x00", Some(1)),
    (b"\x00\x01A\x00\x02\xC0\x80", Some(2)),
    (b"\x00\x00\x00\x06\xED\xA0\xBD\xED\xB2\x96\x00\x00", Some(3)),
    (b"\x00\x01A\x00\x01\x00", None),
    (b"\x00\x01A\x00", None),
];

/// Whether all strings of a source are copied to the end of a target of two bytes, or none if the
/// source is damaged.
fn is_copied(alloc: Global, source: &Source) -> bool {
    let Ok(mut target) = Vec::from_slice(alloc, b"\x01\x02") else {
        return false;
    };
    let copied = copy_strings(alloc, source.0, &mut target).ok();
    let appended = target.as_slice().strip_prefix(b"\x01\x02");
    let due = if copied.is_some() { source.0 } else { b"" };
    copied == source.1 && appended == Some(due)
}

#[test]
fn copies_all_strings_or_none(rt: HostRuntime) {
    for source in &SOURCES {
        assert_of(&rt, is_copied(rt.alloc(), source), source);
    }
}
