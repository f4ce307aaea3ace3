//! A table of commands and inputs, with the output or the error of each.

/// The arguments.
pub type Words = &'static [&'static str];

/// The status and the line on standard error.
pub type Shown = (u8, &'static str);

/// What is written, or the error. Nothing is written after an error.
pub type End = Result<&'static [u8], Shown>;

pub const DONE: Shown = (0, "");

pub const TOO_LONG: Shown = (1, "cesu8: text is too long");

pub const OUT_OF_MEMORY: Shown = (3, "cesu8: out of memory");

pub const FAILED: Shown = (4, "cesu8: input or output failed");

pub const INVALID: End = Err((1, "cesu8: invalid input"));

pub const NOT_UTF8: End = Err((1, "cesu8: input is not UTF-8"));

pub const TRUNCATED: End = Err((1, "cesu8: input is truncated"));

pub const TRAILING: End = Err((1, "cesu8: bytes after the string"));

pub const USAGE: End = Err((2, "usage: cesu8_cli COMMAND FLAVOR"));

/// U+1F496 as a surrogate pair.
pub const PAIR: [u8; 6] = *b"\xED\xA0\xBD\xED\xB2\x96";

/// U+1F496 in UTF-8.
pub const HEART: &[u8] = b"\xF0\x9F\x92\x96";

/// U+FFFD in UTF-8, five times.
pub const MARKS: &[u8] = b"\xEF\xBF\xBD\xEF\xBF\xBD\xEF\xBF\xBD\xEF\xBF\xBD\xEF\xBF\xBD";

/// The arguments, the input, and how the run ends. It is a static: a constant would be copied to
/// each function that names it, and each proof would take much longer.
pub static ROWS: [(Words, &[u8], End); 34] = [
    (&["encode", "cesu8"], b"", Ok(b"")),
    (
        &["encode", "cesu8"],
        b"a\xF4\x8F\xBF\xBF",
        Ok(b"a\xED\xAF\xBF\xED\xBF\xBF"),
    ),
    (&["encode", "cesu8"], b"\xC8\x85", Ok(b"\xC8\x85")),
    (&["encode", "cesu8"], b"a\x00", Ok(b"a\x00")),
    (&["encode", "cesu8"], b"\xFF", NOT_UTF8),
    (&["encode", "cesu8"], b"\xED\xA0\xBD", NOT_UTF8),
    (&["encode", "mutf8"], b"a\x00", Ok(b"a\xC0\x80")),
    (&["encode", "mutf8"], b"\xFF", NOT_UTF8),
    (&["needs", "cesu8"], b"\x00", Ok(b"no\n")),
    (&["needs", "mutf8"], b"\x00", Ok(b"yes\n")),
    (&["decode", "cesu8"], HEART, Ok(HEART)),
    (
        &["decode", "cesu8"],
        b"\xF0\x9F\x92\x96\xED\xA0\xBD\xED\xB2\x96",
        INVALID,
    ),
    (&["decode", "mutf8"], b"A\x00B", Ok(b"A\x00B")),
    (&["decode", "mutf8"], b"\x00\xC0\x80", INVALID),
    (&["decode-strict", "cesu8"], &PAIR, Ok(HEART)),
    (&["decode-strict", "cesu8"], b"\x00", Ok(b"\x00")),
    (&["decode-strict", "cesu8"], HEART, INVALID),
    (&["decode-strict", "mutf8"], b"\xC0\x80", Ok(b"\x00")),
    (&["decode-strict", "mutf8"], b"\x00", INVALID),
    (&["decode-strict", "mutf8"], b"A\x00", INVALID),
    (&["lossy", "cesu8"], b"\xF0\x9F\x92\x96\xFF", Ok(MARKS)),
    (
        &["lossy", "mutf8"],
        b"\x00\xC0\x80",
        Ok(b"\xEF\xBF\xBD\x00"),
    ),
    (
        &["lossy-strict", "cesu8"],
        b"\xC0\xC0\x80",
        Ok(b"\xEF\xBF\xBD\xEF\xBF\xBD\xEF\xBF\xBD"),
    ),
    (
        &["lossy-strict", "mutf8"],
        b"\xC0\xC0\x80",
        Ok(b"\xEF\xBF\xBD\x00"),
    ),
    (&["java-write", "mutf8"], b"a\x00", Ok(b"\x00\x03a\xC0\x80")),
    (&["java-write", "mutf8"], b"", Ok(b"\x00\x00")),
    (&["java-write", "mutf8"], b"\xFF", NOT_UTF8),
    (&["java-read", "mutf8"], b"\x00\x02\xC0\x80", Ok(b"\x00")),
    (&["java-read", "mutf8"], b"\x00", TRUNCATED),
    (&["java-read", "mutf8"], b"\x00\x01\x00B", INVALID),
    (&["java-read", "mutf8"], b"\x00\x01AB", TRAILING),
    (&["java-write", "cesu8"], b"a", USAGE),
    (&["encode", "utf9"], b"a", USAGE),
    (&["encode"], b"a", USAGE),
];

/// The commands that accept only the encoding, and whether they replace damage.
pub static STRICT: [(Words, bool); 4] = [
    (&["lossy-strict", "cesu8"], true),
    (&["lossy-strict", "mutf8"], true),
    (&["decode-strict", "cesu8"], false),
    (&["decode-strict", "mutf8"], false),
];
