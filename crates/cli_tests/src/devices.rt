//! A reader and a writer that are slow or fail. They allocate nothing. `.ci/shows.sh` copies this
//! file, since the lines `shows:` of edits use it too.

ghost use Rattle.std.specs.Prelude.{◌≡◌, IfOk};

use std::io::{Error, ErrorKind, Read, Result, Write};

/// The number of bytes that a `Writer` can hold.
const SIZE: usize = 16;

/// Returns its bytes, and after them reports the end of input, or an error, at each read.
#[derive(Drop)]
pub struct Reader<'a> {
    rest: &'a [u8],
    most: usize,
    pub error: Option<ErrorKind>,
    /// The number of calls to `read`.
    pub reads: usize,
}

impl<'a> Reader<'a> {
    /// Makes a reader that returns at most `most` bytes a read, and then reports the end.
    pub fn new(bytes: &'a [u8], most: usize) -> Reader<'a> {
        Reader {
            rest: bytes,
            most,
            error: None,
            reads: 0,
        }
    }
}

impl<'a> Read for Reader<'a> {
    fn read(&mut self, buf: &mut [u8]) -> Result<usize> {
        self.reads = self.reads.saturating_add(1);
        let count = self.rest.len().min(buf.len()).min(self.most);
        if count == 0 {
            return ends(self.error);
        }
        buf[..count].copy_from_slice(&self.rest[..count]);
        self.rest = &self.rest[count..];
        Ok(count)
    }
}

/// Holds the bytes that it accepts. When it is full, it fails or accepts nothing. A flush makes it
/// full, since a program flushes once, after all of its output: a later write is a mistake.
#[derive(Drop)]
pub struct Writer {
    bytes: [u8; SIZE],
    len: usize,
    most: usize,
    /// The number of bytes that it accepts in all.
    pub room: usize,
    pub error: Option<ErrorKind>,
    pub flush_error: Option<ErrorKind>,
    /// The numbers of calls to `write` and to `flush`.
    pub writes: usize,
    pub flushes: usize,
}

impl Writer {
    /// Makes a writer that accepts at most `most` bytes a write, and `SIZE` in all.
    pub fn new(most: usize) -> Writer {
        Writer {
            bytes: [0; SIZE],
            len: 0,
            most,
            room: SIZE,
            error: None,
            flush_error: None,
            writes: 0,
            flushes: 0,
        }
    }

    /// The bytes that it accepted.
    pub fn kept(&self) -> &[u8] {
        self.bytes.get(..self.len).unwrap_or(&[])
    }
}

impl Write for Writer {
    fn write(&mut self, buf: &[u8]) -> Result<usize> {
        self.writes = self.writes.saturating_add(1);
        let Some(free) = self.bytes.get_mut(self.len..self.room) else {
            return ends(self.error);
        };
        let count = buf.len().min(free.len()).min(self.most);
        if count == 0 {
            return ends(self.error);
        }
        free[..count].copy_from_slice(&buf[..count]);
        self.len = self.len.saturating_add(count);
        Ok(count)
    }

    fn flush(&mut self) -> Result<()> {
        self.flushes = self.flushes.saturating_add(1);
        self.room = 0;
        match self.flush_error {
            Some(kind) => Err(Error::from(kind)),
            None => Ok(()),
        }
    }
}

/// Fails with this error, or accepts nothing if there is none.
fn ends(error: Option<ErrorKind>) -> Result<usize>
    ensures { IfOk result (λ count. count ≡ 0) }
{
    match error {
        Some(kind) => Err(Error::from(kind)),
        None => Ok(0),
    }
}
