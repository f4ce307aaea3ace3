//! The files of the command line as one input, one after the other.

use crate::progress::Progress;
use std::fs::{self, File};
use std::io::{self, Read};
use std::rt::Stdin;
use std::simd::cmp::SimdPartialEq;
use std::simd::u8x32;

/// Where a file begins in the input.
#[derive(Clone, Copy)]
pub struct Start {
    /// How many bytes are in the files before it.
    pub offset: u64,
    /// How many line ends are in them.
    pub lines: u64,
}

/// A file, or standard input.
#[derive(Drop)]
enum Source {
    File(File),
    Stdin(Stdin),
}

impl Read for Source {
    fn read(&mut self, buf: &mut [u8]) -> io::Result<usize> {
        match self {
            Source::File(file) => file.read(buf),
            Source::Stdin(stdin) => stdin.read(buf),
        }
    }
}

/// The files, of which one is open at a time.
#[derive(Drop)]
pub struct Inputs<'a> {
    rt: &'a HostRuntime,
    names: &'a [&'a str],
    source: Option<Source>,
    /// Where the files that were opened so far begin.
    starts: Vec<Start>,
    /// How many bytes were read, and how many line ends are in them.
    offset: u64,
    lines: u64,
    progress: Option<Progress<'a>>,
}

impl<'a> Inputs<'a> {
    /// The input that is these files, one after the other.
    pub fn new(
        rt: &'a HostRuntime,
        names: &'a [&'a str],
        progress: Option<Progress<'a>>,
    ) -> Inputs<'a> {
        Inputs {
            rt,
            names,
            source: None,
            starts: Vec::new(rt.alloc()),
            offset: 0,
            lines: 0,
            progress,
        }
    }

    /// The name of the file that was opened last.
    pub fn name(&self) -> &'a str {
        name_at(self.names, self.starts.len().saturating_sub(1))
    }

    /// How many line ends were read.
    pub fn lines(&self) -> u64 {
        self.lines
    }

    /// The file to which this offset of the input belongs, and where that file begins.
    pub fn file_at(&self, offset: u64) -> (&'a str, Start) {
        let mut found = 0;
        let mut start = Start {
            offset: 0,
            lines: 0,
        };
        for (i, other) in self.starts.iter().enumerate() {
            if other.offset <= offset {
                found = i;
                start = *other;
            }
        }
        (name_at(self.names, found), start)
    }

    /// Removes the line that shows progress.
    pub fn end_progress(&mut self) {
        if let Some(progress) = &mut self.progress {
            progress.end();
        }
    }

    /// Opens the next file. It returns false if there is none.
    fn open_next(&mut self) -> io::Result<bool> {
        let index = self.starts.len();
        if index >= self.names.len() {
            return Ok(false);
        }
        let start = Start {
            offset: self.offset,
            lines: self.lines,
        };
        // From here on, `name` is this file's.
        if self.starts.push(start).is_err() {
            return Err(io::Error::from(io::ErrorKind::OutOfMemory));
        }
        let name = self.names[index];
        self.source = Some(if name == "-" {
            Source::Stdin(self.rt.stdin())
        } else {
            Source::File(fs::open(self.rt, name)?)
        });
        Ok(true)
    }

    /// Counts what was read.
    fn note(&mut self, bytes: &[u8]) {
        self.offset = self.offset.saturating_add(bytes.len() as u64);
        self.lines = self.lines.saturating_add(line_ends(bytes) as u64);
        if let Some(progress) = &mut self.progress {
            progress.show(self.offset);
        }
    }
}

impl Read for Inputs<'_> {
    fn read(&mut self, buf: &mut [u8]) -> io::Result<usize> {
        // Rattle requires that each loop ends. This one returns if no file is left.
        for _ in 0..usize::MAX {
            let Some(source) = &mut self.source else {
                if self.open_next()? {
                    continue;
                }
                return Ok(0);
            };
            let count = source.read(buf)?;
            if count > 0 {
                self.note(&buf[..count]);
                return Ok(count);
            }
            self.source = None;
        }
        Ok(0)
    }
}

/// The name of a file, for messages.
fn name_at<'a>(names: &'a [&'a str], index: usize) -> &'a str {
    match names.get(index) {
        Some(name) => {
            if *name == "-" {
                "standard input"
            } else {
                *name
            }
        }
        None => "standard input",
    }
}

/// How many line ends the bytes have. All input is counted, so this tests 32 bytes at once. The sum
/// is at most the length, so it never wraps.
pub fn line_ends(bytes: &[u8]) -> usize {
    let (blocks, rest) = bytes.as_chunks::<32>();
    let mut count = 0usize;
    for byte in rest {
        if *byte == b'\n' {
            count = count.wrapping_add(1);
        }
    }
    for block in blocks {
        let marks = u8x32::from_array(*block).simd_eq(u8x32::splat(b'\n'));
        count = count.wrapping_add(marks.to_bitmask().count_ones() as usize);
    }
    count
}
