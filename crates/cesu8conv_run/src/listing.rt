//! The list of damage that the command `check` prints: a line for each run of damaged bytes
//! (`Stretch`). With tabs between, it has the name of the file if there are several, the offset,
//! the number of the line, the number of bytes, and the first 16 bytes in hexadecimal.

use crate::hex::Hex;
use crate::inputs::line_ends;
use crate::watch::Watch;
use std::io::{self, BufWriter, Write};
use std::rt::Stdout;

/// The most bytes of a stretch that are shown.
const SHOWN: usize = 16;

/// Bytes that follow one another and are in no character.
#[derive(Clone, Copy)]
struct Stretch {
    offset: u64,
    len: u64,
    shown: [u8; SHOWN],
}

/// Lists the stretches of damage in a file.
#[derive(Drop)]
pub struct Listing<'a> {
    out: BufWriter<Stdout>,
    /// The name of the file, if there are several.
    name: Option<&'a str>,
    /// The offset and the line of the next byte.
    offset: u64,
    line: u64,
    stretch: Stretch,
    /// Whether there was damage.
    pub is_damaged: bool,
    /// Why a line could not be written.
    error: Option<io::Error>,
}

impl<'a> Listing<'a> {
    pub fn new(rt: &HostRuntime, name: Option<&'a str>) -> io::Result<Listing<'a>> {
        Ok(Listing {
            out: BufWriter::new(rt.alloc(), rt.stdout())?,
            name,
            offset: 0,
            line: 1,
            stretch: Stretch {
                offset: 0,
                len: 0,
                shown: [0; SHOWN],
            },
            is_damaged: false,
            error: None,
        })
    }

    /// Prints the stretch that ends here, if there is one. No line ends within it, as the end of a
    /// line is a character, so `line` is still the line in which the stretch begins.
    fn end_stretch(&mut self) {
        if self.stretch.len == 0 {
            return;
        }
        if let Err(error) = self.print_stretch() {
            self.error = Some(error);
        }
        self.stretch.len = 0;
        self.is_damaged = true;
    }

    fn print_stretch(&mut self) -> io::Result<()> {
        let Stretch { offset, len, shown } = self.stretch;
        let line = self.line;
        if let Some(name) = self.name {
            write!(self.out, "{name}\t")?;
        }
        let bytes = Hex(&shown[..len.min(SHOWN as u64) as usize]);
        let dots = if len > SHOWN as u64 { " .." } else { "" };
        write!(self.out, "{offset}\t{line}\t{len}\t{bytes}{dots}\n")
    }

    /// Prints what is left.
    pub fn finish(&mut self) -> io::Result<()> {
        self.end_stretch();
        match self.error.take() {
            Some(error) => Err(error),
            None => self.out.flush(),
        }
    }

    /// Adds a byte that is in no character.
    fn add(&mut self, byte: u8) {
        if self.stretch.len == 0 {
            self.stretch.offset = self.offset;
        }
        if self.stretch.len < SHOWN as u64 {
            self.stretch.shown[self.stretch.len as usize] = byte;
        }
        self.stretch.len = self.stretch.len.saturating_add(1);
        self.offset = self.offset.saturating_add(1);
    }
}

impl Watch for Listing<'_> {
    fn taken(&mut self, bytes: &[u8], replaced: usize) {
        // If `replaced` is 1, the last byte is in no character, and all others are in characters.
        let whole = bytes.len() - replaced.min(bytes.len());
        if whole > 0 {
            self.end_stretch();
            self.line = self.line.saturating_add(line_ends(&bytes[..whole]) as u64);
            self.offset = self.offset.saturating_add(whole as u64);
        }
        for byte in &bytes[whole..] {
            self.add(*byte);
        }
    }
}

/// A writer that keeps nothing: `check` converts a file only to find the damage.
#[derive(Drop)]
pub struct Nowhere;

impl Write for Nowhere {
    fn write(&mut self, buf: &[u8]) -> io::Result<usize> {
        Ok(buf.len())
    }

    fn flush(&mut self) -> io::Result<()> {
        Ok(())
    }
}
