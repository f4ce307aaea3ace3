//! The inputs of a workload, one after another in one vector. Three letters of each change from
//! round to round, so no result can be reused.

ghost use Rattle.std.specs.Prelude.{◌<◌};

use std::alloc::{AllocError, Global};

/// How many letters of each piece change with the round.
const MARK: usize = 3;

/// The offsets at which a piece begins and ends, and of the letters that change.
#[derive(Clone, Copy)]
struct Piece {
    start: usize,
    end: usize,
    mark: usize,
}

/// Pieces of bytes, one after another.
#[derive(Drop)]
pub struct Pool {
    bytes: Vec<u8>,
    pieces: Vec<Piece>,
}

impl Pool {
    pub fn new(alloc: Global) -> Self {
        Pool {
            bytes: Vec::new(alloc),
            pieces: Vec::new(alloc),
        }
    }

    /// Appends a piece: `before`, the letters that change, and `after`.
    pub fn push(&mut self, before: &[u8], after: &[u8]) -> Result<(), AllocError> {
        let start = self.bytes.len();
        self.push_marked(start, before, after)
    }

    /// Appends a piece as a length-prefixed Java string, unless it has more bytes than the prefix
    /// can count.
    pub fn push_form(&mut self, before: &[u8], after: &[u8]) -> Result<(), AllocError> {
        let length = before
            .len()
            .saturating_add(after.len())
            .saturating_add(MARK);
        let Ok(count) = u16::try_from(length) else {
            return Ok(());
        };
        let start = self.bytes.len();
        self.bytes.extend_from_slice(&count.to_be_bytes())?;
        self.push_marked(start, before, after)
    }

    fn push_marked(&mut self, start: usize, before: &[u8], after: &[u8]) -> Result<(), AllocError> {
        self.bytes.extend_from_slice(before)?;
        let mark = self.bytes.len();
        self.bytes.extend_from_slice(b"aaa")?;
        self.bytes.extend_from_slice(after)?;
        let end = self.bytes.len();
        self.pieces.push(Piece { start, end, mark })?;
        Ok(())
    }

    /// Sets the letters of each piece for a round. No two of 17,576 rounds in a row have the same.
    pub fn renew(&mut self, round: u32) {
        let letters = [letter(round / 676), letter(round / 26), letter(round)];
        let bytes = self.bytes.as_mut_slice();
        for piece in self.pieces.as_slice() {
            let mark = piece.mark;
            if mark < bytes.len() && bytes.len() - mark >= MARK {
                bytes[mark..mark + MARK].copy_from_slice(&letters);
            }
        }
    }

    /// Returns all bytes.
    pub fn bytes(&self) -> &[u8] {
        self.bytes.as_slice()
    }

    /// Returns the number of pieces.
    pub fn len(&self) -> usize {
        self.pieces.len()
    }

    /// Returns a piece, or no bytes if there is none with this index.
    #[inline(always)]
    pub fn piece(&self, index: usize) -> &[u8] {
        let bytes = self.bytes.as_slice();
        if let Some(piece) = self.pieces.as_slice().get(index) {
            if piece.start <= piece.end && piece.end <= bytes.len() {
                return &bytes[piece.start..piece.end];
            }
        }
        &[]
    }
}

/// Returns the letter for a number: from "a" for 0 to "z" for 25, and then from "a" again.
fn letter(number: u32) -> u8 {
    b'a' + (number % 26) as u8
}
