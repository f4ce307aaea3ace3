//! The result of a call that converts a piece.

ghost use Rattle.std.specs.Prelude.{◌≡◌};
ghost use Rattle.cesu8_c.specs.Pieces.{progress_for};

use crate::answer::{FULL, INCOMPLETE, OK};
use cesu8_stream::State;

/// How far a call that converts a piece came, and why it stopped.
#[repr(C)]
#[derive(Drop)]
pub struct Progress {
    /// `OK` if all bytes were read, otherwise why not: `INCOMPLETE` or `FULL`, or for damage
    /// `INVALID` from a call that decodes and `NOT_UTF8` from a call that encodes.
    pub status: u32,
    /// How many bytes at the start of the input were read.
    pub read: usize,
    /// How many bytes at the start of the buffer were written.
    pub written: usize,
}

impl Progress {
    /// Converts the result of a stream's call. `malformed` is the status if no character begins at
    /// the remaining bytes.
    pub(crate) fn of(progress: cesu8_stream::Progress, malformed: u32) -> Progress
        ensures { result ≡ progress_for malformed progress }
    {
        let status = match progress.state {
            State::InputEmpty => OK,
            State::Incomplete => INCOMPLETE,
            State::OutputFull => FULL,
            State::Malformed => malformed,
        };
        Progress {
            status,
            read: progress.read,
            written: progress.written,
        }
    }
}
