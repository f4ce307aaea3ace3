//! The line on standard error that says how far a conversion is. Each line begins with a carriage
//! return and the terminal's code that clears a line, so it replaces the one before it.

use std::io;
use std::time::Instant;

/// How many milliseconds pass between two lines.
const PERIOD: u64 = 500;

/// Shows how far a conversion is.
#[derive(Drop)]
pub struct Progress<'a> {
    rt: &'a HostRuntime,
    start: Instant,
    /// How many bytes there are, or 0 if that is not known.
    total: u64,
    /// When the last line was shown, in milliseconds.
    shown: u64,
    is_shown: bool,
}

impl<'a> Progress<'a> {
    /// Begins to show progress. The total is 0 if it is not known.
    pub fn new(rt: &'a HostRuntime, total: u64) -> io::Result<Progress<'a>> {
        Ok(Progress {
            rt,
            start: Instant::now(rt)?,
            total,
            shown: 0,
            is_shown: false,
        })
    }

    /// Shows how many bytes were read, unless the last line is newer than `PERIOD`. If the clock or
    /// the output fails, the conversion goes on.
    pub fn show(&mut self, offset: u64) {
        let Ok(passed) = self.start.elapsed(self.rt) else {
            return;
        };
        let millis = u64::try_from(passed.as_millis()).unwrap_or(u64::MAX);
        if millis < self.shown.saturating_add(PERIOD) {
            return;
        }
        self.shown = millis;
        self.is_shown = true;
        let rate = (offset / millis.max(1)).saturating_mul(1000);
        let done = offset / 1_000_000;
        let speed = rate / 1_000_000;
        // The total can also be too small, if a file has grown since.
        if self.total < offset || rate == 0 {
            let _ = eprint!(self.rt; "\r\x1b[K{done} MB, {speed} MB/s");
        } else {
            let total = self.total / 1_000_000;
            let left = (self.total - offset) / rate;
            let _ = eprint!(self.rt; "\r\x1b[K{done} of {total} MB, {speed} MB/s, {left} s left");
        }
    }

    /// Clears the line, if one is shown.
    pub fn end(&mut self) {
        if self.is_shown {
            let _ = eprint!(self.rt; "\r\x1b[K");
        }
        self.is_shown = false;
    }
}
