//! The digest of results: a number that each workload prints, so that `bench/run` sees whether two
//! builds of the library return the same.

ghost use Rattle.std.specs.Prelude.{◌+◌, ◌≤◌, length};

use std::fmt;

/// Two sums of all words. The second depends on their order.
#[derive(Drop)]
pub struct Digest {
    first: u64,
    second: u64,
}

impl Digest {
    pub fn new() -> Self {
        Digest {
            first: 0,
            second: 0,
        }
    }

    /// Adds a number.
    #[inline(always)]
    pub fn add(&mut self, word: u64) {
        self.first = self.first.wrapping_add(word);
        self.second = self.second.wrapping_add(self.first);
    }

    /// Adds bytes and their number.
    #[inline(always)]
    pub fn add_bytes(&mut self, bytes: &[u8]) {
        let len = bytes.len();
        self.add(len as u64);
        if len < 8 {
            return self.add_few(bytes);
        }
        let mut rest = bytes;
        if len > 32 {
            while let Some((word, behind)) = rest.split_first_chunk::<8>() {
                self.add(u64::from_le_bytes(*word));
                rest = behind;
            }
            return self.add(word_at(bytes, len - 8));
        }
        // Four words that may overlap cover all bytes, so no branch depends on their number.
        self.add(word_at(bytes, 0));
        self.add(word_at(bytes, (len - 8).min(8)));
        self.add(word_at(bytes, len.max(16) - 16));
        self.add(word_at(bytes, len - 8));
    }

    /// Adds fewer than eight bytes.
    #[inline(always)]
    fn add_few(&mut self, bytes: &[u8]) {
        if let Some((word, _)) = bytes.split_first_chunk::<4>() {
            self.add(u64::from(u32::from_le_bytes(*word)));
        }
        if let Some((_, word)) = bytes.split_last_chunk::<4>() {
            self.add(u64::from(u32::from_le_bytes(*word)));
            return;
        }
        for byte in bytes {
            self.add(u64::from(*byte));
        }
    }
}

/// Returns eight bytes as a number.
#[inline(always)]
fn word_at(bytes: &[u8], offset: usize) -> u64
    requires { offset + 8 ≤ length bytes.now }
{
    match bytes[offset..].split_first_chunk::<8>() {
        Some((word, _)) => u64::from_le_bytes(*word),
        None => 0,
    }
}

impl fmt::Display for Digest {
    fn fmt<W: fmt::Write>(&self, f: &mut fmt::Formatter<W>) -> fmt::Result {
        let first = self.first;
        let second = self.second;
        write!(f, "{first:016x}{second:016x}")
    }
}
