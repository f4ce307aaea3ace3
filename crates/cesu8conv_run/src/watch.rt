//! What observes the bytes that a conversion takes.

/// Gets all bytes that a conversion takes, in their order.
pub trait Watch {
    /// These bytes were taken. `replaced` is 0 or 1: if it is 1, the last of them was replaced.
    fn taken(&mut self, bytes: &[u8], replaced: usize);
}

/// Counts what is replaced.
#[derive(Clone, Copy)]
pub struct Tally {
    /// How many bytes were taken.
    pub offset: u64,
    /// How many of them were replaced.
    pub replaced: u64,
    /// The offset of the first of those, or 0 if there is none.
    pub first: u64,
}

impl Tally {
    pub fn new() -> Tally {
        Tally {
            offset: 0,
            replaced: 0,
            first: 0,
        }
    }
}

impl Watch for Tally {
    fn taken(&mut self, bytes: &[u8], replaced: usize) {
        self.offset = self.offset.saturating_add(bytes.len() as u64);
        if replaced == 0 {
            return;
        }
        if self.replaced == 0 {
            self.first = self.offset.saturating_sub(1);
        }
        self.replaced = self.replaced.saturating_add(1);
    }
}
