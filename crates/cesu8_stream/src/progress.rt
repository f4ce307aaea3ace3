//! What a call returns: how far it came, and why it stopped.

/// How far a call came, and why it stopped.
#[derive(Clone, Copy, Debug, PartialEq, Eq)]
pub struct Progress {
    /// How many bytes at the start of the input were read. The next call begins after them.
    pub read: usize,
    /// How many bytes at the start of the buffer were written.
    pub written: usize,
    /// Why the call stopped.
    pub state: State,
}

/// Why a call stopped.
#[derive(Clone, Copy, Debug, PartialEq, Eq)]
pub enum State {
    /// All bytes were read.
    InputEmpty,
    /// The bytes that are left are a part of a character: call again with these and more. In CESU-8
    /// and MUTF-8 at most five are left, and in UTF-8 at most three.
    Incomplete,
    /// The next character does not fit in what is left of the buffer: call again with more space.
    OutputFull,
    /// The bytes that are left begin with no character, whatever follows them.
    Malformed,
}
