//! What the program can make of its input.

/// A command other than `check`, with its encoding.
#[derive(Clone, Copy)]
pub enum Conversion {
    /// UTF-8 to the encoding.
    Encode(FlavorWord),
    /// The encoding to UTF-8.
    Decode(FlavorWord),
    /// The encoding, which may be damaged, to UTF-8. Each damaged byte becomes U+FFFD.
    Lossy(FlavorWord),
    /// Text of which each part is the encoding or UTF-8, to UTF-8.
    Mixed(FlavorWord),
    /// Text of which each part is the encoding or UTF-8, and which may be damaged, to UTF-8.
    MixedLossy(FlavorWord),
}

/// The encoding that the second word of the command line names.
#[derive(Clone, Copy)]
pub enum FlavorWord {
    Cesu8,
    Mutf8,
}
