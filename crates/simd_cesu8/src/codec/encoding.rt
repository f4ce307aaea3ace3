//! The encoding as a value, for `CountedText`. In other code a type with the trait `Flavor` stands
//! for the encoding.

/// One of the two encodings.
#[derive(Clone, Copy)]
pub enum Flavor {
    Cesu8,
    Mutf8,
}
