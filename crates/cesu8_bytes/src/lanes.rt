//! Bytes as the lanes of vectors.

pub mod class; // classes of bytes, and how one vector tests for them
pub mod count; // how many bytes of a class a slice has
pub mod groups; // tests of four vectors at once
pub mod padded; // short slices, padded with zeros to one vector
pub mod runs; // how many bytes precede the first one of a class
pub mod search; // whether a slice has a byte of a class
pub mod short; // short slices, covered by two vectors
pub mod widths; // the search for the kernels, by vectors of each width
