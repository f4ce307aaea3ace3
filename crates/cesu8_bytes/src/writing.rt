//! Writing bytes.

pub mod copies; // to the end of a vector, to a caller's slice, or to a new vector
pub mod offsets; // to an offset of a slice
pub mod packing; // the lanes of a vector, without those that are dropped
