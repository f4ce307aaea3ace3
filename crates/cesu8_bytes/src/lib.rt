//! What the encoder and the decoder share. The crate is internal and may change at any time:
//! `simd_cesu8` has the public calls.
#![tactic(auto)]

pub mod fast_paths; // fast paths that a call inlines
pub mod flavor; // the encoding, as a type
pub mod implementation; // the search kernels: by vectors, by words, and by single bytes
pub mod lanes; // vectors of bytes, classes of bytes, and searches and counts by vectors
pub mod lengths; // the length of an encoding, without encoding
pub mod order; // the order of strings by their UTF-16 code units, without encoding
pub mod pairs; // surrogate pairs
pub mod strictness; // whether ill-formed bytes are errors or are replaced
pub mod utf8; // bytes that are known to be UTF-8 as a `&str` or a `String`
pub mod words; // searches by words of eight bytes
pub mod writing; // copying, packing and appending bytes

/// The bytes of a block, the lanes of a `u8x32`. Types, shuffles and proofs assume this 32 too.
pub const BLOCK: usize = 32;

/// 256 shuffles of 16 lanes (4 KiB). The eight bits of an index say what becomes of eight bytes.
pub type Rows = [[u8; 16]; 256];
