//! Callers of `simd_cesu8`, `java_text` and `cesu8_stream`, as users write them.
//!
//! Each has a contract of its own, which is proved from the public clauses and laws of these
//! crates. Of how an encoding is built, the proofs use only that the empty text has an empty one. A
//! law is used by a call, such as `laws::concat()`, which does nothing. docs/CALLING.md explains
//! them.
#![tactic(auto)]

mod agreement;
mod arena;
mod class_file;
mod entry;
mod key_store;
mod keys;
mod many_texts;
mod pieces;
mod repair;
mod round_trip;
mod string_file;

pub use crate::agreement::{
    append_and_encode, compares_as_keys, decodes_to_same, needs_or_borrows, tells_decoded_length,
    tells_encoded_length, tells_lossy_length,
};
pub use crate::arena::{ArenaFull, fill_arena};
pub use crate::class_file::{ConstantFault, read_utf8_constant};
pub use crate::entry::Entry;
pub use crate::key_store::{Store, get_value, put_value};
pub use crate::keys::key_without_zero;
pub use crate::many_texts::append_all;
pub use crate::pieces::append_piece;
pub use crate::repair::{Repaired, repair_log, rewrite_log};
pub use crate::round_trip::{
    decode_and_encode, encode_and_decode, encode_and_read, write_and_read,
};
pub use crate::string_file::copy_strings;
