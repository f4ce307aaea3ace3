//! The sinks: where the decoded text is written. `strings` and `slices` use the other two:
//!
//! - `chunks`: many bytes, chunk by chunk, to a `Vec` or a slice
//! - `strict_append`: strict decoding to a `Vec`, with `chunks` for what windows decode faster
//! - `strings`: to a `Vec`, which becomes a `String`
//! - `slices`: to a caller's slice

mod chunks;
pub mod slices;
mod strict_append;
pub mod strings;
