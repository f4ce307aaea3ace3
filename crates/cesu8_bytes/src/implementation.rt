//! The kernels: is there a byte of UTF-8 that encoding changes?

pub mod fallback;
pub mod simd;
pub mod word;

/// The fastest kernels. Any module's would be correct, since the contracts are the same.
/// The codec searches by `lanes::search`, which is faster. The kernels are here because the Rust
/// crate has them, so `simd_cesu8::implementation` exports them too.
pub mod active {
    pub use super::simd::{
        contains_null_or_utf8_4_byte_char_header, contains_utf8_4_byte_char_header,
    };
}
