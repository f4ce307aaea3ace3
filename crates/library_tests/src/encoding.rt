//! Tests of the calls of `simd_cesu8` that encode, and of its kernels.

mod kernels;
mod long_texts;
mod order;
mod slices;
mod texts;
mod units;
