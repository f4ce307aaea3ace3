//! Tests of the public calls of `simd_cesu8`, `java_text` and `cesu8_stream`, and of the callers in
//! `uses`. The expected values come from tables, or from the plain codec of `test_cases`, which
//! takes one character at a time. The head of each module says what it tests.
//!
//! They are one crate, since each crate of tests loads the contracts of the library again, which
//! takes a minute of its proof.
#![tactic(auto)]

#[cfg(test)]
mod asserts;
#[cfg(test)]
mod callers;
#[cfg(test)]
mod decoding;
#[cfg(test)]
mod encoding;
#[cfg(test)]
mod java;
#[cfg(test)]
mod lengths;
#[cfg(test)]
mod stream;
