//! Tests of what no contract of `cesu8_bytes` says. They are in a crate of their own, since `rt ci`
//! proves a crate with tests twice.
#![tactic(auto)]

#[cfg(test)]
mod widths;
#[cfg(test)]
mod words;
