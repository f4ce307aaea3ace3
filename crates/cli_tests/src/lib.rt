//! Tests of `cesu8_cli_run`, with a reader and a writer that are slow or fail. The expected values
//! were not computed by that crate.
#![tactic(auto)]

#[cfg(test)]
mod devices;
#[cfg(test)]
mod error_kinds;
#[cfg(test)]
mod rows;
#[cfg(test)]
mod runs;
