//! What the test crates share: the calls for either encoding, inputs, the bytes and texts that the
//! standards' tables give for them, and comparisons that return what differs.
//!
//! A library may not assert. So a comparison returns the first difference, and a test asserts that
//! there is none.
#![tactic(auto)]

pub mod borders;
pub mod comparisons;
pub mod decoders;
pub mod fills;
pub mod flavors;
pub mod pattern;
pub mod plain;
pub mod slices;
