//! Tests of the calls of `simd_cesu8` that decode.

mod errors;
mod fragments;
mod fronts;
mod pairs;
mod places;
mod rows;
mod slices;
mod valid_fronts;
