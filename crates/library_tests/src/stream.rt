//! Tests of `cesu8_stream`.

mod calls;
mod damaged;
mod lossy;
mod malformed;
mod pairs;
mod windows;
