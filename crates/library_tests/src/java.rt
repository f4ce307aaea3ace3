//! Tests of `java_text`.

mod faults;
mod reading;
mod writing;
