//! Tests each function of `uses` on values from the standards: the Java Virtual Machine
//! Specification, Java's `DataOutput` and `String`, and Unicode Technical Report 26.

mod class_files;
mod fields;
mod logs;
mod pieces;
mod stores;
mod texts;
