//! What the program `cesu8conv` does with its options: it converts files and streams, and reports
//! what was wrong. The program reads the options from its command line.
//!
//! - `conversion`, `step`, `convert`: a conversion, of a part of the input and of the whole
//! - `fault`, `watch`: why a conversion stops, and what observes the bytes that it takes
//! - `inputs`, `target`: the files that are read, and the one that is written
//! - `listing`, `progress`, `reason`, `messages`, `hex`: what is printed
//! - `options`, `run`: what is asked for, and one run
#![tactic(auto)]

pub mod conversion;
pub mod convert;
pub mod fault;
mod hex;
mod inputs;
mod listing;
pub mod messages;
pub mod options;
mod progress;
mod reason;
pub mod run;
mod step;
mod target;
pub mod watch;
