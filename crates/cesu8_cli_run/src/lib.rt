//! What the program `cesu8_cli` does with its arguments, for any reader and any writer. The program
//! passes it standard input and output, and the tests in `cli_tests` pass it devices that fail.
//!
//! - `command`: the words of a command
//! - `answer`: the output of a command, for the whole input
//! - `run`: reads, answers and writes
//! - `fault`: why a run fails, with its line and its status
#![tactic(auto)]

pub mod answer;
pub mod command;
pub mod fault;
pub mod run;
