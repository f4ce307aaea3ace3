//! What the user asks for.

use crate::conversion::{Conversion, FlavorWord};

/// What to do with the input.
#[derive(Clone, Copy)]
pub enum Task {
    /// Convert it.
    Convert(Conversion),
    /// List what is damaged in it: the bytes that `Conversion::Lossy` replaces.
    Check(FlavorWord),
}

/// What the user asks for.
#[derive(Clone, Copy)]
pub struct Options<'a> {
    pub task: Task,
    /// The file to write, in place of standard output.
    pub output: Option<&'a str>,
    /// Whether messages about damage are left out, and progress that was not asked for. Other
    /// errors are printed in any case.
    pub is_quiet: bool,
    /// Whether replaced bytes make the status 1.
    pub fails_on_damage: bool,
    /// Whether progress is shown in any case, not only for large files at a terminal.
    pub shows_progress: bool,
}
