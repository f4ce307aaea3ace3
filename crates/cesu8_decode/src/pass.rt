//! The pass: the loop that decodes bytes window by window. Each module uses only those before it:

pub mod events; // writes the text of a window
mod window; // finds the events of one window and writes its text
pub mod windows; // successive windows, until the input ends or the buffer is full
pub mod short; // at most 64 bytes, as one window without the loop
