//! Why a conversion stops. `messages.rt` prints the message of a fault and chooses the status.

use std::io;

/// Why a conversion failed.
#[derive(Drop)]
pub enum Fault {
    /// No character of the input begins at this offset. The second number says how many bytes from
    /// there on were read: `convert` leaves them at the front of its window, for the message.
    Damage(u64, usize),
    /// A read failed.
    Read(io::Error),
    /// A write failed, or accepted no byte.
    Write(io::Error),
    /// A buffer has fewer than 8 bytes (`LEAST` in `convert.rt`), or the length of the input comes
    /// near 2^64.
    Limit,
}
