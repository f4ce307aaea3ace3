//! Bytes as messages and the list of damage show them.

use std::fmt;

/// The bytes in hexadecimal, with spaces between them.
#[derive(Clone, Copy)]
pub struct Hex<'a>(pub &'a [u8]);

impl fmt::Display for Hex<'_> {
    fn fmt<W: fmt::Write>(&self, f: &mut fmt::Formatter<W>) -> fmt::Result {
        let mut space = "";
        for byte in self.0 {
            write!(f, "{space}{byte:02x}")?;
            space = " ";
        }
        Ok(())
    }
}
