//! The first and last scalar values of each encoded length, and some between, with their bytes in
//! UTF-8 and in both encodings. tests/peers.sh reads their names here, and tests/memory.sh their
//! bytes too. The former checks the total length of their UTF-8, and the latter their number, so a
//! new row changes both scripts.

use crate::flavors::Flavor;

/// One scalar value, its UTF-8, and its bytes in CESU-8 and in MUTF-8.
#[derive(Clone, Copy)]
pub struct Border {
    pub name: &'static str,
    pub utf8: &'static [u8],
    encoded: [&'static [u8]; 2],
}

impl Border {
    pub fn encoded(&self, flavor: Flavor) -> &'static [u8] {
        flavor.of(self.encoded)
    }
}

/// A scalar value by its name and its bytes. If MUTF-8 is left out, it is the CESU-8, and if that
/// is left out too, it is the UTF-8.
macro_rules! border {
    ($name:literal, $utf8:literal) => {
        border!($name, $utf8, $utf8)
    };
    ($name:literal, $utf8:literal, $encoded:literal) => {
        border!($name, $utf8, $encoded, $encoded)
    };
    ($name:literal, $utf8:literal, $cesu8:literal, $mutf8:literal) => {
        Border {
            name: $name,
            utf8: $utf8,
            encoded: [$cesu8, $mutf8],
        }
    };
}

/// The first and last scalar values of each encoded length, and some between.
pub static BORDERS: [Border; 21] = [
    border!("U+0000", b"\x00", b"\x00", b"\xC0\x80"),
    border!("U+0001", b"\x01"),
    border!("U+007F", b"\x7F"),
    border!("U+0080", b"\xC2\x80"),
    border!("U+07FF", b"\xDF\xBF"),
    border!("U+0800", b"\xE0\xA0\x80"),
    border!("U+0FFF", b"\xE0\xBF\xBF"),
    border!("U+1000", b"\xE1\x80\x80"),
    border!("U+CFFF", b"\xEC\xBF\xBF"),
    border!("U+D000", b"\xED\x80\x80"),
    border!("U+D7FF", b"\xED\x9F\xBF"),
    border!("U+E000", b"\xEE\x80\x80"),
    border!("U+FFFD", b"\xEF\xBF\xBD"),
    border!("U+FFFF", b"\xEF\xBF\xBF"),
    border!("U+10000", b"\xF0\x90\x80\x80", b"\xED\xA0\x80\xED\xB0\x80"),
    border!("U+103FF", b"\xF0\x90\x8F\xBF", b"\xED\xA0\x80\xED\xBF\xBF"),
    border!("U+10400", b"\xF0\x90\x90\x80", b"\xED\xA0\x81\xED\xB0\x80"),
    border!("U+1F496", b"\xF0\x9F\x92\x96", b"\xED\xA0\xBD\xED\xB2\x96"),
    border!("U+FFFFF", b"\xF3\xBF\xBF\xBF", b"\xED\xAE\xBF\xED\xBF\xBF"),
    border!("U+100000", b"\xF4\x80\x80\x80", b"\xED\xAF\x80\xED\xB0\x80"),
    border!("U+10FFFF", b"\xF4\x8F\xBF\xBF", b"\xED\xAF\xBF\xED\xBF\xBF"),
];
