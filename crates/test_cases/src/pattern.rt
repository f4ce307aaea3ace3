//! A string with characters of each width: U+0061, U+0205, U+20AC, U+10400, U+0000, U+07FF, U+FFFF
//! and U+1F496. tests/memory.sh reads the bytes here.

use crate::flavors::Flavor;

const UTF8: [u8; 20] =
    *b"a\xC8\x85\xE2\x82\xAC\xF0\x90\x90\x80\x00\xDF\xBF\xEF\xBF\xBF\xF0\x9F\x92\x96";

const CESU8: [u8; 24] =
    *b"a\xC8\x85\xE2\x82\xAC\xED\xA0\x81\xED\xB0\x80\x00\xDF\xBF\xEF\xBF\xBF\xED\xA0\xBD\xED\xB2\x96";

const MUTF8: [u8; 25] =
    *b"a\xC8\x85\xE2\x82\xAC\xED\xA0\x81\xED\xB0\x80\xC0\x80\xDF\xBF\xEF\xBF\xBF\xED\xA0\xBD\xED\xB2\x96";

/// The pattern's UTF-8.
pub const PATTERN: &[u8] = &UTF8;

/// The bytes of the pattern in an encoding.
pub fn encoded_pattern(flavor: Flavor) -> &'static [u8] {
    match flavor {
        Flavor::Cesu8 => &CESU8,
        Flavor::Mutf8 => &MUTF8,
    }
}
