//! Bytes that are known to be UTF-8, as a `&str` or a `String`, without a test or a copy.

ghost use Rattle.std.specs.Prelude.{◌≡◌, IsUtf8, vec_capacity};
ghost use Rattle.std.specs.String.{string_bytes, string_capacity};

use std::str;

#[inline(always)]
pub fn known_text(bytes: &[u8]) -> &str
    requires { IsUtf8 bytes.now }
    ensures { result.now ≡ bytes.now }
{
    // `from_utf8_unchecked` needs UTF-8. This function requires it, so it is proved at each call.
    unsafe { str::from_utf8_unchecked(bytes) }
}

#[inline(always)]
pub fn known_string(bytes: Vec<u8>) -> String
    requires { IsUtf8 bytes.items }
    ensures bytes { string_bytes result ≡ bytes.items }
    ensures capacity { string_capacity result ≡ vec_capacity bytes }
{
    // `from_utf8_unchecked` needs UTF-8, which this function requires.
    unsafe { String::from_utf8_unchecked(bytes) }
}
