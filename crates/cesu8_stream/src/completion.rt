//! Whether bytes are a truncated character. They are if they become a whole one when the missing
//! bytes are taken from one of two fixed characters, which `Conversion::completions` returns.

ghost use Rattle.std.specs.Prelude.{◌≡◌, ◌<◌, ◌≤◌, ◌↔◌, ◌++◌, length, drop, IsTrue};
ghost use Rattle.cesu8_stream.specs.Written.{BeginsNone, MayBegin};

use crate::conversion::Conversion;

/// Returns whether some bytes after these make a character, if none begins them.
pub fn may_begin<C: Conversion>(bytes: &[u8]) -> bool
    requires nonempty { 0 < length bytes.now }
    requires few { length bytes.now ≤ 5 }
    requires none_begins { BeginsNone C.from bytes.now }
    ensures { IsTrue result ↔ MayBegin C.from bytes.now }
{
    C::laws();
    let (first, second) = C::completions();
    C::valid_up_to(&completed(bytes, first)) > 0 || C::valid_up_to(&completed(bytes, second)) > 0
}

/// Returns the bytes, filled up to six by the last bytes of `character`.
fn completed(bytes: &[u8], character: [u8; 6]) -> [u8; 6]
    requires { length bytes.now ≤ 6 }
    ensures { result ≡ bytes.now ++ drop (length bytes.now) character }
{
    let mut whole = character;
    whole[..bytes.len()].copy_from_slice(bytes);
    whole
}
