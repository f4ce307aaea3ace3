//! Keys that have no zero byte, so that one may end them.

ghost use Rattle.std.specs.Prelude.{◌≡◌, ◌≢◌, All, IfOk};
ghost use Rattle.std.specs.Str.{chars};
ghost use Rattle.simd_cesu8.specs.Encoding.{Mutf8, encoding};

use simd_cesu8::{laws, mutf8};
use std::alloc::{AllocError, Global};

/// Returns the MUTF-8 of a text. None of its bytes is 0, so a zero byte may end it.
///
/// ```rust
/// let key = uses::key_without_zero(alloc, "a\0")?;
/// assert_eq!(rt; key.as_slice(), b"a\xC0\x80".as_slice());
/// ```
pub fn key_without_zero(alloc: Global, text: &str) -> Result<Vec<u8>, AllocError>
    ensures bytes { IfOk result (λ key. key.items ≡ encoding Mutf8 (chars text.now)) }
    ensures no_zero { IfOk result (λ key. All (λ byte. byte ≢ 0) key.items) }
{
    // Laws do nothing at run time: the proof uses their contracts.
    laws::chars();
    laws::no_zero();
    mutf8::encode(alloc, text)?.into_vec(alloc)
}
