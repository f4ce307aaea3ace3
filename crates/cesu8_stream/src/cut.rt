//! Whether input can be cut at a place, so that what comes before it is decoded by itself.

ghost use Rattle.std.specs.Prelude.{◌≡◌, ℕ, ◌+◌, ◌≤◌, List, ◌++◌, true, length, take, drop};
ghost use Rattle.cesu8_stream.specs.Written.{NoneCrosses};

use crate::conversion::{Conversion, LONGEST};
use crate::engine::first_len;

/// Returns whether no character begins before this place and ends after it, whatever follows the
/// bytes. A character that crosses the place begins at most five bytes before it and ends at most
/// five after it.
pub fn is_cut<C: Conversion>(bytes: &[u8], place: usize) -> bool
    requires { place + 5 ≤ length bytes.now }
    ensures { result ≡ true → (more : List ℕ)
        → NoneCrosses C.from (take place bytes.now) (drop place bytes.now ++ more) }
{
    C::laws();
    for start in place.saturating_sub(LONGEST - 1)..place {
        if first_len::<C>(&bytes[start..]) > place - start {
            return false;
        }
    }
    true
}
