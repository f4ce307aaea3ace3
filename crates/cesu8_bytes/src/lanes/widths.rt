//! Searches for a byte of a class by vectors of each width, for `implementation::simd`, whose
//! kernels are as the Rust crate describes them. `crates/bytes_tests` passes another `fallback`, to
//! see when it is called. The codec uses `search.rt`, which is faster: its last vector may overlap.

ghost use Rattle.std.specs.Prelude.{◌≡◌, ◌≤◌, ◌<◌, ◌↔◌, IsTrue, IfSome, IfNone, length};
ghost use Rattle.cesu8_bytes.specs.Kernels.{AnyIn, MayTest, Finds};

use super::class::{InAllVectors, InVectors, LANES};
use super::groups::InGroups;
use super::search::{any_in_chunks, any_in_each};

/// Returns whether some byte is in the class. `fallback` tests a single byte that is left over.
#[inline(always)]
pub fn any_by_widths<C, F>(value: &[u8], fallback: F) -> bool
where
    C: InAllVectors + InGroups,
    F: Fn(&[u8]) -> bool,
    requires { MayTest (λ len. len ≡ 1) F.Fn fallback }
    ensures { Finds (λ len. len ≡ 1) F.Fn fallback C.class
        → IsTrue result ↔ AnyIn C.class value.now }
{
    let (chunks, rest) = value.as_chunks::<LANES>();
    if any_in_chunks::<C>(chunks) {
        return true;
    }
    let Some(rest) = left_by::<C, 32>(rest) else {
        return true;
    };
    let Some(rest) = left_by::<C, 16>(rest) else {
        return true;
    };
    let Some(rest) = left_by::<C, 8>(rest) else {
        return true;
    };
    let Some(rest) = left_by::<C, 4>(rest) else {
        return true;
    };
    let Some(rest) = left_by::<C, 2>(rest) else {
        return true;
    };
    !rest.is_empty() && fallback(rest)
}

/// Returns the bytes after the whole chunks, or `None` if some byte of a chunk is in the class.
#[inline(always)]
fn left_by<C: InVectors<N>, const N: usize>(bytes: &[u8]) -> Option<&[u8]>
    requires { (0 < N) × (N ≤ LANES) }
    ensures left { IfSome result (λ rest. (length rest.now < N)
        × (AnyIn C.class rest.now ↔ AnyIn C.class bytes.now)) }
    ensures found { IfNone result (AnyIn C.class bytes.now) }
{
    let (chunks, rest) = bytes.as_chunks::<N>();
    if any_in_each::<C, N>(chunks) {
        return None;
    }
    Some(rest)
}
