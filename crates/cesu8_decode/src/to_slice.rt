//! Decodes to a caller's slice, or copies to it input that the mode returns unchanged.

ghost use Rattle.cesu8_decode.specs.Modes.{Reads, ReadsLossily};
ghost use Rattle.cesu8_decode.specs.PutReadings.{PutsText, ReadsAs};

use crate::destinations::slices::{copy_by_call, copy_short_or_call, put_lossily, put_strictly};
use crate::error::WriteError;
use crate::modes::{Accepts, Mode, prefix_in_mode};
use crate::prefix::unchanged_prefix;
use cesu8_bytes::flavor::Flavor;
use cesu8_bytes::strictness::{Reading, Strictness};
use cesu8_bytes::writing::copies::copy_to_slice;

/// Writes the input's text in mode `A` to the start of the slice, and returns its length. Returns
/// an error and writes nothing if the slice is too short, or if strict decoding rejects a byte.
#[inline(always)]
pub fn decode_to_slice<F: Flavor, A: Accepts, S: Reading>(
    bytes: &[u8],
    buf: &mut [u8],
) -> Result<usize, WriteError>
    ensures { PutsText S.which (ReadsAs S.which (Reads A.mode F.flavor bytes.now)
        (ReadsLossily A.mode F.flavor bytes.now)) result buf.old buf.new }
{
    if A::is_short_kept::<F>(bytes) {
        return copy_to_slice(bytes, buf).map_err(WriteError::NoRoom);
    }
    decode_other_to_slice::<F, S>(bytes, buf, A::mode())
}

/// Like `decode_to_slice`, without the fast path. It is not inlined, so that short ASCII has few
/// registers to save. The strictness is a type: as a value it would join the paths of both results,
/// and a short input that is rejected would take a third longer.
#[inline(never)]
fn decode_other_to_slice<F: Flavor, S: Reading>(
    bytes: &[u8],
    buf: &mut [u8],
    mode: Mode,
) -> Result<usize, WriteError>
    ensures { PutsText S.which (ReadsAs S.which (Reads mode F.flavor bytes.now)
        (ReadsLossily mode F.flavor bytes.now)) result buf.old buf.new }
{
    // Both modes return input unchanged in which nothing needs conversion, so this is tested first.
    let unchanged = unchanged_prefix::<F>(bytes);
    if unchanged.len == bytes.len() {
        return copy_short_or_call(bytes, buf).map_err(WriteError::NoRoom);
    }
    let prefix = prefix_in_mode::<F>(bytes, unchanged, mode);
    if prefix.len == bytes.len() {
        return copy_by_call(bytes, buf).map_err(WriteError::NoRoom);
    }
    // `Ok` and `?` copy a result field by field: a copy of the whole would wait for the stores.
    match S::strictness() {
        Strictness::Strict => Ok(put_strictly::<F>(bytes, prefix, buf)?),
        Strictness::Lossy => Ok(put_lossily::<F>(bytes, prefix, buf)?),
    }
}
