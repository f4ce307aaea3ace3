//! The shuffles that pack a row of eight bytes, one for each subset of bytes that become two. The
//! first and the third byte of a four-byte character do, and in MUTF-8 the byte 00.

ghost use Rattle.cesu8_encode.specs.EncodedOffsets.{AreShuffles};

use cesu8_bytes::Rows;

// Expands to the rows for the given bytes. Each byte is a pair: the lane of the last byte that is
// written for it, and that of the one before. Each doubles the number of rows: after those that
// keep only `$last` come those that keep both. A row ends with a 0 for each dropped lane.
macro_rules! rows {
    (
        $([$($kept:literal)*] [$($zero:literal)*])*;
        ($last:literal $first:literal) $($bytes:tt)*
    ) => {
        rows!(
            $([$($kept)* $last] [$($zero)* 0])* $([$($kept)* $first $last] [$($zero)*])*;
            $($bytes)*
        )
    };
    ($([$($kept:literal)*] [$($zero:literal)*])*;) => {
        [$([$($kept,)* $($zero),*]),*]
    };
}

/// Lane `i` has the last byte that is written for byte `i`, and lane `8 + i` the one before it. Row
/// `doubled` keeps lane `8 + i` if bit `i` of `doubled` is set. The zeros at the end are part of
/// the contract, and what they select lies after the end of the row's content.
const ROWS: Rows = rows!([] []; (0 8) (1 9) (2 10) (3 11) (4 12) (5 13) (6 14) (7 15));

/// Returns a reference to the table.
pub fn doubling_rows() -> &'static Rows
    ensures { AreShuffles result.now }
{
    &ROWS
}
