//! The shuffles that drop some of eight bytes, one for each subset.

ghost use Rattle.cesu8_bytes.specs.Packing.{AreShufflesOfEight};

use crate::Rows;

// Expands to the rows for the given bytes. Each byte doubles the rows: after those that keep it
// come those that drop it. A row is the bytes that it keeps, and a 1 for each that it drops. At the
// end each 1 becomes a 0 of the row, and is subtracted from the count.
macro_rules! rows {
    ($([$($kept:literal)*] [$($dropped:literal)*])*; $byte:literal $($bytes:literal)*) => {
        rows!(
            $([$($kept)* $byte] [$($dropped)*])* $([$($kept)*] [$($dropped)* 1])*; $($bytes)*
        )
    };
    ($([$($kept:literal)*] [$($dropped:literal)*])*;) => {
        [$([$($kept,)* $($dropped - 1,)* 0, 0, 0, 0, 0, 0, 0, 8 $(- $dropped)*]),*]
    };
}

/// Row `dropped` drops byte `i` if bit `i` of `dropped` is set. Its last number is the count of
/// kept bytes. The zeros between are part of the contract, and what they select is overwritten.
const ROWS: Rows = rows!([] []; 0 1 2 3 4 5 6 7);

/// Returns a reference to the table: indexing the constant would copy it to the stack.
pub fn rows_of_eight() -> &'static Rows
    ensures { AreShufflesOfEight result.now }
{
    &ROWS
}
