//! The law of consecutive calls, in both encodings. The function does nothing: its contract is the
//! law, for every list of calls.

ghost use Rattle.cesu8_stream.specs.Laws.{StrictInPieces, EncodedInPieces, LossyInPieces};

/// However the input is cut and whatever buffers are given, the texts that the calls wrote, one
/// after another, are the text of the pieces joined. Each call is given what the one before left,
/// and then a piece, which may be empty. If nothing is left at the end, all was read.
pub fn in_pieces()
    ensures strict { StrictInPieces }
    ensures encoded { EncodedInPieces }
    ensures lossy { LossyInPieces }
{
    // A law does nothing at run time: the proof uses its contract.
    simd_cesu8::laws::concat();
}
