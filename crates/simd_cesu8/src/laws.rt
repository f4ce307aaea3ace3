//! The laws of both encodings. Each function does nothing: its contract is the law, for every text
//! and all bytes, in both flavors unless it names one. Call it before the code whose proof needs
//! the law. docs/DEFINITIONS.md defines stretch, mark, cutting and greedy.

ghost use Rattle.simd_cesu8.specs.Laws.{RoundTrip, CharsAreText, CharsInUtf8, SameBytes, TextIsString, CharsOfUtf8, DecodedBack, NotRefused, EncodedBack, Concat, SameText, Needs, UnchangedEncoding, UnchangedString, NoZero, Bounds, NoOverlap, OneMark, Places, HasGreedyCutting, Fewest, ReadingIsText, ReadingOfEncoding, ReadAgain, LossyIsStrict, NothingReplaced, Split, HalvesJoin, Around, Middle, Trichotomy, Transitivity, SliceOrder, OrderInCesu8, KeyOrder, OrderInMutf8, NullOutOfOrder, ScalarsOutOfOrder};

/// The strict reading of an encoding is the text, and texts with equal encodings are equal.
pub fn round_trip()
    ensures { RoundTrip }
{}

/// The characters of a `&str` are a text, and its bytes are the UTF-8 of them. Two strings with
/// equal characters have equal bytes.
pub fn chars()
    ensures text { CharsAreText }
    ensures utf8 { CharsInUtf8 }
    ensures same_bytes { SameBytes }
{}

/// For each text there is a `&str` whose characters are the text and whose bytes are its UTF-8.
pub fn utf8_of_text()
    ensures string { TextIsString }
    ensures chars { CharsOfUtf8 }
{}

/// `decode_strict` after `encode` returns the original string, and never `Invalid`. `encode` after
/// `decode_strict` returns the original bytes.
pub fn inverse()
    ensures decoded { DecodedBack }
    ensures not_refused { NotRefused }
    ensures encoded { EncodedBack }
{}

/// The encoding of a concatenation is the concatenation of the encodings.
pub fn concat()
    ensures { Concat }
{}

/// Bytes that are both UTF-8 and an encoding mean the same text in both.
pub fn same_text()
    ensures { SameText }
{}

/// A text needs no encoding exactly when its encoding is its UTF-8.
pub fn needs()
    ensures { Needs }
{}

/// A text needs no encoding exactly when its encoding is UTF-8 in which no byte changes. A string
/// needs none exactly when none of its own bytes changes.
pub fn unchanged()
    ensures encoding { UnchangedEncoding }
    ensures string { UnchangedString }
{}

/// A MUTF-8 encoding has no byte 00, and no encoding has a byte of F0 (hexadecimal) or more.
pub fn no_zero()
    ensures { NoZero }
{}

/// An encoding has at most twice the bytes of the text, and a strict reading at most those of the
/// input. The lossy reading and the text of every cutting have at most three times as many.
pub fn bounds()
    ensures { Bounds }
{}

/// The stretches of the encoded characters at any two offsets are equal or disjoint.
pub fn no_overlap()
    ensures { NoOverlap }
{}

/// Each offset has exactly one mark in the lossy reading: the one that the definitions compute.
pub fn one_mark()
    ensures { OneMark }
{}

/// Bytes have a greedy cutting into encoded characters and replaced bytes. The text of each greedy
/// cutting is the lossy reading.
pub fn places()
    ensures text { Places }
    ensures exists { HasGreedyCutting }
{}

/// Of all cuttings, only the greedy one replaces the fewest bytes. Its text is the lossy reading.
pub fn fewest()
    ensures { Fewest }
{}

/// The lossy reading of any bytes is a text, and that of an encoding is the encoded text. So
/// encoding a lossy reading and reading it again returns it unchanged. A strict reading is also the
/// lossy one. If the lossy reading has no U+FFFD, the bytes have a strict reading.
pub fn lossy()
    ensures text { ReadingIsText }
    ensures encoding { ReadingOfEncoding }
    ensures again { ReadAgain }
    ensures strict { LossyIsStrict }
    ensures undamaged { NothingReplaced }
{}

/// The lossy reading of a ++ b is that of a and then that of b exactly when no encoded character
/// begins in a and ends in b. The halves of a surrogate pair, ill-formed apart, join to one
/// character.
pub fn split()
    ensures parts { Split }
    ensures halves_join { HalvesJoin }
{}

/// The lossy reading of an encoded text, bytes and another encoded text is the first text, the
/// reading of the bytes, and the other text. Each text may be empty.
pub fn around()
    ensures { Around }
{}

/// The lossy reading of bytes, a nonempty encoded text and more bytes is the reading of the first
/// bytes, the text, and the reading of the others.
pub fn middle()
    ensures { Middle }
{}

/// Dictionary order is a total order. Of two lists the first is either less, equal or greater, and
/// the order is transitive. `cmp` of two slices in std returns it.
pub fn dictionary_order()
    ensures one_of_three { Trichotomy }
    ensures transitive { Transitivity }
    ensures slices { SliceOrder }
{}

/// In dictionary order, two encodings compare as the UTF-16 code units of their texts do: in CESU-8
/// always, and in MUTF-8 if neither text has U+0000, whose encoding is greater than that of "A".
/// This differs from the order of scalar values, which is also that of UTF-8: the encoding of
/// U+FFFF is greater than that of U+10000.
pub fn order()
    ensures cesu8 { OrderInCesu8 }
    ensures mutf8 { OrderInMutf8 }
    ensures null_differs { NullOutOfOrder }
    ensures scalars_differ { ScalarsOutOfOrder }
{}

/// In std, `cmp` of two encodings in CESU-8 returns the same as `cmp` of the UTF-16 code units of
/// their texts. So a caller that compares or sorts keys needs no other law of order.
pub fn key_order()
    ensures { KeyOrder }
{}
