//! The calls of the root, for Modified UTF-8 (MUTF-8) in place of CESU-8.

ghost use Rattle.simd_cesu8.specs.Text.{utf8};
ghost use Rattle.simd_cesu8.specs.Encoding.{Mutf8, encoding};
ghost use Rattle.simd_cesu8.specs.Reading.{reading};
ghost use Rattle.cesu8_stream.specs.Streams.{ConvertsPiece};
ghost use Rattle.cesu8_stream.specs.Lossy.{DecodesPiece};

use crate::conversion::{FromEncoding, ToEncoding};
use crate::encodings::Mutf8Encoding;
use crate::engine::convert;
use crate::lossy::decode_lossy;
use crate::progress::Progress;

/// Decodes a piece of MUTF-8 (Java's `DataInput`) strictly, and writes the UTF-8 of its text to the
/// caller's buffer, as much as fits. Neither a raw byte 00 nor four-byte UTF-8 is MUTF-8.
///
/// The state is `Malformed` if the bytes from `read` on begin with no encoded character, whatever
/// follows them. Only the caller knows whether more bytes follow: if none do, `Incomplete` means
/// that the input ends within a character. With a buffer of at least four bytes, `OutputFull` means
/// that something was read. The call requests no memory.
///
/// ```rust
/// use cesu8_stream::State;
///
/// let mut buf = [0xEE; 4];
/// let progress = cesu8_stream::mutf8::decode_strict(b"a\xC0\x80\xC0", &mut buf);
/// assert_eq!(rt; (progress.read, progress.written), (3, 2));
/// assert_eq!(rt; progress.state, State::Incomplete);
/// assert_eq!(rt; buf.as_slice(), b"a\0\xEE\xEE".as_slice());
/// ```
pub fn decode_strict(bytes: &[u8], buf: &mut [u8]) -> Progress
    ensures { ConvertsPiece (encoding Mutf8) utf8 4 bytes.now result buf.old buf.new }
{
    convert::<FromEncoding<Mutf8Encoding>>(bytes, buf)
}

/// Decodes a piece of MUTF-8 (Java's `DataInput`) that may be damaged, and writes to the caller's
/// buffer, as much as fits: the UTF-8 of each encoded character, and U+FFFD for each byte in none,
/// also for a raw byte 00 and for each byte of four-byte UTF-8.
///
/// `is_last` says that no more bytes follow. Otherwise a part of a character at the end is left for
/// the next piece: the state is then `Incomplete`. It is never `Malformed`. With a buffer of at
/// least four bytes, `OutputFull` means that something was read. The call requests no memory.
///
/// ```rust
/// use cesu8_stream::State;
///
/// let mut buf = [0xEE; 8];
/// let progress = cesu8_stream::mutf8::decode_lossy_strict(b"a\xFF\xED\xA0", false, &mut buf);
/// assert_eq!(rt; (progress.read, progress.written), (2, 4));
/// assert_eq!(rt; progress.state, State::Incomplete);
/// assert_eq!(rt; &buf[..5], b"a\xEF\xBF\xBD\xEE".as_slice());
/// ```
pub fn decode_lossy_strict(bytes: &[u8], is_last: bool, buf: &mut [u8]) -> Progress
    ensures { DecodesPiece (encoding Mutf8) (reading Mutf8) is_last bytes.now
        result buf.old buf.new }
{
    decode_lossy::<FromEncoding<Mutf8Encoding>>(bytes, is_last, buf)
}

/// Encodes a piece of UTF-8 to MUTF-8 (Java's `DataInput`), in the caller's buffer, as much as
/// fits.
///
/// The state is `Malformed` if the bytes from `read` on begin with no character of UTF-8, whatever
/// follows them. With a buffer of at least six bytes, `OutputFull` means that something was read.
/// The call requests no memory.
///
/// ```rust
/// use cesu8_stream::State;
///
/// let mut buf = [0xEE; 4];
/// let progress = cesu8_stream::mutf8::encode(b"\0ab\0", &mut buf);
/// assert_eq!(rt; (progress.read, progress.written), (3, 4));
/// assert_eq!(rt; progress.state, State::OutputFull);
/// assert_eq!(rt; buf.as_slice(), b"\xC0\x80ab".as_slice());
/// ```
pub fn encode(bytes: &[u8], buf: &mut [u8]) -> Progress
    ensures { ConvertsPiece utf8 (encoding Mutf8) 6 bytes.now result buf.old buf.new }
{
    convert::<ToEncoding<Mutf8Encoding>>(bytes, buf)
}
