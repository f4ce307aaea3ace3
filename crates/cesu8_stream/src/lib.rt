//! CESU-8 and Modified UTF-8 (MUTF-8) that come in pieces, as reads of a file or a socket return
//! them: from the encoding to UTF-8 and back, between slices, without an allocator.
//!
//! | you have | you want | call |
//! |---|---|---|
//! | pieces of the encoding | their text, or where the first damage is | [`decode_strict`] |
//! | pieces of the encoding, perhaps damaged | a text in any case | [`decode_lossy_strict`] |
//! | pieces of UTF-8 | its encoding | [`encode`] |
//!
//! The root's calls are for CESU-8, and those of [`mutf8`] for MUTF-8. A call reads as much as fits
//! in the buffer, and returns how many bytes it read and wrote and why it stopped. Call again with
//! the bytes from `read` on, and after `Incomplete` with more bytes after these. However the input
//! is cut and whatever buffers are given, what the calls write, one after another, is the text of
//! the pieces joined: [`laws`] says so.
//!
//! ```rust
//! use cesu8_stream::State;
//!
//! let mut buf = [0; 8];
//! let first = cesu8_stream::decode_strict(b"a\xED\xA0\xBD\xED", &mut buf);
//! assert_eq!(rt; (first.read, first.written, first.state), (1, 1, State::Incomplete));
//! let second = cesu8_stream::decode_strict(b"\xED\xA0\xBD\xED\xB2\x96", &mut buf[1..]);
//! assert_eq!(rt; (second.read, second.written, second.state), (6, 4, State::InputEmpty));
//! assert_eq!(rt; &buf[..5], "a\u{1F496}".as_bytes());
//! ```
#![tactic(auto)]

ghost use Rattle.simd_cesu8.specs.Text.{utf8};
ghost use Rattle.simd_cesu8.specs.Encoding.{Cesu8, encoding};
ghost use Rattle.simd_cesu8.specs.Reading.{reading};
ghost use Rattle.cesu8_stream.specs.Streams.{ConvertsPiece};
ghost use Rattle.cesu8_stream.specs.Lossy.{DecodesPiece};

mod completion;
mod conversion;
mod cut;
mod decoding;
mod encodings;
mod engine;
pub mod laws;
mod lossy;
mod lossy_windows;
pub mod mutf8;
mod progress;
mod text;
mod window;

use crate::conversion::{FromEncoding, ToEncoding};
use crate::encodings::Cesu8Encoding;
use crate::engine::convert;
use crate::lossy::decode_lossy;
pub use crate::progress::{Progress, State};

/// Decodes a piece of CESU-8 (Unicode Technical Report 26) strictly, and writes the UTF-8 of its
/// text to the caller's buffer, as much as fits.
///
/// The state is `Malformed` if the bytes from `read` on begin with no encoded character, whatever
/// follows them. Only the caller knows whether more bytes follow: if none do, `Incomplete` means
/// that the input ends within a character. With a buffer of at least four bytes, `OutputFull` means
/// that something was read. The call requests no memory.
///
/// ```rust
/// use cesu8_stream::State;
///
/// let mut buf = [0xEE; 4];
/// let progress = cesu8_stream::decode_strict(b"abc\xED\xA0\xBD\xED\xB2\x96", &mut buf);
/// assert_eq!(rt; (progress.read, progress.written), (3, 3));
/// assert_eq!(rt; progress.state, State::OutputFull);
/// assert_eq!(rt; buf.as_slice(), b"abc\xEE".as_slice());
/// ```
pub fn decode_strict(bytes: &[u8], buf: &mut [u8]) -> Progress
    ensures { ConvertsPiece (encoding Cesu8) utf8 4 bytes.now result buf.old buf.new }
{
    convert::<FromEncoding<Cesu8Encoding>>(bytes, buf)
}

/// Decodes a piece of CESU-8 (Unicode Technical Report 26) that may be damaged, and writes to the
/// caller's buffer, as much as fits: the UTF-8 of each encoded character, and U+FFFD for each byte
/// in none.
///
/// `is_last` says that no more bytes follow. Otherwise a part of a character at the end is left for
/// the next piece: the state is then `Incomplete`. It is never `Malformed`. With a buffer of at
/// least four bytes, `OutputFull` means that something was read. The call requests no memory.
///
/// ```rust
/// use cesu8_stream::State;
///
/// let mut buf = [0xEE; 8];
/// let progress = cesu8_stream::decode_lossy_strict(b"a\xFF\xED\xA0", false, &mut buf);
/// assert_eq!(rt; (progress.read, progress.written), (2, 4));
/// assert_eq!(rt; progress.state, State::Incomplete);
/// assert_eq!(rt; &buf[..5], b"a\xEF\xBF\xBD\xEE".as_slice());
/// ```
pub fn decode_lossy_strict(bytes: &[u8], is_last: bool, buf: &mut [u8]) -> Progress
    ensures { DecodesPiece (encoding Cesu8) (reading Cesu8) is_last bytes.now
        result buf.old buf.new }
{
    decode_lossy::<FromEncoding<Cesu8Encoding>>(bytes, is_last, buf)
}

/// Encodes a piece of UTF-8 to CESU-8 (Unicode Technical Report 26), in the caller's buffer, as
/// much as fits.
///
/// The state is `Malformed` if the bytes from `read` on begin with no character of UTF-8, whatever
/// follows them. With a buffer of at least six bytes, `OutputFull` means that something was read.
/// The call requests no memory.
///
/// ```rust
/// use cesu8_stream::State;
///
/// let mut buf = [0xEE; 8];
/// let progress = cesu8_stream::encode(b"\xF0\x90\x90\x80\xC3", &mut buf);
/// assert_eq!(rt; (progress.read, progress.written), (4, 6));
/// assert_eq!(rt; progress.state, State::Incomplete);
/// assert_eq!(rt; buf.as_slice(), b"\xED\xA0\x81\xED\xB0\x80\xEE\xEE".as_slice());
/// ```
pub fn encode(bytes: &[u8], buf: &mut [u8]) -> Progress
    ensures { ConvertsPiece utf8 (encoding Cesu8) 6 bytes.now result buf.old buf.new }
{
    convert::<ToEncoding<Cesu8Encoding>>(bytes, buf)
}
