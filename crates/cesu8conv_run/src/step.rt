//! One step of a conversion: from the unread bytes of the input to a part of the output, both in
//! memory. A step converts the whole characters at the start of the bytes, by `cesu8_stream`. If a
//! byte begins none, the mixed commands first try to copy a character of UTF-8. Otherwise the lossy
//! commands replace the byte, and the others stop.

ghost use Rattle.std.specs.Prelude.{◌≡◌, ◌≤◌, length, IsTrue, IsUtf8};
ghost use Rattle.simd_cesu8.specs.Text.{utf8};
ghost use Rattle.simd_cesu8.specs.Encoding.{encoding};
ghost use Rattle.cesu8_stream.specs.Streams.{ConvertsPiece};
ghost use Rattle.cesu8conv_run.specs.Conversion.{flavor_of};
ghost use Rattle.cesu8conv_run.specs.Steps.{IsStep, Replaces, IsAfter};

use crate::conversion::{Conversion, FlavorWord};
use cesu8_stream::{Progress, State, mutf8};
use simd_cesu8::laws;
use simdutf8::compat;
use std::simd::cmp::SimdPartialEq;
use std::simd::u8x32;

/// U+FFFD in UTF-8.
const REPLACEMENT: [u8; 3] = [0xEF, 0xBF, 0xBD];

/// How many bytes a mixed step searches for a byte that only UTF-8 has. Only these are read twice:
/// by the search, and by `decode`.
const WINDOW: usize = 4096;

/// What a step did, and what it needs to go on.
#[derive(Clone, Copy)]
pub struct Step {
    /// How many bytes at the start were taken.
    pub read: usize,
    /// How many bytes of the buffer they became.
    pub written: usize,
    /// 1 if the last byte that was taken was replaced, and otherwise 0.
    pub replaced: usize,
    /// What comes next.
    pub next: Next,
}

/// What a step needs to go on.
#[derive(Clone, Copy)]
pub enum Next {
    /// More input; at its end nothing, since all bytes were taken.
    Input,
    /// A buffer with more space.
    Room,
    /// Nothing: another step goes on.
    Step,
    /// The next byte begins damage.
    Stop,
}

/// Takes one step of the conversion. If `is_last` is true, the input ends after these bytes.
pub fn take_step(conversion: Conversion, bytes: &[u8], is_last: bool, room: &mut [u8]) -> Step
    ensures { IsStep conversion bytes.now is_last room.new result }
{
    match conversion {
        Conversion::Encode(flavor) => encode_step(flavor, bytes, is_last, room),
        Conversion::Decode(flavor) => decode_step(flavor, bytes, is_last, room),
        Conversion::Lossy(flavor) => lossy_step(flavor, bytes, is_last, room),
        Conversion::Mixed(flavor) => mixed_step(flavor, bytes, is_last, room),
        Conversion::MixedLossy(flavor) => mixed_lossy_step(flavor, bytes, is_last, room),
    }
}

fn encode_step(flavor: FlavorWord, bytes: &[u8], is_last: bool, room: &mut [u8]) -> Step
    ensures { IsStep (Conversion.Encode flavor) bytes.now is_last room.new result }
{
    after(encode(flavor, bytes, room), is_last)
}

fn decode_step(flavor: FlavorWord, bytes: &[u8], is_last: bool, room: &mut [u8]) -> Step
    ensures { IsStep (Conversion.Decode flavor) bytes.now is_last room.new result }
{
    after(decode(flavor, bytes, room), is_last)
}

/// Decodes, or replaces the first byte if it is damaged.
fn lossy_step(flavor: FlavorWord, bytes: &[u8], is_last: bool, room: &mut [u8]) -> Step
    ensures { IsStep (Conversion.Lossy flavor) bytes.now is_last room.new result }
{
    // Laws do nothing at run time: the proof uses their contracts.
    laws::around();
    laws::places();
    replace(decode_step(flavor, bytes, is_last, room), room)
}

/// Decodes up to the next byte that only UTF-8 has, or copies the character that begins with it.
fn mixed_step(flavor: FlavorWord, bytes: &[u8], is_last: bool, room: &mut [u8]) -> Step
    ensures { IsStep (Conversion.Mixed flavor) bytes.now is_last room.new result }
{
    let len = encoded_len(flavor, bytes);
    if len > 0 {
        let step = front_step(flavor, bytes, len, is_last, room);
        if step.read > 0 {
            return step;
        }
    }
    pass_step(flavor, bytes, is_last, room)
}

/// Takes a mixed step, or replaces the first byte if it is damaged.
fn mixed_lossy_step(flavor: FlavorWord, bytes: &[u8], is_last: bool, room: &mut [u8]) -> Step
    ensures { IsStep (Conversion.MixedLossy flavor) bytes.now is_last room.new result }
{
    replace(mixed_step(flavor, bytes, is_last, room), room)
}

/// Decodes the whole characters in the first `len` bytes. Only the contract uses `is_last`.
fn front_step(flavor: FlavorWord, bytes: &[u8], len: usize, is_last: bool, room: &mut [u8]) -> Step
    requires { len ≤ length bytes.now }
    ensures { IsStep (Conversion.Mixed flavor) bytes.now is_last room.new result }
{
    let front = decode(flavor, &bytes[..len], room);
    Step {
        read: front.read,
        written: front.written,
        replaced: 0,
        next: Next::Step,
    }
}

/// Copies the character of UTF-8 that begins the bytes, if the encoding writes it in another way.
/// Otherwise it decodes.
fn pass_step(flavor: FlavorWord, bytes: &[u8], is_last: bool, room: &mut [u8]) -> Step
    ensures { IsStep (Conversion.Mixed flavor) bytes.now is_last room.new result }
{
    let len = utf8_len(flavor, bytes);
    if len > bytes.len() {
        if !is_last && is_cut(bytes) {
            return nothing(Next::Input);
        }
    } else if len > 0 && is_utf8(&bytes[..len]) {
        if room.len() < len {
            return nothing(Next::Room);
        }
        room[..len].copy_from_slice(&bytes[..len]);
        return Step {
            read: len,
            written: len,
            replaced: 0,
            next: Next::Step,
        };
    }
    decode_step(flavor, bytes, is_last, room)
}

/// The step that takes nothing.
pub fn nothing(next: Next) -> Step
    ensures read { result.read ≡ 0 }
    ensures written { result.written ≡ 0 }
    ensures next { result.next ≡ next }
{
    Step {
        read: 0,
        written: 0,
        replaced: 0,
        next,
    }
}

/// The step that a call of `cesu8_stream` took. At the end of the input, a part of a character is
/// damage.
fn after(front: Progress, is_last: bool) -> Step
    ensures { IsAfter front is_last result }
{
    let next = match front.state {
        State::InputEmpty => Next::Input,
        State::OutputFull => Next::Room,
        State::Incomplete => { if is_last { Next::Stop } else { Next::Input } }
        State::Malformed => Next::Stop,
    };
    Step {
        read: front.read,
        written: front.written,
        replaced: 0,
        next,
    }
}

/// Replaces the byte at which a step stopped by U+FFFD. If the step converted any bytes before it,
/// another step has to replace it.
fn replace(step: Step, room: &mut [u8]) -> Step
    ensures { Replaces step room.old room.new result }
{
    match step.next {
        Next::Stop => {}
        _ => return step,
    }
    if step.read > 0 {
        return Step {
            next: Next::Step,
            ..step
        };
    }
    if room.len() < REPLACEMENT.len() {
        return Step {
            next: Next::Room,
            ..step
        };
    }
    room[..REPLACEMENT.len()].copy_from_slice(&REPLACEMENT);
    Step {
        read: 1,
        written: REPLACEMENT.len(),
        replaced: 1,
        next: Next::Step,
    }
}

/// Decodes as much as fits.
fn decode(flavor: FlavorWord, bytes: &[u8], room: &mut [u8]) -> Progress
    ensures { ConvertsPiece (encoding (flavor_of flavor)) utf8 4 bytes.now
        result room.old room.new }
{
    match flavor {
        FlavorWord::Cesu8 => cesu8_stream::decode_strict(bytes, room),
        FlavorWord::Mutf8 => mutf8::decode_strict(bytes, room),
    }
}

/// Encodes as much as fits.
fn encode(flavor: FlavorWord, bytes: &[u8], room: &mut [u8]) -> Progress
    ensures { ConvertsPiece utf8 (encoding (flavor_of flavor)) 6 bytes.now
        result room.old room.new }
{
    match flavor {
        FlavorWord::Cesu8 => cesu8_stream::encode(bytes, room),
        FlavorWord::Mutf8 => mutf8::encode(bytes, room),
    }
}

/// How many bytes come before the next one that only UTF-8 has, or before the end of the window. It
/// may be fewer: nothing but speed depends on it.
fn encoded_len(flavor: FlavorWord, bytes: &[u8]) -> usize
    ensures { result ≤ length bytes.now }
{
    let most = bytes.len().min(WINDOW);
    let (blocks, rest) = bytes[..most].as_chunks::<32>();
    // Bytes from F0 on are found in both encodings, and in MUTF-8 also 00. FF in place of 00 finds
    // no more.
    let other = u8x32::splat(match flavor {
        FlavorWord::Cesu8 => 0xFF,
        FlavorWord::Mutf8 => 0,
    });
    // The sums cannot overflow, but `wrapping_add` and `min` spare the proof of that.
    let mut len = 0usize;
    for block in blocks {
        let lanes = u8x32::from_array(*block);
        let high = lanes & u8x32::splat(0xF0);
        let marks = high.simd_eq(u8x32::splat(0xF0)).to_bitmask()
            | lanes.simd_eq(other).to_bitmask();
        if marks != 0 {
            return len.wrapping_add(marks.trailing_zeros() as usize).min(most);
        }
        len = len.wrapping_add(32);
    }
    for byte in rest {
        if utf8_len(flavor, &[*byte]) > 0 {
            break;
        }
        len = len.wrapping_add(1);
    }
    len.min(most)
}

/// How many bytes the character of UTF-8 has that these bytes begin with, if the encoding writes it
/// in another way, and otherwise 0. This looks at the first byte only.
fn utf8_len(flavor: FlavorWord, bytes: &[u8]) -> usize
    ensures { result ≤ 4 }
{
    match (bytes.first(), flavor) {
        (Some(0xF0..=0xF4), _) => 4,
        (Some(0), FlavorWord::Mutf8) => 1,
        _ => 0,
    }
}

/// Whether the bytes are UTF-8.
fn is_utf8(bytes: &[u8]) -> bool
    ensures { IsTrue result → IsUtf8 bytes.now }
{
    compat::from_utf8(bytes).is_ok()
}

/// Whether the bytes are a beginning of a character of UTF-8.
fn is_cut(bytes: &[u8]) -> bool {
    match compat::from_utf8(bytes) {
        Ok(_) => false,
        Err(error) => error.valid_up_to() == 0 && error.error_len().is_none(),
    }
}
