//! Converts as much of the input as fits in the buffer. `convert_window` tries to convert in one
//! call as many bytes as the buffer has. `convert_rest` repeats `step`, which converts some
//! characters, until none is left that is whole and fits, and then says why it stopped.

ghost use Rattle.std.specs.Prelude.{◌≡◌, ℕ, ◌<◌, ◌≤◌, List, ◌∷◌, [], length, take};
ghost use Rattle.cesu8_stream.specs.Written.{IsWritten, Begins, BeginsNone, Converts};
ghost use Rattle.cesu8_stream.specs.Streams.{ConvertsPiece, IsStateOf};

use crate::completion::may_begin;
use crate::conversion::{Conversion, LONGEST};
use crate::progress::{Progress, State};
use crate::window::whole_characters;

/// How many bytes a step read and wrote.
#[derive(Clone, Copy)]
pub struct Moved {
    pub read: usize,
    pub written: usize,
}

/// Converts as much of the input as fits in the buffer.
pub fn convert<C: Conversion>(bytes: &[u8], buf: &mut [u8]) -> Progress
    ensures { ConvertsPiece C.from C.to C.widest bytes.now result buf.old buf.new }
{
    C::laws();
    let first = convert_window::<C>(bytes, buf);
    let rest = convert_rest::<C>(&bytes[first.read..], &mut buf[first.written..]);
    Progress {
        read: first.read + rest.read,
        written: first.written + rest.written,
        state: rest.state,
    }
}

/// Converts as much of the input as fits in the buffer, without `convert_window` first. `lossy`
/// calls it for what `lossy_windows` left, and again after each byte that is replaced.
pub fn convert_rest<C: Conversion>(bytes: &[u8], buf: &mut [u8]) -> Progress
    ensures { ConvertsPiece C.from C.to C.widest bytes.now result buf.old buf.new }
{
    C::laws();
    let mut read = 0;
    let mut written = 0;
    loop {
        let moved = step::<C>(&bytes[read..], &mut buf[written..]);
        if moved.read == 0 {
            break;
        }
        read += moved.read;
        written += moved.written;
    }
    let state = state_of::<C>(&bytes[read..]);
    Progress {
        read,
        written,
        state,
    }
}

/// Converts the whole characters of the input, up to as many bytes as the buffer has. It converts
/// nothing if one of these bytes is ill-formed or the output does not fit: then `convert` converts
/// them by `convert_rest`, and `lossy_windows` by its own windows.
pub fn convert_window<C: Conversion>(bytes: &[u8], buf: &mut [u8]) -> Moved
    ensures moves { Converts C.from C.to bytes.now result.read result.written buf.old buf.new }
    ensures within { result.read ≤ length bytes.now }
{
    C::laws();
    let window = &bytes[..bytes.len().min(buf.len())];
    let whole = whole_characters(window);
    match C::write(&window[..whole], buf) {
        Some(written) => Moved {
            read: whole,
            written,
        },
        None => Moved {
            read: 0,
            written: 0,
        },
    }
}

/// Converts some characters at the start of the input. It converts none if none begins the input or
/// the first one does not fit.
fn step<C: Conversion>(bytes: &[u8], buf: &mut [u8]) -> Moved
    ensures moves { Converts C.from C.to bytes.now result.read result.written buf.old buf.new }
    ensures within { result.read ≤ length bytes.now }
    ensures stuck { result.read ≡ 0 → (c : ℕ) → Begins C.from bytes.now c
        → length buf.old < length (C.to (c ∷ [])) }
{
    let window = &bytes[..bytes.len().min(C::surely_fit(buf.len()))];
    let whole = C::valid_up_to(window);
    if whole > 0 {
        if let Some(written) = C::write(&window[..whole], buf) {
            return Moved {
                read: whole,
                written,
            };
        }
    }
    convert_first::<C>(bytes, buf)
}

/// Converts the first character, if it is whole and fits.
fn convert_first<C: Conversion>(bytes: &[u8], buf: &mut [u8]) -> Moved
    ensures moves { Converts C.from C.to bytes.now result.read result.written buf.old buf.new }
    ensures within { result.read ≤ length bytes.now }
    ensures stuck { result.read ≡ 0 → (c : ℕ) → Begins C.from bytes.now c
        → length buf.old < length (C.to (c ∷ [])) }
{
    C::laws();
    let len = first_len::<C>(bytes);
    match C::write(&bytes[..len], buf) {
        Some(written) => Moved { read: len, written },
        None => Moved {
            read: 0,
            written: 0,
        },
    }
}

/// Returns the length of the first character, or 0 if none begins the input.
pub fn first_len<C: Conversion>(bytes: &[u8]) -> usize
    ensures within { result ≤ length bytes.now }
    ensures valid { (text : List ℕ) × IsWritten C.from (take result bytes.now) text }
    ensures least { (n : ℕ) → 0 < n → n < result → BeginsNone C.from (take n bytes.now) }
    ensures none { result ≡ 0 → BeginsNone C.from bytes.now }
{
    C::laws();
    let most = bytes.len().min(LONGEST);
    // This finds that no character begins the input in one call instead of six.
    if C::valid_up_to(&bytes[..most]) == 0 {
        return 0;
    }
    for len in 1..most + 1 {
        let whole = C::valid_up_to(&bytes[..len]);
        if whole > 0 {
            return whole;
        }
    }
    0
}

/// Says of the bytes that are left why no more was converted. If a character begins them, it did
/// not fit.
fn state_of<C: Conversion>(rest: &[u8]) -> State
    ensures { IsStateOf C.from rest.now result }
{
    C::laws();
    if rest.is_empty() {
        return State::InputEmpty;
    }
    if first_len::<C>(rest) > 0 {
        return State::OutputFull;
    }
    if rest.len() < LONGEST && may_begin::<C>(rest) {
        return State::Incomplete;
    }
    State::Malformed
}
