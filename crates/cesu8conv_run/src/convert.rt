//! A conversion of a stream: any input, in constant memory. The stream is read into one buffer,
//! converted into another a step at a time, and that is written. After each write, what was written
//! is the conversion of the input that was taken. At the end that is all of the input.
//!
//! Rattle requires that each loop ends, so these count to `u64::MAX`, which no run reaches. Of the
//! lines after the loops, only the error in `write_whole` is reached, if a write accepts no byte.
//! An interrupted call would not be repeated, but the program has no signal handler to interrupt
//! one.

ghost use Rattle.std.specs.Prelude.{◌≡◌, ◌++◌, ◌<◌, ℕ, Option, List, false, length, take, OnOk, OnErr, IfOk, IfErr};
ghost use Rattle.std.specs.Io.KnownBytes.{Appends, IsAtEnd};
ghost use Rattle.cesu8conv_run.specs.Steps.{IsStep};
ghost use Rattle.cesu8conv_run.specs.Stream.{WritesOutput, StopsBy, IsSoFar, ReadsMore, IsRound, IsPiece, BreaksPiece};

use crate::conversion::Conversion;
use crate::fault::Fault;
use crate::step::{Next, Step, nothing, take_step};
use crate::watch::Watch;
use simd_cesu8::laws;
use std::io::{self, ErrorKind, Read, Write};

/// The fewest bytes that a buffer may have. The longest character, a surrogate pair, has six.
const LEAST: usize = 8;

/// What a round did: it read a piece of the input, and converted that.
#[derive(Clone, Copy)]
pub struct Round {
    /// How many bytes were taken.
    pub read: usize,
    /// How many bytes at the front of the window are left.
    pub left: usize,
    /// Whether the input ended.
    pub is_last: bool,
    /// Whether the bytes that are left begin with damage.
    pub is_damaged: bool,
}

/// What was converted of a piece of the input.
#[derive(Clone, Copy)]
pub struct Piece {
    /// How many bytes were taken.
    pub read: usize,
    /// Whether the bytes that are left begin with damage. Otherwise more input is needed.
    pub is_damaged: bool,
}

/// Converts all that the reader has, and writes it to the writer. It allocates nothing: it reads
/// into `window`, and converts from there into `room`. After `Damage`, the bytes from the damage on
/// that were read are at the front of the window.
pub fn convert<R: Read, W: Write, V: Watch>(
    conversion: Conversion,
    input: &mut R,
    output: &mut W,
    window: &mut [u8],
    room: &mut [u8],
    watch: &mut V,
) -> Result<(), Fault>
    ensures ok { OnOk result (WritesOutput conversion (R.remaining input.old)
        (W.contents output.old) (W.contents output.new)) }
    ensures end { OnOk result (IsAtEnd (R.remaining input.new)) }
    ensures err { IfErr result (λ fault. StopsBy conversion fault (R.remaining input.old)
        (W.contents output.old) (W.contents output.new)) }
{
    if window.len() < LEAST || room.len() < LEAST {
        return Err(Fault::Limit);
    }
    let mut offset = 0u64;
    let mut unread = 0;
    for _ in 0..u64::MAX {
        // Neither can happen: less than a character is unread, and no input has that many bytes.
        if unread >= window.len() || offset > u64::MAX - window.len() as u64 {
            return Err(Fault::Limit);
        }
        let round = match convert_more(conversion, input, output, window, unread, room, watch) {
            Ok(round) => round,
            Err(fault) => return Err(fault),
        };
        offset += round.read as u64;
        unread = round.left;
        if round.is_damaged {
            return Err(Fault::Damage(offset, unread));
        }
        if round.is_last {
            return Ok(());
        }
    }
    Err(Fault::Limit)
}

/// Reads more after the unread bytes of the window, converts it as far as it goes, writes that, and
/// moves the bytes that are left to the front of the window.
fn convert_more<R: Read, W: Write, V: Watch>(
    conversion: Conversion,
    input: &mut R,
    output: &mut W,
    window: &mut [u8],
    unread: usize,
    room: &mut [u8],
    watch: &mut V,
) -> Result<Round, Fault>
    requires { unread < length window.now }
    ensures ok { IfOk result (λ round. IsRound conversion (R.remaining input.old)
        (R.remaining input.new) (W.contents output.old) (W.contents output.new)
        (take unread window.old) window.new round) }
    ensures err { IfErr result (λ fault. (r0 w0 : Option (List ℕ)) (offset : ℕ)
        → IsSoFar conversion false r0 (R.remaining input.old) w0 (W.contents output.old)
        (take unread window.old) offset
        → StopsBy conversion fault r0 w0 (W.contents output.new)) }
{
    // A law does nothing at run time: the proof uses its contract.
    laws::concat();
    let end = match read_more(input, window, unread) {
        Ok(end) => end,
        Err(error) => return Err(Fault::Read(error)),
    };
    let is_last = end == unread;
    let piece = match convert_piece(conversion, &window[..end], is_last, room, output, watch) {
        Ok(piece) => piece,
        Err(error) => return Err(Fault::Write(error)),
    };
    window.copy_within(piece.read..end, 0);
    Ok(Round {
        read: piece.read,
        left: end - piece.read,
        is_last,
        is_damaged: piece.is_damaged,
    })
}

/// Reads more after the unread bytes of the window, and returns where the bytes then end. That is
/// still `unread` only at the end of the input.
fn read_more<R: Read>(input: &mut R, window: &mut [u8], unread: usize) -> io::Result<usize>
    requires { unread < length window.now }
    ensures { IfOk result (λ end. ReadsMore unread end (R.remaining input.old)
        (R.remaining input.new) window.old window.new) }
{
    let count = input.read(&mut window[unread..])?;
    Ok(unread + count)
}

/// Converts a piece of the input as far as it goes, and writes that.
fn convert_piece<W: Write, V: Watch>(
    conversion: Conversion,
    bytes: &[u8],
    is_last: bool,
    room: &mut [u8],
    output: &mut W,
    watch: &mut V,
) -> io::Result<Piece>
    ensures ok { IfOk result (λ piece. IsPiece conversion bytes.now is_last piece
        (W.contents output.old) (W.contents output.new)) }
    ensures err { OnErr result (BreaksPiece conversion bytes.now is_last
        (W.contents output.old) (W.contents output.new)) }
{
    laws::concat();
    let mut read = 0;
    for _ in 0..u64::MAX {
        let step = take_steps(conversion, &bytes[read..], is_last, room, watch);
        match write_whole(&room[..step.written], output) {
            Ok(()) => read += step.read,
            Err(error) => return Err(error),
        }
        match step.next {
            Next::Input => return Ok(Piece {
                read,
                is_damaged: false,
            }),
            Next::Stop => return Ok(Piece {
                read,
                is_damaged: true,
            }),
            Next::Room | Next::Step => {}
        }
    }
    Err(io::Error::from(ErrorKind::WriteZero))
}

/// Takes steps until one needs more than another step, and returns them as one.
fn take_steps<V: Watch>(
    conversion: Conversion,
    bytes: &[u8],
    is_last: bool,
    room: &mut [u8],
    watch: &mut V,
) -> Step
    ensures { IsStep conversion bytes.now is_last room.new result }
{
    laws::concat();
    let mut all = nothing(Next::Step);
    for _ in 0..u64::MAX {
        let step = take_step(
            conversion,
            &bytes[all.read..],
            is_last,
            &mut room[all.written..],
        );
        watch.taken(&bytes[all.read..all.read + step.read], step.replaced);
        all = Step {
            read: all.read + step.read,
            written: all.written + step.written,
            ..step
        };
        match all.next {
            Next::Step => {}
            _ => return all,
        }
    }
    all
}

/// Writes all of the bytes.
fn write_whole<W: Write>(bytes: &[u8], output: &mut W) -> io::Result<()>
    ensures ok { OnOk result (Appends (W.contents output.old) (W.contents output.new) bytes.now) }
    ensures err { OnErr result ((written : List ℕ) × (rest : List ℕ) × (bytes.now ≡ written ++ rest)
        × Appends (W.contents output.old) (W.contents output.new) written) }
{
    let mut rest = bytes;
    for _ in 0..u64::MAX {
        if rest.is_empty() {
            return Ok(());
        }
        match output.write(rest) {
            Ok(0) => break,
            Ok(count) => rest = &rest[count..],
            Err(error) => return Err(error),
        }
    }
    Err(io::Error::from(ErrorKind::WriteZero))
}
