//! Prints how the errors display. `tests/memory.sh` compares the lines with what it expects.

use crate::prints::{print_outcome, yes_or_no};
use java_text::{ReadFault, ReadSliceFault, WriteFault, WriteSliceFault};
use simd_cesu8::{CowText, DecodeFault, DecodeSliceFault, DecodingError, LossySliceFault};
use std::alloc::AllocError;
use std::io;
use std::io::ErrorKind;

/// Prints each error, and first that of the result, from which it also takes the `DecodingError`:
/// only a call makes one. Prints whether that equals itself. The result is one for invalid input.
pub fn show(rt: &HostRuntime, decoded: Result<CowText<'_>, DecodeFault>) -> io::Result<()> {
    let Err(fault) = decoded else {
        return Err(ErrorKind::InvalidInput.into());
    };
    println!(rt; "{fault}, {}", DecodeFault::Memory(AllocError))?;
    println!(rt; "{}, {}", WriteFault::TooLong(65_536), WriteFault::Memory)?;
    println!(rt; "{}, {}", ReadFault::Truncated, ReadFault::Memory)?;
    match fault {
        DecodeFault::Invalid(error) => show_error(rt, error),
        DecodeFault::Memory(_) => print_outcome(rt, "memory", &[]),
    }
}

fn show_error(rt: &HostRuntime, error: DecodingError) -> io::Result<()> {
    println!(rt; "{error}, {error:?}, {}", ReadFault::Invalid(error))?;
    show_slice_faults(rt, error)?;
    print_outcome(rt, yes_or_no(error == error), &[])
}

/// Prints each error of the calls that write to a slice.
fn show_slice_faults(rt: &HostRuntime, error: DecodingError) -> io::Result<()> {
    let Err(short) = simd_cesu8::encode_to_slice("a", &mut []) else {
        return Err(ErrorKind::InvalidInput.into());
    };
    println!(rt; "{short}, {}", DecodeSliceFault::TooShort(short))?;
    println!(rt; "{}", DecodeSliceFault::Invalid(error))?;
    println!(rt;
        "{}, {}",
        LossySliceFault::TooShort(short),
        LossySliceFault::TooLong
    )?;
    println!(rt;
        "{}, {}",
        WriteSliceFault::TooShort(3),
        WriteSliceFault::TooLong(65_536)
    )?;
    println!(rt;
        "{}, {}",
        ReadSliceFault::TooShort(1),
        ReadSliceFault::Truncated
    )?;
    println!(rt; "{}", ReadSliceFault::Invalid(error))
}
