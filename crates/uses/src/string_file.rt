//! Files of Java strings.

ghost use Rattle.std.specs.Prelude.{◌≡◌, ◌++◌, ℕ, List, IfOk, OnErr};
ghost use Rattle.java_text.specs.Fault.{OnRefused};
ghost use Rattle.uses.specs.StringFile.{CopiesStrings, NoneAreRead};

use java_text::{ReadFault, WriteFault, laws};
use std::alloc::Global;

/// Appends the strings of one file, each after its length, to another: all of them, or none.
/// Returns how many.
///
/// ```rust
/// let mut target = Vec::new(alloc);
/// let count = uses::copy_strings(alloc, b"\0\x01A\0\x02\xC0\x80", &mut target)?;
/// assert_eq!(rt; count, 2);
/// assert_eq!(rt; target.as_slice(), b"\0\x01A\0\x02\xC0\x80".as_slice());
/// assert!(rt; uses::copy_strings(alloc, b"\0\x01A\0\x02\xC0", &mut target).is_err());
/// assert_eq!(rt; target.len(), 7);
/// ```
pub fn copy_strings(alloc: Global, source: &[u8], target: &mut Vec<u8>) -> Result<usize, ReadFault>
    ensures copied { IfOk result (λ count.
        CopiesStrings count source.now target.old.items target.new.items) }
    ensures refused { OnRefused result (NoneAreRead source.now) }
    ensures err { OnErr result (target.new.items ≡ target.old.items) }
{
    let before = target.len();
    let copied = append_strings(alloc, source, target);
    if copied.is_err() {
        target.truncate(before);
    }
    copied
}

/// Like `copy_strings`, but if it returns an error, the strings that it appended before remain.
fn append_strings(alloc: Global, source: &[u8], target: &mut Vec<u8>) -> Result<usize, ReadFault>
    ensures copied { IfOk result (λ count.
        CopiesStrings count source.now target.old.items target.new.items) }
    ensures refused { OnRefused result (NoneAreRead source.now) }
    ensures grown { (more : List ℕ) × (target.new.items ≡ target.old.items ++ more) }
{
    // Laws do nothing at run time: the proof uses their contracts.
    laws::bounds();
    laws::in_turn();
    let mut rest = source;
    let mut count: usize = 0;
    while !rest.is_empty() {
        let (text, after) = java_text::read_utf(alloc, rest)?;
        match java_text::write_utf(text.as_str(), target) {
            Ok(()) => {}
            Err(WriteFault::Memory) => return Err(ReadFault::Memory),
            // The text was read from a Java string, so it is not too long for one.
            Err(WriteFault::TooLong(_)) => unreachable!(),
        }
        rest = after;
        count += 1;
    }
    Ok(count)
}
