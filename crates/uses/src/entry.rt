//! Entries of a table, all of one size.

ghost use Rattle.std.specs.Prelude.{◌≡◌, ◌≤◌, ◌↔◌, ℕ, List, [], length, IsOk, IfErr, OnOk, OnErr};
ghost use Rattle.std.specs.Str.{chars};
ghost use Rattle.simd_cesu8.specs.Encoding.{Mutf8, encoding};
ghost use Rattle.simd_cesu8.specs.Slices.{WritesAnswer};
ghost use Rattle.uses.specs.Entry.{HoldsName, HoldsText};

use simd_cesu8::{DecodeSliceFault, TooShort, laws, mutf8};

/// How many bytes of MUTF-8 a name has at most.
const NAME_SIZE: usize = 32;

/// An entry, which holds its name in MUTF-8.
#[derive(Clone, Copy, Debug)]
pub struct Entry {
    pub id: u32,
    name: [u8; NAME_SIZE],
    name_len: u8,
    ghost in_field: { name_len ≤ 32 },
    ghost encoded: { HoldsText name_len name },
}

impl Entry {
    /// Returns an entry with an empty name.
    pub fn new(id: u32) -> Entry
        ensures id { result.id ≡ id }
        ensures name { HoldsName result.name_len result.name [] }
    {
        Entry {
            id,
            name: [0; NAME_SIZE],
            name_len: 0,
        }
    }

    /// Gives the entry this name.
    ///
    /// If its MUTF-8 is longer than the field, the entry is unchanged, and `TooShort` has its
    /// length.
    ///
    /// ```rust
    /// let mut entry = uses::Entry::new(1);
    /// entry.set_name("a\0")?;
    /// let mut buf = [0xEE; 4];
    /// assert_eq!(rt; entry.name(&mut buf)?, 2);
    /// assert_eq!(rt; buf.as_slice(), b"a\0\xEE\xEE".as_slice());
    /// ```
    pub fn set_name(&mut self, name: &str) -> Result<(), TooShort>
        ensures stored { OnOk result (HoldsName self.new.name_len self.new.name name.now) }
        ensures fits { IsOk result ↔ length (encoding Mutf8 (chars name.now)) ≤ 32 }
        ensures needed { IfErr result (λ fault.
            fault.needed ≡ length (encoding Mutf8 (chars name.now))) }
        ensures err { OnErr result ((self.new.name ≡ self.old.name)
            × (self.new.name_len ≡ self.old.name_len)) }
        ensures id { self.new.id ≡ self.old.id }
    {
        // A law does nothing at run time: the proof uses its contract.
        laws::chars();
        let len = mutf8::encode_to_slice(name, &mut self.name)?;
        self.name_len = len as u8;
        Ok(())
    }

    /// Writes the name's UTF-8 to the start of a buffer, and returns its length.
    ///
    /// If the buffer is too short, it is unchanged, and `TooShort` has the length of the UTF-8.
    pub fn name(&self, buf: &mut [u8]) -> Result<usize, TooShort>
        ensures { (name : List ℕ) → HoldsName self.now.name_len self.now.name name →
            WritesAnswer name result buf.old buf.new }
    {
        laws::chars();
        laws::round_trip();
        match mutf8::decode_strict_to_slice(&self.name[..self.name_len as usize], buf) {
            Ok(len) => Ok(len),
            Err(DecodeSliceFault::TooShort(fault)) => Err(fault),
            // The field holds the encoding of a text.
            Err(DecodeSliceFault::Invalid(_)) => unreachable!(),
        }
    }
}
