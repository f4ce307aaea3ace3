//! The text constants of a Java class file: an example of a caller of `java_text`.

ghost use Rattle.std.specs.Prelude.{◌≡◌, ◌↔◌, slice_index, IsOk};
ghost use Rattle.java_text.specs.Read.{IfRead};
ghost use Rattle.uses.specs.ClassFile.{BeginsWithConstant, BeginsOnlyWithConstant, HasOtherTag, IsCutShort, IsPlainConstant, NoConstantBegins, OnRefused};
ghost use Rattle.uses.specs.declared.class_file.ConstantFault.TheVariants.{Text};

use java_text::ReadFault;
use simd_cesu8::CowText;
use std::alloc::Global;

/// The tag of a text constant.
const UTF8_TAG: u8 = 1;

/// Why bytes have no text constant.
#[derive(Debug, Drop)]
pub enum ConstantFault {
    /// A constant of another kind begins the bytes, with this tag.
    OtherTag(u8),
    /// There is no tag, or there is no text after it.
    Text(ReadFault),
}

impl From<ReadFault> for ConstantFault {
    ghost from_gives = { λ fault told. told ≡ Text fault };

    fn from(fault: ReadFault) -> ConstantFault {
        ConstantFault::Text(fault)
    }
}

/// Reads the text constant that begins the bytes of a constant pool (`CONSTANT_Utf8` of the Java
/// Virtual Machine Specification). It returns its text, and the bytes after it, where the next
/// constant begins.
///
/// The text borrows the bytes if they are its UTF-8, and then nothing is allocated. A class file
/// may have unpaired surrogates in such a constant. They are no text, so the call returns an error.
///
/// ```rust
/// let (name, rest) = uses::read_utf8_constant(alloc, b"\x01\0\x03a\xC0\x80\x07\0\x02")?;
/// assert_eq!(rt; name.as_str(), "a\0");
/// assert_eq!(rt; rest, b"\x07\0\x02".as_slice());
/// assert!(rt; uses::read_utf8_constant(alloc, rest).is_err());
/// ```
pub fn read_utf8_constant(
    alloc: Global,
    bytes: &[u8],
) -> Result<(CowText<'_>, &[u8]), ConstantFault>
    ensures text { IfRead result (BeginsWithConstant bytes.now) }
    ensures only { IfRead result (BeginsOnlyWithConstant bytes.now) }
    ensures other_tag { HasOtherTag bytes.now
        → result ≡ Err (ConstantFault.OtherTag (slice_index bytes.now 0)) }
    ensures truncated { result ≡ Err (ConstantFault.Text ReadFault.Truncated)
        ↔ IsCutShort bytes.now }
    ensures refused { OnRefused result (NoConstantBegins bytes.now) }
    ensures succeeds { IsPlainConstant bytes.now → IsOk result }
{
    let [tag, form @ ..] = bytes else {
        return Err(ConstantFault::Text(ReadFault::Truncated));
    };
    if *tag != UTF8_TAG {
        return Err(ConstantFault::OtherTag(*tag));
    }
    Ok(java_text::read_utf(alloc, form)?)
}
