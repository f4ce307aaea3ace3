//! Results that borrow from the input if they can.

ghost use Rattle.std.specs.Prelude.{◌≡◌, [], length, IsTrue, IfOk, IsOk, OnErr, Ok, vec_capacity};
ghost use Rattle.std.specs.String.{string_bytes, string_capacity};
ghost use Rattle.simd_cesu8.specs.Cow.{answer_bytes, borrows_bytes, IfOwned, answer_text, borrows_text, IfOwnedText};

use crate::codec;
use std::alloc::{AllocError, Global};

/// Bytes that are borrowed from the input if none of them changes, and owned otherwise.
#[derive(Drop)]
pub enum CowBytes<'a> {
    /// The input's own bytes.
    Borrowed(&'a [u8]),
    /// The bytes that were built.
    Owned(Vec<u8>),
}

impl<'a> CowBytes<'a> {
    /// Returns the bytes, in either case.
    ///
    /// ```rust
    /// let encoded = simd_cesu8::encode(alloc, "a\u{10FFFF}")?;
    /// assert_eq!(rt; encoded.as_bytes(), b"a\xED\xAF\xBF\xED\xBF\xBF".as_slice());
    /// ```
    pub fn as_bytes(&self) -> &[u8]
        ensures { result.now ≡ answer_bytes self.now }
    {
        match self {
            CowBytes::Borrowed(bytes) => bytes,
            CowBytes::Owned(bytes) => bytes.as_slice(),
        }
    }

    /// Returns whether the bytes are borrowed from the input.
    ///
    /// ```rust
    /// assert!(rt; simd_cesu8::encode(alloc, "a")?.is_borrowed());
    /// ```
    pub fn is_borrowed(&self) -> bool
        ensures { result ≡ borrows_bytes self.now }
    {
        matches!(self, CowBytes::Borrowed(_))
    }

    /// Returns the bytes as a `Vec`: the one that was built, or a copy of the borrowed bytes.
    ///
    /// Only a copy allocates: its length in bytes, once, or nothing if that is 0. The call returns
    /// `AllocError` if that fails; the caller still has the input that was borrowed.
    ///
    /// ```rust
    /// let bytes = simd_cesu8::encode(alloc, "\u{205}")?.into_vec(alloc)?;
    /// assert_eq!(rt; bytes.as_slice(), b"\xC8\x85".as_slice());
    /// ```
    pub fn into_vec(self, alloc: Global) -> Result<Vec<u8>, AllocError>
        ensures bytes { IfOk result (λ bytes. bytes.items ≡ answer_bytes self.entry) }
        ensures owned { IfOwned self.entry (λ bytes. result ≡ Ok bytes) }
        ensures refused { OnErr result (IsTrue (borrows_bytes self.entry)) }
        ensures empty { answer_bytes self.entry ≡ [] → IsOk result }
        ensures capacity { IsTrue (borrows_bytes self.entry) → IfOk result (λ bytes.
            vec_capacity bytes ≡ length (answer_bytes self.entry)) }
    {
        match self {
            CowBytes::Borrowed(bytes) => codec::copy(alloc, bytes),
            CowBytes::Owned(bytes) => Ok(bytes),
        }
    }
}

/// Text that is borrowed from the input if none of its bytes changes, and owned otherwise.
#[derive(Drop)]
pub enum CowText<'a> {
    /// The input's own bytes, which are UTF-8.
    Borrowed(&'a str),
    /// The text that was built.
    Owned(String),
}

impl<'a> CowText<'a> {
    /// Returns the text, in either case.
    ///
    /// ```rust
    /// let text = simd_cesu8::decode_strict(alloc, b"\xED\xA0\xBD\xED\xB2\x96")?;
    /// assert_eq!(rt; text.as_str(), "\u{1F496}");
    /// ```
    pub fn as_str(&self) -> &str
        ensures { result.now ≡ answer_text self.now }
    {
        match self {
            CowText::Borrowed(text) => text,
            CowText::Owned(text) => text.as_str(),
        }
    }

    /// Returns whether the text is borrowed from the input.
    ///
    /// ```rust
    /// assert!(rt; simd_cesu8::decode_strict(alloc, b"a")?.is_borrowed());
    /// ```
    pub fn is_borrowed(&self) -> bool
        ensures { result ≡ borrows_text self.now }
    {
        matches!(self, CowText::Borrowed(_))
    }

    /// Returns the text as a `String`: the one that was built, or a copy of the borrowed text.
    ///
    /// Only a copy allocates: its length in bytes, once, or nothing if that is 0. The call returns
    /// `AllocError` if that fails; the caller still has the input that was borrowed.
    ///
    /// ```rust
    /// let text = simd_cesu8::decode_strict(alloc, b"a")?.into_string(alloc)?;
    /// assert_eq!(rt; text.as_str(), "a");
    /// ```
    pub fn into_string(self, alloc: Global) -> Result<String, AllocError>
        ensures text { IfOk result (λ text. string_bytes text ≡ answer_text self.entry) }
        ensures owned { IfOwnedText self.entry (λ text. result ≡ Ok text) }
        ensures refused { OnErr result (IsTrue (borrows_text self.entry)) }
        ensures empty { answer_text self.entry ≡ [] → IsOk result }
        ensures capacity { IsTrue (borrows_text self.entry) → IfOk result (λ text.
            string_capacity text ≡ length (answer_text self.entry)) }
    {
        match self {
            CowText::Borrowed(text) => codec::copy_text(alloc, text),
            CowText::Owned(text) => Ok(text),
        }
    }
}
