//! The repair of a damaged log.

ghost use Rattle.std.specs.Prelude.{◌≡◌, ◌≢◌, ◌↔◌, ℕ, List, All, IsTrue, IfOk, IsOk};
ghost use Rattle.std.specs.Str.{chars};
ghost use Rattle.simd_cesu8.specs.Class.{IsUnchangedUtf8};
ghost use Rattle.simd_cesu8.specs.Encoding.{Cesu8};
ghost use Rattle.simd_cesu8.specs.Reading.{IsStrictReading, reading};
ghost use Rattle.simd_cesu8.specs.Cow.{answer_text};
ghost use Rattle.uses.specs.Repair.{KeepsRecords, LosesBytes, ReplacesFewest};

use simd_cesu8::{CowText, DecodeFault, laws};
use std::alloc::{AllocError, Global};

/// The text of a log, and whether the log is damaged.
#[derive(Drop)]
pub struct Repaired<'a> {
    /// The text, with one U+FFFD for each damaged byte.
    pub text: CowText<'a>,
    /// Whether some byte was replaced: whether the log is the CESU-8 of no text.
    pub is_damaged: bool,
}

/// Reads a log in CESU-8 that may be damaged.
///
/// Each whole record is kept, wherever the damage is. A record is any nonempty text whose CESU-8 is
/// a part of the log. No other way to cut the log into characters and replaced bytes replaces fewer
/// bytes. The call returns `AllocError` if an allocation fails. A log without damage and without
/// surrogate pairs needs none.
///
/// ```rust
/// let repaired = uses::repair_log(alloc, b"one\n\xED\xA0\xBDtwo\n")?;
/// assert!(rt; repaired.is_damaged);
/// assert_eq!(rt; repaired.text.as_str(), "one\n\u{FFFD}\u{FFFD}\u{FFFD}two\n");
/// ```
pub fn repair_log(alloc: Global, log: &[u8]) -> Result<Repaired<'_>, AllocError>
    ensures text { IfOk result (λ repaired.
        chars (answer_text repaired.text) ≡ reading Cesu8 log.now) }
    ensures damaged { IfOk result (λ repaired.
        IsTrue repaired.is_damaged ↔ LosesBytes log.now) }
    ensures whole { IfOk result (λ repaired. (¬ (IsTrue repaired.is_damaged))
        ↔ IsStrictReading Cesu8 log.now (chars (answer_text repaired.text))) }
    ensures kept { IfOk result (λ repaired.
        KeepsRecords log.now (chars (answer_text repaired.text))) }
    ensures fewest { IfOk result (λ repaired.
        ReplacesFewest log.now (chars (answer_text repaired.text))) }
    ensures succeeds { IsUnchangedUtf8 Cesu8 log.now → IsOk result }
{
    // Laws do nothing at run time: the proof uses their contracts.
    laws::concat();
    laws::lossy();
    laws::middle();
    laws::fewest();
    match simd_cesu8::decode_strict(alloc, log) {
        Ok(text) => Ok(Repaired {
            text,
            is_damaged: false,
        }),
        Err(DecodeFault::Invalid(_)) => Ok(Repaired {
            text: simd_cesu8::decode_lossy_strict(alloc, log)?,
            is_damaged: true,
        }),
        Err(DecodeFault::Memory(error)) => Err(error),
    }
}

/// Returns a log again, with an encoded U+FFFD for each damaged byte.
///
/// It is the CESU-8 of the log's reading, so it is not damaged, and has the same reading. A log
/// without damage is returned unchanged. If the reading has no U+FFFD, the log has no damage.
///
/// ```rust
/// let rewritten = uses::rewrite_log(alloc, b"one\n\xEDtwo\n")?;
/// assert_eq!(rt; rewritten.as_slice(), b"one\n\xEF\xBF\xBDtwo\n".as_slice());
/// ```
pub fn rewrite_log(alloc: Global, log: &[u8]) -> Result<Vec<u8>, AllocError>
    ensures strict { IfOk result (λ rewritten.
        IsStrictReading Cesu8 rewritten.items (reading Cesu8 log.now)) }
    ensures again { IfOk result (λ rewritten.
        reading Cesu8 rewritten.items ≡ reading Cesu8 log.now) }
    ensures whole { (text : List ℕ) → IsStrictReading Cesu8 log.now text
        → IfOk result (λ rewritten. rewritten.items ≡ log.now) }
    ensures clean { All (λ c. c ≢ 0xFFFD) (reading Cesu8 log.now)
        → IfOk result (λ rewritten. rewritten.items ≡ log.now) }
{
    laws::lossy();
    let text = simd_cesu8::decode_lossy_strict(alloc, log)?;
    simd_cesu8::encode(alloc, text.as_str())?.into_vec(alloc)
}
