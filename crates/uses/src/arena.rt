//! Many texts in an arena, with no allocator.

ghost use Rattle.std.specs.Prelude.{◌≡◌, ◌<◌, ◌≤◌, ◌+◌, length, IfOk, IfErr};
ghost use Rattle.uses.specs.Arena.{HoldsFirst, first_encoded};

use simd_cesu8::laws;

/// An arena is too small for the next text.
#[derive(Clone, Copy, Debug)]
pub struct ArenaFull {
    /// How many texts are in the arena.
    pub count: usize,
    /// How many bytes these take.
    pub used: usize,
    /// How many more bytes the next text takes than are left.
    pub missing: usize,
}

/// Writes the CESU-8 of the texts to an arena, one after the other, and the end of each to `ends`.
/// It returns the end of the last.
///
/// It stops at the first text that doesn't fit. The bytes after the texts are unchanged.
///
/// ```rust
/// let mut arena = [0xEE; 8];
/// let mut ends = [0; 2];
/// let filled = uses::fill_arena(&["a", "\u{1F496}"], &mut arena, &mut ends);
/// assert!(rt; matches!(filled, Ok(7)));
/// assert_eq!(rt; arena.as_slice(), b"a\xED\xA0\xBD\xED\xB2\x96\xEE".as_slice());
/// assert_eq!(rt; ends.as_slice(), [1, 7].as_slice());
/// ```
pub fn fill_arena(texts: &[&str], arena: &mut [u8], ends: &mut [usize]) -> Result<usize, ArenaFull>
    requires { length texts.now ≤ length ends.old }
    ensures all { IfOk result (λ used.
        HoldsFirst texts.now (length texts.now) used arena.old arena.new ends.new) }
    ensures first { IfErr result (λ full.
        HoldsFirst texts.now full.count full.used arena.old arena.new ends.new) }
    ensures next { IfErr result (λ full. (full.count < length texts.now) × (0 < full.missing)
        × (length (first_encoded texts.now (full.count + 1)) ≡ length arena.old + full.missing)) }
{
    // A law does nothing at run time: the proof uses its contract.
    laws::concat();
    let mut used = 0;
    for (count, text) in texts.iter().enumerate() {
        let left = arena.len() - used;
        match simd_cesu8::encode_to_slice(text, &mut arena[used..]) {
            Ok(len) => used += len,
            Err(fault) => {
                let missing = fault.needed() - left;
                return Err(ArenaFull {
                    count,
                    used,
                    missing,
                });
            }
        }
        ends[count] = used;
    }
    Ok(used)
}
