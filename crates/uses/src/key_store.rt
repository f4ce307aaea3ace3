//! A store whose keys are in the order of UTF-16.

ghost use Rattle.std.specs.Prelude.{◌≡◌, ◌≢◌, ℕ, List, IfOk, OnOk, OnErr};
ghost use Rattle.std.specs.BTreeMap.{IsUnchanged};
ghost use Rattle.std.specs.Str.{chars};
ghost use Rattle.simd_cesu8.specs.Text.{IsText};
ghost use Rattle.uses.specs.KeyStore.{value_at, IsInUtf16Order};

use simd_cesu8::laws;
use std::alloc::{AllocError, Global};
use std::collections::BTreeMap;

/// Values by text. A key is the CESU-8 of its text, so the keys have the order of the texts' UTF-16
/// code units, as in Java's `compareTo`.
pub type Store = BTreeMap<Vec<u8>, u64>;

/// Stores a value for a text, in place of the old one.
///
/// If an allocation fails, it returns `AllocError`, and the store is unchanged.
///
/// ```rust
/// let mut store = BTreeMap::new(alloc);
/// uses::put_value(alloc, &mut store, "\u{FFFF}", 1)?;
/// uses::put_value(alloc, &mut store, "\u{10000}", 2)?;
/// let mut values = store.values();
/// assert_eq!(rt; (values.next(), values.next()), (Some(&2), Some(&1)));
/// ```
pub fn put_value(alloc: Global, store: &mut Store, key: &str, value: u64) -> Result<(), AllocError>
    ensures ok { OnOk result (value_at store.new (chars key.now) ≡ Some value) }

    // The values of all other texts are unchanged.
    ensures others { (other : List ℕ) → IsText other → other ≢ chars key.now
        → value_at store.new other ≡ value_at store.old other }
    ensures err { OnErr result (IsUnchanged store.old store.new) }
    ensures order { OnOk result (IsInUtf16Order store.new) }
{
    // Each call does nothing at run time. Its contract is a law that the proof uses: a `&str` is a
    // text, different texts have different keys, and keys compare as UTF-16 does.
    laws::chars();
    laws::round_trip();
    laws::key_order();
    let encoded = simd_cesu8::encode(alloc, key)?.into_vec(alloc)?;
    store.insert(encoded, value)?;
    Ok(())
}

/// Returns the value of a text, if it has one.
///
/// It allocates if the key differs from the text's UTF-8, and returns `AllocError` if that fails.
///
/// ```rust
/// let mut store = BTreeMap::new(alloc);
/// uses::put_value(alloc, &mut store, "\u{1F496}", 3)?;
/// assert_eq!(rt; uses::get_value(alloc, &store, "\u{1F496}")?, Some(3));
/// assert_eq!(rt; uses::get_value(alloc, &store, "")?, None);
/// ```
pub fn get_value(alloc: Global, store: &Store, key: &str) -> Result<Option<u64>, AllocError>
    ensures { IfOk result (λ value. value ≡ value_at store.now (chars key.now)) }
{
    let encoded = simd_cesu8::encode(alloc, key)?;
    Ok(store.get(encoded.as_bytes()).copied())
}
