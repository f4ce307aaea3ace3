//! A store whose keys have the order of Java's `String.compareTo`.

use std::alloc::{AllocError, Global};
use std::collections::BTreeMap;
use uses::{Store, get_value, put_value};

/// Texts in the order of Java's `compareTo`: the first code units of U+10000 and U+10FFFF are D800
/// and DBFF, which are less than E000 and FFFF.
static ASCENDING: [&str; 9] = [
    "",
    "\0",
    "A",
    "AB",
    "\u{D7FF}",
    "\u{10000}",
    "\u{10FFFF}",
    "\u{E000}",
    "\u{FFFF}",
];

/// A store with each text, the last one first. The value of a text is its place.
fn stored(alloc: Global) -> Result<Store, AllocError> {
    let mut store = BTreeMap::new(alloc);
    for (place, text) in ASCENDING.iter().enumerate().rev() {
        put_value(alloc, &mut store, text, place as u64)?;
    }
    Ok(store)
}

/// Whether the values of a store ascend from 0 by 1.
fn ascends(store: &Store) -> bool {
    let mut due = 0;
    for value in store.values() {
        if *value != due {
            return false;
        }
        due = due.wrapping_add(1);
    }
    due == 9
}

/// Whether a store has this value for a text.
fn has_value(alloc: Global, store: &Store, text: &str, want: Option<u64>) -> bool {
    match get_value(alloc, store, text) {
        Ok(value) => value == want,
        Err(_) => false,
    }
}

/// Whether a store has the place of each text.
fn has_each(alloc: Global, store: &Store) -> bool {
    for (place, text) in ASCENDING.iter().enumerate() {
        if !has_value(alloc, store, text, Some(place as u64)) {
            return false;
        }
    }
    true
}

/// Whether a store of all texts is in order and finds each, and no other.
fn stores_in_order(alloc: Global) -> bool {
    match stored(alloc) {
        Ok(store) => {
            ascends(&store) && has_each(alloc, &store) && has_value(alloc, &store, "B", None)
        }
        Err(_) => false,
    }
}

#[test]
fn orders_keys_as_utf16(rt: HostRuntime) {
    assert!(rt; stores_in_order(rt.alloc()));
}
