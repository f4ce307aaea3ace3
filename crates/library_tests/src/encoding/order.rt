//! The order of strings, of their encodings and of their code units.

use crate::asserts::{assert_of, text_of};
use std::alloc::{AllocError, Global};
use std::cmp::Ordering;
use std::cmp::Ordering::{Greater, Less};
use std::process::Abort;
use test_cases::borders::{BORDERS, Border};
use test_cases::flavors::{Flavor, encode};
use test_cases::plain::units;

/// The order of the code units of two strings, or `None` if there is no memory.
fn order_of_units(alloc: Global, first: &str, second: &str) -> Option<Ordering> {
    let first = units(alloc, first).ok()?;
    let second = units(alloc, second).ok()?;
    Some(first.as_slice().cmp(second.as_slice()))
}

/// The order of the encodings of two strings, or `None` if there is no memory.
fn order_of_encodings(
    alloc: Global,
    flavor: Flavor,
    first: &str,
    second: &str,
) -> Option<Ordering> {
    let first = encode(alloc, flavor, first).ok()?;
    let second = encode(alloc, flavor, second).ok()?;
    Some(first.as_bytes().cmp(second.as_bytes()))
}

/// Whether MUTF-8 reverses the order of these scalar values: it does if one is U+0000, which is C0
/// 80 there, and the other has one byte.
fn is_reversed(flavor: Flavor, first: &Border, second: &Border) -> bool {
    let is_ascii = first.utf8.len() == 1 && second.utf8.len() == 1;
    let is_null = first.name == "U+0000";
    flavor == Flavor::Mutf8 && is_ascii && is_null != (second.name == "U+0000")
}

/// Whether the encodings of two scalar values have the order of their code units, or the reverse
/// order if `is_reversed` says so.
fn is_as_units(alloc: Global, flavor: Flavor, first: &Border, second: &Border) -> bool {
    let (one, other) = (text_of(first), text_of(second));
    let Some(units) = order_of_units(alloc, one, other) else {
        return false;
    };
    let is_reversed = is_reversed(flavor, first, second);
    let due = if is_reversed { units.reverse() } else { units };
    order_of_encodings(alloc, flavor, one, other) == Some(due)
}

/// Asserts that the encodings of one scalar value and of each in the table are in the right order.
fn assert_as_units(rt: &impl Abort, alloc: Global, flavor: Flavor, first: &Border) {
    for second in &BORDERS {
        let is_right = is_as_units(alloc, flavor, first, second);
        assert_of(rt, is_right, &(flavor, first.name, second.name));
    }
}

/// Compares all pairs of scalar values of the table.
#[test]
fn orders_the_borders_by_code_units(rt: HostRuntime) {
    for first in &BORDERS {
        assert_as_units(&rt, rt.alloc(), Flavor::Cesu8, first);
        assert_as_units(&rt, rt.alloc(), Flavor::Mutf8, first);
    }
}

/// Two strings, and their order by UTF-8, by code units, in CESU-8 and in MUTF-8.
static EXAMPLES: [(&str, &str, Ordering, [Ordering; 3]); 4] = [
    ("\u{FFFF}", "\u{10000}", Less, [Greater, Greater, Greater]),
    ("\u{E000}", "\u{10FFFF}", Less, [Greater, Greater, Greater]),
    ("\0", "A", Less, [Less, Less, Greater]),
    ("", "\0", Less, [Less, Less, Less]),
];

/// Whether two strings have this order by UTF-8, by code units, in CESU-8 and in MUTF-8.
fn has_orders(
    alloc: Global,
    first: &str,
    second: &str,
    utf8: Ordering,
    [units, cesu8, mutf8]: [Ordering; 3],
) -> bool {
    first.cmp(second) == utf8
        && order_of_units(alloc, first, second) == Some(units)
        && simd_cesu8::compare_as_utf16(first, second) == units
        && order_of_encodings(alloc, Flavor::Cesu8, first, second) == Some(cesu8)
        && order_of_encodings(alloc, Flavor::Mutf8, first, second) == Some(mutf8)
}

#[test]
fn orders_examples(rt: HostRuntime) {
    for (first, second, utf8, others) in &EXAMPLES {
        let is_right = has_orders(rt.alloc(), first, second, *utf8, *others);
        assert_of(&rt, is_right, &(*first, *second));
    }
}

/// A character, repeated `len` times, and an end.
fn with_front(alloc: Global, front: &str, len: usize, end: &str) -> Result<String, AllocError> {
    let mut text = String::new(alloc);
    for _place in 0..len {
        text.push_str(front)?;
    }
    text.push_str(end)?;
    Ok(text)
}

/// Asserts that `compare_as_utf16` of two strings, either way round, returns the order of their
/// code units.
fn assert_order(rt: &impl Abort, alloc: Global, first: &str, second: &str) {
    let due = order_of_units(alloc, first, second);
    let orders = (
        Some(simd_cesu8::compare_as_utf16(first, second)),
        Some(simd_cesu8::compare_as_utf16(second, first).reverse()),
    );
    assert_of(rt, orders == (due, due), &(first, second));
}

/// The ends of strings.
static ENDS: [&str; 13] = [
    "",
    "\0",
    "A",
    "\u{7FF}",
    "\u{800}",
    "\u{D7FF}z",
    "\u{E000}",
    "\u{FFFF}a",
    "\u{10000}",
    "\u{10000}b",
    "\u{10001}",
    "\u{1F496}",
    "\u{10FFFF}",
];

/// Asserts the order of two ends after equal prefixes.
fn assert_behind(
    rt: &impl Abort,
    alloc: Global,
    front: &str,
    len: usize,
    (first, second): (&str, &str),
) {
    let first = with_front(alloc, front, len, first).expect(rt, "a text");
    let second = with_front(alloc, front, len, second).expect(rt, "a text");
    assert_order(rt, alloc, &first, &second);
}

/// Asserts the order of all pairs of the ends, after equal prefixes of this length.
fn assert_ends(rt: &impl Abort, alloc: Global, front: &str, len: usize) {
    for first in &ENDS {
        for second in &ENDS {
            assert_behind(rt, alloc, front, len, (first, second));
        }
    }
}

/// Compares all pairs of the ends, after equal prefixes of up to 20 characters. `compare_as_utf16`
/// compares several bytes at a time, and the strings differ at each offset of such a group.
#[test]
fn compares_behind_equal_fronts(rt: HostRuntime) {
    for len in 0..21 {
        assert_ends(&rt, rt.alloc(), "a", len);
        assert_ends(&rt, rt.alloc(), "\u{FFFF}", len);
        assert_ends(&rt, rt.alloc(), "\u{10FFFF}", len);
    }
}

/// Asserts the order of a scalar value and of each in the table, after the same character.
fn assert_with_each(rt: &impl Abort, alloc: Global, front: &str, first: &str) {
    for second in &BORDERS {
        assert_behind(rt, alloc, front, 1, (first, text_of(second)));
    }
}

/// Compares all pairs of scalar values of the table, after each scalar value of the table.
#[test]
fn compares_the_borders(rt: HostRuntime) {
    for front in &BORDERS {
        for first in &BORDERS {
            assert_with_each(&rt, rt.alloc(), text_of(front), text_of(first));
        }
    }
}
