//! The result of a call that compares two texts.

ghost use Rattle.std.specs.Prelude.{◌≡◌, pos};
ghost use Rattle.cesu8_c.specs.Answers.{number_of};

use crate::answer::{NOT_UTF8, OK};
use std::cmp::Ordering;

/// How two texts compare by their UTF-16 code units: the result of `cesu8_compare_as_utf16`. The C
/// header has a struct with these fields.
#[repr(C)]
#[derive(Drop)]
pub struct Comparison {
    /// `OK` or `NOT_UTF8`.
    pub status: u32,
    /// -1 if the first text is less, 1 if it is greater, and 0 if they are equal or with
    /// `NOT_UTF8`.
    pub order: i32,
}

impl Comparison {
    /// Returns `OK` and the order as a number.
    pub(crate) fn of(ordering: Ordering) -> Comparison
        ensures status { result.status ≡ OK }
        ensures order { result.order ≡ number_of ordering }
    {
        let order = match ordering {
            Ordering::Less => -1,
            Ordering::Equal => 0,
            Ordering::Greater => 1,
        };
        Comparison { status: OK, order }
    }

    /// Returns `NOT_UTF8`, without an order.
    pub(crate) fn without() -> Comparison
        ensures status { result.status ≡ NOT_UTF8 }
        ensures order { result.order ≡ pos 0 }
    {
        Comparison {
            status: NOT_UTF8,
            order: 0,
        }
    }
}
