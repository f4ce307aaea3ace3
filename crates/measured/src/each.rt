//! A call on each of many texts. An export gets bytes, which must be tested for UTF-8 before they
//! are a text. Here all texts are tested at once, so the time of the test is small beside that of
//! the calls.

ghost use Rattle.std.specs.Prelude.{◌<◌};

use crate::outcome::{Outcome, outcome_of_length, without_result};
use simd_cesu8::implementation::text_of;

/// Texts of `length` bytes each, one after another.
#[derive(Clone, Copy)]
struct Texts<'a> {
    all: &'a str,
    length: usize,
}

/// Adds up the results of a call for each text of `length` bytes, `times` times.
///
/// The outcome has no result if `length` is 0, if a call returns `None`, if the last text is
/// shorter, if a text ends within a character, or if the sum does not fit `usize`. It is invalid if
/// the bytes are not UTF-8.
pub fn outcome_of_sum<F: Fn(&str) -> Option<usize>>(
    texts: &[u8],
    length: usize,
    times: usize,
    call: F,
) -> Outcome
    requires { F.IsAlwaysCallable call }
{
    let Some(all) = text_of(texts) else {
        return without_result(true);
    };
    match repeated_sum(Texts { all, length }, times, call) {
        Some(sum) => outcome_of_length(sum),
        None => without_result(false),
    }
}

fn repeated_sum<F: Fn(&str) -> Option<usize>>(
    texts: Texts<'_>,
    times: usize,
    call: F,
) -> Option<usize>
    requires { F.IsAlwaysCallable call }
{
    if texts.length == 0 {
        return None;
    }
    let mut sum = 0_usize;
    for _ in 0..times {
        sum = sum.checked_add(sum_of_each(texts, &call)?)?;
    }
    Some(sum)
}

fn sum_of_each<F: Fn(&str) -> Option<usize>>(texts: Texts<'_>, call: &F) -> Option<usize>
    requires callable { F.IsAlwaysCallable call.now }
    requires length { 0 < texts.length }
{
    let mut sum = 0_usize;
    let mut rest = texts.all;
    while !rest.is_empty() {
        let (text, after) = rest.split_at_checked(texts.length)?;
        sum = sum.checked_add(call(text)?)?;
        rest = after;
    }
    Some(sum)
}
