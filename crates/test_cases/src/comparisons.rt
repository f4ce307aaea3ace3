//! Comparisons of the calls with the expected results. Each returns the first difference.

use crate::decoders::{DECODERS, Decoder, Outcome, outcome_of};
use crate::flavors::{
    FLAVORS, Flavor, counted, decoded_len, encode, encode_into, encoded_len, lossy_len,
    needs_encoded, valid_up_to,
};
use crate::plain::{Reading, read};
use std::alloc::{AllocError, Global};
use std::fmt::Debug;

/// Why a comparison fails: a call has an unexpected result, or memory ran out.
#[derive(Debug, Drop)]
pub enum Difference {
    Result {
        call: &'static str,
        flavor: Flavor,
        result: String,
    },
    Memory,
}

impl From<AllocError> for Difference {
    fn from(_: AllocError) -> Difference {
        Difference::Memory
    }
}

/// Compares the result of a call for an encoding with the expected one.
pub fn expect<T: PartialEq + Debug + Drop>(
    alloc: Global,
    flavor: Flavor,
    call: &'static str,
    got: T,
    expected: T,
) -> Result<(), Difference> {
    if got == expected {
        return Ok(());
    }
    let result = format!(in alloc; "{got:?}, and not {expected:?}")?;
    Err(Difference::Result {
        call,
        flavor,
        result,
    })
}

/// Compares the result of each call that builds or measures an encoding with the string's bytes in
/// it.
pub fn expect_encoding(
    alloc: Global,
    flavor: Flavor,
    text: &str,
    bytes: &[u8],
) -> Result<(), Difference> {
    let is_same = bytes == text.as_bytes();
    let len = bytes.len();
    expect(
        alloc,
        flavor,
        "needs_encoded",
        needs_encoded(flavor, text),
        !is_same,
    )?;
    expect(alloc, flavor, "encoded_len", encoded_len(flavor, text), len)?;
    let encoding = encode(alloc, flavor, text)?;
    expect(alloc, flavor, "encode", encoding.as_bytes(), bytes)?;
    expect(
        alloc,
        flavor,
        "is_borrowed",
        encoding.is_borrowed(),
        is_same,
    )?;
    let owned = encoding.into_vec(alloc)?;
    expect(alloc, flavor, "into_vec", owned.as_slice(), bytes)
}

/// Appends the string's encoding to a buffer that holds some bytes, with each call that appends,
/// and compares what the buffer then holds.
pub fn expect_appended(
    alloc: Global,
    flavor: Flavor,
    held: &[u8],
    text: &str,
    bytes: &[u8],
) -> Result<(), Difference> {
    let mut expected = Vec::from_slice(alloc, held)?;
    expected.extend_from_slice(bytes)?;
    let mut buf = Vec::from_slice(alloc, held)?;
    encode_into(flavor, text, &mut buf)?;
    expect(
        alloc,
        flavor,
        "encode_into",
        buf.as_slice(),
        expected.as_slice(),
    )?;

    let counted = counted(flavor, text);
    expect(alloc, flavor, "counted", counted.encoded_len(), bytes.len())?;
    let mut buf = Vec::from_slice(alloc, held)?;
    counted.encode_into(&mut buf)?;
    expect(
        alloc,
        flavor,
        "counted, appended",
        buf.as_slice(),
        expected.as_slice(),
    )
}

/// Compares the outcome of one call that decodes with the expected one.
pub fn expect_outcome(
    alloc: Global,
    decoder: Decoder,
    flavor: Flavor,
    bytes: &[u8],
    expected: Outcome<'_>,
) -> Result<(), Difference> {
    let returned = decoder.call(alloc, flavor, bytes);
    expect(
        alloc,
        flavor,
        decoder.name(),
        outcome_of(&returned),
        expected,
    )
}

/// Compares the result of each call that decodes, or measures decoded text, with the bytes'
/// reading.
pub fn expect_reading(
    alloc: Global,
    flavor: Flavor,
    bytes: &[u8],
    reading: &Reading,
) -> Result<(), Difference> {
    let valid = valid_up_to(flavor, bytes);
    expect(alloc, flavor, "valid_up_to", valid, reading.valid)?;
    let len = Some(reading.text.len());
    expect(alloc, flavor, "lossy_len", lossy_len(flavor, bytes), len)?;
    let len = if reading.damaged == 0 { len } else { None };
    expect(
        alloc,
        flavor,
        "decoded_len",
        decoded_len(flavor, bytes),
        len,
    )?;
    for decoder in DECODERS {
        let expected = reading.expected(decoder, bytes);
        expect_outcome(alloc, decoder, flavor, bytes, expected)?;
    }
    Ok(())
}

/// Compares the result of each call, in both encodings, with the reading of the plain decoder.
pub fn expect_readings(alloc: Global, bytes: &[u8]) -> Result<(), Difference> {
    for flavor in FLAVORS {
        expect_reading(alloc, flavor, bytes, &read(alloc, flavor, bytes)?)?;
    }
    Ok(())
}
