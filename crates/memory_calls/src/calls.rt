//! The calls by their names, and the printing of their results.

use crate::prints::{print_bytes, print_length, print_outcome, yes_or_no};
use crate::{faults, slices, streams};
use java_text::{ReadFault, WriteFault, read_utf, read_utf_lossy, write_utf};
use simd_cesu8::implementation::{active, fallback, simd, text_of, word};
use simd_cesu8::{CountedText, CowBytes, CowText, DecodeFault, laws};
use std::alloc::{AllocError, Global};
use std::io::ErrorKind;
use std::{io, str};
use test_cases::flavors;
use test_cases::flavors::Flavor;

/// Makes the allocations and the calls of the line, and prints the result of each call. Then it
/// prints how many more allocations succeed.
///
/// `tests/memory.sh` makes the third allocation of `main` fail. How many allocations come before
/// the calls decides which one of a call that is.
pub fn make_all(rt: &HostRuntime, line: &[u8], bytes: &[u8]) -> io::Result<()> {
    let Some((requests, calls)) = parse_line(line) else {
        return Err(ErrorKind::InvalidInput.into());
    };
    for _ in 0..requests {
        let _request = Vec::<u8>::with_capacity(rt.alloc(), 1);
    }
    for call in calls.split(", ") {
        make(rt, call, bytes)?;
    }
    println!(rt; "{} more", granted(rt.alloc()))
}

/// The number of allocations to make first, and the calls.
fn parse_line(line: &[u8]) -> Option<(u8, &str)> {
    let (requests, calls) = str::from_utf8(line).ok()?.split_once(' ')?;
    Some((requests.parse().ok()?, calls))
}

/// Makes a call with the bytes, and prints its result.
fn make(rt: &HostRuntime, call: &str, bytes: &[u8]) -> io::Result<()> {
    let Some((call, flavor)) = parse(call) else {
        return Err(ErrorKind::InvalidInput.into());
    };
    if let Some(call) = slices::Call::of(call, flavor, bytes) {
        return call.make(rt);
    }
    if let Some(printed) = streams::make(rt, call, flavor, bytes) {
        return printed;
    }
    match call {
        "decode" => tell_text(rt, flavors::decode(rt.alloc(), flavor, bytes)),
        "decode_strict" => tell_text(rt, flavors::decode_strict(rt.alloc(), flavor, bytes)),
        "decode_strict_front" => {
            let len = bytes.len();
            tell_text(
                rt,
                flavors::decode_strict_front(rt.alloc(), flavor, bytes, len),
            )
        }
        "decode_lossy" => tell_lossy(rt, flavors::decode_lossy(rt.alloc(), flavor, bytes)),
        "decode_lossy_strict" => {
            tell_lossy(rt, flavors::decode_lossy_strict(rt.alloc(), flavor, bytes))
        }
        "into_string" => make_into_string(rt, flavor, bytes),
        "decoded_len" => print_length(rt, flavors::decoded_len(flavor, bytes)),
        "lossy_len" => print_length(rt, flavors::lossy_len(flavor, bytes)),
        "valid_up_to" => print_length(rt, Some(flavors::valid_up_to(flavor, bytes))),
        "active" | "fallback" | "simd" | "word" => ask_kernel(rt, call, flavor, bytes),
        "faults" => faults::show(rt, flavors::decode_strict(rt.alloc(), flavor, bytes)),
        "laws" => {
            use_laws();
            print_outcome(rt, "true", &[])
        }
        "text_of" => match text_of(bytes) {
            Some(text) => print_outcome(rt, "text", text.as_bytes()),
            None => print_outcome(rt, "none", &[]),
        },
        "read_utf" => tell_read(rt, read_utf(rt.alloc(), bytes)),
        "read_utf_lossy" => tell_read(rt, read_utf_lossy(rt.alloc(), bytes)),
        _ => match str::from_utf8(bytes) {
            Ok(text) => make_of_text(rt, call, flavor, text),
            Err(_) => Err(ErrorKind::InvalidInput.into()),
        },
    }
}

/// The call and the encoding.
fn parse(call: &str) -> Option<(&str, Flavor)> {
    let (call, flavor) = call.split_once(' ')?;
    match flavor {
        "cesu8" => Some((call, Flavor::Cesu8)),
        "mutf8" => Some((call, Flavor::Mutf8)),
        _ => None,
    }
}

/// Makes a call that takes a string. A call whose name ends in `_full`, `_room` or `_less` appends
/// to a buffer that is full, has just enough capacity, or has one byte less.
fn make_of_text(rt: &HostRuntime, call: &str, flavor: Flavor, text: &str) -> io::Result<()> {
    match call {
        "needs_encoded" => print_outcome(rt, yes_or_no(flavors::needs_encoded(flavor, text)), &[]),
        "encoded_len" => print_length(rt, Some(flavors::encoded_len(flavor, text))),
        "utf16_len" => print_length(rt, Some(simd_cesu8::utf16_len(text))),
        "compare_as_utf16" => {
            let is_equal = simd_cesu8::compare_as_utf16(text, text).is_eq();
            print_outcome(rt, yes_or_no(is_equal), &[])
        }
        "encode" => tell_encoded(rt, flavors::encode(rt.alloc(), flavor, text)),
        "into_vec" => make_into_vec(rt, flavor, text),
        "counted_len" => {
            let counted = flavors::counted(flavor, text);
            print_length(rt, Some(counted.encoded_len()))
        }
        "counted" => append_counted(rt, Vec::new(rt.alloc()), flavors::counted(flavor, text)),
        "encode_into" => append(rt, Ok(Vec::new(rt.alloc())), flavor, text),
        "encode_into_full" => {
            let full = vec![in rt.alloc(); 1, 2].map_err(AllocError::from);
            append(rt, full, flavor, text)
        }
        "encode_into_room" => {
            let room = flavors::encoded_len(flavor, text);
            append(rt, Vec::with_capacity(rt.alloc(), room), flavor, text)
        }
        "encode_into_less" => {
            let room = flavors::encoded_len(flavor, text).saturating_sub(1);
            append(rt, Vec::with_capacity(rt.alloc(), room), flavor, text)
        }
        "write_utf" => write(rt, Ok(Vec::new(rt.alloc())), text),
        "write_utf_full" => {
            let full = vec![in rt.alloc(); 1, 2].map_err(AllocError::from);
            write(rt, full, text)
        }
        "write_utf_room" => {
            let room = flavors::encoded_len(flavor, text).saturating_add(2);
            write(rt, Vec::with_capacity(rt.alloc(), room), text)
        }
        "write_utf_less" => {
            let room = flavors::encoded_len(flavor, text).saturating_add(1);
            write(rt, Vec::with_capacity(rt.alloc(), room), text)
        }
        _ => Err(ErrorKind::InvalidInput.into()),
    }
}

/// Calls a module's kernel for the encoding.
fn ask_kernel(rt: &HostRuntime, module: &str, flavor: Flavor, bytes: &[u8]) -> io::Result<()> {
    let found = match (module, flavor) {
        ("fallback", Flavor::Cesu8) => fallback::contains_utf8_4_byte_char_header(bytes),
        ("fallback", Flavor::Mutf8) => fallback::contains_null_or_utf8_4_byte_char_header(bytes),
        ("simd", Flavor::Cesu8) => simd::contains_utf8_4_byte_char_header(bytes),
        ("simd", Flavor::Mutf8) => simd::contains_null_or_utf8_4_byte_char_header(bytes),
        ("word", Flavor::Cesu8) => word::contains_utf8_4_byte_char_header(bytes),
        ("word", Flavor::Mutf8) => word::contains_null_or_utf8_4_byte_char_header(bytes),
        (_, Flavor::Cesu8) => active::contains_utf8_4_byte_char_header(bytes),
        (_, Flavor::Mutf8) => active::contains_null_or_utf8_4_byte_char_header(bytes),
    };
    print_outcome(rt, yes_or_no(found), &[])
}

/// Calls the function of each law.
fn use_laws() {
    laws::round_trip();
    laws::chars();
    laws::utf8_of_text();
    laws::inverse();
    laws::concat();
    laws::same_text();
    laws::needs();
    laws::unchanged();
    laws::no_zero();
    laws::bounds();
    laws::no_overlap();
    laws::one_mark();
    laws::places();
    laws::fewest();
    laws::lossy();
    laws::split();
    laws::around();
    laws::middle();
    laws::dictionary_order();
    laws::order();
    laws::key_order();
    java_text::laws::parts();
    java_text::laws::one_form();
    java_text::laws::no_form_begins_another();
    java_text::laws::sequence();
    java_text::laws::in_turn();
    java_text::laws::bounds();
    cesu8_stream::laws::in_pieces();
}

/// Appends to a buffer, if it could be allocated, and prints the buffer's bytes, also after an
/// error.
fn append(
    rt: &HostRuntime,
    buf: Result<Vec<u8>, AllocError>,
    flavor: Flavor,
    text: &str,
) -> io::Result<()> {
    let Ok(mut buf) = buf else {
        return print_outcome(rt, "memory", &[]);
    };
    tell_appended(rt, flavors::encode_into(flavor, text, &mut buf), &buf)
}

/// Appends a counted string to a buffer, and prints the buffer's bytes, also after an error.
fn append_counted(rt: &HostRuntime, mut buf: Vec<u8>, counted: CountedText<'_>) -> io::Result<()> {
    tell_appended(rt, counted.encode_into(&mut buf), &buf)
}

/// Writes a Java string to a buffer, if it could be allocated, and prints the buffer's bytes, also
/// after an error.
fn write(rt: &HostRuntime, buf: Result<Vec<u8>, AllocError>, text: &str) -> io::Result<()> {
    let Ok(mut buf) = buf else {
        return print_outcome(rt, "memory", &[]);
    };
    match write_utf(text, &mut buf) {
        Ok(()) => tell_grown(rt, "written", &buf),
        Err(WriteFault::TooLong(_)) => print_outcome(rt, "too_long", buf.as_slice()),
        Err(WriteFault::Memory) => print_outcome(rt, "memory", buf.as_slice()),
    }
}

/// Makes a vector of an encoder's result. After an error it prints the caller's string.
fn make_into_vec(rt: &HostRuntime, flavor: Flavor, text: &str) -> io::Result<()> {
    let copied = match flavors::encode(rt.alloc(), flavor, text) {
        Ok(encoded) => encoded.into_vec(rt.alloc()),
        Err(error) => Err(error),
    };
    match copied {
        Ok(bytes) => print_outcome(rt, "owned", bytes.as_slice()),
        Err(_) => print_outcome(rt, "memory", text.as_bytes()),
    }
}

/// Makes a string of the result of lenient decoding. After an error it prints the caller's bytes.
fn make_into_string(rt: &HostRuntime, flavor: Flavor, bytes: &[u8]) -> io::Result<()> {
    let copied = match flavors::decode(rt.alloc(), flavor, bytes) {
        Ok(decoded) => decoded.into_string(rt.alloc()),
        Err(DecodeFault::Memory(error)) => Err(error),
        Err(DecodeFault::Invalid(_)) => return print_outcome(rt, "invalid", &[]),
    };
    match copied {
        Ok(text) => print_outcome(rt, "owned", text.as_bytes()),
        Err(_) => print_outcome(rt, "memory", bytes),
    }
}

fn tell_encoded(rt: &HostRuntime, encoded: Result<CowBytes<'_>, AllocError>) -> io::Result<()> {
    match encoded {
        Ok(encoded) => print_outcome(rt, case_of(encoded.is_borrowed()), encoded.as_bytes()),
        Err(_) => print_outcome(rt, "memory", &[]),
    }
}

fn tell_text(rt: &HostRuntime, decoded: Result<CowText<'_>, DecodeFault>) -> io::Result<()> {
    match decoded {
        Ok(decoded) => print_outcome(
            rt,
            case_of(decoded.is_borrowed()),
            decoded.as_str().as_bytes(),
        ),
        Err(DecodeFault::Invalid(_)) => print_outcome(rt, "invalid", &[]),
        Err(DecodeFault::Memory(_)) => print_outcome(rt, "memory", &[]),
    }
}

fn tell_appended(
    rt: &HostRuntime,
    appended: Result<(), AllocError>,
    buf: &Vec<u8>,
) -> io::Result<()> {
    match appended {
        Ok(()) => tell_grown(rt, "appended", buf),
        Err(_) => print_outcome(rt, "memory", buf.as_slice()),
    }
}

/// Prints the outcome with the buffer's capacity, which shows how much was allocated, and the
/// buffer's bytes.
fn tell_grown(rt: &HostRuntime, outcome: &str, buf: &Vec<u8>) -> io::Result<()> {
    println!(rt; "{outcome}, capacity {}", buf.capacity())?;
    print_bytes(rt, buf.as_slice())
}

fn case_of(is_borrowed: bool) -> &'static str {
    if is_borrowed { "borrowed" } else { "owned" }
}

fn tell_lossy(rt: &HostRuntime, decoded: Result<CowText<'_>, AllocError>) -> io::Result<()> {
    tell_text(rt, decoded.map_err(DecodeFault::Memory))
}

/// Prints the text, and then the bytes after the form on a line of their own.
fn tell_read(rt: &HostRuntime, read: Result<(CowText<'_>, &[u8]), ReadFault>) -> io::Result<()> {
    match read {
        Ok((text, rest)) => {
            tell_text(rt, Ok(text))?;
            print_bytes(rt, rest)
        }
        Err(ReadFault::Truncated) => print_outcome(rt, "truncated", &[]),
        Err(ReadFault::Invalid(_)) => print_outcome(rt, "invalid", &[]),
        Err(ReadFault::Memory) => print_outcome(rt, "memory", &[]),
    }
}

/// How many of three allocations succeed before one fails.
fn granted(alloc: Global) -> u8 {
    for number in 0..3 {
        if Vec::<u8>::with_capacity(alloc, 1).is_err() {
            return number;
        }
    }
    3
}
