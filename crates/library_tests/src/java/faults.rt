//! What a failed allocation becomes in a function that returns an error of `java_text`.

use crate::asserts::assert_of;
use java_text::{ReadFault, WriteFault};
use std::alloc::{AllocError, AllocFailed, Global};

/// Copies bytes one by one. `?` turns a failed allocation into the error of a call that writes.
fn copied_to_write(alloc: Global, bytes: &[u8]) -> Result<Vec<u8>, WriteFault> {
    let mut copy = Vec::with_capacity(alloc, 1)?;
    for byte in bytes {
        copy.push(*byte)?;
    }
    Ok(copy)
}

/// Like `copied_to_write`, but `?` turns a failed allocation into the error of a call that reads.
fn copied_to_read(alloc: Global, bytes: &[u8]) -> Result<Vec<u8>, ReadFault> {
    let mut copy = Vec::with_capacity(alloc, 1)?;
    for byte in bytes {
        copy.push(*byte)?;
    }
    Ok(copy)
}

#[test]
fn a_refused_request_becomes_a_fault(rt: HostRuntime) {
    let copy = copied_to_write(rt.alloc(), b"ab").expect(&rt, "a copy");
    assert_of(&rt, copy.as_slice() == b"ab".as_slice(), &"a copy to write");
    let copy = copied_to_read(rt.alloc(), b"ab").expect(&rt, "a copy");
    assert_of(&rt, copy.as_slice() == b"ab".as_slice(), &"a copy to read");
    let fault = WriteFault::from(AllocError);
    assert_of(&rt, matches!(fault, WriteFault::Memory), &fault);
    let fault = WriteFault::from(AllocFailed { value: b'a' });
    assert_of(&rt, matches!(fault, WriteFault::Memory), &fault);
    let fault = ReadFault::from(AllocError);
    assert_of(&rt, matches!(fault, ReadFault::Memory), &fault);
    let fault = ReadFault::from(AllocFailed { value: b'a' });
    assert_of(&rt, matches!(fault, ReadFault::Memory), &fault);
}
