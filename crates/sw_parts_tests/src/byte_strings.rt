//! Comparing byte strings, by their lengths.
use crate::expected::{expect, expect_at};
use std::alloc::{AllocError, Global};
use std::process::Abort;
use std::test::Fail;
use sw_probe::same_bytes;

// The bytes, with another one at a position.
fn altered(alloc: Global, bytes: &[u8], at: usize) -> Result<Vec<u8>, AllocError> {
    let mut other = Vec::from_slice(alloc, bytes)?;
    if let Some(byte) = other.get_mut(at) {
        *byte = b'*';
    }
    Ok(other)
}

fn longer(alloc: Global, bytes: &[u8]) -> Result<Vec<u8>, AllocError> {
    let mut longer = Vec::from_slice(alloc, bytes)?;
    longer.push(0)?;
    Ok(longer)
}

// Bytes are equal to their copy, and not to bytes with another one, or one more.
fn tell_apart(rt: &impl Abort, alloc: Global, one: &[u8]) -> Result<(), Fail> {
    let copy = Vec::from_slice(alloc, one)?;
    expect(rt, same_bytes(one, copy.as_slice()), true);
    for at in 0..one.len() {
        let other = altered(alloc, one, at)?;
        expect_at(rt, at as u64, same_bytes(one, other.as_slice()), false);
    }
    let longer = longer(alloc, one)?;
    expect(rt, same_bytes(one, longer.as_slice()), false);
    expect(rt, same_bytes(longer.as_slice(), one), false);
    Ok(())
}

#[test]
fn one_byte_tells_them_apart(rt: HostRuntime) -> Result<(), Fail> {
    for len in 0..20usize {
        let one = b"the quick brown fox"
            .get(..len)
            .ok_or("it has so many bytes")?;
        tell_apart(&rt, rt.alloc(), one)?;
    }
    Ok(())
}
