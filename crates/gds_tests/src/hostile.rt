//! Libraries with each of their bytes changed to each value.

use crate::designs::{Draft, OBLONG, put_cell};
use crate::grammar::wire;
use crate::records::{CHECKED, METAL, finished, head, name_of};
use gds_flatten::flatten;
use gds_grammar::read_library;
use std::alloc::Global;
use std::test::*;
use std::thread::Threads;

/// Whether the bytes are a library whose top draws something that is taken.
fn is_drawn(rt: &(impl Threads + Sync), alloc: Global, bytes: &[u8], top: &[u8]) -> bool {
    match read_library(alloc, bytes) {
        Ok(library) => flatten(rt, alloc, &library, top, &[CHECKED]).is_ok(),
        Err(_) => false,
    }
}

/// Sets the byte at an index, if there is one.
fn set(bytes: &mut [u8], at: usize, value: u8) {
    if let Some(byte) = bytes.get_mut(at) {
        *byte = value;
    }
}

/// How often the bytes are taken, with each of them changed to each value.
fn times_taken(rt: &(impl Threads + Sync), alloc: Global, bytes: &mut [u8], top: &[u8]) -> usize {
    let mut taken = 0usize;
    for at in 0..bytes.len() {
        let kept = bytes.get(at).copied().unwrap_or(0);
        for value in 0..=255 {
            set(bytes, at, value);
            if is_drawn(rt, alloc, bytes, top) {
                taken = taken.wrapping_add(1);
            }
        }
        set(bytes, at, kept);
    }
    taken
}

/// With its own value each byte is taken, and dates and units with any.
#[test]
fn each_byte_may_have_each_value(rt: HostRuntime) -> Result<(), Fail> {
    let top: &[Draft<'static>] = &[Draft::Boundary(METAL, OBLONG), Draft::Ref(1, (0, 0))];
    let mut bytes = head(rt.alloc())?;
    put_cell(&mut bytes, 0, top)?;
    put_cell(&mut bytes, 1, &[Draft::Boundary(METAL, OBLONG)])?;
    let mut bytes = finished(bytes)?;
    let taken = times_taken(&rt, rt.alloc(), &mut bytes, &name_of(0));
    assert!(rt; taken > bytes.len());
    Ok(())
}

/// The 24 bytes of dates of the library and of its cell, the 16 of units, and the two of the header's number may have any value.
#[test]
fn each_byte_of_a_wire_may_have_each_value(rt: HostRuntime) -> Result<(), Fail> {
    let mut bytes = wire(rt.alloc())?;
    let taken = times_taken(&rt, rt.alloc(), &mut bytes, b"TOP");
    assert!(rt; taken >= 104 + 66 * 256);
    Ok(())
}
