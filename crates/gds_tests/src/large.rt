//! A design of many copies, which several threads carry in shares.

use crate::designs::{Draft, SQUARE, design};
use crate::records::{CHECKED, METAL, name_of};
use gds_flatten::flatten_parts;
use gds_grammar::read_library;
use std::test::*;

/// The corner of a square of the next test: the top's own, and then twenty by ten in each of ten by ten cells.
fn corner_of(number: u32) -> (i64, i64) {
    if number == 0 {
        return (0, 0);
    }
    let copy = i64::from(number.wrapping_sub(1));
    let (cell, square) = (copy / 200, copy % 200);
    let x = (cell % 10)
        .wrapping_mul(100)
        .wrapping_add((square % 20).wrapping_mul(5));
    let y = (cell / 10)
        .wrapping_mul(40)
        .wrapping_add((square / 20).wrapping_mul(4));
    (x, y)
}

/// 20,001 squares are carried in five shares: each copy once, in the order of the walk.
#[test]
fn parts_of_a_large_design(rt: HostRuntime) -> Result<(), Fail> {
    let alloc = rt.alloc();
    let top = [
        Draft::Array(1, (10, 10), &[(0, 0), (1000, 0), (0, 400)]),
        Draft::Boundary(METAL, SQUARE),
    ];
    let middle = [Draft::Array(2, (20, 10), &[(0, 0), (100, 0), (0, 40)])];
    let square = [Draft::Boundary(METAL, SQUARE)];
    let bytes = design(alloc, &[(0, &top), (1, &middle), (2, &square)])?;
    let library = read_library(alloc, &bytes)?;
    let parts = flatten_parts(&rt, alloc, &library, &name_of(0), &[CHECKED])?;
    let mut lengths = Vec::new(alloc);
    for part in &parts {
        lengths.push(part.len())?;
    }
    assert_eq!(rt;
        lengths.as_slice(),
        [4_096, 4_096, 4_096, 4_096, 3_617].as_slice()
    );
    let mut wrong = 0u32;
    let mut number = 0u32;
    for rect in &parts.concat(alloc)? {
        if (rect.x1(), rect.y1()) != corner_of(number) {
            wrong = wrong.wrapping_add(1);
        }
        number = number.wrapping_add(1);
    }
    assert_eq!(rt; wrong, 0);
    Ok(())
}
