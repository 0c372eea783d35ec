//! A cell of many elements, which several threads build in runs.

use crate::designs::{Draft, SQUARE, design};
use crate::records::{CHECKED, METAL, name_of};
use fill_base::Rect;
use gds_flatten::flatten_parts;
use gds_grammar::read_library;
use std::test::*;

/// A square a hundred above the origin.
const HIGHER: &[(i32, i32)] = &[(0, 100), (1, 100), (1, 101), (0, 101), (0, 100)];

/// The corner of a rectangle of the next test: 10,000 squares of the top, each twice, and then as many of the two cells that it refers to in turn.
fn corner_of(number: u32) -> (i64, i64) {
    if number < 20_000 {
        return (i64::from(number / 2).wrapping_mul(10), 200);
    }
    let turn = number.wrapping_sub(20_000);
    let y = if turn % 2 == 0 { 0 } else { 100 };
    (i64::from(turn).wrapping_mul(10), y)
}

/// How many rectangles are not at their places.
fn out_of_place(rects: &[Rect]) -> u32 {
    let mut wrong = 0u32;
    let mut number = 0u32;
    for rect in rects {
        if (rect.x1(), rect.y1()) != corner_of(number) {
            wrong = wrong.wrapping_add(1);
        }
        number = number.wrapping_add(1);
    }
    wrong
}

/// 30,000 elements, most of them shapes, are four runs: each shape comes once, in the order of the file, and each reference leads to its cell.
#[test]
fn cell_of_many_elements(rt: HostRuntime) -> Result<(), Fail> {
    let alloc = rt.alloc();
    let mut squares = Vec::new(alloc);
    for k in 0..10_000i32 {
        let (x, right) = (k.wrapping_mul(10), k.wrapping_mul(10).wrapping_add(1));
        squares.push([(x, 200), (right, 200), (right, 201), (x, 201), (x, 200)])?;
    }
    let mut top = Vec::new(alloc);
    let mut x = 0i32;
    for square in &squares {
        top.push(Draft::Boundary(METAL, square.as_slice()))?;
        top.push(Draft::Boundary(METAL, square.as_slice()))?;
        let cell = if x % 20 == 0 { 1 } else { 2 };
        top.push(Draft::Ref(cell, (x, 0)))?;
        x = x.wrapping_add(10);
    }
    let low = [Draft::Boundary(METAL, SQUARE)];
    let high = [Draft::Boundary(METAL, HIGHER)];
    let bytes = design(alloc, &[(0, &top), (1, &low), (2, &high)])?;
    let library = read_library(alloc, &bytes)?;
    let parts = flatten_parts(&rt, alloc, &library, &name_of(0), &[CHECKED])?;
    let rects = parts.concat(alloc)?;
    assert_eq!(rt; rects.len(), 30_000);
    assert_eq!(rt; out_of_place(&rects), 0);
    Ok(())
}
