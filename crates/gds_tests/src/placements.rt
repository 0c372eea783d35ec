//! How single references and arrays place what they refer to.

use fill_base::Point;
use gds_cells::{Placement, array_link, reference_link};
use gds_grammar::{Array, Ref, Transform};
use std::test::*;

/// A transformation that leaves all as it is.
const PLAIN: Transform = Transform {
    flags: 0,
    magnification: None,
    angle: None,
};

/// A reference that is reflected, turned by 270 degrees and moved to (5, 7).
#[test]
fn single_reference(rt: HostRuntime) -> Result<(), Fail> {
    let reference = Ref {
        cell: b"",
        transform: Transform {
            flags: 0x8000,
            magnification: None,
            angle: Some([0x43, 0x10, 0xe0, 0, 0, 0, 0, 0]),
        },
        origin: Point { x: 5, y: 7 },
    };
    let link = reference_link(3, &reference)?;
    assert_eq!(rt; link.placement, Placement::new(true, 3, 5, 7));
    Ok(())
}

/// An array that begins at (1, 2), whose columns end at (`right`, 2) and its rows at (1, `up`).
fn array((columns, rows): (u16, u16), (right, up): (i32, i32)) -> Array<'static> {
    Array {
        cell: b"",
        transform: PLAIN,
        columns,
        rows,
        points: [
            Point { x: 1, y: 2 },
            Point {
                x: i64::from(right),
                y: 2,
            },
            Point {
                x: 1,
                y: i64::from(up),
            },
        ],
    }
}

/// Three columns in steps of 10, two rows in steps of 20: row by row.
#[test]
fn singles_of_an_array(rt: HostRuntime) -> Result<(), Fail> {
    let link = array_link(4, &array((3, 2), (31, 42)))?;
    assert_eq!(rt; (link.cell, link.columns, link.rows), (4, 3, 2));
    let want = [(1, 2), (11, 2), (21, 2), (1, 22), (11, 22), (21, 22)];
    let mut index = 0u32;
    for (x, y) in want {
        if link.columns == 3 && link.rows == 2 && index < 6 {
            assert_eq!(rt; link.single(index), Placement::shift(x, y));
            index += 1;
        }
    }
    assert_eq!(rt; index, 6);
    Ok(())
}

/// The last of as many single references as an array may have.
#[test]
fn largest_array(rt: HostRuntime) -> Result<(), Fail> {
    let link = array_link(0, &array((32767, 32767), (32768, -65532)))?;
    if link.columns == 32767 && link.rows == 32767 {
        let last = link.single(1_073_676_288);
        assert_eq!(rt; last, Placement::shift(32767, -65530));
    }
    Ok(())
}

/// One placement after another: the inner one first.
#[test]
fn placements_in_turn(rt: HostRuntime) -> Result<(), Fail> {
    let turn = Placement::new(false, 1, 0, 0);
    let right = Placement::shift(10, 0);
    assert_eq!(rt; turn.after(&right), Placement::new(false, 1, 0, 10));
    assert_eq!(rt; right.after(&turn), Placement::new(false, 1, 10, 0));
    Ok(())
}
