//! Sums over windows as they begin, and as boxes and metal move them.
use fill_area::Windows;
use fill_base::{Point, Rect};
use fill_region::Region;
use fill_sums::Sums;
use std::alloc::{AllocError, Global};
use std::process::Abort;
use std::test::Fail;
use std::thread::Threads;

/// Both numbers of a window.
fn numbers(rt: &impl Abort, sums: &Sums, a: u32, b: u32) -> (i64, i64) {
    let windows = sums.windows();
    if a >= windows.columns() || b >= windows.rows() {
        panic!(rt; "no window {a}, {b}");
    }
    (sums.drawn(a, b), sums.total(a, b))
}

/// Windows of 6 by 4 at steps of 4 by 2, over 5 columns of 3 lines, by hand.
#[test]
fn sums_begin_with_the_metal(rt: HostRuntime) -> Result<(), Fail> {
    let windows = Windows::new(Point { x: 0, y: 0 }, (6, 4), (4, 2), (2, 2))?;
    let metal = Region::one(rt.alloc(), &Rect::new(1, 1, 6, 4)?)?;
    let sums = Sums::of(&rt, rt.alloc(), &metal, &windows)?;
    let copy = sums.copy(rt.alloc())?;
    for (a, b, area) in [(0, 0, 15), (1, 0, 6), (0, 1, 10), (1, 1, 4)] {
        assert_eq!(rt; numbers(&rt, &sums, a, b), (area, area));
        assert_eq!(rt; numbers(&rt, &copy, a, b), (area, area));
    }
    assert_eq!(rt; sums.totals(), [15, 6, 10, 4].as_slice());
    Ok(())
}

/// The sums over windows without metal, once a box has come, once it has gone, once metal has come, and once it is cut again.
fn moved_sums(
    rt: &(impl Threads + Sync),
    alloc: Global,
    windows: &Windows,
    rect: &Rect,
    metal: &Region,
) -> Result<Vec<Sums>, AllocError> {
    let mut sums = Sums::of(rt, alloc, &Region::empty(alloc), windows)?;
    let mut seen = Vec::new(alloc);
    sums.add_box(rect);
    seen.push(sums.copy(alloc)?)?;
    sums.drop_box(rect);
    seen.push(sums.copy(alloc)?)?;
    sums.add_metal(metal);
    seen.push(sums.copy(alloc)?)?;
    sums.cut_metal(metal);
    seen.push(sums)?;
    Ok(seen)
}

/// The same windows, a box that lies in all four, and metal of two pieces that lie in three.
#[test]
fn a_box_moves_totals_and_metal_moves_both(rt: HostRuntime) -> Result<(), Fail> {
    let windows = Windows::new(Point { x: 0, y: 0 }, (6, 4), (4, 2), (2, 2))?;
    let rect = Rect::new(3, 1, 7, 3)?;
    let metal = [Rect::new(0, 0, 5, 1)?, Rect::new(2, 3, 4, 5)?];
    let metal = Region::from_rects(rt.alloc(), &metal)?;
    let seen = moved_sums(&rt, rt.alloc(), &windows, &rect, &metal)?;
    let mut found = Vec::new(rt.alloc());
    for sums in &seen {
        for (a, b) in [(0, 0), (1, 0), (0, 1), (1, 1)] {
            found.push(numbers(&rt, sums, a, b))?;
        }
    }
    let with_box = [(0, 6), (0, 6), (0, 3), (0, 3)];
    let with_metal = [(7, 7), (1, 1), (4, 4), (0, 0)];
    let none = [(0, 0); 4];
    assert_eq!(rt;
        found.as_slice(),
        [with_box, none, with_metal, none]
            .concat(rt.alloc())?
            .as_slice()
    );
    Ok(())
}
