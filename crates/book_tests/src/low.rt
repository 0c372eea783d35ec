//! The windows that are low, listed by their rows.
use crate::book::rect_of;
use fill_area::{Windows, areas_in};
use fill_base::{Point, Rect};
use fill_region::Region;
use fill_state::low_windows;
use std::alloc::Global;
use std::test::Fail;

/// What covers half of the middle window of the lowest row and nearly half of the one to its right, no window of the second row, all of
/// the third, and of the fourth all but the second.
fn metal(alloc: Global) -> Result<Region, Fail> {
    let rects = [
        rect_of([20, 0, 25, 10])?,
        rect_of([30, 0, 37, 7])?,
        rect_of([0, 20, 50, 30])?,
        rect_of([0, 30, 10, 40])?,
        rect_of([20, 30, 50, 40])?,
    ];
    Ok(Region::from_rects(alloc, &rects)?)
}

/// In the lowest row a run at each end, in the second all windows, in the third none, in the fourth a single one.
fn is_low(column: i64, row: i64) -> bool {
    match row {
        0 => column != 2,
        1 => true,
        3 => column == 1,
        _ => false,
    }
}

#[test]
fn runs_of_low_windows(rt: HostRuntime) -> Result<(), Fail> {
    let alloc = rt.alloc();
    let Ok(windows) = Windows::new(Point { x: 0, y: 0 }, (10, 10), (10, 10), (5, 4)) else {
        panic!(&rt; "the windows are refused");
    };
    let areas = areas_in(alloc, &metal(alloc)?, &windows)?;
    let low = low_windows(alloc, &windows, 500_000, &areas)?;
    for row in 0..4 {
        for column in 0..5 {
            assert_eq!(rt; low.has(column, row), is_low(column, row));
        }
    }
    let runs = [
        rect_of([0, 0, 2, 1])?,
        rect_of([3, 0, 5, 1])?,
        rect_of([0, 1, 5, 2])?,
        rect_of([1, 3, 2, 4])?,
    ];
    assert_eq!(rt; low.runs(), runs.as_slice());
    Ok(())
}
