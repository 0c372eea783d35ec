use fill_area::{BadWindows, Windows, area_in, areas_in, is_high, is_low};
use fill_base::{Point, Rect};
use fill_measure::measure_all;
use fill_region::Region;
use std::ops::Range;
use std::process::Abort;
use std::test::Fail;

fn rect(rt: &impl Abort, corners: [i64; 4]) -> Rect {
    let [x1, y1, x2, y2] = corners;
    match Rect::new(x1, y1, x2, y2) {
        Ok(rect) => rect,
        Err(error) => panic!(rt; "{error:?}"),
    }
}

#[test]
fn windows_of_a_strip(rt: HostRuntime) -> Result<(), Fail> {
    let alloc = rt.alloc();
    let strip = Region::one(alloc, &rect(&rt, [0, 0, 1000, 5]))?;
    let Ok(windows) = Windows::new(Point { x: 0, y: 0 }, (10, 10), (10, 10), (100, 100)) else {
        panic!(&rt; "the windows are refused");
    };
    let totals = measure_all(&rt, alloc, &strip, &windows)?;
    assert_eq!(rt; totals.len(), 10_000);
    for (k, total) in totals.iter().enumerate() {
        assert_eq!(rt; *total, if k < 100 { 50 } else { 0 });
    }
    Ok(())
}

#[test]
fn few_windows_over_long_wires(rt: HostRuntime) -> Result<(), Fail> {
    let alloc = rt.alloc();
    let rects = [rect(&rt, [0, 0, 3, 1000]), rect(&rt, [2, 10, 900, 12])];
    let region = Region::from_rects(alloc, &rects)?;
    let Ok(windows) = Windows::new(Point { x: 0, y: -7 }, (600, 1000), (300, 9), (2, 2)) else {
        panic!(&rt; "the windows are refused");
    };
    let totals = measure_all(&rt, alloc, &region, &windows)?;
    let wanted = [2979 + 2 * 597, 2 * 600, 2994 + 2 * 597, 2 * 600];
    assert_eq!(rt; totals.as_slice(), wanted.as_slice());
    let alone = areas_in(alloc, &region, &windows)?;
    assert_eq!(rt; alone.as_slice(), wanted.as_slice());
    Ok(())
}

#[test]
fn an_area_is_a_count_of_squares(rt: HostRuntime) -> Result<(), Fail> {
    let alloc = rt.alloc();
    let rects = [
        rect(&rt, [0, 0, 4, 4]),
        rect(&rt, [2, 2, 6, 6]),
        rect(&rt, [5, 0, 7, 1]),
    ];
    let region = Region::from_rects(alloc, &rects)?;
    let overlapping = [rect(&rt, [0, 0, 4, 4]), rect(&rt, [2, 2, 6, 6])];
    let pair = Region::from_rects(alloc, &overlapping)?;
    assert_eq!(rt; area_in(&pair, &rect(&rt, [0, 0, 6, 6])), 28);
    assert_eq!(rt; area_in(&region, &rect(&rt, [0, 0, 6, 6])), 29);
    assert_eq!(rt; area_in(&region, &rect(&rt, [-9, -9, 9, 9])), 30);
    assert_eq!(rt; area_in(&region, &rect(&rt, [1, 1, 3, 3])), 4);
    assert_eq!(rt; area_in(&region, &rect(&rt, [7, 0, 9, 9])), 0);
    Ok(())
}

#[test]
fn windows_beyond_the_range_are_refused(rt: HostRuntime) {
    let near = Point {
        x: 1_073_741_800,
        y: 0,
    };
    assert!(rt; Windows::new(near, (50, 50), (25, 25), (3, 3)).is_err());
    let origin = Point { x: 0, y: 0 };
    assert!(rt; Windows::new(origin, (50, 50), (25, 25), (3, 3)).is_ok());
    assert!(rt; Windows::new(origin, (0, 50), (25, 25), (3, 3)).is_err());
    assert!(rt; Windows::new(origin, (50, 50), (25, 1_048_577), (3, 3)).is_err());
    assert!(rt; Windows::new(origin, (50, 50), (25, 25), (3, 0)).is_err());
    assert!(rt; Windows::new(origin, (50, 50), (1, 1), (1024, 1025)).is_err());
    assert!(rt; Windows::new(origin, (50, 50), (1, 1), (1024, 1024)).is_ok());
}

#[test]
fn an_equal_share_passes(rt: HostRuntime) {
    assert!(rt; !is_low(400, 160_000, 2500) && is_low(399, 160_000, 2500));
    assert!(rt; !is_high(2000, 800_000, 2500) && is_high(2001, 800_000, 2500));
}

/// Asserts which columns a range names.
fn assert_columns(rt: &impl Abort, found: &Range<u32>, first: u32, past: u32) {
    assert_eq!(rt; found.start, first);
    assert_eq!(rt; found.end, past);
}

#[test]
fn windows_that_share_and_hold(rt: HostRuntime) {
    let Ok(windows) = Windows::new(Point { x: 0, y: 0 }, (50, 50), (25, 25), (3, 3)) else {
        panic!(&rt; "the windows are refused");
    };
    let (columns, rows) = windows.touching(&rect(&rt, [23, 3, 27, 7]));
    assert_columns(&rt, &columns, 0, 2);
    assert_columns(&rt, &rows, 0, 1);
    let (columns, rows) = windows.containing(&rect(&rt, [23, 3, 27, 7]));
    assert_columns(&rt, &columns, 0, 1);
    assert_columns(&rt, &rows, 0, 1);
    let (columns, rows) = windows.containing(&rect(&rt, [25, 0, 50, 50]));
    assert_columns(&rt, &columns, 0, 2);
    assert_columns(&rt, &rows, 0, 1);
    let (columns, rows) = windows.touching(&rect(&rt, [25, 50, 50, 60]));
    assert_columns(&rt, &columns, 0, 2);
    assert_columns(&rt, &rows, 1, 3);
    let (columns, _) = windows.touching(&rect(&rt, [100, 0, 210, 10]));
    assert!(rt; columns.start >= columns.end);
    let (columns, _) = windows.touching(&rect(&rt, [-10, 0, 0, 10]));
    assert!(rt; columns.start >= columns.end);
}

#[test]
fn each_refusal_says_why(rt: HostRuntime) -> Result<(), Fail> {
    let text = format!(in rt.alloc(); "{}", BadWindows)?;
    let want = "a window's size, step, count or place is out of its limits";
    assert_eq!(rt; text.as_str(), want);
    Ok(())
}

#[test]
fn windows_are_equal_where_all_numbers_are(rt: HostRuntime) {
    let origin = Point { x: -3, y: 4 };
    let grid = Windows::new(origin, (10, 11), (12, 13), (5, 6));
    assert!(rt; grid.is_ok());
    assert!(rt; grid == Windows::new(origin, (10, 11), (12, 13), (5, 6)));
    for other in [
        Windows::new(Point { x: -2, y: 4 }, (10, 11), (12, 13), (5, 6)),
        Windows::new(Point { x: -3, y: 5 }, (10, 11), (12, 13), (5, 6)),
        Windows::new(origin, (9, 11), (12, 13), (5, 6)),
        Windows::new(origin, (10, 10), (12, 13), (5, 6)),
        Windows::new(origin, (10, 11), (11, 13), (5, 6)),
        Windows::new(origin, (10, 11), (12, 12), (5, 6)),
        Windows::new(origin, (10, 11), (12, 13), (4, 6)),
        Windows::new(origin, (10, 11), (12, 13), (5, 5)),
    ] {
        assert!(rt; other.is_ok());
        assert!(rt; grid != other);
    }
}

#[test]
fn a_million_windows_are_measured_at_once(rt: HostRuntime) -> Result<(), Fail> {
    let alloc = rt.alloc();
    let wire = Region::one(alloc, &rect(&rt, [0, 0, 1024, 2]))?;
    let Ok(windows) = Windows::new(Point { x: 0, y: 0 }, (1, 4), (1, 1), (1024, 1024)) else {
        panic!(&rt; "the windows are refused");
    };
    let totals = measure_all(&rt, alloc, &wire, &windows)?;
    assert_eq!(rt; totals.len(), 1_048_576);
    for (k, total) in totals.iter().enumerate() {
        let want = if k < 1024 {
            2
        } else if k < 2048 {
            1
        } else {
            0
        };
        assert_eq!(rt; *total, want);
    }
    Ok(())
}
