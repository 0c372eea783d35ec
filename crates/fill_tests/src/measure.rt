//! Windows measured straight from rectangles, beside those measured by a region, and by hand.
use fill_area::{Windows, areas_in};
use fill_base::{Point, Rect};
use fill_measure::{measure_all, sum_rects};
use fill_region::Region;
use std::alloc::Global;
use std::test::Fail;
use std::thread::Threads;

/// So many rectangles at mixed places from -32 to 63, up to 32 wide and 16 tall, so that many overlap.
fn mixed_rects(alloc: Global, count: u32) -> Result<Vec<Rect>, Fail> {
    let mut rects = Vec::new(alloc);
    let mut state: u64 = 88_172_645_463_325_252;
    for _ in 0..count {
        state = state
            .wrapping_mul(6_364_136_223_846_793_005)
            .wrapping_add(1_442_695_040_888_963_407);
        let left = ((state >> 20) & 63) as u32;
        let bottom = ((state >> 30) & 63) as u32;
        let right = left + ((state >> 40) & 31) as u32 + 1;
        let top = bottom + ((state >> 50) & 15) as u32 + 1;
        rects.push(Rect::new(
            i64::from(left) - 32,
            i64::from(bottom) - 32,
            i64::from(right) - 32,
            i64::from(top) - 32,
        )?)?;
    }
    Ok(rects)
}

/// The rectangles in so many lists or fewer, one after another.
fn in_lists(alloc: Global, rects: &[Rect], count: usize) -> Result<Vec<Vec<Rect>>, Fail> {
    let mut lists = Vec::new(alloc);
    for part in rects.chunks(rects.len() / count.max(1) + 1) {
        lists.push(Vec::from_slice(alloc, part)?)?;
    }
    Ok(lists)
}

/// The areas of all windows, measured straight from the rectangles.
fn areas_of(
    rt: &(impl Threads + Sync),
    alloc: Global,
    lists: &[Vec<Rect>],
    windows: &Windows,
) -> Result<Vec<i64>, Fail> {
    let sums = sum_rects(rt, alloc, lists, windows)?;
    Ok(sums.areas_from(alloc, 0, windows.len())?)
}

/// Whether the windows have the areas of the region of the rectangles, measured straight from one list of them, from several, and by
/// the region's runs.
fn are_those_of_the_region(
    rt: &(impl Threads + Sync),
    alloc: Global,
    rects: &[Rect],
    windows: &Windows,
) -> Result<bool, Fail> {
    let region = Region::from_rects(alloc, rects)?;
    let areas = areas_in(alloc, &region, windows)?;
    let straight = areas_of(rt, alloc, &in_lists(alloc, rects, 1)?, windows)?;
    let by_lists = areas_of(rt, alloc, &in_lists(alloc, rects, 7)?, windows)?;
    let by_runs = measure_all(rt, alloc, &region, windows)?;
    Ok(straight == areas && by_lists == areas && by_runs == areas)
}

#[test]
fn each_grid_has_the_areas_of_the_region(rt: HostRuntime) -> Result<(), Fail> {
    // Corner, size, step and count: overlapping by half and by three quarters, touching, with gaps, of odd steps, beside all
    // rectangles, one over all, a narrow one, and those whose edges crowd in the middle.
    let alloc = rt.alloc();
    for (corner, size, step, count) in [
        ((-40, -40), (20, 16), (10, 8), (12, 13)),
        ((-33, -35), (16, 12), (4, 3), (30, 40)),
        ((-32, -32), (8, 8), (8, 8), (16, 16)),
        ((-36, -31), (5, 3), (9, 7), (14, 18)),
        ((-40, -40), (13, 11), (7, 5), (18, 25)),
        ((200, 300), (8, 8), (4, 4), (5, 5)),
        ((-64, -64), (256, 256), (1, 1), (1, 1)),
        ((3, -64), (1, 256), (1, 1), (1, 1)),
        ((-40, -40), (301, 7), (4, 3), (120, 10)),
    ] {
        let (x, y) = corner;
        let windows = Windows::new(Point { x, y }, size, step, count)?;
        for number in [0u32, 1, 2, 40, 700, 5000] {
            let rects = mixed_rects(alloc, number)?;
            let same = are_those_of_the_region(&rt, alloc, &rects, &windows)?;
            assert!(rt; same, "{corner:?} {size:?} {step:?} {count:?} {number}");
        }
    }
    Ok(())
}

#[test]
fn squares_of_two_rectangles_count_once(rt: HostRuntime) -> Result<(), Fail> {
    // Windows of 6 by 4 at steps of 4 by 2, by hand: the first has 5 columns of 3 lines of the first rectangle, and one of
    // its squares is in both.
    let alloc = rt.alloc();
    let windows = Windows::new(Point { x: 0, y: 0 }, (6, 4), (4, 2), (2, 2))?;
    let rects = [
        Rect::new(1, 1, 6, 4)?,
        Rect::new(5, 2, 9, 5)?,
        Rect::new(5, 2, 9, 5)?,
    ];
    let lists = in_lists(alloc, &rects, 2)?;
    let areas = areas_of(&rt, alloc, &lists, &windows)?;
    assert_eq!(rt; areas.as_slice(), [15, 12, 11, 14].as_slice());
    Ok(())
}

#[test]
fn sums_outlive_the_rectangles(rt: HostRuntime) -> Result<(), Fail> {
    // The windows and the areas of the test before.
    let alloc = rt.alloc();
    let windows = Windows::new(Point { x: 0, y: 0 }, (6, 4), (4, 2), (2, 2))?;
    let rects = [Rect::new(1, 1, 6, 4)?, Rect::new(5, 2, 9, 5)?];
    let lists = in_lists(alloc, &rects, 2)?;
    let sums = sum_rects(&rt, alloc, &lists, &windows)?;
    drop(lists);
    assert!(rt; *sums.windows() == windows);
    assert_eq!(rt;
        sums.areas_from(alloc, 0, 4)?.as_slice(),
        [15, 12, 11, 14].as_slice()
    );
    assert_eq!(rt;
        sums.areas_from(alloc, 1, 2)?.as_slice(),
        [12, 11].as_slice()
    );
    assert!(rt; sums.areas_from(alloc, 4, 0)?.is_empty());
    assert_eq!(rt;
        (sums.area(0, 0), sums.area(1, 0), sums.area(0, 1)),
        (15, 12, 11)
    );
    Ok(())
}

#[test]
fn sides_of_windows_amid_edges(rt: HostRuntime) -> Result<(), Fail> {
    // 70,000 windows of 4 by 4 in a row, a unit apart, over 10 columns of 2 lines and over 2 columns of all lines, by hand. Then the same
    // with columns for lines.
    let alloc = rt.alloc();
    let corner = Point { x: 0, y: 0 };
    let row = Windows::new(corner, (4, 4), (1, 4), (70_000, 1))?;
    let column = Windows::new(corner, (4, 4), (4, 1), (1, 70_000))?;
    let wide = [Rect::new(10, 1, 20, 3)?, Rect::new(100, -5, 102, 50)?];
    let tall = [Rect::new(1, 10, 3, 20)?, Rect::new(-5, 100, 50, 102)?];
    for (windows, rects) in [(row, wide), (column, tall)] {
        let lists = in_lists(alloc, &rects, 1)?;
        let areas = areas_of(&rt, alloc, &lists, &windows)?;
        assert!(rt; areas.get(6..11) == Some([0, 2, 4, 6, 8].as_slice()));
        assert!(rt; areas.get(16..21) == Some([8, 6, 4, 2, 0].as_slice()));
        assert!(rt; areas.get(96..103) == Some([0, 4, 8, 8, 8, 4, 0].as_slice()));
    }
    Ok(())
}

#[test]
fn windows_amid_edges_are_as_few_of_them_alone(rt: HostRuntime) -> Result<(), Fail> {
    // 70,000 windows in a row, and in a column, of which the first or the last thousand lie over the rectangles.
    let alloc = rt.alloc();
    let rects = mixed_rects(alloc, 300)?;
    let lists = in_lists(alloc, &rects, 3)?;
    let region = Region::from_rects(alloc, &rects)?;
    let part = Rect::new(-30, -25, 40, 35)?;
    for (first, from, to) in [(-500, 0, 1_000), (-69_500, 69_000, 70_000)] {
        let row = Windows::new(Point { x: first, y: -40 }, (13, 90), (1, 1), (70_000, 1))?;
        let columns = Windows::new(Point { x: -500, y: -40 }, (13, 90), (1, 1), (1_000, 1))?;
        let column = Windows::new(Point { x: -40, y: first }, (90, 13), (1, 1), (1, 70_000))?;
        let rows = Windows::new(Point { x: -40, y: -500 }, (90, 13), (1, 1), (1, 1_000))?;
        for (all, few) in [
            (row, columns),
            (column, rows),
            (row.clipped_to(&part), columns.clipped_to(&part)),
            (column.clipped_to(&part), rows.clipped_to(&part)),
        ] {
            let areas = areas_of(&rt, alloc, &lists, &all)?;
            let alone = areas_in(alloc, &region, &few)?;
            assert!(rt; areas.get(from..to) == Some(alone.as_slice()), "{all:?}");
        }
    }
    Ok(())
}

#[test]
fn rectangles_across_all_rows_and_a_million_windows(rt: HostRuntime) -> Result<(), Fail> {
    let alloc = rt.alloc();
    let windows = Windows::new(Point { x: -500, y: -500 }, (1, 1), (1, 1), (1000, 1000))?;
    let rects = [
        Rect::new(-600, -600, -490, 600)?,
        Rect::new(-600, 17, 600, 18)?,
        Rect::new(0, -501, 3, 501)?,
    ];
    let same = are_those_of_the_region(&rt, alloc, &rects, &windows)?;
    assert!(rt; same);
    Ok(())
}
