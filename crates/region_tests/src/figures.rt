//! Large figures: their runs are told by hand, and their squares are counted.

use crate::squares::{
    Dice, count_of, grid_of, make, parts_of, rect_of, rects_of, repeated, runs_of_grid,
};
use fill_region::{Region, region_of_rects};
use std::alloc::Global;
use std::test::Fail;

/// 300 wires of 500 squares lie one above another or stand side by side. In pieces they are 15,000 rectangles.
#[test]
fn each_wire_is_a_run_whichever_way_it_lies(rt: HostRuntime) -> Result<(), Fail> {
    let alloc = rt.alloc();
    let lying = repeated(alloc, 300, [0, 0, 500, 1], [0, 2, 0, 2])?;
    let standing = repeated(alloc, 300, [0, 0, 1, 500], [2, 0, 2, 0])?;
    for wires in [lying, standing] {
        assert!(rt; count_of(&wires) == 150_000);
        assert!(rt; make(&rt, alloc, &wires, &wires)?);
        let pieces = parts_of(alloc, &wires, 10, 10)?;
        assert!(rt; pieces.len() == 15_000);
        assert!(rt; make(&rt, alloc, &pieces, &wires)?);
    }
    Ok(())
}

/// 300 teeth on a back. Standing, each tooth is a run and the back is one; lying, each second row holds the back alone.
#[test]
fn combs_have_a_run_for_each_tooth_and_their_back(rt: HostRuntime) -> Result<(), Fail> {
    let alloc = rt.alloc();
    let mut standing = repeated(alloc, 300, [0, 0, 1, 50], [2, 0, 2, 0])?;
    standing.push(rect_of([0, 0, 600, 1])?)?;
    let mut runs = rects_of(alloc, &[[0, 0, 600, 1]])?;
    runs.extend_from_slice(&repeated(alloc, 300, [0, 1, 1, 50], [2, 0, 2, 0])?)?;
    assert!(rt; runs.len() == 301 && count_of(&runs) == 15_300);
    assert!(rt; make(&rt, alloc, &standing, &runs)?);
    assert!(rt; make(&rt, alloc, &parts_of(alloc, &standing, 1, 1)?, &runs)?);

    let mut lying = repeated(alloc, 300, [0, 0, 50, 1], [0, 2, 0, 2])?;
    lying.push(rect_of([0, 0, 1, 600])?)?;
    let mut runs = Vec::new(alloc);
    for k in 0..300i64 {
        let row = k.wrapping_mul(2);
        let (next, after) = (row.wrapping_add(1), row.wrapping_add(2));
        runs.push(rect_of([0, row, 50, next])?)?;
        runs.push(rect_of([0, next, 1, after])?)?;
    }
    assert!(rt; runs.len() == 600 && count_of(&runs) == 15_300);
    assert!(rt; make(&rt, alloc, &lying, &runs)?);
    assert!(rt; make(&rt, alloc, &parts_of(alloc, &lying, 1, 1)?, &runs)?);
    Ok(())
}

/// 150 wires each way, whole and in 18,000 pieces: each lying wire is a run, and a standing one is cut in 151 by them.
#[test]
fn a_mesh_of_pieces_is_the_mesh_of_wires(rt: HostRuntime) -> Result<(), Fail> {
    let alloc = rt.alloc();
    let mut wires = repeated(alloc, 150, [0, 1, 600, 2], [0, 4, 0, 4])?;
    wires.extend_from_slice(&repeated(alloc, 150, [0, 0, 1, 600], [4, 0, 4, 0])?)?;
    let pieces = parts_of(alloc, &wires, 10, 10)?;
    assert!(rt; pieces.len() == 18_000);
    let mesh = region_of_rects(&rt, alloc, &wires)?;
    assert!(rt; mesh.runs().len() == 22_800);
    // but for the 22,500 crossings each wire has its squares alone
    assert!(rt; count_of(mesh.runs()) == 157_500);
    assert!(rt; region_of_rects(&rt, alloc, &pieces)?.runs() == mesh.runs());
    assert!(rt; Region::from_rects(alloc, &pieces)?.runs() == mesh.runs());
    Ok(())
}

/// Stairs of 400 steps: as rows, as columns, and as 8,200 pieces of the columns. No two rows are the same.
#[test]
fn stairs_have_a_run_for_each_step(rt: HostRuntime) -> Result<(), Fail> {
    let alloc = rt.alloc();
    let rows = repeated(alloc, 400, [0, 0, 400, 1], [1, 1, 0, 1])?;
    let columns = repeated(alloc, 400, [0, 0, 1, 1], [1, 0, 1, 1])?;
    assert!(rt; count_of(&rows) == 80_200 && count_of(&columns) == 80_200);
    assert!(rt; make(&rt, alloc, &rows, &rows)?);
    assert!(rt; make(&rt, alloc, &columns, &rows)?);
    let pieces = parts_of(alloc, &columns, 1, 10)?;
    assert!(rt; pieces.len() == 8_200);
    assert!(rt; make(&rt, alloc, &pieces, &rows)?);
    // 9,000 steps of single squares corner to corner, and of two squares that rest on the one below
    let corners = repeated(alloc, 9_000, [0, 0, 1, 1], [1, 1, 1, 1])?;
    assert!(rt; make(&rt, alloc, &corners, &corners)?);
    let resting = repeated(alloc, 9_000, [0, 0, 2, 1], [1, 1, 1, 1])?;
    assert!(rt; make(&rt, alloc, &resting, &resting)?);
    Ok(())
}

/// The same rectangle 9,000 times, 300 within one another, and 300 one on the other that get narrower.
#[test]
fn piles_have_the_runs_of_their_outline(rt: HostRuntime) -> Result<(), Fail> {
    let alloc = rt.alloc();
    let same = repeated(alloc, 9_000, [-7, -5, 11, 3], [0, 0, 0, 0])?;
    assert!(rt; make(&rt, alloc, &same, &rects_of(alloc, &[[-7, -5, 11, 3]])?)?);
    let within = repeated(alloc, 300, [0, 0, 600, 600], [1, 1, -1, -1])?;
    assert!(rt; make(&rt, alloc, &within, &rects_of(alloc, &[[0, 0, 600, 600]])?)?);
    let pyramid = repeated(alloc, 300, [0, 0, 600, 1], [1, 0, -1, 1])?;
    let runs = repeated(alloc, 300, [0, 0, 600, 1], [1, 1, -1, 1])?;
    assert!(rt; count_of(&runs) == 90_300);
    assert!(rt; make(&rt, alloc, &pyramid, &runs)?);
    // each 40 wide and 7 tall, a column further right and a row higher up: a row has 7 of them, but for the first and last 6
    let slanting = repeated(alloc, 9_000, [0, 0, 40, 7], [1, 1, 1, 1])?;
    let mut runs = repeated(alloc, 7, [0, 0, 40, 1], [0, 1, 1, 1])?;
    runs.extend_from_slice(&repeated(alloc, 8_993, [1, 7, 47, 8], [1, 1, 1, 1])?)?;
    runs.extend_from_slice(&repeated(alloc, 6, [8_994, 9_000, 9_039, 9_001], [1, 1, 0, 1])?)?;
    assert!(rt; runs.len() == 9_006);
    assert!(rt; make(&rt, alloc, &slanting, &runs)?);
    Ok(())
}

/// Squares and small rectangles strewn over a board of 62 by 62: few rectangles, so many that one row crosses dozens, and 9,000.
#[test]
fn piles_without_order_have_the_runs_of_their_squares(rt: HostRuntime) -> Result<(), Fail> {
    let alloc = rt.alloc();
    let mut dice = Dice::new(9);
    for (count, wide, tall) in [
        (200, 5, 5),
        (300, 2, 30),
        (300, 30, 2),
        (2_000, 2, 3),
        (9_000, 1, 1),
    ] {
        let mut rects = Vec::new(alloc);
        for _ in 0..count {
            let (x, y) = (
                dice.below(62).wrapping_sub(31),
                dice.below(62).wrapping_sub(31),
            );
            let right = x.wrapping_add(dice.below(wide)).wrapping_add(1).min(31);
            let top = y.wrapping_add(dice.below(tall)).wrapping_add(1).min(31);
            rects.push(rect_of([x, y, right, top])?)?;
        }
        let runs = runs_of_grid(alloc, &grid_of(alloc, &rects)?)?;
        assert!(rt;
            runs.len() > 50,
            "{count} rectangles leave something to tell apart"
        );
        assert!(rt; make(&rt, alloc, &rects, &runs)?, "{count} rectangles");
    }
    Ok(())
}

/// The four sides of a ring whose lower left corner is `(low, low)` and whose upper right one `(high, high)`, in their order.
fn ring(low: i64, high: i64) -> [[i64; 4]; 4] {
    let (inner, outer) = (low.wrapping_add(1), high.wrapping_sub(1));
    [
        [low, low, high, inner],
        [low, inner, inner, outer],
        [outer, inner, high, outer],
        [low, outer, high, high],
    ]
}

/// 75 rings in one another, with a row and a column free between them: the sides of each are four runs.
#[test]
fn rings_in_rings_have_four_runs_each(rt: HostRuntime) -> Result<(), Fail> {
    let alloc = rt.alloc();
    let mut rects = Vec::new(alloc);
    for k in 0..75i64 {
        let low = k.wrapping_mul(2);
        for side in ring(low, 300i64.wrapping_sub(low)) {
            rects.push(rect_of(side)?)?;
        }
    }
    assert!(rt; rects.len() == 300 && count_of(&rects) == 45_300);
    let singles = parts_of(alloc, &rects, 1, 1)?;
    for list in [rects.as_slice(), singles.as_slice()] {
        let rings = region_of_rects(&rt, alloc, list)?;
        assert!(rt; rings.runs().len() == 300);
        assert!(rt; count_of(rings.runs()) == 45_300);
        for side in &rects {
            assert!(rt; rings.runs().contains(side));
        }
    }
    Ok(())
}
