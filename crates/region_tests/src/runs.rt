//! Regions as joined runs: one set is one list, whichever way it was made.

use crate::squares::rects_of;
use fill_base::Rect;
use fill_region::{Region, region_of_rects};
use std::alloc::Global;
use std::test::Fail;

#[test]
fn figures_have_the_runs_that_their_rows_show(rt: HostRuntime) -> Result<(), Fail> {
    let alloc = rt.alloc();
    let figures: [(&[[i64; 4]], &[[i64; 4]]); 10] = [
        // none, and a wire either way
        (&[], &[]),
        (&[[0, 0, 1, 90]], &[[0, 0, 1, 90]]),
        (&[[0, 0, 90, 1]], &[[0, 0, 90, 1]]),
        // one on the other, one beside the other, and corner to corner
        (&[[0, 0, 2, 2], [0, 2, 2, 4]], &[[0, 0, 2, 4]]),
        (&[[0, 0, 2, 2], [2, 0, 4, 2]], &[[0, 0, 4, 2]]),
        (&[[0, 0, 2, 2], [2, 2, 4, 4]], &[[0, 0, 2, 2], [2, 2, 4, 4]]),
        // an angle, a cross, a ring, and two that overlap
        (&[[0, 0, 1, 3], [0, 0, 3, 1]], &[[0, 0, 3, 1], [0, 1, 1, 3]]),
        (
            &[[1, 0, 2, 3], [0, 1, 3, 2]],
            &[[1, 0, 2, 1], [0, 1, 3, 2], [1, 2, 2, 3]],
        ),
        (
            &[[0, 0, 3, 1], [0, 2, 3, 3], [0, 0, 1, 3], [2, 0, 3, 3]],
            &[[0, 0, 3, 1], [0, 1, 1, 2], [2, 1, 3, 2], [0, 2, 3, 3]],
        ),
        (
            &[[1, 1, 3, 3], [0, 0, 2, 2]],
            &[[0, 0, 2, 1], [0, 1, 3, 2], [1, 2, 3, 3]],
        ),
    ];
    for (rects, runs) in figures {
        let made = region_of_rects(&rt, alloc, &rects_of(alloc, rects)?)?;
        let wanted = rects_of(alloc, runs)?;
        assert!(rt; made.runs() == wanted.as_slice());
    }
    assert!(rt; Region::empty(alloc).runs().is_empty());
    Ok(())
}

/// A hundred wires each way: 100 pieces of upright ones below, between and above a hundred lying ones.
#[test]
fn a_mesh_has_a_run_for_each_lying_wire_and_each_piece(rt: HostRuntime) -> Result<(), Fail> {
    let alloc = rt.alloc();
    let mut rects = Vec::new(alloc);
    for k in 0..100i64 {
        let at = k.wrapping_mul(4);
        let (next, after) = (at.wrapping_add(1), at.wrapping_add(2));
        rects.push(Rect::new(at, 0, next, 400)?)?;
        rects.push(Rect::new(0, next, 400, after)?)?;
    }
    let mesh = region_of_rects(&rt, alloc, &rects)?;
    assert!(rt; mesh.runs().len() == 10_200);
    // the same from the last to the first, and twice
    let once = Vec::from_slice(alloc, &rects)?;
    rects.reverse();
    rects.extend_from_slice(&once)?;
    let again = region_of_rects(&rt, alloc, &rects)?;
    assert!(rt; mesh.runs() == again.runs());
    Ok(())
}

/// So many rectangles, `wide` by `tall`, whose columns repeat after 101 and whose rows after 97.
fn strewn(alloc: Global, count: u32, wide: i64, tall: i64) -> Result<Vec<Rect>, Fail> {
    let mut rects = Vec::new(alloc);
    for k in 0..i64::from(count) {
        let (x, y) = (k.wrapping_mul(37) % 101, k.wrapping_mul(29) % 97);
        let (right, top) = (x.wrapping_add(wide), y.wrapping_add(tall));
        rects.push(Rect::new(x, y, right, top)?)?;
    }
    Ok(rects)
}

fn some_holds(rects: &[Rect], x: i64, y: i64) -> bool {
    rects
        .iter()
        .any(|r| r.x1() <= x && x < r.x2() && r.y1() <= y && y < r.y2())
}

/// How many runs hold the square.
fn runs_at(region: &Region, x: i64, y: i64) -> usize {
    region
        .runs()
        .iter()
        .filter(|r| r.x1() <= x && x < r.x2() && r.y1() <= y && y < r.y2())
        .count()
}

/// Each square is in one run where the operation keeps it, and in none elsewhere.
#[test]
fn every_operation_keeps_its_squares(rt: HostRuntime) -> Result<(), Fail> {
    let alloc = rt.alloc();
    for (wide, tall) in [(1, 40), (40, 1), (7, 5)] {
        let first = strewn(alloc, 300, wide, tall)?;
        let second = strewn(alloc, 150, tall, wide)?;
        let a = region_of_rects(&rt, alloc, &first)?;
        let b = region_of_rects(&rt, alloc, &second)?;
        let (both, rest, common) = (a.union(alloc, &b)?, a.minus(alloc, &b)?, a.meet(alloc, &b)?);
        for row in 0..47i64 {
            let y = row.wrapping_mul(3);
            for x in 0..144i64 {
                let (in_first, in_second) = (some_holds(&first, x, y), some_holds(&second, x, y));
                assert!(rt; runs_at(&both, x, y) == usize::from(in_first || in_second));
                assert!(rt; runs_at(&rest, x, y) == usize::from(in_first && !in_second));
                assert!(rt; runs_at(&common, x, y) == usize::from(in_first && in_second));
            }
        }
    }
    Ok(())
}

/// A set that is put together in two ways is one list.
#[test]
fn a_set_made_in_two_ways_is_one_list(rt: HostRuntime) -> Result<(), Fail> {
    let alloc = rt.alloc();
    for (wide, tall) in [(1, 40), (40, 1), (7, 5)] {
        let first = strewn(alloc, 500, wide, tall)?;
        let second = strewn(alloc, 260, tall, wide)?;
        let a = region_of_rects(&rt, alloc, &first)?;
        let b = region_of_rects(&rt, alloc, &second)?;
        let whole = a.minus(alloc, &b)?.union(alloc, &a.meet(alloc, &b)?)?;
        assert!(rt; whole == a);
        assert!(rt; whole.runs() == a.runs());
    }
    Ok(())
}
