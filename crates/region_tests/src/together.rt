//! Regions that several threads make: those that one makes.

use fill_base::Rect;
use fill_region::{Region, region_of_rects};
use std::alloc::Global;
use std::test::Fail;

/// So many rectangles of 7 by 5 squares, whose columns repeat after 101 and whose rows after 97.
fn rects_of(alloc: Global, count: u32) -> Result<Vec<Rect>, Fail> {
    let mut rects = Vec::new(alloc);
    for k in 0..i64::from(count) {
        let (x, y) = (k.wrapping_mul(37) % 101, k.wrapping_mul(29) % 97);
        let (right, top) = (x.wrapping_add(7), y.wrapping_add(5));
        rects.push(Rect::new(x, y, right, top)?)?;
    }
    Ok(rects)
}

#[test]
fn threads_make_the_region_that_one_makes(rt: HostRuntime) -> Result<(), Fail> {
    let alloc = rt.alloc();
    for count in [0, 1, 2, 120, 9_200] {
        let rects = rects_of(alloc, count)?;
        let region = region_of_rects(&rt, alloc, &rects)?;
        assert!(rt; region == Region::from_rects(alloc, &rects)?);
    }
    Ok(())
}

/// Squares at the ends of the range, and one column through all of it.
#[test]
fn squares_at_the_ends_of_the_range_are_held(rt: HostRuntime) -> Result<(), Fail> {
    let alloc = rt.alloc();
    let (low, high) = (-1_073_741_824, 1_073_741_824);
    let mut rects = Vec::new(alloc);
    rects.push(Rect::new(low, low, low + 1, low + 1)?)?;
    rects.push(Rect::new(high - 1, high - 1, high, high)?)?;
    rects.push(Rect::new(0, low, 1, high)?)?;
    let region = region_of_rects(&rt, alloc, &rects)?;
    assert!(rt; region.has(low, low) && region.has(high - 1, high - 1) && region.has(0, 0));
    assert!(rt; !region.has(low + 1, low) && !region.has(1, 0) && !region.has(high - 1, high - 2));
    Ok(())
}
