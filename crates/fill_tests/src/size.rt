ghost use Rattle.fill_base.specs.Limits.{IsSpacing};

use fill_base::Rect;
use fill_region::Region;
use fill_size::{conflicts, fits, is_clear, sized};
use std::alloc::{AllocError, Global};
use std::process::Abort;
use std::test::Fail;

fn rect(rt: &impl Abort, corners: [i64; 4]) -> Rect {
    let [x1, y1, x2, y2] = corners;
    match Rect::new(x1, y1, x2, y2) {
        Ok(rect) => rect,
        Err(error) => panic!(rt; "{error:?}"),
    }
}

/// Asserts whether the place is clear of a piece of metal, by both calls.
fn assert_place(
    rt: &impl Abort,
    alloc: Global,
    place: &Rect,
    metal: &Rect,
    spacing: i64,
    clear: bool,
) -> Result<(), AllocError>
    requires { IsSpacing spacing }
{
    let region = Region::one(alloc, metal)?;
    assert_eq!(rt; is_clear(&region, place, spacing), clear);
    assert_eq!(rt; conflicts(metal, place, spacing), !clear);
    assert_eq!(rt; conflicts(place, metal, spacing), !clear);
    Ok(())
}

#[test]
fn a_gap_of_the_spacing_is_clear_and_one_less_is_not(rt: HostRuntime) -> Result<(), Fail> {
    let alloc = rt.alloc();
    let place = rect(&rt, [3, 3, 7, 7]);
    assert_place(&rt, alloc, &place, &rect(&rt, [9, 0, 20, 20]), 2, true)?;
    assert_place(&rt, alloc, &place, &rect(&rt, [8, 0, 20, 20]), 2, false)?;
    assert_place(&rt, alloc, &place, &rect(&rt, [8, 8, 9, 9]), 2, false)?;
    assert_place(&rt, alloc, &place, &rect(&rt, [9, 8, 10, 9]), 2, true)?;
    assert_place(&rt, alloc, &place, &rect(&rt, [7, 0, 9, 20]), 0, true)?;
    assert_place(&rt, alloc, &place, &rect(&rt, [6, 0, 9, 20]), 0, false)?;
    Ok(())
}

#[test]
fn clearance_looks_at_every_square(rt: HostRuntime) -> Result<(), Fail> {
    let alloc = rt.alloc();
    let rects = [
        rect(&rt, [0, 0, 1, 1]),
        rect(&rt, [8, 2, 9, 5]),
        rect(&rt, [3, 9, 6, 10]),
    ];
    let region = Region::from_rects(alloc, &rects)?;
    for y in 0..8i64 {
        for x in 0..8i64 {
            let place = rect(&rt, [x, y, x + 2, y + 2]);
            let mut near = false;
            for metal in &rects {
                near |= conflicts(metal, &place, 2);
            }
            assert_eq!(rt; is_clear(&region, &place, 2), !near);
        }
    }
    Ok(())
}

/// The region grown, where that fits.
fn grown(alloc: Global, region: &Region, d: i64) -> Result<Option<Region>, AllocError>
    requires { IsSpacing d }
{
    if !fits(region, d) {
        return Ok(None);
    }
    Ok(Some(sized(alloc, region, d)?))
}

#[test]
fn a_grown_region_has_square_corners(rt: HostRuntime) -> Result<(), Fail> {
    let alloc = rt.alloc();
    let wire = Region::from_rects(alloc, &[rect(&rt, [0, 0, 10, 2]), rect(&rt, [0, 0, 2, 10])])?;
    let want = Region::from_rects(
        alloc,
        &[rect(&rt, [-3, -3, 13, 5]), rect(&rt, [-3, -3, 5, 13])],
    )?;
    let square = Region::one(alloc, &rect(&rt, [0, 0, 1, 1]))?;
    let grown_square = Region::one(alloc, &rect(&rt, [-2, -2, 3, 3]))?;
    assert!(rt; grown(alloc, &square, 2)? == Some(grown_square));
    assert!(rt; grown(alloc, &square, 0)? == Some(square));
    let nothing = Region::empty(alloc);
    assert!(rt; grown(alloc, &wire, 3)? == Some(want));
    assert!(rt; grown(alloc, &wire, 0)? == Some(wire));
    assert!(rt; grown(alloc, &nothing, 1 << 20)? == Some(Region::empty(alloc)));
    Ok(())
}

#[test]
fn any_growth_can_be_asked(rt: HostRuntime) -> Result<(), Fail> {
    let alloc = rt.alloc();
    let square = Region::one(alloc, &rect(&rt, [0, 0, 1, 1]))?;
    let nothing = Region::empty(alloc);
    for d in [i64::MIN, -1] {
        assert!(rt; fits(&square, d));
        assert!(rt; fits(&nothing, d));
    }
    assert!(rt; fits(&square, (1 << 30) - 1));
    for d in [1 << 30, 1 << 31, (1 << 31) + 1, i64::MAX] {
        assert!(rt; !fits(&square, d));
        assert!(rt; fits(&nothing, d));
    }
    Ok(())
}

#[test]
fn a_hundred_thousand_squares_grow_at_once(rt: HostRuntime) -> Result<(), Fail> {
    let alloc = rt.alloc();
    let mut rects = Vec::new(alloc);
    for i in 0..100_000u32 {
        let (x, y) = (i64::from(i % 1000) * 10, i64::from(i / 1000) * 10);
        rects.push(rect(&rt, [x, y, x.wrapping_add(1), y.wrapping_add(1)]))?;
    }
    let region = Region::from_rects(alloc, &rects)?;
    let Some(wide) = grown(alloc, &region, 2)? else {
        panic!(&rt; "the squares don't fit");
    };
    assert_eq!(rt; wide.pieces(alloc)?.len(), 100_000);
    assert!(rt; is_clear(&wide, &rect(&rt, [3, 3, 8, 8]), 0));
    assert!(rt; !is_clear(&wide, &rect(&rt, [3, 3, 8, 8]), 1));
    Ok(())
}

#[test]
fn what_would_leave_the_range_does_not_fit(rt: HostRuntime) -> Result<(), Fail> {
    let alloc = rt.alloc();
    let edge = 1i64 << 30;
    let cases = [
        [edge - 3, 0, edge - 2, 1],
        [-edge + 2, 0, 7, 1],
        [0, edge - 3, 1, edge - 2],
        [0, -edge + 2, 1, 7],
    ];
    for corners in cases {
        let region = Region::one(alloc, &rect(&rt, corners))?;
        assert!(rt; fits(&region, 0));
        assert!(rt; fits(&region, 2));
        assert!(rt; !fits(&region, 3));
    }
    Ok(())
}
