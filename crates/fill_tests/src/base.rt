//! Rectangles: their refusals, their equality, their areas and what two have in common.

use fill_base::{HIGHEST, LOWEST, Rect, RectError};
use std::test::Fail;

#[test]
fn the_first_fault_of_four_numbers_is_refused(rt: HostRuntime) {
    for (corners, want) in [
        ([LOWEST - 1, 0, 1, 1], RectError::OutOfRange),
        ([0, 0, 1, HIGHEST + 1], RectError::OutOfRange),
        ([5, 0, 5, HIGHEST + 1], RectError::OutOfRange),
        ([5, 0, 5, 1], RectError::BadRect),
        ([0, 6, 1, 5], RectError::BadRect),
    ] {
        let [x1, y1, x2, y2] = corners;
        assert_eq!(rt; Rect::new(x1, y1, x2, y2), Err(want), "{corners:?}");
    }
}

#[test]
fn each_refusal_says_why(rt: HostRuntime) -> Result<(), Fail> {
    let alloc = rt.alloc();
    let range = format!(in alloc; "{}", RectError::OutOfRange)?;
    assert_eq!(rt; range.as_str(), "a coordinate is out of range");
    let none = format!(in alloc; "{}", RectError::BadRect)?;
    assert_eq!(rt; none.as_str(), "the rectangle holds no square");
    Ok(())
}

#[test]
fn rectangles_are_equal_where_all_edges_are(rt: HostRuntime) -> Result<(), Fail> {
    let wire = Rect::new(-3, 2, 4, 5)?;
    assert!(rt; wire == Rect::new(-3, 2, 4, 5)?);
    for corners in [[-2, 2, 4, 5], [-3, 1, 4, 5], [-3, 2, 5, 5], [-3, 2, 4, 6]] {
        let [x1, y1, x2, y2] = corners;
        assert!(rt; wire != Rect::new(x1, y1, x2, y2)?);
    }
    Ok(())
}

#[test]
fn a_rectangle_may_fill_the_range(rt: HostRuntime) -> Result<(), Fail> {
    let all = Rect::new(LOWEST, LOWEST, HIGHEST, HIGHEST)?;
    assert_eq!(rt; all.area(), 1 << 62);
    let wire = Rect::new(-3, 2, 4, 5)?;
    assert_eq!(rt; [wire.x1(), wire.y1(), wire.x2(), wire.y2()], [-3, 2, 4, 5]);
    assert_eq!(rt; wire.area(), 21);
    assert_eq!(rt; all.clip(&wire), Some(wire));
    Ok(())
}

#[test]
fn rectangles_that_only_touch_share_no_square(rt: HostRuntime) -> Result<(), Fail> {
    let wire = Rect::new(0, 0, 10, 4)?;
    let crossing = Rect::new(7, -5, 20, 3)?;
    assert_eq!(rt; wire.clip(&crossing), Some(Rect::new(7, 0, 10, 3)?));
    assert_eq!(rt; crossing.clip(&wire), Some(Rect::new(7, 0, 10, 3)?));
    assert_eq!(rt; wire.clip(&Rect::new(10, 0, 12, 4)?), None);
    assert_eq!(rt; wire.clip(&Rect::new(0, 4, 10, 5)?), None);
    Ok(())
}
