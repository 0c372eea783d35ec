use fill_base::Rect;
use fill_spans::Spans;
use std::test::Fail;

#[test]
fn a_span_cut_and_joined_again(rt: HostRuntime) -> Result<(), Fail> {
    let alloc = rt.alloc();
    let whole = Spans::one(alloc, 0, 4)?;
    let part = Spans::one(alloc, 1, 2)?;
    let rest = whole.minus(alloc, &part)?;
    assert_eq!(rt; rest.length_in(0, 4), 3);
    assert_eq!(rt; rest.length_in(i64::MIN, i64::MAX), 3);
    assert_eq!(rt; rest.length_in(4, 0), 0);
    assert!(rt; rest.union(alloc, &part)? == whole);
    let far = Spans::one(alloc, 3, 9)?;
    assert!(rt; whole.meet(alloc, &far)? == Spans::one(alloc, 3, 4)?);
    assert!(rt; rest.has(0) && !rest.has(1) && rest.has(2) && !rest.has(4));
    Ok(())
}

#[test]
fn columns_of_rectangles_that_overlap_touch_and_lie_apart(rt: HostRuntime) -> Result<(), Fail> {
    let alloc = rt.alloc();
    let rects = [
        Rect::new(-3, 0, 1, 9)?,
        Rect::new(-2, 5, 0, 6)?,
        Rect::new(1, -7, 2, 4)?,
        Rect::new(5, 0, 6, 1)?,
    ];
    let columns = Spans::across(alloc, &rects)?;
    assert_eq!(rt; columns.edges(), [-3, 2, 5, 6].as_slice());
    assert!(rt; Spans::across(alloc, &[])?.is_empty());
    Ok(())
}

/// Whether a number lies in one of the stretches 0 to 1, 3 to 5 and 7.
fn in_three_stretches(x: i64) -> bool {
    (0 <= x && x < 2) || (3 <= x && x < 6) || x == 7
}

#[test]
fn every_part_of_a_set_is_a_count_over_numbers(rt: HostRuntime) -> Result<(), Fail> {
    let alloc = rt.alloc();
    let rects = [
        Rect::new(0, 0, 2, 1)?,
        Rect::new(3, 0, 6, 1)?,
        Rect::new(7, 0, 8, 1)?,
    ];
    let set = Spans::across(alloc, &rects)?;
    for first in 0..12u32 {
        for after in 0..12u32 {
            if first < after {
                let (lo, hi) = (i64::from(first) - 2, i64::from(after) - 2);
                let part = set.clip(alloc, lo, hi)?;
                let mut edges = Vec::new(alloc);
                let mut before = false;
                for x in -3..11i32 {
                    let at = i64::from(x);
                    let now = in_three_stretches(at) && lo <= at && at < hi;
                    assert_eq!(rt; part.has(at), now);
                    if now != before {
                        edges.push(x)?;
                    }
                    before = now;
                }
                assert_eq!(rt; part.edges(), edges.as_slice());
            }
        }
    }
    Ok(())
}

#[test]
fn parts_at_the_ends_of_the_range(rt: HostRuntime) -> Result<(), Fail> {
    let alloc = rt.alloc();
    let whole = Spans::one(alloc, -1_073_741_824, 1_073_741_824)?;
    let all = whole.clip(alloc, -1_073_741_824, 1_073_741_824)?;
    assert_eq!(rt; all.edges(), [-1_073_741_824, 1_073_741_824].as_slice());
    let last = whole.clip(alloc, 1_073_741_823, 1_073_741_824)?;
    assert_eq!(rt; last.edges(), [1_073_741_823, 1_073_741_824].as_slice());
    assert!(rt; Spans::empty(alloc).clip(alloc, -5, 5)?.is_empty());
    Ok(())
}

#[test]
fn lengths_of_columns_that_overlap_lie_apart_and_begin_inside(rt: HostRuntime) -> Result<(), Fail> {
    let alloc = rt.alloc();
    let left = Spans::one(alloc, 0, 4)?;
    let right = Spans::one(alloc, 6, 9)?;
    let both = left.union(alloc, &right)?;
    // The columns from -2 on are -2 to 1, 0 to 3, 2 to 5, 4 to 7, 6 to 9 and 8 to 11.
    let mut overlapping = [0, 0, 100, 0, 0, 0];
    both.add_lengths(-2, 2, 3, 10, &mut overlapping);
    assert_eq!(rt;
        overlapping.as_slice(),
        [10, 30, 120, 10, 30, 10].as_slice()
    );
    // The columns from 1 on are 1 to 3, 6 to 8 and 11 to 13.
    let mut apart = [5, 6, 7];
    both.add_lengths(1, 5, 2, 1, &mut apart);
    assert_eq!(rt; apart.as_slice(), [7, 8, 7].as_slice());
    let mut one = [1];
    both.add_lengths(3, 0, 4, 2, &mut one);
    assert_eq!(rt; one.as_slice(), [5].as_slice());
    Spans::empty(alloc).add_lengths(-5, 1, 10, 3, &mut one);
    assert_eq!(rt; one.as_slice(), [5].as_slice());
    let mut none: [i64; 0] = [];
    both.add_lengths(0, 1, 1, 1, &mut none);
    assert_eq!(rt; none.len(), 0);
    Ok(())
}

#[test]
fn a_thousand_intervals_one_after_another(rt: HostRuntime) -> Result<(), Fail> {
    let alloc = rt.alloc();
    let mut set = Spans::empty(alloc);
    for i in 0..1_000u32 {
        let x = i64::from(i) * 3;
        let next = Spans::one(alloc, x, x + 2)?;
        set = set.union(alloc, &next)?;
    }
    assert_eq!(rt; set.edges().len(), 2_000);
    let gaps = Spans::one(alloc, 0, 2_999)?.minus(alloc, &set)?;
    assert_eq!(rt; set.length_in(0, 3_000), 2_000);
    assert_eq!(rt; gaps.length_in(0, 3_000), 999);
    assert_eq!(rt; set.union(alloc, &gaps)?.edges().len(), 2);
    assert!(rt; set.meet(alloc, &gaps)?.is_empty());
    Ok(())
}
