use fill_base::Rect;
use fill_region::Region;
use std::alloc::{AllocError, Global};
use std::process::Abort;
use std::test::Fail;

/// Rectangles of a small board, which touch, overlap, hold one another and lie apart.
const RECTS: [[i64; 4]; 8] = [
    [0, 0, 4, 4],
    [2, 2, 6, 6],
    [4, 0, 6, 2],
    [1, 1, 2, 2],
    [0, 4, 4, 5],
    [6, 6, 7, 7],
    [0, 6, 1, 7],
    [3, 0, 4, 7],
];

fn rect(rt: &impl Abort, corners: [i64; 4]) -> Rect {
    let [x1, y1, x2, y2] = corners;
    match Rect::new(x1, y1, x2, y2) {
        Ok(rect) => rect,
        Err(error) => panic!(rt; "{error:?}"),
    }
}

/// The rectangles whose bit is set in `chosen`.
fn some_rects(rt: &impl Abort, alloc: Global, chosen: usize) -> Result<Vec<Rect>, AllocError> {
    let mut rects = Vec::new(alloc);
    for (i, corners) in RECTS.iter().enumerate() {
        if (chosen >> (i % 8)) & 1 == 1 {
            rects.push(rect(rt, *corners))?;
        }
    }
    Ok(rects)
}

fn some_holds(rects: &[Rect], x: i64, y: i64) -> bool {
    rects
        .iter()
        .any(|r| r.x1() <= x && x < r.x2() && r.y1() <= y && y < r.y2())
}

#[test]
fn every_operation_is_a_count_over_squares(rt: HostRuntime) -> Result<(), Fail> {
    let alloc = rt.alloc();
    for chosen in 0..64usize {
        let first = some_rects(&rt, alloc, chosen * 5 % 256)?;
        let second = some_rects(&rt, alloc, chosen * 37 % 256)?;
        let a = Region::from_rects(alloc, &first)?;
        let b = Region::from_rects(alloc, &second)?;
        let window = rect(&rt, [1, 1, 5, 6]);
        let union = a.union(alloc, &b)?;
        let minus = a.minus(alloc, &b)?;
        let meet = a.meet(alloc, &b)?;
        let clip = a.clip(alloc, &window)?;
        let with = a.with_rect(alloc, &window)?;
        let without = a.without_rect(alloc, &window)?;
        let pieces = a.pieces(alloc)?;
        let mut squares = 0u32;
        for j in 0..9u32 {
            for i in 0..9u32 {
                let (x, y) = (i64::from(i) - 1, i64::from(j) - 1);
                let in_a = some_holds(&first, x, y);
                let in_b = some_holds(&second, x, y);
                assert_eq!(rt; a.has(x, y), in_a);
                assert_eq!(rt; union.has(x, y), in_a || in_b);
                assert_eq!(rt; minus.has(x, y), in_a && !in_b);
                assert_eq!(rt; meet.has(x, y), in_a && in_b);
                let in_window = 1 <= x && x < 5 && 1 <= y && y < 6;
                assert_eq!(rt; clip.has(x, y), in_a && in_window);
                assert_eq!(rt; with.has(x, y), in_a || in_window);
                assert_eq!(rt; without.has(x, y), in_a && !in_window);
                let times = pieces
                    .iter()
                    .filter(|r| r.x1() <= x && x < r.x2() && r.y1() <= y && y < r.y2())
                    .count();
                assert_eq!(rt; times, usize::from(in_a));
                squares = squares.wrapping_add(u32::from(in_a));
            }
        }
        assert_eq!(rt; a.is_empty(), squares == 0);
    }
    Ok(())
}

/// Whether the region has the squares of the rectangles within the window, and no others.
fn is_part_within(part: &Region, rects: &[Rect], window: &Rect) -> bool {
    for y in -2..9i64 {
        for x in -2..9i64 {
            let across = window.x1() <= x && x < window.x2();
            let up = window.y1() <= y && y < window.y2();
            if part.has(x, y) != (some_holds(rects, x, y) && across && up) {
                return false;
            }
        }
    }
    true
}

#[test]
fn every_window_of_a_board_holds_its_squares(rt: HostRuntime) -> Result<(), Fail> {
    let alloc = rt.alloc();
    for chosen in [0, 35, 158, 211, 255usize] {
        let rects = some_rects(&rt, alloc, chosen)?;
        let whole = Region::from_rects(alloc, &rects)?;
        for low in 0..81i64 {
            for high in 0..81i64 {
                let (x1, y1) = (low % 9 - 1, low / 9 - 1);
                let (x2, y2) = (high % 9 - 1, high / 9 - 1);
                if x1 < x2 && y1 < y2 {
                    let window = rect(&rt, [x1, y1, x2, y2]);
                    let part = whole.clip(alloc, &window)?;
                    assert!(rt; is_part_within(&part, &rects, &window));
                }
            }
        }
    }
    Ok(())
}

#[test]
fn clipped_rows_that_become_equal_are_one_band(rt: HostRuntime) -> Result<(), Fail> {
    let alloc = rt.alloc();
    let rects = [
        rect(&rt, [0, 0, 4, 1]),
        rect(&rt, [0, 1, 3, 2]),
        rect(&rt, [5, 2, 6, 3]),
    ];
    let region = Region::from_rects(alloc, &rects)?;
    let part = region.clip(alloc, &rect(&rt, [1, -1, 3, 4]))?;
    let pieces = part.pieces(alloc)?;
    assert!(rt; pieces.as_slice() == &[rect(&rt, [1, 0, 3, 2])][..]);
    let gap = region.clip(alloc, &rect(&rt, [0, 2, 5, 3]))?;
    assert!(rt; gap.is_empty());
    Ok(())
}

#[test]
fn equal_sets_are_equal_values(rt: HostRuntime) -> Result<(), Fail> {
    let alloc = rt.alloc();
    let halves = [rect(&rt, [0, 0, 2, 1]), rect(&rt, [0, 1, 2, 2])];
    let whole = [rect(&rt, [0, 0, 2, 2])];
    let joined = Region::from_rects(alloc, &halves)?;
    let square = Region::from_rects(alloc, &whole)?;
    assert!(rt; joined == square);
    assert!(rt; Region::empty(alloc).is_empty());
    Ok(())
}

#[test]
fn overlapping_rectangles_in_pieces(rt: HostRuntime) -> Result<(), Fail> {
    let alloc = rt.alloc();
    let low = rect(&rt, [0, 0, 4, 4]);
    let high = rect(&rt, [2, 2, 6, 6]);
    let region = Region::from_rects(alloc, &[low, high])?;
    let pieces = region.pieces(alloc)?;
    let want = [
        rect(&rt, [0, 0, 4, 2]),
        rect(&rt, [0, 2, 6, 4]),
        rect(&rt, [2, 4, 6, 6]),
    ];
    assert!(rt; pieces.as_slice() == &want[..]);
    let corner = rect(&rt, [0, 0, 3, 3]);
    let clipped = region.clip(alloc, &corner)?;
    assert!(rt; clipped == Region::one(alloc, &corner)?);
    let second = Region::one(alloc, &high)?;
    assert!(rt; region.meet(alloc, &second)? == second);
    let rest = region.minus(alloc, &Region::one(alloc, &low)?)?;
    let mut area = 0i64;
    for piece in &rest.pieces(alloc)? {
        area = area.wrapping_add(piece.area());
    }
    assert_eq!(rt; area, 12);
    let copy = region.copy(alloc)?;
    assert!(rt; copy == region);
    assert!(rt; region.union(alloc, &Region::one(alloc, &low)?)? == region);
    Ok(())
}

/// 3,000 squares along a diagonal, each 1,000 wide: a pile, which is swept in halves. Each of its 3,999 lines has a row of its own.
#[test]
fn pile_along_a_diagonal(rt: HostRuntime) -> Result<(), Fail> {
    let alloc = rt.alloc();
    let mut rects = Vec::new(alloc);
    for k in 0..3000i64 {
        rects.push(rect(&rt, [k, k, k + 1000, k + 1000]))?;
    }
    let pile = Region::from_rects(alloc, &rects)?;
    let pieces = pile.pieces(alloc)?;
    assert_eq!(rt; pieces.len(), 3999);
    let mut area = 0i64;
    for piece in &pieces {
        area = area.wrapping_add(piece.area());
    }
    // The first square whole, and of each other the 1,999 squares that the one before it doesn't hold.
    assert_eq!(rt; area, 6_995_001);
    Ok(())
}

/// Asserts that these are the pieces of a region.
fn assert_pieces(
    rt: &impl Abort,
    alloc: Global,
    region: &Region,
    want: &[[i64; 4]],
) -> Result<(), AllocError> {
    let pieces = region.pieces(alloc)?;
    assert_eq!(rt; pieces.len(), want.len());
    for (piece, want) in pieces.iter().zip(want) {
        assert_eq!(rt; [piece.x1(), piece.y1(), piece.x2(), piece.y2()], *want);
    }
    Ok(())
}

#[test]
fn a_rectangle_is_added_and_taken_off(rt: HostRuntime) -> Result<(), Fail> {
    let alloc = rt.alloc();
    let square = Region::one(alloc, &rect(&rt, [0, 0, 4, 4]))?;
    let wider = square.with_rect(alloc, &rect(&rt, [2, 2, 6, 6]))?;
    assert_pieces(
        &rt,
        alloc,
        &wider,
        &[[0, 0, 4, 2], [0, 2, 6, 4], [2, 4, 6, 6]],
    )?;
    let inner = rect(&rt, [1, 1, 3, 3]);
    let ring = square.without_rect(alloc, &inner)?;
    assert_pieces(
        &rt,
        alloc,
        &ring,
        &[[0, 0, 4, 1], [0, 1, 1, 3], [3, 1, 4, 3], [0, 3, 4, 4]],
    )?;
    assert!(rt; ring.with_rect(alloc, &inner)? == square);
    Ok(())
}
