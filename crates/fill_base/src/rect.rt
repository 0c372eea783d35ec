ghost use Rattle.std.specs.Prelude.{◌≡◌, ◌↔◌, ◌&&◌, false, ℤ, pos, ◌≤ℤ◌, ◌<ℤ◌, IsTrue, IsOk, IfOk, IfSome, IfNone};
ghost use Rattle.fill_base.specs.Counts.{is_between, IsCommonPart};
ghost use Rattle.fill_base.specs.Coordinates.{lowest, highest, IsCoordinate, AreCoordinates};

use thiserror::Error;

/// Why four numbers make no rectangle.
#[derive(Clone, Copy, Debug, PartialEq, Eq, Error)]
pub enum RectError {
    /// A number is not from -2^30 to 2^30.
    #[error("a coordinate is out of range")]
    OutOfRange,
    /// The left edge is not left of the right one, or the lower edge not below the upper one.
    #[error("the rectangle holds no square")]
    BadRect,
}

/// The least coordinate of a layout, in database units.
pub const LOWEST: i64 = -1_073_741_824;

/// The greatest coordinate of a layout, in database units.
pub const HIGHEST: i64 = 1_073_741_824;

/// A rectangle of at least one unit square, in database units. It holds the squares `(x, y)` with
/// `x1 <= x < x2` and `y1 <= y < y2`. Its edges are kept in four bytes each, which hold every coordinate.
#[derive(Clone, Copy, Debug)]
pub struct Rect {
    x1: i32,
    y1: i32,
    x2: i32,
    y2: i32,
    pub ghost wide: { x1 <ℤ x2 },
    pub ghost tall: { y1 <ℤ y2 },
    pub ghost left: { lowest ≤ℤ x1 },
    pub ghost bottom: { lowest ≤ℤ y1 },
    pub ghost right: { x2 ≤ℤ highest },
    pub ghost top: { y2 ≤ℤ highest },
}

impl PartialEq for Rect {
    ghost use Rattle.fill_base.specs.Edges.{same_edges, edges_partial_equivalence};

    ghost eq = { same_edges };

    ghost laws = { edges_partial_equivalence };

    /// Whether both rectangles have the same four edges.
    fn eq(&self, other: &Rect) -> bool
        ensures eq { result ≡ same_edges self.now other.now }
        ensures same { IsTrue result ↔ ((self.now.x1 ≡ other.now.x1) × (self.now.y1 ≡ other.now.y1) × (self.now.x2 ≡ other.now.x2) × (self.now.y2 ≡ other.now.y2)) }
    {
        self.x1 == other.x1 && self.y1 == other.y1 && self.x2 == other.x2 && self.y2 == other.y2
    }
}

impl Eq for Rect {
    ghost use Rattle.fill_base.specs.Edges.{edges_equivalence};

    ghost laws = { edges_equivalence };
}

/// Whether a number is a coordinate: from -2^30 to 2^30.
pub fn is_coordinate(x: i64) -> bool
    ensures { IsTrue result ↔ IsCoordinate x }
{
    LOWEST <= x && x <= HIGHEST
}

/// Whether all four numbers are coordinates.
fn are_coordinates(x1: i64, y1: i64, x2: i64, y2: i64) -> bool
    ensures { IsTrue result ↔ AreCoordinates x1 y1 x2 y2 }
{
    is_coordinate(x1) & is_coordinate(y1) & is_coordinate(x2) & is_coordinate(y2)
}

impl Rect {
    ghost use Rattle.fill_base.specs.Squares.{squares, area_of};

    /// The rectangle with these edges.
    ///
    /// # Errors
    /// `OutOfRange` where a number is not from -2^30 to 2^30, else `BadRect` where `x1 >= x2` or
    /// `y1 >= y2`.
    pub fn new(x1: i64, y1: i64, x2: i64, y2: i64) -> Result<Rect, RectError>
        ensures ok { IsOk result ↔ (AreCoordinates x1 y1 x2 y2 × (x1 <ℤ x2) × (y1 <ℤ y2)) }
        ensures out_of_range { (result ≡ Err RectError.OutOfRange) ↔ ¬ AreCoordinates x1 y1 x2 y2 }
        ensures bad_rect { (result ≡ Err RectError.BadRect) ↔ (AreCoordinates x1 y1 x2 y2 × ¬ ((x1 <ℤ x2) × (y1 <ℤ y2))) }
        ensures corners { IfOk result (λ r. (r.x1 ≡ x1) × (r.y1 ≡ y1) × (r.x2 ≡ x2) × (r.y2 ≡ y2)) }
    {
        if !are_coordinates(x1, y1, x2, y2) {
            return Err(RectError::OutOfRange);
        }
        if x1 >= x2 || y1 >= y2 {
            return Err(RectError::BadRect);
        }
        Ok(Rect::from_edges(x1, y1, x2, y2))
    }

    /// The rectangle with these edges, which the caller knows to be in order and in range.
    pub fn from_edges(x1: i64, y1: i64, x2: i64, y2: i64) -> Rect
        requires wide { x1 <ℤ x2 }
        requires tall { y1 <ℤ y2 }
        requires left { lowest ≤ℤ x1 }
        requires bottom { lowest ≤ℤ y1 }
        requires right { x2 ≤ℤ highest }
        requires top { y2 ≤ℤ highest }
        ensures { (result.x1 ≡ x1) × (result.y1 ≡ y1) × (result.x2 ≡ x2) × (result.y2 ≡ y2) }
    {
        Rect {
            x1: x1 as i32,
            y1: y1 as i32,
            x2: x2 as i32,
            y2: y2 as i32,
        }
    }

    /// The left edge.
    pub fn x1(&self) -> i64
        ensures { result ≡ self.now.x1 }
    {
        i64::from(self.x1)
    }

    /// The lower edge.
    pub fn y1(&self) -> i64
        ensures { result ≡ self.now.y1 }
    {
        i64::from(self.y1)
    }

    /// The right edge.
    pub fn x2(&self) -> i64
        ensures { result ≡ self.now.x2 }
    {
        i64::from(self.x2)
    }

    /// The upper edge.
    pub fn y2(&self) -> i64
        ensures { result ≡ self.now.y2 }
    {
        i64::from(self.y2)
    }

    /// How many unit squares the rectangle holds.
    pub fn area(&self) -> i64
        ensures { result ≡ pos (area_of (squares self.now) self.now) }
    {
        (self.x2() - self.x1()) * (self.y2() - self.y1())
    }

    /// The squares that both rectangles hold, or `None` where they share none.
    pub fn clip(&self, other: &Rect) -> Option<Rect>
        ensures some { IfSome result (λ r. (x y : ℤ) → squares r x y ≡ squares self.now x y && squares other.now x y) }
        ensures none { IfNone result ((x y : ℤ) → squares self.now x y && squares other.now x y ≡ false) }
    {
        let (x1, x2) = common_part(self.x1(), self.x2(), other.x1(), other.x2())?;
        let (y1, y2) = common_part(self.y1(), self.y2(), other.y1(), other.y2())?;
        Some(Rect::from_edges(x1, y1, x2, y2))
    }
}

/// What the ranges from `a` below `b` and from `c` below `d` have in common.
fn common_part(a: i64, b: i64, c: i64, d: i64) -> Option<(i64, i64)>
    ensures some { IfSome result (λ p. IsCommonPart a b c d p.0 p.1) }
    ensures none { IfNone result ((x : ℤ) → is_between a b x && is_between c d x ≡ false) }
{
    let lo = a.max(c);
    let hi = b.min(d);
    if lo < hi { Some((lo, hi)) } else { None }
}
