//! How a copy of a shape lies: reflected or not, turned by quarter turns, and moved.

ghost use Rattle.std.specs.Prelude.{◌≡◌, ◌<◌};
ghost use Rattle.gds_cells.specs.Placements.{signed, either, point_x, point_y, composed, shift, placed};
ghost use Rattle.gds_cells.specs.steps.Ranges.{IsClose, IsWithin};

/// A placement: the two coordinates may change places, each may then be negated, and both are moved.
/// So is each reflection about the x axis, followed by quarter turns counter-clockwise and a move
/// (Calma GDSII Stream Format Manual, release 6.0, STRANS and ANGLE).
#[derive(Clone, Copy, Debug, PartialEq, Eq)]
pub struct Placement {
    /// Whether x and y change places.
    pub swapped: bool,
    /// Whether the new x is negated.
    pub flip_x: bool,
    /// Whether the new y is negated.
    pub flip_y: bool,
    /// How far it's moved to the right, in database units.
    pub x: i64,
    /// How far it's moved up, in database units.
    pub y: i64,
}

/// Whether one of both holds, but not the other.
fn either(a: bool, b: bool) -> bool
    ensures { result ≡ either a b }
{
    if a { !b } else { b }
}

/// The number, negated or as it is.
fn signed(negated: bool, number: i64) -> i64
    requires { IsClose number }
    ensures { result ≡ signed negated number }
{
    if negated { -number } else { number }
}

impl Placement {
    /// Reflected about the x axis or not, then turned counter-clockwise by so many quarters, then
    /// moved by so many database units.
    pub fn new(reflected: bool, turns: u8, x: i64, y: i64) -> Placement
        requires { turns < 4 }
        ensures { result ≡ placed reflected turns x y }
    {
        let (swapped, flip_x, flip_y) = match turns {
            0 => (false, false, reflected),
            1 => (true, !reflected, false),
            2 => (false, true, !reflected),
            _ => (true, reflected, true),
        };
        Placement {
            swapped,
            flip_x,
            flip_y,
            x,
            y,
        }
    }

    /// Moved by so many database units, and nothing else.
    pub fn shift(x: i64, y: i64) -> Placement
        ensures { result ≡ shift x y }
    {
        Placement {
            swapped: false,
            flip_x: false,
            flip_y: false,
            x,
            y,
        }
    }

    /// The abscissa to which a point goes.
    pub fn point_x(&self, x: i64, y: i64) -> i64
        requires within { IsWithin 258 self.now }
        requires x { IsClose x }
        requires y { IsClose y }
        ensures { result ≡ point_x self.now x y }
    {
        let along = if self.swapped { y } else { x };
        signed(self.flip_x, along) + self.x
    }

    /// The ordinate to which a point goes.
    pub fn point_y(&self, x: i64, y: i64) -> i64
        requires within { IsWithin 258 self.now }
        requires x { IsClose x }
        requires y { IsClose y }
        ensures { result ≡ point_y self.now x y }
    {
        let along = if self.swapped { x } else { y };
        signed(self.flip_y, along) + self.y
    }

    /// The placement that puts a thing as `inner` does, and the whole as this one does.
    pub fn after(&self, inner: &Placement) -> Placement
        requires outer { IsWithin 257 self.now }
        requires inner { IsWithin 257 inner.now }
        ensures { result ≡ composed self.now inner.now }
    {
        let (turned_x, turned_y) = if self.swapped {
            (inner.flip_y, inner.flip_x)
        } else {
            (inner.flip_x, inner.flip_y)
        };
        Placement {
            swapped: either(self.swapped, inner.swapped),
            flip_x: either(self.flip_x, turned_x),
            flip_y: either(self.flip_y, turned_y),
            x: self.point_x(inner.x, inner.y),
            y: self.point_y(inner.x, inner.y),
        }
    }
}
