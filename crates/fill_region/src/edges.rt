//! Sides of rectangles, and lists that are parted by where one lies.
ghost use Rattle.std.specs.Prelude.{◌≡◌, IfOk};
ghost use Rattle.fill_region.specs.Steps.{edge_of, is_at, AreParted};

use fill_base::Rect;
use std::alloc::{AllocError, Global};

/// A side of a rectangle.
#[derive(Clone, Copy)]
pub(crate) enum Edge {
    Left,
    Bottom,
    Right,
    Top,
}

impl Edge {
    /// Where that side of the rectangle lies.
    fn of(self, rect: &Rect) -> i64
        ensures { result ≡ edge_of self rect.now }
    {
        match self {
            Edge::Left => rect.x1(),
            Edge::Bottom => rect.y1(),
            Edge::Right => rect.x2(),
            Edge::Top => rect.y2(),
        }
    }

    /// Whether that side of the rectangle lies at `at`.
    fn is_at(self, rect: &Rect, at: i64) -> bool
        ensures { result ≡ is_at self at rect.now }
    {
        self.of(rect) == at
    }
}

/// Those of the rectangles of which that side lies at `at`, and the others, which stay where they are.
pub(crate) fn parted(
    alloc: Global,
    mut rects: Vec<Rect>,
    edge: Edge,
    at: i64,
) -> Result<(Vec<Rect>, Vec<Rect>), AllocError>
    ensures { IfOk result (λ v. AreParted edge at rects.items v.0.items v.1.items) }
{
    let mut there = Vec::new(alloc);
    'rects: for rect in &rects {
        if edge.is_at(rect, at) {
            there.push(*rect)?;
        }
    }
    rects.retain(|rect| !edge.is_at(rect, at));
    Ok((there, rects))
}
