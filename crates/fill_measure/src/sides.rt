//! Where the sides of the windows along an axis stand among its cuts.
ghost use Rattle.std.specs.Prelude.{◌≡◌, ◌^◌, ◌+◌, ◌*◌, ◌<◌, ◌≤ℤ◌, ℕ, pos, IfOk};
ghost use Rattle.fill_area.specs.Parts.{AreParts};
ghost use Rattle.fill_cells.specs.Mesh.{AreCuts};
ghost use Rattle.fill_measure.specs.steps.Ends.{AreAmong, IsAmong};
ghost use Rattle.fill_measure.specs.steps.Sides.{AreSides, IsAt};

use fill_area::Parts;
use std::alloc::{AllocError, Global};

/// A coordinate among cuts: one of them, or one amid two neighbours.
#[derive(Clone, Copy)]
pub(crate) struct Side {
    /// The index of the last cut that the coordinate has come to.
    pub(crate) cut: usize,
    /// How far past that cut it is, in database units.
    pub(crate) past: u64,
}

/// Where a window begins and ends.
#[derive(Clone, Copy)]
pub(crate) struct Sides {
    /// Where it begins.
    pub(crate) begin: Side,
    /// Where it ends.
    pub(crate) end: Side,
}

impl Side {
    /// A count at the coordinate, by that at its cut and that at the next one, `gap` units further: it grows evenly from one to the other.
    pub(crate) fn grown(self, count: i64, next: i64, gap: u64) -> i64
        requires some { pos 0 ≤ℤ count }
        requires rising { count ≤ℤ next }
        requires most { next ≤ℤ pos (2 ^ 62) }
        requires amid { self.past < gap }
        ensures { (n rate : ℕ) → count ≡ pos n → next ≡ pos (n + gap * rate) → result ≡ pos (n + self.past * rate) }
    {
        let rate = next.abs_diff(count) / gap;
        count + (rate * self.past) as i64
    }
}

/// The sides of what counts of each span.
pub(crate) fn sides_of(alloc: Global, parts: Parts, cuts: &[i64]) -> Result<Vec<Sides>, AllocError>
    requires parts { AreParts parts }
    requires cuts { AreCuts cuts.now }
    requires among { AreAmong cuts.now parts }
    ensures { IfOk result (λ v. AreSides parts cuts.now parts.axis.count v.items) }
{
    let mut sides = Vec::with_capacity(alloc, parts.axis.count as usize)?;
    for a in 0..parts.axis.count {
        let (begin, end) = parts.extent(a);
        sides.push(Sides {
            begin: side_at(cuts, begin),
            end: side_at(cuts, end),
        })?;
    }
    Ok(sides)
}

/// Where a coordinate stands among cuts.
fn side_at(cuts: &[i64], coordinate: i64) -> Side
    requires cuts { AreCuts cuts.now }
    requires among { IsAmong cuts.now coordinate }
    ensures { IsAt cuts.now coordinate result }
{
    let cut = cuts.partition_point(|cut| *cut <= coordinate) - 1;
    Side {
        cut,
        past: coordinate.abs_diff(cuts[cut]),
    }
}
