//! The runs of some rectangles by one sweep upwards.
ghost use Rattle.std.specs.Prelude.{IfOk};
ghost use Rattle.fill_region.specs.Squares.{covered};
ghost use Rattle.fill_region.specs.Steps.{AreRunsOf};

use crate::crossed::crossed_intervals;
use crate::growing::row_upon;
use fill_bands::{start, step};
use fill_base::Rect;
use fill_spans::sweep::CEILING;
use std::alloc::{AllocError, Global};

/// The runs of the squares that some rectangle holds, in any order: the intervals of each row are joined to those below it that end
/// there. From a line at which a rectangle begins or ends up to the next such line all rows are one.
pub(crate) fn runs_swept(alloc: Global, rects: &[Rect]) -> Result<Vec<Rect>, AllocError>
    ensures { IfOk result (λ v. AreRunsOf (covered rects.now) v.items) }
{
    let (sorted, mut line) = start(alloc, rects)?;
    let mut later = sorted.as_slice();
    let mut crossing = Vec::new(alloc);
    let mut recent = Vec::new(alloc);
    let mut ended = Vec::new(alloc);
    'sweep: while line < i64::from(CEILING) {
        let (rest, next) = step(later, &mut crossing, line)?;
        let row = crossed_intervals(alloc, &crossing, line, next)?;
        recent = row_upon(alloc, &recent, &row, &mut ended)?;
        later = rest;
        line = next;
    }
    recent.append(&mut ended)?;
    Ok(recent)
}
