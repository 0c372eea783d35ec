//! Runs of a few rectangles, by way of bands.
ghost use Rattle.std.specs.Prelude.{◌≡◌, ◌+◌, ◌<◌, length, ℤ, ◌≤ℤ◌, ◌<ℤ◌, IfOk};
ghost use Rattle.fill_base.specs.Coordinates.{lowest, highest};
ghost use Rattle.fill_base.specs.Sides.{sides, sides_of};
ghost use Rattle.fill_spans.specs.Spans.{next_edge, IsCanonical};
ghost use Rattle.fill_bands.specs.Bands.{holds};
ghost use Rattle.fill_region.specs.Steps.{AreRunsOf, IsRow, squares_between};

use crate::growing::row_upon;
use fill_bands::{Bands, Row};
use fill_base::{HIGHEST, LOWEST, Rect};
use fill_spans::Spans;
use fill_spans::sweep::edge_at;
use std::alloc::{AllocError, Global};

/// The interval between the edges at `k` and `k + 1`, as a rectangle between two lines.
fn interval_at(edges: &[i32], k: usize, bottom: i64, top: i64) -> Rect
    requires canonical { IsCanonical edges.now }
    requires within { k + 1 < length edges.now }
    requires low { lowest ≤ℤ bottom }
    requires tall { bottom <ℤ top }
    requires high { top ≤ℤ highest }
    ensures { sides_of result ≡ sides (next_edge edges.now k) bottom (next_edge edges.now (k + 1)) top }
{
    let left = i64::from(edge_at(edges, k));
    let right = i64::from(edge_at(edges, k + 1));
    Rect::from_edges(left, bottom, right, top)
}

/// The intervals of one row, as rectangles between two lines.
fn intervals(alloc: Global, spans: &Spans, bottom: i64, top: i64) -> Result<Vec<Rect>, AllocError>
    requires low { lowest ≤ℤ bottom }
    requires tall { bottom <ℤ top }
    requires high { top ≤ℤ highest }
    ensures runs { IfOk result (λ v. AreRunsOf (squares_between spans.now bottom top) v.items) }
    ensures row { IfOk result (λ v. IsRow bottom top v.items) }
{
    let edges = spans.edges();
    let mut rects = Vec::with_capacity(alloc, edges.len() / 2)?;
    let mut k = 0;
    'intervals: while edges.len() - k > 1 {
        rects.push(interval_at(edges, k, bottom, top))?;
        k += 2;
    }
    Ok(rects)
}

/// The runs of a few bands: those of each row are joined to those below it that end there.
pub(crate) fn runs_of_bands(alloc: Global, bands: &Bands) -> Result<Vec<Rect>, AllocError>
    ensures { IfOk result (λ v. AreRunsOf (holds bands.now) v.items) }
{
    let mut recent = Vec::new(alloc);
    let mut ended = Vec::new(alloc);
    'rows: for row in bands.rows(LOWEST, HIGHEST) {
        let begun = intervals(alloc, row.spans, row.bottom, row.top)?;
        recent = row_upon(alloc, &recent, &begun, &mut ended)?;
    }
    recent.append(&mut ended)?;
    Ok(recent)
}
