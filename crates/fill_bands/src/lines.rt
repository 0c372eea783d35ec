//! The squares of many rectangles as bands: one sweep upwards over the lines at which a rectangle
//! begins or ends.
ghost use Rattle.std.specs.Prelude.{◌≡◌, ℤ, ◌<ℤ◌, ◌≤ℤ◌, IfOk, IfSome, IfNone, OnOk, [], length, ◌≤◌};
ghost use Rattle.std.specs.List.Sorted.{IsPermutation, IsPartitionPoint};
ghost use Rattle.fill_spans.specs.Columns.{IsRisingBy};
ghost use Rattle.fill_spans.specs.Spans.{ceiling};
ghost use Rattle.fill_bands.specs.Bands.{holds, IsBanded};
ghost use Rattle.fill_bands.specs.Lines.{IsAtLine, IsStart, IsStep};
ghost use Rattle.fill_bands.specs.Squares.{covered};
ghost use Rattle.fill_bands.specs.steps.Lines.{IsNextLine, IsCrossed};

use crate::bands::{merged, put_row};
use crate::shared::SharedRow;
use fill_base::Rect;
use fill_spans::sweep::CEILING;
use fill_spans::{Operation, Spans};
use std::alloc::{AllocError, Global};

/// So many rectangles are swept at once, however much they overlap.
const FEW: usize = 1024;

/// So many rectangles may be passed over for each rectangle of the list and for each edge that is written.
const WORTH: usize = 16;

/// The bands of the squares that some rectangle holds. A pile, whose rectangles lie all over one another,
/// is swept in halves, which are united: what they leave is little.
pub(crate) fn bands_of(alloc: Global, rects: &[Rect]) -> Result<Vec<(i32, SharedRow)>, AllocError>
    ensures region { IfOk result (λ v. IsBanded v.items) }
    ensures squares { IfOk result (λ v. (x y : ℤ) → holds v.items x y ≡ covered rects.now x y) }
{
    match swept(alloc, rects)? {
        Some(bands) => Ok(bands),
        None => {
            let (first, second) = rects.split_at(rects.len() / 2);
            let first = bands_of(alloc, first)?;
            let second = bands_of(alloc, second)?;
            merged(alloc, Operation::Union, &first, &second)
        }
    }
}

/// The same by one sweep. At each line at which a rectangle begins or ends, the rectangles that cross it
/// make one row. `None` where they are a pile: far more than the edges of the rows.
fn swept(alloc: Global, rects: &[Rect]) -> Result<Option<Vec<(i32, SharedRow)>>, AllocError>
    ensures region { IfOk result (λ o. IfSome o (λ v. IsBanded v.items)) }
    ensures squares { IfOk result (λ o. IfSome o (λ v. (x y : ℤ) → holds v.items x y ≡ covered rects.now x y)) }
    ensures many { IfOk result (λ o. IfNone o (2 ≤ length rects.now)) }
{
    let (sorted, mut line) = start(alloc, rects)?;
    let mut later = sorted.as_slice();
    let mut crossing = Vec::new(alloc);
    let mut bands = Vec::new(alloc);
    let mut worth = rects.len().saturating_mul(WORTH);
    'sweep: while line < i64::from(CEILING) {
        let (rest, next) = step(later, &mut crossing, line)?;
        let row = Spans::across(alloc, &crossing)?;
        worth = worth.saturating_add(row.edges().len().saturating_mul(WORTH));
        if rects.len() > FEW && worth < crossing.len() {
            return Ok(None);
        }
        worth = worth.saturating_sub(crossing.len());
        put_row(alloc, &mut bands, line as i32, row)?;
        later = rest;
        line = next;
    }
    Ok(Some(bands))
}

/// Begins a sweep upwards: the rectangles by their lower edges, and the line to begin at, below which none of them has a square.
///
/// # Errors
/// `AllocError` where memory is refused.
pub fn start(alloc: Global, rects: &[Rect]) -> Result<(Vec<Rect>, i64), AllocError>
    ensures { IfOk result (λ v. IsStart rects.now v.0.items v.1) }
{
    let sorted = by_bottom(alloc, rects)?;
    let line = first_bottom(&sorted);
    Ok((sorted, line))
}

/// Goes on with a sweep upwards, from a line to a higher one, the ceiling at most: `crossing` becomes the rectangles that cross
/// all rows between both, by their left edges; of those that lie within others some are left out. No other rectangle has a square
/// in these rows. Given back are the rectangles that begin at the higher line or above it, and that line.
///
/// # Errors
/// `AllocError` where memory is refused.
pub fn step<'a>(
    later: &'a [Rect],
    crossing: &mut Vec<Rect>,
    line: i64,
) -> Result<(&'a [Rect], i64), AllocError>
    requires at { IsAtLine later.now crossing.old.items line }
    requires low { line <ℤ ceiling }
    ensures { IfOk result (λ v. IsStep line later.now crossing.old.items v.0.now crossing.new.items v.1) }
{
    let (begun, rest) = later.split_at(begun_at(later, line));
    cross(crossing, begun, line)?;
    let next = next_line(rest, crossing);
    Ok((rest, next))
}

/// The rectangles by their lower edges.
fn by_bottom(alloc: Global, rects: &[Rect]) -> Result<Vec<Rect>, AllocError>
    ensures same { IfOk result (λ v. IsPermutation rects.now v.items) }
    ensures rising { IfOk result (λ v. IsRisingBy (λ r. r.y1) v.items) }
{
    let mut sorted = Vec::from_slice(alloc, rects)?;
    sorted.sort_by_key(|rect| rect.y1())?;
    Ok(sorted)
}

/// How many rectangles begin at the line or below.
fn begun_at(rects: &[Rect], line: i64) -> usize
    requires { IsRisingBy (λ r. r.y1) rects.now }
    ensures within { result ≤ length rects.now }
    ensures parted { IsPartitionPoint (λ r. r.y1 ≤ℤ line) (λ r. line <ℤ r.y1) rects.now result }
{
    rects.partition_point(|rect| rect.y1() <= line)
}

/// The lowest line at which a rectangle of `later` begins or one of `crossing` ends, or the ceiling
/// where there is none.
fn next_line(later: &[Rect], crossing: &[Rect]) -> i64
    requires { IsRisingBy (λ r. r.y1) later.now }
    ensures { IsNextLine later.now crossing.now result }
{
    let mut line = first_bottom(later);
    for rect in crossing {
        line = line.min(rect.y2());
    }
    line
}

/// The lowest line at which a rectangle begins, or the ceiling where there is none.
fn first_bottom(rects: &[Rect]) -> i64
    requires { IsRisingBy (λ r. r.y1) rects.now }
    ensures { IsNextLine rects.now [] result }
{
    match rects.first() {
        Some(rect) => rect.y1(),
        None => i64::from(CEILING),
    }
}

/// Takes out the rectangles that end at the line or below, and in those that begin there. They stay
/// sorted by their left edges. One that lies within its neighbour from the line on goes too: it adds
/// no square, and a pile of overlapping shapes stays a short list. Of two with one left edge the one
/// that begins later comes first, since it mostly ends later.
fn cross(crossing: &mut Vec<Rect>, begun: &[Rect], line: i64) -> Result<(), AllocError>
    ensures { OnOk result (IsCrossed line crossing.old.items begun.now crossing.new.items) }
{
    crossing.retain(|rect| rect.y2() > line);
    if begun.is_empty() {
        return Ok(());
    }
    crossing.extend_from_slice(begun)?;
    crossing.rotate_right(begun.len());
    crossing.sort_by_key(|rect| rect.x1())?;
    crossing.dedup_by(|rect, kept| (rect.x2() <= kept.x2()) & (rect.y2() <= kept.y2()));
    Ok(())
}
