//! A row of squares more on the runs of those below it.
ghost use Rattle.std.specs.Prelude.{◌≡◌, ℤ, Bool, ◌<ℤ◌, All, IfOk, OnOk};
ghost use Rattle.fill_spans.specs.Columns.{IsRisingBy};
ghost use Rattle.fill_region.specs.Steps.{MeetAt, AreEnded, AreLengthened, AreStacked};

use crate::stacks::{both, next_place, under, upon};
use fill_base::Rect;
use std::alloc::{AllocError, Global};

/// Puts those of the lower runs that no upper one stands on to `ended`: they end at the line.
fn put_ended(lower: &[Rect], upper: &[Rect], ended: &mut Vec<Rect>) -> Result<(), AllocError>
    requires lower { IsRisingBy (λ r. r.x1) lower.now }
    requires upper { IsRisingBy (λ r. r.x1) upper.now }
    ensures runs { OnOk result ((p : ℤ → ℤ → Bool) (at : ℤ) → MeetAt p at lower.now upper.now → AreEnded p lower.now upper.now lower.now ended.old.items ended.new.items) }
    ensures below { OnOk result ((line : ℤ) → All (λ r. r.y2 <ℤ line) lower.now → All (λ r. r.y2 <ℤ line) ended.old.items → All (λ r. r.y2 <ℤ line) ended.new.items) }
{
    let mut place = 0;
    'lower: for rect in lower {
        place = next_place(upper, place, rect.x1());
        match upon(upper, place, rect) {
            Some(_) => {}
            None => ended.push(*rect)?,
        }
    }
    Ok(())
}

/// The upper runs; each that stands on a lower one begins where that one does.
fn lengthened(alloc: Global, lower: &[Rect], upper: &[Rect]) -> Result<Vec<Rect>, AllocError>
    requires lower { IsRisingBy (λ r. r.x1) lower.now }
    requires upper { IsRisingBy (λ r. r.x1) upper.now }
    ensures runs { IfOk result (λ v. (p : ℤ → ℤ → Bool) (at : ℤ) → MeetAt p at lower.now upper.now → AreLengthened p lower.now upper.now v.items) }
    ensures rising { IfOk result (λ v. IsRisingBy (λ r. r.x1) v.items) }
    ensures tops { IfOk result (λ v. (top : ℤ) → All (λ r. r.y2 ≡ top) upper.now → All (λ r. r.y2 ≡ top) v.items) }
{
    let mut runs = Vec::with_capacity(alloc, upper.len())?;
    let mut place = 0;
    'upper: for rect in upper {
        place = next_place(lower, place, rect.x1());
        match under(lower, place, rect) {
            Some(below) => runs.push(both(&below, rect))?,
            None => runs.push(*rect)?,
        }
    }
    Ok(runs)
}

/// The runs on both sides of a line, of which `lower` end there and `row` are those of one row that begins there, both by their left
/// edges: those that go on across it or begin at it, by their left edges too. Those that end at it are put to `ended`.
pub(crate) fn row_upon(
    alloc: Global,
    lower: &[Rect],
    row: &[Rect],
    ended: &mut Vec<Rect>,
) -> Result<Vec<Rect>, AllocError>
    requires lower { IsRisingBy (λ r. r.x1) lower.now }
    requires row { IsRisingBy (λ r. r.x1) row.now }
    ensures stacked { IfOk result (λ v. (p : ℤ → ℤ → Bool) (at : ℤ) → MeetAt p at lower.now row.now → AreStacked p lower.now row.now ended.old.items v.items ended.new.items) }
    ensures rising { IfOk result (λ v. IsRisingBy (λ r. r.x1) v.items) }
    ensures tops { IfOk result (λ v. (top : ℤ) → All (λ r. r.y2 ≡ top) row.now → All (λ r. r.y2 ≡ top) v.items) }
    ensures below { OnOk result ((line : ℤ) → All (λ r. r.y2 <ℤ line) lower.now → All (λ r. r.y2 <ℤ line) ended.old.items → All (λ r. r.y2 <ℤ line) ended.new.items) }
{
    put_ended(lower, row, ended)?;
    let runs = lengthened(alloc, lower, row)?;
    Ok(runs)
}
