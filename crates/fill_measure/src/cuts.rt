//! The cuts at which the windows along an axis begin or end, and further ones between them.
ghost use Rattle.std.specs.Prelude.{◌≡◌, ◌^◌, ℤ, pos, ◌≤ℤ◌, IfOk, OnOk, All};
ghost use Rattle.std.specs.List.{Contains};
ghost use Rattle.fill_area.specs.Parts.{AreParts};
ghost use Rattle.fill_base.specs.Coordinates.{IsCoordinate};
ghost use Rattle.fill_cells.specs.Mesh.{AreCuts};
ghost use Rattle.fill_measure.specs.steps.Ends.{HoldEnds};

use fill_area::Parts;
use fill_cells::cuts_at;
use std::alloc::{AllocError, Global};

/// A gap between cuts is divided into at most so many parts, so that cuts stay few.
const MOST_PARTS: u64 = 4096;

/// The cuts at which a span of the axis begins or ends, each once, from the lowest on, and further cuts between them where they are
/// further apart than the pitch.
pub(crate) fn cuts_of(alloc: Global, parts: Parts, pitch: u64) -> Result<Vec<i64>, AllocError>
    requires { AreParts parts }
    ensures cuts { IfOk result (λ v. AreCuts v.items) }
    ensures ends { IfOk result (λ v. HoldEnds v.items parts parts.axis.count) }
{
    let cuts = end_cuts(alloc, parts)?;
    let pieces = gap_parts(&cuts, pitch);
    if pieces == 1 {
        return Ok(cuts);
    }
    let numbers = divide_gaps(alloc, &cuts, pieces)?;
    Ok(cuts_at(numbers))
}

/// The cuts at which what counts of a span begins or ends, each once, from the lowest on: two of them at least.
fn end_cuts(alloc: Global, parts: Parts) -> Result<Vec<i64>, AllocError>
    requires { AreParts parts }
    ensures cuts { IfOk result (λ v. AreCuts v.items) }
    ensures ends { IfOk result (λ v. HoldEnds v.items parts parts.axis.count) }
{
    let ends = ends_of(alloc, parts)?;
    let (begin, end) = parts.extent(0);
    if begin < end {
        return Ok(cuts_at(ends));
    }
    let ends = with_clip(ends, parts)?;
    Ok(cuts_at(ends))
}

/// The numbers, and those between which spans count.
pub(crate) fn with_clip(mut numbers: Vec<i64>, parts: Parts) -> Result<Vec<i64>, AllocError>
    requires parts { AreParts parts }
    requires coordinates { All IsCoordinate numbers.items }
    ensures coordinates { IfOk result (λ v. All IsCoordinate v.items) }
    ensures kept { IfOk result (λ v. (z : ℤ) → Contains numbers.items z → Contains v.items z) }
    ensures low { IfOk result (λ v. Contains v.items parts.low) }
    ensures high { IfOk result (λ v. Contains v.items parts.high) }
{
    numbers.push(parts.low)?;
    numbers.push(parts.high)?;
    Ok(numbers)
}

/// Into how many parts each gap between the cuts is divided: so many that those of a mean gap are about as long as the pitch. It is the
/// same number for all, so that evenly spaced cuts stay even.
fn gap_parts(cuts: &[i64], pitch: u64) -> i64
    requires { AreCuts cuts.now }
    ensures { pos 1 ≤ℤ result }
{
    let last = cuts.len() - 1;
    let mean = cuts[last].abs_diff(cuts[0]) / last as u64;
    let parts = mean.saturating_add(pitch / 2) / pitch.max(1);
    parts.clamp(1, MOST_PARTS) as i64
}

/// The cuts, and those that cut each gap between them into so many parts.
fn divide_gaps(alloc: Global, cuts: &[i64], parts: i64) -> Result<Vec<i64>, AllocError>
    requires cuts { AreCuts cuts.now }
    requires some { pos 1 ≤ℤ parts }
    ensures coordinates { IfOk result (λ v. All IsCoordinate v.items) }
    ensures kept { IfOk result (λ v. (z : ℤ) → Contains cuts.now z → Contains v.items z) }
{
    let count = cuts.len().saturating_mul(parts as usize);
    let mut numbers = Vec::with_capacity(alloc, count)?;
    numbers.extend_from_slice(cuts)?;
    for i in 1..cuts.len() {
        put_between(&mut numbers, cuts[i - 1], cuts[i], parts)?;
    }
    Ok(numbers)
}

/// Puts cuts that cut a gap, from the first cut to the last one, into so many parts of one length, or more where what is left over
/// of the gap makes whole parts too: the last one is not twice as long as the others.
fn put_between(numbers: &mut Vec<i64>, first: i64, last: i64, parts: i64) -> Result<(), AllocError>
    requires first { IsCoordinate first }
    requires last { IsCoordinate last }
    requires some { pos 1 ≤ℤ parts }
    requires coordinates { All IsCoordinate numbers.old.items }
    ensures coordinates { OnOk result (All IsCoordinate numbers.new.items) }
    ensures kept { OnOk result ((z : ℤ) → Contains numbers.old.items z → Contains numbers.new.items z) }
{
    let step = part_length(first, last, parts);
    let mut cut = first;
    for _ in 1..(last - first) / step {
        cut = stepped(cut, step, last);
        numbers.push(cut)?;
    }
    Ok(())
}

/// How long a part is: one unit at least.
fn part_length(first: i64, last: i64, parts: i64) -> i64
    requires first { IsCoordinate first }
    requires last { IsCoordinate last }
    requires some { pos 1 ≤ℤ parts }
    ensures least { pos 1 ≤ℤ result }
    ensures most { result ≤ℤ pos (2 ^ 31) }
{
    (last.abs_diff(first) / parts as u64).max(1) as i64
}

/// The cut one part further, and not past the last one.
fn stepped(cut: i64, step: i64, last: i64) -> i64
    requires cut { IsCoordinate cut }
    requires last { IsCoordinate last }
    requires least { pos 0 ≤ℤ step }
    requires most { step ≤ℤ pos (2 ^ 31) }
    ensures { IsCoordinate result }
{
    last.min(cut + step)
}

/// Both ends of each span, in the order of the spans.
fn ends_of(alloc: Global, parts: Parts) -> Result<Vec<i64>, AllocError>
    requires { AreParts parts }
    ensures coordinates { IfOk result (λ v. All IsCoordinate v.items) }
    ensures ends { IfOk result (λ v. HoldEnds v.items parts parts.axis.count) }
{
    let mut ends = Vec::with_capacity(alloc, 2 * parts.axis.count as usize)?;
    for a in 0..parts.axis.count {
        let (begin, end) = parts.extent(a);
        ends.push(begin)?;
        ends.push(end)?;
    }
    Ok(ends)
}
