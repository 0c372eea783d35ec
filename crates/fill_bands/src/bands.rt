//! Lists of bands: looking up a line, putting a row on top, and merging two lists.
ghost use Rattle.std.specs.Prelude.{◌≡◌, ◌↔◌, ◌<◌, ◌≤◌, length, take, [], ◌∷◌, ℤ, Bool, true, false, IsTrue, IfOk, OnOk};
ghost use Rattle.fill_spans.specs.Operations.{applied};
ghost use Rattle.fill_bands.specs.Bands.{holds, last_row, next_bottom, IsBanded};
ghost use Rattle.fill_bands.specs.steps.FirstAbove.{IsFirstAbove};
ghost use Rattle.fill_bands.specs.steps.Merging.{IsBeside, IsRowOf, IsTurn, RowPut};

use crate::shared::SharedRow;
use fill_spans::sweep::{CEILING, passed};
use fill_spans::{Operation, Spans};
use std::alloc::{AllocError, Global};

/// The place of the first band above the line `y`.
pub(crate) fn first_above(bands: &[(i32, SharedRow)], y: i64) -> usize
    requires { IsBanded bands.now }
    ensures { IsFirstAbove bands.now y result }
{
    bands.partition_point(|band| i64::from(band.0) <= y)
}

/// The bottom of the band at `k`, or the ceiling past the last one.
pub(crate) fn bottom_at(bands: &[(i32, SharedRow)], k: usize) -> i32
    requires { IsBanded bands.now }
    ensures { result ≡ next_bottom bands.now k }
{
    if k < bands.len() { bands[k].0 } else { CEILING }
}

/// The row of the band before `k`, or `nothing` under the first one.
fn row_before<'a>(bands: &'a [(i32, SharedRow)], k: usize, nothing: &'a Spans) -> &'a Spans
    requires within { k ≤ length bands.now }
    requires nothing { nothing.now ≡ [] }
    ensures { result.now ≡ last_row [] (take k bands.now) }
{
    if k > 0 {
        bands[k - 1].1.spans()
    } else {
        nothing
    }
}

/// Whether the last band has this row.
fn is_top(alloc: Global, bands: &[(i32, SharedRow)], row: &Spans) -> bool
    ensures { IsTrue result ↔ (last_row [] bands.now ≡ row.now) }
{
    let nothing = Spans::empty(alloc);
    row_before(bands, bands.len(), &nothing) == row
}

/// Appends a band at `at` with this row, unless the last band has it already.
pub(crate) fn put_row(
    alloc: Global,
    out: &mut Vec<(i32, SharedRow)>,
    at: i32,
    row: Spans,
) -> Result<(), AllocError>
    ensures { OnOk result (RowPut at row out.old.items out.new.items) }
{
    if !is_top(alloc, out, &row) {
        out.push((at, SharedRow::new(alloc, row)?))?;
    }
    Ok(())
}

/// What the operation makes of the row before `i` in `a` and the one before `j` in `b`.
fn combined_row(
    alloc: Global,
    operation: Operation,
    a: &[(i32, SharedRow)],
    i: usize,
    b: &[(i32, SharedRow)],
    j: usize,
) -> Result<Spans, AllocError>
    requires first { i ≤ length a.now }
    requires second { j ≤ length b.now }
    ensures { IfOk result (IsRowOf operation (last_row [] (take i a.now)) (last_row [] (take j b.now))) }
{
    let nothing = Spans::empty(alloc);
    row_before(a, i, &nothing).combined(alloc, operation, row_before(b, j, &nothing))
}

/// Whether the operation keeps the first set as it is where the second has nothing.
fn keeps_first(operation: Operation) -> bool
    ensures { result ≡ true → (b : Bool) → applied operation b false ≡ b }
{
    match operation {
        Operation::Union | Operation::Minus => true,
        Operation::Meet => false,
    }
}

/// Whether the operation keeps the second set as it is where the first has nothing.
fn keeps_second(operation: Operation) -> bool
    ensures { result ≡ true → (b : Bool) → applied operation false b ≡ b }
{
    match operation {
        Operation::Union => true,
        Operation::Minus | Operation::Meet => false,
    }
}

/// Whether the row of the band before `k` has no member, or there is no such band.
fn has_no_row(alloc: Global, bands: &[(i32, SharedRow)], k: usize) -> bool
    requires { k ≤ length bands.now }
    ensures { IsTrue result ↔ (last_row [] (take k bands.now) ≡ []) }
{
    let nothing = Spans::empty(alloc);
    row_before(bands, k, &nothing).is_empty()
}

/// Appends a band at `at` with the row before `k`, which both then hold together, unless the last band has it already.
fn put_shared(
    alloc: Global,
    bands: &[(i32, SharedRow)],
    k: usize,
    out: &mut Vec<(i32, SharedRow)>,
    at: i32,
) -> Result<(), AllocError>
    requires some { 0 < k }
    requires within { k ≤ length bands.now }
    ensures { OnOk result (RowPut at (last_row [] (take k bands.now)) out.old.items out.new.items) }
{
    let same = &bands[k - 1].1;
    if !is_top(alloc, out, same.spans()) {
        out.push((at, same.share()?))?;
    }
    Ok(())
}

/// Appends what a turn of the sweep makes of the row before `i` in `a` and the one before `j` in `b`. Beside all rows of the other
/// that is the row of one of them, which both then hold together.
fn put_turn(
    alloc: Global,
    operation: Operation,
    a: &[(i32, SharedRow)],
    i: usize,
    b: &[(i32, SharedRow)],
    j: usize,
    beside: bool,
    out: &mut Vec<(i32, SharedRow)>,
    at: i32,
) -> Result<(), AllocError>
    requires first { i ≤ length a.now }
    requires second { j ≤ length b.now }
    requires region { IsBanded b.now }
    requires beside { beside ≡ true → IsBeside operation a.now i b.now j out.old.items }
    ensures { OnOk result (IsTurn operation (last_row [] (take i a.now)) (last_row [] (take j b.now)) at out.old.items out.new.items) }
{
    if beside {
        let row = a[i - 1].1.share()?;
        out.push((at, row))?;
    } else if (j > 0) & keeps_second(operation) & has_no_row(alloc, a, i) {
        put_shared(alloc, b, j, out, at)?;
    } else {
        let row = combined_row(alloc, operation, a, i, b, j)?;
        put_row(alloc, out, at, row)?;
    }
    Ok(())
}

/// The bands of the result of an operation on two regions: one sweep over both lists.
pub(crate) fn merged(
    alloc: Global,
    operation: Operation,
    a: &[(i32, SharedRow)],
    b: &[(i32, SharedRow)],
) -> Result<Vec<(i32, SharedRow)>, AllocError>
    requires first { IsBanded a.now }
    requires second { IsBanded b.now }
    ensures region { IfOk result (λ v. IsBanded v.items) }
    ensures squares { IfOk result (λ v. (x y : ℤ) → holds v.items x y ≡ applied operation (holds a.now x y) (holds b.now x y)) }
{
    let mut out = Vec::with_capacity(alloc, a.len().saturating_add(b.len()))?;
    let mut i = 0;
    let mut j = 0;
    'sweep: while i < a.len() || j < b.len() {
        let next_a = bottom_at(a, i);
        let next_b = bottom_at(b, j);
        let at = next_a.min(next_b);
        let before = j;
        i = passed(i, next_a, at);
        j = passed(j, next_b, at);
        let beside = (j == before) & keeps_first(operation) & has_no_row(alloc, b, j);
        put_turn(alloc, operation, a, i, b, j, beside, &mut out, at)?;
    }
    out.shrink_to_fit();
    Ok(out)
}
