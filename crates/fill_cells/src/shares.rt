//! Rectangles shared out to the cells of a row.
ghost use Rattle.std.specs.Prelude.{◌≡◌, ◌+◌, ◌<◌, ◌≤◌, ℤ, ℕ, ◌≤ℤ◌, ◌<ℤ◌, get_or, length, [], All, OnOk, IsTrue};
ghost use Rattle.fill_base.specs.declared.rect.Rect.{Rect};
ghost use Rattle.fill_region.specs.Squares.{covered};
ghost use Rattle.fill_cells.specs.Mesh.{AreCuts, gaps};
ghost use Rattle.fill_cells.specs.steps.Parts.{AreShares, AreShared, IsSharedAt, AreMet};

use crate::pieces::hold;
use fill_base::Rect;
use std::alloc::{AllocError, Global};
use std::ops::Range;

/// Cuts are evenly spaced where a guess at one is at most so many steps off.
const NEAR: u64 = 8;

/// So long a way, in units, is that for which a pace counts gaps: `2^SHIFT`.
const SHIFT: u32 = 32;

/// Shares the rectangles out to the cells of a row between neighbouring cuts: each cell has a list that covers there what they
/// cover. What the lists were before is forgotten, and their memory used again. A rectangle costs a guess at the first cell that it
/// meets, and a step for each cell.
pub(crate) fn share_out(
    alloc: Global,
    lists: &mut Vec<Vec<Rect>>,
    row: &Rect,
    cuts: &[i64],
    rects: &[Rect],
) -> Result<(), AllocError>
    requires { AreCuts cuts.now }
    ensures { OnOk result (AreShares row.now cuts.now (covered rects.now) lists.new.items) }
{
    empty_all(alloc, lists, cuts.len() - 1)?;
    let pace = even_pace(cuts);
    for rect in rects {
        share(row, cuts, pace, rect, lists)?;
    }
    Ok(())
}

/// Makes so many empty lists of those that there are, which keep their memory, and of new ones.
pub(crate) fn empty_all<T: Drop>(
    alloc: Global,
    lists: &mut Vec<Vec<T>>,
    count: usize,
) -> Result<(), AllocError>
    ensures count { OnOk result (length lists.new.items ≡ count) }
    ensures empty { OnOk result (All (λ list. list.items ≡ []) lists.new.items) }
{
    lists.truncate(count);
    clear_each(lists);
    for _ in lists.len()..count {
        lists.push(Vec::new(alloc))?;
    }
    Ok(())
}

/// Empties each list.
fn clear_each<T: Drop>(lists: &mut [Vec<T>])
    ensures count { length lists.new ≡ length lists.old }
    ensures empty { All (λ list. list.items ≡ []) lists.new }
{
    for k in 0..lists.len() {
        lists[k].clear();
    }
}

/// Puts a rectangle to the list of each cell that it meets.
fn share(
    row: &Rect,
    cuts: &[i64],
    pace: u64,
    rect: &Rect,
    lists: &mut [Vec<Rect>],
) -> Result<(), AllocError>
    requires cuts { AreCuts cuts.now }
    requires count { length lists.old ≡ gaps cuts.now }
    ensures { OnOk result (AreShared row.now cuts.now rect.now lists.old lists.new) }
{
    let met = gaps_met(cuts, pace, rect.x1(), rect.x2());
    for k in met.start..met.end {
        share_at(row, cuts, rect, lists, k)?;
    }
    Ok(())
}

/// Puts a rectangle to the list of the cell at `k`.
fn share_at(
    row: &Rect,
    cuts: &[i64],
    rect: &Rect,
    lists: &mut [Vec<Rect>],
    k: usize,
) -> Result<(), AllocError>
    requires cuts { AreCuts cuts.now }
    requires count { length lists.old ≡ gaps cuts.now }
    requires within { k < gaps cuts.now }
    ensures { OnOk result (IsSharedAt row.now cuts.now rect.now k lists.old lists.new) }
{
    let cell = Rect::from_edges(cuts[k], row.y1(), cuts[k + 1], row.y2());
    hold(&mut lists[k], rect, &cell)?;
    Ok(())
}

/// How many gaps lie in 2^32 units, where each cut lies about where equal steps put it, else 0.
pub(crate) fn even_pace(cuts: &[i64]) -> u64
    requires { AreCuts cuts.now }
{
    let last = cuts.len() - 1;
    let step = (cuts[last] - cuts[0]) / last as i64;
    if step > 0 && are_even(cuts, step) {
        (1 << SHIFT) / step.unsigned_abs() + 1
    } else {
        0
    }
}

/// Whether no cut lies farther than a few steps from where equal steps put it.
fn are_even(cuts: &[i64], step: i64) -> bool
    requires { AreCuts cuts.now }
{
    let first = cuts[0];
    for (k, cut) in cuts.iter().enumerate() {
        let even = (k as i64).saturating_mul(step);
        let off = cut.saturating_sub(first).abs_diff(even);
        if off > NEAR.saturating_mul(step.unsigned_abs()) {
            return false;
        }
    }
    true
}

/// The gaps between cuts that have a number from `lo` on and below `hi`: mostly the one that is guessed.
#[inline(always)]
pub(crate) fn gaps_met(cuts: &[i64], pace: u64, lo: i64, hi: i64) -> Range<usize>
    requires { AreCuts cuts.now }
    ensures { AreMet cuts.now lo hi result.start result.end }
{
    if hi <= cuts[0] {
        return 0..0;
    }
    if cuts[cuts.len() - 1] <= lo {
        return 0..0;
    }
    let near = guess(cuts, pace, lo);
    if holds(cuts, near, lo, hi) {
        return near..near + 1;
    }
    let below = cut_below(cuts, near, lo);
    let first = first_past(cuts, below, lo);
    first..first_from(cuts, first, hi)
}

/// About in which gap a number lies: by the pace where cuts are evenly spaced, which windows mostly are, else by halves.
fn guess(cuts: &[i64], pace: u64, number: i64) -> usize
    requires { AreCuts cuts.now }
    ensures { result < gaps cuts.now }
{
    let near = if pace > 0 {
        let way = number.saturating_sub(cuts[0]).max(0).unsigned_abs();
        (way.wrapping_mul(pace) >> SHIFT) as usize
    } else {
        let above = cuts.partition_point(|cut| *cut <= number);
        above.saturating_sub(1)
    };
    near.min(cuts.len() - 2)
}

/// Whether the numbers from `lo` on and below `hi` lie in the gap at `k`.
fn holds(cuts: &[i64], k: usize, lo: i64, hi: i64) -> bool
    requires cuts { AreCuts cuts.now }
    requires within { k < gaps cuts.now }
    ensures { IsTrue result → (d : ℤ) → (get_or cuts.now k d ≤ℤ lo) × (hi ≤ℤ get_or cuts.now (k + 1) d) }
{
    cuts[k] <= lo && hi <= cuts[k + 1]
}

/// The last cut from one downwards that lies at `lo` or below, or the lowest cut.
fn cut_below(cuts: &[i64], from: usize, lo: i64) -> usize
    requires cuts { AreCuts cuts.now }
    requires from { from ≤ gaps cuts.now }
    ensures within { result ≤ gaps cuts.now }
    ensures below { (d : ℤ) → 0 < result → get_or cuts.now result d ≤ℤ lo }
{
    let mut below = from;
    'cuts: while below > 0 && cuts[below] > lo {
        below -= 1;
    }
    below
}

/// The first gap from a cut upwards that ends above `lo`, or the number of gaps where there is none.
fn first_past(cuts: &[i64], from: usize, lo: i64) -> usize
    requires cuts { AreCuts cuts.now }
    requires from { from ≤ gaps cuts.now }
    requires below { (d : ℤ) → 0 < from → get_or cuts.now from d ≤ℤ lo }
    ensures within { result ≤ gaps cuts.now }
    ensures first { (k : ℕ) (d : ℤ) → k < gaps cuts.now → lo <ℤ get_or cuts.now (k + 1) d → result ≤ k }
{
    let last = cuts.len() - 1;
    let mut first = from;
    'gaps: while first < last && cuts[first + 1] <= lo {
        first += 1;
    }
    first
}

/// The first gap from `first` on that begins at `hi` or above, or the number of gaps where there is none.
fn first_from(cuts: &[i64], first: usize, hi: i64) -> usize
    requires cuts { AreCuts cuts.now }
    requires first { first ≤ gaps cuts.now }
    ensures from { first ≤ result }
    ensures within { result ≤ gaps cuts.now }
    ensures past { (k : ℕ) (d : ℤ) → k < gaps cuts.now → get_or cuts.now k d <ℤ hi → k < result }
{
    let last = cuts.len() - 1;
    let mut past = first;
    'gaps: while past < last && cuts[past] < hi {
        past += 1;
    }
    past
}
