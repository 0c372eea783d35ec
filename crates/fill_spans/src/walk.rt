//! Walks along rising edges, which count the members that they come past.
ghost use Rattle.std.specs.Prelude.{◌≡◌, ℕ, ℤ, ◌<◌, ◌^◌, length, get_or, pos, ◌+ℤ◌, ◌*ℤ◌, ◌≤ℤ◌, IfSome, IfNone};
ghost use Rattle.fill_base.specs.Coordinates.{lowest, highest};
ghost use Rattle.fill_base.specs.Counts.{count_between};
ghost use Rattle.fill_spans.specs.Spans.{inside, next_edge, IsCanonical};
ghost use Rattle.fill_spans.specs.EdgeLookup.{IsFirstAbove, IsEdgeBelow};
ghost use Rattle.fill_spans.specs.CountingWalk.{length_at, IsWalk, IsNotBeyond, HasReached};
ghost use Rattle.fill_spans.specs.EvenColumns.{column_left, column_right, AreSums};

/// How far a walk along the edges has come, and what it has counted.
#[derive(Clone, Copy)]
struct Walk {
    /// Where the count begins.
    start: i64,
    /// The place of the next edge: as many have been passed.
    next: usize,
    /// Outside the set, the count. Inside it, the number at which the count would be zero: the count
    /// at a number is that number less this one.
    sum: i64,
}

/// The place of the first edge above `x`.
pub(crate) fn first_above(edges: &[i32], x: i64) -> usize
    requires { IsCanonical edges.now }
    ensures { IsFirstAbove edges.now x result }
{
    edges.partition_point(|edge| i64::from(*edge) <= x)
}

/// The edge at `k`, where there is one below `hi`.
pub(crate) fn edge_below(edges: &[i32], k: usize, hi: i64) -> Option<i64>
    requires { IsCanonical edges.now }
    ensures some { IfSome result (λ edge. IsEdgeBelow edges.now k hi edge) }
    ensures none { IfNone result (k < length edges.now → hi ≤ℤ next_edge edges.now k) }
{
    let edge = i64::from(*edges.get(k)?);
    if edge < hi { Some(edge) } else { None }
}

/// How many members lie from `lo` on and below `hi`.
pub(crate) fn length_between(edges: &[i32], lo: i64, hi: i64) -> i64
    requires canonical { IsCanonical edges.now }
    requires low { lowest ≤ℤ lo }
    requires ordered { lo ≤ℤ hi }
    requires high { hi ≤ℤ highest }
    ensures { result ≡ pos (count_between (inside edges.now) lo hi) }
{
    let walk = advanced(edges, begin(edges, lo), hi);
    counted(walk, hi)
}

/// Adds to each number `height` times the members of one column. One walk goes along with the left
/// ends of the columns and one with the right ends, so each goes over the edges once for all columns.
pub(crate) fn add_columns(
    edges: &[i32],
    first: i64,
    step: i64,
    width: i64,
    height: i64,
    sums: &mut [i64],
)
    requires canonical { IsCanonical edges.now }
    requires first { lowest ≤ℤ first }
    requires step { pos 0 ≤ℤ step }
    requires width { pos 0 ≤ℤ width }
    requires last { (a : ℕ) → a < length sums.old → column_right first step width a ≤ℤ highest }
    requires least { pos 0 ≤ℤ height }
    requires most { height ≤ℤ pos (2 ^ 31) }
    requires sums { AreSums sums.old }
    ensures count { length sums.new ≡ length sums.old }
    ensures added { (a : ℕ) (d : ℤ) → a < length sums.old → get_or sums.new a d ≡ get_or sums.old a d +ℤ (height *ℤ pos (count_between (inside edges.now) (column_left first step a) (column_right first step width a))) }
{
    let mut behind = begin(edges, first);
    let mut ahead = behind;
    'columns: for a in 0..sums.len() {
        let left = left_of(first, step, a);
        let right = left + width;
        behind = advanced(edges, behind, left);
        ahead = advanced(edges, ahead, right);
        sums[a] += height * (counted(ahead, right) - counted(behind, left));
    }
}

/// Where column `a` begins.
fn left_of(first: i64, step: i64, a: usize) -> i64
    requires first { lowest ≤ℤ first }
    requires step { pos 0 ≤ℤ step }
    requires fits { a < 2 ^ 63 }
    requires left { column_left first step a ≤ℤ highest }
    ensures { result ≡ column_left first step a }
{
    first + a as i64 * step
}

/// A walk that begins at `start`, and has counted nothing.
fn begin(edges: &[i32], start: i64) -> Walk
    requires { IsCanonical edges.now }
    ensures starts { result.start ≡ start }
    ensures counts { IsWalk edges.now result }
    ensures reached { HasReached edges.now result start }
{
    let next = first_above(edges, start);
    let sum = if next % 2 == 1 { start } else { 0 };
    Walk { start, next, sum }
}

/// The walk, gone on to `to`.
fn advanced(edges: &[i32], walk: Walk, to: i64) -> Walk
    requires canonical { IsCanonical edges.now }
    requires low { lowest ≤ℤ walk.start }
    requires counts { IsWalk edges.now walk }
    requires not_beyond { IsNotBeyond edges.now walk to }
    ensures starts { result.start ≡ walk.start }
    ensures counts { IsWalk edges.now result }
    ensures reached { HasReached edges.now result to }
{
    let start = walk.start;
    let mut next = walk.next;
    let mut sum = walk.sum;
    'walk: while let Some(edge) = edge_below(edges, next, to) {
        sum = edge - sum;
        next += 1;
    }
    Walk { start, next, sum }
}

/// How many members the walk has counted once it stands at `at`.
fn counted(walk: Walk, at: i64) -> i64
    requires least { pos 0 ≤ℤ length_at walk at }
    requires most { length_at walk at ≤ℤ pos (2 ^ 31) }
    ensures { result ≡ length_at walk at }
{
    if walk.next % 2 == 1 {
        at - walk.sum
    } else {
        walk.sum
    }
}
