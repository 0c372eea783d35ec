ghost use Rattle.std.specs.Prelude.{◌≡◌, ◌⊎◌, ◌↔◌, ◌&&◌, ◌||◌, not, false, ℕ, ◌+◌, ◌≤◌, ◌<◌, ◌^◌, length, get_or, List, [], ◌∷◌, ℤ, pos, ◌+ℤ◌, ◌*ℤ◌, ◌≤ℤ◌, ◌<ℤ◌, IsTrue, IfOk, OnOk};
ghost use Rattle.std.specs.Int.{int_max};
ghost use Rattle.std.specs.Ordering.{int_eq};
ghost use Rattle.std.specs.Cmp.Lexicographic.{pointwise, lists_per, lists_equiv};
ghost use Rattle.std.specs.Cmp.{int_eq_equiv, partial_equiv_from_equiv};
ghost use Rattle.fill_base.specs.Coordinates.{lowest, highest};
ghost use Rattle.fill_base.specs.Counts.{is_between, count_between};
ghost use Rattle.fill_spans.specs.Columns.{has_column, IsRisingBy};
ghost use Rattle.fill_spans.specs.EvenColumns.{column_left, column_right, AreSums};
ghost use Rattle.fill_spans.specs.Spans.{inside, IsCanonical};
ghost use Rattle.fill_spans.specs.EdgeLookup.{HasMember};
ghost use Rattle.fill_spans.specs.Operations.{applied};
ghost use Rattle.fill_spans.specs.Sweep.{Turned};

use crate::joining::joined;
use crate::operation::Operation;
use crate::sweep::{edge_at, passed};
use crate::walk::{add_columns, edge_below, first_above, length_between};
use fill_base::{HIGHEST, LOWEST, Rect};
use std::alloc::{AllocError, Global};
use std::marker::Model;

/// A set of coordinates: sorted, disjoint, non-touching intervals, half open, in database units.
/// It is kept as one rising list of edges, of four bytes each.
#[derive(Drop)]
pub struct Spans {
    edges: Vec<i32>,
}

impl Model for Spans {
    ghost Value = { List ℤ };

    ghost view = { λ s. s.edges.items };

    ghost invariant = { λ s. IsCanonical s.edges.items };
}

impl PartialEq for Spans {
    ghost eq = { pointwise int_eq };

    ghost laws = { lists_per (partial_equiv_from_equiv int_eq_equiv) };

    /// Whether both sets have the same members.
    fn eq(&self, other: &Spans) -> bool
        ensures eq { result ≡ pointwise int_eq self.now other.now }
        ensures same { IsTrue result ↔ ((x : ℤ) → inside self.now x ≡ inside other.now x) }
    {
        self.edges == other.edges
    }
}

impl Eq for Spans {
    ghost laws = { lists_equiv int_eq_equiv };
}

impl Spans {
    /// The set without members.
    pub fn empty(alloc: Global) -> Spans
        ensures edges { result ≡ [] }
        ensures members { (x : ℤ) → inside result x ≡ false }
    {
        Spans {
            edges: Vec::new(alloc),
        }
    }

    /// The coordinates from `lo` on and below `hi`.
    pub fn one(alloc: Global, lo: i64, hi: i64) -> Result<Spans, AllocError>
        requires ordered { lo <ℤ hi }
        requires low { lowest ≤ℤ lo }
        requires high { hi ≤ℤ highest }
        ensures canonical { IfOk result IsCanonical }
        ensures members { IfOk result (λ r. (x : ℤ) → inside r x ≡ is_between lo hi x) }
    {
        let edges = pair(alloc, lo as i32, hi as i32)?;
        Ok(Spans { edges })
    }

    /// The columns in which some rectangle has squares. The rectangles come by their left edges.
    pub fn across(alloc: Global, rects: &[Rect]) -> Result<Spans, AllocError>
        requires { IsRisingBy (λ r. r.x1) rects.now }
        ensures canonical { IfOk result IsCanonical }
        ensures members { IfOk result (λ s. (x : ℤ) → inside s x ≡ has_column rects.now x) }
    {
        let edges = joined(alloc, rects)?;
        Ok(Spans { edges })
    }

    /// The members of `self` and `other` that `operation` keeps, in one sweep over both.
    pub fn combined(
        &self,
        alloc: Global,
        operation: Operation,
        other: &Spans,
    ) -> Result<Spans, AllocError>
        ensures canonical { IfOk result IsCanonical }
        ensures members { IfOk result (λ r. (x : ℤ) → inside r x ≡ applied operation (inside self.now x) (inside other.now x)) }
    {
        let edges = merged(alloc, operation, &self.edges, &other.edges)?;
        Ok(Spans { edges })
    }

    /// What is in either set.
    pub fn union(&self, alloc: Global, other: &Spans) -> Result<Spans, AllocError>
        ensures { IfOk result (λ r. (x : ℤ) → inside r x ≡ inside self.now x || inside other.now x) }
    {
        self.combined(alloc, Operation::Union, other)
    }

    /// What is in this set and not in the other.
    pub fn minus(&self, alloc: Global, other: &Spans) -> Result<Spans, AllocError>
        ensures { IfOk result (λ r. (x : ℤ) → inside r x ≡ inside self.now x && not (inside other.now x)) }
    {
        self.combined(alloc, Operation::Minus, other)
    }

    /// What is in both sets.
    pub fn meet(&self, alloc: Global, other: &Spans) -> Result<Spans, AllocError>
        ensures { IfOk result (λ r. (x : ℤ) → inside r x ≡ inside self.now x && inside other.now x) }
    {
        self.combined(alloc, Operation::Meet, other)
    }

    /// The members from `lo` on and below `hi`, in database units. A search by halving finds the edges
    /// between the two, so those around them cost little.
    ///
    /// # Errors
    /// `AllocError` where there is no memory for the edges.
    pub fn clip(&self, alloc: Global, lo: i64, hi: i64) -> Result<Spans, AllocError>
        requires ordered { lo <ℤ hi }
        requires low { lowest ≤ℤ lo }
        requires high { hi ≤ℤ highest }
        ensures canonical { IfOk result IsCanonical }
        ensures members { IfOk result (λ r. (x : ℤ) → inside r x ≡ inside self.now x && is_between lo hi x) }
    {
        let edges = clipped(alloc, &self.edges, lo, hi)?;
        Ok(Spans { edges })
    }

    /// The same set once more.
    pub fn copy(&self, alloc: Global) -> Result<Spans, AllocError>
        ensures { IfOk result (λ r. r ≡ self.now) }
    {
        let edges = Vec::from_slice(alloc, &self.edges)?;
        Ok(Spans { edges })
    }

    /// Whether the set has no member.
    pub fn is_empty(&self) -> bool
        ensures { IsTrue result ↔ (self.now ≡ []) }
    {
        self.edges.is_empty()
    }

    /// Whether `x` is a member.
    pub fn has(&self, x: i64) -> bool
        ensures { result ≡ inside self.now x }
    {
        first_above(&self.edges, x) % 2 == 1
    }

    /// Whether some member lies from `lo` on and below `hi`.
    pub fn meets(&self, lo: i64, hi: i64) -> bool
        ensures { IsTrue result ↔ HasMember self.now lo hi }
    {
        lo < hi && meets_between(&self.edges, lo, hi)
    }

    /// How many members lie from `lo` on and below `hi`.
    pub fn length_in(&self, lo: i64, hi: i64) -> i64
        ensures { result ≡ pos (count_between (inside self.now) lo (int_max lo hi)) }
    {
        let from = lo.max(LOWEST);
        let to = hi.min(HIGHEST);
        if from < to {
            length_between(&self.edges, from, to)
        } else {
            0
        }
    }

    /// Adds to each number `height` times the members of one column: the columns are `width` wide
    /// and begin at `first`, at `first + step`, and so on, in database units. One walk over the
    /// edges serves all columns.
    pub fn add_lengths(&self, first: i64, step: i64, width: i64, height: i64, sums: &mut [i64])
        requires first { lowest ≤ℤ first }
        requires step { pos 0 ≤ℤ step }
        requires width { pos 0 ≤ℤ width }
        requires last { (a : ℕ) → a < length sums.old → column_right first step width a ≤ℤ highest }
        requires least { pos 0 ≤ℤ height }
        requires most { height ≤ℤ pos (2 ^ 31) }
        requires sums { AreSums sums.old }
        ensures count { length sums.new ≡ length sums.old }
        ensures added { (a : ℕ) (d : ℤ) → a < length sums.old → get_or sums.new a d ≡ get_or sums.old a d +ℤ (height *ℤ pos (count_between (inside self.now) (column_left first step a) (column_right first step width a))) }
    {
        add_columns(&self.edges, first, step, width, height, sums);
    }

    /// The edges in rising order: the set begins at the first, ends at the second, and so on.
    pub fn edges(&self) -> &[i32]
        ensures edges { result.now ≡ self.now }
        ensures canonical { IsCanonical result.now }
    {
        &self.edges
    }
}

/// Appends the edge `at` where the set has to begin or end there.
fn put_edge(out: &mut Vec<i32>, at: i32, wanted: bool) -> Result<(), AllocError>
    ensures { OnOk result (Turned at wanted out.old.items out.new.items) }
{
    if (out.len() % 2 == 1) != wanted {
        out.push(at)?;
    }
    Ok(())
}

/// The edges of the result of an operation on two sets: one sweep over both lists.
fn merged(alloc: Global, operation: Operation, a: &[i32], b: &[i32]) -> Result<Vec<i32>, AllocError>
    requires first { IsCanonical a.now }
    requires second { IsCanonical b.now }
    ensures canonical { IfOk result (λ v. IsCanonical v.items) }
    ensures members { IfOk result (λ v. (x : ℤ) → inside v.items x ≡ applied operation (inside a.now x) (inside b.now x)) }
{
    let mut out = Vec::new(alloc);
    let mut i = 0;
    let mut j = 0;
    'sweep: while i < a.len() || j < b.len() {
        let next_a = edge_at(a, i);
        let next_b = edge_at(b, j);
        let at = next_a.min(next_b);
        i = passed(i, next_a, at);
        j = passed(j, next_b, at);
        put_edge(&mut out, at, operation.apply(i % 2 == 1, j % 2 == 1))?;
    }
    Ok(out)
}

/// The edges between `lo` and `hi`, with an edge at `lo` where the set has come in from the left, and
/// one at `hi` where it goes on to the right.
fn clipped(alloc: Global, edges: &[i32], lo: i64, hi: i64) -> Result<Vec<i32>, AllocError>
    requires canonical { IsCanonical edges.now }
    requires ordered { lo <ℤ hi }
    requires low { lowest ≤ℤ lo }
    requires high { hi ≤ℤ highest }
    ensures canonical { IfOk result (λ v. IsCanonical v.items) }
    ensures members { IfOk result (λ v. (x : ℤ) → inside v.items x ≡ inside edges.now x && is_between lo hi x) }
{
    let from = first_above(edges, lo);
    let to = first_above(edges, hi - 1);
    let between = &edges[from..to];
    let mut part = Vec::with_capacity(alloc, from % 2 + between.len() + to % 2)?;
    put_edge(&mut part, lo as i32, from % 2 == 1)?;
    part.extend_from_slice(between)?;
    put_edge(&mut part, hi as i32, false)?;
    Ok(part)
}

/// The edges of one interval.
fn pair(alloc: Global, lo: i32, hi: i32) -> Result<Vec<i32>, AllocError>
    ensures { IfOk result (λ v. v.items ≡ lo ∷ hi ∷ []) }
{
    let mut edges = Vec::with_capacity(alloc, 2)?;
    edges.push(lo)?;
    edges.push(hi)?;
    Ok(edges)
}

/// Whether some member lies from `lo` on and below `hi`: `lo` itself, or else the next edge.
fn meets_between(edges: &[i32], lo: i64, hi: i64) -> bool
    requires canonical { IsCanonical edges.now }
    requires ordered { lo <ℤ hi }
    ensures { IsTrue result ↔ HasMember edges.now lo hi }
{
    let k = first_above(edges, lo);
    match edge_below(edges, k, hi) {
        Some(_) => true,
        None => k % 2 == 1,
    }
}
