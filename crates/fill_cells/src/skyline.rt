//! The area of a part by a sweep upwards over rectangles, of which each adds what it has above the skyline of those before it.
ghost use Rattle.std.specs.Prelude.{◌≡◌, ◌+◌, ◌++◌, ◌∷◌, ◌≤◌, ◌<◌, ◌<ℤ◌, ◌≤ℤ◌, not, pos, length, get_or, false, ℤ, take, drop, All, IsTrue, IfOk, OnOk};
ghost use Rattle.std.specs.List.Sorted.{IsPermutation, IsPartitionPoint};
ghost use Rattle.fill_base.specs.Coordinates.{lowest, highest};
ghost use Rattle.fill_base.specs.declared.rect.Rect.{Rect};
ghost use Rattle.fill_base.specs.Squares.{area_of};
ghost use Rattle.fill_spans.specs.Columns.{IsRisingBy};
ghost use Rattle.fill_region.specs.Squares.{covered};
ghost use Rattle.fill_cells.specs.steps.Skyline.{AreApart, IsColumns, IsNoMore, IsOpen, IsPassed, IsSettled, IsSkyline, without};

use fill_area::shared_area;
use fill_base::Rect;
use std::alloc::AllocError;

/// Up to so many towers are counted, and not searched.
const COUNTED: usize = 64;

/// How many unit squares of the part some rectangle covers. They are sorted in place and come from the lowest on, and towers stand for
/// those so far, side by side: from the lower edge of the next one up, they cover what all of those do. So what it has above them is not
/// counted yet. What the towers were before is forgotten, and their memory used again.
pub(crate) fn counted_area(
    towers: &mut Vec<Rect>,
    rects: &mut [Rect],
    part: &Rect,
) -> Result<i64, AllocError>
    ensures { IfOk result (λ n. n ≡ pos (area_of (covered rects.old) part.now)) }
{
    sort_by_bottom(rects);
    towers.clear();
    let mut area = 0;
    for rect in rects.iter() {
        if let Some(piece) = rect.clip(part) {
            area += raise(towers, piece)?;
        }
    }
    Ok(area)
}

/// Puts a rectangle to the towers, none of which begins above its lower edge. Answers how many unit squares it has that no tower had.
fn raise(towers: &mut Vec<Rect>, rect: Rect) -> Result<i64, AllocError>
    requires { IsSkyline rect.y1 towers.old.items }
    ensures added { IfOk result (λ n. n ≡ pos (area_of (λ x y. not (covered towers.old.items x y)) rect)) }
    ensures settled { OnOk result (IsSettled rect towers.old.items towers.new.items) }
{
    let at = reached(towers, rect.x1());
    if begins_past(towers, at, rect.x2()) {
        let to = past_ended(towers, at, rect.y1());
        put_over(towers, at, to, rect)?;
        return Ok(rect.area());
    }
    let hidden = settle(towers, at, rect)?;
    Ok(rect.area() - hidden)
}

/// Sorts the rectangles by their lower edges.
fn sort_by_bottom(rects: &mut [Rect])
    ensures same { IsPermutation rects.old rects.new }
    ensures rising { IsRisingBy (λ r. r.y1) rects.new }
{
    rects.sort_unstable_by_key(|rect| rect.y1());
}

/// How many towers end at the column or left of it. Few are counted, which has no branch that is guessed wrong; many are searched.
fn reached(towers: &[Rect], column: i64) -> usize
    requires { AreApart towers.now }
    ensures within { result ≤ length towers.now }
    ensures parted { IsPartitionPoint (λ t. t.x2 ≤ℤ column) (λ t. column <ℤ t.x2) towers.now result }
{
    if towers.len() > COUNTED {
        return towers.partition_point(|tower| tower.x2() <= column);
    }
    ended(towers, column)
}

/// The same, tower by tower.
fn ended(towers: &[Rect], column: i64) -> usize
    requires { AreApart towers.now }
    ensures within { result ≤ length towers.now }
    ensures parted { IsPartitionPoint (λ t. t.x2 ≤ℤ column) (λ t. column <ℤ t.x2) towers.now result }
{
    let mut count = 0;
    for tower in towers {
        count += usize::from(tower.x2() <= column);
    }
    count
}

/// Whether the tower at `at`, if there is one, begins at the column or right of it.
fn begins_past(towers: &[Rect], at: usize, column: i64) -> bool
    requires apart { AreApart towers.now }
    requires within { at ≤ length towers.now }
    ensures { IsTrue result → All (λ t. column ≤ℤ t.x1) (drop at towers.now) }
{
    at == towers.len() || column <= towers[at].x1()
}

/// Past the tower at `at`, if there is one and it ends at the cut or below, and so may give way to another.
fn past_ended(towers: &[Rect], at: usize, cut: i64) -> usize
    requires { at ≤ length towers.now }
    ensures from { at ≤ result }
    ensures within { result ≤ length towers.now }
    ensures ended { (x y : ℤ) → cut ≤ℤ y → covered (drop result towers.now) x y ≡ covered (drop at towers.now) x y }
{
    if at < towers.len() && towers[at].y2() <= cut {
        at + 1
    } else {
        at
    }
}

/// Puts a rectangle to the towers, of which the first ones end left of it. What is left of it goes from tower to tower; those that have
/// no more than it, from `from` to `at`, give way to it together. Answers how many unit squares of the rectangle the towers had.
fn settle(towers: &mut Vec<Rect>, first: usize, rect: Rect) -> Result<i64, AllocError>
    requires { IsOpen towers.old.items first rect }
    ensures hidden { IfOk result (λ n. n ≡ pos (area_of (covered towers.old.items) rect)) }
    ensures settled { OnOk result (IsSettled rect towers.old.items towers.new.items) }
{
    let (mut from, mut at) = (first, first);
    let mut rest = rect;
    let mut hidden = 0;
    'towers: while at < towers.len() && towers[at].x1() < rest.x2() {
        let tower = towers[at];
        hidden += shared_area(&tower, &rect);
        if is_over(&rest, &tower) {
            at += 1;
            continue 'towers;
        }
        if rest.y2() <= tower.y2() {
            from = pass(towers, from, at, &rest)?;
            if rest.x2() <= tower.x2() {
                return Ok(hidden);
            }
            rest = columns_of(&rest, tower.x2(), rest.x2());
            at = from;
            continue 'towers;
        }
        if rest.x2() < tower.x2() {
            put_within(towers, from, at, rest)?;
            return Ok(hidden);
        }
        let beside = columns_of(&tower, tower.x1(), rest.x1());
        put_over(towers, from, at + 1, beside)?;
        from += 1;
        at = from;
    }
    let to = past_ended(towers, at, rest.y1());
    put_over(towers, from, to, rest)?;
    Ok(hidden)
}

/// Whether a rectangle has, from its lower edge up, all that a tower has.
fn is_over(rect: &Rect, tower: &Rect) -> bool
    ensures over { IsTrue result → IsNoMore tower.now rect.now }
    ensures beside { false ≡ result → tower.now.y2 <ℤ rect.now.y2 → tower.now.x2 ≤ℤ rect.now.x2 → tower.now.x1 <ℤ rect.now.x1 }
{
    tower.y2() <= rect.y1()
        || (tower.y2() < rect.y2() && rect.x1() <= tower.x1() && tower.x2() <= rect.x2())
}

/// Puts what a rectangle has left of a higher tower before it, in place of those that give way. Answers which tower is the next after it.
fn pass(towers: &mut Vec<Rect>, from: usize, at: usize, rest: &Rect) -> Result<usize, AllocError>
    requires from { from ≤ at }
    requires at { at < length towers.old.items }
    requires is_open { IsOpen (without towers.old.items from at) from rest.now }
    requires meets { (get_or towers.old.items at rest.now).x1 <ℤ rest.now.x2 }
    requires higher { rest.now.y2 ≤ℤ (get_or towers.old.items at rest.now).y2 }
    ensures passed { IfOk result (λ next. IsPassed (get_or towers.old.items at rest.now) rest.now (without towers.old.items from at) towers.new.items next) }
    ensures after { IfOk result (λ next. drop next towers.new.items ≡ drop (at + 1) towers.old.items) }
{
    let tower = towers[at];
    if rest.x1() < tower.x1() {
        put_over(towers, from, at, columns_of(rest, rest.x1(), tower.x1()))?;
        return Ok(from + 2);
    }
    put_over(towers, from, at + 1, tower)?;
    Ok(from + 1)
}

/// Puts a rectangle above a lower tower that ends right of it, in place of those that give way. What the tower has beside it stays.
fn put_within(towers: &mut Vec<Rect>, from: usize, at: usize, rest: Rect) -> Result<(), AllocError>
    requires from { from ≤ at }
    requires at { at < length towers.old.items }
    requires is_open { IsOpen (without towers.old.items from at) from rest }
    requires meets { (get_or towers.old.items at rest).x1 <ℤ rest.x2 }
    requires lower { (get_or towers.old.items at rest).y2 <ℤ rest.y2 }
    requires amid { rest.x2 <ℤ (get_or towers.old.items at rest).x2 }
    ensures { OnOk result (IsSettled rest (without towers.old.items from at) towers.new.items) }
{
    let tower = towers[at];
    towers[at] = columns_of(&tower, rest.x2(), tower.x2());
    put_over(towers, from, at, rest)?;
    if tower.x1() < rest.x1() {
        towers.insert(from, columns_of(&tower, tower.x1(), rest.x1()))?;
    }
    Ok(())
}

/// Puts a rectangle in place of the towers from one to another, which may be none.
fn put_over(towers: &mut Vec<Rect>, from: usize, to: usize, rect: Rect) -> Result<(), AllocError>
    requires ordered { from ≤ to }
    requires within { to ≤ length towers.old.items }
    ensures { OnOk result (towers.new.items ≡ take from towers.old.items ++ rect ∷ drop to towers.old.items) }
{
    if from == to {
        towers.insert(from, rect)?;
        return Ok(());
    }
    towers[from] = rect;
    if from + 1 < to {
        let left = towers.len() - (to - from - 1);
        towers.copy_within(to.., from + 1);
        towers.truncate(left);
    }
    Ok(())
}

/// What a rectangle has from one column to another.
fn columns_of(rect: &Rect, from: i64, to: i64) -> Rect
    requires low { lowest ≤ℤ from }
    requires ordered { from <ℤ to }
    requires high { to ≤ℤ highest }
    ensures { IsColumns result rect.now from to }
{
    Rect::from_edges(from, rect.y1(), to, rect.y2())
}
