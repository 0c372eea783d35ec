//! Lists of rectangles that stand for the squares of others within a part of the plane.
ghost use Rattle.std.specs.Prelude.{◌≡◌, ◌||◌, ◌++◌, ◌∷◌, [], ℤ, ◌≤ℤ◌, IfOk, OnOk, IfSome, IsTrue};
ghost use Rattle.fill_base.specs.Squares.{squares};
ghost use Rattle.fill_region.specs.Squares.{covered};
ghost use Rattle.fill_cells.specs.steps.Within.{AreWithin, AreMore, IsWhole, IsWithLast};

use fill_base::Rect;
use std::alloc::{AllocError, Global};

/// A list begins with room for so many. Most have no more, and one that grows is moved each time.
const FIRST_ROOM: usize = 16;

/// The squares of the rectangles within a part, as a list that is mostly short: one rectangle where one of them covers the whole
/// part, and neighbours in the list that make one rectangle joined.
pub(crate) fn within(alloc: Global, rects: &[Rect], part: &Rect) -> Result<Vec<Rect>, AllocError>
    ensures { IfOk result (λ v. AreWithin part.now (covered rects.now) v.items) }
{
    let mut list = Vec::new(alloc);
    for rect in rects {
        hold(&mut list, rect, part)?;
    }
    Ok(list)
}

/// Puts the squares of a rectangle within the part to those of the list.
#[inline(always)]
pub(crate) fn hold(list: &mut Vec<Rect>, rect: &Rect, part: &Rect) -> Result<(), AllocError>
    ensures { OnOk result (AreMore part.now rect.now list.old.items list.new.items) }
{
    if is_whole(list, part) {
        return Ok(());
    }
    match rect.clip(part) {
        Some(piece) => {
            hold_piece(list, piece, part)?;
            Ok(())
        }
        None => Ok(()),
    }
}

/// Whether the first rectangle of the list is the whole part.
fn is_whole(list: &[Rect], part: &Rect) -> bool
    ensures { IsTrue result → IsWhole part.now list.now }
{
    !list.is_empty() && list[0] == *part
}

/// Puts a piece to the list, alone where it is the whole part.
fn hold_piece(list: &mut Vec<Rect>, piece: Rect, part: &Rect) -> Result<(), AllocError>
    ensures { OnOk result (AreMore part.now piece list.old.items list.new.items) }
{
    if piece == *part {
        list.clear();
    }
    put(list, piece)?;
    Ok(())
}

/// Puts a piece to the list, joined with the last one where both make one rectangle.
fn put(list: &mut Vec<Rect>, piece: Rect) -> Result<(), AllocError>
    ensures { OnOk result ((x y : ℤ) → covered list.new.items x y ≡ (covered list.old.items x y || squares piece x y)) }
{
    match with_last(list, &piece) {
        Some(both) => {
            list.pop();
            push(list, both)?;
            Ok(())
        }
        None => {
            push(list, piece)?;
            Ok(())
        }
    }
}

/// The rectangle of the squares of the last of the list and of a piece, where both make one.
fn with_last(list: &[Rect], piece: &Rect) -> Option<Rect>
    ensures { IfSome result (λ r. IsWithLast list.now piece.now r) }
{
    let last = list.last()?;
    joined(last, piece)
}

/// Appends a rectangle.
fn push(list: &mut Vec<Rect>, rect: Rect) -> Result<(), AllocError>
    ensures { OnOk result (list.new.items ≡ list.old.items ++ rect ∷ []) }
{
    if list.is_empty() {
        list.reserve(FIRST_ROOM)?;
    }
    list.push(rect)?;
    Ok(())
}

/// The rectangle of the squares of two, where these lie side by side or one above the other, and overlap or touch.
fn joined(a: &Rect, b: &Rect) -> Option<Rect>
    ensures { IfSome result (λ r. (x y : ℤ) → squares r x y ≡ (squares a.now x y || squares b.now x y)) }
{
    if a.y1() == b.y1() && a.y2() == b.y2() && a.x1() <= b.x2() && b.x1() <= a.x2() {
        return Some(joined_across(a, b));
    }
    if a.x1() == b.x1() && a.x2() == b.x2() && a.y1() <= b.y2() && b.y1() <= a.y2() {
        return Some(joined_up(a, b));
    }
    None
}

/// The rectangle of the squares of two that lie between the same cuts, and overlap or touch.
fn joined_across(a: &Rect, b: &Rect) -> Rect
    requires bottom { a.now.y1 ≡ b.now.y1 }
    requires top { a.now.y2 ≡ b.now.y2 }
    requires left { a.now.x1 ≤ℤ b.now.x2 }
    requires right { b.now.x1 ≤ℤ a.now.x2 }
    ensures { (x y : ℤ) → squares result x y ≡ (squares a.now x y || squares b.now x y) }
{
    Rect::from_edges(a.x1().min(b.x1()), a.y1(), a.x2().max(b.x2()), a.y2())
}

/// The rectangle of the squares of two in the same columns, which overlap or touch.
fn joined_up(a: &Rect, b: &Rect) -> Rect
    requires left { a.now.x1 ≡ b.now.x1 }
    requires right { a.now.x2 ≡ b.now.x2 }
    requires bottom { a.now.y1 ≤ℤ b.now.y2 }
    requires top { b.now.y1 ≤ℤ a.now.y2 }
    ensures { (x y : ℤ) → squares result x y ≡ (squares a.now x y || squares b.now x y) }
{
    Rect::from_edges(a.x1(), a.y1().min(b.y1()), a.x2(), a.y2().max(b.y2()))
}
