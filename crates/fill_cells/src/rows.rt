//! Rectangles listed for the rows of cells that they meet.
ghost use Rattle.std.specs.Prelude.{◌≡◌, ◌^◌, ◌<◌, ◌≤◌, ℤ, List, length, get_or, IfOk, OnOk};
ghost use Rattle.fill_base.specs.declared.rect.Rect.{Rect};
ghost use Rattle.fill_region.specs.Squares.{covered};
ghost use Rattle.fill_cells.specs.Mesh.{AreCuts, AreRowLists, gaps};
ghost use Rattle.fill_cells.specs.steps.Parts.{AreListed, IsListedAt};
ghost use Rattle.fill_cells.specs.steps.Within.{AreWithin};

use crate::pieces::within;
use crate::shares::{empty_all, even_pace, gaps_met};
use fill_base::Rect;
use std::alloc::{AllocError, Global};

/// A row is deep where the rectangles are together so many times as wide as it.
const DEEP: i64 = 64;

/// The list of a row begins with room for so many places or more.
const LEAST_ROOM: usize = 16;

/// For each row between neighbouring cuts the rectangles that meet it, by their places in the list, which take four bytes each. A
/// rectangle costs a guess at the first row, and a step for each.
///
/// # Errors
/// `AllocError` where memory is refused.
pub fn by_row(alloc: Global, rects: &[Rect], up: &[i64]) -> Result<Vec<Vec<u32>>, AllocError>
    requires cuts { AreCuts up.now }
    requires few { length rects.now ≤ 2 ^ 32 }
    ensures { IfOk result (λ v. AreRowLists rects.now up.now v.items) }
{
    let mut lists = Vec::new(alloc);
    empty_all(alloc, &mut lists, up.len() - 1)?;
    let pace = even_pace(up);
    let room = first_room(rects.len(), lists.len());
    for place in 0..rects.len() {
        put(&mut lists, rects, up, pace, room, place)?;
    }
    Ok(lists)
}

/// For how many places the list of a row begins with room: half as many again as an even share of them, since some rectangles meet more
/// than one row. A list that grows moves what it has.
fn first_room(places: usize, rows: usize) -> usize {
    let even = places / rows.max(1);
    even.saturating_add(even / 2).max(LEAST_ROOM)
}

/// Puts the rectangle at a place to the list of each row that it meets. A list begins with that much room.
fn put(
    lists: &mut [Vec<u32>],
    rects: &[Rect],
    up: &[i64],
    pace: u64,
    room: usize,
    place: usize,
) -> Result<(), AllocError>
    requires cuts { AreCuts up.now }
    requires count { length lists.old ≡ gaps up.now }
    requires few { length rects.now ≤ 2 ^ 32 }
    requires place { place < length rects.now }
    ensures { OnOk result ((d : Rect) → AreListed rects.now up.now (get_or rects.now place d) lists.old lists.new) }
{
    let rect = &rects[place];
    let met = gaps_met(up, pace, rect.y1(), rect.y2());
    for k in met.start..met.end {
        put_at(lists, room, place as u32, k)?;
    }
    Ok(())
}

/// Puts a place to the list of the row at `k`, which begins with that much room.
fn put_at(lists: &mut [Vec<u32>], room: usize, place: u32, k: usize) -> Result<(), AllocError>
    requires { k < length lists.old }
    ensures { OnOk result ((rects : List Rect) (up : List ℤ) (d : Rect) → place < length rects → IsListedAt rects up (get_or rects place d) k lists.old lists.new) }
{
    let list = &mut lists[k];
    if list.is_empty() {
        list.reserve(room)?;
    }
    list.push(place)?;
    Ok(())
}

/// The rectangles of a row, where they lie all over one another as a list that is mostly short.
pub(crate) fn listed(alloc: Global, rects: Vec<Rect>, row: &Rect) -> Result<Vec<Rect>, AllocError>
    ensures { IfOk result (λ v. AreWithin row.now (covered rects.items) v.items) }
{
    if is_deep(&rects, row) {
        within(alloc, &rects, row)
    } else {
        Ok(rects)
    }
}

/// Whether the rectangles are together far wider than the row.
fn is_deep(rects: &[Rect], row: &Rect) -> bool {
    let width = row.x2() - row.x1();
    let mut most = DEEP * width;
    for rect in rects {
        let (from, to) = (rect.x1().max(row.x1()), rect.x2().min(row.x2()));
        most = most.saturating_sub(to.saturating_sub(from).max(0));
    }
    most < 0
}
