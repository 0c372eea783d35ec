//! The pieces of a row, and how many rows above and below have each.
ghost use Rattle.std.specs.Prelude.{◌≡◌, IfOk, map};
ghost use Rattle.fill_stacks.specs.Counting.{AreRising, counted, found, is_piece, next_height, next_level};

use std::alloc::{AllocError, Global};

/// The greatest number of rows of a stack.
const MOST: u16 = 32_767;

/// So many columns of a row from one on.
#[derive(Clone, Copy, Debug, PartialEq, Eq)]
pub struct Piece {
    /// The first column.
    pub start: i64,
    /// How many columns there are.
    pub count: u16,
}

/// A piece of a row with a number of rows.
#[derive(Clone, Copy, Debug, PartialEq, Eq)]
pub struct Counted {
    /// The piece.
    pub piece: Piece,
    /// The rows.
    pub rows: u16,
}

/// So many columns of so many rows of places, from one column and one row on.
#[derive(Clone, Copy, Debug, PartialEq, Eq)]
pub struct Stack {
    /// The first column.
    pub column: i64,
    /// The lowest row.
    pub row: i64,
    /// How many columns there are.
    pub columns: u16,
    /// How many rows there are.
    pub rows: u16,
}

/// Whether two pieces have the same columns.
fn is_same(a: Piece, b: Piece) -> bool
    ensures { result ≡ is_piece b a }
{
    a.start == b.start && a.count == b.count
}

/// The number that a neighbouring row has for the piece, if it has the piece.
fn found(neighbours: &[Counted], piece: Piece) -> Option<u16>
    requires { AreRising neighbours.now }
    ensures { result ≡ found neighbours.now piece }
{
    let k = neighbours.partition_point(|c| c.piece.start < piece.start);
    if k < neighbours.len() && is_same(neighbours[k].piece, piece) {
        Some(neighbours[k].rows)
    } else {
        None
    }
}

/// How high the stack of a piece is, by that of the row above: 32,767 at most.
fn next_height(above: Option<u16>) -> u16
    ensures { result ≡ next_height above }
{
    match above {
        Some(rows) => rows.min(MOST - 1) + 1,
        None => 1,
    }
}

/// How many rows of its stack are below a piece, by those below it in the row below: 0 where it begins a stack.
fn next_level(below: Option<u16>) -> u16
    ensures { result ≡ next_level below }
{
    match below {
        Some(rows) => (rows % MOST + 1) % MOST,
        None => 0,
    }
}

/// Each piece of a row with the height of its stack, by those of the row above, which stand from left to right.
///
/// # Errors
/// `AllocError` where memory is refused.
pub fn heights(alloc: Global, row: &[Piece], above: &[Counted]) -> Result<Vec<Counted>, AllocError>
    requires { AreRising above.now }
    ensures { IfOk result (λ v. v.items ≡ map (λ p. counted p (next_height (found above.now p))) row.now) }
{
    let mut list = Vec::with_capacity(alloc, row.len())?;
    for piece in row {
        list.push(Counted {
            piece: *piece,
            rows: next_height(found(above, *piece)),
        })?;
    }
    Ok(list)
}

/// Each piece of a row with its level, by those of the row below, which stand from left to right: how many rows of its stack are
/// below it, so 0 where it begins one.
///
/// # Errors
/// `AllocError` where memory is refused.
pub fn levels(alloc: Global, row: &[Piece], below: &[Counted]) -> Result<Vec<Counted>, AllocError>
    requires { AreRising below.now }
    ensures { IfOk result (λ v. v.items ≡ map (λ p. counted p (next_level (found below.now p))) row.now) }
{
    let mut list = Vec::with_capacity(alloc, row.len())?;
    for piece in row {
        list.push(Counted {
            piece: *piece,
            rows: next_level(found(below, *piece)),
        })?;
    }
    Ok(list)
}
