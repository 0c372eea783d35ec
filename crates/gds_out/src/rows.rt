//! The rows of the fill: their pieces, and the stacks that begin in each.

ghost use Rattle.std.specs.Prelude.{◌≡◌, ◌++◌, ◌≤ℤ◌, ℤ, pos, ◌+ℤ◌, true, negsuc, map, IfOk, OnOk};
ghost use Rattle.std.specs.List.{flat_map};
ghost use Rattle.fill_raster.specs.Axes.{first, extent, is_on};
ghost use Rattle.fill_text.specs.ValuesOfRules.{values_of};
ghost use Rattle.fill_stacks.specs.Counting.{as_piece};
ghost use Rattle.fill_stacks.specs.Places.{row_pieces};
ghost use Rattle.fill_stacks.specs.Runs.{run, pieces};
ghost use Rattle.gds_out.specs.FillText.{stack_records, stacks_records};
ghost use Rattle.gds_out.specs.Places.{AreOfTiles, marked_by};
ghost use Rattle.gds_out.specs.Strips.{IsSheet, marked_in, sheet_raster};
ghost use Rattle.gds_out.specs.steps.Rows.{AreBegun, begun, counts, heights_down};
ghost use Rattle.gds_out.specs.steps.Writing.{Adds};

use crate::columns::next_column;
use crate::elements::put_stack;
use crate::sheet::Sheet;
use crate::writer::Writer;
use fill_raster::{Marks, Place, Raster};
use fill_stacks::{Counted, Piece, Stack, heights, levels};
use std::alloc::{AllocError, Global};

/// How many columns a piece has at most.
const MOST: u32 = 32_767;

/// Appends the pieces of so many columns from one on: 32,767 each from the left, and what is left.
fn push_pieces(list: &mut Vec<Piece>, start: i64, count: u32) -> Result<(), AllocError>
    requires low { negsuc 2147483647 ≤ℤ start }
    requires high { (start +ℤ pos count) ≤ℤ pos 2147483648 }
    ensures { OnOk result (list.new.items ≡ list.old.items ++ map as_piece (pieces (run start count))) }
{
    for k in 0..count.div_ceil(MOST) {
        let done = k * MOST;
        list.push(Piece {
            start: start + i64::from(done),
            count: (count - done).min(MOST) as u16,
        })?;
    }
    Ok(())
}

/// The pieces that a row's marked places are written in, from left to right.
fn pieces_of_row(
    alloc: Global,
    raster: Raster,
    marks: &[&Marks],
    j: i64,
) -> Result<Vec<Piece>, AllocError>
    requires tiles { AreOfTiles raster marks.now }
    requires row { is_on raster.up j ≡ true }
    ensures { IfOk result (λ v. v.items ≡ map as_piece (row_pieces (marked_by marks.now) raster j)) }
{
    let mut list = Vec::new(alloc);
    let columns = raster.columns();
    let mut tile = 0;
    let mut i = columns.start;
    while i < columns.end {
        let start = next_column(raster, marks, &mut tile, Place { i, j }, true);
        let end = next_column(raster, marks, &mut tile, Place { i: start, j }, false);
        push_pieces(&mut list, start, (end - start) as u32)?;
        i = end;
    }
    Ok(list)
}

/// Appends the numbers of a row's pieces.
fn push_counts(list: &mut Vec<u16>, row: &[Counted]) -> Result<(), AllocError>
    ensures { OnOk result (list.new.items ≡ list.old.items ++ counts row.now) }
{
    for counted in row {
        list.push(counted.rows)?;
    }
    Ok(())
}

/// The pieces that a row of a sheet is written in, from left to right.
fn sheet_pieces(alloc: Global, sheet: &Sheet<'_>, j: i64) -> Result<Vec<Piece>, AllocError>
    requires { IsSheet sheet.now }
    ensures { IfOk result (λ v. v.items ≡ map as_piece (row_pieces (marked_in sheet.now.strips.now) (sheet_raster sheet.now) j)) }
{
    match sheet.strip_at(j) {
        Some(strip) => pieces_of_row(alloc, strip.raster, &strip.marks, j),
        None => Ok(Vec::new(alloc)),
    }
}

/// How high the stack of each piece is, from its row on: of the pieces of the highest row first, and in a row from left to right.
fn stack_heights(alloc: Global, sheet: &Sheet<'_>) -> Result<Vec<u16>, AllocError>
    requires { IsSheet sheet.now }
    ensures { IfOk result (λ v. v.items ≡ heights_down (marked_in sheet.now.strips.now) (sheet_raster sheet.now) (first sheet.now.up) (extent sheet.now.up)) }
{
    let mut list = Vec::new(alloc);
    let mut above = Vec::new(alloc);
    let rows = sheet.rows();
    let mut j = rows.end;
    while j > rows.start {
        j -= 1;
        let row = sheet_pieces(alloc, sheet, j)?;
        above = heights(alloc, &row, &above)?;
        push_counts(&mut list, &above)?;
    }
    Ok(list)
}

/// Writes the stacks that begin in a row: of the pieces with no row of their stack below them, each as high as the heights say.
fn put_row(
    writer: &mut Writer,
    sheet: &Sheet<'_>,
    j: i64,
    levels: &[Counted],
    heights: &[u16],
) -> Result<(), AllocError>
    requires sheet { IsSheet sheet.now }
    requires begun { AreBegun (sheet_raster sheet.now) j levels.now heights.now }
    ensures { OnOk result (Adds writer.old writer.new (flat_map (stack_records (values_of sheet.now.rules.now).fill_cell (sheet_raster sheet.now)) (begun j levels.now heights.now))) }
{
    for k in 0..levels.len() {
        let Counted { piece, rows } = levels[k];
        if rows == 0 {
            let stack = Stack {
                column: piece.start,
                row: j,
                columns: piece.count,
                rows: heights[k],
            };
            put_stack(writer, sheet, stack)?;
        }
    }
    Ok(())
}

/// Writes the stacks of the marked places by their lowest rows upwards.
pub(crate) fn put_rows(
    alloc: Global,
    writer: &mut Writer,
    sheet: &Sheet<'_>,
) -> Result<(), AllocError>
    requires { IsSheet sheet.now }
    ensures { OnOk result (Adds writer.old writer.new (stacks_records (values_of sheet.now.rules.now).fill_cell (sheet_raster sheet.now) (marked_in sheet.now.strips.now))) }
{
    let mut left = stack_heights(alloc, sheet)?;
    let mut below = Vec::new(alloc);
    let rows = sheet.rows();
    for j in rows.start..rows.end {
        let row = sheet_pieces(alloc, sheet, j)?;
        below = levels(alloc, &row, &below)?;
        let others = left.len() - below.len();
        put_row(writer, sheet, j, &below, &left[others..])?;
        left.truncate(others);
    }
    Ok(())
}
