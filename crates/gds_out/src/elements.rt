//! The elements of a fill library: the boundary of one box, and references to its cell.

ghost use Rattle.std.specs.Prelude.{◌≡◌, ◌≤◌, ◌≤ℤ◌, ◌+ℤ◌, ◌*ℤ◌, ◌==◌, ◌&&◌, pos, negsuc, length, OnOk};
ghost use Rattle.fill_base.specs.Limits.{IsLength};
ghost use Rattle.fill_raster.specs.Axes.{box_begin};
ghost use Rattle.gds_record.specs.Numbers.{IsStored};
ghost use Rattle.fill_text.specs.ValuesOfRules.{values_of};
ghost use Rattle.gds_out.specs.FillText.{cell_records, reference_records, array_records, stack_records};
ghost use Rattle.gds_out.specs.Strips.{IsSheet, sheet_raster};
ghost use Rattle.gds_out.specs.steps.Ranges.{at, three_points, IsArray, IsStackOf};
ghost use Rattle.gds_out.specs.steps.Writing.{Adds};

use crate::sheet::Sheet;
use crate::writer::Writer;
use fill_base::Point;
use fill_stacks::Stack;
use fill_text::Rules;
use gds_record::{form, kind};
use std::alloc::AllocError;

/// Writes a reference to a cell, moved to a point.
fn put_reference(writer: &mut Writer, cell: &[u8], corner: Point) -> Result<(), AllocError>
    requires name { length cell.now ≤ 32 }
    requires corner { IsStored corner }
    ensures { OnOk result (Adds writer.old writer.new (reference_records cell.now corner.x corner.y)) }
{
    writer.put(kind::SREF, form::NONE, &[])?;
    writer.put_name(kind::SNAME, cell)?;
    writer.put_points(&[corner])?;
    writer.put(kind::ENDEL, form::NONE, &[])?;
    Ok(())
}

/// A number, and so many steps behind it.
fn moved(from: i64, step: i64, count: u16) -> i64
    requires low { negsuc 2147483647 ≤ℤ from }
    requires high { from ≤ℤ pos 2147483647 }
    requires step { IsLength step }
    ensures { result ≡ from +ℤ (pos count *ℤ step) }
{
    from + i64::from(count) * step
}

/// The three points of an array: the first corner, the one behind the last column, the one above the last row.
fn array_points(corner: Point, step: Point, stack: Stack) -> [Point; 3]
    requires { IsArray corner step stack.columns stack.rows }
    ensures { result ≡ three_points corner step stack.columns stack.rows }
{
    let behind = Point {
        x: moved(corner.x, step.x, stack.columns),
        y: corner.y,
    };
    let above = Point {
        x: corner.x,
        y: moved(corner.y, step.y, stack.rows),
    };
    [corner, behind, above]
}

/// Writes an array of references to a cell, of the stack's columns and rows: the first moved to a point, each further one a step to
/// the right, and each further row a step up.
fn put_array(
    writer: &mut Writer,
    cell: &[u8],
    corner: Point,
    step: Point,
    stack: Stack,
) -> Result<(), AllocError>
    requires name { length cell.now ≤ 32 }
    requires array { IsArray corner step stack.columns stack.rows }
    ensures { OnOk result (Adds writer.old writer.new (array_records cell.now stack.columns stack.rows step.x step.y corner.x corner.y)) }
{
    writer.put(kind::AREF, form::NONE, &[])?;
    writer.put_name(kind::SNAME, cell)?;
    writer.put_words(kind::COLROW, stack.columns, stack.rows)?;
    writer.put_points(&array_points(corner, step, stack))?;
    writer.put(kind::ENDEL, form::NONE, &[])?;
    Ok(())
}

/// Whether a stack is one box alone.
fn is_one_box(stack: Stack) -> bool
    ensures { result ≡ (stack.columns == 1) && (stack.rows == 1) }
{
    stack.columns == 1 && stack.rows == 1
}

/// The lower left corner of the first box of a stack.
fn corner_of(sheet: &Sheet<'_>, stack: Stack) -> Point
    requires sheet { IsSheet sheet.now }
    requires stack { IsStackOf (sheet_raster sheet.now) stack }
    ensures { result ≡ at (box_begin (sheet_raster sheet.now).across stack.column) (box_begin (sheet_raster sheet.now).up stack.row) }
{
    let rules = sheet.rules;
    Point {
        x: rules.origin_x() + stack.column * rules.step_x(),
        y: rules.origin_y() + stack.row * rules.step_y(),
    }
}

/// Writes a reference, or for more than one box an array, for a stack of boxes.
pub(crate) fn put_stack(
    writer: &mut Writer,
    sheet: &Sheet<'_>,
    stack: Stack,
) -> Result<(), AllocError>
    requires sheet { IsSheet sheet.now }
    requires stack { IsStackOf (sheet_raster sheet.now) stack }
    ensures { OnOk result (Adds writer.old writer.new (stack_records (values_of sheet.now.rules.now).fill_cell (sheet_raster sheet.now) stack)) }
{
    let rules = sheet.rules;
    let corner = corner_of(sheet, stack);
    if is_one_box(stack) {
        return put_reference(writer, rules.fill_cell(), corner);
    }
    let step = Point {
        x: rules.step_x(),
        y: rules.step_y(),
    };
    put_array(writer, rules.fill_cell(), corner, step, stack)
}

/// Writes the cell of one box.
pub(crate) fn put_cell(
    writer: &mut Writer,
    dates: &[u8; 24],
    rules: &Rules,
) -> Result<(), AllocError>
    ensures { OnOk result (Adds writer.old writer.new (cell_records dates.now (values_of rules.now))) }
{
    let (width, height) = (rules.box_w(), rules.box_h());
    let layer = rules.fill_layer();
    writer.put(kind::BGNSTR, form::WORDS, dates)?;
    writer.put_name(kind::STRNAME, rules.fill_cell())?;
    writer.put(kind::BOUNDARY, form::NONE, &[])?;
    writer.put_word(kind::LAYER, layer.layer)?;
    writer.put_word(kind::DATATYPE, layer.data_type)?;
    writer.put_points(&[
        Point { x: 0, y: 0 },
        Point { x: 0, y: height },
        Point {
            x: width,
            y: height,
        },
        Point { x: width, y: 0 },
        Point { x: 0, y: 0 },
    ])?;
    writer.put(kind::ENDEL, form::NONE, &[])?;
    writer.put(kind::ENDSTR, form::NONE, &[])?;
    Ok(())
}
