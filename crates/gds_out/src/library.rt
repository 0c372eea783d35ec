//! The fill library as a text.

ghost use Rattle.std.specs.Prelude.{◌≡◌, OnOk, IfOk};
ghost use Rattle.fill_text.specs.Rules.{raster_of};
ghost use Rattle.fill_text.specs.ValuesOfRules.{values_of};
ghost use Rattle.gds_out.specs.FillText.{fill_text, fill_text_on, head_records, top_records_on};
ghost use Rattle.gds_out.specs.Places.{AreOfTiles, marked_by};
ghost use Rattle.gds_out.specs.Strips.{IsSheet, marked_in, sheet_raster};
ghost use Rattle.gds_out.specs.steps.Writing.{Adds};

use crate::elements::put_cell;
use crate::rows::put_rows;
use crate::sheet::{Sheet, Strip};
use crate::writer::Writer;
use fill_raster::{Axis, Marks};
use fill_text::Rules;
use gds_record::{form, kind};
use std::alloc::{AllocError, Global};

/// Writes what stands before the cells.
fn put_head(
    writer: &mut Writer,
    units: &[u8; 16],
    dates: &[u8; 24],
    rules: &Rules,
) -> Result<(), AllocError>
    ensures { OnOk result (Adds writer.old writer.new (head_records units.now dates.now (values_of rules.now))) }
{
    writer.put_word(kind::HEADER, 600)?;
    writer.put(kind::BGNLIB, form::WORDS, dates)?;
    writer.put_name(kind::LIBNAME, rules.fill_lib())?;
    writer.put(kind::UNITS, form::REALS, units)?;
    Ok(())
}

/// Writes the cell that refers to each box.
fn put_top(
    alloc: Global,
    writer: &mut Writer,
    dates: &[u8; 24],
    sheet: &Sheet<'_>,
) -> Result<(), AllocError>
    requires { IsSheet sheet.now }
    ensures { OnOk result (Adds writer.old writer.new (top_records_on dates.now (values_of sheet.now.rules.now) (sheet_raster sheet.now) (marked_in sheet.now.strips.now))) }
{
    writer.put(kind::BGNSTR, form::WORDS, dates)?;
    writer.put_name(kind::STRNAME, sheet.rules.fill_top())?;
    put_rows(alloc, writer, sheet)?;
    writer.put(kind::ENDSTR, form::NONE, &[])?;
    Ok(())
}

/// The text of the fill library of a sheet, whose raster may have any number of places: a cell of one box, and a top cell that refers
/// to it once for each marked place, by an array for equal pieces of rows that stand on one another. Units and dates are those of the
/// design (Calma GDSII Stream Format Manual, release 6.0, with this project's profile).
///
/// # Errors
/// `AllocError` where memory is refused.
pub fn sheet_library(
    alloc: Global,
    units: &[u8; 16],
    dates: &[u8; 24],
    sheet: &Sheet<'_>,
) -> Result<Vec<u8>, AllocError>
    requires { IsSheet sheet.now }
    ensures { IfOk result (λ text. text.items ≡ fill_text_on units.now dates.now (values_of sheet.now.rules.now) (sheet_raster sheet.now) (marked_in sheet.now.strips.now)) }
{
    let mut writer = Writer::new(alloc);
    put_head(&mut writer, units, dates, sheet.rules)?;
    put_cell(&mut writer, dates, sheet.rules)?;
    put_top(alloc, &mut writer, dates, sheet)?;
    writer.put(kind::ENDLIB, form::NONE, &[])?;
    Ok(writer.text)
}

/// The rows of the rules' raster.
fn rows_of(rules: &Rules) -> Axis
    ensures { result ≡ (raster_of (values_of rules.now).numbers).up }
{
    Axis {
        low: rules.frame_y1(),
        high: rules.frame_y2(),
        length: rules.box_h(),
        step: rules.step_y(),
        origin: rules.origin_y(),
        band: rules.tile_ny() as u32,
    }
}

/// The text of the fill library, as `sheet_library` writes it. The marks are those of each tile, in the order of the tiles, of the
/// raster of these rules.
///
/// # Errors
/// `AllocError` where memory is refused.
pub fn fill_library(
    alloc: Global,
    units: &[u8; 16],
    dates: &[u8; 24],
    rules: &Rules,
    marks: Vec<&Marks>,
) -> Result<Vec<u8>, AllocError>
    requires { AreOfTiles (raster_of (values_of rules.now).numbers) marks.items }
    ensures { IfOk result (λ text. text.items ≡ fill_text units.now dates.now (values_of rules.now) (marked_by marks.entry.items)) }
{
    let strip = Strip {
        raster: rules.raster(),
        marks,
    };
    let sheet = Sheet {
        rules,
        up: rows_of(rules),
        strips: &[strip],
    };
    sheet_library(alloc, units, dates, &sheet)
}
