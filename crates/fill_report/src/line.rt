//! One line of the report: its numbers and its word.
ghost use Rattle.std.specs.Prelude.{◌≡◌, ◌<◌, ◌++◌, ◌∷◌, [], map, length, ℕ, List, Some, OnOk};
ghost use Rattle.std.specs.Fmt.{signed_decimal};
ghost use Rattle.csv.specs.Records.{fields_of, partial_of};
ghost use Rattle.fill_report.specs.Report.{density_word, line_text};
ghost use Rattle.fill_report.specs.Writing.{IsReady, AllPlain, written};

use crate::error::OutOfMemory;
use csv::{ByteRecord, Writer};
use itoa::Buffer;
use std::alloc::AllocError;

/// Whether a window's density is below the minimum, above the maximum, or neither.
#[derive(Clone, Copy, Debug, PartialEq, Eq)]
pub enum Density {
    /// Below the minimum.
    Low,
    /// Above the maximum.
    High,
    /// Neither.
    Within,
}

impl Density {
    /// The word of the report.
    pub fn word(self) -> &'static [u8]
        ensures { result.now ≡ density_word self }
    {
        match self {
            Density::Low => b"LOW",
            Density::High => b"HIGH",
            Density::Within => b"OK",
        }
    }
}

/// How many squares of a window are drawn, which is metal and existing fill, in fill boxes, and either of both.
#[derive(Clone, Copy, Debug, PartialEq, Eq)]
pub struct Measures {
    /// The area of metal and existing fill together.
    pub drawn: i64,
    /// The fill boxes' area.
    pub fill: i64,
    /// The area of all of them.
    pub total: i64,
}

/// Appends numbers to a record, each in decimal.
fn put_numbers(row: &mut ByteRecord, numbers: &[i64]) -> Result<(), AllocError>
    requires { partial_of row.old ≡ [] }
    ensures fields { OnOk result (fields_of row.new ≡ fields_of row.old ++ map signed_decimal numbers.now) }
    ensures partial { OnOk result (partial_of row.new ≡ []) }
    ensures plain { OnOk result (AllPlain (map signed_decimal numbers.now)) }
{
    let mut digits = Buffer::new();
    for n in numbers {
        row.push_field(digits.format(*n).as_bytes())?;
    }
    Ok(())
}

/// Writes one line: the numbers and the word, with commas between, ended by a line feed.
pub(crate) fn put_line(
    writer: &mut Writer<Vec<u8>>,
    row: &mut ByteRecord,
    numbers: &[i64],
    density: Density,
) -> Result<(), OutOfMemory>
    requires ready { IsReady writer.old }
    requires some { 0 < length numbers.now }
    ensures ready { OnOk result (IsReady writer.new) }
    ensures text { (front : List ℕ) → written writer.old ≡ Some front → OnOk result (written writer.new ≡ Some (front ++ line_text numbers.now density)) }
{
    row.clear();
    put_numbers(row, numbers)?;
    row.push_field(density.word())?;
    writer.write_byte_record(row)?;
    Ok(())
}
