//! The records of a text and their fields.
ghost use Rattle.std.specs.Prelude.{◌≡◌, [], Some, get_or};
ghost use Rattle.csv.specs.Reading.{owned_rows_left, owned_rows_reader};
ghost use Rattle.csv.specs.Records.{fields_of};
ghost use Rattle.fill_text.specs.Rows.{rows_of};
ghost use Rattle.fill_text.specs.steps.Rows.{StandsBefore};

use csv::{ByteRecord, ByteRecordsIntoIter, ReaderBuilder};
use std::alloc::Global;

/// An iterator over the records of a text, of any number of fields each, with no header among them.
pub fn rows(alloc: Global, text: &[u8]) -> ByteRecordsIntoIter<&[u8]>
    ensures { StandsBefore (λ s. Some s.now) (owned_rows_reader result) (owned_rows_left result) (rows_of text.now) }
{
    ReaderBuilder::new()
        .has_headers(false)
        .flexible(true)
        .from_reader(alloc, text)
        .into_byte_records()
}

/// The field at an index of a record, or no bytes where it has none.
pub fn field(row: &ByteRecord, i: usize) -> &[u8]
    ensures { result.now ≡ get_or (fields_of row.now) i [] }
{
    row.get(i).unwrap_or(&[])
}
