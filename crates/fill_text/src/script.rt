//! The script of edits and its reader.
ghost use Rattle.std.specs.Prelude.{◌≡◌, map};
ghost use Rattle.csv.specs.Records.{fields_of};
ghost use Rattle.fill_text.specs.Refusals.{seen, Gives};
ghost use Rattle.fill_text.specs.Script.{kind_of, change_of, edits_of};
ghost use Rattle.fill_text.specs.declared.script.ScriptError.TheVariants.{Memory};
ghost use Rattle.fill_text.specs.steps.Changes as step;

use crate::numbers::number;
use crate::rows::{field, rows};
use crate::sides::rect_from;
use csv::ByteRecord;
use fill_base::Rect;
use std::alloc::{AllocFailed, Global};
use thiserror::Error;

/// How many records a script may have.
const MOST_RECORDS: u64 = 100_000;

/// A change of the drawn metal or of the keep-outs.
#[derive(Clone, Copy, Debug, PartialEq, Eq)]
pub enum Edit {
    /// The rectangle's squares become metal.
    Add(Rect),
    /// The rectangle's squares are metal no more.
    Cut(Rect),
    /// No box may share a square with the rectangle from now on.
    Keep(Rect),
}

/// Why a script was refused. A line is the number of a record, counted from 1.
#[derive(Clone, Copy, Debug, PartialEq, Eq, Error)]
pub enum ScriptError {
    /// Not five fields, a first field that is none of `add`, `cut` and `keep`, or numbers that make no rectangle.
    #[error("record {line} is no edit")]
    BadRow { line: u64 },
    /// A field that should be a number isn't one.
    #[error("record {line} has a bad number")]
    BadNumber { line: u64 },
    /// A record past the 100,000th.
    #[error("more than 100,000 records")]
    TooManyLines,
    /// An allocation was refused.
    #[error("out of memory")]
    Memory,
}

impl From<csv::Error> for ScriptError {
    ghost from_gives = { λ _ e. e ≡ Memory };

    /// A reader of bytes in memory fails for want of memory alone.
    fn from(_error: csv::Error) -> ScriptError {
        ScriptError::Memory
    }
}

impl<T: Drop> From<AllocFailed<T>> for ScriptError {
    ghost from_gives = { λ _ e. e ≡ Memory };

    fn from(_error: AllocFailed<T>) -> ScriptError {
        ScriptError::Memory
    }
}

/// What an edit does with its rectangle.
#[derive(Clone, Copy)]
pub enum Kind {
    /// Its squares become metal.
    Add,
    /// Its squares are metal no more.
    Cut,
    /// Its squares are kept out of the fill.
    Keep,
}

/// The kind that a record's first field names.
fn kind_named(word: &[u8]) -> Option<Kind>
    ensures { result ≡ kind_of word.now }
{
    if word == b"add".as_slice() {
        Some(Kind::Add)
    } else if word == b"cut".as_slice() {
        Some(Kind::Cut)
    } else if word == b"keep".as_slice() {
        Some(Kind::Keep)
    } else {
        None
    }
}

fn number_in(row: &ByteRecord, i: usize, line: u64) -> Result<i64, ScriptError>
    ensures { result ≡ step.number_in line (fields_of row.now) i }
{
    number(field(row, i)).ok_or(ScriptError::BadNumber { line })
}

/// The edit that one record writes.
#[tactic(auto, unfolding(crate::specs::steps::Changes::change_at))]
fn edit_in(row: &ByteRecord, line: u64) -> Result<Edit, ScriptError>
    ensures { seen change_of result ≡ step.change_at line (fields_of row.now) }
{
    if row.len() != 5 {
        return Err(ScriptError::BadRow { line });
    }
    let kind = kind_named(field(row, 0)).ok_or(ScriptError::BadRow { line })?;
    let x1 = number_in(row, 1, line)?;
    let y1 = number_in(row, 2, line)?;
    let x2 = number_in(row, 3, line)?;
    let y2 = number_in(row, 4, line)?;
    let rect = rect_from(x1, y1, x2, y2).ok_or(ScriptError::BadRow { line })?;
    Ok(match kind {
        Kind::Add => Edit::Add(rect),
        Kind::Cut => Edit::Cut(rect),
        Kind::Keep => Edit::Keep(rect),
    })
}

/// The edits of a script, in its order: records `add,x1,y1,x2,y2`, `cut,x1,y1,x2,y2` and `keep,x1,y1,x2,y2` of comma-separated fields
/// with no header, at most 100,000 of them, with numbers in database units (this project's profile).
///
/// # Errors
/// The first refusal, record by record: `BadRow` for another number of fields or another first field, then `BadNumber`
/// for a field that writes no number, then `BadRow` for numbers that `Rect::new` refuses. A record behind the
/// 100,000th is `TooManyLines`, whatever it holds. `Memory` where memory runs out.
pub fn read_script(alloc: Global, text: &[u8]) -> Result<Vec<Edit>, ScriptError>
    ensures { Gives ScriptError.Memory (λ v. map change_of v.items) result (edits_of text.now) }
{
    let mut edits = Vec::new(alloc);
    let mut line = 0u64;
    for row in rows(alloc, text) {
        let row = row?;
        if line == MOST_RECORDS {
            return Err(ScriptError::TooManyLines);
        }
        line += 1;
        let edit = edit_in(&row, line)?;
        edits.push(edit)?;
    }
    Ok(edits)
}
