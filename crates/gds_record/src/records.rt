//! A record as it stands in a stream.

ghost use Rattle.std.specs.Prelude.{◌≡◌, ◌+◌, ◌≤◌, ◌↔◌, ◌++◌, ℕ, List, length, Result, Ok, Err, IfOk, OnErr, OnOk};
ghost use Rattle.gds_record.specs.Records.{Rec, IsRecord, IsEven, view, spelling, length_of, IsBadLength, IsTruncated};
ghost use Rattle.gds_record.specs.Reading.{Gives, at_front, size_of, record_at};

use std::alloc::AllocError;
use thiserror::Error;

/// One record of a stream.
#[derive(Clone, Copy, Debug)]
pub struct Record<'a> {
    /// What the record says, one of the constants of `kind` where the manual has it.
    pub kind: u8,
    /// What its data consists of, one of the constants of `form` where the manual has it.
    pub form: u8,
    /// Its data, without the four bytes of the header.
    pub body: &'a [u8],
}

/// Why no record stands at a place.
#[derive(Clone, Copy, Debug, PartialEq, Eq, Error)]
pub enum RecordError {
    /// Fewer bytes are left than the record's length says, or than a length takes.
    #[error("the bytes end within a record")]
    Truncated,
    /// The record's length is odd, or less than the four bytes of its header.
    #[error("a record's length is odd or less than four")]
    BadLength,
}

/// How many bytes of data a record has whose length is given by these two bytes.
fn body_len(high: u8, low: u8) -> Result<usize, RecordError>
    ensures { Gives (λ n. n) result (size_of (length_of high low)) }
{
    let length = usize::from(u16::from_be_bytes([high, low]));
    if length < 4 || length % 2 == 1 {
        return Err(RecordError::BadLength);
    }
    Ok(length - 4)
}

#[tactic(auto, unfolding(crate::specs::Reading::record_at))]
fn split_record(bytes: &[u8]) -> Result<(Record<'_>, &[u8]), RecordError>
    ensures { Gives at_front result (record_at bytes.now) }
{
    match bytes {
        [high, low, kind, form, rest @ ..] => {
            let size = body_len(*high, *low)?;
            if rest.len() < size {
                return Err(RecordError::Truncated);
            }
            let (body, rest) = rest.split_at(size);
            Ok((
                Record {
                    kind: *kind,
                    form: *form,
                    body,
                },
                rest,
            ))
        }
        [high, low, ..] => {
            body_len(*high, *low)?;
            Err(RecordError::Truncated)
        }
        _ => Err(RecordError::Truncated),
    }
}

/// The record that the bytes begin with, and the bytes after it. Its length counts the four bytes
/// of the header (Calma GDSII Stream Format Manual, release 6.0); a length that can be read is
/// judged before the bytes are counted.
pub fn next_record(bytes: &[u8]) -> Result<(Record<'_>, &[u8]), RecordError>
    // What is read is spelled so.
    ensures found { IfOk result (λ x. IsRecord (view x.0)
        × (bytes.now ≡ spelling (view x.0) ++ x.1.now)) }
    // What is spelled so is read, whatever follows it.
    ensures only { (r : Rec) (rest : List ℕ) → IsRecord r → bytes.now ≡ spelling r ++ rest
        → Gives at_front result (Ok (r, rest)) }

    ensures bad_length { (result ≡ Err RecordError.BadLength) ↔ IsBadLength bytes.now }
    ensures truncated { (result ≡ Err RecordError.Truncated) ↔ IsTruncated bytes.now }
{
    split_record(bytes)
}

/// Writes a record at the end.
///
/// # Errors
/// `AllocError` where memory is refused; nothing is written then.
pub fn put_record(out: &mut Vec<u8>, kind: u8, form: u8, body: &[u8]) -> Result<(), AllocError>
    requires short { length body.now ≤ 65530 }
    requires even { IsEven (length body.now) }
    ensures written { OnOk result (out.new.items
        ≡ out.old.items ++ spelling (record { kind = kind; form = form; body = body.now })) }
    ensures unchanged { OnErr result (out.new.items ≡ out.old.items) }
{
    out.reserve(body.len() + 4)?;
    let length = body.len() as u16 + 4;
    out.extend_from_slice(&length.to_be_bytes())?;
    out.push(kind)?;
    out.push(form)?;
    out.extend_from_slice(body)?;
    Ok(())
}

/// No record's bytes begin another's: of one text, only one record stands at the front.
pub fn no_spelling_begins_another()
    ensures { (r s : Rec) (x y : List ℕ) → IsRecord r → IsRecord s
        → spelling r ++ x ≡ spelling s ++ y → (r ≡ s) × (x ≡ y) }
{}
