//! One record, well-formed, from the front of the bytes, and its data as an array.

ghost use Rattle.std.specs.Prelude.{◌≡◌, length, IfOk, IfErr};
ghost use Rattle.gds_record.specs.Records.{view};
ghost use Rattle.gds_grammar.specs.Machine.{State};
ghost use Rattle.gds_grammar.specs.steps.Reading.{IsNext, IsNextOf, IsOpen, OnlyTakes, Fails};

use crate::error::{Cause, Refusal, Stop};
use crate::well_formed::is_well;
use gds_record::{Record, RecordError, next_record};

/// The bytes as an array.
pub fn array_of<const N: usize>(bytes: &[u8]) -> [u8; N]
    requires { length bytes.now ≡ N }
    ensures { result ≡ bytes.now }
{
    *bytes.split_first_chunk::<N>().unwrap().0
}

/// The well-formed record that the bytes begin with, and the bytes after it.
#[inline(always)]
pub fn next(bytes: &[u8]) -> Result<(Record<'_>, &[u8]), Stop>
    ensures found { IfOk result (λ x. IsNext bytes.now (view x.0) x.1.now) }
    ensures refused { IfErr result (λ e. (s : State) → IsOpen s → Fails bytes.now s e) }
{
    match next_record(bytes) {
        Ok((found, rest)) => {
            if !is_well(found) {
                return Err(Stop::refused(Refusal::Unexpected, bytes));
            }
            Ok((found, rest))
        }
        Err(RecordError::Truncated) => Err(Stop::Fault(Cause::Truncated, bytes.len())),
        Err(RecordError::BadLength) => Err(Stop::Fault(Cause::BadLength, bytes.len())),
    }
}

/// The data of the record that the bytes begin with, which has to be of this kind, and the bytes
/// after it.
pub fn expect(bytes: &[u8], kind: u8) -> Result<(&[u8], &[u8]), Stop>
    ensures found { IfOk result (λ x. IsNextOf bytes.now kind x.0.now x.1.now) }
    ensures refused { IfErr result (λ e. (s : State) → IsOpen s → OnlyTakes s kind
        → Fails bytes.now s e) }
{
    let (found, rest) = next(bytes)?;
    if found.kind != kind {
        return Err(Stop::refused(Refusal::Unexpected, bytes));
    }
    Ok((found.body, rest))
}
