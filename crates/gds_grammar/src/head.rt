//! Reads the records before the first cell.

ghost use Rattle.std.specs.Prelude.{◌≡◌, ◌<◌, [], List, ℕ, length, Ok, IfOk, IfErr, MatchResult};
ghost use Rattle.gds_record.specs.declared.kind.TheConstants as kinds;
ghost use Rattle.gds_record.specs.Records.{view};
ghost use Rattle.gds_grammar.specs.Forms.{among};
ghost use Rattle.gds_grammar.specs.Grammar.{all_rules, library_kinds};
ghost use Rattle.gds_grammar.specs.Machine.{Start, Dated, Between, fine, refuse, next_state};
ghost use Rattle.gds_grammar.specs.steps.Reading.{Reaches, Fails, parts_state, after_part};

use crate::error::{Refusal, Stop};
use crate::next::{array_of, expect, next};
use gds_record::{Record, kind};

/// What a record between BGNLIB and UNITS comes to.
#[derive(Clone, Copy)]
pub enum Part {
    /// More follow; with a LIBNAME so far, or without.
    More(bool),
    /// UNITS: the last of them.
    Last,
}

/// What stands before the cells.
#[derive(Clone, Copy)]
pub struct Head {
    pub dates: [u8; 24],
    pub units: [u8; 16],
}

fn is_library_kind(kind: u8) -> bool
    ensures { result ≡ among library_kinds kind }
{
    matches!(
        kind,
        kind::REFLIBS
            | kind::FONTS
            | kind::ATTRTABLE
            | kind::GENERATIONS
            | kind::FORMAT
            | kind::MASK
            | kind::ENDMASKS
            | kind::LIBDIRSIZE
            | kind::SRFNAME
            | kind::LIBSECUR
    )
}

/// What a record among the library parts comes to.
#[tactic(auto, unfolding(crate::specs::Machine::next_state))]
fn part_of(titled: bool, found: Record<'_>) -> Result<Part, Refusal>
    ensures leads { MatchResult result
        (λ part. (dates : List ℕ) →
        next_state all_rules (parts_state titled dates) (view found.entry)
        ≡ fine (after_part part dates found.entry.body.now))
        (λ e. (dates : List ℕ) →
        next_state all_rules (parts_state titled dates) (view found.entry) ≡ refuse e) }
    ensures last { IfOk result (λ part. part ≡ Part.Last → found.entry.kind ≡ kinds.UNITS) }
{
    if titled {
        if is_library_kind(found.kind) {
            Ok(Part::More(true))
        } else if found.kind == kind::UNITS {
            Ok(Part::Last)
        } else {
            Err(Refusal::Unexpected)
        }
    } else if found.kind == kind::LIBNAME {
        Ok(Part::More(true))
    } else if is_library_kind(found.kind) {
        Ok(Part::More(false))
    } else {
        Err(Refusal::Unexpected)
    }
}

/// What the record at the front comes to among the library parts, its data, and the bytes after it.
fn next_part(titled: bool, bytes: &[u8]) -> Result<(Part, &[u8], &[u8]), Stop>
    ensures shorter { IfOk result (λ x. length x.2.now < length bytes.now) }
    ensures size { IfOk result (λ x. x.0 ≡ Part.Last → length x.1.now ≡ 16) }
    ensures found { IfOk result (λ x. (dates : List ℕ) →
        Reaches bytes.now (parts_state titled dates) x.2.now (after_part x.0 dates x.1.now)) }
    ensures refused { IfErr result (λ e. (dates : List ℕ) →
        Fails bytes.now (parts_state titled dates) e) }
{
    let (found, rest) = next(bytes)?;
    match part_of(titled, found) {
        Ok(part) => Ok((part, found.body, rest)),
        Err(refusal) => Err(Stop::refused(refusal, bytes)),
    }
}

/// The data of UNITS, and the bytes after it.
fn read_parts(bytes: &[u8]) -> Result<(&[u8], &[u8]), Stop>
    ensures size { IfOk result (λ x. length x.0.now ≡ 16) }
    ensures found { IfOk result (λ x. (dates : List ℕ) →
        Reaches bytes.now (Dated dates) x.1.now
        (Between (record { dates = dates; units = x.0.now; cells = [] }))) }
    ensures refused { IfErr result (λ e. (dates : List ℕ) → Fails bytes.now (Dated dates) e) }
{
    let mut rest = bytes;
    let mut titled = false;
    'parts: loop {
        let (part, body, after) = next_part(titled, rest)?;
        match part {
            Part::More(now) => titled = now,
            Part::Last => return Ok((body, after)),
        }
        rest = after;
    }
}

/// Dates and units of a library, and the bytes from its first cell on.
pub fn read_head(bytes: &[u8]) -> Result<(Head, &[u8]), Stop>
    ensures found { IfOk result (λ x.
        Reaches bytes.now Start x.1.now
        (Between (record { dates = x.0.dates; units = x.0.units; cells = [] }))) }
    ensures refused { IfErr result (λ e. Fails bytes.now Start e) }
{
    let (_header, rest) = expect(bytes, kind::HEADER)?;
    let (dates, rest) = expect(rest, kind::BGNLIB)?;
    let (units, rest) = read_parts(rest)?;
    let head = Head {
        dates: array_of(dates),
        units: array_of(units),
    };
    Ok((head, rest))
}
