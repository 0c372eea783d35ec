//! Reads a library record by record, in one pass.

ghost use Rattle.std.specs.Prelude.{◌≡◌, ◌++◌, ◌∷◌, [], false, map, OnOk, ◌⊎◌, ◌<◌, ◌≤◌, length, IfOk, IfErr, MatchResult};
ghost use Rattle.gds_grammar.specs.Values.{cell_of, shape_of, Contents, contents_of};
ghost use Rattle.gds_grammar.specs.Layers.{kept, of_layers};
ghost use Rattle.gds_grammar.specs.Grammar.{has_name};
ghost use Rattle.gds_grammar.specs.Machine.{Start, Between, Opened, Done};
ghost use Rattle.gds_grammar.specs.steps.Reading.{Fails, after_cell, left_of, error_of};
ghost use Rattle.gds_grammar.specs.steps.Keeping.{keeps, Leads};
ghost use Rattle.gds_grammar.specs.Outcomes.{Spells, IsFault, IsRefused};

use crate::cell::read_elements;
use crate::element::Element;
use crate::error::{Cause, LibraryError, Refusal, Stop};
use crate::head::{Head, read_head};
use crate::next::{expect, next};
use crate::wanted::Wanted;
use fill_base::Layer;
use gds_record::{kind, name};
use indexmap::IndexMap;
use std::alloc::{AllocError, Global};
use std::hash::{BuildHasherDefault, DefaultHasher};

/// The elements of each cell in the order of the file, by the cell's name, in the order of the file. Names are found by SipHash, which no
/// file can steer: a hostile one can't make all of its names fall on one another.
pub type Cells<'a> = IndexMap<Vec<u8>, Vec<Element<'a>>, BuildHasherDefault<DefaultHasher>>;

/// A library: its cells, which the manual calls structures, by their names in the order of the
/// file.
#[derive(Debug, Drop)]
pub struct Library<'a> {
    /// The data of BGNLIB: twelve words, the dates of the last change and access.
    pub dates: [u8; 24],
    /// The data of UNITS: two reals, a database unit in user units and in metres.
    pub units: [u8; 16],
    /// The elements of each cell in the order of the file, by the cell's name without the
    /// zero bytes at its end.
    pub cells: Cells<'a>,
}

/// Whether a cell has the name.
pub fn has_cell(cells: &Cells<'_>, name: &[u8]) -> bool
    ensures { result ≡ has_name (map cell_of cells.now.entries) name.now }
{
    cells.contains_key(name)
}

/// Puts a cell at the end.
pub fn add_cell<'a>(
    cells: &mut Cells<'a>,
    name: Vec<u8>,
    elements: Vec<Element<'a>>,
) -> Result<(), AllocError>
    requires { has_name (map cell_of cells.old.entries) name.items ≡ false }
    ensures { OnOk result (map cell_of cells.new.entries
        ≡ map cell_of cells.old.entries
        ++ record { name = name.items; shapes = map shape_of elements.entry.items } ∷ []) }
{
    cells.insert(name, elements)?;
    Ok(())
}

/// Reads what is kept of one cell behind its BGNSTR to the end of the library; the bytes after it.
fn read_cell<'a>(
    alloc: Global,
    wanted: Wanted<'_>,
    library: &mut Library<'a>,
    bytes: &'a [u8],
) -> Result<&'a [u8], Stop>
    ensures found { IfOk result (λ rest. (l : Contents) → kept (keeps wanted.entry) l ≡ contents_of library.old →
        Leads (keeps wanted.entry) bytes.now (Opened l) rest.now Between (contents_of library.new)) }
    ensures shorter { IfOk result (λ rest. length rest.now ≤ length bytes.now) }
    ensures refused { IfErr result (λ e. (l : Contents) → kept (keeps wanted.entry) l ≡ contents_of library.old →
        Fails bytes.now (Opened l) e) }
{
    let (body, after) = expect(bytes, kind::STRNAME)?;
    let cell = name(body);
    if has_cell(&library.cells, cell) {
        return Err(Stop::refused(Refusal::DuplicateCell, bytes));
    }
    let (elements, rest) = read_elements(alloc, wanted, after)?;
    let cell = Vec::from_slice(alloc, cell)?;
    add_cell(&mut library.cells, cell, elements)?;
    Ok(rest)
}

/// Reads what is kept of one cell to the end of the library, or passes ENDLIB; whether that was it,
/// and the bytes after it.
fn next_cell<'a>(
    alloc: Global,
    wanted: Wanted<'_>,
    library: &mut Library<'a>,
    bytes: &'a [u8],
) -> Result<(bool, &'a [u8]), Stop>
    ensures shorter { IfOk result (λ x. length x.1.now < length bytes.now) }
    ensures found { IfOk result (λ x. (l : Contents) → kept (keeps wanted.entry) l ≡ contents_of library.old →
        Leads (keeps wanted.entry) bytes.now (Between l) x.1.now (after_cell x.0) (contents_of library.new)) }
    ensures refused { IfErr result (λ e. (l : Contents) → kept (keeps wanted.entry) l ≡ contents_of library.old →
        Fails bytes.now (Between l) e) }
{
    let (found, after) = next(bytes)?;
    match found.kind {
        kind::BGNSTR => {
            let rest = read_cell(alloc, wanted, library, after)?;
            Ok((false, rest))
        }
        kind::ENDLIB => Ok((true, after)),
        _ => Err(Stop::refused(Refusal::Unexpected, bytes)),
    }
}

/// What is kept of the library that the bytes begin with, and the bytes behind its ENDLIB.
fn read<'a>(
    alloc: Global,
    wanted: Wanted<'_>,
    bytes: &'a [u8],
) -> Result<(Library<'a>, &'a [u8]), Stop>
    ensures found { IfOk result (λ x. Leads (keeps wanted.entry) bytes.now Start x.1.now Done (contents_of x.0)) }
    ensures refused { IfErr result (λ e. Fails bytes.now Start e) }
{
    let (Head { dates, units }, behind) = read_head(bytes)?;
    let mut library = Library {
        dates,
        units,
        cells: IndexMap::with_hasher(alloc, BuildHasherDefault::new()),
    };
    let mut rest = behind;
    'cells: loop {
        let (ended, after) = next_cell(alloc, wanted, &mut library, rest)?;
        if ended {
            return Ok((library, after));
        }
        rest = after;
    }
}

/// A fault as callers see it, with the offset of its record.
fn error_of(stop: Stop, total: usize) -> LibraryError
    requires { left_of stop ≤ total }
    ensures { result ≡ error_of stop total }
{
    match stop {
        Stop::Memory => LibraryError::Memory,
        Stop::Fault(Cause::Truncated, _) => LibraryError::Truncated,
        Stop::Fault(Cause::BadLength, _) => LibraryError::BadLength,
        Stop::Fault(Cause::Refused(refusal), left) => match refusal {
            Refusal::Unexpected => LibraryError::Unexpected { at: total - left },
            Refusal::BadXY => LibraryError::BadXY,
            Refusal::NotClosed => LibraryError::NotClosed,
            Refusal::DuplicateCell => LibraryError::DuplicateCell,
        },
    }
}

/// The library that the bytes begin with; what follows its ENDLIB isn't looked at. Points and the names
/// in references stay in the bytes; names of cells and the reals of references are copied (Calma GDSII Stream Format Manual,
/// release 6.0, with this project's profile: records before XY in any order, checked lengths).
///
/// # Errors
/// The first fault from the front, as `LibraryError` says, or `Memory` where memory is refused.
pub fn read_library(alloc: Global, bytes: &[u8]) -> Result<Library<'_>, LibraryError>
    // What is read is what the grammar says of records at the front, of which ENDLIB is the last.
    ensures ok { IfOk result (λ library. Spells bytes.now (contents_of library)) }
    // What is spelled so is read, unless memory runs out.
    ensures only { (value : Contents) → Spells bytes.now value
        → MatchResult result (λ library. contents_of library ≡ value)
        (λ e. e ≡ LibraryError.Memory) }
    // An error tells of a fault that is there, and a fault that is there is told of, unless memory
    // runs out.
    ensures refused { IfErr result (λ e. IsRefused bytes.now e) }
    ensures exact { (e : LibraryError) → IsFault bytes.now e
        → MatchResult result (λ _. ⊥) (λ told. (told ≡ LibraryError.Memory) ⊎ (told ≡ e)) }
{
    read_wanted(alloc, Wanted::Every, bytes)
}

/// The library that the bytes begin with, without the boundaries and paths of other layers than these.
/// It has all cells and references, and a fault is told of as `read_library` tells it, on whatever
/// layer it is.
///
/// # Errors
/// Those of `read_library`.
pub fn read_layers<'a>(
    alloc: Global,
    bytes: &'a [u8],
    layers: &[Layer],
) -> Result<Library<'a>, LibraryError>
    // What is read is what the library says of these layers.
    ensures ok { IfOk result (λ library. (value : Contents) × Spells bytes.now value
        × (contents_of library ≡ of_layers layers.now value)) }
    // What is spelled is read so, unless memory runs out.
    ensures only { (value : Contents) → Spells bytes.now value
        → MatchResult result (λ library. contents_of library ≡ of_layers layers.now value)
        (λ e. e ≡ LibraryError.Memory) }
    // The faults are those of the whole library.
    ensures refused { IfErr result (λ e. IsRefused bytes.now e) }
    ensures exact { (e : LibraryError) → IsFault bytes.now e
        → MatchResult result (λ _. ⊥) (λ told. (told ≡ LibraryError.Memory) ⊎ (told ≡ e)) }
{
    read_wanted(alloc, Wanted::These(layers), bytes)
}

/// What is kept of the library that the bytes begin with.
fn read_wanted<'a>(
    alloc: Global,
    wanted: Wanted<'_>,
    bytes: &'a [u8],
) -> Result<Library<'a>, LibraryError>
    ensures ok { IfOk result (λ library. (value : Contents) × Spells bytes.now value
        × (contents_of library ≡ kept (keeps wanted.entry) value)) }
    ensures only { (value : Contents) → Spells bytes.now value
        → MatchResult result (λ library. contents_of library ≡ kept (keeps wanted.entry) value)
        (λ e. e ≡ LibraryError.Memory) }
    ensures refused { IfErr result (λ e. IsRefused bytes.now e) }
    ensures exact { (e : LibraryError) → IsFault bytes.now e
        → MatchResult result (λ _. ⊥) (λ told. (told ≡ LibraryError.Memory) ⊎ (told ≡ e)) }
{
    match read(alloc, wanted, bytes) {
        Ok((library, _)) => Ok(library),
        Err(stop) => Err(error_of(stop, bytes.len())),
    }
}
