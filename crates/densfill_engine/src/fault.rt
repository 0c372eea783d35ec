//! The table of faults: for each its number, its name and what follows the name in the fault line.
ghost use Rattle.std.specs.Prelude.{◌≡◌, IfOk, string_bytes};
ghost use Rattle.densfill_engine.specs.Faults.{fault_ending, fault_name, fault_number, fault_status, in_part};
ghost use Rattle.densfill_engine.specs.Faults as spec;

use densfill_io::InputError;
use fill_text::{Key, RuleError, ScriptError};
use gds_flatten::FlattenError;
use gds_grammar::LibraryError;
use gds_join::PartError;
use std::alloc::{AllocError, Global};

/// A row of the table of faults. A line is the number of a record, counted from 1.
#[derive(Clone, Copy)]
pub(crate) enum Fault {
    /// The design ends within a record, or before its last one.
    Truncated,
    /// A record of the design has an impossible length.
    BadLength,
    /// A record of the design that stands where none of its kind may, from this byte on.
    Unexpected { at: u64 },
    /// Two cells of one name.
    DuplicateCell,
    /// Points of another number or length than the element has.
    BadXY,
    /// A boundary whose last point isn't its first.
    NotClosed,
    /// An array without columns or rows, with too many, or with steps that are no whole numbers.
    BadArray,
    /// A shape with a slanted edge.
    NotManhattan,
    /// A path with round ends.
    RoundEnd,
    /// A path of odd width.
    OddWidth,
    /// A path that turns back on itself.
    DoublesBack,
    /// A path with a negative extension.
    BadExtension,
    /// A design without the top.
    NoTop,
    /// A reference to a cell that isn't there.
    MissingCell,
    /// A cell that refers to itself, at once or through others.
    Cycle,
    /// A chain of more than 256 cells.
    TooDeep,
    /// More than 4,000,000 copies of shapes.
    TooManyShapes,
    /// More than 4,000,000 copies of shapes that meet the rectangle of a part.
    TooManyShapesIn { number: u32, count: u32 },
    /// A copy of a shape that passes the coordinates.
    OutOfRange,
    /// A reference that is magnified, or turned by other than quarter turns.
    BadTransform,
    /// A record that is no rule or no edit.
    BadRow { line: u64 },
    /// A field that should be a number and isn't one.
    BadNumber { line: u64 },
    /// A rule that is missing, or whose value its key doesn't allow.
    BadRule { key: Key },
    /// A script of more than 100,000 records.
    TooManyLines,
    /// A frame that holds no square.
    BadRect,
    /// Too many windows, or one that leaves the range of coordinates.
    BadWindows,
    /// Too many windows in the rows that a part looks at.
    BadWindowsIn { number: u32, count: u32 },
    /// A step below the side of a box and the fill spacing.
    BadPitch,
    /// Too many places for a box.
    TooManyPlaces,
    /// Too many places for a box in the rows of tiles that a part looks at.
    TooManyPlacesIn { number: u32, count: u32 },
    /// An input of more than 2^31 bytes.
    TooLong,
    /// A file could not be opened, read or written.
    Device,
    /// An allocation was refused.
    Memory,
    /// A tile of the fill isn't in.
    Unfinished,
    /// A run gave back a book whose edits do not begin those that it was given.
    Mixed,
    /// A library that is no fill library of the rules.
    NotAFill,
    /// Units or dates other than the first part's.
    OtherDesign,
    /// A place that two parts fill.
    PlaceTwice,
    /// A place out of the part's rows of tiles.
    OtherRows,
}

/// The part that has too much of something, as a fault line ends.
fn in_part(alloc: Global, number: u32, count: u32) -> Result<String, AllocError>
    ensures { IfOk result (λ s. string_bytes s ≡ in_part number count) }
{
    format!(in alloc; " in part {number} of {count}, try more parts")
}

impl Fault {
    /// The fault's row of the table: its number and its name (this project's profile).
    pub(crate) fn row(self) -> (u8, &'static str)
        ensures number { result.0 ≡ fault_number self }
        ensures name { result.1.now ≡ fault_name self }
    {
        match self {
            Fault::Truncated => (1, "Truncated"),
            Fault::BadLength => (2, "BadLength"),
            Fault::Unexpected { at: _ } => (4, "Unexpected"),
            Fault::DuplicateCell => (5, "DuplicateCell"),
            Fault::BadXY => (6, "BadXY"),
            Fault::NotClosed => (7, "NotClosed"),
            Fault::BadArray => (8, "BadArray"),
            Fault::NotManhattan => (9, "NotManhattan"),
            Fault::RoundEnd => (10, "RoundEnd"),
            Fault::OddWidth => (11, "OddWidth"),
            Fault::DoublesBack => (12, "DoublesBack"),
            Fault::BadExtension => (13, "BadExtension"),
            Fault::NoTop => (14, "NoTop"),
            Fault::MissingCell => (15, "MissingCell"),
            Fault::Cycle => (16, "Cycle"),
            Fault::TooDeep => (17, "TooDeep"),
            Fault::TooManyShapes | Fault::TooManyShapesIn { .. } => (18, "TooManyShapes"),
            Fault::OutOfRange => (19, "OutOfRange"),
            Fault::BadTransform => (20, "BadTransform"),
            Fault::BadRow { line: _ } => (21, "BadRow"),
            Fault::BadNumber { line: _ } => (22, "BadNumber"),
            Fault::BadRule { key: _ } => (23, "BadRule"),
            Fault::TooManyLines => (24, "TooManyLines"),
            Fault::BadRect => (25, "BadRect"),
            Fault::BadWindows | Fault::BadWindowsIn { .. } => (26, "BadWindows"),
            Fault::BadPitch => (27, "BadPitch"),
            Fault::TooManyPlaces | Fault::TooManyPlacesIn { .. } => (28, "TooManyPlaces"),
            Fault::TooLong => (29, "TooLong"),
            Fault::Device => (30, "Device"),
            Fault::Memory => (31, "Memory"),
            Fault::Unfinished => (34, "Unfinished"),
            Fault::Mixed => (35, "Mixed"),
            Fault::NotAFill => (39, "NotAFill"),
            Fault::OtherDesign => (40, "OtherDesign"),
            Fault::PlaceTwice => (41, "PlaceTwice"),
            Fault::OtherRows => (42, "OtherRows"),
        }
    }

    /// The exit status of the program: 6 for a book that a run mixed up, 5 for a fill that is not complete, 4 for a device fault,
    /// 3 for want of memory, and 2 for a refused input.
    pub(crate) fn status(self) -> u8
        ensures { result ≡ fault_status (fault_number self) }
    {
        match self.row().0 {
            30 => 4,
            31 => 3,
            34 => 5,
            35 => 6,
            _ => 2,
        }
    }

    /// What follows the name in the fault line.
    pub(crate) fn ending(self, alloc: Global) -> Result<String, AllocError>
        ensures { IfOk result (λ s. string_bytes s ≡ fault_ending self) }
    {
        match self {
            Fault::BadRow { line } | Fault::BadNumber { line } => format!(in alloc; " line {line}"),
            Fault::BadRule { key } => format!(in alloc; " key {}", key.name()),
            Fault::Unexpected { at } => format!(in alloc; " at {at}"),
            Fault::BadWindowsIn { number, count }
            | Fault::TooManyPlacesIn { number, count }
            | Fault::TooManyShapesIn { number, count } => in_part(alloc, number, count),
            _ => Ok(String::new(alloc)),
        }
    }
}

impl From<RuleError> for Fault {
    ghost from_gives = { λ error fault. fault ≡ spec.rule_fault error };

    fn from(error: RuleError) -> Fault {
        match error {
            RuleError::BadRow { line } => Fault::BadRow { line },
            RuleError::BadNumber { line } => Fault::BadNumber { line },
            RuleError::BadRule { key } => Fault::BadRule { key },
            RuleError::BadRect => Fault::BadRect,
            RuleError::BadWindows => Fault::BadWindows,
            RuleError::BadPitch => Fault::BadPitch,
            RuleError::TooManyPlaces => Fault::TooManyPlaces,
            RuleError::Memory => Fault::Memory,
        }
    }
}

impl From<ScriptError> for Fault {
    ghost from_gives = { λ error fault. fault ≡ spec.script_fault error };

    fn from(error: ScriptError) -> Fault {
        match error {
            ScriptError::BadRow { line } => Fault::BadRow { line },
            ScriptError::BadNumber { line } => Fault::BadNumber { line },
            ScriptError::TooManyLines => Fault::TooManyLines,
            ScriptError::Memory => Fault::Memory,
        }
    }
}

impl From<LibraryError> for Fault {
    ghost from_gives = { λ error fault. fault ≡ spec.library_fault error };

    fn from(error: LibraryError) -> Fault {
        match error {
            LibraryError::Truncated => Fault::Truncated,
            LibraryError::BadLength => Fault::BadLength,
            LibraryError::Unexpected { at } => Fault::Unexpected { at: at as u64 },
            LibraryError::DuplicateCell => Fault::DuplicateCell,
            LibraryError::BadXY => Fault::BadXY,
            LibraryError::NotClosed => Fault::NotClosed,
            LibraryError::Memory => Fault::Memory,
        }
    }
}

impl From<FlattenError> for Fault {
    ghost from_gives = { λ error fault. fault ≡ spec.flatten_fault error };

    fn from(error: FlattenError) -> Fault {
        match error {
            FlattenError::NoTop => Fault::NoTop,
            FlattenError::MissingCell => Fault::MissingCell,
            FlattenError::Cycle => Fault::Cycle,
            FlattenError::TooDeep => Fault::TooDeep,
            FlattenError::BadTransform => Fault::BadTransform,
            FlattenError::BadArray => Fault::BadArray,
            FlattenError::NotManhattan => Fault::NotManhattan,
            FlattenError::RoundEnd => Fault::RoundEnd,
            FlattenError::OddWidth => Fault::OddWidth,
            FlattenError::DoublesBack => Fault::DoublesBack,
            FlattenError::BadExtension => Fault::BadExtension,
            FlattenError::TooManyShapes => Fault::TooManyShapes,
            FlattenError::OutOfRange => Fault::OutOfRange,
            FlattenError::Memory => Fault::Memory,
        }
    }
}

impl From<PartError> for Fault {
    ghost from_gives = { λ error fault. fault ≡ spec.part_fault error };

    fn from(error: PartError) -> Fault {
        match error {
            PartError::Library(error) => error.into(),
            PartError::NotAFill => Fault::NotAFill,
            PartError::TooManyPlaces => Fault::TooManyPlaces,
            PartError::OtherDesign => Fault::OtherDesign,
            PartError::PlaceTwice => Fault::PlaceTwice,
            PartError::OtherRows => Fault::OtherRows,
            PartError::Memory => Fault::Memory,
        }
    }
}

impl From<InputError> for Fault {
    ghost from_gives = { λ error fault. fault ≡ spec.input_fault error };

    fn from(error: InputError) -> Fault {
        match error {
            InputError::TooLong => Fault::TooLong,
            InputError::Device => Fault::Device,
            InputError::Memory => Fault::Memory,
        }
    }
}
