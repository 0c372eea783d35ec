//! Why the program gave up, by the input, the run or the output at which it did, and the line that tells of it.
ghost use Rattle.std.specs.Prelude.{◌≡◌, IfOk, map, option_map, string_bytes};
ghost use Rattle.densfill_engine.specs.Refusals.{fault_of, part_name, path_ending, refusal_status, refusal_text, refusal_words, shown_byte};

use crate::fault::Fault;
use densfill_io::{DeviceError, InputError};
use fill_core::BookError;
use fill_parts::PartRulesError;
use fill_report::OutOfMemory;
use fill_text::{RuleError, ScriptError};
use gds_flatten::FlattenError;
use gds_grammar::LibraryError;
use gds_join::PartError;
use std::alloc::{AllocError, Global};
use std::fmt::Display;
use thiserror::Error;

/// Why an input gave nothing.
#[derive(Clone, Copy, Debug, PartialEq, Eq, Error)]
#[error_bound(E: Display)]
pub enum InputFault<E> {
    /// It could not be opened or read to its end, or is too long.
    #[error("{0}")]
    Unread(InputError),
    /// Its bytes are refused.
    #[error("{0}")]
    Refused(E),
}

/// Why the bytes of a design give no metal.
#[derive(Clone, Copy, Debug, PartialEq, Eq, Error)]
pub enum DesignError {
    /// They are no library.
    #[error("{0}")]
    Library(LibraryError),
    /// The library's top can't be flattened.
    #[error("{0}")]
    Flatten(FlattenError),
    /// Too many copies of shapes meet the rectangle of a part: its number, from 1 on, and how many parts there are.
    #[error("too many shapes in part {0} of {1}")]
    Crowded(u32, u32),
}

/// Why there is no outcome of inputs that are all taken.
#[derive(Clone, Copy, Debug, PartialEq, Eq, Error)]
pub enum RunFault {
    /// An allocation was refused.
    #[error("out of memory")]
    Memory,
    /// A tile is left that isn't in: the turns were used up, or the history is full.
    #[error("the fill is not complete")]
    Unfinished,
    /// The edits of the book that came back from many workers do not begin those handed in.
    #[error("the book that came back is another one")]
    Mixed,
}

/// Why the program gave up: at which input or output, or in the run between them, and what is the matter there.
#[derive(Clone, Copy, Debug, PartialEq, Eq, Error)]
pub enum Refusal {
    /// The rule file gave no rules.
    #[error("rules: {0}")]
    Rules(InputFault<RuleError>),
    /// A part of the chip has no rules of its own: what there is too much of in its rows, its number, from 1 on, and how many
    /// parts there are.
    #[error("rules: {0} in part {1} of {2}")]
    TooLarge(PartRulesError, u32, u32),
    /// The design gave no metal.
    #[error("design: {0}")]
    Design(InputFault<DesignError>),
    /// The script gave no edits.
    #[error("script: {0}")]
    Script(InputFault<ScriptError>),
    /// The library of a part, counted from 1, can't be joined to those of the parts before it.
    #[error("part {0}: {1}")]
    Part(u32, InputFault<PartError>),
    /// The command line, or what comes after the inputs are interpreted and before an output is written.
    #[error("run: {0}")]
    Run(RunFault),
    /// The fill library could not be written whole.
    #[error("out: a write failed")]
    Out,
    /// The report could not be written whole.
    #[error("report: a write failed")]
    Report,
}

impl<E> From<InputError> for InputFault<E> {
    ghost use Rattle.densfill_engine.specs.declared.refusal.InputFault.TheVariants.{Unread};

    ghost from_gives = { λ error fault. fault ≡ Unread error };

    fn from(error: InputError) -> InputFault<E> {
        InputFault::Unread(error)
    }
}

impl<E> From<AllocError> for InputFault<E> {
    ghost use Rattle.densfill_io.specs.declared.input.InputError.TheVariants.{Memory};
    ghost use Rattle.densfill_engine.specs.declared.refusal.InputFault.TheVariants.{Unread};

    ghost from_gives = { λ _ fault. fault ≡ Unread Memory };

    fn from(_error: AllocError) -> InputFault<E> {
        InputFault::Unread(InputError::Memory)
    }
}

impl From<RuleError> for InputFault<RuleError> {
    ghost use Rattle.densfill_engine.specs.declared.refusal.InputFault.TheVariants.{Refused};

    ghost from_gives = { λ error fault. fault ≡ Refused error };

    fn from(error: RuleError) -> InputFault<RuleError> {
        InputFault::Refused(error)
    }
}

impl From<PartError> for InputFault<PartError> {
    ghost use Rattle.densfill_engine.specs.declared.refusal.InputFault.TheVariants.{Refused};

    ghost from_gives = { λ error fault. fault ≡ Refused error };

    fn from(error: PartError) -> InputFault<PartError> {
        InputFault::Refused(error)
    }
}

impl From<ScriptError> for InputFault<ScriptError> {
    ghost use Rattle.densfill_engine.specs.declared.refusal.InputFault.TheVariants.{Refused};

    ghost from_gives = { λ error fault. fault ≡ Refused error };

    fn from(error: ScriptError) -> InputFault<ScriptError> {
        InputFault::Refused(error)
    }
}

impl From<LibraryError> for InputFault<DesignError> {
    ghost use Rattle.densfill_engine.specs.declared.refusal.DesignError.TheVariants.{Library};
    ghost use Rattle.densfill_engine.specs.declared.refusal.InputFault.TheVariants.{Refused};

    ghost from_gives = { λ error fault. fault ≡ Refused (Library error) };

    fn from(error: LibraryError) -> InputFault<DesignError> {
        InputFault::Refused(DesignError::Library(error))
    }
}

impl From<FlattenError> for InputFault<DesignError> {
    ghost use Rattle.densfill_engine.specs.declared.refusal.DesignError.TheVariants.{Flatten};
    ghost use Rattle.densfill_engine.specs.declared.refusal.InputFault.TheVariants.{Refused};

    ghost from_gives = { λ error fault. fault ≡ Refused (Flatten error) };

    fn from(error: FlattenError) -> InputFault<DesignError> {
        InputFault::Refused(DesignError::Flatten(error))
    }
}

impl From<InputFault<DesignError>> for Refusal {
    ghost use Rattle.densfill_engine.specs.declared.refusal.Refusal.TheVariants.{Design};

    ghost from_gives = { λ fault refusal. refusal ≡ Design fault };

    fn from(fault: InputFault<DesignError>) -> Refusal {
        Refusal::Design(fault)
    }
}

impl From<InputFault<RuleError>> for Refusal {
    ghost use Rattle.densfill_engine.specs.declared.refusal.Refusal.TheVariants.{Rules};

    ghost from_gives = { λ fault refusal. refusal ≡ Rules fault };

    fn from(fault: InputFault<RuleError>) -> Refusal {
        Refusal::Rules(fault)
    }
}

impl From<InputFault<ScriptError>> for Refusal {
    ghost use Rattle.densfill_engine.specs.declared.refusal.Refusal.TheVariants.{Script};

    ghost from_gives = { λ fault refusal. refusal ≡ Script fault };

    fn from(fault: InputFault<ScriptError>) -> Refusal {
        Refusal::Script(fault)
    }
}

impl From<OutOfMemory> for Refusal {
    ghost use Rattle.densfill_engine.specs.declared.refusal.RunFault.TheVariants.{Memory};
    ghost use Rattle.densfill_engine.specs.declared.refusal.Refusal.TheVariants.{Run};

    ghost from_gives = { λ _ refusal. refusal ≡ Run Memory };

    fn from(_error: OutOfMemory) -> Refusal {
        Refusal::Run(RunFault::Memory)
    }
}

impl From<RunFault> for Refusal {
    ghost use Rattle.densfill_engine.specs.declared.refusal.Refusal.TheVariants.{Run};

    ghost from_gives = { λ fault refusal. refusal ≡ Run fault };

    fn from(fault: RunFault) -> Refusal {
        Refusal::Run(fault)
    }
}

impl From<AllocError> for RunFault {
    ghost use Rattle.densfill_engine.specs.declared.refusal.RunFault.TheVariants.{Memory};

    ghost from_gives = { λ _ fault. fault ≡ Memory };

    fn from(_error: AllocError) -> RunFault {
        RunFault::Memory
    }
}

impl From<OutOfMemory> for RunFault {
    ghost use Rattle.densfill_engine.specs.declared.refusal.RunFault.TheVariants.{Memory};

    ghost from_gives = { λ _ fault. fault ≡ Memory };

    fn from(_error: OutOfMemory) -> RunFault {
        RunFault::Memory
    }
}

impl From<BookError> for RunFault {
    ghost use Rattle.densfill_engine.specs.Faults.{book_fault};

    ghost from_gives = { λ error fault. fault ≡ book_fault error };

    fn from(error: BookError) -> RunFault {
        match error {
            BookError::HistoryFull => RunFault::Unfinished,
            BookError::Memory => RunFault::Memory,
        }
    }
}

impl From<DeviceError> for Refusal {
    ghost use Rattle.densfill_engine.specs.declared.refusal.Refusal.TheVariants.{Report};

    ghost from_gives = { λ _ refusal. refusal ≡ Report };

    fn from(_error: DeviceError) -> Refusal {
        Refusal::Report
    }
}

impl Refusal {
    /// Where it arose, as a fault line names it.
    fn part_name(self, alloc: Global) -> Result<String, AllocError>
        ensures { IfOk result (λ s. string_bytes s ≡ part_name self) }
    {
        match self {
            Refusal::Rules(_) | Refusal::TooLarge(..) => String::from_str(alloc, "rules"),
            Refusal::Design(_) => String::from_str(alloc, "design"),
            Refusal::Script(_) => String::from_str(alloc, "script"),
            Refusal::Part(number, _) => format!(in alloc; "part {number}"),
            Refusal::Run(_) => String::from_str(alloc, "run"),
            Refusal::Out => String::from_str(alloc, "out"),
            Refusal::Report => String::from_str(alloc, "report"),
        }
    }

    /// The row of the table of faults that is the matter.
    fn fault(self) -> Fault
        ensures { result ≡ fault_of self }
    {
        match self {
            Refusal::Rules(InputFault::Unread(error)) => error.into(),
            Refusal::Rules(InputFault::Refused(error)) => error.into(),
            Refusal::TooLarge(PartRulesError::Windows, number, count) => {
                Fault::BadWindowsIn { number, count }
            }
            Refusal::TooLarge(PartRulesError::Places, number, count) => {
                Fault::TooManyPlacesIn { number, count }
            }
            Refusal::TooLarge(PartRulesError::Memory, ..) => Fault::Memory,
            Refusal::Design(InputFault::Unread(error)) => error.into(),
            Refusal::Design(InputFault::Refused(DesignError::Library(error))) => error.into(),
            Refusal::Design(InputFault::Refused(DesignError::Flatten(error))) => error.into(),
            Refusal::Design(InputFault::Refused(DesignError::Crowded(number, count))) => {
                Fault::TooManyShapesIn { number, count }
            }
            Refusal::Script(InputFault::Unread(error)) => error.into(),
            Refusal::Script(InputFault::Refused(error)) => error.into(),
            Refusal::Part(_, InputFault::Unread(error)) => error.into(),
            Refusal::Part(_, InputFault::Refused(error)) => error.into(),
            Refusal::Run(RunFault::Memory) => Fault::Memory,
            Refusal::Run(RunFault::Unfinished) => Fault::Unfinished,
            Refusal::Run(RunFault::Mixed) => Fault::Mixed,
            Refusal::Out | Refusal::Report => Fault::Device,
        }
    }

    /// The exit status of the program: 6 where many workers' book came back mixed up, 5 where the fill is not complete, 4 where
    /// a file could not be opened, read or written, 3 where memory ran out, and 2 for a refused input.
    pub fn status(self) -> u8
        ensures { result ≡ refusal_status self }
    {
        self.fault().status()
    }

    /// What tells of the refusal: `densfill: PART: NUMBER NAME`, and then ` line N` for a bad record or number, ` key KEY` for a
    /// bad rule, ` at OFFSET` for a record that stands where none may and ` in part K of N, try more parts` for too many windows, places
    /// or shapes there.
    fn words(self, alloc: Global) -> Result<String, AllocError>
        ensures { IfOk result (λ s. string_bytes s ≡ refusal_words self) }
    {
        let fault = self.fault();
        let (number, name) = fault.row();
        let part = self.part_name(alloc)?;
        let ending = fault.ending(alloc)?;
        format!(in alloc; "densfill: {part}: {number} {name}{ending}")
    }

    /// The line that tells of the refusal, with its line feed. Where a path is given, it is that of the part's library, and ` in ` and
    /// the path stand at the end, each control character of it as a question mark.
    ///
    /// # Errors
    /// `AllocError` where there is no memory for the line.
    pub fn line(self, alloc: Global, path: Option<&str>) -> Result<Vec<u8>, AllocError>
        ensures { IfOk result (λ v. v.items ≡ refusal_text self (option_map (λ p. p.now) path.entry)) }
    {
        let mut line = self.words(alloc)?.into_bytes();
        let ending = path_ending(alloc, path)?;
        line.extend_from_slice(&ending)?;
        line.push(b'\n')?;
        Ok(line)
    }
}

/// What stands behind the words of a refusal: the path of a part's library, if there is one.
fn path_ending(alloc: Global, path: Option<&str>) -> Result<Vec<u8>, AllocError>
    ensures { IfOk result (λ v. v.items ≡ path_ending (option_map (λ p. p.now) path.entry)) }
{
    match path {
        Some(path) => {
            let mut ending = b" in ".to_vec(alloc)?;
            let path = shown(alloc, path.as_bytes())?;
            ending.extend_from_slice(&path)?;
            Ok(ending)
        }
        None => Ok(Vec::new(alloc)),
    }
}

/// A byte of a path as a line shows it: a question mark in place of a control character.
fn shown_byte(byte: u8) -> u8
    ensures { result ≡ shown_byte byte }
{
    if byte < 32 || byte == 127 { b'?' } else { byte }
}

/// The bytes of a path as a line shows them.
fn shown(alloc: Global, path: &[u8]) -> Result<Vec<u8>, AllocError>
    ensures { IfOk result (λ v. v.items ≡ map shown_byte path.now) }
{
    let mut bytes = Vec::new(alloc);
    for byte in path {
        bytes.push(shown_byte(*byte))?;
    }
    Ok(bytes)
}
