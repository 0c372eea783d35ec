//! The command line of the program, read with `clap`.
//!
//! [`read_line`] gives a [`Line`]: the subcommand and its paths. The layer above may rely on this: a line is answered only
//! for words in which `clap` finds no fault, a refusal is either want of memory or a usage fault with the text to print,
//! and a call for help is a usage fault too.
#![tactic(auto)]

ghost use Rattle.std.specs.Prelude.{◌≡◌, ◌≢◌, ◌⊎◌, ◌<◌, ◌≤◌, ℤ, false, Some, IfErr, IfOk, IfSome, IsSome, OnOk, codes, length, map, option_map};
ghost use Rattle.clap.specs.Words.{app_of, first_of, found_of, kind_of, one_of, rows_of, rule_of, with_subcommand};
ghost use Rattle.densfill_args.specs.Grammar.{both, checking, fill_words, filling, join_words, joining, limit_by, part_if, path, program_words, said_by, said_in, workers_by, IsFaultless, IsTaken};
ghost use Rattle.densfill_args.specs.Grammar as said;
ghost use Rattle.densfill_args.specs.Lines.{text_of, IsBounded, IsPart, IsRefusalOf};
ghost use Rattle.densfill_args.specs.declared.LineError.TheVariants.{Memory};

mod part;

use clap::builder::ValueParser;
use clap::error::ErrorKind;
use clap::{Arg, ArgMatches, Command, value_parser};
use part::part_numbers;
use std::alloc::{AllocError, Global};
use std::convert::AsStr;
use thiserror::Error;

/// The most parts that a chip is cut into.
const MOST_PARTS: usize = 4096;

/// What the program is asked to do.
#[derive(Debug, PartialEq, Eq, Drop)]
pub enum Line<'a> {
    /// To report the density of the metal that a script leaves of nothing.
    Rects {
        /// The path of the rule file.
        rules: &'a str,
        /// The path of the script.
        script: &'a str,
    },
    /// To report the density of the metal that a design draws.
    Check {
        /// The path of the rule file.
        rules: &'a str,
        /// The path of the design.
        design: &'a str,
        /// The part of the chip whose windows are reported, where one is named: its number, from 1 on, and how many there are, up to 4,096.
        part: Option<(u32, u32)>,
    },
    /// To join the fill libraries of the parts of a chip.
    Join {
        /// The path of the rule file.
        rules: &'a str,
        /// The path of the library to write.
        out: &'a str,
        /// The paths of the parts' libraries, in the order of the parts: 1 to 4,096.
        parts: Vec<&'a str>,
    },
    /// To fill the windows of a design that are low, once a script's changes of its metal are made.
    Fill {
        /// The path of the rule file.
        rules: &'a str,
        /// The path of the design.
        design: &'a str,
        /// The path of the script.
        script: &'a str,
        /// The path of the fill library.
        out: &'a str,
        /// The part of the chip that is filled, where one is named: its number, from 1 on, and how many there are, up to 4,096.
        part: Option<(u32, u32)>,
        /// How many workers compute fill: 1 to 64, and one where it is left out.
        workers: u32,
        /// The most turns that a worker may take in a round; where it is left out, one more than there are tiles.
        limit: Option<u32>,
    },
}

/// Why there is no line.
#[derive(Debug, Drop, Error)]
pub enum LineError {
    /// The words are not a line of this program, or ask for help. The text is `clap`'s.
    #[error("{0}")]
    Usage(clap::Error),
    /// An allocation was refused.
    #[error("out of memory")]
    Memory,
}

impl From<AllocError> for LineError {
    ghost from_gives = { λ _ e. e ≡ Memory };

    fn from(_error: AllocError) -> LineError {
        LineError::Memory
    }
}

/// A path that has to be given.
fn path<'a>(alloc: Global, name: &'a str, help: &'a str) -> Arg<'a>
    ensures rule { rule_of result ≡ path name.now }
    ensures local { result.global ≡ false }
{
    Arg::new(alloc, name).help(help).required(true)
}

/// An option that takes a whole number.
fn number<'a>(alloc: Global, name: &'a str, help: &'a str, parser: ValueParser<'a>) -> Arg<'a>
    ensures rule { (least most : ℤ) → parser.entry ≡ ValueParser.Signed least most → rule_of result ≡ said.option name.now least most }
    ensures local { result.global ≡ false }
{
    Arg::new(alloc, name)
        .long(name)
        .value_name("NUMBER")
        .help(help)
        .value_parser(parser)
}

/// The option of a part.
fn part_option<'a>(alloc: Global) -> Arg<'a>
    ensures rule { rule_of result ≡ said.part_option }
    ensures local { result.global ≡ false }
{
    Arg::new(alloc, "part")
        .long("part")
        .value_name("K/N")
        .help("Part K of N alone: 1 to N of 1 to 4096")
}

/// The paths of parts, of which there are as many as a chip may have.
fn part_paths<'a>(alloc: Global) -> Arg<'a>
    ensures rule { rule_of result ≡ said.part_paths }
    ensures local { result.global ≡ false }
{
    path(
        alloc,
        "PART",
        "The fill library of each part, in their order",
    )
    .num_args(1..=MOST_PARTS)
}

/// The program's words with those of `join`.
fn with_join<'a>(alloc: Global, program: Command<'a>) -> Result<Command<'a>, AllocError>
    ensures { IfOk result (λ c. app_of c ≡ with_subcommand (app_of program.entry) join_words.top) }
{
    let join = Command::new(alloc, "join")
        .about("Joins the fill libraries of the parts of a chip")
        .arg(path(alloc, "RULES", "The rule file"))?
        .arg(path(alloc, "OUT", "The fill library to write"))?
        .arg(part_paths(alloc))?;
    let program = program.subcommand(join)?;
    Ok(program)
}

/// The program's words with those of `fill`.
fn with_fill<'a>(alloc: Global, program: Command<'a>) -> Result<Command<'a>, AllocError>
    ensures { IfOk result (λ c. app_of c ≡ with_subcommand (app_of program.entry) fill_words.top) }
{
    let workers = value_parser!(u8).range(1..=64);
    let limit = value_parser!(u32);
    let fill = Command::new(alloc, "fill")
        .about("Fills the windows of a design that have too little metal")
        .arg(path(alloc, "RULES", "The rule file"))?
        .arg(path(alloc, "DESIGN", "The design, a GDSII Stream library"))?
        .arg(path(alloc, "SCRIPT", "The script of added and cut rectangles"))?
        .arg(path(alloc, "OUT", "The fill library to write"))?
        .arg(number(alloc, "workers", "How many workers: 1 to 64", workers))?
        .arg(number(alloc, "limit", "How many turns at most", limit))?
        .arg(part_option(alloc))?;
    let program = program.subcommand(fill)?;
    Ok(program)
}

/// Every line that the program takes.
fn grammar<'a>(alloc: Global) -> Result<Command<'a>, AllocError>
    ensures { IfOk result (λ c. app_of c ≡ program_words) }
{
    let script = path(alloc, "SCRIPT", "The script of added and cut rectangles");
    let design = path(alloc, "DESIGN", "The design, a GDSII Stream library");
    let rects = Command::new(alloc, "rects")
        .about("Reports the density of the metal that a script leaves of nothing")
        .arg(path(alloc, "RULES", "The rule file"))?
        .arg(script)?;
    let check = Command::new(alloc, "check")
        .about("Reports the density of the metal that a design draws")
        .arg(path(alloc, "RULES", "The rule file"))?
        .arg(design)?
        .arg(part_option(alloc))?;
    let program = Command::new(alloc, "densfill")
        .about("Checks the metal density of a layout")
        .subcommand_required(true)
        .subcommand(rects)?
        .subcommand(check)?;
    let program = with_fill(alloc, program)?;
    let program = with_join(alloc, program)?;
    Ok(program)
}

/// The line of `rects`, by what was found.
fn rects_in<'a>(found: &ArgMatches<'a>) -> Option<Line<'a>>
    ensures { option_map text_of result ≡ both said.rects (codes "RULES") (codes "SCRIPT") (rows_of (found_of found.now)) }
{
    let rules = found.get_str("RULES")?;
    let script = found.get_str("SCRIPT")?;
    Some(Line::Rects { rules, script })
}

/// The part, where one was named, by what was found.
fn part_in(found: &ArgMatches) -> Option<Option<(u32, u32)>>
    ensures part { result ≡ part_if (first_of (codes "part") (rows_of (found_of found.now))) }
    ensures bounded { IfSome result (λ part. IfSome part IsPart) }
{
    match found.get_str("part") {
        Some(part) => Some(Some(part_numbers(part)?)),
        None => Some(None),
    }
}

/// The line of `check`, by what was found.
fn check_in<'a>(found: &ArgMatches<'a>) -> Option<Line<'a>>
    ensures line { option_map text_of result ≡ checking (rows_of (found_of found.now)) }
    ensures bounded { IfSome result IsBounded }
{
    let rules = found.get_str("RULES")?;
    let design = found.get_str("DESIGN")?;
    let part = part_in(found)?;
    Some(Line::Check {
        rules,
        design,
        part,
    })
}

/// The paths that a line of `join` names, by what was found: rules, OUT and as many parts as there may be.
fn joined_in<'b, 'a>(found: &'b ArgMatches<'a>) -> Option<(&'a str, &'a str, &'b [&'a str])>
    ensures paths { option_map (λ p. said.join p.0.now p.1.now (map (λ q. q.now) p.2.now)) result ≡ joining (rows_of (found_of found.now)) }
    ensures few { IfSome result (λ p. (0 < length p.2.now) × (length p.2.now ≤ 4096)) }
{
    let rules = found.get_str("RULES")?;
    let out = found.get_str("OUT")?;
    let parts = found.get_strs("PART")?;
    if 1 <= parts.len() && parts.len() <= MOST_PARTS {
        Some((rules, out, parts))
    } else {
        None
    }
}

/// The line of `join`, by what was found.
fn join_in<'a>(alloc: Global, found: &ArgMatches<'a>) -> Result<Option<Line<'a>>, AllocError>
    ensures line { IfOk result (λ l. option_map text_of l ≡ joining (rows_of (found_of found.now))) }
    ensures bounded { IfOk result (λ l. IfSome l IsBounded) }
{
    let Some((rules, out, paths)) = joined_in(found) else {
        return Ok(None);
    };
    let parts = paths.to_vec(alloc)?;
    Ok(Some(Line::Join { rules, out, parts }))
}

/// A number of workers, where it is one.
fn crew(count: u32) -> Option<u32>
    ensures { result ≡ said.crew count }
{
    if 1 <= count && count <= 64 {
        Some(count)
    } else {
        None
    }
}

/// The number of workers, by what was found: one, where none was given.
fn workers_in(found: &ArgMatches) -> Option<u32>
    ensures workers { result ≡ workers_by (one_of (codes "workers") (rows_of (found_of found.now))) }
    ensures manned { IfSome result (λ workers. (0 < workers) × (workers ≤ 64)) }
{
    match found.get_str("workers") {
        Some(_) => crew(found.get_one::<u32>("workers")?),
        None => Some(1),
    }
}

/// The limit of turns, where one was given, by what was found.
fn limit_in(found: &ArgMatches) -> Option<Option<u32>>
    ensures { result ≡ limit_by (one_of (codes "limit") (rows_of (found_of found.now))) }
{
    match found.get_str("limit") {
        Some(_) => Some(Some(found.get_one::<u32>("limit")?)),
        None => Some(None),
    }
}

/// The number of workers and the limit of turns, by what was found.
fn numbers_in(found: &ArgMatches) -> Option<(u32, Option<u32>)>
    ensures numbers { result ≡ said.numbers_in (rows_of (found_of found.now)) }
    ensures manned { IfSome result (λ numbers. (0 < numbers.0) × (numbers.0 ≤ 64)) }
{
    let workers = workers_in(found)?;
    let limit = limit_in(found)?;
    Some((workers, limit))
}

/// The number of workers and the limit of turns of a part, where neither was found: one worker, without a limit.
fn alone(found: &ArgMatches) -> Option<(u32, Option<u32>)>
    ensures numbers { result ≡ said.alone (first_of (codes "workers") (rows_of (found_of found.now))) (first_of (codes "limit") (rows_of (found_of found.now))) }
    ensures manned { IfSome result (λ numbers. (0 < numbers.0) × (numbers.0 ≤ 64)) }
{
    match found.get_str("workers") {
        Some(_) => None,
        None => match found.get_str("limit") {
            Some(_) => None,
            None => Some((1, None)),
        },
    }
}

/// The number of workers and the limit of turns, by what was found, of all of a chip or of a part.
fn numbers_for(part: Option<(u32, u32)>, found: &ArgMatches) -> Option<(u32, Option<u32>)>
    ensures numbers { result ≡ said.numbers_for part (rows_of (found_of found.now)) }
    ensures manned { IfSome result (λ numbers. (0 < numbers.0) × (numbers.0 ≤ 64)) }
{
    match part {
        Some(_) => alone(found),
        None => numbers_in(found),
    }
}

/// The line of `fill`, by what was found.
fn fill_in<'a>(found: &ArgMatches<'a>) -> Option<Line<'a>>
    ensures line { option_map text_of result ≡ filling (rows_of (found_of found.now)) }
    ensures bounded { IfSome result IsBounded }
{
    let rules = found.get_str("RULES")?;
    let design = found.get_str("DESIGN")?;
    let script = found.get_str("SCRIPT")?;
    let out = found.get_str("OUT")?;
    let part = part_in(found)?;
    let (workers, limit) = numbers_for(part, found)?;
    Some(Line::Fill {
        rules,
        design,
        script,
        out,
        part,
        workers,
        limit,
    })
}

/// The line of a subcommand that was found.
fn line_in<'a>(
    alloc: Global,
    name: &str,
    found: &ArgMatches<'a>,
) -> Result<Option<Line<'a>>, AllocError>
    ensures line { IfOk result (λ l. option_map text_of l ≡ said_by name.now (rows_of (found_of found.now))) }
    ensures bounded { IfOk result (λ l. IfSome l IsBounded) }
{
    if name == "rects" {
        return Ok(rects_in(found));
    }
    if name == "check" {
        return Ok(check_in(found));
    }
    if name == "fill" {
        return Ok(fill_in(found));
    }
    if name == "join" {
        return join_in(alloc, found);
    }
    Ok(None)
}

/// The line that the program's words make, the program's own name first.
///
/// # Errors
/// `Usage` where they make none, also where they ask for help; `Memory` where memory runs out.
pub fn read_line<'a, S: AsStr>(alloc: Global, words: &'a [S]) -> Result<Line<'a>, LineError>
    ensures line { IfOk result (λ line. said_in (map S.text words.entry.now) ≡ Some (text_of line)) }
    ensures bounded { IfOk result IsBounded }
    ensures faultless { OnOk result (IsFaultless (map S.text words.entry.now)) }
    ensures usage { IsTaken (map S.text words.entry.now) → IsSome (said_in (map S.text words.entry.now)) → IfErr result (λ e. e ≡ LineError.Memory) }
    ensures refused { IfErr result (λ e. IsRefusalOf (map S.text words.entry.now) e) }
{
    let matches = match grammar(alloc)?.try_get_matches_from(words) {
        Ok(matches) => matches,
        Err(error) => return Err(refused(error)),
    };
    let line = match matches.subcommand() {
        Some((name, found)) => line_in(alloc, name, found)?,
        None => None,
    };
    match line {
        Some(line) => Ok(line),
        None => Err(refused(no_line(alloc)?)),
    }
}

/// A refusal of `clap` is want of memory where it says so, and else a usage fault with its text.
fn refused(error: clap::Error) -> LineError
    ensures { ((kind_of error ≡ ErrorKind.OutOfMemory) × (result ≡ LineError.Memory)) ⊎ ((kind_of error ≢ ErrorKind.OutOfMemory) × (result ≡ LineError.Usage error)) }
{
    if error.kind() == ErrorKind::OutOfMemory {
        LineError::Memory
    } else {
        LineError::Usage(error)
    }
}

/// The usage fault of words in which `clap` finds none, and that are no line of the program.
fn no_line(alloc: Global) -> Result<clap::Error, AllocError>
    ensures { IfOk result (λ e. kind_of e ≡ ErrorKind.ValueValidation) }
{
    let mut grammar = grammar(alloc)?;
    grammar.error(
        ErrorKind::ValueValidation,
        "a part is K/N, in digits: part K of N, 1 to N of 1 to 4096, without --workers and --limit",
    )
}
