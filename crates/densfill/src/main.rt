//! The program: it opens what the command line names, runs the engine and prints a fault.
#![tactic(auto)]

mod join;
mod open;
mod target;

ghost use Rattle.std.specs.Prelude.{◌≡◌, ◌⊎◌, ◌↔◌, ◌<◌, ◌≤◌, false, true, Some, None, map, option_map, IfErr, IfSome, IsSome, OnErr, OnOk};
ghost use Rattle.std.specs.IoError.{error_kind};
ghost use Rattle.std.specs.Process.{exit_status};
ghost use Rattle.densfill_io.specs.Taps.{has_failed, under};
ghost use Rattle.densfill_engine.specs.Refusals.{refusal_status};
ghost use Rattle.densfill_args.specs.Lines.{text_of, IsBounded, IsPart};
ghost use Rattle.densfill_args.specs.Grammar.{said_in, IsFaultless, IsTaken};
ghost use Rattle.densfill_args.specs.Grammar as said;
ghost use Rattle.densfill.specs.Outcomes.{GaveUp, IsCause, IsCheckCause, IsCheckReport, IsFillCause, IsFillReport, IsReport, IsTold, IsToldOf, path_at, path_in, path_of, scope_named};

use densfill_args::{Line, LineError, read_line};
use densfill_engine::{Crew, Refusal, RunFault, Scope, check, deliver, prepare, rects};
use densfill_io::{Tap, write_text};
use fill_parts::Part;
use join::join;
use open::{Paths, created, opened_design, opened_inputs, opened_rules, opened_script};
use std::alloc::Global;
use std::convert::AsStr;
use std::io::{ErrorKind, Write};
use std::process::ExitCode;
use std::rt::Files;
use std::sync::Wait;
use std::thread::Threads;
use std::{env, io};

/// The exit status of a line that the program doesn't take.
const USAGE: u8 = 1;

/// Memory ran out outside the inputs and outputs.
pub(crate) const OUT_OF_MEMORY: Refusal = Refusal::Run(RunFault::Memory);

/// What of a chip a line asks for: the part that it names, or all of it.
fn scope_of(part: Option<(u32, u32)>) -> Scope
    requires { IfSome part IsPart }
    ensures { result ≡ scope_named part }
{
    match part {
        Some((number, count)) => Scope::Part(Part::new(number, count).unwrap()),
        None => Scope::Whole,
    }
}

/// Does what a line of `rects` asks for.
fn rects_of<R: Alloc<A = Global> + Files + Threads + Sync, W: Write>(
    rt: &R,
    alloc: Global,
    rules: &str,
    script: &str,
    out: &mut Tap<W>,
) -> Result<(), Refusal>
    requires out { has_failed out.old ≡ false }
    ensures written { OnOk result (IsReport R.File.remaining R.File.contents (Some (said.rects rules.now script.now)) (W.contents (under out.old)) (W.contents (under out.new))) }
    ensures refused { IfErr result (IsCause R.File.remaining (Some (said.rects rules.now script.now))) }
    ensures silent { OnErr result ((has_failed out.new ≡ true) ⊎ (out.new ≡ out.old)) }
{
    let mut rules = opened_rules(rt, rules)?;
    let mut script = opened_script(rt, script)?;
    rects(rt, alloc, &mut rules, &mut script, out)
}

/// Does what a line of `check` asks for, of all of a chip or of a part.
fn check_of<R: Alloc<A = Global> + Files + Threads + Sync, W: Write>(
    rt: &R,
    alloc: Global,
    rules: &str,
    design: &str,
    scope: Scope,
    out: &mut Tap<W>,
) -> Result<(), Refusal>
    requires out { has_failed out.old ≡ false }
    ensures written { OnOk result (IsCheckReport R.File.remaining scope (W.contents (under out.old)) (W.contents (under out.new))) }
    ensures refused { IfErr result (IsCheckCause R.File.remaining scope) }
    ensures silent { OnErr result ((has_failed out.new ≡ true) ⊎ (out.new ≡ out.old)) }
{
    let mut rules = opened_rules(rt, rules)?;
    let mut design = opened_design(rt, design)?;
    check(rt, alloc, scope, &mut rules, &mut design, out)
}

/// Does what a line of `fill` asks for, of all of a chip or of a part: the fill of the files that its first three paths name, all opened
/// before one is read. The library's file is created only where there is a fill, and is whole and at its path before the report begins.
fn fill_of<R: Alloc<A = Global> + Files + Threads + Wait + Sync, W: Write + Drop>(
    rt: &R,
    alloc: Global,
    paths: &Paths<'_>,
    scope: Scope,
    crew: Crew,
    out: &mut Tap<W>,
) -> Result<(), Refusal>
    requires out { has_failed out.old ≡ false }
    requires workers { (0 < crew.workers) × (crew.workers ≤ 64) }
    ensures written { OnOk result (IsFillReport R.File.remaining R.File.contents scope crew.workers crew.limit (W.contents (under out.old)) (W.contents (under out.new))) }
    ensures refused { IfErr result (IsFillCause R.File.remaining scope crew.workers crew.limit) }
    ensures silent { OnErr result ((has_failed out.new ≡ true) ⊎ (out.new ≡ out.old)) }
{
    let mut inputs = opened_inputs(rt, paths)?;
    let filled = prepare(rt, alloc, &mut inputs, scope, crew)?;
    let mut library = created(rt, paths.library, &paths.inputs())?;
    deliver(&filled, &mut library, out)
}

/// Does what a line asks for, on the files that its paths name. All inputs are opened before one is read.
fn run<R: Alloc<A = Global> + Files + Threads + Wait + Sync, W: Write + Drop>(
    rt: &R,
    alloc: Global,
    line: &Line,
    out: &mut Tap<W>,
) -> Result<(), Refusal>
    requires out { has_failed out.old ≡ false }
    requires bounded { IsBounded line.now }
    ensures written { OnOk result (IsReport R.File.remaining R.File.contents (Some (text_of line.now)) (W.contents (under out.old)) (W.contents (under out.new))) }
    ensures refused { IfErr result (IsCause R.File.remaining (Some (text_of line.now))) }
    ensures silent { OnErr result ((has_failed out.new ≡ true) ⊎ (out.new ≡ out.old)) }
{
    match line {
        Line::Rects { rules, script } => rects_of(rt, alloc, rules, script, out),
        Line::Check {
            rules,
            design,
            part,
        } => check_of(rt, alloc, rules, design, scope_of(*part), out),
        Line::Join {
            rules,
            out: library,
            parts,
        } => join(rt, alloc, rules, library, parts),
        Line::Fill {
            rules,
            design,
            script,
            out: library,
            part,
            workers,
            limit,
        } => {
            let paths = Paths::new(rules, design, script, library);
            let crew = Crew {
                workers: *workers,
                limit: *limit,
            };
            fill_of(rt, alloc, &paths, scope_of(*part), crew, out)
        }
    }
}

/// Writes a line, and gives the exit status of a refusal.
fn written<E: Write>(err: &mut Tap<E>, line: &[u8], refusal: Refusal) -> ExitCode
    requires { has_failed err.old ≡ false }
    ensures told { IsTold (E.contents (under err.old)) (E.contents (under err.new)) (has_failed err.new) line.now }
    ensures is { exit_status result ≡ refusal_status refusal }
    ensures status { 1 < exit_status result }
{
    let _ = write_text(err, line);
    ExitCode::from(refusal.status())
}

/// Writes the line of a refusal, with a part's path where one is given, and gives its exit status; those of want of memory where the
/// line could not be made.
fn told<E: Write>(alloc: Global, err: &mut Tap<E>, refusal: Refusal, path: Option<&str>) -> ExitCode
    requires { has_failed err.old ≡ false }
    ensures told { IsToldOf (E.contents (under err.old)) (E.contents (under err.new)) (has_failed err.new) (exit_status result) (option_map (λ p. p.now) path.entry) refusal }
    ensures status { 1 < exit_status result }
{
    match refusal.line(alloc, path) {
        Ok(line) => written(err, &line, refusal),
        Err(_) => written(err, b"densfill: run: 31 Memory\n", OUT_OF_MEMORY),
    }
}

/// The exit status of what was done, with the line of a refusal written.
fn ended<E: Write>(alloc: Global, err: &mut Tap<E>, done: Result<(), Refusal>) -> ExitCode
    requires { has_failed err.old ≡ false }
    ensures done { OnOk done (exit_status result ≡ 0) }
    ensures told { IfErr done (IsToldOf (E.contents (under err.old)) (E.contents (under err.new)) (has_failed err.new) (exit_status result) None) }
    ensures status { OnErr done (1 < exit_status result) }
{
    match done {
        Ok(()) => ExitCode::SUCCESS,
        Err(refusal) => told(alloc, err, refusal, None),
    }
}

/// The path at a place, counted from 1.
fn path_at<'a>(paths: &[&'a str], number: u32) -> Option<&'a str>
    ensures { option_map (λ p. p.now) result ≡ path_at (map (λ p. p.now) paths.now) number }
{
    if number == 0 {
        return None;
    }
    paths.get(number as usize - 1).copied()
}

/// The path of the part's library that a refusal is of, if it is of one.
fn path_in<'a>(paths: &[&'a str], refusal: Refusal) -> Option<&'a str>
    ensures { option_map (λ p. p.now) result ≡ path_in (map (λ p. p.now) paths.now) refusal }
{
    match refusal {
        Refusal::Part(number, _) => path_at(paths, number),
        Refusal::Rules(_) => None,
        Refusal::TooLarge(..) => None,
        Refusal::Design(_) => None,
        Refusal::Script(_) => None,
        Refusal::Run(_) => None,
        Refusal::Out => None,
        Refusal::Report => None,
    }
}

/// The same of a line.
fn path_of<'a>(line: &Line<'a>, refusal: Refusal) -> Option<&'a str>
    ensures { option_map (λ p. p.now) result ≡ path_of (Some (text_of line.now)) refusal }
{
    match line {
        Line::Join { parts, .. } => path_in(parts, refusal),
        Line::Rects { .. } => None,
        Line::Check { .. } => None,
        Line::Fill { .. } => None,
    }
}

/// Does what a line asks for, and gives the exit status: 0 where it is done, and else that of the refusal.
fn line_status<R: Alloc<A = Global> + Files + Threads + Wait + Sync, W: Write + Drop, E: Write>(
    rt: &R,
    alloc: Global,
    line: &Line,
    out: &mut Tap<W>,
    err: &mut Tap<E>,
) -> ExitCode
    requires out { has_failed out.old ≡ false }
    requires err { has_failed err.old ≡ false }
    requires bounded { IsBounded line.now }
    ensures done { exit_status result ≡ 0 → IsReport R.File.remaining R.File.contents (Some (text_of line.now)) (W.contents (under out.old)) (W.contents (under out.new)) }
    ensures refused { (exit_status result ≡ 0) ⊎ GaveUp R.File.remaining (Some (text_of line.now)) (E.contents (under err.old)) (E.contents (under err.new)) (has_failed err.new) (exit_status result) }
    ensures status { (exit_status result ≡ 0) ⊎ (1 < exit_status result) }
    ensures silent { (exit_status result ≡ 0) ⊎ (has_failed out.new ≡ true) ⊎ (out.new ≡ out.old) }
{
    match run(rt, alloc, line, out) {
        Ok(()) => ExitCode::SUCCESS,
        Err(refusal) => told(alloc, err, refusal, path_of(line, refusal)),
    }
}

/// Does what the words ask for, the program's own name first, and gives the exit status: 0 where it is done, 1 where
/// they are no line of the program, and else that of the refusal. Nothing is written to `out` then, unless a write to it
/// failed.
fn status_of<R: AllocGlobal + Files + Threads + Wait + Sync, S: AsStr, W: Write + Drop, E: Write>(
    rt: &R,
    words: &[S],
    out: &mut Tap<W>,
    err: &mut Tap<E>,
) -> ExitCode
    requires out { has_failed out.old ≡ false }
    requires err { has_failed err.old ≡ false }

    // Status 0: clap finds no fault in the words, and the report of the line that they make, of the opened files, is written whole.
    ensures faultless { exit_status result ≡ 0 → IsFaultless (map S.text words.now) }
    ensures done { exit_status result ≡ 0 → IsReport R.File.remaining R.File.contents (said_in (map S.text words.now)) (W.contents (under out.old)) (W.contents (under out.new)) }

    // Status 1: words that make no line. Any other: a refusal, which is told.
    ensures usage { IsTaken (map S.text words.now) → IsSome (said_in (map S.text words.now)) → (exit_status result ≡ 0) ⊎ (1 < exit_status result) }
    ensures refused { (exit_status result ≡ 0) ⊎ (exit_status result ≡ 1)
        ⊎ GaveUp R.File.remaining (said_in (map S.text words.now)) (E.contents (under err.old)) (E.contents (under err.new)) (has_failed err.new) (exit_status result) }
    ensures silent { (exit_status result ≡ 0) ⊎ (has_failed out.new ≡ true) ⊎ (out.new ≡ out.old) }
{
    match read_line(rt.alloc(), words) {
        Ok(line) => line_status(rt, rt.alloc(), &line, out, err),
        Err(LineError::Memory) => ended(rt.alloc(), err, Err(OUT_OF_MEMORY)),
        Err(LineError::Usage(error)) => {
            if let Ok(text) = format!(in rt.alloc(); "{error}") {
                let _ = write_text(err, text.as_bytes());
            }
            ExitCode::from(USAGE)
        }
    }
}

/// The program's words, its own name first.
fn words_of(rt: HostRuntime) -> io::Result<Vec<String>> {
    let words = env::args(&rt)?.collect(rt.alloc())?;
    Ok(words)
}

/// The exit status where the words could not be had, with the reason printed: memory ran out, or a word is no text,
/// and so they are no line of the program.
fn without_words<E: Write>(alloc: Global, err: &mut Tap<E>, error: &io::Error) -> ExitCode
    requires { has_failed err.old ≡ false }
    ensures memory { error_kind error.now ≡ ErrorKind.OutOfMemory → exit_status result ≡ 3 }
    ensures usage { (error_kind error.now ≡ ErrorKind.OutOfMemory → ⊥) → exit_status result ≡ 1 }
{
    if error.kind() == ErrorKind::OutOfMemory {
        return ended(alloc, err, Err(OUT_OF_MEMORY));
    }
    let text = b"error: a word of the command line is no text\n";
    let _ = write_text(err, text);
    ExitCode::from(USAGE)
}

fn main(rt: HostRuntime) -> ExitCode {
    match words_of(rt) {
        Ok(words) => status_of(
            &rt,
            words.as_slice(),
            &mut Tap::new(rt.stdout()),
            &mut Tap::new(rt.stderr()),
        ),
        Err(error) => without_words(rt.alloc(), &mut Tap::new(rt.stderr()), &error),
    }
}
