//! The files that a line names, opened and created.
ghost use Rattle.std.specs.Prelude.{◌≡◌, ◌⊎◌, ◌↔◌, [], ◌∷◌, false, IfErr, IfOk};
ghost use Rattle.std.specs.IoError.{error_kind};
ghost use Rattle.densfill_io.specs.Taps.{has_failed};
ghost use Rattle.densfill.specs.Outcomes.{IsUnopened, IsUnopenedPart, of_design, of_rules, of_script};

use crate::OUT_OF_MEMORY;
use crate::target::Target;
use densfill_engine::{InputFault, Inputs, Refusal, RunFault};
use densfill_io::{InputError, Tap};
use std::alloc::Global;
use std::fs::File;
use std::io::{self, ErrorKind};
use std::rt::Files;

/// What an error of opening is: want of memory, or else a device fault.
fn open_fault(error: &io::Error) -> InputError
    ensures memory { (result ≡ InputError.Memory) ↔ (error_kind error.now ≡ ErrorKind.OutOfMemory) }
    ensures device { (error_kind error.now ≡ ErrorKind.OutOfMemory → ⊥) → result ≡ InputError.Device }
{
    if error.kind() == ErrorKind::OutOfMemory {
        InputError::Memory
    } else {
        InputError::Device
    }
}

/// A tap in front of the file that a path names.
fn opened<R: Files>(rt: &R, path: &str) -> Result<Tap<R::File>, InputError>
    ensures whole { IfOk result (λ tap. has_failed tap ≡ false) }
    ensures fault { IfErr result (λ e. (e ≡ InputError.Device) ⊎ (e ≡ InputError.Memory)) }
{
    match File::open(rt, path) {
        Ok(file) => Ok(Tap::new(file)),
        Err(error) => Err(open_fault(&error)),
    }
}

/// The rule file, opened.
pub(crate) fn opened_rules<R: Files>(rt: &R, path: &str) -> Result<Tap<R::File>, Refusal>
    ensures whole { IfOk result (λ tap. has_failed tap ≡ false) }
    ensures unopened { IfErr result (IsUnopened of_rules) }
{
    match opened(rt, path) {
        Ok(tap) => Ok(tap),
        Err(error) => Err(Refusal::Rules(InputFault::Unread(error))),
    }
}

/// The script, opened.
pub(crate) fn opened_script<R: Files>(rt: &R, path: &str) -> Result<Tap<R::File>, Refusal>
    ensures whole { IfOk result (λ tap. has_failed tap ≡ false) }
    ensures unopened { IfErr result (IsUnopened of_script) }
{
    match opened(rt, path) {
        Ok(tap) => Ok(tap),
        Err(error) => Err(Refusal::Script(InputFault::Unread(error))),
    }
}

/// The design, opened.
pub(crate) fn opened_design<R: Files>(rt: &R, path: &str) -> Result<Tap<R::File>, Refusal>
    ensures whole { IfOk result (λ tap. has_failed tap ≡ false) }
    ensures unopened { IfErr result (IsUnopened of_design) }
{
    match opened(rt, path) {
        Ok(tap) => Ok(tap),
        Err(error) => Err(Refusal::Design(InputFault::Unread(error))),
    }
}

/// The paths of a line of `fill`.
#[derive(Clone, Copy)]
pub(crate) struct Paths<'a> {
    /// That of the rule file.
    pub(crate) rules: &'a str,
    /// That of the design.
    pub(crate) design: &'a str,
    /// That of the script.
    pub(crate) script: &'a str,
    /// That of the fill library.
    pub(crate) library: &'a str,
}

impl<'a> Paths<'a> {
    /// Those of the rule file, the design, the script and the library.
    pub(crate) fn new(
        rules: &'a str,
        design: &'a str,
        script: &'a str,
        library: &'a str,
    ) -> Paths<'a> {
        Paths {
            rules,
            design,
            script,
            library,
        }
    }

    /// Those of the three inputs.
    pub(crate) fn inputs(&self) -> [&'a str; 3]
        ensures { result ≡ self.now.rules ∷ self.now.design ∷ self.now.script ∷ [] }
    {
        [self.rules, self.design, self.script]
    }
}

/// The inputs of a fill, opened in their order.
pub(crate) fn opened_inputs<R: Files>(
    rt: &R,
    paths: &Paths<'_>,
) -> Result<Inputs<R::File, R::File, R::File>, Refusal>
    ensures rules { IfOk result (λ i. has_failed i.rules ≡ false) }
    ensures design { IfOk result (λ i. has_failed i.design ≡ false) }
    ensures script { IfOk result (λ i. has_failed i.script ≡ false) }
    ensures unopened { IfErr result (λ e. IsUnopened of_rules e ⊎ IsUnopened of_design e ⊎ IsUnopened of_script e) }
{
    let rules = opened_rules(rt, paths.rules)?;
    let design = opened_design(rt, paths.design)?;
    let script = opened_script(rt, paths.script)?;
    Ok(Inputs {
        rules,
        design,
        script,
    })
}

/// What is told of a part's library that could not be opened.
fn part_fault(number: u32, error: InputError) -> Refusal
    ensures { result ≡ Refusal.Part number (InputFault.Unread error) }
{
    Refusal::Part(number, InputFault::Unread(error))
}

/// The library of a part, opened.
pub(crate) fn opened_part<R: Files>(
    rt: &R,
    path: &str,
    number: u32,
) -> Result<Tap<R::File>, Refusal>
    ensures whole { IfOk result (λ tap. has_failed tap ≡ false) }
    ensures unopened { IfErr result (IsUnopenedPart number) }
{
    match opened(rt, path) {
        Ok(tap) => Ok(tap),
        Err(error) => Err(part_fault(number, error)),
    }
}

/// What the matter is where OUT could not be created: want of memory, or else OUT.
fn out_fault(error: &io::Error) -> Refusal
    ensures memory { (result ≡ Refusal.Run RunFault.Memory) ↔ (error_kind error.now ≡ ErrorKind.OutOfMemory) }
    ensures out { (result ≡ Refusal.Out) ⊎ (result ≡ Refusal.Run RunFault.Memory) }
{
    if error.kind() == ErrorKind::OutOfMemory {
        OUT_OF_MEMORY
    } else {
        Refusal::Out
    }
}

/// The file that a library goes to. One that is an input or that standard output goes to is refused.
pub(crate) fn created<'a, R: Alloc<A = Global> + Files>(
    rt: &'a R,
    path: &str,
    inputs: &[&str],
) -> Result<Tap<Target<'a, R>>, Refusal>
    ensures whole { IfOk result (λ tap. has_failed tap ≡ false) }
    ensures fault { IfErr result (λ e. (e ≡ Refusal.Out) ⊎ (e ≡ Refusal.Run RunFault.Memory)) }
{
    match Target::create(rt, path, inputs) {
        Ok(target) => Ok(Tap::new(target)),
        Err(error) => Err(out_fault(&error)),
    }
}
