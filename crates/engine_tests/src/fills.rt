//! Runs of `prepare` and `deliver` over readers and writers that fail.
use crate::devices::broken_off;
use crate::inputs::{Broken, EMPTY, RULES, Short};
use crate::wire::{LIBRARY, REPORT, WIRE};
use densfill_engine::{Crew, Filled, InputFault, Inputs, Refusal, Scope, deliver, prepare};
use densfill_io::{InputError, Tap};
use std::alloc::Global;
use std::io;
use std::io::{Read, Write};
use std::process::Abort;
use std::sync::Wait;
use std::test::Fail;
use std::thread::Threads;

/// The report of a frame in which every place is filled: 20 by 20 squares of boxes in each window.
pub(crate) const FILLED: &[u8] = b"0,0,0,0,50,50,0,400,400,160000,LOW
1,0,25,0,75,50,0,400,400,160000,LOW
2,0,50,0,100,50,0,400,400,160000,LOW
0,1,0,25,50,75,0,400,400,160000,LOW
1,1,25,25,75,75,0,400,400,160000,LOW
2,1,50,25,100,75,0,400,400,160000,LOW
0,2,0,50,50,100,0,400,400,160000,LOW
1,2,25,50,75,100,0,400,400,160000,LOW
2,2,50,50,100,100,0,400,400,160000,LOW
";

/// The fill of three inputs by one worker.
fn fill_of<R: Read + Drop, D: Read + Drop, S: Read + Drop>(
    rt: &(impl Threads + Wait + Sync),
    alloc: Global,
    rules: R,
    design: D,
    script: S,
) -> Result<Filled, Refusal> {
    let mut inputs = Inputs {
        rules: Tap::new(rules),
        design: Tap::new(design),
        script: Tap::new(script),
    };
    let crew = Crew {
        workers: 1,
        limit: None,
    };
    prepare(rt, alloc, &mut inputs, Scope::Whole, crew)
}

/// A hundred boxes, in one array.
#[test]
fn an_empty_design_is_filled_whole(rt: HostRuntime) -> Result<(), Fail> {
    let filled = fill_of(&rt, rt.alloc(), RULES, EMPTY, b"".as_slice())?;
    let mut written = Vec::new(rt.alloc());
    let mut reported = Vec::new(rt.alloc());
    let done = deliver(
        &filled,
        &mut Tap::new(&mut written),
        &mut Tap::new(&mut reported),
    );
    assert_eq!(rt; done, Ok(()));
    assert_eq!(rt; written.len(), 266);
    assert!(rt; reported.as_slice() == FILLED);
    Ok(())
}

/// Why a script, a design and rules of these devices give no fill, with the status that tells it.
fn refusal<R: Read + Drop, D: Read + Drop, S: Read + Drop>(
    rt: &(impl Threads + Wait + Sync),
    alloc: Global,
    rules: R,
    design: D,
    script: S,
) -> Option<(Refusal, u8)> {
    let refusal = fill_of(rt, alloc, rules, design, script).err()?;
    let status = refusal.status();
    Some((refusal, status))
}

/// A script of two edits that add metal and one that cuts some out.
const SCRIPT: &[u8] = b"add,0,0,10,10\nadd,5,5,15,15\ncut,0,0,5,5\n";

#[test]
fn the_first_input_that_is_not_read_is_told(rt: HostRuntime) {
    let alloc = rt.alloc();
    assert_eq!(rt;
        refusal(&rt, alloc, Broken, Broken, Broken),
        Some((Refusal::Rules(InputFault::Unread(InputError::Device)), 4))
    );
    assert_eq!(rt;
        refusal(&rt, alloc, RULES, Broken, Broken),
        Some((Refusal::Design(InputFault::Unread(InputError::Device)), 4))
    );
    assert_eq!(rt;
        refusal(&rt, alloc, RULES, EMPTY, Broken),
        Some((Refusal::Script(InputFault::Unread(InputError::Device)), 4))
    );
}

/// All bytes have come when the second call fails.
#[test]
fn an_input_that_fails_at_its_end_is_told(rt: HostRuntime) -> Result<(), Fail> {
    let alloc = rt.alloc();
    assert_eq!(rt;
        refusal(&rt, alloc, broken_off(alloc, RULES), WIRE, SCRIPT),
        Some((Refusal::Rules(InputFault::Unread(InputError::Device)), 4))
    );
    assert_eq!(rt;
        refusal(&rt, alloc, RULES, broken_off(alloc, WIRE), SCRIPT),
        Some((Refusal::Design(InputFault::Unread(InputError::Device)), 4))
    );
    assert_eq!(rt;
        refusal(&rt, alloc, RULES, WIRE, broken_off(alloc, SCRIPT)),
        Some((Refusal::Script(InputFault::Unread(InputError::Device)), 4))
    );
    fill_of(&rt, alloc, RULES, WIRE, SCRIPT)?;
    Ok(())
}

/// Asserts that a library's writer is told, and that no report was begun.
fn assert_no_library<W: Write + Drop>(rt: &impl Abort, alloc: Global, filled: &Filled, out: W) {
    let mut reported = Vec::<u8>::new(alloc);
    let done = deliver(filled, &mut Tap::new(out), &mut Tap::new(&mut reported));
    assert_eq!(rt; done, Err(Refusal::Out));
    assert!(rt; reported.is_empty());
}

/// Asserts that a report's writer is told, and that the library is whole.
fn assert_no_report<W: Write + Drop>(rt: &impl Abort, alloc: Global, filled: &Filled, report: W) {
    let mut written = Vec::<u8>::new(alloc);
    let done = deliver(filled, &mut Tap::new(&mut written), &mut Tap::new(report));
    assert_eq!(rt; done, Err(Refusal::Report));
    assert!(rt; written.as_slice() == LIBRARY);
}

/// A writer that takes no byte.
#[derive(Drop)]
struct Stuck;

impl Write for Stuck {
    fn write(&mut self, _buf: &[u8]) -> io::Result<usize> {
        Ok(0)
    }

    fn flush(&mut self) -> io::Result<()> {
        Ok(())
    }
}

#[test]
fn no_report_follows_a_library_that_breaks_off(rt: HostRuntime) -> Result<(), Fail> {
    let alloc = rt.alloc();
    let filled = fill_of(&rt, alloc, RULES, WIRE, b"".as_slice())?;
    for room in 0..LIBRARY.len() {
        let mut short = Short {
            taken: Vec::new(alloc),
            room,
        };
        assert_no_library(&rt, alloc, &filled, &mut short);
        assert_eq!(rt; Some(short.taken.as_slice()), LIBRARY.get(..room));
    }
    assert_no_library(&rt, alloc, &filled, Stuck);
    assert_eq!(rt; Refusal::Out.status(), 4);
    Ok(())
}

#[test]
fn a_library_is_whole_before_a_report_breaks_off(rt: HostRuntime) -> Result<(), Fail> {
    let alloc = rt.alloc();
    let filled = fill_of(&rt, alloc, RULES, WIRE, b"".as_slice())?;
    for room in 0..REPORT.len() {
        let mut short = Short {
            taken: Vec::new(alloc),
            room,
        };
        assert_no_report(&rt, alloc, &filled, &mut short);
        assert_eq!(rt; Some(short.taken.as_slice()), REPORT.get(..room));
    }
    assert_no_report(&rt, alloc, &filled, Stuck);
    assert_eq!(rt; Refusal::Report.status(), 4);
    Ok(())
}
