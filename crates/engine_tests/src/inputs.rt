//! Fault lines that no case shows, and runs of `rects` and `check` over readers and writers that fail.
use densfill_engine::{DesignError, InputFault, Refusal, RunFault, Scope, check, rects};
use densfill_io::{InputError, Tap};
use fill_parts::PartRulesError;
use fill_text::{Key, NumberKey, RuleError};
use gds_flatten::FlattenError;
use gds_join::PartError;
use std::alloc::Global;
use std::io;
use std::io::{ErrorKind, Read, Write};
use std::test::Fail;
use std::thread::Threads;

/// Refusals with their lines and exit statuses.
const LINES: &[(Refusal, &str, u8)] = &[
    (
        Refusal::Rules(InputFault::Unread(InputError::TooLong)),
        "densfill: rules: 29 TooLong\n",
        2,
    ),
    (
        Refusal::Script(InputFault::Unread(InputError::Device)),
        "densfill: script: 30 Device\n",
        4,
    ),
    (Refusal::Report, "densfill: report: 30 Device\n", 4),
    (Refusal::Out, "densfill: out: 30 Device\n", 4),
    (
        Refusal::Script(InputFault::Unread(InputError::Memory)),
        "densfill: script: 31 Memory\n",
        3,
    ),
    (
        Refusal::Design(InputFault::Refused(DesignError::Flatten(FlattenError::Memory))),
        "densfill: design: 31 Memory\n",
        3,
    ),
    (
        Refusal::Run(RunFault::Memory),
        "densfill: run: 31 Memory\n",
        3,
    ),
    (
        Refusal::Run(RunFault::Mixed),
        "densfill: run: 35 Mixed\n",
        6,
    ),
    (
        Refusal::TooLarge(PartRulesError::Places, 3, 8),
        "densfill: rules: 28 TooManyPlaces in part 3 of 8, try more parts\n",
        2,
    ),
    (
        Refusal::TooLarge(PartRulesError::Memory, 3, 8),
        "densfill: rules: 31 Memory\n",
        3,
    ),
];

#[test]
fn a_line_tells_part_number_and_name(rt: HostRuntime) -> Result<(), Fail> {
    for (refusal, want, status) in LINES {
        let line = refusal.line(rt.alloc(), None)?;
        assert!(rt; line.as_slice() == want.as_bytes());
        assert_eq!(rt; refusal.status(), *status);
    }
    let refusal = Refusal::Part(3, InputFault::Refused(PartError::Memory));
    let line = refusal.line(rt.alloc(), Some("fill/3\n.gds\x7f"))?;
    assert!(rt; line.as_slice() == "densfill: part 3: 31 Memory in fill/3?.gds?\n".as_bytes());
    assert_eq!(rt; refusal.status(), 3);
    Ok(())
}

pub(crate) const RULES: &[u8] = b"frame_x1,0
frame_y1,0
frame_x2,100
frame_y2,100
box_w,4
box_h,4
step_x,10
step_y,10
origin_x,3
origin_y,3
spacing,2
fill_spacing,2
win_w,50
win_h,50
win_step_x,25
win_step_y,25
win_x,0
win_y,0
win_nx,3
win_ny,3
min,300000
max,800000
tile_nx,4
tile_ny,4
layer,7
datatype,0
fill_layer,10
fill_datatype,1
top,TOP
fill_lib,FILL
fill_cell,BOX4
fill_top,FILLTOP
";

/// The report of nothing.
pub(crate) const NOTHING: &[u8] = b"0,0,0,0,50,50,0,0,0,0,LOW
1,0,25,0,75,50,0,0,0,0,LOW
2,0,50,0,100,50,0,0,0,0,LOW
0,1,0,25,50,75,0,0,0,0,LOW
1,1,25,25,75,75,0,0,0,0,LOW
2,1,50,25,100,75,0,0,0,0,LOW
0,2,0,50,50,100,0,0,0,0,LOW
1,2,25,50,75,100,0,0,0,0,LOW
2,2,50,50,100,100,0,0,0,0,LOW
";

/// A design whose top draws nothing.
pub(crate) const EMPTY: &[u8] = &[
    0x00, 0x06, 0x00, 0x02, 0x02, 0x58, 0x00, 0x1c, 0x01, 0x02, 0x00, 0x00, 0x00, 0x00, 0x00, 0x00,
    0x00, 0x00, 0x00, 0x00, 0x00, 0x00, 0x00, 0x00, 0x00, 0x00, 0x00, 0x00, 0x00, 0x00, 0x00, 0x00,
    0x00, 0x00, 0x00, 0x08, 0x02, 0x06, 0x4c, 0x49, 0x42, 0x00, 0x00, 0x14, 0x03, 0x05, 0x41, 0x10,
    0x00, 0x00, 0x00, 0x00, 0x00, 0x00, 0x41, 0x10, 0x00, 0x00, 0x00, 0x00, 0x00, 0x00, 0x00, 0x1c,
    0x05, 0x02, 0x00, 0x00, 0x00, 0x00, 0x00, 0x00, 0x00, 0x00, 0x00, 0x00, 0x00, 0x00, 0x00, 0x00,
    0x00, 0x00, 0x00, 0x00, 0x00, 0x00, 0x00, 0x00, 0x00, 0x00, 0x00, 0x08, 0x06, 0x06, 0x54, 0x4f,
    0x50, 0x00, 0x00, 0x04, 0x07, 0x00, 0x00, 0x04, 0x04, 0x00,
];

#[test]
fn a_script_and_a_design_without_metal_are_reported(rt: HostRuntime) {
    let mut of_rects = Vec::new(rt.alloc());
    let done = rects(
        &rt,
        rt.alloc(),
        &mut Tap::new(RULES),
        &mut Tap::new(b"".as_slice()),
        &mut Tap::new(&mut of_rects),
    );
    assert_eq!(rt; done, Ok(()));
    assert!(rt; of_rects.as_slice() == NOTHING);
    let mut of_check = Vec::new(rt.alloc());
    let done = check(
        &rt,
        rt.alloc(),
        Scope::Whole,
        &mut Tap::new(RULES),
        &mut Tap::new(EMPTY),
        &mut Tap::new(&mut of_check),
    );
    assert_eq!(rt; done, Ok(()));
    assert!(rt; of_check.as_slice() == NOTHING);
}

/// A reader that always fails.
#[derive(Drop)]
pub(crate) struct Broken;

impl Read for Broken {
    fn read(&mut self, _buf: &mut [u8]) -> io::Result<usize> {
        Err(io::Error::from(ErrorKind::ConnectionReset))
    }
}

/// Why `rects` gives up.
fn refusal<R: Read + Drop, S: Read + Drop>(
    rt: &(impl Threads + Sync),
    alloc: Global,
    rules: R,
    script: S,
) -> Option<Refusal> {
    let mut out = Tap::new(Vec::new(alloc));
    rects(
        rt,
        alloc,
        &mut Tap::new(rules),
        &mut Tap::new(script),
        &mut out,
    )
    .err()
}

/// Why `check` gives up on a design that can't be read.
fn refusal_of_design(rt: &(impl Threads + Sync), alloc: Global, rules: &[u8]) -> Option<Refusal> {
    let mut out = Tap::new(Vec::new(alloc));
    check(
        rt,
        alloc,
        Scope::Whole,
        &mut Tap::new(rules),
        &mut Tap::new(Broken),
        &mut out,
    )
    .err()
}

/// An input that can't be read is told, but for one behind rules that are refused.
#[test]
fn the_first_fault_is_answered_with_its_part(rt: HostRuntime) {
    let alloc = rt.alloc();
    let missing = Refusal::Rules(InputFault::Refused(RuleError::BadRule {
        key: Key::Number(NumberKey::FrameX1),
    }));
    assert_eq!(rt;
        refusal(&rt, alloc, Broken, b"cut,0,0,x,9".as_slice()),
        Some(Refusal::Rules(InputFault::Unread(InputError::Device)))
    );
    assert_eq!(rt;
        refusal(&rt, alloc, RULES, Broken),
        Some(Refusal::Script(InputFault::Unread(InputError::Device)))
    );
    assert_eq!(rt; refusal(&rt, alloc, b"".as_slice(), Broken), Some(missing));
    assert_eq!(rt;
        refusal_of_design(&rt, alloc, RULES),
        Some(Refusal::Design(InputFault::Unread(InputError::Device)))
    );
    assert_eq!(rt; refusal_of_design(&rt, alloc, b""), Some(missing));
}

/// A writer that takes so many bytes, one at a time, and then fails.
#[derive(Drop)]
pub(crate) struct Short {
    pub(crate) taken: Vec<u8>,
    pub(crate) room: usize,
}

impl Write for Short {
    fn write(&mut self, buf: &[u8]) -> io::Result<usize> {
        if self.taken.len() >= self.room {
            return Err(io::Error::from(ErrorKind::ConnectionReset));
        }
        match buf {
            [first, ..] => {
                self.taken.push(*first)?;
                Ok(1)
            }
            [] => Ok(0),
        }
    }

    fn flush(&mut self) -> io::Result<()> {
        Ok(())
    }
}

#[test]
fn a_writer_that_fails_keeps_a_prefix(rt: HostRuntime) {
    for room in [0, 1, 25, 100] {
        let mut short = Short {
            taken: Vec::new(rt.alloc()),
            room,
        };
        let mut out = Tap::new(&mut short);
        let done = rects(
            &rt,
            rt.alloc(),
            &mut Tap::new(RULES),
            &mut Tap::new(b"".as_slice()),
            &mut out,
        );
        assert_eq!(rt; done, Err(Refusal::Report));
        assert!(rt; NOTHING.starts_with(short.taken.as_slice()) && short.taken.len() == room);
    }
}
