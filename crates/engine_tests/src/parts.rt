//! A chip of one part: its lines, its fill, and the fill library read and written again.

use crate::fills::FILLED;
use crate::inputs::{EMPTY, NOTHING, RULES};
use densfill_engine::{Crew, Inputs, Joiner, Scope, check, prepare};
use densfill_io::Tap;
use fill_parts::Part;
use std::test::Fail;

#[test]
fn a_part_has_the_lines_of_its_rows(rt: HostRuntime) -> Result<(), Fail> {
    let mut written = Vec::new(rt.alloc());
    let whole = Part::new(1, 1).ok_or("no such part")?;
    check(
        &rt,
        rt.alloc(),
        Scope::Part(whole),
        &mut Tap::new(RULES),
        &mut Tap::new(EMPTY),
        &mut Tap::new(&mut written),
    )?;
    assert!(rt; written.as_slice() == NOTHING);
    Ok(())
}

#[test]
fn a_fill_library_is_read_and_written_again(rt: HostRuntime) -> Result<(), Fail> {
    let alloc = rt.alloc();
    let whole = Part::new(1, 1).ok_or("no such part")?;
    let mut inputs = Inputs {
        rules: Tap::new(RULES),
        design: Tap::new(EMPTY),
        script: Tap::new(b"".as_slice()),
    };
    let crew = Crew {
        workers: 1,
        limit: None,
    };
    let filled = prepare(&rt, alloc, &mut inputs, Scope::Part(whole), crew)?;
    assert!(rt; filled.report.as_slice() == FILLED);
    let joiner = Joiner::begin(alloc, &mut Tap::new(RULES), 1)?;
    let joiner = joiner.take(alloc, &mut Tap::new(filled.library.as_slice()))?;
    assert!(rt; joiner.text(alloc)? == filled.library);
    Ok(())
}
