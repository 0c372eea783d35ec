//! Cuts, and what parts need, of ten rows of places in three rows of tiles under four rows of windows.

use fill_base::Rect;
use fill_parts::{Part, needed_rect};
use fill_text::{ChipRules, Rules, read_chip_rules, read_rules};
use std::alloc::Global;
use std::test::Fail;

/// Tiles of four rows from 3 to 37, from 43 to 77 and, cut, from 83 to 97; windows of 25 rows each.
const RULES: &str = "box_w,4
box_h,4
spacing,2
tile_nx,4
tile_ny,4
layer,7
datatype,0
fill_layer,10
fill_datatype,1
top,TOP
fill_lib,FILL
fill_cell,BOX4
fill_top,FILLTOP
max,800000
min,300000
frame_x1,0
frame_y1,0
frame_x2,100
frame_y2,100
step_x,10
step_y,10
origin_x,3
origin_y,3
fill_spacing,2
win_w,100
win_h,25
win_step_x,100
win_step_y,25
win_x,0
win_y,0
win_nx,1
win_ny,4
";

/// Part `number` of `count`, which there is.
fn part(number: u32, count: u32) -> Result<Part, Fail> {
    Ok(Part::new(number, count).ok_or("no such part")?)
}

/// The rules of these tests.
fn rules(alloc: Global) -> Result<Rules, Fail> {
    Ok(read_rules(alloc, RULES.as_bytes())?)
}

#[test]
fn parts_are_numbered_from_one(rt: HostRuntime) -> Result<(), Fail> {
    assert!(rt; Part::new(0, 4).is_none() && Part::new(5, 4).is_none());
    assert!(rt; Part::new(1, 0).is_none() && Part::new(1, 4097).is_none());
    assert!(rt; Part::new(4096, 4096).is_some());
    Ok(())
}

#[test]
fn ten_rows_in_three_parts(rt: HostRuntime) -> Result<(), Fail> {
    assert!(rt; part(1, 3)?.rows(10) == (0..3));
    assert!(rt; part(2, 3)?.rows(10) == (3..6));
    assert!(rt; part(3, 3)?.rows(10) == (6..10));
    assert!(rt; part(2, 3)?.has_row(10, 3) && !part(2, 3)?.has_row(10, 6));
    Ok(())
}

/// Tiles from 3 to 97 with a spacing of 2 round them lie within the windows; of boxes as far to the right as may be not. A greater fill
/// spacing reaches further, for existing fill.
#[test]
fn a_chip_needs_its_windows_and_what_lies_near_its_boxes(rt: HostRuntime) -> Result<(), Fail> {
    assert!(rt; needed_rect(&rules(rt.alloc())?) == Rect::new(0, 0, 100, 100)?);
    let wide = RULES.replace(rt.alloc(), "win_w,100", "win_w,50")?;
    let wide = read_rules(rt.alloc(), wide.as_bytes())?;
    assert!(rt; needed_rect(&wide) == Rect::new(0, 0, 99, 100)?);
    let apart = RULES.replace(rt.alloc(), "fill_spacing,2", "fill_spacing,5")?;
    let apart = read_rules(rt.alloc(), apart.as_bytes())?;
    assert!(rt; needed_rect(&apart) == Rect::new(-2, -2, 102, 102)?);
    Ok(())
}

/// The rules of a part of this chip.
fn rules_of(alloc: Global, chip: &ChipRules, part: Part) -> Result<Rules, Fail> {
    Ok(part.chip(alloc, chip)?.rules)
}

/// The first quarter has the lowest row of windows; the lowest row of tiles is level with it, and with the next row of windows, which
/// the second row of tiles covers. The last quarter needs the two upper rows of tiles, and takes the lowest too where padding is ignored.
#[test]
fn a_part_has_the_rules_of_a_smaller_chip(rt: HostRuntime) -> Result<(), Fail> {
    let alloc = rt.alloc();
    let chip = read_chip_rules(alloc, RULES.as_bytes())?;
    let first = rules_of(alloc, &chip, part(1, 4)?)?;
    assert!(rt; first.frame() == Rect::new(0, 0, 100, 37)?);
    assert!(rt; first.win_y() == 0 && first.win_ny() == 2);
    let last = rules_of(alloc, &chip, part(4, 4)?)?;
    assert!(rt; last.frame() == Rect::new(0, 43, 100, 100)?);
    assert!(rt; last.win_y() == 25 && last.win_ny() == 3);
    assert!(rt; rules_of(alloc, &chip, part(1, 1)?)? == rules(alloc)?);
    let ignoring = format!(in alloc; "{RULES}padding,ignore\n")?;
    let chip = read_chip_rules(alloc, ignoring.as_bytes())?;
    assert!(rt; rules_of(alloc, &chip, part(1, 4)?)?.frame() == Rect::new(0, 0, 100, 77)?);
    assert!(rt; rules_of(alloc, &chip, part(4, 4)?)?.frame() == Rect::new(0, 0, 100, 100)?);
    Ok(())
}

/// Of the last quarter's two rows of tiles the upper one is its own, and of its three rows of windows the uppermost; one row lies below
/// these. The first eighth looks at no window: its chip is the last one's, without a row of its own.
#[test]
fn a_part_tells_its_own_rows(rt: HostRuntime) -> Result<(), Fail> {
    let alloc = rt.alloc();
    let chip = read_chip_rules(alloc, RULES.as_bytes())?;
    let last = part(4, 4)?.chip(alloc, &chip)?;
    assert!(rt; last.told.tiles == (1..2) && last.told.windows == (2..3));
    assert!(rt; last.told.below == 1);
    assert!(rt; last.needed_rect() == Rect::new(0, 25, 100, 100)?);
    assert!(rt; last.window_rect() == Rect::new(0, 75, 100, 100)?);
    let empty = part(1, 8)?.chip(alloc, &chip)?;
    assert!(rt; empty.rules == rules_of(alloc, &chip, part(8, 8)?)?);
    assert!(rt; empty.told.tiles.is_empty() && empty.told.windows.is_empty());
    Ok(())
}

/// Rows of tiles from 3 to 37, from 43 to 77 and from 83 to 97: one begins below 43, and two below 44.
#[test]
fn rows_of_tiles_up_to_a_line(rt: HostRuntime) -> Result<(), Fail> {
    let places = read_chip_rules(rt.alloc(), RULES.as_bytes())?.place_rows();
    assert!(rt; places.bands_begun(3) == 0 && places.bands_begun(43) == 1);
    assert!(rt; places.bands_begun(44) == 2 && places.bands_begun(100) == 3);
    assert!(rt; places.bands_ended(36) == 0 && places.bands_ended(37) == 1);
    assert!(rt; places.bands_ended(96) == 2 && places.bands_ended(97) == 3);
    Ok(())
}
