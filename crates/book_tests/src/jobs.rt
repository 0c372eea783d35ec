//! Jobs and proposals, and their definitions on small numbers.
ghost use Rattle.std.specs.Prelude.{◌≡◌, true, false, pos};
ghost use Rattle.fill_job.specs.Plans.{conflicts, in_window_of};
ghost use Rattle.fill_job.specs.ReadSets.{touches};
ghost use Rattle.fill_job.specs.steps.Worked.{worked, one_square, one_window};

use fill_base::{Place, Rect};
use fill_job::{Job, Piece, Pieces, Proposal, SharedRules};
use fill_region::Region;
use fill_text::{Rules, read_rules};
use std::alloc::{AllocError, Global};
use std::process::Abort;
use std::test::Fail;

/// The box of place (0, 0) is that from (3, 3) to (7, 7): a square at (8, 8) is a gap of one away, one at (9, 9) a gap of two.
fn corner_gaps()
    ensures one { conflicts worked (one_square (pos 8) (pos 8)) (pos 0) (pos 0) ≡ true }
    ensures two { conflicts worked (one_square (pos 9) (pos 9)) (pos 0) (pos 0) ≡ false }
    ensures left { conflicts worked (one_square (pos 1) (pos 5)) (pos 0) (pos 0) ≡ true }
    ensures further_left { conflicts worked (one_square (pos 0) (pos 5)) (pos 0) (pos 0) ≡ false }
{}

/// The box of place (4, 0) ends at 47, that of (5, 0) begins at 53: the first window, from 0 to 50, holds the first alone.
fn boxes_of_the_first_window()
    ensures inside { in_window_of worked (one_window 0 0) (pos 4) (pos 0) ≡ true }
    ensures outside { in_window_of worked (one_window 0 0) (pos 5) (pos 0) ≡ false }
    ensures above { in_window_of worked (one_window 0 1) (pos 4) (pos 0) ≡ false }
{}

/// The boxes of tile 0 lie between 3 and 37, those of tile 2 between 83 and 97.
fn windows_of_tiles()
    ensures first { touches worked 0 1 1 ≡ true }
    ensures far { touches worked 0 2 0 ≡ false }
    ensures last { touches worked 2 2 0 ≡ true }
    ensures no_window { touches worked 2 3 0 ≡ false }
{}

#[test]
fn definitions_on_small_numbers(_rt: HostRuntime) -> Result<(), Fail> {
    corner_gaps();
    boxes_of_the_first_window();
    windows_of_tiles();
    Ok(())
}

/// The rules but for the least gap to metal: boxes of 4 by 4 at steps of 10 in a frame of 100 by 100, and windows of 50 by 50
/// at steps of 25.
const OTHER_RULES: &str = "frame_x1,0
frame_y1,0
frame_x2,100
frame_y2,100
box_w,4
box_h,4
step_x,10
step_y,10
origin_x,3
origin_y,3
fill_spacing,2
win_w,50
win_h,50
win_step_x,25
win_step_y,25
win_x,0
win_y,0
win_nx,3
win_ny,3
min,300000
max,800000
tile_nx,4
tile_ny,4
layer,7
datatype,0
fill_layer,10
fill_datatype,1
top,TOP
fill_lib,FILL
fill_cell,BOX4
fill_top,FILLTOP
";

/// The rules with this least gap to metal.
fn rules_with(alloc: Global, spacing: u32) -> Result<Rules, Fail> {
    let text = format!(in alloc; "{OTHER_RULES}spacing,{spacing}\n")?;
    Ok(read_rules(alloc, text.as_bytes())?)
}

/// The windows of these columns and rows.
fn windows(alloc: Global, left: i64, bottom: i64, right: i64, top: i64) -> Result<Region, Fail> {
    Ok(Region::one(alloc, &Rect::new(left, bottom, right, top)?)?)
}

/// The job of a tile that the rules have.
fn job_at(
    rt: &impl Abort,
    alloc: Global,
    version: u64,
    tile: u32,
    rules: &Rules,
    metal: &Region,
    low: &Region,
) -> Result<Job, AllocError> {
    if tile >= rules.raster().tiles() {
        panic!(rt; "no tile {tile}");
    }
    let halo = rules.raster().halo(tile, rules.spacing());
    let pieces = Pieces {
        metal: Piece::new(alloc, metal.clip(alloc, &halo)?)?,
        fill: Piece::new(alloc, Region::empty(alloc))?,
        keep: Piece::new(alloc, Region::empty(alloc))?,
    };
    let rules = SharedRules::new(alloc, rules.copy(alloc)?)?;
    Job::new(alloc, version, tile, rules, pieces, low)
}

/// What the job proposes.
fn proposed(rt: &impl Abort, alloc: Global, job: Job) -> Proposal {
    let (version, tile) = (job.version(), job.tile());
    let Ok(proposal) = job.propose(alloc) else {
        panic!(rt; "memory was refused");
    };
    assert_eq!(rt; (proposal.version(), proposal.tile()), (version, tile));
    assert_eq!(rt; proposal.marks().count(), proposal.count());
    proposal
}

/// How many places of a tile are wanted.
fn count_wanted(
    rt: &impl Abort,
    alloc: Global,
    tile: u32,
    rules: &Rules,
    metal: &Region,
    low: &Region,
) -> Result<u32, AllocError> {
    let job = job_at(rt, alloc, 7, tile, rules, metal, low)?;
    Ok(proposed(rt, alloc, job).count())
}

/// Metal at both sides leaves the windows of the middle column low.
#[test]
fn partly_low_places(rt: HostRuntime) -> Result<(), Fail> {
    let alloc = rt.alloc();
    let rules = rules_with(alloc, 2)?;
    let sides = [Rect::new(0, 0, 18, 100)?, Rect::new(82, 0, 100, 100)?];
    let metal = Region::from_rects(alloc, &sides)?;
    let low = windows(alloc, 1, 0, 2, 3)?;
    for (tile, count) in [(0, 4), (1, 12), (2, 0)] {
        let wanted = count_wanted(&rt, alloc, tile, &rules, &metal, &low)?;
        assert_eq!(rt; wanted, count, "tile {tile}");
    }
    Ok(())
}

#[test]
fn last_tile_of_an_empty_design(rt: HostRuntime) -> Result<(), Fail> {
    let alloc = rt.alloc();
    let rules = rules_with(alloc, 2)?;
    let metal = Region::empty(alloc);
    let all = windows(alloc, 0, 0, 3, 3)?;
    let job = job_at(&rt, alloc, 0, 8, &rules, &metal, &all)?;
    let proposal = proposed(&rt, alloc, job);
    assert_eq!(rt; proposal.count(), 4);
    for (i, j, wanted) in [
        (8, 8, true),
        (9, 8, true),
        (8, 9, true),
        (9, 9, true),
        (7, 8, false),
        (8, 7, false),
        (10, 9, false),
    ] {
        assert_eq!(rt; proposal.has(Place { i, j }), wanted, "place {i}, {j}");
        assert_eq!(rt;
            proposal.marks().has(Place { i, j }),
            wanted,
            "mark {i}, {j}"
        );
    }
    let none = Region::empty(alloc);
    assert_eq!(rt; count_wanted(&rt, alloc, 8, &rules, &metal, &none)?, 0);
    Ok(())
}

/// The box of place (0, 0) ends at 7, so a square at (7, 7) meets its corner, and one at (8, 8) is a gap of one away.
#[test]
fn metal_at_a_corner(rt: HostRuntime) -> Result<(), Fail> {
    let alloc = rt.alloc();
    let all = windows(alloc, 0, 0, 3, 3)?;
    for (spacing, x, end, count) in [
        (0, 7, 8, 16),
        (0, 6, 7, 15),
        (1, 7, 8, 15),
        (1, 8, 9, 16),
        (2, 8, 9, 15),
        (2, 9, 10, 16),
    ] {
        let rules = rules_with(alloc, spacing)?;
        let metal = Region::one(alloc, &Rect::new(x, x, end, end)?)?;
        let wanted = count_wanted(&rt, alloc, 0, &rules, &metal, &all)?;
        assert_eq!(rt; wanted, count, "spacing {spacing}, square at {x}");
    }
    Ok(())
}

/// Asserts whether a proposal of tile 0 matches a job of it, whatever the job's version.
fn assert_match(
    rt: &impl Abort,
    alloc: Global,
    proposal: &Proposal,
    rules: &Rules,
    metal: &Region,
    low: &Region,
    same: bool,
) -> Result<(), AllocError> {
    let _ = job_at(rt, alloc, 5, 0, rules, metal, low)?;
    if rules.raster().tiles() == 0 {
        panic!(rt; "no tile");
    }
    let halo = rules.raster().halo(0, rules.spacing());
    let near = metal.clip(alloc, &halo)?;
    let none = Region::empty(alloc);
    assert_eq!(rt; proposal.matches(rules, &near, &none, &none, low), same);
    Ok(())
}

/// The halo of tile 0 is that from 1 to 39: a square beyond it is not read, one on its last column is.
#[test]
fn proposals_match_equal_metal(rt: HostRuntime) -> Result<(), Fail> {
    let alloc = rt.alloc();
    let rules = rules_with(alloc, 2)?;
    let wire = Rect::new(10, 10, 21, 20)?;
    let metal = Region::one(alloc, &wire)?;
    let far = Region::from_rects(alloc, &[wire, Rect::new(39, 0, 50, 50)?])?;
    let near = Region::from_rects(alloc, &[wire, Rect::new(38, 0, 50, 50)?])?;
    let all = windows(alloc, 0, 0, 3, 3)?;
    let proposal = proposed(&rt, alloc, job_at(&rt, alloc, 4, 0, &rules, &metal, &all)?);
    assert_match(&rt, alloc, &proposal, &rules, &metal, &all, true)?;
    assert_match(&rt, alloc, &proposal, &rules, &far, &all, true)?;
    assert_match(&rt, alloc, &proposal, &rules, &near, &all, false)?;
    Ok(())
}

/// The windows of column 2 begin at 50, to the right of the boxes of tile 0.
#[test]
fn proposals_match_equal_windows(rt: HostRuntime) -> Result<(), Fail> {
    let alloc = rt.alloc();
    let rules = rules_with(alloc, 2)?;
    let metal = Region::empty(alloc);
    let all = windows(alloc, 0, 0, 3, 3)?;
    let left = windows(alloc, 0, 0, 2, 2)?;
    let first = windows(alloc, 0, 0, 1, 2)?;
    let proposal = proposed(&rt, alloc, job_at(&rt, alloc, 4, 0, &rules, &metal, &all)?);
    assert_match(&rt, alloc, &proposal, &rules, &metal, &left, true)?;
    assert_match(&rt, alloc, &proposal, &rules, &metal, &first, false)?;
    Ok(())
}

#[test]
fn proposals_match_equal_rules(rt: HostRuntime) -> Result<(), Fail> {
    let alloc = rt.alloc();
    let rules = rules_with(alloc, 2)?;
    let closer = rules_with(alloc, 1)?;
    let metal = Region::empty(alloc);
    let all = windows(alloc, 0, 0, 3, 3)?;
    let proposal = proposed(&rt, alloc, job_at(&rt, alloc, 4, 0, &rules, &metal, &all)?);
    assert_match(&rt, alloc, &proposal, &closer, &metal, &all, false)?;
    Ok(())
}

/// Boxes of 2 by 2 at steps of 3 in a frame of 3,072 by 3,072, a tile of 1,024 by 1,024 places; the least gap to metal is left out.
const WIDE_RULES: &str = "frame_x1,0
frame_y1,0
frame_x2,3072
frame_y2,3072
box_w,2
box_h,2
step_x,3
step_y,3
origin_x,0
origin_y,0
fill_spacing,1
win_w,3072
win_h,3072
win_step_x,3072
win_step_y,3072
win_x,0
win_y,0
win_nx,1
win_ny,1
min,300000
max,800000
tile_nx,1024
tile_ny,1024
layer,7
datatype,0
fill_layer,10
fill_datatype,1
top,TOP
fill_lib,FILL
fill_cell,BOX2
fill_top,FILLTOP
";

/// A bar between each tenth column and the next takes out both of them: 206 of 1,024 columns.
#[test]
fn a_tile_of_a_million_places(rt: HostRuntime) -> Result<(), Fail> {
    let alloc = rt.alloc();
    let text = format!(in alloc; "{WIDE_RULES}spacing,1\n")?;
    let rules = read_rules(alloc, text.as_bytes())?;
    let mut bars = Vec::new(alloc);
    for m in 0..103i32 {
        let x = 30 * i64::from(m) + 2;
        bars.push(Rect::new(x, 0, x + 1, 3072)?)?;
    }
    let metal = Region::from_rects(alloc, &bars)?;
    let low = windows(alloc, 0, 0, 1, 1)?;
    let wanted = count_wanted(&rt, alloc, 0, &rules, &metal, &low)?;
    assert_eq!(rt; wanted, 818 * 1024);
    Ok(())
}
