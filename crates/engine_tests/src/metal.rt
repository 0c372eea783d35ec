use fill_base::Rect;
use fill_region::Region;
use fill_report::{report_of, report_of_rects};
use fill_text::read_rules;
use std::test::Fail;

/// Rules with a hundred rows of a thousand windows, each of one square.
const RULES: &[u8] = b"frame_x1,0
frame_y1,0
frame_x2,100
frame_y2,100
box_w,4
box_h,4
step_x,10
step_y,10
origin_x,3
origin_y,3
spacing,2
fill_spacing,2
tile_nx,4
tile_ny,4
layer,7
datatype,0
fill_layer,10
fill_datatype,1
top,TOP
fill_lib,FILL
fill_cell,BOX4
fill_top,FILLTOP
win_x,0
win_y,0
win_w,1
win_h,1
win_step_x,1
win_step_y,1
win_nx,1000
win_ny,100
min,300000
max,800000
";

#[test]
fn each_of_100_000_windows_has_its_line(rt: HostRuntime) -> Result<(), Fail> {
    let rules = read_rules(rt.alloc(), RULES)?;
    let metal = Region::from_rects(rt.alloc(), &[Rect::new(999, 99, 1000, 100)?])?;
    let text = report_of(&rt, rt.alloc(), &metal, &rules)?;
    let lines = text.iter().filter(|c| **c == b'\n').count();
    assert_eq!(rt; lines, 100_000);
    assert!(rt; text.starts_with(b"0,0,0,0,1,1,0,0,0,0,LOW\n1,0,1,0,2,1,0,0,0,0,LOW\n"));
    assert!(rt; text.ends_with(b"\n999,99,999,99,1000,100,1,0,1,1000000,HIGH\n"));
    Ok(())
}

#[test]
fn parts_have_the_lines_of_neighbouring_windows(rt: HostRuntime) -> Result<(), Fail> {
    let rules = read_rules(rt.alloc(), RULES)?;
    let mut lists = Vec::new(rt.alloc());
    lists.push(Vec::new(rt.alloc()))?;
    lists.push(vec![in rt.alloc(); Rect::new(125, 3, 126, 4)?]?)?;
    lists.push(vec![in rt.alloc(); Rect::new(125, 3, 126, 4)?]?)?;
    let parts = report_of_rects(&rt, rt.alloc(), lists, &rules)?;
    let text = parts.concat(rt.alloc())?;
    let lines = text.iter().filter(|c| **c == b'\n').count();
    assert_eq!(rt; lines, 100_000);
    // Thirty-two parts have 3,125 windows each, so the second begins in the fourth row. Its one square is in two lists, and counts once.
    assert_eq!(rt; parts.len(), 32);
    assert!(rt;
        parts.get(1).is_some_and(|part| part.starts_with(
            b"125,3,125,3,126,4,1,0,1,1000000,HIGH\n126,3,"
        ))
    );
    Ok(())
}
