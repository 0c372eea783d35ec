//! Rule files and scripts that are taken, and texts of refusals. What is refused, and why, is told by cases/.
use fill_area::Windows;
use fill_base::{Layer, Point, Rect};
use fill_raster::Raster;
use fill_text::{
    AlsoKey, ChipRows, Edit, Key, NumberKey, OptionalKey, RuleError, ScriptError, TextKey,
    read_chip_rules, read_rules, read_script,
};
use std::alloc::Global;
use std::test::Fail;

/// A rule file, a record a line.
const RULES: [&str; 32] = [
    "frame_x1,0",
    "frame_y1,0",
    "frame_x2,100",
    "frame_y2,100",
    "box_w,4",
    "box_h,4",
    "step_x,10",
    "step_y,10",
    "origin_x,3",
    "origin_y,3",
    "spacing,2",
    "fill_spacing,2",
    "win_w,50",
    "win_h,50",
    "win_step_x,25",
    "win_step_y,25",
    "win_x,0",
    "win_y,0",
    "win_nx,3",
    "win_ny,3",
    "min,300000",
    "max,800000",
    "tile_nx,4",
    "tile_ny,4",
    "layer,7",
    "datatype,0",
    "fill_layer,10",
    "fill_datatype,1",
    "top,TOP",
    "fill_lib,FILL",
    "fill_cell,BOX4",
    "fill_top,FILLTOP",
];

/// The rule file with the record `at`, from 1, written in another way.
fn rules_with(alloc: Global, at: usize, record: &str) -> Result<Vec<u8>, Fail> {
    let mut text = Vec::new(alloc);
    for (i, line) in RULES.iter().enumerate() {
        let line = if i + 1 == at { record } else { *line };
        text.extend_from_slice(line.as_bytes())?;
        text.push(b'\n')?;
    }
    Ok(text)
}

/// A rule file in which no two rules have one value, so that none can stand for another.
const DISTINCT_RULES: &[u8] = b"fill_top,B
fill_cell,C
fill_lib,L
top,T
fill_datatype,13
fill_layer,14
datatype,1
layer,65535
tile_ny,8
tile_nx,7
max,820000
min,310000
win_ny,2
win_nx,3
win_y,-28
win_x,-27
win_step_y,36
win_step_x,35
win_h,44
win_w,43
fill_spacing,12
spacing,11
origin_y,-10
origin_x,-9
step_y,18
step_x,17
box_h,6
box_w,5
frame_y2,204
frame_x2,203
frame_y1,-102
frame_x1,-101
";

#[test]
fn every_rule_has_its_value(rt: HostRuntime) -> Result<(), Fail> {
    let rules = read_rules(rt.alloc(), DISTINCT_RULES)?;
    assert_eq!(rt; rules.frame(), Rect::new(-101, -102, 203, 204)?);
    let frame = [
        rules.frame_x1(),
        rules.frame_y1(),
        rules.frame_x2(),
        rules.frame_y2(),
    ];
    assert_eq!(rt; frame, [-101, -102, 203, 204]);
    let origin = Point { x: -9, y: -10 };
    let places = Raster::new(rules.frame(), (5, 6), (17, 18), origin, 12, (7, 8));
    assert_eq!(rt; places, Ok(rules.raster()));
    let raster = [
        rules.box_w(),
        rules.box_h(),
        rules.step_x(),
        rules.step_y(),
        rules.origin_x(),
        rules.origin_y(),
    ];
    assert_eq!(rt; raster, [5, 6, 17, 18, -9, -10]);
    assert_eq!(rt; [rules.spacing(), rules.fill_spacing()], [11, 12]);
    let sides = [
        rules.win_w(),
        rules.win_h(),
        rules.win_step_x(),
        rules.win_step_y(),
    ];
    assert_eq!(rt; sides, [43, 44, 35, 36]);
    let windows = [rules.win_x(), rules.win_y(), rules.win_nx(), rules.win_ny()];
    assert_eq!(rt; windows, [-27, -28, 3, 2]);
    let rest = [rules.min(), rules.max(), rules.tile_nx(), rules.tile_ny()];
    assert_eq!(rt; rest, [310_000, 820_000, 7, 8]);
    let layers = [rules.layer(), rules.datatype(), rules.fill_datatype()];
    assert_eq!(rt; layers, [65_535, 1, 13]);
    let metal = Layer {
        layer: 65_535,
        data_type: 1,
    };
    let fill = Layer {
        layer: 14,
        data_type: 13,
    };
    assert_eq!(rt; [rules.metal_layer(), rules.fill_layer()], [metal, fill]);
    let want = Windows::new(Point { x: -27, y: -28 }, (43, 44), (35, 36), (3, 2))?;
    assert_eq!(rt; rules.windows(), want);
    assert!(rt; rules.top() == b"T".as_slice());
    assert!(rt; rules.fill_lib() == b"L".as_slice());
    assert!(rt; rules.fill_cell() == b"C".as_slice());
    assert!(rt; rules.fill_top() == b"B".as_slice());
    Ok(())
}

#[test]
fn a_key_prints_as_its_name(rt: HostRuntime) -> Result<(), Fail> {
    let alloc = rt.alloc();
    for (key, want) in [
        (Key::Number(NumberKey::FrameX1), "frame_x1"),
        (Key::Number(NumberKey::WinStepY), "win_step_y"),
        (Key::Number(NumberKey::FillDatatype), "fill_datatype"),
        (Key::Text(TextKey::Top), "top"),
        (Key::Text(TextKey::FillTop), "fill_top"),
        (Key::Optional(OptionalKey::KeepLayer), "keep_layer"),
        (Key::Optional(OptionalKey::KeepDatatype), "keep_datatype"),
        (Key::Also(AlsoKey::Metal), "also_metal"),
        (Key::Also(AlsoKey::Fill), "also_fill"),
        (Key::Also(AlsoKey::Keep), "also_keep"),
        (Key::Padding, "padding"),
    ] {
        let text = format!(in alloc; "{key}")?;
        assert_eq!(rt; text.as_str(), want);
    }
    Ok(())
}

#[test]
fn refusals_print_their_reason(rt: HostRuntime) -> Result<(), Fail> {
    let alloc = rt.alloc();
    for (error, want) in [
        (RuleError::BadRow { line: 3 }, "record 3 is no rule"),
        (
            RuleError::BadNumber { line: 4 },
            "record 4 has a bad number",
        ),
        (
            RuleError::BadRule {
                key: Key::Number(NumberKey::Min),
            },
            "the rule min is missing or out of range",
        ),
        (RuleError::BadRect, "the frame holds no square"),
        (
            RuleError::BadWindows,
            "the windows are too many or out of range",
        ),
        (
            RuleError::BadPitch,
            "a step is below the side of a box and the fill spacing",
        ),
        (
            RuleError::TooManyPlaces,
            "the frame has more than 16777216 places for a box",
        ),
        (RuleError::Memory, "out of memory"),
    ] {
        let text = format!(in alloc; "{error}")?;
        assert_eq!(rt; text.as_str(), want);
    }
    for (error, want) in [
        (ScriptError::BadRow { line: 3 }, "record 3 is no edit"),
        (
            ScriptError::BadNumber { line: 4 },
            "record 4 has a bad number",
        ),
        (ScriptError::TooManyLines, "more than 100,000 records"),
        (ScriptError::Memory, "out of memory"),
    ] {
        let text = format!(in alloc; "{error}")?;
        assert_eq!(rt; text.as_str(), want);
    }
    Ok(())
}

#[test]
fn copies_are_equal_and_other_rules_are_not(rt: HostRuntime) -> Result<(), Fail> {
    let rules = read_rules(rt.alloc(), &rules_with(rt.alloc(), 0, "")?)?;
    let copy = rules.copy(rt.alloc())?;
    assert!(rt; rules == copy && rules.same_as(&copy));
    for (at, record) in [
        (1, "frame_x1,1"),
        (28, "fill_datatype,2"),
        (29, "top,TOQ"),
        (32, "fill_top,FILL"),
    ] {
        let other = read_rules(rt.alloc(), &rules_with(rt.alloc(), at, record)?)?;
        assert!(rt; rules != other && !rules.same_as(&other), "{record}");
    }
    Ok(())
}

/// The rule file with more records behind it.
fn rules_and(alloc: Global, more: &str) -> Result<Vec<u8>, Fail> {
    let mut text = rules_with(alloc, 0, "")?;
    text.extend_from_slice(more.as_bytes())?;
    Ok(text)
}

/// Rules that say zero padding and those that say nothing of it are equal; other keep-outs, and ignored padding, are not.
#[test]
fn optional_rules_have_their_values(rt: HostRuntime) -> Result<(), Fail> {
    let alloc = rt.alloc();
    let plain = read_rules(alloc, &rules_and(alloc, "")?)?;
    assert_eq!(rt; plain.keep_layer(), None);
    assert_eq!(rt; plain.keep_datatype(), None);
    assert!(rt; !plain.ignores_padding());
    let zero = read_rules(alloc, &rules_and(alloc, "padding,zero\n")?)?;
    assert!(rt; plain == zero);
    let keep = read_rules(
        alloc,
        &rules_and(alloc, "keep_datatype,65535\nkeep_layer,0\n")?,
    )?;
    let layer = Layer {
        layer: 0,
        data_type: 65_535,
    };
    assert_eq!(rt; keep.keep_layer(), Some(layer));
    assert_eq!(rt; keep.keep_datatype(), Some(65_535));
    assert!(rt; keep != plain && keep == keep.copy(alloc)?);
    let ignored = read_rules(alloc, &rules_and(alloc, "padding,ignore\n")?)?;
    assert!(rt; ignored != plain && ignored == ignored.copy(alloc)?);
    assert!(rt; ignored.ignores_padding());
    Ok(())
}

fn layer(layer: u16, data_type: u16) -> Layer {
    Layer { layer, data_type }
}

#[test]
fn layers_stand_in_the_order_of_the_file(rt: HostRuntime) -> Result<(), Fail> {
    let alloc = rt.alloc();
    let plain = read_rules(alloc, &rules_and(alloc, "")?)?;
    assert!(rt; plain.metal_layers(alloc)?.as_slice() == [layer(7, 0)].as_slice());
    assert!(rt; plain.existing_layers().is_empty());
    assert!(rt; plain.keep_layers(alloc)?.is_empty());
    let more =
        "also_keep,31/1\nalso_metal,31/2\nalso_fill,33/3\nkeep_layer,31\nalso_fill,32/65535\n\
        also_metal,000000000000000007/0\nkeep_datatype,2\nalso_metal,31/2\n";
    let rules = read_rules(alloc, &rules_and(alloc, more)?)?;
    let metal = [layer(7, 0), layer(31, 2), layer(7, 0), layer(31, 2)];
    let existing = [layer(33, 3), layer(32, 65_535)];
    let keep = [layer(31, 2), layer(31, 1)];
    assert!(rt; rules.metal_layers(alloc)?.as_slice() == metal.as_slice());
    assert!(rt; rules.existing_layers() == existing.as_slice());
    assert!(rt; rules.keep_layers(alloc)?.as_slice() == keep.as_slice());
    assert!(rt; rules != plain && rules == rules.copy(alloc)?);
    Ok(())
}

#[test]
fn a_script_gives_its_edits(rt: HostRuntime) -> Result<(), Fail> {
    let edits = read_script(
        rt.alloc(),
        b"add,0,0,10,10\r\n\nadd,5,5,15,15\n\"cut\",-5,0,\"5\",5\nkeep,7,8,9,10",
    )?;
    let want = [
        Edit::Add(Rect::new(0, 0, 10, 10)?),
        Edit::Add(Rect::new(5, 5, 15, 15)?),
        Edit::Cut(Rect::new(-5, 0, 5, 5)?),
        Edit::Keep(Rect::new(7, 8, 9, 10)?),
    ];
    assert!(rt; edits.as_slice() == want.as_slice());
    assert!(rt; read_script(rt.alloc(), b"")?.is_empty());
    Ok(())
}

#[test]
fn edits_of_one_kind_and_one_rectangle_are_equal(rt: HostRuntime) -> Result<(), Fail> {
    let rect = Rect::new(0, 0, 10, 10)?;
    let wider = Rect::new(0, 0, 11, 10)?;
    assert_eq!(rt; Edit::Add(rect), Edit::Add(rect));
    assert_eq!(rt; Edit::Cut(rect), Edit::Cut(rect));
    assert_ne!(rt; Edit::Add(rect), Edit::Cut(rect));
    assert_ne!(rt; Edit::Add(rect), Edit::Add(wider));
    assert_ne!(rt; Edit::Cut(rect), Edit::Cut(wider));
    assert_eq!(rt; Edit::Keep(rect), Edit::Keep(rect));
    assert_ne!(rt; Edit::Keep(rect), Edit::Add(rect));
    assert_ne!(rt; Edit::Keep(rect), Edit::Keep(wider));
    Ok(())
}

/// Three columns of 2^20 rows of windows are too many for rules, and not for those of a chip; two rows of them are none too many.
#[test]
fn a_chip_has_as_many_windows_as_it_likes(rt: HostRuntime) -> Result<(), Fail> {
    let alloc = rt.alloc();
    let text = rules_with(alloc, 20, "win_ny,1048576")?;
    assert!(rt; read_rules(alloc, &text).err() == Some(RuleError::BadWindows));
    let chip = read_chip_rules(alloc, &text)?;
    assert!(rt; chip.window_rows().count == 1_048_576);
    let rows = ChipRows {
        bottom: 0,
        top: 60,
        first_window: 25,
        windows: 2,
    };
    let rules = chip.with_rows(alloc, rows)?;
    assert!(rt; rules.frame() == Rect::new(0, 0, 100, 60)?);
    assert!(rt; rules.win_y() == 25 && rules.win_ny() == 2);
    let many = ChipRows {
        windows: 400_000,
        ..rows
    };
    assert!(rt; chip.with_rows(alloc, many).err() == Some(RuleError::BadWindows));
    Ok(())
}

/// Ten columns of 10^8 rows of places are too many for rules.
#[test]
fn a_chip_has_as_many_places_as_it_likes(rt: HostRuntime) -> Result<(), Fail> {
    let alloc = rt.alloc();
    let text = rules_with(alloc, 4, "frame_y2,1000000000")?;
    assert!(rt; read_rules(alloc, &text).err() == Some(RuleError::TooManyPlaces));
    let chip = read_chip_rules(alloc, &text)?;
    assert!(rt; chip.place_rows().high == 1_000_000_000);
    let rows = ChipRows {
        bottom: 500_000,
        top: 500_100,
        first_window: 0,
        windows: 3,
    };
    assert!(rt; chip.with_rows(alloc, rows)?.frame_y1() == 500_000);
    let tall = ChipRows {
        top: 500_000_000,
        ..rows
    };
    assert!(rt; chip.with_rows(alloc, tall).err() == Some(RuleError::TooManyPlaces));
    let flat = ChipRows {
        top: 500_000,
        ..rows
    };
    assert!(rt; chip.with_rows(alloc, flat).err() == Some(RuleError::BadRect));
    Ok(())
}

/// A chip's other faults are those of rules, also where it has too many windows.
#[test]
fn a_chip_is_refused_as_rules_are(rt: HostRuntime) -> Result<(), Fail> {
    let alloc = rt.alloc();
    for (at, record) in [
        (2, "frame_y1,100"),
        (7, "step_x,5"),
        (22, "max,299999"),
        (18, "win_y,1073741800"),
    ] {
        let text = rules_with(alloc, at, record)?;
        assert!(rt;
            read_chip_rules(alloc, &text).err() == read_rules(alloc, &text).err(),
            "{record}"
        );
        assert!(rt; read_chip_rules(alloc, &text).is_err(), "{record}");
    }
    Ok(())
}
