//! The command line, as the program's users type it.

use densfill_args::{Line, LineError, read_line};
use std::alloc::AllocError;
use std::process::Abort;
use std::test::Fail;

#[test]
fn rects_takes_two_paths(rt: HostRuntime) -> Result<(), Fail> {
    let line = read_line(
        rt.alloc(),
        ["densfill", "rects", "rules.csv", "edits.csv"].as_slice(),
    );
    match line {
        Ok(Line::Rects { rules, script }) => {
            assert_eq!(rt; rules, "rules.csv");
            assert_eq!(rt; script, "edits.csv");
        }
        _ => assert!(rt; false),
    }
    Ok(())
}

/// Bad parts of a chip.
const BAD_PARTS: &[&str] = &[
    "0/4",
    "5/4",
    "1/4097",
    "0/0",
    "1",
    "a/b",
    "1/",
    "/4",
    "+1/4",
    "1/+4",
    "-1/4",
    " 1/4",
    "1/4/4",
    "1/4294967297",
    "",
];

#[test]
fn check_takes_a_part_in_plain_digits(rt: HostRuntime) {
    for (part, want) in [
        ("1/1", (1, 1)),
        ("3/8", (3, 8)),
        ("4096/4096", (4096, 4096)),
    ] {
        let words = ["densfill", "check", "rules.csv", "chip.gds", "--part", part];
        match read_line(rt.alloc(), words.as_slice()) {
            Ok(
                Line::Check {
                    rules: "rules.csv",
                    design: "chip.gds",
                    part,
                },
            ) => assert!(rt; part == Some(want), "{part:?}"),
            _ => assert!(rt; false, "{part}"),
        }
    }
    for part in BAD_PARTS {
        let words = [
            "densfill",
            "check",
            "rules.csv",
            "chip.gds",
            "--part",
            *part,
        ];
        assert!(rt; is_usage(read_line(rt.alloc(), words.as_slice())), "{part}");
    }
}

#[test]
fn join_takes_rules_out_and_parts(rt: HostRuntime) -> Result<(), Fail> {
    let words = [
        "densfill",
        "join",
        "rules.csv",
        "fill.gds",
        "1.gds",
        "2.gds",
    ];
    match read_line(rt.alloc(), words.as_slice()) {
        Ok(
            Line::Join {
                rules: "rules.csv",
                out: "fill.gds",
                parts,
            },
        ) => assert!(rt; parts.as_slice() == ["1.gds", "2.gds"].as_slice()),
        _ => assert!(rt; false),
    }
    let mut words = vec![in rt.alloc(); "densfill", "join", "rules.csv", "fill.gds"]?;
    assert!(rt; is_usage(read_line(rt.alloc(), words.as_slice())));
    for _ in 0..4096 {
        words.push("part.gds")?;
    }
    assert!(rt; read_line(rt.alloc(), words.as_slice()).is_ok());
    words.push("part.gds")?;
    assert!(rt; is_usage(read_line(rt.alloc(), words.as_slice())));
    Ok(())
}

#[test]
fn check_takes_two_paths(rt: HostRuntime) -> Result<(), Fail> {
    let line = read_line(
        rt.alloc(),
        ["densfill", "check", "rules.csv", "chip.gds"].as_slice(),
    );
    match line {
        Ok(
            Line::Check {
                rules,
                design,
                part: None,
            },
        ) => {
            assert_eq!(rt; rules, "rules.csv");
            assert_eq!(rt; design, "chip.gds");
        }
        _ => assert!(rt; false),
    }
    Ok(())
}

/// The workers and the limit of a line of `fill` with these four paths.
fn numbers_of(line: Result<Line<'_>, LineError>) -> Option<(u32, Option<u32>)> {
    match line {
        Ok(
            Line::Fill {
                rules: "rules.csv",
                design: "chip.gds",
                script: "edits.csv",
                out: "fill.gds",
                part: None,
                workers,
                limit,
            },
        ) => Some((workers, limit)),
        _ => None,
    }
}

#[test]
fn fill_takes_four_paths_workers_and_a_limit(rt: HostRuntime) -> Result<(), Fail> {
    let words = [
        "densfill",
        "fill",
        "rules.csv",
        "chip.gds",
        "edits.csv",
        "fill.gds",
    ];
    assert!(rt; numbers_of(read_line(rt.alloc(), words.as_slice())) == Some((1, None)));
    let words = [
        "densfill",
        "fill",
        "--limit",
        "0",
        "rules.csv",
        "chip.gds",
        "edits.csv",
        "fill.gds",
    ];
    assert!(rt; numbers_of(read_line(rt.alloc(), words.as_slice())) == Some((1, Some(0))));
    let words = [
        "densfill",
        "fill",
        "rules.csv",
        "chip.gds",
        "--workers=64",
        "edits.csv",
        "fill.gds",
        "--limit=4294967295",
    ];
    assert!(rt;
        numbers_of(read_line(rt.alloc(), words.as_slice())) == Some((64, Some(4_294_967_295)))
    );
    Ok(())
}

/// Whether `fill` with this option and four paths is a usage fault.
fn is_fill_refused(rt: &impl AllocGlobal, option: &str) -> bool {
    let words = ["densfill", "fill", option, "a", "b", "c", "d"];
    is_usage(read_line(rt.alloc(), words.as_slice()))
}

/// Options of `fill` that are usage faults.
const BAD_OPTIONS: &[&str] = &[
    "--workers=0",
    "--workers=65",
    "--workers=x",
    "--workers",
    "--limit=4294967296",
    "--limit=-1",
    "--limit=",
];

#[test]
fn numbers_out_of_range_are_usage_faults(rt: HostRuntime) {
    for option in BAD_OPTIONS {
        assert!(rt; is_fill_refused(&rt, *option), "{option}");
    }
    assert!(rt; !is_fill_refused(&rt, "--limit=7"));
}

fn is_usage(line: Result<Line<'_>, LineError>) -> bool {
    matches!(line, Err(LineError::Usage(_)))
}

/// Lines that are usage faults.
const BAD_LINES: &[&[&str]] = &[
    &["densfill"],
    &["densfill", "--help"],
    &["densfill", "help"],
    &["densfill", "rects", "-h"],
    &["densfill", "rects", "a"],
    &["densfill", "check", "a"],
    &["densfill", "check", "--help"],
    &["densfill", "rects", "a", "b", "c"],
    &["densfill", "rects", "--workers", "4", "a", "b"],
    &["densfill", "fill", "a", "b", "c"],
];

#[test]
fn other_lines_are_usage_faults(rt: HostRuntime) {
    for words in BAD_LINES {
        assert!(rt; is_usage(read_line(rt.alloc(), *words)), "{words:?}");
    }
}

/// Asserts the text of the refusal of these words.
fn assert_text(rt: &(impl Abort + AllocGlobal), words: &[&str], want: &str) -> Result<(), Fail> {
    match read_line(rt.alloc(), words) {
        Ok(_) => assert!(rt; false, "{words:?}"),
        Err(error) => {
            let text = format!(in rt.alloc(); "{error}")?;
            assert_eq!(rt; text.as_str(), want);
        }
    }
    Ok(())
}

#[test]
fn a_usage_fault_has_the_text_of_clap(rt: HostRuntime) -> Result<(), Fail> {
    assert_text(
        &rt,
        &["densfill", "rects", "a"],
        "error: the following required arguments were not provided:
  <SCRIPT>

Usage: densfill rects <RULES> <SCRIPT>

For more information, try '--help'.
",
    )?;
    assert_text(
        &rt,
        &["densfill", "dummy"],
        "error: unrecognized subcommand 'dummy'

Usage: densfill <COMMAND>

For more information, try '--help'.
",
    )
}

#[test]
fn help_tells_of_the_program(rt: HostRuntime) -> Result<(), Fail> {
    assert_text(
        &rt,
        &["densfill", "--help"],
        "Checks the metal density of a layout

Usage: densfill <COMMAND>

Commands:
  rects  Reports the density of the metal that a script leaves of nothing
  check  Reports the density of the metal that a design draws
  fill   Fills the windows of a design that have too little metal
  join   Joins the fill libraries of the parts of a chip
  help   Print this message or the help of the given subcommand(s)

Options:
  -h, --help  Print help
",
    )?;
    assert_text(
        &rt,
        &["densfill", "rects", "--help"],
        "Reports the density of the metal that a script leaves of nothing

Usage: densfill rects <RULES> <SCRIPT>

Arguments:
  <RULES>   The rule file
  <SCRIPT>  The script of added and cut rectangles

Options:
  -h, --help  Print help
",
    )?;
    assert_text(
        &rt,
        &["densfill", "check", "--help"],
        "Reports the density of the metal that a design draws

Usage: densfill check [OPTIONS] <RULES> <DESIGN>

Arguments:
  <RULES>   The rule file
  <DESIGN>  The design, a GDSII Stream library

Options:
      --part <K/N>  Part K of N alone: 1 to N of 1 to 4096
  -h, --help        Print help
",
    )
}

#[test]
fn help_tells_of_the_options_of_fill(rt: HostRuntime) -> Result<(), Fail> {
    assert_text(
        &rt,
        &["densfill", "fill", "--help"],
        "Fills the windows of a design that have too little metal

Usage: densfill fill [OPTIONS] <RULES> <DESIGN> <SCRIPT> <OUT>

Arguments:
  <RULES>   The rule file
  <DESIGN>  The design, a GDSII Stream library
  <SCRIPT>  The script of added and cut rectangles
  <OUT>     The fill library to write

Options:
      --workers <NUMBER>  How many workers: 1 to 64
      --limit <NUMBER>    How many turns at most
      --part <K/N>        Part K of N alone: 1 to N of 1 to 4096
  -h, --help              Print help
",
    )
}

#[test]
fn a_refused_allocation_is_want_of_memory(rt: HostRuntime) -> Result<(), Fail> {
    let error = LineError::from(AllocError);
    assert!(rt; matches!(error, LineError::Memory));
    let text = format!(in rt.alloc(); "{error}")?;
    assert_eq!(rt; text.as_str(), "out of memory");
    Ok(())
}
