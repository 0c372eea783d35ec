//! Large lists cut in two again and again, until few rectangles are left.
ghost use denote.Param.Send.{IsSync};
ghost use Rattle.std.specs.Prelude.{◌≡◌, IfOk};
ghost use Rattle.fill_region.specs.Operands.{wanted};
ghost use Rattle.fill_region.specs.Steps.{AreRunsOf};

use crate::joins::joined;
use crate::lines::Line;
use crate::operands::Operands;
use crate::rows::runs_of_bands;
use crate::sweep::runs_swept;
use fill_base::Rect;
use rayon::join;
use std::alloc::{AllocError, Global};
use std::thread::Threads;

/// So many rectangles are swept at once.
const FEW: usize = 256;

/// More than so many rectangles are shared out to two threads.
const MANY: usize = 8_192;

/// As many as are not shared out are swept at once where a row of squares crosses so many of them on the average.
const CROSSED: usize = 16;

/// A list is shared out to two threads so many times at most, one in the other.
const FORKS: u32 = 10;

/// How many rectangles are looked at where a line is chosen, evenly spaced in their lists.
const SAMPLES: usize = 48;

/// A list is cut in two so many times at most.
const MOST_CUTS: u32 = 64;

/// Some of the rectangles.
fn sample_of(alloc: Global, operands: &Operands) -> Result<Vec<Rect>, AllocError> {
    let every = (operands.len() / SAMPLES).max(1);
    let mut sample = Vec::new(alloc);
    for rect in operands.first.iter().step_by(every) {
        sample.push(*rect)?;
    }
    for rect in operands.second.iter().step_by(every) {
        sample.push(*rect)?;
    }
    Ok(sample)
}

/// Numbers that part a list of them in quarters.
fn quarters(alloc: Global, mut numbers: Vec<i64>) -> Result<Vec<i64>, AllocError> {
    numbers.sort()?;
    let every = (numbers.len() / 4).max(1);
    let mut parting = Vec::new(alloc);
    for number in numbers.iter().step_by(every).skip(1) {
        parting.push(*number)?;
    }
    Ok(parting)
}

/// The left and right edges of the rectangles, but for the outermost.
fn inner_columns(alloc: Global, rects: &[Rect]) -> Result<Vec<i64>, AllocError> {
    let left = rects.iter().map(|rect| rect.x1()).min();
    let right = rects.iter().map(|rect| rect.x2()).max();
    let mut columns = Vec::new(alloc);
    for rect in rects {
        if Some(rect.x1()) != left {
            columns.push(rect.x1())?;
        }
        if Some(rect.x2()) != right {
            columns.push(rect.x2())?;
        }
    }
    Ok(columns)
}

/// The lower and upper edges of the rectangles, but for the outermost.
fn inner_rows(alloc: Global, rects: &[Rect]) -> Result<Vec<i64>, AllocError> {
    let bottom = rects.iter().map(|rect| rect.y1()).min();
    let top = rects.iter().map(|rect| rect.y2()).max();
    let mut rows = Vec::new(alloc);
    for rect in rects {
        if Some(rect.y1()) != bottom {
            rows.push(rect.y1())?;
        }
        if Some(rect.y2()) != top {
            rows.push(rect.y2())?;
        }
    }
    Ok(rows)
}

/// Lines that may be worth a cut: those at quarters of the inner edges.
fn lines_among(alloc: Global, sample: &[Rect]) -> Result<Vec<Line>, AllocError> {
    let mut lines = Vec::new(alloc);
    for column in quarters(alloc, inner_columns(alloc, sample)?)? {
        lines.push(Line::Upright(column))?;
    }
    for row in quarters(alloc, inner_rows(alloc, sample)?)? {
        lines.push(Line::Level(row))?;
    }
    Ok(lines)
}

/// What a cut at the line costs: each rectangle that it crosses is there twice, and the larger part takes longest.
fn cost(sample: &[Rect], line: Line) -> usize {
    let (before, behind) = match line {
        Line::Upright(at) => (
            sample.iter().filter(|rect| rect.x2() <= at).count(),
            sample.iter().filter(|rect| at <= rect.x1()).count(),
        ),
        Line::Level(at) => (
            sample.iter().filter(|rect| rect.y2() <= at).count(),
            sample.iter().filter(|rect| at <= rect.y1()).count(),
        ),
    };
    let crossed = sample.len().saturating_sub(before).saturating_sub(behind);
    crossed.saturating_mul(2).saturating_add(before.max(behind))
}

/// How many of `count` rectangles a row of squares crosses on the average, by a sample of them.
fn crossed_by_row(sample: &[Rect], count: usize) -> usize {
    let mut pairs: usize = 0;
    for rect in sample {
        let row = rect.y1();
        let crossed = sample
            .iter()
            .filter(|other| (other.y1() <= row) & (row < other.y2()))
            .count();
        pairs = pairs.saturating_add(crossed.saturating_sub(1));
    }
    let all = sample.len().saturating_mul(sample.len()).max(1);
    pairs.saturating_mul(count) / all
}

/// How a list is worked on. Any way gives the same runs.
#[derive(Clone, Copy)]
enum Course {
    /// One sweep of all: rows are short.
    Sweep,
    /// By way of bands: each line crosses most of the rectangles.
    Bands,
    /// Cut in two along the line.
    Cut(Line),
}

/// The way that costs least, by a sample of the rectangles.
fn course_for(alloc: Global, operands: &Operands) -> Result<Course, AllocError> {
    let count = operands.len();
    let sample = sample_of(alloc, operands)?;
    if count <= MANY && crossed_by_row(&sample, count) <= CROSSED {
        return Ok(Course::Sweep);
    }
    let mut least = sample.len().saturating_mul(7) / 4;
    let mut best = Course::Bands;
    for line in lines_among(alloc, &sample)? {
        let cost = cost(&sample, line);
        if cost < least {
            least = cost;
            best = Course::Cut(line);
        }
    }
    Ok(best)
}

/// The runs of the squares that the operation keeps, in any order, by way of bands.
fn runs_by_bands(alloc: Global, operands: &Operands) -> Result<Vec<Rect>, AllocError>
    ensures { IfOk result (λ v. AreRunsOf (wanted operands.now) v.items) }
{
    let bands = operands.bands(alloc)?;
    let runs = runs_of_bands(alloc, &bands)?;
    Ok(runs)
}

/// The same, by one sweep where only the first list counts.
fn runs_at_once(alloc: Global, operands: &Operands) -> Result<Vec<Rect>, AllocError>
    ensures { IfOk result (λ v. AreRunsOf (wanted operands.now) v.items) }
{
    if operands.keeps_first() {
        runs_swept(alloc, &operands.first)
    } else {
        runs_by_bands(alloc, operands)
    }
}

/// The runs of the squares that the operation keeps, in any order. The list is cut in two, and the runs of both parts are joined.
#[cycle(parts_alone)]
fn runs_by_cuts(alloc: Global, operands: Operands, cuts: u32) -> Result<Vec<Rect>, AllocError>
    ensures { IfOk result (λ v. AreRunsOf (wanted operands) v.items) }
{
    if cuts == 0 || operands.len() <= FEW {
        return runs_at_once(alloc, &operands);
    }
    let line = match course_for(alloc, &operands)? {
        Course::Sweep => return runs_at_once(alloc, &operands),
        Course::Bands => return runs_by_bands(alloc, &operands),
        Course::Cut(line) => line,
    };
    let before = operands.before(alloc, line)?;
    let behind = operands.behind(alloc, line)?;
    drop(operands);
    let first = runs_by_cuts(alloc, before, cuts - 1)?;
    let second = runs_by_cuts(alloc, behind, cuts - 1)?;
    joined(alloc, first, second, line)
}

/// The runs of the squares that the operation keeps, in any order, by the calling thread alone.
pub(crate) fn runs_alone(alloc: Global, operands: Operands) -> Result<Vec<Rect>, AllocError>
    ensures { IfOk result (λ v. AreRunsOf (wanted operands) v.items) }
{
    runs_by_cuts(alloc, operands, MOST_CUTS)
}

/// The same, where both parts of so many cuts go to threads of their own.
#[cycle(parts)]
fn runs_within<R: Threads + Sync>(
    rt: &R,
    alloc: Global,
    operands: Operands,
    cuts: u32,
) -> Result<Vec<Rect>, AllocError>
    ensures { IfOk result (λ v. AreRunsOf (wanted operands) v.items) }
{
    if cuts == 0 || operands.len() <= MANY {
        return runs_alone(alloc, operands);
    }
    let Course::Cut(line) = course_for(alloc, &operands)? else {
        return runs_alone(alloc, operands);
    };
    let before = operands.before(alloc, line)?;
    let behind = operands.behind(alloc, line)?;
    drop(operands);
    let left = cuts - 1;
    let first = move || -> Result<Vec<Rect>, AllocError>
        requires { IsSync R.row }
        ensures { IfOk result (λ v. AreRunsOf (wanted before) v.items) }
    { runs_within(rt, alloc, before, left) };
    let second = move || -> Result<Vec<Rect>, AllocError>
        requires { IsSync R.row }
        ensures { IfOk result (λ v. AreRunsOf (wanted behind) v.items) }
    { runs_within(rt, alloc, behind, left) };
    let (first, second) = join(rt, first, second);
    let first = first?;
    let second = second?;
    joined(alloc, first, second, line)
}

/// The runs of the squares that the operation keeps, in any order, by as many threads as there are.
pub(crate) fn runs_together<R: Threads + Sync>(
    rt: &R,
    alloc: Global,
    operands: Operands,
) -> Result<Vec<Rect>, AllocError>
    ensures { IfOk result (λ v. AreRunsOf (wanted operands) v.items) }
{
    runs_within(rt, alloc, operands, FORKS)
}
