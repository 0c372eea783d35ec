//! References: how each carries the cell that it names (Calma GDSII Stream Format Manual, release
//! 6.0, STRANS, MAG, ANGLE, COLROW and XY), within this project's profile: quarter turns, no
//! magnification, whole steps.

ghost use Rattle.std.specs.Prelude.{◌≡◌, ◌*◌, ◌≤◌, ◌<◌, ◌-ℤ◌, pos, true, false, None, Some, IfOk, IfErr, IfSome, IfNone, unsigned_abs};
ghost use Rattle.std.specs.Int.{int_div_euclid};
ghost use Rattle.gds_record.specs.Numbers.{IsStored};
ghost use Rattle.gds_grammar.specs.Values.{shape_of_reference};
ghost use Rattle.gds_cells.specs.References.{turns_in, is_magnified, is_reflected, has_absolute_angle, is_bad_transform, placement_of, is_count, is_whole, has_steps, step_of, array_placements, array_fault, placements_of, reference_fault};
ghost use Rattle.gds_cells.specs.Links.{stepped, single, singles};
ghost use Rattle.gds_cells.specs.steps.Ranges.{IsWithin};

use crate::error::FlattenError;
use crate::link::Link;
use crate::placement::Placement;
use fill_base::Point;
use gds_grammar::{Array, Ref, Transform};
use gds_record::{quarter_turns, unit_mag};

/// A number, and so many steps of two kinds behind it.
fn stepped(first: i64, column: u32, column_step: i64, row: u32, row_step: i64) -> i64
    requires first { unsigned_abs first ≤ 2147483648 }
    requires columns { column * unsigned_abs column_step ≤ 4294967296 }
    requires rows { row * unsigned_abs row_step ≤ 4294967296 }
    ensures value { result ≡ stepped first column column_step row row_step }
    ensures near { unsigned_abs result ≤ 1 * 68719476736 }
{
    first + i64::from(column) * column_step + i64::from(row) * row_step
}

impl Link {
    /// How the single reference at this index carries the cell; the indices go row by row.
    pub fn single(&self, index: u32) -> Placement
        requires { index < self.now.columns * self.now.rows }
        ensures is { result ≡ single self.now index }
        ensures near { IsWithin 1 result }
    {
        let column = index % self.columns;
        let row = index / self.columns;
        let first = self.placement;
        let (right, up) = (self.column_step, self.row_step);
        Placement {
            x: stepped(first.x, column, right.x, row, up.x),
            y: stepped(first.y, column, right.y, row, up.y),
            ..first
        }
    }
}

/// Whether the transformation begins with a reflection about the x axis: bit 8000 of STRANS.
fn is_reflected(transform: &Transform) -> bool
    ensures { result ≡ is_reflected transform.now }
{
    transform.flags >> 15 == 1
}

/// Whether the angle is absolute: bit 0002 of STRANS.
fn has_absolute_angle(transform: &Transform) -> bool
    ensures { result ≡ has_absolute_angle transform.now }
{
    (transform.flags >> 1) & 1 == 1
}

/// Whether the magnification is other than 1; left out, it's 1.
fn is_magnified(magnification: Option<[u8; 8]>) -> bool
    ensures { result ≡ is_magnified magnification }
{
    match magnification {
        Some(bytes) => unit_mag(&bytes).is_err(),
        None => false,
    }
}

/// The quarter turns counter-clockwise of an angle, or `None` where it's no multiple of 90 degrees
/// from -360 to 360; left out, it's 0.
fn turns_in(angle: Option<[u8; 8]>) -> Option<u8>
    ensures value { result ≡ turns_in angle }
    ensures few { IfSome result (λ t. t < 4) }
{
    match angle {
        Some(bytes) => quarter_turns(&bytes).ok(),
        None => Some(0),
    }
}

/// How a reference with this transformation carries, moved so.
///
/// # Errors
/// `BadTransform` where the angle is absolute or no quarter turns, or the magnification isn't 1.
fn placement_of(transform: &Transform, by: Point) -> Result<Placement, FlattenError>
    ensures ok { IfOk result (λ p. (is_bad_transform transform.now ≡ false) × (p ≡ placement_of transform.now by)) }
    ensures refused { IfErr result (λ e. (e ≡ FlattenError.BadTransform) × (is_bad_transform transform.now ≡ true)) }
{
    if has_absolute_angle(transform) || is_magnified(transform.magnification) {
        return Err(FlattenError::BadTransform);
    }
    let Some(turns) = turns_in(transform.angle) else {
        return Err(FlattenError::BadTransform);
    };
    Ok(Placement::new(is_reflected(transform), turns, by.x, by.y))
}

/// The one step of a single reference, which leads nowhere.
const NO_STEP: Point = Point { x: 0, y: 0 };

/// How a single reference carries the cell at this index.
///
/// # Errors
/// `BadTransform` where the angle is absolute or no quarter turns, or the magnification isn't 1.
pub fn reference_link(cell: usize, reference: &Ref<'_>) -> Result<Link, FlattenError>
    ensures ok { IfOk result (λ l. (reference_fault (shape_of_reference reference.now) ≡ None) × (l.cell ≡ cell)
        × (singles l ≡ placements_of (shape_of_reference reference.now))) }
    ensures refused { IfErr result (λ e. reference_fault (shape_of_reference reference.now) ≡ Some e) }
{
    let placement = placement_of(&reference.transform, reference.origin)?;
    Ok(Link {
        cell,
        placement,
        columns: 1,
        rows: 1,
        column_step: NO_STEP,
        row_step: NO_STEP,
    })
}

/// Whether an array may have so many columns or rows: from 1 to 32767, as many as two signed bytes
/// tell.
fn is_count(count: u16) -> bool
    ensures { result ≡ is_count count }
{
    1 <= count && count <= 32767
}

/// One of so many steps from one number to another, or `None` where they are no whole numbers.
fn step(from: i64, to: i64, count: u16) -> Option<i64>
    requires some { 0 < count }
    requires near { unsigned_abs (to -ℤ from) ≤ 4294967296 }
    ensures some { IfSome result (λ s. (is_whole (to -ℤ from) count ≡ true)
        × (s ≡ int_div_euclid (to -ℤ from) (pos count))) }
    ensures none { IfNone result (is_whole (to -ℤ from) count ≡ false) }
{
    let way = to - from;
    let count = i64::from(count);
    if way.rem_euclid(count) == 0 {
        Some(way.div_euclid(count))
    } else {
        None
    }
}

/// One of so many steps from one point to another, or `None` where they are no whole numbers.
fn step_between(from: Point, to: Point, count: u16) -> Option<Point>
    requires some { 0 < count }
    requires from { IsStored from }
    requires to { IsStored to }
    ensures some { IfSome result (λ d. (has_steps from to count ≡ true) × (d ≡ step_of from to count)) }
    ensures none { IfNone result (has_steps from to count ≡ false) }
{
    let x = step(from.x, to.x, count)?;
    let y = step(from.y, to.y, count)?;
    Some(Point { x, y })
}

/// How an array carries the cell at this index: one reference in each column of each row, the points
/// of XY being the origin, the origin behind all columns and the origin behind all rows.
///
/// # Errors
/// `BadTransform` where the angle is absolute or no quarter turns, or the magnification isn't 1, else
/// `BadArray` where there are no columns or rows, more than 32767, or steps that are no whole numbers.
pub fn array_link(cell: usize, array: &Array<'_>) -> Result<Link, FlattenError>
    ensures ok { IfOk result (λ l. (array_fault array.now.transform array.now.columns array.now.rows array.now.points ≡ None) × (l.cell ≡ cell)
        × (singles l ≡ array_placements array.now.transform array.now.columns array.now.rows array.now.points)) }
    ensures refused { IfErr result (λ e. array_fault array.now.transform array.now.columns array.now.rows array.now.points ≡ Some e) }
{
    let placement = placement_of(&array.transform, array.points[0])?;
    if !is_count(array.columns) || !is_count(array.rows) {
        return Err(FlattenError::BadArray);
    }
    let Some(column_step) = step_between(array.points[0], array.points[1], array.columns) else {
        return Err(FlattenError::BadArray);
    };
    let Some(row_step) = step_between(array.points[0], array.points[2], array.rows) else {
        return Err(FlattenError::BadArray);
    };
    Ok(Link {
        cell,
        placement,
        columns: u32::from(array.columns),
        rows: u32::from(array.rows),
        column_step,
        row_step,
    })
}
