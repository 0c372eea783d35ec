//! All windows of a grid, measured by sums of the rectangles in each cell of a mesh, or of a region's runs.
ghost use Rattle.std.specs.Prelude.{◌≡◌, IfOk, All};
ghost use Rattle.std.specs.List.{flat_map};
ghost use Rattle.std.specs.Vec.{vec_items};
ghost use Rattle.fill_area.specs.Density.{AreMeasured, IsArea};
ghost use Rattle.fill_region.specs.Runs.{holds};
ghost use Rattle.fill_region.specs.Squares.{covered};
ghost use Rattle.fill_measure.specs.Sums.{AreSumsOf};

use crate::edges::{Direction, mesh_cuts};
use crate::mesh::Mesh;
use crate::pitch::pitch_of;
use crate::sums::WindowSums;
use fill_area::Windows;
use fill_base::Rect;
use fill_region::Region;
use std::alloc::{AllocError, Global};
use std::slice::from_ref;
use std::thread::Threads;

/// The sums of which each window's area is a difference, however many windows overlap, in terms of the squares that some rectangle of
/// some list holds. The cuts at which windows begin or end, or where these are far more the edges of the rectangles, make a mesh, whose
/// rows of cells are measured on all processors. The sums are the same for any number of them, and however the rectangles are shared out
/// to the lists.
///
/// # Errors
/// `AllocError` where memory is refused.
pub fn sum_rects(
    rt: &(impl Threads + Sync),
    alloc: Global,
    lists: &[Vec<Rect>],
    windows: &Windows,
) -> Result<WindowSums, AllocError>
    ensures windows { IfOk result (λ s. s.windows ≡ windows.now) }
    ensures sums { IfOk result (AreSumsOf (covered (flat_map vec_items lists.now))) }
{
    let pitch = pitch_of(lists, windows);
    let across = mesh_cuts(
        alloc,
        lists,
        windows.parts_across(),
        Direction::Across,
        pitch.across,
    )?;
    let up = mesh_cuts(alloc, lists, windows.parts_up(), Direction::Up, pitch.up)?;
    let mesh = Mesh {
        lists,
        across: &across,
        up: &up,
    };
    let prefix_sums = mesh.prefix_sums(rt, alloc)?;
    WindowSums::new(alloc, windows, across, up, prefix_sums)
}

/// How many squares that count of each window are in the region: row by row, the window in column `a` and row `b` at
/// `b * columns + a`. They are the sums of the region's runs, measured on all processors. The list is the same for any number of them.
///
/// # Errors
/// `AllocError` where memory is refused.
pub fn measure_all(
    rt: &(impl Threads + Sync),
    alloc: Global,
    region: &Region,
    windows: &Windows,
) -> Result<Vec<i64>, AllocError>
    ensures areas { IfOk result (λ v. AreMeasured (holds region.now) windows.now v.items) }
    ensures bounded { IfOk result (λ v. All IsArea v.items) }
{
    let runs = region.pieces(alloc)?;
    sum_rects(rt, alloc, from_ref(&runs), windows)?.areas(rt, alloc)
}
