//! Cells with a frame over them, and what is found there.

ghost use Rattle.std.specs.Prelude.{◌≡◌, ◌≤◌, []};

use crate::turns::Turns;
use fill_base::Rect;
use gds_cells::Cell;
use gds_shape::Bounds;
use std::alloc::Global;

/// The most copies that a frame may meet.
pub const MOST: usize = 4_000_000;

/// Cells, with a frame over what a top draws of them.
#[derive(Clone, Copy)]
pub struct Framed<'s, 'a, 'b> {
    /// The cells, by index.
    pub cells: &'s [Cell<'a, 'b>],
    /// How many copies each draws.
    pub counts: &'s [usize],
    /// How far what each draws goes.
    pub extents: &'s [Option<Bounds>],
    /// The frame.
    pub frame: &'s Rect,
}

/// What copies draw within a frame, and how many they are.
#[derive(Drop)]
pub struct Found {
    /// The rectangles of copies that meet the frame, and are none of the roots'; they may go past it.
    pub rects: Vec<Rect>,
    /// What lies within the frame as a whole.
    pub roots: Vec<Turns>,
    /// How many copies the roots draw.
    pub inside: usize,
    /// How many copies meet the frame, by their extents.
    pub copies: usize,
    pub ghost fewer: { inside ≤ copies },
    pub ghost few: { copies ≤ 4000000 },
}

impl Found {
    /// Nothing.
    pub fn new(alloc: Global) -> Found
        ensures none { result.copies ≡ 0 }
        ensures empty { result.rects.items ≡ [] }
        ensures rootless { result.roots.items ≡ [] }
        ensures nothing { result.inside ≡ 0 }
    {
        Found {
            rects: Vec::new(alloc),
            roots: Vec::new(alloc),
            inside: 0,
            copies: 0,
        }
    }
}
