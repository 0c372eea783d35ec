//! Blocks of places, as a tile is one.
ghost use Rattle.std.specs.Prelude.{◌≡◌, ◌<◌, true};
ghost use Rattle.fill_raster.specs.Marks as spec;
ghost use Rattle.fill_raster.specs.Marks.{IsBlock, in_block};

use fill_base::Place;

/// The places with their column from `left` on and below `right`, and their row from `bottom` on and below `top`.
#[derive(Clone, Copy, Debug, PartialEq, Eq)]
pub struct Block {
    /// The least column.
    pub left: i64,
    /// The lowest row.
    pub bottom: i64,
    /// The column past the last one.
    pub right: i64,
    /// The row past the last one.
    pub top: i64,
}

impl Block {
    /// Whether a place is of the block.
    pub(crate) fn has(self, place: Place) -> bool
        ensures { result ≡ in_block self place.i place.j }
    {
        ((self.left <= place.i) & (place.i < self.right))
            & ((self.bottom <= place.j) & (place.j < self.top))
    }

    /// How many places the block has.
    pub(crate) fn len(self) -> usize
        requires { IsBlock self }
        ensures { result ≡ spec.block_len self }
    {
        (self.top.abs_diff(self.bottom) * self.right.abs_diff(self.left)) as usize
    }

    /// The index of a place, row by row.
    pub(crate) fn index(self, place: Place) -> usize
        requires block { IsBlock self }
        requires place { in_block self place.i place.j ≡ true }
        ensures index { result ≡ spec.index_in self place.i place.j }
        ensures below { result < spec.block_len self }
    {
        (place.j.abs_diff(self.bottom) * self.right.abs_diff(self.left)
            + place.i.abs_diff(self.left)) as usize
    }
}
