//! Marks for the places of one tile.
ghost use Rattle.std.specs.Prelude.{◌≡◌, ◌&&◌, ◌||◌, ◌<◌, ◌*◌, ◌≤◌, ℤ, ◌≤ℤ◌, ◌<ℤ◌, true, false, not, IfOk, IfSome, IfNone};
ghost use Rattle.std.specs.Ordering.{int_eq};
ghost use Rattle.fill_raster.specs.Lattice as lattice;
ghost use Rattle.fill_raster.specs.Lattice.{in_tile};
ghost use Rattle.fill_raster.specs.Marks.{Marked, AreMarks, in_block, is_marked, count_marked};

use crate::bits::{WORD, clear_bit, has_bit, set_bit};
use crate::block::Block;
use crate::raster::Raster;
use fill_base::Place;
use std::alloc::{AllocError, Global};
use std::marker::Model;

/// A set of places of one tile: one bit for each place of the tile.
#[derive(Drop)]
pub struct Marks {
    block: Block,
    words: Vec<u64>,
    count: u32,
}

impl Model for Marks {
    ghost Value = { Marked };

    ghost view = { λ m. record { block = m.block; bits = m.words.items } };

    ghost invariant = { λ m. AreMarks (record { block = m.block; bits = m.words.items }) m.count };
}

impl Marks {
    /// No place of a tile, with the room for all of them.
    ///
    /// # Errors
    /// `AllocError` where memory is refused.
    pub fn none(alloc: Global, raster: &Raster, tile: u32) -> Result<Marks, AllocError>
        requires { tile < lattice.tiles raster.now }
        ensures tile { IfOk result (λ m. (i j : ℤ) → in_block m.block i j ≡ in_tile raster.now tile i j) }
        ensures none { IfOk result (λ m. (i j : ℤ) → is_marked m i j ≡ false) }
    {
        let block = raster.block(tile);
        let words = Vec::from_elem(alloc, 0, block.len().div_ceil(WORD))?;
        Ok(Marks {
            block,
            words,
            count: 0,
        })
    }

    /// Whether a place is of the tile, so that it may be marked.
    pub fn has_place(&self, place: Place) -> bool
        ensures { result ≡ in_block self.now.block place.i place.j }
    {
        self.block.has(place)
    }

    /// Marks a place of the tile.
    pub fn set(&mut self, place: Place)
        requires { in_block self.old.block place.i place.j ≡ true }
        ensures block { self.new.block ≡ self.old.block }
        ensures marked { (i j : ℤ) → is_marked self.new i j ≡ is_marked self.old i j || (int_eq i place.i && int_eq j place.j) }
    {
        let k = self.block.index(place);
        if !has_bit(&self.words, k) {
            set_bit(&mut self.words, k);
            self.count += 1;
        }
    }

    /// Takes the mark off a place of the tile.
    pub fn clear(&mut self, place: Place)
        requires { in_block self.old.block place.i place.j ≡ true }
        ensures block { self.new.block ≡ self.old.block }
        ensures marked { (i j : ℤ) → is_marked self.new i j ≡ is_marked self.old i j && not (int_eq i place.i && int_eq j place.j) }
    {
        let k = self.block.index(place);
        if has_bit(&self.words, k) {
            clear_bit(&mut self.words, k);
            self.count -= 1;
        }
    }

    /// Whether a place is marked: `false` for a place of another tile.
    pub fn has(&self, place: Place) -> bool
        ensures { result ≡ is_marked self.now place.i place.j }
    {
        self.block.has(place) && has_bit(&self.words, self.block.index(place))
    }

    /// The first column from the place's on, in the place's row of the tile, that is marked, or that is not, as `marked` asks.
    pub fn first_from(&self, place: Place, marked: bool) -> Option<i64>
        requires { in_block self.now.block place.i place.j ≡ true }
        ensures found { IfSome result (λ i. place.i ≤ℤ i × (in_block self.now.block i place.j ≡ true) × (is_marked self.now i place.j ≡ marked)) }
        ensures before { IfSome result (λ i. (k : ℤ) → place.i ≤ℤ k → k <ℤ i → is_marked self.now k place.j ≡ not marked) }
        ensures none { IfNone result ((k : ℤ) → place.i ≤ℤ k → in_block self.now.block k place.j ≡ true → is_marked self.now k place.j ≡ not marked) }
    {
        for i in place.i..self.block.right {
            if self.has(Place { i, j: place.j }) == marked {
                return Some(i);
            }
        }
        None
    }

    /// How many places are marked.
    pub fn count(&self) -> u32
        ensures { result ≡ count_marked self.now }
    {
        self.count
    }
}
