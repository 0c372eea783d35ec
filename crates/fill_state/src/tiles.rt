//! Which tiles are in.
ghost use Rattle.std.specs.Prelude.{◌≡◌, ◌<◌, ◌≤◌, ◌^◌, ◌*◌, ◌+◌, ◌==◌, ◌||◌, ◌↔◌, true, false, ℕ, Bool, List, length, IfOk, IsTrue};
ghost use Rattle.fill_core.specs.Tiles as spec;
ghost use Rattle.fill_core.specs.Tiles.{next_tile};
ghost use Rattle.fill_state.specs.Tiles.{bits_of, is_in};
ghost use Rattle.fill_state.specs.steps.Words.{IsFullFrom};

use std::alloc::{AllocError, Global};
use std::marker::Model;

/// How many tiles share a word.
const WORD: u32 = 64;

/// A set of tiles, by their numbers from 0 on: one bit for each tile.
#[derive(Drop)]
pub struct TileSet {
    words: Vec<u64>,
    count: u32,
}

impl Model for TileSet {
    ghost Value = { List Bool };

    ghost view = { λ s. bits_of s.count s.words.items };

    ghost invariant = { λ s. s.count ≤ 64 * length s.words.items };
}

impl TileSet {
    /// No tile, with the room for so many.
    ///
    /// # Errors
    /// `AllocError` where memory is refused.
    pub fn none(alloc: Global, count: u32) -> Result<TileSet, AllocError>
        ensures room { IfOk result (λ s. length s ≡ count) }
        ensures none { IfOk result (λ s. (tile : ℕ) → is_in s tile ≡ false) }
    {
        let words = Vec::from_elem(alloc, 0, count.div_ceil(WORD) as usize)?;
        Ok(TileSet { words, count })
    }

    /// Whether a tile is in.
    pub fn has(&self, tile: u32) -> bool
        ensures { result ≡ is_in self.now tile }
    {
        tile < self.count && (self.words[(tile / WORD) as usize] >> (tile % WORD)) & 1 == 1
    }

    /// Takes a tile in.
    pub fn put(&mut self, tile: u32)
        requires { tile < length self.old }
        ensures room { length self.new ≡ length self.old }
        ensures tiles { (t : ℕ) → is_in self.new t ≡ is_in self.old t || (t == tile) }
    {
        self.words[(tile / WORD) as usize] |= 1 << (tile % WORD);
    }

    /// Whether a tile is the first of a word of tiles that are all in.
    fn is_full_from(&self, tile: u32) -> bool
        ensures full { IsTrue result ↔ IsFullFrom self.now tile }
        ensures number { result ≡ true → tile + 64 < 2 ^ 32 }
    {
        let begins_a_word = (tile % WORD == 0) & (tile / WORD < self.count / WORD);
        begins_a_word && self.words[(tile / WORD) as usize] == u64::MAX
    }

    /// The first tile that isn't in, from `from` on and before `past`.
    fn first_open(&self, from: u32, past: u32) -> Option<u32>
        ensures { result ≡ spec.first_open (is_in self.now) from past }
    {
        let mut tile = from;
        'tiles: while tile < past {
            if self.is_full_from(tile) {
                tile += WORD;
            } else if self.has(tile) {
                tile += 1;
            } else {
                return Some(tile);
            }
        }
        None
    }

    /// The first tile at or after `from` and below `count` that isn't in, else the first such tile of all.
    pub fn next(&self, count: u32, from: u32) -> Option<u32>
        ensures { result ≡ next_tile count (is_in self.now) from }
    {
        match self.first_open(from, count) {
            Some(tile) => Some(tile),
            None => self.first_open(0, count),
        }
    }

    /// Whether every tile below `count` is in.
    pub fn is_complete(&self, count: u32) -> bool
        ensures { IsTrue result ↔ ((tile : ℕ) → tile < count → is_in self.now tile ≡ true) }
    {
        self.next(count, 0).is_none()
    }

    /// Takes all tiles out.
    pub fn clear_all(&mut self)
        ensures room { length self.new ≡ length self.old }
        ensures none { (tile : ℕ) → is_in self.new tile ≡ false }
    {
        self.words.fill(0);
    }
}
