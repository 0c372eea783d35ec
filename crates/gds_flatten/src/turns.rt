//! Neighbouring single references of a link.

ghost use Rattle.std.specs.Prelude.{◌≡◌, ◌⊎◌, ◌+◌, ◌-◌, ◌*◌, ◌<◌, ◌≤◌, ◌^◌};
ghost use Rattle.gds_cells.specs.steps.Ranges.{IsWithin};

use crate::stretch::Stretch;
use gds_cells::{Link, Placement};

/// Neighbouring single references of a link, and how what they draw is carried.
#[derive(Clone, Copy)]
pub struct Turns {
    /// The link.
    pub link: Link,
    /// The number of the first of them.
    pub first: u32,
    /// How many there are.
    pub number: u32,
    /// How what they draw is carried.
    pub placement: Placement,
    /// How many cells the chains from the link's cell on may have.
    pub depth: u32,
    pub ghost some: { 0 < number },
    pub ghost within: { first + number ≤ link.columns * link.rows },
    pub ghost deep: { depth ≤ 256 },
    pub ghost near: { IsWithin (256 - depth) placement },
}

impl Turns {
    /// How many copies they draw, where each draws so many.
    pub fn count(&self, each: usize) -> usize
        requires { each ≤ 4000001 }
        ensures value { result ≡ self.now.number * each }
        ensures few { result ≤ 2 ^ 60 }
    {
        self.number as usize * each
    }

    /// The first of them of which the stretch has copies, where each has so many.
    pub fn begin(&self, each: usize, stretch: Stretch) -> u32
        requires { 0 < each }
        ensures few { result ≤ self.now.number }
        ensures before { result * each ≤ stretch.from }
    {
        (stretch.from / each).min(self.number as usize) as u32
    }

    /// The one behind the last of which the stretch has copies, where each has so many.
    pub fn end(&self, each: usize, stretch: Stretch) -> u32
        requires { 0 < each }
        ensures few { result ≤ self.now.number }
        ensures behind { (result ≡ self.now.number) ⊎ (stretch.to ≤ result * each) }
    {
        stretch.to.div_ceil(each).min(self.number as usize) as u32
    }
}
