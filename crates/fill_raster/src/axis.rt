//! The places of a raster along one axis: the columns from left to right, or the rows upwards.
ghost use Rattle.std.specs.Prelude.{◌≡◌, ◌<◌, ◌≤◌, ◌^◌, ◌≤ℤ◌, ◌<ℤ◌, true, IsTrue, ◌↔◌};
ghost use Rattle.fill_base.specs.Limits.{IsSpacing};
ghost use Rattle.fill_raster.specs.Axes.{IsAxis, IsPitch, is_on};
ghost use Rattle.fill_raster.specs.Axes as spec;

use fill_base::{HIGHEST, LOWEST};

/// Boxes of one length along a line, in database units: that of place `i`, any whole number, begins `i` steps after the
/// origin. The raster's places are those whose box lies between the frame's edges, in bands from the least place on.
#[derive(Clone, Copy, Debug, PartialEq, Eq)]
pub struct Axis {
    /// The frame's lower edge.
    pub low: i64,
    /// The frame's upper edge.
    pub high: i64,
    /// How long a box is.
    pub length: i64,
    /// How far one box begins after the one before.
    pub step: i64,
    /// Where the box of place 0 begins.
    pub origin: i64,
    /// How many places a band has; the last band may have fewer.
    pub band: u32,
}

impl Axis {
    /// Whether a step is at least the length of a box and a spacing.
    pub(crate) fn keeps_pitch(self, spacing: i64) -> bool
        requires axis { IsAxis self }
        requires spacing { IsSpacing spacing }
        ensures { IsTrue result ↔ IsPitch self spacing }
    {
        self.length + spacing <= self.step
    }

    /// The least place of the raster.
    pub(crate) fn first(self) -> i64
        requires { IsAxis self }
        ensures { result ≡ spec.first self }
    {
        -(self.origin - self.low).div_euclid(self.step)
    }

    /// The place past the last one of the raster; the least one where there is none.
    pub(crate) fn past(self) -> i64
        requires { IsAxis self }
        ensures { result ≡ spec.past self }
    {
        let last = (self.high - self.length - self.origin).div_euclid(self.step);
        self.first().max(last + 1)
    }

    /// How many places of the raster there are.
    pub(crate) fn extent(self) -> u64
        requires { IsAxis self }
        ensures { result ≡ spec.extent self }
    {
        self.past().abs_diff(self.first())
    }

    /// Whether a place is the raster's.
    pub(crate) fn has(self, i: i64) -> bool
        requires { IsAxis self }
        ensures { result ≡ is_on self i }
    {
        (self.first() <= i) & (i < self.past())
    }

    /// Where the box of a place begins.
    pub(crate) fn box_begin(self, i: i64) -> i64
        requires axis { IsAxis self }
        requires place { is_on self i ≡ true }
        ensures { result ≡ spec.box_begin self i }
    {
        self.origin + i * self.step
    }

    /// Where the box of a place ends.
    pub(crate) fn box_end(self, i: i64) -> i64
        requires axis { IsAxis self }
        requires place { is_on self i ≡ true }
        ensures { result ≡ spec.box_end self i }
    {
        self.box_begin(i) + self.length
    }

    /// How many bands there are.
    pub fn bands(self) -> u32
        requires { IsAxis self }
        ensures { result ≡ spec.bands self }
    {
        self.extent().div_ceil(u64::from(self.band)) as u32
    }

    /// The band of a place.
    pub(crate) fn band_of(self, i: i64) -> u32
        requires axis { IsAxis self }
        requires place { is_on self i ≡ true }
        ensures { result ≡ spec.band_of self i }
    {
        (i.abs_diff(self.first()) / u64::from(self.band)) as u32
    }

    /// The least place of a band.
    pub(crate) fn band_first(self, g: u32) -> i64
        requires axis { IsAxis self }
        requires index { g < spec.bands self }
        ensures { result ≡ spec.band_first self g }
    {
        self.first() + i64::from(g) * i64::from(self.band)
    }

    /// The place past the last one of a band.
    pub(crate) fn band_past(self, g: u32) -> i64
        requires axis { IsAxis self }
        requires index { g < spec.bands self }
        ensures { result ≡ spec.band_past self g }
    {
        (self.band_first(g) + i64::from(self.band)).min(self.past())
    }

    /// Where the first box of a band begins.
    pub fn band_begin(self, g: u32) -> i64
        requires axis { IsAxis self }
        requires index { g < spec.bands self }
        ensures { result ≡ spec.band_begin self g }
    {
        self.box_begin(self.band_first(g))
    }

    /// Where the last box of a band ends.
    pub fn band_end(self, g: u32) -> i64
        requires axis { IsAxis self }
        requires index { g < spec.bands self }
        ensures { result ≡ spec.band_end self g }
    {
        self.box_end(self.band_past(g) - 1)
    }

    /// Where the halo of a band begins: a spacing before its first box, but within the coordinates.
    pub(crate) fn halo_begin(self, g: u32, spacing: i64) -> i64
        requires axis { IsAxis self }
        requires index { g < spec.bands self }
        requires spacing { IsSpacing spacing }
        ensures { result ≡ spec.halo_begin self g spacing }
    {
        (self.band_begin(g) - spacing).max(LOWEST)
    }

    /// Where the halo of a band ends: a spacing after its last box, but within the coordinates.
    pub(crate) fn halo_end(self, g: u32, spacing: i64) -> i64
        requires axis { IsAxis self }
        requires index { g < spec.bands self }
        requires spacing { IsSpacing spacing }
        ensures { result ≡ spec.halo_end self g spacing }
    {
        (self.band_end(g) + spacing).min(HIGHEST)
    }
}
