//! Running sums over windows.
ghost use Rattle.std.specs.Prelude.{◌≡◌, ◌<◌, ℤ, true, IfOk, All};
ghost use Rattle.fill_base.specs.Squares.{squares};
ghost use Rattle.fill_region.specs.Runs.{holds};
ghost use Rattle.fill_area.specs.Density.{AreMeasured, IsArea};
ghost use Rattle.fill_sums.specs.declared.moving.Way.TheVariants.{Up, Down};
ghost use Rattle.fill_sums.specs.Numbers.{AreSums, IsMoved, StaysWithin, WindowNumbers, number_at};

use crate::bounds::bounds;
use crate::moving::{Way, move_all};
use crate::shape::Shape;
use fill_area::Windows;
use fill_base::Rect;
use fill_measure::measure_all;
use fill_region::Region;
use std::alloc::{AllocError, Global};
use std::marker::Model;
use std::thread::Threads;

/// For each window two numbers of squares: those of the metal, and those of metal and boxes. Each is from 0 to the window's area.
/// What changes them takes no memory, and visits only the windows that share a square with what comes or goes.
#[derive(Drop)]
pub struct Sums {
    windows: Windows,
    drawn: Vec<i64>,
    total: Vec<i64>,
}

impl Model for Sums {
    ghost Value = { WindowNumbers };

    ghost view = { λ s. record { windows = s.windows; drawn = s.drawn.items; total = s.total.items } };

    ghost invariant = { λ s. AreSums (record { windows = s.windows; drawn = s.drawn.items; total = s.total.items }) };
}

impl Sums {
    /// The metal's area in each window, as both of its numbers.
    ///
    /// # Errors
    /// `AllocError` where memory is refused.
    pub fn of(
        rt: &(impl Threads + Sync),
        alloc: Global,
        metal: &Region,
        windows: &Windows,
    ) -> Result<Sums, AllocError>
        ensures windows { IfOk result (λ s. s.windows ≡ windows.now) }
        ensures drawn { IfOk result (λ s. AreMeasured (holds metal.now) windows.now s.drawn) }
        ensures total { IfOk result (λ s. AreMeasured (holds metal.now) windows.now s.total) }
    {
        let drawn = measure_all(rt, alloc, metal, windows)?;
        Sums::of_areas(alloc, metal, windows, drawn)
    }

    /// The metal's area in each window, as it was measured, as both of its numbers.
    ///
    /// # Errors
    /// `AllocError` where memory is refused.
    pub fn of_areas(
        alloc: Global,
        metal: &Region,
        windows: &Windows,
        areas: Vec<i64>,
    ) -> Result<Sums, AllocError>
        requires measured { AreMeasured (holds metal.now) windows.now areas.items }
        ensures windows { IfOk result (λ s. s.windows ≡ windows.now) }
        ensures drawn { IfOk result (λ s. AreMeasured (holds metal.now) windows.now s.drawn) }
        ensures total { IfOk result (λ s. AreMeasured (holds metal.now) windows.now s.total) }
    {
        let total = Vec::from_slice(alloc, areas.as_slice())?;
        Ok(Sums {
            windows: *windows,
            drawn: areas,
            total,
        })
    }

    /// The same numbers once more.
    ///
    /// # Errors
    /// `AllocError` where memory is refused.
    pub fn copy(&self, alloc: Global) -> Result<Sums, AllocError>
        ensures { IfOk result (λ s. s ≡ self.now) }
    {
        let drawn = Vec::from_slice(alloc, self.drawn.as_slice())?;
        let total = Vec::from_slice(alloc, self.total.as_slice())?;
        Ok(Sums {
            windows: self.windows,
            drawn,
            total,
        })
    }

    /// The windows.
    pub fn windows(&self) -> &Windows
        ensures { result.now ≡ self.now.windows }
    {
        &self.windows
    }

    /// The metal's area in the window of column `a` and row `b`.
    pub fn drawn(&self, a: u32, b: u32) -> i64
        requires column { a < self.now.windows.across.count }
        requires row { b < self.now.windows.up.count }
        ensures { result ≡ number_at self.now.windows self.now.drawn a b }
    {
        self.drawn[b as usize * self.windows.columns() as usize + a as usize]
    }

    /// The area of metal and boxes in the window of column `a` and row `b`.
    pub fn total(&self, a: u32, b: u32) -> i64
        requires column { a < self.now.windows.across.count }
        requires row { b < self.now.windows.up.count }
        ensures { result ≡ number_at self.now.windows self.now.total a b }
    {
        self.total[b as usize * self.windows.columns() as usize + a as usize]
    }

    /// The areas of metal and boxes in all windows, row by row.
    pub fn totals(&self) -> &[i64]
        ensures totals { result.now ≡ self.now.total }
        ensures sums { AreSums self.now }
        ensures bounded { All IsArea result.now }
    {
        &self.total
    }

    /// Moves the totals by a box.
    pub fn move_box(&mut self, way: Way, rect: &Rect)
        requires stays { StaysWithin way (squares rect.now) self.old.windows self.old.total }
        ensures windows { self.new.windows ≡ self.old.windows }
        ensures drawn { self.new.drawn ≡ self.old.drawn }
        ensures total { IsMoved way (squares rect.now) self.old.windows self.old.total self.new.total }
    {
        move_all(&self.windows, &mut self.total, way, Shape::Box(rect), rect);
    }

    /// Moves both numbers by metal that lies within a rectangle.
    pub fn move_metal(&mut self, way: Way, metal: &Region, within: &Rect)
        requires within { (x y : ℤ) → holds metal.now x y ≡ true → squares within.now x y ≡ true }
        requires drawn_stays { StaysWithin way (holds metal.now) self.old.windows self.old.drawn }
        requires total_stays { StaysWithin way (holds metal.now) self.old.windows self.old.total }
        ensures windows { self.new.windows ≡ self.old.windows }
        ensures drawn { IsMoved way (holds metal.now) self.old.windows self.old.drawn self.new.drawn }
        ensures total { IsMoved way (holds metal.now) self.old.windows self.old.total self.new.total }
    {
        let (windows, shape) = (&self.windows, Shape::Metal(metal));
        move_all(windows, &mut self.drawn, way, shape, within);
        move_all(windows, &mut self.total, way, shape, within);
    }

    /// Adds a box, to the totals alone.
    pub fn add_box(&mut self, rect: &Rect)
        requires room { StaysWithin Up (squares rect.now) self.old.windows self.old.total }
        ensures windows { self.new.windows ≡ self.old.windows }
        ensures drawn { self.new.drawn ≡ self.old.drawn }
        ensures total { IsMoved Up (squares rect.now) self.old.windows self.old.total self.new.total }
    {
        self.move_box(Way::Up, rect);
    }

    /// Takes a box off the totals.
    pub fn drop_box(&mut self, rect: &Rect)
        requires there { StaysWithin Down (squares rect.now) self.old.windows self.old.total }
        ensures windows { self.new.windows ≡ self.old.windows }
        ensures drawn { self.new.drawn ≡ self.old.drawn }
        ensures total { IsMoved Down (squares rect.now) self.old.windows self.old.total self.new.total }
    {
        self.move_box(Way::Down, rect);
    }

    /// Adds metal.
    pub fn add_metal(&mut self, metal: &Region)
        requires drawn_room { StaysWithin Up (holds metal.now) self.old.windows self.old.drawn }
        requires total_room { StaysWithin Up (holds metal.now) self.old.windows self.old.total }
        ensures windows { self.new.windows ≡ self.old.windows }
        ensures drawn { IsMoved Up (holds metal.now) self.old.windows self.old.drawn self.new.drawn }
        ensures total { IsMoved Up (holds metal.now) self.old.windows self.old.total self.new.total }
    {
        self.move_metal(Way::Up, metal, &bounds(metal));
    }

    /// Cuts metal.
    pub fn cut_metal(&mut self, metal: &Region)
        requires drawn_there { StaysWithin Down (holds metal.now) self.old.windows self.old.drawn }
        requires total_there { StaysWithin Down (holds metal.now) self.old.windows self.old.total }
        ensures windows { self.new.windows ≡ self.old.windows }
        ensures drawn { IsMoved Down (holds metal.now) self.old.windows self.old.drawn self.new.drawn }
        ensures total { IsMoved Down (holds metal.now) self.old.windows self.old.total self.new.total }
    {
        self.move_metal(Way::Down, metal, &bounds(metal));
    }
}
