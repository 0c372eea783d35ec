//! Areas that are measured whenever they are asked for.
use crate::areas::Totals;
use crate::edited::Edited;
use crate::stored::Stored;
use fill_area::Windows;
use fill_job::SharedRules;
use fill_raster::Marks;
use fill_region::Region;
use fill_state::{Places, low_windows};
use std::alloc::{AllocError, Global};

/// No areas: each is measured whenever it is asked for.
#[derive(Drop)]
pub struct Measured;

impl Totals for Measured {
    ghost stand_for = { λ t g drawn all. Unit {0} };

    fn of(
        _alloc: Global,
        _drawn: &Region,
        _windows: &Windows,
        _areas: Vec<i64>,
    ) -> Result<Measured, AllocError> {
        Ok(Measured)
    }

    fn total(&self, stored: &Stored, windows: &Windows, a: u32, b: u32) -> i64 {
        match windows.part(a, b) {
            Some(window) => stored
                .filled
                .total_in(&stored.drawn, &Places::none(), &window),
            None => 0,
        }
    }

    fn drawn(&self, stored: &Stored, windows: &Windows, a: u32, b: u32) -> i64 {
        stored.drawn.counted_in(windows, a, b)
    }

    fn take_in(&mut self, _stored: &Stored, _windows: &Windows, _tile: u32, _marks: &Marks) {}

    fn follow(&mut self, _stored: &Stored, _windows: &Windows, _edited: &Edited) {}

    fn turn_back(&mut self, _stored: &Stored, _windows: &Windows, _edited: &Edited) {}

    fn low(
        &self,
        alloc: Global,
        stored: &Stored,
        rules: &SharedRules,
        edited: &Edited,
    ) -> Result<Region, AllocError> {
        let windows = rules.windows();
        let totals = stored
            .filled
            .totals(alloc, &edited.drawn, &edited.out, &windows)?;
        low_windows(alloc, &windows, rules.min(), &totals)
    }
}
