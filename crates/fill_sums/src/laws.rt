//! The laws by which sums run, for every window. Each function's contract is the law.
ghost use Rattle.fill_sums.specs.Laws.{ABoxAdds, ABoxTakesOff, MetalAdds, MetalTakesOff};

/// A box that shares no square with metal and boxes adds the area of its part in the window.
pub fn a_box_adds()
    ensures { ABoxAdds }
{}

/// A box that goes takes the area of its part in the window off.
pub fn a_box_takes_off()
    ensures { ABoxTakesOff }
{}

/// Metal that comes adds the area in the window of the part of it that was no metal.
pub fn metal_adds()
    ensures { MetalAdds }
{}

/// Metal that goes takes off the area in the window of the part of it that was metal.
pub fn metal_takes_off()
    ensures { MetalTakesOff }
{}
