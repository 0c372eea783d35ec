//! The laws of layers and of frames.

ghost use Rattle.gds_flatten.specs.Frames.{SideBySide};
ghost use Rattle.gds_flatten.specs.Layers.{LayersSuffice, LayersSufficeWithin};

/// A library of which only some layers were read draws on any of these what the whole library draws, and
/// is refused for the same causes.
pub fn layers_suffice()
    ensures { LayersSuffice }
{}

/// So it does within a frame.
pub fn layers_suffice_within()
    ensures { LayersSufficeWithin }
{}

/// What is drawn in two frames side by side is, united, what is drawn in the frame that both make up.
pub fn side_by_side()
    ensures { SideBySide }
{}
