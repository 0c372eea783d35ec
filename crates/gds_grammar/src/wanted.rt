//! Which shapes of a library are kept.

ghost use Rattle.std.specs.Prelude.{◌≡◌};
ghost use Rattle.gds_grammar.specs.Layers.{has_layer};
ghost use Rattle.gds_grammar.specs.steps.Keeping.{keeps};

use fill_base::Layer;

/// Which boundaries and paths are kept. References always are.
#[derive(Clone, Copy)]
pub enum Wanted<'a> {
    /// Those of all layers.
    Every,
    /// Those of these layers.
    These(&'a [Layer]),
}

/// Whether the layer is one of these.
fn has_layer(layers: &[Layer], layer: Layer) -> bool
    ensures { result ≡ has_layer layers.now layer }
{
    layers.contains(&layer)
}

/// Whether boundaries and paths of the layer are kept.
pub fn is_wanted(wanted: Wanted<'_>, layer: Layer) -> bool
    ensures { result ≡ keeps wanted.entry layer }
{
    match wanted {
        Wanted::Every => true,
        Wanted::These(layers) => has_layer(layers, layer),
    }
}
