//! What holds of every raster, whatever the code does. Each function's contract is the law.
ghost use Rattle.fill_raster.specs.Laws.{BoxesKeepTheSpacing, EachPlaceHasATile, PlacesAreARange, PlacesAreCounted, TileEdgesAreReached, TileEdgesBoundItsBoxes, TilesAreBlocks};

/// The places of a raster are exactly those of a range of columns and a range of rows.
pub fn places_are_a_range()
    ensures { PlacesAreARange }
{}

/// The number of places, by which a raster is judged, counts them.
pub fn places_are_counted()
    ensures { PlacesAreCounted }
{}

/// The tile of a place is one of the raster's tiles. As a tile is the places with its number, each place has one tile.
pub fn each_place_has_a_tile()
    ensures { EachPlaceHasATile }
{}

/// The places of a tile are exactly those of a range of columns and a range of rows.
pub fn tiles_are_blocks()
    ensures { TilesAreBlocks }
{}

/// The box of each place of a tile lies between the tile's edges.
pub fn tile_edges_bound_its_boxes()
    ensures { TileEdgesBoundItsBoxes }
{}

/// Boxes of the tile reach its edges, so no smaller rectangle bounds them.
pub fn tile_edges_are_reached()
    ensures { TileEdgesAreReached }
{}

/// The boxes of two different places keep the fill spacing, in x or in y, where the steps do.
pub fn boxes_keep_the_spacing()
    ensures { BoxesKeepTheSpacing }
{}
