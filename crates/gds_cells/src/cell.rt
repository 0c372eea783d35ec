//! A cell: its shapes of the layers, and what it refers to.

use crate::link::Link;
use crate::shape::Shape;

/// A cell's shapes of the layers and its references, in the order of the file.
#[derive(Drop)]
pub struct Cell<'a, 'b> {
    /// The shapes of the layers, filled: those of one chunk of elements after another.
    pub shapes: Vec<Vec<Shape<'a, 'b>>>,
    /// The references, each an array or single.
    pub links: Vec<Link>,
}

/// The shapes of the layers and the references of neighbouring elements of a cell, in the order of the file.
#[derive(Drop)]
pub struct Chunk<'a, 'b> {
    /// The shapes of the layers, filled.
    pub shapes: Vec<Shape<'a, 'b>>,
    /// The references, each an array or single.
    pub links: Vec<Link>,
}
