//! What a shape covers, and how far it goes.

ghost use Rattle.std.specs.Prelude.{◌≡◌, [], IfOk, IfSome};
ghost use Rattle.gds_cells.specs.steps.Filled.{extent_in, rects_in};

use crate::one_rect::OneRect;
use fill_base::Rect;
use gds_shape::Bounds;
use std::alloc::{AllocError, Global};
use std::mem;

/// The rectangles that a shape covers, moved so that its extent begins at the least coordinates, and that extent. Most shapes are
/// one rectangle, which takes no memory of its own: millions of them are kept at once.
#[derive(Debug, Drop)]
pub enum Filled {
    /// One rectangle that goes as far as the extent.
    Whole(OneRect),
    /// Any rectangles.
    Parts(Box<Parts>),
}

/// Any rectangles, and the extent.
#[derive(Debug, Drop)]
pub struct Parts {
    /// The rectangles: none of a shape that's wider or taller than all coordinates, which no placement carries into range.
    pub rects: Vec<Rect>,
    /// The extent of a shape's points or segments, in database units; `None` for a path that covers nothing.
    pub extent: Option<Bounds>,
}

impl Filled {
    /// The rectangles of a list, which is empty afterwards, and the extent. A single one is taken out, so that the list keeps its room.
    ///
    /// # Errors
    /// `AllocError` where memory is refused.
    pub fn taken(
        alloc: Global,
        rects: &mut Vec<Rect>,
        extent: Option<Bounds>,
    ) -> Result<Filled, AllocError>
        ensures rects { IfOk result (λ f. rects_in f ≡ rects.old.items) }
        ensures extent { IfOk result (λ f. extent_in f ≡ extent) }
        ensures empty { IfOk result (λ f. rects.new.items ≡ []) }
    {
        if let Some(whole) = whole_of(rects, extent) {
            rects.clear();
            return Ok(whole);
        }
        let parts = Parts {
            rects: mem::replace(rects, Vec::new(alloc)),
            extent,
        };
        Ok(Filled::Parts(Box::new(alloc, parts)?))
    }

    /// The extent.
    pub fn extent(&self) -> Option<Bounds>
        ensures { result ≡ extent_in self.now }
    {
        match self {
            Filled::Whole(one) => Some(one.extent()),
            Filled::Parts(parts) => parts.extent,
        }
    }
}

/// The one rectangle of a list, where it goes as far as the extent.
fn whole_of(rects: &[Rect], extent: Option<Bounds>) -> Option<Filled>
    ensures rects { IfSome result (λ f. rects_in f ≡ rects.now) }
    ensures extent { IfSome result (λ f. extent_in f ≡ extent) }
{
    let extent = extent?;
    let [rect] = rects else {
        return None;
    };
    Some(Filled::Whole(OneRect::of(rect, &extent)?))
}
