//! What a run looks at: a chip, or a part of one as a smaller chip, and what of it is told.
ghost use Rattle.std.specs.Prelude.{◌≡◌};
ghost use Rattle.fill_text.specs.ValuesOfRules.{values_of};
ghost use Rattle.fill_parts.specs.PartFill.{rect_of};
ghost use Rattle.densfill_engine.specs.Views.{FitsIn, edits_near, is_near};

use fill_base::Rect;
use fill_parts::ToldRows;
use fill_text::{Edit, Rules};

/// What is told of a chip.
#[derive(Drop)]
pub enum Told {
    /// All of it.
    Everything,
    /// Some of its rows: those that a part has of its own.
    Rows(ToldRows),
}

/// What a run looks at.
#[derive(Drop)]
pub struct View {
    /// The rules of the chip.
    pub rules: Rules,
    /// What is told of it.
    pub told: Told,
    /// The rectangle beyond which nothing of the design counts, if there is one.
    pub frame: Option<Rect>,
    pub ghost fits: { FitsIn (values_of rules) told },
}

/// The rectangle of an edit.
fn rect_of(edit: &Edit) -> Rect
    ensures { result ≡ rect_of edit.now }
{
    match edit {
        Edit::Add(rect) => *rect,
        Edit::Cut(rect) => *rect,
        Edit::Keep(rect) => *rect,
    }
}

/// Whether an edit's rectangle shares a square with another one.
fn is_near(frame: &Rect, edit: &Edit) -> bool
    ensures { result ≡ is_near frame.now edit.now }
{
    let rect = rect_of(edit);
    let across = (rect.x1() < frame.x2()) & (frame.x1() < rect.x2());
    let up = (rect.y1() < frame.y2()) & (frame.y1() < rect.y2());
    across & up
}

impl View {
    /// Keeps the edits whose rectangle shares a square with what is looked at.
    pub(crate) fn keep_near(&self, edits: &mut Vec<Edit>)
        ensures { edits.new.items ≡ edits_near self.now.frame edits.old.items }
    {
        if let Some(frame) = &self.frame {
            edits.retain(|edit| is_near(frame, edit));
        }
    }
}
