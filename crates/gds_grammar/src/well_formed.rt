//! Whether a record has the data type and the amount of data that the manual gives its kind (Calma
//! GDSII Stream Format Manual, release 6.0); which lengths are checked is this project's profile.

ghost use Rattle.std.specs.Prelude.{◌≡◌, ℕ, ◌==◌, true, false, IfSome, IfNone};
ghost use Rattle.gds_record.specs.Records.{view};
ghost use Rattle.gds_record.specs.Table.{of_any_form};
ghost use Rattle.gds_grammar.specs.Forms.{among, has_row, has_form, has_size, has_name_if_asked, is_well};

use gds_record::kind::*;
use gds_record::{Record, form, name};

/// The data type that the manual gives the kind.
fn form_of(kind: u8) -> Option<u8>
    ensures some { IfSome result (λ f. (form : ℕ) → has_row kind form ≡ (f == form)) }
    ensures none { IfNone result ((form : ℕ) → has_row kind form ≡ false) }
{
    // Kinds with neighbouring numbers in one arm become a range, which is tested only behind the jump to
    // single kinds. So the common ones, as LAYER, DATATYPE and XY, share no arm with their neighbours.
    match kind {
        BOUNDARY | SREF | ENDEL => Some(form::NONE),
        PATH | AREF | TEXT | NODE | BOX | ENDSTR | ENDLIB | ENDMASKS => Some(form::NONE),
        STRANS | PRESENTATION | ELFLAGS => Some(form::BITS),
        LAYER | TEXTTYPE | NODETYPE | BOXTYPE | PATHTYPE | COLROW => Some(form::WORDS),
        DATATYPE | PROPATTR | HEADER | BGNLIB | BGNSTR | GENERATIONS | FORMAT => Some(form::WORDS),
        XY => Some(form::NUMBERS),
        WIDTH | PLEX | BGNEXTN | ENDEXTN => Some(form::NUMBERS),
        MAG | ANGLE | UNITS => Some(form::REALS),
        SNAME | STRNAME | LIBNAME | STRING | REFLIBS | FONTS | ATTRTABLE | PROPVALUE | MASK => {
            Some(form::TEXT)
        }
        _ => None,
    }
}

/// Records of these kinds are skipped where they may stand, whatever their data type (this project's
/// profile).
fn is_of_any_form(kind: u8) -> bool
    ensures { result ≡ among of_any_form kind }
{
    matches!(kind, LIBDIRSIZE | SRFNAME | LIBSECUR | STRCLASS)
}

#[tactic(auto, unfolding(crate::specs::Forms::has_form))]
fn has_form(kind: u8, form: u8) -> bool
    ensures { result ≡ has_form kind form }
{
    if is_of_any_form(kind) {
        return true;
    }
    match form_of(kind) {
        Some(found) => found == form,
        None => false,
    }
}

/// How many bytes of data a record of the kind has, where their number is checked.
#[tactic(auto, unfolding(crate::specs::Forms::has_size))]
fn size_of(kind: u8) -> Option<usize>
    ensures some { IfSome result (λ n. (size : ℕ) → has_size kind size ≡ (size == n)) }
    ensures none { IfNone result ((size : ℕ) → has_size kind size ≡ true) }
{
    // LAYER and DATATYPE apart, as above.
    match kind {
        LAYER | STRANS => Some(2),
        DATATYPE | PATHTYPE => Some(2),
        WIDTH | BGNEXTN | ENDEXTN | COLROW => Some(4),
        MAG | ANGLE => Some(8),
        UNITS => Some(16),
        BGNLIB | BGNSTR => Some(24),
        _ => None,
    }
}

fn has_size(kind: u8, size: usize) -> bool
    ensures { result ≡ has_size kind size }
{
    match size_of(kind) {
        Some(needed) => size == needed,
        None => true,
    }
}

/// The names of cells are not empty.
#[tactic(auto, unfolding(crate::specs::Forms::has_name_if_asked))]
fn has_name_if_asked(kind: u8, body: &[u8]) -> bool
    ensures { result ≡ has_name_if_asked kind body.now }
{
    match kind {
        STRNAME | SNAME => !name(body).is_empty(),
        _ => true,
    }
}

/// Whether a record is as the manual has those of its kind.
#[inline(always)]
pub fn is_well(candidate: Record<'_>) -> bool
    ensures { result ≡ is_well (view candidate.entry) }
{
    has_form(candidate.kind, candidate.form)
        && has_size(candidate.kind, candidate.body.len())
        && has_name_if_asked(candidate.kind, candidate.body)
}
