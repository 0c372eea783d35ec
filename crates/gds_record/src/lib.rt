//! Records and numbers of GDSII Stream, read from bytes and written to bytes. The layer above may
//! rely on this: a record is its bytes both ways, no record's bytes begin another's, each refusal
//! comes exactly where its cause stands, and an eight-byte real is decided on its 64 bits, for
//! every spelling of its value.
#![tactic(auto)]

pub mod form;
pub mod kind;
pub mod laws;
mod names;
mod numbers;
mod reals;
mod records;

pub use names::name;
pub use numbers::{number, point, word};
pub use reals::{BadReal, quarter_turns, unit_mag};
pub use records::{Record, RecordError, next_record, no_spelling_begins_another, put_record};
