//! The two texts that a user writes: the rule file and the script of edits, both records of comma-separated fields.
//!
//! [`read_rules`] gives the rules and [`read_script`] the edits, or the first refusal. The layer above may rely on this:
//! what is answered is what the definitions `rules_of` and `edits_of` say of the bytes, but for want of memory, and every
//! number of [`Rules`] is in the range of its key. The [`laws`] say the same in the words of the files: each key stands in
//! one record, but those that may stand several times, and nothing else stands there, each value is in a record of its own
//! key, and each record of a script is one edit.
//!
//! [`read_chip_rules`] gives [`ChipRules`], those of a chip of any size, which give the [`Rules`] of its part with some
//! [`ChipRows`].
#![tactic(auto)]

mod accessors;
mod chip;
mod entries;
mod keys;
pub mod laws;
mod limits;
mod numbers;
mod rows;
mod rule_error;
mod rule_file;
mod rules;
mod script;
mod sides;

pub use chip::{ChipRows, ChipRules};
pub use keys::{AlsoKey, Key, NumberKey, OptionalKey, TextKey};
pub use limits::Limits;
pub use rule_error::RuleError;
pub use rule_file::{read_chip_rules, read_rules};
pub use rules::{AlsoLayers, Numbers, Rules, Texts};
pub use script::{Edit, ScriptError, read_script};
