//! The entries of a rule file that have been read.
ghost use Rattle.std.specs.Prelude.{◌≡◌};
ghost use Rattle.std.specs.List.{list_all};
ghost use Rattle.csv.specs.Records.{fields_of};
ghost use Rattle.fill_text.specs.Refusals.{seen, Gives};
ghost use Rattle.fill_text.specs.Keys.{all_number_keys};
ghost use Rattle.fill_text.specs.Rules as spec;
ghost use Rattle.fill_text.specs.steps.Entries as step;
ghost use Rattle.fill_text.specs.steps.Entries.{found_in};

use crate::keys::{AlsoKey, Key, NUMBER_COUNT, NUMBER_KEYS, NumberKey, OptionalKey, TextKey};
use crate::numbers::{layer_numbers, number};
use crate::rows::field;
use crate::rule_error::RuleError;
use crate::rules::AlsoLayers;
use csv::ByteRecord;
use fill_base::Layer;
use std::alloc::Global;

/// How often a key may stand that may stand several times.
const MOST_LAYERS: usize = 63;

/// A number or a text for each key that has stood in a record, and the layers that the records give the others.
#[derive(Drop)]
pub struct Entries {
    pub numbers: [Option<i64>; NUMBER_COUNT],
    pub top: Option<Vec<u8>>,
    pub fill_lib: Option<Vec<u8>>,
    pub fill_cell: Option<Vec<u8>>,
    pub fill_top: Option<Vec<u8>>,
    pub optionals: [Option<i64>; 2],
    pub also: AlsoLayers,
    pub padding: Option<bool>,
}

impl Entries {
    /// No key has stood in a record yet.
    pub fn new(alloc: Global) -> Entries
        ensures { found_in result ≡ step.nothing_found }
    {
        Entries {
            numbers: [None; NUMBER_COUNT],
            top: None,
            fill_lib: None,
            fill_cell: None,
            fill_top: None,
            optionals: [None; 2],
            also: AlsoLayers::new(alloc),
            padding: None,
        }
    }

    /// Whether the key has stood in a record, or in 63 where it may stand several times.
    fn has(&self, key: Key) -> bool
        ensures { result ≡ step.is_found (found_in self.now) key }
    {
        match key {
            Key::Number(key) => self.numbers[key.index()].is_some(),
            Key::Text(TextKey::Top) => self.top.is_some(),
            Key::Text(TextKey::FillLib) => self.fill_lib.is_some(),
            Key::Text(TextKey::FillCell) => self.fill_cell.is_some(),
            Key::Text(TextKey::FillTop) => self.fill_top.is_some(),
            Key::Optional(key) => self.optionals[key.index()].is_some(),
            Key::Also(key) => self.also.of(key).len() >= MOST_LAYERS,
            Key::Padding => self.padding.is_some(),
        }
    }

    /// The key that a record's first field names, which may stand once more.
    #[tactic(auto, unfolding(crate::specs::steps::Entries::new_key))]
    fn new_key(&self, line: u64, word: &[u8]) -> Result<Key, RuleError>
        ensures { result ≡ step.new_key line word.now (found_in self.now) }
    {
        let key = Key::named(word).ok_or(RuleError::BadRow { line })?;
        if self.has(key) {
            return Err(RuleError::BadRow { line });
        }
        Ok(key)
    }

    #[tactic(auto, unfolding(crate::specs::steps::Entries::take_number))]
    fn take_number(&mut self, line: u64, key: NumberKey, word: &[u8]) -> Result<(), RuleError>
        ensures { seen (λ _. found_in self.new) result ≡ step.take_number line key word.now (found_in self.old) }
    {
        self.numbers[key.index()] = Some(number_for(line, key, word)?);
        Ok(())
    }

    #[tactic(auto, unfolding(crate::specs::steps::Entries::take_text))]
    fn take_text(&mut self, alloc: Global, key: TextKey, word: &[u8]) -> Result<(), RuleError>
        ensures { Gives RuleError.Memory (λ _. found_in self.new) result (step.take_text key word.now (found_in self.old)) }
    {
        if !is_text(key, word) {
            return Err(RuleError::BadRule {
                key: Key::Text(key),
            });
        }
        let kept = word.to_vec(alloc)?;
        match key {
            TextKey::Top => self.top = Some(kept),
            TextKey::FillLib => self.fill_lib = Some(kept),
            TextKey::FillCell => self.fill_cell = Some(kept),
            TextKey::FillTop => self.fill_top = Some(kept),
        }
        Ok(())
    }

    #[tactic(auto, unfolding(crate::specs::steps::Entries::take_optional))]
    fn take_optional(&mut self, line: u64, key: OptionalKey, word: &[u8]) -> Result<(), RuleError>
        ensures { seen (λ _. found_in self.new) result ≡ step.take_optional line key word.now (found_in self.old) }
    {
        self.optionals[key.index()] = Some(layer_for(line, key, word)?);
        Ok(())
    }

    #[tactic(auto, unfolding(crate::specs::steps::Entries::take_also))]
    fn take_also(&mut self, line: u64, key: AlsoKey, word: &[u8]) -> Result<(), RuleError>
        ensures { Gives RuleError.Memory (λ _. found_in self.new) result (step.take_also line key word.now (found_in self.old)) }
    {
        let layer = listed_layer(line, key, word)?;
        match key {
            AlsoKey::Metal => self.also.metal.push(layer)?,
            AlsoKey::Fill => self.also.fill.push(layer)?,
            AlsoKey::Keep => self.also.keep.push(layer)?,
        }
        Ok(())
    }

    #[tactic(auto, unfolding(crate::specs::steps::Entries::take_padding))]
    fn take_padding(&mut self, word: &[u8]) -> Result<(), RuleError>
        ensures { seen (λ _. found_in self.new) result ≡ step.take_padding word.now (found_in self.old) }
    {
        self.padding = Some(padding(word).ok_or(RuleError::BadRule { key: Key::Padding })?);
        Ok(())
    }

    /// Takes what one record adds.
    ///
    /// # Errors
    /// `BadRow` for other than two fields and for a key that is unknown or may not stand once more, then `BadNumber` for a
    /// value that writes no number or no layer, then `BadRule` for one that its key doesn't allow. `Memory` where memory is refused.
    #[tactic(auto, unfolding(crate::specs::steps::Entries::take_row))]
    pub fn take_row(&mut self, alloc: Global, line: u64, row: &ByteRecord) -> Result<(), RuleError>
        ensures { Gives RuleError.Memory (λ _. found_in self.new) result (step.take_row line (fields_of row.now) (found_in self.old)) }
    {
        if row.len() != 2 {
            return Err(RuleError::BadRow { line });
        }
        let word = field(row, 1);
        match self.new_key(line, field(row, 0))? {
            Key::Number(key) => self.take_number(line, key, word),
            Key::Text(key) => self.take_text(alloc, key, word),
            Key::Optional(key) => self.take_optional(line, key, word),
            Key::Also(key) => self.take_also(line, key, word),
            Key::Padding => self.take_padding(word),
        }
    }

    /// Every number, or the first that is missing.
    ///
    /// # Errors
    /// `BadRule` for the first key in table order that has no number.
    pub fn all_numbers(&self) -> Result<[i64; NUMBER_COUNT], RuleError>
        ensures { result ≡ step.all_numbers all_number_keys self.now.numbers }
    {
        let mut numbers = [0; NUMBER_COUNT];
        for i in 0..NUMBER_COUNT {
            let Some(n) = self.numbers[i] else {
                return Err(RuleError::BadRule {
                    key: Key::Number(NUMBER_KEYS[i]),
                });
            };
            numbers[i] = n;
        }
        Ok(numbers)
    }
}

/// The number that a record's second field gives a key.
#[tactic(auto, unfolding(crate::specs::steps::Entries::ranged_number))]
fn number_for(line: u64, key: NumberKey, word: &[u8]) -> Result<i64, RuleError>
    ensures { result ≡ step.ranged_number line key word.now }
{
    let n = number(word).ok_or(RuleError::BadNumber { line })?;
    let (low, high) = key.range();
    if low <= n && n <= high {
        Ok(n)
    } else {
        Err(RuleError::BadRule {
            key: Key::Number(key),
        })
    }
}

/// Whether the word says that padding is ignored.
fn padding(word: &[u8]) -> Option<bool>
    ensures { result ≡ spec.padding_of word.now }
{
    if word == "zero".as_bytes() {
        Some(false)
    } else if word == "ignore".as_bytes() {
        Some(true)
    } else {
        None
    }
}

/// The layer or the data type that a record's second field gives a key.
#[tactic(auto, unfolding(crate::specs::steps::Entries::layer_number))]
fn layer_for(line: u64, key: OptionalKey, word: &[u8]) -> Result<i64, RuleError>
    ensures { result ≡ step.layer_number line key word.now }
{
    let layer = number(word).ok_or(RuleError::BadNumber { line })?;
    if 0 <= layer && layer <= 65535 {
        Ok(layer)
    } else {
        Err(RuleError::BadRule {
            key: Key::Optional(key),
        })
    }
}

/// The layer that a record's second field gives a key.
#[tactic(auto, unfolding(crate::specs::steps::Entries::ranged_layer))]
fn listed_layer(line: u64, key: AlsoKey, word: &[u8]) -> Result<Layer, RuleError>
    ensures { result ≡ step.ranged_layer line key word.now }
{
    let (layer, data_type) = layer_numbers(word).ok_or(RuleError::BadNumber { line })?;
    if layer <= 65535 && data_type <= 65535 {
        Ok(Layer {
            layer: layer as u16,
            data_type: data_type as u16,
        })
    } else {
        Err(RuleError::BadRule {
            key: Key::Also(key),
        })
    }
}

/// Whether a name of the fill library may hold the byte.
fn is_name_byte(c: u8) -> bool
    ensures { result ≡ spec.is_name_byte c }
{
    (b'0' <= c && c <= b'9')
        || (b'A' <= c && c <= b'Z')
        || (b'a' <= c && c <= b'z')
        || c == b'_'
        || c == b'?'
        || c == b'$'
}

fn has_name_bytes_alone(word: &[u8]) -> bool
    ensures { result ≡ list_all spec.is_name_byte word.now }
{
    word.iter().all(|c| is_name_byte(*c))
}

fn is_fill_name(word: &[u8]) -> bool
    ensures { result ≡ spec.is_fill_name word.now }
{
    !word.is_empty() && word.len() <= 32 && has_name_bytes_alone(word)
}

/// Whether a text may be the key's value.
fn is_text(key: TextKey, word: &[u8]) -> bool
    ensures { result ≡ spec.is_text key word.now }
{
    match key {
        TextKey::Top => !word.is_empty() && word.len() <= 1024,
        TextKey::FillLib | TextKey::FillCell | TextKey::FillTop => is_fill_name(word),
    }
}
