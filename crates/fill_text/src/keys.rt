//! The table of rules: their keys, names and ranges.
ghost use Rattle.std.specs.Prelude.{◌≡◌, ◌<◌, find, bytes_eq};
ghost use Rattle.fill_text.specs.Keys.{all_also_keys, all_number_keys, all_optional_keys, all_text_keys, also_name, key_name, key_named, number_rule, optional_index, optional_name, text_name};

use fill_base::{HIGHEST, LOWEST};

/// The longest side, step, spacing and count that a rule may ask for.
const LARGEST: i64 = 1_048_576;

/// A rule whose value is a number, in the order of the table of rules. Lengths and coordinates are in database units.
#[derive(Clone, Copy, Debug, PartialEq, Eq)]
pub enum NumberKey {
    /// The frame's left edge, -2^30 to 2^30 database units.
    FrameX1,
    /// The frame's lower edge, -2^30 to 2^30.
    FrameY1,
    /// The frame's right edge, -2^30 to 2^30.
    FrameX2,
    /// The frame's upper edge, -2^30 to 2^30.
    FrameY2,
    /// The width of a fill box, 1 to 2^20.
    BoxW,
    /// The height of a fill box, 1 to 2^20.
    BoxH,
    /// From one column of the raster to the next, 1 to 2^20.
    StepX,
    /// From one row of the raster to the next, 1 to 2^20.
    StepY,
    /// The left edge of the box of place (0, 0), -2^30 to 2^30. The box of place (i, j) lies i steps to the right of
    /// that one, for any whole i. The raster has the places whose box lies wholly in the frame, so (0, 0) need not be
    /// one of them.
    OriginX,
    /// The lower edge of the box of place (0, 0), -2^30 to 2^30. The box of place (i, j) lies j steps above that one, for
    /// any whole j.
    OriginY,
    /// The least gap between a fill box and drawn metal, 0 to 2^20.
    Spacing,
    /// The least gap between two fill boxes, 0 to 2^20.
    FillSpacing,
    /// The width of a window, 1 to 2^20.
    WinW,
    /// The height of a window, 1 to 2^20.
    WinH,
    /// From one column of windows to the next, 1 to 2^20.
    WinStepX,
    /// From one row of windows to the next, 1 to 2^20.
    WinStepY,
    /// The left edge of the first window, -2^30 to 2^30.
    WinX,
    /// The lower edge of the first window, -2^30 to 2^30.
    WinY,
    /// How many columns of windows there are, 1 to 2^20.
    WinNx,
    /// How many rows of windows there are, 1 to 2^20.
    WinNy,
    /// The least share of metal, 0 to 1,000,000 millionths.
    Min,
    /// The greatest share of metal, 0 to 1,000,000 millionths.
    Max,
    /// How many columns of places a tile has, 1 to 4,096.
    TileNx,
    /// How many rows of places a tile has, 1 to 4,096.
    TileNy,
    /// The checked layer, 0 to 65,535.
    Layer,
    /// The checked data type, 0 to 65,535.
    Datatype,
    /// The layer of the fill boxes, 0 to 65,535.
    FillLayer,
    /// The data type of the fill boxes, 0 to 65,535.
    FillDatatype,
}

/// A rule whose value is a text, in the order of the table of rules.
#[derive(Clone, Copy, Debug, PartialEq, Eq)]
pub enum TextKey {
    /// The name of the design's top cell, any 1 to 1,024 bytes.
    Top,
    /// The name of the fill library, 1 to 32 of `A`-`Z` `a`-`z` `0`-`9` `_` `?` `$`.
    FillLib,
    /// The name of the cell of one fill box, as the library's.
    FillCell,
    /// The name of the fill library's top cell, as the library's, and another one than the fill box's.
    FillTop,
}

/// A rule that a rule file may leave out, in the order of the table of rules: a number, 0 to 65,535.
#[derive(Clone, Copy, Debug, PartialEq, Eq)]
pub enum OptionalKey {
    /// The layer of the keep-outs, which stands with their data type or not at all.
    KeepLayer,
    /// The data type of the keep-outs.
    KeepDatatype,
}

/// A rule that a rule file may leave out, or have in up to 63 records: each adds a layer, `LAYER/DATATYPE`, both 0 to 65,535.
#[derive(Clone, Copy, Debug, PartialEq, Eq)]
pub enum AlsoKey {
    /// A further layer of the metal.
    Metal,
    /// A layer of fill that the design brings.
    Fill,
    /// A further layer of the keep-outs, which asks for the keep-outs' first layer and its data type.
    Keep,
}

/// The key of a rule. In the table of rules the numbers stand before the texts, and the optional ones behind them.
#[derive(Clone, Copy, Debug, PartialEq, Eq)]
pub enum Key {
    /// A rule whose value is a number.
    Number(NumberKey),
    /// A rule whose value is a text.
    Text(TextKey),
    /// A rule that may be left out.
    Optional(OptionalKey),
    /// A rule that may stand several times.
    Also(AlsoKey),
    /// What counts of a window that is partly out of the frame: `zero` or `ignore`. It may be left out, and is `zero` then.
    Padding,
}

/// How many rules have a number for their value.
pub const NUMBER_COUNT: usize = 28;

/// The keys of the numbers, in table order.
pub const NUMBER_KEYS: [NumberKey; NUMBER_COUNT] = [
    NumberKey::FrameX1,
    NumberKey::FrameY1,
    NumberKey::FrameX2,
    NumberKey::FrameY2,
    NumberKey::BoxW,
    NumberKey::BoxH,
    NumberKey::StepX,
    NumberKey::StepY,
    NumberKey::OriginX,
    NumberKey::OriginY,
    NumberKey::Spacing,
    NumberKey::FillSpacing,
    NumberKey::WinW,
    NumberKey::WinH,
    NumberKey::WinStepX,
    NumberKey::WinStepY,
    NumberKey::WinX,
    NumberKey::WinY,
    NumberKey::WinNx,
    NumberKey::WinNy,
    NumberKey::Min,
    NumberKey::Max,
    NumberKey::TileNx,
    NumberKey::TileNy,
    NumberKey::Layer,
    NumberKey::Datatype,
    NumberKey::FillLayer,
    NumberKey::FillDatatype,
];

/// The keys of the texts, in table order.
pub const TEXT_KEYS: [TextKey; 4] = [
    TextKey::Top,
    TextKey::FillLib,
    TextKey::FillCell,
    TextKey::FillTop,
];

/// The optional keys, in table order.
pub const OPTIONAL_KEYS: [OptionalKey; 2] = [OptionalKey::KeepLayer, OptionalKey::KeepDatatype];

/// The keys that may stand several times, in table order.
pub const ALSO_KEYS: [AlsoKey; 3] = [AlsoKey::Metal, AlsoKey::Fill, AlsoKey::Keep];

/// What the table says of a number: its name in the rule file, and the least and the greatest value that it may have.
#[derive(Clone, Copy)]
struct NumberRule {
    name: &'static str,
    low: i64,
    high: i64,
}

impl NumberKey {
    /// The row of the table (this project's profile).
    fn rule(self) -> NumberRule
        ensures name { result.name.now ≡ (number_rule self).name }
        ensures low { result.low ≡ (number_rule self).low }
        ensures high { result.high ≡ (number_rule self).high }
    {
        let (name, low, high) = match self {
            NumberKey::FrameX1 => ("frame_x1", LOWEST, HIGHEST),
            NumberKey::FrameY1 => ("frame_y1", LOWEST, HIGHEST),
            NumberKey::FrameX2 => ("frame_x2", LOWEST, HIGHEST),
            NumberKey::FrameY2 => ("frame_y2", LOWEST, HIGHEST),
            NumberKey::BoxW => ("box_w", 1, LARGEST),
            NumberKey::BoxH => ("box_h", 1, LARGEST),
            NumberKey::StepX => ("step_x", 1, LARGEST),
            NumberKey::StepY => ("step_y", 1, LARGEST),
            NumberKey::OriginX => ("origin_x", LOWEST, HIGHEST),
            NumberKey::OriginY => ("origin_y", LOWEST, HIGHEST),
            NumberKey::Spacing => ("spacing", 0, LARGEST),
            NumberKey::FillSpacing => ("fill_spacing", 0, LARGEST),
            NumberKey::WinW => ("win_w", 1, LARGEST),
            NumberKey::WinH => ("win_h", 1, LARGEST),
            NumberKey::WinStepX => ("win_step_x", 1, LARGEST),
            NumberKey::WinStepY => ("win_step_y", 1, LARGEST),
            NumberKey::WinX => ("win_x", LOWEST, HIGHEST),
            NumberKey::WinY => ("win_y", LOWEST, HIGHEST),
            NumberKey::WinNx => ("win_nx", 1, LARGEST),
            NumberKey::WinNy => ("win_ny", 1, LARGEST),
            NumberKey::Min => ("min", 0, 1_000_000),
            NumberKey::Max => ("max", 0, 1_000_000),
            NumberKey::TileNx => ("tile_nx", 1, 4096),
            NumberKey::TileNy => ("tile_ny", 1, 4096),
            NumberKey::Layer => ("layer", 0, 65535),
            NumberKey::Datatype => ("datatype", 0, 65535),
            NumberKey::FillLayer => ("fill_layer", 0, 65535),
            NumberKey::FillDatatype => ("fill_datatype", 0, 65535),
        };
        NumberRule { name, low, high }
    }

    /// The key's name in a rule file.
    pub fn name(self) -> &'static str
        ensures { result.now ≡ (number_rule self).name }
    {
        self.rule().name
    }

    /// The least and the greatest value that the number may have.
    pub fn range(self) -> (i64, i64)
        ensures low { result.0 ≡ (number_rule self).low }
        ensures high { result.1 ≡ (number_rule self).high }
    {
        let rule = self.rule();
        (rule.low, rule.high)
    }

    /// The key's index in the table, from 0.
    pub fn index(self) -> usize
        ensures index { result ≡ (number_rule self).index }
        ensures within { result < 28 }
    {
        self as usize
    }

    /// The key of a name.
    pub fn named(word: &[u8]) -> Option<NumberKey>
        ensures { result ≡ find (λ k. bytes_eq word.now (number_rule k).name) all_number_keys }
    {
        NUMBER_KEYS
            .iter()
            .copied()
            .find(|key| word == key.name().as_bytes())
    }
}

impl TextKey {
    /// The key's name in a rule file.
    pub fn name(self) -> &'static str
        ensures { result.now ≡ text_name self }
    {
        match self {
            TextKey::Top => "top",
            TextKey::FillLib => "fill_lib",
            TextKey::FillCell => "fill_cell",
            TextKey::FillTop => "fill_top",
        }
    }

    /// The key of a name.
    pub fn named(word: &[u8]) -> Option<TextKey>
        ensures { result ≡ find (λ k. bytes_eq word.now (text_name k)) all_text_keys }
    {
        TEXT_KEYS
            .iter()
            .copied()
            .find(|key| word == key.name().as_bytes())
    }
}

impl OptionalKey {
    /// The key's name in a rule file.
    pub fn name(self) -> &'static str
        ensures { result.now ≡ optional_name self }
    {
        match self {
            OptionalKey::KeepLayer => "keep_layer",
            OptionalKey::KeepDatatype => "keep_datatype",
        }
    }

    /// The key's index among the optional ones, from 0.
    pub fn index(self) -> usize
        ensures index { result ≡ optional_index self }
        ensures within { result < 2 }
    {
        self as usize
    }

    /// The key of a name.
    pub fn named(word: &[u8]) -> Option<OptionalKey>
        ensures { result ≡ find (λ k. bytes_eq word.now (optional_name k)) all_optional_keys }
    {
        OPTIONAL_KEYS
            .iter()
            .copied()
            .find(|key| word == key.name().as_bytes())
    }
}

impl AlsoKey {
    /// The key's name in a rule file.
    pub fn name(self) -> &'static str
        ensures { result.now ≡ also_name self }
    {
        match self {
            AlsoKey::Metal => "also_metal",
            AlsoKey::Fill => "also_fill",
            AlsoKey::Keep => "also_keep",
        }
    }

    /// The key of a name.
    pub fn named(word: &[u8]) -> Option<AlsoKey>
        ensures { result ≡ find (λ k. bytes_eq word.now (also_name k)) all_also_keys }
    {
        ALSO_KEYS
            .iter()
            .copied()
            .find(|key| word == key.name().as_bytes())
    }
}

impl Key {
    /// The key's name in a rule file.
    pub fn name(self) -> &'static str
        ensures { result.now ≡ key_name self }
    {
        match self {
            Key::Number(key) => key.name(),
            Key::Text(key) => key.name(),
            Key::Optional(key) => key.name(),
            Key::Also(key) => key.name(),
            Key::Padding => "padding",
        }
    }

    /// The key of a name.
    pub fn named(word: &[u8]) -> Option<Key>
        ensures { result ≡ key_named word.now }
    {
        if let Some(key) = NumberKey::named(word) {
            return Some(Key::Number(key));
        }
        if let Some(key) = TextKey::named(word) {
            return Some(Key::Text(key));
        }
        if let Some(key) = OptionalKey::named(word) {
            return Some(Key::Optional(key));
        }
        if let Some(key) = AlsoKey::named(word) {
            return Some(Key::Also(key));
        }
        if word == "padding".as_bytes() {
            Some(Key::Padding)
        } else {
            None
        }
    }
}
