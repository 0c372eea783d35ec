//! The data types of records: what a record's data consists of (Calma GDSII Stream Format Manual,
//! release 6.0).

/// No data.
pub const NONE: u8 = 0x00;
/// An array of bits, in two bytes.
pub const BITS: u8 = 0x01;
/// Two-byte signed numbers.
pub const WORDS: u8 = 0x02;
/// Four-byte signed numbers.
pub const NUMBERS: u8 = 0x03;
/// Eight-byte reals.
pub const REALS: u8 = 0x05;
/// Text, padded with one zero byte to even length.
pub const TEXT: u8 = 0x06;
