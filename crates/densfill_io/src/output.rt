//! Texts, written whole.
ghost use Rattle.std.specs.Prelude.{◌≡◌, ◌↔◌, ℕ, true, false, take, IsErr, OnOk};
ghost use Rattle.std.specs.List.{flat_map};
ghost use Rattle.std.specs.Vec.{vec_items};
ghost use Rattle.std.specs.Io.KnownBytes.{Appends};
ghost use Rattle.densfill_io.specs.Taps.{has_failed, under};

use crate::taps::Tap;
use std::io::Write;
use thiserror::Error;

/// A write failed, or took no byte out of some.
#[derive(Clone, Copy, Debug, PartialEq, Eq, Error)]
#[error("a write failed")]
pub struct DeviceError;

/// Writes the whole text, by as many writes as it takes. Whatever comes of it, what was written is a prefix of the text.
///
/// # Errors
/// `DeviceError` exactly where a write fails or takes no byte; nothing is written after that. Each write takes a byte or
/// more, so there are at most as many as the text has bytes.
pub fn write_text<W: Write>(tap: &mut Tap<W>, text: &[u8]) -> Result<(), DeviceError>
    requires { has_failed tap.old ≡ false }
    ensures device { IsErr result ↔ (has_failed tap.new ≡ true) }
    ensures whole { OnOk result (Appends (W.contents (under tap.old)) (W.contents (under tap.new)) text.now) }
    ensures prefix { (k : ℕ) × Appends (W.contents (under tap.old)) (W.contents (under tap.new)) (take k text.now) }
{
    let mut at = 0;
    'writing: while at < text.len() {
        match tap.write(&text[at..]) {
            Ok(count) if count > 0 => at += count,
            _ => return Err(DeviceError),
        }
    }
    Ok(())
}

/// Writes the whole text as `write_text`, and flushes it: where no fault is answered, the writer has settled all of it.
///
/// # Errors
/// `DeviceError` exactly where a write fails or takes no byte, or the flush fails.
pub fn write_settled<W: Write>(tap: &mut Tap<W>, text: &[u8]) -> Result<(), DeviceError>
    requires { has_failed tap.old ≡ false }
    ensures device { IsErr result ↔ (has_failed tap.new ≡ true) }
    ensures whole { OnOk result (Appends (W.contents (under tap.old)) (W.contents (under tap.new)) text.now) }
    ensures prefix { (k : ℕ) × Appends (W.contents (under tap.old)) (W.contents (under tap.new)) (take k text.now) }
{
    if write_text(tap, text).is_err() || tap.flush().is_err() {
        return Err(DeviceError);
    }
    Ok(())
}

/// Writes texts whole, one after another. Whatever comes of it, what was written is a prefix of all of them together.
///
/// # Errors
/// `DeviceError` exactly where a write fails or takes no byte; nothing is written after that.
pub fn write_texts<W: Write>(tap: &mut Tap<W>, texts: &[Vec<u8>]) -> Result<(), DeviceError>
    requires { has_failed tap.old ≡ false }
    ensures device { IsErr result ↔ (has_failed tap.new ≡ true) }
    ensures whole { OnOk result (Appends (W.contents (under tap.old)) (W.contents (under tap.new)) (flat_map vec_items texts.now)) }
    ensures prefix { (k : ℕ) × Appends (W.contents (under tap.old)) (W.contents (under tap.new)) (take k (flat_map vec_items texts.now)) }
{
    for text in texts {
        write_text(tap, text)?;
    }
    Ok(())
}
