//! Eight-byte reals, decided on their bits. The value is a fraction of 56 bits times a power of 16,
//! with a sign; one value has several spellings, and each is taken (Calma GDSII Stream Format
//! Manual, release 6.0).

ghost use Rattle.std.specs.Prelude.{◌≡◌, ◌*◌, ◌%◌, ◌^◌, ◌<◌, ◌≤◌, ◌↔◌, ℕ, Bool, false, IsOk, IfOk, OnErr, IfSome, IfNone, IsTrue};
ghost use Rattle.gds_record.specs.Reals.{bits_of, IsMagnitude, HasValue, turns_of};

use thiserror::Error;

/// A real that isn't a value asked for.
#[derive(Clone, Copy, Debug, PartialEq, Eq, Error)]
#[error("a real has another value")]
pub struct BadReal;

/// The whole number that the real with these bits is, its sign left out, if it's a whole number
/// below 2^56 that the exponents 65 to 78 can spell: each one that 16 doesn't divide is.
fn magnitude(bits: u64) -> Option<u64>
    ensures some { IfSome result (λ n. IsMagnitude bits n) }
    ensures none { IfNone result ((n : ℕ) → IsMagnitude bits n → (0 < n) × (n % 16 ≡ 0)) }
{
    let fraction = bits & 0x00ff_ffff_ffff_ffff;
    let exponent = (bits >> 56) as u32 % 128;
    if fraction == 0 {
        return Some(0);
    }
    if exponent < 65 || exponent > 78 {
        return None;
    }
    let unit = 16u64.pow(78 - exponent);
    if fraction % unit == 0 {
        Some(fraction / unit)
    } else {
        None
    }
}

fn is_one(bits: u64) -> bool
    ensures { IsTrue result ↔ HasValue bits false 1 }
{
    match magnitude(bits) {
        Some(n) => n == 1 && bits >> 63 == 0,
        None => false,
    }
}

/// Whether the real is exactly 1, as a magnification has to be.
///
/// # Errors
/// `BadReal` for every other value.
pub fn unit_mag(bytes: &[u8; 8]) -> Result<(), BadReal>
    ensures { IsOk result ↔ HasValue (bits_of bytes.now) false 1 }
{
    if is_one(u64::from_be_bytes(*bytes)) {
        Ok(())
    } else {
        Err(BadReal)
    }
}

/// The quarter turns counter-clockwise, from 0 to 3, of so many degrees without their sign.
fn turns(bits: u64) -> Result<u8, BadReal>
    ensures found { IfOk result (λ t. (negative : Bool) × (k : ℕ) × (k ≤ 4)
        × HasValue bits negative (90 * k) × (t ≡ turns_of negative k)) }
    ensures none { OnErr result ((negative : Bool) (k : ℕ) → k ≤ 4
        → HasValue bits negative (90 * k) → ⊥) }
{
    let quarters = match magnitude(bits) {
        Some(0) => 0,
        Some(90) => 1,
        Some(180) => 2,
        Some(270) => 3,
        Some(360) => 4,
        _ => return Err(BadReal),
    };
    if bits >> 63 == 0 {
        Ok(quarters % 4)
    } else {
        Ok((4 - quarters) % 4)
    }
}

/// The number of quarter turns counter-clockwise, from 0 to 3, that the real's degrees are, where
/// they are a multiple of 90 from -360 to 360.
///
/// # Errors
/// `BadReal` for every other value.
pub fn quarter_turns(bytes: &[u8; 8]) -> Result<u8, BadReal>
    ensures found { IfOk result (λ t. (negative : Bool) × (k : ℕ) × (k ≤ 4)
        × HasValue (bits_of bytes.now) negative (90 * k) × (t ≡ turns_of negative k)) }
    ensures none { OnErr result ((negative : Bool) (k : ℕ) → k ≤ 4
        → HasValue (bits_of bytes.now) negative (90 * k) → ⊥) }
{
    turns(u64::from_be_bytes(*bytes))
}
