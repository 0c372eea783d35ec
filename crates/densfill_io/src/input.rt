//! Inputs, read to their end.
ghost use Rattle.std.specs.Prelude.{◌≡◌, ◌↔◌, ◌+◌, ◌<◌, ◌≤◌, ◌^◌, ℕ, List, true, false, length, vec_len, IfOk, IfSome, IsErrOf};
ghost use Rattle.std.specs.Io.KnownBytes.{Consumes};
ghost use Rattle.densfill_io.specs.Taps.{has_failed, under};

use crate::taps::Tap;
use std::alloc::Global;
use std::io::Read;
use thiserror::Error;

/// The bytes that one read asks for at most. They stand on the stack, of which the program is to need little.
const CHUNK: usize = 16_384;

/// Why an input was not taken.
#[derive(Clone, Copy, Debug, PartialEq, Eq, Error)]
pub enum InputError {
    /// The reader gave a byte past the limit.
    #[error("the input has more bytes than allowed")]
    TooLong,
    /// A read failed.
    #[error("a read failed")]
    Device,
    /// An allocation was refused.
    #[error("out of memory")]
    Memory,
}

/// Every byte that the tap's reader has left, which are to be at most `limit`.
///
/// At most `limit + 1` bytes are taken.
///
/// # Errors
/// `Device` where a read fails, `TooLong` where the reader gives a byte past `limit`, and `Memory` where memory runs out.
pub fn read_input<R: Read>(
    alloc: Global,
    tap: &mut Tap<R>,
    limit: usize,
) -> Result<Vec<u8>, InputError>
    requires whole { has_failed tap.old ≡ false }
    ensures device { IsErrOf result InputError.Device ↔ (has_failed tap.new ≡ true) }
    ensures short { IfOk result (λ v. vec_len v ≤ limit) }
    ensures bytes { IfOk result (λ v. IfSome (R.remaining (under tap.old)) (λ xs. v.items ≡ xs)) }
    ensures taken { (bs : List ℕ) × Consumes (R.remaining (under tap.old)) (R.remaining (under tap.new)) bs × (length bs ≤ limit + 1) }
    ensures long { IsErrOf result InputError.TooLong → IfSome (R.remaining (under tap.old)) (λ xs. limit < length xs) }
{
    let mut input = Vec::new(alloc);
    let mut buffer = [0u8; CHUNK];
    'reading: loop {
        let room = (limit - input.len()).saturating_add(1).min(CHUNK);
        let Ok(count) = tap.read(&mut buffer[..room]) else {
            return Err(InputError::Device);
        };
        if count == 0 {
            return Ok(input);
        }
        if input.extend_from_slice(&buffer[..count]).is_err() {
            return Err(InputError::Memory);
        }
        if input.len() > limit {
            return Err(InputError::TooLong);
        }
    }
}
