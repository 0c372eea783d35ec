//! The part of a chip that a word names.
ghost use Rattle.std.specs.Prelude.{◌≡◌, IfSome};
ghost use Rattle.densfill_args.specs.Grammar as said;
ghost use Rattle.densfill_args.specs.Lines.{IsPart};

/// The number below 2^32 that a text writes in digits alone.
fn plain_number(text: &str) -> Option<u32>
    ensures { result ≡ said.plain_number text.now }
{
    if text.starts_with('+') {
        return None;
    }
    match text.parse::<u32>() {
        Ok(number) => Some(number),
        Err(_) => None,
    }
}

/// The numbers of `K/N`: part K of N, from 1 to N of 1 to 4,096.
pub(crate) fn part_numbers(text: &str) -> Option<(u32, u32)>
    ensures numbers { result ≡ said.part_by text.now }
    ensures bounds { IfSome result IsPart }
{
    let (number, count) = text.split_once('/')?;
    let number = plain_number(number)?;
    let count = plain_number(count)?;
    if 1 <= number && number <= count && count <= 4096 {
        Some((number, count))
    } else {
        None
    }
}
