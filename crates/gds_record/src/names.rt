//! Names, as records of text hold them.

ghost use Rattle.std.specs.Prelude.{◌≡◌};
ghost use Rattle.gds_record.specs.Numbers.{trimmed};

/// The name that a record of text holds: its data without the zero bytes at its end, of which the
/// manual has at most one and this project takes off all.
pub fn name(body: &[u8]) -> &[u8]
    ensures { result.now ≡ trimmed body.now }
{
    let mut name = body;
    while let Some((last, front)) = name.split_last() {
        if *last != 0 {
            return name;
        }
        name = front;
    }
    name
}
