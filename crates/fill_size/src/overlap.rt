//! Ranges of numbers, each from its first number on and below its second.
ghost use Rattle.std.specs.Prelude.{◌↔◌, IsTrue};
ghost use Rattle.fill_size.specs.Ranges.{HaveCommon};

/// Whether some number is in the range from `a` below `b` and in that from `c` below `d`.
pub(crate) fn have_common(a: i64, b: i64, c: i64, d: i64) -> bool
    ensures { IsTrue result ↔ HaveCommon a b c d }
{
    a.max(c) < b.min(d)
}
