//! What holds of runs whatever the code does. Each function's contract is the law.
ghost use Rattle.std.specs.Prelude.{◌≡◌, ℤ};
ghost use Rattle.fill_region.specs.Runs.{holds};
ghost use Rattle.fill_region.specs.Laws.{RunsShareNoSquare, EqualSetsAreEqual};

use crate::Region;

/// Two runs of a set that share a square are one.
pub fn runs_share_no_square()
    ensures { RunsShareNoSquare }
{}

/// Equal sets are equal values: a set has one list of runs.
pub fn equal_sets_are_equal(a: &Region, b: &Region)
    ensures law { EqualSetsAreEqual }
    ensures same { ((x y : ℤ) → holds a.now x y ≡ holds b.now x y) → a.now ≡ b.now }
{
    let _ = a.runs();
    let _ = b.runs();
}
