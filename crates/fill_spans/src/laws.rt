//! What holds of sets of coordinates whatever the code does. Each function's contract is the law.
ghost use Rattle.fill_spans.specs.Laws.{EqualSetsAreEqual};

/// Equal sets are equal values: a set has one canonical list of edges.
pub fn equal_sets_are_equal()
    ensures { EqualSetsAreEqual }
{}
