ghost use Rattle.std.specs.Prelude.{◌≡◌};

/// An operation on two sets.
#[derive(Clone, Copy, Debug, PartialEq, Eq)]
pub enum Operation {
    /// What is in either set.
    Union,
    /// What is in the first set and not in the second.
    Minus,
    /// What is in both sets.
    Meet,
}

impl Operation {
    ghost use Rattle.fill_spans.specs.Operations.{applied};

    /// Whether a member belongs to the result, given whether each set has it.
    pub fn apply(self, first: bool, second: bool) -> bool
        ensures { result ≡ applied self first second }
    {
        match self {
            Operation::Union => first || second,
            Operation::Minus => first && !second,
            Operation::Meet => first && second,
        }
    }
}
