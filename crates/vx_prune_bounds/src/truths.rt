// Which of null, false and true a truth value may be.
ghost use Rattle.std.specs.Prelude.{◌≡◌};

/// Which of null, false and true a truth value may be.
#[derive(Clone, Copy, Debug, PartialEq, Eq)]
pub struct Truths {
    /// Whether it may be null.
    pub null: bool,
    /// Whether it may be false.
    pub no: bool,
    /// Whether it may be true.
    pub yes: bool,
}

impl Truths {
    ghost use Rattle.vx_prune_bounds.specs.Truths.{not_truths, and_truths, or_truths, may_fail};

    /// What its negation may be. Takes no memory.
    pub fn not(self) -> Truths
        ensures { result ≡ not_truths self }
    {
        Truths {
            null: self.null,
            no: self.yes,
            yes: self.no,
        }
    }

    /// What the conjunction of the two may be, by Kleene's table. Takes no memory.
    pub fn and(self, other: Truths) -> Truths
        ensures { result ≡ and_truths self other }
    {
        Truths {
            null: (self.null && (other.null || other.yes)) || (other.null && self.yes),
            no: self.no || other.no,
            yes: self.yes && other.yes,
        }
    }

    /// What the disjunction of the two may be, by Kleene's table. Takes no memory.
    pub fn or(self, other: Truths) -> Truths
        ensures { result ≡ or_truths self other }
    {
        self.not().and(other.not()).not()
    }

    /// Whether it may be null or false. Takes no memory.
    pub fn may_fail(self) -> bool
        ensures { result ≡ may_fail self }
    {
        self.null || self.no
    }
}
