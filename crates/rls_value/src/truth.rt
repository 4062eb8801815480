//! Three truth values, as SQL has them.

ghost use Rattle.std.specs.Prelude.{◌≡◌};
ghost use Rattle.rls_value.specs.Truths.{conjunction_of, disjunction_of, negation_of, is_true, truth_of};

/// Kleene's truth values: true, false and unknown, which is SQL's null (PostgreSQL manual, 9.1, "Logical Operators").
#[derive(Clone, Copy, Debug, PartialEq, Eq)]
pub enum Truth {
    True,
    False,
    Unknown,
}

impl Truth {
    /// True if both are true, false if either is false.
    pub fn and(self, other: Truth) -> Truth
        ensures { result ≡ conjunction_of self other }
    {
        match (self, other) {
            (Truth::False, _) => Truth::False,
            (_, Truth::False) => Truth::False,
            (Truth::True, Truth::True) => Truth::True,
            (_, _) => Truth::Unknown,
        }
    }

    /// True if either is true, false if both are false.
    pub fn or(self, other: Truth) -> Truth
        ensures { result ≡ disjunction_of self other }
    {
        match (self, other) {
            (Truth::True, _) => Truth::True,
            (_, Truth::True) => Truth::True,
            (Truth::False, Truth::False) => Truth::False,
            (_, _) => Truth::Unknown,
        }
    }

    #[must_use]
    pub fn not(self) -> Truth
        ensures { result ≡ negation_of self }
    {
        match self {
            Truth::True => Truth::False,
            Truth::False => Truth::True,
            Truth::Unknown => Truth::Unknown,
        }
    }

    /// Whether it is true, and neither false nor unknown.
    pub fn is_true(self) -> bool
        ensures { result ≡ is_true self }
    {
        match self {
            Truth::True => true,
            Truth::False | Truth::Unknown => false,
        }
    }

    pub fn from_bool(flag: bool) -> Truth
        ensures { result ≡ truth_of flag }
    {
        if flag { Truth::True } else { Truth::False }
    }
}
