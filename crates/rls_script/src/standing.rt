//! Which labels have sessions.

ghost use Rattle.std.specs.Prelude.{◌≡◌};
ghost use Rattle.rls_script.specs.Plans.{refusal_of, standing_of};

use rls_value::{Limit, Refusal};

/// How a label's lines are answered.
#[derive(Clone, Copy, Debug, PartialEq, Eq)]
pub enum Standing {
    /// In a session of its own.
    Served,
    /// They are without a label, and are refused.
    Unlabelled,
    /// 64 labels have sessions already, and they are refused.
    Beyond,
}

impl Standing {
    /// The standing of the label at a place among the script's labels, of which `unlabelled` is that of `?`.
    pub fn of(unlabelled: usize, place: usize) -> Standing
        ensures { result ≡ standing_of unlabelled place }
    {
        if place == unlabelled {
            return Standing::Unlabelled;
        }
        let limit = if unlabelled < place { 65 } else { 64 };
        if place < limit {
            Standing::Served
        } else {
            Standing::Beyond
        }
    }

    /// How every line is refused under a label that has no session.
    pub fn refusal(self) -> Refusal
        ensures { result ≡ refusal_of self }
    {
        match self {
            Standing::Unlabelled => Refusal::Syntax,
            Standing::Served | Standing::Beyond => Refusal::Limit(Limit::Sessions),
        }
    }
}
