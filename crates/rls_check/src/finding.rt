//! What a check finds.

use std::fmt;

/// What is found first.
#[derive(Clone, Copy, PartialEq, Eq)]
pub enum Finding {
    /// The audit holds.
    Holds,
    /// The numbers are no order of the transactions, or it puts one before one that had committed when it began.
    Order,
    /// Of this transaction this statement, counted from 1: its reply or its decisions.
    Reply(u64, u64),
    /// The changes of this transaction.
    Changes(u64),
    /// The state in which the run ends isn't the committed one.
    FinalState,
}

/// As `check` writes it.
impl fmt::Display for Finding {
    ghost use Rattle.std.specs.Prelude.{Some};
    ghost use Rattle.rls_check.specs.Findings.{finding_text};

    ghost output = { λ finding. Some (finding_text finding) };

    fn fmt<W: fmt::Write>(&self, f: &mut fmt::Formatter<W>) -> fmt::Result {
        match self {
            Finding::Holds => f.write_str("yes"),
            Finding::Order => f.write_str("no: order"),
            Finding::Reply(txn, statement) => write!(f, "no: reply {txn}.{statement}"),
            Finding::Changes(txn) => write!(f, "no: changes {txn}"),
            Finding::FinalState => f.write_str("no: state"),
        }
    }
}
