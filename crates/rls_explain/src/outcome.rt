//! What a statement did with a row.

use rls_meaning::rls_guard::rls_catalog::Verdict;
use rls_value::{Kind, Name, Row, RowId, Truth};

/// What a statement did with a row, in a word.
#[derive(Clone, Copy, PartialEq, Eq)]
pub enum RowWord {
    /// A SELECT lists it.
    Listed,
    /// A SELECT counts it.
    Counted,
    /// An UPDATE changed it.
    Changed,
    /// A DELETE deleted it.
    Deleted,
    /// An UPDATE would have changed it, and was refused.
    Matched,
    /// Policies allow it, and WHERE isn't true of it.
    Skipped,
    /// The policies for SELECT deny it.
    Hidden,
    /// The policies for the command's own type deny it, and those for SELECT don't.
    Barred,
    /// An INSERT put it.
    Inserted,
    /// A new row that policies deny.
    Refused,
    /// Another new row of a statement that was refused.
    Proposed,
    /// RETURNING lists it.
    Returned,
    /// A subquery, of the statement or of a policy, could see it.
    Seen,
}

/// Why a row was left out or refused.
#[derive(Drop)]
pub enum Reason {
    /// The policies for this type of command deny it.
    Denied(Kind, Verdict),
    /// What WHERE comes to, false or null.
    Unmet(Truth),
}

/// What a statement did with a row.
#[derive(Drop)]
pub struct RowOutcome {
    pub word: RowWord,
    pub table: Name,
    pub id: RowId,
    /// Its values: of a row that was changed those before.
    pub row: Row,
    /// Those of a row that was changed.
    pub new: Option<Row>,
    pub reason: Option<Reason>,
}

/// What comes of a row that a command scans.
#[derive(Drop)]
pub enum Fate {
    Denied(Reason),
    Unmet(Truth),
    Met,
}

/// What is told of a row that is met, and whether RETURNING lists it.
#[derive(Clone, Copy)]
pub struct Met {
    pub word: RowWord,
    pub returning: bool,
}
