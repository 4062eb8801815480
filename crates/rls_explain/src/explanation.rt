//! What a statement came to, and why.

use crate::details::Details;
use rls_meaning::rls_access::{Decision, Effect};
use rls_value::{Items, Name, PolicyKind, Row, RowId, Truth};

/// What a policy that applies says of a row: its USING or WITH CHECK.
#[derive(Drop)]
pub struct Said {
    pub policy: Name,
    pub permissive: bool,
    /// The commands that the policy is for.
    pub kind: PolicyKind,
    pub truth: Truth,
}

/// A decision on a row, and what policies say of the row.
#[derive(Drop)]
pub struct Explained {
    pub decision: Decision,
    /// What each policy says that applies to the role for that type of command, by name; empty where the role is exempt.
    pub policies: Items<Said>,
    /// The row that was judged.
    pub row: Row,
    /// What is told of it at length, where that is wanted.
    pub details: Option<Details>,
}

/// Which decisions are explained, and how.
#[derive(Clone, Copy)]
pub struct Wanted {
    /// Those on the row of that number, or all.
    pub row: Option<RowId>,
    /// At length.
    pub long: bool,
}

/// What a statement came to, and why.
#[derive(Drop)]
pub struct Explanation {
    /// The role that ran it.
    pub role: Name,
    /// The reply or the refusal, with all decisions, and the changes.
    pub effect: Effect,
    /// The decisions that were asked for, in order; empty where none was.
    pub row: Items<Explained>,
}
