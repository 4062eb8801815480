//! Equality of changes, and of what row security says of a row.

use crate::same::{Same, are_both_same, are_same};
use rls_catalog::{Change, Delta, RowChange, Verdict};

impl Same for Delta {
    fn is_same(&self, other: &Delta) -> bool {
        are_same(self.as_slice(), other.as_slice())
    }
}

impl Same for Change {
    fn is_same(&self, other: &Change) -> bool {
        match (self, other) {
            (Change::Role(name, role), Change::Role(other, another)) => {
                name.is_same(other) && role.is_same(another)
            }
            (Change::Members(name, members), Change::Members(other, others)) => {
                name.is_same(other) && members.is_same(others)
            }
            (Change::Table(name, table), Change::Table(other, another)) => {
                name.is_same(other) && table.is_same(another)
            }
            (Change::Grants(name, grants), Change::Grants(other, others)) => {
                name.is_same(other) && grants.is_same(others)
            }
            (Change::Policies(name, policies), Change::Policies(other, others)) => {
                name.is_same(other) && policies.is_same(others)
            }
            (Change::Row(change), Change::Row(other)) => change.is_same(other),
            (_, _) => false,
        }
    }
}

impl Same for RowChange {
    fn is_same(&self, other: &RowChange) -> bool {
        self.table.is_same(&other.table)
            && self.id.is_same(&other.id)
            && are_both_same(self.before.as_ref(), other.before.as_ref())
            && are_both_same(self.after.as_ref(), other.after.as_ref())
    }
}

impl Same for Verdict {
    fn is_same(&self, other: &Verdict) -> bool {
        match (self, other) {
            (Verdict::Exempt, Verdict::Exempt) => true,
            (Verdict::By(policy), Verdict::By(other)) => policy.is_same(other),
            (Verdict::NoPermissive, Verdict::NoPermissive) => true,
            (Verdict::Restrictive(policy), Verdict::Restrictive(other)) => policy.is_same(other),
            (_, _) => false,
        }
    }
}
