//! Equality of replies and decisions.

use crate::reply::{Decision, Reply};
use rls_evaluation::rls_equality::Same;

impl Same for Reply {
    fn is_same(&self, other: &Reply) -> bool {
        match (self, other) {
            (Reply::Rows(rows), Reply::Rows(others)) => rows.get().is_same(others.get()),
            (Reply::Count(count), Reply::Count(other)) => *count == *other,
            (Reply::Done, Reply::Done) => true,
            (_, _) => false,
        }
    }
}

impl Same for Decision {
    fn is_same(&self, other: &Decision) -> bool {
        self.id.is_same(&other.id)
            && self.side == other.side
            && self.kind == other.kind
            && self.verdict.is_same(&other.verdict)
    }
}
