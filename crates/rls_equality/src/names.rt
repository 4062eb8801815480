//! Equality of names, numbers and values.

ghost use Rattle.std.specs.Prelude.{◌≡◌};

use crate::same::{Same, are_both_same, are_same};
use rls_catalog::rls_expr::{ColumnName, FromItem, Selects, Var};
use rls_catalog::rls_value::{Name, Row, RowId, Value, cmp_rows, cmp_values};
use std::cmp::Ordering;

impl Same for Name {
    #[tactic(auto, using(crate::proofs::Deciding::names_decide))]
    fn is_same(&self, other: &Name) -> bool {
        self.is(other)
    }
}

impl Same for Value {
    #[tactic(auto, using(crate::proofs::Deciding::values_decide))]
    fn is_same(&self, other: &Value) -> bool {
        match cmp_values(self, other) {
            Ordering::Equal => true,
            Ordering::Less | Ordering::Greater => false,
        }
    }
}

impl Same for Row {
    #[tactic(auto, using(crate::proofs::Deciding::rows_decide))]
    fn is_same(&self, other: &Row) -> bool {
        match cmp_rows(self, other) {
            Ordering::Equal => true,
            Ordering::Less | Ordering::Greater => false,
        }
    }
}

impl Same for RowId {
    fn is_same(&self, other: &RowId) -> bool {
        self.txn == other.txn && self.n == other.n
    }
}

impl Same for usize {
    fn is_same(&self, other: &usize) -> bool {
        *self == *other
    }
}

impl Same for ColumnName {
    fn is_same(&self, other: &ColumnName) -> bool {
        are_both_same(self.qualifier.as_ref(), other.qualifier.as_ref())
            && self.name.is_same(&other.name)
    }
}

impl Same for FromItem {
    fn is_same(&self, other: &FromItem) -> bool {
        are_both_same(self.alias.as_ref(), other.alias.as_ref()) && self.table.is_same(&other.table)
    }
}

impl Same for Selects {
    fn is_same(&self, other: &Selects) -> bool {
        *self == *other
    }
}

impl Same for Var {
    fn is_same(&self, other: &Var) -> bool {
        *self == *other
    }
}
