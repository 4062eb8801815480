//! Equality of what a state keeps.

use crate::same::{Same, are_both_same, are_same};
use rls_catalog::rls_expr::{Column, Grantee, Policy, TableDef};
use rls_catalog::{BorrowedRow, Grant, Keyed, Membership, RoleDef, Stored};

impl Same for RoleDef {
    fn is_same(&self, other: &RoleDef) -> bool {
        self.superuser == other.superuser
            && self.login == other.login
            && self.bypass_rls == other.bypass_rls
    }
}

impl Same for Membership {
    fn is_same(&self, other: &Membership) -> bool {
        self.role.is_same(&other.role)
            && self.admin == other.admin
            && self.inherit == other.inherit
            && self.set == other.set
    }
}

impl Same for Column {
    fn is_same(&self, other: &Column) -> bool {
        self.name.is_same(&other.name) && self.kind == other.kind && self.not_null == other.not_null
    }
}

impl Same for TableDef {
    fn is_same(&self, other: &TableDef) -> bool {
        self.owner.is_same(&other.owner)
            && self.enabled == other.enabled
            && self.forced == other.forced
            && are_same(self.columns.as_slice(), other.columns.as_slice())
            && are_same(self.key.as_slice(), other.key.as_slice())
    }
}

impl Same for Grantee {
    fn is_same(&self, other: &Grantee) -> bool {
        match (self, other) {
            (Grantee::Public, Grantee::Public) => true,
            (Grantee::Role(role), Grantee::Role(other)) => role.is_same(other),
            (_, _) => false,
        }
    }
}

impl Same for Grant {
    fn is_same(&self, other: &Grant) -> bool {
        self.privilege == other.privilege
            && self.grantee.is_same(&other.grantee)
            && self.grantor.is_same(&other.grantor)
            && self.option == other.option
            && are_both_same(self.column.as_ref(), other.column.as_ref())
            && self.place == other.place
    }
}

impl Same for Policy {
    fn is_same(&self, other: &Policy) -> bool {
        self.name.is_same(&other.name)
            && self.permissive == other.permissive
            && self.kind == other.kind
            && are_same(self.to.as_slice(), other.to.as_slice())
            && are_both_same(self.using.as_ref(), other.using.as_ref())
            && are_both_same(self.check.as_ref(), other.check.as_ref())
    }
}

impl Same for Keyed {
    fn is_same(&self, other: &Keyed) -> bool {
        self.key.is_same(&other.key) && self.row.is_same(&other.row)
    }
}

impl Same for Stored {
    fn is_same(&self, other: &Stored) -> bool {
        self.id.is_same(&other.id) && self.key.is_same(&other.key) && self.row.is_same(&other.row)
    }
}

impl<'c> Same for BorrowedRow<'c> {
    fn is_same(&self, other: &BorrowedRow<'c>) -> bool {
        self.id().is_same(&other.id())
            && self.key().is_same(other.key())
            && self.row().is_same(other.row())
    }
}
