//! Equality of statements.

use crate::same::{Same, are_both_same};
use rls_statement::{
    AlterPolicy, AlterRole, AlterTable, Assignment, CreatePolicy, CreateRole, CreateTable, Delete,
    DropPolicy, Extent, GrantPrivileges, GrantRoles, Insert, MarkedColumn, Privileges,
    RevokePrivileges, RevokeRoles, Select, Selected, SetRole, Statement, Update,
};

impl Same for Statement {
    fn is_same(&self, other: &Statement) -> bool {
        match (self, other) {
            (Statement::CreateRole(left), Statement::CreateRole(right)) => left.is_same(right),
            (Statement::AlterRole(left), Statement::AlterRole(right)) => left.is_same(right),
            (Statement::CreateTable(left), Statement::CreateTable(right)) => left.is_same(right),
            (Statement::AlterTable(left), Statement::AlterTable(right)) => left.is_same(right),
            (Statement::CreatePolicy(left), Statement::CreatePolicy(right)) => left.is_same(right),
            (Statement::AlterPolicy(left), Statement::AlterPolicy(right)) => left.is_same(right),
            (Statement::DropPolicy(left), Statement::DropPolicy(right)) => left.is_same(right),
            (Statement::Grant(left), Statement::Grant(right)) => left.is_same(right),
            (Statement::GrantRoles(left), Statement::GrantRoles(right)) => left.is_same(right),
            (Statement::Revoke(left), Statement::Revoke(right)) => left.is_same(right),
            (Statement::RevokeRoles(left), Statement::RevokeRoles(right)) => left.is_same(right),
            (Statement::SetRole(left), Statement::SetRole(right)) => left.is_same(right),
            (Statement::Insert(left), Statement::Insert(right)) => left.is_same(right),
            (Statement::Update(left), Statement::Update(right)) => left.is_same(right),
            (Statement::Delete(left), Statement::Delete(right)) => left.is_same(right),
            (Statement::Select(left), Statement::Select(right)) => left.is_same(right),
            (Statement::Transaction(left), Statement::Transaction(right)) => left == right,
            (_, _) => false,
        }
    }
}

impl Same for CreateRole {
    fn is_same(&self, other: &CreateRole) -> bool {
        self.name.is_same(&other.name) && self.attributes == other.attributes
    }
}

impl Same for AlterRole {
    fn is_same(&self, other: &AlterRole) -> bool {
        self.name.is_same(&other.name) && self.attributes == other.attributes
    }
}

impl Same for CreateTable {
    fn is_same(&self, other: &CreateTable) -> bool {
        self.name.is_same(&other.name)
            && self.columns.is_same(&other.columns)
            && are_both_same(self.key.as_ref(), other.key.as_ref())
    }
}

impl Same for MarkedColumn {
    fn is_same(&self, other: &MarkedColumn) -> bool {
        self.column.is_same(&other.column) && self.is_key == other.is_key
    }
}

impl Same for AlterTable {
    fn is_same(&self, other: &AlterTable) -> bool {
        self.table.is_same(&other.table) && self.change == other.change
    }
}

impl Same for CreatePolicy {
    fn is_same(&self, other: &CreatePolicy) -> bool {
        self.table.is_same(&other.table) && self.policy.is_same(&other.policy)
    }
}

impl Same for AlterPolicy {
    fn is_same(&self, other: &AlterPolicy) -> bool {
        self.name.is_same(&other.name)
            && self.table.is_same(&other.table)
            && are_both_same(self.to.as_ref(), other.to.as_ref())
            && are_both_same(self.using.as_ref(), other.using.as_ref())
            && are_both_same(self.check.as_ref(), other.check.as_ref())
    }
}

impl Same for DropPolicy {
    fn is_same(&self, other: &DropPolicy) -> bool {
        self.name.is_same(&other.name) && self.table.is_same(&other.table)
    }
}

impl Same for GrantPrivileges {
    fn is_same(&self, other: &GrantPrivileges) -> bool {
        self.privileges.is_same(&other.privileges)
            && self.table.is_same(&other.table)
            && self.to.is_same(&other.to)
            && self.with_option == other.with_option
    }
}

impl Same for RevokePrivileges {
    fn is_same(&self, other: &RevokePrivileges) -> bool {
        self.option_only == other.option_only
            && self.privileges.is_same(&other.privileges)
            && self.table.is_same(&other.table)
            && self.from.is_same(&other.from)
            && self.cascade == other.cascade
    }
}

impl Same for GrantRoles {
    fn is_same(&self, other: &GrantRoles) -> bool {
        self.roles.is_same(&other.roles)
            && self.to.is_same(&other.to)
            && self.options == other.options
    }
}

impl Same for RevokeRoles {
    fn is_same(&self, other: &RevokeRoles) -> bool {
        self.cascade == other.cascade
            && self.option == other.option
            && self.roles.is_same(&other.roles)
            && self.from.is_same(&other.from)
    }
}

impl Same for SetRole {
    fn is_same(&self, other: &SetRole) -> bool {
        match (self, other) {
            (SetRole::To(role), SetRole::To(other)) => role.is_same(other),
            (SetRole::None, SetRole::None) => true,
            (SetRole::Reset, SetRole::Reset) => true,
            (_, _) => false,
        }
    }
}

impl Same for Privileges {
    fn is_same(&self, other: &Privileges) -> bool {
        self.select.is_same(&other.select)
            && self.insert.is_same(&other.insert)
            && self.update.is_same(&other.update)
            && self.delete == other.delete
    }
}

impl Same for Extent {
    fn is_same(&self, other: &Extent) -> bool {
        self.whole == other.whole && self.columns.is_same(&other.columns)
    }
}

impl Same for Insert {
    fn is_same(&self, other: &Insert) -> bool {
        self.table.is_same(&other.table)
            && are_both_same(self.columns.as_ref(), other.columns.as_ref())
            && self.tuples.is_same(&other.tuples)
            && are_both_same(self.returning.as_ref(), other.returning.as_ref())
    }
}

impl Same for Update {
    fn is_same(&self, other: &Update) -> bool {
        self.table.is_same(&other.table)
            && self.assignments.is_same(&other.assignments)
            && are_both_same(self.condition.as_ref(), other.condition.as_ref())
            && are_both_same(self.returning.as_ref(), other.returning.as_ref())
    }
}

impl Same for Assignment {
    fn is_same(&self, other: &Assignment) -> bool {
        self.column.is_same(&other.column) && self.value.is_same(&other.value)
    }
}

impl Same for Delete {
    fn is_same(&self, other: &Delete) -> bool {
        self.table.is_same(&other.table)
            && are_both_same(self.condition.as_ref(), other.condition.as_ref())
            && are_both_same(self.returning.as_ref(), other.returning.as_ref())
    }
}

impl Same for Select {
    fn is_same(&self, other: &Select) -> bool {
        self.items.is_same(&other.items)
            && self.table.is_same(&other.table)
            && are_both_same(self.alias.as_ref(), other.alias.as_ref())
            && are_both_same(self.condition.as_ref(), other.condition.as_ref())
    }
}

impl Same for Selected {
    fn is_same(&self, other: &Selected) -> bool {
        match (self, other) {
            (Selected::All, Selected::All) => true,
            (Selected::Items(items), Selected::Items(others)) => items.is_same(others),
            (Selected::Count, Selected::Count) => true,
            (_, _) => false,
        }
    }
}
