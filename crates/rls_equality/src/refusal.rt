//! Equality of refusals.

use crate::same::{Same, are_both_same};
use rls_catalog::rls_value::{Cause, GrantFault, Object, Refusal, Why};

impl Same for Refusal {
    fn is_same(&self, other: &Refusal) -> bool {
        match (self, other) {
            (Refusal::NoMemory, Refusal::NoMemory) => true,
            (Refusal::Syntax, Refusal::Syntax) => true,
            (Refusal::Limit(limit), Refusal::Limit(other)) => *limit == *other,
            (Refusal::TxnState(state), Refusal::TxnState(other)) => *state == *other,
            (Refusal::NoLogin(role), Refusal::NoLogin(other)) => {
                are_both_same(role.as_ref(), other.as_ref())
            }
            (Refusal::Undefined(kind, name), Refusal::Undefined(other, another)) => {
                *kind == *other && name.is_same(another)
            }
            (Refusal::Duplicate(kind, name), Refusal::Duplicate(other, another)) => {
                *kind == *other && name.is_same(another)
            }
            (Refusal::TypeFault, Refusal::TypeFault) => true,
            (Refusal::Unsupported, Refusal::Unsupported) => true,
            (Refusal::Recursion(table), Refusal::Recursion(other)) => table.is_same(other),
            (Refusal::Denied(why), Refusal::Denied(other)) => why.is_same(other),
            (Refusal::GrantOp(fault), Refusal::GrantOp(other)) => fault.is_same(other),
            (Refusal::Dependent(table), Refusal::Dependent(other)) => table.is_same(other),
            (Refusal::Range(column), Refusal::Range(other)) => column.is_same(other),
            (Refusal::NotNull(column), Refusal::NotNull(other)) => column.is_same(other),
            (Refusal::Unique(table), Refusal::Unique(other)) => table.is_same(other),
            (Refusal::Serial(cause), Refusal::Serial(other)) => cause.is_same(other),
            (Refusal::Foreign, Refusal::Foreign) => true,
            (Refusal::BadAudit(line), Refusal::BadAudit(other)) => *line == *other,
            (_, _) => false,
        }
    }
}

impl Same for Why {
    fn is_same(&self, other: &Why) -> bool {
        match (self, other) {
            (Why::Privilege(privilege, table), Why::Privilege(other, another)) => {
                *privilege == *other && table.is_same(another)
            }
            (Why::Column(privilege, table, column), Why::Column(other, another, last)) => {
                *privilege == *other && table.is_same(another) && column.is_same(last)
            }
            (Why::Owner(table), Why::Owner(other)) => table.is_same(other),
            (Why::Admin(role), Why::Admin(other)) => role.is_same(other),
            (Why::SetRole(role), Why::SetRole(other)) => role.is_same(other),
            (Why::GrantOption(privilege, table), Why::GrantOption(other, another)) => {
                *privilege == *other && table.is_same(another)
            }
            (Why::NoPermissive(table, kind), Why::NoPermissive(other, another)) => {
                table.is_same(other) && *kind == *another
            }
            (Why::Restrictive(policy, table), Why::Restrictive(other, another)) => {
                policy.is_same(other) && table.is_same(another)
            }
            (_, _) => false,
        }
    }
}

impl Same for GrantFault {
    fn is_same(&self, other: &GrantFault) -> bool {
        match (self, other) {
            (GrantFault::Cycle(member, role), GrantFault::Cycle(other, another)) => {
                member.is_same(other) && role.is_same(another)
            }
            (GrantFault::PublicOption, GrantFault::PublicOption) => true,
            (GrantFault::Back(grantee), GrantFault::Back(other)) => grantee.is_same(other),
            (_, _) => false,
        }
    }
}

impl Same for Cause {
    fn is_same(&self, other: &Cause) -> bool {
        match (self, other) {
            (Cause::Written(object, txn), Cause::Written(other, another)) => {
                *txn == *another && object.is_same(other)
            }
            (
                Cause::Structure {
                    first,
                    read_by_first,
                    pivot,
                    read_by_pivot,
                    last,
                },
                Cause::Structure {
                    first: other_first,
                    read_by_first: other_read_by_first,
                    pivot: other_pivot,
                    read_by_pivot: other_read_by_pivot,
                    last: other_last,
                },
            ) => {
                *first == *other_first
                    && *pivot == *other_pivot
                    && *last == *other_last
                    && read_by_first.is_same(other_read_by_first)
                    && read_by_pivot.is_same(other_read_by_pivot)
            }
            (_, _) => false,
        }
    }
}

impl Same for Object {
    fn is_same(&self, other: &Object) -> bool {
        match (self, other) {
            (Object::Role(name), Object::Role(other)) => name.is_same(other),
            (Object::Members(name), Object::Members(other)) => name.is_same(other),
            (Object::Table(name), Object::Table(other)) => name.is_same(other),
            (Object::Grants(name), Object::Grants(other)) => name.is_same(other),
            (Object::Policies(name), Object::Policies(other)) => name.is_same(other),
            (Object::Rows(name), Object::Rows(other)) => name.is_same(other),
            (Object::Key(name, key), Object::Key(other, another)) => {
                name.is_same(other) && key.is_same(another)
            }
            (Object::RowOf(name, id), Object::RowOf(other, another)) => {
                name.is_same(other) && id.is_same(another)
            }
            (_, _) => false,
        }
    }
}
