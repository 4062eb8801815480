//! What is found.

use crate::commands::Commands;
use rls_value::{Items, Name, Text};

/// What is wrong with a policy that reads a table, for roles to which it applies.
#[derive(Clone, Copy, PartialEq, Eq)]
pub enum Lookup {
    /// Row security shows them none of its rows: no permissive policy for SELECT applies.
    Blind,
    /// They may read all of it: it has no row security.
    Open,
    /// They lack SELECT on it.
    Unreadable,
}

/// What is likely a mistake. Roles stand in byte order of their names.
#[derive(Drop)]
pub enum Mistake {
    /// The policy reads the table, and that is wrong for these roles.
    Lookup(Lookup, Name, Name, Items<Name>),
    /// The policy's WITH CHECK is TRUE, and its USING isn't.
    CheckTrue(Name),
    /// Policies lead back to the table, for these roles.
    Loop(Name, Items<Name>),
    /// The policy, permissive or restrictive, is FOR INSERT without WITH CHECK.
    NoCheck(Name, bool),
    /// These roles hold the privileges, and only restrictive policies (`true`) or none (`false`) apply to them.
    Denied(bool, Items<Name>, Commands),
    /// In the policy's USING (`false`) or WITH CHECK (`true`) this comparison, as it is printed, has NULL on a side.
    NullCompared(Name, bool, Text),
    /// Row security doesn't bind these roles, which have the owner's privileges.
    OwnerUnbound(Items<Name>),
    /// The table has so many policies, and its row security is off.
    Off(usize),
    /// The policy is for these roles, whose privileges nobody has who may log in.
    ToNobody(Name, Items<Name>),
}

/// A mistake, and the table whose row security it is about.
#[derive(Drop)]
pub struct Finding {
    pub table: Name,
    pub mistake: Mistake,
}
