//! The types of SQL statements, as they are written.
#![tactic(auto)]

mod changing;
mod command;
mod privileges;
mod statement;

pub use changing::{Assignment, Delete, Update};
pub use command::{AccessMode, Command, TransactionCommand};
pub use privileges::{Extent, Privileges};
pub use rls_expr;
pub use statement::{
    AlterPolicy, AlterRole, AlterTable, Attributes, CreatePolicy, CreateRole, CreateTable,
    DropPolicy, GrantPrivileges, GrantRoles, Insert, MarkedColumn, MembershipOption,
    MembershipOptions, RevokePrivileges, RevokeRoles, RowSecurity, Select, Selected, SetRole,
    Statement,
};
