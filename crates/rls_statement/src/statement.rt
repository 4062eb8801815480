//! Statements, as they are written.

ghost use Rattle.std.specs.Prelude.{◌≡◌};
ghost use Rattle.rls_statement.specs.Tags.{tag_of};

use crate::changing::{Delete, Update};
use crate::command::TransactionCommand;
use crate::privileges::Privileges;
use rls_expr::rls_value::shared::Share;
use rls_expr::rls_value::{Items, Name, Tag};
use rls_expr::{Column, Expr, Grantee, Policy};

/// A statement of SQL.
#[derive(Drop)]
pub enum Statement {
    CreateRole(CreateRole),
    AlterRole(AlterRole),
    CreateTable(CreateTable),
    AlterTable(AlterTable),
    CreatePolicy(CreatePolicy),
    AlterPolicy(AlterPolicy),
    DropPolicy(DropPolicy),
    Grant(GrantPrivileges),
    GrantRoles(GrantRoles),
    Revoke(RevokePrivileges),
    RevokeRoles(RevokeRoles),
    SetRole(SetRole),
    Insert(Insert),
    Update(Update),
    Delete(Delete),
    Select(Select),
    /// `BEGIN`, `COMMIT` or `ROLLBACK`, which no transaction runs: it is in progress. The grammar's statements have none of them.
    Transaction(TransactionCommand),
}

/// `CREATE ROLE`, or `CREATE USER`, which is the same with `LOGIN` unless `NOLOGIN` is written.
#[derive(Drop)]
pub struct CreateRole {
    pub name: Name,
    pub attributes: Attributes,
}

/// The attributes of a role, each as it is written, if it is.
#[derive(Clone, Copy, PartialEq, Eq)]
pub struct Attributes {
    pub superuser: Option<bool>,
    pub login: Option<bool>,
    pub bypass_rls: Option<bool>,
}

/// `ALTER ROLE`: the attributes that are written change, the others stay.
#[derive(Drop)]
pub struct AlterRole {
    pub name: Name,
    pub attributes: Attributes,
}

/// `CREATE TABLE`. At most one primary key is written: the marks of one column, or a constraint.
#[derive(Drop)]
pub struct CreateTable {
    pub name: Name,
    pub columns: Items<MarkedColumn>,
    /// `PRIMARY KEY (..)` behind the columns.
    pub key: Option<Items<Name>>,
}

/// A column with its marks.
#[derive(Drop)]
pub struct MarkedColumn {
    /// With `NOT NULL`, if that is written.
    pub column: Column,
    /// `PRIMARY KEY`.
    pub is_key: bool,
}

#[derive(Drop)]
pub struct AlterTable {
    pub table: Name,
    pub change: RowSecurity,
}

/// A change of a table's row security.
#[derive(Clone, Copy, PartialEq, Eq)]
pub enum RowSecurity {
    Enable,
    Disable,
    Force,
    NoForce,
}

#[derive(Drop)]
pub struct CreatePolicy {
    pub table: Name,
    pub policy: Policy,
}

/// `ALTER POLICY`: the parts that are written change, the others stay. At least one is written.
#[derive(Drop)]
pub struct AlterPolicy {
    pub name: Name,
    pub table: Name,
    pub to: Option<Items<Grantee>>,
    pub using: Option<Share<Expr>>,
    pub check: Option<Share<Expr>>,
}

#[derive(Drop)]
pub struct DropPolicy {
    pub name: Name,
    pub table: Name,
}

/// `GRANT` of privileges on a table.
#[derive(Drop)]
pub struct GrantPrivileges {
    pub privileges: Privileges,
    pub table: Name,
    pub to: Items<Grantee>,
    /// `WITH GRANT OPTION`.
    pub with_option: bool,
}

/// `REVOKE` of privileges on a table, or of their grant options.
#[derive(Drop)]
pub struct RevokePrivileges {
    /// `GRANT OPTION FOR`: the privileges stay.
    pub option_only: bool,
    pub privileges: Privileges,
    pub table: Name,
    pub from: Items<Grantee>,
    /// `CASCADE`: what depends on them goes too. Otherwise nothing may depend on them.
    pub cascade: bool,
}

/// `GRANT` of roles: each of the roles to each of the members.
#[derive(Drop)]
pub struct GrantRoles {
    pub roles: Items<Name>,
    pub to: Items<Name>,
    pub options: MembershipOptions,
}

/// The options of a membership, each as it is written, if it is; `OPTION` is `TRUE`.
#[derive(Clone, Copy, PartialEq, Eq)]
pub struct MembershipOptions {
    pub admin: Option<bool>,
    pub inherit: Option<bool>,
    pub set: Option<bool>,
}

/// `REVOKE` of roles, or of one option of the memberships.
#[derive(Drop)]
pub struct RevokeRoles {
    pub option: Option<MembershipOption>,
    pub roles: Items<Name>,
    pub from: Items<Name>,
    /// `CASCADE` is written. It has no effect on memberships.
    pub cascade: bool,
}

/// An option of a membership.
#[derive(Clone, Copy, PartialEq, Eq)]
pub enum MembershipOption {
    Admin,
    Inherit,
    Set,
}

/// Which role becomes the current one.
#[derive(Drop)]
pub enum SetRole {
    /// `SET ROLE` of a role.
    To(Name),
    /// `SET ROLE NONE`: the login.
    None,
    /// `RESET ROLE`: the login.
    Reset,
}

/// `INSERT`; the tuples have one length, which is at least 1, and that of the list of columns, where one is written.
#[derive(Drop)]
pub struct Insert {
    pub table: Name,
    /// The columns that are written; else the values are those of the table's first columns.
    pub columns: Option<Items<Name>>,
    pub tuples: Items<Items<Expr>>,
    /// `RETURNING`: what is answered of the new rows. The grammar has no `count(*)` there.
    pub returning: Option<Selected>,
}

#[derive(Drop)]
pub struct Select {
    pub items: Selected,
    pub table: Name,
    /// `AS` and a name: what qualifies the table's columns in place of its own name.
    pub alias: Option<Name>,
    pub condition: Option<Expr>,
}

/// What is selected: all columns, the items, or the number of rows.
#[derive(Drop)]
pub enum Selected {
    All,
    Items(Items<Expr>),
    /// `count(*)`.
    Count,
}

impl Statement {
    /// The tag that it is answered with.
    pub fn tag(&self) -> Tag
        ensures { result ≡ tag_of self.now }
    {
        match self {
            Statement::CreateRole(_) => Tag::CreateRole,
            Statement::AlterRole(_) => Tag::AlterRole,
            Statement::CreateTable(_) => Tag::CreateTable,
            Statement::AlterTable(_) => Tag::AlterTable,
            Statement::CreatePolicy(_) => Tag::CreatePolicy,
            Statement::AlterPolicy(_) => Tag::AlterPolicy,
            Statement::DropPolicy(_) => Tag::DropPolicy,
            Statement::Grant(_) => Tag::Grant,
            Statement::GrantRoles(_) => Tag::GrantRole,
            Statement::Revoke(_) => Tag::Revoke,
            Statement::RevokeRoles(_) => Tag::RevokeRole,
            Statement::SetRole(SetRole::To(_) | SetRole::None) => Tag::Set,
            Statement::SetRole(SetRole::Reset) => Tag::Reset,
            Statement::Insert(_) => Tag::Insert,
            Statement::Update(_) => Tag::Update,
            Statement::Delete(_) => Tag::Delete,
            Statement::Select(_) => Tag::Select,
            Statement::Transaction(TransactionCommand::Begin(_)) => Tag::Begin,
            Statement::Transaction(TransactionCommand::Commit) => Tag::Commit,
            Statement::Transaction(TransactionCommand::Rollback) => Tag::Rollback,
        }
    }
}
