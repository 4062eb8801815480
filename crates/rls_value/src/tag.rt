//! Command tags: what a statement answers when it is done.

ghost use Rattle.std.specs.Prelude.{◌≡◌};
ghost use Rattle.rls_value.specs.Words.{tag_text};

use std::fmt;

/// The tag of a command, without the numbers that some carry (PostgreSQL manual, 55.7, "CommandComplete").
#[derive(Clone, Copy, PartialEq, Eq)]
pub enum Tag {
    Select,
    Insert,
    Update,
    Delete,
    CreateRole,
    AlterRole,
    CreateTable,
    AlterTable,
    CreatePolicy,
    AlterPolicy,
    DropPolicy,
    Grant,
    Revoke,
    GrantRole,
    RevokeRole,
    Set,
    Reset,
    Begin,
    Commit,
    Rollback,
    Connect,
}

impl Tag {
    pub fn text(self) -> &'static str
        ensures { result.now ≡ tag_text self }
    {
        match self {
            Tag::Select => "SELECT",
            Tag::Insert => "INSERT",
            Tag::Update => "UPDATE",
            Tag::Delete => "DELETE",
            Tag::CreateRole => "CREATE ROLE",
            Tag::AlterRole => "ALTER ROLE",
            Tag::CreateTable => "CREATE TABLE",
            Tag::AlterTable => "ALTER TABLE",
            Tag::CreatePolicy => "CREATE POLICY",
            Tag::AlterPolicy => "ALTER POLICY",
            Tag::DropPolicy => "DROP POLICY",
            Tag::Grant => "GRANT",
            Tag::Revoke => "REVOKE",
            Tag::GrantRole => "GRANT ROLE",
            Tag::RevokeRole => "REVOKE ROLE",
            Tag::Set => "SET",
            Tag::Reset => "RESET",
            Tag::Begin => "BEGIN",
            Tag::Commit => "COMMIT",
            Tag::Rollback => "ROLLBACK",
            Tag::Connect => "CONNECT",
        }
    }
}

impl fmt::Display for Tag {
    ghost use Rattle.std.specs.Prelude.{Some};
    ghost use Rattle.rls_value.specs.Words.{tag_text};

    ghost output = { λ tag. Some (tag_text tag) };

    fn fmt<W: fmt::Write>(&self, f: &mut fmt::Formatter<W>) -> fmt::Result {
        f.write_str(self.text())
    }
}
