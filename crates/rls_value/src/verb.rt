//! Privileges, and what a policy is for.

ghost use Rattle.std.specs.Prelude.{◌≡◌};
ghost use Rattle.rls_value.specs.Words.{privilege_word, kind_word};

use std::fmt;

/// A privilege on a table (PostgreSQL manual, 5.7, "Privileges").
#[derive(Clone, Copy, PartialEq, Eq)]
pub enum Privilege {
    Select,
    Insert,
    Update,
    Delete,
}

/// The type of command that a row is checked for (PostgreSQL manual, CREATE POLICY, "Policies Applied by Command Type").
#[derive(Clone, Copy, PartialEq, Eq)]
pub enum Kind {
    Select,
    Insert,
    Update,
    Delete,
}

/// The commands that a policy is for: `FOR ALL`, or one type.
#[derive(Clone, Copy, PartialEq, Eq)]
pub enum PolicyKind {
    All,
    Only(Kind),
}

impl fmt::Display for Privilege {
    ghost use Rattle.std.specs.Prelude.{Some};
    ghost use Rattle.rls_value.specs.Words.{privilege_word};

    ghost output = { λ privilege. Some (privilege_word privilege) };

    fn fmt<W: fmt::Write>(&self, f: &mut fmt::Formatter<W>) -> fmt::Result {
        f.write_str(privilege_text(*self))
    }
}

impl fmt::Display for Kind {
    ghost use Rattle.std.specs.Prelude.{Some};
    ghost use Rattle.rls_value.specs.Words.{kind_word};

    ghost output = { λ kind. Some (kind_word kind) };

    fn fmt<W: fmt::Write>(&self, f: &mut fmt::Formatter<W>) -> fmt::Result {
        f.write_str(kind_text(*self))
    }
}

fn privilege_text(privilege: Privilege) -> &'static str
    ensures { result.now ≡ privilege_word privilege }
{
    match privilege {
        Privilege::Select => "SELECT",
        Privilege::Insert => "INSERT",
        Privilege::Update => "UPDATE",
        Privilege::Delete => "DELETE",
    }
}

fn kind_text(kind: Kind) -> &'static str
    ensures { result.now ≡ kind_word kind }
{
    match kind {
        Kind::Select => "SELECT",
        Kind::Insert => "INSERT",
        Kind::Update => "UPDATE",
        Kind::Delete => "DELETE",
    }
}
