//! What a word stands for, as JSON.

ghost use Rattle.std.specs.Prelude.{◌≡◌};
ghost use Rattle.rls_audit_lines.specs.WordCodecs as codec;
ghost use Rattle.rls_audit_lines.specs.WordCodecs.{type_word, limit_word, defined_word, side_word, mode_word};
ghost use Rattle.rls_value.specs.Refusals.{name_kind_text};
ghost use Rattle.rls_value.specs.Words.{privilege_word, kind_word, tag_text};

use crate::format::{Audit, Format};
use rls_codec::{Coded, Unread, Worded, read_word, write_word};
use rls_guard::Mode;
use rls_guard::rls_catalog::Side;
use rls_value::{ColType, DefinedKind, Kind, Limit, NameKind, Privilege, Tag};
use serde_json::Value;
use std::alloc::{AllocError, Global};

impl<F: Format> Worded<Audit<F>> for Privilege {
    ghost word = { privilege_word };

    fn word(self) -> &'static str {
        match self {
            Privilege::Select => "SELECT",
            Privilege::Insert => "INSERT",
            Privilege::Update => "UPDATE",
            Privilege::Delete => "DELETE",
        }
    }
}

impl<F: Format> Coded<Audit<F>> for Privilege {
    ghost codec = { codec.privilege };

    fn to_json(&self, alloc: Global) -> Result<Value, AllocError> {
        write_word::<Audit<F>, _>(alloc, *self)
    }

    fn from_json(_alloc: Global, json: &Value) -> Result<Privilege, Unread> {
        read_word::<Audit<F>, _>(
            json,
            &[
                Privilege::Select,
                Privilege::Insert,
                Privilege::Update,
                Privilege::Delete,
            ],
        )
    }
}

impl<F: Format> Worded<Audit<F>> for Kind {
    ghost word = { kind_word };

    fn word(self) -> &'static str {
        match self {
            Kind::Select => "SELECT",
            Kind::Insert => "INSERT",
            Kind::Update => "UPDATE",
            Kind::Delete => "DELETE",
        }
    }
}

impl<F: Format> Coded<Audit<F>> for Kind {
    ghost codec = { codec.kind };

    fn to_json(&self, alloc: Global) -> Result<Value, AllocError> {
        write_word::<Audit<F>, _>(alloc, *self)
    }

    fn from_json(_alloc: Global, json: &Value) -> Result<Kind, Unread> {
        read_word::<Audit<F>, _>(
            json,
            &[Kind::Select, Kind::Insert, Kind::Update, Kind::Delete],
        )
    }
}

impl<F: Format> Worded<Audit<F>> for Tag {
    ghost word = { tag_text };

    fn word(self) -> &'static str {
        self.text()
    }
}

impl<F: Format> Coded<Audit<F>> for Tag {
    ghost codec = { codec.tag };

    fn to_json(&self, alloc: Global) -> Result<Value, AllocError> {
        write_word::<Audit<F>, _>(alloc, *self)
    }

    fn from_json(_alloc: Global, json: &Value) -> Result<Tag, Unread> {
        read_word::<Audit<F>, _>(
            json,
            &[
                Tag::Select,
                Tag::Insert,
                Tag::Update,
                Tag::Delete,
                Tag::CreateRole,
                Tag::AlterRole,
                Tag::CreateTable,
                Tag::AlterTable,
                Tag::CreatePolicy,
                Tag::AlterPolicy,
                Tag::DropPolicy,
                Tag::Grant,
                Tag::Revoke,
                Tag::GrantRole,
                Tag::RevokeRole,
                Tag::Set,
                Tag::Reset,
                Tag::Begin,
                Tag::Commit,
                Tag::Rollback,
                Tag::Connect,
            ],
        )
    }
}

impl<F: Format> Worded<Audit<F>> for ColType {
    ghost word = { type_word };

    fn word(self) -> &'static str {
        match self {
            ColType::Integer => "INTEGER",
            ColType::BigInt => "BIGINT",
            ColType::Text => "TEXT",
            ColType::Boolean => "BOOLEAN",
        }
    }
}

impl<F: Format> Coded<Audit<F>> for ColType {
    ghost codec = { codec.column_type };

    fn to_json(&self, alloc: Global) -> Result<Value, AllocError> {
        write_word::<Audit<F>, _>(alloc, *self)
    }

    fn from_json(_alloc: Global, json: &Value) -> Result<ColType, Unread> {
        read_word::<Audit<F>, _>(
            json,
            &[
                ColType::Integer,
                ColType::BigInt,
                ColType::Text,
                ColType::Boolean,
            ],
        )
    }
}

impl<F: Format> Worded<Audit<F>> for Limit {
    ghost word = { limit_word };

    fn word(self) -> &'static str {
        match self {
            Limit::Line => "line",
            Limit::Columns => "columns",
            Limit::Nesting => "nesting",
            Limit::Subqueries => "subqueries",
            Limit::Parentheses => "parentheses",
            Limit::Policies => "policies",
            Limit::Inserts => "inserts",
            Limit::Transactions => "transactions",
            Limit::Sessions => "sessions",
            Limit::Numbers => "numbers",
            Limit::Name => "name",
        }
    }
}

impl<F: Format> Coded<Audit<F>> for Limit {
    ghost codec = { codec.limit };

    fn to_json(&self, alloc: Global) -> Result<Value, AllocError> {
        write_word::<Audit<F>, _>(alloc, *self)
    }

    fn from_json(_alloc: Global, json: &Value) -> Result<Limit, Unread> {
        read_word::<Audit<F>, _>(
            json,
            &[
                Limit::Line,
                Limit::Columns,
                Limit::Nesting,
                Limit::Subqueries,
                Limit::Parentheses,
                Limit::Policies,
                Limit::Inserts,
                Limit::Transactions,
                Limit::Sessions,
                Limit::Numbers,
                Limit::Name,
            ],
        )
    }
}

impl<F: Format> Worded<Audit<F>> for NameKind {
    ghost word = { name_kind_text };

    fn word(self) -> &'static str {
        match self {
            NameKind::Relation => "relation",
            NameKind::Column => "column",
            NameKind::Role => "role",
            NameKind::Policy => "policy",
        }
    }
}

impl<F: Format> Coded<Audit<F>> for NameKind {
    ghost codec = { codec.name_kind };

    fn to_json(&self, alloc: Global) -> Result<Value, AllocError> {
        write_word::<Audit<F>, _>(alloc, *self)
    }

    fn from_json(_alloc: Global, json: &Value) -> Result<NameKind, Unread> {
        read_word::<Audit<F>, _>(
            json,
            &[
                NameKind::Relation,
                NameKind::Column,
                NameKind::Role,
                NameKind::Policy,
            ],
        )
    }
}

impl<F: Format> Worded<Audit<F>> for DefinedKind {
    ghost word = { defined_word };

    fn word(self) -> &'static str {
        match self {
            DefinedKind::Relation => "relation",
            DefinedKind::Role => "role",
            DefinedKind::Policy => "policy",
        }
    }
}

impl<F: Format> Coded<Audit<F>> for DefinedKind {
    ghost codec = { codec.defined_kind };

    fn to_json(&self, alloc: Global) -> Result<Value, AllocError> {
        write_word::<Audit<F>, _>(alloc, *self)
    }

    fn from_json(_alloc: Global, json: &Value) -> Result<DefinedKind, Unread> {
        read_word::<Audit<F>, _>(
            json,
            &[
                DefinedKind::Relation,
                DefinedKind::Role,
                DefinedKind::Policy,
            ],
        )
    }
}

impl<F: Format> Worded<Audit<F>> for Side {
    ghost word = { side_word };

    fn word(self) -> &'static str {
        match self {
            Side::Old => "old",
            Side::New => "new",
        }
    }
}

impl<F: Format> Coded<Audit<F>> for Side {
    ghost codec = { codec.side };

    fn to_json(&self, alloc: Global) -> Result<Value, AllocError> {
        write_word::<Audit<F>, _>(alloc, *self)
    }

    fn from_json(_alloc: Global, json: &Value) -> Result<Side, Unread> {
        read_word::<Audit<F>, _>(json, &[Side::Old, Side::New])
    }
}

impl<F: Format> Worded<Audit<F>> for Mode {
    ghost word = { mode_word };

    fn word(self) -> &'static str {
        match self {
            Mode::Write => "write",
            Mode::Read => "read",
        }
    }
}

impl<F: Format> Coded<Audit<F>> for Mode {
    ghost codec = { codec.mode };

    fn to_json(&self, alloc: Global) -> Result<Value, AllocError> {
        write_word::<Audit<F>, _>(alloc, *self)
    }

    fn from_json(_alloc: Global, json: &Value) -> Result<Mode, Unread> {
        read_word::<Audit<F>, _>(json, &[Mode::Write, Mode::Read])
    }
}
