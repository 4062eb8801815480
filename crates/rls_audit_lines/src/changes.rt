//! Changed objects as JSON.

ghost use Rattle.std.specs.Prelude.{◌≡◌, ◌++◌, IfOk, OnOk, option_and_then};
ghost use Rattle.rls_audit_lines.specs.ChangeCodecs as codec;
ghost use Rattle.rls_audit_lines.specs.ChangeCodecs.{object_of, content_written, content_found, FitsContent};
ghost use Rattle.rls_audit_lines.specs.TextLaws.{FitsObject};
ghost use Rattle.rls_codec.specs.Reading.{Reads};
ghost use Rattle.rls_value.specs.Names.{IsName};
ghost use Rattle.rls_value.specs.Objects.{object_text};
ghost use Rattle.serde_json.specs.Data.{string};
ghost use Rattle.serde_json.specs.Find.{at};
ghost use Rattle.serde_json.specs.View.{view};

use crate::contents::{GrantShape, TableShape};
use crate::format::{Audit, Format};
use crate::texts::read_object;
use rls_codec::{Coded, Unread, array_of, item, json_of, read_text, require_length};
use rls_guard::rls_catalog::{Membership, RoleDef};
use rls_value::{Items, Name, Object, Row, RowId, Text};
use serde_json::Value;
use std::alloc::{AllocError, Global};

/// An object that was changed, and what it has then.
#[derive(Drop)]
pub enum Changed {
    Role(Name, RoleDef),
    /// The memberships that the role has.
    Members(Name, Items<Membership>),
    Table(Name, TableShape),
    Grants(Name, Items<GrantShape>),
    /// The policies of the table, as statements that create them.
    Policies(Name, Items<Text>),
    /// The values of the row, or none where it is gone.
    Row(Name, RowId, Option<Row>),
}

impl<F: Format> Coded<Audit<F>> for Changed {
    ghost codec = { codec.changed F.second };

    fn to_json(&self, alloc: Global) -> Result<Value, AllocError> {
        array_of(
            alloc,
            [write_object(alloc, self)?, write_content::<F>(alloc, self)?],
        )
    }

    fn from_json(alloc: Global, json: &Value) -> Result<Changed, Unread> {
        require_length(json, 2)?;
        match json.get(0usize) {
            Some(object) => {
                let object = read_object(alloc, read_text(object)?)?;
                read_content::<F>(alloc, object, json)
            }
            None => Err(Unread::Bad),
        }
    }
}

/// The text of what was changed.
fn write_object(alloc: Global, changed: &Changed) -> Result<Value, AllocError>
    ensures json { IfOk result (λ json. view json ≡ string (object_text (object_of changed.now))) }
    ensures fits { OnOk result (FitsObject (object_of changed.now)) }
{
    match changed {
        Changed::Role(name, _) => write_text(alloc, "role ", name),
        Changed::Members(member, _) => write_text(alloc, "members of ", member),
        Changed::Table(name, _) => write_text(alloc, "table ", name),
        Changed::Grants(table, _) => write_text(alloc, "grants on ", table),
        Changed::Policies(table, _) => write_text(alloc, "policies on ", table),
        Changed::Row(table, id, _) => write_row(alloc, table, id),
    }
}

/// The words and the name.
fn write_text(alloc: Global, words: &str, name: &Name) -> Result<Value, AllocError>
    ensures json { IfOk result (λ json. view json ≡ string (words.now ++ name.now)) }
    ensures fits { OnOk result (IsName name.now) }
{
    let name = name.as_str();
    let text = format!(in alloc; "{words}{name}")?;
    Ok(Value::try_from_str(alloc, text.as_str())?)
}

/// The row of the table.
fn write_row(alloc: Global, table: &Name, id: &RowId) -> Result<Value, AllocError>
    ensures json { IfOk result (λ json. view json ≡ string (object_text (Object.RowOf table.now id.now))) }
    ensures fits { OnOk result (FitsObject (Object.RowOf table.now id.now)) }
{
    let txn = id.txn;
    let n = id.n;
    let table = table.as_str();
    let text = format!(in alloc; "row {txn}.{n} of {table}")?;
    Ok(Value::try_from_str(alloc, text.as_str())?)
}

/// What it has.
fn write_content<F: Format>(alloc: Global, changed: &Changed) -> Result<Value, AllocError>
    ensures json { IfOk result (λ json. view json ≡ content_written F.second changed.now) }
    ensures fits { OnOk result (FitsContent F.second changed.now) }
{
    match changed {
        Changed::Role(_, def) => json_of::<Audit<F>, _>(alloc, def),
        Changed::Members(_, content) => json_of::<Audit<F>, _>(alloc, content),
        Changed::Table(_, shape) => json_of::<Audit<F>, _>(alloc, shape),
        Changed::Grants(_, content) => json_of::<Audit<F>, _>(alloc, content),
        Changed::Policies(_, texts) => json_of::<Audit<F>, _>(alloc, texts),
        Changed::Row(_, _, values) => json_of::<Audit<F>, _>(alloc, values),
    }
}

/// What the object has, by the second item.
fn read_content<F: Format>(alloc: Global, object: Object, json: &Value) -> Result<Changed, Unread>
    ensures { Reads result (option_and_then (content_found F.second object) (at 1 (view json.now))) }
{
    match object {
        Object::Role(name) => Ok(Changed::Role(name, item::<Audit<F>, _>(alloc, json, 1)?)),
        Object::Members(member) => {
            Ok(Changed::Members(member, item::<Audit<F>, _>(alloc, json, 1)?))
        }
        Object::Table(name) => Ok(Changed::Table(name, item::<Audit<F>, _>(alloc, json, 1)?)),
        Object::Grants(table) => Ok(Changed::Grants(table, item::<Audit<F>, _>(alloc, json, 1)?)),
        Object::Policies(table) => {
            Ok(Changed::Policies(table, item::<Audit<F>, _>(alloc, json, 1)?))
        }
        Object::RowOf(table, id) => {
            Ok(Changed::Row(table, id, item::<Audit<F>, _>(alloc, json, 1)?))
        }
        Object::Rows(_) | Object::Key(_, _) => Err(Unread::Bad),
    }
}
