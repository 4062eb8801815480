//! What histories read and make, as plain data, and the objects and changes of it.

use rls_catalog::{Change, Delta, Keyed, RowChange};
use rls_source::Footprint;
use rls_value::{Name, Object, Refusal, Row, RowId, Text, Value};
use shared_map::SharedList;
use std::alloc::{AllocError, Global};

/// The key of a row.
#[derive(Clone, Copy)]
pub enum Key {
    /// The table has no primary key.
    Absent,
    Text(&'static str),
    Number(i64),
}

/// What is read.
#[derive(Clone, Copy)]
pub enum Part {
    /// The rows of the table that have the key.
    Keyed(&'static str, Key),
    /// All rows of the table.
    Rows(&'static str),
    /// The memberships of the role.
    Members(&'static str),
}

/// A change.
#[derive(Clone, Copy)]
pub enum Made {
    /// A row of the table whose key stays is updated.
    Update(&'static str, RowId, Key),
    /// A row of the table comes.
    Insert(&'static str, RowId, Key),
    /// The memberships of the role change.
    Members(&'static str),
}

fn one_value(alloc: Global, value: Value) -> Result<Vec<Value>, AllocError> {
    let mut values = Vec::new(alloc);
    values.push(value)?;
    Ok(values)
}

fn one_text(alloc: Global, text: &str) -> Result<Vec<Value>, AllocError> {
    let text = Text::new(alloc, text)?;
    one_value(alloc, Value::Text(text))
}

fn values_of(alloc: Global, key: Key) -> Result<Vec<Value>, AllocError> {
    match key {
        Key::Absent => Ok(Vec::new(alloc)),
        Key::Text(text) => one_text(alloc, text),
        Key::Number(number) => one_value(alloc, Value::Int(number)),
    }
}

/// The values of the key.
fn row_of(alloc: Global, key: Key) -> Result<Row, AllocError> {
    let values = values_of(alloc, key)?;
    Row::new(values)
}

/// The row that is its key.
fn keyed(alloc: Global, key: Key) -> Result<Keyed, AllocError> {
    let row = row_of(alloc, key)?;
    match row_of(alloc, key) {
        Ok(key) => Ok(Keyed { key, row }),
        Err(refused) => {
            drop(row);
            Err(refused)
        }
    }
}

/// The rows of the table that have the key.
fn rows_with(alloc: Global, table: &str, key: Key) -> Result<Object, Refusal> {
    let key = row_of(alloc, key)?;
    match Name::new(alloc, table) {
        Ok(table) => Ok(Object::Key(table, key)),
        Err(refusal) => {
            drop(key);
            Err(refusal)
        }
    }
}

fn rows(alloc: Global, table: &str) -> Result<Object, Refusal> {
    match Name::new(alloc, table) {
        Ok(table) => Ok(Object::Rows(table)),
        Err(refusal) => Err(refusal),
    }
}

fn members(alloc: Global, role: &str) -> Result<Object, Refusal> {
    match Name::new(alloc, role) {
        Ok(role) => Ok(Object::Members(role)),
        Err(refusal) => Err(refusal),
    }
}

/// The object that is read.
pub fn object_of(alloc: Global, part: Part) -> Result<Object, Refusal> {
    match part {
        Part::Keyed(table, key) => rows_with(alloc, table, key),
        Part::Rows(table) => rows(alloc, table),
        Part::Members(role) => members(alloc, role),
    }
}

/// The object alone.
pub fn footprint_of(alloc: Global, part: Part) -> Result<Footprint, Refusal> {
    let object = object_of(alloc, part)?;
    let mut footprint = Footprint::new(alloc);
    match footprint.note(object) {
        Ok(()) => Ok(footprint),
        Err(refused) => {
            drop(footprint);
            Err(Refusal::from(refused))
        }
    }
}

/// What a row of the table was and is.
fn row_change(
    alloc: Global,
    table: &str,
    id: RowId,
    before: Option<Keyed>,
    after: Keyed,
) -> Result<Change, Refusal> {
    match Name::new(alloc, table) {
        Ok(table) => Ok(Change::Row(RowChange {
            table,
            id,
            before,
            after: Some(after),
        })),
        Err(refusal) => {
            drop(before);
            drop(after);
            Err(refusal)
        }
    }
}

fn updated(alloc: Global, table: &str, id: RowId, key: Key) -> Result<Change, Refusal> {
    let before = keyed(alloc, key)?;
    match keyed(alloc, key) {
        Ok(after) => row_change(alloc, table, id, Some(before), after),
        Err(refused) => {
            drop(before);
            Err(Refusal::from(refused))
        }
    }
}

fn inserted(alloc: Global, table: &str, id: RowId, key: Key) -> Result<Change, Refusal> {
    let after = keyed(alloc, key)?;
    row_change(alloc, table, id, None, after)
}

fn members_changed(alloc: Global, role: &str) -> Result<Change, Refusal> {
    match Name::new(alloc, role) {
        Ok(role) => Ok(Change::Members(role, SharedList::new())),
        Err(refusal) => Err(refusal),
    }
}

/// The change that is made.
pub fn change_of(alloc: Global, made: Made) -> Result<Change, Refusal> {
    match made {
        Made::Update(table, id, key) => updated(alloc, table, id, key),
        Made::Insert(table, id, key) => inserted(alloc, table, id, key),
        Made::Members(role) => members_changed(alloc, role),
    }
}

/// The change alone.
pub fn delta_of(alloc: Global, made: Made) -> Result<Delta, Refusal> {
    let change = change_of(alloc, made)?;
    let mut delta = Delta::new(alloc);
    match delta.push(change) {
        Ok(()) => Ok(delta),
        Err(refused) => {
            drop(delta);
            Err(Refusal::from(refused))
        }
    }
}
