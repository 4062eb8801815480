//! Which changes an object is covered by.

ghost use Rattle.std.specs.Prelude.{◌≡◌, ◌||◌};
ghost use Rattle.rls_catalog.specs.Bases as spec;
ghost use Rattle.rls_catalog.specs.Writes.{is_written, is_rows_of};

use rls_catalog::rls_value::{Object, Row};
use rls_catalog::{Change, Keyed, is_same_row};

/// Whether the object shows what stood at the place that the change overwrites, or what stands there now: what the change
/// writes, which of a row are the row and the keys that it had and has, and the rows of the table whose row changes.
pub fn covers(object: &Object, change: &Change) -> bool
    ensures covers { result ≡ spec.covers object.now change.now }
    ensures writes { result ≡ (is_written object.now change.now || is_rows_of object.now change.now) }
{
    shows_either(object, change)
}

/// Whether the object shows what stood at the place that the change overwrites, or what stands there now.
fn shows_either(object: &Object, change: &Change) -> bool
    ensures { result ≡ spec.covers object.now change.now }
{
    match change {
        Change::Row(row) => {
            shows(object, change, &row.before) || shows(object, change, &row.after)
        }
        _ => shows(object, change, &None),
    }
}

/// Whether the object shows the content at the place that the change overwrites.
fn shows(object: &Object, change: &Change, content: &Option<Keyed>) -> bool
    ensures { result ≡ spec.shows object.now (spec.base_of change.now) content.now }
{
    match (object, change) {
        (Object::Role(name), Change::Role(changed, _)) => name.is(changed),
        (Object::Members(member), Change::Members(changed, _)) => member.is(changed),
        (Object::Table(name), Change::Table(changed, _)) => name.is(changed),
        (Object::Grants(table), Change::Grants(changed, _)) => table.is(changed),
        (Object::Policies(table), Change::Policies(changed, _)) => table.is(changed),
        (Object::Rows(table), Change::Row(row)) => table.is(&row.table),
        (Object::Key(table, key), Change::Row(row)) => {
            table.is(&row.table) && has_key(content, key)
        }
        (Object::RowOf(table, id), Change::Row(row)) => table.is(&row.table) && *id == row.id,
        (_, _) => false,
    }
}

fn has_key(content: &Option<Keyed>, key: &Row) -> bool
    ensures { result ≡ spec.has_key content.now key.now }
{
    match content {
        Some(keyed) => is_same_row(&keyed.key, key),
        None => false,
    }
}
