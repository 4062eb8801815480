//! Which objects changes write, and which they cover.

ghost use Rattle.std.specs.Prelude.{◌≡◌, IfOk, OnOk};
ghost use Rattle.rls_value.specs.declared.object.Object.{Object as Read};
ghost use Rattle.rls_catalog.specs.Bases.{covers_any};
ghost use Rattle.rls_catalog.specs.Writes.{writes, key_of_row};
ghost use Rattle.rls_source.specs.Footprints.{with_reads, footprint_of, is_among};
ghost use Rattle.rls_siread.specs.Covering.{covered_by, written_of, covered_of};

use rls_catalog::{Change, Keyed, RowChange};
use rls_source::Footprint;
use rls_value::{Name, Object};
use std::alloc::{AllocError, Global};

/// The objects that the changes write.
pub fn written(alloc: Global, changes: &[Change]) -> Result<Footprint, AllocError>
    ensures { IfOk result (λ objects. objects ≡ written_of changes.now) }
{
    let mut objects = Footprint::new(alloc);
    for change in changes {
        note_written(alloc, &mut objects, change)?;
    }
    Ok(objects)
}

/// The objects that the changes cover: those that they write, and the rows of each table of which a row changes.
pub fn covered(alloc: Global, changes: &[Change]) -> Result<Footprint, AllocError>
    ensures objects { IfOk result (λ objects. objects ≡ covered_of changes.now) }
    ensures covers { IfOk result (λ objects. (object : Read) → is_among objects object ≡ covers_any object changes.now) }
{
    all_covered(alloc, changes)
}

fn all_covered(alloc: Global, changes: &[Change]) -> Result<Footprint, AllocError>
    ensures { IfOk result (λ objects. objects ≡ covered_of changes.now) }
{
    let mut objects = Footprint::new(alloc);
    for change in changes {
        note_covered(alloc, &mut objects, change)?;
    }
    Ok(objects)
}

/// The objects that the change covers.
pub(crate) fn covered_by_one(alloc: Global, change: &Change) -> Result<Footprint, AllocError>
    ensures { IfOk result (λ objects. objects ≡ footprint_of (covered_by change.now)) }
{
    let mut objects = Footprint::new(alloc);
    note_covered(alloc, &mut objects, change)?;
    Ok(objects)
}

fn note_covered(alloc: Global, objects: &mut Footprint, change: &Change) -> Result<(), AllocError>
    ensures { OnOk result (objects.new ≡ with_reads objects.old (covered_by change.now)) }
{
    note_written(alloc, objects, change)?;
    if let Change::Row(row) = change {
        objects.note(Object::Rows(row.table.copy()?))?;
    }
    Ok(())
}

fn note_written(alloc: Global, objects: &mut Footprint, change: &Change) -> Result<(), AllocError>
    ensures { OnOk result (objects.new ≡ with_reads objects.old (writes change.now)) }
{
    match change {
        Change::Role(name, _) => objects.note(Object::Role(name.copy()?)),
        Change::Members(member, _) => objects.note(Object::Members(member.copy()?)),
        Change::Table(name, _) => objects.note(Object::Table(name.copy()?)),
        Change::Grants(table, _) => objects.note(Object::Grants(table.copy()?)),
        Change::Policies(table, _) => objects.note(Object::Policies(table.copy()?)),
        Change::Row(row) => note_row(alloc, objects, row),
    }
}

fn note_row(alloc: Global, objects: &mut Footprint, row: &RowChange) -> Result<(), AllocError>
    ensures { OnOk result (objects.new ≡ with_reads objects.old (writes (Change.Row row.now))) }
{
    objects.note(Object::RowOf(row.table.copy()?, row.id))?;
    note_key(alloc, objects, &row.table, &row.before)?;
    note_key(alloc, objects, &row.table, &row.after)
}

fn note_key(
    alloc: Global,
    objects: &mut Footprint,
    table: &Name,
    content: &Option<Keyed>,
) -> Result<(), AllocError>
    ensures { OnOk result (objects.new ≡ with_reads objects.old (key_of_row table.now content.now)) }
{
    if let Some(keyed) = content {
        objects.note(Object::Key(table.copy()?, keyed.key.copy(alloc)?))?;
    }
    Ok(())
}
