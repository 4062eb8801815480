//! The primary key of a table that is made.

ghost use Rattle.std.specs.Prelude.{◌≡◌, map, IfOk};
ghost use Rattle.rls_value.specs.Giving.{Gives};
ghost use Rattle.rls_value.specs.Names.{one_of};
ghost use Rattle.rls_guard.specs.rls_source.specs.Sequences.{each_of};
ghost use Rattle.rls_ddl.specs.CreatingTables as spec;
ghost use Rattle.rls_ddl.specs.CreatingTables.{key_or_undefined, place_or_undefined};

use rls_expr::Column;
use rls_statement::{CreateTable, MarkedColumn};
use rls_value::{Items, Name, NameKind, Reference, Refusal};
use std::alloc::{AllocError, Global};

/// The places of the key's columns, in the key's order. The first that isn't defined is undefined.
pub fn key_places(alloc: Global, create: &CreateTable) -> Result<Items<usize>, Refusal>
    ensures { Gives result (key_or_undefined create.now) }
{
    let names = key_names(alloc, create)?;
    let places = places_of(alloc, create.columns.as_slice(), names.as_slice());
    drop(names);
    places
}

/// The columns; those of the key take no null.
pub fn columns_of(alloc: Global, create: &CreateTable) -> Result<Items<Column>, AllocError>
    ensures { IfOk result (λ columns. columns ≡ map (spec.column_in (spec.key_names create.now)) create.now.columns) }
{
    let names = key_names(alloc, create)?;
    let columns = columns_with(alloc, create.columns.as_slice(), names.as_slice());
    drop(names);
    columns
}

fn columns_with(
    alloc: Global,
    marked: &[MarkedColumn],
    key: &[Reference<'_, Name>],
) -> Result<Items<Column>, AllocError>
    ensures { IfOk result (λ columns. columns ≡ map (spec.column_in key.now) marked.now) }
{
    let mut columns = Vec::with_capacity(alloc, marked.len())?;
    for column in marked {
        columns.push(column_with(column, key)?)?;
    }
    Ok(Items::from_vec(columns))
}

fn column_with(marked: &MarkedColumn, key: &[Reference<'_, Name>]) -> Result<Column, AllocError>
    ensures { IfOk result (λ column. column ≡ spec.column_in key.now marked.now) }
{
    let column = &marked.column;
    Ok(Column {
        name: column.name.copy()?,
        kind: column.kind,
        not_null: column.not_null || is_one_of(key, &column.name),
    })
}

fn is_one_of(mut names: &[Reference<'_, Name>], name: &Name) -> bool
    ensures { result ≡ one_of names.entry.now name.now }
{
    while let [first, rest @ ..] = names {
        if first.get().is(name) {
            return true;
        }
        names = rest;
    }
    false
}

fn key_names<'x>(
    alloc: Global,
    create: &'x CreateTable,
) -> Result<Items<Reference<'x, Name>>, AllocError>
    ensures { IfOk result (λ names. names ≡ spec.key_names create.now) }
{
    match &create.key {
        Some(names) => borrowed(alloc, names.as_slice()),
        None => marked_names(alloc, create.columns.as_slice()),
    }
}

fn borrowed<'x>(alloc: Global, names: &'x [Name]) -> Result<Items<Reference<'x, Name>>, AllocError>
    ensures { IfOk result (λ borrowed. borrowed ≡ names.now) }
{
    let mut borrowed = Vec::with_capacity(alloc, names.len())?;
    for name in names {
        borrowed.push(Reference::new(name))?;
    }
    Ok(Items::from_vec(borrowed))
}

fn marked_names<'x>(
    alloc: Global,
    columns: &'x [MarkedColumn],
) -> Result<Items<Reference<'x, Name>>, AllocError>
    ensures { IfOk result (λ names. names ≡ spec.marked_names columns.now) }
{
    let mut names = Items::new(alloc);
    for marked in columns {
        if marked.is_key {
            names.push(Reference::new(&marked.column.name))?;
        }
    }
    Ok(names)
}

fn places_of(
    alloc: Global,
    columns: &[MarkedColumn],
    names: &[Reference<'_, Name>],
) -> Result<Items<usize>, Refusal>
    ensures { Gives result (each_of (place_or_undefined columns.now) names.now) }
{
    let mut places = Items::new(alloc);
    for name in names {
        let place = place_named(columns, name.get())?;
        places.push(place)?;
    }
    Ok(places)
}

fn place_named(columns: &[MarkedColumn], name: &Name) -> Result<usize, Refusal>
    ensures { Gives result (place_or_undefined columns.now name.now) }
{
    match place_of(columns, name) {
        Some(place) => Ok(place),
        None => Err(Refusal::Undefined(NameKind::Column, name.copy()?)),
    }
}

fn place_of(columns: &[MarkedColumn], name: &Name) -> Option<usize>
    ensures { result ≡ spec.place_of columns.now name.now }
{
    columns
        .iter()
        .position(|marked| marked.column.name.is(name))
}
