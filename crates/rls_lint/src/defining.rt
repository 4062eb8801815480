//! The lines of a script that create tables, by their owners.

use crate::granting::grant_all;
use crate::script::Script;
use rls_expr::{Column, NamedTable, TableDef};
use rls_rows::State;
use rls_value::{ColType, Name};
use std::alloc::{AllocError, Global};

/// The tables by name, each with its grants.
pub(crate) fn define_tables(
    alloc: Global,
    state: &State,
    tables: &[NamedTable<'_>],
    script: &mut Script,
) -> Result<(), AllocError> {
    for table in tables {
        let from = table.as_from();
        create_table(alloc, from.name, from.table, script)?;
        grant_all(alloc, state, from.name, &from.table.owner, script)?;
    }
    Ok(())
}

fn create_table(
    alloc: Global,
    name: &Name,
    table: &TableDef,
    script: &mut Script,
) -> Result<(), AllocError> {
    script.set_role(alloc, &table.owner)?;
    let mut command = format!(in alloc; "CREATE TABLE {name} (")?;
    push_columns(&mut command, table)?;
    push_key(&mut command, table)?;
    command.push_str(")")?;
    script.line(command.as_str())
}

fn push_columns(command: &mut String, table: &TableDef) -> Result<(), AllocError> {
    for (place, column) in table.columns.as_slice().iter().enumerate() {
        if place > 0 {
            command.push_str(", ")?;
        }
        push_column(command, column, is_in_key(table, place))?;
    }
    Ok(())
}

/// A column of the key is NOT NULL as it is.
fn push_column(command: &mut String, column: &Column, in_key: bool) -> Result<(), AllocError> {
    command.push_str(column.name.as_str())?;
    command.push_str(type_text(column.kind))?;
    if column.not_null && !in_key {
        command.push_str(" NOT NULL")?;
    }
    Ok(())
}

fn type_text(kind: ColType) -> &'static str {
    match kind {
        ColType::Integer => " INTEGER",
        ColType::BigInt => " BIGINT",
        ColType::Text => " TEXT",
        ColType::Boolean => " BOOLEAN",
    }
}

fn is_in_key(table: &TableDef, place: usize) -> bool {
    table.key.as_slice().iter().any(|at| *at == place)
}

/// The primary key.
fn push_key(command: &mut String, table: &TableDef) -> Result<(), AllocError> {
    if table.key.is_empty() {
        return Ok(());
    }
    command.push_str(", PRIMARY KEY (")?;
    push_key_columns(command, table)?;
    command.push_str(")")
}

/// Its columns, in its order.
fn push_key_columns(command: &mut String, table: &TableDef) -> Result<(), AllocError> {
    for (at, place) in table.key.as_slice().iter().enumerate() {
        if at > 0 {
            command.push_str(", ")?;
        }
        push_key_column(command, table, *place)?;
    }
    Ok(())
}

fn push_key_column(command: &mut String, table: &TableDef, place: usize) -> Result<(), AllocError> {
    match table.columns.get(place) {
        Some(column) => command.push_str(column.name.as_str()),
        None => Ok(()),
    }
}
