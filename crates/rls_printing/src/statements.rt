//! SELECT, INSERT, UPDATE, DELETE, roles and tables, printed.

ghost use Rattle.std.specs.Prelude.{◌≡◌, ◌∷◌, ◌++◌, [], codes, true, Some, OnOk};
ghost use Rattle.rls_value.specs.Names.{is_word};
ghost use Rattle.rls_printing.specs.{ExprForms.enclosed, OutputTokens.Word, Outputs.put_all, Outputs.output_of};
ghost use Rattle.rls_printing.specs.StatementForms as form;
ghost use Rattle.rls_statement.specs.declared.statement.SetRole.TheVariants as sr;
ghost use Rattle.rls_statement.specs.declared.statement.Statement.TheVariants as st;

use crate::buffer::{Mark, OutputBuffer};
use crate::expression::{put_list, put_table, put_where};
use crate::lists::{put_enclosed_names, put_listed};
use crate::words::{put_attributes, put_row_change};
use rls_statement::{
    AccessMode, AlterRole, AlterTable, CreateRole, CreateTable, Delete, Insert, MarkedColumn,
    Select, Selected, SetRole, TransactionCommand, Update,
};
use rls_value::{Items, Name};
use std::alloc::AllocError;

fn put_selected_items(buffer: &mut OutputBuffer, selected: &Selected) -> Result<(), AllocError>
    ensures { OnOk result (put_all (Some (output_of buffer.old)) (form.selected_items selected.now) ≡ Some (output_of buffer.new)) }
{
    match selected {
        Selected::All => buffer.mark(Mark::Star),
        Selected::Items(items) => put_list(buffer, items.as_slice()),
        Selected::Count => buffer.count(),
    }
}

fn put_returning(buffer: &mut OutputBuffer, returning: &Option<Selected>) -> Result<(), AllocError>
    ensures { OnOk result (put_all (Some (output_of buffer.old)) (form.returning returning.now) ≡ Some (output_of buffer.new)) }
{
    match returning {
        None => Ok(()),
        Some(selected) => {
            buffer.word("RETURNING")?;
            put_selected_items(buffer, selected)
        }
    }
}

fn put_columns_if_any(
    buffer: &mut OutputBuffer,
    columns: &Option<Items<Name>>,
) -> Result<(), AllocError>
    ensures { OnOk result (put_all (Some (output_of buffer.old)) (form.columns_if_any columns.now) ≡ Some (output_of buffer.new)) }
{
    match columns {
        None => Ok(()),
        Some(names) => put_enclosed_names(buffer, names.as_slice()),
    }
}

pub fn put_select(buffer: &mut OutputBuffer, statement: &Select) -> Result<(), AllocError>
    ensures { OnOk result (put_all (Some (output_of buffer.old)) (form.statement (st.Select statement.now)) ≡ Some (output_of buffer.new)) }
{
    buffer.word("SELECT")?;
    put_selected_items(buffer, &statement.items)?;
    put_table(buffer, &statement.table, &statement.alias)?;
    put_where(buffer, &statement.condition)?;
    Ok(())
}

pub fn put_insert(buffer: &mut OutputBuffer, statement: &Insert) -> Result<(), AllocError>
    ensures { OnOk result (put_all (Some (output_of buffer.old)) (form.statement (st.Insert statement.now)) ≡ Some (output_of buffer.new)) }
{
    buffer.word("INSERT")?;
    buffer.word("INTO")?;
    buffer.word(statement.table.as_str())?;
    put_columns_if_any(buffer, &statement.columns)?;
    buffer.word("VALUES")?;
    put_listed(buffer, statement.tuples.as_slice())?;
    put_returning(buffer, &statement.returning)?;
    Ok(())
}

pub fn put_update(buffer: &mut OutputBuffer, statement: &Update) -> Result<(), AllocError>
    ensures { OnOk result (put_all (Some (output_of buffer.old)) (form.statement (st.Update statement.now)) ≡ Some (output_of buffer.new)) }
{
    buffer.word("UPDATE")?;
    buffer.word(statement.table.as_str())?;
    buffer.word("SET")?;
    put_listed(buffer, statement.assignments.as_slice())?;
    put_where(buffer, &statement.condition)?;
    put_returning(buffer, &statement.returning)?;
    Ok(())
}

pub fn put_delete(buffer: &mut OutputBuffer, statement: &Delete) -> Result<(), AllocError>
    ensures { OnOk result (put_all (Some (output_of buffer.old)) (form.statement (st.Delete statement.now)) ≡ Some (output_of buffer.new)) }
{
    buffer.word("DELETE")?;
    buffer.word("FROM")?;
    buffer.word(statement.table.as_str())?;
    put_where(buffer, &statement.condition)?;
    put_returning(buffer, &statement.returning)?;
    Ok(())
}

pub fn put_create_role(buffer: &mut OutputBuffer, statement: &CreateRole) -> Result<(), AllocError>
    ensures { OnOk result (put_all (Some (output_of buffer.old)) (form.statement (st.CreateRole statement.now)) ≡ Some (output_of buffer.new)) }
{
    buffer.word("CREATE")?;
    buffer.word("ROLE")?;
    buffer.word(statement.name.as_str())?;
    put_attributes(buffer, statement.attributes)
}

pub fn put_alter_role(buffer: &mut OutputBuffer, statement: &AlterRole) -> Result<(), AllocError>
    ensures { OnOk result (put_all (Some (output_of buffer.old)) (form.statement (st.AlterRole statement.now)) ≡ Some (output_of buffer.new)) }
{
    buffer.word("ALTER")?;
    buffer.word("ROLE")?;
    buffer.word(statement.name.as_str())?;
    put_attributes(buffer, statement.attributes)
}

fn put_key(buffer: &mut OutputBuffer, key: &Option<Items<Name>>) -> Result<(), AllocError>
    ensures { OnOk result (put_all (Some (output_of buffer.old)) (form.key key.now) ≡ Some (output_of buffer.new)) }
{
    match key {
        None => Ok(()),
        Some(names) => {
            buffer.mark(Mark::Comma)?;
            buffer.word("PRIMARY")?;
            buffer.word("KEY")?;
            put_enclosed_names(buffer, names.as_slice())
        }
    }
}

fn put_elements(
    buffer: &mut OutputBuffer,
    columns: &[MarkedColumn],
    key: &Option<Items<Name>>,
) -> Result<(), AllocError>
    ensures { OnOk result (put_all (Some (output_of buffer.old)) (enclosed (form.listed form.column columns.now ++ form.key key.now)) ≡ Some (output_of buffer.new)) }
{
    buffer.mark(Mark::Open)?;
    put_listed(buffer, columns)?;
    put_key(buffer, key)?;
    buffer.mark(Mark::Close)?;
    Ok(())
}

pub fn put_create_table(
    buffer: &mut OutputBuffer,
    statement: &CreateTable,
) -> Result<(), AllocError>
    ensures { OnOk result (put_all (Some (output_of buffer.old)) (form.statement (st.CreateTable statement.now)) ≡ Some (output_of buffer.new)) }
{
    buffer.word("CREATE")?;
    buffer.word("TABLE")?;
    buffer.word(statement.name.as_str())?;
    put_elements(buffer, statement.columns.as_slice(), &statement.key)
}

pub fn put_alter_table(buffer: &mut OutputBuffer, statement: &AlterTable) -> Result<(), AllocError>
    ensures { OnOk result (put_all (Some (output_of buffer.old)) (form.statement (st.AlterTable statement.now)) ≡ Some (output_of buffer.new)) }
{
    buffer.word("ALTER")?;
    buffer.word("TABLE")?;
    buffer.word(statement.table.as_str())?;
    put_row_change(buffer, statement.change)?;
    buffer.word("ROW")?;
    buffer.word("LEVEL")?;
    buffer.word("SECURITY")
}

pub fn put_set_role(buffer: &mut OutputBuffer, statement: &SetRole) -> Result<(), AllocError>
    ensures { OnOk result (put_all (Some (output_of buffer.old)) (form.set_role statement.now) ≡ Some (output_of buffer.new)) }
{
    match statement {
        SetRole::To(role) => put_role(buffer, role.as_str()),
        SetRole::None => put_role(buffer, "NONE"),
        SetRole::Reset => put_reset(buffer),
    }
}

/// What begins or ends a block; READ WRITE isn't printed.
pub fn put_transaction(
    buffer: &mut OutputBuffer,
    command: TransactionCommand,
) -> Result<(), AllocError>
    ensures { OnOk result (put_all (Some (output_of buffer.old)) (form.transaction command) ≡ Some (output_of buffer.new)) }
{
    match command {
        TransactionCommand::Begin(AccessMode::ReadWrite) => buffer.word("BEGIN"),
        TransactionCommand::Begin(AccessMode::ReadOnly) => put_read_only(buffer),
        TransactionCommand::Commit => buffer.word("COMMIT"),
        TransactionCommand::Rollback => buffer.word("ROLLBACK"),
    }
}

fn put_read_only(buffer: &mut OutputBuffer) -> Result<(), AllocError>
    ensures { OnOk result (put_all (Some (output_of buffer.old)) (Word (codes "BEGIN") ∷ Word (codes "READ") ∷ Word (codes "ONLY") ∷ []) ≡ Some (output_of buffer.new)) }
{
    buffer.word("BEGIN")?;
    buffer.word("READ")?;
    buffer.word("ONLY")
}

fn put_role(buffer: &mut OutputBuffer, role: &str) -> Result<(), AllocError>
    requires { is_word role.now ≡ true }
    ensures { OnOk result (put_all (Some (output_of buffer.old)) (Word (codes "SET") ∷ Word (codes "ROLE") ∷ Word role.now ∷ []) ≡ Some (output_of buffer.new)) }
{
    buffer.word("SET")?;
    buffer.word("ROLE")?;
    buffer.word(role)
}

fn put_reset(buffer: &mut OutputBuffer) -> Result<(), AllocError>
    ensures { OnOk result (put_all (Some (output_of buffer.old)) (form.set_role sr.Reset) ≡ Some (output_of buffer.new)) }
{
    buffer.word("RESET")?;
    buffer.word("ROLE")
}
