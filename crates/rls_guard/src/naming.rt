//! The names in a statement, which have to be there.

ghost use Rattle.std.specs.Prelude.{◌≡◌, [], ◌∷◌, ◌++◌, drop, map, None, Ok, IfOk, OnOk};
ghost use Rattle.rls_evaluation.specs.rls_catalog.specs.rls_expr.specs.rls_value.specs.Giving.{Gives, and_then};
ghost use Rattle.rls_evaluation.specs.rls_catalog.specs.rls_expr.specs.Naming.{step_of};
ghost use Rattle.rls_evaluation.specs.rls_catalog.specs.rls_expr.specs.Scopes.{var_in, var_borrowed};
ghost use Rattle.rls_evaluation.specs.rls_catalog.specs.rls_expr.specs.Terms.{qualifier_of};
ghost use Rattle.rls_evaluation.specs.rls_source.specs.Answering.{Answers};
ghost use Rattle.rls_guard.specs.Naming as spec;

use rls_evaluation::rls_catalog::rls_expr::rls_value::{Items, Name, NameKind, Refusal};
use rls_evaluation::rls_catalog::rls_expr::{
    ColumnName, FromItem, NameStep, NamedTable, TableDef, Var, unqualified, var_of,
};
use rls_evaluation::rls_source::Asker;
use std::alloc::{AllocError, Global};

/// The tables that subqueries name, with their definitions.
pub type Found<'c> = Items<NamedTable<'c>>;

/// Looks for each name, in text order: the columns among the tables in scope, the innermost first, the tables of
/// subqueries in the source. The first that isn't there is undefined. The tables found are put behind those found before.
pub fn named<'c>(
    asker: &mut Asker<'c>,
    steps: &[NameStep],
    tables: Vec<NamedTable<'c>>,
    found: Found<'c>,
) -> Result<Found<'c>, Refusal>
    ensures { Answers (spec.named (map step_of steps.now) tables.entry.items found.entry) asker.old asker.new result }
{
    let mut found = found;
    let mut tables = tables;
    let looked = look_for(asker, steps, &mut tables, &mut found);
    drop(tables);
    match looked {
        Ok(()) => Ok(found),
        Err(refusal) => {
            drop(found);
            Err(refusal)
        }
    }
}

/// The same, over the tables in scope and those found, which it changes.
fn look_for<'c>(
    asker: &mut Asker<'c>,
    steps: &[NameStep],
    tables: &mut Vec<NamedTable<'c>>,
    found: &mut Found<'c>,
) -> Result<(), Refusal>
    ensures { Answers (spec.named (map step_of steps.now) tables.old.items found.old) asker.old asker.new (and_then result (λ _. Ok found.new)) }
{
    for step in steps {
        match step {
            NameStep::Column(name) => require_column(tables, name)?,
            NameStep::Target(name) => require_target(tables, name)?,
            NameStep::Begin(from) => {
                let table = asker.table_named(&from.table)?;
                enter(tables, found, from, table)?;
            }
            NameStep::End => leave(tables),
        }
    }
    Ok(())
}

fn require_column(tables: &[NamedTable], name: &ColumnName) -> Result<(), Refusal>
    ensures { Gives result (spec.there_or_undefined (var_in tables.now name.now)) }
{
    require_var(var_of(tables, name))
}

fn require_target(tables: &[NamedTable], name: &Name) -> Result<(), Refusal>
    ensures { Gives result (spec.there_or_undefined (var_in tables.now (record { qualifier = None; name = name.now }))) }
{
    require_var(unqualified(tables, name))
}

fn require_var(var: Result<Var, (NameKind, &Name)>) -> Result<(), Refusal>
    ensures { Gives result (spec.there_or_undefined (var_borrowed var.entry)) }
{
    match var {
        Ok(_) => Ok(()),
        Err((kind, name)) => Err(Refusal::Undefined(kind, name.copy()?)),
    }
}

/// A subquery's table is the innermost, and is found.
fn enter<'c>(
    tables: &mut Vec<NamedTable<'c>>,
    found: &mut Found<'c>,
    from: &FromItem,
    table: &'c TableDef,
) -> Result<(), AllocError>
    ensures scope { OnOk result (tables.new.items ≡ (qualifier_of from.now, table.now) ∷ tables.old.items) }
    ensures known { OnOk result (found.new ≡ found.old ++ (from.now.table, table.now) ∷ []) }
{
    put_known(found, &from.table, table)?;
    put_in_front(tables, from.qualifier(), table)
}

/// The table behind the others.
fn put_known<'c>(found: &mut Found<'c>, name: &Name, table: &'c TableDef) -> Result<(), AllocError>
    ensures { OnOk result (found.new ≡ found.old ++ (name.now, table.now) ∷ []) }
{
    found.push(NamedTable::new(name, table)?)
}

/// The table in front of the others.
fn put_in_front<'c>(
    tables: &mut Vec<NamedTable<'c>>,
    name: &Name,
    table: &'c TableDef,
) -> Result<(), AllocError>
    ensures { OnOk result (tables.new.items ≡ (name.now, table.now) ∷ tables.old.items) }
{
    tables.insert(0, NamedTable::new(name, table)?)?;
    Ok(())
}

/// The innermost table is left.
fn leave(tables: &mut Vec<NamedTable>)
    ensures { tables.new.items ≡ drop 1 tables.old.items }
{
    if !tables.is_empty() {
        tables.remove(0);
    }
}

/// The same over one table.
pub fn named_over<'c>(
    asker: &mut Asker<'c>,
    steps: &[NameStep],
    name: &Name,
    table: &'c TableDef,
) -> Result<Found<'c>, Refusal>
    ensures { Answers (spec.named (map step_of steps.now) ((name.now, table.now) ∷ []) []) asker.old asker.new result }
{
    let alloc = asker.alloc();
    let tables = one_table(alloc, name, table)?;
    named(asker, steps, tables, Items::new(alloc))
}

fn one_table<'c>(
    alloc: Global,
    name: &Name,
    table: &'c TableDef,
) -> Result<Vec<NamedTable<'c>>, AllocError>
    ensures { IfOk result (λ tables. tables.items ≡ (name.now, table.now) ∷ []) }
{
    let mut tables = Vec::with_capacity(alloc, 1)?;
    put_in_front(&mut tables, name, table)?;
    Ok(tables)
}
