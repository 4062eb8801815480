//! What names in an expression may mean.

ghost use Rattle.std.specs.Prelude.{◌≡◌, ◌∷◌, IfOk};
ghost use Rattle.std.specs.Option.{option_copied};
ghost use Rattle.rls_expr.specs.Scopes.{in_scope, known_table, var_in, unqualified_from, qualified_from, var_borrowed};

use crate::column_name::ColumnName;
use crate::expr::Var;
use crate::table::TableDef;
use rls_value::{Name, NameKind};
use std::alloc::{AllocError, Global};
use std::marker::Model;

/// A table of a FROM clause: the name that qualifies its columns, its alias where it has one, and its definition.
#[derive(Clone, Copy)]
pub struct FromTable<'a> {
    pub name: &'a Name,
    pub table: &'a TableDef,
}

/// A table under a name: what qualifies its columns, or what a subquery calls it; seen as the name and the definition.
#[derive(Drop)]
pub struct NamedTable<'c> {
    name: Name,
    table: &'c TableDef,
}

impl<'c> Model for NamedTable<'c> {
    ghost use Rattle.std.specs.Coded.{coded×, coded_list, coded_ℕ};
    ghost use Rattle.rls_expr.specs.Scopes.{InScope};
    ghost use Rattle.rls_expr.specs.contracts.table.TableDef as def;

    ghost Value = { InScope };

    ghost coded = { coded× (coded_list coded_ℕ) def.the_row.coded };

    ghost view = { λ named. (named.name, named.table.now) };
}

impl<'c> NamedTable<'c> {
    /// The table under a copy of the name, which takes no memory.
    pub fn new(name: &Name, table: &'c TableDef) -> Result<NamedTable<'c>, AllocError>
        ensures { IfOk result (λ named. named ≡ (name.now, table.now)) }
    {
        let name = name.copy()?;
        Ok(NamedTable { name, table })
    }

    /// The same as a table of a FROM clause.
    pub fn as_from(&self) -> FromTable<'_>
        ensures { in_scope result ≡ self.now }
    {
        FromTable {
            name: &self.name,
            table: self.table,
        }
    }

    pub fn copy(&self) -> Result<NamedTable<'c>, AllocError>
        ensures { IfOk result (λ named. named ≡ self.now) }
    {
        NamedTable::new(&self.name, self.table)
    }
}

/// The definition of the first table of that name.
pub fn known_table<'c>(known: &[NamedTable<'c>], name: &Name) -> Option<&'c TableDef>
    ensures { option_copied result ≡ known_table known.now name.now }
{
    for table in known {
        if table.name.is(name) {
            return Some(table.table);
        }
    }
    None
}

/// The table in front of those that lie further out.
pub fn inside<'c>(
    alloc: Global,
    from: NamedTable<'c>,
    tables: &[NamedTable<'c>],
) -> Result<Vec<NamedTable<'c>>, AllocError>
    ensures { IfOk result (λ all. all.items ≡ from.entry ∷ tables.now) }
{
    let mut all = Vec::with_capacity(alloc, tables.len().saturating_add(1))?;
    all.push(from)?;
    for table in tables {
        all.push(table.copy()?)?;
    }
    Ok(all)
}

/// How many levels up, where there, and of which type the column is that the name means; else the name that is unknown,
/// the qualifier's or the column's.
pub fn var_of<'n>(
    tables: &[NamedTable],
    column: &'n ColumnName,
) -> Result<Var, (NameKind, &'n Name)>
    ensures { var_borrowed result ≡ var_in tables.now column.now }
{
    match &column.qualifier {
        None => unqualified(tables, &column.name),
        Some(qualifier) => qualified(tables, qualifier, &column.name),
    }
}

/// The same of a name alone.
pub fn unqualified<'n>(tables: &[NamedTable], name: &'n Name) -> Result<Var, (NameKind, &'n Name)>
    ensures { var_borrowed result ≡ unqualified_from 0 tables.now name.now }
{
    for (level, from) in tables.iter().enumerate() {
        if let Some((column, kind)) = from.table.typed_column(name) {
            return Ok(Var {
                level,
                column,
                kind,
            });
        }
    }
    Err((NameKind::Column, name))
}

fn qualified<'n>(
    tables: &[NamedTable],
    qualifier: &'n Name,
    name: &'n Name,
) -> Result<Var, (NameKind, &'n Name)>
    ensures { var_borrowed result ≡ qualified_from 0 tables.now qualifier.now name.now }
{
    for (level, from) in tables.iter().enumerate() {
        if from.name.is(qualifier) {
            return match from.table.typed_column(name) {
                Some((column, kind)) => Ok(Var {
                    level,
                    column,
                    kind,
                }),
                None => Err((NameKind::Column, name)),
            };
        }
    }
    Err((NameKind::Relation, qualifier))
}
