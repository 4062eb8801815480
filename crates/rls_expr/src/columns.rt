//! Which columns expressions mention.

ghost use Rattle.std.specs.Prelude.{◌≡◌, ◌++◌, map, nat_eq, IfOk, OnOk};
ghost use Rattle.std.specs.List.{list_any};
ghost use Rattle.rls_expr.specs.Parts.{mentions};
ghost use Rattle.rls_expr.specs.Selecting as spec;

use crate::expr::Expr;
use crate::parts::reads_column;
use crate::table::Column;
use rls_value::{Items, Name};
use std::alloc::{AllocError, Global};

/// The table of a subquery, and those of its columns that the subquery mentions, in the table's order.
#[derive(Drop)]
pub struct SelectedTable {
    pub table: Name,
    pub columns: Items<Name>,
}

impl SelectedTable {
    pub fn copy(&self, alloc: Global) -> Result<SelectedTable, AllocError>
        ensures { IfOk result (λ copy. copy ≡ self.now) }
    {
        let columns = copies(alloc, self.columns.as_slice())?;
        match self.table.copy() {
            Ok(table) => Ok(SelectedTable { table, columns }),
            Err(refused) => {
                drop(columns);
                Err(refused)
            }
        }
    }
}

/// Copies of the names.
pub fn copies(alloc: Global, names: &[Name]) -> Result<Items<Name>, AllocError>
    ensures { IfOk result (λ copies. copies ≡ names.now) }
{
    let mut copies = Items::new(alloc);
    for name in names {
        copies.push(name.copy()?)?;
    }
    Ok(copies)
}

/// The columns of the table that stand in the expressions, also inside a subquery, in the table's order.
pub fn columns_of(
    alloc: Global,
    exprs: &[&Expr],
    columns: &[Column],
) -> Result<Items<Name>, AllocError>
    ensures { IfOk result (λ names. names ≡ spec.columns_of columns.now (map (λ expr. expr.now) exprs.now)) }
{
    let mut names = Items::new(alloc);
    for (place, column) in columns.iter().enumerate() {
        put_if(&mut names, some_read(exprs, place), column)?;
    }
    Ok(names)
}

/// Whether the column at the place stands in one of the expressions.
fn some_read(exprs: &[&Expr], place: usize) -> bool
    ensures { result ≡ list_any (mentions (nat_eq place) 0) (map (λ expr. expr.now) exprs.now) }
{
    for expr in exprs {
        if reads_column(expr, place) {
            return true;
        }
    }
    false
}

/// The names of all columns.
pub fn all_columns(alloc: Global, columns: &[Column]) -> Result<Items<Name>, AllocError>
    ensures { IfOk result (λ names. names ≡ map (λ column. column.name) columns.now) }
{
    let mut names = Items::new(alloc);
    for column in columns {
        names.push(column.name.copy()?)?;
    }
    Ok(names)
}

/// Puts the column's name behind the others, where it is wanted.
pub fn put_if(names: &mut Items<Name>, is_wanted: bool, column: &Column) -> Result<(), AllocError>
    ensures { OnOk result (names.new ≡ names.old ++ spec.name_if is_wanted column.now) }
{
    if is_wanted {
        names.push(column.name.copy()?)?;
    }
    Ok(())
}
