//! Definitions of tables.

ghost use Rattle.std.specs.Prelude.{◌≡◌, ◌<◌, length, IfOk, IfSome};
ghost use Rattle.rls_expr.specs.Tables.{category_of, column_named, typed_column};

use crate::expr::Category;
use rls_value::{ColType, Items, Name, or_drop};
use std::alloc::{AllocError, Global};

/// A column of a table.
#[derive(Drop)]
pub struct Column {
    pub name: Name,
    pub kind: ColType,
    pub not_null: bool,
}

/// What a table is, but for its name.
#[derive(Drop)]
pub struct TableDef {
    pub owner: Name,
    /// Whether row security is on (PostgreSQL manual, ALTER TABLE, "ENABLE ROW LEVEL SECURITY").
    pub enabled: bool,
    /// Whether it binds the owner too ("FORCE ROW LEVEL SECURITY").
    pub forced: bool,
    pub columns: Items<Column>,
    /// The places of the primary key's columns, in the key's order; empty where there is none.
    pub key: Items<usize>,
}

impl Column {
    pub fn copy(&self) -> Result<Column, AllocError>
        ensures { IfOk result (λ column. column ≡ self.now) }
    {
        Ok(Column {
            name: self.name.copy()?,
            kind: self.kind,
            not_null: self.not_null,
        })
    }

    /// A copy of the list.
    pub fn copy_all(alloc: Global, columns: &[Column]) -> Result<Items<Column>, AllocError>
        ensures { IfOk result (λ copies. copies ≡ columns.now) }
    {
        let mut copies = Vec::with_capacity(alloc, columns.len())?;
        for column in columns {
            copies.push(column.copy()?)?;
        }
        Ok(Items::from_vec(copies))
    }
}

impl TableDef {
    /// The place of the first column of that name.
    pub fn column(&self, name: &Name) -> Option<usize>
        ensures place { result ≡ column_named self.now.columns name.now }
    {
        var_of(self.columns.as_slice(), name)
    }

    /// The place and the type of the first column of that name.
    pub fn typed_column(&self, name: &Name) -> Option<(usize, Category)>
        ensures { result ≡ typed_column 0 self.now.columns name.now }
    {
        typed_place(self.columns.as_slice(), name)
    }

    pub fn copy(&self, alloc: Global) -> Result<TableDef, AllocError>
        ensures { IfOk result (λ table. table ≡ self.now) }
    {
        let owner = self.owner.copy()?;
        let (columns, key) = or_drop!(copy_shape(alloc, self), owner);
        Ok(TableDef {
            owner,
            enabled: self.enabled,
            forced: self.forced,
            columns,
            key: Items::from_vec(key),
        })
    }
}

/// A copy of the table's columns, and of its key.
fn copy_shape(alloc: Global, table: &TableDef) -> Result<(Items<Column>, Vec<usize>), AllocError>
    ensures columns { IfOk result (λ shape. shape.0 ≡ table.now.columns) }
    ensures key { IfOk result (λ shape. shape.1.items ≡ table.now.key) }
{
    let columns = Column::copy_all(alloc, table.columns.as_slice())?;
    let key = or_drop!(table.key.as_slice().to_vec(alloc), columns);
    Ok((columns, key))
}

fn var_of(columns: &[Column], name: &Name) -> Option<usize>
    ensures { result ≡ column_named columns.now name.now }
{
    columns.iter().position(|column| column.name.is(name))
}

fn typed_place(columns: &[Column], name: &Name) -> Option<(usize, Category)>
    ensures { result ≡ typed_column 0 columns.now name.now }
{
    for (place, column) in columns.iter().enumerate() {
        if column.name.is(name) {
            return Some((place, category_of(column.kind)));
        }
    }
    None
}

/// The type of a column's values.
pub fn category_of(column: ColType) -> Category
    ensures { result ≡ category_of column }
{
    match column {
        ColType::Integer | ColType::BigInt => Category::Number,
        ColType::Text => Category::Text,
        ColType::Boolean => Category::Boolean,
    }
}
