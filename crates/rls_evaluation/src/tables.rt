//! Who gives the rows of tables.

ghost use Rattle.std.specs.Prelude.{◌≡◌, IfOk};
ghost use Rattle.rls_verdict.specs.rls_catalog.specs.State.{State, rows_of, rows_with_key};
ghost use Rattle.rls_evaluation.specs.Showing.{values_of};

use rls_value::{Items, Name, Row};
use rls_verdict::rls_catalog::{BorrowedRow, Catalog};
use std::alloc::{AllocError, Global};

/// Gives the rows of tables; the rows share their values with those of the state. It names no lifetime, so that functions
/// which call one another in a circle may be over it.
pub trait Tables {
    /// The state that it stands for, which no look-up changes.
    ghost state: { Self → State };

    /// The rows of the table, in order of their numbers.
    fn all_rows(&mut self, alloc: Global, table: &Name) -> Result<Items<Row>, AllocError>
        ensures found { IfOk result (λ rows. rows ≡ values_of (rows_of (state self.old) table.now)) }
        ensures stands { state self.new ≡ state self.old };

    /// The rows of the table that have the key, in order of their numbers.
    fn rows_with(
        &mut self,
        alloc: Global,
        table: &Name,
        key: &Row,
    ) -> Result<Items<Row>, AllocError>
        ensures found { IfOk result (λ rows. rows ≡ values_of (rows_with_key (state self.old) table.now key.now)) }
        ensures stands { state self.new ≡ state self.old };
}

/// A state that is looked at.
#[derive(Clone, Copy)]
pub struct Looked<'c> {
    catalog: &'c Catalog,
}

impl<'c> Looked<'c> {
    pub fn new(catalog: &'c Catalog) -> Looked<'c>
        ensures { result.catalog.now ≡ catalog.now }
    {
        Looked { catalog }
    }
}

impl<'c> Tables for Looked<'c> {
    ghost state = { λ it. it.catalog.now };

    fn all_rows(&mut self, alloc: Global, table: &Name) -> Result<Items<Row>, AllocError> {
        let rows = self.catalog.rows(alloc, table)?;
        shared(alloc, rows.as_slice())
    }

    fn rows_with(
        &mut self,
        alloc: Global,
        table: &Name,
        key: &Row,
    ) -> Result<Items<Row>, AllocError> {
        let rows = self.catalog.rows_with_key(alloc, table, key)?;
        shared(alloc, rows.as_slice())
    }
}

/// The same rows, which share their values with those that are borrowed.
fn shared(alloc: Global, rows: &[BorrowedRow]) -> Result<Items<Row>, AllocError>
    ensures { IfOk result (λ copies. copies ≡ values_of rows.now) }
{
    let mut copies = Vec::with_capacity(alloc, rows.len())?;
    for row in rows {
        copies.push(row.row().copy(alloc)?)?;
    }
    Ok(Items::from_vec(copies))
}
