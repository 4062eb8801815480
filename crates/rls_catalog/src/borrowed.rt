//! Borrowed rows: rows where they are kept.

ghost use Rattle.std.specs.Prelude.{◌≡◌};
ghost use Rattle.rls_catalog.specs.State.{stored_of};

use crate::stored::Keyed;
use rls_expr::rls_value::{Row, RowId};
use std::marker::Model;

/// A row of a table that stands where it is kept, seen as a `Stored`.
#[derive(Drop)]
pub struct BorrowedRow<'c> {
    id: RowId,
    keyed: &'c Keyed,
}

impl<'c> Model for BorrowedRow<'c> {
    ghost use Rattle.rls_catalog.specs.declared.stored.Stored.{Stored as Seen};
    ghost use Rattle.rls_catalog.specs.contracts.stored.Stored as stored;
    ghost use Rattle.rls_catalog.specs.State.{stored_of};

    ghost Value = { Seen };

    ghost coded = { stored.the_row.coded };

    ghost view = { λ borrowed. stored_of (borrowed.id, borrowed.keyed.now) };
}

impl<'c> BorrowedRow<'c> {
    pub fn new(id: RowId, keyed: &'c Keyed) -> BorrowedRow<'c>
        ensures { result ≡ stored_of (id, keyed.now) }
    {
        BorrowedRow { id, keyed }
    }

    pub fn id(&self) -> RowId
        ensures { result ≡ self.now.id }
    {
        self.id
    }

    pub fn key(&self) -> &'c Row
        ensures { result.now ≡ self.now.key }
    {
        &self.keyed.key
    }

    pub fn row(&self) -> &'c Row
        ensures { result.now ≡ self.now.row }
    {
        &self.keyed.row
    }
}
