//! Rows as a state keeps them.

ghost use Rattle.std.specs.Prelude.{◌≡◌, IfOk};

use rls_expr::rls_value::{Items, Row, RowId};
use shared_map::Shared;
use std::alloc::{AllocError, Global};

/// A row with the values of its primary key, in the key's order; empty where there is none.
#[derive(Drop)]
pub struct Keyed {
    pub key: Row,
    pub row: Row,
}

/// A row of a table: its number, the values of its key and its values.
#[derive(Drop)]
pub struct Stored {
    pub id: RowId,
    pub key: Row,
    pub row: Row,
}

impl Keyed {
    pub fn copy(&self, alloc: Global) -> Result<Keyed, AllocError>
        ensures { IfOk result (λ keyed. keyed ≡ self.now) }
    {
        Ok(Keyed {
            key: self.key.copy(alloc)?,
            row: self.row.copy(alloc)?,
        })
    }
}

impl Clone for Keyed {
    ghost use Rattle.std.specs.Prelude.{◌≡◌};

    ghost is_clone = { λ x y. y ≡ x };

    fn clone(&self) -> Result<Keyed, AllocError> {
        Ok(Keyed {
            key: self.key.clone()?,
            row: self.row.clone()?,
        })
    }
}

impl Shared for Keyed {
    ghost same = { λ x y h. h };
}

impl Stored {
    pub fn copy(&self, alloc: Global) -> Result<Stored, AllocError>
        ensures { IfOk result (λ stored. stored ≡ self.now) }
    {
        Ok(Stored {
            id: self.id,
            key: self.key.copy(alloc)?,
            row: self.row.copy(alloc)?,
        })
    }

    /// A copy of the list.
    pub fn copy_all(alloc: Global, rows: &[Stored]) -> Result<Items<Stored>, AllocError>
        ensures { IfOk result (λ copies. copies ≡ rows.now) }
    {
        let mut copies = Vec::with_capacity(alloc, rows.len())?;
        for row in rows {
            copies.push(row.copy(alloc)?)?;
        }
        Ok(Items::from_vec(copies))
    }
}
