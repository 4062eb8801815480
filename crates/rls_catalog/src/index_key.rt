//! What an index of rows by key is ordered by.

ghost use Rattle.std.specs.Prelude.{◌≡◌};

use rls_expr::rls_value::{Row, RowId};
use shared_map::Shared;
use std::alloc::AllocError;

/// The key of a row with the row's number. Keys come in the order in which rows are listed, the same keys by number.
#[derive(Drop, PartialEq, Eq, PartialOrd, Ord)]
pub(crate) struct IndexKey {
    pub(crate) key: Row,
    pub(crate) id: RowId,
}

impl Clone for IndexKey {
    ghost use Rattle.std.specs.Prelude.{◌≡◌};

    ghost is_clone = { λ x y. y ≡ x };

    fn clone(&self) -> Result<IndexKey, AllocError> {
        Ok(IndexKey {
            key: self.key.clone()?,
            id: self.id,
        })
    }
}

impl Shared for IndexKey {
    ghost same = { λ x y h. h };
}
