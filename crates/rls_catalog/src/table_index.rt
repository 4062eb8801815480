//! The index of a table's rows by key, kept as rows change.

ghost use Rattle.std.specs.Prelude.{◌≡◌, List, None, false, OnOk, IsTrue};
ghost use Rattle.std.specs.Option.{option_copied};
ghost use Rattle.rls_expr.specs.rls_value.specs.declared.value.Value.{Value};
ghost use Rattle.rls_catalog.specs.KeyIndex.{InKeyOrder, Reindexed, has_key, is_empty_key, is_indexed};

use crate::index_key::IndexKey;
use crate::stored::Keyed;
use rls_expr::rls_value::{Row, RowId};
use shared_map::SharedMap;
use std::alloc::{AllocError, Global};

/// The numbers of the rows of a table, under their keys.
pub(crate) type Index = SharedMap<IndexKey, ()>;

/// Whether the key is that of a table without one, whose rows aren't indexed.
pub(crate) fn is_empty(key: &Row) -> bool
    ensures { result ≡ is_empty_key key.now }
{
    match key.as_slice() {
        [] => true,
        [_, ..] => false,
    }
}

/// Puts the number under the key of the row that stands there after a change, in place of that of the one before.
pub(crate) fn reindex(
    index: &mut Index,
    alloc: Global,
    id: RowId,
    before: Option<&Keyed>,
    after: &Option<Keyed>,
) -> Result<(), AllocError>
    requires stood { (key : List Value) → is_indexed index.old key id ≡ has_key key (option_copied before) }
    requires ordered { InKeyOrder index.old }
    ensures reindexed { OnOk result (Reindexed id after.now index.old index.new) }
    ensures ordered { OnOk result (InKeyOrder index.new) }
{
    if has_same_key(before, after) {
        return Ok(());
    }
    leave(index, alloc, id, before)?;
    enter(index, alloc, id, after)
}

/// Whether there is a row before and after, and both have the same key.
fn has_same_key(before: Option<&Keyed>, after: &Option<Keyed>) -> bool
    ensures { IsTrue result → (key : List Value) → has_key key (option_copied before.entry) ≡ has_key key after.now }
{
    match (before, after) {
        (Some(before), Some(after)) => before.key == after.key,
        (_, _) => false,
    }
}

/// Takes the number out under the key of the row that stood there.
fn leave(
    index: &mut Index,
    alloc: Global,
    id: RowId,
    before: Option<&Keyed>,
) -> Result<(), AllocError>
    requires stood { (key : List Value) → is_indexed index.old key id ≡ has_key key (option_copied before) }
    requires ordered { InKeyOrder index.old }
    ensures reindexed { OnOk result (Reindexed id None index.old index.new) }
    ensures ordered { OnOk result (InKeyOrder index.new) }
{
    match before {
        Some(keyed) => {
            if is_empty(&keyed.key) {
                return Ok(());
            }
            let key = keyed.key.copy(alloc)?;
            index.remove(alloc, &IndexKey { key, id })
        }
        None => Ok(()),
    }
}

/// Puts the number under the key of the row that is to stand there.
fn enter(
    index: &mut Index,
    alloc: Global,
    id: RowId,
    after: &Option<Keyed>,
) -> Result<(), AllocError>
    requires gone { (key : List Value) → is_indexed index.old key id ≡ false }
    requires ordered { InKeyOrder index.old }
    ensures reindexed { OnOk result (Reindexed id after.now index.old index.new) }
    ensures ordered { OnOk result (InKeyOrder index.new) }
{
    match after {
        Some(keyed) => {
            if is_empty(&keyed.key) {
                return Ok(());
            }
            let key = keyed.key.copy(alloc)?;
            index.insert(alloc, IndexKey { key, id }, ())
        }
        None => Ok(()),
    }
}
