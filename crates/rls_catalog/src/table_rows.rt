//! The rows of one table, by number, with an index by key.

ghost use Rattle.std.specs.Prelude.{◌≡◌, [], IfOk, OnOk, map};
ghost use Rattle.rls_catalog.specs.{Changed.with_row, InOrder.Ascend, KeyIndex.ids_under, KeyIndex.picked, State.stored_of, State.with_key};

use crate::borrowed::BorrowedRow;
use crate::index_key::IndexKey;
use crate::same::is_same_row;
use crate::stored::Keyed;
use crate::table_index::{Index, is_empty, reindex};
use rls_expr::rls_value::{Items, Row, RowId};
use shared_map::{Iter, Shared, SharedMap};
use std::alloc::{AllocError, Global};
use std::cmp::min;
use std::marker::Model;

/// The rows of a table, seen as their list, each under its number, in order of these. Copies share them.
#[derive(Drop)]
pub(crate) struct Rows {
    rows: SharedMap<RowId, Keyed>,
    index: Index,
}

impl Model for Rows {
    ghost use Rattle.std.specs.Prelude.{List};
    ghost use Rattle.rls_expr.specs.rls_value.specs.declared.row.RowId.{RowId as Number};
    ghost use Rattle.rls_catalog.specs.declared.stored.Keyed.{Keyed as Content};
    ghost use Rattle.rls_catalog.specs.StateCode.{rows_code};

    ghost Value = { List (Number × Content) };

    ghost coded = { rows_code };

    ghost use Rattle.rls_catalog.specs.KeyIndex.{InKeyOrder, Indexes};

    ghost view = { λ it. it.rows };

    // The index has the keys of just these rows.
    ghost invariant = { λ it. Indexes it.index it.rows × InKeyOrder it.index };
}

impl Clone for Rows {
    ghost use Rattle.std.specs.Prelude.{◌≡◌};

    ghost is_clone = { λ x y. y ≡ x };

    fn clone(&self) -> Result<Rows, AllocError> {
        self.copy()
    }
}

impl Shared for Rows {
    ghost same = { λ x y h. h };
}

impl Rows {
    #[tactic(auto, using(crate::proofs::IndexLemmas::none_indexes, crate::proofs::IndexLemmas::none_in_order))]
    pub(crate) fn new() -> Rows
        ensures { result ≡ [] }
    {
        Rows {
            rows: SharedMap::new(),
            index: SharedMap::new(),
        }
    }

    /// The same rows, all of them shared.
    pub(crate) fn copy(&self) -> Result<Rows, AllocError>
        ensures { IfOk result (λ copy. copy ≡ self.now) }
    {
        Ok(Rows {
            rows: self.rows.copy()?,
            index: self.index.copy()?,
        })
    }

    /// With the content at the number; none takes the row away.
    pub(crate) fn with(
        self,
        alloc: Global,
        id: RowId,
        content: &Option<Keyed>,
    ) -> Result<Rows, AllocError>
        ensures { IfOk result (λ rows. rows ≡ with_row id content.now self) }
    {
        let Rows {
            mut rows,
            mut index,
        } = self;
        reindex(&mut index, alloc, id, rows.get(&id), content)?;
        put(&mut rows, alloc, id, content)?;
        Ok(Rows { rows, index })
    }

    /// The rows, in order of their numbers.
    pub(crate) fn lend(&self, alloc: Global) -> Result<Items<BorrowedRow<'_>>, AllocError>
        ensures rows { IfOk result (λ rows. rows ≡ map stored_of self.now) }
        ensures ordered { Ascend self.now }
    {
        let mut listed = Vec::with_capacity(alloc, self.rows.len())?;
        for (id, keyed) in self.rows.iter() {
            listed.push(BorrowedRow::new(*id, keyed))?;
        }
        Ok(Items::from_vec(listed))
    }

    /// The rows that have the key, in order of their numbers. The index tells where they are; only rows with the empty key are sought everywhere.
    pub(crate) fn lend_with_key(
        &self,
        alloc: Global,
        key: &Row,
    ) -> Result<Items<BorrowedRow<'_>>, AllocError>
        ensures rows { IfOk result (λ rows. rows ≡ with_key key.now (map stored_of self.now)) }
        ensures ordered { Ascend self.now }
    {
        if is_empty(key) {
            return seek(alloc, self.rows.iter(), key);
        }
        // A primary key has one row at most.
        let found = Vec::with_capacity(alloc, min(self.rows.len(), 1))?;
        let first = IndexKey {
            key: key.copy(alloc)?,
            id: RowId { txn: 0, n: 0 },
        };
        pick(found, &self.rows, self.index.iter_from(&first), key)
    }
}

/// Puts the content at the number; none takes the row away.
fn put(
    rows: &mut SharedMap<RowId, Keyed>,
    alloc: Global,
    id: RowId,
    content: &Option<Keyed>,
) -> Result<(), AllocError>
    ensures { OnOk result (rows.new ≡ with_row id content.now rows.old) }
{
    match content {
        Some(keyed) => rows.insert(alloc, id, keyed.copy(alloc)?),
        None => rows.remove(alloc, &id),
    }
}

/// The rows that have the key, among all.
fn seek<'c>(
    alloc: Global,
    rows: Iter<'c, RowId, Keyed>,
    key: &Row,
) -> Result<Items<BorrowedRow<'c>>, AllocError>
    ensures { IfOk result (λ found. found ≡ with_key key.now (map stored_of rows.entry)) }
{
    let mut found = Vec::new(alloc);
    for (id, keyed) in rows {
        if is_same_row(&keyed.key, key) {
            found.push(BorrowedRow::new(*id, keyed))?;
        }
    }
    Ok(Items::from_vec(found))
}

/// The rows that have the key, put into the list: those whose numbers stand under it in the entries of the index from the key on.
fn pick<'c>(
    mut found: Vec<BorrowedRow<'c>>,
    rows: &'c SharedMap<RowId, Keyed>,
    entries: Iter<'_, IndexKey, ()>,
    key: &Row,
) -> Result<Items<BorrowedRow<'c>>, AllocError>
    requires { found.items ≡ [] }
    ensures { IfOk result (λ picks. picks ≡ picked key.now rows.now (ids_under key.now entries.entry)) }
{
    for (entry, _) in entries {
        if *key != entry.key {
            return Ok(Items::from_vec(found));
        }
        if let Some(keyed) = rows.get(&entry.id) {
            if is_same_row(&keyed.key, key) {
                found.push(BorrowedRow::new(entry.id, keyed))?;
            }
        }
    }
    Ok(Items::from_vec(found))
}
