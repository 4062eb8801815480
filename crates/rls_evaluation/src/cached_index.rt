//! The rows that a table shows, by the values of columns that a WHERE sets equal to what is known before a row is looked at.

ghost use Rattle.std.specs.Prelude.{◌≡◌, ◌++◌, ℕ, List, [], ◌∷◌, None, Ok, true, false, cond, drop, IfOk, IfSome, OnOk};
ghost use Rattle.std.specs.{BTreeMap.is_at, Cmp.Lexicographic.slice_cmp, List.list_any};
ghost use Rattle.rls_value.specs.{declared.value.Value.Value as SqlValue, Values.is_null, Values.listed};
ghost use Rattle.rls_source.specs.rls_catalog.specs.rls_expr.specs.{Parts.has_query, Terms.maybe_term};
ghost use Rattle.rls_source.specs.rls_catalog.specs.rls_expr.specs.Terms as t;
ghost use Rattle.rls_verdict.specs.rls_catalog.specs.State.{State};
ghost use Rattle.rls_evaluation.specs.{declared.relation.SecuredRelation.SecuredRelation, Scoping.env_of, Showing.shows, Matching.IsUnmet, Matching.LeavesOut, Matching.has_values, Matching.values_in, CachedIndexes.AreIndexed, CachedIndexes.FoundIndex, CachedIndexes.IsIndexFor, CachedIndexes.IsIndexOf, CachedIndexes.IsMadeOf, CachedIndexes.rows_under};

use crate::datum::value_in;
use crate::execution_state::Rows;
use crate::keys::{all_pinned, equal_columns, has_null};
use crate::scope::Env;
use rls_source::rls_catalog::rls_expr::{Expr, has_query};
use rls_value::{Items, Name, Row};
use std::alloc::{AllocError, Global};
use std::collections::BTreeMap;

/// Fewer rows are looked through.
const FEW: usize = 8;

/// The rows that a table shows by the relations from one on, by the values of these columns; made when it is asked for a second
/// time.
#[derive(Drop)]
pub struct CachedIndex {
    pub from: usize,
    pub table: Name,
    pub columns: Vec<usize>,
    pub by_values: Option<BTreeMap<Row, Items<Row>>>,
}

impl CachedIndex {
    /// One that isn't made yet.
    fn new(from: usize, table: &Name, columns: Vec<usize>) -> Result<CachedIndex, AllocError>
        ensures { IfOk result (λ it. it.by_values ≡ None) }
    {
        match table.copy() {
            Ok(table) => Ok(CachedIndex {
                from,
                table,
                columns,
                by_values: None,
            }),
            Err(refused) => {
                drop(columns);
                Err(refused)
            }
        }
    }

    fn is_for(&self, from: usize, table: &Name, columns: &[usize]) -> bool
        ensures { result ≡ true → IsIndexFor self.now from table.now columns.now }
    {
        self.from == from && self.columns.as_slice() == columns && self.table.is(table)
    }

    /// Of these rows, those that have the values in the columns; the index is made of them, if it isn't made yet.
    fn narrowed(&mut self, alloc: Global, values: &Row, rows: &Rows) -> Result<Rows, AllocError>
        ensures same { IsIndexFor self.new self.old.from self.old.table self.old.columns.items }
        ensures made { OnOk result (IsMadeOf self.old rows.now → IsMadeOf self.new rows.now) }
        ensures left { IfOk result (λ it. IsMadeOf self.old rows.now → list_any is_null values.now ≡ false → LeavesOut (λ row. has_values self.old.columns.items values.now row ≡ false) rows.now it) }
    {
        self.make(alloc, rows)?;
        self.rows_with(alloc, values, rows)
    }

    /// Makes it of these rows, if it isn't made yet.
    fn make(&mut self, alloc: Global, rows: &Rows) -> Result<(), AllocError>
        ensures same { IsIndexFor self.new self.old.from self.old.table self.old.columns.items }
        ensures made { OnOk result (IsMadeOf self.old rows.now → IsMadeOf self.new rows.now) }
    {
        if self.by_values.is_none() {
            let by_values = index_of(alloc, self.columns.as_slice(), rows.as_slice())?;
            self.by_values = Some(by_values);
        }
        Ok(())
    }

    /// Of these rows, of which it was made if it is made, those that have the values in the columns.
    fn rows_with(&self, alloc: Global, values: &Row, rows: &Rows) -> Result<Rows, AllocError>
        ensures { IfOk result (λ it. IsMadeOf self.now rows.now → list_any is_null values.now ≡ false → LeavesOut (λ row. has_values self.now.columns.items values.now row ≡ false) rows.now it) }
    {
        match &self.by_values {
            Some(by_values) => rows_of(alloc, by_values, values),
            None => rows.share(),
        }
    }
}

/// The rows that stand under the values.
fn rows_of(
    alloc: Global,
    by_values: &BTreeMap<Row, Items<Row>>,
    values: &Row,
) -> Result<Rows, AllocError>
    ensures { IfOk result (λ it. it ≡ rows_under by_values.now.entries values.now) }
{
    match by_values.get(values) {
        Some(rows) => copies_of(alloc, rows.as_slice()),
        None => Rows::new(Vec::new(alloc)),
    }
}

fn copies_of(alloc: Global, rows: &[Row]) -> Result<Rows, AllocError>
    ensures { IfOk result (λ it. it ≡ rows.now) }
{
    let mut copies = Vec::with_capacity(alloc, rows.len())?;
    for row in rows {
        copies.push(row.copy(alloc)?)?;
    }
    Rows::new(copies)
}

/// The rows by the values of these columns.
fn index_of(
    alloc: Global,
    columns: &[usize],
    rows: &[Row],
) -> Result<BTreeMap<Row, Items<Row>>, AllocError>
    ensures { IfOk result (λ it. IsIndexOf columns.now rows.now it.entries) }
{
    let mut by_values = BTreeMap::new(alloc);
    for row in rows {
        put_row(alloc, &mut by_values, columns, row)?;
    }
    Ok(by_values)
}

/// The row behind those that have the same values.
fn put_row(
    alloc: Global,
    by_values: &mut BTreeMap<Row, Items<Row>>,
    columns: &[usize],
    row: &Row,
) -> Result<(), AllocError>
    ensures { OnOk result ((values : List SqlValue) → rows_under by_values.new.entries values ≡ rows_under by_values.old.entries values ++ cond (is_at (slice_cmp listed values) (values_in columns.now row.now)) (row.now ∷ []) []) }
{
    let values = values_of(alloc, columns, row)?;
    let mut rows = taken(alloc, by_values, &values);
    match row.copy(alloc) {
        Ok(row) => {
            rows.push(row)?;
            let _ = by_values.insert(values, rows)?;
            Ok(())
        }
        Err(refused) => Err(refused),
    }
}

/// The rows that stand under the values, which are taken out.
fn taken(alloc: Global, by_values: &mut BTreeMap<Row, Items<Row>>, values: &Row) -> Items<Row>
    ensures rows { result ≡ rows_under by_values.old.entries values.now }
    ensures others { (other : List SqlValue) → rows_under by_values.new.entries other ≡ cond (is_at (slice_cmp listed values.now) other) [] (rows_under by_values.old.entries other) }
{
    match by_values.remove(values) {
        Some(rows) => rows,
        None => Items::new(alloc),
    }
}

/// The values of the row in these columns.
fn values_of(alloc: Global, columns: &[usize], row: &Row) -> Result<Row, AllocError>
    ensures { IfOk result (λ values. values ≡ values_in columns.now row.now) }
{
    let mut values = Vec::with_capacity(alloc, columns.len())?;
    for column in columns {
        let datum = value_in(row, *column);
        values.push(datum.to_value(alloc)?)?;
    }
    Row::new(values)
}

/// The place of the index, if it was asked for before.
fn place_of_index(
    cached_indexes: &[CachedIndex],
    from: usize,
    table: &Name,
    columns: &[usize],
) -> Option<usize>
    ensures { IfSome result (λ place. FoundIndex cached_indexes.now place from table.now columns.now) }
{
    let mut place = 0;
    while place < cached_indexes.len() {
        if cached_indexes[place].is_for(from, table, columns) {
            return Some(place);
        }
        place += 1;
    }
    None
}

/// Of the rows that the table shows by the relations from one on, those that have the values in the columns, or all: the first
/// time they are only promised an index.
fn matching_rows(
    alloc: Global,
    cached_indexes: &mut Vec<CachedIndex>,
    from: usize,
    table: &Name,
    columns: Vec<usize>,
    values: &Row,
    rows: &Rows,
) -> Result<Rows, AllocError>
    ensures left { IfOk result (λ it. (relations : List SecuredRelation) (user : List ℕ) (s : State) → AreIndexed relations user s cached_indexes.old.items → ((shows (drop from relations) user table.now None).in_state s).gives ≡ Ok rows.now → list_any is_null values.now ≡ false → LeavesOut (λ row. has_values columns.items values.now row ≡ false) rows.now it) }
    ensures indexed { OnOk result ((relations : List SecuredRelation) (user : List ℕ) (s : State) → AreIndexed relations user s cached_indexes.old.items → ((shows (drop from relations) user table.now None).in_state s).gives ≡ Ok rows.now → AreIndexed relations user s cached_indexes.new.items) }
{
    match place_of_index(&*cached_indexes, from, table, columns.as_slice()) {
        Some(place) => {
            drop(columns);
            let cached_index = &mut cached_indexes[place];
            cached_index.narrowed(alloc, values, rows)
        }
        None => {
            let index = CachedIndex::new(from, table, columns)?;
            cached_indexes.push(index)?;
            rows.share()
        }
    }
}

/// The same where a null may be among the values: nothing is equal to it.
fn rows_equal(
    alloc: Global,
    cached_indexes: &mut Vec<CachedIndex>,
    from: usize,
    table: &Name,
    columns: Vec<usize>,
    values: &Row,
    rows: &Rows,
) -> Result<Rows, AllocError>
    ensures left { IfOk result (λ it. (relations : List SecuredRelation) (user : List ℕ) (s : State) → AreIndexed relations user s cached_indexes.old.items → ((shows (drop from relations) user table.now None).in_state s).gives ≡ Ok rows.now → LeavesOut (λ row. has_values columns.items values.now row ≡ false) rows.now it) }
    ensures indexed { OnOk result ((relations : List SecuredRelation) (user : List ℕ) (s : State) → AreIndexed relations user s cached_indexes.old.items → ((shows (drop from relations) user table.now None).in_state s).gives ≡ Ok rows.now → AreIndexed relations user s cached_indexes.new.items) }
{
    if has_null(values.as_slice()) {
        drop(columns);
        return Rows::new(Vec::new(alloc));
    }
    matching_rows(alloc, cached_indexes, from, table, columns, values, rows)
}

/// Of the rows, those that have in these columns what the condition sets them equal to, or all.
fn pinned_rows(
    alloc: Global,
    cached_indexes: &mut Vec<CachedIndex>,
    from: usize,
    table: &Name,
    columns: Vec<usize>,
    condition: &Expr,
    env: &Env,
    rows: &Rows,
) -> Result<Rows, AllocError>
    requires { has_query condition.now ≡ false }
    ensures left { IfOk result (λ it. (relations : List SecuredRelation) (user : List ℕ) (s : State) → AreIndexed relations user s cached_indexes.old.items → ((shows (drop from relations) user table.now None).in_state s).gives ≡ Ok rows.now → LeavesOut (IsUnmet (t.More condition.now t.End) (env_of env.now)) rows.now it) }
    ensures indexed { OnOk result ((relations : List SecuredRelation) (user : List ℕ) (s : State) → AreIndexed relations user s cached_indexes.old.items → ((shows (drop from relations) user table.now None).in_state s).gives ≡ Ok rows.now → AreIndexed relations user s cached_indexes.new.items) }
{
    match all_pinned(alloc, columns.as_slice(), condition, env) {
        Ok(Some(values)) => {
            let found = rows_equal(alloc, cached_indexes, from, table, columns, &values, rows);
            drop(values);
            found
        }
        Ok(None) => {
            drop(columns);
            rows.share()
        }
        Err(refused) => {
            drop(columns);
            Err(refused)
        }
    }
}

/// Of the rows that the table shows by the relations from one on, as many as may meet the condition. A condition with a
/// subquery is asked of each: it reads for each.
pub fn narrowed(
    alloc: Global,
    cached_indexes: &mut Vec<CachedIndex>,
    from: usize,
    table: &Name,
    condition: &Option<Expr>,
    env: &Env,
    rows: &Rows,
) -> Result<Rows, AllocError>
    ensures left { IfOk result (λ it. (relations : List SecuredRelation) (user : List ℕ) (s : State) → AreIndexed relations user s cached_indexes.old.items → ((shows (drop from relations) user table.now None).in_state s).gives ≡ Ok rows.now → LeavesOut (IsUnmet (maybe_term condition.now) (env_of env.now)) rows.now it) }
    ensures indexed { OnOk result ((relations : List SecuredRelation) (user : List ℕ) (s : State) → AreIndexed relations user s cached_indexes.old.items → ((shows (drop from relations) user table.now None).in_state s).gives ≡ Ok rows.now → AreIndexed relations user s cached_indexes.new.items) }
{
    match condition {
        None => rows.share(),
        Some(condition) => {
            if rows.as_slice().len() < FEW || has_query(condition) {
                return rows.share();
            }
            let columns = equal_columns(alloc, condition)?;
            if columns.is_empty() {
                drop(columns);
                return rows.share();
            }
            pinned_rows(
                alloc,
                cached_indexes,
                from,
                table,
                columns,
                condition,
                env,
                rows,
            )
        }
    }
}
