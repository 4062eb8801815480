//! What is kept while a statement is evaluated.

ghost use Rattle.std.specs.Prelude.{◌≡◌, ◌<◌, ℕ, List, [], Some, None, true, false, cond, drop, length, IfOk, IfSome, OnOk};
ghost use Rattle.std.specs.{BTreeMap.is_at, Map.lookup};
ghost use Rattle.rls_value.specs.Objects.{object_order};
ghost use Rattle.rls_source.specs.Footprints.{is_object, IsInOrder};
ghost use Rattle.rls_source.specs.rls_catalog.specs.rls_expr.specs.{ExprTerms.query_of, Terms.Query};
ghost use Rattle.rls_verdict.specs.rls_catalog.specs.State.{State};
ghost use Rattle.rls_evaluation.specs.{declared.relation.SecuredRelation.SecuredRelation, declared.cached_subplan.Asks.Asks, Holding.Holds, Holding.found_in, CachedSubplans.FoundAt, CachedSubplans.IsAnswer, CachedSubplans.IsAtPlace, CachedSubplans.IsKnown, Eval.among_items, Eval.first_item, Eval.has_row, Showing.shows, Scoping.datum_value, Scoping.env_of};

use crate::cached_index::CachedIndex;
use crate::cached_subplan::{Answer, Asks, CachedSubplan, keep_at, place_for, rests_at};
use crate::datum::Datum;
use crate::read_set::ReadSet;
use crate::scope::Env;
use rls_source::rls_catalog::rls_expr::Subquery;
use rls_value::{Object, Row, Truth};
use std::alloc::{AllocError, Global};
use std::collections::BTreeMap;
use std::marker::Model;
use std::sync::ArcSlice;

/// Rows in a list that is shared, seen as that list.
#[derive(Drop)]
pub struct Rows {
    rows: ArcSlice<Row>,
}

impl Model for Rows {
    ghost use Rattle.std.specs.Prelude.{List};
    ghost use Rattle.std.specs.Arc.{arc_slice_items};
    ghost use Rattle.rls_value.specs.declared.value.Value.{Value as SqlValue};

    ghost Value = { List (List SqlValue) };

    ghost view = { λ it. arc_slice_items it.rows };
}

impl Rows {
    pub fn new(rows: Vec<Row>) -> Result<Rows, AllocError>
        ensures { IfOk result (λ it. it ≡ rows.items) }
    {
        Ok(Rows {
            rows: ArcSlice::from_vec(rows)?,
        })
    }

    pub fn as_slice(&self) -> &[Row]
        ensures { result.now ≡ self.now }
    {
        self.rows.as_slice()
    }

    /// The same list.
    pub fn share(&self) -> Result<Rows, AllocError>
        ensures { IfOk result (λ it. it ≡ self.now) }
    {
        Ok(Rows {
            rows: self.rows.clone()?,
        })
    }
}

/// What the relation at the place showed.
#[derive(Drop)]
pub struct CachedRows {
    pub place: usize,
    pub rows: Rows,
}

/// The read set, the rows that were shown of each object, the cached subplans, and indexes of rows that were shown.
#[derive(Drop)]
pub struct ExecutionState {
    pub read_set: ReadSet,
    pub cached_rows: BTreeMap<Object, CachedRows>,
    pub cached_subplans: Vec<CachedSubplan>,
    pub cached_indexes: Vec<CachedIndex>,
    /// Where an answer is sought first: expressions are evaluated again and again in the same order. `usize::MAX` where the
    /// first answer isn't kept, since it won't be sought again.
    pub next: usize,
}

impl ExecutionState {
    /// Nothing was read, and nothing shown.
    pub fn new(alloc: Global) -> ExecutionState
        ensures read_set { result.read_set ≡ [] }
        ensures cached_rows { result.cached_rows.entries ≡ [] }
        ensures cached_subplans { result.cached_subplans.items ≡ [] }
        ensures cached_indexes { result.cached_indexes.items ≡ [] }
        ensures holds { (relations : List SecuredRelation) (user : List ℕ) (s : State) → Holds relations user s result }
    {
        ExecutionState {
            read_set: ReadSet::new(alloc),
            cached_rows: BTreeMap::new(alloc),
            cached_subplans: Vec::new(alloc),
            cached_indexes: Vec::new(alloc),
            next: 0,
        }
    }

    /// The place of what is kept of the subquery, which is made where there is none; none where answers aren't
    /// kept, or none is looked for now.
    pub fn place_of(
        &mut self,
        alloc: Global,
        from: usize,
        asks: Asks,
        query: &Subquery,
    ) -> Result<Option<usize>, AllocError>
        ensures found { IfOk result (λ place. IfSome place (λ place. FoundAt self.new.cached_subplans.items place from asks (query_of query.now))) }
        ensures read_set { self.new.read_set ≡ self.old.read_set }
        ensures holds { OnOk result ((relations : List SecuredRelation) (user : List ℕ) (s : State) → Holds relations user s self.old → Holds relations user s self.new) }
    {
        if self.next == usize::MAX {
            self.next = 0;
            return Ok(None);
        }
        let next = wrapped(self.next, self.cached_subplans.len());
        if rests_at(&mut self.cached_subplans, next) {
            self.next = next.wrapping_add(1);
            return Ok(None);
        }
        let place = place_for(alloc, &mut self.cached_subplans, next, from, asks, query)?;
        self.next = place + 1;
        Ok(kept_at(&self.cached_subplans, place))
    }

    /// Whether a row meets the subquery's WHERE, if that is kept for the rows in scope.
    pub fn truth(
        &self,
        alloc: Global,
        place: Option<usize>,
        env: &Env,
    ) -> Result<Option<bool>, AllocError>
        ensures { IfOk result (λ known. (relations : List SecuredRelation) (s : State) (from : ℕ) (asks : Asks) (q : Query) → Holds relations env.now.user.now s self.now → IfSome place (λ place. FoundAt self.now.cached_subplans.items place from asks q) → IfSome known (λ is. IsKnown (has_row q (shows (drop from relations) env.now.user.now) (env_of env.now)) s self.now.read_set is)) }
    {
        match cached_at(&self.cached_subplans, place) {
            Some(cached_subplan) => cached_subplan.truth(alloc, env),
            None => Ok(None),
        }
    }

    /// Whether the value is equal to one of the subquery's items, if these are kept for the rows in scope.
    pub fn equality(
        &self,
        alloc: Global,
        place: Option<usize>,
        env: &Env,
        value: &Datum,
    ) -> Result<Option<Truth>, AllocError>
        ensures { IfOk result (λ known. (relations : List SecuredRelation) (s : State) (from : ℕ) (asks : Asks) (q : Query) → Holds relations env.now.user.now s self.now → IfSome place (λ place. FoundAt self.now.cached_subplans.items place from asks q) → IfSome known (λ truth. IsKnown (among_items (datum_value value.now) q (shows (drop from relations) env.now.user.now) (env_of env.now)) s self.now.read_set truth)) }
    {
        match cached_at(&self.cached_subplans, place) {
            Some(cached_subplan) => cached_subplan.equality(alloc, env, value),
            None => Ok(None),
        }
    }

    /// The item of the subquery's first row, if it is kept for the rows in scope; its text is its own.
    pub fn first<'b>(
        &self,
        alloc: Global,
        place: Option<usize>,
        env: &Env,
    ) -> Result<Option<Datum<'b>>, AllocError>
        ensures { IfOk result (λ known. (relations : List SecuredRelation) (s : State) (from : ℕ) (asks : Asks) (q : Query) → Holds relations env.now.user.now s self.now → IfSome place (λ place. FoundAt self.now.cached_subplans.items place from asks q) → IfSome known (λ item. IsKnown (first_item q (shows (drop from relations) env.now.user.now) (env_of env.now)) s self.now.read_set (datum_value item))) }
    {
        match cached_at(&self.cached_subplans, place) {
            Some(cached_subplan) => cached_subplan.first(alloc, env),
            None => Ok(None),
        }
    }

    /// Keeps what the subquery gave, where that is kept.
    pub fn keep(
        &mut self,
        alloc: Global,
        place: Option<usize>,
        from: usize,
        asks: Asks,
        query: &Subquery,
        env: &Env,
        answer: Answer,
    ) -> Result<(), AllocError>
        ensures read_set { self.new.read_set ≡ self.old.read_set }
        ensures holds { OnOk result ((relations : List SecuredRelation) (s : State) → IsAnswer (shows (drop from relations) env.now.user.now) s self.old.read_set (query_of query.now) (env_of env.now) answer → Holds relations env.now.user.now s self.old → Holds relations env.now.user.now s self.new) }
    {
        match place {
            Some(place) => keep_at(
                alloc,
                &mut self.cached_subplans,
                place,
                from,
                asks,
                query,
                env,
                answer,
            ),
            None => {
                drop(answer);
                Ok(())
            }
        }
    }

    /// What was read; no memory is needed.
    pub fn into_read_set(self) -> ReadSet
        ensures { result ≡ self.read_set }
    {
        let ExecutionState {
            read_set,
            cached_rows,
            cached_subplans,
            cached_indexes,
            ..
        } = self;
        drop(cached_rows);
        drop(cached_subplans);
        drop(cached_indexes);
        read_set
    }
}

/// The place or, behind the last one, the first.
fn wrapped(place: usize, len: usize) -> usize {
    if place < len { place } else { 0 }
}

/// The place, where answers are kept there.
fn kept_at(cached_subplans: &[CachedSubplan], place: usize) -> Option<usize>
    requires { place < length cached_subplans.now }
    ensures { IfSome result (λ kept. kept ≡ place) }
{
    if cached_subplans[place].is_kept {
        Some(place)
    } else {
        None
    }
}

/// What stands at the place.
fn cached_at(cached_subplans: &[CachedSubplan], place: Option<usize>) -> Option<&CachedSubplan>
    ensures { IfSome result (λ it. IsAtPlace cached_subplans.now place it.now) }
{
    match place {
        Some(place) => {
            if place < cached_subplans.len() {
                return Some(&cached_subplans[place]);
            }
            None
        }
        None => None,
    }
}

/// What was shown, if it was.
pub fn found(
    cached_rows: &BTreeMap<Object, CachedRows>,
    place: usize,
    object: &Object,
) -> Result<Option<Rows>, AllocError>
    ensures { IfOk result (λ found. found ≡ found_in cached_rows.now.entries place object.now) }
{
    match cached_rows.get(object) {
        Some(one) => {
            if one.place == place {
                let rows = one.rows.share()?;
                return Ok(Some(rows));
            }
            Ok(None)
        }
        None => Ok(None),
    }
}

/// Keeps what was shown of the object, and gives it.
pub fn remembered(
    cached_rows: &mut BTreeMap<Object, CachedRows>,
    object: Object,
    place: usize,
    rows: Rows,
) -> Result<Rows, AllocError>
    ensures gives { IfOk result (λ it. it ≡ rows) }
    ensures kept { OnOk result ((other : Object) → lookup (is_at (object_order other)) cached_rows.new.entries ≡ cond (is_object object other) (Some (record { place = place; rows = rows })) (lookup (is_at (object_order other)) cached_rows.old.entries)) }
{
    match rows.share() {
        Ok(copy) => match remember(cached_rows, object, place, copy) {
            Ok(()) => Ok(rows),
            Err(refused) => {
                drop(rows);
                Err(refused)
            }
        },
        Err(refused) => {
            drop(object);
            drop(rows);
            Err(refused)
        }
    }
}

/// Keeps what was shown of the object.
fn remember(
    cached_rows: &mut BTreeMap<Object, CachedRows>,
    object: Object,
    place: usize,
    rows: Rows,
) -> Result<(), AllocError>
    ensures { OnOk result ((other : Object) → lookup (is_at (object_order other)) cached_rows.new.entries ≡ cond (is_object object other) (Some (record { place = place; rows = rows })) (lookup (is_at (object_order other)) cached_rows.old.entries)) }
{
    let _ = cached_rows.insert(object, CachedRows { place, rows })?;
    Ok(())
}
