//! What subqueries gave, kept by the values of the columns further out that they name.

ghost use Rattle.std.specs.Prelude.{◌≡◌, ℕ, List, None, Some, true, false, drop, length, IfOk, IfSome, OnOk, []};
ghost use Rattle.std.specs.Option.{option_copied};
ghost use Rattle.rls_value.specs.declared.object.Object.{Object};
ghost use Rattle.rls_source.specs.rls_catalog.specs.rls_expr.specs.{ExprTerms.query_of, Terms.Query};
ghost use Rattle.rls_verdict.specs.rls_catalog.specs.State.{State};
ghost use Rattle.rls_evaluation.specs.{declared.relation.SecuredRelation.SecuredRelation, OuterColumns.is_among, OuterColumns.outer_values, OuterColumns.query_in, Scoping.env_of, Scoping.datum_value, Showing.shows, CachedSubplans.AreCached, CachedSubplans.FoundAt, CachedSubplans.IsFor, CachedSubplans.IsAnswerOf, CachedSubplans.IsCached, CachedSubplans.IsPut, CachedSubplans.IsAnswer, CachedSubplans.NoneBelow, CachedSubplans.IsEqualityOf, CachedSubplans.answer_for};
ghost use Rattle.rls_evaluation.specs.declared.cached_subplan.Answer.TheVariants as a;

use crate::datum::{Datum, datum_of};
use crate::outer_columns::{OuterColumn, named_columns, names_only};
use crate::outer_values::OuterValues;
use crate::reuse::Reuse;
use crate::scope::Env;
use crate::value_set::ValueSet;
use rls_equality::is_same_query;
use rls_source::rls_catalog::rls_expr::Subquery;
use rls_value::{Truth, Value};
use std::alloc::{AllocError, Global};
use std::collections::BTreeMap;

/// The most answers of a subquery that are kept.
const MOST_ANSWERS: usize = 16384;

/// The most values that the answers of a subquery hold together, where there are several.
const MOST_VALUES: usize = 65536;

/// What is asked of a subquery: whether a row meets its WHERE, the items of those that do, or the item of the first.
#[derive(Clone, Copy, PartialEq, Eq)]
pub enum Asks {
    Exists,
    Items,
    First,
}

/// What it gave.
#[derive(Drop)]
pub enum Answer {
    Is(bool),
    Items(ValueSet),
    First(Value),
}

impl Answer {
    /// How many values it holds.
    fn size(&self) -> usize {
        match self {
            Answer::Is(_) | Answer::First(_) => 1,
            Answer::Items(values) => values.len(),
        }
    }
}

/// What a subquery gave over the relations from one on, by the values of the columns further out that it names.
#[derive(Drop)]
pub struct CachedSubplan {
    pub from: usize,
    pub asks: Asks,
    pub query: Box<Subquery>,
    pub columns: Vec<OuterColumn>,
    pub answers: BTreeMap<OuterValues, Answer>,
    /// How many values the answers hold.
    pub size: usize,
    pub reuse: Reuse,
    /// Whether answers are kept: not of a subquery with a sum.
    pub is_kept: bool,
}

impl CachedSubplan {
    fn new(
        alloc: Global,
        from: usize,
        asks: Asks,
        query: &Subquery,
    ) -> Result<CachedSubplan, AllocError>
        ensures is_for { IfOk result (λ it. IsFor it from asks (query_of query.now)) }
        ensures named { IfOk result (λ it. it.is_kept ≡ true → query_in (is_among it.columns.items) (query_of query.now) ≡ true) }
        ensures none { IfOk result (λ it. it.answers.entries ≡ []) }
    {
        let columns = named_columns(alloc, query)?;
        let is_kept = names_only(columns.as_slice(), query);
        match query.copy_boxed(alloc) {
            Ok(query) => Ok(CachedSubplan {
                from,
                asks,
                query,
                columns,
                answers: BTreeMap::new(alloc),
                size: 0,
                reuse: Reuse::new(),
                is_kept,
            }),
            Err(refused) => {
                drop(columns);
                Err(refused)
            }
        }
    }

    /// What is kept for the rows in scope.
    fn answer(&self, alloc: Global, env: &Env) -> Result<Option<&Answer>, AllocError>
        ensures { IfOk result (λ answer. option_copied answer ≡ answer_for self.now (outer_values self.now.columns.items (env_of env.now))) }
    {
        let values = OuterValues::of(alloc, self.columns.as_slice(), env)?;
        let answer = self.answers.get(&values);
        drop(values);
        Ok(answer)
    }

    /// Whether a row meets WHERE, if it is kept for the rows in scope.
    pub fn truth(&self, alloc: Global, env: &Env) -> Result<Option<bool>, AllocError>
        ensures { IfOk result (λ known. IfSome known (λ is. answer_for self.now (outer_values self.now.columns.items (env_of env.now)) ≡ Some (a.Is is))) }
    {
        match self.answer(alloc, env)? {
            Some(Answer::Is(is)) => Ok(Some(*is)),
            Some(Answer::Items(_) | Answer::First(_)) | None => Ok(None),
        }
    }

    /// Whether the value is equal to one of the items, if they are kept for the rows in scope.
    pub fn equality(
        &self,
        alloc: Global,
        env: &Env,
        value: &Datum,
    ) -> Result<Option<Truth>, AllocError>
        ensures { IfOk result (λ known. IfSome known (λ truth. IsEqualityOf (answer_for self.now (outer_values self.now.columns.items (env_of env.now))) (datum_value value.now) truth)) }
    {
        match self.answer(alloc, env)? {
            Some(Answer::Items(values)) => match values.equals_any(alloc, value) {
                Ok(truth) => Ok(Some(truth)),
                Err(refused) => Err(refused),
            },
            Some(Answer::Is(_) | Answer::First(_)) | None => Ok(None),
        }
    }

    /// The item of the first row, if it is kept for the rows in scope; its text is its own.
    pub fn first<'b>(&self, alloc: Global, env: &Env) -> Result<Option<Datum<'b>>, AllocError>
        ensures { IfOk result (λ known. IfSome known (λ item. answer_for self.now (outer_values self.now.columns.items (env_of env.now)) ≡ Some (a.First (datum_value item)))) }
    {
        match self.answer(alloc, env)? {
            Some(Answer::First(value)) => match datum_of(value).to_own(alloc) {
                Ok(item) => Ok(Some(item)),
                Err(refused) => Err(refused),
            },
            Some(Answer::Is(_) | Answer::Items(_)) | None => Ok(None),
        }
    }

    /// Counts that it was asked.
    fn count(&mut self)
        ensures same { (relations : List SecuredRelation) (user : List ℕ) (s : State) (read_set : List Object) → IsCached relations user s read_set self.old → IsCached relations user s read_set self.new }
        ensures is_for { (from : ℕ) (asks : Asks) (q : Query) → IsFor self.old from asks q → IsFor self.new from asks q }
    {
        self.reuse.ask();
    }

    /// Whether none is looked for now, since they are seldom found.
    fn rests(&mut self) -> bool
        ensures { (relations : List SecuredRelation) (user : List ℕ) (s : State) (read_set : List Object) → IsCached relations user s read_set self.old → IsCached relations user s read_set self.new }
    {
        self.reuse.rests()
    }

    /// Keeps the answer for the rows in scope, where there is room.
    fn keep(&mut self, alloc: Global, env: &Env, answer: Answer) -> Result<(), AllocError>
        ensures { OnOk result ((relations : List SecuredRelation) (s : State) (read_set : List Object) → IsAnswerOf relations s read_set self.old (env_of env.now) answer → IsCached relations env.now.user.now s read_set self.old → IsCached relations env.now.user.now s read_set self.new) }
    {
        if self.takes(answer.size()) {
            return self.put(alloc, env, answer);
        }
        drop(answer);
        self.pass();
        Ok(())
    }

    /// Counts an answer that isn't kept.
    fn pass(&mut self)
        ensures { (relations : List SecuredRelation) (user : List ℕ) (s : State) (read_set : List Object) → IsCached relations user s read_set self.old → IsCached relations user s read_set self.new }
    {
        self.reuse.miss();
    }

    /// Whether an answer of so many values may be kept.
    fn takes(&self, size: usize) -> bool
        ensures { result ≡ true → self.now.is_kept ≡ true }
    {
        if !self.is_kept {
            return false;
        }
        self.answers.is_empty()
            || (self.answers.len() < MOST_ANSWERS && size <= MOST_VALUES.saturating_sub(self.size))
    }

    /// Keeps the answer for the rows in scope.
    fn put(&mut self, alloc: Global, env: &Env, answer: Answer) -> Result<(), AllocError>
        ensures { OnOk result (IsPut self.old self.new (outer_values self.old.columns.items (env_of env.now)) answer) }
    {
        match OuterValues::of(alloc, self.columns.as_slice(), env) {
            Ok(values) => {
                self.reuse.miss();
                self.size = self.size.saturating_add(answer.size());
                let _ = self.answers.insert(values, answer)?;
                Ok(())
            }
            Err(refused) => {
                drop(answer);
                Err(refused)
            }
        }
    }
}

/// Whether at the place no answer is looked for now.
pub fn rests_at(cached_subplans: &mut Vec<CachedSubplan>, place: usize) -> bool
    ensures { (relations : List SecuredRelation) (user : List ℕ) (s : State) (read_set : List Object) → AreCached relations user s read_set cached_subplans.old.items → AreCached relations user s read_set cached_subplans.new.items }
{
    if place >= cached_subplans.len() {
        return false;
    }
    let cached_subplan = &mut cached_subplans[place];
    cached_subplan.rests()
}

/// The place of what is kept of the subquery, which is made where there is none; it is sought at the place `next` first.
pub fn place_for(
    alloc: Global,
    cached_subplans: &mut Vec<CachedSubplan>,
    next: usize,
    from: usize,
    asks: Asks,
    query: &Subquery,
) -> Result<usize, AllocError>
    ensures found { IfOk result (λ place. FoundAt cached_subplans.new.items place from asks (query_of query.now)) }
    ensures cached { OnOk result ((relations : List SecuredRelation) (user : List ℕ) (s : State) (read_set : List Object) → AreCached relations user s read_set cached_subplans.old.items → AreCached relations user s read_set cached_subplans.new.items) }
{
    match place_of_subplan(&*cached_subplans, next, from, asks, query) {
        Some(place) => {
            let cached_subplan = &mut cached_subplans[place];
            cached_subplan.count();
            Ok(place)
        }
        None => {
            let made = CachedSubplan::new(alloc, from, asks, query)?;
            let place = cached_subplans.len();
            cached_subplans.push(made)?;
            Ok(place)
        }
    }
}

/// The place of what is kept of the subquery, if it is there; it is sought at the place `next` first.
fn place_of_subplan(
    cached_subplans: &[CachedSubplan],
    next: usize,
    from: usize,
    asks: Asks,
    query: &Subquery,
) -> Option<usize>
    ensures found { IfSome result (λ place. FoundAt cached_subplans.now place from asks (query_of query.now)) }
    ensures none { result ≡ None → NoneBelow cached_subplans.now (length cached_subplans.now) from asks (query_of query.now) }
{
    if next < cached_subplans.len() && is_for(&cached_subplans[next], from, asks, query) {
        return Some(next);
    }
    let mut place = 0;
    while place < cached_subplans.len() {
        if is_for(&cached_subplans[place], from, asks, query) {
            return Some(place);
        }
        place += 1;
    }
    None
}

fn is_for(cached_subplan: &CachedSubplan, from: usize, asks: Asks, query: &Subquery) -> bool
    ensures is { result ≡ true → IsFor cached_subplan.now from asks (query_of query.now) }
    ensures not { result ≡ false → IsFor cached_subplan.now from asks (query_of query.now) → ⊥ }
{
    cached_subplan.from == from
        && cached_subplan.asks == asks
        && is_same_query(&cached_subplan.query, query)
}

/// Keeps the answer for the rows in scope, if the subquery is still at the place.
pub fn keep_at(
    alloc: Global,
    cached_subplans: &mut Vec<CachedSubplan>,
    place: usize,
    from: usize,
    asks: Asks,
    query: &Subquery,
    env: &Env,
    answer: Answer,
) -> Result<(), AllocError>
    ensures { OnOk result ((relations : List SecuredRelation) (s : State) (read_set : List Object) → IsAnswer (shows (drop from relations) env.now.user.now) s read_set (query_of query.now) (env_of env.now) answer → AreCached relations env.now.user.now s read_set cached_subplans.old.items → AreCached relations env.now.user.now s read_set cached_subplans.new.items) }
{
    if place >= cached_subplans.len() {
        drop(answer);
        return Ok(());
    }
    if !is_for(&cached_subplans[place], from, asks, query) {
        drop(answer);
        return Ok(());
    }
    let cached_subplan = &mut cached_subplans[place];
    cached_subplan.keep(alloc, env, answer)
}
