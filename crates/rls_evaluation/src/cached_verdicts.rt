//! What quals said of rows, kept by the values of the columns that they name.

ghost use Rattle.std.specs.Prelude.{◌≡◌, ℕ, List, Some, true, cond, IfOk, OnOk};
ghost use Rattle.std.specs.{BTreeMap.is_at, Cmp.Lexicographic.slice_cmp};
ghost use Rattle.std.specs.Option.{option_copied};
ghost use Rattle.rls_value.specs.{declared.object.Object.Object, declared.value.Value.Value as SqlValue, Values.listed};
ghost use Rattle.rls_verdict.specs.rls_catalog.specs.State.{State};
ghost use Rattle.rls_evaluation.specs.{declared.relation.SecurityQuals.SecurityQuals as Quals, declared.relation.SecuredRelation.SecuredRelation as Relation, CachedSubplans.IsKnown, CachedVerdicts.AreVerdicts, CachedVerdicts.verdict_for, Environments.over, Holding.Evaluates, Holding.Holds, OuterColumns.outer_values, Showing.shows};
ghost use Rattle.rls_evaluation.specs.Showing as spec;

use crate::evaluation::verdict_on;
use crate::execution_state::ExecutionState;
use crate::outer_columns::{OuterColumn, columns_of_quals, quals_name_only};
use crate::outer_values::OuterValues;
use crate::relation::{SecuredRelation, SecurityQuals, VisibleRelations};
use crate::reuse::Reuse;
use crate::scope::{Env, Scoped};
use crate::tables::Tables;
use rls_source::rls_catalog::rls_expr::has_query;
use rls_value::{Name, Row};
use rls_verdict::Judgement;
use rls_verdict::rls_catalog::Verdict;
use std::alloc::{AllocError, Global};
use std::collections::BTreeMap;

/// The most verdicts that are kept.
const MOST_VERDICTS: usize = 16384;

/// What quals said of rows, by the values of the columns that they name, and the buffer for what policies say, whose memory
/// serves all rows.
#[derive(Drop)]
pub struct CachedVerdicts<'c> {
    pub judgements: Vec<Judgement<'c>>,
    pub columns: Vec<OuterColumn>,
    pub verdicts: BTreeMap<OuterValues, Verdict>,
    pub reuse: Reuse,
    /// Whether verdicts are kept.
    pub is_kept: bool,
}

impl<'c> CachedVerdicts<'c> {
    /// None is kept.
    pub fn none(alloc: Global) -> CachedVerdicts<'c>
        ensures { (quals : Quals) (relations : List Relation) (user : List ℕ) (s : State) (read_set : List Object) → AreVerdicts quals relations user s read_set result }
    {
        CachedVerdicts {
            judgements: Vec::new(alloc),
            columns: Vec::new(alloc),
            verdicts: BTreeMap::new(alloc),
            reuse: Reuse::new(),
            is_kept: false,
        }
    }

    /// None yet. They are kept of several rows and where a condition has a subquery: any other is told faster than it is
    /// found.
    pub fn new(
        alloc: Global,
        quals: &SecurityQuals,
        rows: usize,
    ) -> Result<CachedVerdicts<'c>, AllocError>
        ensures { IfOk result (λ it. (relations : List Relation) (user : List ℕ) (s : State) (read_set : List Object) → AreVerdicts quals.now relations user s read_set it) }
    {
        if rows < 2 || !have_query(quals) {
            return Ok(CachedVerdicts::none(alloc));
        }
        let columns = columns_of_quals(alloc, quals)?;
        let is_kept = quals_name_only(columns.as_slice(), quals);
        Ok(CachedVerdicts {
            judgements: Vec::new(alloc),
            columns,
            verdicts: BTreeMap::new(alloc),
            reuse: Reuse::new(),
            is_kept,
        })
    }

    /// What the quals say of the row: as they said it of a row with the same values in the columns that they name, or asked
    /// and kept.
    pub fn verdict_on<'a, S: Tables>(
        &mut self,
        alloc: Global,
        source: &mut S,
        execution: &mut ExecutionState,
        relations: &'a [SecuredRelation<'c>],
        quals: &'a SecurityQuals<'c>,
        user: &'a Name,
        row: &'a Row,
    ) -> Result<Verdict, AllocError>
        requires holds { Holds relations.now user.now (S.state source.old) execution.old }
        requires kept { AreVerdicts quals.now relations.now user.now (S.state source.old) execution.old.read_set self.old }
        ensures tells { Evaluates (spec.verdict_on quals.now (shows relations.now user.now) user.now row.now) (S.state source.old) (S.state source.new) execution.old.read_set execution.new.read_set result }
        ensures holds { OnOk result (Holds relations.now user.now (S.state source.new) execution.new) }
        ensures kept { OnOk result (AreVerdicts quals.now relations.now user.now (S.state source.new) execution.new.read_set self.new) }
    {
        if !self.looks() {
            return self.asked(alloc, source, execution, relations, quals, user, row, false);
        }
        match self.found(alloc, user, row)? {
            Some(verdict) => Ok(verdict),
            None => self.asked(alloc, source, execution, relations, quals, user, row, true),
        }
    }

    /// What the quals say of the row, asked, and kept where that is wanted.
    fn asked<'a, S: Tables>(
        &mut self,
        alloc: Global,
        source: &mut S,
        execution: &mut ExecutionState,
        relations: &'a [SecuredRelation<'c>],
        quals: &'a SecurityQuals<'c>,
        user: &'a Name,
        row: &'a Row,
        is_kept: bool,
    ) -> Result<Verdict, AllocError>
        requires holds { Holds relations.now user.now (S.state source.old) execution.old }
        requires kept { AreVerdicts quals.now relations.now user.now (S.state source.old) execution.old.read_set self.old }
        ensures tells { Evaluates (spec.verdict_on quals.now (shows relations.now user.now) user.now row.now) (S.state source.old) (S.state source.new) execution.old.read_set execution.new.read_set result }
        ensures holds { OnOk result (Holds relations.now user.now (S.state source.new) execution.new) }
        ensures kept { OnOk result (AreVerdicts quals.now relations.now user.now (S.state source.new) execution.new.read_set self.new) }
    {
        let visible = VisibleRelations { relations, from: 0 };
        let verdict = verdict_on(
            alloc,
            source,
            execution,
            visible,
            &mut self.judgements,
            quals,
            user,
            row,
        )?;
        if !is_kept {
            return Ok(verdict);
        }
        match self.keep(alloc, user, row, &verdict) {
            Ok(()) => Ok(verdict),
            Err(refused) => {
                drop(verdict);
                Err(refused)
            }
        }
    }

    /// Whether a verdict is looked for: none is where they are seldom found.
    fn looks(&mut self) -> bool
        ensures { (quals : Quals) (relations : List Relation) (user : List ℕ) (s : State) (read_set : List Object) → AreVerdicts quals relations user s read_set self.old → AreVerdicts quals relations user s read_set self.new }
    {
        if !self.is_kept {
            return false;
        }
        if self.reuse.rests() {
            return false;
        }
        self.reuse.ask();
        true
    }

    /// The verdict that is kept for the row's values.
    fn found<'a>(
        &self,
        alloc: Global,
        user: &'a Name,
        row: &'a Row,
    ) -> Result<Option<Verdict>, AllocError>
        ensures { IfOk result (λ found. found ≡ verdict_for self.now (outer_values self.now.columns.items (over user.now row.now))) }
    {
        let values = values_of(alloc, self.columns.as_slice(), user, row)?;
        let kept = self.verdicts.get(&values);
        let found = copied(kept);
        drop(values);
        found
    }

    /// Keeps the verdict for the row's values, where there is room.
    fn keep<'a>(
        &mut self,
        alloc: Global,
        user: &'a Name,
        row: &'a Row,
        verdict: &Verdict,
    ) -> Result<(), AllocError>
        ensures { OnOk result ((quals : Quals) (relations : List Relation) (s : State) (read_set : List Object) → IsKnown (spec.verdict_on quals (shows relations user.now) user.now row.now) s read_set verdict.now → AreVerdicts quals relations user.now s read_set self.old → AreVerdicts quals relations user.now s read_set self.new) }
    {
        self.reuse.miss();
        if !self.takes() {
            return Ok(());
        }
        let copy = verdict.copy()?;
        self.put(alloc, user, row, copy)
    }

    /// Whether there is room for one verdict more.
    fn takes(&self) -> bool
        ensures { result ≡ true → self.now.is_kept ≡ true }
    {
        self.is_kept && self.verdicts.len() < MOST_VERDICTS
    }

    /// Keeps the verdict for the row's values.
    fn put<'a>(
        &mut self,
        alloc: Global,
        user: &'a Name,
        row: &'a Row,
        verdict: Verdict,
    ) -> Result<(), AllocError>
        ensures kept { self.new.is_kept ≡ self.old.is_kept }
        ensures columns { self.new.columns.items ≡ self.old.columns.items }
        ensures put { OnOk result ((values : List SqlValue) → verdict_for self.new values ≡ cond (is_at (slice_cmp listed (outer_values self.old.columns.items (over user.now row.now))) values) (Some verdict) (verdict_for self.old values)) }
    {
        match values_of(alloc, self.columns.as_slice(), user, row) {
            Ok(values) => {
                let _ = self.verdicts.insert(values, verdict)?;
                Ok(())
            }
            Err(refused) => {
                drop(verdict);
                Err(refused)
            }
        }
    }
}

/// Whether a condition has a subquery.
fn have_query(quals: &SecurityQuals) -> bool {
    match quals {
        SecurityQuals::Exempt => false,
        SecurityQuals::Policies(conditions) => {
            for (_, condition) in conditions.as_slice() {
                if has_query(condition) {
                    return true;
                }
            }
            false
        }
    }
}

/// The row's values in these columns.
fn values_of<'a>(
    alloc: Global,
    columns: &[OuterColumn],
    user: &'a Name,
    row: &'a Row,
) -> Result<OuterValues, AllocError>
    ensures { IfOk result (λ values. values ≡ outer_values columns.now (over user.now row.now)) }
{
    let nothing = Scoped::Nothing;
    let env = Env {
        user,
        rows: Scoped::Over(row, &nothing),
    };
    OuterValues::of(alloc, columns, &env)
}

fn copied(verdict: Option<&Verdict>) -> Result<Option<Verdict>, AllocError>
    ensures { IfOk result (λ it. it ≡ option_copied verdict.entry) }
{
    match verdict {
        Some(verdict) => Ok(Some(verdict.copy()?)),
        None => Ok(None),
    }
}
