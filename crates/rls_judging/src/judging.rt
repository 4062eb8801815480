//! What row security says of rows, and the qualifying rows of a statement.

ghost use Rattle.std.specs.Prelude.{◌≡◌, ℕ, List, [], ◌∷◌, ◌++◌, ◌&&◌, IfOk, IsTrue, OnOk};
ghost use Rattle.rls_value.specs.declared.object.Object.{Object};
ghost use Rattle.rls_guard.specs.rls_catalog.specs.State.{State};
ghost use Rattle.rls_guard.specs.rls_catalog.specs.rls_expr.specs.Terms.{maybe_term};
ghost use Rattle.rls_evaluation.specs.rls_source.specs.{Answering.Tells as Reading, Askings.followed_by, Askings.known};
ghost use Rattle.rls_evaluation.specs.{declared.relation.SecuredRelation.SecuredRelation as Relation, CachedVerdicts.AreVerdicts, Holding.Holds, Holding.Evaluates, Showing.shows};
ghost use Rattle.rls_judging.specs.Handed.{allowing, behind, beside, items_now, judged_now, rows_borrowed};
ghost use Rattle.rls_judging.specs.Alike.{AreAlike, first_quals};
ghost use Rattle.rls_judging.specs.Judging as spec;

use crate::alike::{are_alike, put_both, put_last};
use crate::check_context::{CheckContext, note_all};
use rls_evaluation::rls_source::Asker;
use rls_evaluation::{
    CachedVerdicts, Env, ExecutionState, Looked, Scoped, SecurityQuals, Tables, VisibleRelations,
    allows, meets_condition, verdict_on,
};
use rls_guard::rls_catalog::rls_expr::Expr;
use rls_guard::rls_catalog::{BorrowedRow, Stored};
use rls_guard::{Decision, Judgement, RowCheck};
use rls_value::{Row, RowId, or_drop};
use std::alloc::{AllocError, Global};

/// Judges each scanned row as it stands, and gives the decisions and those that are allowed and meet the condition. The
/// decisions have room for so many more on each.
pub fn qualifying_rows_of<'a, 'c>(
    asker: &mut Asker<'c>,
    check_context: CheckContext<'a, 'c>,
    condition: &'a Option<Expr>,
    scanned_rows: &'a [BorrowedRow<'c>],
    further: usize,
) -> Result<(Vec<Decision>, Vec<&'a BorrowedRow<'c>>), AllocError>
    ensures { Reading (spec.qualifying_rows_of check_context.entry.row_checks.now check_context.entry.relations.now check_context.entry.role.now condition.now scanned_rows.now) asker.old asker.new (judged_now result) }
{
    let mut execution = ExecutionState::new(asker.alloc());
    let mut tables = Looked::new(asker.catalog());
    let found = judge_all(
        asker.alloc(),
        &mut tables,
        &mut execution,
        check_context,
        condition,
        scanned_rows,
        further,
    )?;
    or_drop!(note_all(asker, execution), found);
    Ok(found)
}

/// Judges each new row.
pub fn judged<'a, 'c>(
    asker: &mut Asker<'c>,
    check_context: CheckContext<'a, 'c>,
    rows: &'a [Stored],
) -> Result<Vec<Decision>, AllocError>
    ensures { Reading (spec.decisions_of check_context.entry.row_checks.now check_context.entry.relations.now check_context.entry.role.now rows.now) asker.old asker.new (items_now result) }
{
    let mut execution = ExecutionState::new(asker.alloc());
    let mut tables = Looked::new(asker.catalog());
    let decisions = judge_new(
        asker.alloc(),
        &mut tables,
        &mut execution,
        check_context,
        rows,
    )?;
    or_drop!(note_all(asker, execution), decisions);
    Ok(decisions)
}

/// Judges each scanned row.
fn judge_all<'a, 'c, T: Tables>(
    alloc: Global,
    tables: &mut T,
    execution: &mut ExecutionState,
    check_context: CheckContext<'a, 'c>,
    condition: &'a Option<Expr>,
    scanned_rows: &'a [BorrowedRow<'c>],
    further: usize,
) -> Result<(Vec<Decision>, Vec<&'a BorrowedRow<'c>>), AllocError>
    requires { Holds check_context.relations.now check_context.role.now (T.state tables.old) execution.old }
    ensures { Evaluates (spec.judged_all check_context.entry.row_checks.now check_context.entry.relations.now check_context.entry.role.now condition.now scanned_rows.now) (T.state tables.old) (T.state tables.new) execution.old.read_set execution.new.read_set (judged_now result) }
{
    let alike = !scanned_rows.is_empty() && are_alike(check_context.row_checks);
    execution.next = first_place(
        execution.next,
        scanned_rows.len(),
        check_context.row_checks,
        alike,
    );
    let mut verdicts = verdicts_for(alloc, check_context.row_checks, alike, scanned_rows.len())?;
    let each = check_context.row_checks.len().saturating_add(further);
    let most = scanned_rows.len().saturating_mul(each);
    let mut decisions = Vec::with_capacity(alloc, most)?;
    let mut qualifying_rows = Vec::with_capacity(alloc, scanned_rows.len())?;
    for stored in scanned_rows {
        let is = judge_old(
            alloc,
            tables,
            execution,
            &mut verdicts,
            &mut decisions,
            check_context,
            alike,
            condition,
            stored,
        )?;
        push_if(&mut qualifying_rows, is, stored)?;
    }
    drop(verdicts);
    Ok((decisions, qualifying_rows))
}

/// Where an answer of a subquery is sought first: where one condition is asked of one row, the first isn't kept, since it
/// won't be sought again.
fn first_place(next: usize, rows: usize, row_checks: &[RowCheck], alike: bool) -> usize {
    if rows == 1 && is_asked_once(row_checks, alike) {
        usize::MAX
    } else {
        next
    }
}

/// Whether one condition is asked of a row.
fn is_asked_once(row_checks: &[RowCheck], alike: bool) -> bool {
    match row_checks {
        [first] => has_one(&first.quals),
        [first, _] => alike && has_one(&first.quals),
        _ => false,
    }
}

fn has_one(quals: &SecurityQuals) -> bool {
    match quals {
        SecurityQuals::Policies(conditions) => conditions.as_slice().len() == 1,
        SecurityQuals::Exempt => false,
    }
}

/// What is kept of what the quals say, where they are asked once a row.
fn verdicts_for<'c>(
    alloc: Global,
    row_checks: &[RowCheck],
    alike: bool,
    rows: usize,
) -> Result<CachedVerdicts<'c>, AllocError>
    ensures { IfOk result (λ it. (relations : List Relation) (user : List ℕ) (s : State) (read_set : List Object) → AreVerdicts (first_quals row_checks.now) relations user s read_set it) }
{
    match row_checks {
        [only] => CachedVerdicts::new(alloc, &only.quals, rows),
        [first, _] if alike => CachedVerdicts::new(alloc, &first.quals, rows),
        _ => Ok(CachedVerdicts::none(alloc)),
    }
}

/// The row behind the others, if it qualifies.
fn push_if<'a, 'c>(
    qualifying_rows: &mut Vec<&'a BorrowedRow<'c>>,
    is: bool,
    stored: &'a BorrowedRow<'c>,
) -> Result<(), AllocError>
    ensures { OnOk result (rows_borrowed qualifying_rows.new ≡ rows_borrowed qualifying_rows.old ++ spec.row_if_qualifying is stored.now) }
{
    if is {
        qualifying_rows.push(stored)?;
    }
    Ok(())
}

/// Judges a row as it stands; whether it is allowed and meets the condition.
fn judge_old<'a, 'c, T: Tables>(
    alloc: Global,
    tables: &mut T,
    execution: &mut ExecutionState,
    verdicts: &mut CachedVerdicts<'c>,
    decisions: &mut Vec<Decision>,
    check_context: CheckContext<'a, 'c>,
    alike: bool,
    condition: &'a Option<Expr>,
    stored: &'a BorrowedRow<'c>,
) -> Result<bool, AllocError>
    requires holds { Holds check_context.relations.now check_context.role.now (T.state tables.old) execution.old }
    requires kept { AreVerdicts (first_quals check_context.row_checks.now) check_context.relations.now check_context.role.now (T.state tables.old) execution.old.read_set verdicts.old }
    requires alike { IsTrue alike → AreAlike check_context.row_checks.now }
    ensures tells { Evaluates (followed_by (spec.judged_old check_context.entry.row_checks.now (maybe_term condition.now) (shows check_context.entry.relations.now check_context.entry.role.now) check_context.entry.role.now stored.now) (λ judged. known (Ok (behind decisions.old.items judged)))) (T.state tables.old) (T.state tables.new) execution.old.read_set execution.new.read_set (beside decisions.new.items result) }
    ensures holds { OnOk result (Holds check_context.entry.relations.now check_context.entry.role.now (T.state tables.new) execution.new) }
    ensures kept { OnOk result (AreVerdicts (first_quals check_context.entry.row_checks.now) check_context.entry.relations.now check_context.entry.role.now (T.state tables.new) execution.new.read_set verdicts.new) }
{
    let row = stored.row();
    let allowed = judge(
        alloc,
        tables,
        execution,
        verdicts,
        decisions,
        check_context,
        alike,
        stored.id(),
        row,
    )?;
    qualifies(
        alloc,
        tables,
        execution,
        check_context,
        condition,
        allowed,
        row,
    )
}

/// Whether an allowed row meets the condition.
fn qualifies<'a, 'c, T: Tables>(
    alloc: Global,
    tables: &mut T,
    execution: &mut ExecutionState,
    check_context: CheckContext<'a, 'c>,
    condition: &'a Option<Expr>,
    allowed: bool,
    row: &'a Row,
) -> Result<bool, AllocError>
    requires { Holds check_context.relations.now check_context.role.now (T.state tables.old) execution.old }
    ensures tells { Evaluates (spec.qualifies_if allowed (maybe_term condition.now) (shows check_context.entry.relations.now check_context.entry.role.now) check_context.entry.role.now row.now) (T.state tables.old) (T.state tables.new) execution.old.read_set execution.new.read_set result }
    ensures holds { OnOk result (Holds check_context.entry.relations.now check_context.entry.role.now (T.state tables.new) execution.new) }
{
    if !allowed {
        return Ok(false);
    }
    let nothing = Scoped::Nothing;
    let env = Env {
        user: check_context.role,
        rows: Scoped::Over(row, &nothing),
    };
    let visible = VisibleRelations {
        relations: check_context.relations,
        from: 0,
    };
    meets_condition(alloc, tables, execution, visible, condition, &env)
}

/// What row security says of the row for each type of command, put behind the decisions; whether all of them allow it.
/// Row checks that are alike are told one verdict.
fn judge<'a, 'c, T: Tables>(
    alloc: Global,
    tables: &mut T,
    execution: &mut ExecutionState,
    verdicts: &mut CachedVerdicts<'c>,
    decisions: &mut Vec<Decision>,
    check_context: CheckContext<'a, 'c>,
    alike: bool,
    id: RowId,
    row: &'a Row,
) -> Result<bool, AllocError>
    requires holds { Holds check_context.relations.now check_context.role.now (T.state tables.old) execution.old }
    requires kept { AreVerdicts (first_quals check_context.row_checks.now) check_context.relations.now check_context.role.now (T.state tables.old) execution.old.read_set verdicts.old }
    requires alike { IsTrue alike → AreAlike check_context.row_checks.now }
    ensures tells { Evaluates (followed_by (spec.decisions_on check_context.entry.row_checks.now (shows check_context.entry.relations.now check_context.entry.role.now) check_context.entry.role.now id row.now) (λ said. known (Ok (allowing decisions.old.items said)))) (T.state tables.old) (T.state tables.new) execution.old.read_set execution.new.read_set (beside decisions.new.items result) }
    ensures holds { OnOk result (Holds check_context.entry.relations.now check_context.entry.role.now (T.state tables.new) execution.new) }
    ensures kept { OnOk result (AreVerdicts (first_quals check_context.entry.row_checks.now) check_context.entry.relations.now check_context.entry.role.now (T.state tables.new) execution.new.read_set verdicts.new) }
{
    match check_context.row_checks {
        [only] => judge_one(
            alloc,
            tables,
            execution,
            verdicts,
            decisions,
            check_context,
            only,
            id,
            row,
        ),
        [first, second] if alike => judge_both(
            alloc,
            tables,
            execution,
            verdicts,
            decisions,
            check_context,
            first,
            second,
            id,
            row,
        ),
        _ => judge_each(
            alloc,
            tables,
            execution,
            &mut verdicts.judgements,
            decisions,
            check_context,
            id,
            row,
        ),
    }
}

/// The same for one row check.
fn judge_one<'a, 'c, T: Tables>(
    alloc: Global,
    tables: &mut T,
    execution: &mut ExecutionState,
    verdicts: &mut CachedVerdicts<'c>,
    decisions: &mut Vec<Decision>,
    check_context: CheckContext<'a, 'c>,
    only: &'a RowCheck<'c>,
    id: RowId,
    row: &'a Row,
) -> Result<bool, AllocError>
    requires holds { Holds check_context.relations.now check_context.role.now (T.state tables.old) execution.old }
    requires kept { AreVerdicts only.now.quals check_context.relations.now check_context.role.now (T.state tables.old) execution.old.read_set verdicts.old }
    ensures tells { Evaluates (followed_by (spec.decisions_on (only.now ∷ []) (shows check_context.entry.relations.now check_context.entry.role.now) check_context.entry.role.now id row.now) (λ said. known (Ok (allowing decisions.old.items said)))) (T.state tables.old) (T.state tables.new) execution.old.read_set execution.new.read_set (beside decisions.new.items result) }
    ensures holds { OnOk result (Holds check_context.entry.relations.now check_context.entry.role.now (T.state tables.new) execution.new) }
    ensures kept { OnOk result (AreVerdicts only.now.quals check_context.entry.relations.now check_context.entry.role.now (T.state tables.new) execution.new.read_set verdicts.new) }
{
    let verdict = verdicts.verdict_on(
        alloc,
        tables,
        execution,
        check_context.relations,
        &only.quals,
        check_context.role,
        row,
    )?;
    let allowed = allows(&verdict);
    put_last(decisions, only, id, verdict)?;
    Ok(allowed)
}

/// The same for two row checks that are alike: the quals are asked once.
fn judge_both<'a, 'c, T: Tables>(
    alloc: Global,
    tables: &mut T,
    execution: &mut ExecutionState,
    verdicts: &mut CachedVerdicts<'c>,
    decisions: &mut Vec<Decision>,
    check_context: CheckContext<'a, 'c>,
    first: &'a RowCheck<'c>,
    second: &RowCheck<'c>,
    id: RowId,
    row: &'a Row,
) -> Result<bool, AllocError>
    requires holds { Holds check_context.relations.now check_context.role.now (T.state tables.old) execution.old }
    requires kept { AreVerdicts first.now.quals check_context.relations.now check_context.role.now (T.state tables.old) execution.old.read_set verdicts.old }
    requires alike { second.now.quals ≡ first.now.quals }
    ensures tells { Evaluates (followed_by (spec.decisions_on (first.now ∷ second.now ∷ []) (shows check_context.entry.relations.now check_context.entry.role.now) check_context.entry.role.now id row.now) (λ said. known (Ok (allowing decisions.old.items said)))) (T.state tables.old) (T.state tables.new) execution.old.read_set execution.new.read_set (beside decisions.new.items result) }
    ensures holds { OnOk result (Holds check_context.entry.relations.now check_context.entry.role.now (T.state tables.new) execution.new) }
    ensures kept { OnOk result (AreVerdicts first.now.quals check_context.entry.relations.now check_context.entry.role.now (T.state tables.new) execution.new.read_set verdicts.new) }
{
    let verdict = verdicts.verdict_on(
        alloc,
        tables,
        execution,
        check_context.relations,
        &first.quals,
        check_context.role,
        row,
    )?;
    let allowed = allows(&verdict);
    put_both(decisions, first, second, id, verdict)?;
    Ok(allowed)
}

/// The same for whatever row checks: each is asked.
fn judge_each<'a, 'c, T: Tables>(
    alloc: Global,
    tables: &mut T,
    execution: &mut ExecutionState,
    judgements: &mut Vec<Judgement<'c>>,
    decisions: &mut Vec<Decision>,
    check_context: CheckContext<'a, 'c>,
    id: RowId,
    row: &'a Row,
) -> Result<bool, AllocError>
    requires { Holds check_context.relations.now check_context.role.now (T.state tables.old) execution.old }
    ensures tells { Evaluates (followed_by (spec.decisions_on check_context.entry.row_checks.now (shows check_context.entry.relations.now check_context.entry.role.now) check_context.entry.role.now id row.now) (λ said. known (Ok (allowing decisions.old.items said)))) (T.state tables.old) (T.state tables.new) execution.old.read_set execution.new.read_set (beside decisions.new.items result) }
    ensures holds { OnOk result (Holds check_context.entry.relations.now check_context.entry.role.now (T.state tables.new) execution.new) }
{
    let visible = VisibleRelations {
        relations: check_context.relations,
        from: 0,
    };
    let mut allowed = true;
    for row_check in check_context.row_checks {
        let verdict = verdict_on(
            alloc,
            tables,
            execution,
            visible,
            judgements,
            &row_check.quals,
            check_context.role,
            row,
        )?;
        allowed = both(allowed, allows(&verdict));
        decisions.push(Decision {
            id,
            side: row_check.side,
            kind: row_check.kind,
            verdict,
        })?;
    }
    Ok(allowed)
}

fn both(one: bool, other: bool) -> bool
    ensures { result ≡ (one && other) }
{
    one && other
}

/// Judges each new row.
fn judge_new<'a, 'c, T: Tables>(
    alloc: Global,
    tables: &mut T,
    execution: &mut ExecutionState,
    check_context: CheckContext<'a, 'c>,
    rows: &'a [Stored],
) -> Result<Vec<Decision>, AllocError>
    requires { Holds check_context.relations.now check_context.role.now (T.state tables.old) execution.old }
    ensures { Evaluates (spec.judged_new check_context.entry.row_checks.now check_context.entry.relations.now check_context.entry.role.now rows.now) (T.state tables.old) (T.state tables.new) execution.old.read_set execution.new.read_set (items_now result) }
{
    let alike = !rows.is_empty() && are_alike(check_context.row_checks);
    execution.next = first_place(execution.next, rows.len(), check_context.row_checks, alike);
    let mut verdicts = verdicts_for(alloc, check_context.row_checks, alike, rows.len())?;
    let most = rows.len().saturating_mul(check_context.row_checks.len());
    let mut decisions = Vec::with_capacity(alloc, most)?;
    for stored in rows {
        judge(
            alloc,
            tables,
            execution,
            &mut verdicts,
            &mut decisions,
            check_context,
            alike,
            stored.id,
            &stored.row,
        )?;
    }
    drop(verdicts);
    Ok(decisions)
}
