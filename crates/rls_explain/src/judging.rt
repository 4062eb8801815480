//! Decisions on a row, each with what the policies say of the row that apply.

ghost use Rattle.std.specs.Prelude.{◌≡◌, ◌++◌, map, IfOk, OnOk};
ghost use Rattle.rls_value.specs.Values.{truth_in};
ghost use Rattle.rls_meaning.specs.rls_guard.specs.rls_catalog.specs.State as state;
ghost use Rattle.rls_meaning.specs.rls_guard.specs.rls_evaluation.specs.{Environments.over, Holding.Holds, Showing.shows};
ghost use Rattle.rls_explain.specs.Explaining as meant;
ghost use Rattle.rls_explain.specs.Found as spec;

use crate::explanation::{Explained, Said, Wanted};
use rls_expr::{Expr, Policy};
use rls_judging::CheckContext;
use rls_meaning::rls_guard::rls_catalog::{BorrowedRow, Catalog, Side, Verdict};
use rls_meaning::rls_guard::rls_evaluation::{
    Env, ExecutionState, Looked, Scoped, SecuredRelation, SecurityQuals, Tables, VisibleRelations,
    eval,
};
use rls_meaning::rls_guard::rls_policy::combine;
use rls_meaning::rls_guard::{Decision, Judgement, RowCheck};
use rls_value::{Items, Kind, Name, Reference, Row, RowId, Truth, or_drop};
use std::alloc::{AllocError, Global};
use std::cmp::Ordering;

/// Explains the decisions on the rows that are wanted, behind those that are there.
pub fn put_rows<'a, 'c>(
    alloc: Global,
    catalog: &'c Catalog,
    context: CheckContext<'a, 'c>,
    wanted: Wanted,
    rows: &[BorrowedRow<'c>],
    explained: &mut Vec<Explained>,
) -> Result<(), AllocError>
    ensures { OnOk result (explained.new.items ≡ explained.old.items ++ spec.rows_found catalog.now (shows context.entry.relations.now context.entry.role.now) context.entry.role.now context.entry.row_checks.now wanted rows.now) }
{
    for stored in rows {
        if is_wanted(wanted, stored.id()) {
            put_row(
                alloc,
                catalog,
                context,
                stored.id(),
                stored.row(),
                explained,
            )?;
        }
    }
    Ok(())
}

/// Explains the decisions on a row, behind those that are there.
pub fn put_row<'a, 'c>(
    alloc: Global,
    catalog: &'c Catalog,
    context: CheckContext<'a, 'c>,
    id: RowId,
    row: &Row,
    explained: &mut Vec<Explained>,
) -> Result<(), AllocError>
    ensures { OnOk result (explained.new.items ≡ explained.old.items ++ spec.explained_checks catalog.now (shows context.entry.relations.now context.entry.role.now) context.entry.role.now context.entry.row_checks.now id row.now) }
{
    for row_check in context.row_checks {
        let one = explain_check(
            alloc,
            catalog,
            context.relations,
            context.role,
            row_check,
            id,
            row,
        )?;
        explained.push(one)?;
    }
    Ok(())
}

/// Explains one of them.
fn explain_check<'c>(
    alloc: Global,
    catalog: &'c Catalog,
    relations: &[SecuredRelation<'c>],
    role: &Name,
    row_check: &RowCheck<'c>,
    id: RowId,
    row: &Row,
) -> Result<Explained, AllocError>
    ensures { IfOk result (λ one. one ≡ spec.explained_check catalog.now (shows relations.now role.now) role.now id row.now row_check.now) }
{
    let side = row_check.side;
    let kind = row_check.kind;
    match &row_check.quals {
        SecurityQuals::Exempt => Ok(Explained {
            decision: Decision {
                id,
                side,
                kind,
                verdict: Verdict::Exempt,
            },
            policies: Items::new(alloc),
            row: row.copy(alloc)?,
            details: None,
        }),
        SecurityQuals::Policies(conditions) => {
            let conditions = conditions.as_slice();
            let judgements = judgements_on(alloc, catalog, relations, role, row, conditions)?;
            let one = explain_by(alloc, id, row, side, kind, &judgements);
            drop(judgements);
            one
        }
    }
}

/// A decision by judgements, and these beside it.
fn explain_by(
    alloc: Global,
    id: RowId,
    row: &Row,
    side: Side,
    kind: Kind,
    judgements: &[Judgement<'_>],
) -> Result<Explained, AllocError>
    ensures { IfOk result (λ one. one ≡ spec.explained_by id row.now side kind judgements.now) }
{
    let row = row.copy(alloc)?;
    let policies = or_drop!(said_by_each(alloc, judgements), row);
    match combine(judgements) {
        Ok(verdict) => Ok(Explained {
            decision: Decision {
                id,
                side,
                kind,
                verdict,
            },
            policies,
            row,
            details: None,
        }),
        Err(refused) => {
            drop(row);
            drop(policies);
            Err(refused)
        }
    }
}

fn said_by_each(alloc: Global, judgements: &[Judgement<'_>]) -> Result<Items<Said>, AllocError>
    ensures { IfOk result (λ said. said ≡ map meant.said_as judgements.now) }
{
    let mut said = Vec::with_capacity(alloc, judgements.len())?;
    for judgement in judgements {
        said.push(said_by(judgement)?)?;
    }
    Ok(Items::from_vec(said))
}

fn said_by(judgement: &Judgement<'_>) -> Result<Said, AllocError>
    ensures { IfOk result (λ said. said ≡ meant.said_as judgement.now) }
{
    let (policy, truth) = judgement;
    let policy = policy.get();
    Ok(Said {
        policy: policy.name.copy()?,
        permissive: policy.permissive,
        kind: policy.kind,
        truth: *truth,
    })
}

/// Each policy, and what its condition says of the row.
fn judgements_on<'c>(
    alloc: Global,
    catalog: &'c Catalog,
    relations: &[SecuredRelation<'c>],
    role: &Name,
    row: &Row,
    conditions: &[(Reference<'c, Policy>, Expr)],
) -> Result<Vec<Judgement<'c>>, AllocError>
    ensures { IfOk result (λ judgements. judgements.items ≡ spec.judgements_found catalog.now (shows relations.now role.now) role.now row.now conditions.now) }
{
    let mut judgements = Vec::with_capacity(alloc, conditions.len())?;
    for condition in conditions {
        judgements.push(judgement_on(alloc, catalog, relations, role, row, condition)?)?;
    }
    Ok(judgements)
}

/// One of them.
fn judgement_on<'c>(
    alloc: Global,
    catalog: &'c Catalog,
    relations: &[SecuredRelation<'c>],
    role: &Name,
    row: &Row,
    condition: &(Reference<'c, Policy>, Expr),
) -> Result<Judgement<'c>, AllocError>
    ensures { IfOk result (λ judgement. judgement ≡ spec.judgement_found catalog.now (shows relations.now role.now) role.now row.now condition.now) }
{
    let (policy, condition) = condition;
    let truth = truth_on(alloc, catalog, relations, role, row, condition)?;
    Ok((Reference::new(policy.get()), truth))
}

/// What the condition says of the row, which alone is in scope.
pub fn truth_on<'a, 'c>(
    alloc: Global,
    catalog: &'c Catalog,
    relations: &'a [SecuredRelation<'c>],
    role: &'a Name,
    row: &'a Row,
    condition: &'a Expr,
) -> Result<Truth, AllocError>
    ensures { IfOk result (λ truth. truth ≡ truth_in (spec.value_found catalog.now (shows relations.now role.now) (over role.now row.now) condition.now)) }
{
    let mut execution = ExecutionState::new(alloc);
    let mut tables = Looked::new(catalog);
    let truth = truth_over(
        alloc,
        &mut tables,
        &mut execution,
        relations,
        role,
        row,
        condition,
    );
    drop(execution);
    truth
}

fn truth_over<'a, 'c, T: Tables>(
    alloc: Global,
    tables: &mut T,
    execution: &mut ExecutionState,
    relations: &'a [SecuredRelation<'c>],
    role: &'a Name,
    row: &'a Row,
    condition: &'a Expr,
) -> Result<Truth, AllocError>
    requires { Holds relations.now role.now (T.state tables.old) execution.old }
    ensures { IfOk result (λ truth. truth ≡ truth_in (spec.value_found (T.state tables.old) (shows relations.now role.now) (over role.now row.now) condition.now)) }
{
    let nothing = Scoped::Nothing;
    let env = Env {
        user: role,
        rows: Scoped::Over(row, &nothing),
    };
    let visible = VisibleRelations { relations, from: 0 };
    let datum = eval(alloc, tables, execution, visible, condition, &env)?;
    Ok(datum.truth())
}

/// Whether decisions on the row of that number are wanted.
pub fn is_wanted(wanted: Wanted, id: RowId) -> bool
    ensures { result ≡ meant.is_wanted wanted id }
{
    match wanted.row {
        Some(row) => is_same_id(row, id),
        None => true,
    }
}

fn is_same_id(id: RowId, other: RowId) -> bool
    ensures { result ≡ state.is_same_id id other }
{
    match id.cmp(&other) {
        Ordering::Equal => true,
        Ordering::Less | Ordering::Greater => false,
    }
}
