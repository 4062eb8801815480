//! Explains a statement.

ghost use Rattle.std.specs.Prelude.{◌≡◌, Some, true, IfOk};
ghost use Rattle.rls_meaning.specs.rls_guard.specs.rls_catalog.specs.Verdict.{is_same_kind};
ghost use Rattle.rls_meaning.specs.Meaning.{effect_of};
ghost use Rattle.rls_explain.specs.Explaining as spec;
ghost use Rattle.rls_explain.specs.Found as found;

use crate::explanation::{Explained, Explanation, Wanted};
use crate::inserting::explain_insert;
use crate::judging::is_wanted;
use crate::scanning::{explain_delete, explain_select};
use crate::updating::explain_update;
use rls_meaning::rls_access::{Ctx, Decision, Effect, Outcome, run_statement};
use rls_meaning::rls_guard::rls_catalog::Catalog;
use rls_meaning::rls_guard::rls_source::StatementSource;
use rls_meaning::statement_means;
use rls_statement::Statement;
use rls_value::{Items, Kind, Name};
use std::alloc::{AllocError, Global};

/// What the statement comes to and, of those that are wanted, each decision with what policies say. The source is only read.
pub fn explain_row<'c, S: StatementSource<'c>>(
    alloc: Global,
    source: &mut S,
    ctx: &Ctx,
    statement: &Statement,
    wanted: Option<Wanted>,
) -> Result<Explanation, AllocError>
    ensures role { IfOk result (λ explanation. explanation.role ≡ ctx.now.role) }
    ensures effect { IfOk result (λ explanation. explanation.effect ≡ effect_of (S.state source.old) ctx.now statement.now) }
    ensures row { IfOk result (λ explanation. explanation.row ≡ spec.explained_in (S.state source.old) ctx.now statement.now wanted) }
    ensures state { S.state source.new ≡ S.state source.old }
{
    let effect = effect_in(alloc, source, ctx, statement)?;
    match role_and_row(alloc, source.catalog(), ctx, statement, wanted, &effect) {
        Ok((role, row)) => Ok(Explanation { role, effect, row }),
        Err(refused) => {
            drop(effect);
            Err(refused)
        }
    }
}

/// What the statement comes to.
fn effect_in<'c, S: StatementSource<'c>>(
    alloc: Global,
    source: &mut S,
    ctx: &Ctx,
    statement: &Statement,
) -> Result<Effect, AllocError>
    ensures effect { IfOk result (λ effect. effect ≡ effect_of (S.state source.old) ctx.now statement.now) }
    ensures state { S.state source.new ≡ S.state source.old }
{
    statement_means();
    let Outcome {
        effect,
        footprint,
        role,
    } = run_statement(alloc, source, ctx, statement)?;
    drop(footprint);
    drop(role);
    Ok(effect)
}

/// The role, and the decisions that are wanted.
fn role_and_row(
    alloc: Global,
    catalog: &Catalog,
    ctx: &Ctx,
    statement: &Statement,
    wanted: Option<Wanted>,
    effect: &Effect,
) -> Result<(Name, Items<Explained>), AllocError>
    requires { effect.now ≡ effect_of catalog.now ctx.now statement.now }
    ensures role { IfOk result (λ both. both.0 ≡ ctx.now.role) }
    ensures row { IfOk result (λ both. both.1 ≡ spec.explained_in catalog.now ctx.now statement.now wanted) }
{
    let explained = explained_in(alloc, catalog, ctx, statement, wanted, effect)?;
    match ctx.role.copy() {
        Ok(role) => Ok((role, explained)),
        Err(refused) => {
            drop(explained);
            Err(refused)
        }
    }
}

fn explained_in(
    alloc: Global,
    catalog: &Catalog,
    ctx: &Ctx,
    statement: &Statement,
    wanted: Option<Wanted>,
    effect: &Effect,
) -> Result<Items<Explained>, AllocError>
    requires { effect.now ≡ effect_of catalog.now ctx.now statement.now }
    ensures { IfOk result (λ explained. explained ≡ spec.explained_in catalog.now ctx.now statement.now wanted) }
{
    match wanted {
        Some(wanted) => {
            explain_own(alloc, catalog, ctx, statement, decisions_of(effect), wanted)
        }
        None => Ok(Items::new(alloc)),
    }
}

pub fn decisions_of(effect: &Effect) -> &[Decision]
    ensures { result.now ≡ spec.decisions_of effect.now }
{
    match effect {
        Effect::Done(_, decisions, _, _) => decisions.as_slice(),
        Effect::Refused(_, decisions) => decisions.as_slice(),
    }
}

/// Explains the decisions that are wanted, which are among these.
#[tactic(auto, using(crate::proofs::DecidedLemmas::undecided))]
fn explain_own(
    alloc: Global,
    catalog: &Catalog,
    ctx: &Ctx,
    statement: &Statement,
    decisions: &[Decision],
    wanted: Wanted,
) -> Result<Items<Explained>, AllocError>
    requires { decisions.now ≡ spec.decisions_of (effect_of catalog.now ctx.now statement.now) }
    ensures { IfOk result (λ explained. explained ≡ spec.explained_in catalog.now ctx.now statement.now (Some wanted)) }
{
    if is_decided(decisions, wanted) {
        explain_decided(alloc, catalog, ctx, statement, are_read(decisions), wanted)
    } else {
        Ok(Items::new(alloc))
    }
}

/// Whether one of the decisions is wanted.
fn is_decided(decisions: &[Decision], wanted: Wanted) -> bool
    ensures { result ≡ found.is_decided wanted decisions.now }
{
    decisions
        .iter()
        .any(|decision| is_wanted(wanted, decision.id))
}

/// Whether one of them is for SELECT: the command reads its table.
pub fn are_read(decisions: &[Decision]) -> bool
    ensures { result ≡ found.are_read decisions.now }
{
    decisions.iter().any(|decision| is_select(decision.kind))
}

fn is_select(kind: Kind) -> bool
    ensures { result ≡ is_same_kind kind Kind.Select }
{
    match kind {
        Kind::Select => true,
        Kind::Insert | Kind::Update | Kind::Delete => false,
    }
}

/// Explains a statement with such decisions.
#[tactic(auto, using(crate::proofs::DecidedLemmas::decides_on_none))]
fn explain_decided(
    alloc: Global,
    catalog: &Catalog,
    ctx: &Ctx,
    statement: &Statement,
    reads: bool,
    wanted: Wanted,
) -> Result<Items<Explained>, AllocError>
    requires decided { found.is_decided wanted (spec.decisions_of (effect_of catalog.now ctx.now statement.now)) ≡ true }
    requires reads { found.are_read (spec.decisions_of (effect_of catalog.now ctx.now statement.now)) ≡ reads }
    ensures { IfOk result (λ explained. explained ≡ spec.explained_in catalog.now ctx.now statement.now (Some wanted)) }
{
    match statement {
        Statement::Select(select) => explain_select(alloc, catalog, ctx, select, wanted),
        Statement::Insert(insert) => explain_insert(alloc, catalog, ctx, insert, reads, wanted),
        Statement::Update(update) => explain_update(alloc, catalog, ctx, update, reads, wanted),
        Statement::Delete(delete) => explain_delete(alloc, catalog, ctx, delete, reads, wanted),
        Statement::CreateRole(_)
        | Statement::AlterRole(_)
        | Statement::CreateTable(_)
        | Statement::AlterTable(_)
        | Statement::CreatePolicy(_)
        | Statement::AlterPolicy(_)
        | Statement::DropPolicy(_)
        | Statement::Grant(_)
        | Statement::GrantRoles(_)
        | Statement::Revoke(_)
        | Statement::RevokeRoles(_)
        | Statement::SetRole(_)
        | Statement::Transaction(_) => Ok(Items::new(alloc)),
    }
}
