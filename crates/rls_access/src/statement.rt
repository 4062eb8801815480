//! One statement.

ghost use Rattle.std.specs.Prelude.{◌≡◌, IfOk, OnOk, OnErr};
ghost use Rattle.rls_value.specs.Giving.{Gives};
ghost use Rattle.rls_guard.specs.rls_catalog.specs.State.{State, AgreesOn};
ghost use Rattle.rls_guard.specs.rls_source.specs.{Footprints.footprint_of, Answering.Answers, Answering.having_read};
ghost use Rattle.rls_access.specs.Statements as spec;
ghost use Rattle.rls_access.specs.Statements.{effect_in, step, mode_or_refused};

use crate::outcome::Outcome;
use rls_ddl::{
    run_alter_policy, run_alter_role, run_alter_table, run_create_policy, run_create_role,
    run_create_table, run_drop_policy, run_grant, run_grant_roles, run_revoke, run_revoke_roles,
    run_set_role,
};
use rls_dml::{run_delete, run_insert, run_select, run_update};
use rls_guard::rls_catalog::Catalog;
use rls_guard::rls_source::{Asker, Footprint, Reads, StatementSource};
use rls_guard::{Ctx, Effect, Mode};
use rls_statement::Statement;
use rls_value::{Name, Refusal, Tag, TxnState};
use std::alloc::{AllocError, Global};

/// Most statements read no more objects, so that their list needn't grow.
const USUAL_READS: usize = 24;

/// Runs the statement over the source: what it comes to, with its changes, which the source doesn't get; what it read;
/// and the role afterwards. All that it depends on is in the footprint, and a source that is borrowed has made just these
/// reads; where memory runs out it has made none.
pub fn run_statement<'c, S: StatementSource<'c>>(
    alloc: Global,
    source: &mut S,
    ctx: &Ctx,
    statement: &Statement,
) -> Result<Outcome, AllocError>
    ensures effect { IfOk result (λ outcome. outcome.effect ≡ effect_in (S.state source.old) ctx.now statement.now) }
    ensures footprint { IfOk result (λ outcome. outcome.footprint ≡ footprint_of ((step ctx.now statement.now).in_state (S.state source.old)).reads) }
    ensures frame { IfOk result (λ outcome. (other : State) → AgreesOn (S.state source.old) other outcome.footprint → (step ctx.now statement.now).in_state other ≡ (step ctx.now statement.now).in_state (S.state source.old)) }
    ensures role { IfOk result (λ outcome. outcome.role ≡ spec.role_after ctx.now.role outcome.effect) }
    ensures read { OnOk result (source.new ≡ S.after source.old ((step ctx.now statement.now).in_state (S.state source.old)).reads) }
    ensures unread { OnErr result (source.new ≡ source.old) }
    ensures state { S.state source.new ≡ S.state source.old }
{
    let outcome = outcome_of(alloc, source.catalog(), ctx, statement)?;
    source.mark_all(alloc, &outcome.footprint)?;
    Ok(outcome)
}

fn outcome_of(
    alloc: Global,
    catalog: &Catalog,
    ctx: &Ctx,
    statement: &Statement,
) -> Result<Outcome, AllocError>
    ensures effect { IfOk result (λ outcome. outcome.effect ≡ effect_in catalog.now ctx.now statement.now) }
    ensures footprint { IfOk result (λ outcome. outcome.footprint ≡ footprint_of ((step ctx.now statement.now).in_state catalog.now).reads) }
    ensures role { IfOk result (λ outcome. outcome.role ≡ spec.role_after ctx.now.role outcome.effect) }
{
    let mut asker = Asker::with_capacity(alloc, catalog, USUAL_READS)?;
    let effect = effect_of(&mut asker, ctx, statement)?;
    match seen_of(alloc, asker.into_reads(), &ctx.role, &effect) {
        Ok((footprint, role)) => Ok(Outcome {
            effect,
            footprint,
            role,
        }),
        Err(refused) => {
            drop(effect);
            Err(refused)
        }
    }
}

/// The footprint of the reads, and the role afterwards.
fn seen_of(
    alloc: Global,
    reads: Reads,
    role: &Name,
    effect: &Effect,
) -> Result<(Footprint, Name), AllocError>
    ensures footprint { IfOk result (λ seen. seen.0 ≡ footprint_of reads) }
    ensures role { IfOk result (λ seen. seen.1 ≡ spec.role_after role.now effect.now) }
{
    let footprint = Footprint::from_reads(alloc, reads)?;
    match role_after(role, effect) {
        Ok(role) => Ok((footprint, role)),
        Err(refused) => {
            drop(footprint);
            Err(refused)
        }
    }
}

fn role_after(role: &Name, effect: &Effect) -> Result<Name, AllocError>
    ensures { IfOk result (λ after. after ≡ spec.role_after role.now effect.now) }
{
    match effect {
        Effect::Done(_, _, _, Some(other)) => other.copy(),
        Effect::Done(_, _, _, None) | Effect::Refused(_, _) => role.copy(),
    }
}

/// What the statement comes to, a refusal as an effect.
fn effect_of(asker: &mut Asker, ctx: &Ctx, statement: &Statement) -> Result<Effect, AllocError>
    ensures effect { IfOk result (λ effect. effect ≡ effect_in asker.old.state ctx.now statement.now) }
    ensures noted { OnOk result (asker.new ≡ having_read asker.old ((step ctx.now statement.now).in_state asker.old.state).reads) }
{
    match run(asker, ctx, statement) {
        Ok(effect) => Ok(effect),
        Err(Refusal::NoMemory) => Err(AllocError),
        Err(refusal) => Ok(Effect::refused(asker.alloc(), refusal)),
    }
}

fn run(asker: &mut Asker, ctx: &Ctx, statement: &Statement) -> Result<Effect, Refusal>
    ensures { Answers (step ctx.now statement.now) asker.old asker.new result }
{
    require_mode(ctx.mode, statement.tag())?;
    done_by(asker, ctx, statement)
}

fn done_by(asker: &mut Asker, ctx: &Ctx, statement: &Statement) -> Result<Effect, Refusal>
    ensures { Answers (spec.done_by ctx.now statement.now) asker.old asker.new result }
{
    match statement {
        Statement::CreateRole(create) => run_create_role(asker, ctx, create),
        Statement::AlterRole(alter) => run_alter_role(asker, ctx, alter),
        Statement::CreateTable(create) => run_create_table(asker, ctx, create),
        Statement::AlterTable(alter) => run_alter_table(asker, ctx, alter),
        Statement::CreatePolicy(create) => run_create_policy(asker, ctx, create),
        Statement::AlterPolicy(alter) => run_alter_policy(asker, ctx, alter),
        Statement::DropPolicy(drop) => run_drop_policy(asker, ctx, drop),
        Statement::Grant(grant) => run_grant(asker, ctx, grant),
        Statement::GrantRoles(grant) => run_grant_roles(asker, ctx, grant),
        Statement::Revoke(revoke) => run_revoke(asker, ctx, revoke),
        Statement::RevokeRoles(revoke) => run_revoke_roles(asker, ctx, revoke),
        Statement::SetRole(set) => run_set_role(asker, ctx, set),
        Statement::Insert(insert) => run_insert(asker, ctx, insert),
        Statement::Update(update) => run_update(asker, ctx, update),
        Statement::Delete(delete) => run_delete(asker, ctx, delete),
        Statement::Select(select) => run_select(asker, ctx, select),
        Statement::Transaction(_) => Err(Refusal::TxnState(TxnState::AlreadyInProgress)),
    }
}

/// A transaction that only reads takes no command that writes.
fn require_mode(mode: Mode, tag: Tag) -> Result<(), Refusal>
    ensures { Gives result (mode_or_refused mode tag) }
{
    match (mode, tag) {
        (Mode::Write, _) | (Mode::Read, Tag::Select | Tag::Set | Tag::Reset) => Ok(()),
        (Mode::Read, Tag::Begin | Tag::Commit | Tag::Rollback) => Ok(()),
        (Mode::Read, tag) => Err(Refusal::TxnState(TxnState::ReadOnly(tag))),
    }
}
