//! A transaction that runs alone.

ghost use Rattle.std.specs.Prelude.{◌≡◌, ◌+◌, ◌++◌, [], IfOk, OnOk, IfSome};
ghost use Rattle.rls_audit.specs.Lines.{in_object_order, ordered_changes};
ghost use Rattle.rls_catalog.specs.Changed.{changed_all};
ghost use Rattle.rls_explain.specs.rls_meaning.specs.rls_guard.specs.Effects.{changes_of};
ghost use Rattle.rls_audit.specs.rls_access.specs.Statements.{role_after};
ghost use Rattle.rls_audit.specs.rls_access.specs.Transactions.{first_ctx, ctx_after};
ghost use Rattle.rls_explain.specs.rls_meaning.specs.Meaning.{effect_of};

use rls_audit::rls_access::{Ctx, Effect, Outcome, run_statement};
use rls_audit::rls_core::Begin;
use rls_audit::rls_rows::State;
use rls_audit::{are_in_order, in_order};
use rls_catalog::{Change, Delta};
use rls_explain::rls_meaning::statement_means;
use rls_statement::Statement;
use std::alloc::{AllocError, Global};

/// A transaction that runs alone: the state that it sees, what its next statement is run in, its changes so far, and the same,
/// those of each statement in the order of objects.
#[derive(Drop)]
pub(crate) struct Alone {
    pub(crate) state: State,
    pub(crate) ctx: Ctx,
    pub(crate) changes: Delta,
    pub(crate) ordered: Delta,
}

impl Alone {
    /// It begins in the state.
    pub(crate) fn begin(
        alloc: Global,
        state: &State,
        txn: u64,
        begin: &Begin,
    ) -> Result<Alone, AllocError>
        ensures state { IfOk result (λ alone. alone.state ≡ state.now) }
        ensures ctx { IfOk result (λ alone. alone.ctx ≡ first_ctx txn begin.now) }
        ensures changes { IfOk result (λ alone. alone.changes ≡ []) }
        ensures ordered { IfOk result (λ alone. alone.ordered ≡ []) }
    {
        let ctx = first_ctx(txn, begin)?;
        match state.copy() {
            Ok(state) => Ok(Alone {
                state,
                ctx,
                changes: Delta::new(alloc),
                ordered: Delta::new(alloc),
            }),
            Err(refused) => {
                drop(ctx);
                Err(refused)
            }
        }
    }

    /// What the statement comes to.
    pub(crate) fn run(&self, alloc: Global, statement: &Statement) -> Result<Outcome, AllocError>
        ensures effect { IfOk result (λ outcome. outcome.effect ≡ effect_of self.now.state self.now.ctx statement.now) }
        ensures role { IfOk result (λ outcome. outcome.role ≡ role_after self.now.ctx.role outcome.effect) }
    {
        statement_means();
        let mut source = self.state.view();
        run_statement(alloc, &mut source, &self.ctx, statement)
    }

    /// It goes on behind the statement that comes to this.
    pub(crate) fn go_on(&mut self, alloc: Global, outcome: &Outcome) -> Result<(), AllocError>
        requires { outcome.now.role ≡ role_after self.old.ctx.role outcome.now.effect }
        ensures state { OnOk result (self.new.state ≡ changed_all self.old.state (changes_of outcome.now.effect)) }
        ensures ctx { OnOk result (self.new.ctx ≡ ctx_after self.old.ctx outcome.now.effect) }
        ensures changes { OnOk result (self.new.changes ≡ self.old.changes ++ changes_of outcome.now.effect) }
        ensures ordered { OnOk result (self.new.ordered ≡ self.old.ordered ++ ordered_changes outcome.now.effect) }
    {
        push_changes(alloc, &mut self.changes, &outcome.effect)?;
        push_ordered(alloc, &mut self.ordered, &outcome.effect)?;
        self.move_on(alloc, outcome)
    }

    /// It sees the changes of the statement.
    fn move_on(&mut self, alloc: Global, outcome: &Outcome) -> Result<(), AllocError>
        requires { outcome.now.role ≡ role_after self.old.ctx.role outcome.now.effect }
        ensures state { OnOk result (self.new.state ≡ changed_all self.old.state (changes_of outcome.now.effect)) }
        ensures ctx { OnOk result (self.new.ctx ≡ ctx_after self.old.ctx outcome.now.effect) }
        ensures changes { OnOk result (self.new.changes ≡ self.old.changes) }
        ensures ordered { OnOk result (self.new.ordered ≡ self.old.ordered) }
    {
        let ctx = ctx_after(&self.ctx, outcome)?;
        match state_after(alloc, &self.state, &outcome.effect) {
            Ok(state) => {
                self.ctx = ctx;
                self.state = state;
                Ok(())
            }
            Err(refused) => {
                drop(ctx);
                Err(refused)
            }
        }
    }
}

/// What the first statement is run in.
pub(crate) fn first_ctx(txn: u64, begin: &Begin) -> Result<Ctx, AllocError>
    ensures { IfOk result (λ ctx. ctx ≡ first_ctx txn begin.now) }
{
    let login = begin.login.copy()?;
    match begin.role.copy() {
        Ok(role) => Ok(Ctx {
            txn,
            login,
            role,
            mode: begin.mode,
            next: 0,
        }),
        Err(refused) => {
            drop(login);
            Err(refused)
        }
    }
}

/// What the next statement is run in after this outcome.
pub(crate) fn ctx_after(ctx: &Ctx, outcome: &Outcome) -> Result<Ctx, AllocError>
    requires { outcome.now.role ≡ role_after ctx.now.role outcome.now.effect }
    ensures { IfOk result (λ after. after ≡ ctx_after ctx.now outcome.now.effect) }
{
    let Some(next) = next_row(ctx.next, outcome.new_rows()) else {
        return Err(AllocError);
    };
    let login = ctx.login.copy()?;
    match outcome.role.copy() {
        Ok(role) => Ok(Ctx {
            txn: ctx.txn,
            login,
            role,
            mode: ctx.mode,
            next,
        }),
        Err(refused) => {
            drop(login);
            Err(refused)
        }
    }
}

// No statement comes to so many rows: it is refused.
fn next_row(next: u32, rows: usize) -> Option<u32>
    ensures { IfSome result (λ after. after ≡ next + rows) }
{
    if rows > u32::MAX as usize {
        return None;
    }
    next.checked_add(rows as u32)
}

/// The state with the changes of the effect on.
pub(crate) fn state_after(
    alloc: Global,
    state: &State,
    effect: &Effect,
) -> Result<State, AllocError>
    ensures { IfOk result (λ after. after ≡ changed_all state.now (changes_of effect.now)) }
{
    match effect {
        Effect::Done(_, _, delta, _) => state.with(alloc, delta),
        Effect::Refused(_, _) => state.copy(),
    }
}

/// The changes of the effect behind those before.
pub(crate) fn push_changes(
    alloc: Global,
    changes: &mut Delta,
    effect: &Effect,
) -> Result<(), AllocError>
    ensures { OnOk result (changes.new ≡ changes.old ++ changes_of effect.now) }
{
    match effect {
        Effect::Done(_, _, delta, _) => push_all(alloc, changes, delta.as_slice()),
        Effect::Refused(_, _) => Ok(()),
    }
}

/// The same in the order of objects.
fn push_ordered(alloc: Global, ordered: &mut Delta, effect: &Effect) -> Result<(), AllocError>
    ensures { OnOk result (ordered.new ≡ ordered.old ++ ordered_changes effect.now) }
{
    match effect {
        Effect::Done(_, _, delta, _) => push_in_order(alloc, ordered, delta.as_slice()),
        Effect::Refused(_, _) => Ok(()),
    }
}

fn push_in_order(alloc: Global, ordered: &mut Delta, changes: &[Change]) -> Result<(), AllocError>
    ensures { OnOk result (ordered.new ≡ ordered.old ++ in_object_order changes.now) }
{
    if are_in_order(changes) {
        push_all(alloc, ordered, changes)
    } else {
        push_reordered(alloc, ordered, changes)
    }
}

fn push_reordered(alloc: Global, ordered: &mut Delta, changes: &[Change]) -> Result<(), AllocError>
    ensures { OnOk result (ordered.new ≡ ordered.old ++ in_object_order changes.now) }
{
    let reordered = in_order(alloc, changes)?;
    push_all(alloc, ordered, reordered.as_slice())
}

fn push_all(alloc: Global, changes: &mut Delta, more: &[Change]) -> Result<(), AllocError>
    ensures { OnOk result (changes.new ≡ changes.old ++ more.now) }
{
    for change in more {
        changes.push(change.copy(alloc)?)?;
    }
    Ok(())
}
