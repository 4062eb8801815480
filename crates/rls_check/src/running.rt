//! Runs the transactions of an audit alone, and compares what they come to with what is shown.

ghost use Rattle.std.specs.Prelude.{◌≡◌, ◌++◌, length, None, IfOk, OnOk, IsNone, IfSome};
ghost use Rattle.std.specs.List.{flat_map};
ghost use Rattle.rls_audit.specs.Lines.{ordered_changes};
ghost use Rattle.rls_history.specs.Orders.{StandInTurn, none_placed};
ghost use Rattle.rls_audit.specs.rls_core.specs.Alone.{effects_alone, state_alone, changes_made};
ghost use Rattle.rls_check.specs.Audited.{asked_of};
ghost use Rattle.rls_check.specs.Checking.{FirstOther, IsRunAlone, history_of};
ghost use Rattle.rls_agreement.specs.Committing.{no_changes, IsCommitting};
ghost use Rattle.rls_check.specs.Committing.{HasRunAlong};

use crate::alone::Alone;
use crate::finding::Finding;
use crate::matching::{are_puts, is_answer};
use crate::ordering::transaction_at;
use crate::progress::Progress;
use crate::stored::Stored;
use crate::transaction::{Answer, Transaction};
use rls_agreement::Committing;
use rls_audit::rls_rows::State;
use rls_catalog::Delta;
use std::alloc::{AllocError, Global};

/// What a run of a transaction comes to: as it is shown, the state that it leaves and its changes; or what is found first.
#[derive(Drop)]
pub(crate) enum RanAlone {
    Agrees(State, Delta),
    Differs(Finding),
}

/// What a run of all comes to: as it is shown, the state that they leave; or what is found first.
#[derive(Drop)]
pub(crate) enum RanAlong {
    Agrees(State),
    Differs(Finding),
}

/// Runs the transactions alone in this order. What each changes is put on in the order of commits.
#[tactic(auto, using(crate::proofs::RunningLemmas::runs_at_first))]
pub(crate) fn run_along<P: Progress>(
    alloc: Global,
    transactions: &[Stored],
    places: &[usize],
    committing: &mut Committing,
    progress: &mut P,
) -> Result<RanAlong, AllocError>
    requires in_turn { StandInTurn (history_of transactions.now) none_placed places.now }
    requires none_has_run { IsCommitting (no_changes (length transactions.now)) none_placed committing.old }
    ensures { IfOk result (λ ran. HasRunAlong transactions.now places.now ran committing.new) }
{
    let mut state = State::opening(alloc)?;
    let mut ran: usize = 0;
    for place in places {
        progress.done(ran);
        ran = ran.saturating_add(1);
        let transaction = transaction_at(transactions, *place).read(alloc)?;
        match run_alone(alloc, &state, &transaction)? {
            RanAlone::Agrees(after, changes) => {
                state = after;
                committing.put(alloc, *place, changes)?;
            }
            RanAlone::Differs(finding) => return Ok(RanAlong::Differs(finding)),
        }
    }
    Ok(RanAlong::Agrees(state))
}

/// Runs the transaction alone in the state.
fn run_alone(
    alloc: Global,
    state: &State,
    transaction: &Transaction,
) -> Result<RanAlone, AllocError>
    ensures { IfOk result (IsRunAlone state.now transaction.now) }
{
    let mut alone = Alone::begin(alloc, state, transaction.txn, &transaction.begin)?;
    match run_statements(alloc, &mut alone, transaction.answers.as_slice())? {
        Some(number) => Ok(RanAlone::Differs(Finding::Reply(transaction.txn, number))),
        None => {
            let Alone {
                state,
                ctx,
                changes,
                ordered,
            } = alone;
            drop(ctx);
            let same = are_puts(transaction.puts.as_slice(), ordered.as_slice());
            drop(ordered);
            if same {
                Ok(RanAlone::Agrees(state, changes))
            } else {
                Ok(RanAlone::Differs(Finding::Changes(transaction.txn)))
            }
        }
    }
}

/// Runs the statements. The number of the first, counted from 1, that comes to another answer than is shown.
fn run_statements(
    alloc: Global,
    alone: &mut Alone,
    answers: &[Answer],
) -> Result<Option<u64>, AllocError>
    ensures first { IfOk result (FirstOther 1 alone.old.ctx alone.old.state answers.now) }
    ensures state { IfOk result (λ found. IsNone found → alone.new.state ≡ state_alone alone.old.ctx (asked_of answers.now) alone.old.state) }
    ensures changes { IfOk result (λ found. IsNone found → alone.new.changes ≡ alone.old.changes ++ changes_made (effects_alone alone.old.ctx (asked_of answers.now) alone.old.state)) }
    ensures ordered { IfOk result (λ found. IsNone found → alone.new.ordered ≡ alone.old.ordered ++ flat_map ordered_changes (effects_alone alone.old.ctx (asked_of answers.now) alone.old.state)) }
{
    let mut number = 1;
    for answer in answers {
        let outcome = alone.run(alloc, answer.statement.get())?;
        if !is_answer(answer, &outcome.effect) {
            drop(outcome);
            return Ok(Some(number));
        }
        alone.go_on(alloc, &outcome)?;
        drop(outcome);
        number += 1;
    }
    Ok(None)
}
