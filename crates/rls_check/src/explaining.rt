//! Why a statement of an audit did what it did.

ghost use Rattle.std.specs.Prelude.{◌≡◌, ◌⊎◌, ◌<◌, true, false, [], Some, None, length, take, slice_get, IfOk, OnOk};
ghost use Rattle.std.specs.List.{All};
ghost use Rattle.rls_catalog.specs.Changed.{opening};
ghost use Rattle.rls_audit.specs.rls_core.specs.Alone.{state_alone};
ghost use Rattle.rls_check.specs.Audited.{asked_of};
ghost use Rattle.rls_check.specs.Checking.{ctx_of, state_behind};
ghost use Rattle.rls_check.specs.Explaining.{Explains, ExplainsBehind, IsExplained, SaysOf, ctx_alone, met, wanted_of as spec_wanted_of};

use crate::alone::Alone;
use crate::audit::Audit;
use crate::ordering::{places_of, transaction_at};
use crate::stored::Stored;
use crate::transaction::{Answer, Transaction};
use rls_audit::rls_rows::State;
use rls_explain::{Explanation, Wanted, explain_row};
use rls_statement::Statement;
use rls_value::RowId;
use rls_value::shared::Share;
use std::alloc::{AllocError, Global};

/// Why a statement did what it did.
#[derive(Drop)]
pub struct Why {
    pub txn: u64,
    /// Counted from 1.
    pub number: u64,
    pub statement: Share<Statement>,
    /// The row that was asked for.
    pub row: Option<RowId>,
    /// Whether decisions are told at length.
    pub long: bool,
    pub explanation: Explanation,
}

impl Audit {
    /// Explains the statement of that number, counted from 1, of the transaction: in the state before it, at the transaction's
    /// place in the order of the audit, where all run alone. With a row, what policies say of it. None where the order isn't
    /// one, or there is no such transaction, statement or, for a row, decision.
    #[tactic(auto, using(crate::proofs::ExplainedLemmas::explained_along, crate::proofs::ExplainedLemmas::explained_none))]
    pub fn explain(
        &self,
        alloc: Global,
        txn: u64,
        statement: u64,
        row: Option<RowId>,
        long: bool,
    ) -> Result<Option<Why>, AllocError>
        ensures { IfOk result (IsExplained self.now.transactions self.now.order txn statement row long) }
    {
        let transactions = self.transactions.as_slice();
        match places_of(alloc, transactions, self.order.as_slice())? {
            Some(places) => explain_along(
                alloc,
                transactions,
                places.as_slice(),
                txn,
                statement,
                row,
                long,
            ),
            None => Ok(None),
        }
    }
}

/// Explains in the run along the places.
#[tactic(auto, using(crate::proofs::ExplainedLemmas::met_here))]
fn explain_along(
    alloc: Global,
    transactions: &[Stored],
    places: &[usize],
    txn: u64,
    number: u64,
    row: Option<RowId>,
    long: bool,
) -> Result<Option<Why>, AllocError>
    requires { All (λ place. place < length transactions.now) places.now }
    ensures { IfOk result (SaysOf (met transactions.now opening places.now txn) number row long) }
{
    let mut state = State::opening(alloc)?;
    for place in places {
        let stored = transaction_at(transactions, *place);
        let transaction = stored.read(alloc)?;
        if stored.txn() == txn {
            return explain_in(alloc, &state, &transaction, number, row, long);
        }
        state = state_behind(alloc, &state, &transaction)?;
    }
    Ok(None)
}

/// The state that the transaction leaves, run alone.
fn state_behind(
    alloc: Global,
    state: &State,
    transaction: &Transaction,
) -> Result<State, AllocError>
    ensures { IfOk result (λ after. after ≡ state_behind transaction.now state.now) }
{
    let alone = alone_behind(alloc, state, transaction, transaction.answers.as_slice())?;
    let Alone {
        state,
        ctx,
        changes,
        ordered,
    } = alone;
    drop(ctx);
    drop(changes);
    drop(ordered);
    Ok(state)
}

fn run_all(alloc: Global, alone: &mut Alone, answers: &[Answer]) -> Result<(), AllocError>
    ensures state { OnOk result (alone.new.state ≡ state_alone alone.old.ctx (asked_of answers.now) alone.old.state) }
    ensures ctx { OnOk result (alone.new.ctx ≡ ctx_alone alone.old.ctx (asked_of answers.now) alone.old.state) }
{
    for answer in answers {
        let outcome = alone.run(alloc, answer.statement.get())?;
        alone.go_on(alloc, &outcome)?;
        drop(outcome);
    }
    Ok(())
}

/// Explains the statement of the transaction that runs alone in the state.
#[tactic(auto, using(crate::proofs::ExplainedLemmas::no_statement, crate::proofs::ExplainedLemmas::silent_row, crate::proofs::ExplainedLemmas::says_why))]
fn explain_in(
    alloc: Global,
    state: &State,
    transaction: &Transaction,
    number: u64,
    row: Option<RowId>,
    long: bool,
) -> Result<Option<Why>, AllocError>
    ensures { IfOk result (SaysOf (Some (transaction.now, state.now)) number row long) }
{
    if number == 0 || number > transaction.answers.len() as u64 {
        return Ok(None);
    }
    let (statement, explanation) = explain_at(alloc, state, transaction, number - 1, row, long)?;
    if is_silent(&row, &explanation) {
        drop(statement);
        drop(explanation);
        return Ok(None);
    }
    Ok(Some(Why {
        txn: transaction.txn,
        number,
        statement,
        row,
        long,
        explanation,
    }))
}

/// The decisions that are explained: at length those on the row or all, else those on the row.
fn wanted_of(row: Option<RowId>, long: bool) -> Option<Wanted>
    ensures { result ≡ spec_wanted_of row long }
{
    if long {
        return Some(Wanted { row, long: true });
    }
    match row {
        Some(id) => Some(Wanted {
            row: Some(id),
            long: false,
        }),
        None => None,
    }
}

/// Whether a row is asked for of which nothing is said.
fn is_silent(row: &Option<RowId>, explanation: &Explanation) -> bool
    ensures silent { result ≡ true → (row.now ≡ None → ⊥) × (explanation.now.row ≡ []) }
    ensures speaks { result ≡ false → (row.now ≡ None) ⊎ (explanation.now.row ≡ [] → ⊥) }
{
    match row {
        Some(_) => explanation.row.is_empty(),
        None => false,
    }
}

/// Explains the statement behind so many.
fn explain_at(
    alloc: Global,
    state: &State,
    transaction: &Transaction,
    behind: u64,
    row: Option<RowId>,
    long: bool,
) -> Result<(Share<Statement>, Explanation), AllocError>
    requires { behind < length transaction.now.answers }
    ensures statement { IfOk result (λ both. slice_get (asked_of transaction.now.answers) behind ≡ Some both.0) }
    ensures explains { IfOk result (λ both. ExplainsBehind transaction.now state.now (asked_of (take behind transaction.now.answers)) both.0 (spec_wanted_of row long) both.1) }
{
    let answers = transaction.answers.as_slice();
    let alone = alone_behind(alloc, state, transaction, &answers[..behind as usize])?;
    let statement = answer_at(answers, behind as usize).statement.copy()?;
    match explain_next(alloc, &alone, statement.get(), row, long) {
        Ok(explanation) => Ok((statement, explanation)),
        Err(refused) => {
            drop(statement);
            Err(refused)
        }
    }
}

/// The transaction, run alone in the state, behind these answers.
fn alone_behind(
    alloc: Global,
    state: &State,
    transaction: &Transaction,
    answers: &[Answer],
) -> Result<Alone, AllocError>
    ensures state { IfOk result (λ alone. alone.state ≡ state_alone (ctx_of transaction.now) (asked_of answers.now) state.now) }
    ensures ctx { IfOk result (λ alone. alone.ctx ≡ ctx_alone (ctx_of transaction.now) (asked_of answers.now) state.now) }
{
    let mut alone = Alone::begin(alloc, state, transaction.txn, &transaction.begin)?;
    match run_all(alloc, &mut alone, answers) {
        Ok(()) => Ok(alone),
        Err(refused) => {
            drop(alone);
            Err(refused)
        }
    }
}

/// The answer at the place.
#[tactic(auto, using(crate::proofs::ExplainedLemmas::asked_at))]
fn answer_at(answers: &[Answer], place: usize) -> &Answer
    requires { place < length answers.now }
    ensures { slice_get (asked_of answers.now) place ≡ Some result.now.statement }
{
    &answers[place]
}

/// Explains the next statement.
fn explain_next(
    alloc: Global,
    alone: &Alone,
    statement: &Statement,
    row: Option<RowId>,
    long: bool,
) -> Result<Explanation, AllocError>
    ensures { IfOk result (Explains alone.now.state alone.now.ctx statement.now (spec_wanted_of row long)) }
{
    let wanted = wanted_of(row, long);
    let mut source = alone.state.view();
    explain_row(alloc, &mut source, &alone.ctx, statement, wanted)
}
