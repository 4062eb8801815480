//! The statements of an audit one after another, each run at its place in the serial order.

ghost use Rattle.std.specs.Prelude.{◌≡◌, ◌<◌, ◌≤◌, ◌+◌, [], true, false, None, Ok, length, get_or, IfOk, IfSome, OnOk, OnErr};
ghost use Rattle.rls_catalog.specs.Changed.{opening, changed_all};
ghost use Rattle.rls_explain.specs.rls_meaning.specs.rls_guard.specs.Effects.{changes_of};
ghost use Rattle.rls_audit.specs.rls_access.specs.Statements.{role_after};
ghost use Rattle.rls_audit.specs.rls_access.specs.Transactions.{ctx_after as context_after};
ghost use Rattle.rls_audit.specs.rls_core.specs.Theory.{read_by};
ghost use Rattle.rls_explain.specs.rls_meaning.specs.Meaning.{effect_of};
ghost use Rattle.rls_check.specs.Checking.{ctx_of, state_behind, IsPlaced};
ghost use Rattle.rls_check.specs.Walking.{IsNext, IsWalk, left, left_alone, standings_alone, standings_along, state_left, state_to_come};

use crate::alone::{ctx_after, first_ctx, state_after};
use crate::audit::Audit;
use crate::matching::is_answer;
use crate::ordering::{places_of, transaction_at};
use crate::stored::Stored;
use crate::transaction::{Answer, Transaction};
use rls_audit::rls_access::{Ctx, Outcome, run_statement};
use rls_audit::rls_rows::State;
use rls_explain::rls_guard::Mode;
use rls_explain::rls_meaning::statement_means;
use rls_statement::Statement;
use rls_value::shared::Share;
use rls_value::{Items, Name};
use std::alloc::{AllocError, Global};
use std::mem;

/// A statement at its place in the serial order, and what it comes to there.
#[derive(Drop)]
pub struct Turn {
    /// That of its transaction in the order of commits, counted from 0.
    pub place: usize,
    /// Of its transaction, counted from 1.
    pub number: u64,
    /// What it is run in, with the changes that its transaction made before it.
    pub before: State,
    pub ctx: Ctx,
    pub statement: Share<Statement>,
    pub outcome: Outcome,
    /// Whether it comes to the reply and the decisions that the audit shows.
    pub agrees: bool,
}

/// The transaction that runs: how many of its statements were given, and what the next is run in.
#[derive(Drop)]
pub(crate) struct Running {
    place: usize,
    answers: Items<Answer>,
    given: usize,
    state: State,
    ctx: Ctx,
}

/// The statements of an audit that are still to come, along its order.
#[derive(Drop)]
pub struct Walk<'a> {
    transactions: &'a [Stored],
    places: Vec<usize>,
    /// So many of the transactions at these places were begun.
    begun: usize,
    running: Running,
}

impl Audit {
    /// All statements along the order, which run alone from the opening state. None where the order isn't one.
    #[tactic(auto, using(crate::proofs::WalkingLemmas::no_walk))]
    pub fn walk<'a>(&'a self, alloc: Global) -> Result<Option<Walk<'a>>, AllocError>
        ensures { IfOk result (IsWalk self.now.transactions self.now.order) }
    {
        let transactions = self.transactions.as_slice();
        match places_of(alloc, transactions, self.order.as_slice())? {
            Some(places) => walk_along(alloc, transactions, self.order.as_slice(), places),
            None => Ok(None),
        }
    }
}

/// The same along these places.
#[tactic(auto, using(crate::proofs::WalkingLemmas::walk_found))]
fn walk_along<'a>(
    alloc: Global,
    transactions: &'a [Stored],
    order: &[u64],
    places: Vec<usize>,
) -> Result<Option<Walk<'a>>, AllocError>
    requires { IsPlaced transactions.now order.now places.items }
    ensures { IfOk result (IsWalk transactions.now order.now) }
{
    match walk_from(alloc, transactions, places) {
        Ok(walk) => Ok(Some(walk)),
        Err(refused) => Err(refused),
    }
}

/// All statements of the transactions at these places, which run alone from the opening state.
#[tactic(auto, using(crate::proofs::WalkingLemmas::walk_begun))]
pub(crate) fn walk_from<'a>(
    alloc: Global,
    transactions: &'a [Stored],
    places: Vec<usize>,
) -> Result<Walk<'a>, AllocError>
    ensures left { IfOk result (λ walk. left walk ≡ standings_along transactions.now opening places.items) }
    ensures state { IfOk result (λ walk. state_left walk ≡ opening) }
{
    match Running::nothing(alloc) {
        Ok(running) => Ok(Walk {
            transactions,
            places,
            begun: 0,
            running,
        }),
        Err(refused) => {
            drop(places);
            Err(refused)
        }
    }
}

impl<'a> Walk<'a> {
    /// The next statement; none at the end.
    #[tactic(auto, using(crate::proofs::WalkingLemmas::next_of_same))]
    pub fn next(&mut self, alloc: Global) -> Result<Option<Turn>, AllocError>
        ensures turn { IfOk result (λ found. IfSome found (λ turn. IsNext (left self.old) turn (left self.new))) }
        ensures state { IfOk result (λ found. IfSome found (λ turn. state_left self.new ≡ changed_all turn.before (changes_of turn.outcome.effect))) }
        ensures effect { IfOk result (λ found. IfSome found (λ turn. turn.outcome.effect ≡ effect_of turn.before turn.ctx turn.statement)) }
        ensures end { result ≡ Ok None → left self.old ≡ [] }
        ensures ended { result ≡ Ok None → left self.new ≡ [] }
        ensures last { result ≡ Ok None → state_left self.new ≡ state_left self.old }
        ensures kept { OnErr result (left self.new ≡ left self.old) }
        ensures stays { OnErr result (state_left self.new ≡ state_left self.old) }
    {
        if self.go_to_next(alloc)? {
            self.give_next(alloc)
        } else {
            Ok(None)
        }
    }

    /// So many transactions are at their end.
    pub fn done(&self) -> usize {
        self.begun.saturating_sub(1)
    }

    /// The state behind the last statement that was given.
    pub fn state(&self) -> &State
        ensures { result.now ≡ state_left self.now }
    {
        &self.running.state
    }

    /// Begins transactions until one has a statement; tells whether there is one.
    #[tactic(auto, using(crate::proofs::WalkingLemmas::nothing_left))]
    fn go_to_next(&mut self, alloc: Global) -> Result<bool, AllocError>
        ensures left { left self.new ≡ left self.old }
        ensures state { state_left self.new ≡ state_left self.old }
        ensures found { IfOk result (λ found. found ≡ true → self.new.running.given < length self.new.running.answers) }
        ensures none { IfOk result (λ found. found ≡ false → left self.new ≡ []) }
    {
        for place in self.begun..self.places.len() {
            if self.running.has_next() {
                return Ok(true);
            }
            self.begin(alloc, place)?;
        }
        Ok(self.running.has_next())
    }

    /// Begins the transaction that comes next, where the one before it is at its end.
    #[tactic(auto, using(crate::proofs::WalkingLemmas::begun_nobody))]
    fn begin(&mut self, alloc: Global, next: usize) -> Result<(), AllocError>
        requires next { self.old.begun ≡ next }
        requires within { next < length self.old.places.items }
        requires ended { length self.old.running.answers ≤ self.old.running.given }
        ensures left { left self.new ≡ left self.old }
        ensures state { state_left self.new ≡ state_left self.old }
        ensures places { self.new.places ≡ self.old.places }
        ensures begun { OnOk result (self.new.begun ≡ next + 1) }
    {
        let place = self.places[next];
        if place < self.transactions.len() {
            self.begin_at(alloc, next, place)
        } else {
            self.begun = next + 1;
            Ok(())
        }
    }

    /// Begins the transaction at the place that comes next.
    #[tactic(auto, using(crate::proofs::WalkingLemmas::begun_next))]
    fn begin_at(&mut self, alloc: Global, next: usize, place: usize) -> Result<(), AllocError>
        requires next { self.old.begun ≡ next }
        requires within { next < length self.old.places.items }
        requires place { place ≡ get_or self.old.places.items next 0 }
        requires there { place < length self.old.transactions.now }
        requires ended { length self.old.running.answers ≤ self.old.running.given }
        ensures left { left self.new ≡ left self.old }
        ensures state { state_left self.new ≡ state_left self.old }
        ensures places { self.new.places ≡ self.old.places }
        ensures begun { OnOk result (self.new.begun ≡ next + 1) }
    {
        let transaction = transaction_at(self.transactions, place).read(alloc)?;
        self.running.begin(place, transaction)?;
        self.begun = next + 1;
        Ok(())
    }

    /// The next statement of the transaction that runs.
    #[tactic(auto, using(crate::proofs::WalkingLemmas::given_next))]
    fn give_next(&mut self, alloc: Global) -> Result<Option<Turn>, AllocError>
        requires { self.old.running.given < length self.old.running.answers }
        ensures turn { IfOk result (λ found. IfSome found (λ turn. IsNext (left self.old) turn (left self.new))) }
        ensures state { IfOk result (λ found. IfSome found (λ turn. state_left self.new ≡ changed_all turn.before (changes_of turn.outcome.effect))) }
        ensures effect { IfOk result (λ found. IfSome found (λ turn. turn.outcome.effect ≡ effect_of turn.before turn.ctx turn.statement)) }
        ensures some { result ≡ Ok None → ⊥ }
        ensures kept { OnErr result (self.new ≡ self.old) }
    {
        match self.running.next(alloc) {
            Ok(turn) => Ok(Some(turn)),
            Err(refused) => Err(refused),
        }
    }
}

impl Running {
    /// Nothing has run yet.
    fn nothing(alloc: Global) -> Result<Running, AllocError>
        ensures answers { IfOk result (λ it. it.answers ≡ []) }
        ensures state { IfOk result (λ it. it.state ≡ opening) }
    {
        let ctx = nobody(alloc)?;
        match State::opening(alloc) {
            Ok(state) => Ok(Running {
                place: 0,
                answers: Items::new(alloc),
                given: 0,
                state,
                ctx,
            }),
            Err(refused) => {
                drop(ctx);
                Err(refused)
            }
        }
    }

    /// The transaction at the place begins in the state.
    pub(crate) fn of(
        place: usize,
        transaction: Transaction,
        state: &State,
    ) -> Result<Running, AllocError>
        ensures left { IfOk result (λ it. left_alone it ≡ standings_alone place 1 (ctx_of transaction) state.now transaction.answers) }
        ensures end { IfOk result (λ it. state_to_come it ≡ state_behind transaction state.now) }
    {
        let ctx = first_ctx(transaction.txn, &transaction.begin)?;
        let Transaction {
            txn: _,
            begin,
            snap: _,
            answers,
            puts,
        } = transaction;
        drop(begin);
        drop(puts);
        match state.copy() {
            Ok(state) => Ok(Running {
                place,
                answers,
                given: 0,
                state,
                ctx,
            }),
            Err(refused) => {
                drop(answers);
                drop(ctx);
                Err(refused)
            }
        }
    }

    /// The state that it has come to.
    pub(crate) fn into_state(self) -> State
        ensures { result ≡ self.state }
    {
        let Running {
            place: _,
            answers,
            given: _,
            state,
            ctx,
        } = self;
        drop(answers);
        drop(ctx);
        state
    }

    pub(crate) fn has_next(&self) -> bool
        ensures yes { result ≡ true → self.now.given < length self.now.answers }
        ensures no { result ≡ false → length self.now.answers ≤ self.now.given }
    {
        self.given < self.answers.len()
    }

    /// It is this transaction, in the state that the one before left.
    fn begin(&mut self, place: usize, transaction: Transaction) -> Result<(), AllocError>
        ensures place { OnOk result (self.new.place ≡ place) }
        ensures answers { OnOk result (self.new.answers ≡ transaction.answers) }
        ensures given { OnOk result (self.new.given ≡ 0) }
        ensures ctx { OnOk result (self.new.ctx ≡ ctx_of transaction) }
        ensures state { self.new.state ≡ self.old.state }
        ensures kept { OnErr result (self.new ≡ self.old) }
    {
        let ctx = first_ctx(transaction.txn, &transaction.begin)?;
        let Transaction {
            txn: _,
            begin,
            snap: _,
            answers,
            puts,
        } = transaction;
        drop(begin);
        drop(puts);
        self.place = place;
        self.answers = answers;
        self.given = 0;
        self.ctx = ctx;
        Ok(())
    }

    /// The next statement.
    #[tactic(auto, using(crate::proofs::WalkingLemmas::next_alone, crate::proofs::WalkingLemmas::same_to_come))]
    pub(crate) fn next(&mut self, alloc: Global) -> Result<Turn, AllocError>
        requires { self.old.given < length self.old.answers }
        ensures turn { IfOk result (λ turn. IsNext (left_alone self.old) turn (left_alone self.new)) }
        ensures end { OnOk result (state_to_come self.new ≡ state_to_come self.old) }
        ensures state { IfOk result (λ turn. self.new.state ≡ changed_all turn.before (changes_of turn.outcome.effect)) }
        ensures effect { IfOk result (λ turn. turn.outcome.effect ≡ effect_of turn.before turn.ctx turn.statement) }
        ensures kept { OnErr result (self.new ≡ self.old) }
    {
        let answer = &self.answers.as_slice()[self.given];
        let outcome = outcome_of(alloc, &self.state, &self.ctx, answer.statement.get())?;
        let agrees = is_answer(answer, &outcome.effect);
        match behind(alloc, &self.state, &self.ctx, answer, &outcome) {
            Ok((state, ctx, statement)) => {
                let before = mem::replace(&mut self.state, state);
                let ctx = mem::replace(&mut self.ctx, ctx);
                self.given += 1;
                Ok(Turn {
                    place: self.place,
                    number: self.given as u64,
                    before,
                    ctx,
                    statement,
                    outcome,
                    agrees,
                })
            }
            Err(refused) => {
                drop(outcome);
                Err(refused)
            }
        }
    }
}

/// What the statement behind it is run in, and the statement itself.
fn behind(
    alloc: Global,
    state: &State,
    ctx: &Ctx,
    answer: &Answer,
    outcome: &Outcome,
) -> Result<(State, Ctx, Share<Statement>), AllocError>
    requires role { outcome.now.role ≡ role_after ctx.now.role outcome.now.effect }
    ensures state { IfOk result (λ behind. behind.0 ≡ changed_all state.now (changes_of outcome.now.effect)) }
    ensures ctx { IfOk result (λ behind. behind.1 ≡ context_after ctx.now outcome.now.effect) }
    ensures statement { IfOk result (λ behind. behind.2 ≡ answer.now.statement) }
{
    let ctx = ctx_after(ctx, outcome)?;
    match state_and_statement(alloc, state, answer, outcome) {
        Ok((state, statement)) => Ok((state, ctx, statement)),
        Err(refused) => {
            drop(ctx);
            Err(refused)
        }
    }
}

fn state_and_statement(
    alloc: Global,
    state: &State,
    answer: &Answer,
    outcome: &Outcome,
) -> Result<(State, Share<Statement>), AllocError>
    ensures state { IfOk result (λ both. both.0 ≡ changed_all state.now (changes_of outcome.now.effect)) }
    ensures statement { IfOk result (λ both. both.1 ≡ answer.now.statement) }
{
    let statement = answer.statement.copy()?;
    match state_after(alloc, state, &outcome.effect) {
        Ok(state) => Ok((state, statement)),
        Err(refused) => {
            drop(statement);
            Err(refused)
        }
    }
}

/// Where nothing runs.
fn nobody(alloc: Global) -> Result<Ctx, AllocError> {
    let login = Name::postgres(alloc)?;
    match Name::postgres(alloc) {
        Ok(role) => Ok(Ctx {
            txn: 0,
            login,
            role,
            mode: Mode::Read,
            next: 0,
        }),
        Err(refused) => {
            drop(login);
            Err(refused)
        }
    }
}

/// What the statement comes to in the state, and what it reads.
fn outcome_of(
    alloc: Global,
    state: &State,
    ctx: &Ctx,
    statement: &Statement,
) -> Result<Outcome, AllocError>
    ensures effect { IfOk result (λ outcome. outcome.effect ≡ effect_of state.now ctx.now statement.now) }
    ensures reads { IfOk result (λ outcome. outcome.footprint ≡ read_by ctx.now statement.now state.now) }
    ensures role { IfOk result (λ outcome. outcome.role ≡ role_after ctx.now.role outcome.effect) }
{
    statement_means();
    let mut source = state.view();
    run_statement(alloc, &mut source, ctx, statement)
}
