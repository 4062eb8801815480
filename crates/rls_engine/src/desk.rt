//! What lies under the lock. Each method that changes it is one event of the core, or none.

ghost use Rattle.std.specs.Prelude.{◌≡◌, ◌≤◌, Some, true, length, IfOk, OnErr, IfErr, IfSome, is_some};
ghost use Rattle.rls_core.specs.rls_conflict.specs.Begun.{at_number};
ghost use Rattle.rls_core.specs.rls_access.specs.Transactions.{first_ctx};
ghost use Rattle.rls_core.specs.Events.Event.{RollsBack};
ghost use Rattle.rls_core.specs.Attempts.{Leaves};
ghost use Rattle.rls_core.specs.Seen.{nothing_yet, newest_state, runs_at, world_of};
ghost use Rattle.rls_core.specs.Calls.{NotBegun, NotReady};
ghost use Rattle.rls_core.specs.Opened.{Looks};
ghost use Rattle.rls_core.specs.Headline.{HaveOrder, AreExplained, EachFindsSnapshots, RunAsRecorded};
ghost use Rattle.rls_engine.specs.Attempts.{IsLeftOn};
ghost use Rattle.rls_engine.specs.Led.{IsLed};
ghost use Rattle.rls_engine.specs.Stands.{IsWorkOn};
ghost use Rattle.rls_engine.specs.Places.{ArePlaced, HasPlace, IsBase, base_state};
ghost use Rattle.boxcar.specs.Table.{Shows};
ghost use Rattle.rls_engine.specs.Steps.{IsEvent, HasBegun, HasPosted, HasCommitted, Fits, PostStops, CommitStops};

use crate::commit::Commit;
use crate::held::Held;
use crate::named::Named;
use crate::place::Place;
use crate::posting::Over;
use crate::step::Step;
use boxcar::{Pushed, Vec as Shared};
use rls_core::rls_access::Ctx;
use rls_core::rls_rows::State;
use rls_core::{Begin, Core, Ready, Record, Remains, Work, core_rules_are_safe, events_keep};
use rls_value::Refusal;
use std::alloc::{AllocError, Global};
use std::collections::BTreeMap;
use std::marker::Model;
use std::sync::Wait;
use std::sync::ledger::{Book as Total, Share};

/// What lies under the lock: the core, the tokens of the commits' places, the token of the last step of each transaction that
/// runs, the number of commits as a ledger has it, and the parts of the ledger that no receipt has yet.
#[derive(Drop)]
pub(crate) struct Desk<N: Named> {
    core: Core,
    tokens: Vec<Pushed<Commit>>,
    running: BTreeMap<u64, Pushed<Step>>,
    total: Total<N>,
    rest: Share<N>,
}

impl<N: Named> Model for Desk<N> {
    ghost use Rattle.rls_engine.specs.Views.{Kept, kept_code};
    ghost use Rattle.rls_engine.specs.{Keeps.IsKept, Led.IsLed};

    ghost Value = { Kept };

    ghost coded = { kept_code };

    ghost view = { λ it. record { seen = it.core; total = it.total.total } };

    ghost invariant = { λ it. IsKept N.commits N.steps it.core it.total.total it.rest.parts it.rest.amount it.tokens.items it.running.entries × IsLed N.asks it.core };
}

impl<N: Named> Desk<N> {
    /// A core in which nothing happened, with the whole ledger.
    #[tactic(auto, using(crate::proofs::LedLemmas::led_new))]
    pub(crate) fn new(alloc: Global, core: Core, total: Total<N>, rest: Share<N>) -> Desk<N>
        requires core { core ≡ nothing_yet }
        requires total { total.total ≡ 0 }
        requires parts { rest.parts ≡ 18446744073709551615 }
        requires amount { rest.amount ≡ 0 }
        ensures { result ≡ record { seen = nothing_yet; total = 0 } }
    {
        Desk {
            core,
            tokens: Vec::new(alloc),
            running: BTreeMap::new(alloc),
            total,
            rest,
        }
    }

    /// What holds whenever the lock is got: the committed transactions have an order that keeps what has to stand before what, and
    /// each such order explains them; events led here, of statements that were asked so; and the ledger's total is their number.
    pub(crate) fn kept(&self)
        ensures ordered { HaveOrder (world_of self.now.seen) }
        ensures explained { AreExplained (world_of self.now.seen) }
        ensures found { EachFindsSnapshots (world_of self.now.seen) }
        ensures led { IsLed N.asks self.now.seen }
        ensures total { self.now.total ≡ length self.now.seen.committed }
    {
        let _total = &self.total;
        let _history = self.core.history();
    }

    /// Each that runs has just what its statements come to alone on its snapshot.
    fn recorded(&self)
        ensures { RunAsRecorded (world_of self.now.seen) }
    {
        core_rules_are_safe();
        events_keep();
        let _core = &self.core;
    }

    /// How many have committed. The last one has its place.
    pub(crate) fn commits(&self) -> u64
        ensures count { result ≡ length self.now.seen.committed }
        ensures placed { HasPlace N.commits result }
    {
        self.core.commits()
    }

    /// A share's amount is at most the number of commits.
    pub(crate) fn audit(&mut self, share: &mut Share<N>)
        ensures same { self.new ≡ self.old }
        ensures amount { share.new.amount ≡ share.old.amount }
        ensures parts { share.new.parts ≡ share.old.parts }
        ensures bound { share.old.amount ≤ length self.old.seen.committed }
    {
        self.total.audit(share);
    }

    /// The core, and the tokens of its commits.
    pub(crate) fn into_parts(self) -> (Core, Vec<Pushed<Commit>>)
        ensures core { result.0 ≡ self.seen }
        ensures tokens { ArePlaced N.commits self.seen.committed result.1.items }
    {
        let Desk {
            core,
            tokens,
            running: _,
            total: _,
            rest: _,
        } = self;
        (core, tokens)
    }

    /// The place of the last commit.
    fn newest(&self) -> Option<Place<N>>
        ensures base { IsBase (length self.now.seen.committed) result }
        ensures state { base_state result ≡ newest_state self.now.seen.committed }
    {
        let count = self.tokens.len();
        if count == 0 {
            return None;
        }
        Some(Place::new(count as u64, self.tokens[count - 1].again()))
    }

    /// Begins a transaction on a snapshot of all commits so far.
    pub(crate) fn begin<R: Wait>(
        &mut self,
        rt: &R,
        alloc: Global,
        commits: &Shared<Commit>,
        steps: &Shared<Step>,
        begin: Begin,
    ) -> Result<Held<N>, Refusal>
        requires commits { commits.now ≡ N.commits }
        requires steps { steps.now ≡ N.steps }
        ensures ok { IfOk result (HasBegun begin self.old self.new) }
        ensures err { OnErr result (self.new ≡ self.old) }
        ensures why { IfErr result (NotBegun self.old.seen begin) }
    {
        let base = self.newest();
        let txn = self.core.next();
        let Ok((view, ctx)) = first_view(alloc, commits, &base, txn, &begin) else {
            return Err(Refusal::NoMemory);
        };
        let Ok(at) = steps.push_shown(rt, Step::begun(&self.core, txn, &begin)) else {
            return Err(Refusal::NoMemory);
        };
        let Ok(_) = self.running.insert(txn, at.again()) else {
            return Err(Refusal::NoMemory);
        };
        match self.core.begin(alloc, begin) {
            Ok(_) => Ok(Held {
                txn,
                base,
                at,
                view,
                ctx,
            }),
            // The token stays under the number, which the next one that begins takes over.
            Err(refusal) => Err(refusal),
        }
    }

    /// Whether what is held is what lies here: the transaction runs, and its last step is the same.
    fn fits(&self, steps: &Shared<Step>, held: &Held<N>) -> bool
        requires { steps.now ≡ N.steps }
        ensures { result ≡ true → Fits self.now.seen held.now }
    {
        if !self.core.is_running(held.txn) {
            return false;
        }
        let Some(token) = self.running.get(&held.txn) else {
            return false;
        };
        if token.index() != held.at.index() {
            return false;
        }
        steps.agrees(token, &held.at);
        true
    }

    /// Posts work of what is held. Where a concurrent transaction wrote an object that it writes, the transaction is over.
    pub(crate) fn post<R: Wait>(
        &mut self,
        rt: &R,
        alloc: Global,
        steps: &Shared<Step>,
        held: &Held<N>,
        work: Work,
    ) -> Result<Pushed<Step>, Over>
        requires steps { steps.now ≡ N.steps }
        requires work { IsWorkOn held.now.stand work }
        requires asked { N.asks work.statement }
        requires txn { work.txn ≡ held.now.txn }
        ensures ok { IfOk result (HasPosted N.steps held.now work.statement self.old self.new) }
        ensures err { IfErr result (λ over. PostStops held.now work.statement self.old self.new over.why) }
        ensures left { IfErr result (λ over. IfSome over.left (IsLeftOn held.now)) }
    {
        self.recorded();
        if !self.fits(steps, held) {
            drop(work);
            return Err(Over::by(Refusal::Foreign));
        }
        let txn = held.txn;
        let Ok(at) = steps.push_shown(rt, Step::posted(&self.core, txn, work.statement.get()))
        else {
            drop(work);
            return Err(Over::by(Refusal::NoMemory));
        };
        match self.core.admit_or_end(alloc, work) {
            Ok(()) => {
                set_token(&mut self.running, txn, at.again());
                Ok(at)
            }
            Err((why, left)) => Err(Over { why, left }),
        }
    }

    /// Commits what is held, and gives its number, the token of its place and a share of one. In a dangerous structure the
    /// transaction is over.
    pub(crate) fn commit<R: Wait>(
        &mut self,
        rt: &R,
        alloc: Global,
        commits: &Shared<Commit>,
        steps: &Shared<Step>,
        held: &Held<N>,
    ) -> Result<(u64, Pushed<Commit>, Share<N>, Record), Over>
        requires commits { commits.now ≡ N.commits }
        requires steps { steps.now ≡ N.steps }
        ensures ok { IfOk result (λ done. HasCommitted N.commits held.now self.old self.new done.0 done.1) }
        ensures share { IfOk result (λ done. (done.2.parts ≡ 1) × (done.2.amount ≡ 1)) }
        ensures entry { IfOk result (λ done. done.3 ≡ held.now.stand.running.so_far) }
        ensures err { IfErr result (λ over. CommitStops held.now self.old self.new over.why) }
        ensures left { IfErr result (λ over. IfSome over.left (IsLeftOn held.now)) }
    {
        if !self.fits(steps, held) {
            return Err(Over::by(Refusal::Foreign));
        }
        let Ok(()) = self.tokens.reserve(1) else {
            return Err(Over::by(Refusal::NoMemory));
        };
        let ready = match self.core.ready(alloc, held.txn) {
            Ok(ready) => ready,
            Err(refusal) => return Err(self.refuse(held, refusal)),
        };
        let number = self.core.commits();
        let Ok((token, entry)) = place(rt, alloc, commits, &ready) else {
            drop(ready);
            return Err(Over::by(Refusal::NoMemory));
        };
        if token.index() as u64 != number {
            drop(entry);
            drop(ready);
            return Err(Over::by(Refusal::Foreign));
        }
        self.core.seal(held.txn, ready);
        self.running.remove(&held.txn);
        self.total.add(&mut self.rest, 1);
        let share = self.rest.split_off(1, 1);
        self.tokens.push_reserved(token.again());
        Ok((number + 1, token, share, entry))
    }

    /// Ends the transaction where its commit is refused for a dangerous structure.
    fn refuse(&mut self, held: &Held<N>, refusal: Refusal) -> Over
        requires fits { Fits self.old.seen held.now }
        requires why { NotReady self.old.seen held.now.txn refusal }
        ensures why { CommitStops held.now self.old self.new result.why }
        ensures left { IfSome result.left (IsLeftOn held.now) }
    {
        self.recorded();
        match refusal {
            Refusal::Serial(why) => Over {
                left: self.rollback(held.txn),
                why: Refusal::Serial(why),
            },
            Refusal::NoMemory => Over::by(Refusal::NoMemory),
            _ => Over::by(Refusal::Foreign),
        }
    }

    /// Ends what is held, and gives what is left of it. It takes no memory.
    pub(crate) fn end(&mut self, steps: &Shared<Step>, held: &Held<N>) -> Option<Remains>
        requires { steps.now ≡ N.steps }
        ensures event { IsEvent (RollsBack held.now.txn) self.old self.new }
        ensures left { IfSome result (IsLeftOn held.now) }
    {
        self.recorded();
        let fits = self.fits(steps, held);
        let left = self.rollback(held.txn);
        if fits {
            return left;
        }
        drop(left);
        None
    }

    /// Ends the transaction, if it runs. It takes no memory.
    fn rollback(&mut self, txn: u64) -> Option<Remains>
        ensures event { IsEvent (RollsBack txn) self.old self.new }
        ensures left { Leaves txn (runs_at self.old.seen txn) result }
    {
        let left = self.core.end(txn);
        self.running.remove(&txn);
        left
    }
}

/// The state of the snapshot, and what the first statement is run in.
fn first_view<N: Named>(
    alloc: Global,
    commits: &Shared<Commit>,
    base: &Option<Place<N>>,
    txn: u64,
    begin: &Begin,
) -> Result<(State, Ctx), AllocError>
    requires { commits.now ≡ N.commits }
    ensures view { IfOk result (λ first. first.0 ≡ base_state base.now) }
    ensures ctx { IfOk result (λ first. first.1 ≡ first_ctx txn begin.now) }
{
    let view = match base {
        Some(place) => place.state(commits).copy()?,
        None => State::opening(alloc)?,
    };
    match first_ctx(txn, begin) {
        Ok(ctx) => Ok((view, ctx)),
        Err(refused) => {
            drop(view);
            Err(refused)
        }
    }
}

/// What the first statement of a transaction is run in.
fn first_ctx(txn: u64, begin: &Begin) -> Result<Ctx, AllocError>
    ensures { IfOk result (λ ctx. ctx ≡ first_ctx txn begin.now) }
{
    let login = begin.login.copy()?;
    match begin.role.copy() {
        Ok(role) => Ok(Ctx {
            txn,
            login,
            role,
            mode: begin.mode,
            next: 0,
        }),
        Err(refused) => {
            drop(login);
            Err(refused)
        }
    }
}

/// Another token stands under the number.
fn set_token(running: &mut BTreeMap<u64, Pushed<Step>>, txn: u64, at: Pushed<Step>)
    requires { is_some (at_number txn running.old.entries) ≡ true }
    ensures { Looks txn (Some at) running.old.entries running.new.entries }
{
    if let Some(token) = running.get_mut(&txn) {
        *token = at;
    }
}

/// Puts the commit that is ready in the next place. It gives the place's token, and the record.
fn place<R: Wait>(
    rt: &R,
    alloc: Global,
    commits: &Shared<Commit>,
    ready: &Ready,
) -> Result<(Pushed<Commit>, Record), AllocError>
    ensures shows { IfOk result (λ placed. Shows commits.now placed.0) }
    ensures value { IfOk result (λ placed. (placed.0.value.entry ≡ ready.now.entry) × (placed.0.value.state ≡ ready.now.state)) }
    ensures entry { IfOk result (λ placed. placed.1 ≡ ready.now.entry) }
{
    let commit = commit_of(alloc, ready)?;
    match ready.entry.copy() {
        Ok(entry) => match commits.push_shown(rt, commit) {
            Ok(token) => Ok((token, entry)),
            Err(_) => {
                drop(entry);
                Err(AllocError)
            }
        },
        Err(refused) => {
            drop(commit);
            Err(refused)
        }
    }
}

fn commit_of(alloc: Global, ready: &Ready) -> Result<Commit, AllocError>
    ensures { IfOk result (λ commit. (commit.entry ≡ ready.now.entry) × (commit.state ≡ ready.now.state)) }
{
    let entry = ready.entry.copy()?;
    match ready.state.copy() {
        Ok(state) => Ok(Commit { entry, state }),
        Err(refused) => {
            drop(entry);
            Err(refused)
        }
    }
}
