//! The core: transactions that begin, post, commit and roll back.

ghost use Rattle.std.specs.Prelude.{◌≡◌, ◌<◌, ◌≤◌, ◌+◌, [], ◌∷◌, ◌++◌, true, false, Some, None, map, length, suc, if◌then◌else◌, IfOk, OnOk, IfErr, OnErr, IfSome, IfNone};
ghost use Rattle.std.specs.Option.{option_map, is_some};
ghost use Rattle.std.specs.List.{All};
ghost use Rattle.std.specs.Vec.{vec_capacity};
ghost use Rattle.rls_meaning.specs.rls_guard.specs.Effects.{changes_of};
ghost use Rattle.rls_meaning.specs.rls_access.specs.Transactions.{may_begin};
ghost use Rattle.rls_catalog.specs.Changed.{changed_all};
ghost use Rattle.rls_rows.specs.States.{newest_of};
ghost use Rattle.rls_conflict.specs.Begun.{at_number};
ghost use Rattle.rls_conflict.specs.Commits as commits;
ghost use Rattle.rls_conflict.specs.Causes.{IsBarredBy, IsInNoStructure};
ghost use Rattle.rls_conflict.specs.Known.{Becomes, IsNew, is_running, beginning, running_at, running_of, posted, with_commit_of};
ghost use Rattle.rls_conflict.specs.Written.{IsFree, IsRefusedBy};
ghost use Rattle.rls_core.specs.Records.{record_at};
ghost use Rattle.rls_catalog.specs.SoundRows.{RowsAreSound};
ghost use Rattle.rls_meaning.specs.rls_dml.specs.NextRows.{InRange};
ghost use Rattle.rls_core.specs.Events.{Running, seen_by};
ghost use Rattle.rls_core.specs.Kept.{IsSame, SeesNewest};
ghost use Rattle.rls_core.specs.Attempts.{LeftBy, Leaves};
ghost use Rattle.rls_core.specs.Attempts.{remains_of as remains_by};
ghost use Rattle.rls_core.specs.Events.Event.{Begins, Posts, Commits, RollsBack};
ghost use Rattle.rls_core.specs.Posts.{statement_of, effect_of, record_of};
ghost use Rattle.rls_core.specs.Opened.{opened_on, with_post, Looks};
ghost use Rattle.rls_core.specs.Seen.{nothing_yet, runs_at, world_of, newest_state, Happens};
ghost use Rattle.rls_core.specs.Calls.{IsWork, IsReady, MayCommit, NotBegun, NotWorked, NotPosted, NotReady, NotCommitted, NotRunning, IsOrderBy, statements_at, effects_at, RunsOn, CanFollow, is_serial};
ghost use Rattle.rls_core.specs.Headline.{HaveOrder, AreExplained, EachFindsSnapshots};

use crate::attempt::Remains;
use crate::begin::Begin;
use crate::headline::committed_are_serial;
use crate::keeping::{events_keep, posts_are_tested};
use crate::opened::Open;
use crate::posted::Posted;
use crate::ready::Ready;
use crate::record::Record;
use crate::rules::core_rules_are_safe;
use crate::work::Work;
use rls_catalog::shared_map::Share;
use rls_conflict::{Conflicts, Transaction, structures_are_found};
use rls_meaning::rls_access::{changes_go_on, rows_stay_sound};
use rls_meaning::rls_guard::rls_source::Reading;
use rls_rows::{State, Versions};
use rls_statement::Statement;
use rls_value::{Limit, Refusal, TxnState};
use std::alloc::{AllocError, Global};
use std::collections::BTreeMap;
use std::marker::Model;

/// So many transactions run at once at most.
const MAX_RUNNING: usize = 1024;

/// Transactions: the records of those that committed, those that run, and the committed states.
#[derive(Drop)]
pub struct Core {
    committed: Vec<Record>,
    conflicts: Conflicts,
    versions: Versions,
    running: BTreeMap<u64, Open>,
    next: u64,
}

impl Model for Core {
    ghost use Rattle.std.specs.Vec.{vec_capacity};
    ghost use Rattle.rls_core.specs.Seen.{Seen};
    ghost use Rattle.rls_core.specs.SeenCode.{seen_code};

    ghost Value = { Seen };

    ghost coded = { seen_code };

    ghost use Rattle.rls_core.specs.Kept.{seen_of, IsKept};

    ghost view = { λ it. seen_of it.committed.items it.conflicts it.running.entries it.next };

    ghost invariant = { λ it. IsKept it.committed.items it.conflicts it.running.entries it.next it.versions.states (vec_capacity it.committed) it.versions.room };
}

impl Core {
    /// No transactions, on the opening state.
    pub fn new(alloc: Global) -> Result<Core, AllocError>
        ensures { IfOk result (λ core. core ≡ nothing_yet) }
    {
        Ok(Core {
            committed: Vec::new(alloc),
            conflicts: Conflicts::new(alloc),
            versions: Versions::new(alloc)?,
            running: BTreeMap::new(alloc),
            next: 1,
        })
    }

    /// Begins a transaction on the state after all commits so far, with room for its commit. It has the next number.
    pub fn begin(&mut self, alloc: Global, begin: Begin) -> Result<u64, Refusal>
        ensures number { IfOk result (λ txn. txn ≡ self.old.next) }
        ensures admitted { OnOk result (may_begin (newest_state self.old.committed) begin ≡ true) }
        ensures ok { OnOk result (Happens (Begins begin) self.old self.new) }
        ensures err { OnErr result (self.new ≡ self.old) }
        ensures why { IfErr result (λ why. NotBegun self.old begin why) }
        ensures room { OnOk result (length self.old.running < 1024) }
        ensures numbers { OnOk result (self.old.next < 18446744073709551615) }
    {
        match is_admitted(alloc, self.versions.newest(), &begin) {
            Ok(true) => self.begin_admitted(alloc, begin),
            Ok(false) => Err(Refusal::NoLogin(Some(begin.into_login()))),
            Err(_) => Err(Refusal::NoMemory),
        }
    }

    /// Begins a transaction that is admitted.
    fn begin_admitted(&mut self, alloc: Global, begin: Begin) -> Result<u64, Refusal>
        requires { may_begin (newest_state self.old.committed) begin ≡ true }
        ensures number { IfOk result (λ txn. txn ≡ self.old.next) }
        ensures ok { OnOk result (Happens (Begins begin) self.old self.new) }
        ensures err { OnErr result (self.new ≡ self.old) }
        ensures why { IfErr result (λ why. NotBegun self.old begin why) }
        ensures room { OnOk result (length self.old.running < 1024) }
        ensures numbers { OnOk result (self.old.next < 18446744073709551615) }
    {
        self.keeps_keys();
        let txn = self.next;
        if txn == u64::MAX {
            return Err(Refusal::Limit(Limit::Numbers));
        }
        let count = self.running.len();
        if count >= MAX_RUNNING {
            return Err(Refusal::Limit(Limit::Transactions));
        }
        match reserve(&mut self.committed, &mut self.versions, count + 1) {
            Ok(()) => (),
            Err(_) => return Err(Refusal::NoMemory),
        }
        let state = self.versions.newest();
        match start(
            &mut self.running,
            &mut self.conflicts,
            alloc,
            txn,
            begin,
            state,
        ) {
            Ok(()) => (),
            Err(_) => return Err(Refusal::NoMemory),
        }
        self.next = txn + 1;
        Ok(txn)
    }

    /// The rows of the newest state are sound.
    fn keeps_keys(&self)
        ensures { RowsAreSound (newest_state self.now.committed) }
    {
        core_rules_are_safe();
        events_keep();
        let _ = &self.committed;
    }

    /// The work leaves sound rows, and there are numbers for its new ones.
    fn goes_on(&self, work: &Work)
        requires { IsWork self.now work.now }
        ensures sound { (it : Running) → runs_at self.now work.now.txn ≡ Some it → RowsAreSound (changed_all (seen_by self.now.committed it.so_far) (changes_of work.now.outcome.effect)) }
        ensures range { (it : Running) → runs_at self.now work.now.txn ≡ Some it → InRange it.ctx.next (changes_of work.now.outcome.effect) }
    {
        core_rules_are_safe();
        events_keep();
        changes_go_on();
        rows_stay_sound();
        let _ = &self.committed;
    }

    /// Ends a transaction, if it runs.
    pub fn rollback(&mut self, txn: u64) -> Result<(), Refusal>
        ensures happens { Happens (RollsBack txn) self.old self.new }
        ensures runs { OnOk result (is_some (runs_at self.old txn) ≡ true) }
        ensures err { OnErr result (self.new ≡ self.old) }
        ensures why { IfErr result (λ why. NotRunning self.old txn why) }
    {
        match self.find(txn) {
            Some(_) => {
                self.end(txn);
                Ok(())
            }
            None => Err(Refusal::TxnState(TxnState::NoneInProgress)),
        }
    }

    /// Takes the transaction away, if it runs, and gives what is left of it. It takes no memory.
    pub fn end(&mut self, txn: u64) -> Option<Remains>
        ensures happens { Happens (RollsBack txn) self.old self.new }
        ensures over { runs_at self.new txn ≡ None }
        ensures left { Leaves txn (runs_at self.old txn) result }
    {
        let opened = self.running.remove(&txn);
        self.conflicts.rollback(txn);
        remains_of(opened)
    }

    /// The running transaction of that number.
    fn find(&self, txn: u64) -> Option<&Open>
        ensures some { IfSome result (λ it. RunsOn self.now txn it.now) }
        ensures none { IfNone result (runs_at self.now txn ≡ None) }
    {
        match self.running.get(&txn) {
            Some(it) => Some(it),
            None => None,
        }
    }

    /// What the transaction posted, each statement with what it came to; nothing if it doesn't run.
    pub fn posts(&self, txn: u64) -> &[Share<Posted>]
        ensures statements { map statement_of result.now ≡ statements_at (runs_at self.now txn) }
        ensures effects { map effect_of result.now ≡ effects_at (runs_at self.now txn) }
    {
        match self.find(txn) {
            Some(it) => it.posts(),
            None => &[],
        }
    }

    /// What the statement comes to on the transaction's own view.
    pub fn work(
        &self,
        alloc: Global,
        txn: u64,
        statement: Share<Statement>,
    ) -> Result<Work, Refusal>
        ensures ok { IfOk result (λ work. IsWork self.now work) }
        ensures asked { IfOk result (λ work. (work.txn ≡ txn) × (work.statement ≡ statement)) }
        ensures err { IfErr result (λ why. NotWorked self.now txn why) }
    {
        match self.find(txn) {
            Some(it) => match it.work(alloc, txn, statement) {
                Ok(work) => Ok(work),
                Err(_) => Err(Refusal::NoMemory),
            },
            None => Err(Refusal::TxnState(TxnState::NoneInProgress)),
        }
    }

    /// Puts a statement and what it came to behind those of the transaction. Where a concurrent one wrote an object that it writes,
    /// the transaction ends.
    pub fn admit(&mut self, alloc: Global, work: Work) -> Result<(), Refusal>
        requires { IsWork self.old work }
        ensures ok { OnOk result (Happens (Posts work.txn work.statement) self.old self.new) }
        ensures runs { OnOk result (is_some (runs_at self.new work.txn) ≡ true) }
        ensures err { IfErr result (λ why. NotPosted work.txn work.statement self.old self.new why) }
    {
        match self.admit_or_end(alloc, work) {
            Ok(()) => Ok(()),
            Err((refusal, left)) => {
                drop(left);
                Err(refusal)
            }
        }
    }

    /// The same. What is left of a transaction that ends goes with the refusal.
    pub fn admit_or_end(
        &mut self,
        alloc: Global,
        work: Work,
    ) -> Result<(), (Refusal, Option<Remains>)>
        requires { IsWork self.old work }
        ensures ok { OnOk result (Happens (Posts work.txn work.statement) self.old self.new) }
        ensures runs { OnOk result (is_some (runs_at self.new work.txn) ≡ true) }
        ensures err { IfErr result (λ refused. NotPosted work.txn work.statement self.old self.new refused.0) }
        ensures left { IfErr result (λ refused. LeftBy work.txn (runs_at self.old work.txn) refused.0 refused.1) }
    {
        if self.is_running(work.txn) {
            return self.follow(alloc, work);
        }
        Err((Refusal::TxnState(TxnState::NoneInProgress), None))
    }

    /// Whether the transaction runs.
    pub fn is_running(&self, txn: u64) -> bool
        ensures { result ≡ is_some (runs_at self.now txn) }
    {
        self.find(txn).is_some()
    }

    /// Puts work behind that of a transaction that runs.
    fn follow(&mut self, alloc: Global, work: Work) -> Result<(), (Refusal, Option<Remains>)>
        requires work { IsWork self.old work }
        requires runs { is_some (runs_at self.old work.txn) ≡ true }
        ensures ok { OnOk result (Happens (Posts work.txn work.statement) self.old self.new) }
        ensures runs { OnOk result (is_some (runs_at self.new work.txn) ≡ true) }
        ensures err { IfErr result (λ refused. NotPosted work.txn work.statement self.old self.new refused.0) }
        ensures left { IfErr result (λ refused. LeftBy work.txn (runs_at self.old work.txn) refused.0 refused.1) }
    {
        self.goes_on(&work);
        posts_are_tested();
        self.conflicts.stands();
        let txn = work.txn;
        let refusal = match put(&mut self.running, &mut self.conflicts, alloc, work) {
            Ok(()) => return Ok(()),
            Err(refusal) => refusal,
        };
        if is_serial(&refusal) {
            let opened = self.running.remove(&txn);
            self.conflicts.rollback(txn);
            return Err((refusal, remains_of(opened)));
        }
        Err((Refusal::NoMemory, None))
    }

    /// Posts a statement.
    pub fn post(
        &mut self,
        alloc: Global,
        txn: u64,
        statement: Share<Statement>,
    ) -> Result<(), Refusal>
        ensures ok { OnOk result (Happens (Posts txn statement) self.old self.new) }
        ensures runs { OnOk result (is_some (runs_at self.new txn) ≡ true) }
        ensures err { IfErr result (λ why. NotPosted txn statement self.old self.new why) }
    {
        match self.work(alloc, txn, statement) {
            Ok(work) => self.admit(alloc, work),
            Err(refusal) => Err(refusal),
        }
    }

    /// Makes a commit ready: its test, and all its memory.
    pub fn ready(&self, alloc: Global, txn: u64) -> Result<Ready, Refusal>
        ensures ok { IfOk result (λ ready. IsReady self.now txn ready) }
        ensures err { IfErr result (λ why. NotReady self.now txn why) }
    {
        structures_are_found();
        match self.running.get(&txn) {
            Some(opened) => make(alloc, &self.conflicts, &self.versions, txn, opened),
            None => Err(Refusal::TxnState(TxnState::NoneInProgress)),
        }
    }

    /// Commits what is ready. It takes no memory.
    pub fn seal(&mut self, txn: u64, ready: Ready)
        requires { IsReady self.old txn ready }
        ensures { Happens (Commits txn) self.old self.new }
    {
        self.conflicts.stands();
        let Ready {
            entry,
            state,
            commit,
        } = ready;
        self.running.remove(&txn);
        self.conflicts.seal(txn, commit);
        self.committed.push_reserved(entry);
        self.versions.seal(state);
    }

    /// Commits a transaction, and answers how many have committed then. Where it would stand in a dangerous structure, it ends.
    pub fn commit(&mut self, alloc: Global, txn: u64) -> Result<u64, Refusal>
        ensures number { IfOk result (λ commit. commit ≡ suc (length self.old.committed)) }
        ensures ok { OnOk result (Happens (Commits txn) self.old self.new) }
        ensures may { OnOk result ((it : Running) × MayCommit self.old txn it) }
        ensures err { IfErr result (λ why. NotCommitted txn self.old self.new why) }
    {
        match self.ready(alloc, txn) {
            Ok(ready) => {
                self.seal(txn, ready);
                Ok(self.commits())
            }
            Err(refusal) => Err(self.refuse(txn, refusal)),
        }
    }

    /// Ends the transaction where its commit is refused for a dangerous structure.
    fn refuse(&mut self, txn: u64, refusal: Refusal) -> Refusal
        requires { NotReady self.old txn refusal }
        ensures { NotCommitted txn self.old self.new result }
    {
        if is_serial(&refusal) {
            self.end(txn);
            return refusal;
        }
        refusal
    }

    /// How many have committed.
    pub fn commits(&self) -> u64
        ensures { result ≡ length self.now.committed }
    {
        let _ = &self.committed;
        self.versions.commits() as u64
    }

    /// The records of those that committed, in the order of their commits. They have an order that keeps what has to stand before
    /// what, and each such order explains them.
    pub fn history(&self) -> &[Record]
        ensures records { result.now ≡ self.now.committed }
        ensures ordered { HaveOrder (world_of self.now) }
        ensures explained { AreExplained (world_of self.now) }
        ensures found { EachFindsSnapshots (world_of self.now) }
    {
        core_rules_are_safe();
        committed_are_serial();
        self.committed.as_slice()
    }

    /// The numbers of those that committed, in an order that keeps what has to stand before what.
    pub fn order(&self, alloc: Global) -> Result<Vec<u64>, AllocError>
        ensures { IfOk result (λ numbers. IsOrderBy self.now.committed numbers.items) }
    {
        core_rules_are_safe();
        events_keep();
        let places = self.conflicts.order(alloc)?;
        numbers_at(alloc, self.committed.as_slice(), places.as_slice())
    }
}

/// What is left of a transaction that was taken away.
fn remains_of(opened: Option<Open>) -> Option<Remains>
    ensures { result ≡ option_map remains_by opened }
{
    match opened {
        Some(opened) => Some(opened.into_remains()),
        None => None,
    }
}

/// Whether the refusal is a serialization failure.
fn is_serial(refusal: &Refusal) -> bool
    ensures { result ≡ is_serial refusal.now }
{
    match refusal {
        Refusal::Serial(_) => true,
        _ => false,
    }
}

/// Whether a transaction may begin so on the state.
fn is_admitted(alloc: Global, state: &State, begin: &Begin) -> Result<bool, AllocError>
    ensures { IfOk result (λ admitted. admitted ≡ may_begin state.now begin.now) }
{
    let mut source = state.view();
    let may_login = match source.role(alloc, &begin.login)? {
        Some(role) => role.login,
        None => false,
    };
    let is_there = source.role(alloc, &begin.role)?.is_some();
    Ok(may_login && is_there)
}

/// Makes room for so many commits more.
fn reserve(
    committed: &mut Vec<Record>,
    versions: &mut Versions,
    more: usize,
) -> Result<(), AllocError>
    ensures room { OnOk result (length committed.old.items + more ≤ vec_capacity committed.new) }
    ensures places { OnOk result (more ≤ versions.new.room) }
    ensures items { committed.new.items ≡ committed.old.items }
    ensures states { versions.new.states ≡ versions.old.states }
    ensures capacity { vec_capacity committed.old ≤ vec_capacity committed.new }
    ensures grows { versions.old.room ≤ versions.new.room }
{
    committed.reserve(more)?;
    versions.reserve(more)
}

/// Puts a transaction that begins on the state among those that run, here and in the record of transactions.
fn start(
    running: &mut BTreeMap<u64, Open>,
    conflicts: &mut Conflicts,
    alloc: Global,
    txn: u64,
    begin: Begin,
    state: &State,
) -> Result<(), AllocError>
    requires fresh { IsNew conflicts.old txn }
    requires free { at_number txn running.old.entries ≡ None }
    ensures looks { OnOk result (Looks txn (Some (opened_on txn begin state.now)) running.old.entries running.new.entries) }
    ensures len { OnOk result (length running.new.entries ≡ length running.old.entries + 1) }
    ensures known { OnOk result (Becomes txn (Some (beginning txn (length conflicts.old.committed))) conflicts.old conflicts.new) }
    ensures same { OnErr result (running.new.entries ≡ running.old.entries) }
    ensures kept { OnErr result (IsSame conflicts.old conflicts.new) }
{
    let opened = Open::new(alloc, txn, begin, state)?;
    match conflicts.begin(alloc, txn) {
        Ok(()) => match running.insert(txn, opened) {
            Ok(_) => Ok(()),
            Err(_) => {
                conflicts.rollback(txn);
                Err(AllocError)
            }
        },
        Err(refused) => {
            drop(opened);
            Err(refused)
        }
    }
}

/// Puts the work behind the posts of its transaction, here and in the record of transactions.
fn put(
    running: &mut BTreeMap<u64, Open>,
    conflicts: &mut Conflicts,
    alloc: Global,
    work: Work,
) -> Result<(), Refusal>
    requires runs { is_running conflicts.old work.txn ≡ true }
    requires follows { CanFollow work (at_number work.txn running.old.entries) }
    ensures free { OnOk result (IsFree conflicts.old work.txn (changes_of work.outcome.effect)) }
    ensures known { OnOk result (Becomes work.txn (option_map (posted 256 work.outcome.footprint (changes_of work.outcome.effect)) (running_of conflicts.old work.txn)) conflicts.old conflicts.new) }
    ensures looks { OnOk result (Looks work.txn (option_map (with_post (record { statement = work.statement; effect = work.outcome.effect })) (at_number work.txn running.old.entries)) running.old.entries running.new.entries) }
    ensures len { OnOk result (length running.new.entries ≡ length running.old.entries) }
    ensures err { IfErr result (IsRefusedBy conflicts.old work.txn (changes_of work.outcome.effect)) }
    ensures kept { OnErr result (conflicts.new ≡ conflicts.old) }
    ensures same { OnErr result (running.new.entries ≡ running.old.entries) }
{
    match running.get_mut(&work.txn) {
        Some(opened) => match opened.post(conflicts, alloc, work) {
            Ok(()) => Ok(()),
            Err(refusal) => Err(refusal),
        },
        None => {
            drop(work);
            Err(Refusal::NoMemory)
        }
    }
}

/// Makes the commit of the transaction ready.
fn make(
    alloc: Global,
    conflicts: &Conflicts,
    versions: &Versions,
    txn: u64,
    opened: &Open,
) -> Result<Ready, Refusal>
    requires running { is_running conflicts.now txn ≡ true }
    requires view { SeesNewest opened.now.view versions.now.states (running_at conflicts.now txn) }
    ensures commit { IfOk result (λ ready. commits.IsReady conflicts.now txn ready.commit) }
    ensures entry { IfOk result (λ ready. ready.entry ≡ record_of (running_at conflicts.now txn) opened.now.begin opened.now.posts) }
    ensures state { IfOk result (λ ready. ready.state ≡ changed_all (newest_of versions.now.states) (running_at conflicts.now txn).changes) }
    ensures safe { OnOk result (IsInNoStructure (with_commit_of conflicts.now txn) (length conflicts.now.committed)) }
    ensures err { IfErr result (IsBarredBy conflicts.now txn) }
{
    let commit = conflicts.ready(alloc, txn)?;
    match parts(alloc, versions, opened, commit.transaction()) {
        Ok((entry, state)) => Ok(Ready {
            entry,
            state,
            commit,
        }),
        Err(_) => {
            drop(commit);
            Err(Refusal::NoMemory)
        }
    }
}

/// The record of the transaction, and the newest state with its changes on.
fn parts(
    alloc: Global,
    versions: &Versions,
    opened: &Open,
    transaction: &Share<Transaction>,
) -> Result<(Record, State), AllocError>
    requires { SeesNewest opened.now.view versions.now.states transaction.now }
    ensures entry { IfOk result (λ made. made.0 ≡ record_of transaction.now opened.now.begin opened.now.posts) }
    ensures state { IfOk result (λ made. made.1 ≡ changed_all (newest_of versions.now.states) transaction.now.changes) }
{
    let state = state_of(alloc, versions, opened.view(), transaction.get())?;
    match entry_of(alloc, transaction, opened) {
        Ok(entry) => Ok((entry, state)),
        Err(refused) => {
            drop(state);
            Err(refused)
        }
    }
}

/// The newest state with the changes of the transaction on. Where nobody has committed since it began, that is what it sees.
fn state_of(
    alloc: Global,
    versions: &Versions,
    view: &State,
    transaction: &Transaction,
) -> Result<State, AllocError>
    requires { SeesNewest view.now versions.now.states transaction.now }
    ensures { IfOk result (λ state. state ≡ changed_all (newest_of versions.now.states) transaction.now.changes) }
{
    if is_latest(versions, transaction) {
        return view.copy();
    }
    versions.ready(alloc, &transaction.changes)
}

/// Whether nobody has committed since the transaction began.
fn is_latest(versions: &Versions, transaction: &Transaction) -> bool
    ensures { result ≡ true → transaction.now.snap + 1 ≡ length versions.now.states }
{
    transaction.snap == versions.commits()
}

fn entry_of(
    alloc: Global,
    transaction: &Share<Transaction>,
    opened: &Open,
) -> Result<Record, AllocError>
    ensures { IfOk result (λ entry. entry ≡ record_of transaction.now opened.now.begin opened.now.posts) }
{
    let transaction = transaction.copy()?;
    let begin = opened.begin().copy()?;
    Ok(Record {
        transaction,
        begin,
        posts: opened.share_posts(alloc)?,
    })
}

/// The numbers of the transactions at the places.
fn numbers_at(alloc: Global, records: &[Record], places: &[usize]) -> Result<Vec<u64>, AllocError>
    requires { All (λ place. place < length records.now) places.now }
    ensures { IfOk result (λ numbers. numbers.items ≡ map (λ place. (record_at records.now place).txn) places.now) }
{
    let mut numbers = Vec::with_capacity(alloc, places.len())?;
    for place in places {
        numbers.push(records[*place].txn())?;
    }
    Ok(numbers)
}

impl Core {
    /// The number of the next transaction that begins.
    pub fn next(&self) -> u64
        ensures number { result ≡ self.now.next }
        ensures free { runs_at self.now result ≡ None }
    {
        self.next
    }
}
