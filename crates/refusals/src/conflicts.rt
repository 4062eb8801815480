//! Calls of what conflicts between transactions.

use crate::opening::{INFORMATION, outcome_of, state_after};
use rls_session::rls_access::{Effect, Outcome};
use rls_session::rls_core::rls_conflict::Conflicts;
use rls_session::rls_core::rls_guard::rls_catalog::rls_value::{Cause, Refusal};
use rls_session::rls_core::rls_guard::rls_catalog::{Catalog, Delta};
use rls_session::rls_equality::are_both_same;
use scenario::{Scenario, after, play};
use std::alloc::Global;

/// The keys of one table that a transaction notes before its rows stand for them.
const MANY: usize = 256;

/// Mallory's transaction, and alice's.
const MALLORY: u64 = 17;

const ALICE: u64 = 18;

/// What the two come to: mallory notes on what she sees, and alice counts and takes her group away.
#[derive(Drop)]
struct Skew {
    outcomes: Vec<Outcome>,
}

/// The places of these.
const NOTE: usize = 0;

const COUNT: usize = 1;

const TAKE: usize = 2;

const STATEMENTS: [(u64, &str, &str); 3] = [
    (
        MALLORY,
        "mallory",
        "UPDATE information SET info = 'noted' WHERE group_id = 1",
    ),
    (ALICE, "alice", "SELECT count(*) FROM information"),
    (
        ALICE,
        "alice",
        "UPDATE users SET group_id = 1 WHERE user_name = 'mallory'",
    ),
];

impl Skew {
    fn new(alloc: Global) -> Result<Skew, Refusal> {
        let state = state_after(alloc, &INFORMATION)?;
        let skew = Skew::on(alloc, &state);
        drop(state);
        skew
    }

    /// What they come to in the state.
    fn on(alloc: Global, state: &Catalog) -> Result<Skew, Refusal> {
        let mut skew = Skew {
            outcomes: Vec::new(alloc),
        };
        let put = skew.put_all(alloc, state);
        after(skew, put)
    }

    fn put_all(&mut self, alloc: Global, state: &Catalog) -> Result<(), Refusal> {
        for (txn, role, text) in STATEMENTS {
            self.outcomes
                .push(outcome_of(alloc, state, txn, role, text)?)?;
        }
        Ok(())
    }

    fn get(&self, place: usize) -> Result<&Outcome, Refusal> {
        match self.outcomes.get(place) {
            Some(outcome) => Ok(outcome),
            None => Err(Refusal::Foreign),
        }
    }
}

/// The changes that a statement makes.
fn changes_of(outcome: &Outcome) -> Result<&Delta, Refusal> {
    match &outcome.effect {
        Effect::Done(_, _, delta, _) => Ok(delta),
        Effect::Refused(_, _) => Err(Refusal::Foreign),
    }
}

/// The transaction begins, if it is new.
fn begin(conflicts: &mut Conflicts, alloc: Global, txn: u64) -> Result<(), Refusal> {
    if conflicts.is_new(txn) {
        Ok(conflicts.begin(alloc, txn)?)
    } else {
        Err(Refusal::Foreign)
    }
}

/// The transaction posts, if it runs.
fn post(
    conflicts: &mut Conflicts,
    alloc: Global,
    txn: u64,
    outcome: &Outcome,
) -> Result<(), Refusal> {
    let delta = changes_of(outcome)?;
    if conflicts.is_running(txn) {
        let footprint = outcome.footprint.copy(alloc)?;
        conflicts.post(alloc, txn, footprint, delta, MANY)
    } else {
        Err(Refusal::Foreign)
    }
}

/// The transaction commits, if it runs.
fn commit(conflicts: &mut Conflicts, alloc: Global, txn: u64) -> Result<usize, Refusal> {
    if conflicts.is_running(txn) {
        conflicts.commit(alloc, txn)
    } else {
        Err(Refusal::Foreign)
    }
}

/// The cause for which the transaction may not commit, if it runs.
fn cause(conflicts: &Conflicts, alloc: Global, txn: u64) -> Result<Option<Cause>, Refusal> {
    if conflicts.is_running(txn) {
        Ok(conflicts.dangerous(alloc, txn)?)
    } else {
        Ok(None)
    }
}

/// The two beside each other. Mallory has posted.
fn begun(alloc: Global, skew: &Skew) -> Result<Conflicts, Refusal> {
    let mut conflicts = Conflicts::new(alloc);
    let came = begin_two(&mut conflicts, alloc, skew);
    after(conflicts, came)
}

fn begin_two(conflicts: &mut Conflicts, alloc: Global, skew: &Skew) -> Result<(), Refusal> {
    begin(conflicts, alloc, MALLORY)?;
    begin(conflicts, alloc, ALICE)?;
    post(conflicts, alloc, MALLORY, skew.get(NOTE)?)
}

/// Alice has posted too, and mallory has committed.
fn dangerous(alloc: Global, skew: &Skew) -> Result<Conflicts, Refusal> {
    let mut conflicts = begun(alloc, skew)?;
    let came = endanger(&mut conflicts, alloc, skew);
    after(conflicts, came)
}

fn endanger(conflicts: &mut Conflicts, alloc: Global, skew: &Skew) -> Result<(), Refusal> {
    post(conflicts, alloc, ALICE, skew.get(COUNT)?)?;
    post(conflicts, alloc, ALICE, skew.get(TAKE)?)?;
    commit(conflicts, alloc, MALLORY)?;
    Ok(())
}

/// Whether the public calls say the same of both.
fn are_same(left: &Conflicts, right: &Conflicts, alloc: Global) -> Result<bool, Refusal> {
    for txn in [MALLORY, ALICE, 19] {
        if left.is_running(txn) != right.is_running(txn)
            || left.is_new(txn) != right.is_new(txn)
            || !is_same_cause(left, right, alloc, txn)?
        {
            return Ok(false);
        }
    }
    Ok(left.commits() == right.commits())
}

/// Whether the transaction has the same cause in both, or none.
fn is_same_cause(
    left: &Conflicts,
    right: &Conflicts,
    alloc: Global,
    txn: u64,
) -> Result<bool, Refusal> {
    let wanted = cause(right, alloc, txn)?;
    let is_same = is_cause(left, alloc, txn, wanted.as_ref());
    drop(wanted);
    is_same
}

/// Whether the transaction has this cause, or none.
fn is_cause(
    conflicts: &Conflicts,
    alloc: Global,
    txn: u64,
    wanted: Option<&Cause>,
) -> Result<bool, Refusal> {
    let cause = cause(conflicts, alloc, txn)?;
    let is_same = are_both_same(cause.as_ref(), wanted);
    drop(cause);
    Ok(is_same)
}

/// Whether it has any.
fn has_cause(conflicts: &Conflicts, alloc: Global, txn: u64) -> Result<bool, Refusal> {
    let cause = cause(conflicts, alloc, txn)?;
    let is_some = cause.is_some();
    drop(cause);
    Ok(is_some)
}

/// What is asked of conflicts.
#[derive(Clone, Copy)]
enum Ask {
    /// The first transaction begins.
    Begin,
    /// Alice takes mallory's group away.
    Post,
    /// Whether alice may write what mallory wrote.
    Writes,
    /// Whether alice may commit behind mallory.
    Dangerous,
    /// Mallory is about to commit, or commits.
    Ready,
    Commit,
    /// Rows are to stand for all keys that were noted.
    Promote,
}

const ASKS: [(&str, Ask); 7] = [
    ("Conflicts::begin", Ask::Begin),
    ("Conflicts::post", Ask::Post),
    ("Conflicts::writes", Ask::Writes),
    ("Conflicts::dangerous", Ask::Dangerous),
    ("Conflicts::ready", Ask::Ready),
    ("Conflicts::commit", Ask::Commit),
    ("Conflicts::promote", Ask::Promote),
];

#[derive(Drop)]
struct Asking {
    ask: Ask,
    skew: Skew,
    conflicts: Conflicts,
}

/// The conflicts before the call.
fn brought(alloc: Global, ask: Ask, skew: &Skew) -> Result<Conflicts, Refusal> {
    match ask {
        Ask::Begin => Ok(Conflicts::new(alloc)),
        Ask::Dangerous | Ask::Promote => dangerous(alloc, skew),
        _ => begun(alloc, skew),
    }
}

/// Whether it is the first commit.
fn is_first(came: Result<usize, Refusal>) -> Result<bool, Refusal> {
    match came {
        Ok(commits) => Ok(commits == 1),
        Err(refusal) => Err(refusal),
    }
}

/// That the call came to its end.
fn done(came: Result<(), Refusal>) -> Result<bool, Refusal> {
    match came {
        Ok(()) => Ok(true),
        Err(refusal) => Err(refusal),
    }
}

impl Asking {
    fn new(alloc: Global, ask: Ask) -> Result<Asking, Refusal> {
        let skew = Skew::new(alloc)?;
        match brought(alloc, ask, &skew) {
            Ok(conflicts) => Ok(Asking {
                ask,
                skew,
                conflicts,
            }),
            Err(refusal) => {
                drop(skew);
                Err(refusal)
            }
        }
    }

    /// Whether mallory wrote what alice would write.
    fn is_written(&self, alloc: Global) -> Result<bool, Refusal> {
        let delta = changes_of(self.skew.get(NOTE)?)?;
        if !self.conflicts.is_running(ALICE) {
            return Err(Refusal::Foreign);
        }
        match self.conflicts.writes(alloc, ALICE, delta) {
            Ok(()) => Ok(false),
            Err(Refusal::Serial(cause)) => Ok(matches!(cause, Cause::Written(_, MALLORY))),
            Err(refusal) => Err(refusal),
        }
    }

    /// Whether mallory may commit.
    fn is_ready(&self, alloc: Global) -> Result<bool, Refusal> {
        if !self.conflicts.is_running(MALLORY) {
            return Err(Refusal::Foreign);
        }
        let ready = self.conflicts.ready(alloc, MALLORY)?;
        drop(ready);
        Ok(true)
    }

    fn take(&mut self, alloc: Global) -> Result<bool, Refusal> {
        let came = match self.skew.get(TAKE) {
            Ok(outcome) => post(&mut self.conflicts, alloc, ALICE, outcome),
            Err(refusal) => Err(refusal),
        };
        done(came)
    }

    fn promote(&mut self, alloc: Global) -> Result<bool, Refusal> {
        self.conflicts.promote(alloc, 0)?;
        Ok(true)
    }
}

impl Scenario for Asking {
    type Answer = bool;

    fn call(&mut self, alloc: Global) -> Result<bool, Refusal> {
        match self.ask {
            Ask::Begin => done(begin(&mut self.conflicts, alloc, ALICE)),
            Ask::Post => self.take(alloc),
            Ask::Writes => self.is_written(alloc),
            Ask::Dangerous => has_cause(&self.conflicts, alloc, ALICE),
            Ask::Ready => self.is_ready(alloc),
            Ask::Commit => is_first(commit(&mut self.conflicts, alloc, MALLORY)),
            Ask::Promote => self.promote(alloc),
        }
    }

    fn is_like(&self, twin: &Asking, alloc: Global) -> Result<bool, Refusal> {
        are_same(&self.conflicts, &twin.conflicts, alloc)
    }

    fn is_answer(&self, answer: &bool, alloc: Global) -> Result<bool, Refusal> {
        let conflicts = &self.conflicts;
        let is_so = match self.ask {
            Ask::Commit => conflicts.commits() == 1 && !conflicts.is_running(MALLORY),
            Ask::Promote => has_cause(conflicts, alloc, ALICE)?,
            _ => conflicts.is_running(ALICE),
        };
        Ok(*answer && is_so)
    }
}

pub fn play_all(rt: &impl Print, alloc: Global) {
    for (call, ask) in ASKS {
        play(
            rt,
            alloc,
            call,
            Asking::new(alloc, ask),
            Asking::new(alloc, ask),
        );
    }
}
