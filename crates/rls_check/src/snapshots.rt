//! Attempts in the states in which they began, each after as many commits of its audit as had been made then.

ghost use Rattle.std.specs.Prelude.{◌≡◌, [], List, None, get_or, length, map, replicate, IfOk, OnOk};
ghost use Rattle.std.specs.Option.{option_copied};
ghost use Rattle.rls_catalog.specs.declared.change.Change.{Change as Changed};
ghost use Rattle.rls_catalog.specs.Changed.{opening};
ghost use Rattle.rls_agreement.specs.Committing.{state_by};
ghost use Rattle.rls_check.specs.ShownAudits.{FirstDiffers};
ghost use Rattle.rls_check.specs.Snapshots as spec;
ghost use Rattle.rls_check.specs.Snapshots.{AreBegun, AreBegunAlong, AreKeptAfter, begun_in, put_all as all_put, put_turn as turn_put, put_with, states_on};
ghost use Rattle.rls_check.specs.Walking.{left, standings_along};

use crate::alone::push_changes;
use crate::attempts::Attempt;
use crate::audit::Audit;
use crate::finding::Finding;
use crate::ordering::places_of;
use crate::stored::Stored;
use crate::walking::{Turn, Walk, walk_from};
use crate::works::first_of;
use rls_audit::rls_access::Effect;
use rls_audit::rls_rows::State;
use rls_catalog::Delta;
use rls_value::Items;
use std::alloc::{AllocError, Global};

/// An attempt, and the state in which it began.
#[derive(Drop)]
pub struct Begun {
    pub(crate) attempt: Attempt,
    pub(crate) state: State,
}

/// Attempts in the states in which they began, and the first statement of the audit that comes to another answer than it shows.
#[derive(Drop)]
pub struct Attempts {
    pub begun: Vec<Begun>,
    pub differs: Option<Finding>,
}

impl Audit {
    /// The attempts, each in the state after as many commits as had been made when it began: of each commit that is put on which its
    /// transaction changes where all run alone along the order. None where the order isn't one.
    ///
    /// The transactions run once, whatever the attempts are. A state is kept only where an attempt began in it, and states share
    /// what didn't change between them.
    #[tactic(auto, using(crate::proofs::SnapshotLemmas::all_begun, crate::proofs::SnapshotLemmas::none_begun))]
    pub fn begin_attempts(
        &self,
        alloc: Global,
        attempts: Items<Attempt>,
    ) -> Result<Option<Attempts>, AllocError>
        ensures { IfOk result (AreBegun self.now.transactions self.now.order attempts) }
    {
        let transactions = self.transactions.as_slice();
        match places_of(alloc, transactions, self.order.as_slice())? {
            Some(places) => {
                let begun = begin_along(alloc, transactions, places, attempts);
                Ok(Some(begun?))
            }
            None => {
                drop(attempts);
                Ok(None)
            }
        }
    }
}

/// The same along these places.
fn begin_along(
    alloc: Global,
    transactions: &[Stored],
    places: Vec<usize>,
    attempts: Items<Attempt>,
) -> Result<Attempts, AllocError>
    ensures { IfOk result (AreBegunAlong transactions.now places.items attempts) }
{
    let mut deltas = no_changes(alloc, transactions.len())?;
    let begun = begin_with(alloc, transactions, places, attempts, &mut deltas);
    drop(deltas);
    begun
}

/// The same, where no changes are put yet.
fn begin_with(
    alloc: Global,
    transactions: &[Stored],
    places: Vec<usize>,
    attempts: Items<Attempt>,
    deltas: &mut Vec<Delta>,
) -> Result<Attempts, AllocError>
    requires empty { deltas.old.items ≡ replicate (length transactions.now) [] }
    ensures { IfOk result (AreBegunAlong transactions.now places.items attempts) }
{
    let differs = run_all(alloc, transactions, places, deltas)?;
    let begun = begin_each(alloc, deltas.as_slice(), attempts)?;
    Ok(Attempts { begun, differs })
}

/// No changes of so many transactions.
fn no_changes(alloc: Global, count: usize) -> Result<Vec<Delta>, AllocError>
    ensures { IfOk result (λ deltas. deltas.items ≡ replicate count []) }
{
    let mut deltas = Vec::with_capacity(alloc, count)?;
    for i in 0..count {
        let _place = i;
        deltas.push(Delta::new(alloc))?;
    }
    Ok(deltas)
}

/// Runs all, and puts what each changes behind what is there; the first statement that comes to another answer than the audit shows.
#[tactic(auto, using(crate::proofs::GraphWorkLemmas::differs_of_same))]
fn run_all(
    alloc: Global,
    transactions: &[Stored],
    places: Vec<usize>,
    deltas: &mut Vec<Delta>,
) -> Result<Option<Finding>, AllocError>
    ensures deltas { OnOk result (deltas.new.items ≡ all_put deltas.old.items (standings_along transactions.now opening places.items)) }
    ensures differs { IfOk result (FirstDiffers (standings_along transactions.now opening places.items)) }
{
    let mut walk = walk_from(alloc, transactions, places)?;
    let found = put_all(alloc, &mut walk, deltas);
    drop(walk);
    found
}

/// The same of the statements that are still to come.
#[tactic(auto, using(crate::proofs::SnapshotLemmas::put_end, crate::proofs::GraphWorkLemmas::found_all, crate::proofs::GraphWorkLemmas::fewer_left))]
fn put_all<'a>(
    alloc: Global,
    walk: &mut Walk<'a>,
    deltas: &mut Vec<Delta>,
) -> Result<Option<Finding>, AllocError>
    ensures deltas { OnOk result (deltas.new.items ≡ all_put deltas.old.items (left walk.old)) }
    ensures differs { IfOk result (FirstDiffers (left walk.old)) }
{
    let mut found = None;
    while let Some(turn) = walk.next(alloc)? {
        found = first_of(found, &turn);
        put_turn(alloc, deltas, turn)?;
    }
    Ok(found)
}

/// Of the statement.
fn put_turn(alloc: Global, deltas: &mut Vec<Delta>, turn: Turn) -> Result<(), AllocError>
    ensures { OnOk result (deltas.new.items ≡ turn_put deltas.old.items turn) }
{
    let put = put_at(alloc, deltas, turn.place, &turn.outcome.effect);
    drop(turn);
    put
}

fn put_at(
    alloc: Global,
    deltas: &mut Vec<Delta>,
    place: usize,
    effect: &Effect,
) -> Result<(), AllocError>
    ensures { OnOk result (deltas.new.items ≡ put_with deltas.old.items place effect.now) }
{
    match deltas.get_mut(place) {
        Some(delta) => match push_changes(alloc, delta, effect) {
            Ok(()) => Ok(()),
            Err(refused) => Err(refused),
        },
        None => Ok(()),
    }
}

/// Each of the attempts in the state in which it began, of commits with these changes.
fn begin_each(
    alloc: Global,
    deltas: &[Delta],
    attempts: Items<Attempt>,
) -> Result<Vec<Begun>, AllocError>
    ensures { IfOk result (λ begun. begun.items ≡ map (begun_in deltas.now) attempts) }
{
    let kept = states_asked(alloc, deltas, attempts.as_slice())?;
    let begun = begin_all(alloc, kept.as_slice(), attempts);
    drop(kept);
    begun
}

/// The same, where their states are kept.
#[tactic(auto, using(crate::proofs::SnapshotLemmas::begun_whole))]
fn begin_all(
    alloc: Global,
    kept: &[Option<State>],
    attempts: Items<Attempt>,
) -> Result<Vec<Begun>, AllocError>
    ensures { (deltas : List (List Changed)) → AreKeptAfter deltas kept.now → IfOk result (λ begun. begun.items ≡ map (begun_in deltas) attempts) }
{
    let mut begun = Vec::with_capacity(alloc, attempts.len())?;
    for attempt in attempts.into_vec() {
        let one = begin(kept, attempt)?;
        begun.push(one)?;
    }
    Ok(begun)
}

/// The attempt in its state, which is kept.
fn begin(kept: &[Option<State>], attempt: Attempt) -> Result<Begun, AllocError>
    ensures { (deltas : List (List Changed)) → AreKeptAfter deltas kept.now → IfOk result (λ begun. begun ≡ begun_in deltas attempt) }
{
    match state_kept(kept, attempt.ran.snap) {
        Ok(state) => Ok(Begun { attempt, state }),
        Err(refused) => {
            drop(attempt);
            Err(refused)
        }
    }
}

/// The state after so many commits. It is kept, since an attempt asked for it; none asks for more commits than there are.
#[tactic(auto, using(crate::proofs::SnapshotLemmas::kept_there))]
fn state_kept(kept: &[Option<State>], commits: u64) -> Result<State, AllocError>
    ensures { (deltas : List (List Changed)) → AreKeptAfter deltas kept.now → IfOk result (λ state. state ≡ state_by deltas commits) }
{
    match kept_at(kept, commits as usize) {
        Some(state) => {
            let state = state.copy()?;
            Ok(state)
        }
        None => Err(AllocError),
    }
}

/// The state that is kept at the place.
#[tactic(auto, using(crate::proofs::SnapshotLemmas::one_kept, crate::proofs::SnapshotLemmas::none_kept))]
fn kept_at(kept: &[Option<State>], place: usize) -> Option<&State>
    ensures { option_copied result ≡ get_or kept.now place None }
{
    if place < kept.len() {
        kept[place].as_ref()
    } else {
        None
    }
}

/// The states after commits with these changes, each at the number of its commits, where one of the attempts began in it.
#[tactic(auto, using(crate::proofs::SnapshotLemmas::kept_after))]
fn states_asked(
    alloc: Global,
    deltas: &[Delta],
    attempts: &[Attempt],
) -> Result<Vec<Option<State>>, AllocError>
    ensures { IfOk result (λ kept. AreKeptAfter deltas.now kept.items) }
{
    let asked = numbers_asked(alloc, deltas.len(), attempts)?;
    states_at(alloc, deltas, asked.as_slice())
}

/// Of each number of commits up to this, whether one of the attempts began after so many.
fn numbers_asked(
    alloc: Global,
    commits: usize,
    attempts: &[Attempt],
) -> Result<Vec<bool>, AllocError> {
    let mut asked = none_asked(alloc, commits)?;
    for attempt in attempts {
        if let Some(one) = asked.get_mut(attempt.ran.snap as usize) {
            *one = true;
        }
    }
    Ok(asked)
}

fn none_asked(alloc: Global, commits: usize) -> Result<Vec<bool>, AllocError> {
    let mut asked = Vec::new(alloc);
    for i in 0..=commits {
        let _number = i;
        asked.push(false)?;
    }
    Ok(asked)
}

/// The states at the numbers that are asked for.
fn states_at(
    alloc: Global,
    mut deltas: &[Delta],
    mut asked: &[bool],
) -> Result<Vec<Option<State>>, AllocError>
    ensures { IfOk result (λ kept. kept.items ≡ states_on opening deltas.entry.now asked.entry.now) }
{
    let mut state = State::opening(alloc)?;
    let mut kept = Vec::with_capacity(alloc, asked.len())?;
    while let [one, more @ ..] = asked {
        kept.push(state_if(*one, &state)?)?;
        state = state_next(alloc, &state, deltas)?;
        deltas = behind_first(deltas);
        asked = more;
    }
    Ok(kept)
}

/// The state behind the first of the commits with these changes; the same where there is none.
fn state_next(alloc: Global, state: &State, deltas: &[Delta]) -> Result<State, AllocError>
    ensures { IfOk result (λ next. next ≡ spec.state_next state.now deltas.now) }
{
    match deltas {
        [] => state.copy(),
        [delta, ..] => state.with(alloc, delta),
    }
}

/// The others.
fn behind_first(deltas: &[Delta]) -> &[Delta]
    ensures { result.now ≡ spec.behind_first deltas.now }
{
    match deltas {
        [] => deltas,
        [_, rest @ ..] => rest,
    }
}

fn state_if(asked: bool, state: &State) -> Result<Option<State>, AllocError>
    ensures { IfOk result (λ kept. kept ≡ spec.state_if asked state.now) }
{
    if asked {
        let state = state.copy()?;
        Ok(Some(state))
    } else {
        Ok(None)
    }
}
