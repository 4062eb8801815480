//! What a report counts of an audit before it is written.

ghost use Rattle.std.specs.Prelude.{◌≡◌, ◌<◌, filter, length, map, replicate, IfOk, OnOk};
ghost use Rattle.std.specs.List.{All};
ghost use Rattle.rls_catalog.specs.Changed.{opening};
ghost use Rattle.rls_check.specs.GraphSteps.{EachBegan, conflicts_along as spec_conflicts_along, no_work, noted_all, snap_of};
ghost use Rattle.rls_check.specs.Plots.{has_both as spec_has_both};
ghost use Rattle.rls_check.specs.ShownAudits.{FirstDiffers};
ghost use Rattle.rls_check.specs.Surveys.{IsSurvey};
ghost use Rattle.rls_check.specs.Tallies.{no_tally, tallied_all};
ghost use Rattle.rls_check.specs.Walking.{left, standings_along};

use crate::edges::Conflict;
use crate::filtering::ShownFilter;
use crate::finding::Finding;
use crate::graph::{conflicts_along, snaps_of};
use crate::plot::tally_at;
use crate::progress::Progress;
use crate::stored::Stored;
use crate::tallies::{Tally, count_turn, no_tallies};
use crate::walking::{Walk, walk_from};
use crate::works::{Work, first_of, no_works, note};
use rls_value::Items;
use std::alloc::{AllocError, Global};

/// What is counted.
#[derive(Drop)]
pub(crate) struct Survey {
    /// Of each transaction, in the order of commits.
    pub(crate) tallies: Vec<Tally>,
    /// The rw-antidependencies between transactions of which the report has a statement.
    pub(crate) conflicts: Vec<Conflict>,
    /// The first statement that comes to another answer than the audit shows.
    pub(crate) differs: Option<Finding>,
}

/// Of the transactions along the places.
pub(crate) fn survey_along<P: Progress>(
    alloc: Global,
    wanted: &ShownFilter,
    transactions: &[Stored],
    places: &[usize],
    progress: &mut P,
) -> Result<Survey, AllocError>
    requires within { All (λ place. place < length transactions.now) places.now }
    requires began { EachBegan transactions.now }
    ensures { IfOk result (IsSurvey wanted.now transactions.now places.now) }
{
    let mut works = no_works(alloc, transactions.len())?;
    let surveyed = survey_noted(alloc, wanted, transactions, places, &mut works, progress);
    drop(works);
    surveyed
}

/// The same, which notes what each transaction reads and changes, where nothing is noted yet.
fn survey_noted<P: Progress>(
    alloc: Global,
    wanted: &ShownFilter,
    transactions: &[Stored],
    places: &[usize],
    works: &mut Vec<Work>,
    progress: &mut P,
) -> Result<Survey, AllocError>
    requires within { All (λ place. place < length transactions.now) places.now }
    requires began { EachBegan transactions.now }
    requires empty { works.old.items ≡ replicate (length transactions.now) no_work }
    ensures { IfOk result (IsSurvey wanted.now transactions.now places.now) }
{
    let tallies = no_tallies(alloc, transactions.len())?;
    survey_with(
        alloc,
        wanted,
        transactions,
        places,
        works,
        tallies,
        progress,
    )
}

/// The same, where nothing is counted yet.
fn survey_with<P: Progress>(
    alloc: Global,
    wanted: &ShownFilter,
    transactions: &[Stored],
    places: &[usize],
    works: &mut Vec<Work>,
    nothing: Vec<Tally>,
    progress: &mut P,
) -> Result<Survey, AllocError>
    requires within { All (λ place. place < length transactions.now) places.now }
    requires began { EachBegan transactions.now }
    requires empty { works.old.items ≡ replicate (length transactions.now) no_work }
    requires uncounted { nothing.items ≡ replicate (length transactions.now) no_tally }
    ensures { IfOk result (IsSurvey wanted.now transactions.now places.now) }
{
    let mut tallies = nothing;
    let differs = run_all(
        alloc,
        wanted,
        transactions,
        places,
        works,
        &mut tallies,
        progress,
    )?;
    let noted = works.as_slice();
    let counted = tallies.as_slice();
    let conflicts = shown_conflicts(alloc, transactions, places, noted, counted)?;
    Ok(Survey {
        tallies,
        conflicts,
        differs,
    })
}

/// Runs all statements.
#[tactic(auto, using(crate::proofs::GraphWorkLemmas::differs_of_same))]
fn run_all<P: Progress>(
    alloc: Global,
    wanted: &ShownFilter,
    transactions: &[Stored],
    places: &[usize],
    works: &mut Vec<Work>,
    tallies: &mut Vec<Tally>,
    progress: &mut P,
) -> Result<Option<Finding>, AllocError>
    ensures works { OnOk result (works.new.items ≡ noted_all works.old.items (standings_along transactions.now opening places.now)) }
    ensures tallies { OnOk result (tallies.new.items ≡ tallied_all wanted.now tallies.old.items (standings_along transactions.now opening places.now)) }
    ensures differs { IfOk result (FirstDiffers (standings_along transactions.now opening places.now)) }
{
    let places = places.to_vec(alloc)?;
    let mut walk = walk_from(alloc, transactions, places)?;
    let found = count_all(alloc, wanted, &mut walk, works, tallies, progress);
    drop(walk);
    found
}

/// Counts the statements that are still to come, and notes what they read and change.
#[tactic(auto, using(crate::proofs::GraphWorkLemmas::noted_end, crate::proofs::SurveyLemmas::tallied_end, crate::proofs::GraphWorkLemmas::found_all, crate::proofs::GraphWorkLemmas::fewer_left))]
fn count_all<'a, P: Progress>(
    alloc: Global,
    wanted: &ShownFilter,
    walk: &mut Walk<'a>,
    works: &mut Vec<Work>,
    tallies: &mut Vec<Tally>,
    progress: &mut P,
) -> Result<Option<Finding>, AllocError>
    ensures works { OnOk result (works.new.items ≡ noted_all works.old.items (left walk.old)) }
    ensures tallies { OnOk result (tallies.new.items ≡ tallied_all wanted.now tallies.old.items (left walk.old)) }
    ensures differs { IfOk result (FirstDiffers (left walk.old)) }
{
    let mut found = None;
    while let Some(turn) = walk.next(alloc)? {
        progress.done(walk.done());
        found = first_of(found, &turn);
        count_turn(alloc, wanted, tallies, &turn)?;
        note(alloc, works, turn)?;
    }
    Ok(found)
}

/// The rw-antidependencies between transactions of which the report has a statement.
fn shown_conflicts(
    alloc: Global,
    transactions: &[Stored],
    places: &[usize],
    works: &[Work],
    tallies: &[Tally],
) -> Result<Vec<Conflict>, AllocError>
    ensures { IfOk result (λ conflicts. conflicts.items ≡ filter (spec_has_both tallies.now) (spec_conflicts_along (map snap_of transactions.now) places.now works.now)) }
{
    let snaps = snaps_of(alloc, transactions)?;
    let conflicts = conflicts_along(alloc, snaps.as_slice(), places, works);
    drop(snaps);
    those_shown(alloc, tallies, conflicts?)
}

fn those_shown(
    alloc: Global,
    tallies: &[Tally],
    conflicts: Items<Conflict>,
) -> Result<Vec<Conflict>, AllocError>
    ensures { IfOk result (λ kept. kept.items ≡ filter (spec_has_both tallies.now) conflicts) }
{
    let mut kept = Vec::new(alloc);
    for it in conflicts.into_vec() {
        if has_both(tallies, &it) {
            kept.push(it)?;
        }
    }
    Ok(kept)
}

fn has_both(tallies: &[Tally], it: &Conflict) -> bool
    ensures { result ≡ spec_has_both tallies.now it.now }
{
    tally_at(tallies, it.reader).has_statements() && tally_at(tallies, it.writer).has_statements()
}
