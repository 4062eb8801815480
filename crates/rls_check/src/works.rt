//! What transactions read and changed, each run alone at its place.

ghost use Rattle.std.specs.Prelude.{◌≡◌, replicate, IfOk, OnOk};
ghost use Rattle.rls_explain.specs.rls_meaning.specs.rls_guard.specs.Effects.{changes_of};
ghost use Rattle.rls_explain.specs.rls_meaning.specs.rls_guard.specs.rls_source.specs.Footprints.{with_reads};
ghost use Rattle.rls_audit.specs.rls_conflict.specs.Covering.{covered_of};
ghost use Rattle.rls_check.specs.GraphSteps.{found_first, no_work, noted_all, noted_turn, noted_with, with_statement};
ghost use Rattle.rls_check.specs.ShownAudits.{FirstDiffers};
ghost use Rattle.rls_check.specs.Walking.{left};

use crate::finding::Finding;
use crate::walking::{Turn, Walk};
use rls_audit::rls_access::{Effect, Outcome};
use rls_audit::rls_core::rls_conflict::rls_siread::covered;
use rls_explain::rls_guard::rls_source::Footprint;
use std::alloc::{AllocError, Global};

/// The objects that a transaction read so far, and those that its changes cover.
#[derive(Drop)]
pub(crate) struct Work {
    pub(crate) reads: Footprint,
    pub(crate) covered: Footprint,
}

/// Nothing, of so many transactions.
pub(crate) fn no_works(alloc: Global, count: usize) -> Result<Vec<Work>, AllocError>
    ensures { IfOk result (λ works. works.items ≡ replicate count no_work) }
{
    let mut works = Vec::with_capacity(alloc, count)?;
    for i in 0..count {
        let _place = i;
        works.push(Work::nothing(alloc))?;
    }
    Ok(works)
}

/// Notes what the statements that are still to come read and change; the first that comes to another answer than the audit shows.
#[tactic(auto, using(crate::proofs::GraphWorkLemmas::noted_end, crate::proofs::GraphWorkLemmas::found_all, crate::proofs::GraphWorkLemmas::fewer_left))]
pub(crate) fn note_all<'a>(
    alloc: Global,
    walk: &mut Walk<'a>,
    works: &mut Vec<Work>,
) -> Result<Option<Finding>, AllocError>
    ensures works { OnOk result (works.new.items ≡ noted_all works.old.items (left walk.old)) }
    ensures differs { IfOk result (FirstDiffers (left walk.old)) }
{
    let mut found = None;
    while let Some(turn) = walk.next(alloc)? {
        found = first_of(found, &turn);
        note(alloc, works, turn)?;
    }
    Ok(found)
}

/// What was found before, else whether the statement comes to another answer.
pub(crate) fn first_of(found: Option<Finding>, turn: &Turn) -> Option<Finding>
    ensures { result ≡ found_first found turn.now }
{
    match found {
        Some(found) => Some(found),
        None if turn.agrees => None,
        None => Some(Finding::Reply(turn.ctx.txn, turn.number)),
    }
}

/// Notes what the statement reads and changes.
pub(crate) fn note(alloc: Global, works: &mut Vec<Work>, turn: Turn) -> Result<(), AllocError>
    ensures { OnOk result (works.new.items ≡ noted_turn works.old.items turn) }
{
    let noted = note_at(alloc, works, turn.place, &turn.outcome);
    drop(turn);
    noted
}

fn note_at(
    alloc: Global,
    works: &mut Vec<Work>,
    place: usize,
    outcome: &Outcome,
) -> Result<(), AllocError>
    ensures { OnOk result (works.new.items ≡ noted_with works.old.items place outcome.now.footprint outcome.now.effect) }
{
    match works.get_mut(place) {
        Some(work) => match work.note(alloc, outcome) {
            Ok(()) => Ok(()),
            Err(refused) => Err(refused),
        },
        None => Ok(()),
    }
}

impl Work {
    fn nothing(alloc: Global) -> Work
        ensures { result ≡ no_work }
    {
        Work {
            reads: Footprint::new(alloc),
            covered: Footprint::new(alloc),
        }
    }

    /// Notes what a statement reads, whether it is refused or not, and what it changes.
    fn note(&mut self, alloc: Global, outcome: &Outcome) -> Result<(), AllocError>
        ensures { OnOk result (self.new ≡ with_statement self.old outcome.now.footprint outcome.now.effect) }
    {
        add_all(alloc, &mut self.reads, &outcome.footprint)?;
        add_covered(alloc, &mut self.covered, &outcome.effect)
    }
}

/// Adds the objects that the changes of the effect cover.
fn add_covered(alloc: Global, objects: &mut Footprint, effect: &Effect) -> Result<(), AllocError>
    ensures { OnOk result (objects.new ≡ with_reads objects.old (covered_of (changes_of effect.now))) }
{
    match effect {
        Effect::Done(_, _, delta, _) => {
            let more = covered(alloc, delta.as_slice())?;
            add_all(alloc, objects, &more)
        }
        Effect::Refused(_, _) => Ok(()),
    }
}

fn add_all(alloc: Global, objects: &mut Footprint, more: &Footprint) -> Result<(), AllocError>
    ensures { OnOk result (objects.new ≡ with_reads objects.old more.now) }
{
    let more = more.to_vec(alloc)?;
    objects.note_all(alloc, more.as_slice())
}
