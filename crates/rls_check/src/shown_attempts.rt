//! What attempts did with rows, each run alone in the state in which it began.

ghost use Rattle.std.specs.Prelude.{◌≡◌, ◌++◌, Some, IfOk, OnOk};
ghost use Rattle.rls_check.specs.ShownAttempts.{IsBegunShown};
ghost use Rattle.rls_check.specs.ShownAudits.{FirstDiffers};
ghost use Rattle.rls_check.specs.ShownTexts.{text_of_all};
ghost use Rattle.rls_check.specs.Walking.{left_alone};

use crate::attempts::Attempt;
use crate::filtering::ShownFilter;
use crate::finding::Finding;
use crate::listing::Listed;
use crate::snapshots::Begun;
use crate::walking::Running;
use crate::works::first_of;
use rls_audit::AttemptEnd;
use std::alloc::{AllocError, Global};

/// How what is shown of attempts ends.
#[derive(Clone, Copy)]
pub enum AttemptsEnd {
    /// All were run. The first statement of the audit that comes to another answer than it shows, if one does, and the first of the
    /// attempts.
    Ran(Option<Finding>, Option<Finding>),
    /// No attempt has this number, which was asked for. Nothing is written.
    Missing(u64),
    /// The numbers are no order. Nothing is written.
    NoOrder,
}

impl Begun {
    /// What its statements, run alone one after another, did with the rows that are asked for, as lines; and the first of them that
    /// comes to another answer than the attempt shows.
    #[tactic(auto, using(crate::proofs::ShownAttemptLemmas::begun_shown))]
    pub fn shown(self, alloc: Global, wanted: &ShownFilter) -> Result<Listed, AllocError>
        ensures { IfOk result (IsBegunShown wanted.now self) }
    {
        let Begun { attempt, state } = self;
        let Attempt { end, ran } = attempt;
        let running = Running::of(0, ran, &state);
        drop(state);
        match running {
            Ok(running) => run_statements(alloc, wanted, end, running),
            Err(refused) => {
                drop(end);
                Err(refused)
            }
        }
    }
}

/// Of the statements of the attempt that runs.
fn run_statements(
    alloc: Global,
    wanted: &ShownFilter,
    end: AttemptEnd,
    running: Running,
) -> Result<Listed, AllocError>
    ensures text { IfOk result (λ it. it.text.items ≡ text_of_all (Some end) wanted.now (left_alone running)) }
    ensures differs { IfOk result (λ it. FirstDiffers (left_alone running) it.differs) }
{
    let mut running = running;
    let mut text = Vec::new(alloc);
    let found = push_statements(alloc, wanted, &end, &mut running, &mut text);
    drop(end);
    drop(running);
    match found {
        Ok(differs) => Ok(Listed { text, differs }),
        Err(refused) => {
            drop(text);
            Err(refused)
        }
    }
}

/// The lines of its statements that are left; the first of them that comes to another answer.
#[tactic(auto, using(crate::proofs::ShownAttemptLemmas::written_on, crate::proofs::ShownAttemptLemmas::written_all, crate::proofs::GraphWorkLemmas::found_on, crate::proofs::GraphWorkLemmas::found_all, crate::proofs::GraphWorkLemmas::fewer_left, crate::proofs::ListingLemmas::none_alone))]
fn push_statements(
    alloc: Global,
    wanted: &ShownFilter,
    end: &AttemptEnd,
    running: &mut Running,
    text: &mut Vec<u8>,
) -> Result<Option<Finding>, AllocError>
    ensures text { OnOk result (text.new.items ≡ text.old.items ++ text_of_all (Some end.now) wanted.now (left_alone running.old)) }
    ensures differs { IfOk result (FirstDiffers (left_alone running.old)) }
{
    let mut found = None;
    while running.has_next() {
        let turn = running.next(alloc)?;
        found = first_of(found, &turn);
        let pushed = turn.push_shown(alloc, wanted, Some(end), text);
        drop(turn);
        pushed?;
    }
    Ok(found)
}
