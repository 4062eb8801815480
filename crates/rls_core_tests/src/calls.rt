//! Calls that histories don't make.

use crate::opening::{begin_as, shared};
use rls_audit::rls_access::Mode;
use rls_audit::rls_core::{Answer, Core, Event, run};
use rls_value::Refusal;
use std::alloc::Global;

/// A statement is worked out, then admitted.
fn is_posted_in_parts(core: &mut Core, alloc: Global, txn: u64) -> Result<bool, Refusal> {
    let statement = shared(alloc, "CREATE ROLE r")?;
    let work = core.work(alloc, txn, statement)?;
    let nothing = core.posts(txn).is_empty();
    core.admit(alloc, work)?;
    Ok(nothing && core.posts(txn).len() == 1 && core.is_running(txn))
}

/// A commit is made ready, then sealed.
fn is_committed_in_parts(core: &mut Core, alloc: Global, txn: u64) -> Result<bool, Refusal> {
    let ready = core.ready(alloc, txn)?;
    let nothing = core.commits() == 0 && core.is_running(txn);
    core.seal(txn, ready);
    Ok(nothing && core.commits() == 1 && !core.is_running(txn))
}

fn is_done_in_parts(core: &mut Core, alloc: Global) -> Result<bool, Refusal> {
    let txn = core.begin(alloc, begin_as(alloc, "postgres", Mode::Write)?)?;
    Ok(is_posted_in_parts(core, alloc, txn)? && is_committed_in_parts(core, alloc, txn)?)
}

/// Whether just that transaction has committed, with one statement.
fn has_only(core: &Core, txn: u64) -> bool {
    match core.history() {
        [record] => record.txn() == txn && record.posts().len() == 1,
        _ => false,
    }
}

/// One that commits, and one that begins behind it.
fn two_transactions(alloc: Global) -> Result<[Event; 4], Refusal> {
    let one = begin_as(alloc, "postgres", Mode::Write)?;
    let other = begin_as(alloc, "postgres", Mode::Write)?;
    match shared(alloc, "CREATE ROLE r") {
        Ok(statement) => Ok([
            Event::Begins(one),
            Event::Posts(1, statement),
            Event::Commits(1),
            Event::Begins(other),
        ]),
        Err(refusal) => Err(refusal),
    }
}

/// One commits, one is rolled back, and one of no number is asked to commit.
fn happens(alloc: Global) -> Result<bool, Refusal> {
    let events = two_transactions(alloc)?;
    let made = run(alloc, &events);
    drop(events);
    match made {
        Ok((core, answers)) => {
            let answered = are_answered(answers.as_slice());
            drop(answers);
            Ok(ends(alloc, core)? && answered)
        }
        Err(refusal) => Err(refusal),
    }
}

/// The number that an answer tells, or else 0.
fn number_in(answer: &Answer) -> u64 {
    match answer {
        Answer::Begun(number) => *number,
        Answer::Committed(number) => *number,
        _ => 0,
    }
}

fn are_answered(answers: &[Answer]) -> bool {
    match answers {
        [begun, posted, committed, other] => {
            number_in(begun) == 1
                && matches!(posted, Answer::Posted)
                && number_in(committed) == 1
                && number_in(other) == 2
        }
        _ => false,
    }
}

fn ends(alloc: Global, core: Core) -> Result<bool, Refusal> {
    let mut core = core;
    let runs = core.is_running(2);
    let ended = is_rolled_back(&mut core, alloc)? && is_refused(&mut core, alloc)?;
    Ok(runs && ended && !core.is_running(2) && has_only(&core, 1))
}

fn is_rolled_back(core: &mut Core, alloc: Global) -> Result<bool, Refusal> {
    let answer = core.happen(alloc, &Event::RollsBack(2))?;
    let fits = matches!(answer, Answer::RolledBack);
    drop(answer);
    Ok(fits)
}

fn is_refused(core: &mut Core, alloc: Global) -> Result<bool, Refusal> {
    let answer = core.happen(alloc, &Event::Commits(9))?;
    let fits = matches!(answer, Answer::Refused(_));
    drop(answer);
    Ok(fits)
}

fn says(answer: Result<bool, Refusal>) -> bool {
    match answer {
        Ok(answer) => answer,
        Err(refusal) => {
            drop(refusal);
            false
        }
    }
}

/// The parts of a post and of a commit.
#[test]
fn posts_and_commits_come_in_parts(rt: HostRuntime) {
    let alloc = rt.alloc();
    let mut core = Core::new(alloc).expect(&rt, "opens");
    assert!(rt; says(is_done_in_parts(&mut core, alloc)));
    assert!(rt; has_only(&core, 1));
}

/// Events one after another.
#[test]
fn events_happen(rt: HostRuntime) {
    assert!(rt; says(happens(rt.alloc())));
}
