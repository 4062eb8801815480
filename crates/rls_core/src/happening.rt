//! Lists of events.

ghost use Rattle.std.specs.Prelude.{◌≡◌, map, IfOk, OnOk, IfErr, OnErr};
ghost use Rattle.rls_core.specs.Events.{after};
ghost use Rattle.rls_core.specs.Events.Event.{Begins, Posts, Commits, RollsBack};
ghost use Rattle.rls_core.specs.Seen.{nothing_yet, world_of, core_rules, Happens};
ghost use Rattle.rls_core.specs.Happening.{GoesOn, IsAnswered, IsStopped, Runs, StopsRun, event_of, is_stop, stops};

use crate::answer::Answer;
use crate::begin::Begin;
use crate::event::Event;
use crate::machine::Core;
use rls_statement::Statement;
use rls_value::Refusal;
use rls_value::shared::Share;
use std::alloc::Global;

impl Core {
    /// Makes the event happen, and gives its answer. What is refused is an event too: it leaves the core as it was, or ends the
    /// transaction. An `Err` is want of memory, or a limit where a transaction begins: nothing happened.
    pub fn happen(&mut self, alloc: Global, event: &Event) -> Result<Answer, Refusal>
        ensures ok { OnOk result (Happens (event_of event.now) self.old self.new) }
        ensures answer { IfOk result (IsAnswered (event_of event.now) self.old self.new) }
        ensures err { OnErr result (self.new ≡ self.old) }
        ensures why { IfErr result (IsStopped (world_of self.old) (event_of event.now)) }
    {
        match event {
            Event::Begins(begin) => match begin.copy() {
                Ok(begin) => begins(self, alloc, begin),
                Err(_) => Err(Refusal::NoMemory),
            },
            Event::Posts(txn, statement) => match statement.copy() {
                Ok(statement) => posts(self, alloc, *txn, statement),
                Err(_) => Err(Refusal::NoMemory),
            },
            Event::Commits(txn) => commits(self, alloc, *txn),
            Event::RollsBack(txn) => Ok(rolls_back(self, *txn)),
        }
    }
}

fn begins(core: &mut Core, alloc: Global, begin: Begin) -> Result<Answer, Refusal>
    ensures ok { OnOk result (Happens (Begins begin) core.old core.new) }
    ensures answer { IfOk result (IsAnswered (Begins begin) core.old core.new) }
    ensures err { OnErr result (core.new ≡ core.old) }
    ensures why { IfErr result (IsStopped (world_of core.old) (Begins begin)) }
{
    match core.begin(alloc, begin) {
        Ok(txn) => Ok(Answer::Begun(txn)),
        Err(refusal) => stops(refusal),
    }
}

fn posts(
    core: &mut Core,
    alloc: Global,
    txn: u64,
    statement: Share<Statement>,
) -> Result<Answer, Refusal>
    ensures ok { OnOk result (Happens (Posts txn statement) core.old core.new) }
    ensures answer { IfOk result (IsAnswered (Posts txn statement) core.old core.new) }
    ensures err { OnErr result (core.new ≡ core.old) }
    ensures why { IfErr result (IsStopped (world_of core.old) (Posts txn statement)) }
{
    match core.post(alloc, txn, statement) {
        Ok(()) => Ok(Answer::Posted),
        Err(refusal) => stops(refusal),
    }
}

fn commits(core: &mut Core, alloc: Global, txn: u64) -> Result<Answer, Refusal>
    ensures ok { OnOk result (Happens (Commits txn) core.old core.new) }
    ensures answer { IfOk result (IsAnswered (Commits txn) core.old core.new) }
    ensures err { OnErr result (core.new ≡ core.old) }
    ensures why { IfErr result (IsStopped (world_of core.old) (Commits txn)) }
{
    match core.commit(alloc, txn) {
        Ok(commits) => Ok(Answer::Committed(commits)),
        Err(refusal) => stops(refusal),
    }
}

fn rolls_back(core: &mut Core, txn: u64) -> Answer
    ensures happens { Happens (RollsBack txn) core.old core.new }
    ensures answer { IsAnswered (RollsBack txn) core.old core.new result }
{
    match core.rollback(txn) {
        Ok(()) => Answer::RolledBack,
        Err(refusal) => Answer::Refused(refusal),
    }
}

/// Gives the refusal back where it is want of memory or a limit. Every other is an event too, and its answer.
fn stops(refusal: Refusal) -> Result<Answer, Refusal>
    ensures { result ≡ stops refusal }
{
    if is_stop(&refusal) {
        return Err(refusal);
    }
    Ok(Answer::Refused(refusal))
}

/// Whether the refusal is want of memory or a limit.
fn is_stop(refusal: &Refusal) -> bool
    ensures { result ≡ is_stop refusal.now }
{
    match refusal {
        Refusal::NoMemory | Refusal::Limit(_) => true,
        _ => false,
    }
}

/// The core that the events lead to, and what each was answered. An `Err` is want of memory, or a limit that one of them meets where
/// those before it lead.
pub fn run(alloc: Global, events: &[Event]) -> Result<(Core, Vec<Answer>), Refusal>
    ensures ok { IfOk result (λ run. world_of run.0 ≡ after core_rules (map event_of events.now)) }
    ensures answers { IfOk result (λ run. Runs nothing_yet (map event_of events.now) run.1.items run.0) }
    ensures err { IfErr result (StopsRun (map event_of events.now)) }
{
    let mut core = Core::new(alloc)?;
    let mut answers = Vec::new(alloc);
    for event in events {
        go_on(&mut core, alloc, event, &mut answers)?;
    }
    Ok((core, answers))
}

/// Makes the event happen, and puts its answer behind the others.
fn go_on(
    core: &mut Core,
    alloc: Global,
    event: &Event,
    answers: &mut Vec<Answer>,
) -> Result<(), Refusal>
    ensures ok { OnOk result (GoesOn (event_of event.now) core.old core.new answers.old.items answers.new.items) }
    ensures why { IfErr result (IsStopped (world_of core.old) (event_of event.now)) }
{
    let answer = core.happen(alloc, event)?;
    answers.push(answer)?;
    Ok(())
}
