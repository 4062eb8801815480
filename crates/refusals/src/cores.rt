//! Calls of a core.

use crate::opening::{INFORMATION, begin_as, connect, core_after, shared};
use rls_session::rls_access::Effect;
use rls_session::rls_core::rls_guard::rls_catalog::rls_value::Refusal;
use rls_session::rls_core::rls_guard::rls_catalog::rls_value::shared::Share;
use rls_session::rls_core::rls_guard::rls_role::rls_statement::Statement;
use rls_session::rls_core::{Begin, Core, Decisions, Event, Posted, Record, run};
use rls_session::rls_equality::{Same, are_both_same};
use scenario::{
    Ending, Scenario, after, begin, both, end, holds, made, made_again, play, taken, tell,
    wants_memory,
};
use std::alloc::Global;

/// The number of the transaction of mallory, who noted on a row, and of alice, who is about to take her group away.
const MALLORY: u64 = 17;

const ALICE: u64 = 18;

const NOTE: &str = "UPDATE information SET info = 'secret from mallory' WHERE group_id = 1";

const TAKE: &str = "UPDATE users SET group_id = 1 WHERE user_name = 'mallory'";

/// Two transactions beside each other, the first of which has written.
fn two_beside(alloc: Global) -> Result<Core, Refusal> {
    let mut core = core_after(alloc, &INFORMATION)?;
    let came = begin_two(&mut core, alloc);
    after(core, came)
}

fn begin_two(core: &mut Core, alloc: Global) -> Result<(), Refusal> {
    connect(core, alloc, "mallory")?;
    connect(core, alloc, "alice")?;
    let mallory = core.begin(alloc, begin_as(alloc, "mallory")?)?;
    let _alice = core.begin(alloc, begin_as(alloc, "alice")?)?;
    let note = shared(alloc, NOTE)?;
    core.post(alloc, mallory, note)
}

/// Whether the public calls say the same of both.
fn are_same_cores(left: &Core, right: &Core, alloc: Global) -> Result<bool, Refusal> {
    Ok(
        left.next() == right.next()
            && are_same_runs(alloc, left, right)?
            && are_same_histories(alloc, left.history(), right.history())?
            && are_same_orders(alloc, left, right)?,
    )
}

fn are_same_orders(alloc: Global, left: &Core, right: &Core) -> Result<bool, Refusal> {
    let (order, other) = both(taken(left.order(alloc)), taken(right.order(alloc)))?;
    Ok(order.as_slice() == other.as_slice())
}

/// Whether the same transactions run, with the same statements and decisions.
fn are_same_runs(alloc: Global, left: &Core, right: &Core) -> Result<bool, Refusal> {
    for txn in 0..=left.next() {
        if left.is_running(txn) != right.is_running(txn)
            || !are_same_posts(alloc, left.posts(txn), right.posts(txn))?
        {
            return Ok(false);
        }
    }
    Ok(true)
}

fn are_same_posts(
    alloc: Global,
    left: &[Share<Posted>],
    right: &[Share<Posted>],
) -> Result<bool, Refusal> {
    let mut others = right.iter();
    for post in left.iter() {
        let Some(other) = others.next() else {
            return Ok(false);
        };
        if !is_same_post(alloc, post.get(), other.get())? {
            return Ok(false);
        }
    }
    Ok(others.next().is_none())
}

fn is_same_post(alloc: Global, left: &Posted, right: &Posted) -> Result<bool, Refusal> {
    Ok(
        left.statement().is_same(right.statement())
            && is_same_effect(left.bare(), right.bare())
            && are_same_decisions(alloc, left.decisions(), right.decisions())?,
    )
}

/// Whether the effects are the same, without their decisions.
fn is_same_effect(left: &Effect, right: &Effect) -> bool {
    match (left, right) {
        (Effect::Done(reply, _, delta, role), Effect::Done(other, _, others, another)) => {
            reply.is_same(other)
                && delta.is_same(others)
                && are_both_same(role.as_ref(), another.as_ref())
        }
        (Effect::Refused(refusal, _), Effect::Refused(other, _)) => refusal.is_same(other),
        (_, _) => false,
    }
}

fn are_same_decisions(alloc: Global, left: &Decisions, right: &Decisions) -> Result<bool, Refusal> {
    let decisions = taken(left.copy_all(alloc));
    let (decisions, others) = both(decisions, taken(right.copy_all(alloc)))?;
    let are_same = decisions.is_same(&others);
    drop(decisions);
    drop(others);
    Ok(are_same)
}

/// Whether the records are the same.
fn are_same_histories(alloc: Global, left: &[Record], right: &[Record]) -> Result<bool, Refusal> {
    let mut others = right.iter();
    for record in left.iter() {
        let Some(other) = others.next() else {
            return Ok(false);
        };
        if !is_same_record(alloc, record, other)? {
            return Ok(false);
        }
    }
    Ok(others.next().is_none())
}

fn is_same_record(alloc: Global, left: &Record, right: &Record) -> Result<bool, Refusal> {
    Ok(
        left.txn() == right.txn()
            && left.snap() == right.snap()
            && is_same_begin(left.begin(), right.begin())
            && left.changes().is_same(right.changes())
            && are_same_posts(alloc, left.posts(), right.posts())?,
    )
}

fn is_same_begin(left: &Begin, right: &Begin) -> bool {
    left.login.is_same(&right.login) && left.role.is_same(&right.role) && left.mode == right.mode
}

/// What is asked of a core on which mallory has noted, and alice is about to take her group away.
#[derive(Clone, Copy)]
enum Ask {
    New,
    /// Bob begins.
    Begin,
    /// Alice's statement is worked out, and posted.
    Work,
    Post,
    /// Alice has posted, and is about to commit, or commits.
    Ready,
    Commit,
    /// Alice has committed, and then mallory, who stands in front of her.
    Order,
    Copy,
    /// Events are played on a core of their own.
    Run,
}

const ASKS: [(&str, Ask); 9] = [
    ("Core::new", Ask::New),
    ("Core::begin", Ask::Begin),
    ("Core::work", Ask::Work),
    ("Core::post", Ask::Post),
    ("Core::ready", Ask::Ready),
    ("Core::commit", Ask::Commit),
    ("Core::order", Ask::Order),
    ("Record::copy", Ask::Copy),
    ("run", Ask::Run),
];

/// A core, alice's statement, what bob asks to begin, twice, and events.
#[derive(Drop)]
struct Asking {
    ask: Ask,
    core: Core,
    statement: Share<Statement>,
    begins: Vec<Begin>,
    events: Vec<Event>,
}

impl Asking {
    fn new(alloc: Global, ask: Ask) -> Result<Asking, Refusal> {
        let asked = both(shared(alloc, TAKE), begins(alloc));
        let played = both(events(alloc), brought(alloc, ask));
        let ((statement, begins), (events, core)) = both(asked, played)?;
        Ok(Asking {
            ask,
            core,
            statement,
            begins,
            events,
        })
    }

    /// Bob begins, as often as he asks.
    fn begin(&mut self, alloc: Global) -> Result<u64, Refusal> {
        match self.begins.pop() {
            Some(begin) => self.core.begin(alloc, begin),
            None => Err(Refusal::Foreign),
        }
    }

    /// A copy of the last record, by its number.
    fn copied(&self) -> Result<u64, Refusal> {
        match self.core.history() {
            [.., last] => number_of_copy(last),
            [] => Err(Refusal::Foreign),
        }
    }

    /// The last but one of the order.
    fn ordered(&self, alloc: Global) -> Result<u64, Refusal> {
        let order = self.core.order(alloc)?;
        match order.as_slice() {
            [.., MALLORY, ALICE] => Ok(MALLORY),
            _ => Ok(0),
        }
    }

    /// Alice's statement is worked out, and then nothing has changed.
    fn work(&self, alloc: Global) -> Result<u64, Refusal> {
        let work = self.core.work(alloc, ALICE, self.statement.copy()?)?;
        drop(work);
        Ok(0)
    }

    fn post(&mut self, alloc: Global) -> Result<u64, Refusal> {
        let statement = self.statement.copy()?;
        self.core.post(alloc, ALICE, statement)?;
        Ok(0)
    }

    fn ready(&self, alloc: Global) -> Result<u64, Refusal> {
        let ready = self.core.ready(alloc, ALICE)?;
        drop(ready);
        Ok(0)
    }

    /// How many commit where the events are played.
    fn run(&self, alloc: Global) -> Result<u64, Refusal> {
        let (core, answers) = run(alloc, self.events.as_slice())?;
        let commits = core.commits();
        drop(core);
        drop(answers);
        Ok(commits)
    }
}

fn number_of_copy(record: &Record) -> Result<u64, Refusal> {
    let copy = record.copy()?;
    let txn = copy.txn();
    drop(copy);
    Ok(txn)
}

/// The number that a core of its own begins with.
fn first_number(alloc: Global) -> Result<u64, Refusal> {
    let core = Core::new(alloc)?;
    let next = core.next();
    drop(core);
    Ok(next)
}

/// What bob asks to begin, twice.
fn begins(alloc: Global) -> Result<Vec<Begin>, Refusal> {
    let (first, second) = both(begin_as(alloc, "bob"), begin_as(alloc, "bob"))?;
    Ok(vec![in alloc; first, second]?)
}

/// The core before the call.
fn brought(alloc: Global, ask: Ask) -> Result<Core, Refusal> {
    let mut core = two_beside(alloc)?;
    let came = bring(&mut core, alloc, ask);
    after(core, came)
}

/// What alice and mallory have done before the call.
fn bring(core: &mut Core, alloc: Global, ask: Ask) -> Result<(), Refusal> {
    match ask {
        Ask::Ready | Ask::Commit => post_take(core, alloc),
        Ask::Order | Ask::Copy => commit_two(core, alloc),
        _ => Ok(()),
    }
}

fn post_take(core: &mut Core, alloc: Global) -> Result<(), Refusal> {
    let take = shared(alloc, TAKE)?;
    core.post(alloc, ALICE, take)
}

fn commit_two(core: &mut Core, alloc: Global) -> Result<(), Refusal> {
    post_take(core, alloc)?;
    core.commit(alloc, ALICE)?;
    core.commit(alloc, MALLORY)?;
    Ok(())
}

/// One that commits, and one that is rolled back.
fn events(alloc: Global) -> Result<Vec<Event>, Refusal> {
    let begins = both(begin_as(alloc, "postgres"), begin_as(alloc, "postgres"));
    let ((first, second), statement) = both(begins, shared(alloc, "CREATE ROLE r"))?;
    Ok(vec![in alloc;
        Event::Begins(first),
        Event::Posts(1, statement),
        Event::Commits(1),
        Event::Begins(second),
        Event::RollsBack(2),
    ]?)
}

impl Scenario for Asking {
    type Answer = u64;

    fn call(&mut self, alloc: Global) -> Result<u64, Refusal> {
        match self.ask {
            Ask::New => first_number(alloc),
            Ask::Begin => self.begin(alloc),
            Ask::Work => self.work(alloc),
            Ask::Post => self.post(alloc),
            Ask::Ready => self.ready(alloc),
            Ask::Commit => self.core.commit(alloc, ALICE),
            Ask::Order => self.ordered(alloc),
            Ask::Copy => self.copied(),
            Ask::Run => self.run(alloc),
        }
    }

    fn is_like(&self, twin: &Asking, alloc: Global) -> Result<bool, Refusal> {
        are_same_cores(&self.core, &twin.core, alloc)
    }

    fn is_answer(&self, answer: &u64, _alloc: Global) -> Result<bool, Refusal> {
        let (core, posts) = (&self.core, self.core.posts(ALICE).len());
        Ok(match self.ask {
            Ask::New | Ask::Run => *answer == 1,
            Ask::Begin => *answer == 19 && core.is_running(19),
            Ask::Work => posts == 0,
            Ask::Post => posts == 1,
            Ask::Ready => core.is_running(ALICE),
            Ask::Commit => *answer == 14 && core.commits() == 14 && !core.is_running(ALICE),
            Ask::Order | Ask::Copy => *answer == MALLORY,
        })
    }
}

/// Alice's statement on a core of its own.
fn posting(alloc: Global) -> Result<Asking, Refusal> {
    Asking::new(alloc, Ask::Post)
}

/// A statement that is worked out is admitted. Work is of its core as it stands, so it is worked out again for the second try.
fn play_admit(rt: &impl Print, alloc: Global) {
    let told = match both(posting(alloc), posting(alloc)) {
        Ok((object, twin)) => told_admit(rt, alloc, object, twin),
        Err(refusal) => {
            drop(refusal);
            Ending::NotMade
        }
    };
    tell(rt, "Core::admit", told);
}

fn told_admit(rt: &impl Print, alloc: Global, object: Asking, twin: Asking) -> Ending {
    let mut object = object;
    let told = told_admit_first(rt, alloc, &mut object, &twin.core);
    drop(object);
    drop(twin);
    told
}

fn told_admit_first(rt: &impl Print, alloc: Global, object: &mut Asking, twin: &Core) -> Ending {
    match admitted(rt, alloc, object) {
        Ok(()) => made(object.core.posts(ALICE).len() == 1),
        Err(refusal) => {
            if wants_memory(refusal) {
                told_admit_again(rt, alloc, object, twin)
            } else {
                Ending::OtherCause
            }
        }
    }
}

/// What came of it when it was admitted again, once that was refused.
fn told_admit_again(rt: &impl Print, alloc: Global, object: &mut Asking, twin: &Core) -> Ending {
    if !holds(are_same_cores(&object.core, twin, alloc)) {
        return Ending::Changed;
    }
    match admitted(rt, alloc, object) {
        Ok(()) => made_again(object.core.posts(ALICE).len() == 1),
        Err(refusal) => {
            drop(refusal);
            Ending::RefusedAgain
        }
    }
}

fn admitted(rt: &impl Print, alloc: Global, object: &mut Asking) -> Result<(), Refusal> {
    let work = object.core.work(alloc, ALICE, object.statement.copy()?)?;
    begin(rt, "Core::admit");
    let came = object.core.admit(alloc, work);
    end(rt);
    came
}

pub fn play_all(rt: &impl Print, alloc: Global) {
    for (call, ask) in ASKS {
        play(
            rt,
            alloc,
            call,
            Asking::new(alloc, ask),
            Asking::new(alloc, ask),
        );
    }
    play_admit(rt, alloc);
}
