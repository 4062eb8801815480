//! One core under one lock.

ghost use Rattle.std.specs.Prelude.{◌≡◌, ◌≢◌, ◌≤◌, false, length, None, IfOk, IfErr, IfSome, IsOk, IsSome};
ghost use Rattle.rls_value.specs.declared.refusal.Refusal.TheVariants.{Foreign};
ghost use Rattle.rls_core.specs.Seen.{world_of};
ghost use Rattle.rls_core.specs.Headline.{HaveOrder, AreExplained};
ghost use Rattle.rls_engine.specs.Attempts.{IsLeftOn};
ghost use Rattle.rls_engine.specs.Led.{IsLed};
ghost use Rattle.rls_engine.specs.Places.{HasPlace};
ghost use Rattle.rls_engine.specs.Stands.{IsWorkOf, IsWorkOn};
ghost use Rattle.rls_engine.specs.Steps.{PostStops};
ghost use Rattle.rls_engine.specs.Views.{Hold, Kept};
ghost use Rattle.rls_statement.specs.declared.statement.Statement.{Statement};
ghost use Rattle.rls_engine.specs.Drafts.{BeganAs, EndsAtPost, IsReceiptOf, IsStep, RefusesBegin, StopsCommit, IsNext, WhenPosted, posting_of};

use crate::book::Book;
use crate::commit::Commit;
use crate::desk::Desk;
use crate::held::{Held, Next};
use crate::named::{Named, Records};
use crate::posting::{Over, Pending, Posting};
use crate::receipt::Receipt;
use crate::seen::Seen;
use crate::step::Step;
use crate::txn::Txn;
use boxcar::{Pushed, Vec as Shared};
use rls_core::{Begin, Core, Remains, Work};
use rls_statement::Statement;
use rls_value::shared::Share;
use rls_value::{Name, Refusal, or_drop};
use std::alloc::{AllocError, Global};
use std::hint::spin_loop;
use std::marker::Model;
use std::sync::{Mutex, MutexGuard, Wait};

/// So often the lock is tried before a thread sleeps.
const TRIES: u32 = 400;

/// So many pauses lie between two tries.
const PAUSES: u32 = 20;

/// A core under a lock, beside the places of its commits and of the steps of its transactions. Contracts see its tag.
#[derive(Drop)]
pub struct Engine<N: Named> {
    tag: u64,
    alloc: Global,
    desk: Mutex<Desk<N>>,
    commits: Shared<Commit>,
    steps: Shared<Step>,
}

impl<N: Named> Model for Engine<N> {
    ghost use Rattle.std.specs.Prelude.{◌≡◌, ℕ};

    ghost Value = { ℕ };

    ghost view = { λ it. it.tag };

    ghost invariant = { λ it. (it.commits ≡ N.commits) × (it.steps ≡ N.steps) };
}

impl<N: Named> Engine<N> {
    /// A core in which nothing happened. The caller gives each engine a tag of its own. For want of memory the records come back.
    pub fn new(alloc: Global, tag: u64, records: Records) -> Result<Engine<N>, Records>
        requires commits { records.commits ≡ N.commits }
        requires steps { records.steps ≡ N.steps }
        requires name { records.blank.name ≡ N.name }
        requires parts { records.blank.parts ≡ N.parts }
        ensures ok { IfOk result (λ engine. engine ≡ tag) }
        ensures err { IfErr result (λ left. left ≡ records) }
    {
        let Ok(core) = Core::new(alloc) else {
            return Err(records);
        };
        let Records {
            commits,
            steps,
            blank,
        } = records;
        let (total, rest) = blank.open::<N>();
        Ok(Engine {
            tag,
            alloc,
            desk: Mutex::new(Desk::new(alloc, core, total, rest)),
            commits,
            steps,
        })
    }

    /// The tag that the caller gave it.
    pub fn tag(&self) -> u64
        ensures { result ≡ self.now }
    {
        self.tag
    }

    /// Begins a transaction on a snapshot that has every commit that was learnt. A `Seen` of another engine, or one that has seen
    /// more commits than there are, is `Foreign`.
    pub fn begin<'a, R: Wait>(
        &'a self,
        rt: &R,
        begin: Begin,
        seen: &Seen<N>,
    ) -> Result<Txn<'a, N>, Refusal>
        ensures tag { IfOk result (λ txn. txn.tag ≡ self.entry.now) }
        ensures began { IfOk result (λ txn. BeganAs txn.stand begin) }
        ensures learnt { IfOk result (λ txn. seen.now.number ≤ txn.stand.running.so_far.snap) }
        ensures new { IfOk result (λ txn. (txn.pending ≡ None) × (txn.over ≡ None)) }
        ensures why { IfErr result (RefusesBegin begin) }
        ensures known { seen.now.tag ≡ self.entry.now → seen.now.number ≡ 0 → IfErr result (λ why. why ≢ Foreign) }
    {
        if seen.tag != self.tag {
            return Err(Refusal::Foreign);
        }
        let mut desk = self.enter(rt);
        if seen.number > desk.commits() {
            return Err(Refusal::Foreign);
        }
        match desk.begin(rt, self.alloc, &self.commits, &self.steps, begin) {
            Ok(held) => Ok(Txn::new(self, held)),
            Err(refusal) => Err(refusal),
        }
    }

    /// Gets the lock. It is held so shortly that most who wait for it get it before they would sleep.
    fn enter<R: Wait>(&self, rt: &R) -> MutexGuard<'_, Desk<N>> {
        for _ in 0..TRIES {
            if let Some(desk) = self.desk.try_lock() {
                return desk;
            }
            pause();
        }
        self.desk.lock(rt)
    }

    /// What the statement comes to on what is held, as it is pending.
    pub(crate) fn run(
        &self,
        held: &Held<N>,
        statement: &Share<Statement>,
    ) -> Result<Pending, AllocError>
        ensures ok { IfOk result (λ pending. (pending.statement ≡ statement.now) × IfSome pending.work (IsWorkOf held.now.txn held.now.stand statement.now)) }
        ensures computed { IfOk result (λ pending. IsSome pending.work) }
    {
        let work = held.work(self.alloc, statement)?;
        let statement = or_drop!(statement.copy(), work);
        Ok(Pending {
            statement,
            work: Some(work),
        })
    }

    /// Posts what is pending, which is run again if what it came to isn't here any more.
    pub(crate) fn post<R: Wait>(&self, rt: &R, held: &Held<N>, pending: Pending) -> Posting
        requires asked { N.asks pending.statement }
        requires work { IfSome pending.work (IsWorkOf held.now.txn held.now.stand pending.statement) }
        ensures { WhenPosted N.steps held.now pending.statement result }
    {
        let Pending { statement, work } = pending;
        let work = match work {
            Some(work) => work,
            None => match held.work(self.alloc, &statement) {
                Ok(work) => work,
                Err(_) => return Posting::NoMemory(Pending::asked(statement)),
            },
        };
        match held.next(self.alloc, &work) {
            Ok(next) => self.post_work(rt, held, statement, work, next),
            Err(_) => Posting::NoMemory(Pending {
                statement,
                work: Some(work),
            }),
        }
    }

    /// Posts work: one hold of the lock.
    fn post_work<R: Wait>(
        &self,
        rt: &R,
        held: &Held<N>,
        statement: Share<Statement>,
        work: Work,
        next: Next,
    ) -> Posting
        requires asked { N.asks statement }
        requires work { IsWorkOf held.now.txn held.now.stand statement work }
        requires next { IsNext held.now.stand statement next }
        ensures { WhenPosted N.steps held.now statement result }
    {
        let posted = self.post_held(rt, held, work);
        posting_of(statement, next, posted)
    }

    /// The same, and the step that it makes. None is want of memory, which ends nothing.
    fn post_held<R: Wait>(
        &self,
        rt: &R,
        held: &Held<N>,
        work: Work,
    ) -> Result<Pushed<Step>, Option<Over>>
        requires asked { N.asks work.statement }
        requires work { IsWorkOn held.now.stand work }
        requires txn { work.txn ≡ held.now.txn }
        ensures ok { IfOk result (IsStep N.steps held.now.stand work.statement) }
        ensures err { IfErr result (λ over. IfSome over (EndsAtPost held.now work.statement)) }
    {
        let posted = self.enter(rt).post(rt, self.alloc, &self.steps, held, work);
        match posted {
            Ok(at) => Ok(at),
            Err(over) => Err(ending(over)),
        }
    }

    /// Commits what is held: one hold of the lock.
    pub(crate) fn commit<R: Wait>(
        &self,
        rt: &R,
        held: &Held<N>,
        role: Name,
    ) -> Result<Receipt<N>, Over>
        requires role { role ≡ held.now.stand.running.ctx.role }
        ensures ok { IfOk result (IsReceiptOf self.now held.now.stand) }
        ensures why { IfErr result (λ over. StopsCommit held.now.stand over.why) }
        ensures left { IfErr result (λ over. IfSome over.left (IsLeftOn held.now)) }
    {
        let made = self
            .enter(rt)
            .commit(rt, self.alloc, &self.commits, &self.steps, held);
        match made {
            Ok((number, token, share, entry)) => Ok(Receipt {
                tag: self.tag,
                number,
                role,
                entry,
                token,
                share: Some(share),
            }),
            Err(over) => {
                drop(role);
                Err(over)
            }
        }
    }

    /// Ends what is held, and gives what is left of it: one hold of the lock.
    pub(crate) fn end<R: Wait>(&self, rt: &R, held: &Held<N>) -> Option<Remains>
        ensures { IfSome result (IsLeftOn held.now) }
    {
        self.enter(rt).end(&self.steps, held)
    }

    /// How many have committed: no fewer than receipts count in the `Seen`, and no more than have a place.
    pub fn audited<R: Wait>(&self, rt: &R, seen: &mut Seen<N>) -> u64
        ensures told { seen.new.told ≤ result }
        ensures placed { HasPlace N.commits result }
        ensures same { seen.new ≡ seen.old }
    {
        let mut desk = self.enter(rt);
        if let Some(share) = &mut seen.share {
            desk.audit(share);
        }
        desk.commits()
    }

    /// Two receipts of one number have equal records.
    pub fn agrees(&self, one: &Receipt<N>, other: &Receipt<N>)
        requires { one.now.number ≡ other.now.number }
        ensures { one.now.entry ≡ other.now.entry }
    {
        self.commits.agrees(&one.token, &other.token);
    }

    /// Ends the engine. Its book has at least as many records as the `Seen` has learnt and as receipts count in it, and is where
    /// events led, of statements that were asked so; a `Seen` of another engine, or one that has seen more, is `Foreign`, and the
    /// engine comes back.
    pub fn close(self, seen: &Seen<N>) -> Result<Book, (Engine<N>, Refusal)>
        ensures commits { IfOk result (λ book. book.commits ≡ N.commits) }
        ensures ordered { IfOk result (λ book. HaveOrder (world_of book.seen)) }
        ensures explained { IfOk result (λ book. AreExplained (world_of book.seen)) }
        ensures led { IfOk result (λ book. IsLed N.asks book.seen) }
        ensures learnt { IfOk result (λ book. seen.now.number ≤ length book.seen.committed) }
        ensures told { IfOk result (λ book. seen.now.told ≤ length book.seen.committed) }
        ensures err { IfErr result (λ left. (left.0 ≡ self) × (left.1 ≡ Foreign)) }
        ensures known { seen.now.tag ≡ self → seen.now.number ≡ 0 → seen.now.told ≡ 0 → IsOk result }
    {
        let Engine {
            tag,
            alloc,
            desk,
            commits,
            steps,
        } = self;
        let desk = desk.into_inner();
        desk.kept();
        let count = desk.commits();
        if seen.tag != tag || seen.number > count || seen.told > count {
            let engine = Engine {
                tag,
                alloc,
                desk: Mutex::new(desk),
                commits,
                steps,
            };
            return Err((engine, Refusal::Foreign));
        }
        Ok(Book::new(desk, commits))
    }
}

/// What the post of a statement comes to.
fn posting_of(
    statement: Share<Statement>,
    next: Next,
    posted: Result<Pushed<Step>, Option<Over>>,
) -> Posting
    ensures { result ≡ posting_of statement next posted }
{
    match posted {
        Ok(at) => Posting::Done(next, at),
        Err(None) => Posting::NoMemory(Pending::asked(statement)),
        Err(Some(over)) => Posting::Over(over),
    }
}

/// What ended the transaction at a post; none is want of memory, which ends nothing.
#[tactic(auto, using(crate::proofs::HoldLemmas::ends_post))]
fn ending(over: Over) -> Option<Over>
    ensures { (held : Hold) (asked : Statement) (old new : Kept) → PostStops held asked old new over.why → IfSome over.left (IsLeftOn held) → IfSome result (EndsAtPost held asked) }
{
    let Over { why, left } = over;
    match why {
        Refusal::NoMemory => {
            drop(left);
            None
        }
        Refusal::Serial(cause) => Some(Over {
            why: Refusal::Serial(cause),
            left,
        }),
        why => {
            drop(why);
            Some(Over {
                why: Refusal::Foreign,
                left,
            })
        }
    }
}

/// Waits between two tries of the lock.
fn pause() {
    for _ in 0..PAUSES {
        spin_loop();
    }
}
