//! What a caller was shown.

ghost use Rattle.std.specs.Prelude.{◌≡◌, ◌<◌, ◌≤◌, [], true, false, None, Some, length, map, get_or, set, All, IfOk, IfErr, OnOk, OnErr, IfSome, IsErrOf};
ghost use Rattle.std.specs.Option.{option_map};
ghost use Rattle.rls_value.specs.declared.refusal.Refusal.TheVariants.{Foreign};
ghost use Rattle.rls_session.specs.Books.{AreTheRecords, AreTried, DifferInCommit, IsBooked, IsTold};
ghost use Rattle.rls_session.specs.Scripts.{end_by};
ghost use Rattle.rls_session.specs.Parts.{Part, alike, joined, joined_tried, noted, part_by, told_ended, tried_by, tried_first, tried_of, with_end, with_ended};
ghost use Rattle.rls_session.specs.Stops.{HasCommitted, WhenStopped, IsFault};

use crate::open::{Kept, Open, Stopped, stopped_by};
use crate::tried::{Attempted, End, Tried, end_of};
use rls_engine::{Book, CommitFault, Ended, Named, Seen};
use rls_script::{Answer, RunFault};
use rls_value::{Name, Refusal};
use std::alloc::{AllocError, Global};
use std::marker::Model;
use std::sync::Wait;

/// What a caller was shown: what it has learnt of commits, and each transaction that was shown as committed.
#[derive(Drop)]
pub struct Notes<N: Named> {
    seen: Seen<N>,
    kept: Vec<Kept<N>>,
    // Whether refusals are told tersely.
    terse: bool,
    // What the last command ended without a commit, where that isn't told yet.
    ended: Option<Ended<N>>,
    // What ended without a commit, where that is kept.
    tried: Option<Vec<Tried<N>>>,
}

impl<N: Named> Model for Notes<N> {
    ghost use Rattle.std.specs.Prelude.{◌≡◌, ◌≤◌, length, All};
    ghost use Rattle.std.specs.Option.{option_map};
    ghost use Rattle.rls_session.specs.Parts.{Notes, notes_code, part_by};

    ghost Value = { Notes };

    ghost coded = { notes_code };

    ghost view = { λ it. record { tag = it.seen.tag; newest = it.seen.number; told = it.seen.told; shown = it.kept.items; terse = it.terse; ended = option_map part_by it.ended; tried = option_map (λ tried. tried.items) it.tried } };

    ghost invariant = { λ it. (it.seen.told ≡ length it.kept.items) × All (λ kept. kept.commit ≤ it.seen.number) it.kept.items };
}

impl<N: Named> Notes<N> {
    /// Nothing was shown yet, by the engine of this tag. Told tersely, a serialization failure names no objects and no transactions.
    pub fn new(alloc: Global, tag: u64, terse: bool) -> Notes<N>
        ensures { result ≡ record { tag = tag; newest = 0; told = 0; shown = []; terse = terse; ended = None; tried = None } }
    {
        Notes {
            seen: Seen::new(tag),
            kept: Vec::new(alloc),
            terse,
            ended: None,
            tried: None,
        }
    }

    /// The same. Transactions that end without a commit are kept, if that is wanted.
    pub fn keeping(alloc: Global, tag: u64, terse: bool, keeps: bool) -> Notes<N>
        ensures { result ≡ record { tag = tag; newest = 0; told = 0; shown = []; terse = terse; ended = None; tried = tried_first keeps } }
    {
        Notes {
            seen: Seen::new(tag),
            kept: Vec::new(alloc),
            terse,
            ended: None,
            tried: none_tried(alloc, keeps),
        }
    }

    /// Whether refusals are told tersely.
    pub fn is_terse(&self) -> bool
        ensures { result ≡ self.now.terse }
    {
        self.terse
    }

    /// What was learnt.
    pub fn seen(&self) -> &Seen<N>
        ensures { result.now ≡ record { tag = self.now.tag; number = self.now.newest; told = self.now.told } }
    {
        &self.seen
    }

    /// Commits the transaction of a block, and notes it. It gives the role that the block had last.
    pub(crate) fn commit<'a, R: Wait>(
        &mut self,
        rt: &R,
        open: Open<'a, N>,
    ) -> Result<Name, Stopped<'a, N>>
        requires wide { N.parts ≡ 18446744073709551615 }
        ensures ok { IfOk result (HasCommitted «open».entry self.old self.new) }
        ensures err { IfErr result (WhenStopped «open».entry) }
        ensures kept { OnErr result (self.new ≡ self.old) }
    {
        if self.seen.tag() != open.txn.tag() {
            open.rollback(rt);
            return Err(Stopped::Foreign);
        }
        let Ok(()) = self.kept.reserve(1) else {
            return Err(Stopped::NoMemory(open));
        };
        let Open { heard, txn } = open;
        match txn.commit(rt) {
            Ok(receipt) => {
                let mut receipt = receipt;
                self.seen.learn(&mut receipt);
                let (role, place) = receipt.into_parts();
                self.kept.push_reserved(Kept { heard, place });
                Ok(role)
            }
            Err(CommitFault::NoMemory(txn)) => Err(Stopped::NoMemory(Open { heard, txn })),
            Err(CommitFault::Over(why, ended)) => Err(stopped_by(Some(why), ended)),
        }
    }

    /// Keeps what ended without a commit until it is told how, where such is kept. It takes no memory.
    #[tactic(auto, using(crate::proofs::TriedLemmas::keeps_some, crate::proofs::TriedLemmas::keeps_none))]
    pub(crate) fn keep(&mut self, ended: Option<Ended<N>>) -> Result<(), Refusal>
        ensures ok { (part : Part) → IfSome ended (λ it. part_by it ≡ part) → OnOk result (self.new ≡ with_ended self.old (Some part)) }
        ensures fault { IfErr result (λ why. why ≡ Foreign) }
        ensures kept { OnErr result (self.new ≡ self.old) }
    {
        match ended {
            Some(ended) => {
                self.keep_one(ended);
                Ok(())
            }
            None => self.keep_none(),
        }
    }

    /// The same, where it is given.
    #[tactic(auto, using(crate::proofs::TriedLemmas::kept_ended, crate::proofs::TriedLemmas::kept_none))]
    fn keep_one(&mut self, ended: Ended<N>)
        ensures { self.new ≡ with_ended self.old (Some (part_by ended)) }
    {
        match &self.tried {
            Some(_) => self.ended = Some(ended),
            None => drop(ended),
        }
    }

    /// Where it isn't given none is kept.
    fn keep_none(&self) -> Result<(), Refusal>
        ensures ok { OnOk result (self.now.tried ≡ None) }
        ensures fault { IfErr result (λ why. why ≡ Foreign) }
    {
        match &self.tried {
            Some(_) => Err(Refusal::Foreign),
            None => Ok(()),
        }
    }

    /// Tells how what the last command ended has ended, by the answer to it.
    #[tactic(auto, using(crate::proofs::TriedLemmas::untold))]
    pub(crate) fn tell_by(&mut self, alloc: Global, answer: &Answer) -> Result<(), AllocError>
        ensures { OnOk result (self.new ≡ with_end (end_by answer.now) self.old) }
    {
        match &self.ended {
            Some(_) => {
                let end = end_of(alloc, answer)?;
                self.tell(end)?;
                Ok(())
            }
            None => Ok(()),
        }
    }

    /// Tells how it ended.
    #[tactic(auto, using(crate::proofs::TriedLemmas::told_one, crate::proofs::TriedLemmas::untold))]
    pub(crate) fn tell(&mut self, end: End) -> Result<(), AllocError>
        ensures { OnOk result (self.new ≡ with_end end self.old) }
    {
        match self.ended.take() {
            Some(ended) => {
                push_tried(&mut self.tried, Tried { end, ended })?;
                Ok(())
            }
            None => {
                drop(end);
                Ok(())
            }
        }
    }

    /// What ended without a commit, where that is kept. Run alone on the state of its snapshot in the book each comes to just what it was
    /// shown.
    #[tactic(auto, using(crate::proofs::TriedLemmas::are_tried))]
    pub(crate) fn into_attempts(
        self,
        alloc: Global,
        book: &Book,
    ) -> Result<Vec<Attempted>, RunFault>
        requires { book.now.commits ≡ N.commits }
        ensures tried { IfOk result (λ all. AreTried book.now.seen.committed self (map tried_by all.items)) }
        ensures read { ¬ IsErrOf result RunFault.Read }
        ensures write { ¬ IsErrOf result RunFault.Write }
    {
        let Notes {
            seen,
            kept,
            terse: _,
            ended,
            tried,
        } = self;
        drop(seen);
        drop(kept);
        drop(ended);
        attempted(alloc, tried_in(alloc, tried), book)
    }

    /// Each transaction that was shown as committed has its record in the book, where this is of the engine and has every commit
    /// that was learnt.
    pub fn agree(&self, book: &Book)
        requires engine { book.now.commits ≡ N.commits }
        requires learnt { self.now.newest ≤ length book.now.seen.committed }
        ensures booked { All (IsBooked book.now.seen.committed) self.now.shown }
        ensures told { self.now.told ≡ length self.now.shown }
    {
        let _seen = &self.seen;
        agree_all(self.kept.as_slice(), book);
    }

    /// Whether the book has the records of what was shown and no others, where this is of the engine and has every commit that was
    /// learnt. It takes a byte a record.
    #[tactic(auto, using(crate::proofs::BookLemmas::all_records))]
    pub(crate) fn are_all(&self, alloc: Global, book: &Book) -> Result<bool, AllocError>
        requires engine { book.now.commits ≡ N.commits }
        requires learnt { self.now.newest ≤ length book.now.seen.committed }
        ensures { IfOk result (λ all. all ≡ true → AreTheRecords book.now.seen.committed self.now.shown) }
    {
        self.agree(book);
        let count = book.records().len();
        if self.kept.len() != count {
            return Ok(false);
        }
        differ(alloc, count, self.kept.as_slice())
    }

    /// The same knowledge, where nothing was shown.
    pub fn alike(&self, alloc: Global) -> Notes<N>
        ensures { result ≡ alike self.now }
    {
        Notes {
            seen: self.seen.alike(),
            kept: Vec::new(alloc),
            terse: self.terse,
            ended: None,
            tried: alike_tried(alloc, &self.tried),
        }
    }

    /// Takes all that others show. `Err` is want of memory, or `Foreign` where the others are of another tag.
    pub fn join(&mut self, other: &mut Notes<N>) -> Result<(), Refusal>
        requires wide { N.parts ≡ 18446744073709551615 }
        ensures ok { OnOk result (self.new ≡ joined self.old other.old) }
        ensures left { OnOk result (other.new ≡ alike other.old) }
        ensures fault { IfErr result IsFault }
    {
        if self.seen.tag() != other.seen.tag() {
            return Err(Refusal::Foreign);
        }
        let Ok(()) = join_tried(&mut self.tried, &mut other.tried) else {
            return Err(Refusal::NoMemory);
        };
        let Ok(()) = self.kept.append(&mut other.kept) else {
            return Err(Refusal::NoMemory);
        };
        other.ended = None;
        self.seen.join(&mut other.seen);
        Ok(())
    }
}

/// None, where what ended without a commit is kept.
fn none_tried<N: Named>(alloc: Global, keeps: bool) -> Option<Vec<Tried<N>>>
    ensures { option_map (λ tried. tried.items) result ≡ tried_first keeps }
{
    if keeps { Some(Vec::new(alloc)) } else { None }
}

/// None, where those are kept.
fn alike_tried<N: Named>(alloc: Global, tried: &Option<Vec<Tried<N>>>) -> Option<Vec<Tried<N>>>
    ensures { option_map (λ tried. tried.items) result ≡ option_map (λ before. []) (option_map (λ tried. tried.items) tried.now) }
{
    match tried {
        Some(_) => Some(Vec::new(alloc)),
        None => None,
    }
}

/// One more, where they are kept.
fn push_tried<N: Named>(tried: &mut Option<Vec<Tried<N>>>, one: Tried<N>) -> Result<(), AllocError>
    ensures { OnOk result (option_map (λ tried. tried.items) tried.new ≡ told_ended (Some one.part) one.end (option_map (λ tried. tried.items) tried.old)) }
{
    match tried {
        Some(all) => {
            all.push(one)?;
            Ok(())
        }
        None => {
            drop(one);
            Ok(())
        }
    }
}

/// Those of the other behind one's own, where they are kept. None is left there.
fn join_tried<N: Named>(
    mine: &mut Option<Vec<Tried<N>>>,
    other: &mut Option<Vec<Tried<N>>>,
) -> Result<(), AllocError>
    ensures joined { OnOk result (option_map (λ tried. tried.items) mine.new ≡ joined_tried (option_map (λ tried. tried.items) mine.old) (option_map (λ tried. tried.items) other.old)) }
    ensures left { OnOk result (option_map (λ tried. tried.items) other.new ≡ option_map (λ before. []) (option_map (λ tried. tried.items) other.old)) }
{
    match mine {
        Some(mine) => match other {
            Some(other) => {
                mine.append(other)?;
                Ok(())
            }
            None => Ok(()),
        },
        None => match other {
            Some(other) => {
                other.clear();
                Ok(())
            }
            None => Ok(()),
        },
    }
}

/// Those that were kept.
fn tried_in<N: Named>(alloc: Global, tried: Option<Vec<Tried<N>>>) -> Vec<Tried<N>>
    ensures { result.items ≡ tried_of (option_map (λ tried. tried.items) tried) }
{
    match tried {
        Some(tried) => tried,
        None => Vec::new(alloc),
    }
}

/// Each without its engine.
fn attempted<N: Named>(
    alloc: Global,
    tried: Vec<Tried<N>>,
    book: &Book,
) -> Result<Vec<Attempted>, RunFault>
    requires { book.now.commits ≡ N.commits }
    ensures same { IfOk result (λ all. map tried_by all.items ≡ tried.items) }
    ensures told { IfOk result (λ all. All (IsTold book.now.seen.committed) (map tried_by all.items)) }
    ensures read { ¬ IsErrOf result RunFault.Read }
    ensures write { ¬ IsErrOf result RunFault.Write }
{
    let mut all = Vec::new(alloc);
    for one in tried {
        let ended = one.into_attempted(book)?;
        all.push(ended)?;
    }
    Ok(all)
}

fn agree_all<N: Named>(kept: &[Kept<N>], book: &Book)
    requires engine { book.now.commits ≡ N.commits }
    requires numbers { All (λ it. it.commit ≤ length book.now.seen.committed) kept.now }
    ensures { All (IsBooked book.now.seen.committed) kept.now }
{
    for one in kept {
        one.agrees(book);
    }
}

/// Whether no two are one commit, of so many.
#[tactic(auto, using(crate::proofs::BookLemmas::none_met, crate::proofs::BookLemmas::none_differ, crate::proofs::BookLemmas::met_next, crate::proofs::BookLemmas::differ_next, crate::proofs::BookLemmas::all_differ))]
fn differ<N: Named>(alloc: Global, count: usize, kept: &[Kept<N>]) -> Result<bool, AllocError>
    requires numbers { All (λ it. it.commit ≤ count) kept.now }
    ensures { IfOk result (λ differ. differ ≡ true → DifferInCommit kept.now) }
{
    let mut met = vec![in alloc; false; count]?;
    for one in kept {
        if meet(&mut met, one.index()) {
            return Ok(false);
        }
    }
    Ok(true)
}

/// Meets the index, and tells whether it was met before.
fn meet(met: &mut Vec<bool>, index: usize) -> bool
    requires { index < length met.old.items }
    ensures before { result ≡ get_or met.old.items index false }
    ensures after { met.new.items ≡ set met.old.items index true }
{
    let before = met[index];
    met[index] = true;
    before
}
