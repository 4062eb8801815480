//! Calls of an engine, its transactions and its book. What an engine is shows in the numbers of the receipts that it gives.

ghost use Rattle.std.specs.Prelude.{◌≡◌, IfErr};
ghost use Rattle.rls_session.specs.rls_engine.specs.Led.{AsksNothing};

use crate::opening::{begin_as, shared};
use rls_session::rls_access::Reply;
use rls_session::rls_core::rls_guard::rls_catalog::rls_value::Refusal;
use rls_session::rls_core::rls_guard::rls_catalog::rls_value::shared::Share;
use rls_session::rls_core::rls_guard::rls_role::rls_statement::Statement;
use rls_session::rls_engine::{
    Book, CommitFault, Engine, Named, PostFault, Receipt, Records, Seen, Told, Txn,
};
use scenario::{Ending, Scenario, begin, end, made, made_again, play, tell, wants_memory};
use std::alloc::Global;
use std::marker::Brand;
use std::sync::Wait;

/// The tag of the engine.
const TAG: u64 = 1;

#[derive(Drop)]
struct New;

impl Scenario for New {
    type Answer = Records;

    fn call(&mut self, alloc: Global) -> Result<Records, Refusal> {
        Ok(Records::new(alloc)?)
    }

    fn is_answer(&self, _answer: &Records, _alloc: Global) -> Result<bool, Refusal> {
        Ok(true)
    }
}

pub fn play_all<R: Wait + Print>(rt: &R, alloc: Global) {
    play(rt, alloc, "Records::new", Ok(New), Ok(New));
    match Records::new(alloc) {
        Ok(records) => play_named::<Brand, R>(rt, alloc, records),
        Err(_) => tell(rt, "Engine::new", Ending::NotMade),
    }
}

/// Makes an engine, then its calls in turn, each of a transaction of its own.
fn play_named<N: Named, R: Wait + Print>(rt: &R, alloc: Global, records: Records)
    requires commits { records.commits ≡ N.commits }
    requires steps { records.steps ≡ N.steps }
    requires name { records.blank.name ≡ N.name }
    requires parts { records.blank.parts ≡ N.parts }
    requires asks { AsksNothing N.asks }
{
    match tried_new::<N, R>(rt, alloc, records) {
        Ok(engine) => {
            tell(rt, "Engine::new", made(true));
            play_engine(rt, alloc, engine);
        }
        Err(records) => play_new_again::<N, R>(rt, alloc, records),
    }
}

fn play_new_again<N: Named, R: Wait + Print>(rt: &R, alloc: Global, records: Records)
    requires commits { records.commits ≡ N.commits }
    requires steps { records.steps ≡ N.steps }
    requires name { records.blank.name ≡ N.name }
    requires parts { records.blank.parts ≡ N.parts }
{
    match tried_new::<N, R>(rt, alloc, records) {
        Ok(engine) => {
            drop(engine);
            tell(rt, "Engine::new", made_again(true));
        }
        Err(records) => {
            drop(records);
            tell(rt, "Engine::new", Ending::RefusedAgain);
        }
    }
}

fn tried_new<N: Named, R: Print>(
    rt: &R,
    alloc: Global,
    records: Records,
) -> Result<Engine<N>, Records>
    requires commits { records.commits ≡ N.commits }
    requires steps { records.steps ≡ N.steps }
    requires name { records.blank.name ≡ N.name }
    requires parts { records.blank.parts ≡ N.parts }
    ensures { IfErr result (λ left. left ≡ records) }
{
    begin(rt, "Engine::new");
    let came = Engine::<N>::new(alloc, TAG, records);
    end(rt);
    came
}

/// Four transactions, one for each call; then the book.
fn play_engine<N: Named, R: Wait + Print>(rt: &R, alloc: Global, engine: Engine<N>)
    requires asks { AsksNothing N.asks }
{
    let seen = Seen::new(TAG);
    play_begin(rt, alloc, &engine, &seen);
    play_run(rt, alloc, &engine, &seen);
    play_post(rt, alloc, &engine, &seen);
    play_commit(rt, alloc, &engine, &seen);
    match engine.close(&seen) {
        Ok(book) => {
            play_book(rt, alloc, &book);
            drop(book);
        }
        Err((engine, refusal)) => {
            drop(engine);
            drop(refusal);
            tell(rt, "Book::order", Ending::NotMade);
        }
    }
}

fn play_book(rt: &impl Print, alloc: Global, book: &Book) {
    let (object, twin) = (Ordering { book }, Ordering { book });
    play(rt, alloc, "Book::order", Ok(object), Ok(twin));
}

fn begun<'a, N: Named, R: Wait>(
    rt: &R,
    alloc: Global,
    engine: &'a Engine<N>,
    seen: &Seen<N>,
) -> Result<Txn<'a, N>, Refusal> {
    let asked = begin_as(alloc, "postgres")?;
    engine.begin(rt, asked, seen)
}

/// Commits, and gives whether the receipt has this number, and so many statements.
fn is_committed<N: Named, R: Wait>(rt: &R, txn: Txn<'_, N>, number: u64, posts: usize) -> bool {
    match txn.commit(rt) {
        Ok(receipt) => is_receipt(receipt, number, posts),
        Err(CommitFault::NoMemory(txn)) => {
            txn.rollback(rt);
            false
        }
        Err(CommitFault::Over(refusal, ended)) => {
            drop(refusal);
            drop(ended);
            false
        }
    }
}

/// Whether the receipt is of the transaction of this number, with so many statements.
fn is_receipt<N: Named>(receipt: Receipt<N>, number: u64, posts: usize) -> bool {
    let is_it = receipt.txn() == number && receipt.entry().posts().len() == posts;
    drop(receipt);
    is_it
}

/// Whether the transaction is as it began, on the snapshot with the first commit.
fn is_fresh<N: Named>(txn: &Txn<'_, N>) -> bool {
    let number = match txn.snapshot() {
        Some(place) => place.number(),
        None => 0,
    };
    txn.tag() == TAG && txn.role().as_str() == "postgres" && txn.over().is_none() && number == 1
}

/// A begin that was refused has used no number: the next one's is the first.
fn play_begin<N: Named, R: Wait + Print>(
    rt: &R,
    alloc: Global,
    engine: &Engine<N>,
    seen: &Seen<N>,
) {
    let told = match tried_begin(rt, alloc, engine, seen) {
        Ok(txn) => made(is_committed(rt, txn, 1, 0)),
        Err(refusal) => {
            if wants_memory(refusal) {
                told_begin_again(rt, alloc, engine, seen)
            } else {
                Ending::OtherCause
            }
        }
    };
    tell(rt, "Engine::begin", told);
}

fn told_begin_again<N: Named, R: Wait + Print>(
    rt: &R,
    alloc: Global,
    engine: &Engine<N>,
    seen: &Seen<N>,
) -> Ending {
    match tried_begin(rt, alloc, engine, seen) {
        Ok(txn) => made_again(is_committed(rt, txn, 1, 0)),
        Err(refusal) => {
            drop(refusal);
            Ending::RefusedAgain
        }
    }
}

fn tried_begin<'a, N: Named, R: Wait + Print>(
    rt: &R,
    alloc: Global,
    engine: &'a Engine<N>,
    seen: &Seen<N>,
) -> Result<Txn<'a, N>, Refusal> {
    let asked = begin_as(alloc, "postgres")?;
    begin(rt, "Engine::begin");
    let came = engine.begin(rt, asked, seen);
    end(rt);
    came
}

/// A statement is run, and the transaction is as it began until it is posted.
fn play_run<N: Named, R: Wait + Print>(rt: &R, alloc: Global, engine: &Engine<N>, seen: &Seen<N>)
    requires asks { AsksNothing N.asks }
{
    match begun(rt, alloc, engine, seen) {
        Ok(txn) => {
            let mut txn = txn;
            let told = told_run(rt, alloc, &mut txn);
            txn.rollback(rt);
            tell(rt, "Txn::run", told);
        }
        Err(refusal) => {
            drop(refusal);
            tell(rt, "Txn::run", Ending::NotMade);
        }
    }
}

fn told_run<N: Named, R: Wait + Print>(rt: &R, alloc: Global, txn: &mut Txn<'_, N>) -> Ending
    requires asks { AsksNothing N.asks }
{
    match tried_run(rt, alloc, txn) {
        Ok(()) => made(is_posted(txn.post(rt))),
        Err(refusal) => {
            if wants_memory(refusal) {
                told_run_again(rt, alloc, txn)
            } else {
                Ending::OtherCause
            }
        }
    }
}

fn told_run_again<N: Named, R: Wait + Print>(rt: &R, alloc: Global, txn: &mut Txn<'_, N>) -> Ending
    requires asks { AsksNothing N.asks }
{
    if !is_fresh(txn) || !is_nothing(txn.post(rt)) {
        return Ending::Changed;
    }
    match tried_run(rt, alloc, txn) {
        Ok(()) => made_again(is_posted(txn.post(rt))),
        Err(refusal) => {
            drop(refusal);
            Ending::RefusedAgain
        }
    }
}

fn tried_run<N: Named, R: Wait + Print>(
    rt: &R,
    alloc: Global,
    txn: &mut Txn<'_, N>,
) -> Result<(), Refusal>
    requires asks { AsksNothing N.asks }
{
    let statement = shared(alloc, "CREATE ROLE r")?;
    begin(rt, "Txn::run");
    let came = txn.run(&statement);
    end(rt);
    drop(statement);
    Ok(came?)
}

/// Whether a statement was posted, and is done.
fn is_posted(came: Result<Option<Told>, PostFault>) -> bool {
    match came {
        Ok(Some(told)) => is_done(told),
        Ok(None) => false,
        Err(_) => false,
    }
}

fn is_done(told: Told) -> bool {
    match told {
        Ok(reply) => {
            let is_done = matches!(reply, Reply::Done);
            drop(reply);
            is_done
        }
        Err(refusal) => {
            drop(refusal);
            false
        }
    }
}

/// Whether nothing was there to be posted.
fn is_nothing(came: Result<Option<Told>, PostFault>) -> bool {
    match came {
        Ok(told) => {
            let is_none = told.is_none();
            drop(told);
            is_none
        }
        Err(_) => false,
    }
}

/// A post that is refused keeps what is pending: a further one posts it.
fn play_post<N: Named, R: Wait + Print>(rt: &R, alloc: Global, engine: &Engine<N>, seen: &Seen<N>)
    requires asks { AsksNothing N.asks }
{
    match with_role(rt, alloc, engine, seen) {
        Ok(txn) => {
            let mut txn = txn;
            let told = told_post(rt, &mut txn);
            let is_whole = is_committed(rt, txn, 3, 1);
            let told = if is_whole { told } else { Ending::Changed };
            tell(rt, "Txn::post", told);
        }
        Err(refusal) => {
            drop(refusal);
            tell(rt, "Txn::post", Ending::NotMade);
        }
    }
}

/// A transaction with a statement that is run, and not posted.
fn with_role<'a, N: Named, R: Wait>(
    rt: &R,
    alloc: Global,
    engine: &'a Engine<N>,
    seen: &Seen<N>,
) -> Result<Txn<'a, N>, Refusal>
    requires asks { AsksNothing N.asks }
{
    let txn = begun(rt, alloc, engine, seen)?;
    match shared(alloc, "CREATE ROLE r") {
        Ok(statement) => {
            let ran = ran(rt, txn, &statement);
            drop(statement);
            ran
        }
        Err(refusal) => {
            txn.rollback(rt);
            Err(refusal)
        }
    }
}

/// The transaction, once the statement is run.
fn ran<'a, N: Named, R: Wait>(
    rt: &R,
    txn: Txn<'a, N>,
    statement: &Share<Statement>,
) -> Result<Txn<'a, N>, Refusal>
    requires asks { AsksNothing N.asks }
{
    let mut txn = txn;
    match txn.run(statement) {
        Ok(()) => Ok(txn),
        Err(_) => {
            txn.rollback(rt);
            Err(Refusal::NoMemory)
        }
    }
}

fn told_post<N: Named, R: Wait + Print>(rt: &R, txn: &mut Txn<'_, N>) -> Ending {
    match tried_post(rt, txn) {
        Err(PostFault::NoMemory) => told_post_again(rt, txn),
        came => made(is_posted(came)),
    }
}

fn told_post_again<N: Named, R: Wait + Print>(rt: &R, txn: &mut Txn<'_, N>) -> Ending {
    if !is_fresh(txn) {
        return Ending::Changed;
    }
    match tried_post(rt, txn) {
        Err(PostFault::NoMemory) => Ending::RefusedAgain,
        came => made_again(is_posted(came)),
    }
}

fn tried_post<N: Named, R: Wait + Print>(
    rt: &R,
    txn: &mut Txn<'_, N>,
) -> Result<Option<Told>, PostFault> {
    begin(rt, "Txn::post");
    let came = txn.post(rt);
    end(rt);
    came
}

/// A commit that is refused gives the transaction back, with what was posted.
fn play_commit<N: Named, R: Wait + Print>(rt: &R, alloc: Global, engine: &Engine<N>, seen: &Seen<N>)
    requires asks { AsksNothing N.asks }
{
    let told = match with_role(rt, alloc, engine, seen) {
        Ok(txn) => {
            let mut txn = txn;
            drop(txn.post(rt));
            told_commit(rt, txn)
        }
        Err(refusal) => {
            drop(refusal);
            Ending::NotMade
        }
    };
    tell(rt, "Txn::commit", told);
}

fn told_commit<N: Named, R: Wait + Print>(rt: &R, txn: Txn<'_, N>) -> Ending {
    match tried_commit(rt, txn) {
        Ok(receipt) => made(is_receipt(receipt, 4, 1)),
        Err(CommitFault::NoMemory(txn)) => told_commit_again(rt, txn),
        Err(CommitFault::Over(refusal, ended)) => {
            drop(refusal);
            drop(ended);
            Ending::OtherCause
        }
    }
}

fn told_commit_again<N: Named, R: Wait + Print>(rt: &R, txn: Txn<'_, N>) -> Ending {
    match tried_commit(rt, txn) {
        Ok(receipt) => made_again(is_receipt(receipt, 4, 1)),
        Err(CommitFault::NoMemory(txn)) => {
            txn.rollback(rt);
            Ending::RefusedAgain
        }
        Err(CommitFault::Over(refusal, ended)) => {
            drop(refusal);
            drop(ended);
            Ending::OtherCause
        }
    }
}

fn tried_commit<'a, N: Named, R: Wait + Print>(
    rt: &R,
    txn: Txn<'a, N>,
) -> Result<Receipt<N>, CommitFault<'a, N>> {
    begin(rt, "Txn::commit");
    let came = txn.commit(rt);
    end(rt);
    came
}

/// The order of the book.
#[derive(Drop)]
struct Ordering<'b> {
    book: &'b Book,
}

impl<'b> Scenario for Ordering<'b> {
    type Answer = Vec<u64>;

    fn call(&mut self, alloc: Global) -> Result<Vec<u64>, Refusal> {
        Ok(self.book.order(alloc)?)
    }

    fn is_like(&self, _twin: &Ordering<'b>, _alloc: Global) -> Result<bool, Refusal> {
        Ok(self.book.records().len() == 3)
    }

    fn is_answer(&self, answer: &Vec<u64>, _alloc: Global) -> Result<bool, Refusal> {
        Ok(answer.as_slice() == [1, 3, 4].as_slice())
    }
}
