//! Loads of transactions, by threads.

ghost use Rattle.std.specs.Prelude.{◌≡◌};
ghost use Rattle.rls_session.specs.rls_engine.specs.Led.{AsksNothing};

use crate::checking::{has_record, keeps_before};
use crate::opening::{begin_as_postgres, post_text, run_alone};
use crate::worker::{Load, Seat, Worker};
use rls_session::rls_access::Reply;
use rls_session::rls_engine::{Book, Engine, Named, Records, Seen, Txn};
use rls_value::{Refusal, Row, Value};
use std::alloc::{AllocError, Global};
use std::collections::BTreeMap;
use std::marker::Brand;
use std::sync::Wait;
use std::thread;
use std::thread::Threads;

/// What came of a load.
#[derive(Clone, Copy)]
pub struct Came {
    /// How many committed.
    pub commits: u64,
    /// How many were refused with 40001.
    pub conflicts: u64,
    /// How many were refused by anything else.
    pub faults: u64,
    /// The receipts have numbers of their own, the book has their records and the one of the opening and no more, its order keeps
    /// what has to stand before what, and the keys were counted up once for each update that was committed. False where nothing
    /// of this was looked at.
    pub is_right: bool,
}

/// Runs a load, and looks at the book if that is asked for.
pub fn run_load<R: Threads + Wait + Sync>(
    rt: &R,
    alloc: Global,
    load: Load,
    is_checked: bool,
) -> Result<Came, Refusal> {
    let Ok(records) = Records::new(alloc) else {
        return Err(Refusal::NoMemory);
    };
    run_named::<Brand, R>(rt, alloc, records, load, is_checked)
}

fn run_named<N: Named + Send + Sync, R: Threads + Wait + Sync>(
    rt: &R,
    alloc: Global,
    records: Records,
    load: Load,
    is_checked: bool,
) -> Result<Came, Refusal>
    requires commits { records.commits ≡ N.commits }
    requires steps { records.steps ≡ N.steps }
    requires name { records.blank.name ≡ N.name }
    requires parts { records.blank.parts ≡ N.parts }
    requires asks { AsksNothing N.asks }
{
    let Ok(engine) = Engine::<N>::new(alloc, 1, records) else {
        return Err(Refusal::NoMemory);
    };
    let mut seen = Seen::new(1);
    open(rt, alloc, &engine, &mut seen, load.keys)?;
    let mut workers = run_all(rt, alloc, &engine, &seen, load)?;
    learn_all(&mut seen, workers.as_mut_slice());
    let mut came = counted(workers.as_slice());
    if is_checked {
        let total = total(rt, alloc, &engine, &seen)?;
        came.is_right = total == came.commits.wrapping_mul(load.updates)
            && close(alloc, engine, &seen, workers.as_slice())?;
    }
    Ok(came)
}

/// Closes the engine, and looks at its book.
fn close<N: Named>(
    alloc: Global,
    engine: Engine<N>,
    seen: &Seen<N>,
    workers: &[Worker<N>],
) -> Result<bool, Refusal> {
    match engine.close(seen) {
        Ok(book) => Ok(agrees(alloc, &book, workers)?),
        Err((_, refusal)) => Err(refusal),
    }
}

/// A table with the keys, each with 0.
fn open<N: Named, R: Wait>(
    rt: &R,
    alloc: Global,
    engine: &Engine<N>,
    seen: &mut Seen<N>,
    keys: u64,
) -> Result<(), Refusal>
    requires wide { N.parts ≡ 18446744073709551615 }
    requires asks { AsksNothing N.asks }
{
    let mut rows = "INSERT INTO x VALUES (0, 0)".to_string(alloc)?;
    for key in 1..keys {
        let row = format!(in alloc; ", ({key}, 0)")?;
        rows.push_str(row.as_str())?;
    }
    let table = "CREATE TABLE x (id int PRIMARY KEY, v int)";
    let mut receipt = run_alone(rt, alloc, engine, seen, &[table, rows.as_str()])?;
    seen.learn(&mut receipt);
    Ok(())
}

/// A worker for each row of transactions, which has run it.
fn run_all<N: Named + Send + Sync, R: Threads + Wait + Sync>(
    rt: &R,
    alloc: Global,
    engine: &Engine<N>,
    seen: &Seen<N>,
    load: Load,
) -> Result<Vec<Worker<N>>, AllocError>
    requires wide { N.parts ≡ 18446744073709551615 }
    requires asks { AsksNothing N.asks }
{
    let mut seats = seated(alloc, engine, seen, load)?;
    run_seats(rt, seats.as_mut_slice(), load.threads);
    left(alloc, seats)
}

/// A seat for each worker.
fn seated<'a, N: Named>(
    alloc: Global,
    engine: &'a Engine<N>,
    seen: &Seen<N>,
    load: Load,
) -> Result<Vec<Seat<'a, N>>, AllocError> {
    let mut seats = Vec::new(alloc);
    for place in 0..load.workers {
        seats.push(Seat::new(alloc, engine, load, Worker::new(alloc, place, seen)))?;
    }
    Ok(seats)
}

/// All run, by so many threads, and by one at least.
fn run_seats<N: Named + Send + Sync, R: Threads + Wait + Sync>(
    rt: &R,
    seats: &mut [Seat<'_, N>],
    threads: usize,
)
    requires wide { N.parts ≡ 18446744073709551615 }
    requires asks { AsksNothing N.asks }
{
    thread::for_each_mut(
        rt,
        seats,
        threads.max(1),
        &|_i, seat: &mut Seat<'_, N>|
            requires wide { N.parts ≡ 18446744073709551615 }
            requires asks { AsksNothing N.asks }
        { seat.run(rt) },
    );
}

/// The workers, which leave their seats.
fn left<N: Named>(alloc: Global, seats: Vec<Seat<'_, N>>) -> Result<Vec<Worker<N>>, AllocError> {
    let mut seats = seats;
    let mut workers = Vec::new(alloc);
    while let Some(seat) = seats.pop() {
        workers.push(seat.leave())?;
    }
    Ok(workers)
}

/// Learns what each has learnt.
fn learn_all<N: Named>(seen: &mut Seen<N>, workers: &mut [Worker<N>])
    requires wide { N.parts ≡ 18446744073709551615 }
{
    for i in 0..workers.len() {
        seen.join(&mut workers[i].seen);
    }
}

/// What the keys come to, added up.
fn total<N: Named, R: Wait>(
    rt: &R,
    alloc: Global,
    engine: &Engine<N>,
    seen: &Seen<N>,
) -> Result<u64, Refusal>
    requires asks { AsksNothing N.asks }
{
    let mut txn: Txn<'_, N> = engine.begin(rt, begin_as_postgres(alloc)?, seen)?;
    let reply = post_text(rt, alloc, &mut txn, "SELECT v FROM x");
    txn.rollback(rt);
    match reply? {
        Reply::Rows(rows) => Ok(added(rows.get().as_slice())),
        _ => Err(Refusal::Foreign),
    }
}

fn added(rows: &[Row]) -> u64 {
    let mut total = 0u64;
    for row in rows {
        if let Some(Value::Int(value)) = row.get(0) {
            total = total.wrapping_add(value.unsigned_abs());
        }
    }
    total
}

/// How many committed and how many were refused.
fn counted<N: Named>(workers: &[Worker<N>]) -> Came {
    let mut came = Came {
        commits: 0,
        conflicts: 0,
        faults: 0,
        is_right: false,
    };
    for worker in workers {
        came.commits = came.commits.wrapping_add(worker.receipts.len() as u64);
        came.conflicts = came.conflicts.wrapping_add(worker.conflicts);
        came.faults = came.faults.wrapping_add(worker.faults);
    }
    came
}

/// Whether the book has just the record of the opening and one for each receipt, and an order that keeps what has to stand before
/// what.
fn agrees<N: Named>(alloc: Global, book: &Book, workers: &[Worker<N>]) -> Result<bool, AllocError>
    requires { book.now.commits ≡ N.commits }
{
    let found = receipts_found(alloc, book, workers)?;
    let numbers = book.order(alloc)?;
    let is_whole = book.records().len() as u64 == found.wrapping_add(1);
    Ok(is_whole && keeps_before(alloc, book.records(), numbers.as_slice())?)
}

/// How many numbers receipts have whose record the book has.
fn receipts_found<N: Named>(
    alloc: Global,
    book: &Book,
    workers: &[Worker<N>],
) -> Result<u64, AllocError>
    requires { book.now.commits ≡ N.commits }
{
    let mut numbers = BTreeMap::new(alloc);
    for worker in workers {
        find_all(book, worker, &mut numbers)?;
    }
    Ok(numbers.len() as u64)
}

fn find_all<N: Named>(
    book: &Book,
    worker: &Worker<N>,
    numbers: &mut BTreeMap<u64, ()>,
) -> Result<(), AllocError>
    requires { book.now.commits ≡ N.commits }
{
    for receipt in worker.receipts.as_slice() {
        if has_record(book, receipt) {
            numbers.insert(receipt.number(), ())?;
        }
    }
    Ok(())
}
