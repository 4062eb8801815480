//! Each public call once, and worked rows, on an engine of their own.

ghost use Rattle.std.specs.Prelude.{◌≡◌};
ghost use Rattle.rls_session.specs.rls_engine.specs.Led.{AsksNothing};

use crate::checking::{has_record, keeps_before};
use crate::opening::{begin_as_postgres, finish, post_text};
use crate::pairs::play_pairs;
use rls_session::rls_engine::{Book, Engine, Named, PostFault, Receipt, Records, Seen, Told, Txn};
use rls_value::Refusal;
use std::alloc::Global;
use std::marker::Brand;
use std::process::Abort;
use std::sync::Wait;

/// Plays them.
pub fn play_cases<R: Wait + Abort>(rt: &R, alloc: Global) -> Result<(), Refusal> {
    let Ok(records) = Records::new(alloc) else {
        return Err(Refusal::NoMemory);
    };
    play_named::<Brand, R>(rt, alloc, records)
}

fn play_named<N: Named, R: Wait + Abort>(
    rt: &R,
    alloc: Global,
    records: Records,
) -> Result<(), Refusal>
    requires commits { records.commits ≡ N.commits }
    requires steps { records.steps ≡ N.steps }
    requires name { records.blank.name ≡ N.name }
    requires parts { records.blank.parts ≡ N.parts }
    requires asks { AsksNothing N.asks }
{
    let Ok(engine) = Engine::<N>::new(alloc, 1, records) else {
        return Err(Refusal::NoMemory);
    };
    let mut seen = Seen::new(engine.tag());
    let mut receipt = commit_first(rt, alloc, &engine, &seen)?;
    shows_first(rt, &receipt);
    meet_foreign(rt, alloc, &engine, &mut receipt)?;
    learn_once(rt, &engine, &mut seen, &mut receipt);
    see_first(rt, alloc, &engine, &seen)?;
    play_pairs(rt, alloc, &engine, &mut seen)?;
    close(rt, alloc, engine, &seen, receipt)
}

/// The first transaction, call by call.
fn commit_first<N: Named, R: Wait + Abort>(
    rt: &R,
    alloc: Global,
    engine: &Engine<N>,
    seen: &Seen<N>,
) -> Result<Receipt<N>, Refusal>
    requires asks { AsksNothing N.asks }
{
    let mut txn = engine.begin(rt, begin_as_postgres(alloc)?, seen)?;
    match post_first(rt, alloc, &mut txn) {
        Ok(()) => finish(rt, txn),
        Err(refusal) => {
            txn.rollback(rt);
            Err(refusal)
        }
    }
}

fn post_first<N: Named, R: Wait + Abort>(
    rt: &R,
    alloc: Global,
    txn: &mut Txn<'_, N>,
) -> Result<(), Refusal>
    requires asks { AsksNothing N.asks }
{
    assert!(rt;
        txn.tag() == 1 && txn.snapshot().is_none() && txn.over().is_none(),
        "it begins"
    );
    assert!(rt; is_nothing(txn.post(rt)), "nothing is pending");
    let table = "CREATE TABLE x (id int PRIMARY KEY, v int)";
    drop(post_text(rt, alloc, txn, table)?);
    drop(post_text(rt, alloc, txn, "INSERT INTO x VALUES (1, 0), (2, 0)")?);
    Ok(())
}

fn is_nothing(posted: Result<Option<Told>, PostFault>) -> bool {
    match posted {
        Ok(None) => true,
        Ok(Some(told)) => {
            drop(told);
            false
        }
        Err(_) => false,
    }
}

fn shows_first<N: Named>(rt: &impl Abort, receipt: &Receipt<N>) {
    assert!(rt; receipt.tag() == 1, "its engine's tag");
    assert!(rt; receipt.number() == 1 && receipt.txn() == 1, "its numbers");
    assert!(rt; receipt.role().as_str() == "postgres", "its role");
    let entry = receipt.entry();
    assert!(rt; entry.snap() == 0 && entry.posts().len() == 2, "its record");
}

/// Another engine's tag begins nothing and learns nothing.
fn meet_foreign<N: Named, R: Wait + Abort>(
    rt: &R,
    alloc: Global,
    engine: &Engine<N>,
    receipt: &mut Receipt<N>,
) -> Result<(), Refusal>
    requires wide { N.parts ≡ 18446744073709551615 }
{
    let mut other = Seen::new(2);
    let is_foreign = match engine.begin(rt, begin_as_postgres(alloc)?, &other) {
        Ok(txn) => {
            txn.rollback(rt);
            false
        }
        Err(refusal) => is_foreign(refusal),
    };
    assert!(rt; is_foreign, "a begin for another engine");
    other.learn(receipt);
    assert!(rt;
        other.number() == 0 && other.told() == 0,
        "a receipt of another engine"
    );
    Ok(())
}

fn is_foreign(refusal: Refusal) -> bool {
    match refusal {
        Refusal::Foreign => true,
        refusal => {
            drop(refusal);
            false
        }
    }
}

/// A receipt counts once, wherever it is learnt.
fn learn_once<N: Named, R: Wait + Abort>(
    rt: &R,
    engine: &Engine<N>,
    seen: &mut Seen<N>,
    receipt: &mut Receipt<N>,
)
    requires wide { N.parts ≡ 18446744073709551615 }
{
    seen.learn(receipt);
    seen.learn(receipt);
    assert!(rt;
        seen.tag() == 1 && seen.number() == 1 && seen.told() == 1,
        "it is learnt"
    );
    let mut more = seen.alike();
    assert!(rt; more.number() == 1 && more.told() == 0, "one alike");
    more.join(seen);
    assert!(rt; more.told() == 1 && seen.told() == 0, "they join");
    seen.join(&mut more);
    assert!(rt;
        engine.audited(rt, seen) == 1 && seen.told() == 1,
        "it is audited"
    );
    engine.agrees(receipt, receipt);
}

/// A snapshot has the commit that was learnt.
fn see_first<N: Named, R: Wait + Abort>(
    rt: &R,
    alloc: Global,
    engine: &Engine<N>,
    seen: &Seen<N>,
) -> Result<(), Refusal> {
    let txn = engine.begin(rt, begin_as_postgres(alloc)?, seen)?;
    let number = match txn.snapshot() {
        Some(place) => place.number(),
        None => 0,
    };
    txn.rollback(rt);
    assert!(rt; number == 1, "its snapshot");
    Ok(())
}

/// Closes the engine, at the second time, and reads its book.
fn close<N: Named>(
    rt: &impl Abort,
    alloc: Global,
    engine: Engine<N>,
    seen: &Seen<N>,
    receipt: Receipt<N>,
) -> Result<(), Refusal> {
    let engine = match engine.close(&Seen::new(2)) {
        Ok(book) => {
            drop(book);
            return Err(Refusal::Foreign);
        }
        Err((engine, refusal)) => {
            assert!(rt; is_foreign(refusal), "a close for another engine");
            engine
        }
    };
    match engine.close(seen) {
        Ok(book) => read_book(rt, alloc, &book, receipt),
        Err((_, refusal)) => Err(refusal),
    }
}

/// The first, and one of each pair, in order.
fn read_book<N: Named>(
    rt: &impl Abort,
    alloc: Global,
    book: &Book,
    receipt: Receipt<N>,
) -> Result<(), Refusal>
    requires { book.now.commits ≡ N.commits }
{
    assert!(rt; has_record(book, &receipt), "its record");
    let numbers = book.order(alloc)?;
    assert!(rt; numbers.as_slice() == [1, 3, 5].as_slice(), "the order");
    assert!(rt;
        keeps_before(alloc, book.records(), numbers.as_slice())?,
        "it keeps before"
    );
    let (_, place) = receipt.into_parts();
    let number = place.number() as usize;
    assert!(rt; number == 1 && number <= book.records().len(), "its place");
    book.holds(&place);
    Ok(())
}
