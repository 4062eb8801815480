//! Two transactions beside each other.

ghost use Rattle.std.specs.Prelude.{◌≡◌};
ghost use Rattle.rls_session.specs.rls_engine.specs.Led.{AsksNothing};

use crate::opening::{begin_as_postgres, finish, post_text};
use rls_session::rls_engine::{Engine, Named, Receipt, Seen, Txn};
use rls_value::Refusal;
use std::alloc::{AllocError, Global};
use std::process::Abort;
use std::sync::Wait;

/// The pairs, the first of which commits, and is learnt.
pub fn play_pairs<N: Named, R: Wait + Abort>(
    rt: &R,
    alloc: Global,
    engine: &Engine<N>,
    seen: &mut Seen<N>,
) -> Result<(), Refusal>
    requires wide { N.parts ≡ 18446744073709551615 }
    requires asks { AsksNothing N.asks }
{
    play_second_writer(rt, alloc, engine, seen)?;
    play_write_skew(rt, alloc, engine, seen)
}

/// A second writer of a row (PostgreSQL manual, 13.2.2, "Repeatable Read Isolation Level").
fn play_second_writer<N: Named, R: Wait + Abort>(
    rt: &R,
    alloc: Global,
    engine: &Engine<N>,
    seen: &mut Seen<N>,
) -> Result<(), Refusal>
    requires wide { N.parts ≡ 18446744073709551615 }
    requires asks { AsksNothing N.asks }
{
    let one = [
        "UPDATE x SET v = 1 WHERE id = 1",
        "SELECT v FROM x WHERE id = 1",
    ];
    let other = [
        "SELECT v FROM x WHERE id = 1",
        "UPDATE x SET v = 2 WHERE id = 1",
    ];
    let why = play_pair(rt, alloc, engine, seen, &one, &other)?;
    let wanted = "40001 could not serialize access: key (1) of x was written by 3";
    assert!(rt; is_refused_so(alloc, &why, wanted)?, "{wanted}");
    Ok(())
}

/// Each reads what the other writes (Ports and Grittner, VLDB 2012, 2.1.1, "Simple Write Skew").
fn play_write_skew<N: Named, R: Wait + Abort>(
    rt: &R,
    alloc: Global,
    engine: &Engine<N>,
    seen: &mut Seen<N>,
) -> Result<(), Refusal>
    requires wide { N.parts ≡ 18446744073709551615 }
    requires asks { AsksNothing N.asks }
{
    let one = [
        "SELECT v FROM x WHERE id = 1",
        "UPDATE x SET v = 3 WHERE id = 2",
    ];
    let other = [
        "SELECT v FROM x WHERE id = 2",
        "UPDATE x SET v = 3 WHERE id = 1",
    ];
    let why = play_pair(rt, alloc, engine, seen, &one, &other)?;
    let wanted =
        "40001 could not serialize access: 5 read key (1) of x, 6 wrote it; 6 read key (2) of x, 5 wrote it";
    assert!(rt; is_refused_so(alloc, &why, wanted)?, "{wanted}");
    Ok(())
}

fn is_refused_so(alloc: Global, why: &Refusal, wanted: &str) -> Result<bool, AllocError> {
    let code = why.code();
    let text = format!(in alloc; "{code} {why}")?;
    Ok(text.as_str() == wanted)
}

/// Two begin, post in turn, and commit. The one is learnt, and it gives what refuses the other.
fn play_pair<N: Named, R: Wait>(
    rt: &R,
    alloc: Global,
    engine: &Engine<N>,
    seen: &mut Seen<N>,
    one: &[&str],
    other: &[&str],
) -> Result<Refusal, Refusal>
    requires wide { N.parts ≡ 18446744073709551615 }
    requires asks { AsksNothing N.asks }
{
    let (committed, refused) = end_pair(rt, alloc, engine, seen, one, other)?;
    match committed {
        Ok(receipt) => {
            learn(seen, receipt);
            refused.ok_or(Refusal::Foreign)
        }
        Err(refusal) => {
            drop(refused);
            Err(refusal)
        }
    }
}

fn learn<N: Named>(seen: &mut Seen<N>, receipt: Receipt<N>)
    requires wide { N.parts ≡ 18446744073709551615 }
{
    let mut receipt = receipt;
    seen.learn(&mut receipt);
}

/// What came of the one, and what refuses the other.
fn end_pair<N: Named, R: Wait>(
    rt: &R,
    alloc: Global,
    engine: &Engine<N>,
    seen: &Seen<N>,
    one: &[&str],
    other: &[&str],
) -> Result<(Result<Receipt<N>, Refusal>, Option<Refusal>), Refusal>
    requires asks { AsksNothing N.asks }
{
    let first = begin(rt, alloc, engine, seen)?;
    match begin(rt, alloc, engine, seen) {
        Ok(second) => Ok(run_pair(rt, alloc, first, second, one, other)),
        Err(refusal) => {
            first.rollback(rt);
            Err(refusal)
        }
    }
}

fn begin<'a, N: Named, R: Wait>(
    rt: &R,
    alloc: Global,
    engine: &'a Engine<N>,
    seen: &Seen<N>,
) -> Result<Txn<'a, N>, Refusal> {
    engine.begin(rt, begin_as_postgres(alloc)?, seen)
}

fn run_pair<N: Named, R: Wait>(
    rt: &R,
    alloc: Global,
    first: Txn<'_, N>,
    second: Txn<'_, N>,
    one: &[&str],
    other: &[&str],
) -> (Result<Receipt<N>, Refusal>, Option<Refusal>)
    requires asks { AsksNothing N.asks }
{
    let mut first = first;
    let mut second = second;
    let posted = post_in_turn(rt, alloc, &mut first, &mut second, one, other);
    let committed = finish(rt, first);
    (committed, refused(posted, finish(rt, second)))
}

/// What refuses a commit, or else a post before it.
fn refused<N: Named>(
    posted: Result<(), Refusal>,
    ended: Result<Receipt<N>, Refusal>,
) -> Option<Refusal> {
    match ended {
        Ok(receipt) => {
            drop(receipt);
            posted.err()
        }
        Err(refusal) => {
            drop(posted);
            Some(refusal)
        }
    }
}

/// A statement of the one, then one of the other, and so on.
fn post_in_turn<N: Named, R: Wait>(
    rt: &R,
    alloc: Global,
    first: &mut Txn<'_, N>,
    second: &mut Txn<'_, N>,
    one: &[&str],
    other: &[&str],
) -> Result<(), Refusal>
    requires asks { AsksNothing N.asks }
{
    for (text, next) in one.iter().zip(other.iter()) {
        drop(post_text(rt, alloc, first, text)?);
        drop(post_text(rt, alloc, second, next)?);
    }
    Ok(())
}
