//! Transactions and their statements.

ghost use Rattle.rls_session.specs.rls_engine.specs.Led.{AsksNothing};

use rls_session::rls_access::{Mode, Reply};
use rls_session::rls_core::Begin;
use rls_session::rls_engine::{CommitFault, Engine, Named, PostFault, Receipt, Seen, Txn};
use rls_session::rls_text::parse;
use rls_value::shared::Share;
use rls_value::{Name, Refusal};
use std::alloc::Global;
use std::sync::Wait;

/// One begins as `postgres`.
pub fn begin_as_postgres(alloc: Global) -> Result<Begin, Refusal> {
    let login = Name::new(alloc, "postgres")?;
    let role = login.copy()?;
    Ok(Begin {
        login,
        role,
        mode: Mode::Write,
    })
}

/// Runs a statement and posts it.
pub fn post_text<N: Named, R: Wait>(
    rt: &R,
    alloc: Global,
    txn: &mut Txn<'_, N>,
    text: &str,
) -> Result<Reply, Refusal>
    requires asks { AsksNothing N.asks }
{
    let statement = Share::new(alloc, parse(alloc, text)?)?;
    let ran = txn.run(&statement);
    drop(statement);
    ran?;
    match txn.post(rt) {
        Ok(Some(told)) => told,
        Ok(None) => Err(Refusal::Foreign),
        Err(PostFault::NoMemory) => Err(Refusal::NoMemory),
        Err(PostFault::Over) => Err(why_over(alloc, txn)),
    }
}

/// What ended the transaction.
pub fn why_over<N: Named>(alloc: Global, txn: &Txn<'_, N>) -> Refusal {
    match txn.over() {
        Some(why) => match why.copy(alloc) {
            Ok(why) => why,
            Err(_) => Refusal::NoMemory,
        },
        None => Refusal::Foreign,
    }
}

/// Commits. A transaction that comes back for want of memory is rolled back.
pub fn finish<N: Named, R: Wait>(rt: &R, txn: Txn<'_, N>) -> Result<Receipt<N>, Refusal> {
    match txn.commit(rt) {
        Ok(receipt) => Ok(receipt),
        Err(CommitFault::NoMemory(txn)) => {
            txn.rollback(rt);
            Err(Refusal::NoMemory)
        }
        Err(CommitFault::Over(refusal, ended)) => {
            drop(ended);
            Err(refusal)
        }
    }
}

/// Runs the statements in a transaction of their own.
pub fn run_alone<N: Named, R: Wait>(
    rt: &R,
    alloc: Global,
    engine: &Engine<N>,
    seen: &Seen<N>,
    texts: &[&str],
) -> Result<Receipt<N>, Refusal>
    requires asks { AsksNothing N.asks }
{
    let mut txn = engine.begin(rt, begin_as_postgres(alloc)?, seen)?;
    match post_all(rt, alloc, &mut txn, texts) {
        Ok(()) => finish(rt, txn),
        Err(refusal) => {
            txn.rollback(rt);
            Err(refusal)
        }
    }
}

fn post_all<N: Named, R: Wait>(
    rt: &R,
    alloc: Global,
    txn: &mut Txn<'_, N>,
    texts: &[&str],
) -> Result<(), Refusal>
    requires asks { AsksNothing N.asks }
{
    for text in texts {
        let reply = post_text(rt, alloc, txn, text)?;
        drop(reply);
    }
    Ok(())
}
