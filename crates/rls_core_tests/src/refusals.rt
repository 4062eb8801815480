//! What is refused, and with which text.

use crate::opening::{opened, shared};
use crate::playing::play;
use rls_audit::rls_core::Core;
use rls_value::{Refusal, TxnState};
use std::alloc::Global;

/// Whether the answer is that no transaction is in progress.
fn is_none_in_progress<T: Drop>(answer: Result<T, Refusal>) -> bool {
    match answer {
        Ok(_) => false,
        Err(Refusal::TxnState(TxnState::NoneInProgress)) => true,
        Err(refusal) => {
            drop(refusal);
            false
        }
    }
}

/// Whether there is no work for a transaction that doesn't run, and nothing of it is ready.
fn has_no_work(core: &Core, alloc: Global, txn: u64) -> bool {
    match shared(alloc, "SELECT * FROM t") {
        Ok(statement) => {
            is_none_in_progress(core.work(alloc, txn, statement))
                && is_none_in_progress(core.ready(alloc, txn))
        }
        Err(refusal) => {
            drop(refusal);
            false
        }
    }
}

/// A role without LOGIN and one that is absent; they use no number.
#[test]
fn begin_asks_for_login(rt: HostRuntime) {
    let alloc = rt.alloc();
    let mut core = opened(alloc, &["CREATE ROLE r"], &[])
        .ok()
        .expect(&rt, "opens");
    play(
        &rt,
        &mut core,
        alloc,
        &[
            ("r", 0, "BEGIN", "28000 role \"r\" may not log in"),
            ("nobody", 0, "BEGIN", "28000 role \"nobody\" may not log in"),
            ("postgres", 3, "BEGIN", "3"),
        ],
    );
}

/// A transaction that never began, and one that is over.
#[test]
fn what_does_not_run_is_refused(rt: HostRuntime) {
    let alloc = rt.alloc();
    let mut core = opened(alloc, &["CREATE ROLE r"], &[])
        .ok()
        .expect(&rt, "opens");
    for txn in [2, 9] {
        play(
            &rt,
            &mut core,
            alloc,
            &[
                (
                    "postgres",
                    txn,
                    "SELECT * FROM t",
                    "25P01 there is no transaction in progress",
                ),
                (
                    "postgres",
                    txn,
                    "COMMIT",
                    "25P01 there is no transaction in progress",
                ),
                (
                    "postgres",
                    txn,
                    "ROLLBACK",
                    "25P01 there is no transaction in progress",
                ),
            ],
        );
        assert!(rt; has_no_work(&core, alloc, txn), "{txn}");
    }
}

/// A refused statement leaves its transaction running, and read-only transactions refuse writes.
#[test]
fn refused_statement_leaves_its_transaction(rt: HostRuntime) {
    let alloc = rt.alloc();
    let mut core = opened(alloc, &[], &[]).ok().expect(&rt, "opens");
    play(
        &rt,
        &mut core,
        alloc,
        &[
            ("postgres", 2, "BEGIN READ ONLY", "2"),
            (
                "postgres",
                2,
                "CREATE ROLE z",
                "25006 cannot execute CREATE ROLE in a read-only transaction",
            ),
            (
                "postgres",
                2,
                "SELECT * FROM t",
                "42P01 relation \"t\" does not exist",
            ),
            ("postgres", 2, "ROLLBACK", "ROLLBACK"),
        ],
    );
    assert!(rt; core.commits() == 0);
}
