//! Loads that threads run, and the worked cases, on engines of their own.

use crate::cases::play_cases;
use crate::loads::run_load;
use crate::worker::Load;

/// Four rows of 1,000 transactions over 64 keys, so many rows at once.
fn hot(threads: usize) -> Load {
    Load {
        workers: 4,
        threads,
        turns: 1000,
        keys: 64,
        reads: 2,
        updates: 1,
    }
}

/// Four threads: whatever the schedule is, only 40001 refuses one.
#[test]
fn threads_agree_with_the_book(rt: HostRuntime) {
    let came = run_load(&rt, rt.alloc(), hot(4), true)
        .ok()
        .expect(&rt, "they run");
    assert!(rt; came.is_right && came.faults == 0);
    assert!(rt; came.commits > 0 && came.commits.wrapping_add(came.conflicts) == 4000);
}

/// One thread: all commit.
#[test]
fn one_thread_commits_all(rt: HostRuntime) {
    let came = run_load(&rt, rt.alloc(), hot(1), true)
        .ok()
        .expect(&rt, "they run");
    assert!(rt; came.is_right && came.faults == 0);
    assert!(rt; came.commits == 4000 && came.conflicts == 0);
}

/// Each public call, and pairs of transactions.
#[test]
fn calls_answer(rt: HostRuntime) {
    assert!(rt; play_cases(&rt, rt.alloc()).is_ok());
}
