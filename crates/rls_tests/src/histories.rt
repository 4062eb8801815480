//! Worked histories: which commit is refused, and how the refusal reads.

use crate::objects::{Key, Made, Part};
use crate::steps::Step::{Begin, Commit, Make, Promote, Read};
use crate::steps::{Step, are_taken, is_refused};
use rls_value::RowId;

/// Mallory (17) notes on what she sees by a policy that reads her group; alice (18) counts, and takes mallory's group away.
const SKEW: [Step; 9] = [
    Begin(17),
    Begin(18),
    Read(17, Part::Keyed("users", Key::Text("mallory"))),
    Read(17, Part::Rows("information")),
    Make(
        17,
        Made::Update("information", RowId { txn: 10, n: 0 }, Key::Absent),
    ),
    Read(18, Part::Keyed("users", Key::Text("alice"))),
    Read(18, Part::Rows("information")),
    Read(18, Part::Keyed("users", Key::Text("mallory"))),
    Make(
        18,
        Made::Update("users", RowId { txn: 6, n: 2 }, Key::Text("mallory")),
    ),
];

/// Two grants that close a circle of memberships: each looks for one and finds none.
const CIRCLE: [Step; 8] = [
    Begin(5),
    Begin(6),
    Read(5, Part::Members("y")),
    Read(5, Part::Members("x")),
    Make(5, Made::Members("y")),
    Read(6, Part::Members("x")),
    Read(6, Part::Members("y")),
    Make(6, Made::Members("x")),
];

/// The batch is closed (9), a report reads the new number and the receipts (10), and a receipt comes under the old number (8).
const LATE_RECEIPT: [Step; 11] = [
    Begin(8),
    Read(8, Part::Keyed("control", Key::Number(1))),
    Begin(9),
    Read(9, Part::Keyed("control", Key::Number(1))),
    Make(
        9,
        Made::Update("control", RowId { txn: 4, n: 0 }, Key::Number(1)),
    ),
    Commit(9, 1),
    Begin(10),
    Read(10, Part::Keyed("control", Key::Number(1))),
    Read(10, Part::Rows("receipts")),
    Commit(10, 2),
    Make(
        8,
        Made::Insert("receipts", RowId { txn: 8, n: 0 }, Key::Absent),
    ),
];

/// A chain of three: 7 reads the row that 8 writes, and 8 the one that 9 writes.
const CHAIN: [Step; 9] = [
    Begin(7),
    Begin(8),
    Begin(9),
    Read(7, Part::Keyed("x", Key::Number(1))),
    Read(8, Part::Keyed("x", Key::Number(2))),
    Read(8, Part::Keyed("x", Key::Number(1))),
    Make(8, Made::Update("x", RowId { txn: 3, n: 0 }, Key::Number(1))),
    Read(9, Part::Keyed("x", Key::Number(2))),
    Make(9, Made::Update("x", RowId { txn: 3, n: 1 }, Key::Number(2))),
];

/// Two update two rows without a key.
const TWO_ROWS: [Step; 4] = [
    Begin(17),
    Begin(18),
    Make(
        17,
        Made::Update("information", RowId { txn: 10, n: 0 }, Key::Absent),
    ),
    Make(
        18,
        Made::Update("information", RowId { txn: 10, n: 1 }, Key::Absent),
    ),
];

/// Histories whose last step is refused: the steps, more steps, the last one, and how its refusal reads.
const REFUSED: [(&[Step], &[Step], Step, &str); 6] = [
    (
        &SKEW,
        &[Commit(17, 1)],
        Commit(18, 2),
        "could not serialize access: 17 read key ('mallory') of users, 18 wrote it; 18 read rows of information, 17 wrote it",
    ),
    // The same where all notes are promoted once the first has committed.
    (
        &SKEW,
        &[Commit(17, 1), Promote],
        Commit(18, 2),
        "could not serialize access: 17 read rows of users, 18 wrote it; 18 read rows of information, 17 wrote it",
    ),
    (
        &CIRCLE,
        &[Commit(5, 1)],
        Commit(6, 2),
        "could not serialize access: 5 read members of x, 6 wrote it; 6 read members of y, 5 wrote it",
    ),
    (
        &LATE_RECEIPT,
        &[],
        Commit(8, 3),
        "could not serialize access: 10 read rows of receipts, 8 wrote it; 8 read key (1) of control, 9 wrote it",
    ),
    // Where the first of the chain has written too, the pivot is refused.
    (
        &CHAIN,
        &[
            Make(7, Made::Insert("x", RowId { txn: 7, n: 0 }, Key::Number(3))),
            Commit(9, 1),
            Commit(7, 2),
        ],
        Commit(8, 3),
        "could not serialize access: 7 read key (1) of x, 8 wrote it; 8 read key (2) of x, 9 wrote it",
    ),
    // The second writer of a row is refused at once; one of another row without a key isn't.
    (
        &TWO_ROWS,
        &[],
        Make(
            18,
            Made::Update("information", RowId { txn: 10, n: 0 }, Key::Absent),
        ),
        "could not serialize access: row 10.0 of information was written by 17",
    ),
];

/// A skew between a policy's read and an update, a circle, a report by a reader that came late, a chain, a second writer.
#[test]
fn last_step_of_a_history_is_refused(rt: HostRuntime) {
    for (steps, then, last, text) in REFUSED {
        assert!(rt; is_refused(rt.alloc(), steps, then, last, text), "{text}");
    }
}

/// Which of a chain of three are refused depends on the order of their commits, and on what the first wrote: where the third
/// commits last, all commit; where it commits first and the first only reads, all commit, and the first stands first.
#[test]
fn chains_commit_by_the_order_of_their_commits(rt: HostRuntime) {
    let in_order = [Commit(7, 1), Commit(8, 2), Commit(9, 3)];
    assert!(rt; are_taken(rt.alloc(), &CHAIN, &in_order));
    let third_first = [Commit(9, 1), Commit(7, 2), Commit(8, 3)];
    assert!(rt; are_taken(rt.alloc(), &CHAIN, &third_first));
}
