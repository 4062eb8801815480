//! Worked histories: what each call answers, and the order.

use crate::opening::{opened, with_a_batch, with_information, with_two_rows};
use crate::playing::{has_order, play};
use rls_audit::rls_core::Core;
use std::alloc::Global;
use std::process::Abort;

/// Mallory reads at her snapshot what alice hides before mallory commits, and stands before her.
#[test]
fn reader_keeps_its_snapshot(rt: HostRuntime) {
    let alloc = rt.alloc();
    let mut core = with_information(alloc).ok().expect(&rt, "opens");
    play(
        &rt,
        &mut core,
        alloc,
        &[
            ("mallory", 17, "BEGIN", "17"),
            ("alice", 18, "BEGIN", "18"),
            (
                "alice",
                18,
                "UPDATE users SET group_id = 1 WHERE user_name = 'mallory'",
                "UPDATE 1",
            ),
            (
                "alice",
                18,
                "UPDATE information SET info = 'secret from mallory' WHERE group_id = 2",
                "UPDATE 1",
            ),
            ("alice", 18, "COMMIT", "COMMIT 14"),
            (
                "mallory",
                17,
                "SELECT info FROM information WHERE group_id = 2",
                "slightly secret / SELECT 1",
            ),
            ("mallory", 17, "COMMIT", "COMMIT 15"),
        ],
    );
    assert!(rt;
        has_order(
            &core,
            alloc,
            &[2, 3, 4, 5, 6, 7, 8, 9, 10, 11, 12, 13, 14, 17, 18]
        )
    );
    play(
        &rt,
        &mut core,
        alloc,
        &[
            ("mallory", 19, "BEGIN", "19"),
            (
                "mallory",
                19,
                "SELECT info FROM information",
                "barely secret / SELECT 1",
            ),
            ("mallory", 19, "COMMIT", "COMMIT 16"),
        ],
    );
}

/// A skew between what a policy reads and an update of it.
#[test]
fn second_of_a_skew_is_refused(rt: HostRuntime) {
    let alloc = rt.alloc();
    let mut core = with_information(alloc).ok().expect(&rt, "opens");
    play(
        &rt,
        &mut core,
        alloc,
        &[
            ("mallory", 17, "BEGIN", "17"),
            ("alice", 18, "BEGIN", "18"),
            (
                "mallory",
                17,
                "UPDATE information SET info = 'noted' WHERE group_id = 1",
                "UPDATE 1",
            ),
            (
                "alice",
                18,
                "SELECT count(*) FROM information",
                "3 / SELECT 1",
            ),
            (
                "alice",
                18,
                "UPDATE users SET group_id = 1 WHERE user_name = 'mallory'",
                "UPDATE 1",
            ),
            ("mallory", 17, "COMMIT", "COMMIT 14"),
            (
                "alice",
                18,
                "COMMIT",
                "40001 could not serialize access: 17 read key ('mallory') of users, 18 wrote it; 18 read rows of information, 17 wrote it",
            ),
            (
                "alice",
                18,
                "COMMIT",
                "25P01 there is no transaction in progress",
            ),
        ],
    );
    assert!(rt;
        has_order(
            &core,
            alloc,
            &[2, 3, 4, 5, 6, 7, 8, 9, 10, 11, 12, 13, 14, 17]
        )
    );
}

/// The second writer of a row is refused at once, and its transaction is over.
#[test]
fn second_writer_is_refused(rt: HostRuntime) {
    let alloc = rt.alloc();
    let mut core = with_information(alloc).ok().expect(&rt, "opens");
    play(
        &rt,
        &mut core,
        alloc,
        &[
            ("mallory", 17, "BEGIN", "17"),
            ("alice", 18, "BEGIN", "18"),
            (
                "mallory",
                17,
                "UPDATE information SET info = 'x' WHERE group_id = 1",
                "UPDATE 1",
            ),
            (
                "alice",
                18,
                "UPDATE information SET info = 'x' WHERE group_id = 1",
                "40001 could not serialize access: row 10.0 of information was written by 17",
            ),
            (
                "alice",
                18,
                "SELECT * FROM users",
                "25P01 there is no transaction in progress",
            ),
            ("mallory", 17, "COMMIT", "COMMIT 14"),
        ],
    );
}

/// Two grants that close a circle of memberships; the second again, later.
#[test]
fn second_half_of_a_circle_is_refused(rt: HostRuntime) {
    let alloc = rt.alloc();
    let mut core = opened(alloc, &["CREATE ROLE x", "CREATE ROLE y"], &["postgres"])
        .ok()
        .expect(&rt, "opens");
    play(
        &rt,
        &mut core,
        alloc,
        &[
            ("postgres", 5, "BEGIN", "5"),
            ("postgres", 6, "BEGIN", "6"),
            ("postgres", 5, "GRANT x TO y", "GRANT ROLE"),
            ("postgres", 6, "GRANT y TO x", "GRANT ROLE"),
            ("postgres", 5, "COMMIT", "COMMIT 3"),
            (
                "postgres",
                6,
                "COMMIT",
                "40001 could not serialize access: 5 read members of x, 6 wrote it; 6 read members of y, 5 wrote it",
            ),
            ("postgres", 7, "BEGIN", "7"),
            (
                "postgres",
                7,
                "GRANT y TO x",
                "0LP01 role \"y\" is a member of role \"x\"",
            ),
            ("postgres", 7, "COMMIT", "COMMIT 4"),
        ],
    );
    assert!(rt; has_order(&core, alloc, &[2, 3, 5, 7]));
}

/// The batch is closed (9), a report reads the new number and the receipts (10), and a receipt comes under the old number (8).
#[test]
fn late_receipt_after_a_report_is_refused(rt: HostRuntime) {
    let alloc = rt.alloc();
    let mut core = with_a_batch(alloc).ok().expect(&rt, "opens");
    play(
        &rt,
        &mut core,
        alloc,
        &[
            ("postgres", 8, "BEGIN", "8"),
            (
                "postgres",
                8,
                "SELECT batch FROM control WHERE id = 1",
                "7 / SELECT 1",
            ),
            ("postgres", 9, "BEGIN", "9"),
            (
                "postgres",
                9,
                "UPDATE control SET batch = batch + 1 WHERE id = 1",
                "UPDATE 1",
            ),
            ("postgres", 9, "COMMIT", "COMMIT 4"),
            ("postgres", 10, "BEGIN READ ONLY", "10"),
            (
                "postgres",
                10,
                "SELECT batch FROM control WHERE id = 1",
                "8 / SELECT 1",
            ),
            (
                "postgres",
                10,
                "SELECT count(*) FROM receipts WHERE batch = 7",
                "0 / SELECT 1",
            ),
            ("postgres", 10, "COMMIT", "COMMIT 5"),
            (
                "postgres",
                8,
                "INSERT INTO receipts VALUES (7, 100)",
                "INSERT 0 1",
            ),
            (
                "postgres",
                8,
                "COMMIT",
                "40001 could not serialize access: 10 read rows of receipts, 8 wrote it; 8 read key (1) of control, 9 wrote it",
            ),
        ],
    );
}

/// A chain of three: 7 reads the row that 8 writes, and 8 the one that 9 writes.
fn play_chain(rt: &impl Abort, core: &mut Core, alloc: Global) {
    play(
        rt,
        core,
        alloc,
        &[
            ("postgres", 7, "BEGIN", "7"),
            ("postgres", 8, "BEGIN", "8"),
            ("postgres", 9, "BEGIN", "9"),
            (
                "postgres",
                7,
                "SELECT v FROM x WHERE id = 1",
                "0 / SELECT 1",
            ),
            (
                "postgres",
                8,
                "SELECT v FROM x WHERE id = 2",
                "0 / SELECT 1",
            ),
            ("postgres", 8, "UPDATE x SET v = 1 WHERE id = 1", "UPDATE 1"),
            ("postgres", 9, "UPDATE x SET v = 1 WHERE id = 2", "UPDATE 1"),
        ],
    );
}

/// All of the chain commit in either order of commits, and the first stands first.
#[test]
fn chain_commits_in_two_orders(rt: HostRuntime) {
    let alloc = rt.alloc();
    for (first, second, third) in [(7, 8, 9), (9, 7, 8)] {
        let mut core = with_two_rows(alloc).ok().expect(&rt, "opens");
        play_chain(&rt, &mut core, alloc);
        play(
            &rt,
            &mut core,
            alloc,
            &[
                ("postgres", first, "COMMIT", "COMMIT 3"),
                ("postgres", second, "COMMIT", "COMMIT 4"),
                ("postgres", third, "COMMIT", "COMMIT 5"),
            ],
        );
        assert!(rt; has_order(&core, alloc, &[2, 3, 7, 8, 9]), "{first} first");
    }
}

/// Where the last commits first and the first has written too, the one between them is refused.
#[test]
fn chain_whose_first_writes_is_refused(rt: HostRuntime) {
    let alloc = rt.alloc();
    let mut core = with_two_rows(alloc).ok().expect(&rt, "opens");
    play_chain(&rt, &mut core, alloc);
    play(
        &rt,
        &mut core,
        alloc,
        &[
            ("postgres", 7, "INSERT INTO x VALUES (3, 0)", "INSERT 0 1"),
            ("postgres", 9, "COMMIT", "COMMIT 3"),
            ("postgres", 7, "COMMIT", "COMMIT 4"),
            (
                "postgres",
                8,
                "COMMIT",
                "40001 could not serialize access: 7 read key (1) of x, 8 wrote it; 8 read key (2) of x, 9 wrote it",
            ),
        ],
    );
}
