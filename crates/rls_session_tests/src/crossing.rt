//! Labels of a phase run beside each other.

use crate::texts::run;
use rls_session::{Gate, Point};
use std::sync::{Mutex, Wait};
use std::thread;
use std::time::{Clock, Duration};

/// What came to pass.
#[derive(Clone, Copy)]
struct Spots {
    ran: bool,
    committed: bool,
    lost: bool,
}

/// Holds the second session at its first line of a phase until the first has run its statement there, and the first until the second
/// has committed.
#[derive(Drop)]
struct Crossing {
    spots: Mutex<Spots>,
}

/// The line of the first session's statement, and those of the second's BEGIN and COMMIT.
const SELECT: u32 = 5;

const BEGIN: u32 = 6;

const COMMIT: u32 = 8;

impl Gate for Crossing {
    fn pass<R: Wait + Clock>(&self, rt: &R, session: u32, line: u32, point: Point) {
        match (session, line, point) {
            (1, SELECT, Point::Ran) => {
                self.spots.lock(rt).ran = true;
                self.wait(rt, true);
            }
            (2, BEGIN, Point::Start) => self.wait(rt, false),
            (2, COMMIT, Point::Done) => self.spots.lock(rt).committed = true,
            _ => {}
        }
    }
}

impl Crossing {
    /// Waits for the commit, or for the statement, but not for ever.
    fn wait<R: Wait + Clock>(&self, rt: &R, commit: bool) {
        for _ in 0..10_000u32 {
            let spots = *self.spots.lock(rt);
            if commit && spots.committed || !commit && spots.ran {
                return;
            }
            thread::sleep(rt, Duration::from_millis(1));
        }
        self.spots.lock(rt).lost = true;
    }
}

/// A transaction begins, writes and commits while another's statement is on its way.
#[test]
fn labels_cross(rt: HostRuntime) {
    let script =
        "x: \\connect postgres\nx: CREATE TABLE t (a int)\ny: \\connect postgres\n==\nx: SELECT * FROM t\ny: BEGIN\ny: INSERT INTO t VALUES (1)\ny: COMMIT\n==\nx: SELECT * FROM t\n";
    let want =
        "x: CONNECT\nx: CREATE TABLE\ny: CONNECT\nx: SELECT 0\ny: BEGIN\ny: INSERT 0 1\ny: COMMIT\nx: 1\nx: SELECT 1\n";
    let gate = Crossing {
        spots: Mutex::new(Spots {
            ran: false,
            committed: false,
            lost: false,
        }),
    };
    let (book, bytes) = run(&rt, rt.alloc(), script, &gate).ok().expect(&rt, "runs");
    drop(book);
    assert!(rt; bytes.as_slice() == want.as_bytes());
    assert!(rt; !gate.spots.lock(&rt).lost);
}
