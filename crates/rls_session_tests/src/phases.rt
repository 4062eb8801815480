//! Phases, and which labels have sessions.

use crate::texts::run;
use rls_session::NoGate;
use std::alloc::{AllocError, Global};
use std::sync::Wait;
use std::thread::Threads;
use std::time::Clock;

/// What is written for a script.
fn is_written<R: Threads + Wait + Clock + Sync>(
    rt: &R,
    alloc: Global,
    script: &str,
    want: &str,
) -> bool {
    match run(rt, alloc, script, &NoGate) {
        Ok((book, bytes)) => {
            drop(book);
            bytes.as_slice() == want.as_bytes()
        }
        Err(_) => false,
    }
}

/// Labels are written in the order in which they first appear in the script, `?` among them, and sessions go on.
#[test]
fn labels_follow_one_another(rt: HostRuntime) {
    let script =
        "b: \\connect postgres\n?? \na: \\connect postgres\nb: CREATE TABLE t (a int)\n==\n==\na: INSERT INTO t VALUES (7)\na: SELECT * FROM t\nnothing\nb: BEGIN\nb: COMMIT\n==\nc: SELECT * FROM t\nb: SELECT * FROM t\n";
    let want =
        "b: CONNECT\nb: CREATE TABLE\n?: ERROR 42601 syntax error\na: CONNECT\nb: BEGIN\nb: COMMIT\n?: ERROR 42601 syntax error\na: INSERT 0 1\na: 7\na: SELECT 1\nb: 7\nb: SELECT 1\nc: ERROR 28000 not connected\n";
    assert!(rt; is_written(&rt, rt.alloc(), script, want));
}

fn many_labels(alloc: Global) -> Result<String, AllocError> {
    let mut script = String::new(alloc);
    for number in 0..67u32 {
        let line = format!(in alloc; "l{number}: \\connect postgres\n")?;
        script.push_str(line.as_str())?;
    }
    script.push_str(
        "==\nl66: BEGIN\nl64: SELECT\nno label\nl66: COMMIT\nl63: BEGIN\nl64: BEGIN\n",
    )?;
    Ok(script)
}

fn many_answers(alloc: Global) -> Result<String, AllocError> {
    let mut want = String::new(alloc);
    for number in 0..67u32 {
        let text = if number < 64 {
            "CONNECT"
        } else {
            "ERROR 54000 limit exceeded: sessions"
        };
        let line = format!(in alloc; "l{number}: {text}\n")?;
        want.push_str(line.as_str())?;
    }
    want.push_str("l63: BEGIN\n")?;
    for label in ["l64", "l64", "l66", "l66"] {
        let line = format!(in alloc; "{label}: ERROR 54000 limit exceeded: sessions\n")?;
        want.push_str(line.as_str())?;
    }
    want.push_str("?: ERROR 42601 syntax error\n")?;
    Ok(want)
}

/// The 64 first labels have sessions; each line under another is refused, in the order of the labels.
#[test]
fn sessions_have_a_limit(rt: HostRuntime) {
    let alloc = rt.alloc();
    let script = many_labels(alloc).expect(&rt, "script");
    let want = many_answers(alloc).expect(&rt, "answers");
    assert!(rt; is_written(&rt, alloc, script.as_str(), want.as_str()));
}
