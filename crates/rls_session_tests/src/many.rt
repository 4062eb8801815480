//! 64 labels at once.

use crate::texts::run;
use rls_session::NoGate;
use rls_session::rls_core::Record;
use std::alloc::{AllocError, Global};

/// In the first phase all connect, in the second each puts 50 rows, and in the third they are counted.
fn script(alloc: Global) -> Result<String, AllocError> {
    let mut text = String::from_str(
        alloc,
        "l0: \\connect postgres\nl0: CREATE TABLE t (a int)\n",
    )?;
    for number in 1..64u32 {
        let line = format!(in alloc; "l{number}: \\connect postgres\n")?;
        text.push_str(line.as_str())?;
    }
    text.push_str("==\n")?;
    for turn in 0..3200u32 {
        let label = turn % 64;
        let line = format!(in alloc; "l{label}: INSERT INTO t VALUES ({turn})\n")?;
        text.push_str(line.as_str())?;
    }
    text.push_str("==\nl0: SELECT count(*) FROM t\n")?;
    Ok(text)
}

fn answers(alloc: Global) -> Result<String, AllocError> {
    let mut text = String::from_str(alloc, "l0: CONNECT\nl0: CREATE TABLE\n")?;
    for number in 1..64u32 {
        let line = format!(in alloc; "l{number}: CONNECT\n")?;
        text.push_str(line.as_str())?;
    }
    for turn in 0..3200u32 {
        let label = turn / 50;
        let line = format!(in alloc; "l{label}: INSERT 0 1\n")?;
        text.push_str(line.as_str())?;
    }
    text.push_str("l0: 3200\nl0: SELECT 1\n")?;
    Ok(text)
}

/// The numbers of transactions, in order.
fn numbers(alloc: Global, records: &[Record]) -> Result<Vec<u64>, AllocError> {
    let mut numbers = Vec::new(alloc);
    for record in records {
        numbers.push(record.txn())?;
    }
    numbers.sort()?;
    Ok(numbers)
}

fn ascend(numbers: &[u64]) -> bool {
    for place in 1..numbers.len() {
        if numbers[place - 1] >= numbers[place] {
            return false;
        }
    }
    true
}

/// None is refused, and each transaction has a number of its own.
#[test]
fn many_labels_write(rt: HostRuntime) {
    let alloc = rt.alloc();
    let script = script(alloc).expect(&rt, "script");
    let want = answers(alloc).expect(&rt, "answers");
    let (book, bytes) = run(&rt, alloc, script.as_str(), &NoGate)
        .ok()
        .expect(&rt, "runs");
    assert!(rt; bytes.as_slice() == want.as_str().as_bytes());
    assert_eq!(rt; book.records().len(), 3202);
    let numbers = numbers(alloc, book.records()).expect(&rt, "numbers");
    assert!(rt; ascend(numbers.as_slice()));
}
