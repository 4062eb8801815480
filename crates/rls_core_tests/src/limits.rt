//! Limits of the core, and of statements on it.

use crate::opening::{begin_as, opened, post};
use crate::playing::play;
use rls_audit::rls_access::Mode;
use rls_audit::rls_core::Core;
use rls_value::Refusal;
use std::alloc::Global;

/// So many begin.
fn begin_many(core: &mut Core, alloc: Global, count: u64) -> Result<(), Refusal> {
    for _ in 0..count {
        core.begin(alloc, begin_as(alloc, "postgres", Mode::Write)?)?;
    }
    Ok(())
}

/// The transaction puts so many policies on the table.
fn put_policies(core: &mut Core, alloc: Global, txn: u64, count: u64) -> Result<(), Refusal> {
    for number in 0..count {
        let text = format!(in alloc; "CREATE POLICY p{number} ON t USING (true)")?;
        post(core, alloc, txn, text.as_str())?;
    }
    Ok(())
}

/// 1,024 transactions run at once, and one more where one of them is over.
#[test]
fn transactions_have_a_limit(rt: HostRuntime) {
    let alloc = rt.alloc();
    let mut core = Core::new(alloc).expect(&rt, "opens");
    assert!(rt; begin_many(&mut core, alloc, 1024).is_ok());
    play(
        &rt,
        &mut core,
        alloc,
        &[
            ("postgres", 0, "BEGIN", "54000 limit exceeded: transactions"),
            ("postgres", 7, "ROLLBACK", "ROLLBACK"),
            ("postgres", 1025, "BEGIN", "1025"),
        ],
    );
}

/// A table has 64 policies.
#[test]
fn policies_have_a_limit(rt: HostRuntime) {
    let alloc = rt.alloc();
    let mut core = opened(alloc, &["CREATE TABLE t (a int)"], &[])
        .ok()
        .expect(&rt, "opens");
    play(&rt, &mut core, alloc, &[("postgres", 3, "BEGIN", "3")]);
    assert!(rt; put_policies(&mut core, alloc, 3, 64).is_ok());
    play(
        &rt,
        &mut core,
        alloc,
        &[(
            "postgres",
            3,
            "CREATE POLICY q ON t USING (true)",
            "54000 limit exceeded: policies",
        )],
    );
}
