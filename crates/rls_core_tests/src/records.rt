//! The line of what a core recorded.

use crate::again::is_written;
use crate::opening::opened;
use rls_audit::line_of_record;
use rls_audit::rls_core::Core;
use std::alloc::Global;

/// Whether the line of the last record is that one.
fn ends_with(alloc: Global, core: &Core, wanted: &str) -> bool {
    match core.history() {
        [.., record] => match line_of_record(alloc, core.commits(), record) {
            Ok(line) => is_written(alloc, line, wanted),
            Err(_) => false,
        },
        [] => false,
    }
}

/// Whether the statements are recorded, and the line of the last one is that.
fn is_line(alloc: Global, statements: &[&str], wanted: &str) -> bool {
    match opened(alloc, statements, &[]) {
        Ok(core) => ends_with(alloc, &core, wanted),
        Err(refusal) => {
            drop(refusal);
            false
        }
    }
}

/// A role; a table, with its owner's grants; memberships, in the order of the members; a policy as it is printed.
#[test]
fn records_are_shown(rt: HostRuntime) {
    let role = ["CREATE ROLE x"];
    let members = [
        "CREATE ROLE x",
        "CREATE ROLE y",
        "CREATE ROLE z",
        "GRANT x TO z, y",
    ];
    let table = ["CREATE TABLE u (k text PRIMARY KEY, n int)"];
    let policy = [
        "CREATE TABLE u (n int)",
        "create policy p on u for select using (n = 1)",
    ];
    assert!(rt;
        is_line(
            rt.alloc(),
            &role,
            "{\"changes\":[[\"role x\",[false,false,false]]],\"commit\":1,\"login\":\"postgres\",\"mode\":\"write\",\"role\":\"postgres\",\"snap\":0,\"statements\":[{\"decisions\":[],\"reply\":[\"done\"],\"text\":\"CREATE ROLE x\"}],\"txn\":2}"
        )
    );
    assert!(rt;
        is_line(
            rt.alloc(),
            &members,
            "{\"changes\":[[\"members of y\",[[\"x\",false,true,true]]],[\"members of z\",[[\"x\",false,true,true]]]],\"commit\":4,\"login\":\"postgres\",\"mode\":\"write\",\"role\":\"postgres\",\"snap\":3,\"statements\":[{\"decisions\":[],\"reply\":[\"done\"],\"text\":\"GRANT x TO z, y\"}],\"txn\":5}"
        )
    );
    assert!(rt;
        is_line(
            rt.alloc(),
            &table,
            "{\"changes\":[[\"table u\",[\"postgres\",false,false,[[\"k\",\"TEXT\",true],[\"n\",\"INTEGER\",false]],[\"k\"]]],[\"grants on u\",[[\"SELECT\",\"postgres\",\"postgres\",false,null],[\"INSERT\",\"postgres\",\"postgres\",false,null],[\"UPDATE\",\"postgres\",\"postgres\",false,null],[\"DELETE\",\"postgres\",\"postgres\",false,null]]]],\"commit\":1,\"login\":\"postgres\",\"mode\":\"write\",\"role\":\"postgres\",\"snap\":0,\"statements\":[{\"decisions\":[],\"reply\":[\"done\"],\"text\":\"CREATE TABLE u (k TEXT PRIMARY KEY, n INTEGER)\"}],\"txn\":2}"
        )
    );
    assert!(rt;
        is_line(
            rt.alloc(),
            &policy,
            "{\"changes\":[[\"policies on u\",[\"CREATE POLICY p ON u AS PERMISSIVE FOR SELECT TO PUBLIC USING (n = 1)\"]]],\"commit\":2,\"login\":\"postgres\",\"mode\":\"write\",\"role\":\"postgres\",\"snap\":1,\"statements\":[{\"decisions\":[],\"reply\":[\"done\"],\"text\":\"CREATE POLICY p ON u AS PERMISSIVE FOR SELECT TO PUBLIC USING (n = 1)\"}],\"txn\":3}"
        )
    );
}

/// Grants on columns, in the table's order; a refusal.
#[test]
fn columns_and_refusals_are_shown(rt: HostRuntime) {
    let columns = [
        "CREATE ROLE x",
        "CREATE TABLE u (b int, a int)",
        "grant update (a), select (a, b) on table u to x",
    ];
    let refused = ["CREATE ROLE postgres"];
    assert!(rt;
        is_line(
            rt.alloc(),
            &columns,
            "{\"changes\":[[\"grants on u\",[[\"SELECT\",\"postgres\",\"postgres\",false,null],[\"SELECT\",\"x\",\"postgres\",false,\"b\"],[\"SELECT\",\"x\",\"postgres\",false,\"a\"],[\"INSERT\",\"postgres\",\"postgres\",false,null],[\"UPDATE\",\"postgres\",\"postgres\",false,null],[\"UPDATE\",\"x\",\"postgres\",false,\"a\"],[\"DELETE\",\"postgres\",\"postgres\",false,null]]]],\"commit\":3,\"login\":\"postgres\",\"mode\":\"write\",\"role\":\"postgres\",\"snap\":2,\"statements\":[{\"decisions\":[],\"reply\":[\"done\"],\"text\":\"GRANT SELECT (a, b), UPDATE (a) ON u TO x\"}],\"txn\":4}"
        )
    );
    assert!(rt;
        is_line(
            rt.alloc(),
            &refused,
            "{\"changes\":[],\"commit\":1,\"login\":\"postgres\",\"mode\":\"write\",\"role\":\"postgres\",\"snap\":0,\"statements\":[{\"decisions\":[],\"reply\":[\"refused\",[7,\"role\",\"postgres\"]],\"text\":\"CREATE ROLE postgres\"}],\"txn\":2}"
        )
    );
}
