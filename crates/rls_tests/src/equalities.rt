//! Refusals and statements that are the same, or differ in one part.

use crate::states::says;
use rls_equality::Same;
use rls_text::parse;
use rls_value::{
    Cause, DefinedKind, Kind, Name, NameKind, Object, Privilege, Refusal, RowId, TxnState, Why,
};
use std::alloc::Global;

/// Refusals about one name.
fn made(number: u32, name: Name) -> Refusal {
    match number {
        1 => Refusal::Undefined(NameKind::Role, name),
        2 => Refusal::Undefined(NameKind::Policy, name),
        3 => Refusal::Duplicate(DefinedKind::Role, name),
        4 => Refusal::NoLogin(Some(name)),
        5 => Refusal::Denied(Why::Privilege(Privilege::Select, name)),
        6 => Refusal::Denied(Why::Privilege(Privilege::Insert, name)),
        7 => Refusal::Denied(Why::GrantOption(Privilege::Select, name)),
        8 => Refusal::Denied(Why::NoPermissive(name, Kind::Select)),
        9 => Refusal::Serial(Cause::Written(Object::Rows(name), 17)),
        10 => Refusal::Serial(Cause::Written(Object::Grants(name), 17)),
        11 => Refusal::Serial(Cause::Written(Object::Rows(name), 18)),
        12 => Refusal::Serial(Cause::Written(Object::RowOf(name, RowId { txn: 1, n: 2 }), 17)),
        _ => Refusal::Serial(Cause::Written(Object::RowOf(name, RowId { txn: 1, n: 3 }), 17)),
    }
}

/// Whether the refusals of two kinds, about two names, are the same.
fn is_same_refusal(
    alloc: Global,
    number: u32,
    name: &str,
    other: u32,
    another: &str,
) -> Result<bool, Refusal> {
    let left = made(number, Name::new(alloc, name)?);
    match Name::new(alloc, another) {
        Ok(another) => {
            let right = made(other, another);
            let is = left.is_same(&right);
            drop(left);
            drop(right);
            Ok(is)
        }
        Err(refusal) => {
            drop(left);
            Err(refusal)
        }
    }
}

/// Refusals are the same where nothing in them differs: neither their kind nor what they name.
#[test]
fn refusals_are_told_apart(rt: HostRuntime) {
    for (number, name, other, another, want) in [
        (1, "a", 1, "A", true),
        (1, "a", 1, "b", false),
        (1, "a", 2, "a", false),
        (1, "a", 3, "a", false),
        (4, "a", 4, "a", true),
        (4, "a", 4, "ab", false),
        (5, "a", 5, "a", true),
        (5, "a", 6, "a", false),
        (5, "a", 7, "a", false),
        (7, "a", 7, "b", false),
        (8, "a", 8, "a", true),
        (9, "a", 9, "a", true),
        (9, "a", 9, "b", false),
        (9, "a", 10, "a", false),
        (9, "a", 11, "a", false),
        (12, "a", 12, "a", true),
        (12, "a", 13, "a", false),
    ] {
        let is = is_same_refusal(rt.alloc(), number, name, other, another);
        assert!(rt; says(is, want), "{number} {name}, {other} {another}");
    }
    assert!(rt; Refusal::NoLogin(None).is_same(&Refusal::NoLogin(None)));
    assert!(rt;
        !Refusal::TxnState(TxnState::Over).is_same(&Refusal::TxnState(TxnState::NoneInProgress))
    );
}

/// Whether the texts spell the same statement.
fn is_same_statement(alloc: Global, left: &str, right: &str) -> Result<bool, Refusal> {
    let left = parse(alloc, left)?;
    match parse(alloc, right) {
        Ok(right) => {
            let is = left.is_same(&right);
            drop(left);
            drop(right);
            Ok(is)
        }
        Err(refusal) => {
            drop(left);
            Err(refusal)
        }
    }
}

/// What is written in another way is the same statement.
#[test]
fn statements_are_the_same(rt: HostRuntime) {
    for (left, right) in [
        ("create user R", "CREATE ROLE r LOGIN;"),
        (
            "GRANT ALL ON t TO a",
            "GRANT DELETE, SELECT, UPDATE, INSERT, SELECT ON TABLE t TO a",
        ),
        (
            "GRANT ALL (a) ON t TO a",
            "GRANT INSERT (a), SELECT (a), UPDATE (A) ON t TO a",
        ),
        (
            "GRANT SELECT (b), SELECT (a) ON t TO a",
            "GRANT SELECT (b, a) ON t TO a",
        ),
        ("REVOKE r, s FROM a", "REVOKE r, s FROM a RESTRICT"),
        (
            "CREATE POLICY p ON t USING (a)",
            "CREATE POLICY p ON t AS PERMISSIVE FOR ALL TO PUBLIC USING ((a))",
        ),
        (
            "SELECT a FROM t u WHERE a IN (1, -2) AND b",
            "SELECT A FROM T AS U WHERE (((a) IN (1, - 2))) AND (b);",
        ),
        (
            "INSERT INTO t VALUES ('it''s', NULL)",
            "INSERT INTO t VALUES ('it''s', NULL)",
        ),
    ] {
        let is = is_same_statement(rt.alloc(), left, right);
        assert!(rt; says(is, true), "{left}, {right}");
    }
}

/// Statements that differ in one part are told apart.
#[test]
fn statements_are_told_apart(rt: HostRuntime) {
    for (left, right) in [
        ("CREATE ROLE r", "CREATE ROLE r LOGIN"),
        ("CREATE ROLE r LOGIN", "ALTER ROLE r LOGIN"),
        (
            "CREATE TABLE t (a int PRIMARY KEY)",
            "CREATE TABLE t (a int, PRIMARY KEY (a))",
        ),
        ("CREATE TABLE t (a int)", "CREATE TABLE t (a int NOT NULL)"),
        (
            "ALTER TABLE t ENABLE ROW LEVEL SECURITY",
            "ALTER TABLE t FORCE ROW LEVEL SECURITY",
        ),
        (
            "CREATE POLICY p ON t",
            "CREATE POLICY p ON t AS RESTRICTIVE",
        ),
        (
            "CREATE POLICY p ON t USING (a)",
            "CREATE POLICY p ON t WITH CHECK (a)",
        ),
        (
            "ALTER POLICY p ON t TO a, PUBLIC",
            "ALTER POLICY p ON t TO a",
        ),
        ("DROP POLICY p ON t", "DROP POLICY p ON u"),
        ("SET ROLE NONE", "RESET ROLE"),
        (
            "INSERT INTO t VALUES (1), (2)",
            "INSERT INTO t VALUES (1), (3)",
        ),
        ("INSERT INTO t VALUES (1)", "INSERT INTO t (a) VALUES (1)"),
        ("UPDATE t SET a = b + 1", "UPDATE t SET a = b - 1"),
        ("DELETE FROM t", "DELETE FROM t RETURNING *"),
        ("SELECT a FROM t", "SELECT t.a FROM t"),
        ("SELECT a FROM t", "SELECT a FROM t t"),
        (
            "SELECT a FROM t WHERE a AND b AND c",
            "SELECT a FROM t WHERE a AND (b AND c)",
        ),
        (
            "SELECT a FROM t WHERE EXISTS (SELECT * FROM u)",
            "SELECT a FROM t WHERE EXISTS (SELECT * FROM u WHERE a)",
        ),
    ] {
        let is = is_same_statement(rt.alloc(), left, right);
        assert!(rt; says(is, false), "{left}, {right}");
    }
}

/// So are privileges and memberships that are granted or revoked.
#[test]
fn grants_are_told_apart(rt: HostRuntime) {
    for (left, right) in [
        (
            "GRANT SELECT ON t TO a",
            "GRANT SELECT ON t TO a WITH GRANT OPTION",
        ),
        ("REVOKE SELECT ON t FROM a", "REVOKE UPDATE ON t FROM a"),
        ("GRANT SELECT ON t TO a", "GRANT SELECT (a) ON t TO a"),
        (
            "GRANT SELECT (a, b) ON t TO a",
            "GRANT SELECT (b, a) ON t TO a",
        ),
        (
            "REVOKE SELECT ON t FROM a",
            "REVOKE SELECT ON t FROM a CASCADE",
        ),
        ("GRANT r TO a", "GRANT r TO a WITH SET FALSE"),
        ("REVOKE r FROM a", "REVOKE ADMIN OPTION FOR r FROM a"),
        ("REVOKE r, s FROM a", "REVOKE r, s FROM a CASCADE"),
    ] {
        let is = is_same_statement(rt.alloc(), left, right);
        assert!(rt; says(is, false), "{left}, {right}");
    }
}
