//! Statements in their one written form.

use rls_expr::Expr;
use rls_printing::{print, print_expr, print_policy};
use rls_statement::{CreatePolicy, Statement};
use rls_text::parse;
use rls_value::shared::Share;
use std::alloc::Global;

/// Statements without an expression, and how they are printed.
#[test]
fn prints_statements(rt: HostRuntime) {
    for (text, want) in [
        ("create role R", "CREATE ROLE r"),
        (
            "create user r with nobypassrls Superuser;",
            "CREATE ROLE r SUPERUSER LOGIN NOBYPASSRLS",
        ),
        ("alter role r with NOLOGIN", "ALTER ROLE r NOLOGIN"),
        (
            "CREATE TABLE Policy (Row int primary key not null, b bool, c TEXT not null, d BIGINT)",
            "CREATE TABLE policy (row INTEGER NOT NULL PRIMARY KEY, b BOOLEAN, c TEXT NOT NULL, d BIGINT)",
        ),
        (
            "CREATE TABLE t(a int,b int,PRIMARY KEY(b,a))",
            "CREATE TABLE t (a INTEGER, b INTEGER, PRIMARY KEY (b, a))",
        ),
        (
            "alter table t enable row level security",
            "ALTER TABLE t ENABLE ROW LEVEL SECURITY",
        ),
        (
            "ALTER TABLE t NO FORCE ROW LEVEL SECURITY;",
            "ALTER TABLE t NO FORCE ROW LEVEL SECURITY",
        ),
        ("drop policy p on t", "DROP POLICY p ON t"),
        (
            "grant a,b to c with set option, admin false",
            "GRANT a, b TO c WITH ADMIN FALSE, SET TRUE",
        ),
        ("grant a to c, d", "GRANT a TO c, d"),
        (
            "revoke inherit option for a from b restrict",
            "REVOKE INHERIT OPTION FOR a FROM b",
        ),
        (
            "revoke admin option for a from u cascade",
            "REVOKE ADMIN OPTION FOR a FROM u CASCADE",
        ),
        ("revoke admin from b, c", "REVOKE admin FROM b, c"),
        ("set role Alice", "SET ROLE alice"),
        ("set role none", "SET ROLE NONE"),
        ("reset role;", "RESET ROLE"),
    ] {
        assert!(rt; is_printed(rt.alloc(), text, want), "{text}");
    }
}

/// GRANT and REVOKE of privileges, on tables and on columns.
#[test]
fn prints_privileges(rt: HostRuntime) {
    for (text, want) in [
        (
            "grant delete, select on table t to a, public with grant option",
            "GRANT SELECT, DELETE ON t TO a, PUBLIC WITH GRANT OPTION",
        ),
        ("grant all privileges on t to a", "GRANT ALL ON t TO a"),
        (
            "revoke grant option for update, insert on t from a cascade",
            "REVOKE GRANT OPTION FOR INSERT, UPDATE ON t FROM a CASCADE",
        ),
        (
            "revoke insert, update, select, delete on t from a restrict",
            "REVOKE ALL ON t FROM a",
        ),
        (
            "grant insert(B,a), select on t to a",
            "GRANT SELECT, INSERT (b, a) ON t TO a",
        ),
        (
            "grant select(a), delete, select, update, insert, select(b) on t to a",
            "GRANT SELECT, SELECT (a, b), INSERT, UPDATE, DELETE ON t TO a",
        ),
        (
            "grant all privileges (a) on t to a",
            "GRANT SELECT (a), INSERT (a), UPDATE (a) ON t TO a",
        ),
        (
            "revoke grant option for update (b), select on t from public",
            "REVOKE GRANT OPTION FOR SELECT, UPDATE (b) ON t FROM PUBLIC",
        ),
    ] {
        assert!(rt; is_printed(rt.alloc(), text, want), "{text}");
    }
}

/// Statements with expressions, and how they are printed.
#[test]
fn prints_expressions(rt: HostRuntime) {
    for (text, want) in [
        (
            "insert into t values (1,- 2),( 'it''s' , null )returning *",
            "INSERT INTO t VALUES (1, -2), ('it''s', NULL) RETURNING *",
        ),
        (
            "INSERT INTO t (b,a) VALUES (true, 9223372036854775807)",
            "INSERT INTO t (b, a) VALUES (TRUE, 9223372036854775807)",
        ),
        (
            "update t set a = a- -5, b = 'é' where not not c returning a,b",
            "UPDATE t SET a = a - -5, b = 'é' WHERE NOT (NOT c) RETURNING a, b",
        ),
        (
            "delete from t where a!=1 and b or(c)",
            "DELETE FROM t WHERE ((a <> 1) AND b) OR c",
        ),
        (
            "select t.a, -9223372036854775808, current_user from t u where a<=b",
            "SELECT t.a, -9223372036854775808, CURRENT_USER FROM t AS u WHERE a <= b",
        ),
        (
            "select count ( * ) from t where a not in (1,b+c) and not a in (1)",
            "SELECT COUNT(*) FROM t WHERE (a NOT IN (1, b + c)) AND (NOT (a IN (1)))",
        ),
        (
            "select * from t where exists(select * from u v where v.a = t.a) and a is not null is null",
            "SELECT * FROM t WHERE EXISTS (SELECT * FROM u AS v WHERE v.a = t.a) AND ((a IS NOT NULL) IS NULL)",
        ),
        (
            "select a from t where a > (select b from u) or a in (select count(*) from u) or a in ((select b from u))",
            "SELECT a FROM t WHERE (a > (SELECT b FROM u)) OR (a IN (SELECT COUNT(*) FROM u)) OR (a IN ((SELECT b FROM u)))",
        ),
        (
            "create policy p on t using (a < 'it''s')",
            "CREATE POLICY p ON t AS PERMISSIVE FOR ALL TO PUBLIC USING (a < 'it''s')",
        ),
        (
            "create policy p on t as restrictive for update to a,public using (true) with check ((select a from u))",
            "CREATE POLICY p ON t AS RESTRICTIVE FOR UPDATE TO a, PUBLIC USING (TRUE) WITH CHECK ((SELECT a FROM u))",
        ),
        (
            "alter policy p on t with check (a >= 0)",
            "ALTER POLICY p ON t WITH CHECK (a >= 0)",
        ),
        (
            "alter policy p on t to public using (a)",
            "ALTER POLICY p ON t TO PUBLIC USING (a)",
        ),
    ] {
        assert!(rt; is_printed(rt.alloc(), text, want), "{text}");
    }
}

/// A policy alone, and its expression.
#[test]
fn prints_policies(rt: HostRuntime) {
    let text = "create policy p on t for select using (a = b)";
    let want = "CREATE POLICY p ON t AS PERMISSIVE FOR SELECT TO PUBLIC USING (a = b)";
    assert!(rt; are_printed(rt.alloc(), text, want, "a = b"), "{text}");
}

/// Whether the text's statement is printed so, and what is printed is printed so again.
fn is_printed(alloc: Global, text: &str, want: &str) -> bool {
    gives(alloc, text, want) && gives(alloc, want, want)
}

fn gives(alloc: Global, text: &str, want: &str) -> bool {
    match parse(alloc, text) {
        Ok(statement) => {
            let is = is_printed_as(alloc, &statement, want);
            drop(statement);
            is
        }
        Err(refusal) => {
            drop(refusal);
            false
        }
    }
}

fn is_printed_as(alloc: Global, statement: &Statement, want: &str) -> bool {
    match print(alloc, statement) {
        Ok(printed) => printed.as_str() == want,
        Err(_) => false,
    }
}

/// Whether the text's policy is printed so, and the expression behind its USING.
fn are_printed(alloc: Global, text: &str, want: &str, using: &str) -> bool {
    match parse(alloc, text) {
        Ok(statement) => {
            let are = is_policy_printed(alloc, &statement, want, using);
            drop(statement);
            are
        }
        Err(refusal) => {
            drop(refusal);
            false
        }
    }
}

fn is_policy_printed(alloc: Global, statement: &Statement, want: &str, using: &str) -> bool {
    match statement {
        Statement::CreatePolicy(create) => {
            gives_policy(alloc, create, want) && gives_using(alloc, &create.policy.using, using)
        }
        _ => false,
    }
}

fn gives_policy(alloc: Global, create: &CreatePolicy, want: &str) -> bool {
    match print_policy(alloc, &create.table, &create.policy) {
        Ok(printed) => printed.as_str() == want,
        Err(_) => false,
    }
}

fn gives_using(alloc: Global, using: &Option<Share<Expr>>, want: &str) -> bool {
    match using {
        Some(expr) => match print_expr(alloc, expr.get()) {
            Ok(printed) => printed.as_str() == want,
            Err(_) => false,
        },
        None => false,
    }
}
