//! Statements, most of them of the repository's conformance scripts, printed and read again.

use crate::states::says;
use rls_equality::Same;
use rls_printing::print;
use rls_statement::Statement;
use rls_text::parse;
use rls_value::Refusal;
use std::alloc::Global;

/// Statements on roles, memberships and privileges.
#[test]
fn reads_roles_and_memberships_again(rt: HostRuntime) {
    for text in [
        "CREATE ROLE Role",
        "CREATE ROLE r LOGIN",
        "CREATE ROLE s WITH SUPERUSER LOGIN",
        "CREATE ROLE support LOGIN BYPASSRLS",
        "CREATE USER y",
        "CREATE USER z NOLOGIN",
        "ALTER ROLE r SUPERUSER",
        "ALTER ROLE s NOSUPERUSER",
        "ALTER ROLE r NOLOGIN",
        "ALTER ROLE r BYPASSRLS",
        "GRANT a TO b",
        "GRANT a, b TO m",
        "GRANT tenant TO acme, bolt, cord",
        "GRANT b TO c WITH ADMIN OPTION",
        "GRANT a TO u WITH ADMIN TRUE",
        "GRANT a TO u WITH INHERIT FALSE",
        "GRANT b TO a WITH SET FALSE",
        "REVOKE b FROM c",
        "REVOKE a FROM b, b, c",
        "REVOKE a FROM u CASCADE",
        "REVOKE ADMIN OPTION FOR b FROM c",
        "REVOKE ADMIN OPTION FOR a FROM u CASCADE",
        "REVOKE a FROM b, c RESTRICT",
        "REVOKE INHERIT OPTION FOR g FROM r",
        "REVOKE SET OPTION FOR a FROM u",
        "GRANT SELECT ON t TO r",
        "GRANT SELECT, INSERT, UPDATE, DELETE ON orders TO tenant",
        "GRANT INSERT, SELECT ON t TO c",
        "GRANT INSERT ON TABLE t TO s",
        "GRANT ALL ON information TO public",
        "GRANT SELECT ON t TO a, missing WITH GRANT OPTION",
        "REVOKE SELECT ON TABLE t FROM c, b, PUBLIC",
        "REVOKE ALL PRIVILEGES ON t FROM c, o",
        "REVOKE SELECT ON t FROM ben RESTRICT",
        "REVOKE SELECT ON t FROM ben CASCADE",
        "REVOKE GRANT OPTION FOR SELECT ON t FROM a CASCADE",
        "GRANT SELECT (b), SELECT (a) ON t TO r",
        "GRANT UPDATE (a), SELECT, SELECT (a) ON t TO r, public",
        "GRANT ALL PRIVILEGES (a, b) ON TABLE t TO r",
        "REVOKE INSERT (a), DELETE ON t FROM r CASCADE",
        "SET ROLE o",
        "RESET ROLE",
    ] {
        assert!(rt; says(is_read_again(rt.alloc(), text), true), "{text}");
    }
}

/// Statements on tables and policies.
#[test]
fn reads_tables_and_policies_again(rt: HostRuntime) {
    for text in [
        "CREATE TABLE t (a int, c bigint, s text, b bool)",
        "create TABLE Policy (Row int, LEVEL text)",
        "CREATE TABLE k (a int PRIMARY KEY, b text NOT NULL)",
        "CREATE TABLE n (key int PRIMARY KEY NOT NULL)",
        "CREATE TABLE l (a int, b int, PRIMARY KEY (b, a))",
        "ALTER TABLE t ENABLE ROW LEVEL SECURITY",
        "ALTER TABLE t DISABLE ROW LEVEL SECURITY",
        "ALTER TABLE u FORCE ROW LEVEL SECURITY",
        "ALTER TABLE u NO FORCE ROW LEVEL SECURITY",
        "CREATE POLICY q ON t USING (a < 3)",
        "CREATE POLICY add ON orders FOR INSERT TO tenant",
        "CREATE POLICY s ON t AS PERMISSIVE FOR SELECT TO r USING (a > 1)",
        "CREATE POLICY b ON t AS RESTRICTIVE FOR INSERT WITH CHECK (false)",
        "CREATE POLICY keep_paid ON orders AS RESTRICTIVE FOR DELETE USING (NOT paid)",
        "CREATE POLICY u ON t FOR UPDATE USING (a > 1) WITH CHECK (b < 10)",
        "CREATE POLICY q ON t USING (TRUE OR EXISTS (SELECT 1 FROM u))",
        "CREATE POLICY q ON u USING (k IN (SELECT id FROM t WHERE id = k))",
        "CREATE POLICY fp_s ON information FOR SELECT USING (group_id <= (SELECT group_id FROM users WHERE user_name = current_user))",
        "ALTER POLICY s ON t TO r",
        "ALTER POLICY r ON t USING (n IN (SELECT n FROM t))",
        "ALTER POLICY add ON orders WITH CHECK (tenant = current_user)",
        "DROP POLICY colleagues ON members",
    ] {
        assert!(rt; says(is_read_again(rt.alloc(), text), true), "{text}");
    }
}

/// Statements that write rows.
#[test]
fn reads_changes_again(rt: HostRuntime) {
    for text in [
        "insert Into POLICY Values (1, 'Aa')",
        "INSERT INTO t VALUES (1, true), (2, false), (NULL, NULL)",
        "INSERT INTO t VALUES ('--'), ('it''s; fine -- really');",
        "INSERT INTO t VALUES ('é€😀')",
        "INSERT INTO t VALUES (9223372036854775807), (-1), (007), (-9223372036854775808)",
        "INSERT INTO t VALUES (1 + 1, 'w')",
        "INSERT INTO t VALUES (4, (SELECT b FROM u WHERE k = 4))",
        "INSERT INTO t VALUES (2), (1) RETURNING 'new', a",
        "INSERT INTO t VALUES (1, 1) RETURNING *",
        "INSERT INTO t (b, a) VALUES ('v', 5) RETURNING a, b",
        "UPDATE t SET b = 5",
        "UPDATE t SET a = a - -1, b = b",
        "UPDATE t SET a = a+1-5",
        "UPDATE t SET a = 2147483647 + 1 - 1 WHERE 2 = k",
        "UPDATE t SET b = t.b + 1 WHERE t.a = 3 RETURNING t.b",
        "UPDATE t SET a = a + 1, n = 'x' WHERE k <= 2 RETURNING k, a, n",
        "UPDATE t SET k = k - 1 WHERE k IN (2, 4)",
        "UPDATE t SET a = (SELECT b FROM u WHERE k = t.id) + 1 WHERE id <= 2 RETURNING id, a",
        "DELETE FROM t",
        "DELETE FROM t RETURNING *",
        "DELETE FROM orders WHERE id = 4 RETURNING item",
        "DELETE FROM members WHERE person = 'ann' AND tenant = 'acme'",
        "DELETE FROM t WHERE EXISTS (SELECT 1 FROM u WHERE b = t.a)",
    ] {
        assert!(rt; says(is_read_again(rt.alloc(), text), true), "{text}");
    }
}

/// Statements that read rows.
#[test]
fn reads_selects_again(rt: HostRuntime) {
    for text in [
        "SELECT * FROM t",
        "SELECT * FROM t -- all of it",
        "SELECT COUNT ( * ) FROM t;",
        "SELECT count FROM t WHERE count < 30",
        "SELECT 'x', -1, TRUE, NULL, current_user, a FROM t",
        "SELECT v.a, b FROM t v WHERE v.b = 10",
        "SELECT t.a FROM t WHERE T.B = 20",
        "SELECT a FROM t WHERE a != 1",
        "SELECT a FROM t WHERE a >= 1 AND a < 2",
        "SELECT a FROM t WHERE a = 1 IS NULL",
        "SELECT a FROM t WHERE (a IS NULL) = TRUE",
        "SELECT a FROM t WHERE NOT a = 1 OR b",
        "SELECT a FROM t WHERE a = 2 OR a = 1 AND b IS NULL",
        "SELECT a FROM t WHERE (a = 2 OR a = 1) AND b IS NULL",
        "SELECT * FROM t WHERE NOT (a = NULL AND FALSE)",
        "SELECT b FROM t WHERE a NOT IN (1, NULL)",
        "SELECT b FROM t WHERE NOT b IN ('x', 'z')",
        "SELECT b FROM t WHERE a IN (1) IS NULL",
        "SELECT count(*) FROM t AS v WHERE v.a IN (1, v.b)",
        "SELECT a FROM t WHERE a + (SELECT c FROM u WHERE k = 1) = 1",
        "SELECT id FROM t WHERE (SELECT b FROM u WHERE k = t.id) IS NULL",
        "SELECT id FROM t WHERE a NOT IN (SELECT b FROM u WHERE b IS NOT NULL)",
        "SELECT a FROM t WHERE a IN (SELECT count(*) FROM u)",
        "SELECT a FROM t WHERE a IN (SELECT * FROM u)",
        "SELECT a FROM t WHERE EXISTS (SELECT 1 FROM u WHERE nope = 1) AND EXISTS (SELECT 1 FROM missing)",
        "SELECT n FROM t WHERE n = 1AND n = 1",
    ] {
        assert!(rt; says(is_read_again(rt.alloc(), text), true), "{text}");
    }
}

/// Whether what is printed for the text's statement is read as the statement, and printed so again.
fn is_read_again(alloc: Global, text: &str) -> Result<bool, Refusal> {
    let statement = parse(alloc, text)?;
    let is = is_printed_again(alloc, &statement);
    drop(statement);
    is
}

fn is_printed_again(alloc: Global, statement: &Statement) -> Result<bool, Refusal> {
    let printed = print(alloc, statement)?;
    let is = is_said_by(alloc, printed.as_str(), statement);
    drop(printed);
    is
}

/// Whether the text's statement is that one, and is printed as this text.
fn is_said_by(alloc: Global, text: &str, statement: &Statement) -> Result<bool, Refusal> {
    let again = parse(alloc, text)?;
    let is = is_same_and_gives(alloc, &again, statement, text);
    drop(again);
    is
}

fn is_same_and_gives(
    alloc: Global,
    again: &Statement,
    statement: &Statement,
    text: &str,
) -> Result<bool, Refusal> {
    if again.is_same(statement) {
        gives(alloc, again, text)
    } else {
        Ok(false)
    }
}

fn gives(alloc: Global, statement: &Statement, want: &str) -> Result<bool, Refusal> {
    let printed = print(alloc, statement)?;
    let is = printed.as_str() == want;
    drop(printed);
    Ok(is)
}
