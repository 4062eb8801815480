//! Texts that are read, refused, and at the limits.

use crate::states::says;
use rls_statement::Statement;
use rls_text::parse;
use rls_value::{Limit, Refusal};
use std::alloc::{AllocError, Global};

/// Texts of the grammar, each with the tag of its statement.
#[test]
fn reads(rt: HostRuntime) {
    for (text, want) in [
        ("create user r with NOLOGIN Superuser;", "CREATE ROLE"),
        ("CREATE TABLE Policy (Row int, b boolean)", "CREATE TABLE"),
        ("ALTER TABLE t ENABLE ROW LEVEL SECURITY", "ALTER TABLE"),
        (
            "CREATE POLICY p ON t TO a USING (a < 'it''s')",
            "CREATE POLICY",
        ),
        ("GRANT SELECT, INSERT ON t TO PUBLIC", "GRANT"),
        ("INSERT INTO t VALUES (1), (- 2)", "INSERT"),
        ("SELECT a,b FROM t WHERE a>=1AND b IS NULL", "SELECT"),
    ] {
        assert!(rt; answers(rt.alloc(), text, want), "{text}");
    }
}

/// Columns with qualifiers, aliases of tables, and items.
#[test]
fn reads_items(rt: HostRuntime) {
    for text in [
        "SELECT t.a, b FROM t WHERE t.a = t.b + b",
        "SELECT u.a FROM t AS u",
        "SELECT a FROM t u WHERE u.a IS NULL;",
        "SELECT - 5, 'x', NULL, true, CURRENT_USER, a FROM t",
        "SELECT COUNT ( * ) FROM t",
        "SELECT count FROM t count",
        "SELECT count.count, count FROM count",
    ] {
        assert!(rt; answers(rt.alloc(), text, "SELECT"), "{text}");
    }
}

/// Items, qualifiers and aliases outside the grammar.
#[test]
fn refuses_items(rt: HostRuntime) {
    for text in [
        "SELECT a.b.c FROM t",
        "SELECT t.* FROM t",
        "SELECT .a FROM t",
        "SELECT a AS b FROM t",
        "SELECT a b FROM t",
        "SELECT a, FROM t",
        "SELECT *, a FROM t",
        "SELECT NOT a FROM t",
        "SELECT a + 1 FROM t",
        "SELECT (a) FROM t",
        "SELECT (SELECT a FROM t) FROM t",
        "SELECT count(a) FROM t",
        "SELECT count(*), a FROM t",
        "SELECT a FROM t AS",
        "SELECT a FROM t AS where",
        "SELECT a FROM t u v",
        "SELECT a FROM t, u",
        "SELECT a FROM s.t",
        "UPDATE t SET t.a = 1",
        "INSERT INTO t (t.a) VALUES (1)",
        "DELETE FROM t AS u",
        "DELETE FROM t RETURNING count(*)",
    ] {
        assert!(rt; answers(rt.alloc(), text, "42601"), "{text}");
    }
}

/// Privileges on columns outside the grammar.
#[test]
fn refuses_privileges(rt: HostRuntime) {
    for text in [
        "GRANT DELETE (a) ON t TO r",
        "GRANT SELECT () ON t TO r",
        "GRANT SELECT a ON t TO r",
        "GRANT SELECT (a ON t TO r",
        "GRANT SELECT (a, a) ON t TO r",
        "GRANT SELECT (a), INSERT (a), SELECT (b, A) ON t TO r",
        "GRANT ALL (b, b) ON t TO r",
        "GRANT ALL, SELECT ON t TO r",
        "REVOKE SELECT (a), ALL ON t FROM r",
        "REVOKE ALL (a) PRIVILEGES ON t FROM r",
        "REVOKE SELECT (on) ON t FROM r",
        "GRANT insert (a) TO r",
    ] {
        assert!(rt; answers(rt.alloc(), text, "42601"), "{text}");
    }
}

/// Subqueries, each with the tag of its statement.
#[test]
fn reads_subqueries(rt: HostRuntime) {
    for (text, want) in [
        (
            "SELECT * FROM t WHERE EXISTS (SELECT * FROM u AS v WHERE v.a = t.a)",
            "SELECT",
        ),
        (
            "SELECT a FROM t WHERE NOT exists(select count(*) from u)OR b",
            "SELECT",
        ),
        (
            "SELECT a FROM t WHERE a NOT IN (SELECT b FROM u v) IS NOT NULL",
            "SELECT",
        ),
        (
            "SELECT a FROM t WHERE (SELECT b FROM u) + 1 IN (SELECT c, d FROM v)",
            "SELECT",
        ),
        (
            "SELECT a FROM t WHERE a IN ((SELECT b FROM u), 1)",
            "SELECT",
        ),
        ("SELECT a FROM t WHERE a IN ((SELECT b FROM u))", "SELECT"),
        (
            "DELETE FROM t WHERE ((SELECT count(*) FROM t)) > 0",
            "DELETE",
        ),
        (
            "UPDATE t SET a = 1 - (SELECT b FROM u WHERE u.c = t.c), b = EXISTS (SELECT 1 FROM u)",
            "UPDATE",
        ),
        ("INSERT INTO t VALUES (1, (SELECT a FROM u))", "INSERT"),
        (
            "CREATE POLICY p ON t USING (EXISTS (SELECT 1 FROM m WHERE m.r = CURRENT_USER))",
            "CREATE POLICY",
        ),
        (
            "ALTER POLICY p ON t WITH CHECK ((SELECT a FROM u))",
            "ALTER POLICY",
        ),
    ] {
        assert!(rt; answers(rt.alloc(), text, want), "{text}");
    }
}

/// Subqueries outside the grammar.
#[test]
fn refuses_subqueries(rt: HostRuntime) {
    for text in [
        "SELECT a FROM t WHERE SELECT b FROM u",
        "SELECT a FROM t WHERE a = SELECT b FROM u",
        "SELECT a FROM t WHERE EXISTS SELECT b FROM u",
        "SELECT a FROM t WHERE EXISTS (a)",
        "SELECT a FROM t WHERE EXISTS ()",
        "SELECT a FROM t WHERE EXISTS ((SELECT b FROM u))",
        "SELECT a FROM t WHERE EXISTS (SELECT b FROM u;)",
        "SELECT a FROM t WHERE EXISTS (SELECT b FROM u",
        "SELECT a FROM t WHERE EXISTS (SELECT b + 1 FROM u)",
        "SELECT a FROM t WHERE EXISTS (SELECT b)",
        "SELECT a FROM t WHERE EXISTS (DELETE FROM u RETURNING b)",
        "SELECT a FROM t WHERE a IN SELECT b FROM u",
        "SELECT a FROM t WHERE a IN (SELECT b FROM u, 1)",
        "SELECT a FROM t WHERE a IN (1, SELECT b FROM u)",
        "SELECT a FROM t WHERE a EXISTS (SELECT b FROM u)",
        "SELECT exists FROM t",
        "INSERT INTO t VALUES (SELECT a FROM u)",
        "INSERT INTO t SELECT a FROM u",
        "CREATE POLICY p ON t USING (SELECT a FROM u)",
    ] {
        assert!(rt; answers(rt.alloc(), text, "42601"), "{text}");
    }
}

/// Texts outside the grammar.
#[test]
fn refuses(rt: HostRuntime) {
    for text in [
        ";",
        "SELECT * FROM t;;",
        "SELECT * FROM t WHERE a = 1 = 1",
        "SELECT * FROM t WHERE a = 'b",
        "INSERT INTO t VALUES (1), (2, 3)",
        "CREATE TABLE user (a int)",
        "CREATE ROLE x LOGIN NOLOGIN",
    ] {
        assert!(rt; answers(rt.alloc(), text, "42601"), "{text}");
    }
}

/// The limits, one above, and which of them comes first.
#[test]
fn keeps_limits(rt: HostRuntime) {
    for (count, part, end, want) in [
        (63, "NOT ", "a", "SELECT"),
        (64, "NOT ", "a", "nesting"),
        (64, "NOT ", "a b", "42601"),
        (257, "(", "", "parentheses"),
        (64, "y", "", "42622"),
    ] {
        assert!(rt;
            says(answers_repeated(rt.alloc(), count, part, end, want), true),
            "{part}"
        );
    }
}

/// Subqueries one inside another: 8 of them, one more, up to the limit of nesting, where EXISTS and IN count two and a
/// subquery that stands for a value counts one, and up to that of parentheses.
#[test]
fn keeps_subqueries(rt: HostRuntime) {
    for (count, part, want) in [
        (8, "EXISTS (SELECT * FROM t WHERE ", "SELECT"),
        (9, "EXISTS (SELECT * FROM t WHERE ", "subqueries"),
        (31, "EXISTS (SELECT * FROM t WHERE ", "subqueries"),
        (32, "EXISTS (SELECT * FROM t WHERE ", "nesting"),
        (8, "a NOT IN (SELECT a FROM t WHERE ", "SELECT"),
        (9, "a NOT IN (SELECT a FROM t WHERE ", "subqueries"),
        (32, "a IN (SELECT a FROM t WHERE ", "nesting"),
        (8, "(SELECT a FROM t WHERE ", "SELECT"),
        (9, "(SELECT a FROM t WHERE ", "subqueries"),
        (63, "(SELECT a FROM t WHERE ", "subqueries"),
        (64, "(SELECT a FROM t WHERE ", "nesting"),
        (256, "EXISTS (SELECT * FROM t WHERE ", "nesting"),
        (256, "a IN (SELECT a FROM t WHERE ", "nesting"),
        (256, "(SELECT a FROM t WHERE ", "nesting"),
        (257, "(SELECT a FROM t WHERE ", "parentheses"),
    ] {
        assert!(rt;
            says(answers_nested(rt.alloc(), count, part, want), true),
            "{part}"
        );
    }
}

/// Whether the text with so many of the part, and of closing parentheses behind a column, is answered so.
fn answers_nested(alloc: Global, count: u32, part: &str, want: &str) -> Result<bool, Refusal> {
    let text = nested(alloc, count, part)?;
    let is = answers(alloc, text.as_str(), want);
    drop(text);
    Ok(is)
}

fn nested(alloc: Global, count: u32, part: &str) -> Result<String, AllocError> {
    let mut text = repeated(alloc, count, part, "a")?;
    for _turn in 0..count {
        text.push_str(")")?;
    }
    Ok(text)
}

/// Whether the repeated text is answered so.
fn answers_repeated(
    alloc: Global,
    count: u32,
    part: &str,
    end: &str,
    want: &str,
) -> Result<bool, Refusal> {
    let text = repeated(alloc, count, part, end)?;
    let is = answers(alloc, text.as_str(), want);
    drop(text);
    Ok(is)
}

fn repeated(alloc: Global, count: u32, part: &str, end: &str) -> Result<String, AllocError> {
    let mut text = String::from_str(alloc, "SELECT * FROM t WHERE ")?;
    for _turn in 0..count {
        text.push_str(part)?;
    }
    text.push_str(end)?;
    Ok(text)
}

/// Whether the text is answered so: by a statement's tag, a limit, or a code.
fn answers(alloc: Global, text: &str, want: &str) -> bool {
    let answer = parse(alloc, text);
    let is = shown(&answer) == want;
    drop(answer);
    is
}

fn shown(answer: &Result<Statement, Refusal>) -> &'static str {
    match answer {
        Ok(statement) => statement.tag().text(),
        Err(Refusal::Limit(Limit::Nesting)) => "nesting",
        Err(Refusal::Limit(Limit::Parentheses)) => "parentheses",
        Err(Refusal::Limit(Limit::Subqueries)) => "subqueries",
        Err(refusal) => refusal.code(),
    }
}
