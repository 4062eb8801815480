//! Cores that histories begin on.

use rls_audit::rls_access::Mode;
use rls_audit::rls_core::{Begin, Core};
use rls_audit::rls_text::parse;
use rls_statement::Statement;
use rls_value::shared::Share;
use rls_value::{Name, Refusal};
use std::alloc::Global;

/// One begins as that role.
pub fn begin_as(alloc: Global, role: &str, mode: Mode) -> Result<Begin, Refusal> {
    let login = Name::new(alloc, role)?;
    let role = login.copy()?;
    Ok(Begin { login, role, mode })
}

/// `postgres` connects and runs each statement in a transaction of its own; then the others connect. A connection takes a number.
pub fn opened(alloc: Global, statements: &[&str], others: &[&str]) -> Result<Core, Refusal> {
    let mut core = Core::new(alloc)?;
    connect(&mut core, alloc, "postgres")?;
    for statement in statements {
        run_alone(&mut core, alloc, statement)?;
    }
    connect_all(&mut core, alloc, others)?;
    Ok(core)
}

fn connect_all(core: &mut Core, alloc: Global, roles: &[&str]) -> Result<(), Refusal> {
    for role in roles {
        connect(core, alloc, role)?;
    }
    Ok(())
}

fn connect(core: &mut Core, alloc: Global, role: &str) -> Result<(), Refusal> {
    let txn = core.begin(alloc, begin_as(alloc, role, Mode::Write)?)?;
    core.rollback(txn)
}

fn run_alone(core: &mut Core, alloc: Global, statement: &str) -> Result<(), Refusal> {
    let txn = core.begin(alloc, begin_as(alloc, "postgres", Mode::Write)?)?;
    post(core, alloc, txn, statement)?;
    core.commit(alloc, txn)?;
    Ok(())
}

/// The transaction posts the statement.
pub fn post(core: &mut Core, alloc: Global, txn: u64, statement: &str) -> Result<(), Refusal> {
    let statement = shared(alloc, statement)?;
    core.post(alloc, txn, statement)
}

/// The statement of the text, shared.
pub fn shared(alloc: Global, text: &str) -> Result<Share<Statement>, Refusal> {
    let statement = parse(alloc, text)?;
    Ok(Share::new(alloc, statement)?)
}

/// The manual's tables of users and of information that only groups may see (PostgreSQL manual, 5.8, "Row Security Policies").
/// Then mallory and alice connect.
pub fn with_information(alloc: Global) -> Result<Core, Refusal> {
    opened(
        alloc,
        &[
            "CREATE ROLE alice LOGIN",
            "CREATE ROLE bob LOGIN",
            "CREATE ROLE mallory LOGIN",
            "CREATE TABLE users (user_name text PRIMARY KEY, group_id int NOT NULL)",
            "INSERT INTO users VALUES ('alice', 5), ('bob', 2), ('mallory', 2)",
            "GRANT ALL ON users TO alice",
            "GRANT SELECT ON users TO public",
            "CREATE TABLE information (info text, group_id int NOT NULL)",
            "INSERT INTO information VALUES ('barely secret', 1), ('slightly secret', 2), ('very secret', 5)",
            "ALTER TABLE information ENABLE ROW LEVEL SECURITY",
            "CREATE POLICY fp_s ON information FOR SELECT USING (group_id <= (SELECT group_id FROM users WHERE user_name = current_user))",
            "CREATE POLICY fp_u ON information FOR UPDATE USING (group_id <= (SELECT group_id FROM users WHERE user_name = current_user))",
            "GRANT ALL ON information TO public",
        ],
        &["mallory", "alice"],
    )
}

/// Two rows, and three that connect.
pub fn with_two_rows(alloc: Global) -> Result<Core, Refusal> {
    opened(
        alloc,
        &[
            "CREATE TABLE x (id int PRIMARY KEY, v int)",
            "INSERT INTO x VALUES (1, 0), (2, 0)",
        ],
        &["postgres", "postgres", "postgres"],
    )
}

/// The control row and the receipts of a batch, and three that connect.
pub fn with_a_batch(alloc: Global) -> Result<Core, Refusal> {
    opened(
        alloc,
        &[
            "CREATE TABLE control (id int PRIMARY KEY, batch int)",
            "CREATE TABLE receipts (batch int, amount int)",
            "INSERT INTO control VALUES (1, 7)",
        ],
        &["postgres", "postgres", "postgres"],
    )
}
