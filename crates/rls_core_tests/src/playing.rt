//! Histories that are played step by step.

use crate::answers::{last_answer, refusal_text};
use crate::opening::begin_as;
use rls_audit::rls_access::Mode;
use rls_audit::rls_core::Core;
use rls_audit::rls_text::parse_command;
use rls_statement::{AccessMode, Command, Statement};
use rls_value::Refusal;
use rls_value::shared::Share;
use std::alloc::Global;
use std::process::Abort;

/// Plays the steps, each a role, a transaction's number, a command and its answer. A begin answers its number, a commit how many
/// have committed then.
pub fn play(rt: &impl Abort, core: &mut Core, alloc: Global, steps: &[(&str, u64, &str, &str)]) {
    for (role, txn, command, want) in steps {
        assert!(rt;
            is_answered(core, alloc, role, *txn, command, want),
            "{txn} {command}"
        );
    }
}

/// Whether the order that the core gives is that one.
pub fn has_order(core: &Core, alloc: Global, wanted: &[u64]) -> bool {
    match core.order(alloc) {
        Ok(numbers) => numbers.as_slice() == wanted,
        Err(_) => false,
    }
}

fn is_answered(
    core: &mut Core,
    alloc: Global,
    role: &str,
    txn: u64,
    command: &str,
    want: &str,
) -> bool {
    match answer(core, alloc, role, txn, command) {
        Ok(answer) => answer.as_str() == want,
        Err(refusal) => {
            drop(refusal);
            false
        }
    }
}

fn answer(
    core: &mut Core,
    alloc: Global,
    role: &str,
    txn: u64,
    command: &str,
) -> Result<String, Refusal> {
    match parse_command(alloc, command)? {
        Command::Begin(AccessMode::ReadWrite) => begin(core, alloc, role, Mode::Write),
        Command::Begin(AccessMode::ReadOnly) => begin(core, alloc, role, Mode::Read),
        Command::Commit => commit(core, alloc, txn),
        Command::Rollback => rollback(core, alloc, txn),
        Command::Run(statement) => post(core, alloc, txn, Share::new(alloc, statement)?),
    }
}

fn begin(core: &mut Core, alloc: Global, role: &str, mode: Mode) -> Result<String, Refusal> {
    let begin = begin_as(alloc, role, mode)?;
    match core.begin(alloc, begin) {
        Ok(txn) => Ok(txn.to_string(alloc)?),
        Err(refusal) => refused(alloc, refusal),
    }
}

fn post(
    core: &mut Core,
    alloc: Global,
    txn: u64,
    statement: Share<Statement>,
) -> Result<String, Refusal> {
    match core.post(alloc, txn, statement) {
        Ok(()) => Ok(last_answer(core, alloc, txn)?),
        Err(refusal) => refused(alloc, refusal),
    }
}

fn commit(core: &mut Core, alloc: Global, txn: u64) -> Result<String, Refusal> {
    match core.commit(alloc, txn) {
        Ok(commits) => Ok(format!(in alloc; "COMMIT {commits}")?),
        Err(refusal) => refused(alloc, refusal),
    }
}

fn rollback(core: &mut Core, alloc: Global, txn: u64) -> Result<String, Refusal> {
    match core.rollback(txn) {
        Ok(()) => Ok("ROLLBACK".to_string(alloc)?),
        Err(refusal) => refused(alloc, refusal),
    }
}

fn refused(alloc: Global, refusal: Refusal) -> Result<String, Refusal> {
    let text = refusal_text(alloc, &refusal);
    drop(refusal);
    Ok(text?)
}
