//! What is kept of a line: statements and policies in place of their texts.

ghost use Rattle.std.specs.Prelude.{◌≡◌, map, IfOk};
ghost use Rattle.std.specs.List.{All, AllZip};
ghost use Rattle.rls_statement.specs.declared.statement.Statement.{Statement};
ghost use Rattle.rls_audit.specs.rls_audit_lines.specs.rls_text.specs.{ParseResults.IsSpelled, Words.words_of};
ghost use Rattle.rls_audit.specs.rls_audit_lines.specs.{Asked.IsAsked, Reading.HasStatement, Reading.HasPolicies, Reading.IsStatementText, Reading.IsPolicyText};
ghost use Rattle.rls_audit.specs.Shows.{SpellsPolicy};
ghost use Rattle.rls_audit.specs.FirstKeys.{place_of as spec_place_of};
ghost use Rattle.rls_check.specs.Keeping as spec;
ghost use Rattle.rls_check.specs.Keeping.{IsMade, IsSpelledText, Keeps, KeepsAnswer, KeepsPut, table_of};

use crate::transaction::{Answer, Put, Transaction};
use rls_audit::rls_core::Begin;
use rls_audit::rls_text::{parse, parse_command};
use rls_audit::{Answered, Changed, Shown, TableShape};
use rls_expr::{Column, Policy, TableDef};
use rls_statement::Statement;
use rls_value::shared::Share;
use rls_value::{Items, Name, Refusal, Text};
use std::alloc::{AllocError, Global};

/// What is kept of a transaction.
pub(crate) fn kept(alloc: Global, shown: Shown) -> Result<Transaction, Refusal>
    requires statements { All HasStatement shown.statements }
    requires changes { All HasPolicies shown.changes }
    ensures { IsMade (Keeps shown) result }
{
    let Shown {
        changes,
        commit: _,
        login,
        mode,
        role,
        snap,
        statements,
        txn,
    } = shown;
    let answers = answers_of(alloc, statements.into_vec())?;
    let puts = puts_of(alloc, changes.into_vec())?;
    Ok(Transaction {
        txn,
        begin: Begin { login, role, mode },
        snap,
        answers,
        puts,
    })
}

#[tactic(auto, using(crate::proofs::KeepingLemmas::zip_push, crate::proofs::KeepingLemmas::first_is, crate::proofs::KeepingLemmas::rest_are))]
fn answers_of(alloc: Global, statements: Vec<Answered>) -> Result<Items<Answer>, Refusal>
    requires { All HasStatement statements.items }
    ensures { IsMade (AllZip KeepsAnswer statements.items) result }
{
    let mut answers = Items::with_capacity(alloc, statements.len())?;
    for answered in statements {
        let answer = answer_of(alloc, answered)?;
        answers.push(answer)?;
    }
    Ok(answers)
}

fn answer_of(alloc: Global, answered: Answered) -> Result<Answer, Refusal>
    requires { HasStatement answered }
    ensures { IsMade (KeepsAnswer answered) result }
{
    let Answered {
        decisions,
        reply,
        text,
    } = answered;
    let statement = asked_of(alloc, &text)?;
    let statement = Share::new(alloc, statement)?;
    Ok(Answer {
        statement,
        reply,
        decisions,
    })
}

/// The statement that the text is, or what begins or ends a block.
fn asked_of(alloc: Global, text: &Text) -> Result<Statement, Refusal>
    requires { IsStatementText text.now }
    ensures { IsMade (IsAsked (words_of text.now)) result }
{
    match parse_command(alloc, text.as_str()) {
        Ok(command) => Ok(command.into_statement()),
        Err(refusal) => Err(refusal),
    }
}

/// The statement that the text spells.
#[tactic(auto, using(crate::proofs::KeepingLemmas::statement_made, crate::proofs::KeepingLemmas::statement_one))]
fn statement_of(alloc: Global, text: &Text) -> Result<Statement, Refusal>
    requires { IsSpelledText text.now }
    ensures made { IsMade (IsSpelled (words_of text.now)) result }
    ensures alone { IfOk result (λ statement. (other : Statement) → IsSpelled (words_of text.now) other → other ≡ statement) }
{
    parse(alloc, text.as_str())
}

#[tactic(auto, using(crate::proofs::KeepingLemmas::zip_push, crate::proofs::KeepingLemmas::first_is, crate::proofs::KeepingLemmas::rest_are))]
fn puts_of(alloc: Global, changes: Vec<Changed>) -> Result<Items<Put>, Refusal>
    requires { All HasPolicies changes.items }
    ensures { IsMade (AllZip KeepsPut changes.items) result }
{
    let mut puts = Items::with_capacity(alloc, changes.len())?;
    for changed in changes {
        let put = put_of(alloc, changed)?;
        puts.push(put)?;
    }
    Ok(puts)
}

fn put_of(alloc: Global, changed: Changed) -> Result<Put, Refusal>
    requires { HasPolicies changed }
    ensures { IsMade (KeepsPut changed) result }
{
    match changed {
        Changed::Role(name, def) => Ok(Put::Role(name, def)),
        Changed::Members(member, content) => Ok(Put::Members(member, content)),
        Changed::Table(name, shape) => Ok(Put::Table(name, def_of(alloc, shape)?)),
        Changed::Grants(table, content) => Ok(Put::Grants(table, content)),
        Changed::Policies(table, texts) => {
            let policies = policies_of(alloc, &table, texts.as_slice())?;
            Ok(Put::Policies(table, policies))
        }
        Changed::Row(table, id, values) => Ok(Put::Row(table, id, values)),
    }
}

fn def_of(alloc: Global, shape: TableShape) -> Result<TableDef, AllocError>
    ensures { IfOk result (λ def. def ≡ table_of shape) }
{
    let TableShape {
        owner,
        enabled,
        forced,
        columns,
        key,
    } = shape;
    let key = places_of(alloc, columns.as_slice(), key.as_slice())?;
    Ok(TableDef {
        owner,
        enabled,
        forced,
        columns,
        key,
    })
}

fn places_of(alloc: Global, columns: &[Column], key: &[Name]) -> Result<Items<usize>, AllocError>
    ensures { IfOk result (λ places. places ≡ map (spec_place_of columns.now) key.now) }
{
    let mut places = Items::with_capacity(alloc, key.len())?;
    for name in key {
        places.push(place_of(columns, name))?;
    }
    Ok(places)
}

/// The place of the first column of that name; behind the last one where there is none.
fn place_of(columns: &[Column], name: &Name) -> usize
    ensures { result ≡ spec_place_of columns.now name.now }
{
    let mut place = 0;
    let mut rest = columns;
    while let [column, others @ ..] = rest {
        if column.name.is(name) {
            break;
        }
        place += 1;
        rest = others;
    }
    place
}

#[tactic(auto, using(crate::proofs::KeepingLemmas::zip_more, crate::proofs::KeepingLemmas::zip_whole, crate::proofs::KeepingLemmas::one_of))]
fn policies_of(alloc: Global, table: &Name, texts: &[Text]) -> Result<Items<Policy>, Refusal>
    requires { All (IsPolicyText table.now) texts.now }
    ensures { IsMade (AllZip (SpellsPolicy table.now) texts.now) result }
{
    let mut policies = Items::with_capacity(alloc, texts.len())?;
    for text in texts {
        let policy = policy_of(alloc, table, text)?;
        policies.push(policy)?;
    }
    Ok(policies)
}

/// The policy that the text creates of the table.
#[tactic(auto, using(crate::proofs::KeepingLemmas::policy_kept, crate::proofs::KeepingLemmas::no_other))]
fn policy_of(alloc: Global, table: &Name, text: &Text) -> Result<Policy, Refusal>
    requires { IsPolicyText table.now text.now }
    ensures { IsMade (SpellsPolicy table.now text.now) result }
{
    let statement = statement_of(alloc, text)?;
    match policy_in(statement) {
        Some(policy) => Ok(policy),
        None => Err(Refusal::Syntax),
    }
}

/// The policy that the statement creates.
fn policy_in(statement: Statement) -> Option<Policy>
    ensures { result ≡ spec.policy_in statement }
{
    match statement {
        Statement::CreatePolicy(create) => Some(create.policy),
        statement => {
            drop(statement);
            None
        }
    }
}
