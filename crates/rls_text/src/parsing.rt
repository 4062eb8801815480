//! A statement or a command from a text.

ghost use Rattle.std.specs.Prelude.{◌≡◌, ◌≤◌, None, IfOk};
ghost use Rattle.rls_text.specs.{Gives.Gives, Gives.GivesWhole, Gives.whole_of, Gives.answer_of, Gives.answered, Gives.within_limits, Words.words_of, Heights.height_of, Nested.subqueries_of, ParseResults.IsParseResult, ParseResults.IsSpelled};
ghost use Rattle.rls_text.specs.Commands.{AnswersCommand, IfRun, IsCommandSpelled, command_of};
ghost use Rattle.rls_text.specs.Grammar as g;
ghost use Rattle.rls_text.specs.ParseResults as spec;

use crate::changing::{delete, update};
use crate::creating::{alter, create};
use crate::fault::Fault;
use crate::granting::grant;
use crate::limits::first_limit;
use crate::memberships::set_role;
use crate::policies::dropped_policy;
use crate::reading::{sees_word, symbol};
use crate::revoking::revoke;
use crate::selecting::{insert, select};
use crate::subqueries::{MAX_SUBQUERIES, has_too_many};
use crate::token::{Symbol, Token};
use crate::transactions::{starts_transaction, whole_transaction};
use crate::tree::{MAX_DEPTH, TreeWithDepth};
use crate::words::words;
use rls_statement::{Command, Statement};
use rls_value::{Limit, Refusal};
use std::alloc::Global;

/// The most columns of a table.
pub const MAX_COLUMNS: usize = 64;

/// The statement that the text spells. Where several refusals fit: first the limits on words from the left (a name
/// of over 63 bytes, a 257th open parenthesis), then `Syntax`, then `Limit` of columns, then of nesting,
/// then of subqueries one inside another.
pub fn parse(alloc: Global, text: &str) -> Result<Statement, Refusal>
    ensures ok { IfOk result (λ statement. IsSpelled (words_of text.now) statement) }
    ensures within { IfOk result (λ statement. height_of statement ≤ MAX_DEPTH) }
    ensures few { IfOk result (λ statement. subqueries_of statement ≤ MAX_SUBQUERIES) }

    // It is what the grammar and the limits say, unless memory runs out.
    ensures answer { ¬ (result ≡ Err Refusal.NoMemory) → IsParseResult (words_of text.now) result }
{
    let tokens = words(alloc, text)?;
    answer(alloc, tokens.as_slice())
}

/// The command that the text spells: a statement, as `parse` gives it, or what begins or ends a block. Where several
/// refusals fit they come in the same order.
pub fn parse_command(alloc: Global, text: &str) -> Result<Command, Refusal>
    ensures ok { IfOk result (λ command. IsCommandSpelled (words_of text.now) command) }
    ensures within { IfOk result (λ command. IfRun command (λ statement. height_of statement ≤ MAX_DEPTH)) }
    ensures few { IfOk result (λ command. IfRun command (λ statement. subqueries_of statement ≤ MAX_SUBQUERIES)) }

    // It is what the grammar and the limits say, unless memory runs out.
    ensures answer { ¬ (result ≡ Err Refusal.NoMemory) → AnswersCommand (words_of text.now) result }
{
    let tokens = words(alloc, text)?;
    command_answer(alloc, tokens.as_slice())
}

fn command_answer(alloc: Global, tokens: &[Token]) -> Result<Command, Refusal>
    ensures { ¬ (result ≡ Err Refusal.NoMemory) → result ≡ command_of tokens.now }
{
    if let Some(limit) = first_limit(tokens) {
        return Err(Refusal::Limit(limit));
    }
    if starts_transaction(tokens) {
        match whole_transaction(alloc, tokens) {
            Ok(command) => Ok(command),
            Err(Fault::Syntax) => Err(Refusal::Syntax),
            Err(Fault::NoMemory) => Err(Refusal::NoMemory),
        }
    } else {
        let statement = spelled(alloc, tokens)?;
        Ok(Command::Run(statement))
    }
}

fn answer(alloc: Global, tokens: &[Token]) -> Result<Statement, Refusal>
    ensures { ¬ (result ≡ Err Refusal.NoMemory) → result ≡ answer_of tokens.now }
{
    if let Some(limit) = first_limit(tokens) {
        return Err(Refusal::Limit(limit));
    }
    spelled(alloc, tokens)
}

/// The statement that the tokens spell, unless it is over a limit.
fn spelled(alloc: Global, tokens: &[Token]) -> Result<Statement, Refusal>
    requires { spec.first_limit tokens.now ≡ None }
    ensures { ¬ (result ≡ Err Refusal.NoMemory) → result ≡ answered (whole_of tokens.now) }
{
    match whole(alloc, tokens) {
        Ok(tree_with_depth) => limited(tree_with_depth),
        Err(Fault::Syntax) => Err(Refusal::Syntax),
        Err(Fault::NoMemory) => Err(Refusal::NoMemory),
    }
}

/// The statement, unless it is over a limit.
fn limited(tree_with_depth: TreeWithDepth) -> Result<Statement, Refusal>
    ensures { result ≡ within_limits tree_with_depth }
{
    let (statement, depth) = tree_with_depth;
    if column_count(&statement) > MAX_COLUMNS {
        drop(statement);
        Err(Refusal::Limit(Limit::Columns))
    } else if depth > MAX_DEPTH {
        drop(statement);
        Err(Refusal::Limit(Limit::Nesting))
    } else if has_too_many(&statement) {
        drop(statement);
        Err(Refusal::Limit(Limit::Subqueries))
    } else {
        Ok(statement)
    }
}

/// How many columns it defines.
fn column_count(statement: &Statement) -> usize
    ensures { result ≡ spec.columns_of statement.now }
{
    match statement {
        Statement::CreateTable(table) => table.columns.len(),
        _ => 0,
    }
}

/// The statement that takes up all of the tokens, which pass no limit on words.
#[tactic(auto, unfolding(crate::specs::Gives::whole_of))]
fn whole(alloc: Global, tokens: &[Token]) -> Result<TreeWithDepth, Fault>
    requires { spec.first_limit tokens.now ≡ None }
    ensures { GivesWhole result (whole_of tokens.now) }
{
    let (statement, rest) = statement(alloc, tokens.len() + 1, tokens)?;
    match rest {
        [] => Ok(statement),
        [_, ..] => {
            drop(statement);
            Err(Fault::Syntax)
        }
    }
}

/// A statement, with a semicolon or without.
#[tactic(auto, unfolding(crate::specs::Grammar::statement))]
fn statement(
    alloc: Global,
    depth: usize,
    tokens: &[Token],
) -> Result<(TreeWithDepth, &[Token]), Fault>
    ensures { Gives result ((g.statement depth).read tokens.now) }
{
    let (statement, rest) = body(alloc, depth, tokens)?;
    match symbol(rest, Symbol::Semicolon) {
        Some(rest) => Ok((statement, rest)),
        None => Ok((statement, rest)),
    }
}

#[tactic(auto, unfolding(crate::specs::Grammar::body))]
fn body(alloc: Global, depth: usize, tokens: &[Token]) -> Result<(TreeWithDepth, &[Token]), Fault>
    ensures { Gives result ((g.body (g.expr depth)).read tokens.now) }
{
    if sees_word(tokens, b"select") {
        select(alloc, depth, tokens)
    } else if sees_word(tokens, b"insert") {
        insert(alloc, depth, tokens)
    } else if sees_word(tokens, b"update") {
        update(alloc, depth, tokens)
    } else if sees_word(tokens, b"delete") {
        delete(alloc, depth, tokens)
    } else if sees_word(tokens, b"create") {
        create(alloc, depth, tokens)
    } else if sees_word(tokens, b"alter") {
        alter(alloc, depth, tokens)
    } else {
        let (statement, rest) = flat_body(alloc, tokens)?;
        Ok(((statement, 0), rest))
    }
}

/// A statement without an expression.
#[tactic(auto, unfolding(crate::specs::Grammar::flat_body))]
fn flat_body(alloc: Global, tokens: &[Token]) -> Result<(Statement, &[Token]), Fault>
    ensures { Gives result (g.flat_body.parses.read tokens.now) }
{
    if sees_word(tokens, b"drop") {
        dropped_policy(alloc, tokens)
    } else if sees_word(tokens, b"grant") {
        grant(alloc, tokens)
    } else if sees_word(tokens, b"revoke") {
        revoke(alloc, tokens)
    } else {
        set_role(alloc, tokens)
    }
}
