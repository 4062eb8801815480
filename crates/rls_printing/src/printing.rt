//! Statements, policies and expressions as texts.

ghost use Rattle.std.specs.Prelude.{◌≡◌, ℕ, List, Result, Ok, Some, true, IfOk, OnOk};
ghost use Rattle.std.specs.{Str.chars, String.string_bytes};
ghost use Rattle.rls_value.specs.declared.refusal.Refusal.{Refusal};
ghost use Rattle.rls_statement.specs.declared.statement.Statement.{Statement};
ghost use Rattle.rls_statement.specs.declared.statement.Statement.TheVariants as st;
ghost use Rattle.rls_text.specs.{ParseResults.IsParseResult, ParseResults.IsSpelled, Grammar.Spells, Heights.height, Printing.IsWritten, Words.words_of, declared.token.Token.Token};
ghost use Rattle.rls_text.specs.Grammar as g;
ghost use Rattle.rls_printing.specs.ExprForms as expr_form;
ghost use Rattle.rls_printing.specs.{OutputTokens.tokens_of, ReadBack.IsReadAs, Outputs.output_tokens_text, Outputs.put_all, Outputs.output_of};
ghost use Rattle.rls_printing.specs.StatementForms as form;

use crate::buffer::OutputBuffer;
use crate::expression::put_expr;
use crate::policies::{
    put_alter_policy, put_drop_policy, put_grant, put_grant_roles, put_policy, put_revoke,
    put_revoke_roles,
};
use crate::statements::{
    put_alter_role, put_alter_table, put_create_role, put_create_table, put_delete, put_insert,
    put_select, put_set_role, put_transaction, put_update,
};
use rls_expr::{Expr, Policy};
use rls_statement::Statement;
use rls_value::Name;
use std::alloc::{AllocError, Global};

/// The text of the statement, in its one written form. No text spells some statements, as one with a subquery whose key is
/// resolved, or a table without columns: of such a one `text` alone says what is printed.
pub fn print(alloc: Global, statement: &Statement) -> Result<String, AllocError>
    ensures text { IfOk result (λ text. chars (string_bytes text) ≡ output_tokens_text true (form.statement statement.now)) }

    // The words of the text are the tokens of that form.
    ensures tokens { IfOk result (λ text. tokens_of (form.statement statement.now) ≡ Some (words_of (string_bytes text))) }

    // Where words are written for the statement, they are the words of the text.
    ensures words { IfOk result (λ text. (tokens : List Token) → IsWritten tokens statement.now → words_of (string_bytes text) ≡ tokens) }

    // Where some text spells the statement, this text spells it.
    ensures spelled { IfOk result (λ text. (tokens : List Token) → Spells tokens statement.now → Spells (words_of (string_bytes text)) statement.now) }

    // What `parse` answers the text with is then the statement, or a limit that it passes.
    ensures read { IfOk result (λ text. (tokens : List Token) (answer : Result Statement Refusal) → Spells tokens statement.now → IsParseResult (words_of (string_bytes text)) answer → IsReadAs statement.now answer) }

    // Where some text within the limits spells the statement, it is the statement.
    ensures again { IfOk result (λ text. (tokens : List Token) (answer : Result Statement Refusal) → IsSpelled tokens statement.now → IsParseResult (words_of (string_bytes text)) answer → answer ≡ Ok statement.now) }
{
    let mut buffer = OutputBuffer::new(alloc);
    put_statement(&mut buffer, statement)?;
    Ok(buffer.into_text())
}

/// The text of the table's policy, as CREATE POLICY.
pub fn print_policy(alloc: Global, table: &Name, policy: &Policy) -> Result<String, AllocError>
    ensures text { IfOk result (λ text. chars (string_bytes text) ≡ output_tokens_text true (form.policy table.now policy.now)) }

    // The words of the text are the tokens of that form.
    ensures tokens { IfOk result (λ text. tokens_of (form.policy table.now policy.now) ≡ Some (words_of (string_bytes text))) }

    // Where words are written for the statement that creates it, they are the words of the text.
    ensures words { IfOk result (λ text. (tokens : List Token) → IsWritten tokens (st.CreatePolicy record { table = table.now; policy = policy.now }) → words_of (string_bytes text) ≡ tokens) }

    // Where some text spells that statement, this text spells it.
    ensures spelled { IfOk result (λ text. (tokens : List Token) → Spells tokens (st.CreatePolicy record { table = table.now; policy = policy.now }) → Spells (words_of (string_bytes text)) (st.CreatePolicy record { table = table.now; policy = policy.now })) }

    // What `parse` answers the text with is then that statement, or a limit that it passes.
    ensures read { IfOk result (λ text. (tokens : List Token) (answer : Result Statement Refusal) → Spells tokens (st.CreatePolicy record { table = table.now; policy = policy.now }) → IsParseResult (words_of (string_bytes text)) answer → IsReadAs (st.CreatePolicy record { table = table.now; policy = policy.now }) answer) }

    // Where some text within the limits spells that statement, it is that statement.
    ensures again { IfOk result (λ text. (tokens : List Token) (answer : Result Statement Refusal) → IsSpelled tokens (st.CreatePolicy record { table = table.now; policy = policy.now }) → IsParseResult (words_of (string_bytes text)) answer → answer ≡ Ok (st.CreatePolicy record { table = table.now; policy = policy.now })) }
{
    let mut buffer = OutputBuffer::new(alloc);
    put_policy(&mut buffer, table, policy)?;
    Ok(buffer.into_text())
}

/// The text of the expression.
pub fn print_expr(alloc: Global, expr: &Expr) -> Result<String, AllocError>
    ensures text { IfOk result (λ text. chars (string_bytes text) ≡ output_tokens_text true (expr_form.expr expr.now)) }

    // The words of the text are the tokens of that form.
    ensures tokens { IfOk result (λ text. tokens_of (expr_form.expr expr.now) ≡ Some (words_of (string_bytes text))) }

    // Where words are written for the expression, at whatever depth of parentheses, they are the words of the text.
    ensures words { IfOk result (λ text. (depth : ℕ) (tokens : List Token) → (g.expr depth).rule.prints.writes expr.now ≡ Some tokens → words_of (string_bytes text) ≡ tokens) }

    // Where some text spells the expression, this text spells it, within as many parentheses as it is high.
    ensures spelled { IfOk result (λ text. (depth : ℕ) (tokens : List Token) → (g.expr depth).rule.spells tokens expr.now → (g.expr (height expr.now)).rule.spells (words_of (string_bytes text)) expr.now) }
{
    let mut buffer = OutputBuffer::new(alloc);
    put_expr(&mut buffer, expr)?;
    Ok(buffer.into_text())
}

pub fn put_statement(buffer: &mut OutputBuffer, statement: &Statement) -> Result<(), AllocError>
    ensures { OnOk result (put_all (Some (output_of buffer.old)) (form.statement statement.now) ≡ Some (output_of buffer.new)) }
{
    match statement {
        Statement::CreateRole(role) => put_create_role(buffer, role),
        Statement::AlterRole(role) => put_alter_role(buffer, role),
        Statement::CreateTable(table) => put_create_table(buffer, table),
        Statement::AlterTable(change) => put_alter_table(buffer, change),
        Statement::CreatePolicy(create) => put_policy(buffer, &create.table, &create.policy),
        Statement::AlterPolicy(alter) => put_alter_policy(buffer, alter),
        Statement::DropPolicy(drop) => put_drop_policy(buffer, drop),
        Statement::Grant(grant) => put_grant(buffer, grant),
        Statement::GrantRoles(grant) => put_grant_roles(buffer, grant),
        Statement::Revoke(revoke) => put_revoke(buffer, revoke),
        Statement::RevokeRoles(revoke) => put_revoke_roles(buffer, revoke),
        Statement::SetRole(set) => put_set_role(buffer, set),
        Statement::Insert(insert) => put_insert(buffer, insert),
        Statement::Update(update) => put_update(buffer, update),
        Statement::Delete(delete) => put_delete(buffer, delete),
        Statement::Select(select) => put_select(buffer, select),
        Statement::Transaction(command) => put_transaction(buffer, *command),
    }
}
