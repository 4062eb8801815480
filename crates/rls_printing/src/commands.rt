//! Commands as texts.

ghost use Rattle.std.specs.Prelude.{◌≡◌, List, Result, Ok, Some, true, IfOk, OnOk};
ghost use Rattle.std.specs.{Str.chars, String.string_bytes};
ghost use Rattle.rls_value.specs.declared.refusal.Refusal.{Refusal};
ghost use Rattle.rls_statement.specs.declared.command.Command.{Command};
ghost use Rattle.rls_text.specs.{Words.words_of, declared.token.Token.Token};
ghost use Rattle.rls_text.specs.Commands.{AnswersCommand, IsCommandSpelled, IsCommandWritten, SpellsCommand};
ghost use Rattle.rls_printing.specs.{OutputTokens.tokens_of, Outputs.output_tokens_text, Outputs.put_all, Outputs.output_of};
ghost use Rattle.rls_printing.specs.CommandForms.{IsCommandReadAs};
ghost use Rattle.rls_printing.specs.CommandForms as form;

use crate::buffer::OutputBuffer;
use crate::printing::put_statement;
use crate::statements::put_transaction;
use rls_statement::{Command, TransactionCommand};
use std::alloc::{AllocError, Global};

/// The text of the command: BEGIN, BEGIN READ ONLY, COMMIT, ROLLBACK, or that of its statement, as `print` gives it.
pub fn print_command(alloc: Global, command: &Command) -> Result<String, AllocError>
    ensures text { IfOk result (λ text. chars (string_bytes text) ≡ output_tokens_text true (form.command command.now)) }

    // The words of the text are the tokens of that form.
    ensures tokens { IfOk result (λ text. tokens_of (form.command command.now) ≡ Some (words_of (string_bytes text))) }

    // Where words are written for the command, they are the words of the text.
    ensures words { IfOk result (λ text. (tokens : List Token) → IsCommandWritten tokens command.now → words_of (string_bytes text) ≡ tokens) }

    // Where some text spells the command, this text spells it.
    ensures spelled { IfOk result (λ text. (tokens : List Token) → SpellsCommand tokens command.now → SpellsCommand (words_of (string_bytes text)) command.now) }

    // What `parse_command` answers the text with is then the command, or a limit that its statement passes.
    ensures read { IfOk result (λ text. (tokens : List Token) (answer : Result Command Refusal) → SpellsCommand tokens command.now → AnswersCommand (words_of (string_bytes text)) answer → IsCommandReadAs command.now answer) }

    // Where some text within the limits spells the command, it is the command.
    ensures again { IfOk result (λ text. (tokens : List Token) (answer : Result Command Refusal) → IsCommandSpelled tokens command.now → AnswersCommand (words_of (string_bytes text)) answer → answer ≡ Ok command.now) }
{
    let mut buffer = OutputBuffer::new(alloc);
    put_command(&mut buffer, command)?;
    Ok(buffer.into_text())
}

fn put_command(buffer: &mut OutputBuffer, command: &Command) -> Result<(), AllocError>
    ensures { OnOk result (put_all (Some (output_of buffer.old)) (form.command command.now) ≡ Some (output_of buffer.new)) }
{
    match command {
        Command::Begin(mode) => put_transaction(buffer, TransactionCommand::Begin(*mode)),
        Command::Commit => put_transaction(buffer, TransactionCommand::Commit),
        Command::Rollback => put_transaction(buffer, TransactionCommand::Rollback),
        Command::Run(statement) => put_statement(buffer, statement),
    }
}
