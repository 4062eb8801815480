//! Laws of the definitions, each a clause of a function that does nothing.

ghost use Rattle.std.specs.Prelude.{List, Result};
ghost use Rattle.rls_value.specs.declared.refusal.Refusal.{Refusal};
ghost use Rattle.rls_statement.specs.declared.command.Command.{Command};
ghost use Rattle.rls_statement.specs.declared.statement.Statement.{Statement};
ghost use Rattle.rls_text.specs.declared.token.Token.{Token};
ghost use Rattle.rls_text.specs.ParseResults.{IsParseResult};
ghost use Rattle.rls_text.specs.Commands.{AnswersCommand, IsCommandWritten, SpellsCommand, run};
ghost use Rattle.rls_text.specs.Grammar.{Spells};
ghost use Rattle.rls_text.specs.Printing.{IsWritten};

/// What is written for a statement spells it, so that it is read back as that statement.
#[tactic(auto, using(crate::proofs::Printed::statement_spelled))]
pub fn written_spells()
    ensures { (tokens : List Token) (statement : Statement) → IsWritten tokens statement → Spells tokens statement }
{}

/// What is written for a command spells it, so that it is read back as that command.
pub fn written_command_spells()
    ensures { (tokens : List Token) (command : Command) → IsCommandWritten tokens command → SpellsCommand tokens command }
{}

/// A text of a statement is answered with the same as a command.
pub fn statement_answers()
    ensures { (tokens : List Token) (statement : Statement) (answer : Result Statement Refusal) → Spells tokens statement → IsParseResult tokens answer → AnswersCommand tokens (run answer) }
{}
