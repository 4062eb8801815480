//! What a text spells is one thing, and so is what is printed.

ghost use Rattle.std.specs.Prelude.{◌≡◌, List, Some};
ghost use Rattle.rls_statement.specs.declared.command.Command.{Command};
ghost use Rattle.rls_statement.specs.declared.statement.Statement.{Statement};
ghost use Rattle.rls_audit.specs.rls_audit_lines.specs.rls_text.specs.{Commands.SpellsCommand, Grammar.Spells, declared.token.Token.Token};
ghost use Rattle.rls_audit.specs.rls_printing.specs.CommandForms as command_form;
ghost use Rattle.rls_audit.specs.rls_printing.specs.OutputTokens.{tokens_of};
ghost use Rattle.rls_audit.specs.rls_printing.specs.StatementForms as form;

/// The words of a text spell one statement at most.
pub fn one_statement()
    ensures { (tokens : List Token) (x y : Statement) → Spells tokens x → Spells tokens y → x ≡ y }
{}

/// The words of a text spell one command at most.
pub fn one_command()
    ensures { (tokens : List Token) (x y : Command) → SpellsCommand tokens x → SpellsCommand tokens y → x ≡ y }
{}

/// The words that are printed for a statement that some text spells spell it, and no other.
pub fn printed_statement()
    ensures spelled { (x : Statement) (original tokens : List Token) → Spells original x → tokens_of (form.statement x) ≡ Some tokens → Spells tokens x }
    ensures alone { (x y : Statement) (original tokens : List Token) → Spells original x → tokens_of (form.statement x) ≡ Some tokens → Spells tokens y → y ≡ x }
{}

/// The words that are printed for a command that some text spells spell it, and no other.
pub fn printed_command()
    ensures spelled { (x : Command) (original tokens : List Token) → SpellsCommand original x → tokens_of (command_form.command x) ≡ Some tokens → SpellsCommand tokens x }
    ensures alone { (x y : Command) (original tokens : List Token) → SpellsCommand original x → tokens_of (command_form.command x) ≡ Some tokens → SpellsCommand tokens y → y ≡ x }
{}
