//! Laws of the walk, each a clause of a function that does nothing.

ghost use Rattle.std.specs.Prelude.{◌≡◌, ℕ, List, Some, None, map};
ghost use Rattle.rls_statement.specs.declared.command.Command.{Command};
ghost use Rattle.rls_text.specs.declared.token.Token.{Token as TextToken};
ghost use Rattle.rls_text.specs.Commands.{SpellsCommand};
ghost use Rattle.rls_text.specs.Words.{words_of};
ghost use Rattle.rls_hints.specs.declared.grammar.Item.{Item};
ghost use Rattle.rls_hints.specs.Walking.{fault_of};
ghost use Rattle.rls_hints.specs.Beginnings.{IsBlamed, seen};
ghost use Rattle.rls_hints.specs.Reading.{placed_of};

/// The words of a text are those that `rls_text` reads.
pub fn words_are_read()
    ensures { (text : List ℕ) → map (λ placed. placed.token) (placed_of text) ≡ map seen (words_of text) }
{}

/// Whatever spells a command is taken to its end.
pub fn spelled_is_taken()
    ensures { (words : List TextToken) (command : Command) → SpellsCommand words command → fault_of (map seen words) ≡ None }
{}

/// A word that is blamed ends no beginning of a command.
pub fn blamed_begins_nothing()
    ensures { (words : List TextToken) (place : ℕ) (ready : List (List Item)) → fault_of (map seen words) ≡ Some (place, ready) → IsBlamed words place }
{}
