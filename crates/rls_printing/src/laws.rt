//! Laws of the definitions, each a clause of a function that does nothing.

ghost use Rattle.std.specs.Prelude.{◌≡◌, ℕ, List, Some, None, Result, Ok, true};
ghost use Rattle.std.specs.Str.{chars};
ghost use Rattle.rls_expr.specs.Terms.{Term};
ghost use Rattle.rls_statement.specs.declared.statement.Statement.{Statement};
ghost use Rattle.rls_value.specs.declared.refusal.Refusal.{Refusal};
ghost use Rattle.rls_text.specs.ParseResults.{IsParseResult, IsSpelled, first_limit, limited};
ghost use Rattle.rls_text.specs.Grammar as g;
ghost use Rattle.rls_text.specs.{Grammar.Spells, Heights.height, Printing.IsWritten, Words.words_of, declared.token.Token.Token};
ghost use Rattle.rls_printing.specs.ExprForms as expr_form;
ghost use Rattle.rls_printing.specs.OutputTokens.{OutputToken, tokens_of};
ghost use Rattle.rls_printing.specs.StatementForms as form;
ghost use Rattle.rls_printing.specs.Outputs.{are_fit, output_tokens_text};

/// The words of a text of printed words are their tokens.
#[tactic(auto, using(crate::proofs::Reading::words_told))]
pub fn printed_words()
    ensures { (bytes : List ℕ) (output_tokens : List OutputToken) (tokens : List Token) → chars bytes ≡ output_tokens_text true output_tokens → are_fit output_tokens ≡ true → tokens_of output_tokens ≡ Some tokens → words_of bytes ≡ tokens }
{}

/// What the grammar writes for an expression are the tokens of the words of which it is printed.
#[tactic(auto, using(crate::proofs::Writing::expr_tells))]
pub fn written_exprs()
    ensures { (depth : ℕ) (x : Term) (tokens : List Token) → (g.expr depth).rule.prints.writes x ≡ Some tokens → tokens_of (expr_form.expr x) ≡ Some tokens }
{}

/// What the grammar writes for a statement are the tokens of the words of which it is printed.
pub fn written_statements()
    ensures { (x : Statement) (tokens : List Token) → IsWritten tokens x → tokens_of (form.statement x) ≡ Some tokens }
{}

/// For an expression that some text spells words are written, within as many parentheses as it is high.
pub fn spelled_exprs()
    ensures { (depth : ℕ) (x : Term) (tokens : List Token) → (g.expr depth).rule.spells tokens x → (words : List Token) × ((g.expr (height x)).rule.prints.writes x ≡ Some words) }
{}

/// For each statement that some text spells words are written.
pub fn spelled_statements()
    ensures { (tokens : List Token) (x : Statement) → Spells tokens x → (words : List Token) × IsWritten words x }
{}

/// The words that are printed for a statement that some text spells pass no limit on words, where the statement is
/// within the limits on statements.
pub fn printed_within()
    ensures { (x : Statement) (original tokens : List Token) → Spells original x → limited x ≡ Ok x → are_fit (form.statement x) ≡ true → tokens_of (form.statement x) ≡ Some tokens → first_limit tokens ≡ None }
{}

/// Where a text within the limits spells a statement, the words that are printed for it are answered with it.
pub fn read_again()
    ensures { (x : Statement) (original words : List Token) (answer : Result Statement Refusal) → IsSpelled original x → are_fit (form.statement x) ≡ true → tokens_of (form.statement x) ≡ Some words → IsParseResult words answer → answer ≡ Ok x }
{}
