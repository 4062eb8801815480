//! What the test at a commit finds.

ghost use Rattle.std.specs.Prelude.{◌≡◌, ◌↔◌, ℕ, List, true, false};
ghost use Rattle.rls_value.specs.declared.refusal.Cause.{Cause};
ghost use Rattle.rls_history.specs.Structures.{IsInStructure, is_dangerous};
ghost use Rattle.rls_conflict.specs.Causes.{IsCauseOf, IsInNoStructure};
ghost use Rattle.rls_conflict.specs.Transactions.{Transaction, history_of};

/// The test at a commit is true exactly where the transaction takes part in a dangerous structure, as any of the three; else it
/// is in none. Of a structure a cause can be named, and each cause names a structure.
pub fn structures_are_found()
    ensures exactly { (transactions : List Transaction) (place : ℕ) → (is_dangerous (history_of transactions) place ≡ true) ↔ IsInStructure (history_of transactions) place }
    ensures none { (transactions : List Transaction) (place : ℕ) → is_dangerous (history_of transactions) place ≡ false → IsInNoStructure transactions place }
    ensures named { (transactions : List Transaction) (place : ℕ) → IsInStructure (history_of transactions) place → (cause : Cause) × IsCauseOf transactions place cause }
    ensures caused { (transactions : List Transaction) (place : ℕ) (cause : Cause) → IsCauseOf transactions place cause → IsInStructure (history_of transactions) place }
{
    rls_history::structures_are_found();
}
