//! What the test at a commit finds.

ghost use Rattle.std.specs.Prelude.{◌≡◌, ◌↔◌, ℕ, suc, true, false};
ghost use Rattle.rls_history.specs.History.{History};
ghost use Rattle.rls_history.specs.Structures.{IsInStructure, NoStructureBelow, is_dangerous, Finds};
ghost use Rattle.rls_history.specs.Orders.{IsHistory};

/// The test at a commit is true exactly where the transaction takes part in a dangerous structure, as any of the three; so
/// where none stood among the earlier ones, it is false exactly where none stands with this one. A transaction that changed
/// nothing is the first of its structures, and one that read nothing either is in none.
pub fn structures_are_found()
    ensures exactly { (h : History) (n : ℕ) → (is_dangerous h n ≡ true) ↔ IsInStructure h n }
    ensures safe { (h : History) (n : ℕ) → NoStructureBelow h n → (is_dangerous h n ≡ false) ↔ NoStructureBelow h (suc n) }
    ensures finds { Finds is_dangerous }
    ensures reader { (h : History) (n : ℕ) → IsHistory h → h.has_written n ≡ false → (it : IsInStructure h n) → it.first ≡ n }
    ensures idle { (h : History) (n : ℕ) → IsHistory h → h.has_written n ≡ false → ((j : ℕ) → h.has_read n j ≡ false) → IsInStructure h n → ⊥ }
{}
