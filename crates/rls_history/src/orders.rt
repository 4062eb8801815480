//! How an order that keeps `before` and `rw` is made.

ghost use Rattle.std.specs.Prelude.{◌≡◌, ◌↔◌, ◌++◌, ◌∷◌, [], ℕ, List, Bool, suc, true};
ghost use Rattle.rls_history.specs.History.{History};
ghost use Rattle.rls_history.specs.Structures.{NoStructureBelow};
ghost use Rattle.rls_history.specs.Orders.{IsHistory, IsNext, StandInTurn, IsOrder, IsInOrder, IsFirstLeft, IsReaderLeft, NoReaderLeft, placed_by, none_placed, with_placed, left_below, is_order};

/// The next in turn, where no dangerous structure stands: of those not yet placed, the first in the order of commits; if one of
/// them read what that one wrote, this reader; and if one read what the reader wrote, that one. Each is placed after all that
/// have to stand before it, one fewer is left, and where none is left the list is an order. So there is one.
pub fn orders_are_made()
    ensures first { (h : History) (placed : ℕ → Bool) (c : ℕ) → IsHistory h → NoStructureBelow h h.count → IsFirstLeft h placed c → NoReaderLeft h placed c → IsNext h placed c }
    ensures second { (h : History) (placed : ℕ → Bool) (c b : ℕ) → IsHistory h → NoStructureBelow h h.count → IsFirstLeft h placed c → IsReaderLeft h placed c b → NoReaderLeft h placed b → IsNext h placed b }
    ensures third { (h : History) (placed : ℕ → Bool) (c b a : ℕ) → IsHistory h → NoStructureBelow h h.count → IsFirstLeft h placed c → IsReaderLeft h placed c b → IsReaderLeft h placed b a → IsNext h placed a }
    ensures grows { (h : History) (order : List ℕ) (t : ℕ) → StandInTurn h none_placed order → IsNext h (placed_by none_placed order) t → StandInTurn h none_placed (order ++ t ∷ []) }
    ensures placed { (order : List ℕ) (t : ℕ) → placed_by none_placed (order ++ t ∷ []) ≡ with_placed (placed_by none_placed order) t }
    ensures fewer { (h : History) (placed : ℕ → Bool) (t : ℕ) → IsNext h placed t → suc (left_below (with_placed placed t) h.count) ≡ left_below placed h.count }
    ensures exists { (h : History) → IsHistory h → NoStructureBelow h h.count → (order : List ℕ) × IsOrder h order }
{}

/// What an order is: each committed transaction stands in it at a place of its own, and what has to stand before another does.
/// Whether a list is one can be computed.
pub fn orders_mean()
    ensures means { (h : History) (order : List ℕ) → IsOrder h order ↔ IsInOrder h order }
    ensures tested { (h : History) (order : List ℕ) → (is_order h order ≡ true) ↔ IsOrder h order }
{}
