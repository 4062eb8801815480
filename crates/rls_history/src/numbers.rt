//! A small database, of which the laws hold.

ghost use Rattle.std.specs.Prelude.{◌≡◌, ◌∷◌, [], true, false, Some, None};
ghost use Rattle.rls_history.specs.Explained.{entry_at, history_by};
ghost use Rattle.rls_history.specs.Events.{after};
ghost use Rattle.rls_history.specs.Lawful.{IsLawful, IsSetUp};
ghost use Rattle.rls_history.specs.Numbers.{states, statements, conditions, setup, raced, skewed, reported, written_twice, who_committed};
ghost use Rattle.rls_history.specs.Orders.{is_order};
ghost use Rattle.rls_history.specs.Runs.{HasOrder, EachExplains};

use crate::database::Database;
use crate::runs::committed_are_serial;

/// Numbers under names.
pub struct Numbers;

impl Database for Numbers {
    ghost states = { states };

    ghost statements = { statements };

    ghost conditions = { conditions };
}

/// What is asked of a database holds of this one, so after all events its committed transactions have an order, and each such
/// order explains them. The worked histories, run on it: the reader of a race commits after the writer with the numbers of its
/// snapshot, and stands before it; the second of a write skew is refused at its commit, and so is the late receipt; the second
/// that writes one name is over at once.
pub fn numbers_are_serial()
    ensures lawful { IsLawful conditions }
    ensures set_up { IsSetUp conditions setup }
    ensures order { (events : _) → HasOrder setup (after setup 1 events) }
    ensures explains { (events : _) → EachExplains setup (after setup 1 events) }
    ensures race { who_committed raced ≡ 2 ∷ 1 ∷ [] }
    ensures race_replies { (entry_at statements (after setup 1 raced).committed 1).replies ≡ 0 ∷ 0 ∷ [] }
    ensures race_order { is_order (history_by statements (after setup 1 raced).committed) (1 ∷ 0 ∷ []) ≡ true }
    ensures race_by_commit { is_order (history_by statements (after setup 1 raced).committed) (0 ∷ 1 ∷ []) ≡ false }
    ensures skew { who_committed skewed ≡ 1 ∷ [] }
    ensures report { who_committed reported ≡ 2 ∷ 3 ∷ [] }
    ensures taken { (after setup 1 written_twice).running 2 ≡ None }
{
    committed_are_serial::<Numbers>();
}
