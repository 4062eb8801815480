//! What holds after every list of events.

ghost use Rattle.std.specs.Prelude.{◌≡◌, ◌↔◌, ℕ, List, true};
ghost use Rattle.rls_history.specs.Worlds.{World, IsTaken, is_taken};
ghost use Rattle.rls_history.specs.Lawful.{IsLawful};
ghost use Rattle.rls_history.specs.Kept.{Holds, CanBeOrdered, AllAreNumbered};
ghost use Rattle.rls_history.specs.Runs.{AfterEvents, HasOrder, EachExplains, EachFindsSnapshots, OneMore, StatesStand, StatesGrow, ViewsGrow, EntriesAreKnown};

use crate::database::Database;

/// After every list of begins, statements, commits and rollbacks the committed transactions have an order that keeps `before`
/// and `rw`. Each such order explains them: run alone at its place, each gives exactly the replies and changes that were
/// recorded, and the end is the committed state; and there each finds, on all that it noted as read, what its snapshot had.
/// It holds for any notes that only widen what was read, and any test at commit that finds the dangerous structures.
pub fn committed_are_serial<D: Database>()
    requires { IsLawful D.conditions }
    ensures order { AfterEvents D.conditions HasOrder }
    ensures explains { AfterEvents D.conditions EachExplains }
    ensures snapshots { AfterEvents D.conditions EachFindsSnapshots }
{}

/// What else stays after every list of events: no structure stands among the committed transactions, concurrent ones write no
/// common object, each has recorded what its statements come to alone on its snapshot, and each committed state is sound; what
/// runs can go on. So an order can be made of the committed ones. Each committed transaction began as the one of its number, and no two have one number.
pub fn events_keep<D: Database>()
    requires { IsLawful D.conditions }
    ensures holds { AfterEvents D.conditions (Holds D.conditions) }
    ensures ordered { AfterEvents D.conditions CanBeOrdered }
    ensures numbers { AfterEvents D.conditions (AllAreNumbered D.conditions) }
{}

/// What is asked at a post is true exactly where a concurrent transaction wrote an object that the statement's changes write.
/// One event more is one step more; committed states stand for good, and a commit or a statement puts its changes on the last
/// one, or on the state that its transaction sees.
pub fn events_mean<D: Database>()
    ensures taken { (w : World D.statements) (txn snap : ℕ) (changes : List D.states.Change) → (is_taken w txn snap changes ≡ true) ↔ IsTaken w txn snap changes }
    ensures one_more { OneMore D.statements }
    ensures stand { StatesStand D.statements }
    ensures grow { StatesGrow D.statements }
    ensures views { ViewsGrow D.statements }
    ensures known { EntriesAreKnown D.statements }
{}
