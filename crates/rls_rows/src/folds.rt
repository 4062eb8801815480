//! What the committed states are.

ghost use Rattle.std.specs.Prelude.{◌≡◌, ◌++◌, ◌∷◌, [], List};
ghost use Rattle.rls_catalog.specs.declared.change.Change.{Change};
ghost use Rattle.rls_catalog.specs.Changed.{opening, changed_all};
ghost use Rattle.rls_rows.specs.States.{newest_of, states_by};

/// The states of commits: the opening one alone, where there are none; and with one more commit, behind them the newest with its
/// changes on.
pub fn states_are_folds()
    ensures none { states_by [] ≡ opening ∷ [] }
    ensures more { (deltas : List (List Change)) (changes : List Change) → states_by (deltas ++ changes ∷ []) ≡ states_by deltas ++ changed_all (newest_of (states_by deltas)) changes ∷ [] }
{}
