//! Laws of the definitions, each a clause of a function that does nothing.

ghost use Rattle.std.specs.Prelude.{◌≡◌, ℕ, List, Option, Ok, true};
ghost use Rattle.std.specs.List.{AllByRecursion};
ghost use Rattle.rls_expr.specs.declared.table.TableDef.{TableDef};
ghost use Rattle.rls_expr.specs.Terms.{Term, maybe_term};
ghost use Rattle.rls_guard.specs.rls_catalog.specs.State.{State, rows_of};
ghost use Rattle.rls_guard.specs.rls_catalog.specs.declared.stored.Stored.{Stored};
ghost use Rattle.rls_evaluation.specs.Environments.{over};
ghost use Rattle.rls_evaluation.specs.Eval.{Shows, meets};
ghost use Rattle.rls_judging.specs.ScannedRows.{scanned_rows};
ghost use Rattle.rls_dml.specs.Keys.{CarryKeys};
ghost use Rattle.rls_dml.specs.Numbers.{has_number};

/// Where each row of the table is stored with its own key, each row of the table that WHERE holds of is among those that a
/// statement looks at.
pub fn pinned_key_means_rows()
    ensures { (s : State) (sees : Shows) (user name : List ℕ) (table : TableDef) (condition : Option Term) (rows : List Stored) → CarryKeys table.key (rows_of s name) → ((scanned_rows user name table condition).in_state s).gives ≡ Ok rows → AllByRecursion (λ stored. ((meets (maybe_term condition) sees (over user stored.row)).in_state s).gives ≡ Ok true → has_number rows stored.id ≡ true) (rows_of s name) }
{}
