//! Laws of the definitions, each a clause of a function that does nothing.

ghost use Rattle.std.specs.Prelude.{◌≡◌, List, map};
ghost use Rattle.rls_expr.specs.Naming.{tables_of};
ghost use Rattle.rls_expr.specs.Resolving.{Names, resolved};
ghost use Rattle.rls_expr.specs.Scopes.{InScope};
ghost use Rattle.rls_expr.specs.Selecting.{StarsAreBare, selected_of};
ghost use Rattle.rls_expr.specs.Terms.{Term};

/// The tables of an expression's subqueries with their columns are its tables by name. Where beside no `*` stand items, as
/// is so of all that is parsed, those of the resolved expression are the tables that it names as it is written.
#[tactic(auto, using(crate::proofs::SelectingLaws::selected_tables, crate::proofs::SelectingLaws::selected_resolved))]
pub fn selected_tables_are_named()
    ensures same { (found : List InScope) (term : Term) → map (λ one. one.table) (selected_of found term) ≡ tables_of term }
    ensures written { (found : List InScope) (term : Term) (names : Names) → StarsAreBare term → map (λ one. one.table) (selected_of found (resolved term names)) ≡ tables_of term }
{}
