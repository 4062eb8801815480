//! Laws of the search, each a clause of a function that does nothing.

ghost use Rattle.std.specs.Prelude.{◌≡◌, ◌↔◌, ◌<◌, ℕ, List, Some, Ok, Err, length};
ghost use Rattle.rls_value.specs.declared.refusal.Refusal.TheVariants.{Recursion};
ghost use Rattle.rls_catalog.specs.Membership.{Within};
ghost use Rattle.rls_recursion.specs.declared.dependency.PolicyDependency.{PolicyDependency};
ghost use Rattle.rls_recursion.specs.declared.searching.Reached.{Reached};
ghost use Rattle.rls_recursion.specs.Searching.{ListsEach, InOrder, first_closing, ordered_by};

/// The search refuses just where a chain of policies closes, and names the table that the first one closes on, whatever
/// length of chains is walked, if it is more than there are dependencies. Else each table that it began with is there, each
/// once, and those that the policies of a table lead to stand behind it.
#[tactic(auto, using(crate::proofs::SearchLaws::recursion_means, crate::proofs::SearchLaws::ordered_means, crate::proofs::SearchLaws::own_means, crate::proofs::SearchLaws::queries_means, crate::proofs::SearchLaws::tables_mean))]
pub fn search_means()
    ensures recursion { (dependencies : List PolicyDependency) (target : List ℕ) (own queries : List (List ℕ)) (t : List ℕ) (n : ℕ) → length dependencies < n → (ordered_by dependencies target own queries ≡ Err (Recursion t)) ↔ (first_closing n dependencies target own queries ≡ Some t) }
    ensures ordered { (dependencies : List PolicyDependency) (target : List ℕ) (own queries : List (List ℕ)) (reached : Reached) → ordered_by dependencies target own queries ≡ Ok reached → InOrder dependencies reached.secured }
    ensures own { (dependencies : List PolicyDependency) (target : List ℕ) (own queries : List (List ℕ)) (reached : Reached) → ordered_by dependencies target own queries ≡ Ok reached → Within own reached.secured }
    ensures queries { (dependencies : List PolicyDependency) (target : List ℕ) (own queries : List (List ℕ)) (reached : Reached) → ordered_by dependencies target own queries ≡ Ok reached → Within queries reached.secured }
    ensures tables { (dependencies : List PolicyDependency) (target : List ℕ) (own queries : List (List ℕ)) (reached : Reached) → ordered_by dependencies target own queries ≡ Ok reached → ListsEach queries reached }
{}
