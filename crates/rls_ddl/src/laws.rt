//! Laws of the definitions, each a clause of a function that does nothing.

ghost use Rattle.std.specs.Prelude.{◌≡◌, ℕ, List, true, false, Ok, slice_get};
ghost use Rattle.std.specs.List.{All};
ghost use Rattle.rls_expr.specs.declared.policy.Policy.{Policy};
ghost use Rattle.rls_guard.specs.rls_catalog.specs.PolicyLists.{InNameOrder, has_policy, with_policy, without_policy};
ghost use Rattle.rls_guard.specs.rls_catalog.specs.SoundRows.{takes_no_null};
ghost use Rattle.rls_statement.specs.declared.statement.AlterPolicy.{AlterPolicy};
ghost use Rattle.rls_statement.specs.declared.statement.CreateTable.{CreateTable};
ghost use Rattle.rls_ddl.specs.AlteringPolicies.{with_altered};
ghost use Rattle.rls_ddl.specs.CreatingTables.{key_or_undefined, table_with};

/// Where the policies of a table stand in byte order of their names, each name once, they do so after each statement.
#[tactic(auto, using(crate::proofs::PolicyOrderLaws::created_in_order, crate::proofs::PolicyOrderLaws::altered_in_order, crate::proofs::PolicyOrderLaws::dropped_in_order))]
pub fn policies_in_order()
    ensures created { (policies : List Policy) (policy : Policy) → has_policy policies policy.name ≡ false → InNameOrder policies → InNameOrder (with_policy policies policy) }
    ensures altered { (policies : List Policy) (alter : AlterPolicy) → InNameOrder policies → InNameOrder (with_altered alter policies) }
    ensures dropped { (policies : List Policy) (name : List ℕ) → InNameOrder policies → InNameOrder (without_policy policies name) }
{}

/// At each place of a new table's key there is a column, and it takes no null.
#[tactic(auto, using(crate::proofs::PrimaryKeyLaws::key_takes_no_null))]
pub fn key_takes_no_null()
    ensures { (owner : List ℕ) (create : CreateTable) (key : List ℕ) → key_or_undefined create ≡ Ok key → All (λ place. takes_no_null (slice_get (table_with owner create key).columns place) ≡ true) key }
{}
