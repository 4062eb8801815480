//! Laws of the definitions, each a clause of a function that does nothing.

ghost use Rattle.std.specs.Prelude.{◌≡◌, ◌≤◌, ℕ, List, [], Bool, true, false, Some, IfOk, length};
ghost use Rattle.std.specs.Option.{is_some};
ghost use Rattle.rls_evaluation.specs.rls_catalog.specs.rls_expr.specs.rls_value.specs.{declared.verb.Kind.Kind, declared.verb.Privilege.Privilege};
ghost use Rattle.rls_evaluation.specs.rls_catalog.specs.rls_expr.specs.{declared.expr.FromItem.FromItem, declared.expr.Selects.Selects, Naming.Step, Scopes.InScope, declared.table.TableDef.TableDef};
ghost use Rattle.rls_evaluation.specs.rls_catalog.specs.rls_expr.specs.Resolving.{Names, definition_of, resolved, query_resolved};
ghost use Rattle.rls_evaluation.specs.rls_catalog.specs.rls_expr.specs.Terms.{Query, Term, Terms, Scalar, Select};
ghost use Rattle.rls_evaluation.specs.rls_catalog.specs.{declared.verdict.Side.Side, Privileges.missing, SoundRows.RowsAreSound, Membership.has_privileges_of};
ghost use Rattle.rls_evaluation.specs.rls_catalog.specs.State.{State, grants_of, policies_of, table_of};
ghost use Rattle.rls_evaluation.specs.rls_catalog.specs.Verdict.{exempts, is_exempt, chosen, applying_of};
ghost use Rattle.rls_evaluation.specs.{declared.relation.SecuredRelation.SecuredRelation, Environments.Environment, Eval.ranged_over, Keys.key_of, Plain.IsPlainly, Showing.shows, Tableless.value_in};
ghost use Rattle.rls_grant.specs.Missing.{missing_in};
ghost use Rattle.rls_guard.specs.{Checks.is_unsupported_item, Naming.AreTablesOf, Naming.named, Support.is_unsupported, Support.pins_key};
ghost use Rattle.rls_guard.specs.RolePrivileges.{role_privileges_in, has_owner};

/// What a role's privileges tell is what the rules over a state say: whose privileges it has, what it lacks
/// of a privilege, where it is exempt, which policies apply.
#[tactic(auto, using(crate::proofs::RolePrivilegesLaws::owner_means, crate::proofs::RolePrivilegesLaws::missing_means, crate::proofs::RolePrivilegesLaws::exempt_means, crate::proofs::RolePrivilegesLaws::applying_means))]
pub fn role_privileges_means()
    ensures owner { (s : State) (role : List ℕ) (table : TableDef) → has_owner (role_privileges_in s role) table ≡ has_privileges_of s role table.owner }
    ensures missing { (s : State) (role : List ℕ) (privilege : Privilege) (table : List ℕ) (columns : List (List ℕ)) → missing_in (role_privileges_in s role).effective_roles.superuser (role_privileges_in s role).effective_roles.names (grants_of s table) privilege table columns ≡ missing s role privilege table columns }
    ensures exempt { (s : State) (role : List ℕ) (table : TableDef) → exempts (role_privileges_in s role).attributes table (has_owner (role_privileges_in s role) table) ≡ is_exempt s role table }
    ensures applying { (s : State) (role table : List ℕ) (kind : Kind) (which : Side) → chosen (role_privileges_in s role).effective_roles.superuser (role_privileges_in s role).effective_roles.names kind which (policies_of s table) ≡ applying_of s role table kind which }
{}

/// An item that is listed, where it is supported, has the value that it is answered with whatever tables show, in every state,
/// and nothing is read for it.
#[tactic(auto, using(crate::proofs::ItemLaws::item_means))]
pub fn item_means()
    ensures { (item : Term) (env : Environment) → is_unsupported_item item ≡ false → IsPlainly item env (value_in item env) }
{}

/// A subquery is evaluated on the rows with one key exactly where its condition pins the key of its table by the rule of what
/// is supported, whatever rows are in scope. So each scalar subquery that is supported is; and where the rows of the state
/// are sound, there is one such row at most.
#[tactic(auto, using(crate::proofs::PinnedLaws::pinned_means, crate::proofs::PinnedLaws::scalar_means))]
pub fn pinned_key_means()
    ensures pinned { (columns : List ℕ) (condition : Terms) (env : Environment) → is_some (key_of columns condition env) ≡ pins_key columns condition }
    ensures scalar { (sums : Bool) (from : FromItem) (key : List ℕ) (selects : Selects) (items condition : Terms) (env : Environment) → is_unsupported sums (Scalar (Select from key selects items condition)) ≡ false → is_some (key_of key condition env) ≡ true }
    ensures one_row { (s : State) (relations : List SecuredRelation) (user : List ℕ) (env : Environment) (from : FromItem) (table : TableDef) (selects : Selects) (items condition : Terms) → RowsAreSound s → table_of s from.table ≡ Some table → pins_key table.key condition ≡ true → IfOk ((ranged_over (Select from table.key selects items condition) (shows relations user) env).in_state s).gives (λ rows. length rows ≤ 1) }
{}

/// The tables that a statement's subqueries name are found as the state has them. A scalar subquery that was resolved over
/// such tables, and is supported, ranges over one row at most, whatever rows are in scope and whatever is shown of its
/// table, where the rows of the state are sound.
pub fn resolved_subquery_means()
    ensures known { (s : State) (steps : List Step) (tables : List InScope) → IfOk ((named steps tables []).in_state s).gives (AreTablesOf s) }
    ensures one_row { (s : State) (names : Names) (query : Query) (table : TableDef) (sums : Bool) (relations : List SecuredRelation) (user : List ℕ) (env : Environment) → RowsAreSound s → AreTablesOf s names.known → definition_of query names ≡ Some table → is_unsupported sums (resolved (Scalar query) names) ≡ false → IfOk ((ranged_over (query_resolved query names) (shows relations user) env).in_state s).gives (λ rows. length rows ≤ 1) }
{}
