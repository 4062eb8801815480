//! Laws of the definitions, each a clause of a function that does nothing.

ghost use Rattle.std.specs.Prelude.{◌≡◌};
ghost use Rattle.rls_value.specs.declared.verb.Kind.{Kind};
ghost use Rattle.rls_guard.specs.rls_catalog.specs.rls_expr.specs.declared.policy.Policy.{Policy};
ghost use Rattle.rls_recursion.specs.rls_catalog.specs.declared.verdict.Side.{Side};
ghost use Rattle.rls_recursion.specs.rls_catalog.specs.Verdict.{expression_of};
ghost use Rattle.rls_expansion.specs.Used.{takes_using, takes_check, expression_by};

/// The expression that a policy is asked for is USING or WITH CHECK, whichever it takes, and else none.
#[tactic(auto, using(crate::proofs::Taking::taken))]
pub fn expression_taken()
    ensures { (policy : Policy) (kind : Kind) (which : Side) → expression_of policy kind which ≡ expression_by policy (takes_using policy kind which) (takes_check policy kind which) }
{}
