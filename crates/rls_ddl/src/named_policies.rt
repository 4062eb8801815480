//! The policy of a table that a statement names.

ghost use Rattle.std.specs.Prelude.{◌≡◌};
ghost use Rattle.rls_value.specs.Giving.{Gives, borrowed_now};
ghost use Rattle.rls_guard.specs.rls_catalog.specs.PolicyLists.{has_policy};
ghost use Rattle.rls_ddl.specs.NamedPolicies.{policy_or_undefined};

use rls_expr::Policy;
use rls_guard::rls_catalog::{Policies, find_policy};
use rls_value::{Name, NameKind, Refusal};

/// The policy of that name; undefined where there is none.
pub fn policy_named<'x>(policies: &'x Policies, name: &Name) -> Result<&'x Policy, Refusal>
    ensures { Gives (borrowed_now result) (policy_or_undefined policies.now name.now) }
{
    match find_policy(policies, name) {
        Some(policy) => Ok(policy),
        None => Err(Refusal::Undefined(NameKind::Policy, name.copy()?)),
    }
}

/// Whether a policy of that name is there.
#[tactic(auto, using(crate::proofs::FoundPolicies::found_there))]
pub fn is_there(policies: &Policies, name: &Name) -> bool
    ensures { result ≡ has_policy policies.now name.now }
{
    find_policy(policies, name).is_some()
}
