//! The policies of a table with one more, without one, with one exchanged.

ghost use Rattle.std.specs.Prelude.{◌≡◌, false, IfOk};
ghost use Rattle.std.specs.Option.{option_copied};
ghost use Rattle.std.specs.List.{find};
ghost use Rattle.rls_catalog.specs.PolicyLists as spec;
ghost use Rattle.rls_catalog.specs.PolicyLists.{InNameOrder, has_policy, is_named};

use crate::lists::Policies;
use rls_expr::Policy;
use rls_expr::rls_value::Name;
use shared_map::Share;
use std::alloc::{AllocError, Global};

/// The policy of that name, if there is one.
pub fn find_policy<'p>(policies: &'p Policies, name: &Name) -> Option<&'p Policy>
    ensures found { option_copied result ≡ find (is_named name.now) policies.now }
    ensures ordered { InNameOrder policies.now }
{
    match policies.get(name) {
        Some(policy) => Some(policy.get()),
        None => None,
    }
}

/// With one more, whose name is new, in its place.
#[tactic(auto, using(crate::proofs::PolicyListLaws::put_new))]
pub fn with_policy(
    alloc: Global,
    policies: &Policies,
    policy: Policy,
) -> Result<Policies, AllocError>
    requires new { has_policy policies.now policy.name ≡ false }
    ensures { IfOk result (λ all. all ≡ spec.with_policy policies.now policy) }
{
    with_one(alloc, policies, policy)
}

/// With this policy where that of its name stood, if there is one.
#[tactic(auto, using(crate::proofs::PolicyListLaws::put_nowhere))]
pub fn with_replaced(
    alloc: Global,
    policies: &Policies,
    policy: Policy,
) -> Result<Policies, AllocError>
    ensures { IfOk result (λ all. all ≡ spec.with_replaced policies.now policy) }
{
    match find_policy(policies, &policy.name) {
        Some(_) => with_one(alloc, policies, policy),
        None => {
            drop(policy);
            policies.copy()
        }
    }
}

/// Without the policy of that name, if there is one.
pub fn without_policy(
    alloc: Global,
    policies: &Policies,
    name: &Name,
) -> Result<Policies, AllocError>
    ensures { IfOk result (λ all. all ≡ spec.without_policy policies.now name.now) }
{
    let mut left = policies.in_order().copy()?;
    left.remove(alloc, name)?;
    Ok(left)
}

/// With the policy in its place, or in place of the one of its name.
fn with_one(alloc: Global, policies: &Policies, policy: Policy) -> Result<Policies, AllocError>
    ensures { IfOk result (λ all. all ≡ spec.with_one policies.now policy) }
{
    let policy = Share::new(alloc, policy)?;
    let mut all = match policies.copy() {
        Ok(all) => all,
        Err(refused) => {
            drop(policy);
            return Err(refused);
        }
    };
    all.put(alloc, policy)?;
    Ok(all)
}
