//! Grants in their places: put into a list, and taken from it.

ghost use Rattle.std.specs.Prelude.{◌≡◌, IfOk, OnOk};
ghost use Rattle.rls_verdict.specs.rls_catalog.specs.GrantOptions.{not_grantable};
ghost use Rattle.rls_grant.specs.Granting as spec;
ghost use Rattle.rls_grant.specs.Granting.{with_grants};
ghost use Rattle.rls_grant.specs.Placing as placed;

use rls_value::Items;
use rls_verdict::rls_catalog::shared_map::HasKey;
use rls_verdict::rls_catalog::{Grant, Grants};
use std::alloc::{AllocError, Global};

/// The grants with new ones put into their places; where one is there already, its grant option stays, and that of the new one is
/// added.
pub fn put_grants(alloc: Global, grants: Grants, new: Items<Grant>) -> Result<Grants, AllocError>
    ensures { IfOk result (λ all. all ≡ with_grants grants new) }
{
    let mut grants = grants;
    for grant in new.into_vec() {
        grants = put_grant(alloc, grants, grant)?;
    }
    Ok(grants)
}

#[tactic(auto, using(crate::proofs::GrantPlaces::grant_put))]
fn put_grant(alloc: Global, grants: Grants, grant: Grant) -> Result<Grants, AllocError>
    ensures { IfOk result (λ all. all ≡ spec.with_grant grants grant) }
{
    let mut grants = grants;
    let grant = with_option_there(grants.in_order(), grant)?;
    grants.put(alloc, grant)?;
    Ok(grants)
}

/// The same grant where it is there, with the grant option of this one too, or else this one.
fn with_option_there(grants: &Grants, grant: Grant) -> Result<Grant, AllocError>
    ensures { IfOk result (λ both. both ≡ placed.with_option_there grants.now grant) }
{
    let key = grant.key()?;
    match grants.get(&key) {
        Some(other) => with_option(other, grant.option),
        None => Ok(grant),
    }
}

/// A copy of the grant, with that grant option too.
fn with_option(grant: &Grant, option: bool) -> Result<Grant, AllocError>
    ensures { IfOk result (λ both. both ≡ placed.optioned option grant.now) }
{
    let mut both = grant.copy()?;
    both.option = both.option || option;
    Ok(both)
}

/// Takes the grant away.
pub(crate) fn remove_grant(
    alloc: Global,
    grants: &mut Grants,
    grant: &Grant,
) -> Result<(), AllocError>
    ensures { OnOk result (grants.new ≡ placed.without_grant grants.old grant.now) }
{
    let key = grant.key()?;
    grants.remove(alloc, &key)
}

/// Puts the grant without its grant option in its place.
pub(crate) fn revoke_option(
    alloc: Global,
    grants: &mut Grants,
    grant: &Grant,
) -> Result<(), AllocError>
    ensures { OnOk result (grants.new ≡ placed.with_put grants.old (not_grantable grant.now)) }
{
    let mut rest = grant.copy()?;
    rest.option = false;
    grants.put(alloc, rest)
}
