//! What is known of the grants on a table: that each grantor holds the grant option for what it granted.

ghost use Rattle.std.specs.Prelude.{◌≡◌, true, IfOk};
ghost use Rattle.std.specs.List.{AllByRecursion};
ghost use Rattle.rls_value.specs.Names.{one_of};
ghost use Rattle.rls_verdict.specs.rls_catalog.specs.{GrantOptions.GrantorsHold, GrantOptions.HaveGrantors, GrantOptions.MayStay};
ghost use Rattle.rls_grant.specs.{Granting.with_grants, Holders.holders_of};

use crate::granted::has_option;
use crate::optioning::options;
use crate::revoking::has_loose;
use rls_value::{Name, Privilege};
use rls_verdict::rls_catalog::{Grant, Grants};
use std::alloc::{AllocError, Global};

/// Whether the role holds the option, where each grantor does: it is the owner, or some grant gives it the option.
#[tactic(auto, using(crate::proofs::KnownLemmas::owner_holds, crate::proofs::KnownLemmas::held_by_grant))]
pub(crate) fn holds_known(
    owner: &Name,
    grants: &Grants,
    privilege: Privilege,
    role: &Name,
) -> Result<bool, AllocError>
    requires { HaveGrantors owner.now grants.now }
    ensures { IfOk result (λ holds. holds ≡ one_of (holders_of owner.now grants.now privilege) role.now) }
{
    if role.is(owner) {
        return Ok(true);
    }
    has_option(grants, privilege, role)
}

/// Whether each grantor is known to hold the option, and those of the new grants do too.
#[tactic(auto, using(crate::proofs::KnownLemmas::all_grown))]
pub(crate) fn are_known(owner: &Name, grants: &Grants, new: &[Grant]) -> Result<bool, AllocError>
    ensures { IfOk result (λ known. known ≡ true → HaveGrantors owner.now (with_grants grants.now new.now)) }
{
    if grants.have_grantors(owner) {
        hold_all(owner, grants, new)
    } else {
        Ok(false)
    }
}

fn hold_all(owner: &Name, grants: &Grants, mut new: &[Grant]) -> Result<bool, AllocError>
    requires { HaveGrantors owner.now grants.now }
    ensures { IfOk result (λ all. all ≡ true → GrantorsHold owner.now grants.now new.entry.now) }
{
    while let [grant, rest @ ..] = new {
        if !holds_known(owner, grants, grant.privilege, &grant.grantor)? {
            return Ok(false);
        }
        new = rest;
    }
    Ok(true)
}

/// The grants, of which it is known from now on.
pub(crate) fn known(owner: &Name, grants: Grants) -> Result<Grants, AllocError>
    requires { HaveGrantors owner.now grants }
    ensures { IfOk result (λ same. same ≡ grants) }
{
    match owner.copy() {
        Ok(owner) => Ok(grants.with_grantors(owner)),
        Err(refused) => {
            drop(grants);
            Err(refused)
        }
    }
}

/// The grants, of which it is known from now on if it is so.
pub(crate) fn looked_over(alloc: Global, owner: &Name, grants: Grants) -> Result<Grants, AllocError>
    ensures { IfOk result (λ same. same ≡ grants) }
{
    match have_grantors(alloc, owner, &grants) {
        Ok(true) => known(owner, grants),
        Ok(false) => Ok(grants),
        Err(refused) => {
            drop(grants);
            Err(refused)
        }
    }
}

/// Whether each grantor holds the option.
#[tactic(auto, using(crate::proofs::KnownLemmas::four_hold))]
fn have_grantors(alloc: Global, owner: &Name, grants: &Grants) -> Result<bool, AllocError>
    ensures { IfOk result (λ all. all ≡ true → HaveGrantors owner.now grants.now) }
{
    if !all_stay(alloc, owner, grants, Privilege::Select)? {
        return Ok(false);
    }
    if !all_stay(alloc, owner, grants, Privilege::Insert)? {
        return Ok(false);
    }
    if !all_stay(alloc, owner, grants, Privilege::Update)? {
        return Ok(false);
    }
    all_stay(alloc, owner, grants, Privilege::Delete)
}

/// Whether each grantor of the privilege holds the option.
fn all_stay(
    alloc: Global,
    owner: &Name,
    grants: &Grants,
    privilege: Privilege,
) -> Result<bool, AllocError>
    ensures { IfOk result (λ all. all ≡ true → AllByRecursion (MayStay owner.now grants.now privilege) grants.now) }
{
    let holders = options(alloc, owner, grants, privilege)?;
    let all = !has_loose(privilege, &holders, grants);
    drop(holders);
    Ok(all)
}
