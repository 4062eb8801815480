//! Whether a role holds a grant option, told by those that it has the option from.

ghost use Rattle.std.specs.Prelude.{◌≡◌, ◌++◌, IfOk, OnOk};
ghost use Rattle.std.specs.Option.{option_copied};
ghost use Rattle.rls_value.specs.Names.{one_of};
ghost use Rattle.rls_verdict.specs.rls_catalog.specs.{GrantOptions.without_options_of, Membership.fresh};
ghost use Rattle.rls_grant.specs.Considered as seen;
ghost use Rattle.rls_grant.specs.{Considered.considered, Holders.holders_of, Origins.grants_from, Origins.origin_in, Origins.origins, Origins.origins_first, Seen.IsSetOf};

use crate::granted::{has_option, is_to};
use crate::known::holds_known;
use crate::optioning::{add_unseen, holder_at};
use rls_value::{Name, Privilege};
use rls_verdict::rls_catalog::shared_map::Values;
use rls_verdict::rls_catalog::{Grant, GrantKey, Grants};
use rls_verdict::rls_expr::Grantee;
use std::alloc::{AllocError, Global};
use std::collections::BTreeSet;

/// Whether the role holds it by these grants. Nobody is followed back to the owner where each grantor is known to hold it.
#[tactic(auto, using(crate::proofs::ConsideredLaws::considered_all))]
pub(crate) fn holds_option(
    alloc: Global,
    owner: &Name,
    grants: &Grants,
    privilege: Privilege,
    role: &Name,
) -> Result<bool, AllocError>
    ensures { IfOk result (λ holds. holds ≡ one_of (holders_of owner.now grants.now privilege) role.now) }
{
    if grants.have_grantors(owner) {
        return holds_known(owner, grants, privilege, role);
    }
    let holds = is_traced(alloc, owner, grants, privilege, None, role)?;
    Ok(holds)
}

/// Whether the role would hold it without the grantee's own grant options.
#[tactic(auto, using(crate::proofs::ConsideredLaws::considered_without, crate::proofs::KnownLemmas::held_without))]
pub(crate) fn holds_option_without(
    alloc: Global,
    owner: &Name,
    grants: &Grants,
    privilege: Privilege,
    grantee: &Name,
    role: &Name,
) -> Result<bool, AllocError>
    ensures { IfOk result (λ holds. holds ≡ one_of (holders_of owner.now (without_options_of grantee.now grants.now) privilege) role.now) }
{
    if !has_option(grants, privilege, grantee)? {
        return holds_option(alloc, owner, grants, privilege, role);
    }
    let holds = is_traced(alloc, owner, grants, privilege, Some(grantee), role)?;
    Ok(holds)
}

/// The role holds it where a walk from it to those that it has the option from, and on from them, meets the owner. The options of
/// one role are left out.
fn is_traced(
    alloc: Global,
    owner: &Name,
    grants: &Grants,
    privilege: Privilege,
    without: Option<&Name>,
    role: &Name,
) -> Result<bool, AllocError>
    ensures { IfOk result (λ traced. traced ≡ one_of (holders_of owner.now (considered (option_copied without.entry) grants.now) privilege) role.now) }
{
    let _ordered = grants.in_order();
    let mut names = Vec::new(alloc);
    let mut seen = BTreeSet::new(alloc);
    add_unseen(&mut names, &mut seen, role)?;
    let mut next = 0;
    while let Some(name) = holder_at(&names, next) {
        if name.is(owner) {
            return Ok(true);
        }
        let name = name.copy()?;
        add_origins(&mut names, &mut seen, grants, privilege, without, &name)?;
        next += 1;
    }
    Ok(false)
}

/// Adds those that the role has the option from and that aren't there yet. No grants to others are looked at.
fn add_origins(
    names: &mut Vec<Name>,
    seen: &mut BTreeSet<Name>,
    grants: &Grants,
    privilege: Privilege,
    without: Option<&Name>,
    role: &Name,
) -> Result<(), AllocError>
    requires { IsSetOf seen.old names.old.items }
    ensures names { OnOk result (names.new.items ≡ names.old.items ++ fresh names.old.items (origins (option_copied without.entry) privilege role.now grants.now)) }
    ensures seen { OnOk result (IsSetOf seen.new names.new.items) }
{
    let grantee = Grantee::Role(role.copy()?);
    if is_left_out(without, &grantee) {
        return Ok(());
    }
    let added = add_from(names, seen, grants, privilege, &grantee);
    drop(grantee);
    added
}

fn add_from(
    names: &mut Vec<Name>,
    seen: &mut BTreeSet<Name>,
    grants: &Grants,
    privilege: Privilege,
    grantee: &Grantee,
) -> Result<(), AllocError>
    requires { IsSetOf seen.old names.old.items }
    ensures names { OnOk result (names.new.items ≡ names.old.items ++ fresh names.old.items (origins_first privilege grantee.now (grants_from privilege grantee.now grants.now))) }
    ensures seen { OnOk result (IsSetOf seen.new names.new.items) }
{
    let first = GrantKey::first(privilege, grantee)?;
    let left = grants.iter_from(&first);
    drop(first);
    add_first(names, seen, left, privilege, grantee)
}

/// Adds the grantors of the first grants that are of the privilege and to the grantee, where these have the grant option.
fn add_first(
    names: &mut Vec<Name>,
    seen: &mut BTreeSet<Name>,
    left: Values<'_, GrantKey, Grant>,
    privilege: Privilege,
    grantee: &Grantee,
) -> Result<(), AllocError>
    requires { IsSetOf seen.old names.old.items }
    ensures names { OnOk result (names.new.items ≡ names.old.items ++ fresh names.old.items (origins_first privilege grantee.now left.entry)) }
    ensures seen { OnOk result (IsSetOf seen.new names.new.items) }
{
    for grant in left {
        if !is_to(grant, privilege, grantee) {
            return Ok(());
        }
        add_origin(names, seen, grant)?;
    }
    Ok(())
}

fn add_origin(
    names: &mut Vec<Name>,
    seen: &mut BTreeSet<Name>,
    grant: &Grant,
) -> Result<(), AllocError>
    requires { IsSetOf seen.old names.old.items }
    ensures names { OnOk result (names.new.items ≡ names.old.items ++ fresh names.old.items (origin_in grant.now)) }
    ensures seen { OnOk result (IsSetOf seen.new names.new.items) }
{
    if grant.option {
        return add_unseen(names, seen, &grant.grantor);
    }
    Ok(())
}

/// Whether the grantee is the role that is left out, if one is.
fn is_left_out(without: Option<&Name>, grantee: &Grantee) -> bool
    ensures { result ≡ seen.is_left_out (option_copied without.entry) grantee.now }
{
    match (without, grantee) {
        (Some(name), Grantee::Role(role)) => role.is(name),
        (_, _) => false,
    }
}
