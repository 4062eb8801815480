//! Why a role is exempt, and which policies of a table are asked about a row.

ghost use Rattle.std.specs.Prelude.{◌≡◌};
ghost use Rattle.std.specs.List.{list_any};
ghost use Rattle.rls_meaning.specs.rls_guard.specs.rls_catalog.specs.Privileges.{includes};
ghost use Rattle.rls_meaning.specs.rls_guard.specs.rls_catalog.specs.Verdict as verdict;
ghost use Rattle.rls_meaning.specs.rls_guard.specs.RolePrivileges.{has_owner};
ghost use Rattle.rls_explain.specs.Details as spec;

use crate::details::Exemption;
use rls_expr::{Policy, TableDef};
use rls_meaning::rls_guard::RolePrivileges;
use rls_meaning::rls_guard::rls_catalog::Side;
use rls_meaning::rls_guard::rls_policy::expression_of;
use rls_value::{Kind, Name, PolicyKind};

/// The first reason for which row security doesn't apply to the role on the table; none where it does.
pub fn exemption_of(
    role_privileges: &RolePrivileges,
    role: &Name,
    table: &TableDef,
) -> Option<Exemption>
    ensures { result ≡ spec.exemption_by role_privileges.now.attributes (has_owner role_privileges.now table.now) role.now table.now }
{
    if !table.enabled {
        return Some(Exemption::Disabled);
    }
    if role_privileges.attributes.superuser {
        return Some(Exemption::Superuser);
    }
    if role_privileges.attributes.bypass_rls {
        return Some(Exemption::BypassRls);
    }
    if role_privileges.effective_roles.has(&table.owner) && !table.forced {
        return Some(of_owner(role, table));
    }
    None
}

fn of_owner(role: &Name, table: &TableDef) -> Exemption
    ensures { result ≡ spec.of_owner role.now table.now }
{
    if role.is(&table.owner) {
        Exemption::Owner
    } else {
        Exemption::OwnersPrivileges
    }
}

/// Whether the policy is to the role.
pub fn is_to(role_privileges: &RolePrivileges, policy: &Policy) -> bool
    ensures { result ≡ list_any (includes role_privileges.now.effective_roles.superuser role_privileges.now.effective_roles.names) policy.now.to }
{
    for grantee in policy.to.as_slice() {
        if role_privileges.effective_roles.includes(grantee) {
            return true;
        }
    }
    false
}

/// Whether the policy is for that type of command.
pub fn is_for_kind(policy: PolicyKind, kind: Kind) -> bool
    ensures { result ≡ verdict.is_for_kind policy kind }
{
    match policy {
        PolicyKind::All => true,
        PolicyKind::Only(own) => is_same_kind(own, kind),
    }
}

fn is_same_kind(left: Kind, right: Kind) -> bool
    ensures { result ≡ verdict.is_same_kind left right }
{
    match left {
        Kind::Select => matches!(right, Kind::Select),
        Kind::Insert => matches!(right, Kind::Insert),
        Kind::Update => matches!(right, Kind::Update),
        Kind::Delete => matches!(right, Kind::Delete),
    }
}

/// Whether the policy is asked for WITH CHECK, and not for USING.
pub fn is_with_check(policy: &Policy, kind: Kind, side: Side) -> bool
    ensures { result ≡ spec.is_with_check policy.now kind side }
{
    is_judged_new(kind, side)
        && (policy.check.is_some() || expression_of(policy, kind, side).is_none())
}

fn is_judged_new(kind: Kind, side: Side) -> bool
    ensures { result ≡ spec.is_judged_new kind side }
{
    match (kind, side) {
        (Kind::Select, _) | (Kind::Delete, _) | (Kind::Update, Side::Old) => false,
        (Kind::Insert, _) | (Kind::Update, Side::New) => true,
    }
}
