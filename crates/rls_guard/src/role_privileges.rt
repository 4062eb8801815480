//! Who the current role is for a statement: its attributes, and whose privileges it has.

ghost use Rattle.std.specs.Prelude.{◌≡◌};
ghost use Rattle.rls_evaluation.specs.rls_catalog.specs.rls_expr.specs.rls_value.specs.Giving.{Gives};
ghost use Rattle.rls_evaluation.specs.rls_catalog.specs.Verdict.{exempts};
ghost use Rattle.rls_evaluation.specs.rls_source.specs.Answering.{Answers, Tells};
ghost use Rattle.rls_grant.specs.Missing.{missing_in};
ghost use Rattle.rls_guard.specs.RolePrivileges as spec;

use crate::permission_check::PermissionCheck;
use rls_evaluation::rls_catalog::rls_expr::TableDef;
use rls_evaluation::rls_catalog::rls_expr::rls_value::{Name, Refusal, Why};
use rls_evaluation::rls_catalog::{Grants, RoleDef};
use rls_evaluation::rls_source::Asker;
use rls_grant::missing_in;
use rls_policy::exempt;
use rls_policy::rls_role::{EffectiveRoles, effective_roles_of};
use std::alloc::{AllocError, Global};

/// The current role, as its attributes and its memberships make it.
#[derive(Drop)]
pub struct RolePrivileges {
    pub attributes: RoleDef,
    pub effective_roles: EffectiveRoles,
}

/// The role's privileges. It reads the role and, unless that is a superuser, each role whose privileges it has.
#[tactic(auto, unfolding(crate::specs::PassedOn::role_at, crate::specs::PassedOn::effective_roles_in, crate::specs::PassedOn::effective_roles_reads_in, crate::specs::RolePrivileges::role_privileges_in, crate::specs::RolePrivileges::role_privileges_reads))]
pub fn role_privileges_of(asker: &mut Asker, role: &Name) -> Result<RolePrivileges, AllocError>
    ensures { Tells (spec.role_privileges_of role.now) asker.old asker.new result }
{
    let attributes = RoleDef::known(asker.role(role)?);
    let effective_roles = effective_roles_of(asker, role)?;
    Ok(RolePrivileges {
        attributes,
        effective_roles,
    })
}

/// Denied where the role hasn't the privileges of the table's owner.
#[tactic(auto, unfolding(crate::specs::RolePrivileges::ownership))]
pub fn require_ownership(
    asker: &mut Asker,
    role: &Name,
    name: &Name,
    table: &TableDef,
) -> Result<(), Refusal>
    ensures { Answers (spec.ownership role.now name.now table.now) asker.old asker.new result }
{
    let role_privileges = role_privileges_of(asker, role)?;
    let owned = role_privileges.require_owner(name, table);
    drop(role_privileges);
    owned
}

impl RolePrivileges {
    /// Denied where the role lacks the privilege for some of the columns. It reads the grants, unless the role is a superuser.
    pub fn require_permission(
        &self,
        asker: &mut Asker,
        check: &PermissionCheck,
    ) -> Result<(), Refusal>
        ensures { Answers (spec.permission_or_denied self.now check.now) asker.old asker.new result }
    {
        if self.effective_roles.superuser {
            return Ok(());
        }
        let grants = asker.grants(&check.table)?;
        self.require_granted(asker.alloc(), grants, check)
    }

    /// Denied where these grants lack the privilege for some of the columns.
    fn require_granted(
        &self,
        alloc: Global,
        grants: &Grants,
        check: &PermissionCheck,
    ) -> Result<(), Refusal>
        ensures { Gives result (spec.refused_for (missing_in self.now.effective_roles.superuser self.now.effective_roles.names grants.now check.now.privilege check.now.table check.now.columns)) }
    {
        let missing = missing_in(
            alloc,
            grants,
            &self.effective_roles,
            check.privilege,
            &check.table,
            check.columns.as_slice(),
        )?;
        match missing {
            None => Ok(()),
            Some(why) => Err(Refusal::Denied(why)),
        }
    }

    /// Denied where the role hasn't the privileges of the table's owner.
    pub fn require_owner(&self, name: &Name, table: &TableDef) -> Result<(), Refusal>
        ensures { Gives result (spec.owner_or_denied self.now name.now table.now) }
    {
        if self.effective_roles.has(&table.owner) {
            Ok(())
        } else {
            Err(Refusal::Denied(Why::Owner(name.copy()?)))
        }
    }

    /// Whether row security doesn't apply to the role on the table.
    pub fn is_exempt(&self, table: &TableDef) -> bool
        ensures { result ≡ exempts self.now.attributes table.now (spec.has_owner self.now table.now) }
    {
        exempt(
            &self.attributes,
            table,
            self.effective_roles.has(&table.owner),
        )
    }
}
