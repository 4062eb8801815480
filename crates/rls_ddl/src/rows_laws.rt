//! What statements that define leave of the rows of a state, each a clause of a function that does nothing.

ghost use Rattle.rls_guard.specs.{Keeping.LeavesRows, declared.context.Ctx.Ctx};
ghost use Rattle.rls_statement.specs.{declared.statement.AlterPolicy.AlterPolicy, declared.statement.AlterRole.AlterRole, declared.statement.AlterTable.AlterTable, declared.statement.CreatePolicy.CreatePolicy, declared.statement.CreateRole.CreateRole, declared.statement.CreateTable.CreateTable, declared.statement.DropPolicy.DropPolicy, declared.statement.GrantPrivileges.GrantPrivileges, declared.statement.GrantRoles.GrantRoles, declared.statement.RevokePrivileges.RevokePrivileges, declared.statement.RevokeRoles.RevokeRoles, declared.statement.SetRole.SetRole};
ghost use Rattle.rls_ddl.specs.{AlteringPolicies.alter_policy, AlteringRoles.alter_role, AlteringTables.alter_table, CreatingPolicies.create_policy, CreatingRoles.create_role, CreatingTables.create_table, DroppingPolicies.drop_policy, SettingRoles.set_role};
ghost use Rattle.rls_ddl.specs.Granting.{grant, grant_roles, revoke, revoke_roles};

/// A statement on tables writes no row, and leaves sound rows sound: a new table has none, since none stand under a name
/// that no table has, and an altered one keeps its columns and its key.
pub fn tables_leave_rows()
    ensures create_table { (ctx : Ctx) (asked : CreateTable) → LeavesRows (create_table ctx asked) }
    ensures alter_table { (ctx : Ctx) (asked : AlterTable) → LeavesRows (alter_table ctx asked) }
{}

/// So does a statement on roles and policies.
pub fn roles_and_policies_leave_rows()
    ensures create_role { (ctx : Ctx) (asked : CreateRole) → LeavesRows (create_role ctx asked) }
    ensures alter_role { (ctx : Ctx) (asked : AlterRole) → LeavesRows (alter_role ctx asked) }
    ensures set_role { (ctx : Ctx) (asked : SetRole) → LeavesRows (set_role ctx asked) }
    ensures create_policy { (ctx : Ctx) (asked : CreatePolicy) → LeavesRows (create_policy ctx asked) }
    ensures alter_policy { (ctx : Ctx) (asked : AlterPolicy) → LeavesRows (alter_policy ctx asked) }
    ensures drop_policy { (ctx : Ctx) (asked : DropPolicy) → LeavesRows (drop_policy ctx asked) }
{}

/// So do GRANT and REVOKE.
pub fn grants_leave_rows()
    ensures grant { (ctx : Ctx) (asked : GrantPrivileges) → LeavesRows (grant ctx asked) }
    ensures revoke { (ctx : Ctx) (asked : RevokePrivileges) → LeavesRows (revoke ctx asked) }
    ensures grant_roles { (ctx : Ctx) (asked : GrantRoles) → LeavesRows (grant_roles ctx asked) }
    ensures revoke_roles { (ctx : Ctx) (asked : RevokeRoles) → LeavesRows (revoke_roles ctx asked) }
{}
