//! ALTER ROLE.

ghost use Rattle.std.specs.Prelude.{◌≡◌, [], ◌∷◌, IfOk};
ghost use Rattle.rls_guard.specs.rls_source.specs.Answering.{Answers};
ghost use Rattle.rls_guard.specs.Effects.{writes};
ghost use Rattle.rls_ddl.specs.AlteringRoles.{alter_role, role_altered, role_changed};

use rls_guard::rls_catalog::{Change, RoleDef};
use rls_guard::rls_source::Asker;
use rls_guard::{Ctx, Effect, require_superuser};
use rls_statement::AlterRole;
use rls_value::{Name, Refusal};
use std::alloc::{AllocError, Global};

/// Changes the attributes that are written; the others stay.
pub fn run_alter_role(asker: &mut Asker, ctx: &Ctx, alter: &AlterRole) -> Result<Effect, Refusal>
    ensures { Answers (alter_role ctx.now alter.now) asker.old asker.new result }
{
    let role = asker.role_named(&alter.name)?;
    change_role(asker, &ctx.role, alter, role)
}

#[tactic(auto, unfolding(crate::specs::AlteringRoles::role_changed))]
fn change_role(
    asker: &mut Asker,
    role: &Name,
    alter: &AlterRole,
    def: &RoleDef,
) -> Result<Effect, Refusal>
    ensures { Answers (role_changed role.now alter.now def.now) asker.old asker.new result }
{
    require_superuser(asker, role, &alter.name)?;
    Ok(altered(asker.alloc(), alter, def)?)
}

fn altered(alloc: Global, alter: &AlterRole, def: &RoleDef) -> Result<Effect, AllocError>
    ensures { IfOk result (λ effect. effect ≡ writes (Change.Role alter.now.name (role_altered alter.now.attributes def.now) ∷ [])) }
{
    let role = RoleDef {
        superuser: alter.attributes.superuser.unwrap_or(def.superuser),
        login: alter.attributes.login.unwrap_or(def.login),
        bypass_rls: alter.attributes.bypass_rls.unwrap_or(def.bypass_rls),
    };
    Effect::changed(alloc, Change::Role(alter.name.copy()?, role))
}
