//! CREATE ROLE.

ghost use Rattle.std.specs.Prelude.{◌≡◌, [], ◌∷◌, IfOk};
ghost use Rattle.rls_guard.specs.rls_source.specs.Answering.{Answers};
ghost use Rattle.rls_guard.specs.Effects.{writes};
ghost use Rattle.rls_ddl.specs.CreatingRoles.{create_role, role_made, role_with};

use rls_guard::rls_catalog::{Change, RoleDef};
use rls_guard::rls_source::Asker;
use rls_guard::{Ctx, Effect, require_superuser};
use rls_statement::CreateRole;
use rls_value::{DefinedKind, Name, Refusal};
use std::alloc::{AllocError, Global};

/// Adds a role; an attribute that isn't written is not given.
pub fn run_create_role(asker: &mut Asker, ctx: &Ctx, create: &CreateRole) -> Result<Effect, Refusal>
    ensures { Answers (create_role ctx.now create.now) asker.old asker.new result }
{
    if asker.role(&create.name)?.is_some() {
        return Err(Refusal::Duplicate(DefinedKind::Role, create.name.copy()?));
    }
    make_role(asker, &ctx.role, create)
}

#[tactic(auto, unfolding(crate::specs::CreatingRoles::role_made))]
fn make_role(asker: &mut Asker, role: &Name, create: &CreateRole) -> Result<Effect, Refusal>
    ensures { Answers (role_made role.now create.now) asker.old asker.new result }
{
    require_superuser(asker, role, &create.name)?;
    Ok(made(asker.alloc(), create)?)
}

fn made(alloc: Global, create: &CreateRole) -> Result<Effect, AllocError>
    ensures { IfOk result (λ effect. effect ≡ writes (Change.Role create.now.name (role_with create.now.attributes) ∷ [])) }
{
    let role = RoleDef {
        superuser: create.attributes.superuser.unwrap_or(false),
        login: create.attributes.login.unwrap_or(false),
        bypass_rls: create.attributes.bypass_rls.unwrap_or(false),
    };
    Effect::changed(alloc, Change::Role(create.name.copy()?, role))
}
