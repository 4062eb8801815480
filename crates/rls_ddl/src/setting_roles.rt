//! SET ROLE and RESET ROLE.

ghost use Rattle.std.specs.Prelude.{◌≡◌, IfOk};
ghost use Rattle.rls_guard.specs.rls_source.specs.Answering.{Answers, Tells};
ghost use Rattle.rls_ddl.specs.SettingRoles as spec;
ghost use Rattle.rls_ddl.specs.SettingRoles.{asked_may_set, role_set, sets};

use rls_guard::rls_catalog::Delta;
use rls_guard::rls_role::{Step, reaches};
use rls_guard::rls_source::Asker;
use rls_guard::{Ctx, Effect, Reply};
use rls_statement::SetRole;
use rls_value::{Items, Name, Refusal, Why};
use std::alloc::{AllocError, Global};

/// Makes another role the current one; back to the login nothing is asked and nothing denied.
pub fn run_set_role(asker: &mut Asker, ctx: &Ctx, set: &SetRole) -> Result<Effect, Refusal>
    ensures { Answers (spec.set_role ctx.now set.now) asker.old asker.new result }
{
    match set {
        SetRole::To(role) => {
            asker.role_named(role)?;
            set_role(asker, &ctx.login, role)
        }
        SetRole::None | SetRole::Reset => Ok(role_to(asker.alloc(), &ctx.login)?),
    }
}

/// Makes the role the current one, where the login may set it.
#[tactic(auto, unfolding(crate::specs::SettingRoles::role_set))]
fn set_role(asker: &mut Asker, login: &Name, role: &Name) -> Result<Effect, Refusal>
    ensures { Answers (role_set login.now role.now) asker.old asker.new result }
{
    if may_set(asker, login, role)? {
        Ok(role_to(asker.alloc(), role)?)
    } else {
        Err(Refusal::Denied(Why::SetRole(role.copy()?)))
    }
}

/// Whether the login may set the role. It reads the login and, unless that is a superuser, each role that it reaches.
#[tactic(auto, unfolding(crate::specs::SettingRoles::may_set, crate::specs::SettingRoles::may_set_reads), using(crate::proofs::PassedOn::can_set_walked, crate::proofs::PassedOn::can_set_reads_walked))]
fn may_set(asker: &mut Asker, login: &Name, role: &Name) -> Result<bool, AllocError>
    ensures { Tells (asked_may_set login.now role.now) asker.old asker.new result }
{
    reaches(asker, login, role, Step::Set)
}

fn role_to(alloc: Global, role: &Name) -> Result<Effect, AllocError>
    ensures { IfOk result (λ effect. effect ≡ sets role.now) }
{
    let role = role.copy()?;
    Ok(Effect::Done(
        Reply::Done,
        Items::new(alloc),
        Delta::new(alloc),
        Some(role),
    ))
}
