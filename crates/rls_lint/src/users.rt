//! The roles that can be the current one of a session that logs in as no superuser.

ghost use Rattle.std.specs.Prelude.{◌≡◌, ◌&&◌, IfOk};
ghost use Rattle.std.specs.List.{list_any};
ghost use Rattle.rls_catalog.specs.Paths.{can_set};
ghost use Rattle.rls_lint.specs.Users as spec;

use crate::linted::{attributes_of, may_set};
use rls_rows::State;
use rls_value::{Items, Name};
use std::alloc::{AllocError, Global};

/// Those of the roles that can be.
pub(crate) fn users_of(
    alloc: Global,
    state: &State,
    roles: &[Name],
) -> Result<Items<Name>, AllocError>
    ensures { IfOk result (λ users. users ≡ spec.users_of state.now roles.now) }
{
    let mut users = Items::new(alloc);
    for role in roles {
        if is_user(alloc, state, roles, role)? {
            users.push(role.copy()?)?;
        }
    }
    Ok(users)
}

fn is_user(alloc: Global, state: &State, roles: &[Name], role: &Name) -> Result<bool, AllocError>
    ensures { IfOk result (λ can. can ≡ spec.is_user state.now roles.now role.now) }
{
    if is_login(alloc, state, role)? {
        return Ok(true);
    }
    is_set_by_some(alloc, state, roles, role)
}

/// Whether one of the roles logs in, is no superuser, and may set that role.
fn is_set_by_some(
    alloc: Global,
    state: &State,
    roles: &[Name],
    role: &Name,
) -> Result<bool, AllocError>
    ensures { IfOk result (λ can. can ≡ list_any (λ login. spec.is_login state.now login && can_set state.now login role.now) roles.now) }
{
    for login in roles {
        if is_login(alloc, state, login)? && may_set(alloc, state, login, role)? {
            return Ok(true);
        }
    }
    Ok(false)
}

/// Whether the role may log in, and is no superuser.
pub(crate) fn is_login(alloc: Global, state: &State, role: &Name) -> Result<bool, AllocError>
    ensures { IfOk result (λ can. can ≡ spec.is_login state.now role.now) }
{
    let attributes = attributes_of(alloc, state, role)?;
    Ok(attributes.login && !attributes.superuser)
}
