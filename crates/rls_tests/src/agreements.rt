//! Two states that agree on what was read, or don't.

use crate::states::{Stands, says, state_with};
use rls_agreement::agrees_on;
use rls_catalog::Catalog;
use rls_source::{Footprint, Plain};
use rls_value::{Name, Object, Refusal};
use std::alloc::{AllocError, Global};

/// Whether the states agree on the footprint.
fn agree(
    left: &Catalog,
    right: &Catalog,
    alloc: Global,
    footprint: &Footprint,
) -> Result<bool, AllocError> {
    let mut left = Plain::new(left);
    let mut right = Plain::new(right);
    agrees_on(alloc, &mut left, &mut right, footprint)
}

/// The footprint of a look at one role.
fn look_at(alloc: Global, role: Name) -> Result<Footprint, AllocError> {
    let mut footprint = Footprint::new(alloc);
    footprint.note(Object::Role(role))?;
    Ok(footprint)
}

/// Whether the states agree on the role.
fn agree_on_role(
    left: &Catalog,
    right: &Catalog,
    alloc: Global,
    role: &str,
) -> Result<bool, Refusal> {
    let footprint = look_at(alloc, Name::new(alloc, role)?)?;
    let agrees = agree(left, right, alloc, &footprint);
    drop(footprint);
    Ok(agrees?)
}

/// The opening state with the role `a` beside.
fn with_a(alloc: Global) -> Result<Catalog, Refusal> {
    state_with(alloc, &[Stands::Role("a", false)])
}

/// Whether the opening state and the one with the role `a` agree on the role.
fn still_agree(alloc: Global, role: &str) -> Result<bool, Refusal> {
    let later = with_a(alloc)?;
    match Catalog::new(alloc) {
        Ok(opening) => {
            let agrees = agree_on_role(&opening, &later, alloc, role);
            drop(opening);
            drop(later);
            agrees
        }
        Err(refused) => {
            drop(later);
            Err(Refusal::from(refused))
        }
    }
}

/// What a change writes is told apart, all else is the same.
#[test]
fn states_agree_but_on_what_changed(rt: HostRuntime) {
    assert!(rt; says(still_agree(rt.alloc(), "b"), true));
    assert!(rt; says(still_agree(rt.alloc(), "a"), false));
}
