//! Roles and their memberships.

ghost use Rattle.std.specs.Prelude.{◌≡◌, IfOk};
ghost use Rattle.std.specs.Option.{option_copied};
ghost use Rattle.rls_catalog.specs.Membership.{attributes_in};

use rls_expr::rls_value::Name;
use shared_map::{HasKey, Shared};
use std::alloc::AllocError;

/// The attributes of a role (PostgreSQL manual, 22.2, "Role Attributes"). None of them is inherited.
#[derive(Clone, Copy, PartialEq, Eq)]
pub struct RoleDef {
    pub superuser: bool,
    pub login: bool,
    pub bypass_rls: bool,
}

impl Shared for RoleDef {
    ghost use Rattle.std.proofs.Common.{rules};

    ghost same = { Prim.search rules };
}

impl RoleDef {
    /// The attributes of what was looked up under a role's name; a role that isn't there has none.
    pub fn known(def: Option<&RoleDef>) -> RoleDef
        ensures { result ≡ attributes_in (option_copied def.entry) }
    {
        match def {
            Some(def) => *def,
            None => RoleDef {
                superuser: false,
                login: false,
                bypass_rls: false,
            },
        }
    }
}

/// A membership that a role has, with its options (PostgreSQL manual, 22.3, "Role Membership").
#[derive(Drop)]
pub struct Membership {
    /// The role that was granted.
    pub role: Name,
    pub admin: bool,
    pub inherit: bool,
    pub set: bool,
}

impl Membership {
    pub fn copy(&self) -> Result<Membership, AllocError>
        ensures { IfOk result (λ membership. membership ≡ self.now) }
    {
        Ok(Membership {
            role: self.role.copy()?,
            admin: self.admin,
            inherit: self.inherit,
            set: self.set,
        })
    }
}

impl Clone for Membership {
    ghost use Rattle.std.specs.Prelude.{◌≡◌};

    ghost is_clone = { λ x y. y ≡ x };

    fn clone(&self) -> Result<Membership, AllocError> {
        self.copy()
    }
}

impl Shared for Membership {
    ghost same = { λ x y h. h };
}

/// The memberships that a role has stand in byte order of the roles' names.
impl HasKey<Name> for Membership {
    ghost use Rattle.std.specs.FinMap.{nat_cmp-IsAntisymmetric, slice_cmp-IsAntisymmetric};

    ghost key_of = { λ membership. membership.role };

    ghost exact = { slice_cmp-IsAntisymmetric nat_cmp-IsAntisymmetric };

    fn key(&self) -> Result<Name, AllocError> {
        self.role.copy()
    }
}
