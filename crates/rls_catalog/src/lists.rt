//! Contents that are lists, in the order of their keys; their versions share what they have in common.

ghost use Rattle.std.specs.Prelude.{◌≡◌, []};

use crate::grants::Grants;
use crate::role::Membership;
use rls_expr::Policy;
use rls_expr::rls_value::Name;
use shared_map::{Share, SharedList};
use std::marker::Model;

/// The memberships that a role has, in byte order of the roles' names.
pub type Memberships = SharedList<Name, Membership>;

/// The policies of a table, in byte order of their names.
pub type Policies = SharedList<Name, Share<Policy>>;

/// Lists without items, to be lent where a state has no list.
#[derive(Drop)]
pub(crate) struct NoItems {
    members: Memberships,
    grants: Grants,
    policies: Policies,
}

impl Model for NoItems {
    ghost use Rattle.std.specs.Prelude.{◌≡◌, []};

    ghost Value = { Unit {0} };

    ghost view = { λ _. tt };

    ghost invariant = { λ it. (it.members ≡ []) × (it.grants ≡ []) × (it.policies ≡ []) };
}

impl NoItems {
    pub(crate) fn new() -> NoItems {
        NoItems {
            members: SharedList::new(),
            grants: Grants::new(),
            policies: SharedList::new(),
        }
    }

    pub(crate) fn members(&self) -> &Memberships
        ensures { result.now ≡ [] }
    {
        &self.members
    }

    pub(crate) fn grants(&self) -> &Grants
        ensures { result.now ≡ [] }
    {
        &self.grants
    }

    pub(crate) fn policies(&self) -> &Policies
        ensures { result.now ≡ [] }
    {
        &self.policies
    }
}
