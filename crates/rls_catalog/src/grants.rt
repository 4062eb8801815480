//! The grants on a table, and what is known of their grantors.

ghost use Rattle.std.specs.Prelude.{◌≡◌, [], true, false, length, IfOk, OnOk, OnErr};
ghost use Rattle.std.specs.Option.{option_copied};
ghost use Rattle.std.specs.BTreeMap.{is_at};
ghost use Rattle.shared_map.specs.Entries.{is_reached};
ghost use Rattle.shared_map.specs.Lists.{InKeyOrder, item_at, items_from, with_item, without_item};
ghost use Rattle.rls_catalog.specs.GrantKeys.{key_of, key_order};
ghost use Rattle.rls_catalog.specs.GrantOptions.{HaveGrantors};

use crate::grant::{Grant, GrantKey, copy_name};
use rls_expr::rls_value::Name;
use shared_map::{Shared, SharedList, Values};
use std::alloc::{AllocError, Global};
use std::marker::Model;

/// The grants on a table: by privilege, then by grantee, PUBLIC first, then by grantor, seen as their list. Copies share what they
/// have in common.
#[derive(Drop)]
pub struct Grants {
    list: SharedList<GrantKey, Grant>,
    /// By which owner each grantor is known to hold the grant option, so that nobody need follow it back to the owner.
    owner: Option<Name>,
}

impl Model for Grants {
    ghost use Rattle.std.specs.Prelude.{List, IfSome};
    ghost use Rattle.std.specs.Coded.{coded_list};
    ghost use Rattle.rls_catalog.specs.declared.grant.Grant.{Grant as Given};
    ghost use Rattle.rls_catalog.specs.contracts.grant.Grant as grant;
    ghost use Rattle.rls_catalog.specs.GrantOptions.{HaveGrantors};

    ghost Value = { List Given };

    ghost coded = { coded_list grant.the_row.coded };

    ghost view = { λ it. it.list };

    ghost invariant = { λ it. IfSome it.owner (λ owner. HaveGrantors owner it.list) };
}

impl Grants {
    pub fn new() -> Grants
        ensures { result ≡ [] }
    {
        Grants {
            list: SharedList::new(),
            owner: None,
        }
    }

    /// The same grants, all of them shared.
    pub fn copy(&self) -> Result<Grants, AllocError>
        ensures { IfOk result (λ copy. copy ≡ self.now) }
    {
        let owner = copy_name(&self.owner)?;
        match self.list.copy() {
            Ok(list) => Ok(Grants { list, owner }),
            Err(refused) => {
                drop(owner);
                Err(refused)
            }
        }
    }

    pub fn len(&self) -> usize
        ensures len { result ≡ length self.now }
        ensures ordered { InKeyOrder key_order key_of self.now }
    {
        self.list.len()
    }

    /// The grants themselves, told to be in order.
    pub fn in_order(&self) -> &Grants
        ensures list { result.now ≡ self.now }
        ensures ordered { InKeyOrder key_order key_of self.now }
    {
        let _ = self.list.len();
        self
    }

    /// All grants, in order.
    pub fn iter(&self) -> Values<'_, GrantKey, Grant>
        ensures left { result ≡ self.now }
        ensures ordered { InKeyOrder key_order key_of self.now }
    {
        self.list.iter()
    }

    /// The grants from the key on, in order.
    pub fn iter_from<'m>(&'m self, key: &GrantKey) -> Values<'m, GrantKey, Grant>
        ensures left { result ≡ items_from (is_reached (key_order key.now) false) key_of self.now }
        ensures ordered { InKeyOrder key_order key_of self.now }
    {
        self.list.iter_from(key)
    }

    /// The grant with the key, if there is one.
    pub fn get(&self, key: &GrantKey) -> Option<&Grant>
        ensures item { option_copied result ≡ item_at (is_at (key_order key.now)) key_of self.now }
        ensures ordered { InKeyOrder key_order key_of self.now }
    {
        self.list.get(key)
    }

    /// Puts the grant in its place, or in place of the one that has its key.
    pub fn put(&mut self, alloc: Global, grant: Grant) -> Result<(), AllocError>
        ensures ok { OnOk result (self.new ≡ with_item key_order key_of self.old grant) }
        ensures err { OnErr result (self.new ≡ self.old) }
        ensures ordered { OnOk result (InKeyOrder key_order key_of self.new) }
    {
        self.owner = None;
        self.list.put(alloc, grant)
    }

    /// Takes the grant with the key away, if there is one.
    pub fn remove(&mut self, alloc: Global, key: &GrantKey) -> Result<(), AllocError>
        ensures ok { OnOk result (self.new ≡ without_item (is_at (key_order key.now)) key_of self.old) }
        ensures err { OnErr result (self.new ≡ self.old) }
        ensures ordered { InKeyOrder key_order key_of self.new }
    {
        self.owner = None;
        self.list.remove(alloc, key)
    }

    /// Whether each grantor is known to hold the grant option, where the owner is this one.
    #[tactic(auto, using(crate::proofs::Revoking::have_grantors_by))]
    pub fn have_grantors(&self, owner: &Name) -> bool
        ensures { result ≡ true → HaveGrantors owner.now self.now }
    {
        match &self.owner {
            Some(known) => known.is(owner),
            None => false,
        }
    }

    /// The same grants, of which it is known from now on.
    pub fn with_grantors(self, owner: Name) -> Grants
        requires { HaveGrantors owner self }
        ensures { result ≡ self }
    {
        let Grants { list, owner: known } = self;
        drop(known);
        Grants {
            list,
            owner: Some(owner),
        }
    }
}

impl Clone for Grants {
    ghost use Rattle.std.specs.Prelude.{◌≡◌};

    ghost is_clone = { λ x y. y ≡ x };

    fn clone(&self) -> Result<Grants, AllocError> {
        self.copy()
    }
}

impl Shared for Grants {
    ghost same = { λ x y h. h };
}
