//! A whole state: every object and its content.

ghost use Rattle.std.specs.Prelude.{◌≡◌, IfOk, OnOk, OnErr};
ghost use Rattle.std.specs.Option.{option_copied};
ghost use Rattle.rls_catalog.specs.{State.role_of, State.members_of, State.table_of, State.grants_of, State.policies_of, State.rows_of, State.rows_with_key, Changed.opening, Changed.changed_all, InOrder.RowsInOrder, PolicyLists.InNameOrder};

use crate::borrowed::BorrowedRow;
use crate::change::{Change, Delta};
use crate::grants::Grants;
use crate::lists::{Memberships, NoItems, Policies};
use crate::role::RoleDef;
use crate::table_rows::Rows;
use rls_expr::TableDef;
use rls_expr::rls_value::{Items, Name, Row};
use shared_map::{Share, SharedMap};
use std::alloc::{AllocError, Global};
use std::marker::Model;

/// A whole state, seen as a `State`. What is looked up is found in logarithmic time. Copies share everything, and a state
/// with changes on shares all that they leave.
#[derive(Drop)]
pub struct Catalog {
    pub(crate) roles: SharedMap<Name, RoleDef>,
    pub(crate) members: SharedMap<Name, Memberships>,
    pub(crate) tables: SharedMap<Name, Share<TableDef>>,
    pub(crate) grants: SharedMap<Name, Grants>,
    pub(crate) policies: SharedMap<Name, Policies>,
    pub(crate) rows: SharedMap<Name, Rows>,
    // Lent where a name has no list.
    no_items: NoItems,
}

impl Model for Catalog {
    ghost use Rattle.rls_catalog.specs.State.{State};
    ghost use Rattle.rls_catalog.specs.StateCode.{state_code};

    ghost Value = { State };

    ghost coded = { state_code };

    ghost view = { λ c. record { roles = c.roles; members = c.members; tables = c.tables; grants = c.grants; policies = c.policies; rows = c.rows } };
}

impl Catalog {
    /// The opening state: the role `postgres`, with every attribute, and nothing else.
    pub fn new(alloc: Global) -> Result<Catalog, AllocError>
        ensures { IfOk result (λ catalog. catalog ≡ opening) }
    {
        Ok(Catalog {
            roles: opening_roles(alloc)?,
            members: SharedMap::new(),
            tables: SharedMap::new(),
            grants: SharedMap::new(),
            policies: SharedMap::new(),
            rows: SharedMap::new(),
            no_items: NoItems::new(),
        })
    }

    /// The same state, all of it shared: a few counts, whatever the size.
    pub fn copy(&self, _: Global) -> Result<Catalog, AllocError>
        ensures { IfOk result (λ copy. copy ≡ self.now) }
    {
        Ok(Catalog {
            roles: self.roles.copy()?,
            members: self.members.copy()?,
            tables: self.tables.copy()?,
            grants: self.grants.copy()?,
            policies: self.policies.copy()?,
            rows: self.rows.copy()?,
            no_items: NoItems::new(),
        })
    }

    pub fn role(&self, name: &Name) -> Option<&RoleDef>
        ensures { option_copied result ≡ role_of self.now name.now }
    {
        self.roles.get(name)
    }

    /// The memberships that the role has.
    pub fn members(&self, member: &Name) -> &Memberships
        ensures { result.now ≡ members_of self.now member.now }
    {
        match self.members.get(member) {
            Some(content) => content,
            None => self.no_items.members(),
        }
    }

    pub fn table(&self, name: &Name) -> Option<&TableDef>
        ensures { option_copied result ≡ table_of self.now name.now }
    {
        match self.tables.get(name) {
            Some(def) => Some(def.get()),
            None => None,
        }
    }

    /// The grants on the table.
    pub fn grants(&self, table: &Name) -> &Grants
        ensures { result.now ≡ grants_of self.now table.now }
    {
        match self.grants.get(table) {
            Some(content) => content,
            None => self.no_items.grants(),
        }
    }

    /// The policies of the table, in byte order of their names.
    pub fn policies(&self, table: &Name) -> &Policies
        ensures policies { result.now ≡ policies_of self.now table.now }
        ensures ordered { InNameOrder result.now }
    {
        match self.policies.get(table) {
            Some(content) => content.in_order(),
            None => self.no_items.policies().in_order(),
        }
    }

    /// The rows of the table, in order of their numbers.
    #[tactic(auto, using(crate::proofs::InOrderLaws::none_in_order))]
    pub fn rows(&self, alloc: Global, table: &Name) -> Result<Items<BorrowedRow<'_>>, AllocError>
        ensures rows { IfOk result (λ rows. rows ≡ rows_of self.now table.now) }
        ensures ordered { RowsInOrder self.now table.now }
    {
        match self.rows.get(table) {
            Some(rows) => rows.lend(alloc),
            None => Ok(Items::new(alloc)),
        }
    }

    /// The rows of the table that have the key, in order of their numbers. An index
    /// tells where they are; only for the empty key it looks at every row of the table.
    #[tactic(auto, using(crate::proofs::InOrderLaws::none_in_order))]
    pub fn rows_with_key(
        &self,
        alloc: Global,
        table: &Name,
        key: &Row,
    ) -> Result<Items<BorrowedRow<'_>>, AllocError>
        ensures rows { IfOk result (λ rows. rows ≡ rows_with_key self.now table.now key.now) }
        ensures ordered { RowsInOrder self.now table.now }
    {
        match self.rows.get(table) {
            Some(rows) => rows.lend_with_key(alloc, key),
            None => Ok(Items::new(alloc)),
        }
    }

    /// Puts the changes on, one after another. An `Err` leaves the state as it was: they go on a copy, which then takes its place.
    pub fn apply(&mut self, alloc: Global, delta: &Delta) -> Result<(), AllocError>
        ensures ok { OnOk result (self.new ≡ changed_all self.old delta.now) }
        ensures err { OnErr result (self.new ≡ self.old) }
    {
        let mut next = self.copy(alloc)?;
        next.put_all(alloc, delta.as_slice())?;
        *self = next;
        Ok(())
    }

    /// Puts the changes on, as far as there is memory.
    fn put_all(&mut self, alloc: Global, mut changes: &[Change]) -> Result<(), AllocError>
        ensures { OnOk result (self.new ≡ changed_all self.old changes.entry.now) }
    {
        while let [first, others @ ..] = changes {
            changes = self.put(alloc, first, others)?;
        }
        Ok(())
    }
}

/// The role postgres, which may do everything.
fn opening_roles(alloc: Global) -> Result<SharedMap<Name, RoleDef>, AllocError>
    ensures { IfOk result (λ roles. roles ≡ opening.roles) }
{
    let mut roles = SharedMap::new();
    let all = RoleDef {
        superuser: true,
        login: true,
        bypass_rls: true,
    };
    roles.insert(alloc, Name::postgres(alloc)?, all)?;
    Ok(roles)
}
