//! Who asks a state.

ghost use Rattle.std.specs.Prelude.{◌≡◌, [], ◌∷◌, IfOk, OnOk};
ghost use Rattle.rls_catalog.specs.{InOrder.RowsInOrder, PolicyLists.InNameOrder};
ghost use Rattle.rls_source.specs.Asked.{asked_role, asked_members, asked_table, asked_grants, asked_policies, asked_rows, asked_key};
ghost use Rattle.rls_source.specs.Answering.{Tells, copied_now, having_read, lent_now};

use crate::reads::Reads;
use rls_catalog::rls_expr::TableDef;
use rls_catalog::rls_value::{Items, Name, Object, Row};
use rls_catalog::{BorrowedRow, Catalog, Grants, Memberships, Policies, RoleDef};
use std::alloc::{AllocError, Global};
use std::marker::Model;

/// Asks a state, and notes what it asks for.
#[derive(Drop)]
pub struct Asker<'c> {
    alloc: Global,
    catalog: &'c Catalog,
    reads: Reads,
}

impl<'c> Model for Asker<'c> {
    ghost use Rattle.rls_source.specs.Answering.{Asked, asked_code};

    ghost Value = { Asked };

    ghost coded = { asked_code };

    ghost view = { λ it. record { state = it.catalog.now; reads = it.reads } };
}

impl<'c> Asker<'c> {
    pub fn new(alloc: Global, catalog: &'c Catalog) -> Asker<'c>
        ensures { result ≡ record { state = catalog.now; reads = [] } }
    {
        Asker {
            alloc,
            catalog,
            reads: Reads::new(alloc),
        }
    }

    /// The same, with room for so many reads.
    pub fn with_capacity(
        alloc: Global,
        catalog: &'c Catalog,
        capacity: usize,
    ) -> Result<Asker<'c>, AllocError>
        ensures { IfOk result (λ asker. asker ≡ record { state = catalog.now; reads = [] }) }
    {
        Ok(Asker {
            alloc,
            catalog,
            reads: Reads::with_capacity(alloc, capacity)?,
        })
    }

    /// Where lists are made.
    pub fn alloc(&self) -> Global {
        self.alloc
    }

    /// The state. To look at it is no read: whoever looks notes what was looked at.
    pub fn catalog(&self) -> &'c Catalog
        ensures { result.now ≡ self.now.state }
    {
        self.catalog
    }

    /// Notes what was looked at.
    pub fn note_all(&mut self, objects: Vec<Object>) -> Result<(), AllocError>
        ensures { OnOk result (self.new ≡ having_read self.old objects.items) }
    {
        self.reads.note_all(objects)
    }

    /// What was read.
    pub fn into_reads(self) -> Reads
        ensures { result ≡ self.entry.reads }
    {
        let Asker { reads, .. } = self;
        reads
    }

    /// The role, if there is one.
    #[tactic(auto, unfolding(crate::specs::Asked::role_at))]
    pub fn role(&mut self, name: &Name) -> Result<Option<&'c RoleDef>, AllocError>
        ensures { Tells (asked_role name.now) self.old self.new (copied_now result) }
    {
        self.reads.note(Object::Role(name.copy()?))?;
        Ok(self.catalog.role(name))
    }

    /// The memberships that the role has.
    #[tactic(auto, unfolding(crate::specs::Asked::members_at))]
    pub fn members(&mut self, member: &Name) -> Result<&'c Memberships, AllocError>
        ensures { Tells (asked_members member.now) self.old self.new (lent_now result) }
    {
        self.reads.note(Object::Members(member.copy()?))?;
        Ok(self.catalog.members(member))
    }

    /// The table, if there is one.
    #[tactic(auto, unfolding(crate::specs::Asked::table_at))]
    pub fn table(&mut self, name: &Name) -> Result<Option<&'c TableDef>, AllocError>
        ensures { Tells (asked_table name.now) self.old self.new (copied_now result) }
    {
        self.reads.note(Object::Table(name.copy()?))?;
        Ok(self.catalog.table(name))
    }

    /// The grants on the table.
    #[tactic(auto, unfolding(crate::specs::Asked::grants_at))]
    pub fn grants(&mut self, table: &Name) -> Result<&'c Grants, AllocError>
        ensures { Tells (asked_grants table.now) self.old self.new (lent_now result) }
    {
        self.reads.note(Object::Grants(table.copy()?))?;
        Ok(self.catalog.grants(table))
    }

    /// The policies of the table, in byte order of their names.
    #[tactic(auto, unfolding(crate::specs::Asked::policies_at))]
    pub fn policies(&mut self, table: &Name) -> Result<&'c Policies, AllocError>
        ensures told { Tells (asked_policies table.now) self.old self.new (lent_now result) }
        ensures ordered { IfOk result (λ found. InNameOrder found.now) }
    {
        self.reads.note(Object::Policies(table.copy()?))?;
        Ok(self.catalog.policies(table))
    }

    /// The rows of the table, in order of their numbers.
    #[tactic(auto, unfolding(crate::specs::Asked::rows_at))]
    pub fn scan(&mut self, table: &Name) -> Result<Items<BorrowedRow<'c>>, AllocError>
        ensures told { Tells (asked_rows table.now) self.old self.new result }
        ensures ordered { OnOk result (RowsInOrder self.old.state table.now) }
    {
        self.reads.note(Object::Rows(table.copy()?))?;
        self.catalog.rows(self.alloc, table)
    }

    /// The rows of the table that have the key, in order of their numbers.
    #[tactic(auto, unfolding(crate::specs::Asked::keyed_at))]
    pub fn by_key(&mut self, table: &Name, key: &Row) -> Result<Items<BorrowedRow<'c>>, AllocError>
        ensures told { Tells (asked_key table.now key.now) self.old self.new result }
        ensures ordered { OnOk result (RowsInOrder self.old.state table.now) }
    {
        let alloc = self.alloc;
        self.reads
            .note(Object::Key(table.copy()?, key.copy(alloc)?))?;
        self.catalog.rows_with_key(alloc, table, key)
    }
}
