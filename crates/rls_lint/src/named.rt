//! The roles and the tables of a state. A state tells what stands under a name, and no names: who follows its changes notes them.

ghost use Rattle.std.specs.Prelude.{◌≡◌, map, IfOk, OnOk};
ghost use Rattle.rls_catalog.specs.Changed.{changed_all, opening};
ghost use Rattle.rls_catalog.specs.State.{State as Whole};
ghost use Rattle.std.specs.BTreeMap.{insert_entry};
ghost use Rattle.rls_catalog.specs.State.{name_order};
ghost use Rattle.rls_lint.specs.Naming.{IsNamed, followed, followed_all};

use rls_catalog::shared_map::SharedMap;
use rls_catalog::{Change, RoleDef};
use rls_expr::{NamedTable, TableDef};
use rls_value::shared::Share;
use rls_value::{Items, Name};
use std::alloc::{AllocError, Global};

/// The roles of a state with their attributes, and its tables with their definitions, in byte order of their names.
#[derive(Drop)]
pub struct Named {
    pub(crate) roles: SharedMap<Name, RoleDef>,
    pub(crate) tables: SharedMap<Name, Share<TableDef>>,
}

impl Named {
    /// Those of the opening state.
    pub fn opening(alloc: Global) -> Result<Named, AllocError>
        ensures { IfOk result (IsNamed opening) }
    {
        let mut roles = SharedMap::new();
        let all = RoleDef {
            superuser: true,
            login: true,
            bypass_rls: true,
        };
        roles.insert(alloc, Name::postgres(alloc)?, all)?;
        Ok(Named {
            roles,
            tables: SharedMap::new(),
        })
    }

    /// Those of the state that the changes make of one with these.
    #[tactic(auto, using(crate::proofs::Following::named_follows))]
    pub fn follow(&mut self, alloc: Global, changes: &[Change]) -> Result<(), AllocError>
        ensures { (s : Whole) → IsNamed s self.old → OnOk result (IsNamed (changed_all s changes.now) self.new) }
    {
        self.follow_all(alloc, changes)
    }

    fn follow_all(&mut self, alloc: Global, mut changes: &[Change]) -> Result<(), AllocError>
        ensures { OnOk result (self.new ≡ followed_all self.old changes.entry.now) }
    {
        while let [change, rest @ ..] = changes {
            self.follow_one(alloc, change)?;
            changes = rest;
        }
        Ok(())
    }

    fn follow_one(&mut self, alloc: Global, change: &Change) -> Result<(), AllocError>
        ensures { OnOk result (self.new ≡ followed self.old change.now) }
    {
        match change {
            Change::Role(name, def) => {
                self.roles.insert(alloc, name.copy()?, *def)?;
                Ok(())
            }
            Change::Table(name, def) => self.follow_table(alloc, name, def),
            Change::Members(_, _)
            | Change::Grants(_, _)
            | Change::Policies(_, _)
            | Change::Row(_) => Ok(()),
        }
    }

    fn follow_table(&mut self, alloc: Global, name: &Name, def: &TableDef) -> Result<(), AllocError>
        ensures tables { OnOk result (self.new.tables ≡ insert_entry name_order self.old.tables name.now def.now) }
        ensures roles { self.new.roles ≡ self.old.roles }
    {
        let def = Share::new(alloc, def.copy(alloc)?)?;
        match name.copy() {
            Ok(name) => {
                self.tables.insert(alloc, name, def)?;
                Ok(())
            }
            Err(refused) => {
                drop(def);
                Err(refused)
            }
        }
    }

    /// The tables.
    pub(crate) fn tables(&self, alloc: Global) -> Result<Items<NamedTable<'_>>, AllocError>
        ensures { IfOk result (λ tables. tables ≡ self.now.tables) }
    {
        let mut tables = Items::new(alloc);
        for entry in self.tables.iter() {
            tables.push(NamedTable::new(&entry.0, entry.1.get())?)?;
        }
        Ok(tables)
    }

    /// The names of the roles.
    pub(crate) fn role_names(&self, alloc: Global) -> Result<Items<Name>, AllocError>
        ensures { IfOk result (λ names. names ≡ map (λ entry. entry.0) self.now.roles) }
    {
        let mut names = Items::new(alloc);
        for entry in self.roles.iter() {
            names.push(entry.0.copy()?)?;
        }
        Ok(names)
    }

    /// The names of the tables.
    pub(crate) fn table_names(&self, alloc: Global) -> Result<Items<Name>, AllocError>
        ensures { IfOk result (λ names. names ≡ map (λ entry. entry.0) self.now.tables) }
    {
        let mut names = Items::new(alloc);
        for entry in self.tables.iter() {
            names.push(entry.0.copy()?)?;
        }
        Ok(names)
    }
}
