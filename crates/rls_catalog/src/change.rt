//! Changes of a state.

ghost use Rattle.std.specs.Prelude.{◌≡◌, [], ◌∷◌, ◌++◌, IfOk, OnOk, OnErr};

use crate::grants::Grants;
use crate::lists::{Memberships, Policies};
use crate::role::RoleDef;
use crate::stored::Keyed;
use rls_expr::TableDef;
use rls_expr::rls_value::{Name, RowId};
use std::alloc::{AllocError, Global};
use std::marker::Model;

/// A change of one object. That of a catalogue object is the object's whole new content.
#[derive(Drop)]
pub enum Change {
    Role(Name, RoleDef),
    /// The memberships that the role has from now on.
    Members(Name, Memberships),
    Table(Name, TableDef),
    Grants(Name, Grants),
    Policies(Name, Policies),
    Row(RowChange),
}

/// A change of one row; none stands for its absence.
#[derive(Drop)]
pub struct RowChange {
    pub table: Name,
    pub id: RowId,
    pub before: Option<Keyed>,
    pub after: Option<Keyed>,
}

/// Changes, each put on what the earlier ones left; seen as their list.
#[derive(Drop)]
pub struct Delta {
    changes: Vec<Change>,
}

impl Model for Delta {
    ghost use Rattle.std.specs.Prelude.{List};
    ghost use Rattle.rls_catalog.specs.declared.change.Change.{Change as Changed};

    ghost Value = { List Changed };

    ghost use Rattle.rls_catalog.specs.contracts.change.Change as change;
    ghost use Rattle.std.specs.Coded.{coded_list};

    ghost coded = { coded_list change.the_row.coded };

    ghost view = { λ delta. delta.changes.items };
}

impl Change {
    pub fn copy(&self, alloc: Global) -> Result<Change, AllocError>
        ensures { IfOk result (λ change. change ≡ self.now) }
    {
        match self {
            Change::Role(name, def) => Ok(Change::Role(name.copy()?, *def)),
            Change::Members(name, content) => Ok(Change::Members(name.copy()?, content.copy()?)),
            Change::Table(name, def) => Ok(Change::Table(name.copy()?, def.copy(alloc)?)),
            Change::Grants(name, content) => Ok(Change::Grants(name.copy()?, content.copy()?)),
            Change::Policies(name, content) => Ok(Change::Policies(name.copy()?, content.copy()?)),
            Change::Row(row) => Ok(Change::Row(row.copy(alloc)?)),
        }
    }
}

impl RowChange {
    pub fn copy(&self, alloc: Global) -> Result<RowChange, AllocError>
        ensures { IfOk result (λ change. change ≡ self.now) }
    {
        Ok(RowChange {
            table: self.table.copy()?,
            id: self.id,
            before: copy_content(alloc, &self.before)?,
            after: copy_content(alloc, &self.after)?,
        })
    }
}

fn copy_content(alloc: Global, content: &Option<Keyed>) -> Result<Option<Keyed>, AllocError>
    ensures { IfOk result (λ copied. copied ≡ content.now) }
{
    match content {
        Some(keyed) => Ok(Some(keyed.copy(alloc)?)),
        None => Ok(None),
    }
}

impl Delta {
    pub fn new(alloc: Global) -> Delta
        ensures { result ≡ [] }
    {
        Delta {
            changes: Vec::new(alloc),
        }
    }

    /// No changes, with room for this many.
    pub fn with_capacity(alloc: Global, capacity: usize) -> Result<Delta, AllocError>
        ensures { IfOk result (λ delta. delta ≡ []) }
    {
        Ok(Delta {
            changes: Vec::with_capacity(alloc, capacity)?,
        })
    }

    /// Copies of the changes.
    pub fn from_slice(alloc: Global, changes: &[Change]) -> Result<Delta, AllocError>
        ensures { IfOk result (λ delta. delta ≡ changes.now) }
    {
        Ok(Delta {
            changes: copy_changes(alloc, changes)?,
        })
    }

    pub fn push(&mut self, change: Change) -> Result<(), AllocError>
        ensures ok { OnOk result (self.new ≡ self.old ++ change ∷ []) }
        ensures err { OnErr result (self.new ≡ self.old) }
    {
        self.changes.push(change)?;
        Ok(())
    }

    pub fn as_slice(&self) -> &[Change]
        ensures { result.now ≡ self.now }
    {
        self.changes.as_slice()
    }

    pub fn copy(&self, alloc: Global) -> Result<Delta, AllocError>
        ensures { IfOk result (λ delta. delta ≡ self.now) }
    {
        Delta::from_slice(alloc, self.as_slice())
    }
}

fn copy_changes(alloc: Global, changes: &[Change]) -> Result<Vec<Change>, AllocError>
    ensures { IfOk result (λ copies. copies.items ≡ changes.now) }
{
    let mut copies = Vec::with_capacity(alloc, changes.len())?;
    for change in changes {
        copies.push(change.copy(alloc)?)?;
    }
    Ok(copies)
}
