//! Changes are put on a state; those of one table's rows that stand side by side are put on together.

ghost use Rattle.std.specs.Prelude.{◌≡◌, ◌≤◌, ◌∷◌, length, IfOk, OnOk, IfSome, IfNone, IfErr, Some, None};
ghost use Rattle.std.specs.BTreeMap.{insert_entry};
ghost use Rattle.rls_catalog.specs.Changed.{changed, changed_all, with_row, with_rows};
ghost use Rattle.rls_catalog.specs.State.{State, name_order};

use crate::catalog::Catalog;
use crate::change::{Change, RowChange};
use crate::grants::Grants;
use crate::lists::{Memberships, Policies};
use crate::role::RoleDef;
use crate::table_rows::Rows;
use rls_expr::TableDef;
use rls_expr::rls_value::Name;
use shared_map::{Share, Shared, SharedMap};
use std::alloc::{AllocError, Global};

impl Catalog {
    /// Puts the change on, and with one of a row those of the same table's rows that stand next behind it. Gives what is left of the
    /// others.
    pub(crate) fn put<'d>(
        &mut self,
        alloc: Global,
        change: &Change,
        others: &'d [Change],
    ) -> Result<&'d [Change], AllocError>
        ensures put { IfOk result (λ left. changed_all self.new left.now ≡ changed_all self.old (change.now ∷ others.now)) }
        ensures fewer { IfOk result (λ left. length left.now ≤ length others.now) }
    {
        match change {
            Change::Role(name, def) => self.put_role(alloc, name, *def)?,
            Change::Members(name, content) => self.put_members(alloc, name, content)?,
            Change::Table(name, def) => self.put_table(alloc, name, def)?,
            Change::Grants(name, content) => self.put_grants(alloc, name, content)?,
            Change::Policies(name, content) => self.put_policies(alloc, name, content)?,
            Change::Row(first) => return self.put_rows(alloc, first, others),
        }
        Ok(others)
    }

    fn put_role(&mut self, alloc: Global, name: &Name, def: RoleDef) -> Result<(), AllocError>
        ensures { OnOk result (self.new ≡ changed self.old (Change.Role name.now def)) }
    {
        put_under(&mut self.roles, alloc, name, def)
    }

    fn put_members(
        &mut self,
        alloc: Global,
        name: &Name,
        content: &Memberships,
    ) -> Result<(), AllocError>
        ensures { OnOk result (self.new ≡ changed self.old (Change.Members name.now content.now)) }
    {
        put_under(&mut self.members, alloc, name, content.copy()?)
    }

    fn put_table(&mut self, alloc: Global, name: &Name, def: &TableDef) -> Result<(), AllocError>
        ensures { OnOk result (self.new ≡ changed self.old (Change.Table name.now def.now)) }
    {
        let copied = def.copy(alloc)?;
        put_under(&mut self.tables, alloc, name, Share::new(alloc, copied)?)
    }

    fn put_grants(&mut self, alloc: Global, name: &Name, content: &Grants) -> Result<(), AllocError>
        ensures { OnOk result (self.new ≡ changed self.old (Change.Grants name.now content.now)) }
    {
        put_under(&mut self.grants, alloc, name, content.copy()?)
    }

    fn put_policies(
        &mut self,
        alloc: Global,
        name: &Name,
        content: &Policies,
    ) -> Result<(), AllocError>
        ensures { OnOk result (self.new ≡ changed self.old (Change.Policies name.now content.now)) }
    {
        put_under(&mut self.policies, alloc, name, content.copy()?)
    }

    /// Puts the change of a row on, and those of the same table's rows that stand next behind it: so the way to these rows is copied
    /// once. Gives what is left of the others.
    fn put_rows<'d>(
        &mut self,
        alloc: Global,
        first: &RowChange,
        others: &'d [Change],
    ) -> Result<&'d [Change], AllocError>
        ensures put { IfOk result (λ left. changed_all self.new left.now ≡ changed_all self.old (Change.Row first.now ∷ others.now)) }
        ensures fewer { IfOk result (λ left. length left.now ≤ length others.now) }
    {
        let Some(rows) = self.rows_before(first)? else {
            return Ok(others);
        };
        let rows = rows.with(alloc, first.id, &first.after)?;
        let (rows, left) = put_run(rows, alloc, &first.table, others)?;
        put_under(&mut self.rows, alloc, &first.table, rows)?;
        Ok(left)
    }

    /// The rows of the table that the change is of; none where it has none and gets none.
    #[tactic(auto, using(crate::proofs::RowsPut::none_stays, crate::proofs::RowsPut::none_put, crate::proofs::RowsPut::some_put))]
    fn rows_before(&self, change: &RowChange) -> Result<Option<Rows>, AllocError>
        ensures stays { IfOk result (λ before. IfNone before (changed self.now (Change.Row change.now) ≡ self.now)) }
        ensures put { IfOk result (λ before. IfSome before (λ rows. changed self.now (Change.Row change.now) ≡ with_rows change.now.table (with_row change.now.id change.now.after rows) self.now)) }
    {
        match self.rows.get(&change.table) {
            Some(rows) => Ok(Some(rows.copy()?)),
            None => match &change.after {
                Some(_) => Ok(Some(Rows::new())),
                None => Ok(None),
            },
        }
    }
}

/// Puts the content under the name.
fn put_under<V: Shared>(
    map: &mut SharedMap<Name, V>,
    alloc: Global,
    name: &Name,
    content: V,
) -> Result<(), AllocError>
    ensures { OnOk result (map.new ≡ insert_entry name_order map.old name.now content) }
{
    map.insert(alloc, name.copy()?, content)
}

/// Puts the first changes on the rows of the table, as far as they are of these, and gives the others.
fn put_run<'d>(
    mut rows: Rows,
    alloc: Global,
    table: &Name,
    mut changes: &'d [Change],
) -> Result<(Rows, &'d [Change]), AllocError>
    ensures put { IfOk result (λ left. (s : State) → changed_all (with_rows table.now left.0 s) left.1.now ≡ changed_all (with_rows table.now rows s) changes.entry.now) }
    ensures fewer { IfOk result (λ left. length left.1.now ≤ length changes.entry.now) }
{
    while let Some((change, others)) = next_row(table, changes) {
        rows = rows.with(alloc, change.id, &change.after)?;
        changes = others;
    }
    Ok((rows, changes))
}

/// The first change and the others, if it is one of the table's rows.
#[tactic(auto, using(crate::proofs::Walks::bytes_same))]
fn next_row<'d>(table: &Name, changes: &'d [Change]) -> Option<(&'d RowChange, &'d [Change])>
    ensures first { IfSome result (λ next. changes.now ≡ Change.Row next.0.now ∷ next.1.now) }
    ensures table { IfSome result (λ next. next.0.now.table ≡ table.now) }
{
    match changes.split_first() {
        Some((Change::Row(change), others)) => {
            if change.table.is(table) {
                Some((change, others))
            } else {
                None
            }
        }
        _ => None,
    }
}
