//! The columns that GRANT and REVOKE name.

ghost use Rattle.std.specs.Prelude.{◌≡◌, [], suc, IfOk};
ghost use Rattle.std.specs.{List.position_or_len, Str.bytes_eq};
ghost use Rattle.rls_value.specs.Giving.{Gives};
ghost use Rattle.rls_role.specs.rls_source.specs.Sequences.{each_or_refused};
ghost use Rattle.rls_role.specs.rls_statement.specs.Extents as extents;
ghost use Rattle.rls_role.specs.rls_statement.specs.Extents.{extent_of};
ghost use Rattle.rls_grant.specs.Columns as spec;
ghost use Rattle.rls_grant.specs.Columns.{column_or_undefined, columns_or_undefined, option_or_unsupported};

use rls_role::rls_statement::{Extent, Privileges};
use rls_value::{Items, Name, NameKind, Privilege, Refusal};
use rls_verdict::rls_expr::{Column, TableDef};
use std::alloc::{AllocError, Global};

/// The first of the columns that isn't there is undefined: SELECT's come first, then INSERT's, then UPDATE's.
#[tactic(auto, using(crate::proofs::ColumnLaws::columns_in_order))]
pub(crate) fn require_columns(table: &TableDef, named: &Privileges) -> Result<(), Refusal>
    ensures { Gives result (columns_or_undefined table.now.columns named.now) }
{
    require_each(table, named.select.columns.as_slice())?;
    require_each(table, named.insert.columns.as_slice())?;
    require_each(table, named.update.columns.as_slice())
}

fn require_each(table: &TableDef, names: &[Name]) -> Result<(), Refusal>
    ensures { Gives result (each_or_refused (column_or_undefined table.now.columns) names.now) }
{
    for name in names {
        require_column(table, name)?;
    }
    Ok(())
}

fn require_column(table: &TableDef, name: &Name) -> Result<(), Refusal>
    ensures { Gives result (column_or_undefined table.now.columns name.now) }
{
    match table.column(name) {
        Some(_) => Ok(()),
        None => Err(Refusal::Undefined(NameKind::Column, name.copy()?)),
    }
}

/// Refused where a grant option is asked for, or taken, beside a list of columns.
pub(crate) fn require_whole(option: bool, named: &Privileges) -> Result<(), Refusal>
    ensures { Gives result (option_or_unsupported option named.now) }
{
    if option && named.has_columns() {
        return Err(Refusal::Unsupported);
    }
    Ok(())
}

/// What the privilege is granted on: the table as a whole, where it is named so, then each column.
pub(crate) fn granted_on(
    alloc: Global,
    named: &Privileges,
    privilege: Privilege,
) -> Result<Items<Option<Name>>, AllocError>
    ensures { IfOk result (λ on. on ≡ extents.granted_on (extent_of named.now privilege)) }
{
    match privilege {
        Privilege::Select => named.select.granted_on(alloc),
        Privilege::Insert => named.insert.granted_on(alloc),
        Privilege::Update => named.update.granted_on(alloc),
        Privilege::Delete => whole_or_none(alloc, named.delete),
    }
}

fn whole_or_none(alloc: Global, whole: bool) -> Result<Items<Option<Name>>, AllocError>
    ensures { IfOk result (λ on. on ≡ extents.granted_on (record { whole = whole; columns = [] })) }
{
    let extent = Extent::new(alloc, whole);
    let on = extent.granted_on(alloc);
    drop(extent);
    on
}

/// Whether REVOKE of the privilege takes a grant on that column, or on the whole table.
#[tactic(auto, using(crate::proofs::ColumnLaws::whole_alone))]
pub(crate) fn takes_from(named: &Privileges, privilege: Privilege, column: &Option<Name>) -> bool
    ensures { result ≡ extents.takes_from (extent_of named.now privilege) column.now }
{
    match privilege {
        Privilege::Select => named.select.takes_from(column),
        Privilege::Insert => named.insert.takes_from(column),
        Privilege::Update => named.update.takes_from(column),
        Privilege::Delete => named.delete,
    }
}

/// Where grants on the column stand among those on the table: by its place, counted from one; 0 for the whole table.
pub(crate) fn column_place(columns: &[Column], column: &Option<Name>) -> usize
    ensures { result ≡ spec.column_place columns.now column.now }
{
    match column {
        None => 0,
        Some(name) => place_of(columns, name),
    }
}

fn place_of(columns: &[Column], name: &Name) -> usize
    ensures { result ≡ suc (position_or_len (λ column. bytes_eq column.name name.now) columns.now) }
{
    let mut place = 1;
    let mut rest = columns;
    while let [column, others @ ..] = rest {
        if column.name.is(name) {
            break;
        }
        place += 1;
        rest = others;
    }
    place
}
