//! The privileges that GRANT and REVOKE name, and what of a table each is named for.

ghost use Rattle.std.specs.Prelude.{◌≡◌, ◌++◌, [], map, Some, false, IfOk, OnOk};
ghost use Rattle.std.specs.Option.{option_map_or};
ghost use Rattle.rls_expr.specs.rls_value.specs.Names.{one_of};
ghost use Rattle.rls_statement.specs.Extents as spec;

use rls_expr::rls_value::{Items, Name, Privilege};
use std::alloc::{AllocError, Global};

/// What of a table a privilege is named for: the whole, and columns, as they are written.
#[derive(Drop)]
pub struct Extent {
    pub whole: bool,
    pub columns: Items<Name>,
}

/// The privileges that are named, each with what it is named for. DELETE is of whole tables alone.
#[derive(Drop)]
pub struct Privileges {
    pub select: Extent,
    pub insert: Extent,
    pub update: Extent,
    pub delete: bool,
}

impl Extent {
    /// The whole, or nothing.
    pub fn new(alloc: Global, whole: bool) -> Extent
        ensures { result ≡ record { whole = whole; columns = [] } }
    {
        Extent {
            whole,
            columns: Items::new(alloc),
        }
    }

    /// Whether the whole is named, or a column.
    pub fn is_named(&self) -> bool
        ensures { result ≡ spec.names_some self.now }
    {
        self.whole || self.has_columns()
    }

    /// Whether a list of columns is written.
    pub fn has_columns(&self) -> bool
        ensures { result ≡ spec.has_list self.now }
    {
        match self.columns.as_slice() {
            [] => false,
            [_, ..] => true,
        }
    }

    /// What is granted: on the table as a whole, where it is named so, then on each column.
    pub fn granted_on(&self, alloc: Global) -> Result<Items<Option<Name>>, AllocError>
        ensures { IfOk result (λ places. places ≡ spec.granted_on self.now) }
    {
        let mut places = Items::new(alloc);
        if self.whole {
            places.push(None)?;
        }
        put_columns(&mut places, self.columns.as_slice())?;
        Ok(places)
    }

    /// Whether REVOKE takes a grant on that column, or on the whole table: that of the whole takes each, that of columns
    /// those on them alone.
    pub fn takes_from(&self, column: &Option<Name>) -> bool
        ensures { result ≡ spec.takes_from self.now column.now }
    {
        self.whole || is_among(self.columns.as_slice(), column)
    }
}

/// Puts each column behind what is there.
fn put_columns(places: &mut Items<Option<Name>>, columns: &[Name]) -> Result<(), AllocError>
    ensures { OnOk result (places.new ≡ places.old ++ map Some columns.now) }
{
    for column in columns {
        places.push(Some(column.copy()?))?;
    }
    Ok(())
}

fn is_among(columns: &[Name], column: &Option<Name>) -> bool
    ensures { result ≡ option_map_or (one_of columns.now) column.now false }
{
    match column {
        None => false,
        Some(column) => is_one_of(columns, column),
    }
}

fn is_one_of(mut names: &[Name], name: &Name) -> bool
    ensures { result ≡ one_of names.entry.now name.now }
{
    while let [first, rest @ ..] = names {
        if first.is(name) {
            return true;
        }
        names = rest;
    }
    false
}

impl Privileges {
    /// Whether the privilege is named.
    pub fn is_named(&self, privilege: Privilege) -> bool
        ensures { result ≡ spec.is_named self.now privilege }
    {
        match privilege {
            Privilege::Select => self.select.is_named(),
            Privilege::Insert => self.insert.is_named(),
            Privilege::Update => self.update.is_named(),
            Privilege::Delete => self.delete,
        }
    }

    /// Whether a list of columns is written for some privilege.
    pub fn has_columns(&self) -> bool
        ensures { result ≡ spec.has_columns self.now }
    {
        self.select.has_columns() || (self.insert.has_columns() || self.update.has_columns())
    }
}
