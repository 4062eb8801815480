//! Which columns expressions mention, and what GRANT and REVOKE name privileges for.

use crate::states::says;
use rls_expr::{
    Column, Expr, NamedTable, Scope, TableDef, columns_of, reads_column, resolve_columns,
};
use rls_statement::{Extent, Privileges, Statement};
use rls_text::parse;
use rls_value::{ColType, Items, Name, Refusal};
use std::alloc::Global;

/// Expressions over `t (a, b, c)` and `u (a, d)` with the columns of `t` in them. An inner table's columns don't count, nor does
/// another use of `t`; an outer one does, however deep.
#[test]
fn mentioned_columns(rt: HostRuntime) {
    let rows: [(&str, &[&str]); 11] = [
        ("1 = 1", &[]),
        ("b = 1", &["b"]),
        ("c = 1 OR a = b + 1 OR c IS NULL", &["a", "b", "c"]),
        ("c = 1 OR a = 1", &["a", "c"]),
        ("EXISTS (SELECT * FROM u)", &[]),
        ("EXISTS (SELECT 1 FROM u WHERE a = 1)", &[]),
        ("EXISTS (SELECT 1 FROM u WHERE d = t.b)", &["b"]),
        ("a IN (SELECT d FROM u WHERE u.a = c)", &["a", "c"]),
        ("EXISTS (SELECT 1 FROM t AS x WHERE x.a = 1)", &[]),
        ("EXISTS (SELECT 1 FROM t AS x WHERE x.a = t.b)", &["b"]),
        (
            "EXISTS (SELECT 1 FROM u WHERE EXISTS (SELECT 1 FROM u AS v WHERE v.d = t.c))",
            &["c"],
        ),
    ];
    for (text, want) in rows {
        assert!(rt; says(mentions(rt.alloc(), text, want), true), "{text}");
    }
}

/// One column alone, by its place: of `t (a, b, c)` the second, which stands inside a subquery; there is no fourth.
#[test]
fn one_column_is_read(rt: HostRuntime) {
    for (place, want) in [(0, false), (1, true), (2, false), (3, false)] {
        assert!(rt;
            says(
                reads(rt.alloc(), "EXISTS (SELECT 1 FROM u WHERE a = b)", place),
                want
            ),
            "{place}"
        );
    }
}

/// The whole table, where it is named, comes before the columns, which stand as they are written.
#[test]
fn granted_places(rt: HostRuntime) {
    let rows: [(bool, &[&str], &[Option<&str>]); 4] = [
        (false, &[], &[]),
        (true, &[], &[None]),
        (false, &["b", "a"], &[Some("b"), Some("a")]),
        (true, &["b", "a"], &[None, Some("b"), Some("a")]),
    ];
    for (whole, columns, want) in rows {
        assert!(rt;
            says(is_granted_on(rt.alloc(), whole, columns, want), true),
            "{whole}"
        );
    }
}

/// REVOKE of the whole takes what is on columns too; of columns it takes those alone.
#[test]
fn taken_places(rt: HostRuntime) {
    let rows: [(bool, &[&str], Option<&str>, bool); 8] = [
        (true, &[], None, true),
        (true, &[], Some("a"), true),
        (true, &["a"], Some("b"), true),
        (false, &["a", "b"], None, false),
        (false, &["a", "b"], Some("a"), true),
        (false, &["a", "b"], Some("b"), true),
        (false, &["a", "b"], Some("c"), false),
        (false, &[], Some("a"), false),
    ];
    for (whole, columns, column, want) in rows {
        assert!(rt;
            says(takes(rt.alloc(), whole, columns, column), want),
            "{whole}"
        );
    }
}

/// A list of columns is written for SELECT, INSERT or UPDATE; the whole of all four is none.
#[test]
fn lists_of_columns(rt: HostRuntime) {
    let rows: [(&[&str], &[&str], &[&str], bool); 5] = [
        (&[], &[], &[], false),
        (&["a"], &[], &[], true),
        (&[], &["a"], &[], true),
        (&[], &[], &["a"], true),
        (&["a"], &["a"], &["b"], true),
    ];
    for (select, insert, update, want) in rows {
        assert!(rt; says(have_columns(rt.alloc(), select, insert, update), want));
    }
}

// ---- expressions

fn column(alloc: Global, name: &str) -> Result<Column, Refusal> {
    Ok(Column {
        name: Name::new(alloc, name)?,
        kind: ColType::Integer,
        not_null: false,
    })
}

fn columns(alloc: Global, names: &[&str]) -> Result<Items<Column>, Refusal> {
    let mut columns = Items::new(alloc);
    for name in names {
        columns.push(column(alloc, name)?)?;
    }
    Ok(columns)
}

fn table(alloc: Global, names: &[&str]) -> Result<TableDef, Refusal> {
    let columns = columns(alloc, names)?;
    Ok(TableDef {
        owner: Name::new(alloc, "o")?,
        enabled: false,
        forced: false,
        columns,
        key: Items::new(alloc),
    })
}

/// The WHERE of the statement.
fn condition_in(statement: Statement) -> Option<Expr> {
    match statement {
        Statement::Select(select) => select.condition,
        statement => {
            drop(statement);
            None
        }
    }
}

/// The text as an expression that stands in the WHERE of a SELECT from `t`, resolved.
fn resolved(alloc: Global, text: &str, t: &TableDef, u: &TableDef) -> Result<Expr, Refusal> {
    let statement = format!(in alloc; "SELECT 1 FROM t WHERE {text}")?;
    let Some(expr) = condition_in(parse(alloc, statement.as_str())?) else {
        return Err(Refusal::Syntax);
    };
    let (of_t, of_u) = (Name::new(alloc, "t")?, Name::new(alloc, "u")?);
    let tables = [NamedTable::new(&of_t, t)?];
    let known = [NamedTable::new(&of_t, t)?, NamedTable::new(&of_u, u)?];
    let scope = Scope {
        tables: &tables,
        known: &known,
    };
    Ok(resolve_columns(alloc, &expr, &scope)?)
}

fn are_named(names: &Items<Name>, want: &[&str]) -> bool {
    for (place, name) in names.as_slice().iter().enumerate() {
        match want.get(place) {
            Some(text) if name.as_str() == *text => {}
            _ => return false,
        }
    }
    names.len() == want.len()
}

/// Whether these are the columns of `t` in the expression.
fn mentions(alloc: Global, text: &str, want: &[&str]) -> Result<bool, Refusal> {
    let t = table(alloc, &["a", "b", "c"])?;
    let u = table(alloc, &["a", "d"])?;
    let expr = resolved(alloc, text, &t, &u)?;
    let names = columns_of(alloc, &[&expr], t.columns.as_slice())?;
    Ok(are_named(&names, want))
}

/// Whether the column of `t` at the place stands in the expression.
fn reads(alloc: Global, text: &str, place: usize) -> Result<bool, Refusal> {
    let t = table(alloc, &["a", "b", "c"])?;
    let u = table(alloc, &["a", "d"])?;
    let expr = resolved(alloc, text, &t, &u)?;
    Ok(reads_column(&expr, place))
}

// ---- privileges

fn extent(alloc: Global, whole: bool, names: &[&str]) -> Result<Extent, Refusal> {
    let mut columns = Items::new(alloc);
    for name in names {
        columns.push(Name::new(alloc, name)?)?;
    }
    Ok(Extent { whole, columns })
}

fn is_place(place: &Option<Name>, want: Option<&str>) -> bool {
    match (place, want) {
        (Some(name), Some(text)) => name.as_str() == text,
        (None, None) => true,
        (_, _) => false,
    }
}

fn are_places(places: &Items<Option<Name>>, want: &[Option<&str>]) -> bool {
    for (number, place) in places.as_slice().iter().enumerate() {
        match want.get(number) {
            Some(wanted) if is_place(place, *wanted) => {}
            _ => return false,
        }
    }
    places.len() == want.len()
}

/// Whether these are granted.
fn is_granted_on(
    alloc: Global,
    whole: bool,
    columns: &[&str],
    want: &[Option<&str>],
) -> Result<bool, Refusal> {
    let extent = extent(alloc, whole, columns)?;
    let places = extent.granted_on(alloc)?;
    Ok(are_places(&places, want))
}

fn place_of(alloc: Global, column: Option<&str>) -> Result<Option<Name>, Refusal> {
    match column {
        Some(name) => Ok(Some(Name::new(alloc, name)?)),
        None => Ok(None),
    }
}

/// Whether REVOKE takes a grant on the column, or on the whole table.
fn takes(
    alloc: Global,
    whole: bool,
    columns: &[&str],
    column: Option<&str>,
) -> Result<bool, Refusal> {
    let extent = extent(alloc, whole, columns)?;
    let place = place_of(alloc, column)?;
    Ok(extent.takes_from(&place))
}

/// Whether a list is written where each privilege is named for the whole, and for these columns.
fn have_columns(
    alloc: Global,
    select: &[&str],
    insert: &[&str],
    update: &[&str],
) -> Result<bool, Refusal> {
    let select = extent(alloc, true, select)?;
    let insert = extent(alloc, true, insert)?;
    let update = extent(alloc, true, update)?;
    let privileges = Privileges {
        select,
        insert,
        update,
        delete: true,
    };
    Ok(privileges.has_columns())
}
