//! Values that are made, and expressions that are resolved.

use crate::opening::{GRANTS, state_after};
use rls_session::rls_core::rls_guard::rls_catalog::Catalog;
use rls_session::rls_core::rls_guard::rls_catalog::rls_expr::{
    Expr, NamedTable, Scope, TableDef, columns_of, resolve_columns,
};
use rls_session::rls_core::rls_guard::rls_catalog::rls_value::{Name, Refusal, Row, Text, Value};
use rls_session::rls_core::rls_guard::rls_role::rls_statement::Statement;
use rls_session::rls_text::parse;
use scenario::{Scenario, both, play, taken};
use std::alloc::{AllocError, Global};

/// What is made.
#[derive(Clone, Copy)]
enum Ask {
    Name,
    Text,
    /// A text made of a string.
    TextOfString,
    Row,
    Values,
    /// A condition over the table `t` whose columns are resolved, and the columns that it mentions.
    Resolved,
    Columns,
}

/// Each call, and the number that is expected: of bytes, values or columns.
const ASKS: [(&str, Ask, usize); 7] = [
    ("Name::new", Ask::Name, 7),
    ("Text::new", Ask::Text, 13),
    ("Text::from_string", Ask::TextOfString, 13),
    ("Row::new", Ask::Row, 2),
    ("Row::to_vec", Ask::Values, 2),
    ("resolve_columns", Ask::Resolved, 0),
    ("columns_of", Ask::Columns, 2),
];

/// A statement over the table `t`.
const SELECT: &str = "SELECT k FROM t WHERE n = 1 OR k IN (SELECT n FROM t AS o WHERE o.k = t.n)";

/// A state, and the name of its table.
#[derive(Drop)]
struct Place {
    table: Name,
    state: Catalog,
}

impl Place {
    fn new(alloc: Global) -> Result<Place, Refusal> {
        let (table, state) = both(Name::new(alloc, "t"), state_after(alloc, &GRANTS))?;
        Ok(Place { table, state })
    }

    fn table(&self) -> Result<&TableDef, Refusal> {
        self.state.table(&self.table).ok_or(Refusal::Foreign)
    }

    /// The condition over the table with its columns resolved.
    fn resolved(&self, alloc: Global, condition: &Expr) -> Result<Expr, Refusal> {
        resolved(alloc, &self.table, self.table()?, condition)
    }

    /// How many columns of the table the condition mentions.
    fn columns(&self, alloc: Global, condition: &Expr) -> Result<usize, Refusal> {
        let columns = self.table()?.columns.as_slice();
        let mentioned = columns_of(alloc, &[condition], columns)?;
        Ok(mentioned.len())
    }
}

/// The condition of the statement.
fn condition(alloc: Global) -> Result<Expr, Refusal> {
    let statement = parse(alloc, SELECT)?;
    let condition = condition_of(alloc, &statement);
    drop(statement);
    condition
}

#[derive(Drop)]
struct Asking {
    ask: Ask,
    row: Row,
    place: Place,
    condition: Expr,
    resolved: Expr,
    wanted: usize,
}

impl Asking {
    fn new(alloc: Global, ask: Ask, wanted: usize) -> Result<Asking, Refusal> {
        let kept = both(row(alloc), condition(alloc));
        let ((row, condition), (place, resolved)) = both(kept, placed(alloc))?;
        Ok(Asking {
            ask,
            row,
            place,
            condition,
            resolved,
            wanted,
        })
    }

    /// Resolves the condition.
    fn resolve(&self, alloc: Global) -> Result<usize, Refusal> {
        let resolved = self.place.resolved(alloc, &self.condition)?;
        drop(resolved);
        Ok(0)
    }
}

/// A state, and the condition with its columns resolved.
fn placed(alloc: Global) -> Result<(Place, Expr), Refusal> {
    let (place, condition) = both(Place::new(alloc), condition(alloc))?;
    let resolved = place.resolved(alloc, &condition);
    drop(condition);
    match resolved {
        Ok(resolved) => Ok((place, resolved)),
        Err(refusal) => {
            drop(place);
            Err(refusal)
        }
    }
}

fn row(alloc: Global) -> Result<Row, Refusal> {
    let values = vec![in alloc; Value::Int(1), Value::Null]?;
    taken(Row::new(values))
}

/// How many bytes, or values, what was made has.
fn bytes_of_name(alloc: Global) -> Result<usize, Refusal> {
    let name = Name::new(alloc, "Users_1")?;
    Ok(name.as_str().len())
}

fn bytes_of_text(came: Result<Text, AllocError>) -> Result<usize, Refusal> {
    let text = came?;
    Ok(text.as_str().len())
}

fn string(alloc: Global) -> Result<String, Refusal> {
    Ok(String::from_str(alloc, "barely secret")?)
}

fn bytes_of_taken(alloc: Global) -> Result<usize, Refusal> {
    bytes_of_text(Text::from_string(string(alloc)?))
}

fn values_of_row(alloc: Global) -> Result<usize, Refusal> {
    let row = row(alloc)?;
    let values = row.as_slice().len();
    drop(row);
    Ok(values)
}

fn values_of_list(alloc: Global, row: &Row) -> Result<usize, Refusal> {
    let values = row.to_vec(alloc)?;
    Ok(values.len())
}

/// The condition of a SELECT.
fn condition_of(alloc: Global, statement: &Statement) -> Result<Expr, Refusal> {
    match statement {
        Statement::Select(select) => match &select.condition {
            Some(condition) => taken(condition.copy(alloc)),
            None => Err(Refusal::Foreign),
        },
        _ => Err(Refusal::Foreign),
    }
}

fn resolved(
    alloc: Global,
    name: &Name,
    table: &TableDef,
    condition: &Expr,
) -> Result<Expr, Refusal> {
    let (tables, known) = both(
        taken(NamedTable::new(name, table)),
        taken(NamedTable::new(name, table)),
    )?;
    let (tables, known) = ([tables], [known]);
    let resolved = resolved_in(alloc, &tables, &known, condition);
    drop(tables);
    drop(known);
    resolved
}

fn resolved_in(
    alloc: Global,
    tables: &[NamedTable<'_>],
    known: &[NamedTable<'_>],
    condition: &Expr,
) -> Result<Expr, Refusal> {
    let scope = Scope { tables, known };
    taken(resolve_columns(alloc, condition, &scope))
}

impl Scenario for Asking {
    type Answer = usize;

    fn call(&mut self, alloc: Global) -> Result<usize, Refusal> {
        match self.ask {
            Ask::Name => bytes_of_name(alloc),
            Ask::Text => bytes_of_text(Text::new(alloc, "barely secret")),
            Ask::TextOfString => bytes_of_taken(alloc),
            Ask::Row => values_of_row(alloc),
            Ask::Values => values_of_list(alloc, &self.row),
            Ask::Resolved => self.resolve(alloc),
            Ask::Columns => self.place.columns(alloc, &self.resolved),
        }
    }

    fn is_answer(&self, answer: &usize, _alloc: Global) -> Result<bool, Refusal> {
        Ok(*answer == self.wanted)
    }
}

pub fn play_all(rt: &impl Print, alloc: Global) {
    for (call, ask, wanted) in ASKS {
        let object = Asking::new(alloc, ask, wanted);
        play(rt, alloc, call, object, Asking::new(alloc, ask, wanted));
    }
}
