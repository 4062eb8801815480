//! The lines of a script that insert rows.

use crate::script::Script;
use rls_expr::{Expr, Node};
use rls_meaning::rls_guard::rls_source::Reading;
use rls_printing::print_expr;
use rls_rows::State;
use rls_value::{Name, Value};
use std::alloc::{AllocError, Global};

// The most bytes that a line's command has.
const MAX_COMMAND: usize = 65_536;

/// The table's rows in the order of their numbers, as many in a line as fit.
pub(crate) fn fill_table(
    alloc: Global,
    state: &State,
    table: &Name,
    script: &mut Script,
) -> Result<(), AllocError> {
    let mut source = state.view();
    let rows = source.scan(alloc, table)?;
    let mut command = String::new(alloc);
    for row in rows.as_slice() {
        let tuple = tuple_text(alloc, row.row().as_slice())?;
        if is_over(command.as_str(), tuple.as_str()) {
            script.line(command.as_str())?;
            command = String::new(alloc);
        }
        push_tuple(alloc, &mut command, table, tuple.as_str())?;
    }
    end(command.as_str(), script)
}

/// Whether the command is begun, and is too long with the tuple.
fn is_over(command: &str, tuple: &str) -> bool {
    !command.is_empty() && command.len().saturating_add(tuple.len()) > MAX_COMMAND - 2
}

fn push_tuple(
    alloc: Global,
    command: &mut String,
    table: &Name,
    tuple: &str,
) -> Result<(), AllocError> {
    if command.is_empty() {
        let begin = format!(in alloc; "INSERT INTO {table} VALUES ")?;
        command.push_str(begin.as_str())?;
    } else {
        command.push_str(", ")?;
    }
    command.push_str(tuple)
}

fn end(command: &str, script: &mut Script) -> Result<(), AllocError> {
    if command.is_empty() {
        Ok(())
    } else {
        script.line(command)
    }
}

/// The values as literals, in parentheses.
fn tuple_text(alloc: Global, values: &[Value]) -> Result<String, AllocError> {
    let mut text = "(".to_string(alloc)?;
    for (place, value) in values.iter().enumerate() {
        if place > 0 {
            text.push_str(", ")?;
        }
        push_value(alloc, &mut text, value)?;
    }
    text.push_str(")")?;
    Ok(text)
}

fn push_value(alloc: Global, text: &mut String, value: &Value) -> Result<(), AllocError> {
    let literal = Expr::new(Node::Literal(value.copy()?));
    let printed = print_expr(alloc, &literal)?;
    text.push_str(printed.as_str())
}
