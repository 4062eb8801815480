//! The names in an expression, in text order.

ghost use Rattle.std.specs.Prelude.{◌≡◌, [], ◌∷◌, ◌++◌, map, OnOk};
ghost use Rattle.rls_expr.specs.ExprTerms.{query_of};
ghost use Rattle.rls_expr.specs.Naming.{names_of, names_all, step_of};
ghost use Rattle.rls_expr.specs.Naming as spec;
ghost use Rattle.rls_expr.specs.Terms.{maybe_term, terms_of};

use crate::column_name::ColumnName;
use crate::expr::{Expr, FromItem, Node, Subquery};
use rls_value::Name;
use rls_value::shared::Share;
use std::alloc::AllocError;

/// A step through the names of an expression, or of a statement.
#[derive(Clone, Copy)]
pub enum NameStep<'x> {
    /// A column is named.
    Column(&'x ColumnName),
    /// A column of the target is named, which no qualifier may stand before.
    Target(&'x Name),
    /// A subquery begins, which names its table.
    Begin(&'x FromItem),
    /// It ends.
    End,
}

/// Puts the names of the expression behind the steps.
#[cycle(names)]
pub fn put_names<'x>(steps: &mut Vec<NameStep<'x>>, expr: &'x Expr) -> Result<(), AllocError>
    ensures { OnOk result (map step_of steps.new.items ≡ map step_of steps.old.items ++ names_of expr.now) }
{
    match expr.node() {
        Node::Literal(_) | Node::Var(_) | Node::CurrentUser => Ok(()),
        Node::Column(name) => put_step(steps, NameStep::Column(name)),
        Node::Compare(_, left, right) => {
            put_names(steps, left)?;
            put_names(steps, right)
        }
        Node::And(parts) | Node::Or(parts) | Node::Sum(_, parts) => put_all_names(steps, parts),
        Node::Not(operand) | Node::IsNull(operand) | Node::IsNotNull(operand) => {
            put_names(steps, operand)
        }
        Node::InList(left, list) | Node::NotInList(left, list) => {
            put_names(steps, left)?;
            put_all_names(steps, list)
        }
        Node::Exists(query) | Node::Scalar(query) => put_query_names(steps, query),
        Node::InSubquery(left, query) | Node::NotInSubquery(left, query) => {
            put_names(steps, left)?;
            put_query_names(steps, query)
        }
    }
}

/// Those of one expression after another.
#[cycle(names)]
pub fn put_all_names<'x>(steps: &mut Vec<NameStep<'x>>, parts: &'x [Expr]) -> Result<(), AllocError>
    ensures { OnOk result (map step_of steps.new.items ≡ map step_of steps.old.items ++ names_all (terms_of parts.now)) }
{
    for part in parts {
        put_names(steps, part)?;
    }
    Ok(())
}

/// Those of a condition, if there is one.
#[cycle(names)]
pub fn put_names_if<'x>(
    steps: &mut Vec<NameStep<'x>>,
    condition: &'x Option<Expr>,
) -> Result<(), AllocError>
    ensures { OnOk result (map step_of steps.new.items ≡ map step_of steps.old.items ++ names_all (maybe_term condition.now)) }
{
    match condition {
        None => Ok(()),
        Some(condition) => put_names(steps, condition),
    }
}

/// Those of a condition that is shared, if there is one.
pub fn put_shared_names<'x>(
    steps: &mut Vec<NameStep<'x>>,
    condition: &'x Option<Share<Expr>>,
) -> Result<(), AllocError>
    ensures { OnOk result (map step_of steps.new.items ≡ map step_of steps.old.items ++ names_all (maybe_term condition.now)) }
{
    match condition {
        None => Ok(()),
        Some(condition) => put_names(steps, condition.get()),
    }
}

#[cycle(names)]
fn put_query_names<'x>(steps: &mut Vec<NameStep<'x>>, query: &'x Subquery) -> Result<(), AllocError>
    ensures { OnOk result (map step_of steps.new.items ≡ map step_of steps.old.items ++ spec.query_names (query_of query.now)) }
{
    put_step(steps, NameStep::Begin(&query.from))?;
    put_all_names(steps, &query.items)?;
    put_names_if(steps, &query.condition)?;
    put_step(steps, NameStep::End)
}

/// Puts one step behind the others.
pub fn put_step<'x>(steps: &mut Vec<NameStep<'x>>, step: NameStep<'x>) -> Result<(), AllocError>
    ensures { OnOk result (map step_of steps.new.items ≡ map step_of steps.old.items ++ step_of step.entry ∷ []) }
{
    steps.push(step)?;
    Ok(())
}
