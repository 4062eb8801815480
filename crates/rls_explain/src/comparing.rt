//! Comparisons with the values of their sides.

ghost use Rattle.std.specs.Prelude.{◌≡◌, ◌++◌, Some, map, IfOk, OnOk};
ghost use Rattle.std.specs.List.{flat_map};
ghost use Rattle.rls_meaning.specs.rls_guard.specs.rls_catalog.specs.State.{table_of};
ghost use Rattle.rls_expr.specs.{ExprTerms.query_of, Terms.Literal, Terms.terms_of};
ghost use Rattle.rls_expr.specs.Terms as t;
ghost use Rattle.rls_meaning.specs.rls_guard.specs.rls_evaluation.specs.{Environments.over, Holding.Holds, Scoping.env_of, Showing.shows};
ghost use Rattle.rls_explain.specs.Details as spec;
ghost use Rattle.rls_explain.specs.Found.{literals_of, rows_shown_found, sight_found, value_found};

use crate::seeing::rows_seen;
use crate::telling::ranged_over;
use crate::valuing::{Judged, value_on, value_over};
use rls_expr::{Comparison, Expr, Node, Subquery, boxed};
use rls_meaning::rls_guard::rls_catalog::{BorrowedRow, Catalog};
use rls_meaning::rls_guard::rls_evaluation::{
    Env, ExecutionState, Looked, Scoped, SecuredRelation, Tables, VisibleRelations, meets_condition,
};
use rls_value::{Value, or_drop};
use std::alloc::{AllocError, Global};

/// A comparison with the values in place of its sides; none of what compares nothing.
pub fn with_values<'a, 'c>(
    alloc: Global,
    catalog: &'c Catalog,
    judged: Judged<'a, 'c>,
    expr: &Expr,
) -> Result<Option<Expr>, AllocError>
    ensures { IfOk result (λ it. it ≡ spec.with_values (sight_found catalog.now judged.entry.relations.now judged.entry.role.now) (over judged.entry.role.now judged.entry.row.now) expr.now) }
{
    match expr.node() {
        Node::Compare(how, left, right) => compared(alloc, catalog, judged, *how, left, right),
        Node::IsNull(operand) => null_test(alloc, catalog, judged, operand, false),
        Node::IsNotNull(operand) => null_test(alloc, catalog, judged, operand, true),
        Node::InList(operand, list) => in_list(alloc, catalog, judged, operand, list, false),
        Node::NotInList(operand, list) => in_list(alloc, catalog, judged, operand, list, true),
        Node::InSubquery(operand, query) => {
            in_subquery(alloc, catalog, judged, operand, query, false)
        }
        Node::NotInSubquery(operand, query) => {
            in_subquery(alloc, catalog, judged, operand, query, true)
        }
        Node::Literal(_)
        | Node::Column(_)
        | Node::Var(_)
        | Node::CurrentUser
        | Node::And(_)
        | Node::Or(_)
        | Node::Not(_)
        | Node::Exists(_)
        | Node::Scalar(_)
        | Node::Sum(_, _) => Ok(None),
    }
}

fn compared<'a, 'c>(
    alloc: Global,
    catalog: &'c Catalog,
    judged: Judged<'a, 'c>,
    how: Comparison,
    left: &Expr,
    right: &Expr,
) -> Result<Option<Expr>, AllocError>
    ensures { IfOk result (λ it. it ≡ Some (t.Compare how (spec.literal_by (sight_found catalog.now judged.entry.relations.now judged.entry.role.now) (over judged.entry.role.now judged.entry.row.now) left.now) (spec.literal_by (sight_found catalog.now judged.entry.relations.now judged.entry.role.now) (over judged.entry.role.now judged.entry.row.now) right.now))) }
{
    let left = literal_on(alloc, catalog, judged, left)?;
    let right = or_drop!(literal_on(alloc, catalog, judged, right), left);
    Ok(Some(Expr::new(Node::Compare(how, left, right))))
}

/// IS NULL or IS NOT NULL.
fn null_test<'a, 'c>(
    alloc: Global,
    catalog: &'c Catalog,
    judged: Judged<'a, 'c>,
    operand: &Expr,
    is_negated: bool,
) -> Result<Option<Expr>, AllocError>
    ensures { IfOk result (λ it. it ≡ Some (spec.null_test is_negated (spec.literal_by (sight_found catalog.now judged.entry.relations.now judged.entry.role.now) (over judged.entry.role.now judged.entry.row.now) operand.now))) }
{
    let operand = literal_on(alloc, catalog, judged, operand)?;
    Ok(Some(null_tested(operand, is_negated)))
}

fn null_tested(operand: Box<Expr>, is_negated: bool) -> Expr
    ensures { result ≡ spec.null_test is_negated operand.value }
{
    if is_negated {
        Expr::new(Node::IsNotNull(operand))
    } else {
        Expr::new(Node::IsNull(operand))
    }
}

/// IN or NOT IN with a list.
fn in_list<'a, 'c>(
    alloc: Global,
    catalog: &'c Catalog,
    judged: Judged<'a, 'c>,
    operand: &Expr,
    list: &[Expr],
    is_negated: bool,
) -> Result<Option<Expr>, AllocError>
    ensures { IfOk result (λ it. it ≡ Some (spec.among is_negated (spec.literal_by (sight_found catalog.now judged.entry.relations.now judged.entry.role.now) (over judged.entry.role.now judged.entry.row.now) operand.now) (spec.literals (spec.values_by (sight_found catalog.now judged.entry.relations.now judged.entry.role.now) (over judged.entry.role.now judged.entry.row.now) (terms_of list.now))))) }
{
    let operand = literal_on(alloc, catalog, judged, operand)?;
    let list = or_drop!(literals_on(alloc, catalog, judged, list), operand);
    Ok(Some(among(operand, list, is_negated)))
}

/// IN or NOT IN with a subquery.
fn in_subquery<'a, 'c>(
    alloc: Global,
    catalog: &'c Catalog,
    judged: Judged<'a, 'c>,
    operand: &Expr,
    query: &Subquery,
    is_negated: bool,
) -> Result<Option<Expr>, AllocError>
    ensures { IfOk result (λ it. it ≡ Some (spec.among is_negated (spec.literal_by (sight_found catalog.now judged.entry.relations.now judged.entry.role.now) (over judged.entry.role.now judged.entry.row.now) operand.now) (spec.literals (spec.selected_by (sight_found catalog.now judged.entry.relations.now judged.entry.role.now) (over judged.entry.role.now judged.entry.row.now) (query_of query.now))))) }
{
    let operand = literal_on(alloc, catalog, judged, operand)?;
    let list = or_drop!(selected_by(alloc, catalog, judged, query), operand);
    Ok(Some(among(operand, list, is_negated)))
}

fn among(operand: Box<Expr>, list: Vec<Expr>, is_negated: bool) -> Expr
    ensures { result ≡ spec.among is_negated operand.value (terms_of list.items) }
{
    if is_negated {
        Expr::new(Node::NotInList(operand, list))
    } else {
        Expr::new(Node::InList(operand, list))
    }
}

/// The value of the expression as a literal.
fn literal_on<'a, 'c>(
    alloc: Global,
    catalog: &'c Catalog,
    judged: Judged<'a, 'c>,
    expr: &Expr,
) -> Result<Box<Expr>, AllocError>
    ensures { IfOk result (λ it. it.value ≡ Literal (value_found catalog.now (shows judged.entry.relations.now judged.entry.role.now) (over judged.entry.role.now judged.entry.row.now) expr.now)) }
{
    let value = value_on(alloc, catalog, judged, expr)?;
    boxed(alloc, literal(value))
}

fn literal(value: Value) -> Expr
    ensures { result ≡ Literal value }
{
    Expr::new(Node::Literal(value))
}

/// The value of each as a literal.
fn literals_on<'a, 'c>(
    alloc: Global,
    catalog: &'c Catalog,
    judged: Judged<'a, 'c>,
    list: &[Expr],
) -> Result<Vec<Expr>, AllocError>
    ensures { IfOk result (λ it. terms_of it.items ≡ spec.literals (spec.values_by (sight_found catalog.now judged.entry.relations.now judged.entry.role.now) (over judged.entry.role.now judged.entry.row.now) (terms_of list.now))) }
{
    let mut literals = Vec::with_capacity(alloc, list.len())?;
    for expr in list {
        literals.push(literal(value_on(alloc, catalog, judged, expr)?))?;
    }
    Ok(literals)
}

/// What the subquery selects, as literals.
fn selected_by<'a, 'c>(
    alloc: Global,
    catalog: &'c Catalog,
    judged: Judged<'a, 'c>,
    query: &Subquery,
) -> Result<Vec<Expr>, AllocError>
    ensures { IfOk result (λ it. terms_of it.items ≡ spec.literals (spec.selected_by (sight_found catalog.now judged.entry.relations.now judged.entry.role.now) (over judged.entry.role.now judged.entry.row.now) (query_of query.now))) }
{
    let rows = ranged_over(alloc, catalog, judged, query)?;
    let selected = selected_among(alloc, catalog, judged, query, rows.as_slice());
    drop(rows);
    selected
}

#[tactic(auto, using(crate::proofs::DetailLemmas::selected_later))]
fn selected_among<'a, 'c>(
    alloc: Global,
    catalog: &'c Catalog,
    judged: Judged<'a, 'c>,
    query: &Subquery,
    rows: &[BorrowedRow<'c>],
) -> Result<Vec<Expr>, AllocError>
    ensures { IfOk result (λ it. terms_of it.items ≡ spec.literals (spec.selected_from (sight_found catalog.now judged.entry.relations.now judged.entry.role.now) (over judged.entry.role.now judged.entry.row.now) (query_of query.now) (rows_shown_found catalog.now judged.entry.role.now query.now.from.table (table_of catalog.now query.now.from.table) rows.now))) }
{
    let seen = rows_seen(alloc, catalog, judged.role, &query.from.table, rows)?;
    let selected = selected_of(alloc, catalog, judged, query, &seen);
    drop(seen);
    selected
}

/// What it selects of these rows. What was shown for one row is kept for the others.
fn selected_of<'a, 'c>(
    alloc: Global,
    catalog: &'c Catalog,
    judged: Judged<'a, 'c>,
    query: &Subquery,
    rows: &[&BorrowedRow<'c>],
) -> Result<Vec<Expr>, AllocError>
    ensures { IfOk result (λ it. terms_of it.items ≡ spec.literals (spec.selected_from (sight_found catalog.now judged.entry.relations.now judged.entry.role.now) (over judged.entry.role.now judged.entry.row.now) (query_of query.now) (map (λ row. row.now) rows.now))) }
{
    let mut execution = ExecutionState::new(alloc);
    let mut tables = Looked::new(catalog);
    let selected = select_each(alloc, &mut tables, &mut execution, judged, query, rows);
    drop(execution);
    selected
}

fn select_each<'a, 'c, T: Tables>(
    alloc: Global,
    tables: &mut T,
    execution: &mut ExecutionState,
    judged: Judged<'a, 'c>,
    query: &Subquery,
    rows: &[&BorrowedRow<'c>],
) -> Result<Vec<Expr>, AllocError>
    requires { Holds judged.relations.now judged.role.now (T.state tables.old) execution.old }
    ensures { IfOk result (λ it. it.items ≡ flat_map (literals_of (sight_found (T.state tables.old) judged.entry.relations.now judged.entry.role.now) (over judged.entry.role.now judged.entry.row.now) (query_of query.now)) (map (λ row. row.now) rows.now)) }
{
    let mut selected = Vec::new(alloc);
    for stored in rows {
        select_from(
            alloc,
            tables,
            execution,
            judged,
            query,
            stored,
            &mut selected,
        )?;
    }
    Ok(selected)
}

/// Its item of the row, where the row meets WHERE, behind the others.
fn select_from<'a, 'c, T: Tables>(
    alloc: Global,
    tables: &mut T,
    execution: &mut ExecutionState,
    judged: Judged<'a, 'c>,
    query: &Subquery,
    stored: &BorrowedRow<'c>,
    selected: &mut Vec<Expr>,
) -> Result<(), AllocError>
    requires { Holds judged.relations.now judged.role.now (T.state tables.old) execution.old }
    ensures selected { OnOk result (selected.new.items ≡ selected.old.items ++ literals_of (sight_found (T.state tables.old) judged.entry.relations.now judged.entry.role.now) (over judged.entry.role.now judged.entry.row.now) (query_of query.now) stored.now) }
    ensures stands { OnOk result (T.state tables.new ≡ T.state tables.old) }
    ensures holds { OnOk result (Holds judged.entry.relations.now judged.entry.role.now (T.state tables.new) execution.new) }
{
    let nothing = Scoped::Nothing;
    let outer = Scoped::Over(judged.row, &nothing);
    let env = Env {
        user: judged.role,
        rows: Scoped::Over(stored.row(), &outer),
    };
    let relations = judged.relations;
    let visible = VisibleRelations { relations, from: 0 };
    if meets_condition(alloc, tables, execution, visible, &query.condition, &env)? {
        let item = item_over(alloc, tables, execution, relations, &env, &query.items)?;
        selected.push(literal(item))?;
    }
    Ok(())
}

/// The first item; null where there is none.
fn item_over<'a, 'c, T: Tables>(
    alloc: Global,
    tables: &mut T,
    execution: &mut ExecutionState,
    relations: &'a [SecuredRelation<'c>],
    env: &Env<'a>,
    items: &'a [Expr],
) -> Result<Value, AllocError>
    requires { Holds relations.now env.now.user.now (T.state tables.old) execution.old }
    ensures item { IfOk result (λ item. item ≡ spec.item_by (sight_found (T.state tables.old) relations.now env.now.user.now) (env_of env.now) (terms_of items.now)) }
    ensures stands { OnOk result (T.state tables.new ≡ T.state tables.old) }
    ensures holds { OnOk result (Holds relations.now env.now.user.now (T.state tables.new) execution.new) }
{
    match items {
        [item, ..] => value_over(alloc, tables, execution, relations, env, item),
        [] => Ok(Value::Null),
    }
}
