//! What expressions of a condition come to.

ghost use Rattle.std.specs.Prelude.{◌≡◌, IfOk, OnOk};
ghost use Rattle.rls_meaning.specs.rls_guard.specs.rls_evaluation.specs.{Environments.inside, Environments.over, Holding.Holds, Scoping.env_of, Showing.shows};
ghost use Rattle.rls_explain.specs.Found.{value_found};

use rls_expr::Expr;
use rls_meaning::rls_guard::rls_catalog::Catalog;
use rls_meaning::rls_guard::rls_evaluation::{
    Env, ExecutionState, Looked, Scoped, SecuredRelation, Tables, VisibleRelations, eval,
};
use rls_value::{Name, Row, Value};
use std::alloc::{AllocError, Global};

/// What a condition is asked about: the row that is judged, and what subqueries look through, in a role.
#[derive(Clone, Copy)]
pub struct Judged<'a, 'c> {
    pub relations: &'a [SecuredRelation<'c>],
    pub role: &'a Name,
    pub row: &'a Row,
}

/// The value of the expression.
fn value_in<'a, 'c>(
    alloc: Global,
    catalog: &'c Catalog,
    relations: &'a [SecuredRelation<'c>],
    env: &Env<'a>,
    expr: &'a Expr,
) -> Result<Value, AllocError>
    ensures { IfOk result (λ value. value ≡ value_found catalog.now (shows relations.now env.now.user.now) (env_of env.now) expr.now) }
{
    let mut execution = ExecutionState::new(alloc);
    let mut tables = Looked::new(catalog);
    let value = value_over(alloc, &mut tables, &mut execution, relations, env, expr);
    drop(execution);
    value
}

pub fn value_over<'a, 'c, T: Tables>(
    alloc: Global,
    tables: &mut T,
    execution: &mut ExecutionState,
    relations: &'a [SecuredRelation<'c>],
    env: &Env<'a>,
    expr: &'a Expr,
) -> Result<Value, AllocError>
    requires { Holds relations.now env.now.user.now (T.state tables.old) execution.old }
    ensures value { IfOk result (λ value. value ≡ value_found (T.state tables.old) (shows relations.now env.now.user.now) (env_of env.now) expr.now) }
    ensures stands { OnOk result (T.state tables.new ≡ T.state tables.old) }
    ensures holds { OnOk result (Holds relations.now env.now.user.now (T.state tables.new) execution.new) }
{
    let visible = VisibleRelations { relations, from: 0 };
    let datum = eval(alloc, tables, execution, visible, expr, env)?;
    datum.to_value(alloc)
}

/// The value of a part on the row that is judged.
pub fn value_on<'a, 'c>(
    alloc: Global,
    catalog: &'c Catalog,
    judged: Judged<'a, 'c>,
    expr: &Expr,
) -> Result<Value, AllocError>
    ensures { IfOk result (λ value. value ≡ value_found catalog.now (shows judged.entry.relations.now judged.entry.role.now) (over judged.entry.role.now judged.entry.row.now) expr.now) }
{
    let nothing = Scoped::Nothing;
    let env = Env {
        user: judged.role,
        rows: Scoped::Over(judged.row, &nothing),
    };
    value_in(alloc, catalog, judged.relations, &env, expr)
}

/// The same with a further row in scope, the innermost.
pub fn value_inside<'a, 'c>(
    alloc: Global,
    catalog: &'c Catalog,
    judged: Judged<'a, 'c>,
    row: &Row,
    expr: &Expr,
) -> Result<Value, AllocError>
    ensures { IfOk result (λ value. value ≡ value_found catalog.now (shows judged.entry.relations.now judged.entry.role.now) (inside row.now (over judged.entry.role.now judged.entry.row.now)) expr.now) }
{
    let nothing = Scoped::Nothing;
    let outer = Scoped::Over(judged.row, &nothing);
    let rows = Scoped::Over(row, &outer);
    let env = Env {
        user: judged.role,
        rows,
    };
    value_in(alloc, catalog, judged.relations, &env, expr)
}
