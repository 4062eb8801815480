//! The values that a statement gives to rows.

ghost use Rattle.std.specs.Prelude.{◌≡◌, ◌++◌, [], Ok, OnOk, map};
ghost use Rattle.rls_evaluation.specs.rls_source.specs.{Answering.Tells as Reading, Askings.followed_by, Askings.known};
ghost use Rattle.rls_evaluation.specs.{Holding.Holds, Holding.Evaluates, Holding.put_in, Scoping.env_of, Scoping.rows_in, Showing.shows};
ghost use Rattle.rls_judging.specs.Handed.{datum_values_all, datum_values_each, datum_values};
ghost use Rattle.rls_judging.specs.Valuing as spec;

use crate::check_context::note_all;
use rls_evaluation::rls_source::Asker;
use rls_evaluation::{
    Datum, Env, ExecutionState, Looked, Scoped, SecuredRelation, Tables, VisibleRelations, eval,
};
use rls_guard::rls_catalog::BorrowedRow;
use rls_guard::rls_catalog::rls_expr::Expr;
use rls_value::{Items, Name, or_drop};
use std::alloc::{AllocError, Global};

/// What the rows are set to, in the order of the assignments, one row's values behind another's. No row is in scope round
/// them, and what says so has to live as long as the values.
pub fn assignments_of<'a, 'c>(
    asker: &mut Asker<'c>,
    relations: &'a [SecuredRelation<'c>],
    role: &'a Name,
    nothing: &'a Scoped<'a>,
    assignments: &'a [(usize, Expr)],
    rows: &[&'a BorrowedRow<'c>],
) -> Result<Vec<Datum<'a>>, AllocError>
    requires { rows_in nothing.now ≡ [] }
    ensures { Reading (spec.assignments_of relations.now role.now assignments.now (map (λ row. row.now) rows.now)) asker.old asker.new (datum_values_all result) }
{
    let mut execution = ExecutionState::new(asker.alloc());
    let mut tables = Looked::new(asker.catalog());
    let values = values_set(
        asker.alloc(),
        &mut tables,
        &mut execution,
        relations,
        role,
        nothing,
        assignments,
        rows,
    )?;
    or_drop!(note_all(asker, execution), values);
    Ok(values)
}

fn values_set<'a, 'c, T: Tables>(
    alloc: Global,
    tables: &mut T,
    execution: &mut ExecutionState,
    relations: &'a [SecuredRelation<'c>],
    role: &'a Name,
    nothing: &'a Scoped<'a>,
    assignments: &'a [(usize, Expr)],
    rows: &[&'a BorrowedRow<'c>],
) -> Result<Vec<Datum<'a>>, AllocError>
    requires holds { Holds relations.now role.now (T.state tables.old) execution.old }
    requires nothing { rows_in nothing.now ≡ [] }
    ensures { Evaluates (spec.values_set relations.now role.now assignments.now (map (λ row. row.now) rows.now)) (T.state tables.old) (T.state tables.new) execution.old.read_set execution.new.read_set (datum_values_all result) }
{
    let most = rows.len().saturating_mul(assignments.len());
    let mut values = Vec::with_capacity(alloc, most)?;
    for stored in rows {
        let env = Env {
            user: role,
            rows: Scoped::Over(stored.row(), nothing),
        };
        put_values(
            alloc,
            tables,
            execution,
            relations,
            assignments,
            &env,
            &mut values,
        )?;
    }
    Ok(values)
}

/// What a row is set to, behind the other values.
fn put_values<'a, 'c, T: Tables>(
    alloc: Global,
    tables: &mut T,
    execution: &mut ExecutionState,
    relations: &'a [SecuredRelation<'c>],
    assignments: &'a [(usize, Expr)],
    env: &Env<'a>,
    values: &mut Vec<Datum<'a>>,
) -> Result<(), AllocError>
    requires { Holds relations.now env.now.user.now (T.state tables.old) execution.old }
    ensures tells { Evaluates (followed_by (spec.values_on (map (λ assignment. assignment.1) assignments.now) (shows relations.now env.now.user.now) (env_of env.now)) (λ given. known (Ok (datum_values values.old ++ given)))) (T.state tables.old) (T.state tables.new) execution.old.read_set execution.new.read_set (put_in (datum_values values.new) result) }
    ensures holds { OnOk result (Holds relations.now env.now.user.now (T.state tables.new) execution.new) }
{
    let visible = VisibleRelations { relations, from: 0 };
    for (_, expr) in assignments {
        let datum = eval(alloc, tables, execution, visible, expr, env)?;
        values.push(datum)?;
    }
    Ok(())
}

/// What the expressions of each tuple come to.
pub fn tuples_of<'a, 'c>(
    asker: &mut Asker<'c>,
    relations: &'a [SecuredRelation<'c>],
    role: &'a Name,
    tuples: &'a [Items<Expr>],
) -> Result<Vec<Vec<Datum<'a>>>, AllocError>
    ensures { Reading (spec.tuples_of relations.now role.now tuples.now) asker.old asker.new (datum_values_each result) }
{
    let mut execution = ExecutionState::new(asker.alloc());
    let mut tables = Looked::new(asker.catalog());
    let values = values_put(
        asker.alloc(),
        &mut tables,
        &mut execution,
        relations,
        role,
        tuples,
    )?;
    or_drop!(note_all(asker, execution), values);
    Ok(values)
}

fn values_put<'a, 'c, T: Tables>(
    alloc: Global,
    tables: &mut T,
    execution: &mut ExecutionState,
    relations: &'a [SecuredRelation<'c>],
    role: &'a Name,
    tuples: &'a [Items<Expr>],
) -> Result<Vec<Vec<Datum<'a>>>, AllocError>
    requires { Holds relations.now role.now (T.state tables.old) execution.old }
    ensures { Evaluates (spec.values_put relations.now role.now tuples.now) (T.state tables.old) (T.state tables.new) execution.old.read_set execution.new.read_set (datum_values_each result) }
{
    let env = Env {
        user: role,
        rows: Scoped::Nothing,
    };
    let mut all = Vec::with_capacity(alloc, tuples.len())?;
    for tuple in tuples {
        let values = values_alone(alloc, tables, execution, relations, tuple.as_slice(), &env)?;
        all.push(values)?;
    }
    Ok(all)
}

fn values_alone<'a, 'c, T: Tables>(
    alloc: Global,
    tables: &mut T,
    execution: &mut ExecutionState,
    relations: &'a [SecuredRelation<'c>],
    exprs: &'a [Expr],
    env: &Env<'a>,
) -> Result<Vec<Datum<'a>>, AllocError>
    requires { Holds relations.now env.now.user.now (T.state tables.old) execution.old }
    ensures tells { Evaluates (spec.values_on exprs.now (shows relations.now env.now.user.now) (env_of env.now)) (T.state tables.old) (T.state tables.new) execution.old.read_set execution.new.read_set (datum_values_all result) }
    ensures holds { OnOk result (Holds relations.now env.now.user.now (T.state tables.new) execution.new) }
{
    let visible = VisibleRelations { relations, from: 0 };
    let mut values = Vec::with_capacity(alloc, exprs.len())?;
    for expr in exprs {
        let datum = eval(alloc, tables, execution, visible, expr, env)?;
        values.push(datum)?;
    }
    Ok(values)
}
