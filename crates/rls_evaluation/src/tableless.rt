//! The value of an expression where no table shows a row: of an item that is listed.

ghost use Rattle.std.specs.Prelude.{◌≡◌, IfOk};
ghost use Rattle.rls_evaluation.specs.Environments.{over};
ghost use Rattle.rls_evaluation.specs.Scoping.{env_of};
ghost use Rattle.rls_evaluation.specs.Tableless as spec;

use crate::evaluation::eval;
use crate::execution_state::ExecutionState;
use crate::relation::VisibleRelations;
use crate::scope::{Env, Scoped};
use crate::tables::Tables;
use rls_source::rls_catalog::rls_expr::Expr;
use rls_value::{Items, Name, Row, Value};
use std::alloc::{AllocError, Global};

/// The tables of a state without objects.
#[derive(Clone, Copy)]
struct NoTables;

impl Tables for NoTables {
    ghost use Rattle.rls_evaluation.specs.Tableless.{no_objects};

    ghost state = { λ it. no_objects };

    fn all_rows(&mut self, alloc: Global, table: &Name) -> Result<Items<Row>, AllocError> {
        Ok(Items::new(alloc))
    }

    fn rows_with(
        &mut self,
        alloc: Global,
        table: &Name,
        key: &Row,
    ) -> Result<Items<Row>, AllocError> {
        Ok(Items::new(alloc))
    }
}

/// The value of the expression for the one row in scope. A number beyond 64 bits, which only a sum can be, is answered as
/// want of memory.
pub fn value_over<'x>(
    alloc: Global,
    expr: &'x Expr,
    user: &'x Name,
    row: &'x Row,
) -> Result<Value, AllocError>
    ensures { IfOk result (λ value. value ≡ spec.value_in expr.now (over user.now row.now)) }
{
    let nothing = Scoped::Nothing;
    let env = Env {
        user,
        rows: Scoped::Over(row, &nothing),
    };
    value_in(alloc, expr, &env)
}

/// The value in the environment, where no table shows a row.
fn value_in<'x>(alloc: Global, expr: &'x Expr, env: &Env<'x>) -> Result<Value, AllocError>
    ensures { IfOk result (λ value. value ≡ spec.value_in expr.now (env_of env.now)) }
{
    let mut tables = NoTables;
    let mut execution = ExecutionState::new(alloc);
    let visible = VisibleRelations {
        relations: &[],
        from: 0,
    };
    let datum = eval(alloc, &mut tables, &mut execution, visible, expr, env);
    drop(execution);
    match datum {
        Ok(datum) => datum.to_value(alloc),
        Err(refused) => Err(refused),
    }
}
