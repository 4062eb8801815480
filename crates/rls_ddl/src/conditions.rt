//! The conditions of a policy, over its table.

ghost use Rattle.std.specs.Prelude.{◌≡◌, [], ◌∷◌, Some, map, IfOk};
ghost use Rattle.rls_value.specs.Giving.{Gives};
ghost use Rattle.rls_expr.specs.{Naming.step_of, Resolving.names_in};
ghost use Rattle.rls_guard.specs.rls_source.specs.Answering.{Answers};
ghost use Rattle.rls_guard.specs.Naming.{named, names_over};
ghost use Rattle.rls_ddl.specs.Conditions as spec;
ghost use Rattle.rls_ddl.specs.Conditions.{both_conditions, condition_fits, condition_names};

use rls_expr::{
    Expr, NameStep, NamedTable, Scope, TableDef, is_boolean, put_shared_names, resolve_columns,
    typing_of,
};
use rls_guard::rls_source::Asker;
use rls_guard::{Found, is_unsupported, named_over};
use rls_value::shared::Share;
use rls_value::{Name, Refusal};
use std::alloc::{AllocError, Global};

/// The first unknown name of USING, then of WITH CHECK, is undefined; the tables that their subqueries name.
pub fn found_for<'c>(
    asker: &mut Asker<'c>,
    using: &Option<Share<Expr>>,
    check: &Option<Share<Expr>>,
    name: &Name,
    table: &'c TableDef,
) -> Result<Found<'c>, Refusal>
    ensures { Answers (named (condition_names «using».now check.now) ((name.now, table.now) ∷ []) []) asker.old asker.new result }
{
    let steps = names_of(asker.alloc(), using, check)?;
    let found = named_over(asker, &steps, name, table);
    drop(steps);
    found
}

fn names_of<'x>(
    alloc: Global,
    using: &'x Option<Share<Expr>>,
    check: &'x Option<Share<Expr>>,
) -> Result<Vec<NameStep<'x>>, AllocError>
    ensures { IfOk result (λ steps. map step_of steps.items ≡ condition_names «using».now check.now) }
{
    let mut steps = Vec::new(alloc);
    put_shared_names(&mut steps, using)?;
    put_shared_names(&mut steps, check)?;
    Ok(steps)
}

/// USING and WITH CHECK have to be booleans.
pub fn require_booleans<'x>(
    alloc: Global,
    using: &Option<Share<Expr>>,
    check: &Option<Share<Expr>>,
    name: &Name,
    table: &'x TableDef,
    known: &'x [NamedTable<'x>],
) -> Result<(), Refusal>
    ensures { Gives result (both_conditions (condition_fits (names_over (name.now, table.now) known.now)) «using».now check.now) }
{
    let tables = [NamedTable::new(name, table)?];
    let scope = Scope {
        tables: &tables,
        known,
    };
    require_boolean(alloc, using, &scope)?;
    require_boolean(alloc, check, &scope)
}

fn require_boolean(
    alloc: Global,
    condition: &Option<Share<Expr>>,
    scope: &Scope,
) -> Result<(), Refusal>
    ensures { Gives result (condition_fits (names_in scope.now) condition.now) }
{
    match condition {
        None => Ok(()),
        Some(expr) => require_boolean_expr(alloc, expr.get(), scope),
    }
}

fn require_boolean_expr(alloc: Global, expr: &Expr, scope: &Scope) -> Result<(), Refusal>
    ensures { Gives result (condition_fits (names_in scope.now) (Some expr.now)) }
{
    let resolved = resolve_columns(alloc, expr, scope)?;
    let fits = is_boolean(typing_of(&resolved));
    drop(resolved);
    if fits {
        Ok(())
    } else {
        Err(Refusal::TypeFault)
    }
}

/// Nothing may stand in USING or in WITH CHECK that isn't supported.
pub fn require_supported<'x>(
    alloc: Global,
    using: &Option<Share<Expr>>,
    check: &Option<Share<Expr>>,
    name: &Name,
    table: &'x TableDef,
    known: &'x [NamedTable<'x>],
) -> Result<(), Refusal>
    ensures { Gives result (both_conditions (spec.is_supported (names_over (name.now, table.now) known.now)) «using».now check.now) }
{
    let tables = [NamedTable::new(name, table)?];
    let scope = Scope {
        tables: &tables,
        known,
    };
    require_one_supported(alloc, using, &scope)?;
    require_one_supported(alloc, check, &scope)
}

fn require_one_supported(
    alloc: Global,
    condition: &Option<Share<Expr>>,
    scope: &Scope,
) -> Result<(), Refusal>
    ensures { Gives result (spec.is_supported (names_in scope.now) condition.now) }
{
    match condition {
        None => Ok(()),
        Some(expr) => require_supported_expr(alloc, expr.get(), scope),
    }
}

fn require_supported_expr(alloc: Global, expr: &Expr, scope: &Scope) -> Result<(), Refusal>
    ensures { Gives result (spec.is_supported (names_in scope.now) (Some expr.now)) }
{
    let resolved = resolve_columns(alloc, expr, scope)?;
    let unsupported = is_unsupported(&resolved);
    drop(resolved);
    if unsupported {
        Err(Refusal::Unsupported)
    } else {
        Ok(())
    }
}
