//! Expressions that are placed.

use rls_expr::{Category, Expr, Node, Scope, Typing, resolve_columns, typing_of};
use std::alloc::{AllocError, Global};

/// The type that a copy of the placed expression has.
fn type_of_copy(alloc: Global, expr: &Expr) -> Result<Typing, AllocError> {
    let scope = Scope {
        tables: &[],
        known: &[],
    };
    let placed = resolve_columns(alloc, expr, &scope)?;
    let copied = placed.copy(alloc);
    drop(placed);
    let copy = copied?;
    let typing = typing_of(&copy);
    drop(copy);
    Ok(typing)
}

/// Memory suffices to place an expression and to copy what was placed.
#[test]
fn placed_expression_is_copied(rt: HostRuntime) {
    let expr = Expr::new(Node::CurrentUser);
    let typing = type_of_copy(rt.alloc(), &expr);
    drop(expr);
    assert!(rt; matches!(typing, Ok(Typing::Of(Category::Text))));
}
