//! Expressions on the heap.

ghost use Rattle.std.specs.Prelude.{◌≡◌, IfOk};

use rls_expr::{Expr, boxed};
use std::alloc::{AllocError, Global};
use std::marker::Model;

/// An expression on the heap, seen as the expression. A part of an expression that is being read takes no more room on the
/// stack than a pointer, at each depth.
#[derive(Drop)]
pub struct Subtree {
    expr: Box<Expr>,
}

impl Model for Subtree {
    ghost use Rattle.rls_expr.specs.Terms.{Term};
    ghost use Rattle.rls_expr.specs.TermCode.{term_code};

    ghost Value = { Term };

    ghost coded = { term_code };

    ghost view = { λ subtree. subtree.expr.value };
}

impl Subtree {
    pub fn new(alloc: Global, expr: Expr) -> Result<Subtree, AllocError>
        ensures { IfOk result (λ subtree. subtree ≡ expr) }
    {
        let expr = boxed(alloc, expr)?;
        Ok(Subtree { expr })
    }

    pub fn into_box(self) -> Box<Expr>
        ensures { result.value ≡ self }
    {
        let Subtree { expr } = self;
        expr
    }

    pub fn into_expr(self) -> Expr
        ensures { result ≡ self }
    {
        let Subtree { expr } = self;
        Box::into_inner(expr)
    }
}
