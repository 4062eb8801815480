//! The parts of an expression, in text order.

ghost use Rattle.std.specs.Prelude.{◌≡◌, [], ◌∷◌, ◌++◌, map, IfOk, OnOk};
ghost use Rattle.rls_expr.specs.Terms.{terms_of};
ghost use Rattle.rls_explain.specs.Details as spec;
ghost use Rattle.rls_explain.specs.Found.{subterm_of};

use rls_expr::{Expr, Node};
use std::alloc::{AllocError, Global};

/// A part of an expression, and how many parts it stands in.
#[derive(Clone, Copy)]
pub struct Subterm<'x> {
    pub level: usize,
    pub expr: &'x Expr,
}

/// The parts of the expression.
pub fn subterms_of<'x>(alloc: Global, expr: &'x Expr) -> Result<Vec<Subterm<'x>>, AllocError>
    ensures { IfOk result (λ subterms. map subterm_of subterms.items ≡ spec.parts_at 0 expr.now) }
{
    let mut subterms = Vec::new(alloc);
    put_parts(&mut subterms, 0, expr)?;
    Ok(subterms)
}

/// Puts the parts of the expression behind the others.
#[cycle(subterms)]
fn put_parts<'x>(
    subterms: &mut Vec<Subterm<'x>>,
    level: usize,
    expr: &'x Expr,
) -> Result<(), AllocError>
    ensures { OnOk result (map subterm_of subterms.new.items ≡ map subterm_of subterms.old.items ++ spec.parts_at level expr.now) }
{
    put_one(subterms, level, expr)?;
    let below = below(level)?;
    match expr.node() {
        Node::And(parts) | Node::Or(parts) => put_each(subterms, below, parts),
        Node::Not(operand) => put_parts(subterms, below, operand),
        Node::Compare(_, left, right) => {
            put_side(subterms, below, left)?;
            put_side(subterms, below, right)
        }
        Node::IsNull(operand) | Node::IsNotNull(operand) => put_side(subterms, below, operand),
        Node::InList(operand, list) | Node::NotInList(operand, list) => {
            put_side(subterms, below, operand)?;
            put_sides(subterms, below, list)
        }
        Node::InSubquery(operand, _) | Node::NotInSubquery(operand, _) => {
            put_side(subterms, below, operand)
        }
        Node::Literal(_)
        | Node::Column(_)
        | Node::Var(_)
        | Node::CurrentUser
        | Node::Exists(_)
        | Node::Scalar(_)
        | Node::Sum(_, _) => Ok(()),
    }
}

/// Those of one expression after another.
#[cycle(subterms)]
fn put_each<'x>(
    subterms: &mut Vec<Subterm<'x>>,
    level: usize,
    parts: &'x [Expr],
) -> Result<(), AllocError>
    ensures { OnOk result (map subterm_of subterms.new.items ≡ map subterm_of subterms.old.items ++ spec.parts_each level (terms_of parts.now)) }
{
    for part in parts {
        put_parts(subterms, level, part)?;
    }
    Ok(())
}

/// A side of a comparison, where it is a subquery.
fn put_side<'x>(
    subterms: &mut Vec<Subterm<'x>>,
    level: usize,
    side: &'x Expr,
) -> Result<(), AllocError>
    ensures { OnOk result (map subterm_of subterms.new.items ≡ map subterm_of subterms.old.items ++ spec.side_at level side.now) }
{
    match side.node() {
        Node::Scalar(_) => put_one(subterms, level, side),
        _ => Ok(()),
    }
}

fn put_sides<'x>(
    subterms: &mut Vec<Subterm<'x>>,
    level: usize,
    sides: &'x [Expr],
) -> Result<(), AllocError>
    ensures { OnOk result (map subterm_of subterms.new.items ≡ map subterm_of subterms.old.items ++ spec.sides_at level (terms_of sides.now)) }
{
    for side in sides {
        put_side(subterms, level, side)?;
    }
    Ok(())
}

fn put_one<'x>(
    subterms: &mut Vec<Subterm<'x>>,
    level: usize,
    expr: &'x Expr,
) -> Result<(), AllocError>
    ensures { OnOk result (map subterm_of subterms.new.items ≡ map subterm_of subterms.old.items ++ (level, expr.now) ∷ []) }
{
    subterms.push(Subterm { level, expr })?;
    Ok(())
}

// No expression is so high: memory would end first.
fn below(level: usize) -> Result<usize, AllocError>
    ensures { IfOk result (λ below. below ≡ Rattle.std.specs.Prelude.suc level) }
{
    match level.checked_add(1) {
        Some(below) => Ok(below),
        None => Err(AllocError),
    }
}
