//! The parts of a condition, each with what it comes to.

ghost use Rattle.std.specs.Prelude.{◌≡◌, map, IfOk};
ghost use Rattle.std.specs.Option.{option_map};
ghost use Rattle.rls_expr.specs.ExprTerms.{query_of};
ghost use Rattle.rls_meaning.specs.rls_guard.specs.rls_evaluation.specs.Environments.{over};
ghost use Rattle.rls_explain.specs.Details as spec;
ghost use Rattle.rls_explain.specs.Found.{sight_found, subterm_of};

use crate::comparing::with_values;
use crate::details::{Part, Seen};
use crate::subterms::{Subterm, subterms_of};
use crate::telling::seen_by;
use crate::valuing::{Judged, value_on};
use rls_expr::{Expr, Node, Subquery};
use rls_meaning::rls_guard::rls_catalog::Catalog;
use rls_value::{Items, or_drop};
use std::alloc::{AllocError, Global};

/// The parts of the condition as it is written, each with what it comes to once its columns are resolved.
pub fn parts_of<'a, 'c>(
    alloc: Global,
    catalog: &'c Catalog,
    judged: Judged<'a, 'c>,
    written: &Expr,
    resolved: &Expr,
) -> Result<Items<Part>, AllocError>
    ensures { IfOk result (λ parts. parts ≡ spec.parts_by catalog.now (sight_found catalog.now judged.entry.relations.now judged.entry.role.now) (over judged.entry.role.now judged.entry.row.now) (spec.parts_at 0 written.now) (spec.parts_at 0 resolved.now)) }
{
    let written = subterms_of(alloc, written)?;
    let resolved = or_drop!(subterms_of(alloc, resolved), written);
    let parts = parts_beside(alloc, catalog, judged, &written, &resolved);
    drop(written);
    drop(resolved);
    parts
}

fn parts_beside<'a, 'c, 'x>(
    alloc: Global,
    catalog: &'c Catalog,
    judged: Judged<'a, 'c>,
    written: &[Subterm<'x>],
    resolved: &[Subterm<'x>],
) -> Result<Items<Part>, AllocError>
    ensures { IfOk result (λ parts. parts ≡ spec.parts_by catalog.now (sight_found catalog.now judged.entry.relations.now judged.entry.role.now) (over judged.entry.role.now judged.entry.row.now) (map subterm_of written.now) (map subterm_of resolved.now)) }
{
    let mut parts = Vec::with_capacity(alloc, written.len())?;
    let mut left = resolved;
    for subterm in written {
        match left {
            [one, more @ ..] => {
                let part = part_of(alloc, catalog, judged, subterm, one.expr)?;
                parts.push(part)?;
                left = more;
            }
            [] => return Ok(Items::from_vec(parts)),
        }
    }
    Ok(Items::from_vec(parts))
}

/// One of them.
fn part_of<'a, 'c, 'x>(
    alloc: Global,
    catalog: &'c Catalog,
    judged: Judged<'a, 'c>,
    written: &Subterm<'x>,
    resolved: &Expr,
) -> Result<Part, AllocError>
    ensures { IfOk result (λ part. part ≡ spec.part_by catalog.now (sight_found catalog.now judged.entry.relations.now judged.entry.role.now) (over judged.entry.role.now judged.entry.row.now) written.now.level written.now.expr.now resolved.now) }
{
    let value = value_on(alloc, catalog, judged, resolved)?;
    let values = or_drop!(with_values(alloc, catalog, judged, resolved), value);
    let sees = or_drop!(seen_in(alloc, catalog, judged, resolved), value, values);
    let expression = or_drop!(written.expr.copy(alloc), value, values, sees);
    Ok(Part {
        level: written.level,
        value,
        expression,
        values,
        sees,
    })
}

/// The rows that the part's own subquery sees, if it has one.
fn seen_in<'a, 'c>(
    alloc: Global,
    catalog: &'c Catalog,
    judged: Judged<'a, 'c>,
    expr: &Expr,
) -> Result<Option<Seen>, AllocError>
    ensures { IfOk result (λ seen. seen ≡ option_map (spec.seen_by catalog.now (sight_found catalog.now judged.entry.relations.now judged.entry.role.now) (over judged.entry.role.now judged.entry.row.now)) (spec.query_in expr.now)) }
{
    match query_in(expr) {
        Some(query) => match seen_by(alloc, catalog, judged, query) {
            Ok(seen) => Ok(Some(seen)),
            Err(refused) => Err(refused),
        },
        None => Ok(None),
    }
}

fn query_in(expr: &Expr) -> Option<&Subquery>
    ensures { option_map (λ query. query_of query.now) result ≡ spec.query_in expr.now }
{
    match expr.node() {
        Node::Exists(query) => Some(query),
        Node::InSubquery(_, query) => Some(query),
        Node::NotInSubquery(_, query) => Some(query),
        Node::Scalar(query) => Some(query),
        _ => None,
    }
}
