//! Comparisons with the literal NULL, which are never true.

ghost use Rattle.std.specs.Prelude.{◌≡◌, ◌++◌, encode_utf8_all, map, string_bytes, true, IfOk, OnOk};
ghost use Rattle.std.specs.List.{flat_map};
ghost use Rattle.std.specs.Option.{option_to_list};
ghost use Rattle.rls_expr.specs.ExprTerms.{query_of};
ghost use Rattle.rls_expr.specs.Scopes.{in_scope};
ghost use Rattle.rls_expr.specs.Terms.{maybe_term, terms_of};
ghost use Rattle.rls_printing.specs.ExprForms as form;
ghost use Rattle.rls_printing.specs.Outputs.{output_tokens_text};
ghost use Rattle.rls_lint.specs.Findings.{told_of};
ghost use Rattle.rls_lint.specs.Nulls as spec;

use crate::finding::{Finding, Mistake};
use crate::telling::tell;
use rls_catalog::Policies;
use rls_expr::{Expr, FromTable, Node, Policy, Subquery};
use rls_printing::print_expr;
use rls_value::shared::Share;
use rls_value::{Items, Name, Reference, Text, Value};
use std::alloc::{AllocError, Global};

/// Tells of the comparisons with NULL in policies.
pub(crate) fn tell_nulls(
    alloc: Global,
    from: FromTable<'_>,
    policies: &Policies,
    findings: &mut Items<Finding>,
) -> Result<(), AllocError>
    ensures { OnOk result (findings.new ≡ findings.old ++ told_of (in_scope from.entry) (spec.null_mistakes policies.now)) }
{
    for policy in policies.iter() {
        tell_of_policy(alloc, from, policy.get(), findings)?;
    }
    Ok(())
}

#[tactic(auto, using(crate::proofs::ToldLemmas::told_both))]
fn tell_of_policy(
    alloc: Global,
    from: FromTable<'_>,
    policy: &Policy,
    findings: &mut Items<Finding>,
) -> Result<(), AllocError>
    ensures { OnOk result (findings.new ≡ findings.old ++ told_of (in_scope from.entry) (spec.policy_nulls policy.now)) }
{
    tell_of_condition(alloc, from, &policy.name, false, &policy.using, findings)?;
    tell_of_condition(alloc, from, &policy.name, true, &policy.check, findings)
}

fn tell_of_condition(
    alloc: Global,
    from: FromTable<'_>,
    name: &Name,
    check: bool,
    condition: &Option<Share<Expr>>,
    findings: &mut Items<Finding>,
) -> Result<(), AllocError>
    ensures { OnOk result (findings.new ≡ findings.old ++ told_of (in_scope from.entry) (map (spec.null_mistake name.now check) (flat_map spec.nulls_of (option_to_list condition.now)))) }
{
    match condition {
        Some(expr) => tell_of_expr(alloc, from, name, check, expr.get(), findings),
        None => Ok(()),
    }
}

fn tell_of_expr(
    alloc: Global,
    from: FromTable<'_>,
    name: &Name,
    check: bool,
    expr: &Expr,
    findings: &mut Items<Finding>,
) -> Result<(), AllocError>
    ensures { OnOk result (findings.new ≡ findings.old ++ told_of (in_scope from.entry) (map (spec.null_mistake name.now check) (spec.nulls_of expr.now))) }
{
    let mut nulls = Items::new(alloc);
    put_nulls(&mut nulls, expr)?;
    tell_each(alloc, from, name, check, nulls.as_slice(), findings)
}

fn tell_each(
    alloc: Global,
    from: FromTable<'_>,
    name: &Name,
    check: bool,
    nulls: &[Reference<'_, Expr>],
    findings: &mut Items<Finding>,
) -> Result<(), AllocError>
    ensures { OnOk result (findings.new ≡ findings.old ++ told_of (in_scope from.entry) (map (spec.null_mistake name.now check) nulls.now)) }
{
    for comparison in nulls {
        let mistake = null_mistake(alloc, name, check, comparison.get())?;
        tell(from, mistake, findings)?;
    }
    Ok(())
}

fn null_mistake(
    alloc: Global,
    name: &Name,
    check: bool,
    comparison: &Expr,
) -> Result<Mistake, AllocError>
    ensures { IfOk result (λ mistake. mistake ≡ spec.null_mistake name.now check comparison.now) }
{
    let text = printed(alloc, comparison)?;
    let text = Text::from_string(text)?;
    Ok(Mistake::NullCompared(name.copy()?, check, text))
}

fn printed(alloc: Global, expr: &Expr) -> Result<String, AllocError>
    ensures { IfOk result (λ text. string_bytes text ≡ encode_utf8_all (output_tokens_text true (form.expr expr.now))) }
{
    print_expr(alloc, expr)
}

/// Puts the comparisons in the expression behind those that are there.
#[cycle(nulls)]
fn put_nulls<'x>(nulls: &mut Items<Reference<'x, Expr>>, expr: &'x Expr) -> Result<(), AllocError>
    ensures { OnOk result (nulls.new ≡ nulls.old ++ spec.nulls_of expr.now) }
{
    match expr.node() {
        Node::Literal(_) | Node::Column(_) | Node::Var(_) | Node::CurrentUser => Ok(()),
        Node::Compare(_, left, right) => {
            put_here(nulls, expr, left, right)?;
            put_nulls(nulls, left)?;
            put_nulls(nulls, right)
        }
        Node::And(parts) | Node::Or(parts) | Node::Sum(_, parts) => put_all_nulls(nulls, parts),
        Node::Not(operand) | Node::IsNull(operand) | Node::IsNotNull(operand) => {
            put_nulls(nulls, operand)
        }
        Node::InList(left, list) | Node::NotInList(left, list) => {
            put_nulls(nulls, left)?;
            put_all_nulls(nulls, list)
        }
        Node::Exists(query) | Node::Scalar(query) => put_query_nulls(nulls, query),
        Node::InSubquery(left, query) | Node::NotInSubquery(left, query) => {
            put_nulls(nulls, left)?;
            put_query_nulls(nulls, query)
        }
    }
}

/// The comparison itself, where a side is NULL.
fn put_here<'x>(
    nulls: &mut Items<Reference<'x, Expr>>,
    comparison: &'x Expr,
    left: &Expr,
    right: &Expr,
) -> Result<(), AllocError>
    ensures { OnOk result (nulls.new ≡ nulls.old ++ spec.null_here comparison.now left.now right.now) }
{
    if is_null_literal(left) || is_null_literal(right) {
        nulls.push(Reference::new(comparison))
    } else {
        Ok(())
    }
}

fn is_null_literal(expr: &Expr) -> bool
    ensures { result ≡ spec.is_null_literal expr.now }
{
    matches!(expr.node(), Node::Literal(Value::Null))
}

#[cycle(nulls)]
#[tactic(auto, using(crate::proofs::TermSizes::size_at))]
fn put_all_nulls<'x>(
    nulls: &mut Items<Reference<'x, Expr>>,
    parts: &'x [Expr],
) -> Result<(), AllocError>
    ensures { OnOk result (nulls.new ≡ nulls.old ++ spec.nulls_all (terms_of parts.now)) }
{
    for part in parts {
        put_nulls(nulls, part)?;
    }
    Ok(())
}

#[cycle(nulls)]
fn put_nulls_if<'x>(
    nulls: &mut Items<Reference<'x, Expr>>,
    condition: &'x Option<Expr>,
) -> Result<(), AllocError>
    ensures { OnOk result (nulls.new ≡ nulls.old ++ spec.nulls_all (maybe_term condition.now)) }
{
    match condition {
        None => Ok(()),
        Some(condition) => put_nulls(nulls, condition),
    }
}

#[cycle(nulls)]
fn put_query_nulls<'x>(
    nulls: &mut Items<Reference<'x, Expr>>,
    query: &'x Subquery,
) -> Result<(), AllocError>
    ensures { OnOk result (nulls.new ≡ nulls.old ++ spec.query_nulls (query_of query.now)) }
{
    put_all_nulls(nulls, &query.items)?;
    put_nulls_if(nulls, &query.condition)
}
