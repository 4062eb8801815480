//! Expressions, printed.

ghost use Rattle.std.specs.Prelude.{◌≡◌, ◌∷◌, [], true, Some, OnOk, MatchOption};
ghost use Rattle.rls_value.specs.Names.{is_word};
ghost use Rattle.rls_expr.specs.ExprTerms.{query_of};
ghost use Rattle.rls_expr.specs.Terms.{maybe_term, terms_of};
ghost use Rattle.rls_expr.specs.Terms as t;
ghost use Rattle.rls_printing.specs.ExprForms as form;
ghost use Rattle.rls_printing.specs.OutputTokens.{Word};
ghost use Rattle.rls_printing.specs.Outputs.{put, put_all, output_of};

use crate::buffer::{Mark, OutputBuffer};
use rls_expr::{ColumnName, Comparison, Expr, FromItem, Node, Selects, Sign, Subquery};
use rls_value::{Name, Value};
use std::alloc::AllocError;

/// An expression.
#[cycle(printing)]
pub fn put_expr(buffer: &mut OutputBuffer, expr: &Expr) -> Result<(), AllocError>
    ensures { OnOk result (put_all (Some (output_of buffer.old)) (form.expr expr.now) ≡ Some (output_of buffer.new)) }
{
    match expr.node() {
        Node::Literal(value) => put_literal(buffer, value),
        Node::Column(column) => put_column(buffer, column),
        Node::Var(_) => Ok(()),
        Node::CurrentUser => buffer.word("CURRENT_USER"),
        Node::Compare(how, left, right) => put_comparison(buffer, *how, left, right),
        Node::And(parts) => put_operands(buffer, "AND", parts),
        Node::Or(parts) => put_operands(buffer, "OR", parts),
        Node::Not(operand) => put_negation(buffer, operand),
        Node::IsNull(operand) => put_null_test(buffer, operand),
        Node::IsNotNull(operand) => put_not_null_test(buffer, operand),
        Node::InList(left, list) => put_among(buffer, left, list),
        Node::NotInList(left, list) => put_not_among(buffer, left, list),
        Node::Exists(query) => put_exists(buffer, query),
        Node::InSubquery(left, query) => put_within(buffer, left, query),
        Node::NotInSubquery(left, query) => put_not_within(buffer, left, query),
        Node::Scalar(query) => put_enclosed_query(buffer, query),
        Node::Sum(signs, parts) => put_sum(buffer, signs, parts),
    }
}

/// A value.
pub fn put_literal(buffer: &mut OutputBuffer, value: &Value) -> Result<(), AllocError>
    ensures { OnOk result (put (Some (output_of buffer.old)) (form.literal value.now) ≡ Some (output_of buffer.new)) }
{
    match value {
        Value::Null => buffer.word("NULL"),
        Value::Int(number) => buffer.number(*number),
        Value::Text(text) => buffer.quoted(text.as_str()),
        Value::Bool(true) => buffer.word("TRUE"),
        Value::Bool(false) => buffer.word("FALSE"),
    }
}

/// A column, with what qualifies it.
pub fn put_column(buffer: &mut OutputBuffer, column: &ColumnName) -> Result<(), AllocError>
    ensures { OnOk result (put (Some (output_of buffer.old)) (form.named column.now.qualifier column.now.name) ≡ Some (output_of buffer.new)) }
{
    match &column.qualifier {
        Some(qualifier) => buffer.qualified(qualifier.as_str(), column.name.as_str()),
        None => buffer.word(column.name.as_str()),
    }
}

fn mark_of(how: Comparison) -> Mark
    ensures { result ≡ form.comparison how }
{
    match how {
        Comparison::Equal => Mark::Equal,
        Comparison::NotEqual => Mark::NotEqual,
        Comparison::Less => Mark::Less,
        Comparison::LessOrEqual => Mark::LessOrEqual,
        Comparison::Greater => Mark::Greater,
        Comparison::GreaterOrEqual => Mark::GreaterOrEqual,
    }
}

/// The first sign and the others, if there is one.
fn first_sign(signs: &[Sign]) -> Option<(Sign, &[Sign])>
    ensures { MatchOption result (signs.now ≡ []) (λ parts. signs.now ≡ parts.0 ∷ parts.1.now) }
{
    match signs {
        [first, rest @ ..] => Some((*first, rest)),
        [] => None,
    }
}

fn mark_of_sign(sign: Sign) -> Mark
    ensures { result ≡ form.sign sign }
{
    match sign {
        Sign::Plus => Mark::Plus,
        Sign::Minus => Mark::Minus,
    }
}

/// Whether it has no parentheses as an operand.
fn stands_alone(expr: &Expr) -> bool
    ensures { result ≡ form.stands_alone expr.now }
{
    matches!(
        expr.node(),
        Node::Literal(_) | Node::Column(_) | Node::CurrentUser | Node::Exists(_) | Node::Scalar(_)
    )
}

/// An operand, in parentheses unless it stands alone.
#[cycle(printing)]
fn put_operand(buffer: &mut OutputBuffer, operand: &Expr) -> Result<(), AllocError>
    ensures { OnOk result (put_all (Some (output_of buffer.old)) (form.bare_if (form.stands_alone operand.now) (form.expr operand.now)) ≡ Some (output_of buffer.new)) }
{
    if stands_alone(operand) {
        put_expr(buffer, operand)
    } else {
        put_enclosed(buffer, operand)
    }
}

/// An expression in parentheses.
#[cycle(printing)]
pub fn put_enclosed(buffer: &mut OutputBuffer, expr: &Expr) -> Result<(), AllocError>
    ensures { OnOk result (put_all (Some (output_of buffer.old)) (form.enclosed (form.expr expr.now)) ≡ Some (output_of buffer.new)) }
{
    buffer.mark(Mark::Open)?;
    put_expr(buffer, expr)?;
    buffer.mark(Mark::Close)?;
    Ok(())
}

#[cycle(printing)]
fn put_comparison(
    buffer: &mut OutputBuffer,
    how: Comparison,
    left: &Expr,
    right: &Expr,
) -> Result<(), AllocError>
    ensures { OnOk result (put_all (Some (output_of buffer.old)) (form.expr (t.Compare how left.now right.now)) ≡ Some (output_of buffer.new)) }
{
    put_operand(buffer, left)?;
    buffer.mark(mark_of(how))?;
    put_operand(buffer, right)?;
    Ok(())
}

/// Operands with the word between them.
#[cycle(printing)]
fn put_operands(buffer: &mut OutputBuffer, word: &str, parts: &[Expr]) -> Result<(), AllocError>
    requires { is_word word.now ≡ true }
    ensures { OnOk result (put_all (Some (output_of buffer.old)) (form.operands (Word word.now) (terms_of parts.now)) ≡ Some (output_of buffer.new)) }
{
    match parts {
        [] => Ok(()),
        [first, rest @ ..] => {
            put_operand(buffer, first)?;
            put_further(buffer, word, rest)
        }
    }
}

#[cycle(printing)]
fn put_further(buffer: &mut OutputBuffer, word: &str, parts: &[Expr]) -> Result<(), AllocError>
    requires { is_word word.now ≡ true }
    ensures { OnOk result (put_all (Some (output_of buffer.old)) (form.further (Word word.now) (terms_of parts.now)) ≡ Some (output_of buffer.new)) }
{
    for part in parts {
        buffer.word(word)?;
        put_operand(buffer, part)?;
    }
    Ok(())
}

#[cycle(printing)]
fn put_negation(buffer: &mut OutputBuffer, operand: &Expr) -> Result<(), AllocError>
    ensures { OnOk result (put_all (Some (output_of buffer.old)) (form.expr (t.Not operand.now)) ≡ Some (output_of buffer.new)) }
{
    buffer.word("NOT")?;
    put_operand(buffer, operand)
}

#[cycle(printing)]
fn put_null_test(buffer: &mut OutputBuffer, operand: &Expr) -> Result<(), AllocError>
    ensures { OnOk result (put_all (Some (output_of buffer.old)) (form.expr (t.IsNull operand.now)) ≡ Some (output_of buffer.new)) }
{
    put_operand(buffer, operand)?;
    buffer.word("IS")?;
    buffer.word("NULL")?;
    Ok(())
}

#[cycle(printing)]
fn put_not_null_test(buffer: &mut OutputBuffer, operand: &Expr) -> Result<(), AllocError>
    ensures { OnOk result (put_all (Some (output_of buffer.old)) (form.expr (t.IsNotNull operand.now)) ≡ Some (output_of buffer.new)) }
{
    put_operand(buffer, operand)?;
    buffer.word("IS")?;
    buffer.word("NOT")?;
    buffer.word("NULL")?;
    Ok(())
}

#[cycle(printing)]
fn put_among(buffer: &mut OutputBuffer, left: &Expr, list: &[Expr]) -> Result<(), AllocError>
    ensures { OnOk result (put_all (Some (output_of buffer.old)) (form.expr (t.InList left.now (terms_of list.now))) ≡ Some (output_of buffer.new)) }
{
    put_operand(buffer, left)?;
    buffer.word("IN")?;
    put_tuple(buffer, list)?;
    Ok(())
}

#[cycle(printing)]
fn put_not_among(buffer: &mut OutputBuffer, left: &Expr, list: &[Expr]) -> Result<(), AllocError>
    ensures { OnOk result (put_all (Some (output_of buffer.old)) (form.expr (t.NotInList left.now (terms_of list.now))) ≡ Some (output_of buffer.new)) }
{
    put_operand(buffer, left)?;
    buffer.word("NOT")?;
    buffer.word("IN")?;
    put_tuple(buffer, list)?;
    Ok(())
}

#[cycle(printing)]
fn put_exists(buffer: &mut OutputBuffer, query: &Subquery) -> Result<(), AllocError>
    ensures { OnOk result (put_all (Some (output_of buffer.old)) (form.expr (t.Exists (query_of query.now))) ≡ Some (output_of buffer.new)) }
{
    buffer.word("EXISTS")?;
    put_enclosed_query(buffer, query)
}

#[cycle(printing)]
fn put_within(buffer: &mut OutputBuffer, left: &Expr, query: &Subquery) -> Result<(), AllocError>
    ensures { OnOk result (put_all (Some (output_of buffer.old)) (form.expr (t.InSubquery left.now (query_of query.now))) ≡ Some (output_of buffer.new)) }
{
    put_operand(buffer, left)?;
    buffer.word("IN")?;
    put_enclosed_query(buffer, query)?;
    Ok(())
}

#[cycle(printing)]
fn put_not_within(
    buffer: &mut OutputBuffer,
    left: &Expr,
    query: &Subquery,
) -> Result<(), AllocError>
    ensures { OnOk result (put_all (Some (output_of buffer.old)) (form.expr (t.NotInSubquery left.now (query_of query.now))) ≡ Some (output_of buffer.new)) }
{
    put_operand(buffer, left)?;
    buffer.word("NOT")?;
    buffer.word("IN")?;
    put_enclosed_query(buffer, query)?;
    Ok(())
}

/// A sum: its parts, with the signs between them.
#[cycle(printing)]
fn put_sum(buffer: &mut OutputBuffer, signs: &[Sign], parts: &[Expr]) -> Result<(), AllocError>
    ensures { OnOk result (put_all (Some (output_of buffer.old)) (form.sum signs.now (terms_of parts.now)) ≡ Some (output_of buffer.new)) }
{
    match parts {
        [] => Ok(()),
        [first, rest @ ..] => {
            put_operand(buffer, first)?;
            put_summands(buffer, signs, rest)
        }
    }
}

#[cycle(printing)]
fn put_summands(buffer: &mut OutputBuffer, signs: &[Sign], parts: &[Expr]) -> Result<(), AllocError>
    ensures { OnOk result (put_all (Some (output_of buffer.old)) (form.summands signs.now (terms_of parts.now)) ≡ Some (output_of buffer.new)) }
{
    let mut left = signs;
    for part in parts {
        let Some((sign, rest)) = first_sign(left) else {
            return Ok(());
        };
        buffer.mark(mark_of_sign(sign))?;
        put_operand(buffer, part)?;
        left = rest;
    }
    Ok(())
}

/// Expressions in parentheses, with commas between them.
#[cycle(printing)]
pub fn put_tuple(buffer: &mut OutputBuffer, list: &[Expr]) -> Result<(), AllocError>
    ensures { OnOk result (put_all (Some (output_of buffer.old)) (form.enclosed (form.list (terms_of list.now))) ≡ Some (output_of buffer.new)) }
{
    buffer.mark(Mark::Open)?;
    put_list(buffer, list)?;
    buffer.mark(Mark::Close)?;
    Ok(())
}

/// Expressions with commas between them.
#[cycle(printing)]
pub fn put_list(buffer: &mut OutputBuffer, list: &[Expr]) -> Result<(), AllocError>
    ensures { OnOk result (put_all (Some (output_of buffer.old)) (form.list (terms_of list.now)) ≡ Some (output_of buffer.new)) }
{
    match list {
        [] => Ok(()),
        [first, rest @ ..] => {
            put_expr(buffer, first)?;
            put_more(buffer, rest)
        }
    }
}

#[cycle(printing)]
fn put_more(buffer: &mut OutputBuffer, list: &[Expr]) -> Result<(), AllocError>
    ensures { OnOk result (put_all (Some (output_of buffer.old)) (form.more (terms_of list.now)) ≡ Some (output_of buffer.new)) }
{
    for expr in list {
        buffer.mark(Mark::Comma)?;
        put_expr(buffer, expr)?;
    }
    Ok(())
}

#[cycle(printing)]
fn put_enclosed_query(buffer: &mut OutputBuffer, query: &Subquery) -> Result<(), AllocError>
    ensures { OnOk result (put_all (Some (output_of buffer.old)) (form.enclosed (form.query (query_of query.now))) ≡ Some (output_of buffer.new)) }
{
    buffer.mark(Mark::Open)?;
    put_query(buffer, query)?;
    buffer.mark(Mark::Close)?;
    Ok(())
}

#[cycle(printing)]
fn put_query(buffer: &mut OutputBuffer, query: &Subquery) -> Result<(), AllocError>
    ensures { OnOk result (put_all (Some (output_of buffer.old)) (form.query (query_of query.now)) ≡ Some (output_of buffer.new)) }
{
    buffer.word("SELECT")?;
    put_selected(buffer, query.selects, &query.items)?;
    put_from(buffer, &query.from)?;
    put_where(buffer, &query.condition)?;
    Ok(())
}

#[cycle(printing)]
fn put_selected(
    buffer: &mut OutputBuffer,
    selects: Selects,
    items: &[Expr],
) -> Result<(), AllocError>
    ensures { OnOk result (put_all (Some (output_of buffer.old)) (form.selected selects (form.list (terms_of items.now))) ≡ Some (output_of buffer.new)) }
{
    match selects {
        Selects::All => buffer.mark(Mark::Star),
        Selects::Count => buffer.count(),
        Selects::Items => put_list(buffer, items),
    }
}

fn put_from(buffer: &mut OutputBuffer, from: &FromItem) -> Result<(), AllocError>
    ensures { OnOk result (put_all (Some (output_of buffer.old)) (form.from_ from.now.table from.now.alias) ≡ Some (output_of buffer.new)) }
{
    put_table(buffer, &from.table, &from.alias)
}

/// FROM, the table and its alias.
pub fn put_table(
    buffer: &mut OutputBuffer,
    table: &Name,
    alias: &Option<Name>,
) -> Result<(), AllocError>
    ensures { OnOk result (put_all (Some (output_of buffer.old)) (form.from_ table.now alias.now) ≡ Some (output_of buffer.new)) }
{
    buffer.word("FROM")?;
    buffer.word(table.as_str())?;
    put_alias(buffer, alias)
}

fn put_alias(buffer: &mut OutputBuffer, alias: &Option<Name>) -> Result<(), AllocError>
    ensures { OnOk result (put_all (Some (output_of buffer.old)) (form.alias alias.now) ≡ Some (output_of buffer.new)) }
{
    match alias {
        Some(alias) => {
            buffer.word("AS")?;
            buffer.word(alias.as_str())
        }
        None => Ok(()),
    }
}

/// WHERE, if there is a condition.
#[cycle(printing)]
pub fn put_where(buffer: &mut OutputBuffer, condition: &Option<Expr>) -> Result<(), AllocError>
    ensures { OnOk result (put_all (Some (output_of buffer.old)) (form.where_ (maybe_term condition.now)) ≡ Some (output_of buffer.new)) }
{
    match condition {
        Some(condition) => {
            buffer.word("WHERE")?;
            put_expr(buffer, condition)
        }
        None => Ok(()),
    }
}
