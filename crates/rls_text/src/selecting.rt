//! SELECT and INSERT from tokens.

ghost use Rattle.std.specs.Prelude.{◌≡◌, [], ◌∷◌, length, codes};
ghost use Rattle.rls_text.specs.{Gives.Gives, Gives.folded, Heads.Sign, Parses.and_then, Parses.read_both, Parses.read_many, Parses.read_token};
ghost use Rattle.rls_text.specs.Cut as cut;
ghost use Rattle.rls_text.specs.Grammar as g;
ghost use Rattle.rls_text.specs.Values as values;
ghost use Rattle.rls_text.specs.Trees as spec;

use crate::changing::returning;
use crate::expression::{select_parts, tuple};
use crate::fault::Fault;
use crate::reading::{name, only, sees_symbol, symbol, word};
use crate::tables::listed_names;
use crate::token::{Symbol, Token};
use crate::tree::{SelectParts, TreeWithDepth, Tuple, Tuples, parted, with_tuple};
use rls_expr::Expr;
use rls_statement::{Insert, Select, Selected, Statement};
use rls_value::{Items, Name, or_drop};
use std::alloc::Global;

/// The columns of INSERT, if they are written, and its tuples.
type Rows = (Option<Items<Name>>, Tuples);

#[tactic(auto, unfolding(crate::specs::Grammar::select))]
pub fn select(
    alloc: Global,
    depth: usize,
    tokens: &[Token],
) -> Result<(TreeWithDepth, &[Token]), Fault>
    ensures { Gives result ((g.select (g.expr depth)).read tokens.now) }
{
    let (select, rest) = select_parts(alloc, depth, tokens)?;
    Ok((selected(select), rest))
}

fn selected(select: SelectParts) -> TreeWithDepth
    ensures { result ≡ spec.select_of select }
{
    let ((items, _), ((table, alias), condition)) = select;
    let (condition, depth) = parted(condition);
    let select = Select {
        items,
        table,
        alias,
        condition,
    };
    (Statement::Select(select), depth)
}

#[tactic(auto, unfolding(crate::specs::Grammar::insert))]
pub fn insert(
    alloc: Global,
    depth: usize,
    tokens: &[Token],
) -> Result<(TreeWithDepth, &[Token]), Fault>
    ensures { Gives result ((g.insert (g.expr depth)).read tokens.now) }
{
    let Some(rest) = word(tokens, b"insert") else {
        return Err(Fault::Syntax);
    };
    let Some(rest) = word(rest, b"into") else {
        return Err(Fault::Syntax);
    };
    let (table, rest) = name(alloc, rest)?;
    let ((rows, returning), rest) = or_drop!(rows_and_returning(alloc, depth, rest), table);
    Ok((inserted(table, rows, returning), rest))
}

fn rows_and_returning(
    alloc: Global,
    depth: usize,
    tokens: &[Token],
) -> Result<((Rows, Option<Selected>), &[Token]), Fault>
    ensures { Gives result (read_both (g.proper_rows (g.expr depth)).read g.returning.parses.read tokens.now) }
{
    let (rows, rest) = proper_rows(alloc, depth, tokens)?;
    let (returning, rest) = or_drop!(returning(alloc, rest), rows);
    Ok(((rows, returning), rest))
}

fn inserted(table: Name, rows: Rows, returning: Option<Selected>) -> TreeWithDepth
    ensures { result ≡ spec.insert_of (table, (rows, returning)) }
{
    let (columns, (tuples, depth)) = rows;
    let insert = Insert {
        table,
        columns,
        tuples,
        returning,
    };
    (Statement::Insert(insert), depth)
}

/// Tuples that are as long as the list of columns, where one is written.
#[tactic(auto, unfolding(crate::specs::Grammar::proper_rows))]
fn proper_rows(alloc: Global, depth: usize, tokens: &[Token]) -> Result<(Rows, &[Token]), Fault>
    ensures { Gives result ((g.proper_rows (g.expr depth)).read tokens.now) }
{
    let (rows, rest) = rows(alloc, depth, tokens)?;
    if are_as_long(&rows) {
        Ok((rows, rest))
    } else {
        drop(rows);
        Err(Fault::Syntax)
    }
}

fn are_as_long(rows: &Rows) -> bool
    ensures { result ≡ values.are_as_long rows.now.0 rows.now.1.0 }
{
    let (columns, (tuples, _)) = rows;
    match columns {
        Some(names) => have_length(names.len(), tuples.as_slice()),
        None => true,
    }
}

#[tactic(auto, unfolding(crate::specs::Grammar::rows))]
fn rows(alloc: Global, depth: usize, tokens: &[Token]) -> Result<(Rows, &[Token]), Fault>
    ensures { Gives result ((g.rows (g.expr depth)).read tokens.now) }
{
    let (columns, rest) = columns_if_any(alloc, tokens)?;
    let (tuples, rest) = or_drop!(values_behind(alloc, depth, rest), columns);
    Ok(((columns, tuples), rest))
}

/// VALUES and its tuples.
fn values_behind(alloc: Global, depth: usize, tokens: &[Token]) -> Result<(Tuples, &[Token]), Fault>
    ensures { Gives result (and_then (read_token (Token.Word (codes "values")) tokens.now) (λ _ rest. (g.even_tuples (g.expr depth)).read rest)) }
{
    match word(tokens, b"values") {
        Some(rest) => even_tuples(alloc, depth, rest),
        None => Err(Fault::Syntax),
    }
}

/// The columns in parentheses, each once, if they are written.
#[tactic(auto, unfolding(crate::specs::Grammar::columns_if_any))]
fn columns_if_any(alloc: Global, tokens: &[Token]) -> Result<(Option<Items<Name>>, &[Token]), Fault>
    ensures { Gives result (g.columns_if_any.parses.read tokens.now) }
{
    if sees_symbol(tokens, Symbol::LParen) {
        let (names, rest) = listed_names(alloc, tokens)?;
        Ok((Some(names), rest))
    } else {
        Ok((None, tokens))
    }
}

/// Tuples of one length.
#[tactic(auto, unfolding(crate::specs::Grammar::even_tuples))]
fn even_tuples(alloc: Global, depth: usize, tokens: &[Token]) -> Result<(Tuples, &[Token]), Fault>
    ensures { Gives result ((g.even_tuples (g.expr depth)).read tokens.now) }
{
    let (tuples, rest) = tuples(alloc, depth, tokens)?;
    if are_even(tuples.0.as_slice()) {
        Ok((tuples, rest))
    } else {
        drop(tuples);
        Err(Fault::Syntax)
    }
}

fn are_even(tuples: &[Items<Expr>]) -> bool
    ensures { result ≡ values.are_even tuples.now }
{
    match tuples {
        [first, rest @ ..] => have_length(first.len(), rest),
        [] => true,
    }
}

fn have_length(length: usize, mut tuples: &[Items<Expr>]) -> bool
    ensures { result ≡ values.have_length length tuples.entry.now }
{
    while let [first, rest @ ..] = tuples {
        if first.len() != length {
            return false;
        }
        tuples = rest;
    }
    true
}

#[tactic(auto, unfolding(crate::specs::Grammar::tuples, crate::specs::Gives::folded))]
fn tuples(alloc: Global, depth: usize, tokens: &[Token]) -> Result<(Tuples, &[Token]), Fault>
    ensures { Gives result ((g.tuples (g.expr depth)).read tokens.now) }
{
    let ((first, height), rest) = tuple(alloc, depth, tokens)?;
    let all = only(alloc, first)?;
    more_tuples(alloc, depth, (all, height), rest)
}

#[tactic(auto, using(crate::proofs::Loops::fold_begins, crate::proofs::Loops::fold_stops, crate::proofs::Loops::fold_ends, crate::proofs::Loops::fold_fails, crate::proofs::Loops::fold_goes_on))]
fn more_tuples(
    alloc: Global,
    depth: usize,
    first: Tuples,
    tokens: &[Token],
) -> Result<(Tuples, &[Token]), Fault>
    ensures { Gives result (folded spec.with_tuple first (read_many (Sign Symbol.Comma ∷ []) (cut.with_comma (g.tuple (g.expr depth))).read (length tokens.now) tokens.now)) }
{
    let mut all = first;
    let mut rest = tokens;
    for _turn in 0..tokens.len() {
        if !sees_symbol(rest, Symbol::Comma) {
            return Ok((all, rest));
        }
        match next_tuple(alloc, depth, rest) {
            Ok((next, behind)) => match with_tuple(all, next) {
                Ok(more) => {
                    all = more;
                    rest = behind;
                }
                Err(_) => return Err(Fault::NoMemory),
            },
            Err(fault) => {
                drop(all);
                return Err(fault);
            }
        }
    }
    Ok((all, rest))
}

#[tactic(auto, unfolding(crate::specs::Cut::with_comma))]
fn next_tuple(alloc: Global, depth: usize, tokens: &[Token]) -> Result<(Tuple, &[Token]), Fault>
    ensures { Gives result ((cut.with_comma (g.tuple (g.expr depth))).read tokens.now) }
{
    match symbol(tokens, Symbol::Comma) {
        Some(rest) => tuple(alloc, depth, rest),
        None => Err(Fault::Syntax),
    }
}
