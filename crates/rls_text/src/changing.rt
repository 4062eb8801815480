//! UPDATE, DELETE and RETURNING from tokens.

ghost use Rattle.std.specs.Prelude.{◌≡◌, [], ◌∷◌, length, codes, IfOk};
ghost use Rattle.rls_text.specs.{Gives.Gives, Gives.folded, Heads.Sign, Parses.and_then, Parses.read_both, Parses.read_many, Parses.read_token};
ghost use Rattle.rls_text.specs.Cut as cut;
ghost use Rattle.rls_text.specs.Grammar as g;
ghost use Rattle.rls_text.specs.Values as values;
ghost use Rattle.rls_text.specs.Trees as spec;

use crate::expression::{condition, expr};
use crate::fault::Fault;
use crate::items::item_list;
use crate::reading::{name, only, sees_symbol, symbol, word};
use crate::token::{Symbol, Token};
use crate::tree::{SetColumn, SetColumns, Tree, TreeWithDepth, parted, with_set_column};
use rls_statement::{Assignment, Delete, Selected, Statement, Update};
use rls_value::{Items, Name, or_drop};
use std::alloc::{AllocError, Global};
use std::collections::BTreeSet;

/// WHERE and RETURNING, if they are written.
type Ending = (Option<Tree>, Option<Selected>);

#[tactic(auto, unfolding(crate::specs::Grammar::update))]
pub fn update(
    alloc: Global,
    depth: usize,
    tokens: &[Token],
) -> Result<(TreeWithDepth, &[Token]), Fault>
    ensures { Gives result ((g.update (g.expr depth)).read tokens.now) }
{
    let Some(rest) = word(tokens, b"update") else {
        return Err(Fault::Syntax);
    };
    let (table, rest) = name(alloc, rest)?;
    let ((columns, ending), rest) = or_drop!(set_behind(alloc, depth, rest), table);
    Ok((updated(table, columns, ending), rest))
}

/// SET, its columns, and by which UPDATE ends.
fn set_behind(
    alloc: Global,
    depth: usize,
    tokens: &[Token],
) -> Result<((SetColumns, Ending), &[Token]), Fault>
    ensures { Gives result (and_then (read_token (Token.Word (codes "set")) tokens.now) (λ _ rest. read_both (g.set_columns (g.expr depth)).read (g.ending (g.expr depth)).read rest)) }
{
    let Some(rest) = word(tokens, b"set") else {
        return Err(Fault::Syntax);
    };
    let (columns, rest) = set_columns(alloc, depth, rest)?;
    let (ending, rest) = or_drop!(ending(alloc, depth, rest), columns);
    Ok(((columns, ending), rest))
}

fn updated(table: Name, columns: SetColumns, ending: Ending) -> TreeWithDepth
    ensures { result ≡ spec.update_of (table, (columns, ending)) }
{
    let (assignments, depth) = columns;
    let (condition, returning) = ending;
    let (condition, other) = parted(condition);
    let update = Update {
        table,
        assignments,
        condition,
        returning,
    };
    (Statement::Update(update), depth.max(other))
}

#[tactic(auto, unfolding(crate::specs::Grammar::delete))]
pub fn delete(
    alloc: Global,
    depth: usize,
    tokens: &[Token],
) -> Result<(TreeWithDepth, &[Token]), Fault>
    ensures { Gives result ((g.delete (g.expr depth)).read tokens.now) }
{
    let Some(rest) = word(tokens, b"delete") else {
        return Err(Fault::Syntax);
    };
    let Some(rest) = word(rest, b"from") else {
        return Err(Fault::Syntax);
    };
    let (table, rest) = name(alloc, rest)?;
    let (ending, rest) = or_drop!(ending(alloc, depth, rest), table);
    Ok((deleted(table, ending), rest))
}

fn deleted(table: Name, ending: Ending) -> TreeWithDepth
    ensures { result ≡ spec.delete_of (table, ending) }
{
    let (condition, returning) = ending;
    let (condition, depth) = parted(condition);
    let delete = Delete {
        table,
        condition,
        returning,
    };
    (Statement::Delete(delete), depth)
}

/// By which UPDATE and DELETE end.
#[tactic(auto, unfolding(crate::specs::Grammar::ending))]
fn ending(alloc: Global, depth: usize, tokens: &[Token]) -> Result<(Ending, &[Token]), Fault>
    ensures { Gives result ((g.ending (g.expr depth)).read tokens.now) }
{
    let (condition, rest) = condition(alloc, depth, tokens)?;
    let (returning, rest) = or_drop!(returning(alloc, rest), condition);
    Ok(((condition, returning), rest))
}

#[tactic(auto, unfolding(crate::specs::Grammar::returning))]
pub fn returning(alloc: Global, tokens: &[Token]) -> Result<(Option<Selected>, &[Token]), Fault>
    ensures { Gives result (g.returning.parses.read tokens.now) }
{
    match word(tokens, b"returning") {
        Some(rest) => match returned(alloc, rest) {
            Ok((selected, rest)) => Ok((Some(selected), rest)),
            Err(fault) => Err(fault),
        },
        None => Ok((None, tokens)),
    }
}

#[tactic(auto, unfolding(crate::specs::Grammar::returned))]
fn returned(alloc: Global, tokens: &[Token]) -> Result<(Selected, &[Token]), Fault>
    ensures { Gives result (g.returned.parses.read tokens.now) }
{
    match symbol(tokens, Symbol::Star) {
        Some(rest) => Ok((Selected::All, rest)),
        None => match item_list(alloc, tokens) {
            Ok((all, rest)) => Ok((Selected::Items(all), rest)),
            Err(fault) => Err(fault),
        },
    }
}

/// The columns that are set, each once.
#[tactic(auto, unfolding(crate::specs::Grammar::set_columns))]
fn set_columns(
    alloc: Global,
    depth: usize,
    tokens: &[Token],
) -> Result<(SetColumns, &[Token]), Fault>
    ensures { Gives result ((g.set_columns (g.expr depth)).read tokens.now) }
{
    let (columns, rest) = all_set_columns(alloc, depth, tokens)?;
    let are_distinct = or_drop!(
        are_distinct_assignments(alloc, columns.0.as_slice()),
        columns
    );
    if are_distinct {
        Ok((columns, rest))
    } else {
        drop(columns);
        Err(Fault::Syntax)
    }
}

/// Whether no column is set twice. It sorts their names, since there may be thousands.
fn are_distinct_assignments(
    alloc: Global,
    mut assignments: &[Assignment],
) -> Result<bool, AllocError>
    ensures { IfOk result (λ distinct. distinct ≡ values.are_distinct (values.set_names assignments.entry.now)) }
{
    let mut seen = BTreeSet::new(alloc);
    while let [first, rest @ ..] = assignments {
        if !seen.insert(first.column.as_str())? {
            return Ok(false);
        }
        assignments = rest;
    }
    Ok(true)
}

#[tactic(auto, unfolding(crate::specs::Grammar::all_set_columns, crate::specs::Gives::folded))]
fn all_set_columns(
    alloc: Global,
    depth: usize,
    tokens: &[Token],
) -> Result<(SetColumns, &[Token]), Fault>
    ensures { Gives result ((g.all_set_columns (g.expr depth)).read tokens.now) }
{
    let ((first, height), rest) = set_column(alloc, depth, tokens)?;
    let all = only(alloc, first)?;
    more_set_columns(alloc, depth, (all, height), rest)
}

#[tactic(auto, using(crate::proofs::Loops::fold_begins, crate::proofs::Loops::fold_stops, crate::proofs::Loops::fold_ends, crate::proofs::Loops::fold_fails, crate::proofs::Loops::fold_goes_on))]
fn more_set_columns(
    alloc: Global,
    depth: usize,
    first: SetColumns,
    tokens: &[Token],
) -> Result<(SetColumns, &[Token]), Fault>
    ensures { Gives result (folded spec.with_set_column first (read_many (Sign Symbol.Comma ∷ []) (cut.with_comma (g.set_column (g.expr depth))).read (length tokens.now) tokens.now)) }
{
    let mut all = first;
    let mut rest = tokens;
    for _turn in 0..tokens.len() {
        if !sees_symbol(rest, Symbol::Comma) {
            return Ok((all, rest));
        }
        match next_set_column(alloc, depth, rest) {
            Ok((next, behind)) => match with_set_column(all, next) {
                Ok(more) => {
                    all = more;
                    rest = behind;
                }
                Err(_) => return Err(Fault::NoMemory),
            },
            Err(fault) => {
                drop(all);
                return Err(fault);
            }
        }
    }
    Ok((all, rest))
}

#[tactic(auto, unfolding(crate::specs::Cut::with_comma))]
fn next_set_column(
    alloc: Global,
    depth: usize,
    tokens: &[Token],
) -> Result<(SetColumn, &[Token]), Fault>
    ensures { Gives result ((cut.with_comma (g.set_column (g.expr depth))).read tokens.now) }
{
    match symbol(tokens, Symbol::Comma) {
        Some(rest) => set_column(alloc, depth, rest),
        None => Err(Fault::Syntax),
    }
}

#[tactic(auto, unfolding(crate::specs::Grammar::set_column))]
fn set_column(alloc: Global, depth: usize, tokens: &[Token]) -> Result<(SetColumn, &[Token]), Fault>
    ensures { Gives result ((g.set_column (g.expr depth)).read tokens.now) }
{
    let (column, rest) = name(alloc, tokens)?;
    let ((value, depth), rest) = or_drop!(set_value(alloc, depth, rest), column);
    let value = value.into_expr();
    Ok(((Assignment { column, value }, depth), rest))
}

/// `=` and the expression behind it.
fn set_value(alloc: Global, depth: usize, tokens: &[Token]) -> Result<(Tree, &[Token]), Fault>
    ensures { Gives result (and_then (read_token (Token.Symbol Symbol.Equal) tokens.now) (λ _ rest. (g.expr depth).read rest)) }
{
    match symbol(tokens, Symbol::Equal) {
        Some(rest) => expr(alloc, depth, rest),
        None => Err(Fault::Syntax),
    }
}
