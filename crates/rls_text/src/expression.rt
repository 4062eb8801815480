//! Expressions from tokens.

ghost use Rattle.std.specs.Prelude.{◌≡◌, [], ◌∷◌, codes, length, refl, IfOk};
ghost use Rattle.rls_text.specs.{FirstSets.sign_heads, FirstSets.in_heads, FirstSets.comparison_heads, Parses.read_both, Parses.read_many, Parses.read_mapped, Gives.Gives, Gives.folded, Heads.sees, Heads.Keyword};
ghost use Rattle.rls_text.specs.Cut as cut;
ghost use Rattle.rls_text.specs.Heads as heads;
ghost use Rattle.rls_text.specs.Grammar as g;
ghost use Rattle.rls_text.specs.Trees as spec;

use crate::fault::Fault;
use crate::items::{item, starts_item};
use crate::reading::{closed, only, sees_symbol, sees_word, symbol, word};
use crate::selected::{from_table, items_and_depth};
use crate::token::{Symbol, Token};
use crate::tree::{
    Choices, Operands, SelectParts, Summed, TableAndAlias, Tree, Tuple, among_of, and_of,
    compare_of, exists_of, leaf_of, not_of, null_test_of, or_of, scalar_of, sum_of, with_operand,
    with_part, with_summand,
};
use rls_expr::{Comparison, Sign};
use rls_value::{Items, or_drop};
use std::alloc::{AllocError, Global};

/// An expression with parentheses to this depth.
#[cycle(expression)]
#[tactic(auto, using(crate::proofs::Loops::deeper), unfolding(crate::specs::Grammar::expr))]
pub fn expr(alloc: Global, depth: usize, tokens: &[Token]) -> Result<(Tree, &[Token]), Fault>
    ensures { Gives result ((g.expr depth).read tokens.now) }
{
    if depth == 0 {
        Err(Fault::Syntax)
    } else {
        or(alloc, depth - 1, tokens)
    }
}

#[cycle(expression)]
#[tactic(auto, unfolding(crate::specs::Grammar::or, crate::specs::Gives::folded))]
fn or(alloc: Global, depth: usize, tokens: &[Token]) -> Result<(Tree, &[Token]), Fault>
    ensures { Gives result ((g.or (g.expr depth)).read tokens.now) }
{
    let ((first, height), rest) = and(alloc, depth, tokens)?;
    let (operands, rest) = or_more(alloc, depth, Operands::One(first, height), rest)?;
    let tree = or_of(alloc, operands)?;
    Ok((tree, rest))
}

#[cycle(expression)]
#[tactic(auto, using(crate::proofs::Loops::fold_begins, crate::proofs::Loops::fold_stops, crate::proofs::Loops::fold_ends, crate::proofs::Loops::fold_fails, crate::proofs::Loops::fold_goes_on))]
fn or_more(
    alloc: Global,
    depth: usize,
    first: Operands,
    tokens: &[Token],
) -> Result<(Operands, &[Token]), Fault>
    ensures { Gives result (folded spec.with_operand first (read_many (Keyword (codes "or") ∷ []) (g.or_next (g.expr depth)).read (length tokens.now) tokens.now)) }
{
    let mut operands = first;
    let mut rest = tokens;
    for _turn in 0..tokens.len() {
        if !sees_word(rest, b"or") {
            return Ok((operands, rest));
        }
        match or_next(alloc, depth, rest) {
            Ok((next, behind)) => match with_operand(alloc, operands, next) {
                Ok(more) => {
                    operands = more;
                    rest = behind;
                }
                Err(_) => return Err(Fault::NoMemory),
            },
            Err(fault) => {
                drop(operands);
                return Err(fault);
            }
        }
    }
    Ok((operands, rest))
}

#[cycle(expression)]
#[tactic(auto, unfolding(crate::specs::Grammar::or_next))]
fn or_next(alloc: Global, depth: usize, tokens: &[Token]) -> Result<(Tree, &[Token]), Fault>
    ensures { Gives result ((g.or_next (g.expr depth)).read tokens.now) }
{
    match word(tokens, b"or") {
        Some(rest) => and(alloc, depth, rest),
        None => Err(Fault::Syntax),
    }
}

#[cycle(expression)]
#[tactic(auto, unfolding(crate::specs::Grammar::and, crate::specs::Gives::folded))]
fn and(alloc: Global, depth: usize, tokens: &[Token]) -> Result<(Tree, &[Token]), Fault>
    ensures { Gives result ((g.and (g.expr depth)).read tokens.now) }
{
    let ((first, height), rest) = not(alloc, depth, tokens)?;
    let (operands, rest) = and_more(alloc, depth, Operands::One(first, height), rest)?;
    let tree = and_of(alloc, operands)?;
    Ok((tree, rest))
}

#[cycle(expression)]
#[tactic(auto, using(crate::proofs::Loops::fold_begins, crate::proofs::Loops::fold_stops, crate::proofs::Loops::fold_ends, crate::proofs::Loops::fold_fails, crate::proofs::Loops::fold_goes_on))]
fn and_more(
    alloc: Global,
    depth: usize,
    first: Operands,
    tokens: &[Token],
) -> Result<(Operands, &[Token]), Fault>
    ensures { Gives result (folded spec.with_operand first (read_many (Keyword (codes "and") ∷ []) (g.and_next (g.expr depth)).read (length tokens.now) tokens.now)) }
{
    let mut operands = first;
    let mut rest = tokens;
    for _turn in 0..tokens.len() {
        if !sees_word(rest, b"and") {
            return Ok((operands, rest));
        }
        match and_next(alloc, depth, rest) {
            Ok((next, behind)) => match with_operand(alloc, operands, next) {
                Ok(more) => {
                    operands = more;
                    rest = behind;
                }
                Err(_) => return Err(Fault::NoMemory),
            },
            Err(fault) => {
                drop(operands);
                return Err(fault);
            }
        }
    }
    Ok((operands, rest))
}

#[cycle(expression)]
#[tactic(auto, unfolding(crate::specs::Grammar::and_next))]
fn and_next(alloc: Global, depth: usize, tokens: &[Token]) -> Result<(Tree, &[Token]), Fault>
    ensures { Gives result ((g.and_next (g.expr depth)).read tokens.now) }
{
    match word(tokens, b"and") {
        Some(rest) => not(alloc, depth, rest),
        None => Err(Fault::Syntax),
    }
}

#[cycle(expression)]
#[tactic(auto, unfolding(crate::specs::Grammar::not_))]
fn not(alloc: Global, depth: usize, tokens: &[Token]) -> Result<(Tree, &[Token]), Fault>
    ensures { Gives result ((g.not_ (g.expr depth)).read tokens.now) }
{
    let (count, rest) = nots(tokens);
    let (operand, rest) = is(alloc, depth, rest)?;
    let operand = negated(alloc, count, operand)?;
    Ok((operand, rest))
}

#[cycle(expression)]
#[tactic(auto, unfolding(crate::specs::Grammar::is, crate::specs::Gives::folded))]
fn is(alloc: Global, depth: usize, tokens: &[Token]) -> Result<(Tree, &[Token]), Fault>
    ensures { Gives result ((g.is (g.expr depth)).read tokens.now) }
{
    let (tested, rest) = cmp(alloc, depth, tokens)?;
    null_tests(alloc, tested, rest)
}

#[cycle(expression)]
#[tactic(auto, unfolding(crate::specs::Grammar::cmp))]
fn cmp(alloc: Global, depth: usize, tokens: &[Token]) -> Result<(Tree, &[Token]), Fault>
    ensures { Gives result ((g.cmp (g.expr depth)).read tokens.now) }
{
    let (left, rest) = memb(alloc, depth, tokens)?;
    if starts_comparison(rest) {
        let ((how, right), rest) = or_drop!(right_side(alloc, depth, rest), left);
        let tree = compare_of(alloc, how, left, right)?;
        Ok((tree, rest))
    } else {
        Ok((left, rest))
    }
}

/// The sign of a comparison, and its right side.
#[cycle(expression)]
fn right_side(
    alloc: Global,
    depth: usize,
    tokens: &[Token],
) -> Result<((Comparison, Tree), &[Token]), Fault>
    ensures { Gives result (read_both g.comparison.parses.read (g.memb (g.expr depth)).read tokens.now) }
{
    let (how, rest) = comparison(tokens)?;
    let (right, rest) = memb(alloc, depth, rest)?;
    Ok(((how, right), rest))
}

#[cycle(expression)]
#[tactic(auto, unfolding(crate::specs::Grammar::memb))]
fn memb(alloc: Global, depth: usize, tokens: &[Token]) -> Result<(Tree, &[Token]), Fault>
    ensures { Gives result ((g.memb (g.expr depth)).read tokens.now) }
{
    let (left, rest) = sum(alloc, depth, tokens)?;
    if starts_in(rest) {
        let ((negated, all), rest) = or_drop!(in_choices(alloc, depth, rest), left);
        let tree = among_of(alloc, left, negated, all)?;
        Ok((tree, rest))
    } else {
        Ok((left, rest))
    }
}

#[cycle(expression)]
#[tactic(auto, unfolding(crate::specs::Grammar::in_choices))]
fn in_choices(
    alloc: Global,
    depth: usize,
    tokens: &[Token],
) -> Result<((Option<()>, Choices), &[Token]), Fault>
    ensures { Gives result ((g.in_choices (g.expr depth)).read tokens.now) }
{
    let (negated, rest) = in_word(tokens)?;
    let (choices, rest) = enclosed_choices(alloc, depth, rest)?;
    Ok(((negated, choices), rest))
}

#[cycle(expression)]
#[tactic(auto, unfolding(crate::specs::Grammar::enclosed_choices))]
fn enclosed_choices(
    alloc: Global,
    depth: usize,
    tokens: &[Token],
) -> Result<(Choices, &[Token]), Fault>
    ensures { Gives result ((g.enclosed_choices (g.expr depth)).read tokens.now) }
{
    let Some(rest) = symbol(tokens, Symbol::LParen) else {
        return Err(Fault::Syntax);
    };
    let (choices, rest) = choices(alloc, depth, rest)?;
    closed(choices, rest)
}

/// A SELECT, or the expressions of a list.
#[cycle(expression)]
#[tactic(auto, unfolding(crate::specs::Grammar::choices))]
fn choices(alloc: Global, depth: usize, tokens: &[Token]) -> Result<(Choices, &[Token]), Fault>
    ensures { Gives result ((g.choices (g.expr depth)).read tokens.now) }
{
    if sees_word(tokens, b"select") {
        let (select, rest) = select_parts(alloc, depth, tokens)?;
        Ok((Choices::Queried(select), rest))
    } else {
        let (list, rest) = parts(alloc, depth, tokens)?;
        Ok((Choices::Listed(list), rest))
    }
}

#[tactic(auto, unfolding(crate::specs::Grammar::tuple))]
pub fn tuple(alloc: Global, depth: usize, tokens: &[Token]) -> Result<(Tuple, &[Token]), Fault>
    ensures { Gives result ((g.tuple (g.expr depth)).read tokens.now) }
{
    let Some(rest) = symbol(tokens, Symbol::LParen) else {
        return Err(Fault::Syntax);
    };
    let (parts, rest) = parts(alloc, depth, rest)?;
    closed(parts, rest)
}

#[cycle(expression)]
#[tactic(auto, unfolding(crate::specs::Grammar::parts, crate::specs::Gives::folded))]
fn parts(alloc: Global, depth: usize, tokens: &[Token]) -> Result<(Tuple, &[Token]), Fault>
    ensures { Gives result ((g.parts (g.expr depth)).read tokens.now) }
{
    let ((first, height), rest) = expr(alloc, depth, tokens)?;
    let all = only(alloc, first.into_expr())?;
    more_parts(alloc, depth, (all, height), rest)
}

#[cycle(expression)]
#[tactic(auto, using(crate::proofs::Loops::fold_begins, crate::proofs::Loops::fold_stops, crate::proofs::Loops::fold_ends, crate::proofs::Loops::fold_fails, crate::proofs::Loops::fold_goes_on))]
fn more_parts(
    alloc: Global,
    depth: usize,
    first: Tuple,
    tokens: &[Token],
) -> Result<(Tuple, &[Token]), Fault>
    ensures { Gives result (folded spec.with_part first (read_many (heads.Sign Symbol.Comma ∷ []) (cut.with_comma (g.expr depth)).read (length tokens.now) tokens.now)) }
{
    let mut all = first;
    let mut rest = tokens;
    for _turn in 0..tokens.len() {
        if !sees_symbol(rest, Symbol::Comma) {
            return Ok((all, rest));
        }
        match next_part(alloc, depth, rest) {
            Ok((next, behind)) => match with_part(all, next) {
                Ok(more) => {
                    all = more;
                    rest = behind;
                }
                Err(_) => return Err(Fault::NoMemory),
            },
            Err(fault) => {
                drop(all);
                return Err(fault);
            }
        }
    }
    Ok((all, rest))
}

#[cycle(expression)]
#[tactic(auto, unfolding(crate::specs::Cut::with_comma))]
fn next_part(alloc: Global, depth: usize, tokens: &[Token]) -> Result<(Tree, &[Token]), Fault>
    ensures { Gives result ((cut.with_comma (g.expr depth)).read tokens.now) }
{
    match symbol(tokens, Symbol::Comma) {
        Some(rest) => expr(alloc, depth, rest),
        None => Err(Fault::Syntax),
    }
}

#[cycle(expression)]
#[tactic(auto, unfolding(crate::specs::Grammar::sum, crate::specs::Gives::folded))]
fn sum(alloc: Global, depth: usize, tokens: &[Token]) -> Result<(Tree, &[Token]), Fault>
    ensures { Gives result ((g.sum (g.expr depth)).read tokens.now) }
{
    let ((first, height), rest) = prim(alloc, depth, tokens)?;
    let first = (Operands::One(first, height), Items::new(alloc));
    let (sum, rest) = sum_more(alloc, depth, first, rest)?;
    let tree = sum_of(alloc, sum)?;
    Ok((tree, rest))
}

#[cycle(expression)]
#[tactic(auto, using(crate::proofs::Loops::fold_begins, crate::proofs::Loops::fold_stops, crate::proofs::Loops::fold_ends, crate::proofs::Loops::fold_fails, crate::proofs::Loops::fold_goes_on))]
fn sum_more(
    alloc: Global,
    depth: usize,
    first: Summed,
    tokens: &[Token],
) -> Result<(Summed, &[Token]), Fault>
    ensures { Gives result (folded spec.with_summand first (read_many sign_heads (g.sum_next (g.expr depth)).read (length tokens.now) tokens.now)) }
{
    let mut sum = first;
    let mut rest = tokens;
    for _turn in 0..tokens.len() {
        if !starts_sign(rest) {
            return Ok((sum, rest));
        }
        match sum_next(alloc, depth, rest) {
            Ok((next, behind)) => match with_summand(alloc, sum, next) {
                Ok(more) => {
                    sum = more;
                    rest = behind;
                }
                Err(_) => return Err(Fault::NoMemory),
            },
            Err(fault) => {
                drop(sum);
                return Err(fault);
            }
        }
    }
    Ok((sum, rest))
}

#[cycle(expression)]
#[tactic(auto, unfolding(crate::specs::Grammar::sum_next))]
fn sum_next(
    alloc: Global,
    depth: usize,
    tokens: &[Token],
) -> Result<((Sign, Tree), &[Token]), Fault>
    ensures { Gives result ((g.sum_next (g.expr depth)).read tokens.now) }
{
    let (sign, rest) = part_sign(tokens)?;
    let (part, rest) = prim(alloc, depth, rest)?;
    Ok(((sign, part), rest))
}

#[cycle(expression)]
#[tactic(auto, unfolding(crate::specs::Grammar::prim))]
fn prim(alloc: Global, depth: usize, tokens: &[Token]) -> Result<(Tree, &[Token]), Fault>
    ensures { Gives result ((g.prim (g.expr depth)).read tokens.now) }
{
    if starts_item(tokens) {
        item_leaf(alloc, tokens)
    } else if sees_word(tokens, b"exists") {
        exists(alloc, depth, tokens)
    } else {
        in_parentheses(alloc, depth, tokens)
    }
}

/// EXISTS, and a SELECT in parentheses.
#[cycle(expression)]
#[tactic(auto, unfolding(crate::specs::Grammar::exists))]
fn exists(alloc: Global, depth: usize, tokens: &[Token]) -> Result<(Tree, &[Token]), Fault>
    ensures { Gives result ((g.exists (g.expr depth)).read tokens.now) }
{
    let Some(rest) = word(tokens, b"exists") else {
        return Err(Fault::Syntax);
    };
    let (select, rest) = enclosed_select(alloc, depth, rest)?;
    let tree = exists_of(alloc, select)?;
    Ok((tree, rest))
}

#[cycle(expression)]
fn enclosed_select(
    alloc: Global,
    depth: usize,
    tokens: &[Token],
) -> Result<(SelectParts, &[Token]), Fault>
    ensures { Gives result ((cut.in_parentheses (g.select_parts (g.expr depth)) refl).read tokens.now) }
{
    let Some(rest) = symbol(tokens, Symbol::LParen) else {
        return Err(Fault::Syntax);
    };
    let (select, rest) = select_parts(alloc, depth, rest)?;
    closed(select, rest)
}

/// A SELECT that stands for a value, or an expression.
#[cycle(expression)]
fn in_parentheses(alloc: Global, depth: usize, tokens: &[Token]) -> Result<(Tree, &[Token]), Fault>
    ensures { Gives result ((cut.in_parentheses (g.enclosed (g.expr depth)) refl).read tokens.now) }
{
    let Some(rest) = symbol(tokens, Symbol::LParen) else {
        return Err(Fault::Syntax);
    };
    let (inner, rest) = enclosed(alloc, depth, rest)?;
    closed(inner, rest)
}

#[cycle(expression)]
#[tactic(auto, unfolding(crate::specs::Grammar::enclosed))]
fn enclosed(alloc: Global, depth: usize, tokens: &[Token]) -> Result<(Tree, &[Token]), Fault>
    ensures { Gives result ((g.enclosed (g.expr depth)).read tokens.now) }
{
    if sees_word(tokens, b"select") {
        scalar(alloc, depth, tokens)
    } else {
        expr(alloc, depth, tokens)
    }
}

#[cycle(expression)]
#[tactic(auto, unfolding(crate::specs::Grammar::scalar))]
fn scalar(alloc: Global, depth: usize, tokens: &[Token]) -> Result<(Tree, &[Token]), Fault>
    ensures { Gives result ((g.scalar (g.expr depth)).read tokens.now) }
{
    let (select, rest) = select_parts(alloc, depth, tokens)?;
    let tree = scalar_of(alloc, select)?;
    Ok((tree, rest))
}

/// A SELECT, as a statement or inside an expression.
#[cycle(expression)]
#[tactic(auto, unfolding(crate::specs::Grammar::select_parts))]
pub fn select_parts(
    alloc: Global,
    depth: usize,
    tokens: &[Token],
) -> Result<(SelectParts, &[Token]), Fault>
    ensures { Gives result ((g.select_parts (g.expr depth)).read tokens.now) }
{
    let Some(rest) = word(tokens, b"select") else {
        return Err(Fault::Syntax);
    };
    let (items, rest) = items_and_depth(alloc, rest)?;
    let (from, rest) = or_drop!(selected_from(alloc, depth, rest), items);
    Ok(((items, from), rest))
}

/// FROM, and WHERE, if it is written.
#[cycle(expression)]
fn selected_from(
    alloc: Global,
    depth: usize,
    tokens: &[Token],
) -> Result<((TableAndAlias, Option<Tree>), &[Token]), Fault>
    ensures { Gives result (read_both g.from_table.parses.read (g.condition (g.expr depth)).read tokens.now) }
{
    let (table, rest) = from_table(alloc, tokens)?;
    let (condition, rest) = or_drop!(condition(alloc, depth, rest), table);
    Ok(((table, condition), rest))
}

#[cycle(expression)]
#[tactic(auto, unfolding(crate::specs::Grammar::condition))]
pub fn condition(
    alloc: Global,
    depth: usize,
    tokens: &[Token],
) -> Result<(Option<Tree>, &[Token]), Fault>
    ensures { Gives result ((g.condition (g.expr depth)).read tokens.now) }
{
    match word(tokens, b"where") {
        Some(rest) => match expr(alloc, depth, rest) {
            Ok((condition, rest)) => Ok((Some(condition), rest)),
            Err(fault) => Err(fault),
        },
        None => Ok((None, tokens)),
    }
}

#[tactic(auto, unfolding(crate::specs::Grammar::parenthesized))]
pub fn parenthesized(
    alloc: Global,
    depth: usize,
    tokens: &[Token],
) -> Result<(Tree, &[Token]), Fault>
    ensures { Gives result ((g.parenthesized (g.expr depth)).read tokens.now) }
{
    let Some(rest) = symbol(tokens, Symbol::LParen) else {
        return Err(Fault::Syntax);
    };
    let (inner, rest) = expr(alloc, depth, rest)?;
    closed(inner, rest)
}

/// An item, as an expression without operands.
fn item_leaf(alloc: Global, tokens: &[Token]) -> Result<(Tree, &[Token]), Fault>
    ensures { Gives result (read_mapped spec.leaf g.item.parses.read tokens.now) }
{
    let (item, rest) = item(alloc, tokens)?;
    let leaf = leaf_of(alloc, item)?;
    Ok((leaf, rest))
}

/// How many times NOT stands there.
#[tactic(auto, using(crate::proofs::Loops::nots_begin, crate::proofs::Loops::count_stops, crate::proofs::Loops::count_ends, crate::proofs::Loops::count_goes_on))]
fn nots(tokens: &[Token]) -> (usize, &[Token])
    ensures { g.nots.parses.read tokens.now ≡ Some (result.0, result.1.now) }
{
    let mut count = 0;
    let mut rest = tokens;
    for _turn in 0..tokens.len() {
        let Some(behind) = word(rest, b"not") else {
            return (count, rest);
        };
        count += 1;
        rest = behind;
    }
    (count, rest)
}

#[tactic(auto, using(crate::proofs::Loops::negated_on, crate::proofs::Loops::negated_done))]
fn negated(alloc: Global, count: usize, operand: Tree) -> Result<Tree, AllocError>
    ensures { IfOk result (λ tree. tree ≡ spec.negated count operand) }
{
    let mut operand = operand;
    for _turn in 0..count {
        operand = not_of(alloc, operand)?;
    }
    Ok(operand)
}

#[tactic(auto, using(crate::proofs::Loops::fold_begins, crate::proofs::Loops::fold_stops, crate::proofs::Loops::fold_ends, crate::proofs::Loops::fold_fails, crate::proofs::Loops::fold_goes_on))]
fn null_tests(alloc: Global, tested: Tree, tokens: &[Token]) -> Result<(Tree, &[Token]), Fault>
    ensures { Gives result (folded spec.null_test_of tested (read_many (Keyword (codes "is") ∷ []) g.null_test.parses.read (length tokens.now) tokens.now)) }
{
    let mut tested = tested;
    let mut rest = tokens;
    for _turn in 0..tokens.len() {
        if !sees_word(rest, b"is") {
            return Ok((tested, rest));
        }
        match null_test(rest) {
            Ok((negated, behind)) => match null_test_of(alloc, tested, negated) {
                Ok(tree) => {
                    tested = tree;
                    rest = behind;
                }
                Err(_) => return Err(Fault::NoMemory),
            },
            Err(fault) => {
                drop(tested);
                return Err(fault);
            }
        }
    }
    Ok((tested, rest))
}

#[tactic(auto, unfolding(crate::specs::Grammar::null_test))]
fn null_test(tokens: &[Token]) -> Result<(Option<()>, &[Token]), Fault>
    ensures { Gives result (g.null_test.parses.read tokens.now) }
{
    let Some(rest) = word(tokens, b"is") else {
        return Err(Fault::Syntax);
    };
    let (negated, rest) = match word(rest, b"not") {
        Some(rest) => (Some(()), rest),
        None => (None, rest),
    };
    match word(rest, b"null") {
        Some(rest) => Ok((negated, rest)),
        None => Err(Fault::Syntax),
    }
}

fn starts_in(tokens: &[Token]) -> bool
    ensures { result ≡ sees in_heads tokens.now }
{
    if sees_word(tokens, b"not") {
        true
    } else {
        sees_word(tokens, b"in")
    }
}

/// Whether NOT stands before IN.
#[tactic(auto, unfolding(crate::specs::Grammar::in_word))]
fn in_word(tokens: &[Token]) -> Result<(Option<()>, &[Token]), Fault>
    ensures { Gives result (g.in_word.parses.read tokens.now) }
{
    let (negated, rest) = match word(tokens, b"not") {
        Some(rest) => (Some(()), rest),
        None => (None, tokens),
    };
    match word(rest, b"in") {
        Some(rest) => Ok((negated, rest)),
        None => Err(Fault::Syntax),
    }
}

fn starts_sign(tokens: &[Token]) -> bool
    ensures { result ≡ sees sign_heads tokens.now }
{
    match tokens {
        [Token::Symbol(Symbol::Plus | Symbol::Minus), ..] => true,
        _ => false,
    }
}

#[tactic(auto, unfolding(crate::specs::Grammar::part_sign))]
fn part_sign(tokens: &[Token]) -> Result<(Sign, &[Token]), Fault>
    ensures { Gives result (g.part_sign.parses.read tokens.now) }
{
    match tokens {
        [Token::Symbol(Symbol::Plus), rest @ ..] => Ok((Sign::Plus, rest)),
        [Token::Symbol(Symbol::Minus), rest @ ..] => Ok((Sign::Minus, rest)),
        _ => Err(Fault::Syntax),
    }
}

fn starts_comparison(tokens: &[Token]) -> bool
    ensures { result ≡ sees comparison_heads tokens.now }
{
    match tokens {
        [Token::Symbol(symbol), ..] => match symbol {
            Symbol::Equal
            | Symbol::NotEqual
            | Symbol::Less
            | Symbol::LessOrEqual
            | Symbol::Greater
            | Symbol::GreaterOrEqual => true,
            _ => false,
        },
        _ => false,
    }
}

#[tactic(auto, unfolding(crate::specs::Grammar::comparison))]
fn comparison(tokens: &[Token]) -> Result<(Comparison, &[Token]), Fault>
    ensures { Gives result (g.comparison.parses.read tokens.now) }
{
    match tokens {
        [Token::Symbol(Symbol::Equal), rest @ ..] => Ok((Comparison::Equal, rest)),
        [Token::Symbol(Symbol::NotEqual), rest @ ..] => Ok((Comparison::NotEqual, rest)),
        [Token::Symbol(Symbol::Less), rest @ ..] => Ok((Comparison::Less, rest)),
        [Token::Symbol(Symbol::LessOrEqual), rest @ ..] => Ok((Comparison::LessOrEqual, rest)),
        [Token::Symbol(Symbol::Greater), rest @ ..] => Ok((Comparison::Greater, rest)),
        [Token::Symbol(Symbol::GreaterOrEqual), rest @ ..] => Ok((
            Comparison::GreaterOrEqual,
            rest,
        )),
        _ => Err(Fault::Syntax),
    }
}
