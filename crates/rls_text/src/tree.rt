//! Trees of limited depth: of a deeper one nothing is kept but that it was too deep.

ghost use Rattle.std.specs.Prelude.{◌≡◌, [], ◌∷◌, ◌++◌, IfOk};
ghost use Rattle.rls_expr.specs.Terms as term;
ghost use Rattle.rls_expr.specs.ExprTerms.{query_of, term_of};
ghost use Rattle.rls_text.specs.declared.tree.Choices.TheVariants.{Listed, Queried};
ghost use Rattle.rls_text.specs.Trees as spec;
ghost use Rattle.rls_text.specs.Values as values;

use crate::subtree::Subtree;
use rls_expr::{Comparison, Expr, FromItem, Node, Selects, Sign, Subquery, boxed_query};
use rls_statement::{Assignment, Selected, Statement};
use rls_value::{Items, Name, Value, or_drop};
use std::alloc::{AllocError, Global};

/// The greatest depth of an expression; a leaf counts one.
pub const MAX_DEPTH: u32 = 64;

/// An expression with its depth. One that is over the limit is cut: a null stands for it, with a depth above the limit.
pub type Tree = (Subtree, u32);

/// The operands of one node, as they come, with the depth of the deepest.
#[derive(Drop)]
pub enum Operands {
    One(Subtree, u32),
    Several(Items<Expr>, u32),
}

/// A node of this depth.
fn node_of(alloc: Global, node: Node, depth: u32) -> Result<Tree, AllocError>
    ensures { IfOk result (λ tree. tree ≡ (term_of node, depth)) }
{
    let node = Subtree::new(alloc, Expr::new(node))?;
    Ok((node, depth))
}

/// An expression without operands.
pub fn leaf_of(alloc: Global, leaf: Expr) -> Result<Tree, AllocError>
    ensures { IfOk result (λ tree. tree ≡ spec.leaf leaf) }
{
    let leaf = Subtree::new(alloc, leaf)?;
    Ok((leaf, 1))
}

fn cut(alloc: Global) -> Result<Tree, AllocError>
    ensures { IfOk result (λ tree. tree ≡ spec.cut) }
{
    node_of(alloc, Node::Literal(Value::Null), MAX_DEPTH + 1)
}

pub fn not_of(alloc: Global, operand: Tree) -> Result<Tree, AllocError>
    ensures { IfOk result (λ tree. tree ≡ spec.not_of operand) }
{
    let (operand, depth) = operand;
    if depth < MAX_DEPTH {
        node_of(alloc, Node::Not(operand.into_box()), depth + 1)
    } else {
        drop(operand);
        cut(alloc)
    }
}

/// `IS NULL`, or `IS NOT NULL` where it is negated.
#[tactic(auto, unfolding(crate::specs::Trees::null_test_of))]
pub fn null_test_of(alloc: Global, tested: Tree, negated: Option<()>) -> Result<Tree, AllocError>
    ensures { IfOk result (λ tree. tree ≡ spec.null_test_of tested negated) }
{
    let (tested, depth) = tested;
    if depth < MAX_DEPTH {
        let tested = tested.into_box();
        match negated {
            None => node_of(alloc, Node::IsNull(tested), depth + 1),
            Some(()) => node_of(alloc, Node::IsNotNull(tested), depth + 1),
        }
    } else {
        drop(tested);
        cut(alloc)
    }
}

pub fn compare_of(
    alloc: Global,
    how: Comparison,
    left: Tree,
    right: Tree,
) -> Result<Tree, AllocError>
    ensures { IfOk result (λ tree. tree ≡ spec.compare_of how left right) }
{
    let (left, depth) = left;
    let (right, other) = right;
    let depth = depth.max(other);
    if depth < MAX_DEPTH {
        let node = Node::Compare(how, left.into_box(), right.into_box());
        node_of(alloc, node, depth + 1)
    } else {
        drop(left);
        drop(right);
        cut(alloc)
    }
}

#[tactic(auto, unfolding(crate::specs::Trees::with_operand))]
pub fn with_operand(
    alloc: Global,
    operands: Operands,
    operand: Tree,
) -> Result<Operands, AllocError>
    ensures { IfOk result (λ all. all ≡ spec.with_operand operands operand) }
{
    let (operand, other) = operand;
    match operands {
        Operands::One(first, depth) => {
            let all = pair(alloc, first.into_expr(), operand.into_expr())?;
            Ok(Operands::Several(all, depth.max(other)))
        }
        Operands::Several(all, depth) => {
            let all = with_one_more(all, operand.into_expr())?;
            Ok(Operands::Several(all, depth.max(other)))
        }
    }
}

fn pair(alloc: Global, first: Expr, second: Expr) -> Result<Items<Expr>, AllocError>
    ensures { IfOk result (λ all. all ≡ first ∷ second ∷ []) }
{
    let all = or_drop!(with_one_more(Items::new(alloc), first), second);
    with_one_more(all, second)
}

fn with_one_more(all: Items<Expr>, next: Expr) -> Result<Items<Expr>, AllocError>
    ensures { IfOk result (λ more. more ≡ all ++ next ∷ []) }
{
    let mut all = all;
    or_drop!(all.push(next), all);
    Ok(all)
}

/// One operand alone makes no node.
pub fn and_of(alloc: Global, operands: Operands) -> Result<Tree, AllocError>
    ensures { IfOk result (λ tree. tree ≡ spec.and_of operands) }
{
    match operands {
        Operands::One(only, depth) => Ok((only, depth)),
        Operands::Several(all, depth) => {
            if depth < MAX_DEPTH {
                node_of(alloc, Node::And(all.into_vec()), depth + 1)
            } else {
                drop(all);
                cut(alloc)
            }
        }
    }
}

/// One operand alone makes no node.
pub fn or_of(alloc: Global, operands: Operands) -> Result<Tree, AllocError>
    ensures { IfOk result (λ tree. tree ≡ spec.or_of operands) }
{
    match operands {
        Operands::One(only, depth) => Ok((only, depth)),
        Operands::Several(all, depth) => {
            if depth < MAX_DEPTH {
                node_of(alloc, Node::Or(all.into_vec()), depth + 1)
            } else {
                drop(all);
                cut(alloc)
            }
        }
    }
}

/// The parts of a sum, as they come, and the signs between them.
pub type Summed = (Operands, Items<Sign>);

#[tactic(auto, unfolding(crate::specs::Trees::with_summand))]
pub fn with_summand(alloc: Global, sum: Summed, part: (Sign, Tree)) -> Result<Summed, AllocError>
    ensures { IfOk result (λ all. all ≡ spec.with_summand sum part) }
{
    let (parts, signs) = sum;
    let (sign, part) = part;
    let signs = or_drop!(with_sign(signs, sign), parts, part);
    let parts = or_drop!(with_operand(alloc, parts, part), signs);
    Ok((parts, signs))
}

fn with_sign(signs: Items<Sign>, sign: Sign) -> Result<Items<Sign>, AllocError>
    ensures { IfOk result (λ all. all ≡ signs ++ sign ∷ []) }
{
    let mut signs = signs;
    or_drop!(signs.push(sign), signs);
    Ok(signs)
}

/// One part alone makes no node.
pub fn sum_of(alloc: Global, sum: Summed) -> Result<Tree, AllocError>
    ensures { IfOk result (λ tree. tree ≡ spec.sum_of sum) }
{
    let (parts, signs) = sum;
    match parts {
        Operands::One(only, depth) => {
            drop(signs);
            Ok((only, depth))
        }
        Operands::Several(all, depth) => {
            if depth < MAX_DEPTH {
                let node = Node::Sum(signs.into_vec(), all.into_vec());
                node_of(alloc, node, depth + 1)
            } else {
                drop(all);
                drop(signs);
                cut(alloc)
            }
        }
    }
}

/// Expressions between parentheses, with the depth of the deepest.
pub type Tuple = (Items<Expr>, u32);

/// The tuples of INSERT, with the depth of the deepest expression.
pub type Tuples = (Items<Items<Expr>>, u32);

/// A column that UPDATE sets, with the depth of its expression.
pub type SetColumn = (Assignment, u32);

/// The columns that UPDATE sets, with the depth of the deepest expression.
pub type SetColumns = (Items<Assignment>, u32);

/// A statement, with the depth of its deepest expression; 0 where it has none.
pub type TreeWithDepth = (Statement, u32);

#[tactic(auto, unfolding(crate::specs::Trees::with_part))]
pub fn with_part(tuple: Tuple, part: Tree) -> Result<Tuple, AllocError>
    ensures { IfOk result (λ all. all ≡ spec.with_part tuple part) }
{
    let (mut all, depth) = tuple;
    let (part, other) = part;
    all.push(part.into_expr())?;
    Ok((all, depth.max(other)))
}

#[tactic(auto, unfolding(crate::specs::Trees::with_tuple))]
pub fn with_tuple(tuples: Tuples, tuple: Tuple) -> Result<Tuples, AllocError>
    ensures { IfOk result (λ all. all ≡ spec.with_tuple tuples tuple) }
{
    let (mut all, depth) = tuples;
    let (tuple, other) = tuple;
    all.push(tuple)?;
    Ok((all, depth.max(other)))
}

#[tactic(auto, unfolding(crate::specs::Trees::with_set_column))]
pub fn with_set_column(columns: SetColumns, column: SetColumn) -> Result<SetColumns, AllocError>
    ensures { IfOk result (λ all. all ≡ spec.with_set_column columns column) }
{
    let (mut all, depth) = columns;
    let (column, other) = column;
    all.push(column)?;
    Ok((all, depth.max(other)))
}

/// A table, and its alias, if it is written.
pub type TableAndAlias = (Name, Option<Name>);

/// Of what a SELECT is made: what it selects, with the depth of its items, its table and its condition.
pub type SelectParts = ((Selected, u32), (TableAndAlias, Option<Tree>));

/// The same without its depths.
type PlainSelect = (Selected, (TableAndAlias, Option<Expr>));

/// Among which `IN` looks.
#[derive(Drop)]
pub enum Choices {
    Listed(Tuple),
    Queried(SelectParts),
}

/// The parts of a SELECT, and the depth of the deepest.
fn parted_select(select: SelectParts) -> (PlainSelect, u32)
    ensures { result ≡ spec.parted_select select }
{
    let ((selected, depth), (from, condition)) = select;
    let (condition, other) = parted(condition);
    ((selected, (from, condition)), depth.max(other))
}

/// The depth of a node above one of this depth.
fn one_deeper(depth: u32) -> u32
    ensures { result ≡ spec.one_deeper depth }
{
    if depth < MAX_DEPTH {
        depth + 1
    } else {
        MAX_DEPTH + 1
    }
}

/// A subquery on the heap.
fn subquery(alloc: Global, select: PlainSelect) -> Result<Box<Subquery>, AllocError>
    ensures { IfOk result (λ query. query_of query.value ≡ values.query_of select) }
{
    let (selected, ((table, alias), condition)) = select;
    let (selects, items) = selects_of(alloc, selected);
    boxed_query(
        alloc,
        Subquery {
            from: FromItem { table, alias },
            key: Vec::new(alloc),
            selects,
            items,
            condition,
        },
    )
}

/// What a subquery selects, and its items.
fn selects_of(alloc: Global, selected: Selected) -> (Selects, Vec<Expr>)
    ensures selects { result.0 ≡ values.selects_of selected }
    ensures items { result.1.items ≡ values.items_of selected }
{
    match selected {
        Selected::All => (Selects::All, Vec::new(alloc)),
        Selected::Count => (Selects::Count, Vec::new(alloc)),
        Selected::Items(items) => (Selects::Items, items.into_vec()),
    }
}

#[tactic(auto, unfolding(crate::specs::Trees::exists_of))]
pub fn exists_of(alloc: Global, select: SelectParts) -> Result<Tree, AllocError>
    ensures { IfOk result (λ tree. tree ≡ spec.exists_of select) }
{
    let (select, depth) = parted_select(select);
    let depth = one_deeper(depth);
    if depth < MAX_DEPTH {
        let query = subquery(alloc, select)?;
        node_of(alloc, Node::Exists(query), depth + 1)
    } else {
        drop(select);
        cut(alloc)
    }
}

/// A SELECT that stands for a value.
#[tactic(auto, unfolding(crate::specs::Trees::scalar_of))]
pub fn scalar_of(alloc: Global, select: SelectParts) -> Result<Tree, AllocError>
    ensures { IfOk result (λ tree. tree ≡ spec.scalar_of select) }
{
    let (select, depth) = parted_select(select);
    if depth < MAX_DEPTH {
        let query = subquery(alloc, select)?;
        node_of(alloc, Node::Scalar(query), depth + 1)
    } else {
        drop(select);
        cut(alloc)
    }
}

/// `IN`, or `NOT IN` where it is negated.
#[tactic(auto, unfolding(crate::specs::Trees::among_of))]
pub fn among_of(
    alloc: Global,
    left: Tree,
    negated: Option<()>,
    choices: Choices,
) -> Result<Tree, AllocError>
    ensures { IfOk result (λ tree. tree ≡ spec.among_of left negated choices) }
{
    match choices {
        Choices::Listed(list) => listed_of(alloc, left, negated, list),
        Choices::Queried(select) => queried_of(alloc, left, negated, select),
    }
}

#[tactic(auto, unfolding(crate::specs::Trees::among_of))]
fn listed_of(
    alloc: Global,
    left: Tree,
    negated: Option<()>,
    list: Tuple,
) -> Result<Tree, AllocError>
    ensures { IfOk result (λ tree. tree ≡ spec.among_of left negated (Listed list)) }
{
    let (left, depth) = left;
    let (list, other) = list;
    let depth = depth.max(other);
    if depth < MAX_DEPTH {
        let left = left.into_box();
        let list = list.into_vec();
        match negated {
            None => node_of(alloc, Node::InList(left, list), depth + 1),
            Some(()) => node_of(alloc, Node::NotInList(left, list), depth + 1),
        }
    } else {
        drop(left);
        drop(list);
        cut(alloc)
    }
}

#[tactic(auto, unfolding(crate::specs::Trees::among_of))]
fn queried_of(
    alloc: Global,
    left: Tree,
    negated: Option<()>,
    select: SelectParts,
) -> Result<Tree, AllocError>
    ensures { IfOk result (λ tree. tree ≡ spec.among_of left negated (Queried select)) }
{
    let (left, depth) = left;
    let (select, other) = parted_select(select);
    let depth = depth.max(one_deeper(other));
    if depth < MAX_DEPTH {
        let query = or_drop!(subquery(alloc, select), left);
        let left = left.into_box();
        match negated {
            None => node_of(alloc, Node::InSubquery(left, query), depth + 1),
            Some(()) => node_of(alloc, Node::NotInSubquery(left, query), depth + 1),
        }
    } else {
        drop(left);
        drop(select);
        cut(alloc)
    }
}

/// The expression, and its depth; 0 where there is none.
pub fn parted(tree: Option<Tree>) -> (Option<Expr>, u32)
    ensures { result ≡ spec.parted tree }
{
    match tree {
        Some((expr, depth)) => (Some(expr.into_expr()), depth),
        None => (None, 0),
    }
}
