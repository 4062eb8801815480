//! Expressions, seen as plain terms.

ghost use Rattle.std.specs.Prelude.{◌≡◌, IfOk};
ghost use Rattle.rls_expr.specs.ExprTerms.{term_of, query_of};
ghost use Rattle.rls_expr.specs.Terms.{qualifier_of};

use crate::column_name::ColumnName;
use rls_value::{Name, Value, or_drop};
use std::alloc::{AllocError, Global};
use std::marker::Model;

/// An expression, seen as a term (`Terms.antt`).
#[cycle(expr)]
#[derive(Drop)]
pub struct Expr {
    node: Node,
}

/// One level of an expression. Parentheses make none.
#[cycle(expr)]
#[derive(Drop)]
pub enum Node {
    Literal(Value),
    /// A column as it is written.
    Column(ColumnName),
    /// A column that is resolved.
    Var(Var),
    CurrentUser,
    Compare(Comparison, Box<Expr>, Box<Expr>),
    And(Vec<Expr>),
    Or(Vec<Expr>),
    Not(Box<Expr>),
    IsNull(Box<Expr>),
    IsNotNull(Box<Expr>),
    /// `IN` with a list.
    InList(Box<Expr>, Vec<Expr>),
    /// `NOT IN` with a list.
    NotInList(Box<Expr>, Vec<Expr>),
    /// `EXISTS`: whether the subquery gives a row.
    Exists(Box<Subquery>),
    /// `IN` with a subquery.
    InSubquery(Box<Expr>, Box<Subquery>),
    /// `NOT IN` with a subquery.
    NotInSubquery(Box<Expr>, Box<Subquery>),
    /// A scalar subquery: what it selects of its one row.
    Scalar(Box<Subquery>),
    /// A sum: the signs between the parts, and the parts.
    Sum(Vec<Sign>, Vec<Expr>),
}

/// A column of the table so many levels up: its index there, and its type.
#[derive(Clone, Copy, PartialEq, Eq)]
pub struct Var {
    pub level: usize,
    pub column: usize,
    pub kind: Category,
}

/// The type of an expression. Whole numbers of 32 and of 64 bits are one type.
#[derive(Clone, Copy, PartialEq, Eq)]
pub enum Category {
    Number,
    Text,
    Boolean,
}

/// A SELECT inside an expression.
#[cycle(expr)]
#[derive(Drop)]
pub struct Subquery {
    pub from: FromItem,
    /// The indexes of the table's primary key, once it is resolved.
    pub key: Vec<usize>,
    pub selects: Selects,
    /// The items as they are written; once it is resolved, each column where it selects all.
    pub items: Vec<Expr>,
    pub condition: Option<Expr>,
}

/// What a subquery selects.
#[derive(Clone, Copy, PartialEq, Eq)]
pub enum Selects {
    /// `*`
    All,
    /// `count(*)`
    Count,
    Items,
}

/// The table of a FROM clause, and its alias if it has one.
#[derive(Drop)]
pub struct FromItem {
    pub table: Name,
    pub alias: Option<Name>,
}

impl FromItem {
    /// What qualifies the table's columns: its alias or, without one, its name.
    pub fn qualifier(&self) -> &Name
        ensures { result.now ≡ qualifier_of self.now }
    {
        match &self.alias {
            Some(alias) => alias,
            None => &self.table,
        }
    }

    pub fn copy(&self) -> Result<FromItem, AllocError>
        ensures { IfOk result (λ from. from ≡ self.now) }
    {
        let alias = copy_name(&self.alias)?;
        let table = or_drop!(self.table.copy(), alias);
        Ok(FromItem { table, alias })
    }
}

/// Whether a part of a sum is added or taken off.
#[derive(Clone, Copy, PartialEq, Eq)]
pub enum Sign {
    Plus,
    Minus,
}

/// A comparison operator (PostgreSQL manual, 9.2).
#[derive(Clone, Copy, PartialEq, Eq)]
pub enum Comparison {
    Equal,
    NotEqual,
    Less,
    LessOrEqual,
    Greater,
    GreaterOrEqual,
}

impl Model for Expr {
    ghost use Rattle.rls_expr.specs.Terms.{Term};
    ghost use Rattle.rls_expr.specs.TermCode.{term_code};

    ghost Value = { Term };

    ghost coded = { term_code };

    ghost use Rattle.rls_expr.specs.ExprTerms.{term_of};

    ghost view = { λ a. term_of a.node };

    ghost use Rattle.rls_expr.specs.Terms.{term_size};

    ghost size = { term_size };

    ghost use Rattle.rls_expr.specs.ExprFalls.{falls};

    ghost size_decreases = { λ a h. falls a.node };
}

impl Expr {
    pub fn new(node: Node) -> Expr
        ensures { result ≡ term_of node }
    {
        Expr { node }
    }

    pub fn node(&self) -> &Node
        ensures { term_of result.now ≡ self.now }
    {
        &self.node
    }

    #[cycle(copying)]
    pub fn copy(&self, alloc: Global) -> Result<Expr, AllocError>
        ensures { IfOk result (λ expr. expr ≡ self.now) }
    {
        let node = match &self.node {
            Node::Literal(value) => Node::Literal(value.copy()?),
            Node::Column(name) => Node::Column(name.copy()?),
            Node::Var(var) => Node::Var(*var),
            Node::CurrentUser => Node::CurrentUser,
            Node::Compare(how, left, right) => {
                let left = copy_boxed(alloc, left)?;
                let right = copy_boxed(alloc, right)?;
                Node::Compare(*how, left, right)
            }
            Node::And(parts) => Node::And(copy_parts(alloc, parts)?),
            Node::Or(parts) => Node::Or(copy_parts(alloc, parts)?),
            Node::Not(operand) => Node::Not(copy_boxed(alloc, operand)?),
            Node::IsNull(operand) => Node::IsNull(copy_boxed(alloc, operand)?),
            Node::IsNotNull(operand) => Node::IsNotNull(copy_boxed(alloc, operand)?),
            Node::InList(left, list) => {
                let left = copy_boxed(alloc, left)?;
                let list = copy_parts(alloc, list)?;
                Node::InList(left, list)
            }
            Node::NotInList(left, list) => {
                let left = copy_boxed(alloc, left)?;
                let list = copy_parts(alloc, list)?;
                Node::NotInList(left, list)
            }
            Node::Exists(query) => Node::Exists(copy_query(alloc, query)?),
            Node::InSubquery(left, query) => {
                let left = copy_boxed(alloc, left)?;
                let query = copy_query(alloc, query)?;
                Node::InSubquery(left, query)
            }
            Node::NotInSubquery(left, query) => {
                let left = copy_boxed(alloc, left)?;
                let query = copy_query(alloc, query)?;
                Node::NotInSubquery(left, query)
            }
            Node::Scalar(query) => Node::Scalar(copy_query(alloc, query)?),
            Node::Sum(signs, parts) => {
                let signs = signs.as_slice().to_vec(alloc)?;
                let parts = copy_parts(alloc, parts)?;
                Node::Sum(signs, parts)
            }
        };
        Ok(Expr { node })
    }
}

impl Subquery {
    /// A copy on the heap.
    pub fn copy_boxed(&self, alloc: Global) -> Result<Box<Subquery>, AllocError>
        ensures { IfOk result (λ copy. query_of copy.value ≡ query_of self.now) }
    {
        copy_query(alloc, self)
    }
}

#[cycle(copying)]
fn copy_query(alloc: Global, query: &Subquery) -> Result<Box<Subquery>, AllocError>
    ensures { IfOk result (λ copy. query_of copy.value ≡ query_of query.now) }
{
    let from = query.from.copy()?;
    let key = query.key.as_slice().to_vec(alloc)?;
    let items = copy_parts(alloc, &query.items)?;
    let condition = copy_condition(alloc, &query.condition)?;
    boxed_query(
        alloc,
        Subquery {
            from,
            key,
            selects: query.selects,
            items,
            condition,
        },
    )
}

#[cycle(copying)]
fn copy_condition(alloc: Global, condition: &Option<Expr>) -> Result<Option<Expr>, AllocError>
    ensures { IfOk result (λ copy. copy ≡ condition.now) }
{
    match condition {
        None => Ok(None),
        Some(condition) => Ok(Some(condition.copy(alloc)?)),
    }
}

#[cycle(copying)]
fn copy_boxed(alloc: Global, expr: &Expr) -> Result<Box<Expr>, AllocError>
    ensures { IfOk result (λ copy. copy.value ≡ expr.now) }
{
    boxed(alloc, expr.copy(alloc)?)
}

#[cycle(copying)]
fn copy_parts(alloc: Global, parts: &[Expr]) -> Result<Vec<Expr>, AllocError>
    ensures { IfOk result (λ copies. copies.items ≡ parts.now) }
{
    let mut copies = Vec::with_capacity(alloc, parts.len())?;
    for part in parts {
        copies.push(part.copy(alloc)?)?;
    }
    Ok(copies)
}

fn copy_name(name: &Option<Name>) -> Result<Option<Name>, AllocError>
    ensures { IfOk result (λ copied. copied ≡ name.now) }
{
    match name {
        Some(name) => Ok(Some(name.copy()?)),
        None => Ok(None),
    }
}

/// The subquery on the heap.
pub fn boxed_query(alloc: Global, query: Subquery) -> Result<Box<Subquery>, AllocError>
    ensures { IfOk result (λ boxed. query_of boxed.value ≡ query_of query) }
{
    match Box::new(alloc, query) {
        Ok(boxed) => Ok(boxed),
        Err(refused) => {
            drop(refused);
            Err(AllocError)
        }
    }
}

/// The expression on the heap.
pub fn boxed(alloc: Global, expr: Expr) -> Result<Box<Expr>, AllocError>
    ensures { IfOk result (λ boxed. boxed.value ≡ expr) }
{
    match Box::new(alloc, expr) {
        Ok(boxed) => Ok(boxed),
        Err(refused) => {
            drop(refused);
            Err(AllocError)
        }
    }
}
