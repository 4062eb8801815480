//! New tables and changes of row security from tokens.

ghost use Rattle.std.specs.Prelude.{◌≡◌, [], ◌∷◌, length, codes, refl, IfOk};
ghost use Rattle.rls_text.specs.{Gives.Finds, Gives.Gives, Gives.folded, Heads.Sign, Trees.flat, Parses.read_many, Parses.read_mapped, Rule.with_comma, Rule.in_parentheses, Rule.before, Rule.after, Rule.word as g_word};
ghost use Rattle.rls_text.specs.Elements as spec;
ghost use Rattle.rls_text.specs.Grammar as g;
ghost use Rattle.rls_text.specs.Values as values;

use crate::columns::column;
use crate::fault::Fault;
use crate::memberships::names;
use crate::reading::{closed, name, only, sees_symbol, starts_name, symbol, two_words, word};
use crate::token::{Symbol, Token};
use crate::tree::TreeWithDepth;
use rls_statement::{AlterTable, CreateTable, MarkedColumn, RowSecurity, Statement};
use rls_value::{Items, Name, or_drop};
use std::alloc::{AllocError, Global};
use std::collections::BTreeSet;

/// An element of a new table: a column, or the names of `PRIMARY KEY (..)`.
#[derive(Drop)]
pub enum TableElement {
    Column(MarkedColumn),
    Key(Items<Name>),
}

/// The elements of a new table, as they come.
#[derive(Drop)]
pub struct TableElements {
    pub columns: Items<MarkedColumn>,
    pub key: Option<Items<Name>>,
    /// Nothing came behind the key.
    pub key_last: bool,
}

/// What stands behind CREATE TABLE.
#[tactic(auto, unfolding(crate::specs::Grammar::table))]
pub fn table(alloc: Global, tokens: &[Token]) -> Result<(TreeWithDepth, &[Token]), Fault>
    ensures { Gives result (read_mapped flat g.table.parses.read tokens.now) }
{
    let (name, rest) = name(alloc, tokens)?;
    let (elements, rest) = or_drop!(all_elements(alloc, rest), name);
    Ok(((created(name, elements), 0), rest))
}

/// The elements in parentheses.
fn all_elements(alloc: Global, tokens: &[Token]) -> Result<(TableElements, &[Token]), Fault>
    ensures { Gives result ((in_parentheses g.proper_elements refl).parses.read tokens.now) }
{
    let Some(rest) = symbol(tokens, Symbol::LParen) else {
        return Err(Fault::Syntax);
    };
    let (elements, rest) = proper_elements(alloc, rest)?;
    closed(elements, rest)
}

fn created(name: Name, elements: TableElements) -> Statement
    ensures { result ≡ values.table_of (name, elements) }
{
    let TableElements { columns, key, .. } = elements;
    Statement::CreateTable(CreateTable { name, columns, key })
}

#[tactic(auto, unfolding(crate::specs::Grammar::proper_elements))]
fn proper_elements(alloc: Global, tokens: &[Token]) -> Result<(TableElements, &[Token]), Fault>
    ensures { Gives result (g.proper_elements.parses.read tokens.now) }
{
    let (elements, rest) = columns_and_key(alloc, tokens)?;
    let is_proper = or_drop!(is_table(alloc, &elements), elements);
    if is_proper {
        Ok((elements, rest))
    } else {
        drop(elements);
        Err(Fault::Syntax)
    }
}

/// Columns, and the key, if there is one: elements of which the last alone may be the key.
#[tactic(auto, unfolding(crate::specs::Grammar::columns_and_key, crate::specs::Grammar::listed_elements))]
fn columns_and_key(alloc: Global, tokens: &[Token]) -> Result<(TableElements, &[Token]), Fault>
    ensures { Gives result (g.columns_and_key.parses.read tokens.now) }
{
    let (elements, rest) = table_elements(alloc, tokens)?;
    if elements.key_last {
        Ok((elements, rest))
    } else {
        drop(elements);
        Err(Fault::Syntax)
    }
}

fn is_table(alloc: Global, elements: &TableElements) -> Result<bool, AllocError>
    ensures { IfOk result (λ proper. proper ≡ values.is_table elements.now) }
{
    if keyed_once(elements.columns.as_slice(), &elements.key) {
        are_distinct(alloc, elements.columns.as_slice())
    } else {
        Ok(false)
    }
}

/// Whether at most one primary key is written: a mark of one column, or the constraint.
fn keyed_once(columns: &[MarkedColumn], key: &Option<Items<Name>>) -> bool
    ensures { result ≡ values.keyed_once columns.now key.now }
{
    match key {
        Some(_) => has_no_key(columns),
        None => has_one_key(columns),
    }
}

fn has_one_key(mut columns: &[MarkedColumn]) -> bool
    ensures { result ≡ values.has_one_key columns.entry.now }
{
    while let [first, rest @ ..] = columns {
        if first.is_key {
            return has_no_key(rest);
        }
        columns = rest;
    }
    true
}

fn has_no_key(mut columns: &[MarkedColumn]) -> bool
    ensures { result ≡ values.has_no_key columns.entry.now }
{
    while let [first, rest @ ..] = columns {
        if first.is_key {
            return false;
        }
        columns = rest;
    }
    true
}

/// Whether no two columns have one name. It sorts the names, since there may be thousands of columns.
fn are_distinct(alloc: Global, mut columns: &[MarkedColumn]) -> Result<bool, AllocError>
    ensures { IfOk result (λ distinct. distinct ≡ values.are_distinct (values.column_names columns.entry.now)) }
{
    let mut seen = BTreeSet::new(alloc);
    while let [first, rest @ ..] = columns {
        if !seen.insert(first.column.name.as_str())? {
            return Ok(false);
        }
        columns = rest;
    }
    Ok(true)
}

#[tactic(auto, unfolding(crate::specs::Grammar::table_elements, crate::specs::Gives::folded))]
fn table_elements(alloc: Global, tokens: &[Token]) -> Result<(TableElements, &[Token]), Fault>
    ensures { Gives result (g.table_elements.parses.read tokens.now) }
{
    let (first, rest) = column(alloc, tokens)?;
    let first = only_column(alloc, first)?;
    more_elements(alloc, first, rest)
}

fn only_column(alloc: Global, column: MarkedColumn) -> Result<TableElements, AllocError>
    ensures { IfOk result (λ elements. elements ≡ spec.only_columns (column ∷ [])) }
{
    let columns = only(alloc, column)?;
    Ok(TableElements {
        columns,
        key: None,
        key_last: true,
    })
}

#[tactic(auto, using(crate::proofs::Loops::fold_begins, crate::proofs::Loops::fold_stops, crate::proofs::Loops::fold_ends, crate::proofs::Loops::fold_fails, crate::proofs::Loops::fold_goes_on))]
fn more_elements(
    alloc: Global,
    first: TableElements,
    tokens: &[Token],
) -> Result<(TableElements, &[Token]), Fault>
    ensures { Gives result (folded spec.with_element first (read_many (Sign Symbol.Comma ∷ []) (with_comma g.table_element).parses.read (length tokens.now) tokens.now)) }
{
    let mut all = first;
    let mut rest = tokens;
    for _turn in 0..tokens.len() {
        if !sees_symbol(rest, Symbol::Comma) {
            return Ok((all, rest));
        }
        match next_element(alloc, rest) {
            Ok((next, behind)) => match with_element(all, next) {
                Ok(more) => {
                    all = more;
                    rest = behind;
                }
                Err(_) => return Err(Fault::NoMemory),
            },
            Err(fault) => {
                drop(all);
                return Err(fault);
            }
        }
    }
    Ok((all, rest))
}

#[tactic(auto, unfolding(crate::specs::Elements::with_element))]
fn with_element(elements: TableElements, element: TableElement) -> Result<TableElements, AllocError>
    ensures { IfOk result (λ all. all ≡ spec.with_element elements element) }
{
    let TableElements {
        mut columns,
        key,
        key_last,
    } = elements;
    let key_last = key_last && key.is_none();
    match element {
        TableElement::Column(column) => {
            or_drop!(columns.push(column), columns, key);
            Ok(TableElements {
                columns,
                key,
                key_last,
            })
        }
        TableElement::Key(names) => {
            drop(key);
            Ok(TableElements {
                columns,
                key: Some(names),
                key_last,
            })
        }
    }
}

#[tactic(auto, unfolding(crate::specs::Rule::with_comma))]
fn next_element(alloc: Global, tokens: &[Token]) -> Result<(TableElement, &[Token]), Fault>
    ensures { Gives result ((with_comma g.table_element).parses.read tokens.now) }
{
    match symbol(tokens, Symbol::Comma) {
        Some(rest) => table_element(alloc, rest),
        None => Err(Fault::Syntax),
    }
}

#[tactic(auto, unfolding(crate::specs::Grammar::table_element))]
fn table_element(alloc: Global, tokens: &[Token]) -> Result<(TableElement, &[Token]), Fault>
    ensures { Gives result (g.table_element.parses.read tokens.now) }
{
    if starts_name(tokens) {
        let (column, rest) = column(alloc, tokens)?;
        Ok((TableElement::Column(column), rest))
    } else {
        let (key, rest) = primary_key(alloc, tokens)?;
        Ok((TableElement::Key(key), rest))
    }
}

/// The names of `PRIMARY KEY (..)`, each once.
#[tactic(auto, unfolding(crate::specs::Grammar::primary_key))]
fn primary_key(alloc: Global, tokens: &[Token]) -> Result<(Items<Name>, &[Token]), Fault>
    ensures { Gives result (g.primary_key.parses.read tokens.now) }
{
    let Some(rest) = word(tokens, b"primary") else {
        return Err(Fault::Syntax);
    };
    match word(rest, b"key") {
        Some(rest) => listed_names(alloc, rest),
        None => Err(Fault::Syntax),
    }
}

/// Names in parentheses, each once.
pub fn listed_names(alloc: Global, tokens: &[Token]) -> Result<(Items<Name>, &[Token]), Fault>
    ensures { Gives result ((in_parentheses g.distinct_names refl).parses.read tokens.now) }
{
    let Some(rest) = symbol(tokens, Symbol::LParen) else {
        return Err(Fault::Syntax);
    };
    let (names, rest) = distinct_names(alloc, rest)?;
    closed(names, rest)
}

#[tactic(auto, unfolding(crate::specs::Grammar::distinct_names))]
pub fn distinct_names(alloc: Global, tokens: &[Token]) -> Result<(Items<Name>, &[Token]), Fault>
    ensures { Gives result (g.distinct_names.parses.read tokens.now) }
{
    let (names, rest) = names(alloc, tokens)?;
    let are_distinct = or_drop!(are_distinct_names(alloc, names.as_slice()), names);
    if are_distinct {
        Ok((names, rest))
    } else {
        drop(names);
        Err(Fault::Syntax)
    }
}

/// Whether no name stands twice. It sorts them, since there may be thousands.
pub fn are_distinct_names(alloc: Global, mut names: &[Name]) -> Result<bool, AllocError>
    ensures { IfOk result (λ distinct. distinct ≡ values.are_distinct names.entry.now) }
{
    let mut seen = BTreeSet::new(alloc);
    while let [first, rest @ ..] = names {
        if !seen.insert(first.as_str())? {
            return Ok(false);
        }
        names = rest;
    }
    Ok(true)
}

/// What stands behind ALTER TABLE: the table, and the change of its row security.
#[tactic(auto, unfolding(crate::specs::Grammar::altered_table))]
pub fn altered_table(alloc: Global, tokens: &[Token]) -> Result<(TreeWithDepth, &[Token]), Fault>
    ensures { Gives result (read_mapped flat g.altered_table.parses.read tokens.now) }
{
    let (table, rest) = name(alloc, tokens)?;
    let (change, rest) = or_drop!(security_change(rest), table);
    let alter = AlterTable { table, change };
    Ok(((Statement::AlterTable(alter), 0), rest))
}

/// The change, and ROW LEVEL SECURITY.
fn security_change(tokens: &[Token]) -> Result<(RowSecurity, &[Token]), Fault>
    ensures { Gives result ((before g.row_change (after (g_word (codes "row")) (after (g_word (codes "level")) (g_word (codes "security")) refl) refl) refl).parses.read tokens.now) }
{
    let (change, rest) = row_change(tokens)?;
    match row_level_security(rest) {
        Some(rest) => Ok((change, rest)),
        None => Err(Fault::Syntax),
    }
}

fn row_level_security(tokens: &[Token]) -> Option<&[Token]>
    ensures { Finds result ((after (g_word (codes "row")) (after (g_word (codes "level")) (g_word (codes "security")) refl) refl).parses.read tokens.now) }
{
    match word(tokens, b"row") {
        Some(rest) => two_words(rest, b"level", b"security"),
        None => None,
    }
}

#[tactic(auto, unfolding(crate::specs::Grammar::row_change))]
fn row_change(tokens: &[Token]) -> Result<(RowSecurity, &[Token]), Fault>
    ensures { Gives result (g.row_change.parses.read tokens.now) }
{
    if let Some(rest) = word(tokens, b"enable") {
        Ok((RowSecurity::Enable, rest))
    } else if let Some(rest) = word(tokens, b"disable") {
        Ok((RowSecurity::Disable, rest))
    } else if let Some(rest) = word(tokens, b"force") {
        Ok((RowSecurity::Force, rest))
    } else {
        match two_words(tokens, b"no", b"force") {
            Some(rest) => Ok((RowSecurity::NoForce, rest)),
            None => Err(Fault::Syntax),
        }
    }
}
