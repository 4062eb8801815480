//! Relations with their security quals, which say what rows tables show.

ghost use Rattle.std.specs.Prelude.{◌≡◌, drop};
ghost use Rattle.rls_evaluation.specs.Showing.{place_from, allows, is_exempt};

use rls_source::rls_catalog::rls_expr::{Expr, Policy};
use rls_value::{Items, Name, Reference};
use rls_verdict::rls_catalog::Verdict;

/// The security quals of a table's rows.
#[derive(Drop)]
pub enum SecurityQuals<'c> {
    /// Row security doesn't apply.
    Exempt,
    /// The policies that apply, each with its condition: the expression that it is asked for, its columns resolved.
    Policies(Items<(Reference<'c, Policy>, Expr)>),
}

/// A table, and its security quals. The tables of its conditions' subqueries stand behind it.
#[derive(Drop)]
pub struct SecuredRelation<'c> {
    pub table: Name,
    pub quals: SecurityQuals<'c>,
}

/// The relations that an expression looks through: those of a list, from one on.
#[derive(Clone, Copy)]
pub struct VisibleRelations<'a, 'c> {
    pub relations: &'a [SecuredRelation<'c>],
    pub from: usize,
}

/// The place of the first relation of the table, from one on.
pub fn place_of(relations: &[SecuredRelation], from: usize, table: &Name) -> Option<usize>
    ensures { result ≡ place_from from (drop from relations.now) table.now }
{
    let mut place = from;
    while place < relations.len() {
        if relations[place].table.is(table) {
            return Some(place);
        }
        place += 1;
    }
    None
}

/// Whether row security doesn't apply.
pub fn is_exempt(quals: &SecurityQuals) -> bool
    ensures { result ≡ is_exempt quals.now }
{
    match quals {
        SecurityQuals::Exempt => true,
        SecurityQuals::Policies(_) => false,
    }
}

/// Whether the row may be seen.
pub fn allows(verdict: &Verdict) -> bool
    ensures { result ≡ allows verdict.now }
{
    match verdict {
        Verdict::Exempt | Verdict::By(_) => true,
        Verdict::NoPermissive | Verdict::Restrictive(_) => false,
    }
}
