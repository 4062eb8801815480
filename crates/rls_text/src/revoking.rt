//! REVOKE from tokens, of privileges here.

ghost use Rattle.rls_text.specs.Gives.{Gives};
ghost use Rattle.rls_text.specs.Grammar as g;

use crate::fault::Fault;
use crate::granting::{grantees, on_comes_first, privileges_on};
use crate::memberships::{cascade, revoked_memberships};
use crate::reading::{two_words, word};
use crate::token::Token;
use rls_expr::Grantee;
use rls_statement::{RevokePrivileges, Statement};
use rls_value::{Items, or_drop};
use std::alloc::Global;

#[tactic(auto, unfolding(crate::specs::Grammar::revoke))]
pub fn revoke(alloc: Global, tokens: &[Token]) -> Result<(Statement, &[Token]), Fault>
    ensures { Gives result (g.revoke.parses.read tokens.now) }
{
    let Some(rest) = word(tokens, b"revoke") else {
        return Err(Fault::Syntax);
    };
    if on_comes_first(rest) {
        revoked_privileges(alloc, rest)
    } else {
        revoked_memberships(alloc, rest)
    }
}

#[tactic(auto, unfolding(crate::specs::Grammar::revoked_privileges))]
fn revoked_privileges(alloc: Global, tokens: &[Token]) -> Result<(Statement, &[Token]), Fault>
    ensures { Gives result (g.revoked_privileges.parses.read tokens.now) }
{
    let (option_only, rest) = option_only(tokens)?;
    let ((privileges, table), rest) = privileges_on(alloc, rest)?;
    let ((from, cascade), rest) = or_drop!(revoked_from(alloc, rest), table, privileges);
    let revoke = RevokePrivileges {
        option_only,
        privileges,
        table,
        from,
        cascade,
    };
    Ok((Statement::Revoke(revoke), rest))
}

/// Whether GRANT OPTION FOR is written.
#[tactic(auto, unfolding(crate::specs::Grammar::option_only))]
fn option_only(tokens: &[Token]) -> Result<(bool, &[Token]), Fault>
    ensures { Gives result (g.option_only.parses.read tokens.now) }
{
    match word(tokens, b"grant") {
        Some(rest) => match two_words(rest, b"option", b"for") {
            Some(rest) => Ok((true, rest)),
            None => Err(Fault::Syntax),
        },
        None => Ok((false, tokens)),
    }
}

/// The grantees, and whether CASCADE is written.
#[tactic(auto, unfolding(crate::specs::Grammar::revoked_from))]
fn revoked_from(
    alloc: Global,
    tokens: &[Token],
) -> Result<((Items<Grantee>, bool), &[Token]), Fault>
    ensures { Gives result (g.revoked_from.parses.read tokens.now) }
{
    let Some(rest) = word(tokens, b"from") else {
        return Err(Fault::Syntax);
    };
    let (from, rest) = grantees(alloc, rest)?;
    let (cascade, rest) = cascade(rest);
    Ok(((from, cascade), rest))
}
