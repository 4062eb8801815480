//! GRANT from tokens, of privileges here, and lists of grantees.

ghost use Rattle.std.specs.Prelude.{◌≡◌, [], ◌∷◌, codes};
ghost use Rattle.rls_text.specs.{Gives.Gives, Parses.and_then, Parses.read_token, Heads.Keyword, Heads.sees};
ghost use Rattle.rls_text.specs.Ahead as ahead;
ghost use Rattle.rls_text.specs.Grammar as g;

use crate::fault::Fault;
use crate::memberships::granted_roles;
use crate::naming::privileges;
use crate::phrase::{Phrase, listed};
use crate::reading::{name, sees_word, two_words, word};
use crate::token::Token;
use rls_expr::Grantee;
use rls_statement::{GrantPrivileges, Privileges, Statement};
use rls_value::{Items, Name, or_drop};
use std::alloc::Global;

#[tactic(auto, unfolding(crate::specs::Grammar::grant))]
pub fn grant(alloc: Global, tokens: &[Token]) -> Result<(Statement, &[Token]), Fault>
    ensures { Gives result (g.grant.parses.read tokens.now) }
{
    let Some(rest) = word(tokens, b"grant") else {
        return Err(Fault::Syntax);
    };
    if on_comes_first(rest) {
        granted_privileges(alloc, rest)
    } else {
        granted_roles(alloc, rest)
    }
}

/// Whether the list is followed by ON, and so of privileges.
pub fn on_comes_first(mut tokens: &[Token]) -> bool
    ensures { result ≡ ahead.on_comes_first tokens.entry.now }
{
    while let [_, rest @ ..] = tokens {
        if sees_word(tokens, b"on") {
            return true;
        }
        if follows_roles(tokens) {
            return false;
        }
        tokens = rest;
    }
    false
}

/// Whether TO or FROM comes next.
#[tactic(auto, using(crate::proofs::Loops::sees_more, crate::proofs::Loops::sees_first))]
fn follows_roles(tokens: &[Token]) -> bool
    ensures { result ≡ sees (Keyword (codes "to") ∷ Keyword (codes "from") ∷ []) tokens.now }
{
    sees_word(tokens, b"to") || sees_word(tokens, b"from")
}

#[tactic(auto, unfolding(crate::specs::Grammar::granted_privileges))]
fn granted_privileges(alloc: Global, tokens: &[Token]) -> Result<(Statement, &[Token]), Fault>
    ensures { Gives result (g.granted_privileges.parses.read tokens.now) }
{
    let ((privileges, table), rest) = privileges_on(alloc, tokens)?;
    let ((to, with_option), rest) = or_drop!(granted_to(alloc, rest), table, privileges);
    let grant = GrantPrivileges {
        privileges,
        table,
        to,
        with_option,
    };
    Ok((Statement::Grant(grant), rest))
}

/// Privileges, and the table that they are on.
#[tactic(auto, unfolding(crate::specs::Grammar::privileges_on))]
pub fn privileges_on(
    alloc: Global,
    tokens: &[Token],
) -> Result<((Privileges, Name), &[Token]), Fault>
    ensures { Gives result (g.privileges_on.parses.read tokens.now) }
{
    let (privileges, rest) = privileges(alloc, tokens)?;
    let (table, rest) = or_drop!(on_table(alloc, rest), privileges);
    Ok(((privileges, table), rest))
}

/// ON, and the table.
fn on_table(alloc: Global, tokens: &[Token]) -> Result<(Name, &[Token]), Fault>
    ensures { Gives result (and_then (read_token (Token.Word (codes "on")) tokens.now) (λ _ rest. g.table_name.parses.read rest)) }
{
    match word(tokens, b"on") {
        Some(rest) => table_name(alloc, rest),
        None => Err(Fault::Syntax),
    }
}

/// The grantees, and whether WITH GRANT OPTION is written.
#[tactic(auto, unfolding(crate::specs::Grammar::granted_to))]
fn granted_to(alloc: Global, tokens: &[Token]) -> Result<((Items<Grantee>, bool), &[Token]), Fault>
    ensures { Gives result (g.granted_to.parses.read tokens.now) }
{
    let (to, rest) = to_grantees(alloc, tokens)?;
    let (with_option, rest) = or_drop!(with_option(rest), to);
    Ok(((to, with_option), rest))
}

#[tactic(auto, unfolding(crate::specs::Grammar::with_option))]
fn with_option(tokens: &[Token]) -> Result<(bool, &[Token]), Fault>
    ensures { Gives result (g.with_option.parses.read tokens.now) }
{
    match word(tokens, b"with") {
        Some(rest) => match two_words(rest, b"grant", b"option") {
            Some(rest) => Ok((true, rest)),
            None => Err(Fault::Syntax),
        },
        None => Ok((false, tokens)),
    }
}

/// The name of a table, with the word TABLE or without.
#[tactic(auto, unfolding(crate::specs::Grammar::table_name))]
fn table_name(alloc: Global, tokens: &[Token]) -> Result<(Name, &[Token]), Fault>
    ensures { Gives result (g.table_name.parses.read tokens.now) }
{
    match word(tokens, b"table") {
        Some(rest) => name(alloc, rest),
        None => name(alloc, tokens),
    }
}

/// TO and its list.
#[tactic(auto, unfolding(crate::specs::Grammar::to_grantees))]
pub fn to_grantees(alloc: Global, tokens: &[Token]) -> Result<(Items<Grantee>, &[Token]), Fault>
    ensures { Gives result (g.to_grantees.parses.read tokens.now) }
{
    match word(tokens, b"to") {
        Some(rest) => grantees(alloc, rest),
        None => Err(Fault::Syntax),
    }
}

#[tactic(auto, unfolding(crate::specs::Grammar::grantees, crate::specs::Parses::read_listed, crate::specs::Parses::behind_comma, crate::specs::Rule::with_comma))]
pub fn grantees(alloc: Global, tokens: &[Token]) -> Result<(Items<Grantee>, &[Token]), Fault>
    ensures { Gives result (g.grantees.parses.read tokens.now) }
{
    listed::<Grantee>(alloc, tokens)
}

impl Phrase for Grantee {
    ghost reader = { g.grantee.parses.read };

    fn read(alloc: Global, tokens: &[Token]) -> Result<(Grantee, &[Token]), Fault> {
        grantee(alloc, tokens)
    }
}

#[tactic(auto, unfolding(crate::specs::Grammar::grantee))]
fn grantee(alloc: Global, tokens: &[Token]) -> Result<(Grantee, &[Token]), Fault>
    ensures { Gives result (g.grantee.parses.read tokens.now) }
{
    match word(tokens, b"public") {
        Some(rest) => Ok((Grantee::Public, rest)),
        None => {
            let (role, rest) = name(alloc, tokens)?;
            Ok((Grantee::Role(role), rest))
        }
    }
}
