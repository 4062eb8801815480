//! The parts of CREATE POLICY and ALTER POLICY from tokens: AS, FOR, TO, USING, WITH CHECK.

ghost use Rattle.std.specs.Prelude.{◌≡◌, Some, None, IfOk};
ghost use Rattle.rls_text.specs.Gives.{Gives};
ghost use Rattle.rls_text.specs.Grammar as g;
ghost use Rattle.rls_text.specs.Values as values;

use crate::expression::parenthesized;
use crate::fault::Fault;
use crate::granting::to_grantees;
use crate::reading::{only, sees_word, word};
use crate::token::Token;
use crate::tree::Tree;
use rls_expr::Grantee;
use rls_value::{Items, Kind, PolicyKind, or_drop};
use std::alloc::{AllocError, Global};

/// USING and WITH CHECK.
pub type Conditions = (Option<Tree>, Option<Tree>);

/// Whether the policy is permissive, and what it is for.
#[tactic(auto, unfolding(crate::specs::Grammar::policy_options))]
pub fn policy_options(tokens: &[Token]) -> Result<((bool, PolicyKind), &[Token]), Fault>
    ensures { Gives result (g.policy_options.parses.read tokens.now) }
{
    let (permissive, rest) = permissive(tokens)?;
    let (kind, rest) = for_commands(rest)?;
    Ok(((permissive, kind), rest))
}

/// Without AS, a policy is permissive.
#[tactic(auto, unfolding(crate::specs::Grammar::permissive))]
fn permissive(tokens: &[Token]) -> Result<(bool, &[Token]), Fault>
    ensures { Gives result (g.permissive.parses.read tokens.now) }
{
    match word(tokens, b"as") {
        Some(rest) => match word(rest, b"permissive") {
            Some(rest) => Ok((true, rest)),
            None => match word(rest, b"restrictive") {
                Some(rest) => Ok((false, rest)),
                None => Err(Fault::Syntax),
            },
        },
        None => Ok((true, tokens)),
    }
}

/// Without FOR, a policy is for all commands.
#[tactic(auto, unfolding(crate::specs::Grammar::for_commands))]
fn for_commands(tokens: &[Token]) -> Result<(PolicyKind, &[Token]), Fault>
    ensures { Gives result (g.for_commands.parses.read tokens.now) }
{
    match word(tokens, b"for") {
        Some(rest) => policy_kind(rest),
        None => Ok((PolicyKind::All, tokens)),
    }
}

#[tactic(auto, unfolding(crate::specs::Grammar::policy_kind, crate::specs::Grammar::command_type))]
fn policy_kind(tokens: &[Token]) -> Result<(PolicyKind, &[Token]), Fault>
    ensures { Gives result (g.policy_kind.parses.read tokens.now) }
{
    if let Some(rest) = word(tokens, b"all") {
        Ok((PolicyKind::All, rest))
    } else if let Some(rest) = word(tokens, b"select") {
        Ok((PolicyKind::Only(Kind::Select), rest))
    } else if let Some(rest) = word(tokens, b"insert") {
        Ok((PolicyKind::Only(Kind::Insert), rest))
    } else if let Some(rest) = word(tokens, b"update") {
        Ok((PolicyKind::Only(Kind::Update), rest))
    } else if let Some(rest) = word(tokens, b"delete") {
        Ok((PolicyKind::Only(Kind::Delete), rest))
    } else {
        Err(Fault::Syntax)
    }
}

/// The grantees behind TO, if it is written.
#[tactic(auto, unfolding(crate::specs::Grammar::grantees_if_any))]
pub fn grantees_if_any(
    alloc: Global,
    tokens: &[Token],
) -> Result<(Option<Items<Grantee>>, &[Token]), Fault>
    ensures { Gives result (g.grantees_if_any.parses.read tokens.now) }
{
    if sees_word(tokens, b"to") {
        let (to, rest) = to_grantees(alloc, tokens)?;
        Ok((Some(to), rest))
    } else {
        Ok((None, tokens))
    }
}

/// The grantees behind TO; without it, PUBLIC.
#[tactic(auto, unfolding(crate::specs::Grammar::for_grantees))]
pub fn for_grantees(alloc: Global, tokens: &[Token]) -> Result<(Items<Grantee>, &[Token]), Fault>
    ensures { Gives result (g.for_grantees.parses.read tokens.now) }
{
    if sees_word(tokens, b"to") {
        to_grantees(alloc, tokens)
    } else {
        let to = public_alone(alloc)?;
        Ok((to, tokens))
    }
}

fn public_alone(alloc: Global) -> Result<Items<Grantee>, AllocError>
    ensures { IfOk result (λ all. all ≡ values.or_public None) }
{
    only(alloc, Grantee::Public)
}

/// USING and WITH CHECK, if they are written.
#[tactic(auto, unfolding(crate::specs::Grammar::conditions))]
pub fn conditions(
    alloc: Global,
    depth: usize,
    tokens: &[Token],
) -> Result<(Conditions, &[Token]), Fault>
    ensures { Gives result ((g.conditions (g.expr depth)).read tokens.now) }
{
    let (using, rest) = using(alloc, depth, tokens)?;
    let (check, rest) = or_drop!(check(alloc, depth, rest), using);
    Ok(((using, check), rest))
}

#[tactic(auto, unfolding(crate::specs::Grammar::using))]
fn using(alloc: Global, depth: usize, tokens: &[Token]) -> Result<(Option<Tree>, &[Token]), Fault>
    ensures { Gives result ((g.using (g.expr depth)).read tokens.now) }
{
    match word(tokens, b"using") {
        Some(rest) => match parenthesized(alloc, depth, rest) {
            Ok((condition, rest)) => Ok((Some(condition), rest)),
            Err(fault) => Err(fault),
        },
        None => Ok((None, tokens)),
    }
}

#[tactic(auto, unfolding(crate::specs::Grammar::check))]
fn check(alloc: Global, depth: usize, tokens: &[Token]) -> Result<(Option<Tree>, &[Token]), Fault>
    ensures { Gives result ((g.check (g.expr depth)).read tokens.now) }
{
    let Some(rest) = word(tokens, b"with") else {
        return Ok((None, tokens));
    };
    let Some(rest) = word(rest, b"check") else {
        return Err(Fault::Syntax);
    };
    let (condition, rest) = parenthesized(alloc, depth, rest)?;
    Ok((Some(condition), rest))
}
