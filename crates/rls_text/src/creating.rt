//! CREATE and ALTER from tokens.

ghost use Rattle.rls_text.specs.{Gives.Gives, Parses.read_mapped, Trees.flat};
ghost use Rattle.rls_text.specs.Grammar as g;

use crate::attributes::{attributes_of_role, written_attributes};
use crate::fault::Fault;
use crate::policies::{altered_policy, policy};
use crate::reading::{name, word};
use crate::tables::{altered_table, table};
use crate::token::Token;
use crate::tree::TreeWithDepth;
use rls_statement::{AlterRole, CreateRole, Statement};
use rls_value::or_drop;
use std::alloc::Global;

/// CREATE, whole.
#[tactic(auto, unfolding(crate::specs::Grammar::create))]
pub fn create(
    alloc: Global,
    depth: usize,
    tokens: &[Token],
) -> Result<(TreeWithDepth, &[Token]), Fault>
    ensures { Gives result ((g.create (g.expr depth)).read tokens.now) }
{
    let Some(rest) = word(tokens, b"create") else {
        return Err(Fault::Syntax);
    };
    if let Some(rest) = word(rest, b"role") {
        role(alloc, false, rest)
    } else if let Some(rest) = word(rest, b"user") {
        role(alloc, true, rest)
    } else if let Some(rest) = word(rest, b"table") {
        table(alloc, rest)
    } else if let Some(rest) = word(rest, b"policy") {
        policy(alloc, depth, rest)
    } else {
        Err(Fault::Syntax)
    }
}

#[tactic(auto, unfolding(crate::specs::Grammar::role))]
fn role(alloc: Global, is_user: bool, tokens: &[Token]) -> Result<(TreeWithDepth, &[Token]), Fault>
    ensures { Gives result (read_mapped flat (g.role is_user).parses.read tokens.now) }
{
    let (name, rest) = name(alloc, tokens)?;
    let (attributes, rest) = or_drop!(attributes_of_role(alloc, is_user, rest), name);
    let create = CreateRole { name, attributes };
    Ok(((Statement::CreateRole(create), 0), rest))
}

/// ALTER, whole.
#[tactic(auto, unfolding(crate::specs::Grammar::alter))]
pub fn alter(
    alloc: Global,
    depth: usize,
    tokens: &[Token],
) -> Result<(TreeWithDepth, &[Token]), Fault>
    ensures { Gives result ((g.alter (g.expr depth)).read tokens.now) }
{
    let Some(rest) = word(tokens, b"alter") else {
        return Err(Fault::Syntax);
    };
    if let Some(rest) = word(rest, b"role") {
        altered_role(alloc, rest)
    } else if let Some(rest) = word(rest, b"table") {
        altered_table(alloc, rest)
    } else if let Some(rest) = word(rest, b"policy") {
        altered_policy(alloc, depth, rest)
    } else {
        Err(Fault::Syntax)
    }
}

#[tactic(auto, unfolding(crate::specs::Grammar::altered_role))]
fn altered_role(alloc: Global, tokens: &[Token]) -> Result<(TreeWithDepth, &[Token]), Fault>
    ensures { Gives result (read_mapped flat g.altered_role.parses.read tokens.now) }
{
    let (name, rest) = name(alloc, tokens)?;
    let (attributes, rest) = or_drop!(written_attributes(alloc, rest), name);
    let alter = AlterRole { name, attributes };
    Ok(((Statement::AlterRole(alter), 0), rest))
}
