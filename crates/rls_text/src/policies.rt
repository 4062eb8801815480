//! CREATE, ALTER and DROP of policies from tokens.

ghost use Rattle.std.specs.Prelude.{◌≡◌, codes, IfOk};
ghost use Rattle.rls_text.specs.{Gives.Gives, Parses.read_token, Parses.and_then};
ghost use Rattle.rls_text.specs.Trees as trees;
ghost use Rattle.rls_text.specs.Grammar as g;
ghost use Rattle.rls_text.specs.Values as values;

use crate::fault::Fault;
use crate::policy_parts::{Conditions, conditions, for_grantees, grantees_if_any, policy_options};
use crate::reading::{name, word};
use crate::token::Token;
use crate::tree::{Tree, TreeWithDepth, parted};
use rls_expr::{Expr, Grantee, Policy};
use rls_statement::{AlterPolicy, CreatePolicy, DropPolicy, Statement};
use rls_value::shared::Share;
use rls_value::{Items, Kind, Name, PolicyKind, or_drop};
use std::alloc::{AllocError, Global};

/// AS, FOR, TO, USING and WITH CHECK of a policy.
type Description = ((bool, PolicyKind), (Items<Grantee>, Conditions));

/// TO, USING and WITH CHECK, each as it is written, if it is.
type PolicyChange = (Option<Items<Grantee>>, Conditions);

/// What stands behind CREATE POLICY.
#[tactic(auto, unfolding(crate::specs::Grammar::policy))]
pub fn policy(
    alloc: Global,
    depth: usize,
    tokens: &[Token],
) -> Result<(TreeWithDepth, &[Token]), Fault>
    ensures { Gives result ((g.policy (g.expr depth)).read tokens.now) }
{
    let (names, rest) = policy_on(alloc, tokens)?;
    let (description, rest) = or_drop!(proper_description(alloc, depth, rest), names);
    let created = created(alloc, names, description)?;
    Ok((created, rest))
}

fn created(
    alloc: Global,
    names: (Name, Name),
    description: Description,
) -> Result<TreeWithDepth, AllocError>
    ensures { IfOk result (λ created. created ≡ trees.policy_of (names, description)) }
{
    let (name, table) = names;
    let ((permissive, kind), (to, (using, check))) = description;
    let (using, using_depth) = or_drop!(shared(alloc, using), name, table, to, check);
    let (check, check_depth) = or_drop!(shared(alloc, check), name, table, to, using);
    let policy = Policy {
        name,
        permissive,
        kind,
        to,
        using,
        check,
    };
    Ok((
        Statement::CreatePolicy(CreatePolicy { table, policy }),
        using_depth.max(check_depth),
    ))
}

/// The expression, shared, and its depth; 0 where there is none.
fn shared(alloc: Global, tree: Option<Tree>) -> Result<(Option<Share<Expr>>, u32), AllocError>
    ensures { IfOk result (λ both. both ≡ trees.parted tree) }
{
    let (expr, depth) = parted(tree);
    match expr {
        Some(expr) => Ok((Some(Share::new(alloc, expr)?), depth)),
        None => Ok((None, depth)),
    }
}

/// What stands behind ALTER POLICY.
#[tactic(auto, unfolding(crate::specs::Grammar::altered_policy))]
pub fn altered_policy(
    alloc: Global,
    depth: usize,
    tokens: &[Token],
) -> Result<(TreeWithDepth, &[Token]), Fault>
    ensures { Gives result ((g.altered_policy (g.expr depth)).read tokens.now) }
{
    let (names, rest) = policy_on(alloc, tokens)?;
    let (change, rest) = or_drop!(proper_change(alloc, depth, rest), names);
    let altered = altered(alloc, names, change)?;
    Ok((altered, rest))
}

fn altered(
    alloc: Global,
    names: (Name, Name),
    change: PolicyChange,
) -> Result<TreeWithDepth, AllocError>
    ensures { IfOk result (λ altered. altered ≡ trees.altering_policy_of (names, change)) }
{
    let (name, table) = names;
    let (to, (using, check)) = change;
    let (using, using_depth) = or_drop!(shared(alloc, using), name, table, to, check);
    let (check, check_depth) = or_drop!(shared(alloc, check), name, table, to, using);
    let alter = AlterPolicy {
        name,
        table,
        to,
        using,
        check,
    };
    Ok((Statement::AlterPolicy(alter), using_depth.max(check_depth)))
}

/// DROP POLICY, whole.
#[tactic(auto, unfolding(crate::specs::Grammar::dropped_policy))]
pub fn dropped_policy(alloc: Global, tokens: &[Token]) -> Result<(Statement, &[Token]), Fault>
    ensures { Gives result (g.dropped_policy.parses.read tokens.now) }
{
    let Some(rest) = word(tokens, b"drop") else {
        return Err(Fault::Syntax);
    };
    let Some(rest) = word(rest, b"policy") else {
        return Err(Fault::Syntax);
    };
    let ((name, table), rest) = policy_on(alloc, rest)?;
    Ok((Statement::DropPolicy(DropPolicy { name, table }), rest))
}

/// The names of a policy and of its table.
#[tactic(auto, unfolding(crate::specs::Grammar::policy_on))]
fn policy_on(alloc: Global, tokens: &[Token]) -> Result<((Name, Name), &[Token]), Fault>
    ensures { Gives result (g.policy_on.parses.read tokens.now) }
{
    let (policy, rest) = name(alloc, tokens)?;
    let (table, rest) = or_drop!(on_table(alloc, rest), policy);
    Ok(((policy, table), rest))
}

fn on_table(alloc: Global, tokens: &[Token]) -> Result<(Name, &[Token]), Fault>
    ensures { Gives result (and_then (read_token (Token.Word (codes "on")) tokens.now) (λ _ rest. g.name.parses.read rest)) }
{
    match word(tokens, b"on") {
        Some(rest) => name(alloc, rest),
        None => Err(Fault::Syntax),
    }
}

/// What describes a policy; one of its kind may have its expressions.
#[tactic(auto, unfolding(crate::specs::Grammar::proper_description))]
fn proper_description(
    alloc: Global,
    depth: usize,
    tokens: &[Token],
) -> Result<(Description, &[Token]), Fault>
    ensures { Gives result ((g.proper_description (g.expr depth)).read tokens.now) }
{
    let (description, rest) = description(alloc, depth, tokens)?;
    if is_policy(&description) {
        Ok((description, rest))
    } else {
        drop(description);
        Err(Fault::Syntax)
    }
}

fn is_policy(description: &Description) -> bool
    ensures { result ≡ values.is_policy description.now }
{
    let ((_, kind), (_, (using, check))) = description;
    may_have(*kind, using.is_some(), check.is_some())
}

/// Whether a policy of this kind may have USING and WITH CHECK, where it has them.
fn may_have(kind: PolicyKind, has_using: bool, has_check: bool) -> bool
    ensures { result ≡ values.may_have kind has_using has_check }
{
    match kind {
        PolicyKind::Only(Kind::Select | Kind::Delete) => !has_check,
        PolicyKind::Only(Kind::Insert) => !has_using,
        PolicyKind::Only(Kind::Update) | PolicyKind::All => true,
    }
}

#[tactic(auto, unfolding(crate::specs::Grammar::description))]
fn description(
    alloc: Global,
    depth: usize,
    tokens: &[Token],
) -> Result<(Description, &[Token]), Fault>
    ensures { Gives result ((g.description (g.expr depth)).read tokens.now) }
{
    let (options, rest) = policy_options(tokens)?;
    let (to, rest) = for_grantees(alloc, rest)?;
    let (conditions, rest) = or_drop!(conditions(alloc, depth, rest), to);
    Ok(((options, (to, conditions)), rest))
}

/// What changes of a policy; something does.
#[tactic(auto, unfolding(crate::specs::Grammar::proper_change))]
fn proper_change(
    alloc: Global,
    depth: usize,
    tokens: &[Token],
) -> Result<(PolicyChange, &[Token]), Fault>
    ensures { Gives result ((g.proper_change (g.expr depth)).read tokens.now) }
{
    let (change, rest) = policy_change(alloc, depth, tokens)?;
    if is_change(&change) {
        Ok((change, rest))
    } else {
        drop(change);
        Err(Fault::Syntax)
    }
}

fn is_change(change: &PolicyChange) -> bool
    ensures { result ≡ values.is_change change.now }
{
    let (to, (using, check)) = change;
    to.is_some() || using.is_some() || check.is_some()
}

#[tactic(auto, unfolding(crate::specs::Grammar::policy_change))]
fn policy_change(
    alloc: Global,
    depth: usize,
    tokens: &[Token],
) -> Result<(PolicyChange, &[Token]), Fault>
    ensures { Gives result ((g.policy_change (g.expr depth)).read tokens.now) }
{
    let (to, rest) = grantees_if_any(alloc, tokens)?;
    let (conditions, rest) = or_drop!(conditions(alloc, depth, rest), to);
    Ok(((to, conditions), rest))
}
