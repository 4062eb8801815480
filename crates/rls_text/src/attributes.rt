//! The attributes of a role from tokens.

ghost use Rattle.std.specs.Prelude.{◌≡◌, length};
ghost use Rattle.rls_text.specs.{FirstSets.attribute_heads, Heads.sees, Lang.put_in, Parses.read_many};
ghost use Rattle.rls_text.specs.Gives.{Gives, with_front, or_no_items};
ghost use Rattle.rls_text.specs.Grammar as g;
ghost use Rattle.rls_text.specs.Values as values;

use crate::fault::Fault;
use crate::reading::{only, sees_one_of, word};
use crate::token::Token;
use rls_statement::Attributes;
use rls_value::Items;
use std::alloc::Global;

/// An attribute as it is written.
#[derive(Clone, Copy, PartialEq, Eq)]
pub enum RoleAttribute {
    Superuser(bool),
    Login(bool),
    BypassRls(bool),
}

/// The attributes behind a role's name, each kind once at most.
#[tactic(auto, unfolding(crate::specs::Grammar::attributes_of_role, crate::specs::Gives::or_no_items))]
pub fn attributes_of_role(
    alloc: Global,
    is_user: bool,
    tokens: &[Token],
) -> Result<(Attributes, &[Token]), Fault>
    ensures { Gives result ((g.attributes_of_role is_user).parses.read tokens.now) }
{
    let (written, rest) = attributes_if_any(alloc, tokens)?;
    let attributes = gathered(opening(is_user), written.as_slice());
    drop(written);
    Ok((attributes, rest))
}

/// The attributes that are written, of which there is one at least.
#[tactic(auto, unfolding(crate::specs::Grammar::written_attributes))]
pub fn written_attributes(alloc: Global, tokens: &[Token]) -> Result<(Attributes, &[Token]), Fault>
    ensures { Gives result (g.written_attributes.parses.read tokens.now) }
{
    let rest = match word(tokens, b"with") {
        Some(rest) => rest,
        None => tokens,
    };
    let (written, rest) = attributes(alloc, rest)?;
    let attributes = gathered(opening(false), written.as_slice());
    drop(written);
    Ok((attributes, rest))
}

#[tactic(auto, unfolding(crate::specs::Grammar::attributes_if_any, crate::specs::Gives::or_no_items))]
fn attributes_if_any(
    alloc: Global,
    tokens: &[Token],
) -> Result<(Items<RoleAttribute>, &[Token]), Fault>
    ensures { Gives result (or_no_items (g.attributes_if_any.parses.read tokens.now)) }
{
    if let Some(rest) = word(tokens, b"with") {
        attributes(alloc, rest)
    } else if starts_attribute(tokens) {
        attributes(alloc, tokens)
    } else {
        Ok((Items::new(alloc), tokens))
    }
}

#[tactic(auto, unfolding(crate::specs::Grammar::attributes))]
fn attributes(alloc: Global, tokens: &[Token]) -> Result<(Items<RoleAttribute>, &[Token]), Fault>
    ensures { Gives result (g.attributes.parses.read tokens.now) }
{
    let (all, rest) = first_and_more(alloc, tokens)?;
    if each_once(all.as_slice()) {
        Ok((all, rest))
    } else {
        drop(all);
        Err(Fault::Syntax)
    }
}

#[tactic(auto, unfolding(crate::specs::Grammar::first_and_more, crate::specs::Gives::with_front))]
fn first_and_more(
    alloc: Global,
    tokens: &[Token],
) -> Result<(Items<RoleAttribute>, &[Token]), Fault>
    ensures { Gives result (g.first_and_more.parses.read tokens.now) }
{
    let (first, rest) = attribute(tokens)?;
    let all = only(alloc, first)?;
    more_attributes(all, rest)
}

#[tactic(auto, using(crate::proofs::Loops::front_begins, crate::proofs::Loops::loop_stops, crate::proofs::Loops::loop_ends, crate::proofs::Loops::loop_fails, crate::proofs::Loops::loop_goes_on))]
fn more_attributes(
    first: Items<RoleAttribute>,
    tokens: &[Token],
) -> Result<(Items<RoleAttribute>, &[Token]), Fault>
    ensures { Gives result (with_front first (read_many (attribute_heads) g.attribute.parses.read (length tokens.now) tokens.now)) }
{
    let mut all = first;
    let mut rest = tokens;
    for _turn in 0..tokens.len() {
        if !starts_attribute(rest) {
            return Ok((all, rest));
        }
        match attribute(rest) {
            Ok((next, behind)) => {
                if all.push(next).is_err() {
                    return Err(Fault::NoMemory);
                }
                rest = behind;
            }
            Err(fault) => return Err(fault),
        }
    }
    Ok((all, rest))
}

#[tactic(auto, unfolding(crate::specs::Grammar::attribute))]
fn attribute(tokens: &[Token]) -> Result<(RoleAttribute, &[Token]), Fault>
    ensures { Gives result (g.attribute.parses.read tokens.now) }
{
    if let Some(rest) = word(tokens, b"superuser") {
        Ok((RoleAttribute::Superuser(true), rest))
    } else if let Some(rest) = word(tokens, b"nosuperuser") {
        Ok((RoleAttribute::Superuser(false), rest))
    } else if let Some(rest) = word(tokens, b"login") {
        Ok((RoleAttribute::Login(true), rest))
    } else if let Some(rest) = word(tokens, b"nologin") {
        Ok((RoleAttribute::Login(false), rest))
    } else if let Some(rest) = word(tokens, b"bypassrls") {
        Ok((RoleAttribute::BypassRls(true), rest))
    } else if let Some(rest) = word(tokens, b"nobypassrls") {
        Ok((RoleAttribute::BypassRls(false), rest))
    } else {
        Err(Fault::Syntax)
    }
}

const ATTRIBUTES: [&[u8]; 6] = [
    b"superuser",
    b"nosuperuser",
    b"login",
    b"nologin",
    b"bypassrls",
    b"nobypassrls",
];

fn starts_attribute(tokens: &[Token]) -> bool
    ensures { result ≡ sees attribute_heads tokens.now }
{
    sees_one_of(tokens, &ATTRIBUTES)
}

fn each_once(mut attributes: &[RoleAttribute]) -> bool
    ensures { result ≡ values.each_once attributes.entry.now }
{
    while let [first, rest @ ..] = attributes {
        if !lacks(*first, rest) {
            return false;
        }
        attributes = rest;
    }
    true
}

fn lacks(attribute: RoleAttribute, mut others: &[RoleAttribute]) -> bool
    ensures { result ≡ values.lacks attribute others.entry.now }
{
    while let [other, rest @ ..] = others {
        if are_one_kind(attribute, *other) {
            return false;
        }
        others = rest;
    }
    true
}

fn are_one_kind(left: RoleAttribute, right: RoleAttribute) -> bool
    ensures { result ≡ values.are_one_kind left right }
{
    match (left, right) {
        (RoleAttribute::Superuser(_), RoleAttribute::Superuser(_)) => true,
        (RoleAttribute::Login(_), RoleAttribute::Login(_)) => true,
        (RoleAttribute::BypassRls(_), RoleAttribute::BypassRls(_)) => true,
        _ => false,
    }
}

/// What holds where nothing is written: a user may log in.
fn opening(is_user: bool) -> Attributes
    ensures { result ≡ values.opening is_user }
{
    Attributes {
        superuser: None,
        login: if is_user { Some(true) } else { None },
        bypass_rls: None,
    }
}

fn gathered(opening: Attributes, mut written: &[RoleAttribute]) -> Attributes
    ensures { result ≡ put_in values.with_attribute opening written.entry.now }
{
    let mut attributes = opening;
    while let [first, rest @ ..] = written {
        attributes = with_attribute(attributes, *first);
        written = rest;
    }
    attributes
}

fn with_attribute(attributes: Attributes, attribute: RoleAttribute) -> Attributes
    ensures { result ≡ values.with_attribute attributes attribute }
{
    let mut attributes = attributes;
    match attribute {
        RoleAttribute::Superuser(flag) => attributes.superuser = Some(flag),
        RoleAttribute::Login(flag) => attributes.login = Some(flag),
        RoleAttribute::BypassRls(flag) => attributes.bypass_rls = Some(flag),
    }
    attributes
}
