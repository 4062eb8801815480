//! The walk through the words of a line, with all that may stand behind those that were met.

ghost use Rattle.std.specs.Prelude.{◌≡◌, ◌++◌, ◌∷◌, [], map, option_map, Some, IfOk, OnOk};
ghost use Rattle.std.specs.List.{filter, flat_map, list_all, list_any};
ghost use Rattle.rls_hints.specs.Rows.{alternatives};
ghost use Rattle.rls_hints.specs.Walking as spec;

use crate::grammar::{Item, Phrase};
use crate::keyword::keyword_str;
use crate::rows::rows_of;
use crate::token::{Placed, Token};
use rls_value::{Items, is_reserved};
use std::alloc::{AllocError, Global};

/// How many phrases may be opened one inside another, or left out one behind another, before a word.
const ROUNDS: usize = 16;

/// What a command begins with.
pub const COMMAND: [Item; 2] = [Item::Part(Phrase::Command), Item::Part(Phrase::Semicolon)];

/// What stands behind `\connect`.
pub const ROLE: [Item; 1] = [Item::Name];

/// What comes next.
#[derive(Clone, Copy)]
pub enum Next<'a> {
    Whatever,
    /// The end of the line.
    End,
    This(&'a Token),
}

/// A word that can't stand where it does.
#[derive(Drop)]
pub struct Fault {
    /// The number of the word, from 0; that of all words where it is the end of the line.
    pub place: usize,
    /// What could stand there, each with what follows.
    pub ready: Vec<Items<Item>>,
}

/// The first word that can't stand where it does, or the end of the line.
#[tactic(auto, unfolding(crate::specs::Walking::fault_from, crate::specs::Walking::fault_in))]
pub fn find_fault(
    alloc: Global,
    start: &[Item],
    words: &[Placed],
) -> Result<Option<Fault>, AllocError>
    ensures { IfOk result (λ found. option_map spec.told found ≡ spec.fault_in start.now (map (λ word. word.token) words.now)) }
{
    let mut stacks = begin(alloc, start)?;
    for (place, word) in words.iter().enumerate() {
        let behind = all_behind(alloc, stacks.as_slice(), &word.token)?;
        if is_empty(behind.as_slice()) {
            drop(behind);
            return found(alloc, place, stacks);
        }
        drop(stacks);
        stacks = behind;
    }
    if may_end(alloc, stacks.as_slice())? {
        drop(stacks);
        Ok(None)
    } else {
        found(alloc, words.len(), stacks)
    }
}

/// Whether there is none.
fn is_empty(stacks: &[Items<Item>]) -> bool
    ensures { result ≡ spec.is_empty stacks.now }
{
    matches!(stacks, [])
}

fn begin(alloc: Global, start: &[Item]) -> Result<Vec<Items<Item>>, AllocError>
    ensures { IfOk result (λ stacks. stacks.items ≡ start.now ∷ []) }
{
    let mut stacks = Vec::new(alloc);
    push(alloc, &[], start, &mut stacks)?;
    Ok(stacks)
}

/// The fault at the place, with all that could stand there.
fn found(alloc: Global, place: usize, stacks: Vec<Items<Item>>) -> Result<Option<Fault>, AllocError>
    ensures { IfOk result (λ found. option_map spec.told found ≡ Some (place, spec.ready_of spec.Whatever stacks.items)) }
{
    let ready = open_all(alloc, Next::Whatever, stacks.as_slice());
    drop(stacks);
    Ok(Some(Fault {
        place,
        ready: ready?,
    }))
}

/// Whether the line may end here.
fn may_end(alloc: Global, stacks: &[Items<Item>]) -> Result<bool, AllocError>
    ensures { IfOk result (λ may. may ≡ list_any spec.may_end (spec.ready_of spec.End stacks.now)) }
{
    let ready = open_all(alloc, Next::End, stacks)?;
    let may = is_any_ended(ready.as_slice());
    drop(ready);
    Ok(may)
}

/// Whether nothing more has to stand in one of the stacks.
pub fn is_any_ended(ready: &[Items<Item>]) -> bool
    ensures { result ≡ list_any spec.may_end ready.now }
{
    ready.iter().any(|stack| is_ended(stack.as_slice()))
}

fn is_ended(stack: &[Item]) -> bool
    ensures { result ≡ spec.may_end stack.now }
{
    match stack {
        [first, ..] => is_open(*first),
        [] => true,
    }
}

/// What stands behind the word, where it may stand.
fn all_behind(
    alloc: Global,
    stacks: &[Items<Item>],
    token: &Token,
) -> Result<Vec<Items<Item>>, AllocError>
    ensures { IfOk result (λ behind. behind.items ≡ flat_map (spec.behind_one token.now) (spec.ready_of (spec.This token.now) stacks.now)) }
{
    let ready = open_all(alloc, Next::This(token), stacks)?;
    let behind = behind_ready(alloc, ready.as_slice(), token);
    drop(ready);
    behind
}

fn behind_ready(
    alloc: Global,
    ready: &[Items<Item>],
    token: &Token,
) -> Result<Vec<Items<Item>>, AllocError>
    ensures { IfOk result (λ behind. behind.items ≡ flat_map (spec.behind_one token.now) ready.now) }
{
    let mut behind = Vec::new(alloc);
    for stack in ready.iter() {
        push_behind(alloc, stack.as_slice(), token, &mut behind)?;
    }
    Ok(behind)
}

fn push_behind(
    alloc: Global,
    stack: &[Item],
    token: &Token,
    behind: &mut Vec<Items<Item>>,
) -> Result<(), AllocError>
    ensures { OnOk result (behind.new.items ≡ behind.old.items ++ spec.behind_one token.now stack.now) }
{
    match stack {
        [first, _rest @ ..] if is_open(*first) => push(alloc, &[Item::Any], &[], behind),
        [first, rest @ ..] if fits(*first, token) => push(alloc, &[], rest, behind),
        _ => Ok(()),
    }
}

/// The stacks with a phrase on top opened, again and again.
#[tactic(auto, using(crate::proofs::Walks::open_begin, crate::proofs::Walks::open_next, crate::proofs::Walks::open_closed, crate::proofs::Walks::open_end))]
fn open_all(
    alloc: Global,
    next: Next<'_>,
    stacks: &[Items<Item>],
) -> Result<Vec<Items<Item>>, AllocError>
    ensures { IfOk result (λ ready. ready.items ≡ spec.ready_of (spec.coming_of next.entry) stacks.now) }
{
    let mut ready = open_once(alloc, next, stacks)?;
    for _turn in 1..ROUNDS {
        if are_closed(ready.as_slice()) {
            return Ok(ready);
        }
        let opened = open_once(alloc, next, ready.as_slice())?;
        drop(ready);
        ready = opened;
    }
    Ok(ready)
}

/// Whether no stack has a phrase on top.
fn are_closed(stacks: &[Items<Item>]) -> bool
    ensures { result ≡ list_all spec.is_closed stacks.now }
{
    stacks.iter().all(|stack| is_closed(stack.as_slice()))
}

fn is_closed(stack: &[Item]) -> bool
    ensures { result ≡ spec.is_closed stack.now }
{
    !matches!(stack, [Item::Part(_), ..])
}

/// Each stack with a phrase on top by those with what may stand for it.
fn open_once(
    alloc: Global,
    next: Next<'_>,
    stacks: &[Items<Item>],
) -> Result<Vec<Items<Item>>, AllocError>
    ensures { IfOk result (λ opened. opened.items ≡ flat_map (spec.opened_one (spec.coming_of next.entry)) stacks.now) }
{
    let mut opened = Vec::with_capacity(alloc, stacks.len())?;
    for stack in stacks.iter() {
        push_opened(alloc, next, stack.as_slice(), &mut opened)?;
    }
    Ok(opened)
}

fn push_opened(
    alloc: Global,
    next: Next<'_>,
    stack: &[Item],
    opened: &mut Vec<Items<Item>>,
) -> Result<(), AllocError>
    ensures { OnOk result (opened.new.items ≡ opened.old.items ++ spec.opened_one (spec.coming_of next.entry) stack.now) }
{
    match stack {
        [Item::Part(phrase), rest @ ..] => push_alternatives(alloc, next, *phrase, rest, opened),
        _ => push(alloc, &[], stack, opened),
    }
}

fn push_alternatives(
    alloc: Global,
    next: Next<'_>,
    phrase: Phrase,
    rest: &[Item],
    opened: &mut Vec<Items<Item>>,
) -> Result<(), AllocError>
    ensures { OnOk result (opened.new.items ≡ opened.old.items ++ map (λ items. items ++ rest.now) (filter (spec.may_begin (spec.coming_of next.entry)) (alternatives phrase))) }
{
    for row in rows_of(phrase).iter() {
        if may_begin(next, *row) {
            push(alloc, *row, rest, opened)?;
        }
    }
    Ok(())
}

fn push(
    alloc: Global,
    front: &[Item],
    rest: &[Item],
    stacks: &mut Vec<Items<Item>>,
) -> Result<(), AllocError>
    ensures { OnOk result (stacks.new.items ≡ stacks.old.items ++ (front.now ++ rest.now) ∷ []) }
{
    let mut stack = Vec::from_slice(alloc, front)?;
    stack.extend_from_slice(rest)?;
    stacks.push(Items::from_vec(stack))?;
    Ok(())
}

/// Whether the items may stand before what comes next, as far as the first one tells.
fn may_begin(next: Next<'_>, items: &[Item]) -> bool
    ensures { result ≡ spec.may_begin (spec.coming_of next.entry) items.now }
{
    match (next, items) {
        (Next::End, [first, ..]) => is_open(*first),
        (Next::This(token), [first, ..]) => is_open(*first) || fits(*first, token),
        _ => true,
    }
}

/// Whether anything may follow: a phrase that isn't opened yet, or what takes all.
fn is_open(item: Item) -> bool
    ensures { result ≡ spec.is_open item }
{
    matches!(item, Item::Part(_) | Item::Any)
}

/// Whether the word is what the item stands for.
fn fits(item: Item, token: &Token) -> bool
    ensures { result ≡ spec.fits item token.now }
{
    match (item, token) {
        (Item::Word(keyword), Token::Word(word)) => word.as_str() == keyword_str(keyword),
        (Item::Sign(sign), Token::Sign(other)) => sign == *other,
        (Item::Name, Token::Word(word)) => !is_reserved(word.as_str().as_bytes()),
        (Item::Number, Token::Number) => true,
        (Item::Text, Token::Text) => true,
        _ => false,
    }
}
