//! The line of what is recorded of a transaction.

ghost use Rattle.std.specs.Prelude.{◌≡◌, ◌<◌, length, map, option_map, string_bytes, IfOk};
ghost use Rattle.std.specs.List.{All, AllZip, flat_map};
ghost use Rattle.rls_core.specs.Posts.{effect_of};
ghost use Rattle.rls_core.specs.rls_guard.specs.Effects.{reply_of};
ghost use Rattle.rls_audit.specs.Lines as spec;
ghost use Rattle.rls_audit.specs.Lines.{grant_shape, in_object_order, ordered_changes};
ghost use Rattle.rls_audit.specs.Printed.{line_of, printed_attempt, printed_line, printed_text};
ghost use Rattle.rls_audit.specs.Showing.{IsSpellable, AreTexts, HasKey, CanTell, CanShow};
ghost use Rattle.rls_audit_lines.specs.Unshown.{Gives};
ghost use Rattle.rls_audit.specs.Shows.{NamesColumn, ShowsTable, ShowsLine};
ghost use Rattle.rls_audit.specs.ShownParts.{Adds, ShowsChange, ShowsPost, ShowsPolicy};
ghost use Rattle.rls_audit_lines.specs.rls_text.specs.{ParseResults.IsSpelled, Words.words_of};

use crate::copying::copies;
use crate::ordering::{are_in_order, in_order};
use rls_audit_lines::{
    Answered, AttemptEnd, AttemptLine, AttemptShown, Audited, Changed, GrantShape, Line, Shown,
    TableShape, Unshown,
};
use rls_core::rls_guard::rls_catalog::shared_map::Share;
use rls_core::rls_guard::rls_catalog::{Change, Grant, Grants, Keyed, Policies};
use rls_core::rls_guard::{Effect, Reply};
use rls_core::{Attempt, Posted, Record};
use rls_expr::{Column, Policy, TableDef};
use rls_printing::{print, print_policy};
use rls_statement::Statement;
use rls_value::{Items, Name, Row, Text};
use std::alloc::{AllocError, Global};

/// The line of the record with this commit, its statements and policies as they are printed. Where texts spell these, it shows just
/// the record.
pub fn line_of_record(alloc: Global, commit: u64, record: &Record) -> Result<Line, Unshown>
    ensures shows { Gives result (All CanShow record.now.effects) (λ line. AreTexts record.now → ShowsLine line (spec.Txn (spec.shown commit record.now))) }
    ensures printed { IfOk result (λ line. line ≡ printed_line commit record.now) }
{
    match answered_and_changed(alloc, record.posts()) {
        Ok((statements, changes)) => Ok(line_with(alloc, commit, record, statements, changes)?),
        Err(why) => Err(why),
    }
}

/// The line of an attempt that ended so, its statements as they are printed.
pub fn line_of_attempt(
    alloc: Global,
    end: AttemptEnd,
    attempt: &Attempt,
) -> Result<AttemptLine, Unshown>
    ensures { Gives result (All CanShow (map effect_of attempt.now.posts)) (λ line. line ≡ printed_attempt end attempt.now) }
{
    match answered(alloc, attempt.posts.as_slice()) {
        Ok(statements) => Ok(attempt_with(end, attempt, statements)?),
        Err(why) => {
            drop(end);
            Err(why)
        }
    }
}

/// With these statements.
#[tactic(auto, using(crate::proofs::ShowingLemmas::answers_printed))]
fn attempt_with(
    end: AttemptEnd,
    attempt: &Attempt,
    statements: Items<Answered>,
) -> Result<AttemptLine, AllocError>
    requires { AllZip ShowsPost statements attempt.now.posts }
    ensures { IfOk result (λ line. line ≡ printed_attempt end attempt.now) }
{
    let begin = attempt.begin.get();
    let login = begin.login.copy()?;
    let role = begin.role.copy()?;
    let shown = AttemptShown {
        login,
        mode: begin.mode,
        role,
        snap: attempt.snap,
        statements,
        txn: attempt.txn,
    };
    Ok(AttemptLine::Attempt(end, shown))
}

/// With these statements and changes.
fn line_with(
    alloc: Global,
    commit: u64,
    record: &Record,
    statements: Items<Answered>,
    changes: Items<Changed>,
) -> Result<Line, AllocError>
    ensures { IfOk result (λ line. line ≡ line_of commit record.now statements changes) }
{
    let begin = record.begin();
    let login = begin.login.copy()?;
    let role = begin.role.copy()?;
    Ok(Line::Txn(Shown {
        changes,
        commit,
        login,
        mode: begin.mode,
        role,
        snap: record.snap() as u64,
        statements,
        txn: record.txn(),
    }))
}

/// The statements with what they were answered, and what they changed.
fn answered_and_changed(
    alloc: Global,
    posts: &[Share<Posted>],
) -> Result<(Items<Answered>, Items<Changed>), Unshown>
    ensures { Gives result (All CanShow (map effect_of posts.now)) (λ both. AllZip ShowsPost both.0 posts.now × AllZip ShowsChange both.1 (flat_map ordered_changes (map effect_of posts.now))) }
{
    match answered(alloc, posts) {
        Ok(statements) => match all_changed(alloc, posts) {
            Ok(changes) => Ok((statements, changes)),
            Err(why) => {
                drop(statements);
                Err(why)
            }
        },
        Err(why) => Err(why),
    }
}

// ---- statements

/// The statements with what they were answered.
fn answered(alloc: Global, posts: &[Share<Posted>]) -> Result<Items<Answered>, Unshown>
    ensures { Gives result (All CanShow (map effect_of posts.now)) (λ all. AllZip ShowsPost all posts.now) }
{
    let mut all = Items::new(alloc);
    for posted in posts {
        match answer_to(alloc, posted.get()) {
            Ok(answered) => all.push(answered)?,
            Err(why) => return Err(why),
        }
    }
    Ok(all)
}

fn answer_to(alloc: Global, posted: &Posted) -> Result<Answered, Unshown>
    ensures { Gives result (CanShow posted.now.effect) (λ answered. ShowsPost answered posted.now) }
{
    match reply_to(alloc, posted.bare()) {
        Ok(reply) => Ok(answer_with(alloc, posted, reply)?),
        Err(why) => Err(why),
    }
}

/// With that reply.
fn answer_with(
    alloc: Global,
    posted: &Posted,
    reply: Result<Reply, Audited>,
) -> Result<Answered, AllocError>
    ensures { IfOk result (λ answered. reply ≡ reply_of posted.now.effect → ShowsPost answered posted.now) }
{
    let decisions = posted.decisions().copy_all(alloc)?;
    let text = statement_text(alloc, posted.statement())?;
    Ok(Answered {
        decisions,
        reply,
        text,
    })
}

fn reply_to(alloc: Global, effect: &Effect) -> Result<Result<Reply, Audited>, Unshown>
    ensures { Gives result (CanShow effect.now) (λ reply. reply ≡ reply_of effect.now) }
{
    match effect {
        Effect::Done(reply, _, _, _) => Ok(Ok(reply.copy()?)),
        Effect::Refused(refusal, _) => match Audited::copy_of(alloc, refusal) {
            Ok(audited) => Ok(Err(audited)),
            Err(why) => Err(why),
        },
    }
}

fn statement_text(alloc: Global, statement: &Statement) -> Result<Text, AllocError>
    ensures text { IfOk result (λ text. text ≡ printed_text statement.now) }
    ensures spelled { IfOk result (λ text. IsSpellable statement.now → IsSpelled (words_of text) statement.now) }
{
    let text = printed(alloc, statement)?;
    Text::from_string(text)
}

/// The statement in its one written form. Where some text spells it, this one does.
pub fn printed(alloc: Global, statement: &Statement) -> Result<String, AllocError>
    ensures text { IfOk result (λ text. string_bytes text ≡ printed_text statement.now) }
    ensures spelled { IfOk result (λ text. IsSpellable statement.now → IsSpelled (words_of (string_bytes text)) statement.now) }
{
    print(alloc, statement)
}

// ---- changes

/// What the statements changed, of each in the order of objects.
fn all_changed(alloc: Global, posts: &[Share<Posted>]) -> Result<Items<Changed>, Unshown>
    ensures { Gives result (All CanShow (map effect_of posts.now)) (λ all. AllZip ShowsChange all (flat_map ordered_changes (map effect_of posts.now))) }
{
    let mut all = Items::new(alloc);
    for posted in posts {
        match push_effect(alloc, &mut all, posted.get()) {
            Ok(()) => {}
            Err(why) => return Err(why),
        }
    }
    Ok(all)
}

/// What the statement changed, in the order of objects.
fn push_effect(alloc: Global, all: &mut Items<Changed>, posted: &Posted) -> Result<(), Unshown>
    ensures { Gives result (CanShow posted.now.effect) (λ _. Adds all.old all.new (ordered_changes posted.now.effect)) }
{
    match posted.bare() {
        Effect::Done(_, _, delta, _) => push_ordered(alloc, all, delta.as_slice()),
        Effect::Refused(_, _) => Ok(()),
    }
}

fn push_ordered(alloc: Global, all: &mut Items<Changed>, changes: &[Change]) -> Result<(), Unshown>
    ensures { Gives result (All CanTell changes.now) (λ _. Adds all.old all.new (in_object_order changes.now)) }
{
    if are_in_order(changes) {
        push_changes(alloc, all, changes)
    } else {
        push_reordered(alloc, all, changes)
    }
}

fn push_reordered(
    alloc: Global,
    all: &mut Items<Changed>,
    changes: &[Change],
) -> Result<(), Unshown>
    ensures { Gives result (All CanTell changes.now) (λ _. Adds all.old all.new (in_object_order changes.now)) }
{
    let ordered = in_order(alloc, changes)?;
    push_changes(alloc, all, ordered.as_slice())
}

fn push_changes(alloc: Global, all: &mut Items<Changed>, changes: &[Change]) -> Result<(), Unshown>
    ensures { Gives result (All CanTell changes.now) (λ _. Adds all.old all.new changes.now) }
{
    for change in changes {
        match changed_by(alloc, change) {
            Ok(changed) => all.push(changed)?,
            Err(why) => return Err(why),
        }
    }
    Ok(())
}

/// What the change leaves at its object.
#[tactic(auto, using(crate::proofs::ShowingLemmas::role_written, crate::proofs::ShowingLemmas::members_written, crate::proofs::ShowingLemmas::grants_written, crate::proofs::ShowingLemmas::row_written))]
fn changed_by(alloc: Global, change: &Change) -> Result<Changed, Unshown>
    ensures { Gives result (CanTell change.now) (λ changed. ShowsChange changed change.now) }
{
    match change {
        Change::Role(name, def) => Ok(Changed::Role(name.copy()?, *def)),
        Change::Members(member, content) => {
            Ok(Changed::Members(member.copy()?, copies(alloc, content)?))
        }
        Change::Table(name, def) => match shape_of(alloc, def) {
            Ok(shape) => Ok(Changed::Table(name.copy()?, shape)),
            Err(why) => Err(why),
        },
        Change::Grants(table, content) => {
            Ok(Changed::Grants(table.copy()?, grant_shapes(alloc, content)?))
        }
        Change::Policies(table, content) => Ok(Changed::Policies(
            table.copy()?,
            policy_texts(alloc, table, content)?,
        )),
        Change::Row(row) => Ok(Changed::Row(
            row.table.copy()?,
            row.id,
            copy_values(alloc, &row.after)?,
        )),
    }
}

/// The grants, each by the name of its column.
fn grant_shapes(alloc: Global, grants: &Grants) -> Result<Items<GrantShape>, AllocError>
    ensures { IfOk result (λ shapes. shapes ≡ map grant_shape grants.now) }
{
    let mut shapes = Vec::with_capacity(alloc, grants.len())?;
    for grant in grants.iter() {
        shapes.push(shape_of_grant(grant)?)?;
    }
    Ok(Items::from_vec(shapes))
}

fn shape_of_grant(grant: &Grant) -> Result<GrantShape, AllocError>
    ensures { IfOk result (λ shape. shape ≡ grant_shape grant.now) }
{
    let Grant {
        privilege,
        grantee,
        grantor,
        option,
        column,
        place: _,
    } = grant.copy()?;
    Ok(GrantShape {
        privilege,
        grantee,
        grantor,
        option,
        column,
    })
}

/// The values of a row, if there is one.
fn copy_values(alloc: Global, keyed: &Option<Keyed>) -> Result<Option<Row>, AllocError>
    ensures { IfOk result (λ row. row ≡ option_map (λ keyed. keyed.row) keyed.now) }
{
    match keyed {
        Some(keyed) => Ok(Some(keyed.row.copy(alloc)?)),
        None => Ok(None),
    }
}

/// The table, its key by the names of the columns.
fn shape_of(alloc: Global, def: &TableDef) -> Result<TableShape, Unshown>
    ensures { Gives result (HasKey def.now) (λ shape. ShowsTable shape def.now) }
{
    match key_names(alloc, def.columns.as_slice(), def.key.as_slice()) {
        Ok(key) => Ok(shape_with(alloc, def, key)?),
        Err(why) => Err(why),
    }
}

/// With a key of these columns.
fn shape_with(alloc: Global, def: &TableDef, key: Items<Name>) -> Result<TableShape, AllocError>
    ensures { IfOk result (λ shape. shape ≡ record { owner = def.now.owner; enabled = def.now.enabled; forced = def.now.forced; columns = def.now.columns; key = key }) }
{
    let columns = Column::copy_all(alloc, def.columns.as_slice())?;
    let owner = def.owner.copy()?;
    Ok(TableShape {
        owner,
        enabled: def.enabled,
        forced: def.forced,
        columns,
        key,
    })
}

/// The names of the columns at the places.
fn key_names(alloc: Global, columns: &[Column], key: &[usize]) -> Result<Items<Name>, Unshown>
    ensures { Gives result (All (λ place. place < length columns.now) key.now) (λ names. AllZip (NamesColumn columns.now) names key.now) }
{
    let mut names = Items::new(alloc);
    for place in key {
        match key_name(columns, *place) {
            Ok(name) => names.push(name)?,
            Err(why) => return Err(why),
        }
    }
    Ok(names)
}

fn key_name(columns: &[Column], place: usize) -> Result<Name, Unshown>
    ensures { Gives result (place < length columns.now) (λ name. NamesColumn columns.now name place) }
{
    match columns.get(place) {
        Some(column) => Ok(column.name.copy()?),
        None => Err(Unshown::Never),
    }
}

/// The policies of the table, as statements that create them.
fn policy_texts(alloc: Global, table: &Name, policies: &Policies) -> Result<Items<Text>, AllocError>
    ensures { IfOk result (λ texts. AllZip (ShowsPolicy table.now) texts policies.now) }
{
    let mut texts = Items::new(alloc);
    for policy in policies.iter() {
        let text = policy_text(alloc, table, policy.get())?;
        texts.push(text)?;
    }
    Ok(texts)
}

fn policy_text(alloc: Global, table: &Name, policy: &Policy) -> Result<Text, AllocError>
    ensures { IfOk result (λ text. ShowsPolicy table.now text policy.now) }
{
    let text = print_policy(alloc, table, policy)?;
    Text::from_string(text)
}
