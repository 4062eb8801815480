//! The lines of an explanation.

ghost use Rattle.std.specs.Prelude.{◌≡◌, ◌++◌, codes, string_bytes, IfOk, OnOk};
ghost use Rattle.rls_value.specs.Refusals.{code_of};
ghost use Rattle.rls_check.specs.WhyTexts.{came_text, counted_tag, decision_lines, ended_line, explained_lines, explanation_text, head_text, place_text, row_lines, said_lines};
ghost use Rattle.rls_explain.specs.rls_meaning.specs.rls_guard.specs.Effects.{decisions_of as spec_decisions_of};
ghost use Rattle.rls_explain.specs.Texts.{decision_text};

use crate::explaining::Why;
use rls_audit::printed;
use rls_audit::rls_access::{Decision, Effect, Reply};
use rls_explain::{DecisionText, Explained, Said};
use rls_value::{Refusal, Tag};
use std::alloc::{AllocError, Global};

impl Why {
    /// The lines, each with its end.
    pub fn lines(&self, alloc: Global) -> Result<String, AllocError>
        ensures { IfOk result (λ text. string_bytes text ≡ explanation_text self.now) }
    {
        let mut lines = String::new(alloc);
        self.push_head(alloc, &mut lines)?;
        push_reply(
            alloc,
            &mut lines,
            self.statement.get().tag(),
            &self.explanation.effect,
        )?;
        self.push_rows(alloc, &mut lines)?;
        Ok(lines)
    }

    #[tactic(auto, using(crate::proofs::WhyTextLemmas::line_of_two))]
    pub(crate) fn push_head(&self, alloc: Global, lines: &mut String) -> Result<(), AllocError>
        ensures { OnOk result (string_bytes lines.new ≡ string_bytes lines.old ++ ended_line (head_text self.now)) }
    {
        let place = self.place(alloc)?;
        let printed = printed(alloc, self.statement.get())?;
        lines.push_str(place.as_str())?;
        lines.push_str(printed.as_str())?;
        lines.push_str("\n")
    }

    /// Which statement it is, and whose.
    fn place(&self, alloc: Global) -> Result<String, AllocError>
        ensures { IfOk result (λ text. string_bytes text ≡ place_text self.now) }
    {
        let txn = self.txn;
        let number = self.number;
        let role = &self.explanation.role;
        format!(in alloc; "txn {txn} statement {number} role {role}: ")
    }

    fn push_rows(&self, alloc: Global, lines: &mut String) -> Result<(), AllocError>
        ensures { OnOk result (string_bytes lines.new ≡ string_bytes lines.old ++ row_lines self.now.row self.now.explanation) }
    {
        match self.row {
            Some(_) => push_explained(alloc, lines, self.explanation.row.as_slice()),
            None => push_decisions(alloc, lines, decisions_of(&self.explanation.effect)),
        }
    }
}

pub(crate) fn push_reply(
    alloc: Global,
    lines: &mut String,
    tag: Tag,
    effect: &Effect,
) -> Result<(), AllocError>
    ensures { OnOk result (string_bytes lines.new ≡ string_bytes lines.old ++ ended_line (codes "reply: " ++ came_text tag effect.now)) }
{
    let reply = came_text(alloc, tag, effect)?;
    let line = format!(in alloc; "reply: {reply}\n")?;
    lines.push_str(line.as_str())
}

pub(crate) fn came_text(alloc: Global, tag: Tag, effect: &Effect) -> Result<String, AllocError>
    ensures { IfOk result (λ text. string_bytes text ≡ Rattle.rls_check.specs.WhyTexts.came_text tag effect.now) }
{
    match effect {
        Effect::Done(reply, _, _, _) => reply_text(alloc, tag, reply),
        Effect::Refused(refusal, _) => refusal_text(alloc, refusal),
    }
}

fn reply_text(alloc: Global, tag: Tag, reply: &Reply) -> Result<String, AllocError>
    ensures { IfOk result (λ text. string_bytes text ≡ Rattle.rls_check.specs.WhyTexts.reply_text tag reply.now) }
{
    match reply {
        Reply::Rows(rows) => counted(alloc, tag, rows.get().len() as u64),
        Reply::Count(count) => counted(alloc, tag, *count),
        Reply::Done => tag.text().to_string(alloc),
    }
}

fn counted(alloc: Global, tag: Tag, count: u64) -> Result<String, AllocError>
    ensures { IfOk result (λ text. string_bytes text ≡ counted_tag tag count) }
{
    match tag {
        Tag::Insert => format!(in alloc; "INSERT 0 {count}"),
        _ => format!(in alloc; "{tag} {count}"),
    }
}

fn refusal_text(alloc: Global, refusal: &Refusal) -> Result<String, AllocError>
    ensures { IfOk result (λ text. string_bytes text ≡ codes "ERROR " ++ (code_of refusal.now ++ (codes " " ++ Rattle.rls_value.specs.Refusals.refusal_text refusal.now))) }
{
    let code = refusal.code();
    format!(in alloc; "ERROR {code} {refusal}")
}

fn decisions_of(effect: &Effect) -> &[Decision]
    ensures { result.now ≡ spec_decisions_of effect.now }
{
    match effect {
        Effect::Done(_, decisions, _, _) => decisions.as_slice(),
        Effect::Refused(_, decisions) => decisions.as_slice(),
    }
}

fn push_decisions(
    alloc: Global,
    lines: &mut String,
    mut decisions: &[Decision],
) -> Result<(), AllocError>
    ensures { OnOk result (string_bytes lines.new ≡ string_bytes lines.old ++ decision_lines decisions.entry.now) }
{
    while let [decision, rest @ ..] = decisions {
        push_decision(alloc, lines, decision)?;
        decisions = rest;
    }
    Ok(())
}

pub(crate) fn push_decision(
    alloc: Global,
    lines: &mut String,
    decision: &Decision,
) -> Result<(), AllocError>
    ensures { OnOk result (string_bytes lines.new ≡ string_bytes lines.old ++ ended_line (decision_text decision.now)) }
{
    let text = DecisionText { decision };
    let line = format!(in alloc; "{text}\n")?;
    lines.push_str(line.as_str())
}

fn push_explained(
    alloc: Global,
    lines: &mut String,
    mut explained: &[Explained],
) -> Result<(), AllocError>
    ensures { OnOk result (string_bytes lines.new ≡ string_bytes lines.old ++ explained_lines explained.entry.now) }
{
    while let [one, rest @ ..] = explained {
        push_decision(alloc, lines, &one.decision)?;
        push_said(alloc, lines, one.policies.as_slice())?;
        explained = rest;
    }
    Ok(())
}

fn push_said(alloc: Global, lines: &mut String, mut said: &[Said]) -> Result<(), AllocError>
    ensures { OnOk result (string_bytes lines.new ≡ string_bytes lines.old ++ said_lines said.entry.now) }
{
    while let [one, rest @ ..] = said {
        let line = format!(in alloc; "{one}\n")?;
        lines.push_str(line.as_str())?;
        said = rest;
    }
    Ok(())
}
