//! The decisions on a row, on a page.

ghost use Rattle.std.specs.Prelude.{◌≡◌, [], ◌∷◌, ◌++◌, filter, length, map, string_bytes, IfOk, OnOk};
ghost use Rattle.std.specs.List.{flat_map};
ghost use Rattle.rls_explain.specs.Texts.{decision_text, said_text};
ghost use Rattle.rls_check.specs.LongTexts.{said_by, exemption_text as spec_exemption_text, no_expression_line as spec_no_expression_line, other_command_line as spec_other_command_line, other_roles_line as spec_other_roles_line, slot_line as spec_slot_line};
ghost use Rattle.rls_check.specs.PageDecisions as spec;
ghost use Rattle.rls_check.specs.Pieces.{Data, Tag, page_text};

use crate::filtering::is_same_id;
use crate::long_texts::{
    exemption_text, no_expression_line, other_command_line, other_roles_line, slot_line,
};
use crate::page_parts::push_parts;
use crate::pieces::{push_data, push_name, push_tag};
use crate::shown_rows::reason_text;
use rls_catalog::{Side, Verdict};
use rls_explain::rls_guard::Decision;
use rls_explain::{
    Asking, Consulted, Consulting, DecisionText, Details, Exemption, Explained, Part, Reason,
    RowOutcome, RowWord, Said,
};
use rls_value::{Name, Truth};
use std::alloc::{AllocError, Global};

/// Those among the explained decisions that are on the row, folded up; nothing where there is none.
pub(crate) fn push_why(
    alloc: Global,
    role: &Name,
    explained: &[Explained],
    row: &RowOutcome,
    page: &mut Vec<u8>,
) -> Result<(), AllocError>
    ensures { OnOk result (page.new.items ≡ page.old.items ++ page_text (spec.why_pieces role.now explained.now row.now)) }
{
    let about = those_about(alloc, row, explained)?;
    let pushed = push_those(alloc, role, row, about.as_slice(), page);
    drop(about);
    pushed
}

/// Those that are on the row.
fn those_about<'x>(
    alloc: Global,
    row: &RowOutcome,
    explained: &'x [Explained],
) -> Result<Vec<&'x Explained>, AllocError>
    ensures { IfOk result (λ about. map (λ one. one.now) about.items ≡ filter (spec.is_about row.now) explained.now) }
{
    let mut about = Vec::new(alloc);
    for one in explained {
        if is_about(row, one) {
            about.push(one)?;
        }
    }
    Ok(about)
}

fn is_about(row: &RowOutcome, one: &Explained) -> bool
    ensures { result ≡ spec.is_about row.now one.now }
{
    is_same_id(row.id, one.decision.id) && is_on_side(row.word, one.decision.side)
}

/// Whether what the statement did with a row was decided on this side of it.
fn is_on_side(word: RowWord, side: Side) -> bool
    ensures { result ≡ spec.is_on_side word side }
{
    match word {
        RowWord::Returned | RowWord::Seen => false,
        RowWord::Changed => true,
        RowWord::Inserted | RowWord::Refused | RowWord::Proposed => matches!(side, Side::New),
        RowWord::Listed
        | RowWord::Counted
        | RowWord::Deleted
        | RowWord::Matched
        | RowWord::Skipped
        | RowWord::Hidden
        | RowWord::Barred => matches!(side, Side::Old),
    }
}

#[tactic(auto, using(crate::proofs::PieceLemmas::page_nothing))]
fn push_those(
    alloc: Global,
    role: &Name,
    row: &RowOutcome,
    about: &[&Explained],
    page: &mut Vec<u8>,
) -> Result<(), AllocError>
    ensures { OnOk result (page.new.items ≡ page.old.items ++ page_text (spec.why_with role.now row.now (map (λ one. one.now) about.now))) }
{
    if count_of(about) == 0 {
        return Ok(());
    }
    push_folded(alloc, role, row, about, page)
}

fn count_of(about: &[&Explained]) -> usize
    ensures { result ≡ length (map (λ one. one.now) about.now) }
{
    about.len()
}

fn push_folded(
    alloc: Global,
    role: &Name,
    row: &RowOutcome,
    about: &[&Explained],
    page: &mut Vec<u8>,
) -> Result<(), AllocError>
    ensures { OnOk result (page.new.items ≡ page.old.items ++ page_text (spec.folded_pieces role.now row.now (map (λ one. one.now) about.now))) }
{
    push_tag(page, "<details class=\"w\"><summary>")?;
    push_summary(alloc, &row.reason, page)?;
    push_tag(page, "</summary>\n")?;
    push_decisions(alloc, role, about, page)?;
    push_tag(page, "</details>")?;
    Ok(())
}

/// The reason, or that there is more to read.
fn push_summary(
    alloc: Global,
    reason: &Option<Reason>,
    page: &mut Vec<u8>,
) -> Result<(), AllocError>
    ensures { OnOk result (page.new.items ≡ page.old.items ++ page_text (spec.summary_pieces reason.now)) }
{
    match reason {
        Some(reason) => push_reason(alloc, reason, page),
        None => push_tag(page, "why"),
    }
}

fn push_reason(alloc: Global, reason: &Reason, page: &mut Vec<u8>) -> Result<(), AllocError>
    ensures { OnOk result (page.new.items ≡ page.old.items ++ page_text (spec.reason_pieces reason.now)) }
{
    let text = reason_text(alloc, reason)?;
    push_data(alloc, page, text.as_str())?;
    Ok(())
}

fn push_decisions(
    alloc: Global,
    role: &Name,
    about: &[&Explained],
    page: &mut Vec<u8>,
) -> Result<(), AllocError>
    ensures { OnOk result (page.new.items ≡ page.old.items ++ page_text (flat_map (spec.decision_pieces role.now) (map (λ one. one.now) about.now))) }
{
    push_each_decision(alloc, role, about, page)?;
    Ok(())
}

fn push_each_decision(
    alloc: Global,
    role: &Name,
    mut about: &[&Explained],
    page: &mut Vec<u8>,
) -> Result<(), AllocError>
    ensures { OnOk result (page.new.items ≡ page.old.items ++ flat_map (λ one. page_text (spec.decision_pieces role.now one)) (map (λ one. one.now) about.entry.now)) }
{
    while let [one, rest @ ..] = about {
        push_decision(alloc, role, *one, page)?;
        about = rest;
    }
    Ok(())
}

/// A decision, with the policies that were asked.
fn push_decision(
    alloc: Global,
    role: &Name,
    one: &Explained,
    page: &mut Vec<u8>,
) -> Result<(), AllocError>
    ensures { OnOk result (page.new.items ≡ page.old.items ++ page_text (spec.decision_pieces role.now one.now)) }
{
    push_frame(&one.decision.verdict, page)?;
    push_decided(alloc, &one.decision, page)?;
    push_tag(page, "</strong></p>\n")?;
    push_details(alloc, role, &one.details, page)?;
    push_tag(page, "</div>\n")?;
    Ok(())
}

fn push_decided(alloc: Global, decision: &Decision, page: &mut Vec<u8>) -> Result<(), AllocError>
    ensures { OnOk result (page.new.items ≡ page.old.items ++ page_text (Data (decision_text decision.now) ∷ [])) }
{
    let text = DecisionText { decision };
    let line = format!(in alloc; "{text}")?;
    push_data(alloc, page, line.as_str())?;
    Ok(())
}

fn push_frame(verdict: &Verdict, page: &mut Vec<u8>) -> Result<(), AllocError>
    ensures { OnOk result (page.new.items ≡ page.old.items ++ page_text (Tag (spec.verdict_tag verdict.now) ∷ [])) }
{
    push_tag(page, verdict_tag(verdict))?;
    Ok(())
}

/// Its frame: allowed or denied.
fn verdict_tag(verdict: &Verdict) -> &'static str
    ensures { result.now ≡ spec.verdict_tag verdict.now }
{
    match verdict {
        Verdict::NoPermissive | Verdict::Restrictive(_) => "<div class=\"d r\"><p><strong>",
        Verdict::Exempt | Verdict::By(_) => "<div class=\"d g\"><p><strong>",
    }
}

#[tactic(auto, using(crate::proofs::PieceLemmas::page_nothing))]
fn push_details(
    alloc: Global,
    role: &Name,
    details: &Option<Details>,
    page: &mut Vec<u8>,
) -> Result<(), AllocError>
    ensures { OnOk result (page.new.items ≡ page.old.items ++ page_text (spec.details_pieces role.now details.now)) }
{
    match details {
        Some(details) => match &details.consulting {
            Consulting::Exempt(reason) => push_exempt(alloc, role, details, *reason, page),
            Consulting::Policies(policies) => {
                push_policies(alloc, &details.table, policies.as_slice(), page)
            }
        },
        None => Ok(()),
    }
}

/// Why no policy is asked.
fn push_exempt(
    alloc: Global,
    role: &Name,
    details: &Details,
    reason: Exemption,
    page: &mut Vec<u8>,
) -> Result<(), AllocError>
    ensures { OnOk result (page.new.items ≡ page.old.items ++ page_text (spec.exempt_pieces role.now details.now reason)) }
{
    push_tag(page, "<p class=\"dim\">no policy is asked: ")?;
    push_exemption(alloc, role, details, reason, page)?;
    push_tag(page, "</p>\n")?;
    Ok(())
}

fn push_exemption(
    alloc: Global,
    role: &Name,
    details: &Details,
    reason: Exemption,
    page: &mut Vec<u8>,
) -> Result<(), AllocError>
    ensures { OnOk result (page.new.items ≡ page.old.items ++ page_text (Data (spec_exemption_text role.now details.now.table details.now.owner reason) ∷ [])) }
{
    let text = exemption_text(alloc, role, &details.table, &details.owner, reason)?;
    push_data(alloc, page, text.as_str())?;
    Ok(())
}

// ---- policies

/// Each policy, or that there is none.
fn push_policies(
    alloc: Global,
    table: &Name,
    policies: &[Consulted],
    page: &mut Vec<u8>,
) -> Result<(), AllocError>
    ensures { OnOk result (page.new.items ≡ page.old.items ++ page_text (spec.policies_pieces table.now policies.now)) }
{
    match policies {
        [] => push_no_policy(alloc, table, page),
        [_, ..] => push_each_policy(alloc, policies, page),
    }
}

fn push_no_policy(alloc: Global, table: &Name, page: &mut Vec<u8>) -> Result<(), AllocError>
    ensures { OnOk result (page.new.items ≡ page.old.items ++ page_text (spec.no_policy_of table.now)) }
{
    push_tag(page, "<p class=\"dim\">")?;
    push_name(alloc, page, table)?;
    push_tag(page, " has no policy</p>\n")?;
    Ok(())
}

fn push_each_policy(
    alloc: Global,
    policies: &[Consulted],
    page: &mut Vec<u8>,
) -> Result<(), AllocError>
    ensures { OnOk result (page.new.items ≡ page.old.items ++ page_text (flat_map spec.policy_pieces policies.now)) }
{
    push_consulted(alloc, policies, page)?;
    Ok(())
}

fn push_consulted(
    alloc: Global,
    mut policies: &[Consulted],
    page: &mut Vec<u8>,
) -> Result<(), AllocError>
    ensures { OnOk result (page.new.items ≡ page.old.items ++ flat_map (λ policy. page_text (spec.policy_pieces policy)) policies.entry.now) }
{
    while let [policy, rest @ ..] = policies {
        push_policy(alloc, policy, page)?;
        policies = rest;
    }
    Ok(())
}

/// What a policy says and its parts, or why it isn't asked.
fn push_policy(alloc: Global, policy: &Consulted, page: &mut Vec<u8>) -> Result<(), AllocError>
    ensures { OnOk result (page.new.items ≡ page.old.items ++ page_text (spec.policy_pieces policy.now)) }
{
    match &policy.asking {
        Asking::OtherCommand => push_other_command(alloc, policy, page),
        Asking::OtherRoles => push_other_roles(alloc, policy, page),
        Asking::NoExpression => push_no_expression(alloc, policy, page),
        Asking::Asked(truth, parts) => push_asked(alloc, policy, *truth, parts.as_slice(), page),
    }
}

fn push_other_command(
    alloc: Global,
    policy: &Consulted,
    page: &mut Vec<u8>,
) -> Result<(), AllocError>
    ensures { OnOk result (page.new.items ≡ page.old.items ++ page_text (spec.not_asked (spec_other_command_line policy.now))) }
{
    push_not_asked(alloc, other_command_line(alloc, policy)?, page)?;
    Ok(())
}

fn push_other_roles(alloc: Global, policy: &Consulted, page: &mut Vec<u8>) -> Result<(), AllocError>
    ensures { OnOk result (page.new.items ≡ page.old.items ++ page_text (spec.not_asked (spec_other_roles_line policy.now))) }
{
    push_not_asked(alloc, other_roles_line(alloc, policy)?, page)?;
    Ok(())
}

fn push_no_expression(
    alloc: Global,
    policy: &Consulted,
    page: &mut Vec<u8>,
) -> Result<(), AllocError>
    ensures { OnOk result (page.new.items ≡ page.old.items ++ page_text (spec.not_asked (spec_no_expression_line policy.now))) }
{
    push_not_asked(alloc, no_expression_line(alloc, policy)?, page)?;
    Ok(())
}

fn push_not_asked(alloc: Global, line: String, page: &mut Vec<u8>) -> Result<(), AllocError>
    ensures { OnOk result (page.new.items ≡ page.old.items ++ page_text (spec.not_asked (string_bytes line))) }
{
    push_tag(page, "<p class=\"dim\">")?;
    push_string(alloc, line, page)?;
    push_tag(page, "</p>\n")?;
    Ok(())
}

fn push_string(alloc: Global, text: String, page: &mut Vec<u8>) -> Result<(), AllocError>
    ensures { OnOk result (page.new.items ≡ page.old.items ++ page_text (Data (string_bytes text) ∷ [])) }
{
    push_data(alloc, page, text.as_str())?;
    Ok(())
}

/// What it says, to whom it is, and the parts of its condition.
fn push_asked(
    alloc: Global,
    policy: &Consulted,
    truth: Truth,
    parts: &[Part],
    page: &mut Vec<u8>,
) -> Result<(), AllocError>
    ensures { OnOk result (page.new.items ≡ page.old.items ++ page_text (spec.asked_pieces policy.now truth parts.now)) }
{
    push_tag(page, "<p>")?;
    push_said(alloc, policy, truth, page)?;
    push_tag(page, " <span class=\"dim\">")?;
    push_slot(alloc, policy, page)?;
    push_tag(page, "</span></p>\n")?;
    push_parts(alloc, parts, page)?;
    Ok(())
}

fn push_said(
    alloc: Global,
    policy: &Consulted,
    truth: Truth,
    page: &mut Vec<u8>,
) -> Result<(), AllocError>
    ensures { OnOk result (page.new.items ≡ page.old.items ++ page_text (Data (said_text (said_by policy.now truth)) ∷ [])) }
{
    let text = said_text_of(alloc, policy, truth)?;
    push_data(alloc, page, text.as_str())?;
    Ok(())
}

fn push_slot(alloc: Global, policy: &Consulted, page: &mut Vec<u8>) -> Result<(), AllocError>
    ensures { OnOk result (page.new.items ≡ page.old.items ++ page_text (Data (spec_slot_line policy.now) ∷ [])) }
{
    let text = slot_line(alloc, policy)?;
    push_data(alloc, page, text.as_str())?;
    Ok(())
}

/// What the policy says, as the short form has it.
fn said_text_of(alloc: Global, policy: &Consulted, truth: Truth) -> Result<String, AllocError>
    ensures { IfOk result (λ text. string_bytes text ≡ said_text (said_by policy.now truth)) }
{
    let said = Said {
        policy: policy.policy.copy()?,
        permissive: policy.permissive,
        kind: policy.kind,
        truth,
    };
    let text = format!(in alloc; "{said}");
    drop(said);
    text
}
