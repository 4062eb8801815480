//! The lines of an explanation at length.

ghost use Rattle.std.specs.Prelude.{◌≡◌, ◌++◌, [], codes, string_bytes, IfOk, OnOk};
ghost use Rattle.std.specs.List.{flat_map};
ghost use Rattle.rls_statement.specs.Tags.{tag_of};
ghost use Rattle.rls_explain.specs.Texts.{decision_text, said_text};
ghost use Rattle.rls_audit.specs.rls_printing.specs.Escaped.{escaped_line};
ghost use Rattle.rls_check.specs.WhyTexts.{came_text, ended_line, head_text};
ghost use Rattle.rls_check.specs.LongTexts as spec;

use crate::explaining::Why;
use crate::long_parts::push_parts;
use crate::placed::Placed;
use crate::shown_rows::values_text;
use crate::shown_texts::target_of;
use crate::texts::{push_decision, push_reply};
use rls_audit::rls_printing::push_escaped_line;
use rls_explain::{
    Asking, Consulted, Consulting, Details, Exemption, Explained, Part, Said, permissive_word,
    policy_kind_word,
};
use rls_expr::Grantee;
use rls_value::{Name, Truth};
use std::alloc::{AllocError, Global};

impl Why {
    /// The lines of the short form and, indented below them, values and reasons.
    pub fn long_lines(&self, alloc: Global, placed: &Placed) -> Result<Vec<u8>, AllocError>
        ensures { IfOk result (λ text. text.items ≡ spec.long_text self.now placed.now) }
    {
        let mut text = Vec::new(alloc);
        self.put_head(alloc, &mut text)?;
        push_placed(alloc, placed, &mut text)?;
        self.put_reply(alloc, &mut text)?;
        let role = &self.explanation.role;
        push_explained(alloc, role, self.explanation.row.as_slice(), &mut text)?;
        self.push_none(&mut text)?;
        Ok(text)
    }

    fn put_head(&self, alloc: Global, text: &mut Vec<u8>) -> Result<(), AllocError>
        ensures { OnOk result (text.new.items ≡ text.old.items ++ ended_line (head_text self.now)) }
    {
        let mut line = String::new(alloc);
        self.push_head(alloc, &mut line)?;
        text.extend_from_slice(line.as_bytes())
    }

    fn put_reply(&self, alloc: Global, text: &mut Vec<u8>) -> Result<(), AllocError>
        ensures { OnOk result (text.new.items ≡ text.old.items ++ ended_line (codes "reply: " ++ came_text (tag_of self.now.statement) self.now.explanation.effect)) }
    {
        let mut line = String::new(alloc);
        let tag = self.statement.get().tag();
        push_reply(alloc, &mut line, tag, &self.explanation.effect)?;
        text.extend_from_slice(line.as_bytes())
    }

    /// That a statement on rows made no decision.
    fn push_none(&self, text: &mut Vec<u8>) -> Result<(), AllocError>
        ensures { OnOk result (text.new.items ≡ text.old.items ++ spec.none_text self.now.statement self.now.explanation.row) }
    {
        match self.explanation.row.as_slice() {
            [] => match target_of(self.statement.get()) {
                Some(_) => push_escaped_line(text, "  no row was looked at"),
                None => Ok(()),
            },
            [_, ..] => Ok(()),
        }
    }
}

/// Who ran the transaction, and where it stands.
fn push_placed(alloc: Global, placed: &Placed, text: &mut Vec<u8>) -> Result<(), AllocError>
    ensures { OnOk result (text.new.items ≡ text.old.items ++ escaped_line (spec.placed_line placed.now)) }
{
    let login = &placed.login;
    let commit = placed.commit;
    let place = placed.place;
    let count = placed.count;
    let line = format!(in alloc; "  login {login}, commit {commit}, place {place} of {count}")?;
    push_escaped_line(text, line.as_str())
}

/// Each decision, with what is told of it.
fn push_explained(
    alloc: Global,
    role: &Name,
    mut explained: &[Explained],
    text: &mut Vec<u8>,
) -> Result<(), AllocError>
    ensures { OnOk result (text.new.items ≡ text.old.items ++ flat_map (spec.explained_text role.now) explained.entry.now) }
{
    while let [one, rest @ ..] = explained {
        push_one(alloc, role, one, text)?;
        explained = rest;
    }
    Ok(())
}

fn push_one(
    alloc: Global,
    role: &Name,
    one: &Explained,
    text: &mut Vec<u8>,
) -> Result<(), AllocError>
    ensures { OnOk result (text.new.items ≡ text.old.items ++ spec.explained_text role.now one.now) }
{
    put_decision(alloc, one, text)?;
    match &one.details {
        Some(details) => push_details(alloc, role, one, details, text),
        None => Ok(()),
    }
}

fn put_decision(alloc: Global, one: &Explained, text: &mut Vec<u8>) -> Result<(), AllocError>
    ensures { OnOk result (text.new.items ≡ text.old.items ++ ended_line (decision_text one.now.decision)) }
{
    let mut line = String::new(alloc);
    push_decision(alloc, &mut line, &one.decision)?;
    text.extend_from_slice(line.as_bytes())
}

/// The row that was judged, and the policies.
fn push_details(
    alloc: Global,
    role: &Name,
    one: &Explained,
    details: &Details,
    text: &mut Vec<u8>,
) -> Result<(), AllocError>
    ensures { OnOk result (text.new.items ≡ text.old.items ++ spec.details_text role.now one.now.row details.now) }
{
    let values = values_text(alloc, details.columns.as_slice(), &one.row)?;
    let line = format!(in alloc; "  {values}")?;
    push_escaped_line(text, line.as_str())?;
    match &details.consulting {
        Consulting::Exempt(reason) => push_exempt(alloc, role, details, *reason, text),
        Consulting::Policies(policies) => {
            push_policies(alloc, &details.table, policies.as_slice(), text)
        }
    }
}

// ---- why no policy is asked

fn push_exempt(
    alloc: Global,
    role: &Name,
    details: &Details,
    reason: Exemption,
    text: &mut Vec<u8>,
) -> Result<(), AllocError>
    ensures { OnOk result (text.new.items ≡ text.old.items ++ escaped_line (codes "  no policy is asked: " ++ spec.exemption_text role.now details.now.table details.now.owner reason)) }
{
    let reason = exemption_text(alloc, role, &details.table, &details.owner, reason)?;
    let line = format!(in alloc; "  no policy is asked: {reason}")?;
    push_escaped_line(text, line.as_str())
}

pub(crate) fn exemption_text(
    alloc: Global,
    role: &Name,
    table: &Name,
    owner: &Name,
    reason: Exemption,
) -> Result<String, AllocError>
    ensures { IfOk result (λ text. string_bytes text ≡ spec.exemption_text role.now table.now owner.now reason) }
{
    match reason {
        Exemption::Disabled => format!(in alloc; "row security is not enabled on {table}"),
        Exemption::Superuser => format!(in alloc; "{role} is a superuser"),
        Exemption::BypassRls => format!(in alloc; "{role} has BYPASSRLS"),
        Exemption::Owner => {
            format!(in alloc; "{role} owns {table}, and row security is not forced")
        }
        Exemption::OwnersPrivileges => {
            format!(in alloc;
                "{role} has the privileges of {owner}, which owns {table}, and row security is not forced"
            )
        }
    }
}

// ---- policies

/// Each policy, or that there is none.
fn push_policies(
    alloc: Global,
    table: &Name,
    policies: &[Consulted],
    text: &mut Vec<u8>,
) -> Result<(), AllocError>
    ensures { OnOk result (text.new.items ≡ text.old.items ++ spec.policies_text table.now policies.now) }
{
    match policies {
        [] => {
            let line = format!(in alloc; "  {table} has no policy")?;
            push_escaped_line(text, line.as_str())
        }
        [_, ..] => push_each_policy(alloc, policies, text),
    }
}

fn push_each_policy(
    alloc: Global,
    mut policies: &[Consulted],
    text: &mut Vec<u8>,
) -> Result<(), AllocError>
    ensures { OnOk result (text.new.items ≡ text.old.items ++ flat_map spec.policy_text policies.entry.now) }
{
    while let [policy, rest @ ..] = policies {
        push_policy(alloc, policy, text)?;
        policies = rest;
    }
    Ok(())
}

/// What a policy says and its parts, or why it isn't asked.
fn push_policy(alloc: Global, policy: &Consulted, text: &mut Vec<u8>) -> Result<(), AllocError>
    ensures { OnOk result (text.new.items ≡ text.old.items ++ spec.policy_text policy.now) }
{
    match &policy.asking {
        Asking::OtherCommand => {
            let line = other_command_line(alloc, policy)?;
            push_escaped_line(text, line.as_str())
        }
        Asking::OtherRoles => {
            let line = other_roles_line(alloc, policy)?;
            push_escaped_line(text, line.as_str())
        }
        Asking::NoExpression => {
            let line = no_expression_line(alloc, policy)?;
            push_escaped_line(text, line.as_str())
        }
        Asking::Asked(truth, parts) => push_asked(alloc, policy, *truth, parts.as_slice(), text),
    }
}

pub(crate) fn other_command_line(alloc: Global, policy: &Consulted) -> Result<String, AllocError>
    ensures { IfOk result (λ line. string_bytes line ≡ spec.other_command_line policy.now) }
{
    let name = &policy.policy;
    let kind = policy_kind_word(policy.kind);
    format!(in alloc; "  policy {name} is not asked: it is FOR {kind}")
}

pub(crate) fn other_roles_line(alloc: Global, policy: &Consulted) -> Result<String, AllocError>
    ensures { IfOk result (λ line. string_bytes line ≡ spec.other_roles_line policy.now) }
{
    let name = &policy.policy;
    let roles = roles_text(alloc, policy.to.as_slice())?;
    format!(in alloc; "  policy {name} is not asked: it is TO {roles}")
}

pub(crate) fn no_expression_line(alloc: Global, policy: &Consulted) -> Result<String, AllocError>
    ensures { IfOk result (λ line. string_bytes line ≡ spec.no_expression_line policy.now) }
{
    let name = &policy.policy;
    let permissive = permissive_word(policy.permissive);
    let kind = policy_kind_word(policy.kind);
    let slot = slot_word(policy.with_check);
    let does = effect_word(policy.permissive);
    format!(in alloc; "  policy {name} {permissive} FOR {kind} has no {slot}: it {does} nothing")
}

/// What a policy says, to whom it is, and the parts of its condition.
fn push_asked(
    alloc: Global,
    policy: &Consulted,
    truth: Truth,
    parts: &[Part],
    text: &mut Vec<u8>,
) -> Result<(), AllocError>
    ensures { OnOk result (text.new.items ≡ text.old.items ++ spec.asked_text policy.now truth parts.now) }
{
    put_said(alloc, policy, truth, text)?;
    let line = slot_line(alloc, policy)?;
    push_escaped_line(text, line.as_str())?;
    push_parts(alloc, parts, text)
}

/// What the policy says, as the short form has it.
fn put_said(
    alloc: Global,
    policy: &Consulted,
    truth: Truth,
    text: &mut Vec<u8>,
) -> Result<(), AllocError>
    ensures { OnOk result (text.new.items ≡ text.old.items ++ ended_line (said_text (spec.said_by policy.now truth))) }
{
    let said = Said {
        policy: policy.policy.copy()?,
        permissive: policy.permissive,
        kind: policy.kind,
        truth,
    };
    let line = format!(in alloc; "{said}\n");
    drop(said);
    let line = line?;
    text.extend_from_slice(line.as_bytes())
}

/// To whom it is, and which of its expressions is asked.
pub(crate) fn slot_line(alloc: Global, policy: &Consulted) -> Result<String, AllocError>
    ensures { IfOk result (λ line. string_bytes line ≡ spec.slot_line policy.now) }
{
    let roles = roles_text(alloc, policy.to.as_slice())?;
    let slot = slot_word(policy.with_check);
    format!(in alloc; "  TO {roles} {slot}")
}

fn roles_text(alloc: Global, to: &[Grantee]) -> Result<String, AllocError>
    ensures { IfOk result (λ text. string_bytes text ≡ spec.roles_text [] to.now) }
{
    let mut text = String::new(alloc);
    push_roles(to, &mut text)?;
    Ok(text)
}

fn push_roles(to: &[Grantee], text: &mut String) -> Result<(), AllocError>
    ensures { OnOk result (string_bytes text.new ≡ string_bytes text.old ++ spec.roles_text [] to.now) }
{
    let [first, rest @ ..] = to else {
        return Ok(());
    };
    text.push_str(grantee_text(first))?;
    push_further_roles(rest, text)
}

/// Those behind the first.
fn push_further_roles(mut roles: &[Grantee], text: &mut String) -> Result<(), AllocError>
    ensures { OnOk result (string_bytes text.new ≡ string_bytes text.old ++ spec.roles_text (codes ", ") roles.entry.now) }
{
    while let [grantee, rest @ ..] = roles {
        text.push_str(", ")?;
        text.push_str(grantee_text(grantee))?;
        roles = rest;
    }
    Ok(())
}

fn grantee_text(grantee: &Grantee) -> &str
    ensures { result.now ≡ spec.grantee_text grantee.now }
{
    match grantee {
        Grantee::Public => "PUBLIC",
        Grantee::Role(name) => name.as_str(),
    }
}

fn slot_word(with_check: bool) -> &'static str
    ensures { result.now ≡ spec.slot_word with_check }
{
    if with_check { "WITH CHECK" } else { "USING" }
}

fn effect_word(permissive: bool) -> &'static str
    ensures { result.now ≡ spec.effect_word permissive }
{
    if permissive { "allows" } else { "denies" }
}
