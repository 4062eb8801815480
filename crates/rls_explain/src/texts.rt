//! How a decision, and what a policy says, are written.

ghost use Rattle.std.specs.Prelude.{◌≡◌};
ghost use Rattle.std.specs.Fmt.{WritesOnOk};
ghost use Rattle.rls_explain.specs.Texts as spec;

use crate::explanation::Said;
use rls_meaning::rls_access::Decision;
use rls_meaning::rls_guard::rls_catalog::{Side, Verdict};
use rls_value::{Kind, PolicyKind, Truth};
use std::fmt;

/// As `policy p PERMISSIVE SELECT: false`, with the commands that the policy is for.
impl fmt::Display for Said {
    ghost use Rattle.std.specs.Prelude.{Some};
    ghost use Rattle.rls_explain.specs.Texts.{said_text};

    ghost output = { λ said. Some (said_text said) };

    fn fmt<W: fmt::Write>(&self, f: &mut fmt::Formatter<W>) -> fmt::Result {
        let policy = &self.policy;
        let permissive = permissive_word(self.permissive);
        let kind = policy_kind_word(self.kind);
        let truth = truth_word(self.truth);
        write!(f, "policy {policy} {permissive} {kind}: {truth}")
    }
}

/// A decision, to be written.
#[derive(Clone, Copy)]
pub struct DecisionText<'x> {
    pub decision: &'x Decision,
}

/// As `row 10.2 old SELECT: denied, no permissive policy passes`.
impl<'x> fmt::Display for DecisionText<'x> {
    ghost use Rattle.std.specs.Prelude.{Some};
    ghost use Rattle.rls_explain.specs.Texts.{decision_text};

    ghost output = { λ text. Some (decision_text text.decision.now) };

    fn fmt<W: fmt::Write>(&self, f: &mut fmt::Formatter<W>) -> fmt::Result {
        let id = self.decision.id;
        let side = side_word(self.decision.side);
        let kind = self.decision.kind;
        write!(f, "row {id} {side} {kind}: ")?;
        write_verdict(f, &self.decision.verdict)
    }
}

fn write_verdict<W: fmt::Write>(f: &mut fmt::Formatter<W>, verdict: &Verdict) -> fmt::Result
    ensures { WritesOnOk W.write_str_gives f.old result (spec.verdict_text verdict.now) f.new }
{
    match verdict {
        Verdict::Exempt => f.write_str("exempt"),
        Verdict::By(policy) => write!(f, "allowed by {policy}"),
        Verdict::NoPermissive => f.write_str("denied, no permissive policy passes"),
        Verdict::Restrictive(policy) => write!(f, "denied, restrictive policy {policy}"),
    }
}

/// A truth value.
pub fn truth_word(truth: Truth) -> &'static str
    ensures { result.now ≡ spec.truth_word truth }
{
    match truth {
        Truth::True => "true",
        Truth::False => "false",
        Truth::Unknown => "null",
    }
}

/// Whether a policy is permissive.
pub fn permissive_word(permissive: bool) -> &'static str
    ensures { result.now ≡ spec.permissive_word permissive }
{
    if permissive {
        "PERMISSIVE"
    } else {
        "RESTRICTIVE"
    }
}

/// The commands that a policy is for.
pub fn policy_kind_word(kind: PolicyKind) -> &'static str
    ensures { result.now ≡ spec.policy_kind_word kind }
{
    match kind {
        PolicyKind::All => "ALL",
        PolicyKind::Only(Kind::Select) => "SELECT",
        PolicyKind::Only(Kind::Insert) => "INSERT",
        PolicyKind::Only(Kind::Update) => "UPDATE",
        PolicyKind::Only(Kind::Delete) => "DELETE",
    }
}

fn side_word(side: Side) -> &'static str
    ensures { result.now ≡ spec.side_word side }
{
    match side {
        Side::Old => "old",
        Side::New => "new",
    }
}
