//! What audits mean.

ghost use Rattle.std.specs.Prelude.{◌≡◌, [], ◌∷◌, true, Some};
ghost use Rattle.rls_core.specs.Headline.{AfterEvents};
ghost use Rattle.rls_audit.specs.Audits.{IsAudit, AuditHolds, AuditsHold};
ghost use Rattle.rls_audit.specs.Lines as shown;
ghost use Rattle.rls_audit.specs.Lines.{Head, End};
ghost use Rattle.rls_audit_lines.specs.Reading.{line_found, line_text};
ghost use Rattle.rls_audit.specs.Shows.{Means, ShowsLine};
ghost use Rattle.rls_audit_lines.specs.declared.lines.Line.{Line};

use rls_core::{committed_are_serial, events_keep};

/// The audit of an empty script is one, and holds.
#[tactic(auto, using(crate::proofs::ExampleLemmas::empty_is_audit, crate::proofs::ExampleLemmas::empty_holds))]
pub fn empty_audit_holds()
    ensures audit { IsAudit (Head ∷ End 0 [] ∷ []) }
    ensures holds { AuditHolds (Head ∷ End 0 [] ∷ []) }
{}

/// After every list of begins, posts, commits and rollbacks the audit of the committed transactions holds, in whichever order
/// that keeps `before` and `rw`.
pub fn audits_hold()
    ensures { AfterEvents AuditsHold }
{
    committed_are_serial();
    events_keep();
}

/// What a line shows its text means, as it is written: each text in it is a statement's, or creates a policy.
#[tactic(auto, using(crate::proofs::MeaningLemmas::written_means))]
pub fn written_lines_mean()
    ensures { (line : Line) (it : shown.Line) → line_found true (line_text line) ≡ Some line → ShowsLine line it → Means true (line_text line) it }
{}
