//! What the texts of an audit that holds show, and that it holds where they show it.

ghost use Rattle.std.specs.Prelude.{◌≡◌, ◌<◌, ◌↔◌, ℕ, Bool, List, IsUtf8};
ghost use Rattle.std.specs.List.{All, AllZip};
ghost use Rattle.rls_check.specs.rls_audit.specs.{Audits.AuditHolds, Lines.Line, Shows.Means};
ghost use Rattle.rls_check.specs.{Audited.lines_of, Wholes.AreSomeAudit, Wholes.IsAuditOf, Wholes.ShowExplained, declared.audit.Audit.Audit};

use rls_check::{lines_are_shown, meant_lines_are_read};
use rls_laws::effects_are_shown;

/// The texts of an audit that was read and holds show just what was found to hold: each is the line of its place, in one format.
pub fn texts_show_what_holds()
    ensures { (texts : List (List ℕ)) (audit : Audit) → IsAuditOf texts audit → AuditHolds (lines_of audit.transactions audit.order) → (second : Bool) × AllZip (Means second) texts (lines_of audit.transactions audit.order) }
{
    lines_are_shown();
    effects_are_shown()
}

/// The audit that was read of texts holds exactly where the texts mean lines of records with an order that explains them. What was
/// read has just these lines: a key that statements made has the first columns of their names, so that the names tell them. Texts in
/// UTF-8 that mean such lines are an audit, if no transaction has the number 0.
pub fn texts_tell_what_holds()
    ensures lines { (texts : List (List ℕ)) (audit : Audit) (second : Bool) (lines : List Line) → IsAuditOf texts audit → AllZip (Means second) texts lines → AuditHolds lines → lines_of audit.transactions audit.order ≡ lines }
    ensures exactly { (texts : List (List ℕ)) (audit : Audit) → IsAuditOf texts audit → AuditHolds (lines_of audit.transactions audit.order) ↔ ShowExplained texts }
    ensures read { (texts : List (List ℕ)) (second : Bool) (lines : List Line) (holds : AuditHolds lines) → All IsUtf8 texts → AllZip (Means second) texts lines → All (λ it. 0 < it.txn) holds.records → AreSomeAudit texts }
{
    texts_show_what_holds();
    meant_lines_are_read();
    effects_are_shown()
}
