//! Laws of what is read and found, as clauses of functions that do nothing.

ghost use Rattle.std.specs.Prelude.{◌≡◌, ◌<◌, ℕ, Bool, List, IsUtf8};
ghost use Rattle.std.specs.List.{All, AllZip};
ghost use Rattle.rls_expr.specs.declared.table.TableDef.{TableDef};
ghost use Rattle.rls_audit.specs.{Audits.AuditHolds, Showing.CanShow, Showing.HasKey, Shows.Means, Shows.ShowsLine};
ghost use Rattle.rls_audit.specs.rls_audit_lines.specs.declared.changes.Changed.TheVariants as changed;
ghost use Rattle.rls_audit.specs.rls_audit_lines.specs.declared.contents.TableShape.{TableShape};
ghost use Rattle.rls_audit.specs.rls_audit_lines.specs.declared.lines.Shown.{Shown};
ghost use Rattle.rls_audit.specs.Lines as shown;
ghost use Rattle.rls_check.specs.Audited.{lines_of};
ghost use Rattle.rls_check.specs.Checking.{IsFirst};
ghost use Rattle.html_text.specs.Html.{marks_of};
ghost use Rattle.rls_check.specs.Pieces.{AreWords, Piece, markup, page_text};
ghost use Rattle.rls_check.specs.Keeping.{AreKept, KeepsPut, NamesKey, lines_read};
ghost use Rattle.rls_audit.specs.FirstKeys.{KeysAreFirst};
ghost use Rattle.rls_check.specs.Wholes.{AreConverted, AreSomeAudit, BeginAudit, HasConverted, HasRead, IsAuditOf};
ghost use Rattle.rls_check.specs.declared.audit.Audit.{Audit};
ghost use Rattle.rls_check.specs.declared.audit.Reader.{Reader};
ghost use Rattle.rls_check.specs.declared.converting.Converter.{Converter};
ghost use Rattle.rls_check.specs.declared.finding.Finding.{Finding};
ghost use Rattle.rls_check.specs.declared.transaction.Put.TheVariants as put;
ghost use Rattle.rls_check.specs.declared.transaction.Transaction.{Transaction};

use html_text::texts_open_nothing;

/// Where an audit that was read holds, of records that an audit can show, the lines show just what was found to hold: none of
/// them has a table whose key names no column, since of such a table no key is kept that has its columns.
pub fn lines_are_shown()
    ensures lines { (read : List Shown) (transactions : List Transaction) (order : List ℕ) (holds : AuditHolds (lines_of transactions order)) → AreKept 1 read transactions → All (λ it. All CanShow it.effects) holds.records → AllZip ShowsLine (lines_read read order) (lines_of transactions order) }
    ensures texts { (texts : List (List ℕ)) (audit : Audit) (holds : AuditHolds (lines_of audit.transactions audit.order)) → IsAuditOf texts audit → All (λ it. All CanShow it.effects) holds.records → (second : Bool) × AllZip (Means second) texts (lines_of audit.transactions audit.order) }
    ensures key { (name : List ℕ) (shape : TableShape) (def : TableDef) → KeepsPut (changed.Table name shape) (put.Table name def) → HasKey def → NamesKey shape }
{}

/// Lines tell one audit. What is written of them in the second format tells the same one, of which one thing is found first.
pub fn conversions_are_same()
    ensures one { (texts : List (List ℕ)) (one other : Audit) → IsAuditOf texts one → IsAuditOf texts other → one ≡ other }
    ensures converted { (texts written : List (List ℕ)) (one other : Audit) → AreConverted texts written → IsAuditOf texts one → IsAuditOf written other → one ≡ other }
    ensures found { (transactions : List Transaction) (order : List ℕ) (one other : Finding) → IsFirst transactions order one → IsFirst transactions order other → one ≡ other }
{}

/// Where texts mean lines that hold, and the columns of keys are the first of their names, the audit that is read of the texts has
/// just these lines. Texts in UTF-8 that mean such lines are an audit, where the numbers of the transactions are above 0.
pub fn meant_lines_are_read()
    ensures lines { (texts : List (List ℕ)) (audit : Audit) (second : Bool) (lines : List shown.Line) (holds : AuditHolds lines) → IsAuditOf texts audit → AllZip (Means second) texts lines → All KeysAreFirst holds.records → lines_of audit.transactions audit.order ≡ lines }
    ensures texts { (second : Bool) (texts : List (List ℕ)) (lines : List shown.Line) (holds : AuditHolds lines) → All IsUtf8 texts → AllZip (Means second) texts lines → All (λ it. 0 < it.txn) holds.records → AreSomeAudit texts }
{}

/// Some audit begins with the texts that were read, or converted: no line is taken that has no place in any.
pub fn read_texts_begin_audits()
    ensures read { (texts : List (List ℕ)) (reader : Reader) → HasRead texts reader → BeginAudit texts }
    ensures converted { (texts written : List (List ℕ)) (converter : Converter) → HasConverted texts written converter → BeginAudit texts }
{}

/// What opens or ends a tag or an attribute of a page is of its markup alone: no byte of a text from an audit or a command line is. So
/// pages that differ in numbers and texts alone have the same tags and attributes.
pub fn pages_have_their_own_marks()
    ensures { (pieces : List Piece) → AreWords pieces → marks_of (page_text pieces) ≡ marks_of (markup pieces) }
{
    texts_open_nothing()
}
