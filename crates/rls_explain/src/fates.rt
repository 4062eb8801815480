//! What comes of the rows that a command scans.

ghost use Rattle.std.specs.Prelude.{◌≡◌, ◌++◌, ◌∷◌, [], IfOk, OnOk, Some, None};
ghost use Rattle.std.specs.List.{flat_map};
ghost use Rattle.rls_value.specs.Values.{truth_in};
ghost use Rattle.rls_meaning.specs.rls_guard.specs.rls_catalog.specs.Verdict.{is_same_kind};
ghost use Rattle.rls_meaning.specs.rls_guard.specs.rls_evaluation.specs.{Environments.over, Showing.shows};
ghost use Rattle.rls_explain.specs.Found.{explained_checks, value_found};
ghost use Rattle.rls_explain.specs.FoundOutcomes as finding;
ghost use Rattle.rls_explain.specs.Outcomes as spec;

use crate::explanation::Explained;
use crate::judging::{put_row, truth_on};
use crate::outcome::{Fate, Met, Reason, RowOutcome, RowWord};
use rls_expr::Expr;
use rls_judging::CheckContext;
use rls_meaning::rls_guard::Decision;
use rls_meaning::rls_guard::rls_catalog::{BorrowedRow, Catalog};
use rls_meaning::rls_guard::rls_evaluation::allows;
use rls_value::{Kind, Name, Row, RowId, Truth};
use std::alloc::{AllocError, Global};

/// Tells of each row that is scanned, behind what is told; of one that is met, this.
pub fn put_scanned<'a, 'c>(
    alloc: Global,
    catalog: &'c Catalog,
    context: CheckContext<'a, 'c>,
    table: &Name,
    condition: &Option<Expr>,
    met: Met,
    rows: &[BorrowedRow<'c>],
    outcomes: &mut Vec<RowOutcome>,
) -> Result<(), AllocError>
    ensures { OnOk result (outcomes.new.items ≡ outcomes.old.items ++ finding.scanned_found catalog.now (shows context.entry.relations.now context.entry.role.now) context.entry.role.now context.entry.row_checks.now table.now condition.now (spec.met_as table.now met) rows.now) }
{
    for stored in rows {
        let fate = fate_of(alloc, catalog, context, condition, stored)?;
        put_fate(alloc, table, fate, met, stored, outcomes)?;
    }
    Ok(())
}

/// Tells of one of them.
fn put_fate<'c>(
    alloc: Global,
    table: &Name,
    fate: Fate,
    met: Met,
    stored: &BorrowedRow<'c>,
    outcomes: &mut Vec<RowOutcome>,
) -> Result<(), AllocError>
    ensures { OnOk result (outcomes.new.items ≡ outcomes.old.items ++ spec.scanned_as table.now fate stored.now (spec.met_as table.now met stored.now)) }
{
    match fate {
        Fate::Met => put_met(alloc, table, met, stored.id(), stored.row(), outcomes),
        Fate::Denied(reason) => put_denied(alloc, table, reason, stored, outcomes),
        Fate::Unmet(truth) => put_skipped(alloc, table, truth, stored, outcomes),
    }
}

/// Tells of a row that policies deny.
pub fn put_denied<'c>(
    alloc: Global,
    table: &Name,
    reason: Reason,
    stored: &BorrowedRow<'c>,
    outcomes: &mut Vec<RowOutcome>,
) -> Result<(), AllocError>
    ensures { OnOk result (outcomes.new.items ≡ outcomes.old.items ++ spec.told (spec.denied_word reason) table.now stored.now (Some reason) ∷ []) }
{
    let word = denied_word(&reason);
    put_told(
        alloc,
        word,
        table,
        stored.id(),
        stored.row(),
        Some(reason),
        outcomes,
    )
}

/// Tells of a row of which WHERE isn't true.
pub fn put_skipped<'c>(
    alloc: Global,
    table: &Name,
    truth: Truth,
    stored: &BorrowedRow<'c>,
    outcomes: &mut Vec<RowOutcome>,
) -> Result<(), AllocError>
    ensures { OnOk result (outcomes.new.items ≡ outcomes.old.items ++ spec.told RowWord.Skipped table.now stored.now (Some (Reason.Unmet truth)) ∷ []) }
{
    put_told(
        alloc,
        RowWord::Skipped,
        table,
        stored.id(),
        stored.row(),
        Some(Reason::Unmet(truth)),
        outcomes,
    )
}

/// Tells of a row that is met, and again where RETURNING lists it.
pub fn put_met(
    alloc: Global,
    table: &Name,
    met: Met,
    id: RowId,
    row: &Row,
    outcomes: &mut Vec<RowOutcome>,
) -> Result<(), AllocError>
    ensures { OnOk result (outcomes.new.items ≡ outcomes.old.items ++ finding.met_by table.now met id row.now) }
{
    put_told(alloc, met.word, table, id, row, None, outcomes)?;
    if met.returning {
        put_told(alloc, RowWord::Returned, table, id, row, None, outcomes)
    } else {
        Ok(())
    }
}

/// Tells of a row.
pub fn put_told(
    alloc: Global,
    word: RowWord,
    table: &Name,
    id: RowId,
    row: &Row,
    reason: Option<Reason>,
    outcomes: &mut Vec<RowOutcome>,
) -> Result<(), AllocError>
    ensures { OnOk result (outcomes.new.items ≡ outcomes.old.items ++ finding.told_by word table.now id row.now reason ∷ []) }
{
    let outcome = told(alloc, word, table, id, row, reason)?;
    outcomes.push(outcome)?;
    Ok(())
}

fn told(
    alloc: Global,
    word: RowWord,
    table: &Name,
    id: RowId,
    row: &Row,
    reason: Option<Reason>,
) -> Result<RowOutcome, AllocError>
    ensures { IfOk result (λ outcome. outcome ≡ finding.told_by word table.now id row.now reason) }
{
    match names_and_values(alloc, table, row) {
        Ok((table, row)) => Ok(RowOutcome {
            word,
            table,
            id,
            row,
            new: None,
            reason,
        }),
        Err(refused) => {
            drop(reason);
            Err(refused)
        }
    }
}

fn names_and_values(alloc: Global, table: &Name, row: &Row) -> Result<(Name, Row), AllocError>
    ensures table { IfOk result (λ both. both.0 ≡ table.now) }
    ensures row { IfOk result (λ both. both.1 ≡ row.now) }
{
    let table = table.copy()?;
    match row.copy(alloc) {
        Ok(row) => Ok((table, row)),
        Err(refused) => {
            drop(table);
            Err(refused)
        }
    }
}

/// Policies for SELECT hide a row, others bar it.
fn denied_word(reason: &Reason) -> RowWord
    ensures { result ≡ spec.denied_word reason.now }
{
    match reason {
        Reason::Denied(Kind::Select, _) => RowWord::Hidden,
        Reason::Denied(Kind::Insert | Kind::Update | Kind::Delete, _) | Reason::Unmet(_) => {
            RowWord::Barred
        }
    }
}

/// What comes of the row.
pub fn fate_of<'a, 'c>(
    alloc: Global,
    catalog: &'c Catalog,
    context: CheckContext<'a, 'c>,
    condition: &Option<Expr>,
    stored: &BorrowedRow<'c>,
) -> Result<Fate, AllocError>
    ensures { IfOk result (λ fate. fate ≡ finding.fate_found catalog.now (shows context.entry.relations.now context.entry.role.now) context.entry.role.now context.entry.row_checks.now condition.now stored.now) }
{
    let row = stored.row();
    match hiding_of(alloc, catalog, context, stored.id(), row)? {
        Some(reason) => Ok(Fate::Denied(reason)),
        None => fate_where(alloc, catalog, context, condition, row),
    }
}

/// That of a row that no policy denies.
fn fate_where<'a, 'c>(
    alloc: Global,
    catalog: &'c Catalog,
    context: CheckContext<'a, 'c>,
    condition: &Option<Expr>,
    row: &Row,
) -> Result<Fate, AllocError>
    ensures { IfOk result (λ fate. fate ≡ spec.fate_by None (finding.where_found catalog.now (shows context.entry.relations.now context.entry.role.now) context.entry.role.now condition.now row.now)) }
{
    match condition {
        None => Ok(Fate::Met),
        Some(condition) => {
            let truth = truth_on(
                alloc,
                catalog,
                &*context.relations,
                &*context.role,
                row,
                condition,
            )?;
            Ok(fate_by(truth))
        }
    }
}

fn fate_by(truth: Truth) -> Fate
    ensures { result ≡ spec.fate_by None truth }
{
    match truth {
        Truth::True => Fate::Met,
        Truth::False | Truth::Unknown => Fate::Unmet(truth),
    }
}

/// What denies the row as it stands.
fn hiding_of<'a, 'c>(
    alloc: Global,
    catalog: &'c Catalog,
    context: CheckContext<'a, 'c>,
    id: RowId,
    row: &Row,
) -> Result<Option<Reason>, AllocError>
    ensures { IfOk result (λ reason. reason ≡ spec.hiding_of (explained_checks catalog.now (shows context.entry.relations.now context.entry.role.now) context.entry.role.now context.entry.row_checks.now id row.now)) }
{
    let mut decided = Vec::new(alloc);
    put_row(alloc, catalog, context, id, row, &mut decided)?;
    let hiding = hiding_among(decided.as_slice());
    drop(decided);
    hiding
}

/// What denies a new row.
pub fn denial_on<'a, 'c>(
    alloc: Global,
    catalog: &'c Catalog,
    context: CheckContext<'a, 'c>,
    id: RowId,
    row: &Row,
) -> Result<Option<Reason>, AllocError>
    ensures { IfOk result (λ reason. reason ≡ spec.denial_of (explained_checks catalog.now (shows context.entry.relations.now context.entry.role.now) context.entry.role.now context.entry.row_checks.now id row.now)) }
{
    let mut decided = Vec::new(alloc);
    put_row(alloc, catalog, context, id, row, &mut decided)?;
    let denial = denial_among(decided.as_slice());
    drop(decided);
    denial
}

fn hiding_among(decided: &[Explained]) -> Result<Option<Reason>, AllocError>
    ensures { IfOk result (λ reason. reason ≡ spec.hiding_of decided.now) }
{
    match denial_for_select(decided)? {
        Some(reason) => Ok(Some(reason)),
        None => denial_among(decided),
    }
}

/// The first that denies.
fn denial_among(decided: &[Explained]) -> Result<Option<Reason>, AllocError>
    ensures { IfOk result (λ reason. reason ≡ spec.denial_of decided.now) }
{
    for one in decided {
        if !allows(&one.decision.verdict) {
            return denied_by(&one.decision);
        }
    }
    Ok(None)
}

/// The first for SELECT that denies.
fn denial_for_select(decided: &[Explained]) -> Result<Option<Reason>, AllocError>
    ensures { IfOk result (λ reason. reason ≡ spec.denial_of (spec.for_select decided.now)) }
{
    for one in decided {
        if is_for_select(one.decision.kind) && !allows(&one.decision.verdict) {
            return denied_by(&one.decision);
        }
    }
    Ok(None)
}

fn is_for_select(kind: Kind) -> bool
    ensures { result ≡ is_same_kind kind Kind.Select }
{
    match kind {
        Kind::Select => true,
        Kind::Insert | Kind::Update | Kind::Delete => false,
    }
}

fn denied_by(decision: &Decision) -> Result<Option<Reason>, AllocError>
    ensures { IfOk result (λ reason. reason ≡ Some (Reason.Denied decision.now.kind decision.now.verdict)) }
{
    match decision.verdict.copy() {
        Ok(verdict) => Ok(Some(Reason::Denied(decision.kind, verdict))),
        Err(refused) => Err(refused),
    }
}
