//! What row security says of rows through a statement's policy expansion.

ghost use Rattle.rls_guard.specs.rls_source.specs.Answering.{Tells};
ghost use Rattle.rls_judging.specs.Handed.{items_now, judged_now};
ghost use Rattle.rls_judging.specs.Judging as spec;

use rls_expansion::PolicyExpansion;
use rls_expr::Expr;
use rls_guard::Decision;
use rls_guard::rls_catalog::{BorrowedRow, Stored};
use rls_guard::rls_source::Asker;
use rls_judging::{CheckContext, judged, qualifying_rows_of};
use rls_value::{Items, Name};
use std::alloc::AllocError;

/// The decisions on the rows that are looked at, and those that qualify. The decisions have room for those on new rows.
pub fn qualifying_rows_under<'a, 'c>(
    asker: &mut Asker<'c>,
    expansion: &'a PolicyExpansion<'c>,
    role: &'a Name,
    condition: &'a Option<Expr>,
    scanned_rows: &'a [BorrowedRow<'c>],
) -> Result<(Vec<Decision>, Vec<&'a BorrowedRow<'c>>), AllocError>
    ensures { Tells (spec.qualifying_rows_of expansion.now.old expansion.now.relations role.now condition.now scanned_rows.now) asker.old asker.new (judged_now result) }
{
    let check_context = CheckContext {
        row_checks: expansion.old.as_slice(),
        relations: expansion.relations.as_slice(),
        role,
    };
    qualifying_rows_of(
        asker,
        check_context,
        condition,
        scanned_rows,
        expansion.new.len(),
    )
}

/// The decisions on new rows.
pub fn judged_under<'a, 'c>(
    asker: &mut Asker<'c>,
    expansion: &'a PolicyExpansion<'c>,
    role: &'a Name,
    rows: &'a Items<Stored>,
) -> Result<Vec<Decision>, AllocError>
    ensures { Tells (spec.decisions_of expansion.now.new expansion.now.relations role.now rows.now) asker.old asker.new (items_now result) }
{
    let check_context = CheckContext {
        row_checks: expansion.new.as_slice(),
        relations: expansion.relations.as_slice(),
        role,
    };
    judged(asker, check_context, rows.as_slice())
}
