//! What stands above and below the statements of a page.

ghost use Rattle.std.specs.Prelude.{◌≡◌, [], ◌∷◌, ◌++◌, OnOk};
ghost use Rattle.rls_check.specs.Findings.{finding_text};
ghost use Rattle.rls_check.specs.Pages as spec;
ghost use Rattle.rls_check.specs.Pieces.{Data, page_text};

use crate::edges::Conflict;
use crate::finding::Finding;
use crate::page_look::Look;
use crate::pieces::{push_data, push_number, push_tag};
use crate::tallies::{Tally, count_in_report, sum_of};
use std::alloc::{AllocError, Global};

const BEGIN: &str =
    "<!doctype html>\n<html lang=\"en\"><head><meta charset=\"utf-8\"><meta name=\"viewport\" content=\"width=device-width,initial-scale=1\"><meta http-equiv=\"Content-Security-Policy\" content=\"";

const HEADING: &str =
    "</style></head><body><a class=\"skip\" href=\"#statements\">To the statements</a><header><h1>";

const ABOUT: &str =
    "</h1><p class=\"dim\">Who saw what, and why: each transaction of this audit, run again alone at its place in the serial order.</p>\n";

const TIMELINE: &str =
    "</header><main><h2 id=\"timeline\">Timeline</h2><p class=\"dim\">From top to bottom the serial order, from left to right the commits. A bar goes from a begin to its commit.</p>\n<ul class=\"key\">";

const KEY_BAR: &str =
    "<li><svg width=\"26\" height=\"10\" aria-hidden=\"true\"><rect class=\"bar\" y=\"1\" width=\"24\" height=\"8\" rx=\"3\"/></svg>begin to commit</li>";

const KEY_MARK: &str =
    "<li><svg width=\"16\" height=\"12\" aria-hidden=\"true\"><path class=\"mark\" d=\"M1 2l2-2 3 3 3-3 2 2-3 3 3 3-2 2-3-3-3 3-2-2 3-3z\"/></svg>a row was denied</li>";

const KEY_ARROW: &str =
    "<li><svg width=\"12\" height=\"14\" aria-hidden=\"true\"><path class=\"rw\" d=\"M5 0v6\"/><path class=\"tip\" d=\"M5 13l-4-8h8z\"/></svg>to the one that changed what the other read</li></ul>\n";

const ROLES: &str =
    "<h2 id=\"statements\">Statements</h2><form class=\"filters\" hidden><label>Role<select name=\"role\"><option value=\"\">all</option></select></label>";

const TABLES: &str =
    "<label>Table<select name=\"table\"><option value=\"\">all</option></select></label><label>Text<input type=\"search\" name=\"q\"></label>";

const BOXES: &str =
    "<label class=\"row\"><input type=\"checkbox\" name=\"denied\"> with denied rows</label><label class=\"row\"><button type=\"button\" name=\"open\" aria-pressed=\"false\">Open all</button></label></form>";

const COUNT: &str = "<p class=\"dim\" id=\"count\" role=\"status\"></p>\n";

const FOOT: &str =
    "</main><footer><p>A transaction that was rolled back, or refused with 40001, is not in an audit. <em>Shown</em>: listed, counted or returned; <em>written</em>: inserted, changed or deleted; <em>denied</em>: hidden, barred or refused. ";

const WORDS: &str =
    "<em>Hidden</em>: the policies for SELECT deny the row; <em>barred</em>: those of the command do; <em>skipped</em>: allowed, but WHERE is not true; <em>matched</em>: it would have been changed, but the statement was refused.</p></footer><script>";

const DIFFERS: &str = "<p class=\"bad\" role=\"alert\">This audit does not hold: ";

/// The name of the file, and how the page looks.
pub(crate) fn push_begin(
    alloc: Global,
    look: Look,
    name: &str,
    page: &mut Vec<u8>,
) -> Result<(), AllocError>
    ensures { OnOk result (page.new.items ≡ page.old.items ++ page_text (spec.begin_pieces look name.now)) }
{
    push_tag(page, BEGIN)?;
    push_tag(page, look.policy)?;
    push_tag(page, "\"><title>")?;
    push_data(alloc, page, name)?;
    push_tag(page, ": who saw what, and why</title><style>")?;
    push_tag(page, look.style)?;
    push_tag(page, HEADING)?;
    push_data(alloc, page, name)?;
    push_tag(page, ABOUT)?;
    Ok(())
}

/// The six counts.
pub(crate) fn push_facts(
    alloc: Global,
    tallies: &[Tally],
    conflicts: &[Conflict],
    page: &mut Vec<u8>,
) -> Result<(), AllocError>
    ensures { OnOk result (page.new.items ≡ page.old.items ++ page_text (spec.facts_pieces tallies.now conflicts.now)) }
{
    let transactions = count_in_report(tallies) as u64;
    push_counts(
        alloc,
        transactions,
        sum_of(tallies),
        conflicts.len() as u64,
        page,
    )
}

fn push_counts(
    alloc: Global,
    transactions: u64,
    sum: Tally,
    conflicts: u64,
    page: &mut Vec<u8>,
) -> Result<(), AllocError>
    ensures { OnOk result (page.new.items ≡ page.old.items ++ page_text (spec.facts_with transactions sum conflicts)) }
{
    push_tag(page, "<dl class=\"facts\">")?;
    push_fact(alloc, "transactions", transactions, page)?;
    push_fact(alloc, "statements", sum.statements, page)?;
    push_fact(alloc, "rows shown", sum.shown, page)?;
    push_fact(alloc, "rows written", sum.written, page)?;
    push_fact(alloc, "rows denied", sum.denied, page)?;
    push_fact(alloc, "rw conflicts", conflicts, page)?;
    push_tag(page, "</dl>\n")?;
    Ok(())
}

fn push_fact(
    alloc: Global,
    what: &'static str,
    count: u64,
    page: &mut Vec<u8>,
) -> Result<(), AllocError>
    ensures { OnOk result (page.new.items ≡ page.old.items ++ page_text (spec.fact_pieces what.now count)) }
{
    push_tag(page, "<div><dt>")?;
    push_tag(page, what)?;
    push_tag(page, "</dt><dd>")?;
    push_number(alloc, page, count)?;
    push_tag(page, "</dd></div>")?;
    Ok(())
}

/// That the audit doesn't hold.
#[tactic(auto, using(crate::proofs::PieceLemmas::page_nothing))]
pub(crate) fn push_finding(
    alloc: Global,
    differs: Option<Finding>,
    page: &mut Vec<u8>,
) -> Result<(), AllocError>
    ensures { OnOk result (page.new.items ≡ page.old.items ++ page_text (spec.finding_pieces differs)) }
{
    match differs {
        Some(finding) => push_found(alloc, finding, page),
        None => Ok(()),
    }
}

fn push_found(alloc: Global, finding: Finding, page: &mut Vec<u8>) -> Result<(), AllocError>
    ensures { OnOk result (page.new.items ≡ page.old.items ++ page_text (spec.found_pieces finding)) }
{
    push_tag(page, DIFFERS)?;
    push_told(alloc, finding, page)?;
    push_tag(page, "</p>\n")?;
    Ok(())
}

fn push_told(alloc: Global, finding: Finding, page: &mut Vec<u8>) -> Result<(), AllocError>
    ensures { OnOk result (page.new.items ≡ page.old.items ++ page_text (Data (finding_text finding) ∷ [])) }
{
    let text = format!(in alloc; "{finding}")?;
    push_data(alloc, page, text.as_str())?;
    Ok(())
}

/// The explanation of the timeline.
pub(crate) fn push_key(page: &mut Vec<u8>) -> Result<(), AllocError>
    ensures { OnOk result (page.new.items ≡ page.old.items ++ page_text spec.key_pieces) }
{
    push_tag(page, TIMELINE)?;
    push_tag(page, KEY_BAR)?;
    push_tag(page, KEY_MARK)?;
    push_tag(page, KEY_ARROW)?;
    Ok(())
}

/// The filters, which the script shows.
pub(crate) fn push_filters(page: &mut Vec<u8>) -> Result<(), AllocError>
    ensures { OnOk result (page.new.items ≡ page.old.items ++ page_text spec.filter_pieces) }
{
    push_tag(page, ROLES)?;
    push_tag(page, TABLES)?;
    push_tag(page, BOXES)?;
    push_tag(page, COUNT)?;
    Ok(())
}

/// What the words mean, and the script.
pub(crate) fn push_foot(look: Look, page: &mut Vec<u8>) -> Result<(), AllocError>
    ensures { OnOk result (page.new.items ≡ page.old.items ++ page_text (spec.foot_pieces look)) }
{
    push_tag(page, FOOT)?;
    push_tag(page, WORDS)?;
    push_tag(page, look.script)?;
    push_tag(page, "</script></body></html>\n")?;
    Ok(())
}
