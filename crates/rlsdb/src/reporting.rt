//! The command that writes a report of an audit: a page in HTML.

ghost use Rattle.std.specs.Prelude.{◌≡◌, ◌++◌, [], ℕ, List, IfOk, OnOk};
ghost use Rattle.rls_check.specs.Pages.{behind_turn, found_of, head_of, rest_of, statements_of, turn_of};
ghost use Rattle.rls_check.specs.Pieces.{page_text};
ghost use Rattle.rls_check.specs.Walking.{IsMeant, left};
ghost use Rattle.rls_session.specs.rls_script.specs.Streams.{GrewBy};
ghost use Rattle.rlsdb.specs.Answers.{filter_of as spec_filter_of, is_whole as spec_is_whole};
ghost use Rattle.rlsdb.specs.AuditLines.{Reads};
ghost use Rattle.rlsdb.specs.Reporting.{IsReportOf, IsReported};

use crate::audit_file::AuditIn;
use crate::audits::{audit_in, read_audit, told};
use crate::fault::Fault;
use crate::out_file::OutFile;
use crate::progress::ProgressLine;
use crate::same_file::{require_apart, require_own};
use crate::shown::{filter_of, is_whole, tell};
use rls_check::{Audit, Ending, Page, PageAsked, Progress, ShownFilter, Turn, Walk};
use rls_command_line::Reported;
use rls_session::rls_script::{Failed, RunFault, ScriptIn, ScriptOut, write_all};
use std::alloc::Global;

// A page has at most so many bytes.
const MOST_BYTES: usize = 20_000_000;

/// Writes a report of the audit into the file, and says whether all statements came to what the audit shows. Standard error is told
/// what didn't.
#[tactic(auto, using(crate::proofs::ReportLemmas::filed))]
pub fn report<'a>(rt: &HostRuntime, asked: Reported<'a>) -> Result<bool, Fault<'a>>
    ensures { IfOk result (λ whole. (texts : List (List ℕ)) × (taken : List ℕ) × (ending : Ending) × IsReportOf asked.entry.audit.now (spec_filter_of asked.entry.wanted) asked.entry.most texts taken ending × (whole ≡ spec_is_whole ending)) }
{
    let Reported {
        audit,
        out,
        wanted,
        most,
    } = asked;
    let filter = filter_of(wanted);
    let ending = file_from(rt, audit, out, &filter, most as usize);
    drop(filter);
    let ending = ending?;
    tell(rt, audit, ending);
    Ok(is_whole(ending))
}

/// The same, and how it ends.
#[tactic(auto, using(crate::proofs::ReportLemmas::some_filed))]
fn file_from<'a>(
    rt: &HostRuntime,
    name: &'a str,
    out: &'a str,
    wanted: &ShownFilter,
    most: usize,
) -> Result<Ending, Fault<'a>>
    ensures { IfOk result (λ ending. (texts : List (List ℕ)) × (taken : List ℕ) × IsReportOf name.entry.now wanted.now most texts taken ending) }
{
    require_own(rt, name, "AUDIT", out)?;
    let mut input = audit_in(rt, name)?;
    let mut progress = ProgressLine::new(rt);
    let filed = file_report(rt, name, &mut input, out, wanted, most, &mut progress);
    progress.wipe();
    match filed {
        Ok(ending) => Ok(ending),
        Err(fault) => Err(told(fault, name, &input)),
    }
}

/// Of the audit that is read.
#[tactic(auto, using(crate::proofs::ReportLemmas::filed_of))]
fn file_report<'a, I: ScriptIn + Drop>(
    rt: &HostRuntime,
    name: &'a str,
    input: &mut AuditIn<I>,
    out: &'a str,
    wanted: &ShownFilter,
    most: usize,
    progress: &mut ProgressLine<'_>,
) -> Result<Ending, Fault<'a>>
    ensures { IfOk result (λ ending. Reads (I.given input.old.input) (I.given input.new.input) (λ texts. (taken : List ℕ) × IsReportOf name.entry.now wanted.now most texts taken ending)) }
{
    let audit = read_audit(rt.alloc(), name, input)?;
    let asked = PageAsked { name, wanted, most };
    let ending = file_audit(rt, &audit, asked, out, progress);
    drop(audit);
    Ok(ending?)
}

/// Of the audit. What it is written to takes the place of the file once all of it is there.
#[tactic(auto, using(crate::proofs::ReportLemmas::taken_all))]
fn file_audit<'a>(
    rt: &HostRuntime,
    audit: &Audit,
    asked: PageAsked<'_>,
    out: &'a str,
    progress: &mut ProgressLine<'_>,
) -> Result<Ending, Fault<'a>>
    ensures { IfOk result (λ ending. (taken : List ℕ) × IsReported asked.entry.name.now asked.entry.wanted.now asked.entry.most audit.now.transactions audit.now.order taken ending) }
{
    let mut file = OutFile::open(rt, out)?;
    match write_audit(rt.alloc(), audit, asked, out, progress, &mut file.output) {
        Ok(ending) => {
            keep(rt, file, ending)?;
            Ok(ending)
        }
        Err(fault) => {
            let error = file.output.error();
            file.discard(rt);
            Err(fault.unwritten(out, error))
        }
    }
}

/// Puts the file in its place where a page was written.
fn keep<'a>(rt: &HostRuntime, file: OutFile<'a>, ending: Ending) -> Result<(), Fault<'a>> {
    match ending {
        Ending::Walked(_) => {
            let taken = file.put(rt)?;
            drop(taken);
        }
        Ending::Missing(_) | Ending::NoOrder => file.discard(rt),
    }
    Ok(())
}

/// Writes a report of the audit as an answer.
#[tactic(auto, using(crate::proofs::ReportLemmas::ended))]
pub fn report_out<'a, O: ScriptOut>(
    rt: &HostRuntime,
    asked: Reported<'a>,
    output: &mut O,
) -> Result<bool, Fault<'a>>
    ensures { IfOk result (λ whole. GrewBy (O.taken output.old) (O.taken output.new) (λ written. (texts : List (List ℕ)) × (ending : Ending) × IsReportOf asked.entry.audit.now (spec_filter_of asked.entry.wanted) asked.entry.most texts written ending × (whole ≡ spec_is_whole ending))) }
{
    let Reported {
        audit,
        out,
        wanted,
        most,
    } = asked;
    let filter = filter_of(wanted);
    let ending = write_from(rt, audit, out, &filter, most as usize, output);
    drop(filter);
    let ending = ending?;
    tell(rt, audit, ending);
    Ok(is_whole(ending))
}

/// The same, and how it ends.
#[tactic(auto, using(crate::proofs::AnswerLemmas::of_some))]
fn write_from<'a, O: ScriptOut>(
    rt: &HostRuntime,
    name: &'a str,
    out: &'a str,
    wanted: &ShownFilter,
    most: usize,
    output: &mut O,
) -> Result<Ending, Fault<'a>>
    ensures { IfOk result (λ ending. GrewBy (O.taken output.old) (O.taken output.new) (λ written. (texts : List (List ℕ)) × IsReportOf name.entry.now wanted.now most texts written ending)) }
{
    require_apart(rt, name, "AUDIT")?;
    let mut input = audit_in(rt, name)?;
    let mut progress = ProgressLine::beside_answers(rt);
    let alloc = rt.alloc();
    let written = write_report(
        alloc,
        name,
        &mut input,
        out,
        wanted,
        most,
        &mut progress,
        output,
    );
    progress.wipe();
    match written {
        Ok(ending) => Ok(ending),
        Err(fault) => Err(told(fault, name, &input)),
    }
}

/// Of the audit that is read.
#[tactic(auto, using(crate::proofs::ReportLemmas::reported))]
fn write_report<'a, I: ScriptIn + Drop, O: ScriptOut>(
    alloc: Global,
    name: &'a str,
    input: &mut AuditIn<I>,
    out: &'a str,
    wanted: &ShownFilter,
    most: usize,
    progress: &mut ProgressLine<'_>,
    output: &mut O,
) -> Result<Ending, Fault<'a>>
    ensures { IfOk result (λ ending. Reads (I.given input.old.input) (I.given input.new.input) (λ texts. GrewBy (O.taken output.old) (O.taken output.new) (λ written. IsReportOf name.entry.now wanted.now most texts written ending))) }
{
    let audit = read_audit(alloc, name, input)?;
    let asked = PageAsked { name, wanted, most };
    let ending = write_audit(alloc, &audit, asked, out, progress, output);
    drop(audit);
    Ok(ending?)
}

// ---- the page

/// Writes the page of the audit; nothing where its order isn't one, or a transaction that is asked for isn't there.
fn write_audit<'a, O: ScriptOut>(
    alloc: Global,
    audit: &Audit,
    asked: PageAsked<'_>,
    out: &'a str,
    progress: &mut ProgressLine<'_>,
    output: &mut O,
) -> Result<Ending, Fault<'a>>
    ensures { IfOk result (λ ending. GrewBy (O.taken output.old) (O.taken output.new) (λ written. IsReported asked.entry.name.now asked.entry.wanted.now asked.entry.most audit.now.transactions audit.now.order written ending)) }
{
    let transactions = audit.order().len();
    progress.begin("counted", transactions);
    let Some(mut page) = audit.page(alloc, asked, progress)? else {
        return Ok(Ending::NoOrder);
    };
    match audit.missing(asked.wanted.txns.as_slice()) {
        Some(txn) => Ok(Ending::Missing(txn)),
        None => {
            progress.begin("written", transactions);
            write_page(alloc, &mut page, out, progress, output)?;
            Ok(Ending::Walked(page.differs()))
        }
    }
}

/// Writes the page, piece by piece.
fn write_page<'a, 'b, O: ScriptOut>(
    alloc: Global,
    page: &mut Page<'b>,
    out: &'a str,
    progress: &mut ProgressLine<'_>,
    output: &mut O,
) -> Result<(), Fault<'a>>
    ensures text { OnOk result (O.taken output.new ≡ O.taken output.old ++ page_text (head_of page.old ++ rest_of page.old (statements_of page.old))) }
    ensures found { found_of page.new ≡ found_of page.old }
{
    let mut room = MOST_BYTES;
    write_head(alloc, &*page, &mut room, out, output)?;
    let mut walk = page.walk(alloc)?;
    let written = write_turns(alloc, page, &mut walk, &mut room, out, progress, output);
    drop(walk);
    written?;
    write_foot(alloc, &*page, &mut room, out, output)?;
    Ok(())
}

/// What stands above the statements.
fn write_head<'a, 'b, O: ScriptOut>(
    alloc: Global,
    page: &Page<'b>,
    room: &mut usize,
    out: &'a str,
    output: &mut O,
) -> Result<(), Fault<'a>>
    ensures { OnOk result (O.taken output.new ≡ O.taken output.old ++ page_text (head_of page.now)) }
{
    write_piece(page.head(alloc)?, room, out, output)
}

/// What stands below them.
fn write_foot<'a, 'b, O: ScriptOut>(
    alloc: Global,
    page: &Page<'b>,
    room: &mut usize,
    out: &'a str,
    output: &mut O,
) -> Result<(), Fault<'a>>
    ensures { OnOk result (O.taken output.new ≡ O.taken output.old ++ page_text (rest_of page.now [])) }
{
    write_piece(page.foot(alloc)?, room, out, output)
}

/// The statements that are still to come.
#[tactic(auto, using(crate::proofs::ShownLemmas::fewer_left))]
fn write_turns<'a, 'b, 'c, O: ScriptOut>(
    alloc: Global,
    page: &mut Page<'b>,
    walk: &mut Walk<'c>,
    room: &mut usize,
    out: &'a str,
    progress: &mut ProgressLine<'_>,
    output: &mut O,
) -> Result<(), Fault<'a>>
    ensures text { OnOk result (O.taken output.new ++ page_text (rest_of page.new []) ≡ O.taken output.old ++ page_text (rest_of page.old (left walk.old))) }
    ensures found { found_of page.new ≡ found_of page.old }
{
    while let Some(turn) = walk.next(alloc)? {
        progress.done(walk.done());
        write_turn(alloc, page, turn, room, out, output)?;
    }
    Ok(())
}

fn write_turn<'a, 'b, O: ScriptOut>(
    alloc: Global,
    page: &mut Page<'b>,
    turn: Turn,
    room: &mut usize,
    out: &'a str,
    output: &mut O,
) -> Result<(), Fault<'a>>
    requires { IsMeant turn }
    ensures text { OnOk result (O.taken output.new ≡ O.taken output.old ++ page_text (turn_of page.old turn)) }
    ensures page { OnOk result (page.new ≡ behind_turn page.old turn) }
    ensures found { found_of page.new ≡ found_of page.old }
{
    let text = page.turn(alloc, &turn);
    drop(turn);
    write_piece(text?, room, out, output)
}

/// A piece of the page, where there is room for it.
fn write_piece<'a, O: ScriptOut>(
    text: Vec<u8>,
    room: &mut usize,
    out: &'a str,
    output: &mut O,
) -> Result<(), Fault<'a>>
    ensures { OnOk result (O.taken output.new ≡ O.taken output.old ++ text.items) }
{
    let bytes = text.len();
    if bytes > *room {
        return Err(Fault::OverLong(out));
    }
    *room -= bytes;
    match write_all(text.as_slice(), output) {
        Ok(()) => Ok(()),
        Err(Failed) => Err(Fault::Ended(RunFault::Write)),
    }
}
