//! The statements of an audit, on a page: each transaction is a section.

ghost use Rattle.std.specs.Prelude.{◌≡◌, [], ◌∷◌, ◌++◌, filter, map, option_map, string_bytes, Some, IfOk, OnOk};
ghost use Rattle.std.specs.List.{flat_map};
ghost use Rattle.rls_value.specs.Objects.{object_text};
ghost use Rattle.rls_statement.specs.Tags.{tag_of};
ghost use Rattle.rls_audit.specs.Printed.{printed_text};
ghost use Rattle.rls_check.specs.PageRows.{tables_text as spec_tables_text};
ghost use Rattle.rls_check.specs.PageStatements as spec;
ghost use Rattle.rls_check.specs.Pieces.{Data, Number, Tag, page_text};
ghost use Rattle.rls_check.specs.ShownTexts.{target_of as spec_target_of};
ghost use Rattle.rls_check.specs.WhyTexts.{came_text as spec_came_text};

use crate::edges::Conflict;
use crate::graph_lines::txn_at;
use crate::page_rows::{RowForm, push_good_chips, push_other_chips, push_rows, tables_text};
use crate::pieces::{push_data, push_name, push_number, push_tag};
use crate::shown_texts::target_of;
use crate::stored::Stored;
use crate::tallies::{count_denied, plus};
use crate::texts::came_text;
use crate::walking::Turn;
use rls_audit::printed;
use rls_audit::rls_access::{Ctx, Effect};
use rls_explain::{Explanation, RowOutcome, Wanted, explain_row};
use rls_value::{Name, Object};
use std::alloc::{AllocError, Global};

const LINE: &str = "<div class=\"h\"><span class=\"sql\">";

const NO_CHIPS: &str = "</span><span class=\"chips\"></span>";

const SUMMARY: &str = "<summary class=\"h\"><span class=\"sql\">";

const CHIPS: &str = "</span><span class=\"chips\">";

const CONFLICT: &str = "<p class=\"rwnote\">stands before <a href=\"#t";

/// What the sections are of.
#[derive(Clone, Copy)]
pub(crate) struct Sections<'x> {
    pub(crate) transactions: &'x [Stored],
    pub(crate) conflicts: &'x [Conflict],
    /// So many rows of a table in a statement at most.
    pub(crate) most: usize,
}

impl<'x> Sections<'x> {
    /// The statement with these rows, in the section of its transaction.
    pub(crate) fn push_statement(
        self,
        alloc: Global,
        section: Option<usize>,
        turn: &Turn,
        rows: &[RowOutcome],
        page: &mut Vec<u8>,
    ) -> Result<(), AllocError>
        ensures { OnOk result (page.new.items ≡ page.old.items ++ page_text (spec.written_pieces self.entry.transactions.now self.entry.conflicts.now self.entry.most section turn.now.place (spec.told_turn turn.now) rows.now)) }
    {
        self.push_opening(alloc, section, turn.place, &turn.ctx, page)?;
        turn.push_statement(alloc, self.most, rows, page)?;
        Ok(())
    }

    /// The begin of the section, where it isn't open.
    #[tactic(auto, using(crate::proofs::PieceLemmas::page_nothing))]
    fn push_opening(
        self,
        alloc: Global,
        section: Option<usize>,
        place: usize,
        ctx: &Ctx,
        page: &mut Vec<u8>,
    ) -> Result<(), AllocError>
        ensures { OnOk result (page.new.items ≡ page.old.items ++ page_text (spec.opening_pieces self.entry.transactions.now self.entry.conflicts.now section place ctx.now)) }
    {
        if is_open(section, place) {
            return Ok(());
        }
        self.push_turning(alloc, section, place, ctx, page)
    }

    fn push_turning(
        self,
        alloc: Global,
        section: Option<usize>,
        place: usize,
        ctx: &Ctx,
        page: &mut Vec<u8>,
    ) -> Result<(), AllocError>
        ensures { OnOk result (page.new.items ≡ page.old.items ++ page_text (spec.turning_pieces self.entry.transactions.now self.entry.conflicts.now section place ctx.now)) }
    {
        push_closing(section, page)?;
        self.push_section(alloc, place, ctx, page)?;
        Ok(())
    }

    fn push_section(
        self,
        alloc: Global,
        place: usize,
        ctx: &Ctx,
        page: &mut Vec<u8>,
    ) -> Result<(), AllocError>
        ensures { OnOk result (page.new.items ≡ page.old.items ++ page_text (spec.section_pieces self.entry.transactions.now self.entry.conflicts.now place ctx.now)) }
    {
        push_tag(page, "<section class=\"t\" id=\"t")?;
        push_number(alloc, page, ctx.txn)?;
        push_tag(page, "\"><h3><span class=\"n\">")?;
        push_number(alloc, page, ctx.txn)?;
        push_tag(page, "</span> ")?;
        push_name(alloc, page, &ctx.login)?;
        push_tag(page, "<small>commit ")?;
        push_commit(alloc, place, page)?;
        push_tag(page, "</small></h3><div class=\"ss\">\n")?;
        self.push_conflicts(alloc, place, page)?;
        Ok(())
    }

    /// What it read and others changed.
    fn push_conflicts(
        self,
        alloc: Global,
        place: usize,
        page: &mut Vec<u8>,
    ) -> Result<(), AllocError>
        ensures { OnOk result (page.new.items ≡ page.old.items ++ page_text (flat_map (spec.conflict_pieces self.entry.transactions.now) (filter (spec.is_read_by place) self.entry.conflicts.now))) }
    {
        self.push_each_conflict(alloc, self.conflicts, place, page)?;
        Ok(())
    }

    fn push_each_conflict(
        self,
        alloc: Global,
        mut conflicts: &[Conflict],
        place: usize,
        page: &mut Vec<u8>,
    ) -> Result<(), AllocError>
        ensures { OnOk result (page.new.items ≡ page.old.items ++ flat_map (λ it. page_text (spec.conflict_pieces self.entry.transactions.now it)) (filter (spec.is_read_by place) conflicts.entry.now)) }
    {
        while let [it, rest @ ..] = conflicts {
            if it.reader == place {
                self.push_conflict(alloc, it, page)?;
            }
            conflicts = rest;
        }
        Ok(())
    }

    fn push_conflict(
        self,
        alloc: Global,
        it: &Conflict,
        page: &mut Vec<u8>,
    ) -> Result<(), AllocError>
        ensures { OnOk result (page.new.items ≡ page.old.items ++ page_text (spec.conflict_pieces self.entry.transactions.now it.now)) }
    {
        push_conflict_with(
            alloc,
            txn_at(self.transactions, it.writer),
            &it.object,
            page,
        )?;
        Ok(())
    }
}

fn push_conflict_with(
    alloc: Global,
    writer: u64,
    object: &Object,
    page: &mut Vec<u8>,
) -> Result<(), AllocError>
    ensures { OnOk result (page.new.items ≡ page.old.items ++ page_text (spec.conflict_with writer object.now)) }
{
    push_tag(page, CONFLICT)?;
    push_number(alloc, page, writer)?;
    push_tag(page, "\">")?;
    push_number(alloc, page, writer)?;
    push_tag(page, "</a>, which changed what it read: ")?;
    push_object(alloc, object, page)?;
    push_tag(page, "</p>\n")?;
    Ok(())
}

fn push_object(alloc: Global, object: &Object, page: &mut Vec<u8>) -> Result<(), AllocError>
    ensures { OnOk result (page.new.items ≡ page.old.items ++ page_text (Data (object_text object.now) ∷ [])) }
{
    let text = format!(in alloc; "{object}")?;
    push_data(alloc, page, text.as_str())?;
    Ok(())
}

fn push_commit(alloc: Global, place: usize, page: &mut Vec<u8>) -> Result<(), AllocError>
    ensures { OnOk result (page.new.items ≡ page.old.items ++ page_text (Number (spec.commit_of place) ∷ [])) }
{
    push_number(alloc, page, commit_of(place))?;
    Ok(())
}

/// The number of the commit at the place.
fn commit_of(place: usize) -> u64
    ensures { result ≡ spec.commit_of place }
{
    plus(place as u64, 1)
}

/// Whether the section of this place is open.
fn is_open(section: Option<usize>, place: usize) -> bool
    ensures { result ≡ spec.is_open section place }
{
    match section {
        Some(other) => other == place,
        None => false,
    }
}

/// The end of the section that is open.
#[tactic(auto, using(crate::proofs::PieceLemmas::page_nothing))]
pub(crate) fn push_closing(section: Option<usize>, page: &mut Vec<u8>) -> Result<(), AllocError>
    ensures { OnOk result (page.new.items ≡ page.old.items ++ page_text (spec.closing_pieces section)) }
{
    match section {
        Some(_place) => push_end(page),
        None => Ok(()),
    }
}

fn push_end(page: &mut Vec<u8>) -> Result<(), AllocError>
    ensures { OnOk result (page.new.items ≡ page.old.items ++ page_text spec.end_pieces) }
{
    push_tag(page, "</div></section>\n")
}

// ---- a statement

impl Turn {
    /// A line without rows; else folded up with them, so many of a table at most.
    fn push_statement(
        &self,
        alloc: Global,
        most: usize,
        rows: &[RowOutcome],
        page: &mut Vec<u8>,
    ) -> Result<(), AllocError>
        ensures { OnOk result (page.new.items ≡ page.old.items ++ page_text (spec.statement_pieces most (spec.told_turn self.now) rows.now)) }
    {
        match rows {
            [] => self.push_plain(alloc, page),
            [_, ..] => self.push_folded(alloc, most, rows, page),
        }
    }

    fn push_plain(&self, alloc: Global, page: &mut Vec<u8>) -> Result<(), AllocError>
        ensures { OnOk result (page.new.items ≡ page.old.items ++ page_text (spec.plain_pieces (spec.told_turn self.now))) }
    {
        push_tag(page, "<div class=\"s plain\" data-role=\"")?;
        self.push_named(alloc, &[], page)?;
        push_tag(page, LINE)?;
        self.push_printed(alloc, page)?;
        push_tag(page, NO_CHIPS)?;
        self.push_came(alloc, page)?;
        push_tag(page, "</div></div>\n")?;
        Ok(())
    }

    fn push_folded(
        &self,
        alloc: Global,
        most: usize,
        rows: &[RowOutcome],
        page: &mut Vec<u8>,
    ) -> Result<(), AllocError>
        ensures { OnOk result (page.new.items ≡ page.old.items ++ page_text (spec.folded_pieces most (spec.told_turn self.now) rows.now)) }
    {
        self.push_summary(alloc, rows, page)?;
        self.push_rows_if(alloc, most, rows, page)?;
        push_tag(page, "</div></details>\n")?;
        Ok(())
    }

    fn push_summary(
        &self,
        alloc: Global,
        rows: &[RowOutcome],
        page: &mut Vec<u8>,
    ) -> Result<(), AllocError>
        ensures { OnOk result (page.new.items ≡ page.old.items ++ page_text (spec.summary_pieces (spec.told_turn self.now) rows.now)) }
    {
        push_tag(page, "<details class=\"s\" data-role=\"")?;
        self.push_named(alloc, rows, page)?;
        push_tag(page, SUMMARY)?;
        self.push_printed(alloc, page)?;
        push_tag(page, CHIPS)?;
        push_good_chips(alloc, rows, page)?;
        push_other_chips(alloc, rows, page)?;
        push_tag(page, "</span>")?;
        self.push_came(alloc, page)?;
        push_tag(page, "</summary><div class=\"in\">\n")?;
        Ok(())
    }

    /// The statement in its one written form.
    fn push_printed(&self, alloc: Global, page: &mut Vec<u8>) -> Result<(), AllocError>
        ensures { OnOk result (page.new.items ≡ page.old.items ++ page_text (Data (printed_text self.now.statement) ∷ [])) }
    {
        let text = printed(alloc, self.statement.get())?;
        push_data(alloc, page, text.as_str())?;
        Ok(())
    }

    /// What the filters of the page ask for: its role, its tables, and whether a row was denied.
    fn push_named(
        &self,
        alloc: Global,
        rows: &[RowOutcome],
        page: &mut Vec<u8>,
    ) -> Result<(), AllocError>
        ensures { OnOk result (page.new.items ≡ page.old.items ++ page_text (spec.named_pieces (spec.told_turn self.now) rows.now)) }
    {
        push_name(alloc, page, &self.ctx.role)?;
        push_tag(page, "\" data-tables=\"")?;
        self.push_tables(alloc, rows, page)?;
        push_denied(rows, page)?;
        Ok(())
    }

    fn push_tables(
        &self,
        alloc: Global,
        rows: &[RowOutcome],
        page: &mut Vec<u8>,
    ) -> Result<(), AllocError>
        ensures { OnOk result (page.new.items ≡ page.old.items ++ page_text (Data (spec_tables_text (spec_target_of self.now.statement) rows.now) ∷ [])) }
    {
        let text = self.tables(alloc, rows)?;
        push_data(alloc, page, text.as_str())?;
        Ok(())
    }

    fn tables(&self, alloc: Global, rows: &[RowOutcome]) -> Result<String, AllocError>
        ensures { IfOk result (λ text. string_bytes text ≡ spec_tables_text (spec_target_of self.now.statement) rows.now) }
    {
        match target_of(self.statement.get()) {
            Some(table) => tables_text(alloc, table, rows),
            None => Ok(String::new(alloc)),
        }
    }

    /// What it came to.
    fn push_came(&self, alloc: Global, page: &mut Vec<u8>) -> Result<(), AllocError>
        ensures { OnOk result (page.new.items ≡ page.old.items ++ page_text (spec.reply_pieces (spec.told_turn self.now))) }
    {
        push_color(&self.outcome.effect, page)?;
        self.push_came_text(alloc, page)?;
        push_tag(page, "</span>")?;
        Ok(())
    }

    fn push_came_text(&self, alloc: Global, page: &mut Vec<u8>) -> Result<(), AllocError>
        ensures { OnOk result (page.new.items ≡ page.old.items ++ page_text (Data (spec_came_text (tag_of self.now.statement) self.now.outcome.effect) ∷ [])) }
    {
        let text = came_text(alloc, self.statement.get().tag(), &self.outcome.effect)?;
        push_data(alloc, page, text.as_str())?;
        Ok(())
    }

    /// Its rows, where it is about rows.
    #[tactic(auto, using(crate::proofs::PieceLemmas::page_nothing))]
    fn push_rows_if(
        &self,
        alloc: Global,
        most: usize,
        rows: &[RowOutcome],
        page: &mut Vec<u8>,
    ) -> Result<(), AllocError>
        ensures { OnOk result (page.new.items ≡ page.old.items ++ page_text (spec.rows_if most (spec.told_turn self.now) (spec_target_of self.now.statement) rows.now)) }
    {
        match target_of(self.statement.get()) {
            Some(table) => self.push_its_rows(alloc, most, table, rows, page),
            None => Ok(()),
        }
    }

    /// Each with its decisions at length.
    fn push_its_rows(
        &self,
        alloc: Global,
        most: usize,
        table: &Name,
        rows: &[RowOutcome],
        page: &mut Vec<u8>,
    ) -> Result<(), AllocError>
        ensures { OnOk result (page.new.items ≡ page.old.items ++ page_text (spec.rows_if most (spec.told_turn self.now) (Some table.now) rows.now)) }
    {
        let explanation = self.explain(alloc)?;
        let form = RowForm {
            most,
            state: &self.before,
            role: &self.ctx.role,
            explained: explanation.row.as_slice(),
        };
        let pushed = push_rows(alloc, form, table, rows, page);
        drop(explanation);
        pushed
    }

    /// All its decisions, at length.
    fn explain(&self, alloc: Global) -> Result<Explanation, AllocError>
        ensures { IfOk result (λ it. it.row ≡ spec.explained_of (spec.told_turn self.now)) }
    {
        let mut source = self.before.view();
        let wanted = Wanted {
            row: None,
            long: true,
        };
        explain_row(
            alloc,
            &mut source,
            &self.ctx,
            self.statement.get(),
            Some(wanted),
        )
    }
}

fn push_denied(rows: &[RowOutcome], page: &mut Vec<u8>) -> Result<(), AllocError>
    ensures { OnOk result (page.new.items ≡ page.old.items ++ page_text (Tag (spec.denied_tag rows.now) ∷ [])) }
{
    push_tag(page, denied_tag(rows))?;
    Ok(())
}

fn push_color(effect: &Effect, page: &mut Vec<u8>) -> Result<(), AllocError>
    ensures { OnOk result (page.new.items ≡ page.old.items ++ page_text (Tag (spec.reply_tag effect.now) ∷ [])) }
{
    push_tag(page, reply_tag(effect))?;
    Ok(())
}

fn denied_tag(rows: &[RowOutcome]) -> &'static str
    ensures { result.now ≡ spec.denied_tag rows.now }
{
    if count_denied(rows) > 0 {
        "\" data-denied=\"1\">"
    } else {
        "\" data-denied=\"0\">"
    }
}

/// Its color.
fn reply_tag(effect: &Effect) -> &'static str
    ensures { result.now ≡ spec.reply_tag effect.now }
{
    match effect {
        Effect::Done(_, _, _, _) => "<span class=\"reply\">",
        Effect::Refused(_, _) => "<span class=\"reply err\">",
    }
}
