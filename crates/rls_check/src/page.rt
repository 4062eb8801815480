//! A report: one page in HTML of an audit, written piece by piece.

ghost use Rattle.std.specs.Prelude.{◌≡◌, ◌++◌, ◌<◌, [], length, IfOk, OnErr, OnOk};
ghost use Rattle.std.specs.List.{All};
ghost use Rattle.rls_check.specs.GraphSteps.{EachBegan};
ghost use Rattle.rls_check.specs.PageStatements as statements;
ghost use Rattle.rls_check.specs.PageStatements.{told_turn};
ghost use Rattle.rls_check.specs.Pages as spec;
ghost use Rattle.rls_check.specs.Pieces.{page_text};
ghost use Rattle.rls_check.specs.Walking.{IsMeant, left};

use crate::audit::Audit;
use crate::edges::Conflict;
use crate::filtering::ShownFilter;
use crate::finding::Finding;
use crate::ordering::places_of;
use crate::page_head::{push_begin, push_facts, push_filters, push_finding, push_foot, push_key};
use crate::page_look::{Look, common_look};
use crate::page_statements::{Sections, push_closing};
use crate::plot::push_plot;
use crate::progress::Progress;
use crate::stored::Stored;
use crate::survey::{Survey, survey_along};
use crate::tallies::{Tally, is_in_report};
use crate::walking::{Turn, Walk, walk_from};
use rls_explain::RowOutcome;
use std::alloc::{AllocError, Global};

/// What a report is asked for.
#[derive(Clone, Copy)]
pub struct PageAsked<'a> {
    /// The name of the audit's file.
    pub name: &'a str,
    /// Which statements and rows it has.
    pub wanted: &'a ShownFilter,
    /// So many rows of a table in a statement at most.
    pub most: usize,
}

/// A page as far as it is written.
#[derive(Drop)]
pub struct Page<'a> {
    name: &'a str,
    wanted: &'a ShownFilter,
    most: usize,
    look: Look,
    transactions: &'a [Stored],
    places: Vec<usize>,
    survey: Survey,
    /// The place of the transaction whose section is open.
    section: Option<usize>,
}

impl Audit {
    /// A report of the audit, of which nothing is written yet: all statements were run once, alone along the order, and counted.
    /// None where the order isn't one. Meanwhile it tells how many transactions were counted.
    #[tactic(auto, using(crate::proofs::GraphEdgeLemmas::all_there, crate::proofs::PageLemmas::page_some, crate::proofs::PageLemmas::page_none))]
    pub fn page<'a, P: Progress>(
        &'a self,
        alloc: Global,
        asked: PageAsked<'a>,
        progress: &mut P,
    ) -> Result<Option<Page<'a>>, AllocError>
        ensures { IfOk result (spec.IsPage asked.entry.name.now asked.entry.wanted.now asked.entry.most self.now.transactions self.now.order) }
    {
        let transactions = self.transactions.as_slice();
        match places_of(alloc, transactions, self.order.as_slice())? {
            Some(places) => {
                let page = page_along(alloc, asked, transactions, places, progress);
                Ok(Some(page?))
            }
            None => Ok(None),
        }
    }
}

/// The same along these places.
fn page_along<'a, P: Progress>(
    alloc: Global,
    asked: PageAsked<'a>,
    transactions: &'a [Stored],
    places: Vec<usize>,
    progress: &mut P,
) -> Result<Page<'a>, AllocError>
    requires within { All (λ place. place < length transactions.now) places.items }
    requires began { EachBegan transactions.now }
    ensures { IfOk result (spec.IsBlank asked.entry.name.now asked.entry.wanted.now asked.entry.most transactions.now places.items) }
{
    match survey_along(
        alloc,
        asked.wanted,
        transactions,
        places.as_slice(),
        progress,
    ) {
        Ok(survey) => Ok(Page {
            name: asked.name,
            wanted: asked.wanted,
            most: asked.most,
            look: common_look(),
            transactions,
            places,
            survey,
            section: None,
        }),
        Err(refused) => {
            drop(places);
            Err(refused)
        }
    }
}

impl<'a> Page<'a> {
    /// The statements of the audit, from the first on.
    pub fn walk(&self, alloc: Global) -> Result<Walk<'a>, AllocError>
        ensures { IfOk result (λ walk. left walk ≡ spec.statements_of self.now) }
    {
        let places = self.places.as_slice().to_vec(alloc)?;
        walk_from(alloc, self.transactions, places)
    }

    /// What stands above the statements: the name of the file, counts, and the timeline.
    pub fn head(&self, alloc: Global) -> Result<Vec<u8>, AllocError>
        ensures { IfOk result (λ text. text.items ≡ page_text (spec.head_of self.now)) }
    {
        let mut text = Vec::new(alloc);
        self.push_head(alloc, &mut text)?;
        Ok(text)
    }

    fn push_head(&self, alloc: Global, text: &mut Vec<u8>) -> Result<(), AllocError>
        ensures { OnOk result (text.new.items ≡ text.old.items ++ page_text (spec.head_of self.now)) }
    {
        let tallies = self.survey.tallies.as_slice();
        let conflicts = self.survey.conflicts.as_slice();
        let places = self.places.as_slice();
        self.push_head_with(alloc, tallies, conflicts, places, text)?;
        Ok(())
    }

    fn push_head_with(
        &self,
        alloc: Global,
        tallies: &[Tally],
        conflicts: &[Conflict],
        places: &[usize],
        text: &mut Vec<u8>,
    ) -> Result<(), AllocError>
        ensures { OnOk result (text.new.items ≡ text.old.items ++ page_text (spec.head_pieces self.now.look self.now.name.now self.now.transactions.now tallies.now conflicts.now self.now.survey.differs places.now)) }
    {
        push_begin(alloc, self.look, self.name, text)?;
        push_facts(alloc, tallies, conflicts, text)?;
        push_finding(alloc, self.survey.differs, text)?;
        push_key(text)?;
        push_plot(alloc, self.transactions, tallies, conflicts, places, text)?;
        push_filters(text)?;
        Ok(())
    }

    /// The statement of the next turn, where the report has it, with the begin of its transaction's section where it is the first.
    pub fn turn(&mut self, alloc: Global, turn: &Turn) -> Result<Vec<u8>, AllocError>
        requires { IsMeant turn.now }
        ensures text { IfOk result (λ text. text.items ≡ page_text (spec.turn_of self.old turn.now)) }
        ensures page { OnOk result (self.new ≡ spec.behind_turn self.old turn.now) }
        ensures kept { OnErr result (self.new ≡ self.old) }
        ensures found { spec.found_of self.new ≡ spec.found_of self.old }
    {
        let rows = turn.rows_wanted(alloc, self.wanted)?;
        let written = self.written(alloc, turn, rows.as_slice());
        let section = self.section_behind(turn, rows.as_slice());
        drop(rows);
        let text = written?;
        self.section = section;
        Ok(text)
    }

    /// The same, where it has these rows.
    fn written(
        &self,
        alloc: Global,
        turn: &Turn,
        rows: &[RowOutcome],
    ) -> Result<Vec<u8>, AllocError>
        ensures { IfOk result (λ text. text.items ≡ page_text (spec.turn_with self.now turn.now rows.now)) }
    {
        let mut text = Vec::new(alloc);
        self.push_written(alloc, turn, rows, &mut text)?;
        Ok(text)
    }

    #[tactic(auto, using(crate::proofs::PieceLemmas::page_nothing))]
    fn push_written(
        &self,
        alloc: Global,
        turn: &Turn,
        rows: &[RowOutcome],
        text: &mut Vec<u8>,
    ) -> Result<(), AllocError>
        ensures { OnOk result (text.new.items ≡ text.old.items ++ page_text (spec.turn_with self.now turn.now rows.now)) }
    {
        if is_in_report(self.wanted, &turn.ctx, rows) {
            self.push_turn(alloc, turn, rows, text)
        } else {
            Ok(())
        }
    }

    /// The place of the transaction whose section is open then.
    fn section_behind(&self, turn: &Turn, rows: &[RowOutcome]) -> Option<usize>
        ensures { result ≡ statements.open_behind self.now.wanted.now self.now.section turn.now.place turn.now.ctx rows.now }
    {
        if is_in_report(self.wanted, &turn.ctx, rows) {
            Some(turn.place)
        } else {
            self.section
        }
    }

    fn push_turn(
        &self,
        alloc: Global,
        turn: &Turn,
        rows: &[RowOutcome],
        text: &mut Vec<u8>,
    ) -> Result<(), AllocError>
        ensures { OnOk result (text.new.items ≡ text.old.items ++ page_text (statements.written_pieces self.now.transactions.now self.now.survey.conflicts.items self.now.most self.now.section turn.now.place (told_turn turn.now) rows.now)) }
    {
        let sections = Sections {
            transactions: self.transactions,
            conflicts: self.survey.conflicts.as_slice(),
            most: self.most,
        };
        sections.push_statement(alloc, self.section, turn, rows, text)
    }

    /// What stands below the statements.
    pub fn foot(&self, alloc: Global) -> Result<Vec<u8>, AllocError>
        ensures { IfOk result (λ text. text.items ≡ page_text (spec.rest_of self.now [])) }
    {
        let mut text = Vec::new(alloc);
        self.push_foot(&mut text)?;
        Ok(text)
    }

    fn push_foot(&self, text: &mut Vec<u8>) -> Result<(), AllocError>
        ensures { OnOk result (text.new.items ≡ text.old.items ++ page_text (spec.rest_of self.now [])) }
    {
        push_closing(self.section, text)?;
        push_foot(self.look, text)?;
        Ok(())
    }

    /// The first statement that comes to another answer than the audit shows.
    pub fn differs(&self) -> Option<Finding>
        ensures { result ≡ spec.found_of self.now }
    {
        self.survey.differs
    }
}
