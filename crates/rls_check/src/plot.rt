//! The timeline of a page.

ghost use Rattle.std.specs.Prelude.{◌≡◌, [], ◌∷◌, ◌++◌, ◌+◌, ◌-◌, ◌^◌, ◌<◌, ◌≤◌, filter, get_or, length, max, replicate, set, false, IfOk, OnOk};
ghost use Rattle.std.specs.List.{flat_map};
ghost use Rattle.rls_check.specs.Audited.{transaction_at};
ghost use Rattle.rls_check.specs.GraphSteps.{drawn_with, is_at as spec_is_at};
ghost use Rattle.rls_check.specs.Pieces.{Data, Number, page_text};
ghost use Rattle.rls_check.specs.Plots as spec;
ghost use Rattle.rls_check.specs.Tallies.{has_statements, no_tally};

use crate::edges::Conflict;
use crate::pictures::{all_drawn, mark};
use crate::pieces::{push_name, push_number, push_tag};
use crate::stored::Stored;
use crate::tallies::{Tally, count_in_report};
use crate::transaction::Transaction;
use std::alloc::{AllocError, Global};

// So many transactions are drawn whatever they did.
const FEW: usize = 30;

const BAND: &str =
    "em\"><rect class=\"band\" x=\"-166\" y=\"2\" width=\"100%\" height=\"20\"/><rect class=\"bar\" x=\"";

const MARK: &str =
    "em\"><path class=\"mark\" d=\"M3 8l2-2 3 3 3-3 2 2-3 3 3 3-2 2-3-3-3 3-2-2 3-3z\"/></svg>";

const TIP: &str = "em\"><path class=\"tip\" d=\"M9 8l-4-8h8z\"/></svg>\n";

const LEFT_OUT: &str =
    "<p class=\"dim\">Drawn are the transactions during which another one committed, and those with denied rows or a conflict; ";

const SCROLL: &str =
    "<div class=\"scroll\" tabindex=\"0\" role=\"region\" aria-label=\"Timeline\"><svg class=\"plot\" width=\"";

const GROUP: &str = "em\" role=\"group\" aria-label=\"Transactions in serial order\">\n";

/// Where the transactions stand that are drawn.
#[derive(Drop)]
struct Plot<'a> {
    transactions: &'a [Stored],
    tallies: &'a [Tally],
    /// How many are drawn of those in front of each place, and of all.
    columns: Vec<u64>,
    /// The number of the line of each place.
    lines: Vec<u64>,
}

/// The timeline along the places.
pub(crate) fn push_plot(
    alloc: Global,
    transactions: &[Stored],
    tallies: &[Tally],
    conflicts: &[Conflict],
    places: &[usize],
    page: &mut Vec<u8>,
) -> Result<(), AllocError>
    ensures { OnOk result (page.new.items ≡ page.old.items ++ page_text (spec.plot_pieces transactions.now tallies.now conflicts.now places.now)) }
{
    let drawn = drawn_of(alloc, transactions, tallies, conflicts)?;
    let pushed = push_drawn(
        alloc,
        drawn.as_slice(),
        transactions,
        tallies,
        conflicts,
        places,
        page,
    );
    drop(drawn);
    pushed
}

/// With those that are drawn.
fn push_drawn(
    alloc: Global,
    drawn: &[bool],
    transactions: &[Stored],
    tallies: &[Tally],
    conflicts: &[Conflict],
    places: &[usize],
    page: &mut Vec<u8>,
) -> Result<(), AllocError>
    ensures { OnOk result (page.new.items ≡ page.old.items ++ page_text (spec.plot_with drawn.now transactions.now tallies.now conflicts.now (filter (spec_is_at drawn.now) places.now))) }
{
    let places = drawn_places(alloc, drawn, places)?;
    let pushed = push_picture(
        alloc,
        drawn,
        transactions,
        tallies,
        conflicts,
        places.as_slice(),
        page,
    );
    drop(places);
    pushed
}

/// With the places of those that are drawn.
fn push_picture(
    alloc: Global,
    drawn: &[bool],
    transactions: &[Stored],
    tallies: &[Tally],
    conflicts: &[Conflict],
    places: &[usize],
    page: &mut Vec<u8>,
) -> Result<(), AllocError>
    ensures { OnOk result (page.new.items ≡ page.old.items ++ page_text (spec.plot_with drawn.now transactions.now tallies.now conflicts.now places.now)) }
{
    push_others(alloc, tallies, places, page)?;
    push_sized(alloc, places.len() as u64, page)?;
    push_plotted(alloc, drawn, transactions, tallies, conflicts, places, page)?;
    push_tag(page, "</svg></div>\n")?;
    Ok(())
}

/// How many aren't among these places.
fn push_others(
    alloc: Global,
    tallies: &[Tally],
    places: &[usize],
    page: &mut Vec<u8>,
) -> Result<(), AllocError>
    ensures { OnOk result (page.new.items ≡ page.old.items ++ page_text (spec.left_out_pieces (length (filter has_statements tallies.now) - length places.now))) }
{
    let left_out = count_in_report(tallies).saturating_sub(places.len());
    push_left_out(alloc, left_out as u64, page)?;
    Ok(())
}

/// The begin of a picture as wide and high as that.
fn push_sized(alloc: Global, count: u64, page: &mut Vec<u8>) -> Result<(), AllocError>
    ensures { OnOk result (page.new.items ≡ page.old.items ++ page_text (spec.picture_begin count count)) }
{
    push_tag(page, SCROLL)?;
    push_number(alloc, page, count)?;
    push_tag(page, "em\" height=\"")?;
    push_number(alloc, page, count)?;
    push_tag(page, GROUP)?;
    Ok(())
}

/// The bars and the arrows.
fn push_plotted(
    alloc: Global,
    drawn: &[bool],
    transactions: &[Stored],
    tallies: &[Tally],
    conflicts: &[Conflict],
    places: &[usize],
    page: &mut Vec<u8>,
) -> Result<(), AllocError>
    ensures { OnOk result (page.new.items ≡ page.old.items ++ page_text (spec.plotted (spec.columns_from 0 drawn.now) (spec.lines_with (replicate (length transactions.now) 0) 0 places.now) transactions.now tallies.now conflicts.now places.now)) }
{
    let plot = Plot::new(alloc, drawn, transactions, tallies, places)?;
    let pushed = plot.push(alloc, conflicts, places, page);
    drop(plot);
    pushed
}

/// How many aren't drawn.
#[tactic(auto, using(crate::proofs::PieceLemmas::page_nothing))]
fn push_left_out(alloc: Global, count: u64, page: &mut Vec<u8>) -> Result<(), AllocError>
    ensures { OnOk result (page.new.items ≡ page.old.items ++ page_text (spec.left_out_pieces count)) }
{
    if count == 0 {
        return Ok(());
    }
    push_left_out_some(alloc, count, page)
}

fn push_left_out_some(alloc: Global, count: u64, page: &mut Vec<u8>) -> Result<(), AllocError>
    ensures { OnOk result (page.new.items ≡ page.old.items ++ page_text (spec.left_out_some count)) }
{
    push_tag(page, LEFT_OUT)?;
    push_number(alloc, page, count)?;
    push_tag(page, " more are below.</p>\n")?;
    Ok(())
}

// ---- which are drawn

/// Of each transaction whether it is drawn.
fn drawn_of(
    alloc: Global,
    transactions: &[Stored],
    tallies: &[Tally],
    conflicts: &[Conflict],
) -> Result<Vec<bool>, AllocError>
    ensures { IfOk result (λ drawn. drawn.items ≡ spec.drawn_of transactions.now tallies.now conflicts.now) }
{
    let arrows = with_arrows(alloc, transactions.len(), conflicts)?;
    let few = count_in_report(tallies) <= FEW;
    let drawn = drawn_among(alloc, few, arrows.as_slice(), tallies, transactions);
    drop(arrows);
    drawn
}

/// Of each whether it has an arrow.
fn with_arrows(alloc: Global, count: usize, conflicts: &[Conflict]) -> Result<Vec<bool>, AllocError>
    ensures { IfOk result (λ arrows. arrows.items ≡ drawn_with (replicate count false) conflicts.now) }
{
    let mut arrows = all_drawn(alloc, count, false)?;
    mark(&mut arrows, conflicts);
    Ok(arrows)
}

fn drawn_among(
    alloc: Global,
    few: bool,
    arrows: &[bool],
    tallies: &[Tally],
    mut transactions: &[Stored],
) -> Result<Vec<bool>, AllocError>
    ensures { IfOk result (λ drawn. drawn.items ≡ spec.drawn_from few arrows.now tallies.now 0 transactions.entry.now) }
{
    let mut drawn = Vec::new(alloc);
    while let [it, rest @ ..] = transactions {
        let place = drawn.len();
        let tally = tally_at(tallies, place);
        drawn.push(is_drawn_among(few, is_at(arrows, place), place, it, tally))?;
        transactions = rest;
    }
    Ok(drawn)
}

fn is_drawn_among(few: bool, arrow: bool, place: usize, it: &Stored, tally: Tally) -> bool
    ensures { result ≡ spec.is_drawn_among few arrow place it.now tally }
{
    tally.has_statements() && (few || arrow || tally.denied > 0 || it.snap() < place as u64)
}

fn is_at(drawn: &[bool], place: usize) -> bool
    ensures { result ≡ spec_is_at drawn.now place }
{
    match drawn.get(place) {
        Some(it) => *it,
        None => false,
    }
}

pub(crate) fn tally_at(tallies: &[Tally], place: usize) -> Tally
    ensures { result ≡ get_or tallies.now place no_tally }
{
    match tallies.get(place) {
        Some(tally) => *tally,
        None => Tally::nothing(),
    }
}

/// Those of the places that are drawn.
fn drawn_places(
    alloc: Global,
    drawn: &[bool],
    mut places: &[usize],
) -> Result<Vec<usize>, AllocError>
    ensures { IfOk result (λ kept. kept.items ≡ filter (spec_is_at drawn.now) places.entry.now) }
{
    let mut kept = Vec::new(alloc);
    while let [place, rest @ ..] = places {
        if is_at(drawn, *place) {
            kept.push(*place)?;
        }
        places = rest;
    }
    Ok(kept)
}

// ---- where they stand

fn columns_of(alloc: Global, mut drawn: &[bool]) -> Result<Vec<u64>, AllocError>
    ensures { IfOk result (λ columns. columns.items ≡ spec.columns_from 0 drawn.entry.now) }
{
    let mut columns = Vec::new(alloc);
    let mut column = 0;
    while let [it, rest @ ..] = drawn {
        columns.push(column)?;
        column = column_behind(column, *it);
        drawn = rest;
    }
    columns.push(column)?;
    Ok(columns)
}

fn column_behind(column: u64, drawn: bool) -> u64
    requires { column + 1 < 2 ^ 64 }
    ensures column { result ≡ spec.column_behind column drawn }
    ensures bound { result ≤ column + 1 }
{
    if drawn { column + 1 } else { column }
}

fn lines_of(alloc: Global, count: usize, mut places: &[usize]) -> Result<Vec<u64>, AllocError>
    ensures { IfOk result (λ lines. lines.items ≡ spec.lines_with (replicate count 0) 0 places.entry.now) }
{
    let mut lines = zeros(alloc, count)?;
    let mut line = 0;
    while let [place, rest @ ..] = places {
        put_line(&mut lines, *place, line);
        line += 1;
        places = rest;
    }
    Ok(lines)
}

fn put_line(lines: &mut Vec<u64>, place: usize, line: u64)
    ensures { lines.new.items ≡ set lines.old.items place line }
{
    if let Some(it) = lines.get_mut(place) {
        *it = line;
    }
}

fn zeros(alloc: Global, count: usize) -> Result<Vec<u64>, AllocError>
    ensures { IfOk result (λ zeros. zeros.items ≡ replicate count 0) }
{
    let mut zeros = Vec::with_capacity(alloc, count)?;
    for i in 0..count {
        let _place = i;
        zeros.push(0)?;
    }
    Ok(zeros)
}

fn number_at(numbers: &[u64], place: usize) -> u64
    ensures { result ≡ get_or numbers.now place 0 }
{
    match numbers.get(place) {
        Some(number) => *number,
        None => 0,
    }
}

/// The place behind that of a transaction.
fn place_behind(transactions: &[Stored], place: usize) -> usize
    requires { place < length transactions.now }
    ensures { result ≡ place + 1 }
{
    let count = transactions.len();
    if place < count { place + 1 } else { count }
}

fn snap_at(transactions: &[Stored], place: usize) -> u64
    ensures { result ≡ (transaction_at transactions.now place).snap }
{
    match transactions.get(place) {
        Some(stored) => stored.snap(),
        None => 0,
    }
}

impl<'a> Plot<'a> {
    fn new(
        alloc: Global,
        drawn: &[bool],
        transactions: &'a [Stored],
        tallies: &'a [Tally],
        places: &[usize],
    ) -> Result<Plot<'a>, AllocError>
        ensures transactions { IfOk result (λ it. it.transactions.now ≡ transactions.now) }
        ensures tallies { IfOk result (λ it. it.tallies.now ≡ tallies.now) }
        ensures columns { IfOk result (λ it. it.columns.items ≡ spec.columns_from 0 drawn.now) }
        ensures lines { IfOk result (λ it. it.lines.items ≡ spec.lines_with (replicate (length transactions.now) 0) 0 places.now) }
    {
        let columns = columns_of(alloc, drawn)?;
        match lines_of(alloc, transactions.len(), places) {
            Ok(lines) => Ok(Plot {
                transactions,
                tallies,
                columns,
                lines,
            }),
            Err(refused) => {
                drop(columns);
                Err(refused)
            }
        }
    }

    /// The bars of the places, then the arrows.
    fn push(
        &self,
        alloc: Global,
        conflicts: &[Conflict],
        places: &[usize],
        page: &mut Vec<u8>,
    ) -> Result<(), AllocError>
        ensures { OnOk result (page.new.items ≡ page.old.items ++ page_text (spec.plotted self.now.columns.items self.now.lines.items self.now.transactions.now self.now.tallies.now conflicts.now places.now)) }
    {
        self.push_bars(alloc, places, page)?;
        self.push_arrows(alloc, conflicts, page)?;
        Ok(())
    }

    fn push_bars(
        &self,
        alloc: Global,
        places: &[usize],
        page: &mut Vec<u8>,
    ) -> Result<(), AllocError>
        ensures { OnOk result (page.new.items ≡ page.old.items ++ page_text (flat_map (spec.bar_at self.now.columns.items self.now.lines.items self.now.transactions.now self.now.tallies.now) places.now)) }
    {
        self.push_each_bar(alloc, places, page)?;
        Ok(())
    }

    fn push_each_bar(
        &self,
        alloc: Global,
        mut places: &[usize],
        page: &mut Vec<u8>,
    ) -> Result<(), AllocError>
        ensures { OnOk result (page.new.items ≡ page.old.items ++ flat_map (λ place. page_text (spec.bar_at self.now.columns.items self.now.lines.items self.now.transactions.now self.now.tallies.now place)) places.entry.now) }
    {
        while let [place, rest @ ..] = places {
            self.push_at(alloc, *place, page)?;
            places = rest;
        }
        Ok(())
    }

    fn push_at(&self, alloc: Global, place: usize, page: &mut Vec<u8>) -> Result<(), AllocError>
        ensures { OnOk result (page.new.items ≡ page.old.items ++ page_text (spec.bar_at self.now.columns.items self.now.lines.items self.now.transactions.now self.now.tallies.now place)) }
    {
        match self.transactions.get(place) {
            Some(stored) => {
                let it = stored.read(alloc)?;
                let pushed = self.push_one(alloc, place, &it, page);
                drop(it);
                pushed
            }
            None => Ok(()),
        }
    }

    /// The bar of the transaction at the place.
    fn push_one(
        &self,
        alloc: Global,
        place: usize,
        it: &Transaction,
        page: &mut Vec<u8>,
    ) -> Result<(), AllocError>
        requires { place < length self.now.transactions.now }
        ensures { OnOk result (page.new.items ≡ page.old.items ++ page_text (spec.drawn_pieces self.now.columns.items self.now.lines.items place it.now (get_or self.now.tallies.now place no_tally))) }
    {
        let tally = tally_at(self.tallies, place);
        let line = number_at(self.lines.as_slice(), place);
        let from = number_at(self.columns.as_slice(), it.snap as usize);
        let behind = place_behind(self.transactions, place);
        let to = number_at(self.columns.as_slice(), behind);
        push_drawn_at(alloc, behind as u64, line, from, to, it, tally, page)?;
        Ok(())
    }

    fn push_arrows(
        &self,
        alloc: Global,
        conflicts: &[Conflict],
        page: &mut Vec<u8>,
    ) -> Result<(), AllocError>
        ensures { OnOk result (page.new.items ≡ page.old.items ++ page_text (flat_map (spec.arrow_pieces self.now.columns.items self.now.lines.items self.now.transactions.now) conflicts.now)) }
    {
        self.push_each_arrow(alloc, conflicts, page)?;
        Ok(())
    }

    fn push_each_arrow(
        &self,
        alloc: Global,
        mut conflicts: &[Conflict],
        page: &mut Vec<u8>,
    ) -> Result<(), AllocError>
        ensures { OnOk result (page.new.items ≡ page.old.items ++ flat_map (λ it. page_text (spec.arrow_pieces self.now.columns.items self.now.lines.items self.now.transactions.now it)) conflicts.entry.now) }
    {
        while let [it, rest @ ..] = conflicts {
            self.push_arrow(alloc, it, page)?;
            conflicts = rest;
        }
        Ok(())
    }

    #[tactic(auto, unfolding(crate::specs::Plots::arrow_pieces))]
    fn push_arrow(&self, alloc: Global, it: &Conflict, page: &mut Vec<u8>) -> Result<(), AllocError>
        ensures { OnOk result (page.new.items ≡ page.old.items ++ page_text (spec.arrow_pieces self.now.columns.items self.now.lines.items self.now.transactions.now it.now)) }
    {
        let column = greater(self.begin_of(it.reader), self.begin_of(it.writer));
        let from = number_at(self.lines.as_slice(), it.reader);
        let to = number_at(self.lines.as_slice(), it.writer);
        push_arrow_between(alloc, column, from, to, page)
    }

    /// The column in which the transaction at the place began.
    fn begin_of(&self, place: usize) -> u64
        ensures { result ≡ get_or self.now.columns.items (transaction_at self.now.transactions.now place).snap 0 }
    {
        let snap = snap_at(self.transactions, place);
        number_at(self.columns.as_slice(), snap as usize)
    }
}

fn greater(one: u64, other: u64) -> u64
    ensures { result ≡ max one other }
{
    if one < other { other } else { one }
}

// ---- a bar

/// Of the transaction with this commit, on the line between the columns.
fn push_drawn_at(
    alloc: Global,
    commit: u64,
    line: u64,
    from: u64,
    to: u64,
    it: &Transaction,
    tally: Tally,
    page: &mut Vec<u8>,
) -> Result<(), AllocError>
    ensures { OnOk result (page.new.items ≡ page.old.items ++ page_text (spec.drawn_at commit line from to it.now tally)) }
{
    push_link(alloc, commit, it, tally, page)?;
    push_bar(alloc, line, from, to, it, tally, page)?;
    Ok(())
}

/// The link of a transaction with this commit, and what it is called.
fn push_link(
    alloc: Global,
    commit: u64,
    it: &Transaction,
    tally: Tally,
    page: &mut Vec<u8>,
) -> Result<(), AllocError>
    ensures { OnOk result (page.new.items ≡ page.old.items ++ page_text (spec.link_pieces commit it.now tally)) }
{
    push_tag(page, "<a href=\"#t")?;
    push_number(alloc, page, it.txn)?;
    push_tag(page, "\" aria-label=\"Transaction ")?;
    push_number(alloc, page, it.txn)?;
    push_tag(page, " of ")?;
    push_ran(alloc, commit, it, page)?;
    push_label_end(tally, page)?;
    push_tag(page, "\"><title>")?;
    push_number(alloc, page, it.txn)?;
    push_tag(page, " ")?;
    push_ran(alloc, commit, it, page)?;
    push_tag(page, "</title>")?;
    Ok(())
}

/// The login that began it.
fn push_login(alloc: Global, it: &Transaction, page: &mut Vec<u8>) -> Result<(), AllocError>
    ensures { OnOk result (page.new.items ≡ page.old.items ++ page_text (Data it.now.begin.login ∷ [])) }
{
    let login = &it.begin.login;
    push_name(alloc, page, login)?;
    Ok(())
}

/// Who it is, and when it ran.
fn push_ran(
    alloc: Global,
    commit: u64,
    it: &Transaction,
    page: &mut Vec<u8>,
) -> Result<(), AllocError>
    ensures { OnOk result (page.new.items ≡ page.old.items ++ page_text (spec.ran_pieces commit it.now)) }
{
    push_login(alloc, it, page)?;
    push_tag(page, ", began after ")?;
    push_number(alloc, page, it.snap)?;
    push_tag(page, " commits, commit ")?;
    push_number(alloc, page, commit)?;
    Ok(())
}

#[tactic(auto, using(crate::proofs::PieceLemmas::page_nothing))]
fn push_label_end(tally: Tally, page: &mut Vec<u8>) -> Result<(), AllocError>
    ensures { OnOk result (page.new.items ≡ page.old.items ++ page_text (spec.label_end tally)) }
{
    if tally.denied > 0 {
        push_denied_label(page)
    } else {
        Ok(())
    }
}

fn push_denied_label(page: &mut Vec<u8>) -> Result<(), AllocError>
    ensures { OnOk result (page.new.items ≡ page.old.items ++ page_text spec.denied_label) }
{
    push_tag(page, ", with denied rows")
}

/// The bar between the columns, on the line.
fn push_bar(
    alloc: Global,
    line: u64,
    from: u64,
    to: u64,
    it: &Transaction,
    tally: Tally,
    page: &mut Vec<u8>,
) -> Result<(), AllocError>
    ensures { OnOk result (page.new.items ≡ page.old.items ++ page_text (spec.bar_pieces line from to it.now tally)) }
{
    push_tag(page, "<svg y=\"")?;
    push_number(alloc, page, line)?;
    push_tag(page, BAND)?;
    push_number(alloc, page, from)?;
    push_tag(page, "em\" y=\"8\" width=\"")?;
    push_width(alloc, from, to, page)?;
    push_tag(page, "em\" height=\"8\" rx=\"3\"/>")?;
    push_mark(alloc, tally, to, page)?;
    push_tag(page, "<text x=\"-158\" y=\"16\">")?;
    push_number(alloc, page, it.txn)?;
    push_tag(page, " ")?;
    push_login(alloc, it, page)?;
    push_tag(page, "</text></svg></a>\n")?;
    Ok(())
}

fn push_width(alloc: Global, from: u64, to: u64, page: &mut Vec<u8>) -> Result<(), AllocError>
    ensures { OnOk result (page.new.items ≡ page.old.items ++ page_text (Number (to - from) ∷ [])) }
{
    push_number(alloc, page, to.saturating_sub(from))?;
    Ok(())
}

/// That a row was denied.
#[tactic(auto, using(crate::proofs::PieceLemmas::page_nothing))]
fn push_mark(alloc: Global, tally: Tally, column: u64, page: &mut Vec<u8>) -> Result<(), AllocError>
    ensures { OnOk result (page.new.items ≡ page.old.items ++ page_text (spec.mark_pieces tally column)) }
{
    if tally.denied > 0 {
        push_mark_at(alloc, column, page)
    } else {
        Ok(())
    }
}

fn push_mark_at(alloc: Global, column: u64, page: &mut Vec<u8>) -> Result<(), AllocError>
    ensures { OnOk result (page.new.items ≡ page.old.items ++ page_text (spec.mark_at column)) }
{
    push_tag(page, "<svg x=\"")?;
    push_number(alloc, page, column)?;
    push_tag(page, MARK)?;
    Ok(())
}

/// An arrow in the column, from line to line.
fn push_arrow_between(
    alloc: Global,
    column: u64,
    from: u64,
    to: u64,
    page: &mut Vec<u8>,
) -> Result<(), AllocError>
    ensures { OnOk result (page.new.items ≡ page.old.items ++ page_text (spec.arrow_between column from to)) }
{
    push_tag(page, "<line class=\"rw\" x1=\"")?;
    push_number(alloc, page, column)?;
    push_tag(page, "em\" y1=\"")?;
    push_number(alloc, page, from)?;
    push_tag(page, "em\" x2=\"")?;
    push_number(alloc, page, column)?;
    push_tag(page, "em\" y2=\"")?;
    push_number(alloc, page, to)?;
    push_tag(page, "em\" transform=\"translate(9,12)\"/><svg x=\"")?;
    push_number(alloc, page, column)?;
    push_tag(page, "em\" y=\"")?;
    push_number(alloc, page, to)?;
    push_tag(page, TIP)?;
    Ok(())
}
