//! A graph as a picture.

ghost use Rattle.std.specs.Prelude.{◌≡◌, ◌++◌, ◌∷◌, [], ◌<◌, ◌&&◌, true, false, codes, filter, get_or, length, replicate, set, string_bytes, IfOk, OnOk};
ghost use Rattle.std.specs.List.{All, flat_map};
ghost use Rattle.rls_value.specs.Objects.{object_text};
ghost use Rattle.rls_audit.specs.Printed.{printed_text};
ghost use Rattle.rls_check.specs.Audited.{asked_of, transaction_at as spec_transaction_at};
ghost use Rattle.rls_check.specs.GraphLabels.{label_text};
ghost use Rattle.rls_check.specs.GraphSteps.{drawn_with, is_at};
ghost use Rattle.rls_check.specs.GraphTexts as spec;

use crate::edges::{Before, Conflict};
use crate::graph_form::Picture;
use crate::graph_lines::txn_at;
use crate::labels::label;
use crate::ordering::transaction_at;
use crate::stored::Stored;
use crate::transaction::{Answer, Transaction};
use rls_audit::printed;
use rls_value::Object;
use std::alloc::{AllocError, Global};

// How many characters of a text a label has, and a tooltip.
const LABEL: usize = 60;

const TOOLTIP: usize = 200;

/// What a picture is made of: the transactions, and of each, by its place, whether it is drawn.
#[derive(Drop)]
struct Drawing<'a> {
    picture: Picture,
    transactions: &'a [Stored],
    drawn: Vec<bool>,
}

pub(crate) fn all_drawn(alloc: Global, count: usize, drawn: bool) -> Result<Vec<bool>, AllocError>
    ensures { IfOk result (λ all. all.items ≡ replicate count drawn) }
{
    let mut all = Vec::with_capacity(alloc, count)?;
    for i in 0..count {
        let _place = i;
        all.push(drawn)?;
    }
    Ok(all)
}

/// Those of these edges are drawn.
pub(crate) fn mark(drawn: &mut Vec<bool>, mut conflicts: &[Conflict])
    ensures { drawn.new.items ≡ drawn_with drawn.old.items conflicts.entry.now }
{
    while let [it, rest @ ..] = conflicts {
        draw(drawn, it.reader);
        draw(drawn, it.writer);
        conflicts = rest;
    }
}

fn draw(drawn: &mut Vec<bool>, place: usize)
    ensures { drawn.new.items ≡ set drawn.old.items place true }
{
    if let Some(is) = drawn.get_mut(place) {
        *is = true;
    }
}

/// A picture that has all transactions, or those with a rw-antidependency.
pub(crate) fn push_picture(
    alloc: Global,
    picture: Picture,
    all: bool,
    transactions: &[Stored],
    places: &[usize],
    befores: &[Before],
    conflicts: &[Conflict],
    text: &mut Vec<u8>,
) -> Result<(), AllocError>
    requires { All (λ place. place < length transactions.now) places.now }
    ensures { OnOk result (text.new.items ≡ text.old.items ++ spec.picture_text picture (is_at (drawn_with (replicate (length transactions.now) all) conflicts.now)) transactions.now places.now befores.now conflicts.now) }
{
    let mut drawn = all_drawn(alloc, transactions.len(), all)?;
    mark(&mut drawn, conflicts);
    let drawing = Drawing {
        picture,
        transactions,
        drawn,
    };
    let pushed = drawing.push(alloc, places, befores, conflicts, text);
    drop(drawing);
    pushed
}

impl<'a> Drawing<'a> {
    /// The transactions that are drawn, then which of them stand right before which, then the rw-antidependencies.
    fn push(
        &self,
        alloc: Global,
        places: &[usize],
        befores: &[Before],
        conflicts: &[Conflict],
        text: &mut Vec<u8>,
    ) -> Result<(), AllocError>
        requires { All (λ place. place < length self.now.transactions.now) places.now }
        ensures { OnOk result (text.new.items ≡ text.old.items ++ spec.picture_text self.now.picture (is_at self.now.drawn.items) self.now.transactions.now places.now befores.now conflicts.now) }
    {
        text.extend_from_slice(first_lines(self.picture).as_bytes())?;
        self.push_nodes(alloc, places, text)?;
        self.push_arrows(alloc, befores, text)?;
        self.push_rw_arrows(alloc, conflicts, text)?;
        text.extend_from_slice(last_lines(self.picture).as_bytes())
    }

    fn is_drawn(&self, place: usize) -> bool
        ensures { result ≡ is_at self.now.drawn.items place }
    {
        match self.drawn.get(place) {
            Some(is) => *is,
            None => false,
        }
    }

    fn push_nodes(
        &self,
        alloc: Global,
        places: &[usize],
        text: &mut Vec<u8>,
    ) -> Result<(), AllocError>
        requires { All (λ place. place < length self.now.transactions.now) places.now }
        ensures { OnOk result (text.new.items ≡ text.old.items ++ flat_map (λ place. spec.ended (spec.node_line self.now.picture (spec_transaction_at self.now.transactions.now place))) (filter (is_at self.now.drawn.items) places.now)) }
    {
        for place in places {
            if self.is_drawn(*place) {
                let stored = transaction_at(self.transactions, *place);
                push_node(alloc, self.picture, stored, text)?;
            }
        }
        Ok(())
    }

    fn push_arrows(
        &self,
        alloc: Global,
        mut edges: &[Before],
        text: &mut Vec<u8>,
    ) -> Result<(), AllocError>
        ensures { OnOk result (text.new.items ≡ text.old.items ++ flat_map (λ it. spec.ended (spec.arrow_line self.now.picture self.now.transactions.now it)) (filter (spec.are_drawn (is_at self.now.drawn.items)) edges.entry.now)) }
    {
        while let [edge, rest @ ..] = edges {
            if self.is_drawn(edge.one) && self.is_drawn(edge.other) {
                self.push_arrow(alloc, *edge, text)?;
            }
            edges = rest;
        }
        Ok(())
    }

    fn push_arrow(&self, alloc: Global, edge: Before, text: &mut Vec<u8>) -> Result<(), AllocError>
        ensures { OnOk result (text.new.items ≡ text.old.items ++ spec.ended (spec.arrow_line self.now.picture self.now.transactions.now edge)) }
    {
        let one = txn_at(self.transactions, edge.one);
        let other = txn_at(self.transactions, edge.other);
        let line = arrow_line(alloc, self.picture, one, other)?;
        push_line(text, line.as_str())
    }

    fn push_rw_arrows(
        &self,
        alloc: Global,
        edges: &[Conflict],
        text: &mut Vec<u8>,
    ) -> Result<(), AllocError>
        ensures { OnOk result (text.new.items ≡ text.old.items ++ flat_map (λ it. spec.ended (spec.rw_arrow_line self.now.picture self.now.transactions.now it)) edges.now) }
    {
        for edge in edges {
            self.push_rw_arrow(alloc, edge, text)?;
        }
        Ok(())
    }

    fn push_rw_arrow(
        &self,
        alloc: Global,
        edge: &Conflict,
        text: &mut Vec<u8>,
    ) -> Result<(), AllocError>
        ensures { OnOk result (text.new.items ≡ text.old.items ++ spec.ended (spec.rw_arrow_line self.now.picture self.now.transactions.now edge.now)) }
    {
        let reader = txn_at(self.transactions, edge.reader);
        let writer = txn_at(self.transactions, edge.writer);
        let object = object_label(alloc, self.picture, &edge.object)?;
        let line = rw_arrow_line(alloc, self.picture, reader, writer, object)?;
        push_line(text, line.as_str())
    }
}

fn push_line(text: &mut Vec<u8>, line: &str) -> Result<(), AllocError>
    ensures { OnOk result (text.new.items ≡ text.old.items ++ spec.ended line.now) }
{
    text.extend_from_slice(line.as_bytes())?;
    text.push(b'\n')?;
    Ok(())
}

/// The object that was read and changed.
fn object_label(alloc: Global, picture: Picture, object: &Object) -> Result<String, AllocError>
    ensures { IfOk result (λ text. string_bytes text ≡ label_text picture 60 (object_text object.now)) }
{
    let text = format!(in alloc; "{object}")?;
    label(alloc, picture, LABEL, text.as_str())
}

fn first_lines(picture: Picture) -> &'static str
    ensures { result.now ≡ spec.first_lines picture }
{
    match picture {
        Picture::Mermaid => "flowchart LR\n",
        Picture::Dot => {
            "digraph audit {\n  rankdir=LR; node [shape=box, fontname=\"monospace\"];\n"
        }
    }
}

fn last_lines(picture: Picture) -> &'static str
    ensures { result.now ≡ spec.last_lines picture }
{
    match picture {
        Picture::Mermaid => "",
        Picture::Dot => "}\n",
    }
}

fn arrow_line(alloc: Global, picture: Picture, one: u64, other: u64) -> Result<String, AllocError>
    ensures { IfOk result (λ line. string_bytes line ≡ spec.arrow_between picture one other) }
{
    match picture {
        Picture::Mermaid => format!(in alloc; "  t{one} --> t{other}"),
        Picture::Dot => format!(in alloc; "  t{one} -> t{other};"),
    }
}

#[tactic(auto, unfolding(crate::specs::GraphTexts::rw_arrow_between))]
fn rw_arrow_line(
    alloc: Global,
    picture: Picture,
    reader: u64,
    writer: u64,
    object: String,
) -> Result<String, AllocError>
    ensures { IfOk result (λ line. string_bytes line ≡ spec.rw_arrow_between picture reader writer (string_bytes object)) }
{
    match picture {
        Picture::Mermaid => format!(in alloc; "  t{reader} -- \"{object}\" --> t{writer}"),
        Picture::Dot => {
            format!(in alloc; "  t{reader} -> t{writer} [color=red, label=\"{object}\"];")
        }
    }
}

fn push_node(
    alloc: Global,
    picture: Picture,
    stored: &Stored,
    text: &mut Vec<u8>,
) -> Result<(), AllocError>
    ensures { OnOk result (text.new.items ≡ text.old.items ++ spec.ended (spec.node_line picture stored.now)) }
{
    let it = stored.read(alloc)?;
    let line = node_line(alloc, picture, &it);
    drop(it);
    let line = line?;
    push_line(text, line.as_str())
}

#[tactic(auto, unfolding(crate::specs::GraphTexts::node_line))]
fn node_line(alloc: Global, picture: Picture, it: &Transaction) -> Result<String, AllocError>
    ensures { IfOk result (λ line. string_bytes line ≡ spec.node_line picture it.now) }
{
    let name = name_label(alloc, picture, it)?;
    let txn = it.txn;
    match picture {
        Picture::Mermaid => mermaid_node_line(alloc, txn, name),
        Picture::Dot => dot_node_line(alloc, txn, name, it.answers.as_slice()),
    }
}

/// Who the transaction is.
fn name_label(alloc: Global, picture: Picture, it: &Transaction) -> Result<String, AllocError>
    ensures { IfOk result (λ text. string_bytes text ≡ label_text picture 60 (spec.name_text it.now)) }
{
    let txn = it.txn;
    let login = &it.begin.login;
    let name = format!(in alloc; "{txn} {login}")?;
    label(alloc, picture, LABEL, name.as_str())
}

fn mermaid_node_line(alloc: Global, txn: u64, name: String) -> Result<String, AllocError>
    ensures { IfOk result (λ line. string_bytes line ≡ spec.mermaid_node_line txn (string_bytes name)) }
{
    format!(in alloc; "  t{txn}[\"{name}\"]")
}

fn dot_node_line(
    alloc: Global,
    txn: u64,
    name: String,
    answers: &[Answer],
) -> Result<String, AllocError>
    ensures { IfOk result (λ line. string_bytes line ≡ spec.dot_node_line txn (string_bytes name) (asked_of answers.now)) }
{
    let tooltip = tooltip(alloc, answers)?;
    format!(in alloc; "  t{txn} [label=\"{name}\", tooltip=\"{tooltip}\"];")
}

/// The statements, one behind another.
fn tooltip(alloc: Global, answers: &[Answer]) -> Result<String, AllocError>
    ensures { IfOk result (λ text. string_bytes text ≡ label_text Picture.Dot 200 (spec.statements_text (asked_of answers.now))) }
{
    let mut text = String::new(alloc);
    push_statements(alloc, answers, &mut text)?;
    label(alloc, Picture::Dot, TOOLTIP, text.as_str())
}

fn push_statements(alloc: Global, answers: &[Answer], text: &mut String) -> Result<(), AllocError>
    ensures { OnOk result (string_bytes text.new ≡ string_bytes text.old ++ spec.statements_text (asked_of answers.now)) }
{
    match answers {
        [] => Ok(()),
        [first, more @ ..] => {
            push_statement(alloc, first, text)?;
            push_further(alloc, more, text)
        }
    }
}

/// Each of the statements behind a semicolon.
fn push_further(alloc: Global, mut answers: &[Answer], text: &mut String) -> Result<(), AllocError>
    ensures { OnOk result (string_bytes text.new ≡ string_bytes text.old ++ spec.further_text (asked_of answers.entry.now)) }
{
    while let [it, rest @ ..] = answers {
        text.push_str("; ")?;
        push_statement(alloc, it, text)?;
        answers = rest;
    }
    Ok(())
}

fn push_statement(alloc: Global, it: &Answer, text: &mut String) -> Result<(), AllocError>
    ensures { OnOk result (string_bytes text.new ≡ string_bytes text.old ++ printed_text it.now.statement) }
{
    let printed = printed(alloc, it.statement.get())?;
    text.push_str(printed.as_str())
}
