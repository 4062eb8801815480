//! The graph of an audit: which transaction comes before which, and why.

ghost use Rattle.std.specs.Prelude.{◌≡◌, ◌++◌, ◌<◌, length, map, replicate, IfOk, OnOk};
ghost use Rattle.std.specs.List.{All};
ghost use Rattle.rls_catalog.specs.Changed.{opening};
ghost use Rattle.rls_check.specs.GraphSteps as steps;
ghost use Rattle.rls_check.specs.GraphSteps.{EachBegan, no_work, noted_all, snap_of};
ghost use Rattle.rls_check.specs.Graphs.{IsGraph, IsGraphAlong};
ghost use Rattle.rls_check.specs.ShownAudits.{FirstDiffers};
ghost use Rattle.rls_check.specs.Walking.{standings_along};

use crate::audit::Audit;
use crate::edges::{Before, Conflict, befores_by, conflicts_by};
use crate::finding::Finding;
use crate::graph_form::GraphForm;
use crate::graph_lines::push_lines;
use crate::neighbours::{concurrent, right_behind};
use crate::ordering::places_of;
use crate::pictures::push_picture;
use crate::stored::Stored;
use crate::walking::walk_from;
use crate::works::{Work, no_works, note_all};
use rls_value::Items;
use std::alloc::{AllocError, Global};

/// A graph as it is written, and the first statement that comes to another answer than the audit shows.
#[derive(Drop)]
pub struct Graph {
    pub text: Vec<u8>,
    pub differs: Option<Finding>,
}

/// The edges of a graph, of each kind along the order.
#[derive(Drop)]
struct Edges {
    befores: Vec<Before>,
    conflicts: Items<Conflict>,
}

impl Audit {
    /// The graph of the transactions, all run alone along the order. None where it isn't one.
    ///
    /// It takes the time of the runs and, times a logarithm, that of what was read and changed, of the edges, and, of each two
    /// concurrent transactions, of the fewer of what the one read and what the other changed. So where at most so many transactions
    /// are open at one time, as in a run of scripts 64, it is linear in what was read and changed.
    #[tactic(auto, using(crate::proofs::GraphEdgeLemmas::all_there, crate::proofs::GraphDrawnLemmas::graph_some, crate::proofs::GraphDrawnLemmas::graph_none))]
    pub fn graph(&self, alloc: Global, form: GraphForm) -> Result<Option<Graph>, AllocError>
        ensures { IfOk result (IsGraph form self.now.transactions self.now.order) }
    {
        let transactions = self.transactions.as_slice();
        match places_of(alloc, transactions, self.order.as_slice())? {
            Some(places) => {
                let graph = graph_along(alloc, form, transactions, places.as_slice());
                drop(places);
                Ok(Some(graph?))
            }
            None => Ok(None),
        }
    }
}

/// The same along these places.
fn graph_along(
    alloc: Global,
    form: GraphForm,
    transactions: &[Stored],
    places: &[usize],
) -> Result<Graph, AllocError>
    requires within { All (λ place. place < length transactions.now) places.now }
    requires began { EachBegan transactions.now }
    ensures { IfOk result (IsGraphAlong form transactions.now places.now) }
{
    let mut works = no_works(alloc, transactions.len())?;
    let graph = graph_with(alloc, form, transactions, places, &mut works);
    drop(works);
    graph
}

/// The same, noted here, where nothing is noted yet.
#[tactic(auto, using(crate::proofs::GraphDrawnLemmas::along_is))]
fn graph_with(
    alloc: Global,
    form: GraphForm,
    transactions: &[Stored],
    places: &[usize],
    works: &mut Vec<Work>,
) -> Result<Graph, AllocError>
    requires within { All (λ place. place < length transactions.now) places.now }
    requires began { EachBegan transactions.now }
    requires empty { works.old.items ≡ replicate (length transactions.now) no_work }
    ensures { IfOk result (IsGraphAlong form transactions.now places.now) }
{
    let differs = run_all(alloc, transactions, places, works)?;
    let text = text_of(alloc, form, transactions, places, works.as_slice())?;
    Ok(Graph { text, differs })
}

/// Runs all, and notes what each reads and changes; the first statement that comes to another answer than the audit shows.
#[tactic(auto, using(crate::proofs::GraphWorkLemmas::differs_of_same))]
fn run_all(
    alloc: Global,
    transactions: &[Stored],
    places: &[usize],
    works: &mut Vec<Work>,
) -> Result<Option<Finding>, AllocError>
    ensures works { OnOk result (works.new.items ≡ noted_all works.old.items (standings_along transactions.now opening places.now)) }
    ensures differs { IfOk result (FirstDiffers (standings_along transactions.now opening places.now)) }
{
    let places = places.to_vec(alloc)?;
    let mut walk = walk_from(alloc, transactions, places)?;
    let found = note_all(alloc, &mut walk, works);
    drop(walk);
    found
}

/// The text, once it is known what each read and changed.
fn text_of(
    alloc: Global,
    form: GraphForm,
    transactions: &[Stored],
    places: &[usize],
    works: &[Work],
) -> Result<Vec<u8>, AllocError>
    requires { All (λ place. place < length transactions.now) places.now }
    ensures { IfOk result (λ text. text.items ≡ steps.text_by form transactions.now places.now works.now) }
{
    let edges = edges_of(alloc, transactions, places, works)?;
    let mut text = Vec::new(alloc);
    let pushed = push_text(alloc, form, transactions, places, &edges, &mut text);
    drop(edges);
    pushed?;
    Ok(text)
}

fn push_text(
    alloc: Global,
    form: GraphForm,
    transactions: &[Stored],
    places: &[usize],
    edges: &Edges,
    text: &mut Vec<u8>,
) -> Result<(), AllocError>
    requires { All (λ place. place < length transactions.now) places.now }
    ensures { OnOk result (text.new.items ≡ text.old.items ++ steps.text_with form transactions.now places.now edges.now.befores.items edges.now.conflicts) }
{
    let befores = edges.befores.as_slice();
    let conflicts = edges.conflicts.as_slice();
    match form.picture {
        None => push_lines(alloc, transactions, places, befores, conflicts, text),
        Some(picture) => push_picture(
            alloc,
            picture,
            form.all,
            transactions,
            places,
            befores,
            conflicts,
            text,
        ),
    }
}

fn edges_of(
    alloc: Global,
    transactions: &[Stored],
    places: &[usize],
    works: &[Work],
) -> Result<Edges, AllocError>
    ensures befores { IfOk result (λ edges. edges.befores.items ≡ steps.befores_along (map snap_of transactions.now) places.now) }
    ensures conflicts { IfOk result (λ edges. edges.conflicts ≡ steps.conflicts_along (map snap_of transactions.now) places.now works.now) }
{
    let snaps = snaps_of(alloc, transactions)?;
    let edges = edges_by(alloc, snaps.as_slice(), places, works);
    drop(snaps);
    edges
}

fn edges_by(
    alloc: Global,
    snaps: &[usize],
    places: &[usize],
    works: &[Work],
) -> Result<Edges, AllocError>
    ensures befores { IfOk result (λ edges. edges.befores.items ≡ steps.befores_along snaps.now places.now) }
    ensures conflicts { IfOk result (λ edges. edges.conflicts ≡ steps.conflicts_along snaps.now places.now works.now) }
{
    let befores = befores_along(alloc, snaps, places)?;
    match conflicts_along(alloc, snaps, places, works) {
        Ok(conflicts) => Ok(Edges { befores, conflicts }),
        Err(refused) => {
            drop(befores);
            Err(refused)
        }
    }
}

fn befores_along(
    alloc: Global,
    snaps: &[usize],
    places: &[usize],
) -> Result<Vec<Before>, AllocError>
    ensures { IfOk result (λ edges. edges.items ≡ steps.befores_along snaps.now places.now) }
{
    let sets = right_behind(alloc, snaps, places)?;
    let edges = befores_by(alloc, sets.as_slice(), places);
    drop(sets);
    edges
}

pub(crate) fn conflicts_along(
    alloc: Global,
    snaps: &[usize],
    places: &[usize],
    works: &[Work],
) -> Result<Items<Conflict>, AllocError>
    ensures { IfOk result (λ edges. edges ≡ steps.conflicts_along snaps.now places.now works.now) }
{
    let sets = concurrent(alloc, snaps, places)?;
    let edges = conflicts_by(alloc, works, sets.as_slice(), places);
    drop(sets);
    edges
}

/// How many had committed when each began.
pub(crate) fn snaps_of(alloc: Global, mut transactions: &[Stored]) -> Result<Vec<usize>, AllocError>
    ensures { IfOk result (λ snaps. snaps.items ≡ map snap_of transactions.entry.now) }
{
    let mut snaps = Vec::with_capacity(alloc, transactions.len())?;
    while let [it, rest @ ..] = transactions {
        snaps.push(it.snap() as usize)?;
        transactions = rest;
    }
    Ok(snaps)
}
