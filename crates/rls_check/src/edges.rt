//! The edges of a graph.

ghost use Rattle.std.specs.Prelude.{◌≡◌, ◌++◌, ◌∷◌, [], get_or, map, IfOk, OnOk};
ghost use Rattle.std.specs.List.{flat_map};
ghost use Rattle.rls_check.specs.GraphEdges.{before_edge, conflict_on};
ghost use Rattle.rls_check.specs.GraphSteps as spec;

use crate::works::Work;
use rls_explain::rls_guard::rls_source::Footprint;
use rls_value::{Items, Object};
use std::alloc::{AllocError, Global};

/// The one committed before the other began. Both are places in the order of commits.
#[derive(Clone, Copy)]
pub(crate) struct Before {
    pub(crate) one: usize,
    pub(crate) other: usize,
}

/// The reader read the object, and the writer, concurrent with it, changed it.
#[derive(Drop)]
pub(crate) struct Conflict {
    pub(crate) reader: usize,
    pub(crate) writer: usize,
    pub(crate) object: Object,
}

/// Which stand right before which, along the places.
pub(crate) fn befores_by(
    alloc: Global,
    sets: &[Items<usize>],
    mut places: &[usize],
) -> Result<Vec<Before>, AllocError>
    ensures { IfOk result (λ edges. edges.items ≡ spec.befores_by sets.now places.entry.now) }
{
    let mut edges = Vec::new(alloc);
    while let [one, rest @ ..] = places {
        push_befores(*one, sets, &mut edges)?;
        places = rest;
    }
    Ok(edges)
}

fn push_befores(
    one: usize,
    sets: &[Items<usize>],
    edges: &mut Vec<Before>,
) -> Result<(), AllocError>
    ensures { OnOk result (edges.new.items ≡ edges.old.items ++ map (before_edge one) (get_or sets.now one [])) }
{
    match sets.get(one) {
        Some(set) => push_before_each(one, set.as_slice(), edges),
        None => Ok(()),
    }
}

fn push_before_each(
    one: usize,
    mut others: &[usize],
    edges: &mut Vec<Before>,
) -> Result<(), AllocError>
    ensures { OnOk result (edges.new.items ≡ edges.old.items ++ map (before_edge one) others.entry.now) }
{
    while let [other, rest @ ..] = others {
        edges.push(Before { one, other: *other })?;
        others = rest;
    }
    Ok(())
}

/// The objects that each of the places read and those of its set changed.
pub(crate) fn conflicts_by(
    alloc: Global,
    works: &[Work],
    sets: &[Items<usize>],
    mut places: &[usize],
) -> Result<Items<Conflict>, AllocError>
    ensures { IfOk result (λ edges. edges ≡ spec.conflicts_by works.now sets.now places.entry.now) }
{
    let mut edges = Items::new(alloc);
    while let [one, rest @ ..] = places {
        push_conflicts_of(alloc, works, sets, *one, &mut edges)?;
        places = rest;
    }
    Ok(edges)
}

fn push_conflicts_of(
    alloc: Global,
    works: &[Work],
    sets: &[Items<usize>],
    one: usize,
    edges: &mut Items<Conflict>,
) -> Result<(), AllocError>
    ensures { OnOk result (edges.new ≡ edges.old ++ flat_map (spec.conflicts_between works.now one) (get_or sets.now one [])) }
{
    match sets.get(one) {
        Some(set) => push_conflicts(alloc, works, one, set.as_slice(), edges),
        None => Ok(()),
    }
}

fn push_conflicts(
    alloc: Global,
    works: &[Work],
    one: usize,
    mut others: &[usize],
    edges: &mut Items<Conflict>,
) -> Result<(), AllocError>
    ensures { OnOk result (edges.new ≡ edges.old ++ flat_map (spec.conflicts_between works.now one) others.entry.now) }
{
    while let [other, rest @ ..] = others {
        push_between(alloc, works, one, *other, edges)?;
        others = rest;
    }
    Ok(())
}

/// The objects that the one read and the other changed.
fn push_between(
    alloc: Global,
    works: &[Work],
    one: usize,
    other: usize,
    edges: &mut Items<Conflict>,
) -> Result<(), AllocError>
    ensures { OnOk result (edges.new ≡ edges.old ++ spec.conflicts_between works.now one other) }
{
    match works.get(one) {
        Some(reader) => push_read(alloc, works, (one, other), &reader.reads, edges),
        None => Ok(()),
    }
}

/// Those of the reads that the second of the pair changed.
fn push_read(
    alloc: Global,
    works: &[Work],
    pair: (usize, usize),
    reads: &Footprint,
    edges: &mut Items<Conflict>,
) -> Result<(), AllocError>
    ensures { OnOk result (edges.new ≡ edges.old ++ map (conflict_on pair.0 pair.1) (spec.common reads.now (get_or works.now pair.1 spec.no_work).covered)) }
{
    match works.get(pair.1) {
        Some(writer) => push_common(alloc, pair, reads, &writer.covered, edges),
        None => Ok(()),
    }
}

/// The objects of both, looked up by the fewer: a transaction that reads or changes much costs no more beside many small ones than
/// these do.
#[tactic(auto, using(crate::proofs::GraphCommonLemmas::common_turned))]
fn push_common(
    alloc: Global,
    pair: (usize, usize),
    reads: &Footprint,
    covered: &Footprint,
    edges: &mut Items<Conflict>,
) -> Result<(), AllocError>
    ensures { OnOk result (edges.new ≡ edges.old ++ map (conflict_on pair.0 pair.1) (spec.common reads.now covered.now)) }
{
    // Both are in order, so either may be looked through.
    let _reads = reads.iter();
    let _covered = covered.iter();
    if reads.len() <= covered.len() {
        push_among(alloc, pair, reads, covered, edges)
    } else {
        push_among(alloc, pair, covered, reads, edges)
    }
}

/// The objects of the first that are among the second.
fn push_among(
    alloc: Global,
    pair: (usize, usize),
    objects: &Footprint,
    others: &Footprint,
    edges: &mut Items<Conflict>,
) -> Result<(), AllocError>
    ensures { OnOk result (edges.new ≡ edges.old ++ map (conflict_on pair.0 pair.1) (spec.common objects.now others.now)) }
{
    for object in objects.iter() {
        if others.contains(object) {
            push_conflict(alloc, pair, object, edges)?;
        }
    }
    Ok(())
}

fn push_conflict(
    alloc: Global,
    pair: (usize, usize),
    object: &Object,
    edges: &mut Items<Conflict>,
) -> Result<(), AllocError>
    ensures { OnOk result (edges.new ≡ edges.old ++ conflict_on pair.0 pair.1 object.now ∷ []) }
{
    let object = object.copy(alloc)?;
    edges.push(Conflict {
        reader: pair.0,
        writer: pair.1,
        object,
    })
}
