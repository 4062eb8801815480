//! The changes of a statement in the order of their objects.

ghost use Rattle.std.specs.Prelude.{◌≡◌, ◌≤◌, true, not, length, IfOk, OnOk};
ghost use Rattle.std.specs.List.{position_or_len};
ghost use Rattle.std.specs.Cmp.Lexicographic.{slice_cmp};
ghost use Rattle.std.specs.Ordering.{nat_cmp, ordering_then};
ghost use Rattle.rls_value.specs.Objects as objects;
ghost use Rattle.rls_value.specs.Objects.{object_order};
ghost use Rattle.rls_audit.specs.Lines as spec;
ghost use Rattle.rls_audit.specs.Lines.{in_object_order, object_of};
ghost use Rattle.rls_audit.specs.Ordered.{is_in_order, leads};

use rls_core::rls_guard::rls_catalog::Change;
use rls_value::Name;
use std::alloc::{AllocError, Global};
use std::cmp::Ordering;

/// Copies of the changes in the order of their objects. It takes n · n steps, and is for the few statements whose changes come in
/// another order, which GRANT and REVOKE of roles alone have.
pub fn in_order(alloc: Global, changes: &[Change]) -> Result<Vec<Change>, AllocError>
    ensures { IfOk result (λ ordered. ordered.items ≡ in_object_order changes.now) }
{
    let mut ordered = Vec::with_capacity(alloc, changes.len())?;
    let mut left = changes.len();
    while left > 0 {
        left -= 1;
        let change = changes[left].copy(alloc)?;
        put_in(&mut ordered, change)?;
    }
    Ok(ordered)
}

/// Whether the changes come in the order of their objects.
#[tactic(auto, using(crate::proofs::OrderLemmas::ordered_stays))]
pub fn are_in_order(changes: &[Change]) -> bool
    ensures order { result ≡ is_in_order changes.now }
    ensures same { result ≡ true → in_object_order changes.now ≡ changes.now }
{
    let mut rest = changes;
    while let [one, others @ ..] = rest {
        if !stands_before(one, others) {
            return false;
        }
        rest = others;
    }
    true
}

/// Whether the object of none of them, the first, comes before that of the change.
fn stands_before(one: &Change, others: &[Change]) -> bool
    ensures { result ≡ leads one.now others.now }
{
    match others {
        [other, ..] => !comes_before(other, one),
        [] => true,
    }
}

fn put_in(ordered: &mut Vec<Change>, change: Change) -> Result<(), AllocError>
    ensures { OnOk result (ordered.new.items ≡ spec.put_in change ordered.old.items) }
{
    let place = place_for(ordered, &change);
    ordered.insert(place, change)?;
    Ok(())
}

/// Behind those whose objects come before its own.
fn place_for(ordered: &[Change], change: &Change) -> usize
    ensures place { result ≡ position_or_len (λ other. not (spec.comes_before other change.now)) ordered.now }
    ensures within { result ≤ length ordered.now }
{
    let mut place = 0;
    let mut rest = ordered;
    while let [other, others @ ..] = rest {
        if !comes_before(other, change) {
            break;
        }
        place += 1;
        rest = others;
    }
    place
}

fn comes_before(one: &Change, other: &Change) -> bool
    ensures { result ≡ spec.comes_before one.now other.now }
{
    cmp_changes(one, other).is_lt()
}

/// The order of their objects.
fn cmp_changes(left: &Change, right: &Change) -> Ordering
    ensures { result ≡ object_order (object_of left.now) (object_of right.now) }
{
    match cmp_names(left, right) {
        Ordering::Equal => cmp_rows(left, right),
        order => order,
    }
}

/// By kind, then by name.
fn cmp_names(left: &Change, right: &Change) -> Ordering
    ensures { result ≡ ordering_then (nat_cmp (objects.kind_of (object_of left.now)) (objects.kind_of (object_of right.now))) (slice_cmp nat_cmp (objects.name_of (object_of left.now)) (objects.name_of (object_of right.now))) }
{
    match kind_of(left).cmp(&kind_of(right)) {
        Ordering::Equal => name_of(left).cmp(name_of(right)),
        order => order,
    }
}

/// The numbers between two kinds are those of objects that no change writes.
fn kind_of(change: &Change) -> u8
    ensures { result ≡ objects.kind_of (object_of change.now) }
{
    match change {
        Change::Role(_, _) => 0,
        Change::Members(_, _) => 1,
        Change::Table(_, _) => 2,
        Change::Grants(_, _) => 3,
        Change::Policies(_, _) => 4,
        Change::Row(_) => 7,
    }
}

fn name_of(change: &Change) -> &Name
    ensures { result.now ≡ objects.name_of (object_of change.now) }
{
    match change {
        Change::Role(name, _) => name,
        Change::Members(member, _) => member,
        Change::Table(name, _) => name,
        Change::Grants(table, _) => table,
        Change::Policies(table, _) => table,
        Change::Row(row) => &row.table,
    }
}

fn cmp_rows(left: &Change, right: &Change) -> Ordering
    ensures { result ≡ objects.part_order (object_of left.now) (object_of right.now) }
{
    match (left, right) {
        (Change::Row(left), Change::Row(right)) => {
            left.id
                .txn
                .cmp(&right.id.txn)
                .then(left.id.n.cmp(&right.id.n))
        }
        (_, _) => Ordering::Equal,
    }
}
