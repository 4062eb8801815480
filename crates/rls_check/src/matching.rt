//! Whether what a run comes to is what is shown.

ghost use Rattle.std.specs.Prelude.{◌≡◌, ◌↔◌, true, map, option_map};
ghost use Rattle.rls_audit.specs.Lines.{grant_shape, written_by};
ghost use Rattle.rls_check.specs.Audited.{written_of};
ghost use Rattle.rls_check.specs.Checking.{ArePuts, IsAnswer};

use crate::transaction::{Answer, Put};
use rls_agreement::rls_equality::{Same, are_both_same, are_items_of, are_policies_of};
use rls_audit::GrantShape;
use rls_audit::rls_access::Effect;
use rls_catalog::{Change, Grant, Grants, Keyed};
use rls_value::Row;

/// Whether the effect is the reply or the refusal that is shown, with its decisions.
pub(crate) fn is_answer(answer: &Answer, effect: &Effect) -> bool
    ensures { (result ≡ true) ↔ IsAnswer answer.now effect.now }
{
    match &answer.reply {
        Ok(reply) => effect.is_done_with(reply, &answer.decisions),
        Err(refused) => effect.is_refused_with(refused.get(), &answer.decisions),
    }
}

/// Whether the changes are those that are shown.
pub(crate) fn are_puts(mut puts: &[Put], mut changes: &[Change]) -> bool
    ensures { (result ≡ true) ↔ ArePuts puts.entry.now changes.entry.now }
{
    while let [put, more @ ..] = puts {
        match changes {
            [change, others @ ..] => {
                if !is_put(put, change) {
                    return false;
                }
                changes = others;
            }
            [] => return false,
        }
        puts = more;
    }
    changes.is_empty()
}

/// Whether the change is the one that is shown.
fn is_put(put: &Put, change: &Change) -> bool
    ensures { (result ≡ true) ↔ (written_of put.now ≡ written_by change.now) }
{
    match (put, change) {
        (Put::Role(name, def), Change::Role(other, made)) => {
            name.is_same(other) && def.is_same(made)
        }
        (Put::Members(member, content), Change::Members(other, made)) => {
            member.is_same(other) && are_items_of(content.as_slice(), made)
        }
        (Put::Table(name, def), Change::Table(other, made)) => {
            name.is_same(other) && def.is_same(made)
        }
        (Put::Grants(table, content), Change::Grants(other, made)) => {
            table.is_same(other) && are_grants(content.as_slice(), made)
        }
        (Put::Policies(table, policies), Change::Policies(other, made)) => {
            table.is_same(other) && are_policies_of(policies.as_slice(), made)
        }
        (Put::Row(table, id, values), Change::Row(row)) => {
            table.is_same(&row.table) && id.is_same(&row.id) && are_values(values, &row.after)
        }
        (_, _) => false,
    }
}

/// Whether the grants are those that are shown.
fn are_grants(mut shapes: &[GrantShape], grants: &Grants) -> bool
    ensures { (result ≡ true) ↔ (shapes.entry.now ≡ map grant_shape grants.now) }
{
    let mut left = grants.iter();
    while let Some(grant) = left.next() {
        match shapes {
            [shape, others @ ..] => {
                if !is_grant(shape, grant) {
                    return false;
                }
                shapes = others;
            }
            [] => return false,
        }
    }
    shapes.is_empty()
}

// Where its column stands follows from the table.
fn is_grant(shape: &GrantShape, grant: &Grant) -> bool
    ensures { (result ≡ true) ↔ (shape.now ≡ grant_shape grant.now) }
{
    shape.privilege == grant.privilege
        && shape.grantee.is_same(&grant.grantee)
        && shape.grantor.is_same(&grant.grantor)
        && shape.option == grant.option
        && are_both_same(shape.column.as_ref(), grant.column.as_ref())
}

/// Whether the values are the row's.
fn are_values(values: &Option<Row>, after: &Option<Keyed>) -> bool
    ensures { (result ≡ true) ↔ (values.now ≡ option_map (λ keyed. keyed.row) after.now) }
{
    match (values, after) {
        (Some(values), Some(keyed)) => values.is_same(&keyed.row),
        (None, None) => true,
        (_, _) => false,
    }
}
