//! What is told of decisions at length.

ghost use Rattle.std.specs.Prelude.{◌≡◌, Some, map, IfOk};
ghost use Rattle.rls_expr.specs.Scopes.{in_scope};
ghost use Rattle.rls_meaning.specs.rls_guard.specs.rls_catalog.specs.State.{policies_of};
ghost use Rattle.rls_meaning.specs.rls_guard.specs.rls_evaluation.specs.Environments.{over};
ghost use Rattle.rls_meaning.specs.rls_guard.specs.RolePrivileges.{role_privileges_in};
ghost use Rattle.rls_explain.specs.Details as meant;
ghost use Rattle.rls_explain.specs.Found as spec;
ghost use Rattle.rls_explain.specs.Found.{sight_found};

use crate::details::{Asking, Consulted, Consulting, Details};
use crate::explanation::Explained;
use crate::parts::parts_of;
use crate::reasons::{exemption_of, is_for_kind, is_to, is_with_check};
use crate::resolving::expr_in;
use crate::valuing::{Judged, value_on};
use rls_expr::{Column, Expr, FromTable, Grantee, Policy};
use rls_meaning::rls_guard::rls_catalog::{Catalog, Policies, Side};
use rls_meaning::rls_guard::rls_evaluation::SecuredRelation;
use rls_meaning::rls_guard::rls_policy::expression_of;
use rls_meaning::rls_guard::rls_source::Asker;
use rls_meaning::rls_guard::{RolePrivileges, role_privileges_of};
use rls_value::{Items, Kind, Name, or_drop};
use std::alloc::{AllocError, Global};

/// The decisions on rows of the table with what is told of them at length, where that is wanted.
pub fn detailed_if<'c, 'x>(
    alloc: Global,
    catalog: &'c Catalog,
    long: bool,
    role: &Name,
    from: FromTable<'x>,
    relations: &[SecuredRelation<'c>],
    explained: Vec<Explained>,
) -> Result<Items<Explained>, AllocError>
    ensures { IfOk result (λ detailed. detailed ≡ spec.detailed_found catalog.now relations.now role.now (in_scope from.entry) long explained.items) }
{
    if long {
        detailed(alloc, catalog, role, from, relations, explained)
    } else {
        Ok(Items::from_vec(explained))
    }
}

fn detailed<'c, 'x>(
    alloc: Global,
    catalog: &'c Catalog,
    role: &Name,
    from: FromTable<'x>,
    relations: &[SecuredRelation<'c>],
    explained: Vec<Explained>,
) -> Result<Items<Explained>, AllocError>
    ensures { IfOk result (λ detailed. detailed ≡ map (spec.with_details_found catalog.now relations.now role.now (in_scope from.entry)) explained.items) }
{
    let role_privileges = or_drop!(privileges_of(alloc, catalog, role), explained);
    let all = detail_each(
        alloc,
        catalog,
        &role_privileges,
        role,
        from,
        relations,
        explained,
    );
    drop(role_privileges);
    all
}

/// Whose privileges the role has. What is read is forgotten.
fn privileges_of(
    alloc: Global,
    catalog: &Catalog,
    role: &Name,
) -> Result<RolePrivileges, AllocError>
    ensures { IfOk result (λ it. it ≡ role_privileges_in catalog.now role.now) }
{
    let mut asker = Asker::new(alloc, catalog);
    let role_privileges = role_privileges_of(&mut asker, role);
    drop(asker);
    role_privileges
}

fn detail_each<'c, 'x>(
    alloc: Global,
    catalog: &'c Catalog,
    role_privileges: &RolePrivileges,
    role: &Name,
    from: FromTable<'x>,
    relations: &[SecuredRelation<'c>],
    explained: Vec<Explained>,
) -> Result<Items<Explained>, AllocError>
    requires { role_privileges.now ≡ role_privileges_in catalog.now role.now }
    ensures { IfOk result (λ detailed. detailed ≡ map (spec.with_details_found catalog.now relations.now role.now (in_scope from.entry)) explained.items) }
{
    let mut all = Vec::with_capacity(alloc, explained.len())?;
    for one in explained {
        let detailed = with_details(alloc, catalog, role_privileges, role, from, relations, one)?;
        all.push(detailed)?;
    }
    Ok(Items::from_vec(all))
}

/// The decision with what is told of it.
fn with_details<'c, 'x>(
    alloc: Global,
    catalog: &'c Catalog,
    role_privileges: &RolePrivileges,
    role: &Name,
    from: FromTable<'x>,
    relations: &[SecuredRelation<'c>],
    one: Explained,
) -> Result<Explained, AllocError>
    requires { role_privileges.now ≡ role_privileges_in catalog.now role.now }
    ensures { IfOk result (λ detailed. detailed ≡ spec.with_details_found catalog.now relations.now role.now (in_scope from.entry) one) }
{
    let judged = Judged {
        relations,
        role,
        row: &one.row,
    };
    let side = one.decision.side;
    let kind = one.decision.kind;
    match details_of(alloc, catalog, role_privileges, judged, from, side, kind) {
        Ok(details) => Ok(set_details(one, details)),
        Err(refused) => {
            drop(one);
            Err(refused)
        }
    }
}

fn set_details(one: Explained, details: Details) -> Explained
    ensures { result ≡ record { decision = one.decision; policies = one.policies; row = one.row; details = Some details } }
{
    let Explained {
        decision,
        policies,
        row,
        details: before,
    } = one;
    drop(before);
    Explained {
        decision,
        policies,
        row,
        details: Some(details),
    }
}

/// What is told of the decision on the row.
fn details_of<'a, 'c, 'x>(
    alloc: Global,
    catalog: &'c Catalog,
    role_privileges: &RolePrivileges,
    judged: Judged<'a, 'c>,
    from: FromTable<'x>,
    side: Side,
    kind: Kind,
) -> Result<Details, AllocError>
    requires { role_privileges.now ≡ role_privileges_in catalog.now judged.role.now }
    ensures { IfOk result (λ details. details ≡ meant.details_by catalog.now (sight_found catalog.now judged.entry.relations.now judged.entry.role.now) judged.entry.role.now (in_scope from.entry) side kind judged.entry.row.now) }
{
    let consulting = consulting(alloc, catalog, role_privileges, judged, from, side, kind)?;
    let columns = or_drop!(
        Column::copy_all(alloc, from.table.columns.as_slice()),
        consulting
    );
    let owner = or_drop!(from.table.owner.copy(), consulting, columns);
    let table = or_drop!(from.name.copy(), consulting, columns, owner);
    Ok(Details {
        table,
        owner,
        columns,
        consulting,
    })
}

/// Which policies are asked about the row.
#[tactic(auto, using(crate::proofs::ReasonLemmas::reason_told, crate::proofs::ReasonLemmas::none_told))]
fn consulting<'a, 'c, 'x>(
    alloc: Global,
    catalog: &'c Catalog,
    role_privileges: &RolePrivileges,
    judged: Judged<'a, 'c>,
    from: FromTable<'x>,
    side: Side,
    kind: Kind,
) -> Result<Consulting, AllocError>
    requires { role_privileges.now ≡ role_privileges_in catalog.now judged.role.now }
    ensures { IfOk result (λ it. it ≡ meant.consulting_in catalog.now (sight_found catalog.now judged.entry.relations.now judged.entry.role.now) judged.entry.role.now (in_scope from.entry) side kind judged.entry.row.now) }
{
    match exemption_of(role_privileges, judged.role, from.table) {
        Some(reason) => Ok(Consulting::Exempt(reason)),
        None => {
            let all = consult_all(alloc, catalog, role_privileges, judged, from, side, kind)?;
            Ok(Consulting::Policies(all))
        }
    }
}

/// Each policy of the table, and whether it is asked.
fn consult_all<'a, 'c, 'x>(
    alloc: Global,
    catalog: &'c Catalog,
    role_privileges: &RolePrivileges,
    judged: Judged<'a, 'c>,
    from: FromTable<'x>,
    side: Side,
    kind: Kind,
) -> Result<Items<Consulted>, AllocError>
    requires { role_privileges.now ≡ role_privileges_in catalog.now judged.role.now }
    ensures { IfOk result (λ all. all ≡ map (meant.consulted_in catalog.now (sight_found catalog.now judged.entry.relations.now judged.entry.role.now) judged.entry.role.now (in_scope from.entry) side kind judged.entry.row.now) (policies_of catalog.now from.entry.name.now)) }
{
    let policies = catalog.policies(from.name);
    consult_each(
        alloc,
        catalog,
        role_privileges,
        judged,
        from,
        side,
        kind,
        policies,
    )
}

fn consult_each<'a, 'c, 'x>(
    alloc: Global,
    catalog: &'c Catalog,
    role_privileges: &RolePrivileges,
    judged: Judged<'a, 'c>,
    from: FromTable<'x>,
    side: Side,
    kind: Kind,
    policies: &Policies,
) -> Result<Items<Consulted>, AllocError>
    requires { role_privileges.now ≡ role_privileges_in catalog.now judged.role.now }
    ensures { IfOk result (λ all. all ≡ map (meant.consulted_in catalog.now (sight_found catalog.now judged.entry.relations.now judged.entry.role.now) judged.entry.role.now (in_scope from.entry) side kind judged.entry.row.now) policies.now) }
{
    let mut all = Vec::new(alloc);
    for policy in policies.iter() {
        let policy = policy.get();
        let one = consult(
            alloc,
            catalog,
            role_privileges,
            judged,
            from,
            side,
            kind,
            policy,
        )?;
        all.push(one)?;
    }
    Ok(Items::from_vec(all))
}

/// One of them.
fn consult<'a, 'c, 'x>(
    alloc: Global,
    catalog: &'c Catalog,
    role_privileges: &RolePrivileges,
    judged: Judged<'a, 'c>,
    from: FromTable<'x>,
    side: Side,
    kind: Kind,
    policy: &Policy,
) -> Result<Consulted, AllocError>
    requires { role_privileges.now ≡ role_privileges_in catalog.now judged.role.now }
    ensures { IfOk result (λ one. one ≡ meant.consulted_in catalog.now (sight_found catalog.now judged.entry.relations.now judged.entry.role.now) judged.entry.role.now (in_scope from.entry) side kind judged.entry.row.now policy.now) }
{
    let to = is_to(role_privileges, policy);
    consult_by(alloc, catalog, to, judged, from, side, kind, policy)
}

/// The same by whether the policy is to the role.
fn consult_by<'a, 'c, 'x>(
    alloc: Global,
    catalog: &'c Catalog,
    to: bool,
    judged: Judged<'a, 'c>,
    from: FromTable<'x>,
    side: Side,
    kind: Kind,
    policy: &Policy,
) -> Result<Consulted, AllocError>
    ensures { IfOk result (λ one. one ≡ meant.consulted_by to (meant.asked_in catalog.now (sight_found catalog.now judged.entry.relations.now judged.entry.role.now) judged.entry.role.now (in_scope from.entry) judged.entry.row.now) kind side policy.now) }
{
    let asking = asking_of(alloc, catalog, to, judged, from, side, kind, policy)?;
    let grantees = or_drop!(Grantee::copy_all(alloc, policy.to.as_slice()), asking);
    let name = or_drop!(policy.name.copy(), asking, grantees);
    Ok(Consulted {
        policy: name,
        permissive: policy.permissive,
        kind: policy.kind,
        to: grantees,
        with_check: is_with_check(policy, kind, side),
        asking,
    })
}

/// Whether the policy is asked about the row, and what it says.
fn asking_of<'a, 'c, 'x>(
    alloc: Global,
    catalog: &'c Catalog,
    to: bool,
    judged: Judged<'a, 'c>,
    from: FromTable<'x>,
    side: Side,
    kind: Kind,
    policy: &Policy,
) -> Result<Asking, AllocError>
    ensures { IfOk result (λ it. it ≡ meant.asking_by to (meant.asked_in catalog.now (sight_found catalog.now judged.entry.relations.now judged.entry.role.now) judged.entry.role.now (in_scope from.entry) judged.entry.row.now) policy.now kind side) }
{
    if !is_for_kind(policy.kind, kind) {
        return Ok(Asking::OtherCommand);
    }
    if !to {
        return Ok(Asking::OtherRoles);
    }
    match expression_of(policy, kind, side) {
        Some(expr) => asked(alloc, catalog, judged, from, expr),
        None => Ok(Asking::NoExpression),
    }
}

/// What the condition says, and its parts.
fn asked<'a, 'c, 'x>(
    alloc: Global,
    catalog: &'c Catalog,
    judged: Judged<'a, 'c>,
    from: FromTable<'x>,
    written: &Expr,
) -> Result<Asking, AllocError>
    ensures { IfOk result (λ it. it ≡ meant.asked_in catalog.now (sight_found catalog.now judged.entry.relations.now judged.entry.role.now) judged.entry.role.now (in_scope from.entry) judged.entry.row.now written.now) }
{
    let resolved = expr_in(alloc, catalog, from, written)?;
    let told = told_of(alloc, catalog, judged, written, &resolved);
    drop(resolved);
    told
}

fn told_of<'a, 'c>(
    alloc: Global,
    catalog: &'c Catalog,
    judged: Judged<'a, 'c>,
    written: &Expr,
    resolved: &Expr,
) -> Result<Asking, AllocError>
    ensures { IfOk result (λ it. it ≡ meant.asked_by catalog.now (sight_found catalog.now judged.entry.relations.now judged.entry.role.now) (over judged.entry.role.now judged.entry.row.now) written.now resolved.now) }
{
    let value = value_on(alloc, catalog, judged, resolved)?;
    let truth = value.truth();
    drop(value);
    let parts = parts_of(alloc, catalog, judged, written, resolved)?;
    Ok(Asking::Asked(truth, parts))
}
