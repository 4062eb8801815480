//! Who holds a grant option.

ghost use Rattle.std.specs.Prelude.{◌≡◌, ◌↔◌, ◌++◌, ◌∷◌, [], ℕ, List, None, true, cond, slice_get, IfOk, OnOk};
ghost use Rattle.std.specs.{BTreeMap.is_at, BTreeSet.contains, Map.lookup, Option.option_copied};
ghost use Rattle.rls_value.specs.declared.verb.Privilege.{Privilege as Kind};
ghost use Rattle.rls_verdict.specs.rls_catalog.specs.{Membership.fresh, declared.grant.Grant.Grant as Given, State.State, State.AgreesOn, State.name_order};
ghost use Rattle.rls_grant.specs.Seen.{IsSetOf};
ghost use Rattle.rls_grant.specs.{Handed.HandsOn, Handed.under, Optioned.AreHolders, Optioned.HoldsOption, Optioned.HoldsOn, Optioned.option_reads};
ghost use Rattle.rls_grant.specs.Handed as handed;

use crate::granted::is_same_privilege;
use rls_role::rls_source::{Reading, RowSource};
use rls_value::{Items, Name, Privilege};
use rls_verdict::rls_catalog::{Grant, Grants};
use rls_verdict::rls_expr::{Grantee, TableDef};
use std::alloc::{AllocError, Global};
use std::collections::{BTreeMap, BTreeSet};

/// The roles that hold the grant option for the privilege on the table: the least set that has the owner, and
/// each grantee of a grant with option whose grantor is in it (PostgreSQL manual, GRANT); none where there is no such
/// table. It reads the table and its grants; in every state that agrees on them the same roles hold it.
#[tactic(auto, using(crate::proofs::OptionedLaws::option_frame))]
pub fn option<'c, S: RowSource<'c>>(
    alloc: Global,
    source: &mut S,
    table: &Name,
    privilege: Privilege,
) -> Result<BTreeSet<Name>, AllocError>
    ensures option { IfOk result (λ holders. (role : List ℕ) → (contains name_order holders role ≡ true) ↔ HoldsOption (S.state source.old) table.now privilege role) }
    ensures frame { (other : State) → AgreesOn (S.state source.old) other (option_reads table.now) → (role : List ℕ) → HoldsOption other table.now privilege role ↔ HoldsOption (S.state source.old) table.now privilege role }
    ensures read { OnOk result (source.new ≡ S.after source.old (option_reads table.now)) }
    ensures state { S.state source.new ≡ S.state source.old }
{
    let def = source.table(alloc, table)?;
    let grants = source.grants(alloc, table)?;
    holders_on(alloc, def, grants, privilege)
}

#[tactic(auto, using(crate::proofs::GrantOptions::nobody))]
fn holders_on(
    alloc: Global,
    table: Option<&TableDef>,
    grants: &Grants,
    privilege: Privilege,
) -> Result<BTreeSet<Name>, AllocError>
    ensures { IfOk result (λ holders. (role : List ℕ) → (contains name_order holders role ≡ true) ↔ HoldsOn (option_copied table.entry) grants.now privilege role) }
{
    match table {
        Some(table) => options(alloc, &table.owner, grants, privilege),
        None => Ok(BTreeSet::new(alloc)),
    }
}

/// Who holds it by these grants: the owner, and each grantee of a grant with option whose grantor holds it.
pub fn options(
    alloc: Global,
    owner: &Name,
    grants: &Grants,
    privilege: Privilege,
) -> Result<BTreeSet<Name>, AllocError>
    ensures { IfOk result (λ holders. AreHolders owner.now grants.now privilege holders) }
{
    let index = index_of(alloc, grants, privilege)?;
    let holders = holders_by(alloc, owner, &index);
    drop(index);
    holders
}

/// Those to whom each grantor handed the option on.
fn index_of(
    alloc: Global,
    grants: &Grants,
    privilege: Privilege,
) -> Result<BTreeMap<Name, Items<Name>>, AllocError>
    ensures { IfOk result (λ index. HandsOn index.entries grants.now privilege) }
{
    let mut index = BTreeMap::new(alloc);
    for grant in grants.iter() {
        if let Some(grantee) = handed_to(grant, privilege) {
            add(&mut index, alloc, &grant.grantor, grantee)?;
        }
    }
    Ok(index)
}

/// To whom the grant hands the option on, if it does.
fn handed_to(grant: &Grant, privilege: Privilege) -> Option<&Name>
    ensures { option_copied result ≡ handed.handed_to privilege grant.now }
{
    let hands_on = grant.option && is_same_privilege(grant.privilege, privilege);
    match &grant.grantee {
        Grantee::Role(name) if hands_on => Some(name),
        _ => None,
    }
}

/// Puts the grantee behind those under the grantor.
fn add(
    index: &mut BTreeMap<Name, Items<Name>>,
    alloc: Global,
    grantor: &Name,
    grantee: &Name,
) -> Result<(), AllocError>
    ensures { OnOk result ((name : List ℕ) → under name index.new.entries ≡ cond (is_at (name_order grantor.now) name) (under name index.old.entries ++ grantee.now ∷ []) (under name index.old.entries)) }
{
    let grantee = grantee.copy()?;
    match index.get_mut(grantor) {
        Some(grantees) => match grantees.push(grantee) {
            Ok(()) => Ok(()),
            Err(refused) => Err(refused),
        },
        None => add_first(index, alloc, grantor, grantee),
    }
}

/// Puts the grantee as the first under the grantor.
fn add_first(
    index: &mut BTreeMap<Name, Items<Name>>,
    alloc: Global,
    grantor: &Name,
    grantee: Name,
) -> Result<(), AllocError>
    requires { lookup (is_at (name_order grantor.now)) index.old.entries ≡ None }
    ensures { OnOk result ((name : List ℕ) → under name index.new.entries ≡ cond (is_at (name_order grantor.now) name) (under name index.old.entries ++ grantee ∷ []) (under name index.old.entries)) }
{
    let mut grantees = Items::new(alloc);
    grantees.push(grantee)?;
    index.insert(grantor.copy()?, grantees)?;
    Ok(())
}

/// The least set that has the owner, and those under each of its roles: a walk that looks each of them up once.
fn holders_by(
    alloc: Global,
    owner: &Name,
    index: &BTreeMap<Name, Items<Name>>,
) -> Result<BTreeSet<Name>, AllocError>
    ensures { IfOk result (λ holders. (grants : List Given) (privilege : Kind) → HandsOn index.now.entries grants privilege → AreHolders owner.now grants privilege holders) }
{
    let mut names = Vec::new(alloc);
    let mut seen = BTreeSet::new(alloc);
    add_unseen(&mut names, &mut seen, owner)?;
    let mut next = 0;
    while let Some(holder) = holder_at(&names, next) {
        let holder = holder.copy()?;
        add_under(&mut names, &mut seen, index, &holder)?;
        next += 1;
    }
    drop(names);
    Ok(seen)
}

pub(crate) fn holder_at(holders: &[Name], index: usize) -> Option<&Name>
    ensures { option_copied result ≡ slice_get holders.now index }
{
    holders.get(index)
}

/// Adds those under the name that aren't there yet.
fn add_under(
    names: &mut Vec<Name>,
    seen: &mut BTreeSet<Name>,
    index: &BTreeMap<Name, Items<Name>>,
    name: &Name,
) -> Result<(), AllocError>
    requires { IsSetOf seen.old names.old.items }
    ensures names { OnOk result (names.new.items ≡ names.old.items ++ fresh names.old.items (under name.now index.now.entries)) }
    ensures seen { OnOk result (IsSetOf seen.new names.new.items) }
{
    match index.get(name) {
        Some(grantees) => add_each(names, seen, grantees.as_slice()),
        None => Ok(()),
    }
}

fn add_each(
    names: &mut Vec<Name>,
    seen: &mut BTreeSet<Name>,
    more: &[Name],
) -> Result<(), AllocError>
    requires { IsSetOf seen.old names.old.items }
    ensures names { OnOk result (names.new.items ≡ names.old.items ++ fresh names.old.items more.now) }
    ensures seen { OnOk result (IsSetOf seen.new names.new.items) }
{
    for name in more {
        add_unseen(names, seen, name)?;
    }
    Ok(())
}

/// Adds the name to the list and to the set of the same names, unless it is there. An `Err` may leave it in the set alone.
pub(crate) fn add_unseen(
    names: &mut Vec<Name>,
    seen: &mut BTreeSet<Name>,
    name: &Name,
) -> Result<(), AllocError>
    requires { IsSetOf seen.old names.old.items }
    ensures names { OnOk result (names.new.items ≡ names.old.items ++ fresh names.old.items (name.now ∷ [])) }
    ensures seen { OnOk result (IsSetOf seen.new names.new.items) }
{
    if seen.insert(name.copy()?)? {
        names.push(name.copy()?)?;
    }
    Ok(())
}
