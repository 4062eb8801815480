//! GRANT of privileges on a table, or on columns of it.

ghost use Rattle.std.specs.Prelude.{◌≡◌, [], ◌∷◌, ◌++◌, ◌↔◌, ℕ, List, map, true, IfOk, OnOk};
ghost use Rattle.std.specs.List.{flat_map};
ghost use Rattle.rls_value.specs.{Giving.Gives, declared.verb.Privilege.Privilege as Kind};
ghost use Rattle.rls_verdict.specs.rls_catalog.specs.{GrantOptions.GoesBack, GrantOptions.HaveGrantors, declared.grant.Grant.Grant as Given};
ghost use Rattle.rls_role.specs.rls_source.specs.{Answering.Answers, Sequences.each_or_refused};
ghost use Rattle.rls_grant.specs.Granting as spec;
ghost use Rattle.rls_grant.specs.Granting.{goes_back, grant_on, grant_to, granted, grants_by, grants_made, grants_on, grants_with};

use crate::columns::{column_place, granted_on, require_columns, require_whole};
use crate::grantors::{Grantor, grantors_of};
use crate::known::{are_known, known, looked_over};
use crate::placing::put_grants;
use crate::tracing::holds_option_without;
use rls_role::rls_source::Asker;
use rls_role::rls_statement::GrantPrivileges;
use rls_role::{EffectiveRoles, effective_roles_of};
use rls_value::{GrantFault, Items, Name, Privilege, Refusal};
use rls_verdict::rls_catalog::{Change, Delta, Grant, Grants};
use rls_verdict::rls_expr::{Column, Grantee, TableDef};
use std::alloc::{AllocError, Global};

/// What it takes that the role grants the privileges to each grantee: all grants on the table (PostgreSQL manual, GRANT).
/// Refused are, in this order: a table, column or grantee that isn't there; a grant option on columns; the first privilege that
/// nobody may grant for the role; and, WITH GRANT OPTION, PUBLIC, or a grantee whose own option the grantor's stands on. In
/// every state that agrees on what is read it is the same.
#[tactic(auto, using(crate::proofs::GrantLaws::goes_back_is))]
pub fn grant(asker: &mut Asker, role: &Name, grant: &GrantPrivileges) -> Result<Delta, Refusal>
    ensures answers { Answers (spec.grant role.now grant.now) asker.old asker.new result }
    ensures back { (owner : List ℕ) (grants : List Given) (privilege : Kind) (grantor grantee : List ℕ) → (goes_back owner grants privilege grantor grantee ≡ true) ↔ GoesBack owner grants privilege grantor grantee }
{
    let table = asker.table_named(&grant.table)?;
    require_columns(table, &grant.privileges)?;
    grant_named(asker, role, table, grant)
}

#[tactic(auto, unfolding(crate::specs::Granting::grant_to))]
fn grant_named(
    asker: &mut Asker,
    role: &Name,
    table: &TableDef,
    grant: &GrantPrivileges,
) -> Result<Delta, Refusal>
    ensures { Answers (grant_to role.now table.now grant.now) asker.old asker.new result }
{
    asker.require_grantees(grant.to.as_slice())?;
    require_whole(grant.with_option, &grant.privileges)?;
    grant_for(asker, role, table, grant)
}

#[tactic(auto, unfolding(crate::specs::Granting::grant_on))]
fn grant_for(
    asker: &mut Asker,
    role: &Name,
    table: &TableDef,
    grant: &GrantPrivileges,
) -> Result<Delta, Refusal>
    ensures { Answers (grant_on role.now table.now grant.now) asker.old asker.new result }
{
    let grants = asker.grants(&grant.table)?;
    let effective_roles = effective_roles_of(asker, role)?;
    let made = make_grants(asker.alloc(), &effective_roles, role, table, grants, grant);
    drop(effective_roles);
    made
}

#[tactic(auto, unfolding(crate::specs::Granting::grants_made))]
fn make_grants(
    alloc: Global,
    effective_roles: &EffectiveRoles,
    role: &Name,
    table: &TableDef,
    grants: &Grants,
    grant: &GrantPrivileges,
) -> Result<Delta, Refusal>
    ensures { Gives result (grants_made effective_roles.now role.now table.now grants.now grant.now) }
{
    let named = &grant.privileges;
    let grantors = grantors_of(
        alloc,
        effective_roles,
        role,
        &grant.table,
        table,
        grants,
        named,
    )?;
    let made = grant_by(alloc, table, grants, grantors.as_slice(), grant);
    drop(grantors);
    made
}

#[tactic(auto, unfolding(crate::specs::Granting::granted))]
fn grant_by(
    alloc: Global,
    table: &TableDef,
    grants: &Grants,
    grantors: &[Grantor],
    grant: &GrantPrivileges,
) -> Result<Delta, Refusal>
    ensures { Gives result (granted table.now grants.now grantors.now grant.now) }
{
    let to = grant.to.as_slice();
    require_options(alloc, grant.with_option, &table.owner, grants, grantors, to)?;
    Ok(written(alloc, table, grants, grantors, grant)?)
}

fn require_options(
    alloc: Global,
    with_option: bool,
    owner: &Name,
    grants: &Grants,
    grantors: &[Grantor],
    grantees: &[Grantee],
) -> Result<(), Refusal>
    ensures { Gives result (spec.options_or_refused with_option owner.now grants.now grantors.now grantees.now) }
{
    if with_option {
        require_each(alloc, owner, grants, grantors, grantees)
    } else {
        Ok(())
    }
}

fn require_each(
    alloc: Global,
    owner: &Name,
    grants: &Grants,
    grantors: &[Grantor],
    grantees: &[Grantee],
) -> Result<(), Refusal>
    ensures { Gives result (each_or_refused (spec.optioned_or_refused owner.now grants.now grantors.now) grantees.now) }
{
    for grantee in grantees {
        require_option(alloc, owner, grants, grantors, grantee)?;
    }
    Ok(())
}

fn require_option(
    alloc: Global,
    owner: &Name,
    grants: &Grants,
    grantors: &[Grantor],
    grantee: &Grantee,
) -> Result<(), Refusal>
    ensures { Gives result (spec.optioned_or_refused owner.now grants.now grantors.now grantee.now) }
{
    match grantee {
        Grantee::Public => Err(Refusal::GrantOp(GrantFault::PublicOption)),
        Grantee::Role(name) => require_forth(alloc, owner, grants, grantors, name),
    }
}

/// Refused where the option of one of the grantors stands on those of the grantee.
fn require_forth(
    alloc: Global,
    owner: &Name,
    grants: &Grants,
    grantors: &[Grantor],
    grantee: &Name,
) -> Result<(), Refusal>
    ensures { Gives result (each_or_refused (spec.forth_or_refused owner.now grants.now grantee.now) grantors.now) }
{
    for grantor in grantors {
        require_one_forth(alloc, owner, grants, grantor, grantee)?;
    }
    Ok(())
}

fn require_one_forth(
    alloc: Global,
    owner: &Name,
    grants: &Grants,
    grantor: &Grantor,
    grantee: &Name,
) -> Result<(), Refusal>
    ensures { Gives result (spec.forth_or_refused owner.now grants.now grantee.now grantor.now) }
{
    if is_back(alloc, owner, grants, grantor, grantee)? {
        return Err(Refusal::GrantOp(GrantFault::Back(grantee.copy()?)));
    }
    Ok(())
}

fn is_back(
    alloc: Global,
    owner: &Name,
    grants: &Grants,
    grantor: &Grantor,
    grantee: &Name,
) -> Result<bool, AllocError>
    ensures { IfOk result (λ back. back ≡ goes_back owner.now grants.now grantor.now.privilege grantor.now.name grantee.now) }
{
    let privilege = grantor.privilege;
    let holds = holds_option_without(alloc, owner, grants, privilege, grantee, &grantor.name)?;
    Ok(!holds)
}

fn written(
    alloc: Global,
    table: &TableDef,
    grants: &Grants,
    grantors: &[Grantor],
    grant: &GrantPrivileges,
) -> Result<Delta, AllocError>
    ensures { IfOk result (λ delta. delta ≡ grants_with table.now.columns grants.now grantors.now grant.now) }
{
    let new = new_grants(alloc, table.columns.as_slice(), grantors, grant)?;
    let all = with_new(alloc, &table.owner, grants, new)?;
    write_grants(alloc, &grant.table, all)
}

/// The grants with the new ones. That each grantor holds the grant option is known of them too, where it is so.
fn with_new(
    alloc: Global,
    owner: &Name,
    grants: &Grants,
    new: Items<Grant>,
) -> Result<Grants, AllocError>
    ensures { IfOk result (λ all. all ≡ spec.with_grants grants.now new) }
{
    match are_known(owner, grants, new.as_slice()) {
        Ok(true) => put_known(alloc, owner, grants, new),
        Ok(false) => {
            let all = put_on(alloc, grants, new)?;
            looked_over(alloc, owner, all)
        }
        Err(refused) => {
            drop(new);
            Err(refused)
        }
    }
}

fn put_known(
    alloc: Global,
    owner: &Name,
    grants: &Grants,
    new: Items<Grant>,
) -> Result<Grants, AllocError>
    requires { HaveGrantors owner.now (spec.with_grants grants.now new) }
    ensures { IfOk result (λ all. all ≡ spec.with_grants grants.now new) }
{
    let all = put_on(alloc, grants, new)?;
    known(owner, all)
}

fn put_on(alloc: Global, grants: &Grants, new: Items<Grant>) -> Result<Grants, AllocError>
    ensures { IfOk result (λ all. all ≡ spec.with_grants grants.now new) }
{
    match grants.copy() {
        Ok(grants) => put_grants(alloc, grants, new),
        Err(refused) => {
            drop(new);
            Err(refused)
        }
    }
}

/// All grants on the table, as they are from now on.
pub(crate) fn write_grants(alloc: Global, table: &Name, grants: Grants) -> Result<Delta, AllocError>
    ensures { IfOk result (λ delta. delta ≡ spec.grants_written table.now grants) }
{
    match table.copy() {
        Ok(table) => one_change(alloc, Change::Grants(table, grants)),
        Err(refused) => {
            drop(grants);
            Err(refused)
        }
    }
}

fn one_change(alloc: Global, change: Change) -> Result<Delta, AllocError>
    ensures { IfOk result (λ delta. delta ≡ change ∷ []) }
{
    let mut delta = Delta::new(alloc);
    delta.push(change)?;
    Ok(delta)
}

/// Each privilege to each grantee, on all that it is named for.
fn new_grants(
    alloc: Global,
    columns: &[Column],
    grantors: &[Grantor],
    grant: &GrantPrivileges,
) -> Result<Items<Grant>, AllocError>
    ensures { IfOk result (λ grants. grants ≡ flat_map (grants_by columns.now grant.now) grantors.now) }
{
    let mut grants = Items::new(alloc);
    for grantor in grantors {
        add_grants(alloc, &mut grants, columns, grantor, grant)?;
    }
    Ok(grants)
}

fn add_grants(
    alloc: Global,
    grants: &mut Items<Grant>,
    columns: &[Column],
    grantor: &Grantor,
    grant: &GrantPrivileges,
) -> Result<(), AllocError>
    ensures { OnOk result (grants.new ≡ grants.old ++ grants_by columns.now grant.now grantor.now) }
{
    let on = granted_on(alloc, &grant.privileges, grantor.privilege)?;
    let (option, to) = (grant.with_option, grant.to.as_slice());
    let added = add_each(grants, columns, option, grantor, to, on.as_slice());
    drop(on);
    added
}

fn add_each(
    grants: &mut Items<Grant>,
    columns: &[Column],
    option: bool,
    grantor: &Grantor,
    grantees: &[Grantee],
    on: &[Option<Name>],
) -> Result<(), AllocError>
    ensures { OnOk result (grants.new ≡ grants.old ++ grants_on columns.now option grantor.now grantees.now on.now) }
{
    for grantee in grantees {
        add_on(grants, columns, option, grantor, grantee, on)?;
    }
    Ok(())
}

fn add_on(
    grants: &mut Items<Grant>,
    columns: &[Column],
    option: bool,
    grantor: &Grantor,
    grantee: &Grantee,
    on: &[Option<Name>],
) -> Result<(), AllocError>
    ensures { OnOk result (grants.new ≡ grants.old ++ map (spec.new_grant columns.now option grantor.now grantee.now) on.now) }
{
    for column in on {
        grants.push(new_grant(columns, option, grantor, grantee, column)?)?;
    }
    Ok(())
}

fn new_grant(
    columns: &[Column],
    option: bool,
    grantor: &Grantor,
    grantee: &Grantee,
    column: &Option<Name>,
) -> Result<Grant, AllocError>
    ensures { IfOk result (λ grant. grant ≡ spec.new_grant columns.now option grantor.now grantee.now column.now) }
{
    let place = column_place(columns, column);
    Ok(Grant {
        privilege: grantor.privilege,
        grantee: grantee.copy()?,
        grantor: grantor.name.copy()?,
        option,
        column: copy_column(column)?,
        place,
    })
}

fn copy_column(column: &Option<Name>) -> Result<Option<Name>, AllocError>
    ensures { IfOk result (λ copied. copied ≡ column.now) }
{
    match column {
        None => Ok(None),
        Some(name) => Ok(Some(name.copy()?)),
    }
}

/// The owner's own grants of the four privileges, which a table has from the start.
pub fn own_grants(alloc: Global, owner: &Name) -> Result<Items<Grant>, AllocError>
    ensures { IfOk result (λ grants. grants ≡ spec.own_grants owner.now) }
{
    let mut grants = Items::new(alloc);
    grants.push(own_grant(Privilege::Select, owner)?)?;
    grants.push(own_grant(Privilege::Insert, owner)?)?;
    grants.push(own_grant(Privilege::Update, owner)?)?;
    grants.push(own_grant(Privilege::Delete, owner)?)?;
    Ok(grants)
}

fn own_grant(privilege: Privilege, owner: &Name) -> Result<Grant, AllocError>
    ensures { IfOk result (λ grant. grant ≡ spec.own_grant owner.now privilege) }
{
    Ok(Grant {
        privilege,
        grantee: Grantee::Role(owner.copy()?),
        grantor: owner.copy()?,
        option: false,
        column: None,
        place: 0,
    })
}
