//! The relations that subqueries look through.

ghost use Rattle.std.specs.Prelude.{◌≡◌, ◌++◌, IfOk, OnOk};
ghost use Rattle.std.specs.Option.{option_copied};
ghost use Rattle.rls_guard.specs.rls_catalog.specs.rls_expr.specs.Scopes.{known_table};
ghost use Rattle.rls_recursion.specs.Searching.{dependency_in};
ghost use Rattle.rls_expansion.specs.Relations as spec;

use rls_guard::rls_catalog::rls_expr::{FromTable, NamedTable, Policy, TableDef, known_table};
use rls_guard::rls_evaluation::{SecuredRelation, SecurityQuals};
use rls_guard::{PolicyScope, conditions_of};
use rls_recursion::rls_catalog::Side;
use rls_recursion::{PolicyDependency, dependency_in};
use rls_value::{Items, Kind, Name, Reference};
use std::alloc::{AllocError, Global};

/// The tables of the dependencies that are there.
pub(crate) fn known_in<'c>(
    alloc: Global,
    dependencies: &[PolicyDependency<'c>],
) -> Result<Items<NamedTable<'c>>, AllocError>
    ensures { IfOk result (λ known. known ≡ spec.known_in dependencies.now) }
{
    let mut known = Items::new(alloc);
    for dependency in dependencies {
        if let Some(table) = &dependency.known {
            known.push(table.copy()?)?;
        }
    }
    Ok(known)
}

/// The relations of the tables, in their order.
pub(crate) fn relations_of<'c>(
    alloc: Global,
    found: &[NamedTable<'c>],
    dependencies: &[PolicyDependency<'c>],
    names: &[Name],
) -> Result<Items<SecuredRelation<'c>>, AllocError>
    ensures { IfOk result (λ relations. relations ≡ spec.relations_of found.now dependencies.now names.now) }
{
    let mut relations = Items::new(alloc);
    for name in names {
        put_relation(alloc, &mut relations, found, dependencies, name)?;
    }
    Ok(relations)
}

/// The relation of the table, if it is there, behind the others.
fn put_relation<'c>(
    alloc: Global,
    relations: &mut Items<SecuredRelation<'c>>,
    found: &[NamedTable<'c>],
    dependencies: &[PolicyDependency<'c>],
    name: &Name,
) -> Result<(), AllocError>
    ensures { OnOk result (relations.new ≡ relations.old ++ spec.relation_for found.now name.now (known_table found.now name.now) (dependency_in dependencies.now name.now)) }
{
    match known_table(found, name) {
        Some(table) => match dependency_in(dependencies, name) {
            Some(dependency) => relations.push(relation_of(
                alloc,
                found,
                name,
                table,
                &dependency.policies,
            )?),
            None => Ok(()),
        },
        None => Ok(()),
    }
}

fn relation_of<'c>(
    alloc: Global,
    found: &[NamedTable<'c>],
    name: &Name,
    table: &TableDef,
    policies: &Option<Items<Reference<'c, Policy>>>,
) -> Result<SecuredRelation<'c>, AllocError>
    ensures { IfOk result (λ relation. relation ≡ record { table = name.now; quals = spec.quals_of found.now (name.now, table.now) policies.now }) }
{
    let quals = quals_of(alloc, found, name, table, policies)?;
    match name.copy() {
        Ok(table) => Ok(SecuredRelation { table, quals }),
        Err(refused) => {
            drop(quals);
            Err(refused)
        }
    }
}

fn quals_of<'c>(
    alloc: Global,
    found: &[NamedTable<'c>],
    name: &Name,
    table: &TableDef,
    policies: &Option<Items<Reference<'c, Policy>>>,
) -> Result<SecurityQuals<'c>, AllocError>
    ensures { IfOk result (λ quals. quals ≡ spec.quals_of found.now (name.now, table.now) policies.now) }
{
    match policies {
        None => Ok(SecurityQuals::Exempt),
        Some(policies) => {
            let conditions = conditions_of(
                alloc,
                policies.as_slice(),
                PolicyScope {
                    from: FromTable { name, table },
                    found,
                },
                Kind::Select,
                Side::Old,
            )?;
            Ok(SecurityQuals::Policies(conditions))
        }
    }
}
