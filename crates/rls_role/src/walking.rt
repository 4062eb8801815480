//! A walk over memberships: over those whose INHERIT or SET option is true, or over all.

ghost use Rattle.std.specs.Prelude.{◌≡◌, ◌++◌, slice_get, IfOk, OnOk};
ghost use Rattle.std.specs.Option.{option_copied};
ghost use Rattle.rls_source.specs.rls_catalog.specs.Membership.{fresh, visit_reads, walk_reads};
ghost use Rattle.rls_source.specs.rls_catalog.specs.Paths.{granted_where, held_by, reached_where};
ghost use Rattle.rls_source.specs.Answering.{having_read};
ghost use Rattle.rls_role.specs.{Holdings.with_held, Steps.takes};

use crate::holding::Holdings;
use crate::name_set::NameSet;
use rls_source::Asker;
use rls_source::rls_catalog::{Membership, Memberships};
use rls_source::rls_value::{Items, Name};
use std::alloc::AllocError;

/// Which memberships a walk takes.
#[derive(Clone, Copy, PartialEq, Eq)]
pub enum Step {
    /// Those whose INHERIT option is true.
    Inherit,
    /// Those whose SET option is true.
    Set,
    /// All, whatever their options.
    Any,
}

impl Step {
    pub fn takes(self, membership: &Membership) -> bool
        ensures { result ≡ takes self membership.now }
    {
        match self {
            Step::Inherit => membership.inherit,
            Step::Set => membership.set,
            Step::Any => true,
        }
    }
}

/// The role and those that it reaches over such memberships, each once, where those listed stand in place of the source's.
/// It reads each of them, and its memberships.
pub fn reached(
    asker: &mut Asker,
    held: &Holdings,
    role: &Name,
    step: Step,
) -> Result<Items<Name>, AllocError>
    ensures names { IfOk result (λ names. names ≡ reached_where (takes step) (with_held held.now asker.old.state) role.now) }
    ensures noted { OnOk result (asker.new ≡ having_read asker.old (walk_reads (reached_where (takes step) (with_held held.now asker.old.state) role.now))) }
{
    let alloc = asker.alloc();
    let mut names = NameSet::new(alloc);
    names.add(role)?;
    let mut next = 0;
    while let Some(name) = name_at(names.as_slice(), next) {
        let name = name.copy()?;
        visit(asker, held, &mut names, &name, step)?;
        next += 1;
    }
    let items = names.into_items(alloc)?;
    Ok(items)
}

fn name_at(names: &[Name], index: usize) -> Option<&Name>
    ensures { option_copied result ≡ slice_get names.now index }
{
    names.get(index)
}

/// Adds the roles that the role was granted by such memberships and that aren't there yet.
#[tactic(auto, using(crate::specs::Holdings::members_found), unfolding(rls_source::specs::Asked::role_at, rls_source::specs::Asked::members_at))]
fn visit(
    asker: &mut Asker,
    held: &Holdings,
    names: &mut NameSet,
    name: &Name,
    step: Step,
) -> Result<(), AllocError>
    ensures names { OnOk result (names.new ≡ names.old ++ fresh names.old (granted_where (takes step) (held_by (with_held held.now asker.old.state) name.now))) }
    ensures noted { OnOk result (asker.new ≡ having_read asker.old (visit_reads name.now)) }
{
    let def = asker.role(name)?;
    let memberships = asker.members(name)?;
    if def.is_none() {
        return Ok(());
    }
    match held.find(name) {
        Some(memberships) => add_fresh(names, memberships, step),
        None => add_fresh(names, memberships, step),
    }
}

fn add_fresh(names: &mut NameSet, memberships: &Memberships, step: Step) -> Result<(), AllocError>
    ensures { OnOk result (names.new ≡ names.old ++ fresh names.old (granted_where (takes step) memberships.now)) }
{
    for membership in memberships.iter() {
        if step.takes(membership) {
            names.add(&membership.role)?;
        }
    }
    Ok(())
}
