//! Whose privileges a role has.

ghost use Rattle.std.specs.Prelude.{◌≡◌, ◌↔◌, ◌||◌, if◌then◌else◌, [], true, IfOk, OnOk};
ghost use Rattle.rls_source.specs.rls_value.specs.Names.{one_of};
ghost use Rattle.rls_source.specs.rls_catalog.specs.{Membership.attributes_of, Membership.walked_by, Membership.walk_reads, Membership.effective_roles_reads, Membership.has_privileges_of, HasPrivileges.HasPrivilegesOf, Privileges.includes, State.State, State.AgreesOn, Paths.MaySet, Paths.can_set_reads, Paths.reached_where};
ghost use Rattle.rls_source.specs.rls_catalog.specs.Paths as paths;
ghost use Rattle.rls_source.specs.Answering.{Tells, having_read};
ghost use Rattle.rls_role.specs.Reaching as spec;
ghost use Rattle.rls_role.specs.Steps.{takes, walked_where, walked_reads};

use crate::holding::Holdings;
use crate::names::is_among;
use crate::walking::{Step, reached};
use rls_source::rls_catalog::RoleDef;
use rls_source::rls_value::{Items, Name};
use rls_source::{Asker, RowSource};
use rls_statement::rls_expr::Grantee;
use std::alloc::{AllocError, Global};

/// Whose privileges a role has, so that one walk over memberships serves many questions.
#[derive(Drop)]
pub struct EffectiveRoles {
    /// It has those of every role.
    pub superuser: bool,
    /// The role and those whose privileges it inherits; none for a superuser.
    pub names: Items<Name>,
}

impl EffectiveRoles {
    /// Whether the role has the privileges of the other.
    pub fn has(&self, of: &Name) -> bool
        ensures { result ≡ (self.now.superuser || one_of self.now.names of.now) }
    {
        self.superuser || is_among(self.names.as_slice(), of)
    }

    /// Whether what is for the grantee is for the role: the grantee is PUBLIC, or one whose privileges the role has.
    pub fn includes(&self, grantee: &Grantee) -> bool
        ensures { result ≡ includes self.now.superuser self.now.names grantee.now }
    {
        match grantee {
            Grantee::Public => true,
            Grantee::Role(name) => self.has(name),
        }
    }
}

/// Whether the role has the privileges of the other: it is a superuser itself, or reaches it over memberships whose
/// INHERIT option is true (PostgreSQL manual, 22.3). In every state that agrees on what is read the answer is the same.
#[tactic(auto, using(crate::proofs::PassedOn::has_privileges_means, crate::proofs::PassedOn::has_frame, crate::proofs::StepLaws::walked_inherit))]
pub fn has<'c, S: RowSource<'c>>(
    alloc: Global,
    source: &mut S,
    role: &Name,
    of: &Name,
) -> Result<bool, AllocError>
    ensures has { IfOk result (λ has. has ≡ has_privileges_of (S.state source.old) role.now of.now) }
    ensures means { (has_privileges_of (S.state source.old) role.now of.now ≡ true) ↔ HasPrivilegesOf (S.state source.old) role.now of.now }
    ensures frame { (other : State) → AgreesOn (S.state source.old) other (effective_roles_reads (S.state source.old) role.now) → has_privileges_of other role.now of.now ≡ has_privileges_of (S.state source.old) role.now of.now }
    ensures read { OnOk result (source.new ≡ S.after source.old (effective_roles_reads (S.state source.old) role.now)) }
    ensures state { S.state source.new ≡ S.state source.old }
{
    let mut asker = Asker::new(alloc, source.catalog());
    let has = reaches(&mut asker, role, of, Step::Inherit)?;
    let reads = asker.into_reads();
    source.mark(alloc, reads.as_slice())?;
    Ok(has)
}

/// Whether the login may set the role: it is a superuser, or reaches it over memberships whose SET option is true
/// (PostgreSQL manual, SET ROLE). In every state that agrees on what is read the answer is the same.
#[tactic(auto, using(crate::proofs::PassedOn::can_set_is, crate::proofs::PassedOn::can_set_frame, crate::proofs::StepLaws::can_set_walked, crate::proofs::StepLaws::can_set_reads_walked))]
pub fn can_set<'c, S: RowSource<'c>>(
    alloc: Global,
    source: &mut S,
    login: &Name,
    role: &Name,
) -> Result<bool, AllocError>
    ensures can { IfOk result (λ can. can ≡ paths.can_set (S.state source.old) login.now role.now) }
    ensures means { (paths.can_set (S.state source.old) login.now role.now ≡ true) ↔ MaySet (S.state source.old) login.now role.now }
    ensures frame { (other : State) → AgreesOn (S.state source.old) other (can_set_reads (S.state source.old) login.now) → paths.can_set other login.now role.now ≡ paths.can_set (S.state source.old) login.now role.now }
    ensures read { OnOk result (source.new ≡ S.after source.old (can_set_reads (S.state source.old) login.now)) }
    ensures state { S.state source.new ≡ S.state source.old }
{
    let mut asker = Asker::new(alloc, source.catalog());
    let can = reaches(&mut asker, login, role, Step::Set)?;
    let reads = asker.into_reads();
    source.mark(alloc, reads.as_slice())?;
    Ok(can)
}

/// Whose privileges the role has, over a source, which is marked once at the end.
#[tactic(auto, unfolding(crate::specs::Reaching::effective_roles_in, crate::specs::Reaching::effective_roles_reads_in))]
pub fn effective_roles_over<'c, S: RowSource<'c>>(
    alloc: Global,
    source: &mut S,
    role: &Name,
) -> Result<EffectiveRoles, AllocError>
    ensures superuser { IfOk result (λ effective_roles. effective_roles.superuser ≡ (attributes_of (S.state source.old) role.now).superuser) }
    ensures names { IfOk result (λ effective_roles. effective_roles.names ≡ walked_by (S.state source.old) role.now) }
    ensures read { OnOk result (source.new ≡ S.after source.old (effective_roles_reads (S.state source.old) role.now)) }
    ensures state { S.state source.new ≡ S.state source.old }
{
    let mut asker = Asker::new(alloc, source.catalog());
    let effective_roles = effective_roles_of(&mut asker, role)?;
    let reads = asker.into_reads();
    match source.mark(alloc, reads.as_slice()) {
        Ok(()) => Ok(effective_roles),
        Err(refused) => {
            drop(effective_roles);
            Err(refused)
        }
    }
}

/// Whether the role is a superuser, or reaches the other over such memberships.
pub fn reaches(asker: &mut Asker, role: &Name, of: &Name, step: Step) -> Result<bool, AllocError>
    ensures reaches { IfOk result (λ reaches. reaches ≡ ((attributes_of asker.old.state role.now).superuser || one_of (walked_where step asker.old.state role.now) of.now)) }
    ensures noted { OnOk result (asker.new ≡ having_read asker.old (walked_reads step asker.old.state role.now)) }
{
    let effective_roles = effective_roles_by(asker, role, step)?;
    let reaches = effective_roles.has(of);
    drop(effective_roles);
    Ok(reaches)
}

/// Whose privileges the role has. It reads the role and, unless that is a superuser, each role that it reaches.
#[tactic(auto, using(crate::proofs::StepLaws::walked_inherit), unfolding(crate::specs::Reaching::effective_roles_in, crate::specs::Reaching::effective_roles_reads_in))]
pub fn effective_roles_of(asker: &mut Asker, role: &Name) -> Result<EffectiveRoles, AllocError>
    ensures { Tells (spec.effective_roles_of role.now) asker.old asker.new result }
{
    effective_roles_by(asker, role, Step::Inherit)
}

/// Which roles the role reaches over such memberships; a superuser's aren't asked.
#[tactic(auto, unfolding(rls_source::specs::Asked::role_at))]
fn effective_roles_by(
    asker: &mut Asker,
    role: &Name,
    step: Step,
) -> Result<EffectiveRoles, AllocError>
    ensures superuser { IfOk result (λ effective_roles. effective_roles.superuser ≡ (attributes_of asker.old.state role.now).superuser) }
    ensures names { IfOk result (λ effective_roles. effective_roles.names ≡ walked_where step asker.old.state role.now) }
    ensures noted { OnOk result (asker.new ≡ having_read asker.old (walked_reads step asker.old.state role.now)) }
{
    let superuser = RoleDef::known(asker.role(role)?).superuser;
    let names = walked(asker, role, superuser, step)?;
    Ok(EffectiveRoles { superuser, names })
}

fn walked(
    asker: &mut Asker,
    role: &Name,
    superuser: bool,
    step: Step,
) -> Result<Items<Name>, AllocError>
    ensures names { IfOk result (λ names. names ≡ (if superuser then [] else reached_where (takes step) asker.old.state role.now)) }
    ensures noted { OnOk result (asker.new ≡ having_read asker.old (walk_reads (if superuser then [] else reached_where (takes step) asker.old.state role.now))) }
{
    let alloc = asker.alloc();
    if superuser {
        return Ok(Items::new(alloc));
    }
    let nobody = Holdings::new(alloc);
    let names = reached(asker, &nobody, role, step);
    drop(nobody);
    names
}
