//! Laws of the definitions, each a clause of a function that does nothing.

ghost use Rattle.std.specs.Prelude.{◌≡◌, ℕ, List};
ghost use Rattle.rls_value.specs.Names.{one_of};
ghost use Rattle.rls_verdict.specs.rls_catalog.specs.GrantOptions.{grantor_of};
ghost use Rattle.rls_verdict.specs.rls_catalog.specs.Membership.{attributes_of, walked_by};
ghost use Rattle.rls_verdict.specs.rls_catalog.specs.Privileges.{AreOptions, missing};
ghost use Rattle.rls_verdict.specs.rls_catalog.specs.State.{State, grants_of};
ghost use Rattle.rls_verdict.specs.rls_catalog.specs.declared.grant.Grant.{Grant};
ghost use Rattle.rls_value.specs.declared.verb.Privilege.{Privilege};
ghost use Rattle.rls_role.specs.Reaching.{effective_roles_in};
ghost use Rattle.rls_grant.specs.Grantors.{grantor_by};
ghost use Rattle.rls_grant.specs.Holders.{holders_of};
ghost use Rattle.rls_grant.specs.Missing.{missing_in};

/// Who grants, told by whose privileges a role has, is what the rule over a state says; and those that it is chosen among
/// are the least set of the holders of the grant option.
#[tactic(auto, using(crate::proofs::GrantorLaws::grantor_means, crate::proofs::HolderLaws::holders_are))]
pub fn grantor_means()
    ensures grantor { (s : State) (role owner : List ℕ) (holders : List (List ℕ)) → grantor_by (effective_roles_in s role) role owner (one_of holders) ≡ grantor_of s role owner holders }
    ensures holders { (owner : List ℕ) (grants : List Grant) (privilege : Privilege) → AreOptions owner grants privilege (holders_of owner grants privilege) }
{}

/// What a role lacks of a privilege, told by whose privileges it has and by the grants there, is what the rule over a state says.
#[tactic(auto, using(crate::proofs::MissingLaws::missing_means))]
pub fn missing_means()
    ensures { (s : State) (role : List ℕ) (privilege : Privilege) (table : List ℕ) (columns : List (List ℕ)) → missing s role privilege table columns ≡ missing_in (attributes_of s role).superuser (walked_by s role) (grants_of s table) privilege table columns }
{}
