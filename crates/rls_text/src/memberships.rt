//! GRANT and REVOKE of roles behind the first word, and SET ROLE, from tokens.

ghost use Rattle.std.specs.Prelude.{◌≡◌, [], ◌∷◌, codes, Some};
ghost use Rattle.rls_text.specs.{Gives.Gives, Gives.or_no_items, Parses.and_then, Parses.read_both, Parses.read_token, Heads.Keyword, Lang.put_in};
ghost use Rattle.rls_text.specs.Ahead as ahead;
ghost use Rattle.rls_text.specs.Grammar as g;
ghost use Rattle.rls_text.specs.Values as values;

use crate::fault::Fault;
use crate::phrase::{Phrase, listed};
use crate::reading::{name, sees_word, two_words, word};
use crate::token::Token;
use rls_statement::{
    GrantRoles, MembershipOption, MembershipOptions, RevokeRoles, SetRole, Statement,
};
use rls_value::{Items, Name, or_drop};
use std::alloc::Global;

#[tactic(auto, unfolding(crate::specs::Grammar::granted_roles))]
pub fn granted_roles(alloc: Global, tokens: &[Token]) -> Result<(Statement, &[Token]), Fault>
    ensures { Gives result (g.granted_roles.parses.read tokens.now) }
{
    let (roles, rest) = names(alloc, tokens)?;
    let ((to, options), rest) = or_drop!(to_members(alloc, rest), roles);
    let grant = GrantRoles { roles, to, options };
    Ok((Statement::GrantRoles(grant), rest))
}

/// TO, the members, and the options.
fn to_members(
    alloc: Global,
    tokens: &[Token],
) -> Result<((Items<Name>, MembershipOptions), &[Token]), Fault>
    ensures { Gives result (and_then (read_token (Token.Word (codes "to")) tokens.now) (λ _ rest. read_both g.names.parses.read g.options.parses.read rest)) }
{
    let Some(rest) = word(tokens, b"to") else {
        return Err(Fault::Syntax);
    };
    let (to, rest) = names(alloc, rest)?;
    let (options, rest) = or_drop!(options(alloc, rest), to);
    Ok(((to, options), rest))
}

#[tactic(auto, unfolding(crate::specs::Grammar::revoked_memberships))]
pub fn revoked_memberships(alloc: Global, tokens: &[Token]) -> Result<(Statement, &[Token]), Fault>
    ensures { Gives result (g.revoked_memberships.parses.read tokens.now) }
{
    if option_second(tokens) {
        revoked_option(alloc, tokens)
    } else {
        revoked_roles(alloc, tokens)
    }
}

/// Whether the second word is OPTION: no list of roles has it there.
fn option_second(tokens: &[Token]) -> bool
    ensures { result ≡ ahead.second_is (Keyword (codes "option") ∷ []) tokens.now }
{
    match tokens {
        [_, rest @ ..] => sees_word(rest, b"option"),
        [] => false,
    }
}

#[tactic(auto, unfolding(crate::specs::Grammar::revoked_option))]
fn revoked_option(alloc: Global, tokens: &[Token]) -> Result<(Statement, &[Token]), Fault>
    ensures { Gives result (g.revoked_option.parses.read tokens.now) }
{
    let (option, rest) = option_for(tokens)?;
    let ((roles, (from, cascade)), rest) = roles_from(alloc, rest)?;
    let revoke = RevokeRoles {
        option: Some(option),
        roles,
        from,
        cascade,
    };
    Ok((Statement::RevokeRoles(revoke), rest))
}

#[tactic(auto, unfolding(crate::specs::Grammar::revoked_roles))]
fn revoked_roles(alloc: Global, tokens: &[Token]) -> Result<(Statement, &[Token]), Fault>
    ensures { Gives result (g.revoked_roles.parses.read tokens.now) }
{
    let ((roles, (from, cascade)), rest) = roles_from(alloc, tokens)?;
    let revoke = RevokeRoles {
        option: None,
        roles,
        from,
        cascade,
    };
    Ok((Statement::RevokeRoles(revoke), rest))
}

#[tactic(auto, unfolding(crate::specs::Grammar::option_for))]
fn option_for(tokens: &[Token]) -> Result<(MembershipOption, &[Token]), Fault>
    ensures { Gives result (g.option_for.parses.read tokens.now) }
{
    let (option, rest) = option(tokens)?;
    match two_words(rest, b"option", b"for") {
        Some(rest) => Ok((option, rest)),
        None => Err(Fault::Syntax),
    }
}

#[tactic(auto, unfolding(crate::specs::Grammar::roles_from))]
fn roles_from(
    alloc: Global,
    tokens: &[Token],
) -> Result<((Items<Name>, (Items<Name>, bool)), &[Token]), Fault>
    ensures { Gives result (g.roles_from.parses.read tokens.now) }
{
    let (roles, rest) = names(alloc, tokens)?;
    let ((from, cascade), rest) = or_drop!(from_members(alloc, rest), roles);
    Ok(((roles, (from, cascade)), rest))
}

/// FROM, the members, and whether CASCADE is written.
fn from_members(alloc: Global, tokens: &[Token]) -> Result<((Items<Name>, bool), &[Token]), Fault>
    ensures { Gives result (and_then (read_token (Token.Word (codes "from")) tokens.now) (λ _ rest. read_both g.names.parses.read g.cascade.parses.read rest)) }
{
    let Some(rest) = word(tokens, b"from") else {
        return Err(Fault::Syntax);
    };
    let (from, rest) = names(alloc, rest)?;
    let (cascade, rest) = cascade(rest);
    Ok(((from, cascade), rest))
}

/// Whether CASCADE is written. RESTRICT says what holds without it.
#[tactic(auto, unfolding(crate::specs::Grammar::cascade))]
pub fn cascade(tokens: &[Token]) -> (bool, &[Token])
    ensures { g.cascade.parses.read tokens.now ≡ Some (result.0, result.1.now) }
{
    if let Some(rest) = word(tokens, b"cascade") {
        (true, rest)
    } else if let Some(rest) = word(tokens, b"restrict") {
        (false, rest)
    } else {
        (false, tokens)
    }
}

#[tactic(auto, unfolding(crate::specs::Grammar::set_role))]
pub fn set_role(alloc: Global, tokens: &[Token]) -> Result<(Statement, &[Token]), Fault>
    ensures { Gives result (g.set_role.parses.read tokens.now) }
{
    let (role, rest) = role_change(alloc, tokens)?;
    Ok((Statement::SetRole(role), rest))
}

#[tactic(auto, unfolding(crate::specs::Grammar::role_change))]
fn role_change(alloc: Global, tokens: &[Token]) -> Result<(SetRole, &[Token]), Fault>
    ensures { Gives result (g.role_change.parses.read tokens.now) }
{
    if sees_word(tokens, b"set") {
        role_set(alloc, tokens)
    } else {
        role_reset(tokens)
    }
}

#[tactic(auto, unfolding(crate::specs::Grammar::role_set))]
fn role_set(alloc: Global, tokens: &[Token]) -> Result<(SetRole, &[Token]), Fault>
    ensures { Gives result (g.role_set.parses.read tokens.now) }
{
    let Some(rest) = word(tokens, b"set") else {
        return Err(Fault::Syntax);
    };
    match word(rest, b"role") {
        Some(rest) => chosen_role(alloc, rest),
        None => Err(Fault::Syntax),
    }
}

#[tactic(auto, unfolding(crate::specs::Grammar::role_reset))]
fn role_reset(tokens: &[Token]) -> Result<(SetRole, &[Token]), Fault>
    ensures { Gives result (g.role_reset.parses.read tokens.now) }
{
    match two_words(tokens, b"reset", b"role") {
        Some(rest) => Ok((SetRole::Reset, rest)),
        None => Err(Fault::Syntax),
    }
}

#[tactic(auto, unfolding(crate::specs::Grammar::chosen_role))]
fn chosen_role(alloc: Global, tokens: &[Token]) -> Result<(SetRole, &[Token]), Fault>
    ensures { Gives result (g.chosen_role.parses.read tokens.now) }
{
    match word(tokens, b"none") {
        Some(rest) => Ok((SetRole::None, rest)),
        None => {
            let (role, rest) = name(alloc, tokens)?;
            Ok((SetRole::To(role), rest))
        }
    }
}

#[tactic(auto, unfolding(crate::specs::Grammar::names, crate::specs::Parses::read_listed, crate::specs::Parses::behind_comma, crate::specs::Rule::with_comma))]
pub fn names(alloc: Global, tokens: &[Token]) -> Result<(Items<Name>, &[Token]), Fault>
    ensures { Gives result (g.names.parses.read tokens.now) }
{
    listed::<Name>(alloc, tokens)
}

impl Phrase for Name {
    ghost reader = { g.name.parses.read };

    fn read(alloc: Global, tokens: &[Token]) -> Result<(Name, &[Token]), Fault> {
        name(alloc, tokens)
    }
}

/// The options behind WITH, each once at most.
#[tactic(auto, unfolding(crate::specs::Grammar::options, crate::specs::Gives::or_no_items))]
fn options(alloc: Global, tokens: &[Token]) -> Result<(MembershipOptions, &[Token]), Fault>
    ensures { Gives result (g.options.parses.read tokens.now) }
{
    let (written, rest) = settings_if_any(alloc, tokens)?;
    let options = gathered(written.as_slice());
    drop(written);
    Ok((options, rest))
}

#[tactic(auto, unfolding(crate::specs::Grammar::settings_if_any, crate::specs::Gives::or_no_items))]
fn settings_if_any(
    alloc: Global,
    tokens: &[Token],
) -> Result<(Items<(MembershipOption, bool)>, &[Token]), Fault>
    ensures { Gives result (or_no_items (g.settings_if_any.parses.read tokens.now)) }
{
    if let Some(rest) = word(tokens, b"with") {
        settings(alloc, rest)
    } else {
        Ok((Items::new(alloc), tokens))
    }
}

#[tactic(auto, unfolding(crate::specs::Grammar::settings))]
fn settings(
    alloc: Global,
    tokens: &[Token],
) -> Result<(Items<(MembershipOption, bool)>, &[Token]), Fault>
    ensures { Gives result (g.settings.parses.read tokens.now) }
{
    let (all, rest) = all_settings(alloc, tokens)?;
    if set_once(all.as_slice()) {
        Ok((all, rest))
    } else {
        drop(all);
        Err(Fault::Syntax)
    }
}

#[tactic(auto, unfolding(crate::specs::Grammar::all_settings, crate::specs::Parses::read_listed, crate::specs::Parses::behind_comma, crate::specs::Rule::with_comma))]
fn all_settings(
    alloc: Global,
    tokens: &[Token],
) -> Result<(Items<(MembershipOption, bool)>, &[Token]), Fault>
    ensures { Gives result (g.all_settings.parses.read tokens.now) }
{
    listed::<(MembershipOption, bool)>(alloc, tokens)
}

impl Phrase for (MembershipOption, bool) {
    ghost reader = { g.setting.parses.read };

    fn read(
        _alloc: Global,
        tokens: &[Token],
    ) -> Result<((MembershipOption, bool), &[Token]), Fault> {
        setting(tokens)
    }
}

#[tactic(auto, unfolding(crate::specs::Grammar::setting))]
fn setting(tokens: &[Token]) -> Result<((MembershipOption, bool), &[Token]), Fault>
    ensures { Gives result (g.setting.parses.read tokens.now) }
{
    let (option, rest) = option(tokens)?;
    let (flag, rest) = flag(rest)?;
    Ok(((option, flag), rest))
}

#[tactic(auto, unfolding(crate::specs::Grammar::option))]
fn option(tokens: &[Token]) -> Result<(MembershipOption, &[Token]), Fault>
    ensures { Gives result (g.option.parses.read tokens.now) }
{
    if let Some(rest) = word(tokens, b"admin") {
        Ok((MembershipOption::Admin, rest))
    } else if let Some(rest) = word(tokens, b"inherit") {
        Ok((MembershipOption::Inherit, rest))
    } else if let Some(rest) = word(tokens, b"set") {
        Ok((MembershipOption::Set, rest))
    } else {
        Err(Fault::Syntax)
    }
}

/// OPTION is TRUE.
#[tactic(auto, unfolding(crate::specs::Grammar::flag))]
fn flag(tokens: &[Token]) -> Result<(bool, &[Token]), Fault>
    ensures { Gives result (g.flag.parses.read tokens.now) }
{
    if let Some(rest) = word(tokens, b"true") {
        Ok((true, rest))
    } else if let Some(rest) = word(tokens, b"option") {
        Ok((true, rest))
    } else if let Some(rest) = word(tokens, b"false") {
        Ok((false, rest))
    } else {
        Err(Fault::Syntax)
    }
}

fn set_once(mut settings: &[(MembershipOption, bool)]) -> bool
    ensures { result ≡ values.set_once settings.entry.now }
{
    while let [first, rest @ ..] = settings {
        if !lacks_option(first.0, rest) {
            return false;
        }
        settings = rest;
    }
    true
}

fn lacks_option(option: MembershipOption, mut others: &[(MembershipOption, bool)]) -> bool
    ensures { result ≡ values.lacks_option option others.entry.now }
{
    while let [other, rest @ ..] = others {
        if option == other.0 {
            return false;
        }
        others = rest;
    }
    true
}

fn gathered(mut written: &[(MembershipOption, bool)]) -> MembershipOptions
    ensures { result ≡ put_in values.with_setting values.no_options written.entry.now }
{
    let mut options = MembershipOptions {
        admin: None,
        inherit: None,
        set: None,
    };
    while let [first, rest @ ..] = written {
        options = with_setting(options, *first);
        written = rest;
    }
    options
}

fn with_setting(options: MembershipOptions, setting: (MembershipOption, bool)) -> MembershipOptions
    ensures { result ≡ values.with_setting options setting }
{
    let mut options = options;
    match setting {
        (MembershipOption::Admin, flag) => options.admin = Some(flag),
        (MembershipOption::Inherit, flag) => options.inherit = Some(flag),
        (MembershipOption::Set, flag) => options.set = Some(flag),
    }
    options
}
