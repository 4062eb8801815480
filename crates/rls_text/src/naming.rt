//! The privileges that GRANT and REVOKE name, from tokens.

ghost use Rattle.std.specs.Prelude.{◌≡◌, ◌++◌, None, Some, false, IfOk, OnOk};
ghost use Rattle.rls_text.specs.{FirstSets.column_privilege_heads, Gives.Gives, Heads.sees};
ghost use Rattle.rls_text.specs.Grammar as g;
ghost use Rattle.rls_text.specs.Values as values;

use crate::fault::Fault;
use crate::memberships::names;
use crate::phrase::{Phrase, listed};
use crate::reading::{closed, sees_word, symbol, word};
use crate::tables::are_distinct_names;
use crate::token::{Symbol, Token};
use rls_statement::{Extent, Privileges};
use rls_value::{Items, Name, Privilege, or_drop};
use std::alloc::{AllocError, Global};

/// A privilege as it is named: for the whole table, or for the columns that are listed behind it.
type NamedPrivilege = (Privilege, Option<Items<Name>>);

/// The privileges, of which none is named twice for a column.
#[tactic(auto, unfolding(crate::specs::Grammar::privileges))]
pub fn privileges(alloc: Global, tokens: &[Token]) -> Result<(Privileges, &[Token]), Fault>
    ensures { Gives result (g.privileges.parses.read tokens.now) }
{
    let (privileges, rest) = table_privileges(alloc, tokens)?;
    let are_distinct = or_drop!(columns_are_distinct(alloc, &privileges), privileges);
    if are_distinct {
        Ok((privileges, rest))
    } else {
        drop(privileges);
        Err(Fault::Syntax)
    }
}

fn columns_are_distinct(alloc: Global, privileges: &Privileges) -> Result<bool, AllocError>
    ensures { IfOk result (λ distinct. distinct ≡ values.columns_are_distinct privileges.now) }
{
    if !are_distinct_names(alloc, privileges.select.columns.as_slice())? {
        return Ok(false);
    }
    if !are_distinct_names(alloc, privileges.insert.columns.as_slice())? {
        return Ok(false);
    }
    are_distinct_names(alloc, privileges.update.columns.as_slice())
}

#[tactic(auto, unfolding(crate::specs::Grammar::table_privileges))]
fn table_privileges(alloc: Global, tokens: &[Token]) -> Result<(Privileges, &[Token]), Fault>
    ensures { Gives result (g.table_privileges.parses.read tokens.now) }
{
    if sees_word(tokens, b"all") {
        all_privileges(alloc, tokens)
    } else {
        named_privileges(alloc, tokens)
    }
}

/// ALL, with PRIVILEGES or without, and columns, if they are listed.
#[tactic(auto, unfolding(crate::specs::Grammar::all_privileges))]
fn all_privileges(alloc: Global, tokens: &[Token]) -> Result<(Privileges, &[Token]), Fault>
    ensures { Gives result (g.all_privileges.parses.read tokens.now) }
{
    let Some(rest) = word(tokens, b"all") else {
        return Err(Fault::Syntax);
    };
    let rest = match word(rest, b"privileges") {
        Some(behind) => behind,
        None => rest,
    };
    let (columns, rest) = column_list(alloc, rest)?;
    let privileges = all_of(alloc, columns)?;
    Ok((privileges, rest))
}

/// The four for the whole table, or for columns the three that may be.
fn all_of(alloc: Global, columns: Option<Items<Name>>) -> Result<Privileges, AllocError>
    ensures { IfOk result (λ privileges. privileges ≡ values.all_of columns) }
{
    match columns {
        None => Ok(all_whole(alloc)),
        Some(columns) => all_on(alloc, columns),
    }
}

fn all_whole(alloc: Global) -> Privileges
    ensures { result ≡ values.all_of None }
{
    Privileges {
        select: Extent::new(alloc, true),
        insert: Extent::new(alloc, true),
        update: Extent::new(alloc, true),
        delete: true,
    }
}

fn all_on(alloc: Global, columns: Items<Name>) -> Result<Privileges, AllocError>
    ensures { IfOk result (λ privileges. privileges ≡ values.all_of (Some columns)) }
{
    let select = or_drop!(on_columns(alloc, columns.as_slice()), columns);
    let insert = or_drop!(on_columns(alloc, columns.as_slice()), columns, select);
    let update = Extent {
        whole: false,
        columns,
    };
    Ok(Privileges {
        select,
        insert,
        update,
        delete: false,
    })
}

fn on_columns(alloc: Global, columns: &[Name]) -> Result<Extent, AllocError>
    ensures { IfOk result (λ extent. extent ≡ record { whole = false; columns = columns.now }) }
{
    let mut extent = Extent::new(alloc, false);
    put_names(&mut extent.columns, columns)?;
    Ok(extent)
}

#[tactic(auto, unfolding(crate::specs::Grammar::named_privileges))]
fn named_privileges(alloc: Global, tokens: &[Token]) -> Result<(Privileges, &[Token]), Fault>
    ensures { Gives result (g.named_privileges.parses.read tokens.now) }
{
    let (named, rest) = privilege_list(alloc, tokens)?;
    let privileges = or_drop!(privileges_of(alloc, named.as_slice()), named);
    drop(named);
    Ok((privileges, rest))
}

#[tactic(auto, unfolding(crate::specs::Grammar::privilege_list, crate::specs::Parses::read_listed, crate::specs::Parses::behind_comma, crate::specs::Rule::with_comma))]
fn privilege_list(
    alloc: Global,
    tokens: &[Token],
) -> Result<(Items<NamedPrivilege>, &[Token]), Fault>
    ensures { Gives result (g.privilege_list.parses.read tokens.now) }
{
    listed::<NamedPrivilege>(alloc, tokens)
}

impl Phrase for (Privilege, Option<Items<Name>>) {
    ghost reader = { g.privilege.parses.read };

    fn read(
        alloc: Global,
        tokens: &[Token],
    ) -> Result<((Privilege, Option<Items<Name>>), &[Token]), Fault> {
        privilege(alloc, tokens)
    }
}

/// A privilege, and columns, if they are listed; DELETE has none.
#[tactic(auto, unfolding(crate::specs::Grammar::privilege))]
fn privilege(alloc: Global, tokens: &[Token]) -> Result<(NamedPrivilege, &[Token]), Fault>
    ensures { Gives result (g.privilege.parses.read tokens.now) }
{
    if starts_column_privilege(tokens) {
        let (privilege, rest) = column_privilege(tokens)?;
        let (columns, rest) = column_list(alloc, rest)?;
        Ok(((privilege, columns), rest))
    } else {
        match word(tokens, b"delete") {
            Some(rest) => Ok(((Privilege::Delete, None), rest)),
            None => Err(Fault::Syntax),
        }
    }
}

/// Whether a privilege comes next that may be of columns.
#[tactic(auto, using(crate::proofs::Loops::sees_more, crate::proofs::Loops::sees_first))]
fn starts_column_privilege(tokens: &[Token]) -> bool
    ensures { result ≡ sees column_privilege_heads tokens.now }
{
    sees_word(tokens, b"select") || sees_word(tokens, b"insert") || sees_word(tokens, b"update")
}

#[tactic(auto, unfolding(crate::specs::Grammar::column_privilege))]
fn column_privilege(tokens: &[Token]) -> Result<(Privilege, &[Token]), Fault>
    ensures { Gives result (g.column_privilege.parses.read tokens.now) }
{
    if let Some(rest) = word(tokens, b"select") {
        Ok((Privilege::Select, rest))
    } else if let Some(rest) = word(tokens, b"insert") {
        Ok((Privilege::Insert, rest))
    } else if let Some(rest) = word(tokens, b"update") {
        Ok((Privilege::Update, rest))
    } else {
        Err(Fault::Syntax)
    }
}

/// Columns in parentheses, if they are listed.
#[tactic(auto, unfolding(crate::specs::Grammar::column_list))]
fn column_list(alloc: Global, tokens: &[Token]) -> Result<(Option<Items<Name>>, &[Token]), Fault>
    ensures { Gives result (g.column_list.parses.read tokens.now) }
{
    match symbol(tokens, Symbol::LParen) {
        Some(rest) => {
            let (columns, rest) = names(alloc, rest)?;
            let (columns, rest) = closed(columns, rest)?;
            Ok((Some(columns), rest))
        }
        None => Ok((None, tokens)),
    }
}

/// The privileges together: each for the whole table where it is named so, and for the columns of its lists.
fn privileges_of(
    alloc: Global,
    mut named: &[(Privilege, Option<Items<Name>>)],
) -> Result<Privileges, AllocError>
    ensures { IfOk result (λ privileges. privileges ≡ values.privileges_of named.entry.now) }
{
    let mut privileges = no_privileges(alloc);
    while let [first, rest @ ..] = named {
        put_privilege(&mut privileges, first)?;
        named = rest;
    }
    Ok(privileges)
}

fn no_privileges(alloc: Global) -> Privileges
    ensures { result ≡ values.no_privileges }
{
    Privileges {
        select: Extent::new(alloc, false),
        insert: Extent::new(alloc, false),
        update: Extent::new(alloc, false),
        delete: false,
    }
}

#[tactic(auto, unfolding(crate::specs::Values::with_privilege))]
fn put_privilege(
    privileges: &mut Privileges,
    named: &(Privilege, Option<Items<Name>>),
) -> Result<(), AllocError>
    ensures { OnOk result (privileges.new ≡ values.with_privilege privileges.old named.now) }
{
    let (privilege, columns) = named;
    match privilege {
        Privilege::Select => extend(&mut privileges.select, columns),
        Privilege::Insert => extend(&mut privileges.insert, columns),
        Privilege::Update => extend(&mut privileges.update, columns),
        Privilege::Delete => {
            privileges.delete = true;
            Ok(())
        }
    }
}

/// For the whole too, or for these columns too.
fn extend(extent: &mut Extent, columns: &Option<Items<Name>>) -> Result<(), AllocError>
    ensures { OnOk result (extent.new ≡ values.extended extent.old columns.now) }
{
    match columns {
        None => {
            extent.whole = true;
            Ok(())
        }
        Some(columns) => put_names(&mut extent.columns, columns.as_slice()),
    }
}

/// Puts each name behind those that are there.
fn put_names(names: &mut Items<Name>, more: &[Name]) -> Result<(), AllocError>
    ensures { OnOk result (names.new ≡ names.old ++ more.now) }
{
    for name in more {
        names.push(name.copy()?)?;
    }
    Ok(())
}
