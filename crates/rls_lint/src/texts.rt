//! How a finding is written.

ghost use Rattle.std.specs.Prelude.{◌≡◌, ◌++◌, codes, string_bytes, IfOk, OnOk};
ghost use Rattle.std.specs.Fmt.{decimal};
ghost use Rattle.rls_lint.specs.Texts as spec;

use crate::commands::Commands;
use crate::finding::{Finding, Lookup, Mistake};
use rls_printing::push_escaped_line;
use rls_value::{Name, Text};
use std::alloc::{AllocError, Global};

impl Finding {
    /// The line, with its end. Control characters and backslashes are escaped.
    pub fn line(&self, alloc: Global) -> Result<Vec<u8>, AllocError>
        ensures { IfOk result (λ line. line.items ≡ spec.finding_line self.now) }
    {
        let text = self.text(alloc)?;
        let mut line = Vec::new(alloc);
        push_escaped_line(&mut line, text.as_str())?;
        Ok(line)
    }

    /// The text of the line.
    fn text(&self, alloc: Global) -> Result<String, AllocError>
        ensures { IfOk result (λ text. string_bytes text ≡ spec.finding_text self.now) }
    {
        let text = mistake_text(alloc, &self.mistake)?;
        let policy = policy_text(alloc, &self.mistake)?;
        let rule = rule_text(&self.mistake);
        let table = &self.table;
        format!(in alloc; "{rule} {table}{policy}: {text}")
    }
}

fn lookup_rule(how: Lookup) -> &'static str
    ensures { result.now ≡ spec.lookup_rule how }
{
    match how {
        Lookup::Blind => "blind-lookup",
        Lookup::Open => "open-lookup",
        Lookup::Unreadable => "unreadable",
    }
}

fn rule_text(mistake: &Mistake) -> &'static str
    ensures { result.now ≡ spec.rule_text mistake.now }
{
    match mistake {
        Mistake::Lookup(how, _, _, _) => lookup_rule(*how),
        Mistake::CheckTrue(_) => "check-true",
        Mistake::Loop(_, _) => "loop",
        Mistake::NoCheck(_, _) => "no-check",
        Mistake::Denied(true, _, _) => "restrictive-alone",
        Mistake::Denied(false, _, _) => "no-policy",
        Mistake::NullCompared(_, _, _) => "null-compared",
        Mistake::OwnerUnbound(_) => "owner-unbound",
        Mistake::Off(_) => "rls-off",
        Mistake::ToNobody(_, _) => "to-nobody",
    }
}

/// The policy, with a blank before it.
fn policy_text(alloc: Global, mistake: &Mistake) -> Result<String, AllocError>
    ensures { IfOk result (λ text. string_bytes text ≡ spec.policy_text mistake.now) }
{
    match mistake {
        Mistake::Lookup(_, policy, _, _)
        | Mistake::CheckTrue(policy)
        | Mistake::NoCheck(policy, _)
        | Mistake::ToNobody(policy, _) => format!(in alloc; " {policy}"),
        Mistake::NullCompared(policy, false, _) => format!(in alloc; " {policy} USING"),
        Mistake::NullCompared(policy, true, _) => format!(in alloc; " {policy} WITH CHECK"),
        Mistake::Loop(_, _)
        | Mistake::Denied(_, _, _)
        | Mistake::OwnerUnbound(_)
        | Mistake::Off(_) => { Ok(String::new(alloc)) }
    }
}

fn mistake_text(alloc: Global, mistake: &Mistake) -> Result<String, AllocError>
    ensures { IfOk result (λ text. string_bytes text ≡ spec.mistake_text mistake.now) }
{
    match mistake {
        Mistake::Lookup(how, _, table, roles) => lookup_text(alloc, *how, table, roles.as_slice()),
        Mistake::CheckTrue(_) => "WITH CHECK (TRUE) allows every new row".to_string(alloc),
        Mistake::Loop(table, roles) => loop_text(alloc, table, roles.as_slice()),
        Mistake::NoCheck(_, permissive) => no_check_text(*permissive).to_string(alloc),
        Mistake::Denied(alone, roles, commands) => {
            denied_text(alloc, *alone, roles.as_slice(), *commands)
        }
        Mistake::NullCompared(_, _, comparison) => null_text(alloc, comparison),
        Mistake::OwnerUnbound(roles) => owner_text(alloc, roles.as_slice()),
        Mistake::Off(count) => off_text(alloc, *count),
        Mistake::ToNobody(_, roles) => nobody_text(alloc, roles.as_slice()),
    }
}

fn lookup_text(
    alloc: Global,
    how: Lookup,
    table: &Name,
    roles: &[Name],
) -> Result<String, AllocError>
    ensures { IfOk result (λ text. string_bytes text ≡ spec.lookup_text how table.now roles.now) }
{
    match how {
        Lookup::Blind => blind_text(alloc, table, roles),
        Lookup::Open => open_text(alloc, table, roles),
        Lookup::Unreadable => unreadable_text(alloc, table, roles),
    }
}

fn blind_text(alloc: Global, table: &Name, roles: &[Name]) -> Result<String, AllocError>
    ensures { IfOk result (λ text. string_bytes text ≡ spec.lookup_text Lookup.Blind table.now roles.now) }
{
    let roles = names_text(alloc, roles)?;
    format!(in alloc; "it reads {table}, of which no policy for SELECT shows {roles} a row")
}

fn open_text(alloc: Global, table: &Name, roles: &[Name]) -> Result<String, AllocError>
    ensures { IfOk result (λ text. string_bytes text ≡ spec.lookup_text Lookup.Open table.now roles.now) }
{
    let roles = names_text(alloc, roles)?;
    format!(in alloc; "it reads {table}, which has no row security: {roles} can read all of it")
}

fn unreadable_text(alloc: Global, table: &Name, roles: &[Name]) -> Result<String, AllocError>
    ensures { IfOk result (λ text. string_bytes text ≡ spec.lookup_text Lookup.Unreadable table.now roles.now) }
{
    let mut text = lacking_text(alloc, table)?;
    push_names(&mut text, roles)?;
    text.push_str(refused_text())?;
    Ok(text)
}

fn lacking_text(alloc: Global, table: &Name) -> Result<String, AllocError>
    ensures { IfOk result (λ text. string_bytes text ≡ codes "it reads " ++ (table.now ++ codes ", on which SELECT is missing for ")) }
{
    format!(in alloc; "it reads {table}, on which SELECT is missing for ")
}

#[tactic(auto, unfolding(crate::specs::Texts::refused_words))]
fn refused_text() -> &'static str
    ensures { result.now ≡ spec.refused_words }
{
    ": their statements are refused (42501)"
}

fn loop_text(alloc: Global, table: &Name, roles: &[Name]) -> Result<String, AllocError>
    ensures { IfOk result (λ text. string_bytes text ≡ codes "its policies lead back to " ++ (table.now ++ (codes ": statements of " ++ (spec.names_text roles.now ++ codes " are refused (42P17)")))) }
{
    let roles = names_text(alloc, roles)?;
    format!(in alloc;
        "its policies lead back to {table}: statements of {roles} are refused (42P17)"
    )
}

fn no_check_text(permissive: bool) -> &'static str
    ensures { result.now ≡ spec.no_check_text permissive }
{
    if permissive {
        "for INSERT without WITH CHECK, so it allows nothing"
    } else {
        "for INSERT without WITH CHECK, so it denies nothing"
    }
}

fn denied_text(
    alloc: Global,
    alone: bool,
    roles: &[Name],
    commands: Commands,
) -> Result<String, AllocError>
    ensures { IfOk result (λ text. string_bytes text ≡ spec.names_text roles.now ++ (spec.hold_word roles.now ++ (spec.names_text (spec.words_of commands) ++ spec.denied_text alone))) }
{
    let mut text = names_text(alloc, roles)?;
    text.push_str(hold_word(roles))?;
    push_commands(&mut text, commands)?;
    text.push_str(why_denied(alone))?;
    Ok(text)
}

fn hold_word(roles: &[Name]) -> &'static str
    ensures { result.now ≡ spec.hold_word roles.now }
{
    match roles {
        [_] => " holds ",
        _ => " hold ",
    }
}

fn why_denied(alone: bool) -> &'static str
    ensures { result.now ≡ spec.denied_text alone }
{
    if alone {
        ", and only restrictive policies apply: every row is denied"
    } else {
        ", and no policy applies: every row is denied"
    }
}

/// The words of the types of command, in the order of the four.
fn push_commands(text: &mut String, commands: Commands) -> Result<(), AllocError>
    ensures { OnOk result (string_bytes text.new ≡ string_bytes text.old ++ spec.names_text (spec.words_of commands)) }
{
    let first = push_word(text, true, commands.select, "SELECT")?;
    let first = push_word(text, first, commands.insert, "INSERT")?;
    let first = push_word(text, first, commands.update, "UPDATE")?;
    let _ = push_word(text, first, commands.delete, "DELETE")?;
    Ok(())
}

/// The word, where it is given, behind a comma unless it is the first; whether there is still none.
fn push_word(text: &mut String, first: bool, given: bool, word: &str) -> Result<bool, AllocError>
    ensures text { OnOk result (string_bytes text.new ≡ string_bytes text.old ++ spec.word_text first given word.now) }
    ensures first { IfOk result (λ still. still ≡ spec.is_still_first first given) }
{
    if !given {
        return Ok(first);
    }
    if !first {
        text.push_str(", ")?;
    }
    text.push_str(word)?;
    Ok(false)
}

fn null_text(alloc: Global, comparison: &Text) -> Result<String, AllocError>
    ensures { IfOk result (λ text. string_bytes text ≡ comparison.now ++ codes " is never true: it compares with NULL") }
{
    let comparison = comparison.as_str();
    format!(in alloc; "{comparison} is never true: it compares with NULL")
}

fn owner_text(alloc: Global, roles: &[Name]) -> Result<String, AllocError>
    ensures { IfOk result (λ text. string_bytes text ≡ codes "row security is not forced, and doesn't bind " ++ spec.names_text roles.now) }
{
    let roles = names_text(alloc, roles)?;
    format!(in alloc; "row security is not forced, and doesn't bind {roles}")
}

fn off_text(alloc: Global, count: usize) -> Result<String, AllocError>
    ensures { IfOk result (λ text. string_bytes text ≡ codes "it has " ++ (decimal count ++ (spec.policies_word count ++ codes ", and row security is not enabled: nothing is asked"))) }
{
    let word = policies_word(count);
    format!(in alloc; "it has {count}{word}, and row security is not enabled: nothing is asked")
}

fn policies_word(count: usize) -> &'static str
    ensures { result.now ≡ spec.policies_word count }
{
    if count == 1 { " policy" } else { " policies" }
}

fn nobody_text(alloc: Global, roles: &[Name]) -> Result<String, AllocError>
    ensures { IfOk result (λ text. string_bytes text ≡ codes "nobody who may log in has the privileges of " ++ spec.names_text roles.now) }
{
    let roles = names_text(alloc, roles)?;
    format!(in alloc; "nobody who may log in has the privileges of {roles}")
}

/// The names, with commas between them.
fn names_text(alloc: Global, names: &[Name]) -> Result<String, AllocError>
    ensures { IfOk result (λ text. string_bytes text ≡ spec.names_text names.now) }
{
    let mut text = String::new(alloc);
    push_names(&mut text, names)?;
    Ok(text)
}

fn push_names(text: &mut String, names: &[Name]) -> Result<(), AllocError>
    ensures { OnOk result (string_bytes text.new ≡ string_bytes text.old ++ spec.names_text names.now) }
{
    match names {
        [] => Ok(()),
        [name, more @ ..] => {
            text.push_str(name.as_str())?;
            push_more(text, more)
        }
    }
}

/// Each of the names behind a comma.
fn push_more(text: &mut String, mut names: &[Name]) -> Result<(), AllocError>
    ensures { OnOk result (string_bytes text.new ≡ string_bytes text.old ++ spec.more_names names.entry.now) }
{
    while let [name, rest @ ..] = names {
        text.push_str(", ")?;
        text.push_str(name.as_str())?;
        names = rest;
    }
    Ok(())
}
