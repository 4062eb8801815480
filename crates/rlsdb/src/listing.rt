//! The command that writes who committed what, along the serial order of an audit.

ghost use Rattle.std.specs.Prelude.{◌≡◌, ◌++◌, ℕ, List, IfOk, OnOk};
ghost use Rattle.rls_check.specs.Listing.{IsLong, first_or as or_first};
ghost use Rattle.rls_session.specs.rls_script.specs.Streams.{GrewBy};
ghost use Rattle.rlsdb.specs.Answers.{IsLongOf, is_whole as whole};
ghost use Rattle.rlsdb.specs.AuditLines.{Reads};
ghost use Rattle.rlsdb.specs.Listing.{FirstOfUnlisted, text_of};

use crate::audit_file::AuditIn;
use crate::audits::{audit_in, read_audit, told};
use crate::fault::Fault;
use crate::shown::{is_whole, tell};
use rls_check::{Audit, Ending, Finding, Listed, Listing};
use rls_session::rls_script::{Failed, RunFault, ScriptIn, ScriptOut, write_all};
use std::alloc::Global;

/// Writes the transactions of the audit along its order, with what their statements come to, and says whether all came to what it
/// shows. Standard error is told what didn't.
#[tactic(auto, using(crate::proofs::ListingLemmas::ended))]
pub fn list<'a, O: ScriptOut>(
    rt: &HostRuntime,
    name: &'a str,
    output: &mut O,
) -> Result<bool, Fault<'a>>
    ensures { IfOk result (λ done. GrewBy (O.taken output.old) (O.taken output.new) (λ written. (texts : List (List ℕ)) × (ending : Ending) × IsLongOf texts written ending × (done ≡ whole ending))) }
{
    let ending = list_from(rt, name, output)?;
    tell(rt, name, ending);
    Ok(is_whole(ending))
}

/// The same, and how it ends.
#[tactic(auto, using(crate::proofs::AnswerLemmas::of_some))]
fn list_from<'a, O: ScriptOut>(
    rt: &HostRuntime,
    name: &'a str,
    output: &mut O,
) -> Result<Ending, Fault<'a>>
    ensures { IfOk result (λ ending. GrewBy (O.taken output.old) (O.taken output.new) (λ written. (texts : List (List ℕ)) × IsLongOf texts written ending)) }
{
    let mut input = audit_in(rt, name)?;
    match write_list(rt.alloc(), name, &mut input, output) {
        Ok(ending) => Ok(ending),
        Err(fault) => Err(told(fault, name, &input)),
    }
}

/// Of the audit that is read.
#[tactic(auto, using(crate::proofs::ListingLemmas::listed))]
fn write_list<'a, I: ScriptIn + Drop, O: ScriptOut>(
    alloc: Global,
    name: &'a str,
    input: &mut AuditIn<I>,
    output: &mut O,
) -> Result<Ending, Fault<'a>>
    ensures { IfOk result (λ ending. Reads (I.given input.old.input) (I.given input.new.input) (λ texts. GrewBy (O.taken output.old) (O.taken output.new) (λ written. IsLongOf texts written ending))) }
{
    let audit = read_audit(alloc, name, input)?;
    let ending = list_audit(alloc, &audit, output);
    drop(audit);
    Ok(ending?)
}

/// Of the audit.
#[tactic(auto, using(crate::proofs::ListingLemmas::along, crate::proofs::ListingLemmas::unordered))]
fn list_audit<O: ScriptOut>(
    alloc: Global,
    audit: &Audit,
    output: &mut O,
) -> Result<Ending, RunFault>
    ensures { IfOk result (λ ending. GrewBy (O.taken output.old) (O.taken output.new) (λ written. IsLong audit.now.transactions audit.now.order written ending)) }
{
    let Some(mut listing) = audit.list(alloc)? else {
        return Ok(Ending::NoOrder);
    };
    let found = write_all_listed(alloc, &mut listing, output);
    drop(listing);
    Ok(Ending::Walked(found?))
}

/// Of the transactions that are still to be listed; the first statement that comes to another answer than the audit shows.
#[tactic(auto, using(crate::proofs::ListingLemmas::written_on, crate::proofs::ListingLemmas::written_all, crate::proofs::ListingLemmas::found_on, crate::proofs::ListingLemmas::found_all, crate::proofs::ListingLemmas::fewer_left))]
fn write_all_listed<'a, O: ScriptOut>(
    alloc: Global,
    listing: &mut Listing<'a>,
    output: &mut O,
) -> Result<Option<Finding>, RunFault>
    ensures text { OnOk result (O.taken output.new ≡ O.taken output.old ++ text_of listing.old) }
    ensures found { IfOk result (FirstOfUnlisted listing.old) }
{
    let mut found = None;
    while let Some(listed) = listing.next(alloc)? {
        found = first_or(found, listed.differs);
        write_listed(listed, output)?;
    }
    Ok(found)
}

/// What was found before, or else this.
fn first_or(found: Option<Finding>, other: Option<Finding>) -> Option<Finding>
    ensures { result ≡ or_first found other }
{
    match found {
        Some(found) => Some(found),
        None => other,
    }
}

/// The lines of a transaction.
fn write_listed<O: ScriptOut>(listed: Listed, output: &mut O) -> Result<(), RunFault>
    ensures { OnOk result (O.taken output.new ≡ O.taken output.old ++ listed.text.items) }
{
    match write_all(listed.text.as_slice(), output) {
        Ok(()) => Ok(()),
        Err(Failed) => Err(RunFault::Write),
    }
}
