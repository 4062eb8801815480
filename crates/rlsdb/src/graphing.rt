//! The command that writes which transaction of an audit comes before which, and why.

ghost use Rattle.std.specs.Prelude.{◌≡◌, ◌++◌, ℕ, List, IfOk, OnOk};
ghost use Rattle.rls_session.specs.rls_script.specs.Streams.{GrewBy};
ghost use Rattle.rlsdb.specs.Answers.{IsGraphOf, form_of, is_whole, picture_of};
ghost use Rattle.rlsdb.specs.AuditLines.{Reads};
ghost use Rattle.rlsdb.specs.Graphing.{IsGraphed};

use crate::audit_file::AuditIn;
use crate::audits::{audit_in, read_audit, told};
use crate::fault::Fault;
use crate::shown::{is_whole, tell};
use rls_check::{Audit, Ending, Graph, GraphForm, Picture};
use rls_command_line::{GraphWanted, Graphed, Language};
use rls_session::rls_script::{Failed, RunFault, ScriptIn, ScriptOut, write_all};
use std::alloc::Global;

/// Writes the graph of the audit, and says whether all statements came to what it shows. Standard error is told what didn't.
#[tactic(auto, using(crate::proofs::GraphLemmas::ended))]
pub fn graph<'a, O: ScriptOut>(
    rt: &HostRuntime,
    asked: Graphed<'a>,
    output: &mut O,
) -> Result<bool, Fault<'a>>
    ensures { IfOk result (λ whole. GrewBy (O.taken output.old) (O.taken output.new) (λ written. (texts : List (List ℕ)) × (ending : Ending) × IsGraphOf (form_of asked.entry.wanted) texts written ending × (whole ≡ is_whole ending))) }
{
    let Graphed { audit, wanted } = asked;
    let ending = graph_from(rt, audit, form_of(wanted), output)?;
    tell(rt, audit, ending);
    Ok(is_whole(ending))
}

/// The same form, as a graph is asked for it.
fn form_of(wanted: GraphWanted) -> GraphForm
    ensures { result ≡ form_of wanted }
{
    let GraphWanted { language, all } = wanted;
    GraphForm {
        picture: picture_of(language),
        all,
    }
}

fn picture_of(language: Option<Language>) -> Option<Picture>
    ensures { result ≡ picture_of language }
{
    match language {
        Some(Language::Mermaid) => Some(Picture::Mermaid),
        Some(Language::Dot) => Some(Picture::Dot),
        None => None,
    }
}

/// The same, and how it ends.
#[tactic(auto, using(crate::proofs::AnswerLemmas::of_some))]
fn graph_from<'a, O: ScriptOut>(
    rt: &HostRuntime,
    name: &'a str,
    form: GraphForm,
    output: &mut O,
) -> Result<Ending, Fault<'a>>
    ensures { IfOk result (λ ending. GrewBy (O.taken output.old) (O.taken output.new) (λ written. (texts : List (List ℕ)) × IsGraphOf form texts written ending)) }
{
    let mut input = audit_in(rt, name)?;
    match write_graph(rt.alloc(), name, &mut input, form, output) {
        Ok(ending) => Ok(ending),
        Err(fault) => Err(told(fault, name, &input)),
    }
}

/// Of the audit that is read.
#[tactic(auto, using(crate::proofs::GraphLemmas::graphed))]
fn write_graph<'a, I: ScriptIn + Drop, O: ScriptOut>(
    alloc: Global,
    name: &'a str,
    input: &mut AuditIn<I>,
    form: GraphForm,
    output: &mut O,
) -> Result<Ending, Fault<'a>>
    ensures { IfOk result (λ ending. Reads (I.given input.old.input) (I.given input.new.input) (λ texts. GrewBy (O.taken output.old) (O.taken output.new) (λ written. IsGraphOf form texts written ending))) }
{
    let audit = read_audit(alloc, name, input)?;
    let ending = graph_audit(alloc, &audit, form, output);
    drop(audit);
    Ok(ending?)
}

/// Of the audit.
#[tactic(auto, using(crate::proofs::GraphLemmas::along, crate::proofs::GraphLemmas::unordered))]
fn graph_audit<O: ScriptOut>(
    alloc: Global,
    audit: &Audit,
    form: GraphForm,
    output: &mut O,
) -> Result<Ending, RunFault>
    ensures { IfOk result (λ ending. GrewBy (O.taken output.old) (O.taken output.new) (λ written. IsGraphed form audit.now.transactions audit.now.order written ending)) }
{
    let Some(graph) = audit.graph(alloc, form)? else {
        return Ok(Ending::NoOrder);
    };
    write_drawn(graph, output)
}

/// Its text; the first statement that comes to another answer than the audit shows.
fn write_drawn<O: ScriptOut>(graph: Graph, output: &mut O) -> Result<Ending, RunFault>
    ensures text { OnOk result (O.taken output.new ≡ O.taken output.old ++ graph.text.items) }
    ensures ending { IfOk result (λ ending. ending ≡ Ending.Walked graph.differs) }
{
    let Graph { text, differs } = graph;
    let written = write_all(text.as_slice(), output);
    drop(text);
    match written {
        Ok(()) => Ok(Ending::Walked(differs)),
        Err(Failed) => Err(RunFault::Write),
    }
}
