//! Phrases of the grammar, and lists of them.

ghost use Rattle.std.specs.Prelude.{List};
ghost use Rattle.rls_text.specs.{declared.token.Token.Token, Gives.Gives, Parses.Outcome, Parses.read_listed};

use crate::fault::Fault;
use crate::reading::{only, symbol};
use crate::token::{Symbol, Token};
use rls_value::Items;
use std::alloc::Global;

/// What a rule of the grammar reads.
pub trait Phrase: Sized + Drop {
    ghost reader: { List Token → Outcome Self };

    fn read(alloc: Global, tokens: &[Token]) -> Result<(Self, &[Token]), Fault>
        ensures { Gives result (reader tokens.now) };
}

/// One, and more behind commas.
#[tactic(auto, using(crate::proofs::Lists::list_begins, crate::proofs::Lists::list_fails, crate::proofs::Lists::next_fails, crate::proofs::Lists::next_goes_on))]
pub fn listed<P: Phrase>(alloc: Global, tokens: &[Token]) -> Result<(Items<P>, &[Token]), Fault>
    ensures { Gives result (read_listed P.reader tokens.now) }
{
    let (first, mut rest) = P::read(alloc, tokens)?;
    let mut all = only(alloc, first)?;
    for _turn in 0..rest.len() {
        let Some(behind) = symbol(rest, Symbol::Comma) else {
            return Ok((all, rest));
        };
        let (next, behind) = P::read(alloc, behind)?;
        all.push(next)?;
        rest = behind;
    }
    Ok((all, rest))
}
