//! What a statement comes to, before its reads are put beside it.

ghost use Rattle.std.specs.Prelude.{◌≡◌, ◌↔◌, true, [], ◌∷◌, Ok, Err, IfOk};
ghost use Rattle.rls_guard.specs.Effects.{IsTold, decisions_of, reply_of, writes};

use crate::reply::{Decision, Reply};
use rls_evaluation::rls_catalog::rls_expr::rls_value::{Items, Name, Refusal};
use rls_evaluation::rls_catalog::{Change, Delta};
use rls_evaluation::rls_equality::Same;
use std::alloc::{AllocError, Global};

/// What a statement comes to.
#[derive(Drop)]
pub enum Effect {
    /// It is done: its reply, the decisions that led to it, its changes, and the role that it sets, if it sets one.
    Done(Reply, Items<Decision>, Delta, Option<Name>),
    /// It is refused, after these decisions; nothing changes.
    Refused(Refusal, Items<Decision>),
}

impl Effect {
    /// A refusal before any row was judged.
    pub fn refused(alloc: Global, refusal: Refusal) -> Effect
        ensures { result ≡ Effect.Refused refusal [] }
    {
        Effect::Refused(refusal, Items::new(alloc))
    }

    /// A statement that writes one object and no rows.
    pub fn changed(alloc: Global, change: Change) -> Result<Effect, AllocError>
        ensures { IfOk result (λ effect. effect ≡ writes (change ∷ [])) }
    {
        let mut delta = Delta::new(alloc);
        delta.push(change)?;
        Ok(Effect::done(alloc, delta))
    }

    /// A statement that writes objects and no rows.
    pub fn done(alloc: Global, delta: Delta) -> Effect
        ensures { result ≡ writes delta }
    {
        Effect::Done(Reply::Done, Items::new(alloc), delta, None)
    }

    /// Whether it is done with this reply and these decisions.
    pub fn is_done_with(&self, reply: &Reply, decisions: &Items<Decision>) -> bool
        ensures { (result ≡ true) ↔ IsTold (Ok reply.now) decisions.now self.now }
    {
        self.is_reply(reply) && decisions.is_same(self.decisions())
    }

    /// Whether it is refused for this, after these decisions.
    pub fn is_refused_with(&self, refusal: &Refusal, decisions: &Items<Decision>) -> bool
        ensures { (result ≡ true) ↔ IsTold (Err refusal.now) decisions.now self.now }
    {
        self.is_refusal(refusal) && decisions.is_same(self.decisions())
    }

    fn is_reply(&self, reply: &Reply) -> bool
        ensures { (result ≡ true) ↔ (Ok reply.now ≡ reply_of self.now) }
    {
        match self {
            Effect::Done(made, _, _, _) => reply.is_same(made),
            Effect::Refused(_, _) => false,
        }
    }

    fn is_refusal(&self, refusal: &Refusal) -> bool
        ensures { (result ≡ true) ↔ (Err refusal.now ≡ reply_of self.now) }
    {
        match self {
            Effect::Done(_, _, _, _) => false,
            Effect::Refused(made, _) => refusal.is_same(made),
        }
    }

    fn decisions(&self) -> &Items<Decision>
        ensures { result.now ≡ decisions_of self.now }
    {
        match self {
            Effect::Done(_, decisions, _, _) => decisions,
            Effect::Refused(_, decisions) => decisions,
        }
    }
}
