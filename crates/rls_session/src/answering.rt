//! What a statement is answered.

ghost use Rattle.std.specs.Prelude.{◌≡◌};
ghost use Rattle.rls_script.specs.rls_guard.specs.declared.effect.Effect.{Effect};
ghost use Rattle.rls_engine.specs.Drafts.{told_of};
ghost use Rattle.rls_session.specs.Blocks.{answer_to};

use rls_engine::rls_access::Reply;
use rls_script::Answer;
use rls_value::{Refusal, Tag};

/// What is told of a statement with this tag.
pub fn answer_of(tag: Tag, told: Result<Reply, Refusal>) -> Answer
    ensures { (effect : Effect) → told ≡ told_of effect → result ≡ answer_to tag effect }
{
    match told {
        Ok(reply) => Answer::Replied(tag, reply),
        Err(refusal) => Answer::Refused(refusal),
    }
}
