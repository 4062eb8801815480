//! A call under test: it is made on an object while `tools/refusals` refuses one of its requests for memory, the object is compared
//! with its twin, and the call is made again.

use crate::ending::{Ending, begin, end, made, made_again, tell};
use crate::results::{both, holds, wants_memory};
use rls_value::Refusal;
use std::alloc::Global;

/// A public call, and an object that it is made on.
pub trait Scenario: Sized + Drop {
    /// What the call gives.
    type Answer: Drop;

    /// The call. It is made twice where it was refused the first time.
    fn call(&mut self, alloc: Global) -> Result<Self::Answer, Refusal>;

    /// Whether the object is as its twin is, on which no call was made. A call that changes nothing, by its type, has nothing to
    /// compare.
    fn is_like(&self, _twin: &Self, _alloc: Global) -> Result<bool, Refusal> {
        Ok(true)
    }

    /// Whether the answer is the one that is expected, and the object what the call makes of it.
    fn is_answer(&self, answer: &Self::Answer, alloc: Global) -> Result<bool, Refusal>;
}

/// Makes the call, which has this name in its crate, on the object, which has a twin, and tells what came of it.
pub fn play<S: Scenario>(
    rt: &impl Print,
    alloc: Global,
    call: &str,
    object: Result<S, Refusal>,
    twin: Result<S, Refusal>,
) {
    let told = match both(object, twin) {
        Ok((object, twin)) => told(rt, alloc, call, object, twin),
        Err(refusal) => {
            drop(refusal);
            Ending::NotMade
        }
    };
    tell(rt, call, told);
}

/// What came of the call.
fn told<S: Scenario>(rt: &impl Print, alloc: Global, call: &str, object: S, twin: S) -> Ending {
    let mut object = object;
    let told = told_first(rt, alloc, call, &mut object, &twin);
    drop(object);
    drop(twin);
    told
}

fn told_first<S: Scenario>(
    rt: &impl Print,
    alloc: Global,
    call: &str,
    object: &mut S,
    twin: &S,
) -> Ending {
    match tried(rt, alloc, call, object) {
        Ok(answer) => made(is_expected(alloc, object, answer)),
        Err(refusal) => {
            if wants_memory(refusal) {
                told_again(rt, alloc, call, object, twin)
            } else {
                Ending::OtherCause
            }
        }
    }
}

/// What came of the call when it was made again, once it was refused.
fn told_again<S: Scenario>(
    rt: &impl Print,
    alloc: Global,
    call: &str,
    object: &mut S,
    twin: &S,
) -> Ending {
    if !holds(object.is_like(twin, alloc)) {
        return Ending::Changed;
    }
    match tried(rt, alloc, call, object) {
        Ok(answer) => made_again(is_expected(alloc, object, answer)),
        Err(refusal) => {
            drop(refusal);
            Ending::RefusedAgain
        }
    }
}

/// The call, whose requests for memory count.
fn tried<S: Scenario>(
    rt: &impl Print,
    alloc: Global,
    call: &str,
    object: &mut S,
) -> Result<S::Answer, Refusal> {
    begin(rt, call);
    let came = object.call(alloc);
    end(rt);
    came
}

/// Whether the object gave what is expected, and is what the call makes of it.
fn is_expected<S: Scenario>(alloc: Global, object: &S, answer: S::Answer) -> bool {
    let is_answer = object.is_answer(&answer, alloc);
    drop(answer);
    holds(is_answer)
}
