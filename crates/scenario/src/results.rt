//! Values that may have been refused: both of two, one behind what was done with it, and what a refusal says.

ghost use Rattle.std.specs.Prelude.{◌≡◌, ◌↔◌, true, string_bytes, Ok, Err, IfOk, OnErr};
ghost use Rattle.rls_value.specs.declared.refusal.Refusal.TheVariants.{NoMemory};
ghost use Rattle.scenario.specs.Results as spec;

use rls_value::Refusal;
use std::alloc::AllocError;

/// Both, or what refused one of them.
pub fn both<A: Drop, B: Drop>(
    one: Result<A, Refusal>,
    other: Result<B, Refusal>,
) -> Result<(A, B), Refusal>
    ensures { result ≡ spec.both_of one other }
{
    match one {
        Ok(one) => beside(one, other),
        Err(refusal) => {
            drop(other);
            Err(refusal)
        }
    }
}

fn beside<A: Drop, B: Drop>(one: A, other: Result<B, Refusal>) -> Result<(A, B), Refusal>
    ensures { result ≡ spec.both_of (Ok one) other }
{
    match other {
        Ok(other) => Ok((one, other)),
        Err(refusal) => {
            drop(one);
            Err(refusal)
        }
    }
}

/// The value, if what was done with it came to its end.
pub fn after<T: Drop>(value: T, came: Result<(), Refusal>) -> Result<T, Refusal>
    ensures { result ≡ spec.value_after value came }
{
    match came {
        Ok(()) => Ok(value),
        Err(refusal) => {
            drop(value);
            Err(refusal)
        }
    }
}

/// The value, or want of memory as a refusal.
pub fn taken<T: Drop>(came: Result<T, AllocError>) -> Result<T, Refusal>
    ensures ok { IfOk came (λ value. result ≡ Ok value) }
    ensures memory { OnErr came (result ≡ Err NoMemory) }
{
    match came {
        Ok(value) => Ok(value),
        Err(error) => Err(Refusal::from(error)),
    }
}

/// Whether it is want of memory.
pub fn wants_memory(refusal: Refusal) -> bool
    ensures { result ≡ spec.is_memory refusal }
{
    let is_memory = matches!(refusal, Refusal::NoMemory);
    drop(refusal);
    is_memory
}

/// Whether it came, and is so.
pub fn holds(answer: Result<bool, Refusal>) -> bool
    ensures { result ≡ spec.is_so answer }
{
    match answer {
        Ok(answer) => answer,
        Err(refusal) => {
            drop(refusal);
            false
        }
    }
}

/// Whether the text is that one.
pub fn is_text(text: String, wanted: &str) -> bool
    ensures { (result ≡ true) ↔ (string_bytes text ≡ wanted.now) }
{
    text.as_str() == wanted
}
