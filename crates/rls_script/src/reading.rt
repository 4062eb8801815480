//! A script, read whole.

ghost use Rattle.std.specs.Prelude.{◌≡◌, [], ◌⊎◌, ◌+◌, ◌<◌, ◌≤◌, ◌++◌, length, true, IfOk, OnOk, IsErrOf};

use crate::fault::RunFault;
use crate::stream::{Failed, ScriptIn};
use std::alloc::Global;

/// The most bytes that a script has.
pub const MAX_SCRIPT: usize = 16_777_216;

/// The script, in as much memory as it takes. What it is read into has room for the longest one and is given back before a
/// line runs: glibc keeps free memory by the largest block that it got back, so that large statements don't ask the system
/// for theirs again and again.
pub fn read_script<I: ScriptIn>(alloc: Global, input: &mut I) -> Result<Vec<u8>, RunFault>
    ensures read { IsErrOf result RunFault.Read → (I.failures input.old < I.failures input.new) ⊎ (length (I.given input.old) + MAX_SCRIPT < length (I.given input.new)) }
    ensures read_failed { I.failures input.old < I.failures input.new → IsErrOf result RunFault.Read }
    ensures too_long { length (I.given input.old) + MAX_SCRIPT < length (I.given input.new) → IsErrOf result RunFault.Read }
    ensures write { ¬ IsErrOf result RunFault.Write }
    ensures reads { length (I.given input.new) ≤ length (I.given input.old) + MAX_SCRIPT + 1 }
    ensures ok { IfOk result (λ script. I.given input.new ≡ I.given input.old ++ script.items) }
    ensures ended { OnOk result (I.ended input.new ≡ true) }
{
    let mut buffer = Vec::with_capacity(alloc, MAX_SCRIPT)?;
    match fill(input, &mut buffer) {
        Ok(()) => {
            let script = buffer.to_vec(alloc);
            drop(buffer);
            Ok(script?)
        }
        Err(fault) => {
            drop(buffer);
            Err(fault)
        }
    }
}

/// Reads to the end, behind nothing.
fn fill<I: ScriptIn>(input: &mut I, script: &mut Vec<u8>) -> Result<(), RunFault>
    requires { script.old.items ≡ [] }
    ensures read { IsErrOf result RunFault.Read → (I.failures input.old < I.failures input.new) ⊎ (length (I.given input.old) + MAX_SCRIPT < length (I.given input.new)) }
    ensures read_failed { I.failures input.old < I.failures input.new → IsErrOf result RunFault.Read }
    ensures too_long { length (I.given input.old) + MAX_SCRIPT < length (I.given input.new) → IsErrOf result RunFault.Read }
    ensures write { ¬ IsErrOf result RunFault.Write }
    ensures reads { length (I.given input.new) ≤ length (I.given input.old) + MAX_SCRIPT + 1 }
    ensures ok { OnOk result (I.given input.new ≡ I.given input.old ++ script.new.items) }
    ensures ended { OnOk result (I.ended input.new ≡ true) }
{
    for _ in 0..MAX_SCRIPT {
        match input.next_byte() {
            Ok(Some(byte)) => script.push(byte)?,
            Ok(None) => return Ok(()),
            Err(Failed) => return Err(RunFault::Read),
        }
    }
    match input.next_byte() {
        Ok(None) => Ok(()),
        Ok(Some(_)) | Err(Failed) => Err(RunFault::Read),
    }
}
