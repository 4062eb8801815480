//! Starting a thread with the largest stack that there is room for.

ghost use Rattle.std.specs.Prelude.{◌≡◌, IfOk, IfErr};

use core::thread;
use std::alloc::Global;
use std::snapshot::Snapshot;
use std::thread::{Promise, PromisedHandle, Scope, SpawnError};

/// A stack to be asked for.
#[derive(Clone, Copy)]
pub struct Stack {
    /// In bytes; rounded up to a multiple of 128 KiB.
    pub size: usize,
    /// So many bytes have to be left besides.
    pub room: usize,
}

/// Work for a thread. What a thread does to a `&mut` that its closure holds isn't known, so its closure holds a value of a type
/// parameter.
pub(crate) trait Task {
    type Output;

    ghost can_run: { Self → Type 0 };

    ghost run_gives: { Self → Self.Output → Type 0 };

    fn run(self) -> Self::Output
        requires { can_run self }
        ensures { run_gives self result };
}

/// That the task gives it.
#[derive(Drop)]
pub(crate) struct Given<'p, S: Task>(&'p Snapshot<S>);

impl<'p, S: Task<Output = T>, T> Promise<T> for Given<'p, S> {
    ghost kept_by = { λ p r. S.run_gives p.0.now.value r };
}

/// Starts a thread with the first of the stacks that the system gives. Where it gives none the closure is handed back.
pub(crate) fn start<'s, 'p, E, S, F, T>(
    scope: &Scope<'s, E>,
    alloc: Global,
    stacks: &[Stack],
    task: &'p Snapshot<S>,
    f: F,
) -> Result<PromisedHandle<T, Given<'p, S>>, SpawnError<F>>
where
    S: Task<Output = T>,
    F: FnOnce() -> T + Send + 's,
    T: Send + Drop + 's,
    requires runs { F.pre f }
    requires keeps { (r : T) → F.post f r → S.run_gives task.now.value r }
    ensures ok { IfOk result (λ h. h.promise.0.now.value ≡ task.now.value) }
    ensures err { IfErr result (λ e. e.value ≡ f) }
{
    let mut f = f;
    for stack in stacks {
        match start_on(scope, alloc, *stack, task, f) {
            Ok(running) => return Ok(running),
            Err(refused) => f = refused.value,
        }
    }
    Err(SpawnError { value: f })
}

/// The same with this stack alone.
fn start_on<'s, 'p, E, S, F, T>(
    scope: &Scope<'s, E>,
    alloc: Global,
    stack: Stack,
    task: &'p Snapshot<S>,
    f: F,
) -> Result<PromisedHandle<T, Given<'p, S>>, SpawnError<F>>
where
    S: Task<Output = T>,
    F: FnOnce() -> T + Send + 's,
    T: Send + Drop + 's,
    requires runs { F.pre f }
    requires keeps { (r : T) → F.post f r → S.run_gives task.now.value r }
    ensures ok { IfOk result (λ h. h.promise.0.now.value ≡ task.now.value) }
    ensures err { IfErr result (λ e. e.value ≡ f) }
{
    // The room is held while the stack is asked for. None of its pages is touched.
    let Ok(room) = Vec::<u8>::with_capacity(alloc, stack.room) else {
        return Err(SpawnError { value: f });
    };
    let started = thread::Stack::new()
        .stack_size(stack.size)
        .spawn_scoped_with(scope, Given(task), f);
    drop(room);
    started
}
