//! A call on a thread of its own.

ghost use Rattle.std.specs.Prelude.{IfSome};

use crate::starting::{Stack, Task, start};
use std::alloc::Global;
use std::snapshot::Snapshot;
use std::sync::Wait;
use std::thread;
use std::thread::Threads;

/// Calls `f` on a thread of its own, with the first of the stacks that the system gives. Where it gives none `f` isn't called.
pub fn call_apart<R, F, T>(rt: &R, alloc: Global, stacks: &[Stack], f: F) -> Option<T>
where
    R: Threads + Wait,
    F: FnOnce() -> T + Send + Drop,
    T: Send + Drop,
    requires { F.pre f }
    ensures { IfSome result (F.post f) }
{
    run_apart(rt, alloc, stacks, Own { f })
}

#[derive(Drop)]
struct Own<F> {
    f: F,
}

impl<F: FnOnce() -> T, T> Task for Own<F> {
    type Output = T;

    ghost can_run = { λ t. F.pre t.f };

    ghost run_gives = { λ t r. F.post t.f r };

    fn run(self) -> T {
        let Own { f } = self;
        f()
    }
}

fn run_apart<R, S, T>(rt: &R, alloc: Global, stacks: &[Stack], s: S) -> Option<T>
where
    R: Threads + Wait,
    S: Task<Output = T> + Send + Drop,
    T: Send + Drop,
    requires { S.can_run s }
    ensures { IfSome result (S.run_gives s) }
{
    thread::scope(
        thread::scope_env(),
        rt,
        |scope| -> Option<T>
            requires { S.can_run s }
            ensures { IfSome result (S.run_gives s) }
        {
            let was = Snapshot::of(&s);
            let run = move || -> T
                requires { S.can_run s }
                ensures { S.run_gives s result }
            { s.run() };
            match start(scope, alloc, stacks, &was, run) {
                Ok(running) => Some(running.join(rt)),
                Err(_) => None,
            }
        },
    )
}
