//! Two calls, one of them on a thread of its own.

ghost use Rattle.std.specs.Prelude.{◌≡◌};

use crate::starting::{Stack, Task, start};
use std::alloc::Global;
use std::snapshot::Snapshot;
use std::sync::Wait;
use std::thread;
use std::thread::Threads;

/// Calls `f` on a thread of its own, with the first of the stacks that the system gives, or last where it gives none, and `g` on
/// this one.
pub(crate) fn join_mut<R: Threads + Wait, F: FnMut() + Send, G: FnMut()>(
    rt: &R,
    alloc: &Global,
    stacks: &[Stack],
    f: &mut F,
    g: &mut G,
)
    requires { F.pre f.old × G.pre g.old }
    ensures { F.step f.old tt f.new × G.step g.old tt g.new }
{
    let (f, g) = run_both(rt, alloc, stacks, Lent { f }, Lent { f: g });
    take_back(f);
    take_back(g);
}

#[derive(Drop)]
struct Lent<'a, F> {
    f: &'a mut F,
}

impl<'a, F: FnMut()> Task for Lent<'a, F> {
    type Output = &'a mut F;

    ghost can_run = { λ t. F.pre t.f.now };

    ghost run_gives = { λ t r. (r.ghost_name ≡ t.f.ghost_name) × F.step t.f.now tt r.now };

    fn run(self) -> &'a mut F {
        let Lent { f } = self;
        f();
        f
    }
}

fn run_both<R, S, T, A, B>(rt: &R, alloc: &Global, stacks: &[Stack], s: S, t: T) -> (A, B)
where
    R: Threads + Wait,
    S: Task<Output = A> + Send + Drop,
    T: Task<Output = B> + Drop,
    A: Send + Drop,
    requires { S.can_run s × T.can_run t }
    ensures { S.run_gives s result.0 × T.run_gives t result.1 }
{
    thread::scope(
        thread::scope_env(),
        rt,
        |scope| -> (A, B)
            requires { S.can_run s × T.can_run t }
            ensures { S.run_gives s result.0 × T.run_gives t result.1 }
        {
            let was = Snapshot::of(&s);
            let apart = move || -> A
                requires { S.can_run s }
                ensures { S.run_gives s result }
            { s.run() };
            match start(scope, *alloc, stacks, &was, apart) {
                Ok(running) => {
                    let b = t.run();
                    (running.join(rt), b)
                }
                Err(refused) => {
                    let b = t.run();
                    ((refused.value)(), b)
                }
            }
        },
    )
}

/// Ties a reference that was given back, for the borrow checker, to the parameter that lent it.
fn take_back<T>(x: &mut T)
    ensures { x.new ≡ x.old }
{}
