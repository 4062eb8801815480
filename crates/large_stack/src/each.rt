//! A call at each place of a list, on a thread of its own.

ghost use Rattle.std.specs.Prelude.{◌<◌, length};
ghost use denote.Param.Send.{IsSync, IsSend};
ghost use Rattle.std.specs.Fork.{AcceptsAt, ChangesAt, AcceptsEach, ChangesEach};
ghost use Rattle.large_stack.specs.Places.{AcceptsFrom, ChangesFrom};

use crate::joining::join_mut;
use crate::starting::Stack;
use std::alloc::Global;
use std::sync::Wait;
use std::thread::Threads;

/// Calls `f` at each place with a `&mut` to what stands there, the last one on this thread, and each other one on a thread of its
/// own, with the first of the stacks that the system gives, or after the others on this one where it gives none.
pub fn for_each_mut<R: Threads + Wait + Sync, T: Send, F: Fn(usize, &mut T) + Sync>(
    rt: &R,
    alloc: Global,
    stacks: &[Stack],
    s: &mut [T],
    f: &F,
)
    requires { AcceptsEach F.Fn f.now s.old }
    ensures { ChangesEach F.Fn f.now s.old s.new }
{
    each_from(rt, &alloc, stacks, f, 0, s);
}

// `s` is what stands from the place `base` on.
#[cycle(places)]
fn each_from<R: Threads + Wait + Sync, T: Send, F: Fn(usize, &mut T) + Sync>(
    rt: &R,
    alloc: &Global,
    stacks: &[Stack],
    f: &F,
    base: usize,
    s: &mut [T],
)
    requires { AcceptsFrom F.Fn f.now base s.old }
    ensures { ChangesFrom F.Fn f.now base s.old s.new }
{
    if s.len() < 2 {
        in_place(f, base, s);
        return;
    }
    let (first, rest) = s.split_at_mut(1);
    first_apart(rt, alloc, stacks, f, base, first, base + 1, rest);
}

// A function of its own, so that what the closures require is what it is given.
#[cycle(places)]
fn first_apart<R: Threads + Wait + Sync, T: Send, F: Fn(usize, &mut T) + Sync>(
    rt: &R,
    alloc: &Global,
    stacks: &[Stack],
    f: &F,
    base: usize,
    first: &mut [T],
    up: usize,
    rest: &mut [T],
)
    requires one { length first.old < 2 }
    requires first { AcceptsFrom F.Fn f.now base first.old }
    requires rest { AcceptsFrom F.Fn f.now up rest.old }
    ensures first { ChangesFrom F.Fn f.now base first.old first.new }
    ensures rest { ChangesFrom F.Fn f.now up rest.old rest.new }
{
    let mut apart = ||
        requires { IsSync F.row × IsSend T.row × (length first.now < 2) × AcceptsFrom F.Fn f.now base first.now }
        ensures { ChangesFrom F.Fn f.entry.now base first.entry.now first.exit.now }
    { in_place(f, base, first) };
    let mut here = ||
        requires { IsSync R.row × IsSync F.row × IsSend T.row × AcceptsFrom F.Fn f.now up rest.now }
        ensures { ChangesFrom F.Fn f.entry.now up rest.entry.now rest.exit.now }
    { each_from(rt, alloc, stacks, f, up, rest) };
    join_mut(rt, alloc, stacks, &mut apart, &mut here);
}

fn in_place<T, F: Fn(usize, &mut T)>(f: &F, base: usize, s: &mut [T])
    requires one { length s.old < 2 }
    requires accepts { AcceptsFrom F.Fn f.now base s.old }
    ensures { ChangesFrom F.Fn f.now base s.old s.new }
{
    if !s.is_empty() {
        at_one(f, base, &mut s[0]);
    }
}

fn at_one<T, F: Fn(usize, &mut T)>(f: &F, i: usize, it: &mut T)
    requires { AcceptsAt F.Fn f.now i it.old }
    ensures { ChangesAt F.Fn f.now i it.old it.new }
{
    f(i, it);
}
