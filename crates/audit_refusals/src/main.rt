//! Public calls of transcripts and of audits that can answer want of memory, each told as made, or as refused with all as before:
//! `tools/refusals` refuses each of its requests for memory in turn.
#![tactic(auto)]

mod audits;
mod checks;
mod lines;
mod opening;
mod transcripts;
mod walks;

fn main(rt: HostRuntime) {
    let alloc = rt.alloc();
    lines::play_all(&rt, alloc);
    checks::play_all(&rt, alloc);
    walks::play_all(&rt, alloc);
    transcripts::play_all(&rt, alloc);
}
