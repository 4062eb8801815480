//! The program: runs scripts of statements, and says what audits of runs hold.
#![tactic(auto)]

mod answering;
mod attempting;
mod audit_file;
mod audits;
mod commands;
mod device;
mod dumping;
mod fault;
mod flaw;
mod graphing;
mod held;
mod hinting;
mod holding;
mod linting;
mod listing;
mod missing;
mod numbering;
mod out_file;
mod passed;
mod progress;
mod reporting;
mod running;
mod same_file;
mod script_file;
mod shown;
mod shown_attempts;
mod stopping;
mod testing;

use large_stack::{Stack, call_apart};
use std::process::ExitCode;

/// The stacks that a command asks for. Evaluation goes as deep as policies lead from table to table: no script of the size that is
/// read leads deeper than the first holds, and a chain of 100 tables, whatever their policies are, fits the last. The system gives
/// a stack page by page, as it is used.
const STACKS: [Stack; 5] = [
    Stack {
        size: 1 << 31,
        room: 1 << 31,
    },
    Stack {
        size: 1 << 29,
        room: 1 << 29,
    },
    Stack {
        size: 1 << 27,
        room: 1 << 27,
    },
    Stack {
        size: 1 << 25,
        room: 1 << 25,
    },
    Stack {
        size: 1 << 23,
        room: 1 << 23,
    },
];

/// Runs the command line on a thread with the first of these stacks that there is.
fn main(rt: HostRuntime) -> ExitCode {
    let status = call_apart(&rt, rt.alloc(), &STACKS, || commands::run(&rt, &rt));
    match status {
        Some(status) => ExitCode::from(status),
        None => ExitCode::from(commands::no_stack(&rt)),
    }
}
