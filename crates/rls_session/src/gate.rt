//! Where a command can be held up, to place one beside others.

use std::sync::Wait;
use std::time::Clock;

/// A point on the way of a command.
#[derive(Clone, Copy, Debug, PartialEq, Eq)]
pub enum Point {
    /// Before anything is done.
    Start,
    /// A statement was run, and isn't posted yet.
    Ran,
    /// It was answered.
    Done,
}

/// What is told of each point that commands come to, on the thread that is there, and may hold it up.
pub trait Gate {
    /// The session and the line have numbers from 1: sessions in the order in which they first appear, lines in their script.
    fn pass<R: Wait + Clock>(&self, rt: &R, session: u32, line: u32, point: Point);
}

/// Holds nobody up.
#[derive(Clone, Copy)]
pub struct NoGate;

impl Gate for NoGate {
    fn pass<R: Wait + Clock>(&self, _rt: &R, _session: u32, _line: u32, _point: Point) {}
}

/// The place of a command: a gate with the session's and the line's number.
#[derive(Drop)]
pub struct At<'g, G: Gate> {
    pub gate: &'g G,
    pub session: u32,
    pub line: u32,
}

impl<'g, G: Gate> At<'g, G> {
    /// The command has come to the point.
    pub(crate) fn pass<R: Wait + Clock>(&self, rt: &R, point: Point) {
        self.gate.pass(rt, self.session, self.line, point);
    }
}
