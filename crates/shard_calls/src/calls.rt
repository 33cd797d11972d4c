//! What a call brings with it.

use manu_edge::{At, Gate, Moments, Point};
use std::sync::Wait;

/// What a call brings with it: the runtime, the clock, the gate that it passes, and the line that it is for.
#[derive(Drop)]
pub struct Call<'a, R: Wait, M: Moments, G: Gate> {
    pub rt: &'a R,
    pub moments: &'a M,
    pub gate: &'a G,
    /// The number of the caller.
    pub caller: u32,
    /// The number of the input line, or 0 for work that no line asked for.
    pub line: u32,
}

impl<R: Wait, M: Moments, G: Gate> Call<'_, R, M, G> {
    /// Passes a point of the gate.
    pub fn pass(&self, at: At) {
        let point = Point {
            at,
            caller: self.caller,
            line: self.line,
        };
        self.gate.pass(self.rt, point);
    }
}
