// The residual stage of a frame's reading: the bits that are left, the residual list, in least-bit mode what comes late; and what is
// summed over the lines behind it.
#![tactic(auto)]

pub mod inner;

// A line behind its late bits, the tail behind them, and the room that is left.
#[derive(Clone, Copy)]
pub struct LateLine {
    pub line: i32,
    pub tail: usize,
    pub room: usize,
}
