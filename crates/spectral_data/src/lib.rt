// The spectral lines of a frame, pair by pair.
#![tactic(auto)]

pub mod inner;
mod put;
mod send;
