// The TNS data of a frame: two orders and sixteen indices.
#![tactic(auto)]

pub mod inner;
mod send;
