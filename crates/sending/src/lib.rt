// The two streams of a writer: symbols for the head, bits for the tail. Each is written, or counted alone.
#![tactic(auto)]

pub mod inner;
