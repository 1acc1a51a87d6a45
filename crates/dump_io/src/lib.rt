// A recording taken from a reader, and its dump written to a writer: what the two programs share.
#![tactic(auto)]

pub mod inner;
