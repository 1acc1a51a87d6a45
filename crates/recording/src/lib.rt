// Recordings: tagged fields behind one another. What stands at an offset, what a field holds, and a frame's field written.
#![tactic(auto)]

pub mod contents;
pub mod reader;
pub mod tags;
pub mod writer;
