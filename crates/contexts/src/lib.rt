// What one pair of spectral lines says: its place in the lookup, its escapes, its symbol, and the context behind it. The frame
// reader, the frame writer and the bit estimate share these.
#![tactic(auto)]

pub mod inner;
