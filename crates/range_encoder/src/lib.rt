// The range encoder, its finish in both readings, and the coder's theory. Its calls stand in `inner`: the frame writer makes
// them, and nothing outside this repository.
#![tactic(auto)]

mod ending;
pub mod inner;

// The state of the source.
#[derive(Clone, Copy)]
pub struct EncoderState {
    pub low: u32,
    pub range: u32,
    // whether a byte is in the cache, 0 or 1: 0 is the source's cache of -1
    pub held: usize,
    pub cache: u32,
    pub carry: u32,
    // the source's carry_count: 0xFFs that wait behind the cache
    pub pending: usize,
    // the source's bytes out
    pub out: usize,
}

// Where the own bits of the head end: so many whole bytes, and so many top bits of the next.
#[derive(Clone, Copy)]
pub struct Finished {
    pub out: usize,
    pub bits: usize,
}
