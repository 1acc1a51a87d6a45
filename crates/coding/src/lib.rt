// Readings that carry the coder's state. What they refuse sits inside the step that met it.
#![tactic(auto)]

pub mod inner;

// What a step can meet: refusals 9, 10 and 11, each with its numbers.
#[derive(Clone, Copy)]
pub enum Refusal {
    NoTailRoom(usize, usize),
    PastEnd(usize),
    LowBeyondLimit(u32, u32),
}

// The steps of a frame's reading: filter, filter and index, or pair and level.
#[derive(Clone, Copy)]
pub enum Met {
    Side(Refusal),
    Start(Refusal),
    Order(usize, Refusal),
    Coef(usize, usize, Refusal),
    Symbol(usize, usize, Refusal),
    Bit(usize, usize, Refusal),
}
