// The side information: its record, read from the tail of a frame and written there.
#![tactic(auto)]

pub mod fields;
pub mod inner;
mod limits;
pub mod reader;
pub mod writer;

// Spectral noise shaping: the two 5-bit indices, then the second stage.
#[derive(Clone, Copy)]
pub struct Sns {
    pub lf: u32,
    pub hf: u32,
    pub msb: u32,
    pub submode_lsb: u32,
    pub gain: u32,
    pub ls_inda: u32,
    pub idx_a: u32,
    pub ls_indb: u32,
    pub idx_b: u32,
}

#[derive(Clone, Copy)]
pub struct SideInfo {
    pub bandwidth: u32,
    pub lastnz: u32,
    pub lsb: u32,
    pub gain: u32,
    pub tns_first: u32,
    pub tns_second: u32,
    pub pitch: u32,
    pub sns: Sns,
    pub active: u32,
    pub index: u32,
    pub noise: u32,
}
