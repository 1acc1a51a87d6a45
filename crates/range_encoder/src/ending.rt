// What the finish decides, before it sends anything: the source's lines, and its names.
ghost use Rattle.std.specs.Prelude.{◌≡◌, ◌≤◌, ◌<◌};
ghost use Rattle.range_encoder.specs.Finish.{val_of, high_in, ending_at, ending as Finish·ending};
ghost use Rattle.range_encoder.specs.Private.{Fits, ending_of};

use crate::EncoderState;

#[derive(Clone, Copy)]
pub(crate) struct Closing {
    pub bits: usize,
    pub value: u32,
    pub carry: u32,
}

// `low + mask`, cut to 24 bits and without the bits of the mask.
fn val(low: u32, mask: u32) -> u32
    requires { (low < 0x1000000) × (mask < 0x1000000) }
    ensures { (result ≡ val_of low mask) × (result < 0x1000000) }
{
    let sum = (low + mask) % 0x1000000;
    sum - sum % (mask + 1)
}

// What the reading compares with: a number as in document 01, since the definitions speak of it and `vectors` hands on any.
fn high_in(reading: usize, high: u32) -> u32
    ensures { result ≡ high_in reading high }
{
    if reading == 0 { high } else { high % 0x1000000 }
}

// A value below low has carried.
fn ending_at(st: EncoderState, bits: usize, value: u32) -> Closing
    ensures { ending_of result ≡ ending_at st bits value }
{
    Closing {
        bits,
        value,
        carry: if value < st.low { 1 } else { st.carry },
    }
}

pub(crate) fn ending(reading: usize, st: EncoderState) -> Closing
    requires { (Fits st) × (0x10000 ≤ st.range) }
    ensures { ending_of result ≡ Finish·ending reading st }
{
    let bits = 24 - common::inner::floor_log2(st.range);
    let mask: u32 = 0xffffff >> bits;
    let over1 = (st.low + mask) >> 24;
    let high = st.low + st.range;
    let over2 = high >> 24;
    let value = val(st.low, mask);
    if over1 != over2 {
        return Closing {
            bits,
            value,
            carry: st.carry,
        };
    }
    if value + mask < high_in(reading, high) {
        return ending_at(st, bits, value);
    }
    ending_at(st, bits + 1, val(st.low, mask >> 1))
}
