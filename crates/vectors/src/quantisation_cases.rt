// Calls of spectral_quantization. Of the quantiser: a line and a gain, by their bits. Of the gain search: an offset and a target;
// the energies are lent, by their bits. Of the estimate: the frame's length, the target, fs_ind and duration; the bytes are the
// lines, and the five tables are lent, one behind the other.
use crate::answers::{none, told};
use crate::lists;
use crate::number::low;
use crate::side_cases::configuration;
use common::table_set::TableSet;
use contexts::inner::magnitude;
use spectral_quantization::estimate::{BitConsumption, compute_bit_consumption};
use spectral_quantization::gain::{GainError, gain_index};
use spectral_quantization::quantiser::quantise;
use std::num::f32_from_bits_with_nan;

// A quantised line is told by its sign and its magnitude.
pub(crate) fn quantised(n: [usize; 24]) -> [usize; 24] {
    let x = f32_from_bits_with_nan(low(n[0]));
    let gain = f32_from_bits_with_nan(low(n[1]));
    let line = quantise(x, gain);
    told(&[0, usize::from(line < 0), magnitude(line)])
}

pub(crate) fn searched(n: [usize; 24], lent: &[u8]) -> [usize; 24] {
    let mut energies = [0.0; 100];
    let count = lists::singles(lent, &mut energies);
    let offset = ((n[0] % 65536) as u16).cast_signed();
    match gain_index(&energies[..count], offset, n[1]) {
        Ok(index) => told(&[0, usize::from(index)]),
        Err(GainError::OutsideLimits) => told(&[1]),
        Err(GainError::WrongCount(count)) => told(&[4, count]),
    }
}

pub(crate) fn estimated(n: [usize; 24], bytes: &[u8], lent: &[u8]) -> [usize; 24] {
    if lent.len() != 8752 {
        return none();
    }
    let (lookup, parts) = lent.split_at(4096);
    let mut words = [0u16; 2328];
    lists::words(parts, &mut words);
    let tables = TableSet {
        lookup,
        frequencies: &words[..1088],
        bits: &words[1088..2176],
        orders: &words[2176..2192],
        coefficients: &words[2192..],
    };
    let mut lines = [0i16; 400];
    let count = lists::lines(bytes, &mut lines);
    let estimated = compute_bit_consumption(configuration(n), n[0], &tables, n[1], &lines[..count]);
    match estimated {
        Ok(b) => numbers(b),
        Err(_) => none(),
    }
}

fn numbers(b: BitConsumption) -> [usize; 24] {
    told(&[
        0,
        b.rate_flag,
        usize::from(b.mode_flag),
        b.lastnz,
        b.lastnz_trunc,
        b.nbits_est,
        b.nbits_trunc,
        b.nbits_lsb,
    ])
}
