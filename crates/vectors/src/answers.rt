// What this code answers: 0 and what is returned, or the refusal's number of document 01 and its values. A module has sixteen
// kinds.
use crate::{buffer_cases, decoder_cases, encoder_cases, quantisation_cases, side_cases};
use buffer_reader::BufferError;
use common::inner::lay;
use range_decoder::CodecError;

pub(crate) fn answer(kind: u8, n: [usize; 24], bytes: &mut [u8], lent: &[u8]) -> [usize; 24] {
    match kind {
        1..=4 => buffer_cases::read(kind, n, bytes),
        17..=20 => buffer_cases::write(kind, n, bytes),
        33 => side_cases::read(n, bytes),
        34 => side_cases::write(n, bytes),
        49 => decoder_cases::start(n, bytes),
        50 => decoder_cases::step(n, bytes, lent),
        65 => encoder_cases::run(n, bytes, lent),
        81 => quantisation_cases::quantised(n),
        82 => quantisation_cases::searched(n, lent),
        83 => quantisation_cases::estimated(n, bytes, lent),
        _ => none(),
    }
}

// An answer's first numbers; the others are 0.
pub(crate) fn told(first: &[usize]) -> [usize; 24] {
    let mut all = [0; 24];
    lay(&mut all, first);
    all
}

// What no answer is that is expected: of a call that is none, that its module does not take, or that moves what it has to leave.
pub(crate) fn none() -> [usize; 24] {
    told(&[255])
}

pub(crate) fn of_buffer(why: BufferError) -> [usize; 24] {
    match why {
        BufferError::WrongLength(len) => told(&[2, len]),
        BufferError::NoTailRoom(width, tail) => told(&[9, width, tail]),
        BufferError::PastEnd(head) => told(&[10, head]),
        BufferError::WidthNotListed(width) => told(&[17, width]),
    }
}

pub(crate) fn of_codec(why: CodecError) -> [usize; 24] {
    match why {
        CodecError::OutsideLimits => told(&[1]),
        CodecError::RowFails => told(&[3]),
        CodecError::LowBeyondLimit(low, limit) => told(&[11, low as usize, limit as usize]),
        CodecError::Buffer(e) => of_buffer(e),
    }
}
