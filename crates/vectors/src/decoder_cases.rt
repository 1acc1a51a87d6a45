// Calls of range_decoder: head, tail, low and range. At the start the bytes are the frame; at a step they are the row, and the
// frame is lent. A step is made on a lent state, and so by value too.
use crate::answers::{none, of_codec, told};
use crate::buffer_cases::cursor;
use crate::lists;
use crate::number::low;
use buffer_reader::Cursor;
use range_decoder::DecoderState;

pub(crate) fn start(n: [usize; 24], frame: &[u8]) -> [usize; 24] {
    match range_decoder::ac_dec_init(frame, cursor(n)) {
        Ok((state, next)) => accepted(0, state, next),
        Err(why) => of_codec(why),
    }
}

pub(crate) fn step(n: [usize; 24], row: &[u8], frame: &[u8]) -> [usize; 24] {
    let mut words = [0u16; 1100];
    let count = lists::words(row, &mut words);
    let state = DecoderState {
        low: low(n[2]),
        range: low(n[3]),
    };
    let gone = forms::inner::step_by(state, frame, cursor(n), &words[..count]);
    let behind = gone.state;
    match gone.given {
        Ok((symbol, next)) => accepted(symbol, behind, next),
        Err(why) => {
            if behind.low != state.low || behind.range != state.range {
                return none();
            }
            of_codec(why)
        }
    }
}

fn accepted(symbol: usize, state: DecoderState, next: Cursor) -> [usize; 24] {
    told(&[
        0,
        next.head,
        next.tail,
        state.low as usize,
        state.range as usize,
        symbol,
    ])
}
