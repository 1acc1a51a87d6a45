// A run of range_encoder's own calls, from the start through a list of symbols to the finish, in a reading. The bytes are the
// buffer. The list is lent: where each symbol begins in its row, and its frequency, two bytes each.
ghost use Rattle.std.specs.Prelude.{◌+◌, ◌≤◌, length, IfSome};
ghost use Rattle.range_encoder.specs.Encoder.{shifts_of};
ghost use Rattle.range_encoder.specs.Private.{Sound};

use crate::answers::{none, told};
use crate::number::two;
use range_encoder::{EncoderState, Finished, inner};

pub(crate) fn run(n: [usize; 24], buf: &mut [u8], list: &[u8]) -> [usize; 24] {
    if 65535 < buf.len() {
        return none();
    }
    let Some(st) = encode_all(list, buf) else {
        return none();
    };
    let reserved = inner::reserved_bits(st);
    let forecast = inner::nbits_forecast(st);
    if 8 * buf.len() < reserved {
        return none();
    }
    let end = inner::ac_enc_finish(buf, st, n[0]);
    accepted(st, reserved, forecast, end)
}

fn accepted(st: EncoderState, reserved: usize, forecast: usize, end: Finished) -> [usize; 24] {
    told(&[
        0,
        st.held,
        st.pending,
        st.out,
        reserved,
        forecast,
        end.out,
        end.bits,
        st.low as usize,
        st.range as usize,
        st.cache as usize,
        st.carry as usize,
    ])
}

// The encoder behind a list. A symbol that no row has, or that the buffer may have no room for, cannot be sent.
fn encode_all(list: &[u8], buf: &mut [u8]) -> Option<EncoderState>
    requires { length buf.old ≤ 65535 }
    ensures { IfSome result (λ st. (Sound st) × (shifts_of st ≤ length buf.old)) }
{
    let mut st = inner::ac_enc_init();
    for symbol in list.chunks_exact(4) {
        let cumulative = two(symbol, 0);
        let frequency = two(symbol, 2);
        if frequency == 0 || 1024 < cumulative + frequency {
            return None;
        }
        if buf.len() < st.out + st.held + st.pending + 2 {
            return None;
        }
        st = encode_one(buf, st, cumulative as u32, frequency as u32);
    }
    Some(st)
}

fn encode_one(buf: &mut [u8], st: EncoderState, cumulative: u32, frequency: u32) -> EncoderState
    requires { (Sound st) × (1 ≤ frequency) × (cumulative + frequency ≤ 1024) × (shifts_of st + 2 ≤ length buf.old) × (length buf.old ≤ 65535) }
    ensures { (Sound result) × (shifts_of result ≤ length buf.old) }
{
    inner::ac_encode(buf, st, cumulative, frequency)
}
