// The encoder's calls, for the frame writer: each requires that the state's numbers fit, and the finish the whole invariant. What
// sends requires room for it.
ghost use Rattle.std.specs.Prelude.{◌≡◌, true, ◌+◌, ◌*◌, ◌≤◌, ◌<◌, length};
ghost use Rattle.std.proofs.lemmas.List.Edits.{sets};
ghost use Rattle.range_encoder.specs.Encoder.{start_encoder, shifts_of, settles as Encoder·settles, shift_bytes, shifted, symbol_added, turn as Encoder·turn, turn_bytes, encoded, encoded_bytes, reserved_bits, reserved_of, forecast_of};
ghost use Rattle.range_encoder.specs.Finish.{pushed, pushed_bytes, last_bits, held_bytes, last_byte, finish_bytes, finish_last, finish_bits, with_own};
ghost use Rattle.range_encoder.specs.Private.{Fits, Sound};

use crate::{EncoderState, Finished};

pub fn ac_enc_init() -> EncoderState
    ensures { result ≡ start_encoder }
{
    EncoderState {
        low: 0,
        range: 0xffffff,
        held: 0,
        cache: 0,
        carry: 0,
        pending: 0,
        out: 0,
    }
}

fn settles(st: EncoderState) -> bool
    ensures { result ≡ Encoder·settles st }
{
    st.low < 0xff0000 || st.carry == 1
}

// The byte in the cache and the 0xFFs behind it, with the carry that passes through them.
fn send_held(buf: &mut [u8], st: EncoderState)
    requires { (Fits st) × (Encoder·settles st ≡ true) × (shifts_of st ≤ length buf.old) }
    ensures { buf.new ≡ sets buf.old st.out (shift_bytes st) }
{
    let first = ((st.cache + st.carry) % 256) as u8;
    let rest = ((st.carry + 255) % 256) as u8;
    buffer_writer::inner::put_copies(buf, st.out, first, st.held);
    buffer_writer::inner::put_copies(buf, st.out + st.held, rest, st.pending);
}

pub fn ac_shift(buf: &mut [u8], st: EncoderState) -> EncoderState
    requires { (Fits st) × (shifts_of st ≤ length buf.old) × (length buf.old ≤ 65535) }
    ensures state { result ≡ shifted st }
    ensures lent { buf.new ≡ sets buf.old st.out (shift_bytes st) }
{
    let low = st.low * 256 % 0x1000000;
    if settles(st) {
        send_held(buf, st);
        return EncoderState {
            low,
            held: 1,
            cache: st.low / 0x10000,
            carry: 0,
            pending: 0,
            out: st.out + st.held + st.pending,
            ..st
        };
    }
    EncoderState {
        low,
        pending: st.pending + 1,
        ..st
    }
}

// The symbol's part of the range, before the bytes that it may shift out.
fn symbol_added(st: EncoderState, cumulative: u32, frequency: u32) -> EncoderState
    requires { (Fits st) × (cumulative + frequency ≤ 1024) }
    ensures { result ≡ symbol_added st cumulative frequency }
{
    let unit = st.range >> 10;
    let low = st.low + unit * cumulative;
    EncoderState {
        low: low % 0x1000000,
        range: unit * frequency,
        carry: if low < 0x1000000 { st.carry } else { 1 },
        ..st
    }
}

// One turn of the renormalising: a byte is shifted out where the range has fallen below 0x10000.
fn turn(buf: &mut [u8], st: EncoderState) -> EncoderState
    requires { (Fits st) × (shifts_of (Encoder·turn st) ≤ length buf.old) × (length buf.old ≤ 65535) }
    ensures state { result ≡ Encoder·turn st }
    ensures lent { buf.new ≡ sets buf.old st.out (turn_bytes st) }
{
    if 0x10000 <= st.range {
        return st;
    }
    EncoderState {
        range: st.range * 256,
        ..ac_shift(buf, st)
    }
}

pub fn ac_encode(buf: &mut [u8], st: EncoderState, cumulative: u32, frequency: u32) -> EncoderState
    requires { (Fits st) × (cumulative + frequency ≤ 1024) × (shifts_of (encoded st cumulative frequency) ≤ length buf.old) × (length buf.old ≤ 65535) }
    ensures state { result ≡ encoded st cumulative frequency }
    ensures lent { buf.new ≡ sets buf.old st.out (encoded_bytes st cumulative frequency) }
{
    let added = symbol_added(st, cumulative, frequency);
    let once = turn(buf, added);
    turn(buf, once)
}

// 8 bits for each byte, and the most that the finish sends behind them.
fn bits_for(bytes: usize, range: u32) -> usize
    requires { (bytes ≤ 65536) × (0x10000 ≤ range) × (range < 0x1000000) }
    ensures { result ≡ reserved_bits bytes range }
{
    8 * bytes + 25 - common::inner::floor_log2(range)
}

// E, in bits.
pub fn reserved_bits(st: EncoderState) -> usize
    requires { (Fits st) × (0x10000 ≤ st.range) × (shifts_of st ≤ 65535) }
    ensures { result ≡ reserved_of st }
{
    bits_for(st.out + st.held + st.pending, st.range)
}

// The source's own forecast, for the crate reading.
pub fn nbits_forecast(st: EncoderState) -> usize
    requires { (Fits st) × (0x10000 ≤ st.range) × (shifts_of st ≤ 65535) }
    ensures { result ≡ forecast_of st }
{
    bits_for(st.out + 1 + st.pending, st.range)
}

// The finish's own bits into the cache: a shift, and a second for a ninth bit.
fn push(buf: &mut [u8], st: EncoderState, bits: usize) -> EncoderState
    requires { (Fits st) × (shifts_of (pushed st bits) ≤ length buf.old) × (length buf.old ≤ 65535) }
    ensures state { result ≡ pushed st bits }
    ensures lent { buf.new ≡ sets buf.old st.out (pushed_bytes st bits) }
{
    let once = ac_shift(buf, st);
    if bits <= 8 {
        return once;
    }
    ac_shift(buf, once)
}

// What is held behind the last shift: whole bytes, and the top bits of the last.
fn send_last(buf: &mut [u8], st: EncoderState, bits: usize) -> Finished
    requires { (Fits st) × (st.held ≡ 1) × (1 ≤ bits) × (bits ≤ 8) × (shifts_of st ≤ length buf.old) × (length buf.old ≤ 65535) }
    ensures end { (result.out ≡ st.out + length (held_bytes st)) × (result.bits ≡ bits) }
    ensures lent { buf.new ≡ with_own buf.old st.out (held_bytes st) (last_byte st bits) bits }
{
    let cache = st.cache as u8;
    let out = st.out;
    if st.pending == 0 {
        buffer_writer::inner::put_top(buf, out, cache, bits);
        return Finished { out, bits };
    }
    buffer_writer::inner::put_copies(buf, out, cache, 1);
    buffer_writer::inner::put_copies(buf, out + 1, 255, st.pending - 1);
    let end = out + st.pending;
    buffer_writer::inner::put_top(buf, end, 255 >> (8 - bits), bits);
    Finished { out: end, bits }
}

fn last_bits(bits: usize) -> usize
    ensures { result ≡ last_bits bits }
{
    if 8 < bits { bits - 8 } else { bits }
}

pub fn ac_enc_finish(buf: &mut [u8], st: EncoderState, reading: usize) -> Finished
    requires { (Sound st) × (reserved_of st ≤ 8 * length buf.old) × (length buf.old ≤ 65535) }
    ensures end { (result.out ≡ st.out + length (finish_bytes reading st)) × (result.bits ≡ finish_bits reading st) }
    ensures lent { buf.new ≡ with_own buf.old st.out (finish_bytes reading st) (finish_last reading st) (finish_bits reading st) }
{
    let e = crate::ending::ending(reading, st);
    let ended = EncoderState {
        low: e.value,
        carry: e.carry,
        ..st
    };
    let last = push(buf, ended, e.bits);
    send_last(buf, last, last_bits(e.bits))
}
