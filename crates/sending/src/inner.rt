// A symbol sent or counted, a tail bit put or counted, each where the caller has shown that there is room.
ghost use Rattle.std.specs.Prelude.{◌≡◌, [], ◌∷◌, true, cond, ◌+◌, ◌*◌, ◌≤◌, ◌<◌, length};
ghost use Rattle.common.specs.Tables.{row_passes, cumulative, row_at};
ghost use Rattle.range_encoder.specs.Private.{Fits};
ghost use Rattle.buffer_writer.specs.Writes.{put_bit};
ghost use Rattle.sending.specs.Sending.{sent};
ghost use Rattle.sending.specs.Private.{Ready, Puts, sent_one, laid_one, wider_count, counted_by};

use range_encoder::EncoderState;

// What stands before a symbol in its row.
fn below(row: &[u16], symbol: usize) -> u32
    requires { (symbol ≤ length row.now) × (row_passes row.now ≡ true) }
    ensures { result ≡ cumulative row.now symbol }
{
    row[..symbol].iter().map(|f| u32::from(*f)).sum()
}

// One turn of the renormalising, counted: S goes in the place of the bytes out.
fn widen(st: EncoderState) -> EncoderState
    requires { st.out < 65535 }
    ensures { result ≡ wider_count st }
{
    if 0x10000 <= st.range {
        return st;
    }
    EncoderState {
        range: st.range * 256,
        out: st.out + 1,
        ..st
    }
}

fn counted(st: EncoderState, frequency: u32) -> EncoderState
    requires { (Fits st) × (frequency ≤ 1024) × (st.out + 2 ≤ 65535) }
    ensures { result ≡ counted_by st frequency }
{
    let unit = st.range >> 10;
    let part = EncoderState {
        range: unit * frequency,
        ..st
    };
    let once = widen(part);
    widen(once)
}

// A symbol of a row. `writing` stays a flag: it is tested here, in `bit`, and by the frame writer's early bits, and a trait of two types
// would put ghost members and a bound into twelve signatures.
fn of_row(
    buf: &mut [u8],
    st: EncoderState,
    writing: bool,
    row: &[u16],
    symbol: usize,
) -> EncoderState
    requires { Ready writing st (length buf.old) (sent row.now symbol ∷ []) }
    ensures state { result ≡ sent_one writing st (sent row.now symbol) }
    ensures lent { buf.new ≡ laid_one writing st buf.old (sent row.now symbol) }
{
    let frequency = u32::from(row[symbol]);
    if !writing {
        return counted(st, frequency);
    }
    let cumulative = below(row, symbol);
    range_encoder::inner::ac_encode(buf, st, cumulative, frequency)
}

// A symbol of a row of a part of the table set.
pub fn symbol(
    buf: &mut [u8],
    st: EncoderState,
    writing: bool,
    part: &[u16],
    width: usize,
    row: usize,
    symbol: usize,
) -> EncoderState
    requires { (row * width + width ≤ length part.now) × (Ready writing st (length buf.old) (sent (row_at width row part.now) symbol ∷ [])) }
    ensures state { result ≡ sent_one writing st (sent (row_at width row part.now) symbol) }
    ensures lent { buf.new ≡ laid_one writing st buf.old (sent (row_at width row part.now) symbol) }
{
    let first = row * width;
    let end = first + width;
    of_row(buf, st, writing, &part[first..end], symbol)
}

// A tail bit at a place, and the place behind it.
pub fn bit(buf: &mut [u8], writing: bool, place: usize, value: u32) -> usize
    requires { (value < 2) × (Puts writing buf.old place 1) }
    ensures next { result ≡ place + 1 }
    ensures lent { buf.new ≡ cond writing (put_bit buf.old place value) buf.old }
{
    if writing {
        buffer_writer::inner::put_bit(buf, place, value);
    }
    place + 1
}
