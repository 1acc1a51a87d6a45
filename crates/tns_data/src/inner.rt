// The TNS data behind checks that the caller has made: the frame's length, the state's range and the two parts of the table set.
ghost use Rattle.std.specs.Prelude.{◌≡◌, true, cond, eqb, ◌≤◌, ◌*◌, length, replicate};
ghost use Rattle.range_decoder.specs.Decoder.{range_passes};
ghost use Rattle.tns_data.specs.Tns.{weighting_row, read_indices, read_filter, read_tns};
ghost use Rattle.sending.specs.Private.{Ready, sent_all, laid_all};
ghost use Rattle.tns_data.specs.Sent.{tns_passes, sent_tns, tns_of as Sent·tns_of};
ghost use Rattle.tns_data.specs.Private.{tns_of, told, filter_of, laid, indices_laid};

use buffer_reader::Cursor;
use coding::Met;
use common::table_set::TnsTables;
use range_decoder::DecoderState;
use range_encoder::EncoderState;

pub fn weighting_row(duration: usize, bits: usize) -> usize
    ensures { result ≡ weighting_row duration bits }
{
    usize::from(bits < weighting_limit(duration))
}

fn weighting_limit(duration: usize) -> usize
    ensures { result ≡ cond (eqb duration 0) 480 360 }
{
    if duration == 0 { 480 } else { 360 }
}

// So many indices of a filter, each by its own row, laid from place 8 * filter on.
fn read_indices(
    state: DecoderState,
    buf: &[u8],
    at: Cursor,
    tables: &TnsTables,
    filter: usize,
    order: usize,
    indices: &mut [usize; 16],
) -> Result<(usize, DecoderState, Cursor), Met>
    requires { (length buf.now ≤ 65535) × (range_passes state.range ≡ true) × (filter ≤ 1) × (order ≤ 8) × (length indices.old ≡ 16) }
    ensures { filter_of result indices.new ≡ indices_laid indices.old (8 * filter) order (read_indices tables.now.coefficients.now filter 0 order state buf.now at) }
{
    let mut s = state;
    let mut c = at;
    for k in 0..order {
        let read = coding::inner::symbol(s, buf, c, tables.coefficients, k * 17, 17);
        let (index, next_state, next) = read.map_err(|e| Met::Coef(filter, k, e))?;
        indices[8 * filter + k] = index;
        s = next_state;
        c = next;
    }
    Ok((order, s, c))
}

// A filter: where its flag is set, its order and as many indices.
fn read_filter(
    state: DecoderState,
    buf: &[u8],
    at: Cursor,
    tables: &TnsTables,
    weighting: usize,
    filter: usize,
    flag: u32,
    indices: &mut [usize; 16],
) -> Result<(usize, DecoderState, Cursor), Met>
    requires { (length buf.now ≤ 65535) × (range_passes state.range ≡ true) × (weighting ≤ 1) × (filter ≤ 1) × (length indices.old ≡ 16) }
    ensures { filter_of result indices.new ≡ laid indices.old (8 * filter) (read_filter tables.now.orders.now tables.now.coefficients.now weighting filter flag state buf.now at) }
{
    if flag != 1 {
        return Ok((0, state, at));
    }
    let read = coding::inner::symbol(state, buf, at, tables.orders, weighting * 8, 8);
    let (k, next_state, next) = read.map_err(|e| Met::Order(filter, e))?;
    read_indices(next_state, buf, next, tables, filter, k + 1, indices)
}

// Both filters, into sixteen places that hold 0: the two orders, with the state and the cursor behind them.
pub fn read_tns(
    state: DecoderState,
    buf: &[u8],
    at: Cursor,
    tables: &TnsTables,
    weighting: usize,
    first_flag: u32,
    second_flag: u32,
    indices: &mut [usize; 16],
) -> Result<(usize, usize, DecoderState, Cursor), Met>
    requires { (length buf.now ≤ 65535) × (range_passes state.range ≡ true) × (weighting ≤ 1) × (indices.old ≡ replicate 16 0) }
    ensures { tns_of result indices.new ≡ told (read_tns tables.now.orders.now tables.now.coefficients.now weighting first_flag second_flag state buf.now at) }
{
    let (first, s, c) = read_filter(state, buf, at, tables, weighting, 0, first_flag, indices)?;
    let (second, last_state, last) = read_filter(
        s,
        buf,
        c,
        tables,
        weighting,
        1,
        second_flag,
        indices,
    )?;
    Ok((first, second, last_state, last))
}

// Whether the writer takes both filters beside their flags.
pub fn tns_passes(
    first_flag: u32,
    second_flag: u32,
    first_order: usize,
    second_order: usize,
    indices: [usize; 16],
) -> bool
    requires { length indices ≡ 16 }
    ensures { result ≡ tns_passes first_flag second_flag first_order second_order indices }
{
    crate::send::tns_passes(first_flag, second_flag, first_order, second_order, indices)
}

// The symbols of both filters sent, or counted alone.
pub fn send_tns(
    buf: &mut [u8],
    st: EncoderState,
    writing: bool,
    tables: &TnsTables,
    weighting: usize,
    first_order: usize,
    second_order: usize,
    indices: [usize; 16],
) -> EncoderState
    requires { (weighting ≤ 1) × (first_order ≤ 8) × (second_order ≤ 8) × (length indices ≡ 16) × (Ready writing st (length buf.old) (sent_tns tables.now.orders.now tables.now.coefficients.now weighting (Sent·tns_of first_order second_order indices))) }
    ensures state { result ≡ sent_all writing st (sent_tns tables.now.orders.now tables.now.coefficients.now weighting (Sent·tns_of first_order second_order indices)) }
    ensures lent { buf.new ≡ laid_all writing st buf.old (sent_tns tables.now.orders.now tables.now.coefficients.now weighting (Sent·tns_of first_order second_order indices)) }
{
    crate::send::send_tns(
        buf,
        st,
        writing,
        tables,
        weighting,
        first_order,
        second_order,
        indices,
    )
}
