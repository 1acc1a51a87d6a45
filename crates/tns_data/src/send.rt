// The TNS data, written: what the writer takes, and its symbols in their order.
ghost use Rattle.std.specs.Prelude.{◌≡◌, true, cond, ◌≤◌, ltb, leb, eqb, length, take, drop};
ghost use Rattle.sending.specs.Private.{Ready, sent_all, laid_all};
ghost use Rattle.tns_data.specs.Sent.{places_pass, filter_passes, tns_passes, sent_indices, sent_filter, sent_tns, tns_of};
ghost use Rattle.tns_data.specs.Private.{filter_at};

use common::table_set::TnsTables;
use range_encoder::EncoderState;

// An index at place k of a filter: 0 to 16 below its order, 0 from there on.
fn place_passes(order: usize, k: usize, index: usize) -> bool
    ensures { result ≡ cond (ltb k order) (leb index 16) (eqb index 0) }
{
    if k < order { index <= 16 } else { index == 0 }
}

// The eight places of a filter, from a place on.
fn places_pass(indices: [usize; 16], from: usize, order: usize) -> bool
    requires { (length indices ≡ 16) × (from ≤ 8) }
    ensures { result ≡ places_pass order (take 8 (drop from indices)) }
{
    for k in 0..8 {
        if !place_passes(order, k, indices[from + k]) {
            return false;
        }
    }
    true
}

// A filter beside its flag, which is set where the order is not 0.
fn filter_passes(flag: u32, order: usize, indices: [usize; 16], from: usize) -> bool
    requires { (length indices ≡ 16) × (from ≤ 8) }
    ensures { result ≡ filter_passes flag order (take 8 (drop from indices)) }
{
    order <= 8 && flag == u32::from(order != 0) && places_pass(indices, from, order)
}

// Both filters, each beside its flag.
pub(crate) fn tns_passes(
    first_flag: u32,
    second_flag: u32,
    first_order: usize,
    second_order: usize,
    indices: [usize; 16],
) -> bool
    requires { length indices ≡ 16 }
    ensures { result ≡ tns_passes first_flag second_flag first_order second_order indices }
{
    filter_passes(first_flag, first_order, indices, 0)
        && filter_passes(second_flag, second_order, indices, 8)
}

// So many indices of a filter, each by its own row, from a place on.
fn send_indices(
    buf: &mut [u8],
    st: EncoderState,
    writing: bool,
    tables: &TnsTables,
    indices: [usize; 16],
    from: usize,
    order: usize,
) -> EncoderState
    requires { (length indices ≡ 16) × (from ≤ 8) × (order ≤ 8) × (Ready writing st (length buf.old) (sent_indices tables.now.coefficients.now 0 (take order (drop from indices)))) }
    ensures state { result ≡ sent_all writing st (sent_indices tables.now.coefficients.now 0 (take order (drop from indices))) }
    ensures lent { buf.new ≡ laid_all writing st buf.old (sent_indices tables.now.coefficients.now 0 (take order (drop from indices))) }
{
    let mut s = st;
    for k in 0..order {
        s = sending::inner::symbol(
            buf,
            s,
            writing,
            tables.coefficients,
            17,
            k,
            indices[from + k],
        );
    }
    s
}

// A filter: where its order is not 0, the order and as many indices.
fn send_filter(
    buf: &mut [u8],
    st: EncoderState,
    writing: bool,
    tables: &TnsTables,
    weighting: usize,
    indices: [usize; 16],
    from: usize,
    order: usize,
) -> EncoderState
    requires { (weighting ≤ 1) × (length indices ≡ 16) × (from ≤ 8) × (order ≤ 8) × (Ready writing st (length buf.old) (sent_filter tables.now.orders.now tables.now.coefficients.now weighting (filter_at from order indices))) }
    ensures state { result ≡ sent_all writing st (sent_filter tables.now.orders.now tables.now.coefficients.now weighting (filter_at from order indices)) }
    ensures lent { buf.new ≡ laid_all writing st buf.old (sent_filter tables.now.orders.now tables.now.coefficients.now weighting (filter_at from order indices)) }
{
    if order == 0 {
        return st;
    }
    let s = sending::inner::symbol(buf, st, writing, tables.orders, 8, weighting, order - 1);
    send_indices(buf, s, writing, tables, indices, from, order)
}

// Both filters, one behind the other.
pub(crate) fn send_tns(
    buf: &mut [u8],
    st: EncoderState,
    writing: bool,
    tables: &TnsTables,
    weighting: usize,
    first_order: usize,
    second_order: usize,
    indices: [usize; 16],
) -> EncoderState
    requires { (weighting ≤ 1) × (first_order ≤ 8) × (second_order ≤ 8) × (length indices ≡ 16) × (Ready writing st (length buf.old) (sent_tns tables.now.orders.now tables.now.coefficients.now weighting (tns_of first_order second_order indices))) }
    ensures state { result ≡ sent_all writing st (sent_tns tables.now.orders.now tables.now.coefficients.now weighting (tns_of first_order second_order indices)) }
    ensures lent { buf.new ≡ laid_all writing st buf.old (sent_tns tables.now.orders.now tables.now.coefficients.now weighting (tns_of first_order second_order indices)) }
{
    let s = send_filter(buf, st, writing, tables, weighting, indices, 0, first_order);
    send_filter(buf, s, writing, tables, weighting, indices, 8, second_order)
}
