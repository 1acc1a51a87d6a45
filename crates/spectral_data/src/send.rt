// The symbols of the pairs, written or counted alone.
ghost use Rattle.std.specs.Prelude.{◌≡◌, ◌*◌, ◌≤◌, ◌<◌, length};
ghost use Rattle.sending.specs.Private.{Ready, sent_all, laid_all};
ghost use Rattle.spectral_data.specs.Sent.{sent_escapes, sent_pair, sent_pairs};

use common::table_set::PairTables;
use range_encoder::EncoderState;

// The n escapes of a pair, from level 0 on.
fn escapes(
    buf: &mut [u8],
    st: EncoderState,
    writing: bool,
    tables: &PairTables,
    start: usize,
    n: usize,
) -> EncoderState
    requires { (start < 1024) × Ready writing st (length buf.old) (sent_escapes tables.now.lookup.now tables.now.frequencies.now start 0 n) }
    ensures state { result ≡ sent_all writing st (sent_escapes tables.now.lookup.now tables.now.frequencies.now start 0 n) }
    ensures lent { buf.new ≡ laid_all writing st buf.old (sent_escapes tables.now.lookup.now tables.now.frequencies.now start 0 n) }
{
    let mut here = st;
    for level in 0..n {
        let row = contexts::inner::row(tables.lookup, start, level);
        here = sending::inner::symbol(buf, here, writing, tables.frequencies, 17, row, 16);
    }
    here
}

// A pair of magnitudes: its escapes, and its last symbol.
fn pair(
    buf: &mut [u8],
    st: EncoderState,
    writing: bool,
    tables: &PairTables,
    start: usize,
    a: usize,
    b: usize,
) -> EncoderState
    requires { (start < 1024) × (a ≤ 32768) × (b ≤ 32768) × Ready writing st (length buf.old) (sent_pair tables.now.lookup.now tables.now.frequencies.now start a b) }
    ensures state { result ≡ sent_all writing st (sent_pair tables.now.lookup.now tables.now.frequencies.now start a b) }
    ensures lent { buf.new ≡ laid_all writing st buf.old (sent_pair tables.now.lookup.now tables.now.frequencies.now start a b) }
{
    let n = contexts::inner::escapes(a, b);
    let here = escapes(buf, st, writing, tables, start, n);
    let row = contexts::inner::row(tables.lookup, start, n);
    let symbol = contexts::inner::pair_symbol(a, b, n);
    sending::inner::symbol(buf, here, writing, tables.frequencies, 17, row, symbol)
}

// The pairs of the lines, each by the context that those before it leave.
pub(crate) fn pairs(
    buf: &mut [u8],
    st: EncoderState,
    writing: bool,
    tables: &PairTables,
    rate: usize,
    ne: usize,
    lines: &[i16],
    pairs: usize,
) -> EncoderState
    requires { (rate ≤ 512) × (2 * pairs ≤ length lines.now) × (pairs ≤ 200) × Ready writing st (length buf.old) (sent_pairs tables.now.lookup.now tables.now.frequencies.now rate ne lines.now 0 pairs 0) }
    ensures state { result ≡ sent_all writing st (sent_pairs tables.now.lookup.now tables.now.frequencies.now rate ne lines.now 0 pairs 0) }
    ensures lent { buf.new ≡ laid_all writing st buf.old (sent_pairs tables.now.lookup.now tables.now.frequencies.now rate ne lines.now 0 pairs 0) }
{
    let mut here = st;
    let mut context = 0;
    for p in 0..pairs {
        let start = contexts::inner::lookup_start(context, rate, ne, 2 * p);
        let a = contexts::inner::magnitude_at(lines, 2 * p);
        let b = contexts::inner::magnitude_at(lines, 2 * p + 1);
        here = pair(buf, here, writing, tables, start, a, b);
        context = contexts::inner::context_behind(context, a, b, contexts::inner::escapes(a, b));
    }
    here
}
