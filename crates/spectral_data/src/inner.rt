// The spectral stage on what the frame's reader has judged: nothing but 9, 10, 11 and 19 is left to refuse.
ghost use Rattle.std.specs.Prelude.{◌≡◌, true, cond, ◌&&◌, ◌+◌, ◌*◌, ◌^◌, ◌≤◌, ◌<◌, eqb, pos, neg_ℤ, length, set};
ghost use Rattle.sending.specs.Private.{Ready, sent_all, laid_all, Puts, put_all};
ghost use Rattle.range_decoder.specs.declared.DecoderState.{DecoderState as State};
ghost use Rattle.contexts.specs.Contexts.{first_part, second_part, next_context};
ghost use Rattle.spectral_data.specs.Sent.{sent_pairs, pairs_bits};
ghost use Rattle.spectral_data.specs.Spectral.{low_bits, behind_escape, read_levels, read_sign, read_pair, read_pairs};
ghost use Rattle.spectral_data.specs.Private.{Judged, Bounded, low_of, read_symbol, symbol_of, turn_by, turn_of, levels_in, levels_of, line_of, signs_by, pair_of, filling, pairs_of};
ghost use Rattle.spectral_data.specs.declared.inner.PairsError.TheVariants.{Step};

use buffer_reader::Cursor;
use coding::Met;
use common::table_set::PairTables;
use range_decoder::DecoderState;
use range_encoder::EncoderState;

// What the stage refuses: 9 to 11, in the step that met them, and 19, which stands in none.
#[derive(Clone, Copy)]
pub enum PairsError {
    Step(Met),
    FourteenEscapes(usize),
}

impl From<Met> for PairsError {
    ghost from_gives = { λ m e. e ≡ Step m };

    fn from(m: Met) -> PairsError {
        PairsError::Step(m)
    }
}

// One level of a pair: its last symbol, or an escape with its tail bits.
#[derive(Clone, Copy)]
pub(crate) enum Turn {
    Last(usize, DecoderState, Cursor),
    Escape(u32, u32, DecoderState, Cursor),
}

// A pair before its signs: the low bits of both lines, one of each for a level.
#[derive(Clone, Copy)]
pub(crate) struct Levels {
    pub escapes: usize,
    pub last: usize,
    pub low_first: u32,
    pub low_second: u32,
}

#[derive(Clone, Copy)]
pub(crate) struct Pair {
    pub escapes: usize,
    pub last: usize,
    pub first: i32,
    pub second: i32,
}

// In least-bit mode an escape has no tail bits at level 0.
pub(crate) fn without_bits(lsb: bool, level: usize) -> bool
    ensures { result ≡ (lsb && eqb level 0) }
{
    lsb && level == 0
}

// The two tail bits behind an escape.
fn low_bits(
    buf: &[u8],
    at: Cursor,
    lsb: bool,
    p: usize,
    level: usize,
) -> Result<(u32, u32, Cursor), PairsError>
    requires { length buf.now ≤ 65535 }
    ensures { (s : State) → low_of s result ≡ low_bits lsb p level s buf.now at }
{
    if without_bits(lsb, level) {
        return Ok((0, 0, at));
    }
    let (a, next) = coding::inner::bit(buf, at).map_err(|e| Met::Bit(p, level, e))?;
    let (b, behind) = coding::inner::bit(buf, next).map_err(|e| Met::Bit(p, level, e))?;
    Ok((a, b, behind))
}

// Levels go from 0: the fourteenth escape stands at 13. Only in the standard reading is it damage.
fn is_damage(standard: bool, level: usize) -> bool
    ensures { result ≡ (standard && eqb level 13) }
{
    standard && level == 13
}

// What comes behind an escape: its tail bits, and before those of the fourteenth 19.
fn behind_escape(
    buf: &[u8],
    at: Cursor,
    standard: bool,
    lsb: bool,
    p: usize,
    level: usize,
) -> Result<(u32, u32, Cursor), PairsError>
    requires { length buf.now ≤ 65535 }
    ensures { (s : State) → low_of s result ≡ behind_escape standard lsb p level s buf.now at }
{
    if is_damage(standard, level) {
        return Err(PairsError::FourteenEscapes(p));
    }
    low_bits(buf, at, lsb, p, level)
}

// A symbol of pair p, by the row that the lookup names.
fn read_symbol(
    state: DecoderState,
    buf: &[u8],
    at: Cursor,
    tables: &PairTables,
    p: usize,
    start: usize,
    level: usize,
) -> Result<(usize, DecoderState, Cursor), Met>
    requires { Judged buf.now state × (start < 1024) }
    ensures { symbol_of result ≡ read_symbol tables.now.lookup.now tables.now.frequencies.now p start level state buf.now at }
{
    let row = contexts::inner::row(tables.lookup, start, level);
    coding::inner::symbol(state, buf, at, tables.frequencies, row * 17, 17).map_err(|e| Met::Symbol(
        p, level, e,
    ))
}

// One symbol of pair p, and behind an escape its tail bits.
fn read_turn(
    state: DecoderState,
    buf: &[u8],
    at: Cursor,
    tables: &PairTables,
    standard: bool,
    lsb: bool,
    p: usize,
    start: usize,
    level: usize,
) -> Result<Turn, PairsError>
    requires { Judged buf.now state × (start < 1024) }
    ensures { turn_of result ≡ turn_by tables.now.lookup.now tables.now.frequencies.now standard lsb p start level state buf.now at }
{
    let (k, after, next) = read_symbol(state, buf, at, tables, p, start, level)?;
    if k < 16 {
        return Ok(Turn::Last(k, after, next));
    }
    let (a, b, behind) = behind_escape(buf, next, standard, lsb, p, level)?;
    Ok(Turn::Escape(a, b, after, behind))
}

// What a part of a magnitude is worth at a level.
fn raised(part: u32, level: usize) -> u32
    requires { (part ≤ 4) × (level ≤ 14) }
    ensures value { result ≡ part * 2 ^ level }
    ensures most { result ≤ 65536 }
{
    part << level
}

// The symbols of pair p, at most fourteen, and the low bits between them.
fn read_levels(
    state: DecoderState,
    buf: &[u8],
    at: Cursor,
    tables: &PairTables,
    standard: bool,
    lsb: bool,
    p: usize,
    start: usize,
) -> Result<(Levels, DecoderState, Cursor), PairsError>
    requires { Judged buf.now state × (start < 1024) }
    ensures { levels_of result ≡ read_levels tables.now.lookup.now tables.now.frequencies.now standard lsb p start 14 0 0 0 state buf.now at }
{
    let mut here = state;
    let mut place = at;
    let mut low_first = 0;
    let mut low_second = 0;
    for level in 0usize..14 {
        match read_turn(here, buf, place, tables, standard, lsb, p, start, level)? {
            Turn::Last(last, after, next) => {
                let read = Levels {
                    escapes: level,
                    last,
                    low_first,
                    low_second,
                };
                return Ok((read, after, next));
            }
            Turn::Escape(a, b, after, next) => {
                low_first += raised(a, level);
                low_second += raised(b, level);
                here = after;
                place = next;
            }
        }
    }
    let read = Levels {
        escapes: 14,
        last: 16,
        low_first,
        low_second,
    };
    Ok((read, here, place))
}

fn signed(minus: u32, magnitude: u32) -> i32
    requires { magnitude ≤ 81919 }
    ensures { result ≡ cond (eqb minus 1) (neg_ℤ (pos magnitude)) (pos magnitude) }
{
    if minus == 1 {
        -(magnitude as i32)
    } else {
        magnitude as i32
    }
}

// A line by its magnitude: what is above 0 has a sign.
fn signed_line(
    buf: &[u8],
    at: Cursor,
    p: usize,
    level: usize,
    magnitude: u32,
) -> Result<(i32, Cursor), PairsError>
    requires { (length buf.now ≤ 65535) × (magnitude ≤ 81919) }
    ensures { (s : State) → line_of s result ≡ read_sign p level magnitude s buf.now at }
{
    if magnitude == 0 {
        return Ok((0, at));
    }
    let (minus, next) = coding::inner::bit(buf, at).map_err(|e| Met::Bit(p, level, e))?;
    Ok((signed(minus, magnitude), next))
}

// The two lines of a pair whose symbols are read.
fn signs(
    buf: &[u8],
    at: Cursor,
    p: usize,
    read: Levels,
    state: DecoderState,
) -> Result<(Pair, DecoderState, Cursor), PairsError>
    requires { (length buf.now ≤ 65535) × Bounded (levels_in read) }
    ensures { pair_of result ≡ signs_by p (levels_in read) state buf.now at }
{
    let escapes = read.escapes;
    let last = read.last;
    let (first, next) = signed_line(
        buf,
        at,
        p,
        escapes,
        read.low_first + raised((last % 4) as u32, escapes),
    )?;
    let (second, behind) = signed_line(
        buf,
        next,
        p,
        escapes,
        read.low_second + raised((last / 4) as u32, escapes),
    )?;
    let pair = Pair {
        escapes,
        last,
        first,
        second,
    };
    Ok((pair, state, behind))
}

// Pair p, whose lookup begins at start.
fn read_pair(
    state: DecoderState,
    buf: &[u8],
    at: Cursor,
    tables: &PairTables,
    standard: bool,
    lsb: bool,
    p: usize,
    start: usize,
) -> Result<(Pair, DecoderState, Cursor), PairsError>
    requires { Judged buf.now state × (start < 1024) }
    ensures { pair_of result ≡ read_pair tables.now.lookup.now tables.now.frequencies.now standard lsb p start state buf.now at }
{
    let (read, after, next) = read_levels(state, buf, at, tables, standard, lsb, p, start)?;
    signs(buf, next, p, read, after)
}

// Pair p where its lines and its level belong.
fn store(lines: &mut [i32], levels: &mut [u8], p: usize, pair: Pair)
    requires { (2 * p + 1 < length lines.old) × (p < length levels.old) × (pair.escapes ≤ 14) }
    ensures lines_after { lines.new ≡ set (set lines.old (2 * p) pair.first) (2 * p + 1) pair.second }
    ensures levels_after { levels.new ≡ set levels.old p pair.escapes }
{
    let k = 2 * p;
    lines[k] = pair.first;
    lines[k + 1] = pair.second;
    levels[p] = pair.escapes as u8;
}

// The pairs of a frame, into the front of two lent arrays: the lines, and the level of each pair.
pub fn read_pairs(
    state: DecoderState,
    buf: &[u8],
    at: Cursor,
    tables: &PairTables,
    standard: bool,
    lsb: bool,
    rate: usize,
    ne: usize,
    pairs: usize,
    lines: &mut [i32],
    levels: &mut [u8],
) -> Result<(DecoderState, Cursor), PairsError>
    requires { Judged buf.now state × (rate ≤ 512) × (pairs ≤ 200) × (2 * pairs ≤ length lines.old) × (pairs ≤ length levels.old) }
    ensures { pairs_of result lines.new levels.new ≡ filling pairs lines.old levels.old (read_pairs tables.now.lookup.now tables.now.frequencies.now standard lsb rate ne 0 pairs 0) state buf.now at }
{
    let mut here = state;
    let mut place = at;
    let mut context = 0;
    for p in 0..pairs {
        let start = contexts::inner::lookup_start(context, rate, ne, 2 * p);
        let (read, after, next) = read_pair(here, buf, place, tables, standard, lsb, p, start)?;
        store(lines, levels, p, read);
        context = context_behind(context, read);
        here = after;
        place = next;
    }
    Ok((here, place))
}

// The context behind a pair goes by its symbols alone.
fn context_behind(context: usize, pair: Pair) -> usize
    requires { pair.last ≤ 16 }
    ensures { result ≡ next_context context (first_part pair.last) (second_part pair.last) pair.escapes }
{
    contexts::inner::next_context(context, pair.last % 4, pair.last / 4, pair.escapes)
}

// The symbols of the pairs of a frame that is written, into the head of a lent buffer, or counted alone.
pub fn send_pairs(
    buf: &mut [u8],
    st: EncoderState,
    writing: bool,
    tables: &PairTables,
    rate: usize,
    ne: usize,
    lines: &[i16],
    pairs: usize,
) -> EncoderState
    requires { (rate ≤ 512) × (2 * pairs ≤ length lines.now) × (pairs ≤ 200) × Ready writing st (length buf.old) (sent_pairs tables.now.lookup.now tables.now.frequencies.now rate ne lines.now 0 pairs 0) }
    ensures state { result ≡ sent_all writing st (sent_pairs tables.now.lookup.now tables.now.frequencies.now rate ne lines.now 0 pairs 0) }
    ensures lent { buf.new ≡ laid_all writing st buf.old (sent_pairs tables.now.lookup.now tables.now.frequencies.now rate ne lines.now 0 pairs 0) }
{
    crate::send::pairs(buf, st, writing, tables, rate, ne, lines, pairs)
}

// The tail bits of so many pairs, written or counted alone. Returns the place behind them.
pub fn put_pairs(
    buf: &mut [u8],
    writing: bool,
    place: usize,
    lsb: bool,
    lines: &[i16],
    pairs: usize,
) -> usize
    requires { (2 * pairs ≤ length lines.now) × (Puts writing buf.old place (length (pairs_bits lsb lines.now 0 pairs))) }
    ensures next { result ≡ place + length (pairs_bits lsb lines.now 0 pairs) }
    ensures lent { buf.new ≡ put_all writing buf.old place (pairs_bits lsb lines.now 0 pairs) }
{
    crate::put::put_pairs(buf, writing, place, lsb, lines, pairs)
}
