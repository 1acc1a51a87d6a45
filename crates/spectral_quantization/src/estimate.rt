// The bit estimate: a sum over the pairs of lines, in 2,048ths of a bit, by the contexts that the frame is written with.
ghost use Rattle.std.specs.Prelude.{◌≡◌, ◌+◌, ◌*◌, ◌≤◌, ◌<◌, length};
ghost use Rattle.common.specs.Reply.{answer_by};
ghost use Rattle.common.specs.TableSets.{set_of};
ghost use Rattle.contexts.specs.Contexts.{magnitudes, escapes};
ghost use Rattle.spectral_quantization.specs.Estimate.{whole_bits, tail_cost, sign_cost, symbol_cost, escapes_cost, pair_cost, least_bits, is_zero, zero_at, pairs_of, estimate, reply_of, of_configuration};
ghost use Rattle.spectral_quantization.specs.Estimate as Estimate;
ghost use Rattle.spectral_quantization.specs.Private.{frame_of, running_at, on_pair, Bounded};
ghost use Rattle.spectral_quantization.specs.Private as Private;

use common::configuration::{Configuration, ConfigurationError};
use common::table_set::{PassedSet, TableSet};
use contexts::inner;

// All the numbers that the source returns.
#[derive(Clone, Copy)]
pub struct BitConsumption {
    pub rate_flag: usize,
    pub mode_flag: bool,
    pub lastnz: usize,
    pub lastnz_trunc: usize,
    pub nbits_est: usize,
    pub nbits_trunc: usize,
    pub nbits_lsb: usize,
}

// Why the estimate refuses, with the numbers of document 01.
#[derive(Clone, Copy)]
pub enum EstimateError {
    OutsideLimits,
    WrongLength(usize),
    TablesFail,
    WrongCount(usize),
}

impl From<ConfigurationError> for EstimateError {
    ghost from_gives = { λ e r. r ≡ of_configuration e };

    fn from(e: ConfigurationError) -> EstimateError {
        match e {
            ConfigurationError::OutsideLimits => EstimateError::OutsideLimits,
            ConfigurationError::WrongLength(length) => EstimateError::WrongLength(length),
        }
    }
}

// What a frame is estimated by.
#[derive(Clone, Copy)]
pub(crate) struct Frame {
    pub ne: usize,
    pub rate: usize,
    pub mode: bool,
    pub target: usize,
}

// The running numbers: the sum and the least bits, then the lines kept and their sum, then the context.
#[derive(Clone, Copy)]
pub(crate) struct Running {
    pub sum: u32,
    pub least: usize,
    pub place: usize,
    pub kept: u32,
    pub context: usize,
}

// The estimate of a frame's lines.
pub fn compute_bit_consumption(
    configuration: Configuration,
    bytes: usize,
    tables: &TableSet,
    target: usize,
    lines: &[i16],
) -> Result<BitConsumption, EstimateError>
    ensures { answer_by reply_of result ≡ estimate configuration bytes (set_of tables.now) target lines.now }
{
    if 65535 < target {
        return Err(EstimateError::OutsideLimits);
    }
    let ne = configuration.frame_lines(bytes)?;
    let passed = tables.passed().ok_or(EstimateError::TablesFail)?;
    if lines.len() != ne {
        return Err(EstimateError::WrongCount(lines.len()));
    }
    let frame = frame_of(configuration.fs_ind, bytes, ne, target);
    Ok(consumption(&passed, frame, lines))
}

// What a frame of so many bytes is estimated by.
fn frame_of(fs_ind: usize, bytes: usize, ne: usize, target: usize) -> Frame
    requires { (fs_ind ≤ 4) × (bytes ≤ 400) }
    ensures { result ≡ frame_of fs_ind bytes ne target }
{
    Frame {
        ne,
        rate: inner::rate_flag(8 * bytes, fs_ind),
        mode: 480 + 160 * fs_ind <= 8 * bytes,
        target,
    }
}

fn consumption(tables: &PassedSet, frame: Frame, lines: &[i16]) -> BitConsumption
    requires { (frame.rate ≤ 512) × (60 ≤ length lines.now) × (length lines.now ≤ 400) }
    ensures { result ≡ Estimate.consumption (magnitudes lines.now) tables.now.lookup.now tables.now.bits.now frame.ne frame.rate frame.mode frame.target }
{
    let pairs = coded_pairs(lines);
    let s = run(tables, frame, lines, pairs);
    BitConsumption {
        rate_flag: frame.rate,
        mode_flag: frame.mode,
        lastnz: 2 * pairs,
        lastnz_trunc: s.place,
        nbits_est: whole_bits(s.sum) + s.least,
        nbits_trunc: whole_bits(s.kept),
        nbits_lsb: s.least,
    }
}

// How many pairs there are up to the last that is not all zero.
fn coded_pairs(lines: &[i16]) -> usize
    requires { 2 ≤ length lines.now }
    ensures value { result ≡ pairs_of (magnitudes lines.now) }
    ensures within { 2 * result ≤ length lines.now }
{
    for p in (1..lines.len() / 2).rev() {
        if !pair_is_zero(lines, p) {
            return p + 1;
        }
    }
    1
}

fn pair_is_zero(lines: &[i16], p: usize) -> bool
    requires { 2 * p + 1 < length lines.now }
    ensures { result ≡ zero_at (magnitudes lines.now) p }
{
    let line = 2 * p;
    is_zero(
        inner::magnitude_at(lines, line),
        inner::magnitude_at(lines, line + 1),
    )
}

fn is_zero(a: usize, b: usize) -> bool
    ensures { result ≡ is_zero a b }
{
    a == 0 && b == 0
}

// The running numbers behind so many pairs.
fn run(tables: &PassedSet, frame: Frame, lines: &[i16], pairs: usize) -> Running
    requires { (frame.rate ≤ 512) × (2 * pairs ≤ length lines.now) × (length lines.now ≤ 400) }
    ensures value { result ≡ running_at tables.now.lookup.now tables.now.bits.now frame (magnitudes lines.now) pairs }
    ensures bounds { Bounded pairs result }
{
    let mut s = Running {
        sum: 0,
        least: 0,
        place: 2,
        kept: 0,
        context: 0,
    };
    for p in 0..pairs {
        let a = inner::magnitude_at(lines, 2 * p);
        let b = inner::magnitude_at(lines, 2 * p + 1);
        s = on_pair(tables, frame, p, a, b, s);
    }
    s
}

// The running numbers behind one pair more.
fn on_pair(tables: &PassedSet, frame: Frame, p: usize, a: usize, b: usize, s: Running) -> Running
    requires { (frame.rate ≤ 512) × (p < 200) × (a ≤ 32768) × (b ≤ 32768) × Bounded p s }
    ensures value { result ≡ on_pair tables.now.lookup.now tables.now.bits.now frame p a b s }
    ensures bounds { Bounded (p + 1) result }
{
    let n = inner::escapes(a, b);
    let start = inner::lookup_start(s.context, frame.rate, frame.ne, 2 * p);
    let sum = s.sum + pair_cost(tables, frame.mode, start, a, b, n);
    let next = Running {
        sum,
        least: s.least + least_bits(frame.mode, a, b, n),
        context: inner::context_behind(s.context, a, b, n),
        ..s
    };
    if keeps(frame.target, a, b, sum) {
        Running {
            place: 2 * p + 2,
            kept: sum,
            ..next
        }
    } else {
        next
    }
}

fn pair_cost(tables: &PassedSet, mode: bool, start: usize, a: usize, b: usize, n: usize) -> u32
    requires { (start < 1024) × (a ≤ 32768) × (b ≤ 32768) × (n ≡ escapes a b) }
    ensures value { result ≡ pair_cost tables.now.lookup.now tables.now.bits.now mode start a b }
    ensures most { result ≤ 1044465 }
{
    let symbol = inner::pair_symbol(a, b, n);
    escapes_cost(tables, mode, start, n)
        + symbol_cost(tables, start, n, symbol)
        + sign_cost(a)
        + sign_cost(b)
}

fn escapes_cost(tables: &PassedSet, mode: bool, start: usize, n: usize) -> u32
    requires { (start < 1024) × (n ≤ 14) }
    ensures value { result ≡ escapes_cost tables.now.lookup.now tables.now.bits.now mode start n }
    ensures most { result ≤ 69631 * n }
{
    let mut cost: u32 = 0;
    for level in 0..n {
        cost += symbol_cost(tables, start, level, 16) + tail_cost(mode, level);
    }
    cost
}

fn symbol_cost(tables: &PassedSet, start: usize, level: usize, symbol: usize) -> u32
    requires { (start < 1024) × (symbol ≤ 16) }
    ensures value { result ≡ symbol_cost tables.now.lookup.now tables.now.bits.now start level symbol }
    ensures most { result ≤ 65535 }
{
    let index = 17 * inner::row(tables.lookup, start, level) + symbol;
    u32::from(tables.bits[index])
}

fn tail_cost(mode: bool, level: usize) -> u32
    ensures value { result ≡ tail_cost mode level }
    ensures most { result ≤ 4096 }
{
    if mode && level == 0 { 0 } else { 4096 }
}

fn sign_cost(a: usize) -> u32
    ensures value { result ≡ sign_cost a }
    ensures most { result ≤ 2048 }
{
    if a == 0 { 0 } else { 2048 }
}

fn least_bits(mode: bool, a: usize, b: usize, n: usize) -> usize
    requires { n ≡ escapes a b }
    ensures value { result ≡ least_bits mode a b }
    ensures most { result ≤ 4 }
{
    if mode && 0 < n {
        2 + usize::from(a == 1) + usize::from(b == 1)
    } else {
        0
    }
}

// Whether the lines up to this pair are kept.
fn keeps(target: usize, a: usize, b: usize, sum: u32) -> bool
    requires { sum ≤ 208893000 }
    ensures { result ≡ Private.keeps target a b sum }
{
    !is_zero(a, b) && whole_bits(sum) <= target
}

// The ceiling of a sum over 2,048.
fn whole_bits(sum: u32) -> usize
    requires { sum ≤ 208893000 }
    ensures { result ≡ whole_bits sum }
{
    sum.div_ceil(2048) as usize
}
