// The reading behind the checks 1 to 4, for runs over many frames. Lines and levels stand in local arrays until the frame is accepted.
ghost use Rattle.std.specs.Prelude.{◌≡◌, true, [], ◌++◌, ℕ, ◌+◌, ◌-◌, ◌*◌, ◌≤◌, length, take, drop, replicate, ℤ, pos};
ghost use Rattle.common.specs.Reply.{accepted, answer_by};
ghost use Rattle.common.specs.Configuration.{frame_lines};
ghost use Rattle.common.specs.TableSets.{coded_of};
ghost use Rattle.range_decoder.specs.Decoder.{range_passes};
ghost use Rattle.side_info.specs.Reader.{read_all, reply_of as side_reply};
ghost use Rattle.residual_data.specs.Private.{AtMost};
ghost use Rattle.frame_reader.specs.Frame.{start_in, read_data};
ghost use Rattle.frame_reader.specs.Returned.{reply_of};
ghost use Rattle.frame_reader.specs.Private.{Low, Standing, read_coded, read_on, held, held_in, data_of, shown, shown_of, shown_at, shown_late, shown_residual, shown_finished};

use crate::{FrameError, FrameRead, Numbers};
use buffer_reader::{BufferError, Cursor};
use coding::Met;
use common::configuration::Configuration;
use common::table_set::CodedTables;
use range_decoder::DecoderState;
use side_info::SideInfo;
use side_info::fields::SideInfoError;

// What is known of a frame before its residual bits, beside the arrays.
#[derive(Clone, Copy)]
pub(crate) struct Known {
    pub side: SideInfo,
    pub first_order: usize,
    pub second_order: usize,
    pub range: u32,
}

// What the coder fills: a frame's indices, lines and levels, in arrays that are long enough for any frame.
#[derive(Drop)]
pub(crate) struct Stored {
    pub indices: [usize; 16],
    pub lines: [i32; 400],
    pub levels: [u8; 200],
}

// The side information's refusals. In a frame none of its fields lacks room, so only its own checks' can come.
fn of_side(e: SideInfoError) -> FrameError
    requires { Low (side_reply e) }
    ensures { reply_of result ≡ side_reply e }
{
    match e {
        SideInfoError::OutsideLimits => FrameError::OutsideLimits,
        SideInfoError::BandwidthIdxOutOfRange(bandwidth) => FrameError::BandwidthIdxOutOfRange(
            bandwidth,
        ),
        SideInfoError::LastNonZeroTupleGreaterThanYLen(lastnz, ne) =>
            FrameError::LastNonZeroTupleGreaterThanYLen(lastnz, ne),
        SideInfoError::PlcTriggerSns1OutOfRange(j) => FrameError::PlcTriggerSns1OutOfRange(j),
        SideInfoError::PlcTriggerSns2OutOfRange(j) => FrameError::PlcTriggerSns2OutOfRange(j),
        SideInfoError::Buffer(BufferError::WrongLength(len)) => FrameError::WrongLength(len),
        SideInfoError::Buffer(_) => unreachable!(),
    }
}

// A refused frame: lists of zeros, and the lent lines as they were.
pub(crate) fn refused(e: FrameError) -> FrameRead
    ensures outcome { result.outcome ≡ Err e }
    ensures indices { result.indices ≡ replicate 16 0 }
    ensures residual { result.residual ≡ replicate 400 0 }
{
    FrameRead {
        outcome: Err(e),
        indices: [0; 16],
        residual: [0; 400],
    }
}

// TNS data and pairs, by the coder from its start on.
fn read_coded(
    state: DecoderState,
    buf: &[u8],
    at: Cursor,
    tables: &CodedTables,
    configuration: Configuration,
    ne: usize,
    side: SideInfo,
    stored: &mut Stored,
) -> Result<(Known, Cursor), FrameError>
    requires { (frame_lines configuration (length buf.now) ≡ accepted ne) × (range_passes state.range ≡ true) × (side.lastnz ≤ 400) × (stored.old.indices ≡ replicate 16 0) × (length stored.old.lines ≡ 400) × (length stored.old.levels ≡ 200) }
    ensures { data_of result stored.new.indices stored.new.lines stored.new.levels ≡ held stored.old.lines stored.old.levels (read_coded configuration (coded_of tables.now) (8 * length buf.now) ne side state buf.now at) }
{
    let bits = 8 * buf.len();
    let (first_order, second_order, s, c) = tns_data::inner::read_tns(
        state,
        buf,
        at,
        &tables.tns,
        tns_data::inner::weighting_row(configuration.duration, bits),
        side.tns_first,
        side.tns_second,
        &mut stored.indices,
    )?;
    let (last, next) = spectral_data::inner::read_pairs(
        s,
        buf,
        c,
        &tables.pairs,
        configuration.reading == 1,
        side.lsb == 1,
        contexts::inner::rate_flag(bits, configuration.fs_ind),
        ne,
        side.lastnz as usize / 2,
        &mut stored.lines,
        &mut stored.levels,
    )?;
    let known = Known {
        side,
        first_order,
        second_order,
        range: last.range,
    };
    Ok((known, next))
}

// The side information, from the frame's start.
fn read_side(
    buf: &[u8],
    configuration: Configuration,
    ne: usize,
) -> Result<(SideInfo, Cursor), FrameError>
    requires { frame_lines configuration (length buf.now) ≡ accepted ne }
    ensures { answer_by reply_of result ≡ read_all configuration.fs_ind ne buf.now (record { head = 0; tail = 0 }) }
{
    let origin = Cursor { head: 0, tail: 0 };
    side_info::inner::read(buf, origin, configuration.fs_ind, ne).map_err(of_side)
}

// The coder's start, in its step.
fn start(buf: &[u8], at: Cursor) -> Result<(DecoderState, Cursor), FrameError>
    requires { length buf.now ≤ 65535 }
    ensures { answer_by reply_of result ≡ start_in buf.now at }
{
    coding::inner::start(buf, at).map_err(|e| FrameError::Step(Met::Start(e)))
}

// Side information, the coder's start, and what the coder reads.
fn read_data(
    buf: &[u8],
    tables: &CodedTables,
    configuration: Configuration,
    ne: usize,
    stored: &mut Stored,
) -> Result<(Known, Cursor), FrameError>
    requires { (frame_lines configuration (length buf.now) ≡ accepted ne) × (stored.old.indices ≡ replicate 16 0) × (length stored.old.lines ≡ 400) × (length stored.old.levels ≡ 200) }
    ensures { data_of result stored.new.indices stored.new.lines stored.new.levels ≡ held stored.old.lines stored.old.levels (read_data configuration (coded_of tables.now) (8 * length buf.now) ne buf.now (record { head = 0; tail = 0 })) }
{
    let (side, at) = read_side(buf, configuration, ne)?;
    let (state, next) = start(buf, at)?;
    read_coded(state, buf, next, tables, configuration, ne, side, stored)
}

// The lines at the front of the lent buffer, and zeros behind them to its end.
fn lay_lines(from: &[i32; 400], ne: usize, lines: &mut [i32])
    requires { (ne ≤ length from.now) × (ne ≤ length lines.old) }
    ensures { lines.new ≡ take ne from.now ++ replicate (length lines.old - ne) (pos 0) }
{
    lines[..ne].copy_from_slice(&from[..ne]);
    lines[ne..].fill(0);
}

// An accepted frame: its numbers, and its lines in the lent buffer.
fn accept(
    reading: usize,
    ne: usize,
    known: Known,
    at: Cursor,
    count: usize,
    bits: [u8; 400],
    stored: &Stored,
    lines: &mut [i32],
) -> FrameRead
    requires { (2 ≤ ne) × (ne ≤ 400) × (ne ≤ length lines.old) × (length stored.now.lines ≡ 400) × AtMost 81920 stored.now.lines }
    ensures { shown_of result lines.new ≡ shown_at reading ne known at count stored.now.indices bits stored.now.lines lines.old }
{
    lay_lines(&stored.lines, ne, lines);
    let side = known.side;
    let zero = residual_data::inner::zero_flag(
        reading,
        side.lastnz as usize,
        side.gain,
        side.noise,
        stored.lines[0],
        stored.lines[1],
    );
    let numbers = Numbers {
        side,
        first_order: known.first_order,
        second_order: known.second_order,
        residual_count: count,
        seed: residual_data::inner::seed(&stored.lines, ne),
        zero,
        cursor: at,
        range: known.range,
    };
    FrameRead {
        outcome: Ok(numbers),
        indices: stored.indices,
        residual: bits,
    }
}

// In least-bit mode what comes late alters lines, and there is no list.
fn with_late(
    buf: &[u8],
    reading: usize,
    ne: usize,
    known: Known,
    at: Cursor,
    room: usize,
    stored: &mut Stored,
    lines: &mut [i32],
) -> FrameRead
    requires { Standing ne buf.now at known.range known.side.lastnz × (at.tail + room ≤ 8 * length buf.now) × (ne ≤ length lines.old) × (length stored.old.lines ≡ 400) × (length stored.old.levels ≡ 200) × AtMost 81919 stored.old.lines }
    ensures { shown_of result lines.new ≡ shown_late reading ne buf.now (held_in known stored.old) at room lines.old }
{
    let pairs = known.side.lastnz as usize / 2;
    let tail = residual_data::inner::late_lines(
        buf,
        at.tail,
        room,
        reading,
        &stored.levels,
        pairs,
        &mut stored.lines,
    );
    let last = Cursor { tail, ..at };
    accept(reading, ne, known, last, 0, [0; 400], stored, lines)
}

// Outside it, a bit for each nonzero line.
fn with_residual(
    buf: &[u8],
    reading: usize,
    ne: usize,
    known: Known,
    at: Cursor,
    room: usize,
    stored: &Stored,
    lines: &mut [i32],
) -> FrameRead
    requires { Standing ne buf.now at known.range known.side.lastnz × (at.tail + room ≤ 8 * length buf.now) × (ne ≤ length lines.old) × (length stored.now.lines ≡ 400) × AtMost 81919 stored.now.lines }
    ensures { shown_of result lines.new ≡ shown_residual reading ne buf.now (held_in known stored.now) at room lines.old }
{
    let mut bits = [0; 400];
    let count = residual_data::inner::residual_bits(
        buf,
        at.tail,
        room,
        &stored.lines,
        ne,
        &mut bits,
    );
    let last = Cursor {
        tail: at.tail + count,
        ..at
    };
    accept(reading, ne, known, last, count, bits, stored, lines)
}

// What is left behind the data, or 12.
fn finish(
    buf: &[u8],
    reading: usize,
    ne: usize,
    known: Known,
    at: Cursor,
    stored: &mut Stored,
    lines: &mut [i32],
) -> FrameRead
    requires { Standing ne buf.now at known.range known.side.lastnz × (ne ≤ length lines.old) × (length stored.old.lines ≡ 400) × (length stored.old.levels ≡ 200) × AtMost 81919 stored.old.lines }
    ensures { shown_of result lines.new ≡ shown_finished reading ne buf.now (held_in known stored.old) at lines.old }
{
    let Some(room) = residual_data::inner::available(8 * buf.len(), at, known.range) else {
        return refused(FrameError::NegativeResidualNumBits);
    };
    if known.side.lsb == 1 {
        return with_late(buf, reading, ne, known, at, room, stored, lines);
    }
    with_residual(buf, reading, ne, known, at, room, stored, lines)
}

// A frame whose configuration, length, tables and line buffer have been judged.
pub fn read(
    configuration: Configuration,
    ne: usize,
    tables: &CodedTables,
    frame: &[u8],
    lines: &mut [i32],
) -> FrameRead
    requires { (frame_lines configuration (length frame.now) ≡ accepted ne) × (ne ≤ length lines.old) }
    ensures { shown_of result lines.new ≡ shown configuration.reading (read_on configuration (coded_of tables.now) ne frame.now) lines.old }
{
    let mut stored = Stored {
        indices: [0; 16],
        lines: [0; 400],
        levels: [0; 200],
    };
    match read_data(frame, tables, configuration, ne, &mut stored) {
        Ok((known, at)) => finish(
            frame,
            configuration.reading,
            ne,
            known,
            at,
            &mut stored,
            lines,
        ),
        Err(e) => refused(e),
    }
}
