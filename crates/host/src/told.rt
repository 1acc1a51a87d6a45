// An accepted frame's numbers and a refusal's place, as arrays of fixed length.
ghost use Rattle.std.specs.Prelude.{◌≡◌};
ghost use Rattle.coding.specs.Coding.{refusal_of, met_of};
ghost use Rattle.frame_reader.specs.Returned.{reply_of};
ghost use Rattle.frame_writer.specs.Returned.{reply_of as Written·reply_of};
ghost use Rattle.host.specs.Told.{words_of, counts_of, place_of};
ghost use Rattle.host.specs.Private.{in_place};
ghost use Rattle.recording.specs.Writer.{reply_of as Field·reply_of};

use coding::{Met, Refusal};
use frame_reader::{FrameError, Numbers};
use frame_writer::WriteError;
use recording::writer::FieldWriteError;

pub(crate) fn words(n: Numbers) -> [u32; 22]
    ensures { result ≡ words_of n }
{
    let s = n.side;
    [
        s.bandwidth,
        s.lastnz,
        s.lsb,
        s.gain,
        s.tns_first,
        s.tns_second,
        s.pitch,
        s.sns.lf,
        s.sns.hf,
        s.sns.msb,
        s.sns.submode_lsb,
        s.sns.gain,
        s.sns.ls_inda,
        s.sns.idx_a,
        s.sns.ls_indb,
        s.sns.idx_b,
        s.active,
        s.index,
        s.noise,
        n.seed,
        u32::from(n.zero),
        n.range,
    ]
}

pub(crate) fn counts(n: Numbers) -> [usize; 5]
    ensures { result ≡ counts_of n }
{
    [
        n.first_order,
        n.second_order,
        n.residual_count,
        n.cursor.head,
        n.cursor.tail,
    ]
}

fn in_step(e: Refusal, step: usize, first: usize, second: usize) -> [usize; 5]
    ensures { result ≡ in_place (refusal_of e) step first second }
{
    match e {
        Refusal::NoTailRoom(width, place) => [width, place, step, first, second],
        Refusal::PastEnd(head) => [head, 0, step, first, second],
        Refusal::LowBeyondLimit(low, limit) => [low as usize, limit as usize, step, first, second],
    }
}

fn met_place(m: Met) -> [usize; 5]
    ensures { result ≡ place_of (met_of m) }
{
    match m {
        Met::Side(e) => in_step(e, 1, 0, 0),
        Met::Start(e) => in_step(e, 2, 0, 0),
        Met::Order(f, e) => in_step(e, 3, f, 0),
        Met::Coef(f, k, e) => in_step(e, 4, f, k),
        Met::Symbol(pair, level, e) => in_step(e, 5, pair, level),
        Met::Bit(pair, level, e) => in_step(e, 6, pair, level),
    }
}

pub(crate) fn place(e: FrameError) -> [usize; 5]
    ensures { result ≡ place_of (reply_of e) }
{
    match e {
        FrameError::OutsideLimits | FrameError::TablesFail | FrameError::NegativeResidualNumBits =>
            [0; 5],
        FrameError::WrongLength(n) | FrameError::WrongCount(n) | FrameError::FourteenEscapes(n) => {
            [n, 0, 0, 0, 0]
        }
        FrameError::BandwidthIdxOutOfRange(n)
        | FrameError::PlcTriggerSns1OutOfRange(n)
        | FrameError::PlcTriggerSns2OutOfRange(n) => [n as usize, 0, 0, 0, 0],
        FrameError::LastNonZeroTupleGreaterThanYLen(lastnz, ne) => [lastnz as usize, ne, 0, 0, 0],
        FrameError::Step(m) => met_place(m),
    }
}

fn refusal_number(e: Refusal) -> u32
    ensures { result ≡ (refusal_of e).number }
{
    match e {
        Refusal::NoTailRoom(_, _) => 9,
        Refusal::PastEnd(_) => 10,
        Refusal::LowBeyondLimit(_, _) => 11,
    }
}

fn met_number(m: Met) -> u32
    ensures { result ≡ (met_of m).number }
{
    match m {
        Met::Side(e)
        | Met::Start(e)
        | Met::Order(_, e)
        | Met::Coef(_, _, e)
        | Met::Symbol(_, _, e)
        | Met::Bit(_, _, e) => refusal_number(e),
    }
}

pub(crate) fn number(e: FrameError) -> u32
    ensures { result ≡ (reply_of e).number }
{
    match e {
        FrameError::OutsideLimits => 1,
        FrameError::WrongLength(_) => 2,
        FrameError::TablesFail => 3,
        FrameError::WrongCount(_) => 4,
        FrameError::BandwidthIdxOutOfRange(_) => 5,
        FrameError::LastNonZeroTupleGreaterThanYLen(_, _) => 6,
        FrameError::PlcTriggerSns1OutOfRange(_) => 7,
        FrameError::PlcTriggerSns2OutOfRange(_) => 8,
        FrameError::Step(m) => met_number(m),
        FrameError::FourteenEscapes(_) => 19,
        FrameError::NegativeResidualNumBits => 12,
    }
}

pub(crate) fn write_place(e: WriteError) -> [usize; 5]
    ensures { result ≡ place_of (Written·reply_of e) }
{
    match e {
        WriteError::OutsideLimits
        | WriteError::TablesFail
        | WriteError::FieldOutside
        | WriteError::ResidualTooLong
        | WriteError::NoRoom => [0; 5],
        WriteError::WrongLength(n) | WriteError::WrongCount(n) | WriteError::LineOutside(n) => {
            [n, 0, 0, 0, 0]
        }
    }
}

pub(crate) fn write_number(e: WriteError) -> u32
    ensures { result ≡ (Written·reply_of e).number }
{
    match e {
        WriteError::OutsideLimits => 1,
        WriteError::WrongLength(_) => 2,
        WriteError::TablesFail => 3,
        WriteError::WrongCount(_) => 4,
        WriteError::FieldOutside => 13,
        WriteError::LineOutside(_) => 14,
        WriteError::ResidualTooLong => 15,
        WriteError::NoRoom => 16,
    }
}

pub(crate) fn field_place(e: FieldWriteError) -> [usize; 5]
    ensures { result ≡ place_of (Field·reply_of e) }
{
    match e {
        FieldWriteError::NoPlace(offset) => [offset, 0, 0, 0, 0],
        FieldWriteError::Frame(w) => write_place(w),
    }
}

pub(crate) fn field_number(e: FieldWriteError) -> u32
    ensures { result ≡ (Field·reply_of e).number }
{
    match e {
        FieldWriteError::NoPlace(_) => 18,
        FieldWriteError::Frame(w) => write_number(w),
    }
}
